//! The lines on connections that failed.
ghost use Rattle.std.specs.Prelude.{None, true};

use crate::desks::{assert_same, first_of_march, on_desk};
use addr::Day;
use cli_tasks::serve::{AnswerConnections, Connections, Printed, answer_each};
use desk::Desk;
use requests::Routes;
use sqlite::MemStore;
use std::alloc::Global;
use std::io::{self, ErrorKind, Read, Write};
use std::process::Abort;
use std::rt::HostRuntime;
use web::{Device, Extent, Failed, WebFault};

/// The reads of a connection that its peer reset before it was accepted.
#[derive(Drop)]
struct Reset;

impl Read for Reset {
    fn read(&mut self, _buffer: &mut [u8]) -> io::Result<usize> {
        Err(ErrorKind::ConnectionReset.into())
    }
}

/// Connections on which a client sends a text, or which it has reset, and takes so many bytes.
/// Accepting a further one fails.
#[derive(Drop)]
pub(crate) struct Clients<'a> {
    clients: &'a [(Option<&'a str>, usize)],
    accepted: usize,
    has_failed: bool,
}

impl<'a> Clients<'a> {
    pub(crate) fn new(clients: &'a [(Option<&'a str>, usize)]) -> Clients<'a> {
        Clients {
            clients,
            accepted: 0,
            has_failed: false,
        }
    }
}

impl Connections for Clients<'_> {
    ghost is_listening = { λ _. true };

    ghost listen_error = { λ _. None };

    ghost has_failed = { λ clients. clients.has_failed };

    fn listen(&mut self) -> io::Result<()> {
        Ok(())
    }

    fn answer_next<E: AnswerConnections>(
        &mut self,
        alloc: Global,
        routes: Option<&Routes>,
        engine: &mut E,
        day: Day,
    ) -> Result<Result<Extent, WebFault>, Failed> {
        let Some((text, room)) = self.clients.get(self.accepted) else {
            self.has_failed = true;
            return Err(Failed);
        };
        self.accepted = self.accepted.saturating_add(1);
        let mut taken = [0; 256];
        let room = (*room).min(taken.len());
        let mut drain = Device::new(&mut taken[..room]);
        let Some(text) = text else {
            return Ok(engine.answer(alloc, routes, &mut Device::new(Reset), &mut drain, day));
        };
        let mut source = Device::new(text.as_bytes());
        Ok(engine.answer(alloc, routes, &mut source, &mut drain, day))
    }
}

const REQUEST: &str = "GET /payloads HTTP/1.1\r\nDesk-Caller: reg\r\nContent-Length: 0\r\n\r\n";

const WHOLE: (Option<&str>, usize) = (Some(REQUEST), 256);

const CUT_SHORT: (Option<&str>, usize) = (Some("GET /payloads HTTP/1.1\r\nDesk-Cal"), 256);

const RESET: (Option<&str>, usize) = (None, 256);

const NOTHING: (Option<&str>, usize) = (Some(""), 0);

/// The connections, how many are wanted, what becomes of the run, and the lines on those that
/// failed.
const RUNS: [(&[(Option<&str>, usize)], u32, Result<(), Failed>, &str); 6] = [
    (&[], 0, Ok(()), ""),
    (&[WHOLE, CUT_SHORT], 1, Ok(()), ""),
    (
        &[WHOLE, CUT_SHORT, WHOLE, (Some(REQUEST), 100), NOTHING],
        5,
        Ok(()),
        "roadesk: connection 2: fault 1\nroadesk: connection 4: fault 2\n\
        roadesk: connection 5: fault 1\n",
    ),
    (
        &[RESET, WHOLE, RESET],
        3,
        Ok(()),
        "roadesk: connection 1: fault 1\nroadesk: connection 3: fault 1\n",
    ),
    (&[], 1, Err(Failed), ""),
    (
        &[CUT_SHORT, WHOLE, (Some(REQUEST), 0)],
        4,
        Err(Failed),
        "roadesk: connection 1: fault 1\nroadesk: connection 3: fault 2\n",
    ),
];

/// Has so many of the connections answered, with the lines on them to the writer.
fn answer_clients<W: Write>(
    test: &impl Abort,
    alloc: Global,
    desk: &mut Desk<MemStore>,
    (clients, count): (&[(Option<&str>, usize)], u32),
    errors: &mut W,
) -> Result<(), Failed> {
    let mut connections = Clients::new(clients);
    let mut log = Printed::new(errors);
    let day = first_of_march(test);
    answer_each(alloc, None, &mut connections, count, desk, day, &mut log)
}

/// A row of `RUNS` becomes of the run.
fn assert_run(
    test: &impl Abort,
    alloc: Global,
    desk: &mut Desk<MemStore>,
    (clients, count, expected, lines): (&[(Option<&str>, usize)], u32, Result<(), Failed>, &str),
) {
    let mut errors = Vec::new(alloc);
    let ended = answer_clients(test, alloc, desk, (clients, count), &mut errors);
    assert_same(test, ended, expected, lines);
    assert_same(test, errors.as_slice(), lines.as_bytes(), lines);
}

#[test]
fn a_line_for_each_fault_and_no_others(rt: HostRuntime) {
    on_desk(&rt, |desk| {
        for row in &RUNS {
            assert_run(&rt, rt.alloc(), desk, *row);
        }
    });
}

/// A writer whose first write fails.
#[derive(Drop)]
struct FailsOnce<'a> {
    has_failed: bool,
    taken: &'a mut Vec<u8>,
}

impl Write for FailsOnce<'_> {
    fn write(&mut self, bytes: &[u8]) -> io::Result<usize> {
        if self.has_failed {
            return self.taken.write(bytes);
        }
        self.has_failed = true;
        Err(ErrorKind::StorageFull.into())
    }

    fn flush(&mut self) -> io::Result<()> {
        Ok(())
    }
}

#[test]
fn a_line_that_cannot_be_written_is_lost(rt: HostRuntime) {
    on_desk(&rt, |desk| {
        let mut taken = Vec::new(rt.alloc());
        let mut errors = FailsOnce {
            has_failed: false,
            taken: &mut taken,
        };
        let clients = [NOTHING, NOTHING];
        let ended = answer_clients(&rt, rt.alloc(), desk, (&clients, 2), &mut errors);
        assert_same(&rt, ended, Ok(()), "two clients");
        let line = b"roadesk: connection 2: fault 1\n".as_slice();
        assert_same(&rt, taken.as_slice(), line, "two clients");
    });
}
