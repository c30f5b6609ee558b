//! Peers that give and take a few bytes at a time.
ghost use Rattle.std.specs.Prelude.{option_map, true};
ghost use Rattle.std.specs.Duration.{as_nanos};
ghost use Rattle.std.specs.Time.{instant_nanos};

use crate::clocks::Slow;
use crate::desks::{assert_same, first_of_march, on_desk};
use cli_tasks::serve::{Peer, answer_in_time};
use desk::Desk;
use sqlite::MemStore;
use std::alloc::Global;
use std::cell::Cell;
use std::io::{self, Read, Write};
use std::process::Abort;
use std::rt::HostRuntime;
use std::time::{Duration, Instant};
use web::{Extent, WebFault};

/// A peer that gives and takes at most so many bytes at a call.
#[derive(Drop)]
struct Trickle<'a> {
    clock: &'a Slow,
    most: usize,
    rest: &'a [u8],
    left: &'a Cell<usize>,
    taken: &'a mut Vec<u8>,
    began: Option<Instant>,
    last_seen: Option<Instant>,
    read_timeout: Option<Duration>,
    write_timeout: Option<Duration>,
}

impl<'a> Trickle<'a> {
    fn new(
        clock: &'a Slow,
        most: usize,
        rest: &'a [u8],
        left: &'a Cell<usize>,
        taken: &'a mut Vec<u8>,
    ) -> Trickle<'a> {
        Trickle {
            clock,
            most,
            rest,
            left,
            taken,
            began: Instant::now(clock).ok(),
            last_seen: None,
            read_timeout: None,
            write_timeout: None,
        }
    }
}

impl Peer for Trickle<'_> {
    ghost began = { λ peer. option_map instant_nanos peer.began };

    ghost last_seen = { λ peer. option_map instant_nanos peer.last_seen };

    ghost read_timeout = { λ peer. option_map as_nanos peer.read_timeout };

    ghost write_timeout = { λ peer. option_map as_nanos peer.write_timeout };

    ghost has_ended_writing = { λ _. true };

    fn began(&self) -> Option<Instant> {
        self.began
    }

    fn now(&mut self) -> io::Result<Instant> {
        self.last_seen = None;
        let now = Instant::now(self.clock)?;
        self.last_seen = Some(now);
        Ok(now)
    }

    fn set_read_timeout(&mut self, timeout: Duration) -> io::Result<()> {
        self.read_timeout = Some(timeout);
        Ok(())
    }

    fn set_write_timeout(&mut self, timeout: Duration) -> io::Result<()> {
        self.write_timeout = Some(timeout);
        Ok(())
    }

    fn read(&mut self, buffer: &mut [u8]) -> io::Result<usize> {
        self.last_seen = None;
        let count = self.most.min(buffer.len());
        let given = self.rest.read(&mut buffer[..count])?;
        self.left.set(self.rest.len());
        Ok(given)
    }

    fn end_writing(&mut self) -> io::Result<()> {
        Ok(())
    }

    fn write(&mut self, bytes: &[u8]) -> io::Result<usize> {
        self.last_seen = None;
        let count = self.most.min(bytes.len());
        self.taken.write(&bytes[..count])
    }
}

const RESPONSE: &str = "HTTP/1.1 200 OK\r\nContent-Type: text/csv\r\nContent-Length: 21\r\n\
    Connection: close\r\n\r\nasn,prefix,maxlength\n";

/// A request, and bytes after its end.
const TWO_REQUESTS: &[u8] =
    b"GET /payloads HTTP/1.1\r\nDesk-Caller: reg\r\nContent-Length: 0\r\n\r\nGET /";

/// How many bytes pass at a call, the seconds between two readings of the clock on the side that
/// reads and on the one that writes, what becomes of the connection, and how many bytes the client
/// still has to send.
const TRICKLES: [(usize, u64, u64, Result<Extent, WebFault>, &str, usize); 3] = [
    (3, 0, 0, Ok(Extent::Whole), RESPONSE, 5),
    (1, 1, 0, Err(WebFault::Read), "", 39),
    (3, 0, 30, Err(WebFault::Write), "", 5),
];

/// Has `TWO_REQUESTS` answered, of which so many bytes are left unread, and a response taken.
fn answer_trickling(
    test: &impl Abort,
    alloc: Global,
    desk: &mut Desk<MemStore>,
    (most, reading, writing): (usize, u64, u64),
    unread: &Cell<usize>,
    taken: &mut Vec<u8>,
) -> Result<Extent, WebFault> {
    let reading = Slow::by(Duration::from_secs(reading));
    let writing = Slow::by(Duration::from_secs(writing));
    let none = Cell::new(0);
    let mut sent = Vec::new(alloc);
    let mut from = Trickle::new(&reading, most, TWO_REQUESTS, unread, &mut sent);
    let mut to = Trickle::new(&writing, most, b"", &none, taken);
    let day = first_of_march(test);
    answer_in_time(alloc, None, &mut from, &mut to, desk, day)
}

/// A row of `TRICKLES` becomes of its connection.
fn assert_trickle(
    test: &impl Abort,
    alloc: Global,
    desk: &mut Desk<MemStore>,
    (most, reading, writing, expected, response, left): (
        usize,
        u64,
        u64,
        Result<Extent, WebFault>,
        &str,
        usize,
    ),
) {
    let unread = Cell::new(TWO_REQUESTS.len());
    let mut taken = Vec::new(alloc);
    let pace = (most, reading, writing);
    let ended = answer_trickling(test, alloc, desk, pace, &unread, &mut taken);
    assert_same(test, ended, expected, pace);
    assert_same(test, taken.as_slice(), response.as_bytes(), pace);
    assert_same(test, unread.get(), left, pace);
}

#[test]
fn peers_that_trickle(rt: HostRuntime) {
    on_desk(&rt, |desk| {
        for row in &TRICKLES {
            assert_trickle(&rt, rt.alloc(), desk, *row);
        }
    });
}
