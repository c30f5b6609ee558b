//! Sockets that are held to a clock.
ghost use Rattle.std.specs.Prelude.{⊤};

use crate::clients::{AfterText, Bound, Callers, waiting_client};
use crate::clocks::Slow;
use crate::desks::{assert_same, first_of_march};
use addr::Day;
use cli_tasks::serve::{AnswerConnections, Connections, Incoming, Socket, Timed};
use requests::Routes;
use std::alloc::Global;
use std::io::{Read, Write};
use std::net::{TcpListener, TcpStream};
use std::process::Abort;
use std::rt::HostRuntime;
use std::time::{Duration, Instant};
use web::{Drain, Extent, Failed, Source, WebFault};

/// The two ends of a connection.
fn connect(test: &impl Abort, rt: &HostRuntime) -> (TcpStream, TcpStream) {
    let (client, listener) = waiting_client(test, rt);
    let (stream, _) = listener.accept().expect(test, "a connection");
    (client, stream)
}

/// How long a connection has lasted at a call, and the timeout that the socket then has, in
/// milliseconds.
const TIMEOUTS: [(u64, u64); 3] = [(0, 30_000), (29_000, 1_000), (29_500, 500)];

/// A read and then a write set the timeout, each its own.
fn assert_timeout(
    test: &impl Abort,
    clock: &Slow,
    stream: &TcpStream,
    began: Option<Instant>,
    timeout: Duration,
) {
    let timeout = Some(timeout);
    let mut peer = Socket::new(clock, stream, began);
    let mut socket = Timed::new(&mut peer);
    assert_same(test, socket.read(&mut [0; 4]).ok(), Some(1), timeout);
    assert_same(test, stream.read_timeout().ok(), Some(timeout), timeout);
    assert_same(test, stream.write_timeout().ok(), Some(None), timeout);
    assert_same(test, socket.write(b"a").ok(), Some(1), timeout);
    assert_same(test, stream.write_timeout().ok(), Some(timeout), timeout);
}

/// A row of `TIMEOUTS` holds of a connection.
fn assert_time_left(test: &impl Abort, rt: &HostRuntime, (elapsed, timeout): (u64, u64)) {
    let (mut client, stream) = connect(test, rt);
    client.write_all(b"a").expect(test, "a client");
    let clock = Slow::by(Duration::ZERO);
    let began = Instant::now(&clock).ok();
    clock.advance(Duration::from_millis(elapsed));
    assert_timeout(test, &clock, &stream, began, Duration::from_millis(timeout));
}

#[test]
fn a_call_has_the_time_that_is_left(rt: HostRuntime) {
    for row in &TIMEOUTS {
        assert_time_left(&rt, &rt, *row);
    }
}

/// Each of the streams has a call a second for 29 seconds, and fails then.
fn assert_calls<R: Read, W: Write>(test: &impl Abort, from: &mut R, to: &mut W) {
    let mut piece = [0; 1];
    for number in 1..=31 {
        let is_in_time = number <= 29;
        assert_same(test, from.read(&mut piece).is_ok(), is_in_time, number);
        assert_same(test, to.write(b"a").is_ok(), is_in_time, number);
    }
}

/// Calls on the stream are made a second apart.
fn assert_seconds(test: &impl Abort, stream: &TcpStream) {
    let second = Duration::from_secs(1);
    let (reading, writing) = (Slow::by(second), Slow::by(second));
    let mut from = Socket::new(&reading, stream, Instant::now(&reading).ok());
    let mut to = Socket::new(&writing, stream, Instant::now(&writing).ok());
    assert_calls(test, &mut Timed::new(&mut from), &mut Timed::new(&mut to));
}

#[test]
fn calls_a_second_apart_are_made_for_30_seconds(rt: HostRuntime) {
    let (mut client, stream) = connect(&rt, &rt);
    let sent = client.write_all([b'a'; 31].as_slice());
    sent.expect(&rt, "a client");
    assert_seconds(&rt, &stream);
}

/// What is done of a connection whose client sends and takes nothing.
#[derive(Clone, Copy)]
enum Action {
    Read,
    WriteOn,
    AnswerPart,
    AnswerWhole,
}

/// Does one thing of a connection, shortly before its time is up.
#[derive(Drop)]
struct Late<'a> {
    clock: &'a Slow,
    action: Action,
    written: usize,
}

/// How many pieces no socket has room for.
const PIECES: u32 = 4096;

impl Late<'_> {
    /// Writes pieces until the drain fails.
    fn write_on<D: Drain>(&mut self, drain: &mut D) {
        let piece = [b'a'; 16_384];
        for _ in 0..PIECES {
            match drain.write(&piece) {
                Ok(count) if count > 0 => self.written = self.written.saturating_add(count),
                _ => return,
            }
        }
    }
}

impl AnswerConnections for Late<'_> {
    ghost answers = { λ _ _ _ _. ⊤ };

    ghost tells_ready = { λ _ _ _. ⊤ };

    ghost readied = { λ _ _ _. ⊤ };

    fn is_ready(&self, _day: Day) -> bool {
        false
    }

    fn make_ready(&mut self, _day: Day) {}

    fn answer<S: Source, D: Drain>(
        &mut self,
        _alloc: Global,
        _routes: Option<&Routes>,
        source: &mut S,
        drain: &mut D,
        _day: Day,
    ) -> Result<Extent, WebFault> {
        self.clock.advance(Duration::from_millis(29_950));
        match self.action {
            Action::Read => match source.read(&mut [0; 4]) {
                Ok(_) => Ok(Extent::Whole),
                Err(Failed) => Err(WebFault::Read),
            },
            Action::WriteOn => {
                self.write_on(drain);
                Err(WebFault::Write)
            }
            Action::AnswerPart => Ok(Extent::Part),
            Action::AnswerWhole => Ok(Extent::Whole),
        }
    }
}

/// What is done of the connection, what becomes of it, and how often the clock is read, where that
/// is known.
const SILENT: [(&str, Action, Result<Extent, WebFault>, Option<u32>); 4] = [
    ("a read", Action::Read, Err(WebFault::Read), Some(2)),
    (
        "a long response",
        Action::WriteOn,
        Err(WebFault::Write),
        None,
    ),
    (
        "a part, and the rest",
        Action::AnswerPart,
        Ok(Extent::Part),
        Some(2),
    ),
    ("the whole", Action::AnswerWhole, Ok(Extent::Whole), Some(1)),
];

/// Has a connection answered, in less than ten seconds.
fn answer_soon<C: Connections>(
    test: &impl Abort,
    rt: &HostRuntime,
    connections: &mut C,
    late: &mut Late<'_>,
) -> Result<Result<Extent, WebFault>, Failed> {
    connections.listen().expect(test, "a socket");
    let start = Instant::now(rt).expect(test, "the time");
    let ended = connections.answer_next(rt.alloc(), None, late, first_of_march(test));
    let taken = start.elapsed(rt).expect(test, "the time");
    assert!(test; taken < Duration::from_secs(10), "{taken:?}");
    ended
}

/// How many bytes a client still has to take.
fn bytes_left(test: &impl Abort, client: &mut TcpStream) -> usize {
    let mut piece = [0; 16_384];
    let mut left = 0usize;
    for _ in 0..u64::MAX {
        let count = client.read(&mut piece).expect(test, "bytes");
        if count == 0 {
            break;
        }
        left = left.saturating_add(count);
    }
    left
}

/// A row of `SILENT` becomes of the connection of the client with this text.
fn assert_silent(
    test: &impl Abort,
    rt: &HostRuntime,
    callers: &mut Callers<'_>,
    (name, action, expected, readings): (&str, Action, Result<Extent, WebFault>, Option<u32>),
) {
    let clock = Slow::by(Duration::ZERO);
    let mut late = Late {
        clock: &clock,
        action,
        written: 0,
    };
    let ended = {
        let mut connections = Incoming::new(&clock, callers, "127.0.0.1:0");
        answer_soon(test, rt, &mut connections, &mut late)
    };
    assert_same(test, ended, Ok(expected), name);
    if let Some(count) = readings {
        assert_same(test, clock.readings(), count, name);
    }
    for client in &mut callers.clients {
        assert_same(test, bytes_left(test, client), late.written, name);
    }
}

#[test]
fn a_silent_client_does_not_hold_the_desk(rt: HostRuntime) {
    let texts = vec![in rt.alloc(); String::new(rt.alloc())].expect(&rt, "texts");
    for row in &SILENT {
        let mut callers = Callers::new(&rt, &texts, AfterText::StaysOpen);
        assert_silent(&rt, &rt, &mut callers, *row);
    }
}

/// A connection that cannot be accepted has not read the clock.
fn assert_not_begun<C: Connections>(
    test: &impl Abort,
    alloc: Global,
    connections: &mut C,
    clock: &Slow,
) {
    let mut late = Late {
        clock,
        action: Action::AnswerWhole,
        written: 0,
    };
    connections.listen().expect(test, "a socket");
    let ended = connections.answer_next(alloc, None, &mut late, first_of_march(test));
    assert_same(test, ended, Err(Failed), "no client");
    assert_same(test, clock.readings(), 0, "no client");
}

#[test]
fn time_begins_once_a_connection_is_accepted(rt: HostRuntime) {
    let listener = TcpListener::bind(&rt, "127.0.0.1:0").expect(&rt, "a socket");
    // With no client to wait for, accepting fails.
    listener.set_nonblocking(true).expect(&rt, "a socket");
    let clock = Slow::by(Duration::ZERO);
    let mut network = Bound(Some(listener));
    let mut connections = Incoming::new(&clock, &mut network, "");
    assert_not_begun(&rt, rt.alloc(), &mut connections, &clock);
}
