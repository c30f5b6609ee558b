//! How a script is read and its replies are written: pieces, ends, failures and the limit of a line.
use crate::fakes::{Drip, Peer, Tape};
use crate::ready::{assert_same, on_new_desk};
use desk::Desk;
use sqlite::MemStore;
use std::alloc::Global;
use std::cell::Cell;
use std::io::{BufWriter, Error, ErrorKind, Read, Write};
use std::process::Abort;
use test_library::sheet::Sheet;
use web::{Device, Drain, ScriptFault, Source, run_script, write_all};

#[derive(Drop)]
struct ScriptOutcome {
    result: Result<(), ScriptFault>,
    written: Vec<u8>,
}

/// A script that comes in pieces, and then ends or fails, and how many bytes the device for its
/// replies takes.
#[derive(Clone, Copy)]
struct Script<'a> {
    bytes: &'a [u8],
    piece: usize,
    fails: bool,
    room: usize,
}

fn run_into(
    alloc: Global,
    desk: &mut Desk<MemStore>,
    script: &Script,
    sheet: &mut Sheet,
) -> Result<(), ScriptFault> {
    let mut source = Device::new(Tape {
        bytes: script.bytes,
        piece: script.piece,
        fails: script.fails,
        is_interrupted: false,
    });
    let mut drain = Device::new(sheet);
    run_script(alloc, &mut source, &mut drain, desk)
}

fn run(alloc: Global, desk: &mut Desk<MemStore>, script: &Script) -> ScriptOutcome {
    let mut sheet = Sheet {
        bytes: Vec::new(alloc),
        room: script.room,
        is_interrupted: false,
    };
    let result = run_into(alloc, desk, script, &mut sheet);
    ScriptOutcome {
        result,
        written: sheet.bytes,
    }
}

/// The answer of a desk to a script, and the replies.
fn assert_answer(
    rt: &impl Abort,
    alloc: Global,
    desk: &mut Desk<MemStore>,
    script: &Script,
    expected: Result<(), ScriptFault>,
    replies: &[u8],
    about: &str,
) {
    let outcome = run(alloc, desk, script);
    assert_same(rt, outcome.result, expected, about);
    assert_same(rt, outcome.written.as_slice(), replies, about);
}

/// The answer of a new desk to a script, and the replies.
fn assert_new_answer(
    rt: &impl Abort,
    alloc: Global,
    script: &Script,
    expected: Result<(), ScriptFault>,
    replies: &str,
    about: &str,
) {
    on_new_desk(rt, alloc, |desk| {
        let replies = replies.as_bytes();
        assert_answer(rt, alloc, desk, script, expected, replies, about);
    });
}

/// The answer to an input and the replies, in whatever pieces it comes.
fn assert_answers(
    rt: &impl Abort,
    alloc: Global,
    input: &str,
    fails: bool,
    expected: Result<(), ScriptFault>,
    replies: &str,
) {
    for piece in [1, 2, 10_000] {
        let script = Script {
            bytes: input.as_bytes(),
            piece,
            fails,
            room: usize::MAX,
        };
        assert_new_answer(rt, alloc, &script, expected, replies, input);
    }
}

fn assert_ends(rt: &impl Abort, alloc: Global, input: &str, replies: &str) {
    assert_answers(rt, alloc, input, false, Ok(()), replies);
}

/// A line that is empty or a word is malformed 1, and a list malformed 2.
#[test]
fn answers_each_line(rt: HostRuntime) {
    let alloc = rt.alloc();
    assert_ends(&rt, alloc, "", "");
    assert_ends(&rt, alloc, "\n", "{\"malformed\":1}\n");
    let three = "{\"malformed\":1}\n{\"malformed\":2}\n{\"malformed\":1}\n";
    assert_ends(&rt, alloc, "ab\r\n[]\n c", three);
    let two = "{\"malformed\":2}\n{\"malformed\":1}\n";
    assert_ends(&rt, alloc, "[]\nc\n", two);
}

fn assert_torn(rt: &impl Abort, alloc: Global, input: &str, replies: &str) {
    assert_answers(rt, alloc, input, true, Err(ScriptFault::Read), replies);
}

/// The source fails after these lines.
#[test]
fn answers_each_whole_line_before_a_failure(rt: HostRuntime) {
    let alloc = rt.alloc();
    assert_torn(&rt, alloc, "", "");
    assert_torn(&rt, alloc, "[]\ncd", "{\"malformed\":2}\n");
    let two = "{\"malformed\":2}\n{\"malformed\":1}\n";
    assert_torn(&rt, alloc, "[]\ncd\n", two);
}

/// Three commands whose replies have 14 bytes each.
const REGISTER_THREE: &str = r#"{"day":"2026-03-01","caller":"reg","do":"register","holder":"alpha"}
{"day":"2026-03-01","caller":"reg","do":"register","holder":"beta"}
{"day":"2026-03-01","caller":"reg","do":"register","holder":"gamma"}
"#;

const DONE_THREE: &str = "{\"done\":null}\n{\"done\":null}\n{\"done\":null}\n";

/// How many of these commands are denied when they are sent again.
fn denied_again(rt: &impl Abort, alloc: Global, desk: &mut Desk<MemStore>) -> usize {
    let script = Script {
        bytes: REGISTER_THREE.as_bytes(),
        piece: 10_000,
        fails: false,
        room: usize::MAX,
    };
    let again = run(alloc, desk, &script);
    let replies = str::from_utf8(again.written.as_slice()).expect(rt, "replies in UTF-8");
    replies
        .lines()
        .filter(|line| *line == "{\"denied\":\"fresh\"}")
        .count()
}

/// The answer of a new desk to a script that is cut short, of whose commands so many were acted on:
/// they are denied when they are sent again.
fn assert_acted_on(
    rt: &impl Abort,
    alloc: Global,
    script: &Script,
    expected: Result<(), ScriptFault>,
    replies: &[u8],
    commands: usize,
) {
    on_new_desk(rt, alloc, |desk| {
        assert_answer(rt, alloc, desk, script, expected, replies, "cut short");
        let denied = denied_again(rt, alloc, desk);
        assert_same(rt, denied, commands, "sent again");
    });
}

fn assert_replies_cut(rt: &impl Abort, alloc: Global, room: usize) {
    let replies = DONE_THREE.as_bytes().get(..room).expect(rt, "more room");
    let script = Script {
        bytes: REGISTER_THREE.as_bytes(),
        piece: 10_000,
        fails: false,
        room,
    };
    let commands = (room / 14).saturating_add(1);
    let expected = Err(ScriptFault::Write);
    assert_acted_on(rt, alloc, &script, expected, replies, commands);
}

/// The command whose reply was cut short was acted on, and none after it.
#[test]
fn write_that_fails_cuts_the_replies_short(rt: HostRuntime) {
    for room in 0..DONE_THREE.len() {
        assert_replies_cut(&rt, rt.alloc(), room);
    }
}

fn assert_script_ended(rt: &impl Abort, alloc: Global, read: &[u8]) {
    let whole = read.iter().filter(|byte| **byte == b'\n').count();
    let replies = DONE_THREE
        .as_bytes()
        .get(..whole.saturating_mul(14))
        .expect(rt, "more lines");
    let script = Script {
        bytes: read,
        piece: 10_000,
        fails: true,
        room: usize::MAX,
    };
    let expected = Err(ScriptFault::Read);
    assert_acted_on(rt, alloc, &script, expected, replies, whole);
}

/// The commands whose lines came whole were acted on and answered, and no others.
#[test]
fn read_that_fails_ends_the_script_after_whole_lines(rt: HostRuntime) {
    let script = REGISTER_THREE.as_bytes();
    for count in 0..=script.len() {
        assert_script_ended(&rt, rt.alloc(), &script[..count]);
    }
}

/// The answer to the longest line that is judged and what follows it, and the replies.
fn assert_long(
    rt: &impl Abort,
    alloc: Global,
    end: &str,
    fails: bool,
    expected: Result<(), ScriptFault>,
    replies: &str,
) {
    let mut input = vec![in alloc; b'x'; 1_048_576].expect(rt, "a line");
    input
        .extend_from_slice(end.as_bytes())
        .expect(rt, "a longer line");
    let script = Script {
        bytes: input.as_slice(),
        piece: 10_000,
        fails,
        room: usize::MAX,
    };
    assert_new_answer(rt, alloc, &script, expected, replies, end);
}

#[test]
fn line_length_limit(rt: HostRuntime) {
    let alloc = rt.alloc();
    assert_long(&rt, alloc, "", false, Ok(()), "{\"malformed\":1}\n");
    assert_long(&rt, alloc, "x", false, Ok(()), "{\"malformed\":13}\n");
    assert_long(&rt, alloc, "x", true, Err(ScriptFault::Read), "");
    let two = "{\"malformed\":13}\n{\"malformed\":2}\n";
    assert_long(&rt, alloc, "x\n[]\n", false, Ok(()), two);
}

/// The answer to the script of a peer.
fn run_with(
    rt: &impl Abort,
    alloc: Global,
    desk: &mut Desk<MemStore>,
    peer: &Peer,
) -> Result<(), ScriptFault> {
    let writer = BufWriter::new(alloc, peer).expect(rt, "a writer");
    let mut source = Device::new(peer);
    let mut drain = Device::new(writer);
    run_script(alloc, &mut source, &mut drain, desk)
}

#[test]
fn reply_reaches_the_peer_before_the_next_line_is_read(rt: HostRuntime) {
    let peer = Peer {
        lines: Cell::new(3),
        sent: Cell::new(0),
        replies: Cell::new(0),
    };
    on_new_desk(&rt, rt.alloc(), |desk| {
        let result = run_with(&rt, rt.alloc(), desk, &peer);
        assert_same(&rt, result, Ok(()), "the script");
        assert_same(&rt, peer.replies.get(), 3, "the replies");
    });
}

/// Every kind of error except `Interrupted`, after which a call is made again.
const KINDS: [ErrorKind; 41] = [
    ErrorKind::NotFound,
    ErrorKind::PermissionDenied,
    ErrorKind::ConnectionRefused,
    ErrorKind::ConnectionReset,
    ErrorKind::HostUnreachable,
    ErrorKind::NetworkUnreachable,
    ErrorKind::ConnectionAborted,
    ErrorKind::NotConnected,
    ErrorKind::AddrInUse,
    ErrorKind::AddrNotAvailable,
    ErrorKind::NetworkDown,
    ErrorKind::BrokenPipe,
    ErrorKind::AlreadyExists,
    ErrorKind::WouldBlock,
    ErrorKind::NotADirectory,
    ErrorKind::IsADirectory,
    ErrorKind::DirectoryNotEmpty,
    ErrorKind::ReadOnlyFilesystem,
    ErrorKind::FilesystemLoop,
    ErrorKind::StaleNetworkFileHandle,
    ErrorKind::InvalidInput,
    ErrorKind::InvalidData,
    ErrorKind::TimedOut,
    ErrorKind::WriteZero,
    ErrorKind::StorageFull,
    ErrorKind::NotSeekable,
    ErrorKind::QuotaExceeded,
    ErrorKind::FileTooLarge,
    ErrorKind::ResourceBusy,
    ErrorKind::ExecutableFileBusy,
    ErrorKind::Deadlock,
    ErrorKind::CrossesDevices,
    ErrorKind::TooManyLinks,
    ErrorKind::InvalidFilename,
    ErrorKind::ArgumentListTooLong,
    ErrorKind::Unsupported,
    ErrorKind::UnexpectedEof,
    ErrorKind::OutOfMemory,
    ErrorKind::InProgress,
    ErrorKind::Other,
    ErrorKind::Uncategorized,
];

/// Calls of one sort: the first ones are interrupted, and those after them may fail.
#[derive(Drop)]
struct Calls {
    made: Cell<usize>,
    interruptions: usize,
    failure: Option<ErrorKind>,
}

impl Calls {
    fn new(interruptions: usize, failure: Option<ErrorKind>) -> Calls {
        Calls {
            made: Cell::new(0),
            interruptions,
            failure,
        }
    }

    fn answer(&self) -> std::io::Result<()> {
        let made = self.made.get();
        self.made.set(made.saturating_add(1));
        if made < self.interruptions {
            return Err(Error::new(ErrorKind::Interrupted, "interrupted"));
        }
        match self.failure {
            Some(kind) => Err(Error::new(kind, "torn")),
            None => Ok(()),
        }
    }
}

/// Counts the reads and the writes that are made of it, and its flushes.
#[derive(Drop)]
struct Counter {
    calls: Calls,
    flushes: Calls,
}

impl Counter {
    fn new(calls: Calls, flushes: Calls) -> Counter {
        Counter { calls, flushes }
    }
}

impl Read for &Counter {
    fn read(&mut self, buffer: &mut [u8]) -> std::io::Result<usize> {
        self.calls.answer()?;
        Ok(buffer.len())
    }
}

impl Write for &Counter {
    fn write(&mut self, bytes: &[u8]) -> std::io::Result<usize> {
        self.calls.answer()?;
        Ok(bytes.len())
    }

    fn flush(&mut self) -> std::io::Result<()> {
        self.flushes.answer()
    }
}

/// Two reads of a device whose reader is interrupted so often, and then may fail, make so many calls.
fn assert_reads(rt: &impl Abort, interruptions: usize, failure: Option<ErrorKind>, calls: usize) {
    let counter = Counter::new(Calls::new(interruptions, failure), Calls::new(0, None));
    let mut device = Device::new(&counter);
    for _ in 0..2 {
        let result = device.read(&mut [0; 8]);
        assert_same(rt, result.is_err(), failure.is_some(), failure);
    }
    assert_same(rt, counter.calls.made.get(), calls, failure);
}

#[test]
fn interrupted_read_is_made_again(rt: HostRuntime) {
    assert_reads(&rt, 0, None, 2);
    assert_reads(&rt, 3, None, 5);
}

#[test]
fn failed_read_is_not_made_again(rt: HostRuntime) {
    for kind in KINDS {
        assert_reads(&rt, 0, Some(kind), 1);
        assert_reads(&rt, 3, Some(kind), 4);
    }
}

/// Two writes of a device, each of which fails if a failure is given.
fn assert_two_writes(rt: &impl Abort, counter: &Counter, failure: Option<ErrorKind>) {
    let mut device = Device::new(counter);
    for _ in 0..2 {
        let result = device.write(b"reply");
        assert_same(rt, result.is_err(), failure.is_some(), failure);
    }
}

/// Two writes of a device whose writer has these calls and flushes make so many writes and so many
/// flushes.
fn assert_writes(rt: &impl Abort, counter: &Counter, writes: usize, flushes: usize) {
    let failure = counter.calls.failure.or(counter.flushes.failure);
    assert_two_writes(rt, counter, failure);
    assert_same(rt, counter.calls.made.get(), writes, failure);
    assert_same(rt, counter.flushes.made.get(), flushes, failure);
}

#[test]
fn each_write_is_flushed(rt: HostRuntime) {
    let sound = Counter::new(Calls::new(0, None), Calls::new(0, None));
    assert_writes(&rt, &sound, 2, 2);
    let interrupted = Counter::new(Calls::new(3, None), Calls::new(0, None));
    assert_writes(&rt, &interrupted, 5, 2);
    let interrupted = Counter::new(Calls::new(0, None), Calls::new(3, None));
    assert_writes(&rt, &interrupted, 2, 5);
}

#[test]
fn failed_write_is_not_made_again(rt: HostRuntime) {
    for kind in KINDS {
        let failing = Counter::new(Calls::new(0, Some(kind)), Calls::new(0, None));
        assert_writes(&rt, &failing, 1, 0);
        let failing = Counter::new(Calls::new(3, Some(kind)), Calls::new(0, None));
        assert_writes(&rt, &failing, 4, 0);
    }
}

#[test]
fn failed_flush_is_not_made_again(rt: HostRuntime) {
    for kind in KINDS {
        let failing = Counter::new(Calls::new(0, None), Calls::new(0, Some(kind)));
        assert_writes(&rt, &failing, 1, 1);
        let failing = Counter::new(Calls::new(0, None), Calls::new(3, Some(kind)));
        assert_writes(&rt, &failing, 1, 4);
    }
}

/// More calls than a counter of 16 bits or a round limit counts, each of which passes a byte.
const MANY_CALLS: usize = 100_001;

#[test]
fn device_reads_on_after_many_calls(rt: HostRuntime) {
    let mut drip = Drip {
        piece: 1,
        calls: 0,
        written: Vec::new(rt.alloc()),
    };
    {
        let mut device = Device::new(&mut drip);
        for read in 0..MANY_CALLS {
            assert_same(&rt, device.read(&mut [0; 8]), Ok(1), read);
        }
    }
    assert_same(&rt, drip.calls, MANY_CALLS, "all reads");
}

/// A writer that takes so many bytes a call is written a text through a device by so many calls.
fn assert_pieces(rt: &impl Abort, alloc: Global, piece: usize, text: &[u8], calls: usize) {
    let mut drip = Drip {
        piece,
        calls: 0,
        written: Vec::new(alloc),
    };
    let result = write_all(&mut Device::new(&mut drip), text);
    assert_same(rt, result, Ok(()), piece);
    assert_same(rt, drip.written.as_slice(), text, piece);
    assert_same(rt, drip.calls, calls, piece);
}

#[test]
fn device_hands_on_every_byte(rt: HostRuntime) {
    assert_pieces(&rt, rt.alloc(), 1, b"r", 1);
    assert_pieces(&rt, rt.alloc(), 1, b"reply", 5);
    assert_pieces(&rt, rt.alloc(), 2, b"reply", 3);
    assert_pieces(&rt, rt.alloc(), 4, b"reply", 2);
    assert_pieces(&rt, rt.alloc(), 5, b"reply", 1);
}

#[test]
fn device_writes_on_after_many_calls(rt: HostRuntime) {
    let text = vec![in rt.alloc(); b'r'; MANY_CALLS].expect(&rt, "a text");
    assert_pieces(&rt, rt.alloc(), 1, text.as_slice(), MANY_CALLS);
}
