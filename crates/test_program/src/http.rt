//! The desk over HTTP: connections with their responses, whole, in pieces and cut short.
//!
//! The rows of a table are sent to one desk, one after the other, on the first of March.
use crate::desks::{
    assert_same, first_of_march, new_desk, request_text, response_of, rows_of, spelled,
};
use desk::Desk;
use sqlite::MemStore;
use std::alloc::Global;
use std::fmt::Debug;
use std::io::{Read, Write};
use std::process::Abort;
use std::str;
use test_desk::fakes::{Drip, Tape};
use test_library::sheet::Sheet;
use web::{Device, WebFault, serve_one};

mod connections;
mod csv_files;
mod heads;
mod limits;
mod routes;

/// What came of a connection: the answer, the response, and how many bytes were left unread.
#[derive(Drop)]
pub(crate) struct Outcome {
    pub(crate) result: Result<(), WebFault>,
    pub(crate) written: Vec<u8>,
    pub(crate) unread: usize,
}

/// How a connection gives its bytes and takes the response.
#[derive(Drop)]
pub(crate) struct Manner {
    /// How many bytes come at once.
    pub(crate) piece: usize,
    /// Whether the connection fails after its bytes, and does not end.
    pub(crate) fails: bool,
    /// How many bytes of the response are taken.
    pub(crate) room: usize,
}

/// All at once, and the response whole.
pub(crate) const AT_ONCE: Manner = Manner {
    piece: usize::MAX,
    fails: false,
    room: usize::MAX,
};

const REGISTERED_HOLDER: &str = r#"
# registered_holder
PUT /holders/alpha reg => 200 {"done":null}
POST /holders/alpha/delegations reg {"prefix":"192.0.2.0/24"} => 200 {"done":null}
POST /holders/alpha/grants reg {"name":"ann","role":"manager","scope":"all","until":"2026-12-31"} => 200 {"done":1}
"#;

/// Lends a desk on which `alpha` has 192.0.2.0/24, and `ann` is its manager.
pub(crate) fn on_holder_desk<R: Abort + AllocGlobal, F: FnOnce(&mut Desk<MemStore>)>(rt: &R, ask: F)
    requires { F.IsAlwaysCallable ask }
{
    let mut desk = new_desk(rt, rt.alloc());
    assert_rows(rt, rt.alloc(), &mut desk, REGISTERED_HOLDER);
    ask(&mut desk);
}

/// Serves a connection of this reader and this writer.
fn serve_streams<R: Read, W: Write>(
    rt: &impl Abort,
    alloc: Global,
    desk: &mut Desk<MemStore>,
    reader: &mut R,
    writer: &mut W,
) -> Result<(), WebFault> {
    let day = first_of_march(rt);
    let mut source = Device::new(reader);
    let mut drain = Device::new(writer);
    serve_one(alloc, &mut source, &mut drain, desk, day)
}

/// Serves a connection.
pub(crate) fn serve(
    rt: &impl Abort,
    alloc: Global,
    desk: &mut Desk<MemStore>,
    bytes: &[u8],
    manner: Manner,
) -> Outcome {
    let mut tape = Tape {
        bytes,
        piece: manner.piece,
        fails: manner.fails,
        is_interrupted: false,
    };
    let mut sheet = Sheet {
        bytes: Vec::new(alloc),
        room: manner.room,
        is_interrupted: false,
    };
    let result = serve_streams(rt, alloc, desk, &mut tape, &mut sheet);
    Outcome {
        result,
        written: sheet.bytes,
        unread: tape.bytes.len(),
    }
}

/// The response to a row's request is so many writes of a connection that takes all bytes.
pub(crate) fn assert_writes(
    rt: &impl Abort,
    alloc: Global,
    desk: &mut Desk<MemStore>,
    row: &str,
    count: usize,
) {
    let request = request_text(rt, alloc, row);
    let mut tape = Tape {
        bytes: request.as_bytes(),
        piece: usize::MAX,
        fails: false,
        is_interrupted: false,
    };
    let mut drip = Drip {
        piece: usize::MAX,
        calls: 0,
        written: Vec::new(alloc),
    };
    let result = serve_streams(rt, alloc, desk, &mut tape, &mut drip);
    assert_same(rt, result, Ok(()), row);
    assert_same(rt, drip.calls, count, row);
}

/// The connection was served, and has the response of this output.
pub(crate) fn assert_served<N: Debug + Copy + Drop>(
    rt: &impl Abort,
    alloc: Global,
    outcome: &Outcome,
    output: &str,
    name: N,
) {
    let response = response_of(rt, alloc, output);
    let written = str::from_utf8(&outcome.written).ok();
    assert_same(rt, written, Some(response.as_str()), name);
    assert_same(rt, outcome.result, Ok(()), name);
}

/// The request has the response of this output.
pub(crate) fn assert_response(
    rt: &impl Abort,
    alloc: Global,
    desk: &mut Desk<MemStore>,
    request: &[u8],
    output: &str,
    name: &str,
) {
    let outcome = serve(rt, alloc, desk, request, AT_ONCE);
    assert_served(rt, alloc, &outcome, output, name);
}

/// The request that is spelled so has the response of this output.
pub(crate) fn assert_spelled(
    rt: &impl Abort,
    alloc: Global,
    desk: &mut Desk<MemStore>,
    marked: &str,
    output: &str,
) {
    let request = spelled(rt, alloc, marked);
    assert_response(rt, alloc, desk, request.as_bytes(), output, marked);
}

/// The request of a row has the response of this output.
pub(crate) fn assert_row(
    rt: &impl Abort,
    alloc: Global,
    desk: &mut Desk<MemStore>,
    row: &str,
    output: &str,
) {
    let request = request_text(rt, alloc, row);
    assert_response(rt, alloc, desk, request.as_bytes(), output, row);
}

/// Each row's request has its response.
pub(crate) fn assert_rows(rt: &impl Abort, alloc: Global, desk: &mut Desk<MemStore>, table: &str) {
    for row in &rows_of(rt, alloc, table) {
        assert_row(rt, alloc, desk, row.input, row.output);
    }
}

/// A connection that takes so many bytes of the response to a row's request takes its beginning.
pub(crate) fn assert_cut(
    rt: &impl Abort,
    alloc: Global,
    desk: &mut Desk<MemStore>,
    row: &str,
    response: &str,
    room: usize,
) {
    let request = request_text(rt, alloc, row);
    let manner = Manner { room, ..AT_ONCE };
    let name = ("bytes taken", room);
    let outcome = serve(rt, alloc, desk, request.as_bytes(), manner);
    assert_same(rt, outcome.result, Err(WebFault::Write), name);
    let written = Some(outcome.written.as_slice());
    assert_same(rt, written, response.as_bytes().get(..room), name);
}

/// A connection that gives these bytes and ends or fails is not answered.
pub(crate) fn assert_not_answered(
    rt: &impl Abort,
    alloc: Global,
    desk: &mut Desk<MemStore>,
    bytes: &[u8],
    fails: bool,
) {
    let outcome = serve(rt, alloc, desk, bytes, Manner { fails, ..AT_ONCE });
    let name = ("bytes given", bytes.len());
    assert_same(rt, outcome.result, Err(WebFault::Read), name);
    assert_same(rt, outcome.written.len(), 0, name);
}
