//! The requests that are sent to the desks of these tests, one after the other.
use addr::{Name, Prefix};
use desk::{Asked, Desk, Reply};
use policy::Charter;
use sqlite::Alter;
use std::alloc::Global;
use std::ops::Range;
use std::process::Abort;
use test_library::rows::{Row, split_row, table_rows};
use test_library::sheet::Sheet;
use web::{Device, read_line_request, run_script, write_reply};

/// Each with its reply, and with the reply when it is sent again.
const REQUESTS: &str = r#"
reg {"do":"register","holder":"alpha"} => {"done":null} => {"denied":"fresh"}
reg {"do":"delegate","holder":"alpha","prefix":"192.0.2.0/24"} => {"done":null} => {"denied":"free"}
reg {"do":"grant","holder":"alpha","name":"ann","role":"manager","scope":"all","until":"2026-12-31"} => {"done":1} => {"done":2}
ann {"do":"create","holder":"alpha","asn":64496,"prefix":"192.0.2.0/24","max":24,"from":"2026-01-01","until":"2026-12-31"} => {"done":1} => {"denied":"same"}
ann {"do":"import","holder":"alpha","rows":[{"asn":64497,"prefix":"192.0.2.0/25","max":25,"from":"2026-01-01","until":"2026-12-31"},{"asn":64498,"prefix":"192.0.2.128/25","max":26,"from":"2026-01-01","until":"2026-12-31"}]} => {"made":2,"present":0} => {"made":0,"present":2}
reg {"do":"register","holder":"beta"} => {"done":null} => {"denied":"fresh"}
reg {"do":"delegate","holder":"alpha","prefix":"198.51.100.0/24"} => {"done":null} => {"denied":"free"}
reg {"do":"transfer","prefix":"198.51.100.0/24","giver":"alpha","taker":"beta"} => {"done":null} => {"denied":"held"}
"#;

/// How many there are.
pub(crate) const REQUEST_COUNT: usize = 8;

/// How many come before the create.
pub(crate) const COUNT_BEFORE_CREATE: usize = 3;

/// How many there are up to the create.
pub(crate) const COUNT_WITH_CREATE: usize = 4;

/// What is there once all were sent, however often.
const AFTERWARDS: &str = r#"
ann {"do":"list","holder":"alpha"} => {"listed":[{"number":1,"asn":64496,"prefix":"192.0.2.0/24","max":24,"from":"2026-01-01","until":"2026-12-31"},{"number":2,"asn":64497,"prefix":"192.0.2.0/25","max":25,"from":"2026-01-01","until":"2026-12-31"},{"number":3,"asn":64498,"prefix":"192.0.2.128/25","max":26,"from":"2026-01-01","until":"2026-12-31"}]}
reg {"do":"reclaim","holder":"beta","prefix":"198.51.100.0/24"} => {"done":null}
"#;

pub(crate) const UNAVAILABLE: &str = r#"{"unavailable":true}"#;

/// The rows of a table.
fn rows_of<'a>(rt: &impl Abort, alloc: Global, table: &'a str) -> Vec<Row<'a>> {
    match table_rows(alloc, table) {
        Ok(rows) => rows,
        Err(_) => rt.panic("a table without rows"),
    }
}

/// The reply to a request, and the reply when it is sent again.
fn replies_of<'a>(rt: &impl Abort, row: &Row<'a>) -> (&'a str, &'a str) {
    match split_row(row.output) {
        Ok(replies) => replies,
        Err(_) => rt.panic(row.output),
    }
}

/// The operator `reg`, and a pool of two prefixes.
pub(crate) fn example_charter(rt: &impl Abort, alloc: Global) -> Charter {
    let mut operators = Vec::new(alloc);
    let name = Name::read(b"reg").expect(rt, "a name");
    operators.push(name).expect(rt, "memory");
    let mut pool = Vec::new(alloc);
    for text in ["192.0.2.0/24", "198.51.100.0/24"] {
        let prefix = Prefix::read(text.as_bytes()).expect(rt, text);
        pool.push(prefix).expect(rt, "memory");
    }
    Charter::make(operators, pool).expect(rt, "a charter")
}

/// A writer that takes so many bytes.
pub(crate) fn sheet_of(alloc: Global, room: usize) -> Sheet {
    Sheet {
        bytes: Vec::new(alloc),
        room,
        is_interrupted: false,
    }
}

/// The line of a request that has its caller before it, without its end.
fn line_of(rt: &impl Abort, alloc: Global, request: &str) -> String {
    let (caller, members) = request.split_once(" {").expect(rt, request);
    let line = format!(in alloc; "{{\"day\":\"2026-03-01\",\"caller\":\"{caller}\",{members}");
    line.expect(rt, "a line")
}

/// The reply of the desk to a request.
fn ask<S: Alter>(rt: &impl Abort, alloc: Global, desk: &mut Desk<S>, request: &str) -> String {
    let line = line_of(rt, alloc, request);
    let mut sheet = sheet_of(alloc, usize::MAX);
    let mut source = Device::new(line.as_bytes());
    let mut drain = Device::new(&mut sheet);
    run_script(alloc, &mut source, &mut drain, desk).expect(rt, request);
    drop(drain);
    let mut reply = String::from_utf8(sheet.bytes).expect(rt, "a text");
    assert!(rt; reply.pop() == Some('\n'), "no whole reply to {request}");
    reply
}

/// The desk, which has so many of the requests, replies to this one with this.
pub(crate) fn assert_reply<S: Alter>(
    rt: &impl Abort,
    alloc: Global,
    desk: &mut Desk<S>,
    request: &str,
    expected: &str,
    found: usize,
) {
    let reply = ask(rt, alloc, desk, request);
    assert_eq!(rt; reply.as_str(), expected, "{request} after {found}");
}

/// Whether the desk, which has so many of the requests, replies to this one with `other`; else its
/// reply is `expected`.
pub(crate) fn replies_with<S: Alter>(
    rt: &impl Abort,
    alloc: Global,
    desk: &mut Desk<S>,
    request: &str,
    other: &str,
    expected: &str,
    found: usize,
) -> bool {
    let reply = ask(rt, alloc, desk, request);
    let is_other = reply.as_str() == other;
    if !is_other {
        assert_eq!(rt; reply.as_str(), expected, "{request} after {found}");
    }
    is_other
}

/// The requests as they are read from their lines.
pub(crate) fn asked_requests(rt: &impl Abort, alloc: Global) -> Vec<Asked> {
    let mut asked = Vec::new(alloc);
    for row in &rows_of(rt, alloc, REQUESTS) {
        let line = line_of(rt, alloc, row.input);
        let Ok(request) = read_line_request(alloc, line.as_bytes()) else {
            rt.panic(row.input)
        };
        asked.push(request).expect(rt, "memory");
    }
    asked
}

/// The replies to all requests, a line each.
pub(crate) fn first_replies(rt: &impl Abort, alloc: Global) -> String {
    let mut text = String::new(alloc);
    for row in &rows_of(rt, alloc, REQUESTS) {
        let (first, _) = replies_of(rt, row);
        text.push_str(first).expect(rt, "memory");
        text.push('\n').expect(rt, "memory");
    }
    text
}

/// The replies of each list, a line each.
pub(crate) fn text_of(rt: &impl Abort, alloc: Global, lists: &[Vec<Reply>]) -> String {
    let mut sheet = sheet_of(alloc, usize::MAX);
    let mut drain = Device::new(&mut sheet);
    for replies in lists {
        for reply in replies {
            assert!(rt; write_reply(reply, &mut drain).is_ok(), "not written");
        }
    }
    drop(drain);
    String::from_utf8(sheet.bytes).expect(rt, "a text")
}

/// How the requests of a run were answered.
#[derive(Clone, Copy)]
pub(crate) struct Answers {
    /// How many the desk has, with those from before the run.
    pub(crate) count: usize,
    /// The last of those that were answered only when they were sent again.
    pub(crate) delayed: Option<usize>,
}

/// Whether the desk, which has so many of the requests, is unavailable at this one; else it replies
/// as to one that is sent for the first time.
fn is_unavailable<S: Alter>(
    rt: &impl Abort,
    alloc: Global,
    desk: &mut Desk<S>,
    row: &Row<'_>,
    found: usize,
) -> bool {
    let (first, _) = replies_of(rt, row);
    replies_with(rt, alloc, desk, row.input, UNAVAILABLE, first, found)
}

/// Sends these requests to a desk that has those before them, until it is unavailable twice.
pub(crate) fn ask_each<S: Alter>(
    rt: &impl Abort,
    alloc: Global,
    desk: &mut Desk<S>,
    requests: &Range<usize>,
) -> Answers {
    let mut answers = Answers {
        count: requests.start,
        delayed: None,
    };
    let rows = rows_of(rt, alloc, REQUESTS);
    for row in rows.iter().take(requests.end).skip(requests.start) {
        if is_unavailable(rt, alloc, desk, row, answers.count) {
            if is_unavailable(rt, alloc, desk, row, answers.count) {
                break;
            }
            answers.delayed = Some(answers.count);
        }
        answers.count = answers.count.saturating_add(1);
    }
    answers
}

/// Sends these requests to a desk that has those before them, and each of them is answered.
pub(crate) fn assert_answered<S: Alter>(
    rt: &impl Abort,
    alloc: Global,
    desk: &mut Desk<S>,
    requests: &Range<usize>,
) {
    assert_eq!(rt; ask_each(rt, alloc, desk, requests).count, requests.end);
}

/// Sends a request after so many that the desk had. Returns whether the desk had it too; it had
/// none where it did not have one before.
fn is_found<S: Alter>(
    rt: &impl Abort,
    alloc: Global,
    desk: &mut Desk<S>,
    row: &Row<'_>,
    found: usize,
    may_be_found: bool,
) -> bool {
    let (first, again) = replies_of(rt, row);
    if may_be_found {
        return replies_with(rt, alloc, desk, row.input, again, first, found);
    }
    assert_reply(rt, alloc, desk, row.input, first, found);
    false
}

/// What is there once all were sent, and so many were there before.
fn assert_afterwards<S: Alter>(rt: &impl Abort, alloc: Global, desk: &mut Desk<S>, found: usize) {
    for row in &rows_of(rt, alloc, AFTERWARDS) {
        assert_reply(rt, alloc, desk, row.input, row.output, found);
    }
}

/// Sends all again. The desk had the first of them, as many as are returned, and none after these.
pub(crate) fn count_found<S: Alter>(rt: &impl Abort, alloc: Global, desk: &mut Desk<S>) -> usize {
    let mut found = 0usize;
    let mut may_be_found = true;
    for row in &rows_of(rt, alloc, REQUESTS) {
        may_be_found = is_found(rt, alloc, desk, row, found, may_be_found);
        found = found.saturating_add(usize::from(may_be_found));
    }
    assert_afterwards(rt, alloc, desk, found);
    found
}
