//! What the tests here share: the desk that they ask, the request of a row, and its response.
use addr::Day;
use cli_texts::charter_from;
use desk::Desk;
use sqlite::MemStore;
use std::alloc::Global;
use std::fmt::Debug;
use std::process::Abort;
use test_library::rows::{Row, table_rows};

/// What was found is what was expected. The message has the case, which says where. There is one
/// such function, since each place of an `assert_eq!` takes its time to prove.
pub(crate) fn assert_same<T: PartialEq + Debug + Drop, C: Debug + Drop>(
    rt: &impl Abort,
    found: T,
    expected: T,
    case: C,
) {
    assert_eq!(rt; found, expected, "at {case:?}");
}

/// The day of a test whose rows name none.
pub(crate) fn first_of_march(rt: &impl Abort) -> Day {
    Day::read(b"2026-03-01").expect(rt, "a day")
}

const CHARTER: &str =
    "kind,value\noperator,reg\npool,192.0.2.0/24\npool,198.51.100.0/24\npool,2001:db8::/32\n";

/// A new desk; none if there is no memory for it.
fn try_desk(alloc: Global) -> Option<Desk<MemStore>> {
    let charter = charter_from(alloc, CHARTER.as_bytes()).ok()?;
    Desk::open_memory(alloc, &charter).ok()
}

/// A new desk, if one allocation is refused at most.
pub(crate) fn new_desk(rt: &impl Abort, alloc: Global) -> Desk<MemStore> {
    match try_desk(alloc) {
        Some(desk) => desk,
        None => try_desk(alloc).expect(rt, "a desk"),
    }
}

/// Lends a new desk. What owns a desk is slow to prove, so the tests borrow one.
pub(crate) fn on_desk<R: Abort + AllocGlobal, F: FnOnce(&mut Desk<MemStore>)>(rt: &R, ask: F)
    requires { F.IsAlwaysCallable ask }
{
    let mut desk = new_desk(rt, rt.alloc());
    ask(&mut desk);
}

/// The rows of a table.
pub(crate) fn rows_of<'a>(rt: &impl Abort, alloc: Global, table: &'a str) -> Vec<Row<'a>> {
    match table_rows(alloc, table) {
        Ok(rows) => rows,
        Err(_) => rt.panic("no rows"),
    }
}

/// The marks of a row, and what each of them spells.
const MARKS: [(char, &str); 4] = [(';', "\n"), ('^', "\r"), ('~', "\t"), ('@', "\u{feff}")];

/// The text that is spelled with marks.
pub(crate) fn spelled(rt: &impl Abort, alloc: Global, marked: &str) -> String {
    let mut text = String::from_str(alloc, marked).expect(rt, "a text");
    for (mark, spelling) in MARKS {
        text = text.replace(alloc, mark, spelling).expect(rt, "a text");
    }
    text
}

/// The request of a row, which is `METHOD TARGET CALLER BODY => OUTPUT`, or has no output. Where
/// nothing follows the caller, it has no length.
pub(crate) fn request_text(rt: &impl Abort, alloc: Global, row: &str) -> String {
    let (input, _) = row.split_once(" => ").unwrap_or((row, ""));
    let input = spelled(rt, alloc, input);
    let (method, after_method) = input.split_once(' ').expect(rt, "a method");
    let (target, caller) = after_method.split_once(' ').expect(rt, "a target");
    let request = match caller.split_once(' ') {
        None => format!(in alloc; "{method} {target} HTTP/1.1\r\nDesk-Caller: {caller}\r\n\r\n"),
        Some((caller, body)) => format!(in alloc;
            "{method} {target} HTTP/1.1\r\nDesk-Caller: {caller}\r\nContent-Length: {}\r\n\r\n{body}",
            body.len()
        ),
    };
    request.expect(rt, "a request")
}

/// The response of an output, which is `STATUS JSON`, or `CSV TEXT`, or `405 METHODS` with the
/// methods that are allowed.
pub(crate) fn response_of(rt: &impl Abort, alloc: Global, output: &str) -> String {
    let (kind, text) = output.split_once(' ').expect(rt, "a body");
    let text = spelled(rt, alloc, text);
    let response = match kind {
        "CSV" => format!(in alloc;
            "HTTP/1.1 200 OK\r\nContent-Type: text/csv\r\nContent-Length: {}\r\nConnection: close\r\n\r\n{text}",
            text.len()
        ),
        "405" => format!(in alloc;
            "HTTP/1.1 405 Method Not Allowed\r\nContent-Type: application/json\r\nContent-Length: 14\r\nAllow: {text}\r\nConnection: close\r\n\r\n{{\"error\":405}}\n"
        ),
        _ => format!(in alloc;
            "HTTP/1.1 {kind} {}\r\nContent-Type: application/json\r\nContent-Length: {}\r\nConnection: close\r\n\r\n{text}\n",
            reason_of(rt, kind),
            text.len().saturating_add(1)
        ),
    };
    response.expect(rt, "a response")
}

fn reason_of(rt: &impl Abort, status: &str) -> &'static str {
    match status {
        "200" => "OK",
        "400" => "Bad Request",
        "403" => "Forbidden",
        "404" => "Not Found",
        "411" => "Length Required",
        "413" => "Content Too Large",
        _ => rt.panic("no such status"),
    }
}
