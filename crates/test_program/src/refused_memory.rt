//! What a desk answers where one allocation is refused at most. The tests' own allocations are
//! those of steps that are tried twice, so they hold whichever it is.
use crate::desks::{first_of_march, on_desk};
use desk::Desk;
use sqlite::MemStore;
use std::alloc::Global;
use std::process::Abort;
use web::{Device, ScriptFault, run_script, serve_one};

/// How many bytes a page has room for.
const ROOM: usize = 512;

/// The text of a page, which is as long as the bytes that are not zero.
fn text_of(page: &[u8; ROOM]) -> &[u8] {
    let count = page.iter().position(|byte| *byte == 0).unwrap_or(ROOM);
    page.get(..count).unwrap_or(&[])
}

/// Lines that leave one authorization.
const LINES: &str = r#"{"day":"2026-03-01","caller":"reg","do":"register","holder":"alpha"}
{"day":"2026-03-01","caller":"reg","do":"delegate","holder":"alpha","prefix":"192.0.2.0/24"}
{"day":"2026-03-01","caller":"reg","do":"grant","holder":"alpha","name":"ann","role":"manager","scope":"all","until":"2026-12-31"}
{"day":"2026-03-01","caller":"ann","do":"create","holder":"alpha","asn":64496,"prefix":"192.0.2.0/24","max":24,"from":"2026-01-01","until":"2026-12-31"}
"#;

/// Each of the lines above.
const EACH_LINE: [&str; 4] = [
    r#"{"day":"2026-03-01","caller":"reg","do":"register","holder":"alpha"}
"#,
    r#"{"day":"2026-03-01","caller":"reg","do":"delegate","holder":"alpha","prefix":"192.0.2.0/24"}
"#,
    r#"{"day":"2026-03-01","caller":"reg","do":"grant","holder":"alpha","name":"ann","role":"manager","scope":"all","until":"2026-12-31"}
"#,
    r#"{"day":"2026-03-01","caller":"ann","do":"create","holder":"alpha","asn":64496,"prefix":"192.0.2.0/24","max":24,"from":"2026-01-01","until":"2026-12-31"}
"#,
];

/// The replies to them.
const REPLIES: [&str; 4] = [
    "{\"done\":null}\n",
    "{\"done\":null}\n",
    "{\"done\":1}\n",
    "{\"done\":1}\n",
];

const LIST: &str =
    "{\"day\":\"2026-03-01\",\"caller\":\"ann\",\"do\":\"list\",\"holder\":\"alpha\"}\n";

const LISTED: &str =
    "{\"listed\":[{\"number\":1,\"asn\":64496,\"prefix\":\"192.0.2.0/24\",\"max\":24,\"from\":\"2026-01-01\",\"until\":\"2026-12-31\"}]}\n";

const NOTHING_LISTED: &str = "{\"listed\":[]}\n";

const NO_GRANT: &str = "{\"denied\":\"grant\"}\n";

const UNAVAILABLE: &str = "{\"unavailable\":true}\n";

/// The replies to the lines, and the reply to a list after them. In each row except the first, one
/// line is Unavailable, each time another.
const ALLOWED: [(&str, &str); 5] = [
    (
        "{\"done\":null}\n{\"done\":null}\n{\"done\":1}\n{\"done\":1}\n",
        LISTED,
    ),
    (
        "{\"unavailable\":true}\n{\"denied\":\"holder\"}\n{\"denied\":\"holder\"}\n{\"denied\":\"grant\"}\n",
        NO_GRANT,
    ),
    (
        "{\"done\":null}\n{\"unavailable\":true}\n{\"done\":1}\n{\"denied\":\"held\"}\n",
        NOTHING_LISTED,
    ),
    (
        "{\"done\":null}\n{\"done\":null}\n{\"unavailable\":true}\n{\"denied\":\"grant\"}\n",
        NO_GRANT,
    ),
    (
        "{\"done\":null}\n{\"done\":null}\n{\"done\":1}\n{\"unavailable\":true}\n",
        NOTHING_LISTED,
    ),
];

/// The request of the create over HTTP, and its two responses.
const CREATE: &str =
    "POST /holders/alpha/auths HTTP/1.1\r\nDesk-Caller: ann\r\nContent-Length: 87\r\n\r\n{\"asn\":64496,\"prefix\":\"192.0.2.0/24\",\"max\":24,\"from\":\"2026-01-01\",\"until\":\"2026-12-31\"}";

const DONE_RESPONSE: &str =
    "HTTP/1.1 200 OK\r\nContent-Type: application/json\r\nContent-Length: 11\r\nConnection: close\r\n\r\n{\"done\":1}\n";

const UNAVAILABLE_RESPONSE: &str =
    "HTTP/1.1 503 Service Unavailable\r\nContent-Type: application/json\r\nContent-Length: 21\r\nConnection: close\r\n\r\n{\"unavailable\":true}\n";

/// How a script ended, what it wrote, and how many of its bytes were left unread.
fn replies_to(
    alloc: Global,
    desk: &mut Desk<MemStore>,
    script: &str,
) -> (Result<(), ScriptFault>, [u8; ROOM], usize) {
    let mut page = [0; ROOM];
    let mut rest = script.as_bytes();
    let result = {
        let mut source = Device::new(&mut rest);
        let mut drain = Device::new(&mut page[..]);
        run_script(alloc, &mut source, &mut drain, desk)
    };
    (result, page, rest.len())
}

/// The reply to a line, which is sent again if there was no memory for it.
fn reply_to(alloc: Global, desk: &mut Desk<MemStore>, line: &str) -> [u8; ROOM] {
    let (result, page, _) = replies_to(alloc, desk, line);
    if result.is_ok() && text_of(&page) != UNAVAILABLE.as_bytes() {
        return page;
    }
    let (_, page, _) = replies_to(alloc, desk, line);
    page
}

/// What is listed once these bytes are the replies.
fn list_after(replies: &[u8]) -> Option<&'static str> {
    for (allowed, list) in ALLOWED {
        if replies == allowed.as_bytes() {
            return Some(list);
        }
    }
    None
}

/// The desk replies to the line.
fn assert_reply(
    rt: &impl Abort,
    alloc: Global,
    desk: &mut Desk<MemStore>,
    line: &str,
    expected: &str,
) {
    let page = reply_to(alloc, desk, line);
    assert_eq!(rt; text_of(&page), expected.as_bytes());
}

/// The desk accepts so many of the lines.
pub(crate) fn assert_made(rt: &impl Abort, alloc: Global, desk: &mut Desk<MemStore>, count: usize) {
    for (line, reply) in EACH_LINE.iter().zip(REPLIES).take(count) {
        assert_reply(rt, alloc, desk, line, reply);
    }
}

/// The desk runs the lines, or takes none of them.
fn assert_allowed_run(rt: &impl Abort, alloc: Global, desk: &mut Desk<MemStore>) {
    let (result, page, unread) = replies_to(alloc, desk, LINES);
    let list = if result.is_ok() {
        list_after(text_of(&page)).expect(rt, "replies that are allowed")
    } else {
        assert_eq!(rt; result, Err(ScriptFault::Memory));
        assert_eq!(rt; unread, LINES.len());
        assert!(rt; text_of(&page).is_empty());
        NO_GRANT
    };
    assert_reply(rt, alloc, desk, LIST, list);
}

#[test]
fn refused_memory_leaves_an_allowed_run(rt: HostRuntime) {
    on_desk(&rt, |desk| {
        assert_allowed_run(&rt, rt.alloc(), desk);
    });
}

/// The desk makes what is created over HTTP, or is unavailable and does not.
fn assert_allowed_create(rt: &impl Abort, alloc: Global, desk: &mut Desk<MemStore>) {
    let mut page = [0; ROOM];
    let result = {
        let mut source = Device::new(CREATE.as_bytes());
        let mut drain = Device::new(&mut page[..]);
        serve_one(alloc, &mut source, &mut drain, desk, first_of_march(rt))
    };
    assert_eq!(rt; result, Ok(()));
    if text_of(&page) == DONE_RESPONSE.as_bytes() {
        assert_reply(rt, alloc, desk, LIST, LISTED);
    } else {
        assert_eq!(rt; text_of(&page), UNAVAILABLE_RESPONSE.as_bytes());
        assert_reply(rt, alloc, desk, LIST, NOTHING_LISTED);
    }
}

#[test]
fn refused_memory_over_http(rt: HostRuntime) {
    on_desk(&rt, |desk| {
        assert_made(&rt, rt.alloc(), desk, 3);
        assert_allowed_create(&rt, rt.alloc(), desk);
    });
}
