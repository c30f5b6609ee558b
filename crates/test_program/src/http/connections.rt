//! Connections in pieces, cut short, failing, and with bytes to come.
use super::{
    AT_ONCE, Manner, assert_cut, assert_not_answered, assert_response, assert_row, assert_served,
    assert_writes, on_holder_desk, serve,
};
use crate::desks::{assert_same, request_text, response_of};
use desk::Desk;
use sqlite::MemStore;
use std::alloc::Global;
use std::process::Abort;

const CREATE: &str =
    r#"POST /holders/alpha/auths ann {"asn":64496,"prefix":"192.0.2.0/24","max":24,"from":"2026-01-01","until":"2026-12-31"}"#;

const SHOW: &str = "GET /holders/alpha/auths/1 ann";

const SHOWN: &str =
    r#"200 {"shown":{"number":1,"asn":64496,"prefix":"192.0.2.0/24","max":24,"from":"2026-01-01","until":"2026-12-31"}}"#;

const DONE: &str = "200 {\"done\":1}";

/// What comes after a request, and is not read.
const NEXT: &str = "GET /payloads HTTP/1.1\r\n\r\n";

/// The request is answered, and what comes after it is left.
fn assert_reads_no_more(
    rt: &impl Abort,
    alloc: Global,
    desk: &mut Desk<MemStore>,
    row: &str,
    output: &str,
    piece: usize,
) {
    let mut bytes = request_text(rt, alloc, row);
    bytes.push_str(NEXT).expect(rt, "two requests");
    let manner = Manner { piece, ..AT_ONCE };
    let outcome = serve(rt, alloc, desk, bytes.as_bytes(), manner);
    assert_served(rt, alloc, &outcome, output, ("in pieces of", piece));
    assert_same(rt, outcome.unread, NEXT.len(), ("in pieces of", piece));
}

/// A create and a show that come in such pieces are read, and nothing after them.
#[test]
fn no_byte_after_the_request_is_read(rt: HostRuntime) {
    for piece in [1, 7, usize::MAX] {
        on_holder_desk(&rt, |desk| {
            assert_reads_no_more(&rt, rt.alloc(), desk, CREATE, DONE, piece);
            assert_reads_no_more(&rt, rt.alloc(), desk, SHOW, SHOWN, piece);
        });
    }
}

/// No beginning of a create is answered or acted on: the whole request is then the first one.
#[test]
fn request_cut_short_is_not_acted_on(rt: HostRuntime) {
    on_holder_desk(&rt, |desk| {
        let request = request_text(&rt, rt.alloc(), CREATE);
        let bytes = request.as_bytes();
        for end in 0..bytes.len() {
            assert_not_answered(&rt, rt.alloc(), desk, &bytes[..end], false);
            assert_not_answered(&rt, rt.alloc(), desk, &bytes[..end], true);
        }
        assert_response(&rt, rt.alloc(), desk, bytes, DONE, "whole");
    });
}

/// The request was acted on, and a beginning of its response is out.
#[test]
fn response_cut_short_was_acted_on(rt: HostRuntime) {
    let response = response_of(&rt, rt.alloc(), DONE);
    for room in 0..response.len() {
        on_holder_desk(&rt, |desk| {
            assert_cut(&rt, rt.alloc(), desk, CREATE, &response, room);
            assert_row(&rt, rt.alloc(), desk, SHOW, SHOWN);
        });
    }
}

/// Requests that are answered with a few bytes.
const SHORT: [&str; 4] = [
    CREATE,
    SHOW,
    "GET /holders/alpha/export ann",
    "GET /nowhere ann",
];

#[test]
fn short_response_is_one_write(rt: HostRuntime) {
    on_holder_desk(&rt, |desk| {
        for row in SHORT {
            assert_writes(&rt, rt.alloc(), desk, row, 1);
        }
    });
}
