//! Responses over sockets of the loopback, and connections that are out of time.
use crate::clients::{
    AfterText, Bound, HOLDER, Served, answer_to, requests, serve, serve_over, waiting_client,
};
use crate::clocks::{Sending, Slow};
use crate::desks::{assert_same, on_desk, response_of, rows_of, spelled};
use desk::Desk;
use sqlite::MemStore;
use std::alloc::Global;
use std::net::{TcpListener, TcpStream};
use std::process::Abort;
use std::rt::HostRuntime;
use std::time::Duration;

/// What follows the requests of `HOLDER`.
const AFTER_HOLDER: &str = r#"
POST /holders/alpha/auths ann {"asn":64496,"prefix":"192.0.2.0/24","max":24,"from":"2026-01-01","until":"2026-12-31"} => 200 {"done":1}
POST /holders/alpha/auths bob {"asn":64496,"prefix":"192.0.2.0/24","max":24,"from":"2026-01-01","until":"2026-12-31"} => 403 {"denied":"grant"}
GET /payloads bob  => CSV asn,prefix,maxlength;AS64496,192.0.2.0/24,24;
"#;

/// No connection had a fault, and the answers after so many are those of the rows.
fn assert_answers(test: &impl Abort, alloc: Global, served: &Served, count: usize, table: &str) {
    let rows = rows_of(test, alloc, table);
    assert_same(test, served.errors.len(), 0, "lines on connections");
    let expected = count.saturating_add(rows.len());
    assert_same(test, served.answers.len(), expected, "answers");
    for (row, answer) in rows.iter().zip(served.answers.iter().skip(count)) {
        let response = response_of(test, alloc, row.output);
        assert_same(test, answer.as_str(), response.as_str(), row.input);
    }
}

#[test]
fn denial_is_403_and_payloads_are_csv(rt: HostRuntime) {
    let texts = requests(&rt, rt.alloc(), &[HOLDER, AFTER_HOLDER]);
    on_desk(&rt, |desk| {
        let served = serve(&rt, &rt, &rt, desk, &texts, AfterText::ShutsWriting);
        assert_answers(&rt, rt.alloc(), &served, 3, AFTER_HOLDER);
    });
}

/// The texts that the inputs of a table spell.
fn inputs_of(test: &impl Abort, alloc: Global, table: &str) -> Vec<String> {
    let mut texts = Vec::new(alloc);
    for row in &rows_of(test, alloc, table) {
        let text = spelled(test, alloc, row.input);
        texts.push(text).expect(test, "texts");
    }
    texts
}

/// Requests that are refused before their bodies are read.
const REFUSED: &str = r#"
PATCH /holders/h/auths/ HTTP/1.1^;Content-Length: 30^;^;{"from":"2026-01-01","asn":10} => 404 {"error":404}
POST /holders/gamma/imports HTTP/1.1^;Content-Length: 1048577^;^;asn,prefix,maxlength,from,until; => 413 {"error":413}
DELETE /payloads HTTP/1.1^;Content-Length: 3^;^;all => 405 GET
"#;

#[test]
fn a_response_arrives_whose_request_has_its_body_unread(rt: HostRuntime) {
    let texts = inputs_of(&rt, rt.alloc(), REFUSED);
    on_desk(&rt, |desk| {
        let served = serve(&rt, &rt, &rt, desk, &texts, AfterText::ShutsWriting);
        assert_answers(&rt, rt.alloc(), &served, 0, REFUSED);
    });
}

/// What clients send that stay open, and have no response.
const UNFINISHED: &str = r#"
 => none
GET  => none
"#;

#[test]
fn a_connection_has_to_end_in_time(rt: HostRuntime) {
    let texts = inputs_of(&rt, rt.alloc(), UNFINISHED);
    // The connections are soon out of time.
    let clock = Slow::by(Duration::from_millis(29_950));
    on_desk(&rt, |desk| {
        let served = serve(&rt, &rt, &clock, desk, &texts, AfterText::StaysOpen);
        let lines = b"roadesk: connection 1: fault 1\nroadesk: connection 2: fault 1\n".as_slice();
        assert_same(&rt, served.errors.as_slice(), lines, "out of time");
    });
}

/// Heads of requests whose bodies are not read, how many bytes follow them, and the responses.
const LONG: [(&str, usize, &str); 2] = [
    (
        "POST /holders/gamma/imports HTTP/1.1\r\nContent-Length: 1048577\r\n\r\n",
        480_000,
        "413 {\"error\":413}",
    ),
    (
        "DELETE /payloads HTTP/1.1\r\nContent-Length: 1048576\r\n\r\n",
        1_048_576,
        "405 GET",
    ),
];

/// The head, and so many bytes after it.
fn long_request(test: &impl Abort, alloc: Global, head: &str, length: usize) -> String {
    let letters = "a".repeat(alloc, length).expect(test, "a text");
    let text = [head, letters.as_str()].concat(alloc);
    text.expect(test, "a text")
}

/// The desk serves the client without a fault while it sends the text.
fn send_long(
    test: &impl Abort,
    alloc: Global,
    desk: &mut Desk<MemStore>,
    (client, listener): (&TcpStream, TcpListener),
    text: &str,
) {
    let clock = Sending::new(client, text.as_bytes()).expect(test, "a client");
    let mut network = Bound(Some(listener));
    let errors = serve_over(test, alloc, &clock, &mut network, 1, desk);
    assert_same(test, errors.len(), 0, "lines on connections");
}

/// The desk has this response to a row of `LONG`.
fn assert_long(
    test: &impl Abort,
    rt: &HostRuntime,
    desk: &mut Desk<MemStore>,
    (head, length, output): (&str, usize, &str),
) {
    let text = long_request(test, rt.alloc(), head, length);
    let (mut client, listener) = waiting_client(test, rt);
    send_long(test, rt.alloc(), desk, (&client, listener), text.as_str());
    // It has sent its text without waiting.
    client.set_nonblocking(false).expect(test, "a client");
    let answer = answer_to(test, rt.alloc(), &mut client);
    let response = response_of(test, rt.alloc(), output);
    assert_same(test, answer.as_str(), response.as_str(), head);
}

#[test]
fn a_response_arrives_whose_request_is_long(rt: HostRuntime) {
    on_desk(&rt, |desk| {
        for row in &LONG {
            assert_long(&rt, &rt, desk, *row);
        }
    });
}
