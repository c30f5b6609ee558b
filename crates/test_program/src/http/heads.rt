//! Heads: their fields, and the lengths of bodies.
use super::{assert_not_answered, assert_response, assert_row, assert_spelled, on_holder_desk};
use crate::desks::{on_desk, rows_of};
use desk::Desk;
use sqlite::MemStore;
use std::alloc::Global;
use std::process::Abort;

/// The fields of a head, and the response to a request for VRPs with them.
const FIELDS: &str = r#"
# one_caller
Desk-Caller: bob^; => CSV asn,prefix,maxlength;
# field_names_in_any_case
dESK-cALLER: bob^; => CSV asn,prefix,maxlength;
# spaces_and_tabs_around_a_value
Desk-Caller: ~ bob~ ^; => CSV asn,prefix,maxlength;
# other_fields
Host: desk^;Desk-Caller: bob^;Accept: */*^; => CSV asn,prefix,maxlength;
# http_caller_missing
 => 400 {"malformed":4}
# caller_twice_or_empty
Desk-Caller: bob^;Desk-Caller: bob^; => 400 {"malformed":4}
Desk-Caller: bob^;desk-caller: ann^; => 400 {"malformed":4}
Desk-Caller:^; => 400 {"malformed":4}
# length_of_no_body
Desk-Caller: bob^;Content-Length: 000^; => CSV asn,prefix,maxlength;
# length_where_no_body_is
Desk-Caller: bob^;Content-Length: 5^; => 400 {"error":400}
# wrong_length
Content-Length: 999999999999999999999999999999^; => 400 {"error":400}
Content-Length: 0^;Content-Length: 0^; => 400 {"error":400}
Content-Length: ^; => 400 {"error":400}
Content-Length: +0^; => 400 {"error":400}
Content-Length: 0, 0^; => 400 {"error":400}
# chunked
Transfer-Encoding: chunked^; => 411 {"error":411}
# chunked_before_a_wrong_length
content-length: x^;transfer-encoding: x^; => 411 {"error":411}
# space_before_the_colon
Desk-Caller : bob^; => 400 {"error":400}
# no_colon
Desk-Caller^; => 400 {"error":400}
"#;

/// The fields for the length of a body, and the response to a request for validity with them.
const LENGTHS: &str = r#"
# no_length
 => 411 {"error":411}
# length_of_zero
Content-Length: 0^; => 400 {"malformed":1}
# length_with_zeros_or_tabs
Content-Length: 0002^; => 400 {"malformed":2}
Content-Length:~2~^; => 400 {"malformed":2}
# wrong_length
Content-Length: 2, 2^; => 400 {"error":400}
Content-Length: +2^; => 400 {"error":400}
Content-Length:^; => 400 {"error":400}
Content-Length: 0x2^; => 400 {"error":400}
# length_of_thirty_nines
Content-Length: 999999999999999999999999999999^; => 413 {"error":413}
# cut_head_and_oversized_body
Content-Length: 1048577^; => 413 {"error":413}
"#;

/// A length of the body of a create, and the response.
const LENGTHS_OF_A_CREATE: &str = r#"
# wrong_length_of_a_create
5, 5 => 400 {"error":400}
+5 => 400 {"error":400}
 => 400 {"error":400}
# create_length_of_thirty_nines
999999999999999999999999999999 => 413 {"error":413}
# cut_head_and_oversized_body
1048577 => 413 {"error":413}
"#;

/// A create that is accepted where its length is right: what is before its length, and after it.
const CREATE: [&str; 2] = [
    "POST /holders/alpha/auths HTTP/1.1^;Desk-Caller: ann^;Content-Length: ",
    r#"^;^;{"asn":64496,"prefix":"192.0.2.0/24","max":24,"from":"2026-01-01","until":"2026-12-31"}"#,
];

/// What is a head or is not, and the response.
const HEADS: &str = r#"
# nothing
^;^; => 400 {"error":400}
# empty_line_before
^;GET /x HTTP/1.1^;^; => 404 {"error":404}
# older_version
GET /x HTTP/1.0^;^; => 404 {"error":404}
# line_feeds_alone
GET /x HTTP/1.1;Host: desk^;^; => 404 {"error":404}
# head_that_ends_early
GET /x HTTP/1.1;;Host: desk^;^; => 400 {"error":400}
# no_version_or_no_target
GET /x^;^; => 400 {"error":400}
GET^;^; => 400 {"error":400}
# other_words
hello^;^; => 400 {"error":400}
"#;

/// Each row's input has its response, between these two texts.
fn assert_between(
    rt: &impl Abort,
    alloc: Global,
    desk: &mut Desk<MemStore>,
    [before, after]: [&str; 2],
    table: &str,
) {
    for row in &rows_of(rt, alloc, table) {
        let request = [before, row.input, after].concat(alloc);
        let request = request.expect(rt, "a request");
        assert_spelled(rt, alloc, desk, &request, row.output);
    }
}

#[test]
fn fields_of_a_head(rt: HostRuntime) {
    on_desk(&rt, |desk| {
        let head = ["GET /payloads HTTP/1.1^;", "^;"];
        assert_between(&rt, rt.alloc(), desk, head, FIELDS);
    });
}

#[test]
fn content_length_spellings(rt: HostRuntime) {
    on_desk(&rt, |desk| {
        let request = ["POST /validity HTTP/1.1^;Desk-Caller: bob^;", "^;{}"];
        assert_between(&rt, rt.alloc(), desk, request, LENGTHS);
    });
}

/// Of the creates with these lengths none is made.
#[test]
fn lengths_of_a_create(rt: HostRuntime) {
    on_holder_desk(&rt, |desk| {
        assert_between(&rt, rt.alloc(), desk, CREATE, LENGTHS_OF_A_CREATE);
        let list = "GET /holders/alpha/auths ann";
        assert_row(&rt, rt.alloc(), desk, list, "200 {\"listed\":[]}");
    });
}

/// A head without an end.
#[test]
fn head_that_is_cut_is_not_answered(rt: HostRuntime) {
    on_desk(&rt, |desk| {
        let request = b"GET /payloads HTTP/1.1\r\n";
        assert_not_answered(&rt, rt.alloc(), desk, request, false);
    });
}

#[test]
fn bytes_that_are_no_head_are_refused(rt: HostRuntime) {
    on_desk(&rt, |desk| {
        assert_between(&rt, rt.alloc(), desk, ["", ""], HEADS);
        let no_text = b"GET /\xff HTTP/1.1\r\n\r\n";
        let refused = "400 {\"error\":400}";
        let name = "target_that_is_no_text";
        assert_response(&rt, rt.alloc(), desk, no_text, refused, name);
    });
}
