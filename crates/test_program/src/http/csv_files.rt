//! Imports and exports over HTTP: bodies and answers that are CSV.
use super::{assert_cut, assert_response, assert_row, assert_rows, assert_writes, on_holder_desk};
use crate::desks::{assert_same, response_of, rows_of};
use desk::Desk;
use sqlite::MemStore;
use std::alloc::Global;
use std::fmt::Write;
use std::process::Abort;

/// An import by `ann` at `alpha`, before its body.
const IMPORT: &str = "POST /holders/alpha/imports ann ";

/// An import by `ann` at `alpha`, before its rows.
const IMPORT_ROWS: &str = "POST /holders/alpha/imports ann asn,prefix,maxlength,from,until;";

/// The text after the header of an import by `ann` at `alpha`, and the response. They are sent one
/// after the other.
const ROWS: &str = r#"
# row_is_made
AS64496,192.0.2.0/24,24,2026-01-01,2026-12-31; => 200 {"made":1,"present":0}
# last_line_feed_may_lack
AS64496,192.0.2.0/24,24,2026-01-01,2026-12-31 => 200 {"made":0,"present":1}
# row_is_repeated
AS64496,192.0.2.0/24,24,2026-01-01,2026-12-31;AS64496,192.0.2.0/24,24,2026-01-01,2026-12-31; => 200 {"made":0,"present":2}
# place_is_counted_in_records
AS64496,192.0.2.0/24,24,2026-01-01,2026-12-31;;AS64496,198.51.100.0/24,24,2026-01-01,2026-12-31; => 403 {"denied":"held","row":2}
# last_as
AS4294967295,192.0.2.0/25,25,1970-01-01,9999-12-31; => 200 {"made":1,"present":0}
# as_0
AS0,192.0.2.0/25,25,2026-01-01,2026-12-31; => 200 {"made":1,"present":0}
# record_of_four_fields
AS64496,192.0.2.0/24,24,2026-01-01,2026-12-31;AS64496,192.0.2.0/24,24,2026-01-01; => 400 {"malformed":2}
# record_of_six_fields
AS64496,192.0.2.0/24,24,2026-01-01,2026-12-31,; => 400 {"malformed":2}
# record_of_an_empty_field
""; => 400 {"malformed":2}
# record_of_spaces
  ; => 400 {"malformed":2}
# quotes_that_do_not_end
"AS64496,192.0.2.0/24,24,2026-01-01,2026-12-31; => 400 {"malformed":2}
# as_without_its_letters
64496,192.0.2.0/24,24,2026-01-01,2026-12-31; => 400 {"malformed":6}
# as_in_small_letters
as64496,192.0.2.0/24,24,2026-01-01,2026-12-31; => 400 {"malformed":6}
# as_without_digits
AS,192.0.2.0/24,24,2026-01-01,2026-12-31; => 400 {"malformed":6}
# as_with_a_leading_zero
AS064496,192.0.2.0/24,24,2026-01-01,2026-12-31; => 400 {"malformed":6}
# as_over_the_last
AS4294967296,192.0.2.0/24,24,2026-01-01,2026-12-31; => 400 {"malformed":6}
# as_with_a_sign
AS-1,192.0.2.0/24,24,2026-01-01,2026-12-31; => 400 {"malformed":6}
# as_with_a_space
AS 1,192.0.2.0/24,24,2026-01-01,2026-12-31; => 400 {"malformed":6}
# as_after_a_space
 AS1,192.0.2.0/24,24,2026-01-01,2026-12-31; => 400 {"malformed":6}
# as_that_is_none
NONE,192.0.2.0/24,24,2026-01-01,2026-12-31; => 400 {"malformed":6}
# as_empty
,192.0.2.0/24,24,2026-01-01,2026-12-31; => 400 {"malformed":6}
# prefix_with_a_leading_zero
AS64496,192.0.2.0/024,24,2026-01-01,2026-12-31; => 400 {"malformed":5}
# prefix_with_a_set_bit
AS64496,192.0.2.1/24,24,2026-01-01,2026-12-31; => 400 {"malformed":5}
# prefix_empty
AS64496,,24,2026-01-01,2026-12-31; => 400 {"malformed":5}
# prefix_of_two_lines
AS64496,"192.0.2.0/24;",24,2026-01-01,2026-12-31; => 400 {"malformed":5}
# prefix_in_capitals
AS64496,2001:DB8::/32,24,2026-01-01,2026-12-31; => 400 {"malformed":5}
# length_with_a_leading_zero
AS64496,192.0.2.0/24,024,2026-01-01,2026-12-31; => 400 {"malformed":7}
# length_over_255
AS64496,192.0.2.0/24,256,2026-01-01,2026-12-31; => 400 {"malformed":7}
# length_with_a_sign
AS64496,192.0.2.0/24,+24,2026-01-01,2026-12-31; => 400 {"malformed":7}
# length_below_zero
AS64496,192.0.2.0/24,-1,2026-01-01,2026-12-31; => 400 {"malformed":7}
# length_with_a_fraction
AS64496,192.0.2.0/24,24.0,2026-01-01,2026-12-31; => 400 {"malformed":7}
# length_empty
AS64496,192.0.2.0/24,,2026-01-01,2026-12-31; => 400 {"malformed":7}
# length_before_a_space
AS64496,192.0.2.0/24,24 ,2026-01-01,2026-12-31; => 400 {"malformed":7}
# length_of_200_is_judged
AS64496,192.0.2.0/24,200,2026-01-01,2026-12-31; => 403 {"denied":"length","row":1}
# length_of_255_is_judged
AS64496,192.0.2.0/24,255,2026-01-01,2026-12-31; => 403 {"denied":"length","row":1}
# length_of_0_is_judged
AS64496,192.0.2.0/24,0,2026-01-01,2026-12-31; => 403 {"denied":"length","row":1}
# first_day_that_is_none
AS64496,192.0.2.0/24,24,2026-02-29,2026-12-31; => 400 {"malformed":8}
# last_day_that_is_none
AS64496,192.0.2.0/24,24,2026-01-01,2026-13-01; => 400 {"malformed":8}
# day_in_short_digits
AS64496,192.0.2.0/24,24,2026-1-1,2026-12-31; => 400 {"malformed":8}
# day_empty
AS64496,192.0.2.0/24,24,2026-01-01,; => 400 {"malformed":8}
# lowest_number_of_a_row
1,192.0.2.0,256,,2026-12-31; => 400 {"malformed":5}
# lowest_number_of_all_rows
AS64496,192.0.2.0/24,24,,2026-12-31;AS64496,192.0.2.0/24,256,2026-01-01,2026-12-31;AS01,192.0.2.0/24,24,2026-01-01,2026-12-31; => 400 {"malformed":6}
# short_record_after_faulty_rows
,,,,;,,,; => 400 {"malformed":2}
# days_are_judged
AS64496,192.0.2.0/24,25,2026-12-31,2026-01-01; => 403 {"denied":"dates","row":1}
# other_last_day_is_same
AS64496,192.0.2.0/24,24,2026-01-01,2026-11-30; => 403 {"denied":"same","row":1}
"#;

/// Whole bodies, written so.
const HEADERS: &str = r#"
# fields_in_quotes
"asn","prefix",maxlength,"from",until;"AS64496","192.0.2.0/24",24,2026-01-01,"2026-12-31"; => 200 {"made":0,"present":1}
# no_bytes
 => 400 {"malformed":2}
# line_feed_alone
; => 400 {"malformed":2}
# json
{"rows":[]} => 400 {"malformed":2}
# rows_without_a_header
AS64496,192.0.2.0/24,24,2026-01-01,2026-12-31; => 400 {"malformed":2}
# header_in_another_order
prefix,asn,maxlength,from,until;AS64496,192.0.2.0/24,24,2026-01-01,2026-12-31; => 400 {"malformed":2}
# header_in_capitals
ASN,prefix,maxlength,from,until;AS64496,192.0.2.0/24,24,2026-01-01,2026-12-31; => 400 {"malformed":2}
# header_with_a_space
asn, prefix,maxlength,from,until;AS64496,192.0.2.0/24,24,2026-01-01,2026-12-31; => 400 {"malformed":2}
# header_of_four_fields
asn,prefix,maxlength,from;AS64496,192.0.2.0/24,24,2026-01-01,2026-12-31; => 400 {"malformed":2}
# header_of_six_fields
asn,prefix,maxlength,from,until,;AS64496,192.0.2.0/24,24,2026-01-01,2026-12-31; => 400 {"malformed":2}
# header_of_a_list
number,asn,prefix,maxlength,from,until;1,AS64496,192.0.2.0/24,24,2026-01-01,2026-12-31; => 400 {"malformed":2}
# header_of_a_payload_file
asn,prefix,maxlength;AS64496,192.0.2.0/24,24; => 400 {"malformed":2}
# header_alone
asn,prefix,maxlength,from,until; => 400 {"malformed":12}
"#;

/// Whole bodies that have other bytes.
const BYTES: &str = r#"
# carriage_returns_and_line_feeds
asn,prefix,maxlength,from,until^;AS64496,192.0.2.0/24,24,2026-01-01,2026-12-31^; => 200 {"made":1,"present":0}
# carriage_returns_alone
asn,prefix,maxlength,from,until^AS64496,192.0.2.0/24,24,2026-01-01,2026-12-31^ => 200 {"made":0,"present":1}
# byte_order_mark
@asn,prefix,maxlength,from,until;AS64496,192.0.2.0/24,24,2026-01-01,2026-12-31; => 200 {"made":0,"present":1}
# empty_lines_are_no_records
;^;asn,prefix,maxlength,from,until;;AS64496,192.0.2.0/24,24,2026-01-01,2026-12-31;; => 200 {"made":0,"present":1}
# byte_order_mark_alone
@ => 400 {"malformed":2}
# header_and_empty_lines
asn,prefix,maxlength,from,until^;^;; => 400 {"malformed":12}
"#;

/// An import of a prefix that is no text.
const NO_TEXT: &[u8] =
    b"POST /holders/alpha/imports HTTP/1.1\r\nDesk-Caller: ann\r\nContent-Length: 79\r\n\r\nasn,prefix,maxlength,from,until\nAS64496,192.0.2.0\xff/24,24,2026-01-01,2026-12-31\n";

/// Imports at several holders, and by several callers.
const LOWEST: &str = r#"
POST /holders/Alpha/imports Ann  => 400 {"malformed":2}
POST /holders/Alpha/imports Ann asn,prefix,maxlength,from,until;1,2,3,4,5; => 400 {"malformed":3}
POST /holders/alpha/imports Ann asn,prefix,maxlength,from,until;1,2,3,4,5; => 400 {"malformed":4}
POST /holders/alpha/imports Ann asn,prefix,maxlength,from,until; => 400 {"malformed":4}
POST /holders/alpha/imports bob asn,prefix,maxlength,from,until; => 400 {"malformed":12}
POST /holders/alpha/imports bob asn,prefix,maxlength,from,until;AS1,192.0.2.0/24,24,2026-01-01,2026-12-31; => 403 {"denied":"grant","row":1}
POST /holders/zeta/imports ann asn,prefix,maxlength,from,until;AS1,192.0.2.0/24,24,2026-01-01,2026-12-31; => 403 {"denied":"grant","row":1}
"#;

/// A row that many rows are.
const ROW: &str = "AS64496,192.0.2.0/24,24,2026-01-01,2026-12-31;";

/// How many rows an import has, the row after them, and the response.
const MANY: [(usize, &str, &str); 3] = [
    (9_999, ROW, "200 {\"made\":1,\"present\":9999}"),
    (10_000, ROW, "400 {\"malformed\":12}"),
    (
        10_000,
        "AS64496,192.0.2.0/24,24,2026-01-01,;",
        "400 {\"malformed\":8}",
    ),
];

const EXPORT: &str = "GET /holders/alpha/export ann";

const NOTHING_EXPORTED: &str = r#"
# export_of_no_authorization
GET /holders/alpha/export ann => CSV number,asn,prefix,maxlength,from,until;
"#;

/// Two rows are made, of which this is exported.
const TWO_MADE: &str = r#"
# two_rows_are_made
POST /holders/alpha/imports ann asn,prefix,maxlength,from,until;AS64496,192.0.2.0/25,25,2026-01-01,2026-12-31;AS64497,192.0.2.128/25,26,2026-01-01,2026-12-31; => 200 {"made":2,"present":0}
"#;

const TWO_EXPORTED: &str =
    "CSV number,asn,prefix,maxlength,from,until;1,AS64496,192.0.2.0/25,25,2026-01-01,2026-12-31;2,AS64497,192.0.2.128/25,26,2026-01-01,2026-12-31;";

/// A clerk for the lower half, and an auditor for addresses that the holder has not.
const EXPORTS: &str = r#"
# export_has_what_the_scope_contains
POST /holders/alpha/grants reg {"name":"cleo","role":"clerk","scope":"192.0.2.0/25","until":"2026-12-31"} => 200 {"done":2}
POST /holders/alpha/grants reg {"name":"cora","role":"auditor","scope":"198.51.100.0/24","until":"2026-12-31"} => 200 {"done":3}
GET /holders/alpha/export cleo => CSV number,asn,prefix,maxlength,from,until;1,AS64496,192.0.2.0/25,25,2026-01-01,2026-12-31;
GET /holders/alpha/export cora => CSV number,asn,prefix,maxlength,from,until;
# export_is_denied_in_json
GET /holders/alpha/export bob => 403 {"denied":"grant"}
GET /holders/alpha/export reg => 403 {"denied":"grant"}
GET /holders/zeta/export ann => 403 {"denied":"grant"}
# export_after_a_withdraw
DELETE /holders/alpha/auths/2 ann => 200 {"done":null}
GET /holders/alpha/export ann => CSV number,asn,prefix,maxlength,from,until;1,AS64496,192.0.2.0/25,25,2026-01-01,2026-12-31;
"#;

/// A row that could be made and one that is not held, and what is listed where neither is made.
const ONE_NOT_HELD: &str = r#"
# import_twice_and_denied_whole
POST /holders/alpha/imports ann asn,prefix,maxlength,from,until;AS64498,192.0.2.0/24,24,2026-01-01,2026-12-31;AS64498,198.51.100.0/24,24,2026-01-01,2026-12-31; => 403 {"denied":"held","row":2}
GET /holders/alpha/auths ann => 200 {"listed":[{"number":1,"asn":64496,"prefix":"192.0.2.0/25","max":25,"from":"2026-01-01","until":"2026-12-31"},{"number":2,"asn":64497,"prefix":"192.0.2.128/25","max":26,"from":"2026-01-01","until":"2026-12-31"}]}
"#;

const BOTH_FAMILIES: &str = r#"
# row_of_ipv6_is_made
POST /holders/alpha/delegations reg {"prefix":"2001:db8::/32"} => 200 {"done":null}
POST /holders/alpha/imports ann asn,prefix,maxlength,from,until;AS64498,2001:db8:1::/48,64,2026-01-01,2026-12-31;AS64496,192.0.2.0/25,25,2026-01-01,2026-12-31; => 200 {"made":2,"present":0}
GET /holders/alpha/export ann => CSV number,asn,prefix,maxlength,from,until;1,AS64498,2001:db8:1::/48,64,2026-01-01,2026-12-31;2,AS64496,192.0.2.0/25,25,2026-01-01,2026-12-31;
"#;

/// Each row's input, after this beginning of a request, has its response.
fn assert_imports(
    rt: &impl Abort,
    alloc: Global,
    desk: &mut Desk<MemStore>,
    before: &str,
    table: &str,
) {
    for row in &rows_of(rt, alloc, table) {
        let request = [before, row.input].concat(alloc).expect(rt, "a request");
        assert_row(rt, alloc, desk, &request, row.output);
    }
}

#[test]
fn bodies_of_imports(rt: HostRuntime) {
    on_holder_desk(&rt, |desk| {
        assert_imports(&rt, rt.alloc(), desk, IMPORT_ROWS, ROWS);
        assert_imports(&rt, rt.alloc(), desk, IMPORT, HEADERS);
    });
}

#[test]
fn bytes_of_imports(rt: HostRuntime) {
    on_holder_desk(&rt, |desk| {
        assert_imports(&rt, rt.alloc(), desk, IMPORT, BYTES);
        let fault = "400 {\"malformed\":5}";
        assert_response(&rt, rt.alloc(), desk, NO_TEXT, fault, "no text");
    });
}

#[test]
fn lowest_faults_of_imports(rt: HostRuntime) {
    on_holder_desk(&rt, |desk| {
        assert_rows(&rt, rt.alloc(), desk, LOWEST);
    });
}

/// An import of so many rows and this last one.
fn import_of_many(rt: &impl Abort, alloc: Global, count: usize, last: &str) -> String {
    let rows = ROW.repeat(alloc, count).expect(rt, "rows");
    let import = [IMPORT_ROWS, rows.as_str(), last].concat(alloc);
    import.expect(rt, "an import")
}

#[test]
fn limits_of_rows(rt: HostRuntime) {
    on_holder_desk(&rt, |desk| {
        for (count, last, output) in MANY {
            let import = import_of_many(&rt, rt.alloc(), count, last);
            assert_row(&rt, rt.alloc(), desk, import.as_str(), output);
        }
    });
}

/// The exports of an empty holder and of two authorizations, of which a clerk of one of them may
/// see one, and an auditor of neither sees none.
#[test]
fn export_two_authorizations(rt: HostRuntime) {
    assert_same(&rt, TWO_EXPORTED.len(), "CSV ".len() + 137, "the length");
    on_holder_desk(&rt, |desk| {
        assert_rows(&rt, rt.alloc(), desk, NOTHING_EXPORTED);
        assert_rows(&rt, rt.alloc(), desk, TWO_MADE);
        assert_row(&rt, rt.alloc(), desk, EXPORT, TWO_EXPORTED);
        assert_rows(&rt, rt.alloc(), desk, EXPORTS);
    });
}

/// Each beginning of the response to an export is taken.
#[test]
fn export_that_is_cut_short(rt: HostRuntime) {
    on_holder_desk(&rt, |desk| {
        assert_rows(&rt, rt.alloc(), desk, TWO_MADE);
        let response = response_of(&rt, rt.alloc(), TWO_EXPORTED);
        for room in 0..response.len() {
            assert_cut(&rt, rt.alloc(), desk, EXPORT, &response, room);
        }
    });
}

/// An import of which one row is denied makes none.
#[test]
fn import_that_is_denied_makes_nothing(rt: HostRuntime) {
    on_holder_desk(&rt, |desk| {
        assert_rows(&rt, rt.alloc(), desk, TWO_MADE);
        assert_rows(&rt, rt.alloc(), desk, ONE_NOT_HELD);
    });
}

#[test]
fn import_of_both_families(rt: HostRuntime) {
    on_holder_desk(&rt, |desk| {
        assert_rows(&rt, rt.alloc(), desk, BOTH_FAMILIES);
    });
}

/// The import of so many rows, one for each AS from 1 on.
fn import_of_each(rt: &impl Abort, alloc: Global, count: u32) -> String {
    let mut rows = String::from_str(alloc, IMPORT_ROWS).expect(rt, "a header");
    for asn in 1..=count {
        write!(rows, "AS{asn},192.0.2.0/24,24,2026-01-01,2026-12-31;").expect(rt, "a row");
    }
    rows
}

/// What is exported of them: the number of each is that of its AS.
fn export_of_each(rt: &impl Abort, alloc: Global, count: u32) -> String {
    let header = "CSV number,asn,prefix,maxlength,from,until;";
    let mut rows = String::from_str(alloc, header).expect(rt, "a header");
    for asn in 1..=count {
        write!(rows, "{asn},AS{asn},192.0.2.0/24,24,2026-01-01,2026-12-31;").expect(rt, "a row");
    }
    rows
}

/// An import that has one row too many is denied whole.
#[test]
fn import_of_1001_rows_makes_nothing(rt: HostRuntime) {
    on_holder_desk(&rt, |desk| {
        let import = import_of_each(&rt, rt.alloc(), 1001);
        let denied = "403 {\"denied\":\"room\",\"row\":1001}";
        assert_row(&rt, rt.alloc(), desk, &import, denied);
        let list = "GET /holders/alpha/auths ann";
        assert_row(&rt, rt.alloc(), desk, list, "200 {\"listed\":[]}");
    });
}

#[test]
fn export_a_thousand_authorizations(rt: HostRuntime) {
    on_holder_desk(&rt, |desk| {
        let import = import_of_each(&rt, rt.alloc(), 1000);
        let made = "200 {\"made\":1000,\"present\":0}";
        assert_row(&rt, rt.alloc(), desk, &import, made);
        let exported = export_of_each(&rt, rt.alloc(), 1000);
        assert_row(&rt, rt.alloc(), desk, EXPORT, &exported);
        assert_writes(&rt, rt.alloc(), desk, EXPORT, 2);
    });
}
