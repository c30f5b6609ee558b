//! Requests of every path, and what they are refused for.
use super::{assert_rows, assert_spelled, on_holder_desk};
use crate::desks::{on_desk, rows_of};
use desk::Desk;
use sqlite::MemStore;
use std::alloc::Global;
use std::process::Abort;

const EVERY_PATH: &str = r#"
# http_denial_is_403
POST /holders/alpha/auths bob {"asn":64496,"prefix":"192.0.2.0/24","max":24,"from":"2026-01-01","until":"2026-12-31"} => 403 {"denied":"grant"}
# http_create_is_answered
POST /holders/alpha/auths ann {"asn":64496,"prefix":"192.0.2.0/24","max":24,"from":"2026-01-01","until":"2026-12-31"} => 200 {"done":1}
# every_path_is_answered
POST /holders/alpha/auths ann { "until" : "2026-12-31", "from":"2026-01-01","max":24,"prefix":"192.0.2.0/24","asn":64496} => 403 {"denied":"same"}
GET /holders/alpha/auths/1 ann => 200 {"shown":{"number":1,"asn":64496,"prefix":"192.0.2.0/24","max":24,"from":"2026-01-01","until":"2026-12-31"}}
GET /holders/alpha/auths/1/content ann => 200 {"content":"3017020300fbf03010300e0402000130083006030400c00002"}
GET /holders/alpha/auths ann => 200 {"listed":[{"number":1,"asn":64496,"prefix":"192.0.2.0/24","max":24,"from":"2026-01-01","until":"2026-12-31"}]}
GET /holders/alpha/auths bob => 403 {"denied":"grant"}
POST /validity bob {"routes":[{"prefix":"192.0.2.0/24","origin":64496},{"prefix":"192.0.2.0/25","origin":null}]} => 200 {"answers":["Valid","Invalid"]}
POST /holders/alpha/whatif ann {"changes":[{"do":"withdraw","number":1}],"routes":[{"prefix":"192.0.2.0/24","origin":64496}]} => 200 {"report":[["Valid","NotFound"]]}
POST /holders/alpha/whatif ann {"changes":[{"do":"withdraw","number":1},{"do":"create","asn":64496,"prefix":"192.0.2.0/24","max":24,"from":"2026-01-01","until":"2026-12-31"},{"do":"withdraw","number":3}],"routes":[{"prefix":"192.0.2.0/24","origin":64496}]} => 403 {"denied":"number","row":3}
POST /holders/zeta/whatif bob { "routes" : [{"prefix":"192.0.2.0/24","origin":64496}] , "changes" : [] } => 200 {"report":[["Valid","Valid"]]}
PATCH /holders/alpha/auths/1 ann {"max":25,"until":"2026-06-30"} => 200 {"done":null}
GET /holders/alpha/auths/1 ann => 200 {"shown":{"number":1,"asn":64496,"prefix":"192.0.2.0/24","max":25,"from":"2026-01-01","until":"2026-06-30"}}
DELETE /holders/alpha/auths/1 ann => 200 {"done":null}
DELETE /holders/alpha/auths/1 ann => 403 {"denied":"number"}
PUT /holders/beta reg => 200 {"done":null}
PUT /holders/beta reg => 403 {"denied":"fresh"}
POST /transfers reg {"prefix":"192.0.2.0/25","giver":"alpha","taker":"beta"} => 200 {"done":null}
POST /holders/beta/reclaims reg {"prefix":"192.0.2.0/26"} => 200 {"done":null}
DELETE /holders/alpha/grants/1 reg => 200 {"done":null}
GET /holders/alpha/auths ann => 403 {"denied":"grant"}
"#;

/// A SLURM file is the whole of its body.
const SLURM_FILES: &str = r#"
# slurm_file_is_put
PUT /slurm reg {"slurmVersion":1,"validationOutputFilters":{"prefixFilters":[],"bgpsecFilters":[]},"locallyAddedAssertions":{"prefixAssertions":[{"asn":64500,"prefix":"198.51.100.0/24"}],"bgpsecAssertions":[]}} => 200 {"done":null}
POST /validity bob {"routes":[{"prefix":"198.51.100.0/24","origin":64500}]} => 200 {"answers":["Valid"]}
# refused_slurm_file_leaves_the_last
PUT /slurm ann {"slurmVersion":1,"validationOutputFilters":{"prefixFilters":[],"bgpsecFilters":[]},"locallyAddedAssertions":{"prefixAssertions":[],"bgpsecAssertions":[]}} => 403 {"denied":"operator"}
PUT /slurm reg x => 400 {"malformed":11,"slurm":1}
PUT /slurm reg [] => 400 {"malformed":11,"slurm":2}
PUT /slurm reg {"file":{"slurmVersion":1,"validationOutputFilters":{"prefixFilters":[],"bgpsecFilters":[]},"locallyAddedAssertions":{"prefixAssertions":[],"bgpsecAssertions":[]}}} => 400 {"malformed":11,"slurm":3}
PUT /slurm reg {"slurmVersion":1,"validationOutputFilters":{"prefixFilters":[{}],"bgpsecFilters":[]},"locallyAddedAssertions":{"prefixAssertions":[],"bgpsecAssertions":[]}} => 400 {"malformed":11,"slurm":9}
PUT /slurm Reg x => 400 {"malformed":4}
POST /validity bob {"routes":[{"prefix":"198.51.100.0/24","origin":64500}]} => 200 {"answers":["Valid"]}
# file_without_entries_ends_the_exceptions
PUT /slurm reg {"slurmVersion":1,"validationOutputFilters":{"prefixFilters":[],"bgpsecFilters":[]},"locallyAddedAssertions":{"prefixAssertions":[],"bgpsecAssertions":[]}} => 200 {"done":null}
POST /validity bob {"routes":[{"prefix":"198.51.100.0/24","origin":64500}]} => 200 {"answers":["NotFound"]}
# slurm_set_is_put
PUT /slurms reg {"files":[{"name":"a","file":{"slurmVersion":1,"validationOutputFilters":{"prefixFilters":[],"bgpsecFilters":[]},"locallyAddedAssertions":{"prefixAssertions":[{"asn":64500,"prefix":"198.51.100.0/24"}],"bgpsecAssertions":[]}}},{"name":"b","file":{"slurmVersion":1,"validationOutputFilters":{"prefixFilters":[],"bgpsecFilters":[]},"locallyAddedAssertions":{"prefixAssertions":[{"asn":64501,"prefix":"203.0.113.0/24"}],"bgpsecAssertions":[]}}}]} => 200 {"done":null}
POST /validity bob {"routes":[{"prefix":"198.51.100.0/24","origin":64500},{"prefix":"203.0.113.0/24","origin":64501}]} => 200 {"answers":["Valid","Valid"]}
# refused_slurm_set_leaves_the_last
PUT /slurms ann {"files":[]} => 403 {"denied":"operator"}
PUT /slurms reg {"files":[{"name":"a","file":{"slurmVersion":1,"validationOutputFilters":{"prefixFilters":[],"bgpsecFilters":[]},"locallyAddedAssertions":{"prefixAssertions":[{"asn":64500,"prefix":"198.51.100.0/24"}],"bgpsecAssertions":[]}}},{"name":"b","file":{"slurmVersion":1,"validationOutputFilters":{"prefixFilters":[{"prefix":"198.51.100.0/22"}],"bgpsecFilters":[]},"locallyAddedAssertions":{"prefixAssertions":[],"bgpsecAssertions":[]}}}]} => 403 {"denied":"overlap"}
PUT /slurms reg x => 400 {"malformed":1}
PUT /slurms reg [] => 400 {"malformed":2}
PUT /slurms reg {} => 400 {"malformed":2}
PUT /slurms reg {"slurmVersion":1,"validationOutputFilters":{"prefixFilters":[],"bgpsecFilters":[]},"locallyAddedAssertions":{"prefixAssertions":[],"bgpsecAssertions":[]}} => 400 {"malformed":2}
PUT /slurms reg {"file":{"slurmVersion":1,"validationOutputFilters":{"prefixFilters":[],"bgpsecFilters":[]},"locallyAddedAssertions":{"prefixAssertions":[],"bgpsecAssertions":[]}}} => 400 {"malformed":2}
PUT /slurms reg {"files":[],"file":{"slurmVersion":1,"validationOutputFilters":{"prefixFilters":[],"bgpsecFilters":[]},"locallyAddedAssertions":{"prefixAssertions":[],"bgpsecAssertions":[]}}} => 400 {"malformed":2}
PUT /slurms reg {"files":[{"name":"a","file":{}}]} => 400 {"malformed":11,"slurm":3}
PUT /slurms reg {"files":[{"name":"a","file":{"slurmVersion":1,"validationOutputFilters":{"prefixFilters":[],"bgpsecFilters":[]},"locallyAddedAssertions":{"prefixAssertions":[],"bgpsecAssertions":[]}}},{"name":"a","file":{"slurmVersion":1,"validationOutputFilters":{"prefixFilters":[],"bgpsecFilters":[]},"locallyAddedAssertions":{"prefixAssertions":[],"bgpsecAssertions":[]}}}]} => 400 {"malformed":15}
PUT /slurms Reg x => 400 {"malformed":1}
POST /validity bob {"routes":[{"prefix":"198.51.100.0/24","origin":64500},{"prefix":"203.0.113.0/24","origin":64501}]} => 200 {"answers":["Valid","Valid"]}
# set_of_no_files_ends_the_exceptions
PUT /slurms reg {"files":[]} => 200 {"done":null}
POST /validity bob {"routes":[{"prefix":"198.51.100.0/24","origin":64500},{"prefix":"203.0.113.0/24","origin":64501}]} => 200 {"answers":["NotFound","NotFound"]}
"#;

const MALFORMED: &str = r#"
# holder_or_number_of_the_path
PUT /holders/Alpha reg => 400 {"malformed":3}
PUT /holders/%61lpha reg => 400 {"malformed":3}
GET /holders/-/auths ann => 400 {"malformed":3}
GET /holders/alpha/auths/0 ann => 400 {"malformed":10}
GET /holders/alpha/auths/01 ann => 400 {"malformed":10}
GET /holders/alpha/auths/+1 ann => 400 {"malformed":10}
GET /holders/alpha/auths/1000000 ann => 400 {"malformed":10}
GET /holders/alpha/auths/999999 ann => 403 {"denied":"number"}
GET /holders/alpha/auths/99999999999999999999 ann => 400 {"malformed":10}
DELETE /holders/alpha/grants/one reg => 400 {"malformed":10}
# caller
GET /payloads Bob => 400 {"malformed":4}
POST /validity -bob {"routes":[{"prefix":"192.0.2.0/24","origin":64496}]} => 400 {"malformed":4}
# http_holder_fault_before_caller_fault
GET /holders/Alpha/auths Bob => 400 {"malformed":3}
# lowest_of_path_caller_and_body
DELETE /holders/Alpha/auths/0 Ann => 400 {"malformed":3}
DELETE /holders/alpha/auths/0 Ann => 400 {"malformed":4}
POST /holders/Alpha/auths Ann { => 400 {"malformed":1}
POST /holders/Alpha/auths Ann [] => 400 {"malformed":2}
PATCH /holders/alpha/auths/0 ann {"max":256,"until":"2026-12-31"} => 400 {"malformed":7}
PATCH /holders/alpha/auths/0 ann {"max":25,"until":"2026-12-31"} => 400 {"malformed":10}
POST /holders/alpha/grants reg {"name":"Ann","role":"owner","scope":"all","until":""} => 400 {"malformed":4}
# members_of_the_body
POST /holders/alpha/delegations reg {"holder":"alpha","prefix":"198.51.100.0/24"} => 400 {"malformed":2}
POST /holders/alpha/delegations reg {"day":"2026-03-01","prefix":"198.51.100.0/24"} => 400 {"malformed":2}
POST /holders/alpha/delegations reg {"prefix":"198.51.100.1/24"} => 400 {"malformed":5}
POST /holders/alpha/delegations reg {} => 400 {"malformed":2}
PATCH /holders/alpha/auths/1 ann {"number":1,"max":25,"until":"2026-12-31"} => 400 {"malformed":2}
POST /validity bob {"routes":[]} => 400 {"malformed":12}
POST /validity bob {"routes":[7]} => 400 {"malformed":2}
POST /transfers reg {"prefix":"192.0.2.0/24","giver":"alpha","taker":"Beta"} => 400 {"malformed":3}
# changes_and_routes
POST /holders/alpha/whatif ann { => 400 {"malformed":1}
POST /holders/alpha/whatif ann [] => 400 {"malformed":2}
POST /holders/alpha/whatif ann {"holder":"alpha","changes":[],"routes":[{"prefix":"192.0.2.0/24","origin":64496}]} => 400 {"malformed":2}
POST /holders/alpha/whatif ann {"changes":[]} => 400 {"malformed":2}
POST /holders/alpha/whatif ann {"changes":[{"do":"amend","number":1}],"routes":[{"prefix":"192.0.2.0/24","origin":64496}]} => 400 {"malformed":2}
POST /holders/alpha/whatif ann {"changes":[{"do":"withdraw","number":0}],"routes":[{"prefix":"192.0.2.0/24","origin":64496}]} => 400 {"malformed":10}
POST /holders/alpha/whatif ann {"changes":[{"do":"withdraw","number":0}],"routes":[{"prefix":"192.0.2.0/24","origin":"NONE"}]} => 400 {"malformed":6}
POST /holders/alpha/whatif ann {"changes":[],"routes":[]} => 400 {"malformed":12}
POST /holders/alpha/whatif Ann {"changes":[],"routes":[]} => 400 {"malformed":4}
POST /holders/Alpha/whatif Ann {"changes":[{"do":"withdraw","number":0}],"routes":[]} => 400 {"malformed":3}
# export
GET /holders/Alpha/export Ann => 400 {"malformed":3}
GET /holders/alpha/export Ann => 400 {"malformed":4}
"#;

/// The payloads before a create and after it.
const PAYLOADS: &str = r#"
# http_payloads_as_csv
GET /payloads bob => CSV asn,prefix,maxlength;
POST /holders/alpha/auths ann {"asn":64496,"prefix":"192.0.2.0/24","max":24,"from":"2026-01-01","until":"2026-12-31"} => 200 {"done":1}
GET /payloads bob => CSV asn,prefix,maxlength;AS64496,192.0.2.0/24,24;
"#;

/// Targets that no path has.
const NOT_FOUND: &str = "/payloads?x /payloads? /payloads#x /payloads/ //payloads /Payloads \
    /%70ayloads / * payloads http://desk/payloads /holders/ /holders//auths \
    /holders/alpha/auths/ /holders/alpha/exports /holders/alpha/import";

/// Paths, and the methods that each has in the order of the table of routes.
const ALLOWED: &str = r#"
/holders/alpha => PUT
/holders/alpha/delegations => POST
/holders/alpha/reclaims => POST
/transfers => POST
/holders/alpha/grants => POST
/holders/alpha/grants/1 => DELETE
/holders/alpha/auths => GET, POST
/holders/alpha/auths/1 => GET, PATCH, DELETE
/holders/alpha/auths/1/content => GET
/holders/alpha/export => GET
/holders/alpha/imports => POST
/holders/alpha/whatif => POST
/slurm => PUT
/slurms => PUT
/payloads => GET
/validity => POST
"#;

const METHODS: [&str; 9] = [
    "GET", "PUT", "POST", "PATCH", "DELETE", "HEAD", "OPTIONS", "get", "TRACE",
];

#[test]
fn every_path_is_answered(rt: HostRuntime) {
    on_holder_desk(&rt, |desk| {
        assert_rows(&rt, rt.alloc(), desk, EVERY_PATH);
    });
}

#[test]
fn slurm_files_are_put(rt: HostRuntime) {
    on_desk(&rt, |desk| {
        assert_rows(&rt, rt.alloc(), desk, SLURM_FILES);
    });
}

#[test]
fn malformed_requests_have_their_lowest_number(rt: HostRuntime) {
    on_holder_desk(&rt, |desk| {
        assert_rows(&rt, rt.alloc(), desk, MALFORMED);
    });
}

#[test]
fn payloads_are_answered_as_csv(rt: HostRuntime) {
    on_holder_desk(&rt, |desk| {
        assert_rows(&rt, rt.alloc(), desk, PAYLOADS);
    });
}

/// A request without a caller, with these fields, has this response.
fn assert_refused(
    rt: &impl Abort,
    alloc: Global,
    desk: &mut Desk<MemStore>,
    (method, target, fields): (&str, &str, &str),
    output: &str,
) {
    let request = format!(in alloc; "{method} {target} HTTP/1.1\r\n{fields}\r\n");
    let request = request.expect(rt, "a request");
    assert_spelled(rt, alloc, desk, &request, output);
}

#[test]
fn target_without_a_path_is_not_found(rt: HostRuntime) {
    on_desk(&rt, |desk| {
        for target in NOT_FOUND.split(' ') {
            for method in METHODS {
                let request = (method, target, "");
                assert_refused(&rt, rt.alloc(), desk, request, "404 {\"error\":404}");
            }
        }
    });
}

/// Every method but those allowed is answered with them.
fn assert_others_refused(
    rt: &impl Abort,
    alloc: Global,
    desk: &mut Desk<MemStore>,
    path: &str,
    allowed: &str,
) {
    let output = format!(in alloc; "405 {allowed}").expect(rt, "an output");
    for method in METHODS {
        if !allowed.split(", ").any(|name| name == method) {
            let request = (method, path, "Transfer-Encoding: chunked\r\n");
            assert_refused(rt, alloc, desk, request, &output);
        }
    }
}

#[test]
fn other_methods_are_answered_with_those_allowed(rt: HostRuntime) {
    on_desk(&rt, |desk| {
        for row in &rows_of(&rt, rt.alloc(), ALLOWED) {
            assert_others_refused(&rt, rt.alloc(), desk, row.input, row.output);
        }
    });
}
