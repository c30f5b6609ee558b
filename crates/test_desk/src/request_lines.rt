//! Lines of a script: the number that is reported of a malformed one, 0 where it is a request.
use crate::ready::{assert_same, value_of};
use crate::scripts::exceptions::file_of_many;
use crate::scripts::{line_of, push_item};
use std::alloc::Global;
use std::process::Abort;
use test_library::rows::{Row, nested, table_rows};
use web::{LineFault, read_line_request};

const REGISTER: &str = r#"{"day":"2026-03-01","caller":"reg","do":"register","holder":"alpha"}"#;

/// The day of the requests that have their callers before them.
const DAY: &str = "2026-03-01";

const LINE_LENGTH_LIMIT: usize = 1_048_576;

/// Bytes that are no JSON.
const NOT_JSON: [&[u8]; 9] = [
    b"",
    b"   ",
    b"\r",
    b"\0",
    b"{",
    b"{} {}",
    b"\xff",
    b"\xef\xbb\xbf{}",
    b"{\"day\":\"\xc0\"}",
];

/// Lines. If a member is repeated, its last value counts, and a text may be escaped.
const LINES: &str = r#"
# reports_why_a_line_is_refused
{"day":"2026-03-01","caller":"reg","do":"register","holder":"alpha"} => 0
 { "holder" : "alpha" , "do" : "register" , "caller" : "reg" , "day" : "2026-03-01" }  => 0
{"day":"2026-03-01","caller":"reg","do":"register","holder":"Alpha","holder":"alpha"} => 0
{"day":"2026-03-01","caller":"reg","do":"register","holder":"\u0061lpha"} => 0
[] => 2
null => 2
{} => 2
{"day":"2026-03-01","caller":"reg","do":"register"} => 2
{"day":"2026-03-01","caller":"reg","do":"register","holder":"alpha","prefix":"192.0.2.0/24"} => 2
{"day":"2026-03-01","caller":"reg","do":"Register","holder":"alpha"} => 2
{"day":"2026-03-01","caller":"reg","do":7,"holder":"alpha"} => 2
{"day":"2026-03-01","caller":"reg","holder":"alpha"} => 2
{"day":"2026-03-01","caller":"reg","do":"register","holder":7} => 3
{"day":"2026-03-01","caller":null,"do":"register","holder":"alpha"} => 4
{"day":"2026-02-29","caller":"reg","do":"register","holder":"alpha"} => 8
# lowest_malformed_number_is_told
{"day":"2026-03-01","caller":"Reg","do":"delegate","holder":"alpha","prefix":"192.0.2.1/24"} => 4
{"day":"2026-02-30","caller":"reg","do":"delegate","holder":"alpha","prefix":"192.0.2.1/24"} => 5
{"day":"","caller":"","do":"register","holder":""} => 3
{"day":"2026-03-01","caller":"reg","do":"delegate","holder":""} => 2
{"day":"2026-03-01","caller":"reg","do":"register","holder":"","zone":1} => 2
{"day":"2026-03-01","caller":"reg","do":"amend","holder":"alpha","number":0,"max":256,"until":"2026-12-31"} => 7
{"day":"2026-03-01","caller":"reg","do":"grant","holder":"alpha","name":"ann","role":"owner","scope":"all","until":""} => 8
{"day":"","caller":"reg","do":"validity","routes":[]} => 8
{"day":"2026-03-01","caller":"reg","do":"validity","routes":[{"prefix":"::/0","origin":-1},{"prefix":"::/129","origin":1}]} => 5
{"day":"","caller":"","do":"reject","holder":""} => 2
"#;

/// Imports and questions of what changes would do, with their callers before them.
const LISTS: &str = r#"
# rows_of_an_import
reg {"do":"import","holder":"alpha","rows":[{"asn":64496,"prefix":"192.0.2.0/24","max":24,"from":"2026-01-01","until":"2026-12-31"}]} => 0
reg {"do":"import","holder":"alpha","rows":[{"asn":64496,"prefix":"192.0.2.0/24","max":24,"from":"2026-01-01","until":"2026-12-31"},{"asn":64496,"prefix":"192.0.2.0/24","max":24,"from":"2026-01-01","until":"2026-12-31"}]} => 0
reg {"do":"import","holder":"alpha","rows":[{"until":"9999-12-31","from":"1970-01-01","max":255,"prefix":"::/0","asn":4294967295}]} => 0
reg {"do":"import","holder":"alpha","rows":[{"asn":0,"prefix":"::/0","max":0,"from":"9999-12-31","until":"1970-01-01"}]} => 0
reg {"do":"import","holder":"alpha","rows":[]} => 12
reg {"do":"import","holder":"alpha","rows":{}} => 2
reg {"do":"import","holder":"alpha","rows":null} => 2
reg {"do":"import","holder":"alpha","rows":[7]} => 2
reg {"do":"import","holder":"alpha","rows":[[]]} => 2
reg {"do":"import","holder":"alpha","rows":[{}]} => 2
reg {"do":"import","holder":"alpha","rows":[{"prefix":"192.0.2.0/24","max":24,"from":"2026-01-01","until":"2026-12-31"}]} => 2
reg {"do":"import","holder":"alpha","rows":[{"asn":64496,"prefix":"192.0.2.0/24","max":24,"from":"2026-01-01"}]} => 2
reg {"do":"import","holder":"alpha","rows":[{"do":"create","asn":64496,"prefix":"192.0.2.0/24","max":24,"from":"2026-01-01","until":"2026-12-31"}]} => 2
reg {"do":"import","holder":"alpha","rows":[{"asn":64496,"prefix":"192.0.2.0/24","max":24,"from":"2026-01-01","until":"2026-12-31"},{"asn":64496,"prefix":"192.0.2.0/24","max":24,"from":"2026-01-01","until":"2026-12-31","number":1}]} => 2
reg {"do":"import","holder":"alpha","rows":[{"asn":64496,"prefix":"192.0.2.0/24","max":24,"from":"2026-01-01","until":"2026-12-31"}],"routes":[]} => 2
reg {"do":"import","holder":"alpha","rows":[{"asn":64496,"prefix":"192.0.2.0/24","max":24,"from":"2026-01-01","until":"2026-12-31"},{"asn":"AS64496","prefix":"192.0.2.0/24","max":24,"from":"2026-01-01","until":"2026-12-31"}]} => 6
reg {"do":"import","holder":"alpha","rows":[{"asn":4294967296,"prefix":"192.0.2.0/24","max":24,"from":"2026-01-01","until":"2026-12-31"}]} => 6
reg {"do":"import","holder":"alpha","rows":[{"asn":64496,"prefix":"192.0.2.1/24","max":24,"from":"2026-01-01","until":"2026-12-31"}]} => 5
reg {"do":"import","holder":"alpha","rows":[{"asn":64496,"prefix":"192.0.2.0/24","max":256,"from":"2026-01-01","until":"2026-12-31"}]} => 7
reg {"do":"import","holder":"alpha","rows":[{"asn":64496,"prefix":"192.0.2.0/24","max":-1,"from":"2026-01-01","until":"2026-12-31"}]} => 7
reg {"do":"import","holder":"alpha","rows":[{"asn":64496,"prefix":"192.0.2.0/24","max":"24","from":"2026-01-01","until":"2026-12-31"}]} => 7
reg {"do":"import","holder":"alpha","rows":[{"asn":64496,"prefix":"192.0.2.0/24","max":24,"from":"2026-02-29","until":"2026-12-31"}]} => 8
reg {"do":"import","holder":"alpha","rows":[{"asn":64496,"prefix":"192.0.2.0/24","max":24,"from":"2026-01-01","until":null}]} => 8
reg {"do":"import","holder":"Alpha","rows":[]} => 3
Reg {"do":"import","holder":"alpha","rows":[]} => 4
reg {"do":"import","holder":"alpha"} => 2
reg {"do":"export","holder":"alpha"} => 2
# lowest_number_over_all_rows_is_reported
reg {"do":"import","holder":"alpha","rows":[{"asn":null,"prefix":"192.0.2.0/24","max":24,"from":"2026-01-01","until":"2026-12-31"},{"asn":64496,"prefix":"192.0.2.1/24","max":24,"from":"2026-01-01","until":"2026-12-31"}]} => 5
reg {"do":"import","holder":"alpha","rows":[{"asn":64496,"prefix":"192.0.2.0/24","max":24,"from":"","until":""},{"asn":64496,"prefix":"192.0.2.0/24","max":256,"from":"2026-01-01","until":"2026-12-31"}]} => 7
reg {"do":"import","holder":"alpha","rows":[{"asn":64496,"prefix":"192.0.2.0/24","max":24,"from":"","until":"2026-12-31"},{"asn":-1,"prefix":"192.0.2.0/24","max":256,"from":"2026-01-01","until":"2026-12-31"}]} => 6
reg {"do":"import","holder":"alpha","rows":[{"asn":null,"prefix":null,"max":null,"from":null,"until":null},{}]} => 2
reg {"do":"import","holder":"","rows":[{"asn":null,"prefix":null,"max":null,"from":null,"until":null}]} => 3
-reg {"do":"import","holder":"alpha","rows":[{"asn":64496,"prefix":"192.0.2.0/24","max":24,"from":"","until":"2026-12-31"}]} => 4
# entries_of_a_create
ann {"do":"create","holder":"alpha","asn":64496,"entries":[{"prefix":"192.0.2.0/24","max":24}],"from":"2026-01-01","until":"2026-12-31"} => 0
ann {"do":"create","holder":"alpha","asn":64496,"entries":[{"max":48,"prefix":"2001:db8::/32"},{"prefix":"192.0.2.0/24","max":24}],"from":"2026-01-01","until":"2026-12-31"} => 0
ann {"do":"create","holder":"alpha","asn":64496,"entries":[{"prefix":"192.0.2.0/24","max":24}],"prefix":"192.0.2.0/24","max":24,"from":"2026-01-01","until":"2026-12-31"} => 2
ann {"do":"create","holder":"alpha","asn":64496,"entries":[{"prefix":"192.0.2.0/24","max":24}],"max":24,"from":"2026-01-01","until":"2026-12-31"} => 2
ann {"do":"create","holder":"alpha","asn":64496,"from":"2026-01-01","until":"2026-12-31"} => 2
ann {"do":"create","holder":"alpha","asn":64496,"prefix":"192.0.2.0/24","from":"2026-01-01","until":"2026-12-31"} => 2
ann {"do":"create","holder":"alpha","asn":64496,"entries":{},"from":"2026-01-01","until":"2026-12-31"} => 2
ann {"do":"create","holder":"alpha","asn":64496,"entries":[7],"from":"2026-01-01","until":"2026-12-31"} => 2
ann {"do":"create","holder":"alpha","asn":64496,"entries":[{"prefix":"192.0.2.0/24"}],"from":"2026-01-01","until":"2026-12-31"} => 2
ann {"do":"create","holder":"alpha","asn":64496,"entries":[{"prefix":"192.0.2.0/24","max":24,"asn":1}],"from":"2026-01-01","until":"2026-12-31"} => 2
ann {"do":"create","holder":"alpha","asn":64496,"entries":[],"from":"2026-01-01","until":"2026-12-31"} => 12
ann {"do":"create","holder":"alpha","asn":64496,"entries":[{"prefix":"192.0.2.0/24","max":24},{"prefix":"192.0.2.1/24","max":24}],"from":"2026-01-01","until":"2026-12-31"} => 5
ann {"do":"create","holder":"alpha","asn":64496,"entries":[{"prefix":"192.0.2.0/24","max":256}],"from":"2026-01-01","until":"2026-12-31"} => 7
# one_prefix_twice_is_malformed
ann {"do":"create","holder":"alpha","asn":64496,"entries":[{"prefix":"192.0.2.0/24","max":24},{"prefix":"192.0.2.0/24","max":25}],"from":"2026-01-01","until":"2026-12-31"} => 14
ann {"do":"create","holder":"alpha","asn":64496,"entries":[{"prefix":"192.0.2.0/24","max":24},{"prefix":"::/0","max":0},{"prefix":"192.0.2.0/24","max":24}],"from":"2026-01-01","until":"2026-12-31"} => 14
ann {"do":"create","holder":"alpha","asn":64496,"entries":[{"prefix":"192.0.2.0/24","max":24},{"prefix":"192.0.2.0/24","max":25}],"from":"2026-01-01","until":"never"} => 8
ann {"do":"whatif","holder":"alpha","changes":[{"do":"create","asn":64496,"entries":[{"prefix":"::/0","max":0},{"prefix":"::/0","max":1}],"from":"2026-01-01","until":"2026-12-31"}],"routes":[{"prefix":"::/0","origin":1}]} => 14
ann {"do":"whatif","holder":"alpha","changes":[{"do":"create","asn":64496,"entries":[{"prefix":"::/0","max":0},{"prefix":"::/1","max":1}],"from":"2026-01-01","until":"2026-12-31"}],"routes":[{"prefix":"::/0","origin":1}]} => 0
# maxes_of_an_amendment
ann {"do":"amend","holder":"alpha","number":1,"maxes":[24,48],"until":"2026-12-31"} => 0
ann {"do":"amend","holder":"alpha","number":1,"maxes":[24],"max":24,"until":"2026-12-31"} => 2
ann {"do":"amend","holder":"alpha","number":1,"until":"2026-12-31"} => 2
ann {"do":"amend","holder":"alpha","number":1,"maxes":24,"until":"2026-12-31"} => 2
ann {"do":"amend","holder":"alpha","number":1,"maxes":["24"],"until":"2026-12-31"} => 7
ann {"do":"amend","holder":"alpha","number":1,"maxes":[24,256],"until":"2026-12-31"} => 7
ann {"do":"amend","holder":"alpha","number":1,"maxes":[],"until":"2026-12-31"} => 12
# changes_of_a_what_if
reg {"do":"whatif","holder":"alpha","changes":[],"routes":[{"prefix":"::/0","origin":1}]} => 0
reg {"do":"whatif","holder":"alpha","changes":[{"do":"create","asn":64496,"prefix":"192.0.2.0/24","max":24,"from":"2026-01-01","until":"2026-12-31"}],"routes":[{"prefix":"::/0","origin":1}]} => 0
reg {"do":"whatif","holder":"alpha","changes":[{"do":"create","asn":64496,"prefix":"192.0.2.0/24","max":24,"from":"2026-01-01","until":"2026-12-31"},{"number":999999,"do":"withdraw"},{"do":"withdraw","number":1}],"routes":[{"prefix":"::/0","origin":1}]} => 0
reg {"do":"whatif","holder":"alpha","changes":{},"routes":[{"prefix":"::/0","origin":1}]} => 2
reg {"do":"whatif","holder":"alpha","changes":null,"routes":[{"prefix":"::/0","origin":1}]} => 2
reg {"do":"whatif","holder":"alpha","changes":[7],"routes":[{"prefix":"::/0","origin":1}]} => 2
reg {"do":"whatif","holder":"alpha","changes":[{}],"routes":[{"prefix":"::/0","origin":1}]} => 2
reg {"do":"whatif","holder":"alpha","changes":["withdraw"],"routes":[{"prefix":"::/0","origin":1}]} => 2
reg {"do":"whatif","holder":"alpha","changes":[{"do":"withdraw"}],"routes":[{"prefix":"::/0","origin":1}]} => 2
reg {"do":"whatif","holder":"alpha","changes":[{"number":1}],"routes":[{"prefix":"::/0","origin":1}]} => 2
reg {"do":"whatif","holder":"alpha","changes":[{"do":"amend","number":1}],"routes":[{"prefix":"::/0","origin":1}]} => 2
reg {"do":"whatif","holder":"alpha","changes":[{"do":"Withdraw","number":1}],"routes":[{"prefix":"::/0","origin":1}]} => 2
reg {"do":"whatif","holder":"alpha","changes":[{"do":null,"number":1}],"routes":[{"prefix":"::/0","origin":1}]} => 2
reg {"do":"whatif","holder":"alpha","changes":[{"do":"withdraw","number":1,"max":24}],"routes":[{"prefix":"::/0","origin":1}]} => 2
reg {"do":"whatif","holder":"alpha","changes":[{"do":"withdraw","number":1,"holder":"alpha"}],"routes":[{"prefix":"::/0","origin":1}]} => 2
reg {"do":"whatif","holder":"alpha","changes":[{"do":"withdraw","asn":64496,"prefix":"192.0.2.0/24","max":24,"from":"2026-01-01","until":"2026-12-31"}],"routes":[{"prefix":"::/0","origin":1}]} => 2
reg {"do":"whatif","holder":"alpha","changes":[{"do":"create","number":1}],"routes":[{"prefix":"::/0","origin":1}]} => 2
reg {"do":"whatif","holder":"alpha","changes":[{"do":"create","asn":64496,"prefix":"192.0.2.0/24","max":24,"from":"2026-01-01","until":"2026-12-31","number":1}],"routes":[{"prefix":"::/0","origin":1}]} => 2
reg {"do":"whatif","holder":"alpha","changes":[{"asn":64496,"prefix":"192.0.2.0/24","max":24,"from":"2026-01-01","until":"2026-12-31"}],"routes":[{"prefix":"::/0","origin":1}]} => 2
reg {"do":"whatif","holder":"alpha","changes":[{"do":"withdraw","number":0}],"routes":[{"prefix":"::/0","origin":1}]} => 10
reg {"do":"whatif","holder":"alpha","changes":[{"do":"withdraw","number":1000000}],"routes":[{"prefix":"::/0","origin":1}]} => 10
reg {"do":"whatif","holder":"alpha","changes":[{"do":"withdraw","number":"1"}],"routes":[{"prefix":"::/0","origin":1}]} => 10
reg {"do":"whatif","holder":"alpha","changes":[{"do":"create","asn":-1,"prefix":"192.0.2.0/24","max":24,"from":"2026-01-01","until":"2026-12-31"}],"routes":[{"prefix":"::/0","origin":1}]} => 6
reg {"do":"whatif","holder":"alpha","changes":[{"do":"create","asn":64496,"prefix":"all","max":24,"from":"2026-01-01","until":"2026-12-31"}],"routes":[{"prefix":"::/0","origin":1}]} => 5
reg {"do":"whatif","holder":"alpha","changes":[{"do":"create","asn":64496,"prefix":"192.0.2.0/24","max":256,"from":"2026-01-01","until":"2026-12-31"}],"routes":[{"prefix":"::/0","origin":1}]} => 7
reg {"do":"whatif","holder":"alpha","changes":[{"do":"create","asn":64496,"prefix":"192.0.2.0/24","max":24,"from":"2026-1-1","until":"2026-12-31"}],"routes":[{"prefix":"::/0","origin":1}]} => 8
reg {"do":"whatif","holder":"alpha","changes":[],"routes":[]} => 12
reg {"do":"whatif","holder":"alpha","changes":[],"routes":null} => 2
reg {"do":"whatif","holder":"alpha","changes":[],"routes":[{"prefix":"::/0"}]} => 2
reg {"do":"whatif","holder":"alpha","changes":[],"routes":[{"prefix":"::","origin":1}]} => 5
reg {"do":"whatif","holder":"alpha","changes":[],"routes":[{"prefix":"::/0","origin":"NONE"}]} => 6
reg {"do":"whatif","holder":"alpha","changes":[],"routes":[{"prefix":"::/0","origin":1}],"file":{}} => 2
reg {"do":"whatif","holder":"alpha ","changes":[],"routes":[{"prefix":"::/0","origin":1}]} => 3
- {"do":"whatif","holder":"alpha","changes":[],"routes":[{"prefix":"::/0","origin":1}]} => 4
reg {"do":"whatif","holder":"alpha","changes":[]} => 2
reg {"do":"whatif","holder":"alpha","routes":[{"prefix":"::/0","origin":1}]} => 2
# lowest_number_over_all_changes_and_routes_is_reported
reg {"do":"whatif","holder":"alpha","changes":[{"do":"withdraw","number":0}],"routes":[]} => 10
reg {"do":"whatif","holder":"alpha","changes":[{"do":"withdraw","number":0},{"do":"create","asn":64496,"prefix":"192.0.2.0/24","max":256,"from":"","until":""}],"routes":[{"prefix":"::/0","origin":1}]} => 7
reg {"do":"whatif","holder":"alpha","changes":[{"do":"withdraw","number":0}],"routes":[{"prefix":"::/0","origin":-1}]} => 6
reg {"do":"whatif","holder":"alpha","changes":[{"do":"create","asn":-1,"prefix":"192.0.2.0/24","max":24,"from":"2026-01-01","until":"2026-12-31"}],"routes":[{"prefix":"::","origin":1}]} => 5
reg {"do":"whatif","holder":"","changes":[{"do":"withdraw","number":0},{"do":"end","number":1}],"routes":[{"prefix":"::/0","origin":1}]} => 2
Reg {"do":"whatif","holder":"","changes":[{"do":"withdraw","number":0}],"routes":[]} => 3
"#;

/// Requests with their callers before them.
const REQUESTS: &str = r#"
# reports_the_number_of_each_member
reg {"do":"delegate","holder":"alpha","prefix":"192.0.2.0/24"} => 0
reg {"do":"delegate","holder":"alpha","prefix":"192.0.2.1/24"} => 5
reg {"do":"delegate","holder":"alpha","prefix":24} => 5
reg {"do":"reclaim","holder":"alpha","prefix":"2001:db8::/32"} => 0
reg {"do":"reclaim","holder":"-alpha","prefix":"2001:DB8::/32"} => 3
reg {"do":"transfer","prefix":"192.0.2.0/24","giver":"alpha","taker":"beta"} => 0
reg {"do":"transfer","prefix":"192.0.2.0/24","giver":"","taker":"beta"} => 3
reg {"do":"transfer","prefix":"192.0.2.0/24","giver":"alpha","taker":"Beta"} => 3
reg {"do":"grant","holder":"alpha","name":"ann","role":"clerk","scope":"192.0.2.0/24","until":"2026-12-31"} => 0
reg {"do":"grant","holder":"alpha","name":"ann","role":"manager","scope":"all","until":"2026-12-31"} => 0
reg {"do":"grant","holder":"alpha","name":"Ann","role":"manager","scope":"all","until":"2026-12-31"} => 4
reg {"do":"grant","holder":"alpha","name":"ann","role":"manager","scope":"192.0.2.0/24","until":"2026-12-31"} => 9
reg {"do":"grant","holder":"alpha","name":"ann","role":"auditor","scope":"192.0.2.1/24","until":"2026-12-31"} => 9
reg {"do":"grant","holder":"alpha","name":"ann","role":"auditor","scope":null,"until":"2026-12-31"} => 9
reg {"do":"grant","holder":"alpha","name":"ann","role":"owner","scope":"all","until":"2026-12-31"} => 9
reg {"do":"grant","holder":"alpha","name":"ann","role":"manager","scope":"192.0.2.0/24","until":"2026-13-01"} => 8
reg {"do":"revoke","holder":"alpha","number":1} => 0
reg {"do":"revoke","holder":"alpha","number":0} => 10
reg {"do":"withdraw","holder":"alpha","number":999999} => 0
reg {"do":"show","holder":"alpha","number":1000000} => 10
reg {"do":"show","holder":"alpha","number":"1"} => 10
reg {"do":"content","holder":"alpha","number":1} => 0
reg {"do":"content","holder":"alpha","number":0} => 10
reg {"do":"content","holder":"alpha"} => 2
reg {"do":"create","holder":"alpha","asn":64496,"prefix":"192.0.2.0/24","max":24,"from":"2026-01-01","until":"2026-12-31"} => 0
reg {"do":"create","holder":"alpha","asn":4294967295,"prefix":"192.0.2.0/24","max":255,"from":"1970-01-01","until":"9999-12-31"} => 0
reg {"do":"create","holder":"alpha","asn":4294967296,"prefix":"192.0.2.0/24","max":24,"from":"2026-01-01","until":"2026-12-31"} => 6
reg {"do":"create","holder":"alpha","asn":64496,"prefix":"192.0.2.0/24","max":256,"from":"2026-01-01","until":"2026-12-31"} => 7
reg {"do":"create","holder":"alpha","asn":64496,"prefix":"192.0.2.0/24","max":24,"from":"2026-1-1","until":"2026-12-31"} => 8
reg {"do":"amend","holder":"alpha","number":1,"max":0,"until":"2026-12-31"} => 0
reg {"do":"amend","holder":"alpha","number":1,"max":-1,"until":"2026-12-31"} => 7
reg {"do":"list","holder":"alpha"} => 0
reg {"do":"payloads"} => 0
reg {"do":"payloads","holder":"alpha"} => 2
reg {"do":"validity","routes":[{"prefix":"192.0.2.0/24","origin":64496},{"origin":null,"prefix":"::/0"}]} => 0
reg {"do":"validity","routes":[]} => 12
reg {"do":"validity","routes":{}} => 2
reg {"do":"validity","routes":[7]} => 2
reg {"do":"validity","routes":[{"prefix":"192.0.2.0/24"}]} => 2
reg {"do":"validity","routes":[{"prefix":"192.0.2.0/24","origin":1,"max":24}]} => 2
reg {"do":"validity","routes":[{"prefix":"192.0.2.0/24","origin":"AS1"}]} => 6
reg {"do":"validity","routes":[{"prefix":"192.0.2.0/24","origin":"AS1"},{"prefix":"all","origin":1}]} => 5
reg {"do":"slurm","file":{}} => 11
# files_of_a_slurm_request
reg {"do":"slurm","files":[]} => 0
reg {"do":"slurm","files":[{"name":"a","file":{"slurmVersion":1,"validationOutputFilters":{"prefixFilters":[],"bgpsecFilters":[]},"locallyAddedAssertions":{"prefixAssertions":[],"bgpsecAssertions":[]}}},{"file":{"slurmVersion":1,"validationOutputFilters":{"prefixFilters":[],"bgpsecFilters":[]},"locallyAddedAssertions":{"prefixAssertions":[],"bgpsecAssertions":[]}},"name":"b"}]} => 0
reg {"do":"slurm","file":{"slurmVersion":1,"validationOutputFilters":{"prefixFilters":[],"bgpsecFilters":[]},"locallyAddedAssertions":{"prefixAssertions":[],"bgpsecAssertions":[]}},"files":[]} => 2
reg {"do":"slurm"} => 2
reg {"do":"slurm","files":null} => 2
reg {"do":"slurm","files":{}} => 2
reg {"do":"slurm","files":[7]} => 2
reg {"do":"slurm","files":[{"name":"a"}]} => 2
reg {"do":"slurm","files":[{"file":{"slurmVersion":1,"validationOutputFilters":{"prefixFilters":[],"bgpsecFilters":[]},"locallyAddedAssertions":{"prefixAssertions":[],"bgpsecAssertions":[]}}}]} => 2
reg {"do":"slurm","files":[{"name":"a","file":{"slurmVersion":1,"validationOutputFilters":{"prefixFilters":[],"bgpsecFilters":[]},"locallyAddedAssertions":{"prefixAssertions":[],"bgpsecAssertions":[]}},"asn":1}]} => 2
reg {"do":"slurm","files":[{"name":"a","file":{}},7]} => 2
reg {"do":"slurm","files":[{"name":7,"file":{"slurmVersion":1,"validationOutputFilters":{"prefixFilters":[],"bgpsecFilters":[]},"locallyAddedAssertions":{"prefixAssertions":[],"bgpsecAssertions":[]}}}]} => 15
reg {"do":"slurm","files":[{"name":"","file":{"slurmVersion":1,"validationOutputFilters":{"prefixFilters":[],"bgpsecFilters":[]},"locallyAddedAssertions":{"prefixAssertions":[],"bgpsecAssertions":[]}}}]} => 15
reg {"do":"slurm","files":[{"name":"a","file":{"slurmVersion":1,"validationOutputFilters":{"prefixFilters":[],"bgpsecFilters":[]},"locallyAddedAssertions":{"prefixAssertions":[],"bgpsecAssertions":[]}}},{"name":"b","file":{"slurmVersion":1,"validationOutputFilters":{"prefixFilters":[],"bgpsecFilters":[]},"locallyAddedAssertions":{"prefixAssertions":[],"bgpsecAssertions":[]}}},{"name":"a","file":{"slurmVersion":1,"validationOutputFilters":{"prefixFilters":[],"bgpsecFilters":[]},"locallyAddedAssertions":{"prefixAssertions":[],"bgpsecAssertions":[]}}}]} => 15
reg {"do":"slurm","files":[{"name":7,"file":{"slurmVersion":1,"validationOutputFilters":{"prefixFilters":[],"bgpsecFilters":[]},"locallyAddedAssertions":{"prefixAssertions":[],"bgpsecAssertions":[]}}},{"name":"a","file":null}]} => 11
Reg {"do":"slurm","files":[{"name":7,"file":{"slurmVersion":1,"validationOutputFilters":{"prefixFilters":[],"bgpsecFilters":[]},"locallyAddedAssertions":{"prefixAssertions":[],"bgpsecAssertions":[]}}}]} => 4
# takes_numbers_in_plain_digits_alone
reg {"do":"amend","holder":"alpha","number":1,"max":24,"until":"2026-12-31"} => 0
reg {"do":"amend","holder":"alpha","number":1,"max":24.0,"until":"2026-12-31"} => 7
reg {"do":"amend","holder":"alpha","number":1,"max":1e2,"until":"2026-12-31"} => 7
reg {"do":"amend","holder":"alpha","number":1,"max":-0,"until":"2026-12-31"} => 7
reg {"do":"amend","holder":"alpha","number":1,"max":10000000000000000000,"until":"2026-12-31"} => 7
reg {"do":"amend","holder":"alpha","number":1,"max":99999999999999999999,"until":"2026-12-31"} => 7
reg {"do":"amend","holder":"alpha","number":1,"max":"24","until":"2026-12-31"} => 7
reg {"do":"amend","holder":"alpha","number":1,"max":024,"until":"2026-12-31"} => 1
reg {"do":"amend","holder":"alpha","number":1,"max":+24,"until":"2026-12-31"} => 1
reg {"do":"amend","holder":"alpha","number":1,"max":1e999,"until":"2026-12-31"} => 1
"#;

fn reported(alloc: Global, line: &[u8]) -> u8 {
    match read_line_request(alloc, line) {
        Ok(_) => 0,
        Err(LineFault::Malformed(malformed)) => malformed.number,
        Err(LineFault::Memory) => 255,
    }
}

/// The number that is reported of a request with its caller before it.
fn reported_of_request(rt: &impl Abort, alloc: Global, request: &str) -> u8 {
    let line = line_of(rt, alloc, DAY, request);
    reported(alloc, line.as_bytes())
}

#[test]
fn bytes_that_are_no_json_are_malformed_1(rt: HostRuntime) {
    for line in NOT_JSON {
        assert_same(&rt, reported(rt.alloc(), line), 1, line);
    }
}

/// The number that is reported of a row is that of the row.
fn assert_number(rt: &impl Abort, row: &Row<'_>, reported: u8) {
    let number: u8 = row.output.parse().expect(rt, "a number");
    assert_same(rt, reported, number, (row.name, row.input));
}

#[test]
fn reports_why_a_line_is_refused(rt: HostRuntime) {
    for row in &value_of(&rt, table_rows(rt.alloc(), LINES), "rows") {
        assert_number(&rt, row, reported(rt.alloc(), row.input.as_bytes()));
    }
}

fn assert_requests(rt: &impl Abort, alloc: Global, table: &str) {
    for row in &value_of(rt, table_rows(alloc, table), "rows") {
        assert_number(rt, row, reported_of_request(rt, alloc, row.input));
    }
}

#[test]
fn reports_why_a_request_is_refused(rt: HostRuntime) {
    assert_requests(&rt, rt.alloc(), REQUESTS);
    assert_requests(&rt, rt.alloc(), LISTS);
}

/// The text before the items of a list, an item with the prefix `::/0`, and the text after the list;
/// and how many items it may have.
const LIMITED: &str = r#"
# limits_of_lists
reg {"do":"validity","routes":[ ; {"prefix":"::/0","origin":1} ; ]} => 10000
reg {"do":"whatif","holder":"alpha","changes":[],"routes":[ ; {"origin":null,"prefix":"::/0"} ; ]} => 10000
reg {"do":"import","holder":"alpha","rows":[ ; {"asn":1,"prefix":"::/0","max":0,"from":"2026-01-01","until":"2026-12-31"} ; ]} => 10000
reg {"do":"whatif","holder":"alpha","changes":[ ; {"do":"create","asn":1,"prefix":"::/0","max":0,"from":"2026-01-01","until":"2026-12-31"} ; ],"routes":[{"prefix":"::/0","origin":1}]} => 1000
"#;

/// A request with a list, of whose items this is one.
#[derive(Clone, Copy)]
struct Limited<'a> {
    head: &'a str,
    item: &'a str,
    end: &'a str,
}

/// So many items, the last of which is `last`.
fn long_list(rt: &impl Abort, alloc: Global, item: &str, count: u32, last: &str) -> String {
    let mut list = String::new(alloc);
    for _ in 1..count {
        push_item(rt, &mut list, item);
    }
    push_item(rt, &mut list, last);
    list
}

impl<'a> Limited<'a> {
    fn read(rt: &impl Abort, input: &'a str) -> Limited<'a> {
        let (head, list) = input.split_once(" ; ").expect(rt, "an item");
        let (item, end) = list.split_once(" ; ").expect(rt, "an end");
        Limited { head, item, end }
    }

    /// The number that is reported of so many items, the last of which is `last`.
    fn assert_number(&self, rt: &impl Abort, alloc: Global, count: u32, last: &str, number: u8) {
        let list = long_list(rt, alloc, self.item, count, last);
        let request = format!(in alloc; "{}{list}{}", self.head, self.end);
        let reported = reported_of_request(rt, alloc, &request.expect(rt, "a request"));
        assert_same(rt, reported, number, (self.head, count));
    }

    /// So many items are a list, and one more is not, even if it is malformed otherwise.
    fn assert_limit(&self, rt: &impl Abort, alloc: Global, most: u32) {
        let more = most.checked_add(1).expect(rt, "a limit");
        self.assert_number(rt, alloc, 1, self.item, 0);
        self.assert_number(rt, alloc, most, self.item, 0);
        self.assert_number(rt, alloc, more, self.item, 12);
        let (before, after) = self.item.split_once("::/0").expect(rt, "a prefix");
        let malformed = format!(in alloc; "{before}::{after}").expect(rt, "an item");
        self.assert_number(rt, alloc, more, &malformed, 5);
    }
}

#[test]
fn limits_of_lists(rt: HostRuntime) {
    for row in &value_of(&rt, table_rows(rt.alloc(), LIMITED), "rows") {
        let most: u32 = row.output.parse().expect(&rt, "a limit");
        Limited::read(&rt, row.input).assert_limit(&rt, rt.alloc(), most);
    }
}

/// The number of a line that is so many arrays deep.
fn assert_depth(rt: &impl Abort, alloc: Global, depth: u32, number: u8) {
    let line = nested(alloc, depth).expect(rt, "a line");
    assert_same(rt, reported(alloc, line.as_bytes()), number, depth);
}

#[test]
fn nesting_over_127_is_no_json(rt: HostRuntime) {
    assert_depth(&rt, rt.alloc(), 127, 2);
    assert_depth(&rt, rt.alloc(), 128, 1);
}

/// The numbers of such a request, both 0 where it is one.
fn assert_slurm(rt: &impl Abort, alloc: Global, request: &str, numbers: (u8, u8), name: &str) {
    let line = line_of(rt, alloc, DAY, request);
    let reported = match read_line_request(alloc, line.as_bytes()) {
        Ok(_) => (0, 0),
        Err(LineFault::Malformed(malformed)) => (malformed.number, malformed.slurm.unwrap_or(0)),
        Err(LineFault::Memory) => rt.panic("no memory"),
    };
    assert_same(rt, reported, numbers, name);
}

/// The numbers of a line that brings this file.
fn assert_file(rt: &impl Abort, alloc: Global, file: &str, numbers: (u8, u8), name: &str) {
    let request = format!(in alloc; "reg {{\"do\":\"slurm\",\"file\":{file}}}");
    assert_slurm(rt, alloc, &request.expect(rt, "a request"), numbers, name);
}

#[test]
fn limits_of_slurm_files(rt: HostRuntime) {
    let full = file_of_many(&rt, rt.alloc(), 4095);
    assert_file(&rt, rt.alloc(), &full, (0, 0), "4095 filters");
    let over = file_of_many(&rt, rt.alloc(), 4096);
    assert_file(&rt, rt.alloc(), &over, (11, 11), "4096 filters");
}

/// The line's own object is one level more.
#[test]
fn nesting_of_slurm_files(rt: HostRuntime) {
    let deep = nested(rt.alloc(), 126).expect(&rt, "a file");
    assert_file(&rt, rt.alloc(), &deep, (11, 2), "126 deep");
    let deeper = nested(rt.alloc(), 127).expect(&rt, "a file");
    assert_file(&rt, rt.alloc(), &deeper, (1, 0), "127 deep");
}

/// The numbers of a line that brings these two files.
fn assert_two_files(
    rt: &impl Abort,
    alloc: Global,
    one: &str,
    other: &str,
    numbers: (u8, u8),
    name: &str,
) {
    let request = format!(in alloc;
        "reg {{\"do\":\"slurm\",\"files\":[{{\"name\":\"a\",\"file\":{one}}},\
         {{\"name\":\"b\",\"file\":{other}}}]}}"
    );
    assert_slurm(rt, alloc, &request.expect(rt, "a request"), numbers, name);
}

/// The limit on entries is that of each file.
#[test]
fn limits_of_sets_of_slurm_files(rt: HostRuntime) {
    let alloc = rt.alloc();
    let full = file_of_many(&rt, alloc, 4095);
    assert_two_files(&rt, alloc, &full, &full, (0, 0), "both full");
    let over = file_of_many(&rt, alloc, 4096);
    assert_two_files(&rt, alloc, &full, &over, (11, 11), "one over its limit");
}

/// A request of this length, with blanks after it.
fn padded(rt: &impl Abort, alloc: Global, length: usize) -> String {
    let mut line = String::from_str(alloc, REGISTER).expect(rt, "a line");
    for _ in REGISTER.len()..length {
        line.push(' ').expect(rt, "a longer line");
    }
    line
}

#[test]
fn length_is_tested_before_anything_else(rt: HostRuntime) {
    let mut line = padded(&rt, rt.alloc(), LINE_LENGTH_LIMIT);
    assert_same(&rt, reported(rt.alloc(), line.as_bytes()), 0, "the limit");
    line.push('{').expect(&rt, "a longer line");
    assert_same(&rt, reported(rt.alloc(), line.as_bytes()), 13, "one more");
}

/// So many entries, each of a prefix of its own.
fn entries_text(rt: &impl Abort, alloc: Global, count: u32) -> String {
    let mut entries = String::new(alloc);
    for index in 0..count {
        let entry = format!(in alloc; r#"{{"prefix":"10.0.{index}.0/24","max":24}}"#);
        push_item(rt, &mut entries, &entry.expect(rt, "an entry"));
    }
    entries
}

/// The number of a create with so many entries.
fn assert_entries(rt: &impl Abort, alloc: Global, count: u32, number: u8) {
    let entries = entries_text(rt, alloc, count);
    let request = format!(in alloc;
        r#"ann {{"do":"create","holder":"alpha","asn":1,"entries":[{entries}],"from":"2026-01-01","until":"2026-12-31"}}"#
    );
    let reported = reported_of_request(rt, alloc, &request.expect(rt, "a request"));
    assert_same(rt, reported, number, (count, "entries"));
}

/// The number of an amendment to so many maxLengths.
fn assert_max_lengths(rt: &impl Abort, alloc: Global, count: u32, number: u8) {
    let list = long_list(rt, alloc, "24", count, "24");
    let request = format!(in alloc;
        r#"ann {{"do":"amend","holder":"alpha","number":1,"maxes":[{list}],"until":"2026-12-31"}}"#
    );
    let reported = reported_of_request(rt, alloc, &request.expect(rt, "a request"));
    assert_same(rt, reported, number, (count, "maxLengths"));
}

#[test]
fn authorization_has_up_to_64_entries(rt: HostRuntime) {
    assert_entries(&rt, rt.alloc(), 64, 0);
    assert_entries(&rt, rt.alloc(), 65, 12);
    assert_max_lengths(&rt, rt.alloc(), 64, 0);
    assert_max_lengths(&rt, rt.alloc(), 65, 12);
}
