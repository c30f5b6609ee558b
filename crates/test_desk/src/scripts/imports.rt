//! Imports: what is made, what is present already, and what an import is denied for.
use super::push_item;
use std::alloc::Global;
use std::process::Abort;

/// Two rows, one for each half of the one prefix.
pub(crate) const TWO_ROWS: &str = r#"
ann {"do":"import","holder":"alpha","rows":[{"asn":64496,"prefix":"192.0.2.0/25","max":25,"from":"2026-01-01","until":"2026-12-31"},{"asn":64497,"prefix":"192.0.2.128/25","max":26,"from":"2026-01-01","until":"2026-12-31"}]} => {"made":2,"present":0}
"#;

pub(crate) const SCRIPTS: &str = r#"
# import_twice_and_denied_whole after holder, import
ann {"do":"import","holder":"alpha","rows":[{"asn":64496,"prefix":"192.0.2.0/25","max":25,"from":"2026-01-01","until":"2026-12-31"},{"asn":64497,"prefix":"192.0.2.128/25","max":26,"from":"2026-01-01","until":"2026-12-31"}]} => {"made":0,"present":2}
ann {"do":"import","holder":"alpha","rows":[{"asn":64498,"prefix":"192.0.2.0/24","max":24,"from":"2026-01-01","until":"2026-12-31"},{"asn":64498,"prefix":"198.51.100.0/24","max":24,"from":"2026-01-01","until":"2026-12-31"}]} => {"denied":"held","row":2}
ann {"do":"list","holder":"alpha"} => {"listed":[{"number":1,"asn":64496,"prefix":"192.0.2.0/25","max":25,"from":"2026-01-01","until":"2026-12-31"},{"number":2,"asn":64497,"prefix":"192.0.2.128/25","max":26,"from":"2026-01-01","until":"2026-12-31"}]}
# import_row_with_other_last_day_is_same after holder, authorization
ann {"do":"import","holder":"alpha","rows":[{"asn":64496,"prefix":"192.0.2.0/24","max":24,"from":"2026-01-01","until":"2026-11-30"}]} => {"denied":"same","row":1}
ann {"do":"list","holder":"alpha"} => {"listed":[{"number":1,"asn":64496,"prefix":"192.0.2.0/24","max":24,"from":"2026-01-01","until":"2026-12-31"}]}
# import_row_repeated_is_present after holder
ann {"do":"import","holder":"alpha","rows":[{"asn":64496,"prefix":"192.0.2.0/24","max":24,"from":"2026-01-01","until":"2026-12-31"},{"asn":64496,"prefix":"192.0.2.0/24","max":24,"from":"2026-01-01","until":"2026-12-31"}]} => {"made":1,"present":1}
ann {"do":"list","holder":"alpha"} => {"listed":[{"number":1,"asn":64496,"prefix":"192.0.2.0/24","max":24,"from":"2026-01-01","until":"2026-12-31"}]}
# rows_that_repeat_each_other_make_one_each after holder
ann {"do":"import","holder":"alpha","rows":[{"asn":64496,"prefix":"192.0.2.0/25","max":25,"from":"2026-01-01","until":"2026-12-31"},{"asn":64497,"prefix":"192.0.2.128/25","max":26,"from":"2026-01-01","until":"2026-12-31"},{"asn":64496,"prefix":"192.0.2.0/25","max":25,"from":"2026-01-01","until":"2026-12-31"},{"asn":64497,"prefix":"192.0.2.128/25","max":26,"from":"2026-01-01","until":"2026-12-31"},{"asn":64496,"prefix":"192.0.2.0/25","max":25,"from":"2026-01-01","until":"2026-12-31"}]} => {"made":2,"present":3}
ann {"do":"create","holder":"alpha","asn":64496,"prefix":"192.0.2.0/24","max":24,"from":"2026-01-01","until":"2026-12-31"} => {"done":3}
ann {"do":"list","holder":"alpha"} => {"listed":[{"number":1,"asn":64496,"prefix":"192.0.2.0/25","max":25,"from":"2026-01-01","until":"2026-12-31"},{"number":2,"asn":64497,"prefix":"192.0.2.128/25","max":26,"from":"2026-01-01","until":"2026-12-31"},{"number":3,"asn":64496,"prefix":"192.0.2.0/24","max":24,"from":"2026-01-01","until":"2026-12-31"}]}
# row_that_differs_from_an_earlier_one_in_a_day_is_same after holder
ann {"do":"import","holder":"alpha","rows":[{"asn":64496,"prefix":"192.0.2.0/25","max":25,"from":"2026-01-01","until":"2026-12-31"},{"asn":64497,"prefix":"192.0.2.128/25","max":26,"from":"2026-01-01","until":"2026-12-31"},{"asn":64496,"prefix":"192.0.2.0/25","max":25,"from":"2026-01-02","until":"2026-12-31"}]} => {"denied":"same","row":3}
ann {"do":"list","holder":"alpha"} => {"listed":[]}
# row_that_ended_long_ago_is_present after holder, authorization
reg {"do":"grant","holder":"alpha","name":"eve","role":"clerk","scope":"all","until":"2040-12-31"} => {"done":2}
day 2031-07-01
eve {"do":"import","holder":"alpha","rows":[{"asn":64496,"prefix":"192.0.2.0/24","max":24,"from":"2026-01-01","until":"2026-12-31"}]} => {"made":0,"present":1}
eve {"do":"import","holder":"alpha","rows":[{"asn":64496,"prefix":"192.0.2.0/24","max":24,"from":"2026-01-01","until":"2026-12-31"},{"asn":64496,"prefix":"192.0.2.0/24","max":25,"from":"2026-01-01","until":"2026-12-31"}]} => {"denied":"dates","row":2}
eve {"do":"import","holder":"alpha","rows":[{"asn":64496,"prefix":"192.0.2.0/24","max":24,"from":"2026-01-01","until":"2031-12-31"}]} => {"denied":"same","row":1}
# row_of_days_to_come_is_made_and_then_present after holder
ann {"do":"import","holder":"alpha","rows":[{"asn":64496,"prefix":"192.0.2.0/24","max":24,"from":"2027-01-01","until":"2027-12-31"}]} => {"made":1,"present":0}
ann {"do":"import","holder":"alpha","rows":[{"asn":64496,"prefix":"192.0.2.0/24","max":24,"from":"2027-01-01","until":"2027-12-31"}]} => {"made":0,"present":1}
bob {"do":"payloads"} => {"payloads":[]}
# row_of_a_length_out_of_range_is_denied after holder
ann {"do":"import","holder":"alpha","rows":[{"asn":64496,"prefix":"192.0.2.0/24","max":200,"from":"2026-01-01","until":"2026-12-31"}]} => {"denied":"length","row":1}
ann {"do":"import","holder":"alpha","rows":[{"asn":64496,"prefix":"192.0.2.0/24","max":256,"from":"2026-01-01","until":"2026-12-31"}]} => {"malformed":7}
ann {"do":"import","holder":"alpha","rows":[{"asn":64496,"prefix":"192.0.2.0/24","max":24,"from":"2026-01-01","until":"2026-12-31"},{"asn":64496,"prefix":"192.0.2.0/24","max":23,"from":"2026-01-01","until":"2026-12-31"}]} => {"denied":"length","row":2}
ann {"do":"import","holder":"alpha","rows":[{"asn":64496,"prefix":"192.0.2.0/24","max":24,"from":"2026-01-01","until":"2026-12-31"},{"asn":64496,"prefix":"198.51.100.0/24","max":33,"from":"2026-01-01","until":"2026-12-31"}]} => {"denied":"length","row":2}
ann {"do":"import","holder":"alpha","rows":[{"asn":64496,"prefix":"192.0.2.0/24","max":24,"from":"2026-01-01","until":"2026-02-28"},{"asn":64496,"prefix":"192.0.2.0/24","max":256,"from":"2026-01-01","until":"2026-12-31"}]} => {"malformed":7}
ann {"do":"list","holder":"alpha"} => {"listed":[]}
# import_without_rows_is_malformed after holder
ann {"do":"import","holder":"alpha","rows":[]} => {"malformed":12}
bob {"do":"import","holder":"zeta","rows":[]} => {"malformed":12}
# present_row_out_of_scope_is_denied after holder, clerk
cleo {"do":"import","holder":"alpha","rows":[{"asn":64496,"prefix":"192.0.2.128/25","max":25,"from":"2026-01-01","until":"2026-12-31"}]} => {"denied":"scope","row":1}
cleo {"do":"import","holder":"alpha","rows":[{"asn":64496,"prefix":"192.0.2.0/25","max":25,"from":"2026-01-01","until":"2026-12-31"},{"asn":64496,"prefix":"192.0.2.128/25","max":25,"from":"2026-01-01","until":"2026-12-31"}]} => {"denied":"scope","row":2}
cleo {"do":"import","holder":"alpha","rows":[{"asn":64496,"prefix":"192.0.2.0/25","max":25,"from":"2026-01-01","until":"2026-12-31"}]} => {"made":1,"present":0}
ann {"do":"list","holder":"alpha"} => {"listed":[{"number":1,"asn":64496,"prefix":"192.0.2.128/25","max":25,"from":"2026-01-01","until":"2026-12-31"},{"number":2,"asn":64496,"prefix":"192.0.2.0/25","max":25,"from":"2026-01-01","until":"2026-12-31"}]}
# import_without_a_grant_is_denied after holder, authorization
ann {"do":"grant","holder":"alpha","name":"olga","role":"auditor","scope":"all","until":"2026-12-31"} => {"done":2}
olga {"do":"import","holder":"alpha","rows":[{"asn":64496,"prefix":"192.0.2.0/24","max":24,"from":"2026-01-01","until":"2026-12-31"}]} => {"denied":"grant","row":1}
reg {"do":"import","holder":"alpha","rows":[{"asn":64496,"prefix":"192.0.2.0/24","max":24,"from":"2026-01-01","until":"2026-12-31"}]} => {"denied":"grant","row":1}
ann {"do":"import","holder":"zeta","rows":[{"asn":64496,"prefix":"192.0.2.0/24","max":24,"from":"2026-01-01","until":"2026-12-31"}]} => {"denied":"grant","row":1}
# import_after_a_withdraw_and_an_amendment after holder, import
ann {"do":"withdraw","holder":"alpha","number":1} => {"done":null}
ann {"do":"import","holder":"alpha","rows":[{"asn":64496,"prefix":"192.0.2.0/25","max":25,"from":"2026-01-01","until":"2026-12-31"},{"asn":64497,"prefix":"192.0.2.128/25","max":26,"from":"2026-01-01","until":"2026-12-31"}]} => {"made":1,"present":1}
ann {"do":"amend","holder":"alpha","number":2,"max":27,"until":"2026-12-31"} => {"done":null}
ann {"do":"import","holder":"alpha","rows":[{"asn":64497,"prefix":"192.0.2.128/25","max":26,"from":"2026-01-01","until":"2026-12-31"},{"asn":64497,"prefix":"192.0.2.128/25","max":27,"from":"2026-01-01","until":"2026-12-31"}]} => {"made":1,"present":1}
ann {"do":"list","holder":"alpha"} => {"listed":[{"number":2,"asn":64497,"prefix":"192.0.2.128/25","max":27,"from":"2026-01-01","until":"2026-12-31"},{"number":3,"asn":64496,"prefix":"192.0.2.0/25","max":25,"from":"2026-01-01","until":"2026-12-31"},{"number":4,"asn":64497,"prefix":"192.0.2.128/25","max":26,"from":"2026-01-01","until":"2026-12-31"}]}
# rows_of_a_part_that_was_transferred after holder, import
reg {"do":"register","holder":"beta"} => {"done":null}
reg {"do":"transfer","prefix":"192.0.2.0/26","giver":"alpha","taker":"beta"} => {"done":null}
ann {"do":"import","holder":"alpha","rows":[{"asn":64497,"prefix":"192.0.2.128/25","max":26,"from":"2026-01-01","until":"2026-12-31"},{"asn":64496,"prefix":"192.0.2.0/25","max":25,"from":"2026-01-01","until":"2026-12-31"}]} => {"denied":"held","row":2}
ann {"do":"import","holder":"alpha","rows":[{"asn":64497,"prefix":"192.0.2.128/25","max":26,"from":"2026-01-01","until":"2026-12-31"},{"asn":64496,"prefix":"192.0.2.64/26","max":26,"from":"2026-01-01","until":"2026-12-31"}]} => {"made":1,"present":1}
ann {"do":"list","holder":"alpha"} => {"listed":[{"number":2,"asn":64497,"prefix":"192.0.2.128/25","max":26,"from":"2026-01-01","until":"2026-12-31"},{"number":3,"asn":64496,"prefix":"192.0.2.64/26","max":26,"from":"2026-01-01","until":"2026-12-31"}]}
# imported_rows_of_both_families_give_vrps after holder, import
reg {"do":"delegate","holder":"alpha","prefix":"2001:db8::/32"} => {"done":null}
ann {"do":"import","holder":"alpha","rows":[{"asn":64498,"prefix":"2001:db8::/32","max":48,"from":"2026-01-01","until":"2026-12-31"},{"asn":0,"prefix":"192.0.2.0/24","max":32,"from":"2026-01-01","until":"2026-12-31"}]} => {"made":2,"present":0}
bob {"do":"payloads"} => {"payloads":[{"asn":0,"prefix":"192.0.2.0/24","max":32},{"asn":64496,"prefix":"192.0.2.0/25","max":25},{"asn":64497,"prefix":"192.0.2.128/25","max":26},{"asn":64498,"prefix":"2001:db8::/32","max":48}]}
"#;

/// What is listed of nothing.
pub(crate) const NOTHING_LISTED: &str = r#"
ann {"do":"list","holder":"alpha"} => {"listed":[]}
"#;

/// What is answered where a thousand authorizations are active.
pub(crate) const FULL: &str = r#"
ann {"do":"whatif","holder":"alpha","changes":[{"do":"create","asn":64496,"prefix":"192.0.2.0/25","max":25,"from":"2026-01-01","until":"2026-12-31"}],"routes":[{"prefix":"192.0.2.0/25","origin":64496}]} => {"denied":"room","row":1}
ann {"do":"whatif","holder":"alpha","changes":[{"do":"withdraw","number":1},{"do":"create","asn":64496,"prefix":"192.0.2.0/25","max":25,"from":"2026-01-01","until":"2026-12-31"}],"routes":[{"prefix":"192.0.2.0/25","origin":64496}]} => {"report":[["Invalid","Valid"]]}
ann {"do":"create","holder":"alpha","asn":64496,"prefix":"192.0.2.0/25","max":25,"from":"2026-01-01","until":"2026-12-31"} => {"denied":"room"}
"#;

/// What is answered where 999 authorizations are active, one for each AS from 1 on.
pub(crate) const ALMOST_FULL: &str = r#"
ann {"do":"whatif","holder":"alpha","changes":[{"do":"create","asn":64496,"prefix":"192.0.2.0/25","max":25,"from":"2026-01-01","until":"2026-12-31"}],"routes":[{"prefix":"192.0.2.0/25","origin":64496}]} => {"report":[["Invalid","Valid"]]}
ann {"do":"whatif","holder":"alpha","changes":[{"do":"create","asn":64496,"prefix":"192.0.2.0/25","max":25,"from":"2026-01-01","until":"2026-12-31"},{"do":"create","asn":64497,"prefix":"192.0.2.0/25","max":25,"from":"2026-01-01","until":"2026-12-31"}],"routes":[{"prefix":"192.0.2.0/25","origin":64496}]} => {"denied":"room","row":2}
ann {"do":"whatif","holder":"alpha","changes":[{"do":"create","asn":64496,"prefix":"192.0.2.0/25","max":25,"from":"2026-01-01","until":"2026-12-31"},{"do":"create","asn":64496,"prefix":"192.0.2.0/25","max":25,"from":"2026-01-01","until":"2026-12-31"}],"routes":[{"prefix":"192.0.2.0/25","origin":64496}]} => {"denied":"same","row":2}
ann {"do":"whatif","holder":"alpha","changes":[{"do":"withdraw","number":7},{"do":"create","asn":64496,"prefix":"192.0.2.0/25","max":25,"from":"2026-01-01","until":"2026-12-31"},{"do":"create","asn":64497,"prefix":"192.0.2.0/25","max":25,"from":"2026-01-01","until":"2026-12-31"}],"routes":[{"prefix":"192.0.2.0/24","origin":7},{"prefix":"192.0.2.0/24","origin":8},{"prefix":"192.0.2.0/25","origin":64497}]} => {"report":[["Valid","Invalid"],["Valid","Valid"],["Invalid","Valid"]]}
ann {"do":"whatif","holder":"alpha","changes":[{"do":"withdraw","number":7},{"do":"create","asn":64496,"prefix":"192.0.2.0/25","max":25,"from":"2026-01-01","until":"2026-12-31"},{"do":"create","asn":64497,"prefix":"192.0.2.0/25","max":25,"from":"2026-01-01","until":"2026-12-31"},{"do":"create","asn":64498,"prefix":"192.0.2.0/25","max":25,"from":"2026-01-01","until":"2026-12-31"}],"routes":[{"prefix":"192.0.2.0/25","origin":64496}]} => {"denied":"room","row":4}
ann {"do":"whatif","holder":"alpha","changes":[{"do":"create","asn":7,"prefix":"192.0.2.0/24","max":24,"from":"2026-01-01","until":"2026-12-31"}],"routes":[{"prefix":"192.0.2.0/24","origin":7}]} => {"denied":"same","row":1}
ann {"do":"whatif","holder":"alpha","changes":[{"do":"withdraw","number":7},{"do":"create","asn":7,"prefix":"192.0.2.0/24","max":24,"from":"2026-01-01","until":"2026-12-31"}],"routes":[{"prefix":"192.0.2.0/24","origin":7}]} => {"report":[["Valid","Valid"]]}
ann {"do":"whatif","holder":"alpha","changes":[{"do":"withdraw","number":1000}],"routes":[{"prefix":"192.0.2.0/24","origin":7}]} => {"denied":"number","row":1}
ann {"do":"whatif","holder":"alpha","changes":[{"do":"create","asn":64496,"prefix":"192.0.2.0/25","max":25,"from":"2026-01-01","until":"2026-12-31"},{"do":"withdraw","number":1000},{"do":"create","asn":64497,"prefix":"192.0.2.0/25","max":25,"from":"2026-01-01","until":"2026-12-31"}],"routes":[{"prefix":"192.0.2.0/25","origin":64496},{"prefix":"192.0.2.0/25","origin":64497}]} => {"report":[["Invalid","Invalid"],["Invalid","Valid"]]}
ann {"do":"create","holder":"alpha","asn":64496,"prefix":"192.0.2.0/25","max":25,"from":"2026-01-01","until":"2026-12-31"} => {"done":1000}
ann {"do":"create","holder":"alpha","asn":64497,"prefix":"192.0.2.0/25","max":25,"from":"2026-01-01","until":"2026-12-31"} => {"denied":"room"}
ann {"do":"create","holder":"alpha","asn":64496,"prefix":"192.0.2.0/25","max":25,"from":"2026-01-01","until":"2026-12-31"} => {"denied":"same"}
ann {"do":"create","holder":"alpha","asn":7,"prefix":"192.0.2.0/24","max":24,"from":"2026-01-01","until":"2026-12-31"} => {"denied":"same"}
ann {"do":"create","holder":"alpha","asn":64496,"prefix":"198.51.100.0/24","max":24,"from":"2026-01-01","until":"2026-12-31"} => {"denied":"held"}
ann {"do":"create","holder":"alpha","asn":64497,"entries":[{"prefix":"192.0.2.128/25","max":25},{"prefix":"198.51.100.0/24","max":24}],"from":"2026-01-01","until":"2026-12-31"} => {"denied":"held"}
ann {"do":"create","holder":"alpha","asn":64496,"entries":[{"prefix":"192.0.2.128/25","max":25},{"prefix":"192.0.2.0/25","max":25}],"from":"2026-01-01","until":"2026-12-31"} => {"denied":"same"}
ann {"do":"amend","holder":"alpha","number":1000,"max":26,"until":"2026-12-31"} => {"done":null}
ann {"do":"withdraw","holder":"alpha","number":7} => {"done":null}
ann {"do":"create","holder":"alpha","asn":64497,"prefix":"192.0.2.0/25","max":25,"from":"2026-01-01","until":"2026-12-31"} => {"done":1001}
ann {"do":"create","holder":"alpha","asn":7,"prefix":"192.0.2.0/24","max":24,"from":"2026-01-01","until":"2026-12-31"} => {"denied":"room"}
ann {"do":"withdraw","holder":"alpha","number":1001} => {"done":null}
ann {"do":"create","holder":"alpha","asn":7,"prefix":"192.0.2.0/24","max":24,"from":"2026-01-01","until":"2026-12-31"} => {"done":1002}
ann {"do":"create","holder":"alpha","asn":64497,"prefix":"192.0.2.0/25","max":25,"from":"2026-01-01","until":"2026-12-31"} => {"denied":"room"}
"#;

/// So many objects that begin with these members, one for each AS from 1 on.
fn terms_of_many(rt: &impl Abort, alloc: Global, members: &str, count: u32) -> String {
    let mut objects = String::new(alloc);
    for asn in 1..=count {
        let object = format!(in alloc;
            "{{{members}\"asn\":{asn},\"prefix\":\"192.0.2.0/24\",\"max\":24,\
             \"from\":\"2026-01-01\",\"until\":\"2026-12-31\"}}"
        );
        push_item(rt, &mut objects, &object.expect(rt, "an object"));
    }
    objects
}

/// The import of so many rows, with its reply.
pub(crate) fn import_of_many(rt: &impl Abort, alloc: Global, count: u32, reply: &str) -> String {
    let rows = terms_of_many(rt, alloc, "", count);
    let line = format!(in alloc;
        "ann {{\"do\":\"import\",\"holder\":\"alpha\",\"rows\":[{rows}]}} => {reply}"
    );
    line.expect(rt, "a line")
}

/// The question what so many creates would do, with its reply.
pub(crate) fn what_if_of_many(rt: &impl Abort, alloc: Global, count: u32, reply: &str) -> String {
    let changes = terms_of_many(rt, alloc, "\"do\":\"create\",", count);
    let line = format!(in alloc;
        "ann {{\"do\":\"whatif\",\"holder\":\"alpha\",\"changes\":[{changes}],\
         \"routes\":[{{\"prefix\":\"192.0.2.0/24\",\"origin\":1000}}]}} => {reply}"
    );
    line.expect(rt, "a line")
}
