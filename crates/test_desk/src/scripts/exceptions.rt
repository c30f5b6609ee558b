//! SLURM files, and the VRPs that they leave.
//!
//! A row `slurm FILTERS ; ASSERTIONS` is the request of the operator `reg` with the file of these
//! entries.
use super::push_item;
use super::slurm_sets::set_line;
use std::alloc::Global;
use std::process::Abort;

/// A filter that removes the one VRP, and an assertion of the same VRP.
pub(crate) const FILTER_AND_ASSERTION: &str = r#"
slurm {"prefix":"192.0.2.0/24"} ; {"asn":64496,"prefix":"192.0.2.0/24","maxPrefixLength":24} => {"done":null}
"#;

pub(crate) const SCRIPTS: &str = r#"
# assertion_survives_prefix_filter after holder, authorization, exceptions
bob {"do":"payloads"} => {"payloads":[{"asn":64496,"prefix":"192.0.2.0/24","max":24}]}
# unknown_slurm_member_keeps_last_file after holder, authorization, exceptions
reg {"do":"slurm","file":{"slurmVersion":1,"validationOutputFilters":{"prefixFilters":[],"bgpsecFilters":[]},"locallyAddedAssertions":{"prefixAssertions":[],"bgpsecAssertions":[]},"notes":""}} => {"malformed":11,"slurm":3}
bob {"do":"payloads"} => {"payloads":[{"asn":64496,"prefix":"192.0.2.0/24","max":24}]}
# shorter_prefix_filter_removes_vrp after holder, authorization
slurm {"prefix":"192.0.0.0/16"} ; => {"done":null}
bob {"do":"validity","routes":[{"prefix":"192.0.2.0/24","origin":64496}]} => {"answers":["NotFound"]}
# filters_that_do_not_match after holder, authorization
slurm {"prefix":"192.0.2.0/25"},{"prefix":"192.0.2.0/24","asn":64497} ; => {"done":null}
bob {"do":"payloads"} => {"payloads":[{"asn":64496,"prefix":"192.0.2.0/24","max":24}]}
# unknown_member_before_version after holder, authorization
reg {"do":"slurm","file":{"slurmVersion":2,"validationOutputFilters":{"prefixFilters":[],"bgpsecFilters":[]},"locallyAddedAssertions":{"prefixAssertions":[],"bgpsecAssertions":[]},"notes":""}} => {"malformed":11,"slurm":3}
# filter_of_comment_alone after holder, authorization
slurm {"comment":"x"} ; => {"malformed":11,"slurm":9}
# empty_file_ends_the_exceptions after holder, authorization
slurm {"prefix":"192.0.2.0/24"} ; {"asn":64500,"prefix":"198.51.100.0/24"} => {"done":null}
bob {"do":"payloads"} => {"payloads":[{"asn":64500,"prefix":"198.51.100.0/24","max":24}]}
slurm ; => {"done":null}
bob {"do":"payloads"} => {"payloads":[{"asn":64496,"prefix":"192.0.2.0/24","max":24}]}
# next_file_replaces_the_last after holder, authorization
slurm {"asn":64496} ; {"asn":64500,"prefix":"198.51.100.0/24"} => {"done":null}
slurm {"asn":64499} ; {"asn":64501,"prefix":"203.0.113.0/24"} => {"done":null}
bob {"do":"payloads"} => {"payloads":[{"asn":64496,"prefix":"192.0.2.0/24","max":24},{"asn":64501,"prefix":"203.0.113.0/24","max":24}]}
# filter_of_the_same_prefix after holder, authorization
slurm {"prefix":"192.0.2.0/24","comment":"the prefix itself"} ; => {"done":null}
bob {"do":"payloads"} => {"payloads":[]}
# filter_of_all_ipv4_leaves_ipv6 after holder, authorization
slurm {"prefix":"0.0.0.0/0"} ; => {"done":null}
reg {"do":"delegate","holder":"alpha","prefix":"2001:db8::/32"} => {"done":null}
ann {"do":"create","holder":"alpha","asn":64496,"prefix":"2001:db8::/32","max":48,"from":"2026-01-01","until":"2026-12-31"} => {"done":2}
bob {"do":"payloads"} => {"payloads":[{"asn":64496,"prefix":"2001:db8::/32","max":48}]}
# filter_of_an_as_takes_both_families after holder, authorization
slurm {"asn":64496} ; => {"done":null}
reg {"do":"delegate","holder":"alpha","prefix":"2001:db8::/32"} => {"done":null}
ann {"do":"create","holder":"alpha","asn":64496,"prefix":"2001:db8::/32","max":48,"from":"2026-01-01","until":"2026-12-31"} => {"done":2}
ann {"do":"create","holder":"alpha","asn":64497,"prefix":"2001:db8::/32","max":48,"from":"2026-01-01","until":"2026-12-31"} => {"done":3}
bob {"do":"payloads"} => {"payloads":[{"asn":64497,"prefix":"2001:db8::/32","max":48}]}
# filter_of_prefix_and_as_wants_both after holder, authorization
ann {"do":"create","holder":"alpha","asn":64497,"prefix":"192.0.2.0/25","max":25,"from":"2026-01-01","until":"2026-12-31"} => {"done":2}
slurm {"prefix":"192.0.2.0/24","asn":64497} ; => {"done":null}
bob {"do":"payloads"} => {"payloads":[{"asn":64496,"prefix":"192.0.2.0/24","max":24}]}
# filter_asks_the_prefix_and_not_the_max_length after holder
ann {"do":"create","holder":"alpha","asn":64496,"prefix":"192.0.2.0/24","max":25,"from":"2026-01-01","until":"2026-12-31"} => {"done":1}
slurm {"prefix":"192.0.2.0/25"},{"prefix":"192.0.2.128/25"} ; => {"done":null}
bob {"do":"payloads"} => {"payloads":[{"asn":64496,"prefix":"192.0.2.0/24","max":25}]}
# vrp_that_is_asserted_too_is_given_once after holder, authorization
slurm ; {"asn":64496,"prefix":"192.0.2.0/24"},{"asn":64496,"prefix":"192.0.2.0/24","maxPrefixLength":24} => {"done":null}
bob {"do":"payloads"} => {"payloads":[{"asn":64496,"prefix":"192.0.2.0/24","max":24}]}
# exceptions_act_on_every_day after holder, authorization, exceptions
day 2031-07-01
bob {"do":"payloads"} => {"payloads":[{"asn":64496,"prefix":"192.0.2.0/24","max":24}]}
# assertion_outside_the_pool_is_judged_by after holder, authorization
slurm ; {"asn":64500,"prefix":"203.0.113.0/24","maxPrefixLength":26} => {"done":null}
bob {"do":"validity","routes":[{"prefix":"203.0.113.0/26","origin":64500},{"prefix":"203.0.113.0/27","origin":64500},{"prefix":"203.0.113.0/24","origin":64496}]} => {"answers":["Valid","Invalid","Invalid"]}
# authorizations_are_made_and_shown_as_ever after holder, exceptions
ann {"do":"create","holder":"alpha","asn":64496,"prefix":"192.0.2.0/24","max":24,"from":"2026-01-01","until":"2026-12-31"} => {"done":1}
ann {"do":"list","holder":"alpha"} => {"listed":[{"number":1,"asn":64496,"prefix":"192.0.2.0/24","max":24,"from":"2026-01-01","until":"2026-12-31"}]}
# file_of_a_stranger_is_denied after holder, authorization
slurm {"prefix":"192.0.2.0/24"} ; => {"done":null}
ann {"do":"slurm","file":{"slurmVersion":1,"validationOutputFilters":{"prefixFilters":[],"bgpsecFilters":[]},"locallyAddedAssertions":{"prefixAssertions":[],"bgpsecAssertions":[]}}} => {"denied":"operator"}
bob {"do":"payloads"} => {"payloads":[]}
# refused_files_leave_the_last_one after holder, authorization
slurm {"prefix":"192.0.2.0/24"} ; {"asn":64500,"prefix":"198.51.100.0/24"} => {"done":null}
reg {"do":"slurm","file":[]} => {"malformed":11,"slurm":2}
reg {"do":"slurm","file":{"slurmVersion":1}} => {"malformed":11,"slurm":3}
reg {"do":"slurm","file":{"slurmVersion":2,"validationOutputFilters":{"prefixFilters":[],"bgpsecFilters":[]},"locallyAddedAssertions":{"prefixAssertions":[],"bgpsecAssertions":[]}}} => {"malformed":11,"slurm":4}
reg {"do":"slurm","file":{"slurmVersion":1,"validationOutputFilters":{"prefixFilters":[],"bgpsecFilters":[{"asn":64496}]},"locallyAddedAssertions":{"prefixAssertions":[],"bgpsecAssertions":[]}}} => {"malformed":11,"slurm":5}
slurm {"prefix":"192.0.2.1/24"} ; => {"malformed":11,"slurm":6}
slurm {"asn":4294967296} ; => {"malformed":11,"slurm":7}
slurm ; {"asn":64500,"prefix":"198.51.100.0/24","maxPrefixLength":23} => {"malformed":11,"slurm":8}
slurm {} ; => {"malformed":11,"slurm":9}
slurm {"asn":64496,"comment":null} ; => {"malformed":11,"slurm":10}
bob {"do":"payloads"} => {"payloads":[{"asn":64500,"prefix":"198.51.100.0/24","max":24}]}
# files_of_other_members_are_refused after holder
reg {"do":"slurm"} => {"malformed":2}
reg {"do":"slurm","file":{},"holder":"alpha"} => {"malformed":2}
reg {"do":"slurm","file":null} => {"malformed":11,"slurm":2}
Reg {"do":"slurm","file":null} => {"malformed":4}
# example_of_rfc_8416_without_bgpsec_entries after holder, authorization
slurm {"prefix":"192.0.2.0/24","comment":"All VRPs encompassed by prefix"},{"asn":64496,"comment":"All VRPs matching ASN"},{"prefix":"198.51.100.0/24","asn":64497,"comment":"All VRPs encompassed by prefix, matching ASN"} ; {"asn":64496,"prefix":"198.51.100.0/24","comment":"My other important route"},{"asn":64496,"prefix":"2001:db8::/32","maxPrefixLength":48,"comment":"My other important de-aggregated routes"} => {"done":null}
bob {"do":"payloads"} => {"payloads":[{"asn":64496,"prefix":"198.51.100.0/24","max":24},{"asn":64496,"prefix":"2001:db8::/32","max":48}]}
"#;

/// The file of these filters and these assertions.
pub(crate) fn slurm_file(
    rt: &impl Abort,
    alloc: Global,
    filters: &str,
    assertions: &str,
) -> String {
    let file = format!(in alloc;
        "{{\"slurmVersion\":1,\
         \"validationOutputFilters\":{{\"prefixFilters\":[{filters}],\"bgpsecFilters\":[]}},\
         \"locallyAddedAssertions\":{{\"prefixAssertions\":[{assertions}],\"bgpsecAssertions\":[]}}}}"
    );
    file.expect(rt, "a file")
}

/// The file `FILTERS ; ASSERTIONS` of a row.
pub(crate) fn file_of(rt: &impl Abort, alloc: Global, lists: &str) -> String {
    let (filters, assertions) = lists.split_once(';').expect(rt, "two lists");
    slurm_file(rt, alloc, filters.trim(), assertions.trim())
}

/// The request of the operator `reg` with this file.
fn file_line(rt: &impl Abort, alloc: Global, lists: &str) -> String {
    let file = file_of(rt, alloc, lists);
    format!(in alloc; "reg {{\"do\":\"slurm\",\"file\":{file}}}").expect(rt, "a request")
}

/// The request of a row that begins with `slurm ` or `slurms `; any other as it is.
pub(crate) fn request_line(rt: &impl Abort, alloc: Global, row: &str) -> String {
    if let Some(files) = row.strip_prefix("slurms ") {
        set_line(rt, alloc, files)
    } else if let Some(lists) = row.strip_prefix("slurm ") {
        file_line(rt, alloc, lists)
    } else {
        String::from_str(alloc, row).expect(rt, "a request")
    }
}

/// The file of so many filters, and one assertion.
pub(crate) fn file_of_many(rt: &impl Abort, alloc: Global, filters: u32) -> String {
    let mut list = String::new(alloc);
    for _ in 0..filters {
        push_item(rt, &mut list, r#"{"asn":64499}"#);
    }
    let assertion = r#"{"asn":64500,"prefix":"198.51.100.0/24"}"#;
    slurm_file(rt, alloc, &list, assertion)
}
