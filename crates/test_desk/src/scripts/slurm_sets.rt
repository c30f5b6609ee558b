//! Sets of named SLURM files, and the VRPs that they leave.
//!
//! A row `slurms NAME FILTERS ; ASSERTIONS | NAME FILTERS ; ASSERTIONS ..` is the request of the
//! operator `reg` with the files of these entries.
use super::exceptions::file_of;
use super::push_item;
use std::alloc::Global;
use std::process::Abort;

pub(crate) const SCRIPTS: &str = r#"
# slurm_files_that_do_not_overlap after holder, authorization
slurms a {"prefix":"192.0.2.0/25"} ; | b ; {"asn":64496,"prefix":"192.0.2.128/25"} => {"done":null}
bob {"do":"payloads"} => {"payloads":[{"asn":64496,"prefix":"192.0.2.0/24","max":24},{"asn":64496,"prefix":"192.0.2.128/25","max":25}]}
# overlapping_slurm_files_are_denied after holder, authorization
slurms a {"prefix":"192.0.2.0/25"} ; | b ; {"asn":64496,"prefix":"192.0.2.128/25"} => {"done":null}
slurms a {"prefix":"192.0.2.0/24"} ; | b ; {"asn":64496,"prefix":"192.0.2.128/25"} => {"denied":"overlap"}
bob {"do":"payloads"} => {"payloads":[{"asn":64496,"prefix":"192.0.2.0/24","max":24},{"asn":64496,"prefix":"192.0.2.128/25","max":25}]}
# one_slurm_file_may_overlap_itself after holder, authorization
slurms a {"prefix":"192.0.2.0/24"} ; {"asn":64496,"prefix":"192.0.2.128/25"} => {"done":null}
bob {"do":"payloads"} => {"payloads":[{"asn":64496,"prefix":"192.0.2.128/25","max":25}]}
# filter_by_asn_names_no_prefix after holder, authorization
slurms a {"asn":64496} ; | b ; {"asn":64496,"prefix":"192.0.2.128/25"} => {"done":null}
bob {"do":"payloads"} => {"payloads":[{"asn":64496,"prefix":"192.0.2.128/25","max":25}]}
# slurm_set_denied_and_malformed after holder, authorization
bob {"do":"slurm","files":[{"name":"a","file":{"slurmVersion":1,"validationOutputFilters":{"prefixFilters":[{"prefix":"192.0.2.0/24"}],"bgpsecFilters":[]},"locallyAddedAssertions":{"prefixAssertions":[],"bgpsecAssertions":[]}}},{"name":"b","file":{"slurmVersion":1,"validationOutputFilters":{"prefixFilters":[],"bgpsecFilters":[]},"locallyAddedAssertions":{"prefixAssertions":[{"asn":64496,"prefix":"192.0.2.128/25"}],"bgpsecAssertions":[]}}}]} => {"denied":"operator"}
slurms a {"asn":64496} ; | a ; => {"malformed":15}
slurms a ; | b ; | c ; | d ; | e ; | f ; | g ; | h ; | i ; | j ; | k ; | l ; | m ; | n ; | o ; | p ; | q ; => {"malformed":12}
slurms a {"asn":64496} ; | b ; | c ; | d ; | e ; | f ; | g ; | h ; | i ; | j ; | k ; | l ; | m ; | n ; | o ; | p ; => {"done":null}
bob {"do":"payloads"} => {"payloads":[]}
# set_of_no_files_ends_the_exceptions after holder, authorization, exceptions
reg {"do":"slurm","files":[]} => {"done":null}
bob {"do":"payloads"} => {"payloads":[{"asn":64496,"prefix":"192.0.2.0/24","max":24}]}
# file_of_a_line_replaces_the_whole_set after holder, authorization
slurms main {"asn":64496} ; | a ; {"asn":64500,"prefix":"198.51.100.0/24"} => {"done":null}
bob {"do":"payloads"} => {"payloads":[{"asn":64500,"prefix":"198.51.100.0/24","max":24}]}
slurm {"asn":64497} ; {"asn":64501,"prefix":"203.0.113.0/24"} => {"done":null}
bob {"do":"payloads"} => {"payloads":[{"asn":64496,"prefix":"192.0.2.0/24","max":24},{"asn":64501,"prefix":"203.0.113.0/24","max":24}]}
# set_replaces_the_file_of_a_line after holder, authorization, exceptions
slurms a ; | b ; {"asn":64500,"prefix":"198.51.100.0/24"} => {"done":null}
bob {"do":"payloads"} => {"payloads":[{"asn":64496,"prefix":"192.0.2.0/24","max":24},{"asn":64500,"prefix":"198.51.100.0/24","max":24}]}
# filter_of_one_file_leaves_the_assertion_of_another after holder, authorization
slurms a {"asn":64500} ; | b ; {"asn":64500,"prefix":"192.0.2.0/24"} => {"done":null}
bob {"do":"payloads"} => {"payloads":[{"asn":64496,"prefix":"192.0.2.0/24","max":24},{"asn":64500,"prefix":"192.0.2.0/24","max":24}]}
# filters_of_all_files_count after holder, authorization
ann {"do":"create","holder":"alpha","asn":64497,"prefix":"192.0.2.128/25","max":25,"from":"2026-01-01","until":"2026-12-31"} => {"done":2}
slurms a {"asn":64496} ; | b ; | c {"prefix":"192.0.2.128/25"} ; => {"done":null}
bob {"do":"payloads"} => {"payloads":[]}
bob {"do":"validity","routes":[{"prefix":"192.0.2.0/24","origin":64496}]} => {"answers":["NotFound"]}
# what_if_counts_the_assertions_of_all_files after holder, authorization
slurms b ; {"asn":64500,"prefix":"192.0.2.0/25"} | a ; {"asn":64501,"prefix":"192.0.2.128/25"} => {"done":null}
ann {"do":"whatif","holder":"alpha","changes":[{"do":"withdraw","number":1}],"routes":[{"prefix":"192.0.2.0/25","origin":64500},{"prefix":"192.0.2.128/25","origin":64501},{"prefix":"192.0.2.0/24","origin":64496}]} => {"report":[["Valid","Valid"],["Valid","Valid"],["Valid","NotFound"]]}
# files_overlap_by_any_two_prefixes after holder, authorization
slurms a {"prefix":"192.0.2.0/24"} ; | b {"prefix":"192.0.2.0/24"} ; => {"denied":"overlap"}
slurms a {"prefix":"192.0.2.0/24","asn":64496} ; | b {"prefix":"192.0.2.64/26","asn":64497} ; => {"denied":"overlap"}
slurms a ; {"asn":64496,"prefix":"192.0.2.0/24"} | b ; {"asn":64497,"prefix":"192.0.2.0/24"} => {"denied":"overlap"}
slurms a ; {"asn":64496,"prefix":"2001:db8::/32"} | b {"prefix":"2001:db8:1::/48"} ; => {"denied":"overlap"}
slurms a {"prefix":"0.0.0.0/0"} ; | b {"prefix":"192.0.2.0/24"} ; => {"denied":"overlap"}
slurms a {"prefix":"198.51.100.0/24"} ; | b {"asn":64499} ; | c {"asn":64498},{"prefix":"198.51.100.128/25"} ; => {"denied":"overlap"}
slurms a {"prefix":"192.0.2.0/24"},{"prefix":"192.0.2.0/26"} ; | b {"prefix":"192.0.2.128/25"} ; => {"denied":"overlap"}
slurms a {"prefix":"0.0.0.0/0"} ; | b {"prefix":"::/0"} ; => {"done":null}
bob {"do":"payloads"} => {"payloads":[]}
# max_length_names_no_addresses after holder, authorization
slurms a ; {"asn":64496,"prefix":"192.0.2.0/25","maxPrefixLength":32} | b ; {"asn":64496,"prefix":"192.0.2.128/25","maxPrefixLength":32} => {"done":null}
# operator_before_overlap after holder, authorization
ann {"do":"slurm","files":[{"name":"a","file":{"slurmVersion":1,"validationOutputFilters":{"prefixFilters":[{"prefix":"192.0.2.0/24"}],"bgpsecFilters":[]},"locallyAddedAssertions":{"prefixAssertions":[],"bgpsecAssertions":[]}}},{"name":"b","file":{"slurmVersion":1,"validationOutputFilters":{"prefixFilters":[{"prefix":"192.0.2.0/24"}],"bgpsecFilters":[]},"locallyAddedAssertions":{"prefixAssertions":[],"bgpsecAssertions":[]}}}]} => {"denied":"operator"}
# lowest_fault_of_all_files after holder, authorization
slurms a {} ; | b {"prefix":"192.0.2.1/24"} ; => {"malformed":11,"slurm":6}
slurms a {"prefix":"192.0.2.1/24"} ; | b {} ; => {"malformed":11,"slurm":6}
slurms a {"asn":64496,"comment":null} ; | a ; => {"malformed":11,"slurm":10}
slurms A {} ; | b ; => {"malformed":11,"slurm":9}
slurms a {} ; | b ; | c ; | d ; | e ; | f ; | g ; | h ; | i ; | j ; | k ; | l ; | m ; | n ; | o ; | p ; | q ; => {"malformed":11,"slurm":9}
slurms a ; | b ; | c ; | d ; | e ; | f ; | g ; | h ; | i ; | j ; | k ; | l ; | m ; | n ; | o ; | p ; | p ; => {"malformed":12}
# names_of_files after holder, authorization
slurms A ; => {"malformed":15}
slurms -a ; => {"malformed":15}
slurms a-1 ; | 1a ; => {"done":null}
# refused_sets_leave_the_last_one after holder, authorization
slurms a {"asn":64496} ; | b ; {"asn":64500,"prefix":"198.51.100.0/24"} => {"done":null}
slurms a ; | a ; => {"malformed":15}
slurms a {"prefix":"192.0.2.0/24"} ; | b {"prefix":"192.0.2.0/24"} ; => {"denied":"overlap"}
slurms a {} ; => {"malformed":11,"slurm":9}
bob {"do":"payloads"} => {"payloads":[{"asn":64500,"prefix":"198.51.100.0/24","max":24}]}
"#;

/// The request of the operator `reg` with the files of a row `slurms`.
pub(crate) fn set_line(rt: &impl Abort, alloc: Global, files: &str) -> String {
    let mut list = String::new(alloc);
    for named in files.split(" | ") {
        push_item(rt, &mut list, &named_file(rt, alloc, named));
    }
    format!(in alloc; "reg {{\"do\":\"slurm\",\"files\":[{list}]}}").expect(rt, "a request")
}

/// The file `NAME FILTERS ; ASSERTIONS` with its name.
fn named_file(rt: &impl Abort, alloc: Global, named: &str) -> String {
    let (name, lists) = named.split_once(' ').expect(rt, "a name");
    let file = file_of(rt, alloc, lists);
    format!(in alloc; "{{\"name\":\"{name}\",\"file\":{file}}}").expect(rt, "a named file")
}
