//! SLURM files: the lowest fault of each text, and what a file filters and asserts.
use crate::parsing::{parse_prefix, parse_vrp};
use crate::rows::{Row, nested};
use crate::slurm_sample::SAMPLE;
use crate::tables::{assert_output, assert_same, rows_of};
use addr::{Asn, digits};
use serde_json::Value;
use slurm::{Filter, Slurm, SlurmFault};
use std::alloc::Global;
use std::process::Abort;

/// The parts of a file, of which the last ones may be missing, and the number of its fault, 0 where
/// there is none: `slurmVersion`, the prefix filters, the prefix assertions, and what follows in the
/// outermost object.
const PARTS: &str = r#"
# empty_file_is_read
1 => 0
# filter_of_comment_alone
1 | {"comment":"x"} => 9
# unknown_member_before_version
2 | | | ,"notes":"x" => 3
# lowest_fault_is_reported
1 | | | ,"notes":1 => 3
2 | | | ,"notes":1 => 3
2 => 4
1 | {"prefix":"192.0.2.0"} => 6
1 | {"asn":-1},{"prefix":"192.0.2.0"} => 6
1 | {"asn":-1} => 7
1 | | {"prefix":"::/8","asn":1,"maxPrefixLength":7},{"prefix":"::/8","asn":"1"} => 7
1 | | {"prefix":"::/8","asn":1,"maxPrefixLength":7} => 8
1 | {} | {"prefix":"::/8","asn":1,"maxPrefixLength":7} => 8
1 | {} => 9
1 | {"asn":1,"comment":1},{} => 9
1 | {"asn":1,"comment":1} => 10
1 | {"asn":1,"comment":"1"} => 0
# shape_of_a_file
1 | "hello" => 3
1 | [] => 3
1 | {"prefix":"::/8","maxPrefixLength":9} => 3
1 | | {"prefix":"::/8"} => 3
1 | | {"asn":1} => 3
1 | | {"prefix":"::/8","asn":1,"SKI":""} => 3
1 | | null => 3
# numbers_are_plain_digits
0 => 4
"1" => 4
1.0 => 4
1e0 => 4
-0 => 4
10000000000000000001 => 4
null => 4
01 => 1
1e999 => 1
1 | {"asn":0} => 0
1 | {"asn":4294967295} => 0
1 | {"asn":4294967296} => 7
1 | {"asn":99999999999999999999} => 7
1 | {"asn":24.0} => 7
1 | {"asn":1e0} => 7
1 | {"asn":-0} => 7
1 | {"asn":"AS1"} => 7
1 | {"asn":null} => 7
1 | | {"asn":1,"prefix":"192.0.2.0/24","maxPrefixLength":24} => 0
1 | | {"asn":1,"prefix":"192.0.2.0/24","maxPrefixLength":32} => 0
1 | | {"asn":1,"prefix":"192.0.2.0/24","maxPrefixLength":33} => 8
1 | | {"asn":1,"prefix":"192.0.2.0/24","maxPrefixLength":23} => 8
1 | | {"asn":1,"prefix":"2001:db8::/32","maxPrefixLength":128} => 0
1 | | {"asn":1,"prefix":"2001:db8::/32","maxPrefixLength":129} => 8
1 | | {"asn":1,"prefix":"2001:db8::/32","maxPrefixLength":288} => 8
1 | | {"asn":1,"prefix":"2001:db8::/32","maxPrefixLength":32.0} => 8
1 | | {"asn":1,"prefix":"2001:db8::/32","maxPrefixLength":32e0} => 8
1 | | {"asn":1,"prefix":"::/0","maxPrefixLength":0} => 0
1 | | {"asn":1,"prefix":"::/0","maxPrefixLength":-0} => 8
1 | | {"asn":1,"prefix":"::/0","maxPrefixLength":18446744073709551616} => 8
1 | | {"asn":1,"prefix":"::/0","maxPrefixLength":null} => 8
1 | | {"asn":1,"prefix":"2001:DB8::/32","maxPrefixLength":129} => 6
# loose_spellings_are_refused
1 | {"prefix":"192.0.2.1/24"} => 6
1 | {"prefix":"192.0.2/24"} => 6
1 | {"prefix":"2001:DB8::/32"} => 6
1 | {"prefix":" 192.0.2.0/24"} => 6
1 | {"prefix":7} => 6
1 | {"prefix":null,"asn":1} => 6
1 | {"asn":"64496"} => 7
1 | {"asn":1,"comment":null} => 10
"#;

/// Whole texts, and their faults.
const TEXTS: &str = r#"
# texts_that_are_not_json
{ => 1
 => 1
[{] => 1
{}{} => 1
# lowest_fault_is_reported
7 => 2
[] => 2
# shape_of_a_file
{} => 3
{"slurmVersion":1} => 3
{"slurmVersion":1,"validationOutputFilters":[],"locallyAddedAssertions":[]} => 3
{"slurmVersion":1,"validationOutputFilters":{},"locallyAddedAssertions":{}} => 3
{"slurmVersion":1,"validationOutputFilters":{"prefixFilters":[],"bgpsecFilters":[]}} => 3
{"validationOutputFilters":{"prefixFilters":[],"bgpsecFilters":[]},"locallyAddedAssertions":{"prefixAssertions":[],"bgpsecAssertions":[]}} => 3
{"slurmVersion":1,"validationOutputFilters":{"prefixFilters":[],"bgpsecFilters":[]},"locallyAddedAssertions":{"prefixAssertions":[]}} => 3
{"slurmVersion":1,"validationOutputFilters":{"prefixFilters":{},"bgpsecFilters":[]},"locallyAddedAssertions":{"prefixAssertions":[],"bgpsecAssertions":[]}} => 3
{"slurmVersion":1,"validationOutputFilters":{"prefixFilters":[],"bgpsecFilters":[],"aspaFilters":[]},"locallyAddedAssertions":{"prefixAssertions":[],"bgpsecAssertions":[]}} => 3
# lowest_fault_is_reported
{"slurmVersion":2,"validationOutputFilters":{"prefixFilters":[],"bgpsecFilters":[1]},"locallyAddedAssertions":{"prefixAssertions":[],"bgpsecAssertions":[]}} => 4
{"slurmVersion":1,"validationOutputFilters":{"prefixFilters":[],"bgpsecFilters":[1]},"locallyAddedAssertions":{"prefixAssertions":[],"bgpsecAssertions":[]}} => 5
{"slurmVersion":1,"validationOutputFilters":{"prefixFilters":[{"prefix":null}],"bgpsecFilters":[null]},"locallyAddedAssertions":{"prefixAssertions":[],"bgpsecAssertions":[]}} => 5
{"slurmVersion":1,"validationOutputFilters":{"prefixFilters":[],"bgpsecFilters":{}},"locallyAddedAssertions":{"prefixAssertions":[],"bgpsecAssertions":[]}} => 3
{"slurmVersion":1,"validationOutputFilters":{"prefixFilters":[],"bgpsecFilters":null},"locallyAddedAssertions":{"prefixAssertions":[],"bgpsecAssertions":[]}} => 3
"#;

/// Whether the filters of a file match the VRPs that it asserts, in their order.
const FILTERINGS: &str = r#"
# filters_of_the_sample_match
1 | {"prefix":"192.0.2.0/24"},{"asn":64496},{"prefix":"198.51.100.0/24","asn":64497} | {"asn":1,"prefix":"192.0.2.0/24"},{"asn":1,"prefix":"192.0.2.128/25","maxPrefixLength":32},{"asn":1,"prefix":"192.0.0.0/16","maxPrefixLength":24} => yes yes no
1 | {"prefix":"192.0.2.0/24"},{"asn":64496},{"prefix":"198.51.100.0/24","asn":64497} | {"asn":64496,"prefix":"2001:db8::/32"},{"asn":64497,"prefix":"198.51.100.0/25"},{"asn":64498,"prefix":"198.51.100.0/25"},{"asn":64497,"prefix":"203.0.113.0/24"} => yes yes no no
# empty_file_is_read
1 | | {"asn":64496,"prefix":"192.0.2.0/24"} => no
# shorter_prefix_filter_removes_vrp
1 | {"prefix":"192.0.0.0/16"} | {"asn":64496,"prefix":"192.0.2.0/24"} => yes
# filters_that_do_not_match
1 | {"prefix":"192.0.2.0/25"},{"prefix":"192.0.2.0/24","asn":64497} | {"asn":64496,"prefix":"192.0.2.0/24"},{"asn":64497,"prefix":"192.0.2.0/24"} => no yes
"#;

/// The number of the fault, 0 where the text is a file.
fn fault(alloc: Global, text: &str) -> u8 {
    match Slurm::read(alloc, text.as_bytes()).err() {
        None => 0,
        Some(fault) => fault.number(),
    }
}

/// A file of a version, filters, assertions, and what follows in the outermost object.
pub(crate) fn file(rt: &impl Abort, alloc: Global, parts: [&str; 4]) -> String {
    let [version, filters, assertions, more] = parts;
    let text = format!(in alloc;
        "{{\"slurmVersion\":{version},\
        \"validationOutputFilters\":{{\"prefixFilters\":[{filters}],\"bgpsecFilters\":[]}},\
        \"locallyAddedAssertions\":{{\"prefixAssertions\":[{assertions}],\"bgpsecAssertions\":[]}}{more}}}"
    );
    text.expect(rt, "a text")
}

/// A file by its parts, which ` | ` parts.
fn file_from_parts(rt: &impl Abort, alloc: Global, parts: &str) -> String {
    let mut parts = parts.split('|');
    let version = parts.next().unwrap_or("").trim();
    let filters = parts.next().unwrap_or("").trim();
    let assertions = parts.next().unwrap_or("").trim();
    let more = parts.next().unwrap_or("").trim();
    file(rt, alloc, [version, filters, assertions, more])
}

fn assert_fault(rt: &impl Abort, alloc: Global, text: &str, row: &Row<'_>) {
    let number = digits(u64::from(fault(alloc, text)));
    assert_output(rt, number.as_str(), row);
}

#[test]
fn lowest_fault_of_parts_is_reported(rt: HostRuntime) {
    for row in &rows_of(&rt, rt.alloc(), PARTS) {
        let text = file_from_parts(&rt, rt.alloc(), row.input);
        assert_fault(&rt, rt.alloc(), &text, row);
    }
}

#[test]
fn lowest_fault_of_texts_is_reported(rt: HostRuntime) {
    for row in &rows_of(&rt, rt.alloc(), TEXTS) {
        assert_fault(&rt, rt.alloc(), row.input, row);
    }
}

#[test]
fn text_that_is_marked_or_not_utf_8_is_not_json(rt: HostRuntime) {
    let marked = format!(in rt.alloc(); "\u{feff}{SAMPLE}").expect(&rt, "a text");
    assert_same(&rt, fault(rt.alloc(), &marked), 1, "a byte order mark");
    let found = Slurm::read(rt.alloc(), b"\"\xff\"").err();
    assert_same(&rt, found, Some(SlurmFault::NotJson), "not UTF-8");
}

/// Whether each VRP that the file asserts is filtered by it.
fn assert_filterings(rt: &impl Abort, alloc: Global, row: &Row<'_>) {
    let text = file_from_parts(rt, alloc, row.input);
    let slurm = Slurm::read(alloc, text.as_bytes()).expect(rt, row.input);
    let mut answers = String::new(alloc);
    for vrp in slurm.assertions() {
        let answer = if slurm.filtered(vrp) { " yes" } else { " no" };
        answers.push_str(answer).expect(rt, "memory");
    }
    assert_output(rt, answers.trim(), row);
}

#[test]
fn filters_match_vrps(rt: HostRuntime) {
    for row in &rows_of(&rt, rt.alloc(), FILTERINGS) {
        assert_filterings(&rt, rt.alloc(), row);
    }
}

fn assert_sample(rt: &impl Abort, slurm: &Slurm) {
    let filters = [
        Filter::Under(parse_prefix(rt, "192.0.2.0/24")),
        Filter::By(Asn(64496)),
        Filter::Both(parse_prefix(rt, "198.51.100.0/24"), Asn(64497)),
    ];
    assert_same(rt, slurm.filters(), filters.as_slice(), "filters");
    let assertions = [
        parse_vrp(rt, "AS64496 198.51.100.0/24 24"),
        parse_vrp(rt, "AS64496 2001:db8::/32 48"),
    ];
    assert_same(rt, slurm.assertions(), assertions.as_slice(), "assertions");
}

#[test]
fn sample_has_its_filters_and_assertions(rt: HostRuntime) {
    let slurm = Slurm::read(rt.alloc(), SAMPLE.as_bytes()).expect(&rt, "a file");
    assert_sample(&rt, &slurm);
}

#[test]
fn sample_as_a_value_has_its_filters_and_assertions(rt: HostRuntime) {
    let value = Value::from_str(rt.alloc(), SAMPLE).expect(&rt, "a value");
    let slurm = Slurm::of(rt.alloc(), &value).expect(&rt, "a file");
    assert_sample(&rt, &slurm);
}

// 127 levels are JSON, which is then no file, and 128 are none.
#[test]
fn nesting_limit(rt: HostRuntime) {
    for (depth, number) in [(127, 2), (128, 1)] {
        let text = nested(rt.alloc(), depth).expect(&rt, "a text");
        assert_same(&rt, fault(rt.alloc(), &text), number, depth);
    }
}

/// So many filters and then this one, after one assertion.
fn file_of_filters(rt: &impl Abort, alloc: Global, count: usize, last: &str) -> String {
    let mut filters = r#"{"asn":1},"#.repeat(alloc, count).expect(rt, "memory");
    filters.push_str(last).expect(rt, "memory");
    let assertions = r#"{"prefix":"::/8","asn":1}"#;
    file(rt, alloc, ["1", &filters, assertions, ""])
}

/// How many entries the file has as a value, 0 where it is none.
fn entries_read(rt: &impl Abort, alloc: Global, text: &str) -> usize {
    let value = Value::from_str(alloc, text).expect(rt, "a value");
    match Slurm::of(alloc, &value) {
        Ok(slurm) => slurm.filters().len() + slurm.assertions().len(),
        Err(_) => 0,
    }
}

/// How many filters are before this last one, the fault of the file, and its entries as a value.
const LIMITS: [(usize, &str, u8, usize); 3] = [
    (4094, r#"{"asn":1}"#, 0, 4096),
    (4095, r#"{"asn":1}"#, 11, 0),
    (4096, r#"{"asn":1,"comment":0}"#, 10, 0),
];

/// A fault in the last of too many entries is the lower one.
#[test]
fn limit_of_entries(rt: HostRuntime) {
    for (before, last, number, entries) in LIMITS {
        let text = file_of_filters(&rt, rt.alloc(), before, last);
        let read = entries_read(&rt, rt.alloc(), &text);
        let found = (fault(rt.alloc(), &text), read);
        assert_same(&rt, found, (number, entries), before);
    }
}

#[test]
fn limit_of_made_files(rt: HostRuntime) {
    for (count, fault) in [(4096, None), (4097, Some(SlurmFault::TooMany))] {
        let filters = vec![in rt.alloc(); Filter::By(Asn(1)); count].expect(&rt, "memory");
        let made = Slurm::make(filters, Vec::new(rt.alloc()));
        assert_same(&rt, made.err(), fault, count);
    }
}

#[test]
fn prints_slurm_faults(rt: HostRuntime) {
    let (json, members, memory) = (SlurmFault::NotJson, SlurmFault::Members, SlurmFault::Memory);
    let printed = format!(in rt.alloc(); "{json}\n{members}\n{memory}").expect(&rt, "a text");
    let expected = "the text is not JSON
an object or array is wanted, or a member is missing or unknown
out of memory";
    assert_same(&rt, printed.as_str(), expected, "faults");
}
