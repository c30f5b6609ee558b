//! Sets of SLURM files: which files overlap (RFC 8416 section 4.2), and how many files a set has and
//! under which names.
use crate::slurm_files::file;
use crate::tables::{assert_output, rows_of};
use addr::{Name, digits};
use slurm::{NamedSlurm, Slurm, SlurmSet};
use std::alloc::Global;
use std::fmt::Write;
use std::process::Abort;

/// Two files, ` | ` between them and `;` between the filters and the assertions of each, and whether
/// they overlap.
const PAIRS: &str = r#"
# slurm_files_that_do_not_overlap
{"prefix":"192.0.2.0/25"} ; | ; {"asn":64496,"prefix":"192.0.2.128/25"} => no
# overlapping_slurm_files_are_denied
{"prefix":"192.0.2.0/24"} ; | ; {"asn":64496,"prefix":"192.0.2.128/25"} => yes
# one_slurm_file_may_overlap_itself
{"prefix":"192.0.2.0/24"} ; {"asn":64496,"prefix":"192.0.2.128/25"} | ; => no
{"prefix":"192.0.2.0/24"} ; {"asn":64496,"prefix":"192.0.2.128/25"} | {"prefix":"192.0.3.0/24"} ; => no
# filter_by_asn_names_no_prefix
{"asn":64496} ; | ; {"asn":64496,"prefix":"192.0.2.128/25"} => no
{"asn":64496} ; | {"asn":64496} ; => no
# empty_file_names_no_prefix
; | ; => no
; | {"prefix":"0.0.0.0/0"},{"prefix":"::/0"} ; => no
# two_filters_touch
{"prefix":"192.0.2.0/24"} ; | {"prefix":"192.0.2.0/24"} ; => yes
{"prefix":"192.0.2.0/24","asn":64496} ; | {"prefix":"192.0.2.0/24","asn":64497} ; => yes
# two_assertions_touch
; {"asn":64496,"prefix":"192.0.2.0/24"} | ; {"asn":64497,"prefix":"192.0.2.0/24"} => yes
# one_prefix_lies_in_the_other
{"prefix":"0.0.0.0/0"} ; | ; {"asn":0,"prefix":"255.255.255.255/32"} => yes
{"prefix":"2001:db8::/32","asn":64496} ; | {"prefix":"2001:db8:ffff::/48"} ; => yes
; {"asn":64496,"prefix":"::/0"} | ; {"asn":64496,"prefix":"::1/128"} => yes
# neighbours_do_not_touch
{"prefix":"192.0.2.0/24"} ; | {"prefix":"192.0.3.0/24"} ; => no
{"prefix":"192.0.2.0/32"} ; | ; {"asn":64496,"prefix":"192.0.2.1/32"} => no
; {"asn":64496,"prefix":"2001:db8::/33","maxPrefixLength":128} | ; {"asn":64496,"prefix":"2001:db8:8000::/33"} => no
# families_do_not_touch
{"prefix":"0.0.0.0/0"} ; | {"prefix":"::/0"} ; => no
{"prefix":"192.0.2.0/24"} ; | ; {"asn":64496,"prefix":"c000:200::/24"} => no
{"prefix":"192.0.2.0/24"} ; | ; {"asn":64496,"prefix":"::c000:200/120"} => no
# last_entries_touch
{"asn":64496},{"prefix":"10.0.0.0/8"} ; {"asn":64496,"prefix":"::/8"},{"asn":64496,"prefix":"2001:db8::/32"} | {"prefix":"192.0.2.0/24"},{"prefix":"2001:db8::/48"} ; => yes
"#;

/// Files in the same form, and whether two of them overlap.
const SETS: &str = r#"
# one_slurm_file_may_overlap_itself
{"prefix":"192.0.2.0/24"} ; {"asn":64496,"prefix":"192.0.2.128/25"} => no
# three_files_do_not_overlap
{"prefix":"10.0.0.0/16"},{"prefix":"10.2.0.0/16"} ; | {"prefix":"10.1.0.0/16"} ; | ; {"asn":64496,"prefix":"10.3.0.0/16"} => no
# first_and_last_file_overlap
{"prefix":"192.0.2.0/25"} ; | {"prefix":"198.51.100.0/24"} ; | ; {"asn":64496,"prefix":"192.0.2.64/26"} => yes
# last_file_is_around_the_others
{"prefix":"10.1.0.0/16"} ; | ; {"asn":64496,"prefix":"10.2.0.0/16"} | {"prefix":"10.0.0.0/8"} ; => yes
# prefix_lies_beside_others_of_the_file_around_it
{"prefix":"10.0.0.0/8"},{"prefix":"10.1.0.0/16"},{"prefix":"10.3.0.0/16"} ; | ; | {"prefix":"10.2.0.0/16"} ; => yes
"#;

/// Names of files in the order in which they are given, and how many files the set has and their
/// names, or why they are no set.
const NAMES: &str = r#"
# set_of_no_file
 => 0
# files_rise_by_name
main => 1 main
b a => 2 a b
a10 ab a2 a a-b => 5 a a-b a10 a2 ab
# most_files
p o n m l k j i h g f e d c b a => 16 a b c d e f g h i j k l m n o p
q p o n m l k j i h g f e d c b a => there are more than 16 files
# name_twice
a a => two files have one name
a b a => two files have one name
p o n m l k j i h g f e d c b p => two files have one name
p p o n m l k j i h g f e d c b a => there are more than 16 files
"#;

fn named(rt: &impl Abort, name: &str, file: Slurm) -> NamedSlurm {
    let name = Name::read(name.as_bytes()).expect(rt, name);
    NamedSlurm { name, file }
}

/// The file of these filters and, after `;`, assertions.
fn slurm_of(rt: &impl Abort, alloc: Global, entries: &str) -> Slurm {
    let (filters, assertions) = entries.split_once(';').expect(rt, entries);
    let text = file(rt, alloc, ["1", filters, assertions, ""]);
    Slurm::read(alloc, text.as_bytes()).expect(rt, entries)
}

/// The files of a row, which are named by their places.
fn files_of(rt: &impl Abort, alloc: Global, row: &str) -> Vec<NamedSlurm> {
    let mut files = Vec::new(alloc);
    for entries in row.split(" | ") {
        let place = digits(files.len() as u64);
        let slurm = slurm_of(rt, alloc, entries);
        files.push(named(rt, &place, slurm)).expect(rt, "memory");
    }
    files
}

/// Empty files of these names.
fn files_of_names(rt: &impl Abort, alloc: Global, names: &str) -> Vec<NamedSlurm> {
    let mut files = Vec::new(alloc);
    for name in names.split_whitespace() {
        let empty = Slurm::make(Vec::new(alloc), Vec::new(alloc)).expect(rt, "a file");
        files.push(named(rt, name, empty)).expect(rt, "memory");
    }
    files
}

fn answer(is_so: bool) -> &'static str {
    if is_so { "yes" } else { "no" }
}

#[test]
fn slurm_files_overlap_either_way(rt: HostRuntime) {
    for row in &rows_of(&rt, rt.alloc(), PAIRS) {
        let files = files_of(&rt, rt.alloc(), row.input);
        let [one, other] = files.as_slice() else {
            rt.panic(row.input)
        };
        assert_output(&rt, answer(one.file.overlaps(&other.file)), row);
        assert_output(&rt, answer(other.file.overlaps(&one.file)), row);
    }
}

fn assert_sets(rt: &impl Abort, alloc: Global, table: &str) {
    for row in &rows_of(rt, alloc, table) {
        let set = SlurmSet::make(files_of(rt, alloc, row.input)).expect(rt, row.input);
        assert_output(rt, answer(set.has_overlap(alloc)), row);
    }
}

#[test]
fn slurm_sets_have_an_overlap(rt: HostRuntime) {
    assert_sets(&rt, rt.alloc(), PAIRS);
    assert_sets(&rt, rt.alloc(), SETS);
}

#[test]
fn set_of_no_file_has_no_overlap(rt: HostRuntime) {
    let set = SlurmSet::make(Vec::new(rt.alloc())).expect(&rt, "a set");
    assert!(rt; !set.has_overlap(rt.alloc()));
}

/// How many files the set of empty files of these names has, and their names, or why they are none.
fn set_of_names(rt: &impl Abort, alloc: Global, names: &str) -> String {
    match SlurmSet::make(files_of_names(rt, alloc, names)) {
        Ok(set) => {
            let mut text = set.files().len().to_string(alloc).expect(rt, "a text");
            for named in set.files() {
                write!(text, " {}", named.name).expect(rt, "a text");
            }
            text
        }
        Err(fault) => fault.to_string(alloc).expect(rt, "a text"),
    }
}

#[test]
fn slurm_sets_have_few_files_and_each_name_once(rt: HostRuntime) {
    for row in &rows_of(&rt, rt.alloc(), NAMES) {
        let found = set_of_names(&rt, rt.alloc(), row.input);
        assert_output(&rt, found.as_str(), row);
    }
}
