//! Charter files: what they spell, and the line of the fault of each that is refused.
use crate::parsing::{parse_prefix, split_word};
use crate::tables::{assert_output, assert_same, rows_of};
use addr::Name;
use cli_texts::charter_from;
use policy::Charter;
use std::alloc::Global;
use std::fmt::Write;
use std::process::Abort;

/// Files with a semicolon for each line feed, and the lines of their faults.
const FAULTS: &str = r#"
# header
 => roadesk: charter header
kind,value,more; => roadesk: charter header
operator,reg;pool,192.0.2.0/24; => roadesk: charter header
# no_operator_or_no_prefix
kind,value; => roadesk: charter count
kind,value;operator,reg; => roadesk: charter count
kind,value;pool,192.0.2.0/24; => roadesk: charter count
# fields
kind,value;operator; => roadesk: charter row 1: fields
kind,value;operator,reg,; => roadesk: charter row 1: fields
# kind
kind,value;Operator,reg; => roadesk: charter row 1: kind
kind,value;operator,reg;pool,192.0.2.0/24;holder,Reg; => roadesk: charter row 3: kind
# name
kind,value;operator,Reg; => roadesk: charter row 1: name
# prefix
kind,value;pool,192.0.2.0; => roadesk: charter row 1: prefix 1
kind,value;pool,192.0.2.0/024; => roadesk: charter row 1: prefix 2
kind,value;pool,192.0.2.0/33; => roadesk: charter row 1: prefix 3
kind,value;pool,192.0.2.1/24; => roadesk: charter row 1: prefix 4
# repeated
kind,value;operator,reg;pool,192.0.2.0/24;operator,reg;owner,reg; => roadesk: charter row 3: repeated
kind,value;pool,192.0.2.0/24;operator,reg;pool,192.0.2.0/24; => roadesk: charter row 3: repeated
"#;

/// How many operators and how many prefixes a file has, a row after them, which may be missing, and
/// the line of its fault, which is empty where there is none.
const COUNTS: &str = r#"
# no_fault
16 64  => 
# count
17 64  => roadesk: charter count
16 65  => roadesk: charter count
# repeated
16 0 operator,op-0; => roadesk: charter row 17: repeated
40 0 operator,op-30; => roadesk: charter row 41: repeated
1 200 pool,198.51.199.0/24; => roadesk: charter row 202: repeated
# prefix
17 65 pool,198.51.0.0; => roadesk: charter row 83: prefix 1
"#;

/// The line of the fault of a file, which has a semicolon for a line feed, or an empty one.
fn line(rt: &impl Abort, alloc: Global, file: &str) -> String {
    let text = file.replace(alloc, ';', "\n").expect(rt, "a text");
    let line = match charter_from(alloc, text.as_bytes()).err() {
        None => String::from_str(alloc, ""),
        Some(fault) => String::from_str(alloc, fault.line().as_str()),
    };
    line.expect(rt, "a text")
}

/// A file with so many operators and so many prefixes, and a row after them.
fn charter_file(rt: &impl Abort, alloc: Global, words: &str) -> String {
    let (operators, words) = split_word(rt, words);
    let (prefixes, last) = split_word(rt, words);
    let mut text = String::from_str(alloc, "kind,value\n").expect(rt, "a text");
    for number in 0..operators.parse::<u8>().expect(rt, operators) {
        write!(text, "operator,op-{number}\n").expect(rt, "a text");
    }
    for number in 0..prefixes.parse::<u8>().expect(rt, prefixes) {
        write!(text, "pool,198.51.{number}.0/24\n").expect(rt, "a text");
    }
    text.push_str(last).expect(rt, "a text");
    text
}

fn is_operator(rt: &impl Abort, charter: &Charter, name: &[u8]) -> bool {
    charter.is_operator(&Name::read(name).expect(rt, "a name"))
}

#[test]
fn charter_of_rows(rt: HostRuntime) {
    let text =
        b"kind,value\r\npool,2001:db8::/32\r\n\"operator\",reg\r\n\r\npool,\"192.0.2.0/24\"\r\noperator,alpha";
    let charter = charter_from(rt.alloc(), text).expect(&rt, "a charter");
    assert_same(&rt, charter.operators().len(), 2, "operators");
    assert!(rt; is_operator(&rt, &charter, b"reg") && is_operator(&rt, &charter, b"alpha"));
    let pool = [
        parse_prefix(&rt, "192.0.2.0/24"),
        parse_prefix(&rt, "2001:db8::/32"),
    ];
    assert_same(&rt, charter.pool(), pool.as_slice(), "pool");
}

#[test]
fn faults(rt: HostRuntime) {
    for row in &rows_of(&rt, rt.alloc(), FAULTS) {
        let fault = line(&rt, rt.alloc(), row.input);
        assert_output(&rt, fault.as_str(), row);
    }
}

#[test]
fn counts(rt: HostRuntime) {
    for row in &rows_of(&rt, rt.alloc(), COUNTS) {
        let fault = line(&rt, rt.alloc(), &charter_file(&rt, rt.alloc(), row.input));
        assert_output(&rt, fault.as_str(), row);
    }
}
