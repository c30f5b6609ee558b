//! Names, days, AS numbers, plain numbers, holdings and charters.
use crate::parsing::add_or_take;
use crate::tables::{assert_same, row_of};
use addr::{Asn, Day, Family, Holdings, Name, Prefix, PrefixFault, Span, digits, number_from_text};
use arrayvec::ArrayString;
use policy::{Charter, CharterFault};
use std::process::Abort;

/// Each text, and the name that it is.
const NAMES: &str = r#" => none
a => a
7 => 7
- => none
-a => none
a- => a-
a--b => a--b
64496-lir => 64496-lir
Acme => none
acme_net => none
acme.net => none
a b => none
abcdefghijklmnopqrstuvwxyz012345 => abcdefghijklmnopqrstuvwxyz012345
abcdefghijklmnopqrstuvwxyz0123456 => none"#;

/// Each text, and the number of the day that it names: the difference in days from 1970-01-01, as
/// Python's `datetime.date` gives it.
const DAYS: &str = r#"1970-01-01 => 0
1999-12-31 => 10956
2000-02-29 => 11016
2024-02-29 => 19782
2026-11-22 => 20779
2100-02-28 => 47540
9999-12-31 => 2932896
1900-01-01 => none
1969-12-31 => none
2023-02-29 => none
2100-02-29 => none
2026-13-01 => none
2026-00-01 => none
2026-04-31 => none
2026-1-01 => none
2026-01-011 => none
2026/01/01 => none
2026-01-0a => none
+026-01-01 => none
 => none"#;

/// Each text, and the AS number that it writes.
const AS_TEXTS: &str = r#"AS0 => 0
AS64496 => 64496
AS4294967295 => 4294967295
AS4294967296 => none
AS00 => none
AS064496 => none
as1 => none
AS => none
1 => none
AS+1 => none
AS1  => none
A => none
 => none"#;

/// Each text, and the number that it writes.
const NUMBERS: &str = r#"0 => 0
10000 => 10000
18446744073709551615 => 18446744073709551615
18446744073709551616 => none
007 => none
+7 => none
-7 => none
7.0 => none
 => none"#;

/// How many operators and pool prefixes, all equal, and the fault of that charter.
const CHARTERS: [(usize, usize, CharterFault); 6] = [
    (0, 1, CharterFault::Count),
    (1, 0, CharterFault::Count),
    (17, 1, CharterFault::Count),
    (1, 65, CharterFault::Count),
    (16, 1, CharterFault::Repeated),
    (16, 64, CharterFault::Repeated),
];

#[test]
fn reads_names_alone(rt: HostRuntime) {
    for row in NAMES.lines() {
        let (text, expected) = row_of(&rt, row);
        match Name::read(text.as_bytes()) {
            Some(name) => assert_same(&rt, name.as_str(), expected, text),
            None => assert_same(&rt, "none", expected, text),
        }
    }
}

/// The number that a text gives is the expected one, or it gives none as is expected.
fn assert_number(rt: &impl Abort, number: Option<u64>, expected: &str, text: &str) {
    match number {
        Some(number) => assert_same(rt, digits(number).as_str(), expected, text),
        None => assert_same(rt, "none", expected, text),
    }
}

fn assert_written(rt: &impl Abort, day: &Day, text: &str) {
    let mut written = ArrayString::new();
    day.write_to(&mut written);
    assert_same(rt, written.as_str(), text, text);
}

/// Each day is written as it was read.
#[test]
fn reads_days_alone(rt: HostRuntime) {
    for row in DAYS.lines() {
        let (text, expected) = row_of(&rt, row);
        let day = Day::read(text.as_bytes());
        if let Some(day) = &day {
            assert_written(&rt, day, text);
        }
        assert_number(&rt, day.map(|day| u64::from(day.number())), expected, text);
    }
}

#[test]
fn reads_as_numbers_alone(rt: HostRuntime) {
    for row in AS_TEXTS.lines() {
        let (text, expected) = row_of(&rt, row);
        let asn = Asn::from_text(text.as_bytes());
        assert_number(&rt, asn.map(|asn| u64::from(asn.0)), expected, text);
    }
}

/// Each number is written as it was read.
#[test]
fn reads_plain_numbers_alone(rt: HostRuntime) {
    for row in NUMBERS.lines() {
        let (text, expected) = row_of(&rt, row);
        assert_number(&rt, number_from_text(text.as_bytes()), expected, text);
    }
}

#[test]
fn prints_values(rt: HostRuntime) {
    let name = Name::read(b"acme-2").expect(&rt, "a name");
    let asn = Asn(64496);
    let day = Day::read(b"2000-02-29").expect(&rt, "a day");
    let printed = format!(in rt.alloc(); "{name} {name:?} {asn} {day:?}").expect(&rt, "a text");
    let expected = "acme-2 \"acme-2\" AS64496 Day { number: 11016 }";
    assert_same(&rt, printed.as_str(), expected, "values");
}

const PREFIX_FAULTS: &str = "not an address, a slash and a length
the address or the length is not in its one spelling
the length is greater than the addresses have bits
a bit past the length is set";

#[test]
fn prints_prefix_faults(rt: HostRuntime) {
    let (shape, spelling) = (PrefixFault::Shape, PrefixFault::Spelling);
    let (length, bits) = (PrefixFault::Length, PrefixFault::HostBits);
    let printed = format!(in rt.alloc(); "{shape}\n{spelling}\n{length}\n{bits}");
    let printed = printed.expect(&rt, "a text");
    assert_same(&rt, printed.as_str(), PREFIX_FAULTS, "faults");
}

/// The prefix of IPv6 with this first address and length.
fn v6(rt: &impl Abort, first: u128, length: u8) -> Prefix {
    Prefix::from_parts(Family::V6, first, length).expect(rt, "a prefix of IPv6")
}

/// Prefixes of IPv6 that are added or taken, and the last address that is then held from `::` on.
const STEPS: [(&str, u128); 4] = [
    ("add ::/1", u128::MAX >> 1),
    ("add 8000::/1", u128::MAX),
    ("add ::/0", u128::MAX),
    (
        "take ffff:ffff:ffff:ffff:ffff:ffff:ffff:ffff/128",
        u128::MAX - 1,
    ),
];

fn assert_held_to(rt: &impl Abort, holdings: &Holdings, last: u128) {
    let span = Span::from_parts(Family::V6, 0, last).expect(rt, "a span of IPv6");
    assert_same(rt, holdings.spans(), [span].as_slice(), last);
    assert_same(rt, holdings.holds(&v6(rt, 0, 0)), last == u128::MAX, last);
    let whole_v4 = Prefix::from_parts(Family::V4, 0, 0).expect(rt, "0.0.0.0/0");
    assert!(rt; !holdings.touches(&whole_v4));
}

#[test]
fn holdings_reach_the_last_ipv6_address(rt: HostRuntime) {
    let mut holdings = Holdings::new(rt.alloc());
    for (step, last) in STEPS {
        add_or_take(&rt, &mut holdings, step).expect(&rt, step);
        assert_held_to(&rt, &holdings, last);
    }
}

#[test]
fn charters_of_wrong_counts_or_repeats(rt: HostRuntime) {
    let name = Name::read(b"reg").expect(&rt, "a name");
    let whole = v6(&rt, 0, 0);
    for (operators, pool, fault) in CHARTERS {
        let names = vec![in rt.alloc(); name; operators].expect(&rt, "memory");
        let prefixes = vec![in rt.alloc(); whole; pool].expect(&rt, "memory");
        let made = Charter::make(names, prefixes);
        assert_same(&rt, made.err(), Some(fault), (operators, pool));
    }
}
