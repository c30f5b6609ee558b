//! Entries of an authorization, in any order: how they are kept, and lists that are none.
use crate::parsing::{host_entries, parse_entries, parse_prefix};
use crate::rows::Row;
use crate::tables::{assert_output, assert_same, rows_of};
use addr::RoaPrefix;
use registry::{RoaPrefixes, RoaPrefixesFault};
use std::alloc::Global;
use std::process::Abort;

/// Entries by prefix and maxLength as they are given, and as they are kept, or why they are not.
const LISTS: &str = r#"
# one_entry
192.0.2.0/24 24 => 192.0.2.0/24 24
# max_lengths_are_not_judged
192.0.2.0/24 255 => 192.0.2.0/24 255
# entries_in_any_order_rise
2001:db8::/32 48, 192.0.2.0/24 24 => 192.0.2.0/24 24, 2001:db8::/32 48
192.0.2.128/25 25, 192.0.2.0/25 25, 192.0.2.0/24 26 => 192.0.2.0/24 26, 192.0.2.0/25 25, 192.0.2.128/25 25
::/0 0, 0.0.0.0/0 32, 192.0.2.0/24 24 => 0.0.0.0/0 32, 192.0.2.0/24 24, ::/0 0
# no_entry
 => there are not 1 to 64 entries
# one_prefix_twice
192.0.2.0/24 24, 192.0.2.0/24 24 => two entries have one prefix
192.0.2.0/24 25, 192.0.2.0/24 24 => two entries have one prefix
192.0.2.0/24 24, 2001:db8::/32 48, 192.0.2.0/24 25 => two entries have one prefix
"#;

/// How many entries, and why so many are none.
const COUNTS: [(&str, u8, Option<RoaPrefixesFault>); 4] = [
    ("none", 0, Some(RoaPrefixesFault::Count)),
    ("one", 1, None),
    ("the most", 64, None),
    ("one more", 65, Some(RoaPrefixesFault::Count)),
];

fn assert_list(rt: &impl Abort, alloc: Global, row: &Row<'_>) {
    match RoaPrefixes::make(parse_entries(rt, alloc, row.input)) {
        Ok(made) => {
            let expected = parse_entries(rt, alloc, row.output);
            assert_same(rt, made.as_slice(), expected.as_slice(), row.name);
        }
        Err(fault) => {
            let text = fault.to_string(alloc).expect(rt, "a text");
            assert_output(rt, text.as_str(), row);
        }
    }
}

#[test]
fn entries_are_kept_rising(rt: HostRuntime) {
    for row in &rows_of(&rt, rt.alloc(), LISTS) {
        assert_list(&rt, rt.alloc(), row);
    }
}

/// The host prefixes fall, and are kept rising.
#[test]
fn one_to_sixty_four_entries(rt: HostRuntime) {
    for (name, count, fault) in COUNTS {
        let rising = host_entries(&rt, rt.alloc(), count);
        let mut falling = host_entries(&rt, rt.alloc(), count);
        falling.reverse();
        match RoaPrefixes::make(falling) {
            Ok(made) => {
                assert_same(&rt, None, fault, name);
                assert_same(&rt, made.as_slice(), rising.as_slice(), name);
            }
            Err(found) => assert_same(&rt, Some(found), fault, name),
        }
    }
}

#[test]
fn one_is_the_list_of_one_entry(rt: HostRuntime) {
    let prefix = parse_prefix(&rt, "192.0.2.0/32");
    let made = RoaPrefixes::one(rt.alloc(), prefix, 32).expect(&rt, "memory");
    let expected = [RoaPrefix { prefix, max: 32 }];
    assert_same(&rt, made.as_slice(), expected.as_slice(), "one");
}
