//! A day that is kept: which VRPs it has where authorizations begin and end on it, by RFC 8416
//! section 4: what a filter matches is not among them, and an assertion always is.
use crate::parsing::{parse_auth, parse_day, parse_prefix, parse_vrp, parse_vrps, split_word};
use crate::rows::Row;
use crate::tables::rows_of;
use crate::vrps::visited;
use addr::Asn;
use daily_vrps::DailyVrps;
use payload::{ListIndex, PayloadIndex};
use registry::{Auth, Edit};
use slurm::Filter;
use std::alloc::Global;
use std::process::Abort;

const DAY: &str = "2026-06-15";

/// The second one is filtered by its prefix.
const GIVEN: &str = r#"
AS64496 192.0.2.0/24 24
AS64497 198.51.100.0/24 24
AS64498 2001:db8::/32 48
AS64500 192.0.2.128/25 25
"#;

/// The first one is given too, and the second one is filtered by its AS.
const ASSERTED: &str = r#"
AS64496 192.0.2.0/24 24
AS64511 203.0.113.0/24 24
"#;

/// What is after the exceptions.
const BEFORE: &str = r#"
AS64496 192.0.2.0/24 24
AS64498 2001:db8::/32 48
AS64500 192.0.2.128/25 25
AS64511 203.0.113.0/24 24
"#;

/// Authorizations that end or begin, with their first and last days, and the VRPs afterwards.
const EVENTS: &str = r#"
# begun_is_put_in
begin AS64499 192.0.2.0/25 25 2026-01-01 2026-12-31 => with AS64499 192.0.2.0/25 25
begin AS64498 2001:db8::/32 48 2026-01-01 2026-12-31 => as_before
# ended_is_taken_out
end AS64498 2001:db8::/32 48 2026-01-01 2026-12-31 => without AS64498 2001:db8::/32 48
end AS64499 192.0.2.0/25 25 2026-01-01 2026-12-31 => as_before
# filtered_is_not_put_in
begin AS64499 198.51.100.0/24 24 2026-01-01 2026-12-31 => as_before
begin AS64499 198.51.100.128/25 25 2026-01-01 2026-12-31 => as_before
begin AS64511 192.0.2.0/24 24 2026-01-01 2026-12-31 => as_before
end AS64497 198.51.100.0/24 24 2026-01-01 2026-12-31 => as_before
# prefix_above_that_of_a_filter_is_put_in
begin AS64499 198.51.0.0/16 24 2026-01-01 2026-12-31 => with AS64499 198.51.0.0/16 24
# asserted_is_not_taken_out
end AS64496 192.0.2.0/24 24 2026-01-01 2026-12-31 => as_before
end AS64511 203.0.113.0/24 24 2026-01-01 2026-12-31 => as_before
begin AS64511 203.0.113.0/24 24 2026-01-01 2026-12-31 => as_before
# other_terms_of_an_asserted_prefix
begin AS64496 192.0.2.0/24 25 2026-01-01 2026-12-31 => with AS64496 192.0.2.0/24 25
# first_and_last_day
begin AS64499 192.0.2.0/25 25 2026-06-15 2026-06-15 => with AS64499 192.0.2.0/25 25
begin AS64499 192.0.2.0/25 25 2026-06-16 2026-12-31 => as_before
begin AS64499 192.0.2.0/25 25 2026-01-01 2026-06-14 => as_before
end AS64498 2001:db8::/32 48 2026-06-15 2026-06-15 => without AS64498 2001:db8::/32 48
end AS64498 2001:db8::/32 48 2026-06-16 2026-12-31 => as_before
end AS64498 2001:db8::/32 48 2026-01-01 2026-06-14 => as_before
# max_length_out_of_range
begin AS64499 192.0.2.0/24 23 2026-01-01 2026-12-31 => as_before
begin AS64499 192.0.2.0/24 33 2026-01-01 2026-12-31 => as_before
# one_after_another
end AS64498 2001:db8::/32 48 2026-01-01 2026-12-31;begin AS64498 2001:db8::/32 48 2026-01-01 2026-12-31 => as_before
end AS64498 2001:db8::/32 48 2026-01-01 2026-12-31;begin AS64498 2001:db8::/32 64 2026-01-01 2026-12-31 => without AS64498 2001:db8::/32 48;with AS64498 2001:db8::/32 64
begin AS64511 203.0.113.0/24 24 2026-01-01 2026-12-31;end AS64511 203.0.113.0/24 24 2026-01-01 2026-12-31 => as_before
"#;

/// The authorizations of a holder, numbered from 1. Those that are in force on the day give what is
/// given; the last one ended on the day before.
const AUTHS: &str = "AS64496 192.0.2.0/24 24 2026-01-01 2026-12-31;\
AS64497 198.51.100.0/24 24 2026-01-01 2026-12-31;\
AS64498 2001:db8::/32 48 2026-01-01 2026-12-31;\
AS64500 192.0.2.128/25 25 2026-06-15 2026-06-15;\
AS64501 192.0.2.64/26 26 2026-01-01 2026-06-14";

/// Edits of that holder's rows, and the VRPs afterwards.
const EDITS: &str = r#"
# created_is_put_in
create AS64499 192.0.2.0/25 25 2026-01-01 2026-12-31 => with AS64499 192.0.2.0/25 25
create AS64499 192.0.2.0/25 25 2026-06-16 2026-12-31 => as_before
create AS64499 198.51.100.128/25 25 2026-01-01 2026-12-31 => as_before
create AS64511 203.0.113.0/24 24 2026-01-01 2026-12-31 => as_before
# imported_are_put_in
import AS64499 192.0.2.0/25 25 2026-01-01 2026-12-31;AS64499 2001:db8::/33 33 2026-06-15 2026-06-15 => with AS64499 192.0.2.0/25 25;with AS64499 2001:db8::/33 33
import AS64511 192.0.2.0/25 25 2026-01-01 2026-12-31;AS64511 203.0.113.0/24 24 2026-01-01 2026-12-31 => as_before
import AS64499 192.0.2.0/25 25 2026-01-01 2026-06-14;AS64499 192.0.2.0/25 26 2026-01-01 2026-12-31 => with AS64499 192.0.2.0/25 26
# amended_to_the_same_vrp
amend 3 AS64498 2001:db8::/32 48 2026-01-01 2026-12-31 => as_before
amend 3 AS64498 2001:db8::/32 48 2026-01-01 2026-06-15 => as_before
amend 1 AS64496 192.0.2.0/24 24 2026-01-01 2027-12-31 => as_before
# amended_to_another_length
amend 3 AS64498 2001:db8::/32 64 2026-01-01 2026-12-31 => without AS64498 2001:db8::/32 48;with AS64498 2001:db8::/32 64
amend 1 AS64496 192.0.2.0/24 25 2026-01-01 2026-12-31 => with AS64496 192.0.2.0/24 25
amend 2 AS64497 198.51.100.0/24 25 2026-01-01 2026-12-31 => as_before
# amended_to_another_last_day
amend 3 AS64498 2001:db8::/32 48 2026-01-01 2026-06-14 => without AS64498 2001:db8::/32 48
amend 1 AS64496 192.0.2.0/24 24 2026-01-01 2026-06-14 => as_before
amend 5 AS64501 192.0.2.64/26 26 2026-01-01 2026-06-15 => with AS64501 192.0.2.64/26 26
amend 5 AS64501 192.0.2.64/26 27 2026-01-01 2026-06-13 => as_before
# withdrawn_is_taken_out
withdraw 3 => without AS64498 2001:db8::/32 48
withdraw 1 => as_before
withdraw 2 => as_before
withdraw 5 => as_before
# number_of_no_authorization
withdraw 6 => as_before
amend 6 AS64499 192.0.2.0/25 25 2026-01-01 2026-12-31 => as_before
# held_prefixes_that_change
hold 3;4 => without AS64498 2001:db8::/32 48;without AS64500 192.0.2.128/25 25
hold 1;2;4;5 => without AS64500 192.0.2.128/25 25
hold 6 => as_before
# revoked_grant_has_the_number_of_an_authorization
revoke 3 => as_before
"#;

fn parse_number(rt: &impl Abort, text: &str) -> u32 {
    text.parse::<u32>().expect(rt, text)
}

/// The day before anything begins or ends on it.
fn kept_day(rt: &impl Abort, alloc: Global) -> DailyVrps {
    let filtered = parse_prefix(rt, "198.51.100.0/24");
    let filters = vec![in alloc; Filter::Under(filtered), Filter::By(Asn(64511))];
    let filters = filters.expect(rt, "memory");
    let given = parse_vrps(rt, alloc, GIVEN);
    let asserted = parse_vrps(rt, alloc, ASSERTED);
    DailyVrps::of(alloc, parse_day(rt, DAY), given, filters, asserted).expect(rt, "memory")
}

/// Begins or ends the authorizations that these words say.
fn follow(rt: &impl Abort, alloc: Global, kept: &mut DailyVrps, events: &str) {
    for event in events.split(';') {
        let (what, auth) = split_word(rt, event);
        let auth = parse_auth(rt, alloc, 1, auth);
        match what {
            "begin" => kept.begin(&auth).expect(rt, "memory"),
            "end" => kept.end(&auth),
            _ => rt.panic(event),
        }
    }
}

/// Authorizations, with semicolons between them, of the numbers from `first` on.
fn parse_auths(rt: &impl Abort, alloc: Global, first: u32, texts: &str) -> Vec<Auth> {
    let mut auths = Vec::new(alloc);
    let mut number = first;
    for text in texts.split(';') {
        let auth = parse_auth(rt, alloc, number, text);
        auths.push(auth).expect(rt, "memory");
        number = number.saturating_add(1);
    }
    auths
}

fn parse_numbers(rt: &impl Abort, alloc: Global, texts: &str) -> Vec<u32> {
    let mut numbers = Vec::new(alloc);
    for text in texts.split(';') {
        numbers.push(parse_number(rt, text)).expect(rt, "memory");
    }
    numbers
}

/// The edit of these words. What it creates has the number after those of the holder.
fn parse_edit(rt: &impl Abort, alloc: Global, words: &str) -> Edit {
    let (what, rest) = split_word(rt, words);
    match what {
        "create" => Edit::Create(parse_auth(rt, alloc, 6, rest)),
        "import" => Edit::Import {
            auths: parse_auths(rt, alloc, 6, rest),
            created: 7,
        },
        "amend" => {
            let (number, auth) = split_word(rt, rest);
            Edit::Amend(parse_auth(rt, alloc, parse_number(rt, number), auth))
        }
        "withdraw" => Edit::Withdraw(parse_number(rt, rest)),
        "hold" => Edit::Hold {
            ended: parse_numbers(rt, alloc, rest),
            removed: Vec::new(alloc),
            added: Vec::new(alloc),
        },
        "revoke" => Edit::Revoke(parse_number(rt, rest)),
        _ => rt.panic(words),
    }
}

/// Puts in or takes out the VRP that these words say.
fn change_vrp(rt: &impl Abort, vrps: &mut ListIndex, change: &str) {
    let (how, vrp) = split_word(rt, change);
    let vrp = parse_vrp(rt, vrp);
    let has_changed = match how {
        "with" => vrps.insert(vrp).expect(rt, "memory"),
        "without" => vrps.remove(&vrp),
        _ => false,
    };
    assert!(rt; has_changed, "{change}");
}

/// The VRPs that differ as these words say from those before.
fn changed(rt: &impl Abort, alloc: Global, words: &str) -> ListIndex {
    let mut vrps = ListIndex::from(parse_vrps(rt, alloc, BEFORE));
    if words != "as_before" {
        for change in words.split(';') {
            change_vrp(rt, &mut vrps, change);
        }
    }
    vrps
}

/// What is kept are the VRPs of `BEFORE` with these changes.
fn assert_vrps(rt: &impl Abort, alloc: Global, kept: &DailyVrps, changes: &str) {
    let expected = visited(rt, alloc, &changed(rt, alloc, changes));
    assert!(rt; visited(rt, alloc, kept.vrps()) == expected, "{changes}");
}

/// The day as it was, with the VRPs that a row says.
fn assert_row(rt: &impl Abort, alloc: Global, kept: &DailyVrps, row: &Row<'_>) {
    assert_vrps(rt, alloc, kept, row.output);
    assert!(rt; kept.day() == parse_day(rt, DAY), "{}", row.input);
}

#[test]
fn vrps_follow_what_begins_and_ends(rt: HostRuntime) {
    for row in &rows_of(&rt, rt.alloc(), EVENTS) {
        let mut kept = kept_day(&rt, rt.alloc());
        assert_vrps(&rt, rt.alloc(), &kept, "as_before");
        follow(&rt, rt.alloc(), &mut kept, row.input);
        assert_row(&rt, rt.alloc(), &kept, row);
    }
}

#[test]
fn vrps_follow_edits(rt: HostRuntime) {
    let auths = parse_auths(&rt, rt.alloc(), 1, AUTHS);
    for row in &rows_of(&rt, rt.alloc(), EDITS) {
        let mut kept = kept_day(&rt, rt.alloc());
        let edit = parse_edit(&rt, rt.alloc(), row.input);
        kept.follow(&edit, &auths).expect(&rt, "memory");
        assert_row(&rt, rt.alloc(), &kept, row);
    }
}
