//! What the words of a row say.
use addr::{Asn, Day, Family, Holdings, Origin, Prefix, RoaPrefix, Route, Vrp};
use registry::{Auth, RoaPrefixes};
use std::alloc::{AllocError, Global};
use std::process::Abort;

/// The first word, and what is after it.
pub(crate) fn split_word<'a>(rt: &impl Abort, text: &'a str) -> (&'a str, &'a str) {
    text.split_once(' ').expect(rt, text)
}

pub(crate) fn parse_asn(rt: &impl Abort, text: &str) -> Asn {
    Asn::from_text(text.as_bytes()).expect(rt, text)
}

pub(crate) fn parse_prefix(rt: &impl Abort, text: &str) -> Prefix {
    Prefix::read(text.as_bytes()).expect(rt, text)
}

/// An entry by its prefix and maxLength.
fn parse_entry(rt: &impl Abort, text: &str) -> RoaPrefix {
    let (prefix, max) = split_word(rt, text);
    RoaPrefix {
        prefix: parse_prefix(rt, prefix),
        max: max.parse::<u8>().expect(rt, text),
    }
}

/// The entries, with commas between them.
pub(crate) fn parse_entries(rt: &impl Abort, alloc: Global, text: &str) -> Vec<RoaPrefix> {
    let mut entries = Vec::new(alloc);
    for entry in text.split(", ") {
        if !entry.is_empty() {
            entries.push(parse_entry(rt, entry)).expect(rt, "memory");
        }
    }
    entries
}

fn try_host_entries(alloc: Global, count: u8) -> Option<Vec<RoaPrefix>> {
    let mut entries = Vec::new(alloc);
    for place in 0..count {
        let address = 0xc000_0200 + u128::from(place);
        let prefix = Prefix::from_parts(Family::V4, address, 32)?;
        entries.push(RoaPrefix { prefix, max: 32 }).ok()?;
    }
    Some(entries)
}

/// So many entries of one address each, from 192.0.2.0/32 on. They are tried twice, so one allocation
/// may be refused.
pub(crate) fn host_entries(rt: &impl Abort, alloc: Global, count: u8) -> Vec<RoaPrefix> {
    match try_host_entries(alloc, count) {
        Some(entries) => entries,
        None => try_host_entries(alloc, count).expect(rt, "entries"),
    }
}

/// A VRP by its AS, prefix and maxLength.
pub(crate) fn parse_vrp(rt: &impl Abort, text: &str) -> Vrp {
    let (asn, entry) = split_word(rt, text);
    let entry = parse_entry(rt, entry);
    Vrp::from_parts(entry.prefix, entry.max, parse_asn(rt, asn)).expect(rt, text)
}

/// The VRPs of the lines.
pub(crate) fn parse_vrps(rt: &impl Abort, alloc: Global, lines: &str) -> Vec<Vrp> {
    let mut vrps = Vec::new(alloc);
    for line in lines.trim().lines() {
        vrps.push(parse_vrp(rt, line)).expect(rt, "memory");
    }
    vrps
}

/// A route by its prefix and origin.
pub(crate) fn parse_route(rt: &impl Abort, text: &str) -> Route {
    let (prefix, origin) = split_word(rt, text);
    Route {
        prefix: parse_prefix(rt, prefix),
        origin: match origin {
            "none" => Origin::None,
            asn => Origin::As(parse_asn(rt, asn)),
        },
    }
}

pub(crate) fn parse_day(rt: &impl Abort, text: &str) -> Day {
    Day::read(text.as_bytes()).expect(rt, text)
}

/// An authorization by its AS, prefix, maxLength, first and last day.
pub(crate) fn parse_auth(rt: &impl Abort, alloc: Global, number: u32, text: &str) -> Auth {
    let (asn, rest) = split_word(rt, text);
    let (prefix, rest) = split_word(rt, rest);
    let (max, days) = split_word(rt, rest);
    let (from, until) = split_word(rt, days);
    let max = max.parse::<u8>().expect(rt, max);
    Auth {
        number,
        asn: parse_asn(rt, asn),
        entries: RoaPrefixes::one(alloc, parse_prefix(rt, prefix), max).expect(rt, "memory"),
        from: parse_day(rt, from),
        until: parse_day(rt, until),
    }
}

/// Adds or takes a prefix.
pub(crate) fn add_or_take(
    rt: &impl Abort,
    holdings: &mut Holdings,
    step: &str,
) -> Result<(), AllocError> {
    match split_word(rt, step) {
        ("add", prefix) => holdings.add(&parse_prefix(rt, prefix)),
        ("take", prefix) => holdings.take(&parse_prefix(rt, prefix)),
        _ => rt.panic(step),
    }
}
