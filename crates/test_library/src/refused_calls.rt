//! Library calls of which one allocation is refused at most: the value lent stays as it was, and
//! the same call is good the next time. The tests' own allocations are those of steps that are
//! tried twice, so they hold whichever it is.
use crate::listing::FirstVrps;
use crate::parsing::{add_or_take, host_entries, parse_prefix, parse_vrp};
use crate::slurm_sample::SAMPLE;
use crate::tables::{assert_same, row_of};
use crate::vrps::visited;
use addr::{Asn, Holdings, Vrp};
use payload::{ListIndex, PayloadIndex, Trie};
use roa::{Content, DecodeFault, Entry, decode, encode};
use slurm::{Slurm, SlurmFault};
use std::alloc::Global;
use std::process::Abort;

/// Prefixes that are added and taken in turn, from an empty set on, and the prefixes that are its runs
/// before and after.
const STEPS: &str = "add 192.0.2.0/24 => | 192.0.2.0/24
add 2001:db8::/32 => 192.0.2.0/24 | 192.0.2.0/24 2001:db8::/32
add 198.51.100.0/24 => 192.0.2.0/24 2001:db8::/32 | 192.0.2.0/24 198.51.100.0/24 2001:db8::/32
take 192.0.2.64/26 => 192.0.2.0/24 198.51.100.0/24 2001:db8::/32 | 192.0.2.0/26 192.0.2.128/25 198.51.100.0/24 2001:db8::/32
take 2001:db8:8000::/33 => 192.0.2.0/26 192.0.2.128/25 198.51.100.0/24 2001:db8::/32 | 192.0.2.0/26 192.0.2.128/25 198.51.100.0/24 2001:db8::/33
add 192.0.2.64/26 => 192.0.2.0/26 192.0.2.128/25 198.51.100.0/24 2001:db8::/33 | 192.0.2.0/24 198.51.100.0/24 2001:db8::/33";

/// VRPs that are inserted in turn.
const INSERTED: [&str; 6] = [
    "AS64497 198.51.100.0/24 24",
    "AS64496 2001:db8::/32 48",
    "AS64496 198.51.100.0/22 24",
    "AS64496 0.0.0.0/2 2",
    "AS64496 64.0.0.0/3 3",
    "AS64496 ::/0 0",
];

/// The filters and the assertions of `SAMPLE`.
const SAMPLE_COUNTS: (usize, usize) = (3, 2);

fn has_runs(rt: &impl Abort, holdings: &Holdings, prefixes: &str) -> bool {
    let mut spans = holdings.spans().iter();
    for text in prefixes.split_whitespace() {
        if spans.next() != Some(&parse_prefix(rt, text).span()) {
            return false;
        }
    }
    spans.next().is_none()
}

/// Each step leaves the runs that it names; where it is refused at first, those before it stay.
fn assert_holdings(rt: &impl Abort, alloc: Global) {
    let mut holdings = Holdings::new(alloc);
    for row in STEPS.lines() {
        let (step, runs) = row_of(rt, row);
        let (before, after) = runs.split_once('|').expect(rt, row);
        if add_or_take(rt, &mut holdings, step).is_err() {
            assert!(rt; has_runs(rt, &holdings, before), "{step} was refused");
            add_or_take(rt, &mut holdings, step).expect(rt, step);
        }
        assert!(rt; has_runs(rt, &holdings, after), "{step}");
    }
}

fn try_list<I: PayloadIndex>(alloc: Global, index: &I) -> Option<Vec<Vrp>> {
    let mut all = FirstVrps {
        vrps: Vec::new(alloc),
        most: usize::MAX,
        refused: None,
    };
    index.visit(&mut all).ok()?;
    Some(all.vrps)
}

fn list_of<I: PayloadIndex>(rt: &impl Abort, alloc: Global, index: &I) -> Vec<Vrp> {
    match try_list(alloc, index) {
        Some(vrps) => vrps,
        None => visited(rt, alloc, index),
    }
}

/// The index is the set of the first VRPs of the table.
fn assert_first<I: PayloadIndex>(rt: &impl Abort, alloc: Global, index: &I, count: usize) {
    assert_same(rt, list_of(rt, alloc, index).len(), count, "VRPs");
    for text in INSERTED.iter().take(count) {
        assert!(rt; index.contains(&parse_vrp(rt, text)), "{text}");
    }
}

/// Each VRP is inserted into the set of those before it, which stays where it is refused at first.
fn assert_inserts<I: PayloadIndex>(rt: &impl Abort, alloc: Global, index: &mut I) {
    let mut count: usize = 0;
    for text in INSERTED {
        let vrp = parse_vrp(rt, text);
        let is_new = match index.insert(vrp) {
            Ok(is_new) => is_new,
            Err(_) => {
                assert_first(rt, alloc, index, count);
                index.insert(vrp).expect(rt, "memory")
            }
        };
        assert!(rt; is_new, "{text}");
        count = count.saturating_add(1);
        assert_first(rt, alloc, index, count);
    }
}

fn assert_is(rt: &impl Abort, content: &Content, entries: &[Entry]) {
    assert_same(rt, content.asn(), Asn(64496), "the AS");
    assert_same(rt, content.entries(), entries, "the entries");
}

/// The octets of the content, which stays as it was where they are refused at first.
fn octets_of(rt: &impl Abort, alloc: Global, content: &Content, entries: &[Entry]) -> Vec<u8> {
    match encode(alloc, content) {
        Ok(octets) => octets,
        Err(_) => {
            assert_is(rt, content, entries);
            encode(alloc, content).expect(rt, "octets")
        }
    }
}

fn decoded(rt: &impl Abort, alloc: Global, octets: &[u8]) -> Content {
    match decode(alloc, octets) {
        Ok(content) => content,
        Err(fault) => {
            assert_same(rt, fault, DecodeFault::Memory, "the fault");
            decode(alloc, octets).expect(rt, "a content")
        }
    }
}

fn assert_content(rt: &impl Abort, alloc: Global) {
    let entries = host_entries(rt, alloc, 64);
    let content = Content::make(Asn(64496), host_entries(rt, alloc, 64)).expect(rt, "a content");
    let octets = octets_of(rt, alloc, &content, &entries);
    assert_same(rt, octets.len(), 601, "octets");
    assert_is(rt, &decoded(rt, alloc, &octets), &entries);
}

fn sample(rt: &impl Abort, alloc: Global) -> Slurm {
    match Slurm::read(alloc, SAMPLE.as_bytes()) {
        Ok(slurm) => slurm,
        Err(fault) => {
            assert_same(rt, fault, SlurmFault::Memory, "the fault");
            Slurm::read(alloc, SAMPLE.as_bytes()).expect(rt, "a file")
        }
    }
}

#[test]
fn refused_call_is_good_the_next_time(rt: HostRuntime) {
    let alloc = rt.alloc();
    assert_holdings(&rt, alloc);
    assert_inserts(&rt, alloc, &mut ListIndex::new(alloc));
    assert_inserts(&rt, alloc, &mut Trie::new(alloc));
    assert_content(&rt, alloc);
    let slurm = sample(&rt, alloc);
    let counts = (slurm.filters().len(), slurm.assertions().len());
    assert!(rt; counts == SAMPLE_COUNTS);
}
