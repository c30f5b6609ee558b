//! That calls which allocate succeed where there is memory, which no contract says.
use crate::parsing::{host_entries, parse_prefix, parse_vrp, parse_vrps};
use crate::slurm_sample::SAMPLE;
use crate::tables::assert_same;
use crate::vrps::{NESTED, WIDE, fill};
use addr::{Asn, Holdings};
use payload::{ListIndex, PayloadIndex};
use roa::{Content, decode, encode};
use slurm::Slurm;
use std::alloc::Global;
use std::process::Abort;

fn assert_holdings(rt: &impl Abort, alloc: Global) {
    let whole = parse_prefix(rt, "::/0");
    let mut holdings = Holdings::new(alloc);
    holdings.add(&whole).expect(rt, "memory");
    assert!(rt; holdings.clone().expect(rt, "memory").holds(&whole));
    holdings.take(&whole).expect(rt, "memory");
    assert!(rt; holdings.spans().is_empty());
}

fn assert_index(rt: &impl Abort, alloc: Global) {
    let vrps = parse_vrps(rt, alloc, NESTED);
    let mut index = ListIndex::new(alloc);
    assert_same(rt, fill(rt, &mut index, &vrps), 2, NESTED);
    assert!(rt; !index.insert(parse_vrp(rt, WIDE)).expect(rt, "memory"));
}

fn assert_content(rt: &impl Abort, alloc: Global) {
    let content = Content::make(Asn(64496), host_entries(rt, alloc, 64)).expect(rt, "a content");
    let octets = encode(alloc, &content).expect(rt, "memory");
    assert!(rt; decode(alloc, octets.as_slice()).is_ok());
}

#[test]
fn allocating_calls_succeed_in_ample_memory(rt: HostRuntime) {
    assert_holdings(&rt, rt.alloc());
    assert_index(&rt, rt.alloc());
    assert_content(&rt, rt.alloc());
    assert!(rt; Slurm::read(rt.alloc(), SAMPLE.as_bytes()).is_ok());
}
