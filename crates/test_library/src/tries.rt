//! The two representations of a set of VRPs, beside one another, what a trie counts, and routes
//! that are judged over a part of one.
ghost use Rattle.std.specs.Prelude.{not, ◌==◌};

use crate::parsing::{parse_asn, parse_prefix, parse_route, parse_vrps, split_word};
use crate::rows::Row;
use crate::tables::{assert_output, assert_same, rows_of};
use crate::vrps::{fill, visited};
use addr::{Asn, Family, Prefix, Vrp};
use payload::{ListIndex, PayloadIndex, Trie, Validity, VrpTest};
use std::alloc::Global;
use std::process::Abort;

/// Sets with an empty line between them: VRPs, one of them twice, and under a name routes with their
/// state and the number of lengths at which a search of these VRPs has something to look at.
const SETS: &str = r#"AS64497 198.51.100.0/24 24
AS64500 0.0.0.0/0 0
AS64496 198.51.100.0/22 24
AS64500 0.0.0.0/0 0
# nested
198.51.100.0/24 AS64496 => Valid 23
198.51.100.0/24 AS64499 => Invalid 25
198.51.100.0/24 AS64497 => Valid 25
198.51.100.0/24 none => Invalid 25
0.0.0.0/0 AS64500 => Valid 1
0.0.0.0/0 AS64496 => Invalid 1
198.51.100.0/23 AS64497 => Invalid 24
198.51.100.0/25 AS64496 => Invalid 25
198.51.103.0/24 AS64496 => Valid 23
198.51.103.0/24 AS64497 => Invalid 23
198.51.104.0/24 AS64496 => Invalid 21
10.0.0.0/8 AS64496 => Invalid 1
::/0 AS64500 => NotFound 1

AS64496 0.0.0.0/0 32
AS64497 0.0.0.0/32 32
AS64498 255.255.255.255/32 32
AS64496 ::/0 128
AS64497 ::/128 128
AS64498 ffff:ffff:ffff:ffff:ffff:ffff:ffff:ffff/128 128
AS64498 255.255.255.255/32 32
# first_and_last
0.0.0.0/0 AS64496 => Valid 1
0.0.0.0/0 AS64497 => Invalid 1
0.0.0.0/32 AS64496 => Valid 1
0.0.0.0/32 AS64497 => Valid 33
0.0.0.0/32 AS64498 => Invalid 33
0.0.0.1/32 AS64498 => Invalid 32
255.255.255.255/32 AS64498 => Valid 33
255.255.255.254/31 AS64498 => Invalid 32
128.0.0.0/1 AS64498 => Invalid 2
::/0 AS64496 => Valid 1
::/0 none => Invalid 1
::/128 AS64497 => Valid 129
::/128 AS64498 => Invalid 129
::1/128 AS64498 => Invalid 128
ffff:ffff:ffff:ffff:ffff:ffff:ffff:ffff/128 AS64498 => Valid 129
ffff:ffff:ffff:ffff:ffff:ffff:ffff:fffe/127 AS64497 => Invalid 128
4000::/2 AS64497 => Invalid 2

AS0 192.0.2.0/24 32
AS64496 192.0.2.0/25 25
AS0 192.0.2.0/24 32
# as_zero
192.0.2.0/24 AS0 => Invalid 25
192.0.2.0/24 AS64496 => Invalid 25
192.0.2.0/25 AS64496 => Valid 26
192.0.2.128/25 AS0 => Invalid 25
192.0.2.0/25 none => Invalid 26
192.0.3.0/24 AS0 => NotFound 24

AS64496 10.128.0.0/9 9
AS64496 10.0.0.0/9 9
AS64497 10.0.0.0/10 10
AS64496 10.128.0.0/9 9
# siblings
10.0.0.0/8 AS64496 => NotFound 9
10.0.0.0/9 AS64496 => Valid 10
10.128.0.0/9 AS64497 => Invalid 10
10.0.0.0/10 AS64497 => Valid 11
10.0.0.0/10 AS64498 => Invalid 11
10.64.0.0/10 AS64497 => Invalid 10
11.0.0.0/9 AS64496 => NotFound 8

AS64496 32.1.13.184/32 32
AS64497 2001:db8::/32 48
AS64497 2001:db8::/32 48
# families
32.1.13.184/32 AS64496 => Valid 33
32.1.13.184/32 AS64497 => Invalid 33
2001:db8::/32 AS64496 => Invalid 33
2001:db8:1::/48 AS64497 => Valid 33
2001:db8::/49 AS64497 => Invalid 33
2001:db9::/32 AS64497 => NotFound 32

AS64496 192.0.2.0/24 24
AS64496 192.0.2.0/24 26
AS64497 192.0.2.0/24 25
AS64497 192.0.2.0/26 28
AS64496 192.0.2.0/24 26
# max_lengths
192.0.2.0/26 AS64496 => Valid 25
192.0.2.0/27 AS64496 => Invalid 27
192.0.2.0/25 AS64497 => Valid 25
192.0.2.0/26 AS64497 => Valid 27
192.0.2.64/26 AS64497 => Invalid 26
192.0.2.0/28 AS64497 => Valid 27
192.0.2.0/29 AS64497 => Invalid 27

# no_vrp
0.0.0.0/0 AS64496 => NotFound 1
::/0 none => NotFound 1"#;

/// An AS whose VRPs are left out of the nested ones, and a route with its state over the rest.
const WITHOUT_AN_AS: &str = r#"
AS64496 198.51.100.0/24 AS64496 => Invalid
AS64496 198.51.100.0/24 AS64497 => Valid
AS64496 198.51.103.0/24 AS64496 => Invalid
AS64496 0.0.0.0/0 AS64500 => Valid
AS64497 198.51.100.0/24 AS64497 => Invalid
AS64497 198.51.100.0/24 AS64496 => Valid
AS64500 0.0.0.0/0 AS64500 => NotFound
AS64500 198.51.104.0/24 AS64496 => NotFound
AS64500 198.51.103.0/24 AS64496 => Valid
AS64500 ::/0 AS64500 => NotFound
AS64511 198.51.103.0/24 AS64496 => Valid
"#;

/// What is said when nothing is left.
const EMPTY_ROUTES: &str = "\n198.51.100.0/24 AS64496 => NotFound 1";

fn assert_row(rt: &impl Abort, list: &ListIndex, trie: &Trie, row: &Row<'_>) {
    let (state, count) = split_word(rt, row.output);
    let count = count.parse::<u32>().expect(rt, count);
    let route = parse_route(rt, row.input);
    let (counted, lengths) = trie.validity_counted(&route);
    assert_same(rt, list.validity(&route).as_str(), state, row.input);
    assert_same(rt, trie.validity(&route).as_str(), state, row.input);
    assert_same(rt, (counted.as_str(), lengths), (state, count), row.input);
}

fn assert_rows(rt: &impl Abort, alloc: Global, list: &ListIndex, trie: &Trie, routes: &str) {
    for row in &rows_of(rt, alloc, routes) {
        assert_row(rt, list, trie, row);
    }
}

/// The trie hands out these VRPs.
fn assert_lists(rt: &impl Abort, alloc: Global, trie: &Trie, vrps: &[Vrp]) {
    let found = visited(rt, alloc, trie);
    assert!(rt; found.as_slice() == vrps);
}

/// The VRPs and the routes of a set.
fn parse_set<'a>(rt: &impl Abort, alloc: Global, set: &'a str) -> (Vec<Vrp>, &'a str) {
    let (vrps, routes) = set.split_once("# ").expect(rt, set);
    (parse_vrps(rt, alloc, vrps), routes)
}

/// A trie and a list of the VRPs judge the routes as the rows say, and hand out the same.
fn assert_set(rt: &impl Abort, alloc: Global, set: &str) {
    let (vrps, routes) = parse_set(rt, alloc, set);
    let mut list = ListIndex::new(alloc);
    let mut trie = Trie::new(alloc);
    let count = fill(rt, &mut list, &vrps);
    assert_same(rt, fill(rt, &mut trie, &vrps), count, routes);
    assert_rows(rt, alloc, &list, &trie, routes);
    assert_lists(rt, alloc, &trie, &visited(rt, alloc, &list));
}

#[test]
fn search_depths_of_nested_prefixes(rt: HostRuntime) {
    for set in SETS.split("\n\n") {
        assert_set(&rt, rt.alloc(), set);
    }
}

/// Passes the VRPs of all other ASes.
#[derive(Drop)]
struct OfOthers {
    asn: Asn,
}

impl VrpTest for OfOthers {
    ghost passes = { λ t v. not (v.asn.0 == t.asn.0) };

    fn passes(&self, vrp: &Vrp) -> bool {
        vrp.asn != self.asn
    }
}

#[test]
fn route_over_the_vrps_of_other_ases(rt: HostRuntime) {
    let (vrps, _) = parse_set(&rt, rt.alloc(), SETS);
    let trie = Trie::of(rt.alloc(), &vrps).expect(&rt, "memory");
    for row in &rows_of(&rt, rt.alloc(), WITHOUT_AN_AS) {
        let (asn, route) = split_word(&rt, row.input);
        let asn = parse_asn(&rt, asn);
        let judged = trie.validity_among(&parse_route(&rt, route), &OfOthers { asn });
        assert_output(&rt, judged.as_str(), row);
    }
}

/// The first three VRPs are removed, each once. Then the trie hands out nothing, and has an answer
/// for no route.
#[test]
fn pruned_trie_is_empty(rt: HostRuntime) {
    let (vrps, _) = parse_set(&rt, rt.alloc(), SETS);
    let mut trie = Trie::new(rt.alloc());
    fill(&rt, &mut trie, &vrps);
    for vrp in vrps.iter().take(3) {
        assert!(rt; trie.remove(vrp) && !trie.remove(vrp));
    }
    assert_lists(&rt, rt.alloc(), &trie, &[]);
    let list = ListIndex::new(rt.alloc());
    assert_rows(&rt, rt.alloc(), &list, &trie, EMPTY_ROUTES);
}

/// The VRPs of the first prefix of each length of IPv6.
fn chain(rt: &impl Abort, alloc: Global) -> Vec<Vrp> {
    let mut vrps = Vec::new(alloc);
    for length in 0..129 {
        let prefix = Prefix::from_parts(Family::V6, 0, length).expect(rt, "a prefix");
        let vrp = Vrp::from_parts(prefix, 128, Asn(64496)).expect(rt, "a VRP");
        vrps.push(vrp).expect(rt, "memory");
    }
    vrps
}

/// The state of the route, and the number of nodes that a search looks at.
fn assert_counted(rt: &impl Abort, trie: &Trie, route: &str, expected: (Validity, u32)) {
    let counted = trie.validity_counted(&parse_route(rt, route));
    assert_same(rt, counted, expected, route);
}

/// The host is found at a node more after each VRP is removed, and nowhere after the last.
fn assert_each_is_found(rt: &impl Abort, trie: &mut Trie, vrps: &[Vrp]) {
    let host = "::/128 AS64496";
    let mut nodes = 0u32;
    for vrp in vrps {
        nodes = nodes.saturating_add(1);
        assert_counted(rt, trie, host, (Validity::Valid, nodes));
        assert!(rt; trie.remove(vrp));
    }
    assert_counted(rt, trie, host, (Validity::NotFound, 1));
}

/// The VRPs are inserted, the last first. Another AS is looked for at each node.
#[test]
fn chain_of_nested_prefixes(rt: HostRuntime) {
    let vrps = chain(&rt, rt.alloc());
    let mut trie = Trie::new(rt.alloc());
    for vrp in vrps.iter().rev() {
        assert!(rt; trie.insert(*vrp).expect(&rt, "memory"));
    }
    assert_lists(&rt, rt.alloc(), &trie, &vrps);
    assert_counted(&rt, &trie, "::/128 AS64497", (Validity::Invalid, 129));
    assert_each_is_found(&rt, &mut trie, &vrps);
}

/// The VRP of a prefix that has a thousand.
fn vrp_of(rt: &impl Abort, asn: u32) -> Vrp {
    let prefix = parse_prefix(rt, "192.0.2.0/24");
    Vrp::from_parts(prefix, 24, Asn(asn)).expect(rt, "a VRP")
}

/// Each is new once.
fn insert_a_thousand(rt: &impl Abort, trie: &mut Trie) {
    for asn in (1..1001).rev() {
        let vrp = vrp_of(rt, asn);
        assert!(rt; trie.insert(vrp).expect(rt, "memory"), "AS{asn}");
        assert!(rt; !trie.insert(vrp).expect(rt, "memory"), "AS{asn}");
    }
}

#[test]
fn thousand_vrps_of_one_prefix(rt: HostRuntime) {
    let mut trie = Trie::new(rt.alloc());
    insert_a_thousand(&rt, &mut trie);
    assert_counted(&rt, &trie, "192.0.2.0/24 AS1000", (Validity::Valid, 25));
    assert_counted(&rt, &trie, "192.0.2.0/24 AS1001", (Validity::Invalid, 25));
    for asn in 1..1000 {
        assert!(rt; trie.remove(&vrp_of(&rt, asn)));
    }
    assert_lists(&rt, rt.alloc(), &trie, &[vrp_of(&rt, 1000)]);
}
