//! Sets of VRPs, and the validation states of routes on them.
use crate::listing::{FirstVrps, listed};
use crate::parsing::{parse_route, parse_vrp, parse_vrps};
use crate::tables::{assert_output, assert_same, given, rows_of};
use addr::Vrp;
use payload::{ListIndex, PayloadIndex, Stop};
use std::alloc::Global;
use std::process::Abort;

/// VRPs for a /22 and for a /24 in it.
pub(crate) const WIDE: &str = "AS64496 198.51.100.0/22 24";

pub(crate) const NARROW: &str = "AS64497 198.51.100.0/24 24";

/// These two, the first one twice.
pub(crate) const NESTED: &str = r#"
AS64497 198.51.100.0/24 24
AS64496 198.51.100.0/22 24
AS64496 198.51.100.0/22 24
"#;

/// Routes by prefix and origin, and their states by those VRPs.
const NESTED_STATES: &str = r#"
198.51.100.0/24 AS64496 => Valid
198.51.100.0/24 AS64497 => Valid
198.51.100.0/25 AS64496 => Invalid
198.51.100.0/24 none => Invalid
198.51.103.0/24 AS64497 => Invalid
198.51.104.0/24 AS64496 => NotFound
198.51.96.0/21 AS64496 => NotFound
c633:6400::/24 AS64496 => NotFound
"#;

const BOTH_FAMILIES: &str = r#"
AS64497 2001:db8::/32 48
AS64496 ::/0 128
AS64496 0.0.0.0/0 0
"#;

const STATES_OF_BOTH_FAMILIES: &str = r#"
2001:db8:1::/48 AS64496 => Valid
2001:db8:1::/49 AS64497 => Invalid
192.0.2.0/24 AS64496 => Invalid
"#;

/// How many VRPs a sink takes before it stops, how many it has then, and the answer of the visit.
const VISITS: [(usize, usize, Result<(), Stop>); 3] = [
    (2, 2, Ok(())),
    (1, 1, Err(Stop)),
    (0, 0, Err(Stop)),
];

/// A set by one call for each VRP, of which the last is taken out and put in again, and how many
/// calls put one in.
pub(crate) fn fill<I: PayloadIndex>(rt: &impl Abort, index: &mut I, vrps: &[Vrp]) -> usize {
    let mut count: usize = 0;
    for vrp in vrps {
        let is_new = index.insert(*vrp).expect(rt, "memory");
        count = count.saturating_add(usize::from(is_new));
    }
    if let Some(last) = vrps.last() {
        assert!(rt; index.remove(last) && !index.contains(last));
        assert!(rt; index.insert(*last).expect(rt, "memory"));
    }
    count
}

/// What a visit hands out.
pub(crate) fn visited<I: PayloadIndex>(rt: &impl Abort, alloc: Global, index: &I) -> Vec<Vrp> {
    given(rt, listed(alloc, index), "a visit stopped")
}

fn assert_states(rt: &impl Abort, alloc: Global, vrps: &str, states: &str) {
    let index = ListIndex::from(parse_vrps(rt, alloc, vrps));
    for row in &rows_of(rt, alloc, states) {
        let state = index.validity(&parse_route(rt, row.input));
        assert_output(rt, state.as_str(), row);
    }
}

#[test]
fn states_of_routes(rt: HostRuntime) {
    let alloc = rt.alloc();
    assert_states(&rt, alloc, NESTED, NESTED_STATES);
    assert_states(&rt, alloc, BOTH_FAMILIES, STATES_OF_BOTH_FAMILIES);
    let as_zero = "\n255.255.255.255/32 AS0 => Invalid";
    assert_states(&rt, alloc, "AS0 0.0.0.0/0 32", as_zero);
    assert_states(&rt, alloc, "", "\n0.0.0.0/0 AS64496 => NotFound");
}

/// The sink has the first of the VRPs when the visit ends.
#[test]
fn visits_rise_and_stop(rt: HostRuntime) {
    let index = ListIndex::from(parse_vrps(&rt, rt.alloc(), NESTED));
    let rising = [parse_vrp(&rt, WIDE), parse_vrp(&rt, NARROW)];
    for (most, kept, answer) in VISITS {
        let mut first = FirstVrps {
            vrps: Vec::new(rt.alloc()),
            most,
            refused: None,
        };
        assert_same(&rt, index.visit(&mut first), answer, most);
        assert_same(&rt, first.vrps.len(), kept, most);
        assert!(rt; rising.as_slice().starts_with(&first.vrps), "{kept} kept");
    }
}
