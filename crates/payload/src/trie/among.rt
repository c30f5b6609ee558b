//! Judging a route on those VRPs of a trie that pass a test.
ghost use Rattle.std.specs.Prelude.{◌≡◌, ◌+◌, true};
ghost use Rattle.addr.specs.Address.{contains};
ghost use Rattle.addr.specs.Family.{width};
ghost use Rattle.payload.specs.ValidityState.{state_of};
ghost use Rattle.payload.specs.steps.Branch.{top_of};
ghost use Rattle.payload.specs.steps.Tree.{AreOriginators, IsPruned, subtree, tree};
ghost use Rattle.payload.specs.steps.Trie.{half_vrps, joined_state, node_vrps, state_among, vrps_at};

use crate::originator::Originator;
use crate::trie::node::{Branch, Node};
use crate::trie::skipped::Skipped;
use crate::trie::visit::past;
use crate::{Validity, VrpTest};
use addr::{Prefix, Route, Vrp};

impl Node {
    /// The state of the route, where it is `above` by the nodes above, and by those VRPs at the
    /// node and below it that pass. The skipped bits lead from `place` to the node's prefix.
    #[cycle(among)]
    pub(crate) fn validity_among<T: VrpTest>(
        &self,
        place: &Prefix,
        route: &Route,
        test: &T,
        above: Validity,
    ) -> Validity
        requires { IsPruned (width place.now.family) place.now.length (tree self.now) }
        ensures { state_of result ≡ state_among (state_of above) (T.passes test.now) route.now
            (vrps_at place.now (tree self.now)) }
    {
        let place = past(place, &self.skipped);
        if place.contains(&route.prefix) {
            self.branch.validity_among(&place, route, test, above)
        } else {
            above
        }
    }
}

impl Branch {
    /// As `Node::validity_among`, at `place`, which contains the route's prefix.
    #[cycle(among)]
    fn validity_among<T: VrpTest>(
        &self,
        place: &Prefix,
        route: &Route,
        test: &T,
        above: Validity,
    ) -> Validity
        requires pruned { IsPruned (width place.now.family) place.now.length
            (tree (top_of self.now)) }
        requires inside { contains place.now route.now.prefix ≡ true }
        ensures { state_of result ≡ state_among (state_of above) (T.passes test.now) route.now
            (vrps_at place.now (tree (top_of self.now))) }
    {
        let state = with_originators(above, self.originators.as_slice(), place, route, test);
        if matches!(state, Validity::Valid) {
            return state;
        }
        if place.length == route.prefix.length {
            state
        } else if route.prefix.bit(place.length) {
            validity_among_below(&self.one, place, true, route, test, state)
        } else {
            validity_among_below(&self.zero, place, false, route, test, state)
        }
    }
}

/// As `Node::validity_among`, of the half of `place` whose next bit is this one.
#[cycle(among)]
fn validity_among_below<T: VrpTest>(
    child: &Option<Box<Node>>,
    place: &Prefix,
    bit: bool,
    route: &Route,
    test: &T,
    above: Validity,
) -> Validity
    requires { IsPruned (width place.now.family) (place.now.length + 1) (subtree child.now) }
    ensures { state_of result ≡ state_among (state_of above) (T.passes test.now) route.now
        (half_vrps bit place.now (subtree child.now)) }
{
    match child {
        Some(node) => node.validity_among(&past(place, &Skipped::one(bit)), route, test, above),
        None => above,
    }
}

/// The state by `above` and by these originators' VRPs that pass, up to the first that matches.
/// Their prefix, `place`, contains the route's. Only a VRP that may change the state is tested.
fn with_originators<T: VrpTest>(
    above: Validity,
    originators: &[Originator],
    place: &Prefix,
    route: &Route,
    test: &T,
) -> Validity
    requires fit { AreOriginators (width place.now.family) place.now.length originators.now }
    requires inside { contains place.now route.now.prefix ≡ true }
    ensures { state_of result ≡ state_among (state_of above) (T.passes test.now) route.now
        (node_vrps place.now originators.now) }
{
    let mut state = above;
    for originator in originators {
        if matches!(state, Validity::Valid) {
            return state;
        }
        let next = with_covering(state, originator.authorizes(route));
        if next == state {
            continue;
        }
        let vrp = Vrp {
            prefix: *place,
            max: originator.max,
            asn: originator.asn,
        };
        if test.passes(&vrp) {
            state = next;
        }
    }
    state
}

/// The state with one more VRP that covers the route.
fn with_covering(above: Validity, is_match: bool) -> Validity
    ensures { state_of result ≡ joined_state (state_of above) is_match true }
{
    match (above, is_match) {
        (Validity::Valid, _) | (_, true) => Validity::Valid,
        (Validity::Invalid | Validity::NotFound, false) => Validity::Invalid,
    }
}
