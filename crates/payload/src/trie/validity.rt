//! Judging a route on a trie.
ghost use Rattle.std.specs.Prelude.{◌≡◌, ◌+◌, ◌≤◌, true};
ghost use Rattle.std.specs.List.{list_any};
ghost use Rattle.payload.specs.ValidityState.{state_of};
ghost use Rattle.payload.specs.steps.Branch.{top_of};
ghost use Rattle.payload.specs.steps.Tree.{nodes_on_path, subtree, tree};
ghost use Rattle.payload.specs.steps.Trie.{authorizes, bits_from, state_below, walked_state};

use crate::Validity;
use crate::originator::Originator;
use crate::trie::node::{Branch, Node};
use addr::Route;

impl Node {
    /// The state of the route by this node and those below it, and the count with the lengths at
    /// which the search has something to look at: each bit that is skipped is one. `above` is the
    /// state by the nodes above it, whose VRPs do not match.
    #[cycle(validity)]
    pub(crate) fn validity(
        &self,
        route: &Route,
        at: u8,
        above: Validity,
        count: u32,
    ) -> (Validity, u32)
        requires within { at ≤ route.now.prefix.length }
        requires so_far { count ≤ at }
        ensures state { state_of result.0 ≡ walked_state route.now (state_of above)
            (bits_from route.now.prefix at) (tree self.now) }
        ensures count { result.1 ≡ count + nodes_on_path (authorizes route.now)
            (bits_from route.now.prefix at) (tree self.now) }
    {
        let shared = self.skipped.shared(&route.prefix, at);
        let count = count + u32::from(shared);
        if shared < self.skipped.count() {
            return (above, count + 1);
        }
        self.branch.validity(route, at + shared, above, count)
    }
}

impl Branch {
    /// As `Node::validity`. The search stops at the first VRP that matches.
    #[cycle(validity)]
    fn validity(&self, route: &Route, at: u8, above: Validity, count: u32) -> (Validity, u32)
        requires within { at ≤ route.now.prefix.length }
        requires so_far { count ≤ at }
        ensures state { state_of result.0 ≡ walked_state route.now (state_of above)
            (bits_from route.now.prefix at) (tree (top_of self.now)) }
        ensures count { result.1 ≡ count + nodes_on_path (authorizes route.now)
            (bits_from route.now.prefix at) (tree (top_of self.now)) }
    {
        let count = count + 1;
        if some_authorizes(&self.originators, route) {
            return (Validity::Valid, count);
        }
        let state = unmatched(&self.originators, above);
        if at == route.prefix.length {
            (state, count)
        } else if route.prefix.bit(at) {
            validity_below(&self.one, route, at + 1, state, count)
        } else {
            validity_below(&self.zero, route, at + 1, state, count)
        }
    }
}

/// As `Node::validity`. If there is no child, no length is counted.
#[cycle(validity)]
fn validity_below(
    child: &Option<Box<Node>>,
    route: &Route,
    at: u8,
    above: Validity,
    count: u32,
) -> (Validity, u32)
    requires within { at ≤ route.now.prefix.length }
    requires so_far { count ≤ at }
    ensures state { state_of result.0 ≡ walked_state route.now (state_of above)
        (bits_from route.now.prefix at) (subtree child.now) }
    ensures count { result.1 ≡ count + nodes_on_path (authorizes route.now)
        (bits_from route.now.prefix at) (subtree child.now) }
{
    match child {
        Some(node) => node.validity(route, at, above, count),
        None => (above, count),
    }
}

/// Whether a VRP of one of these originators that covers the route matches it.
fn some_authorizes(originators: &[Originator], route: &Route) -> bool
    ensures { result ≡ list_any (authorizes route.now) originators.now }
{
    originators
        .iter()
        .any(|originator| originator.authorizes(route))
}

/// The state if none of these originators' VRPs, which cover the route, matches it.
fn unmatched(originators: &[Originator], above: Validity) -> Validity
    ensures { state_of result
        ≡ state_below (state_of above) (list_any (λ o. true) originators.now) }
{
    if originators.is_empty() {
        above
    } else {
        Validity::Invalid
    }
}
