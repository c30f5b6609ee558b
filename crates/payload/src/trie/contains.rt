//! Whether a trie has a VRP.
ghost use Rattle.std.specs.Prelude.{◌≡◌, ◌≤◌};
ghost use Rattle.addr.specs.Family.{width};
ghost use Rattle.payload.specs.steps.Branch.{top_of};
ghost use Rattle.payload.specs.steps.Tree.{IsPruned, has, subtree, tree};
ghost use Rattle.payload.specs.steps.Trie.{bits_from, originator_of};

use crate::originator::Originator;
use crate::trie::node::{Branch, Node};
use addr::Vrp;

impl Node {
    /// Whether the VRP is at the end of its prefix's bits from `at` on.
    #[cycle(contains)]
    pub(crate) fn contains(&self, vrp: &Vrp, at: u8) -> bool
        requires within { at ≤ vrp.now.prefix.length }
        requires pruned { IsPruned (width vrp.now.prefix.family) at (tree self.now) }
        ensures { result
            ≡ has (bits_from vrp.now.prefix at) (originator_of vrp.now) (tree self.now) }
    {
        let shared = self.skipped.shared(&vrp.prefix, at);
        shared == self.skipped.count() && self.branch.contains(vrp, at + shared)
    }
}

impl Branch {
    /// As `Node::contains`.
    #[cycle(contains)]
    fn contains(&self, vrp: &Vrp, at: u8) -> bool
        requires within { at ≤ vrp.now.prefix.length }
        requires pruned { IsPruned (width vrp.now.prefix.family) at (tree (top_of self.now)) }
        ensures { result
            ≡ has (bits_from vrp.now.prefix at) (originator_of vrp.now) (tree (top_of self.now)) }
    {
        if at == vrp.prefix.length {
            sorted_items::contains(&self.originators, &Originator::of(vrp))
        } else if vrp.prefix.bit(at) {
            contains_below(&self.one, vrp, at + 1)
        } else {
            contains_below(&self.zero, vrp, at + 1)
        }
    }
}

/// As `Node::contains`.
#[cycle(contains)]
fn contains_below(child: &Option<Box<Node>>, vrp: &Vrp, at: u8) -> bool
    requires within { at ≤ vrp.now.prefix.length }
    requires pruned { IsPruned (width vrp.now.prefix.family) at (subtree child.now) }
    ensures { result
        ≡ has (bits_from vrp.now.prefix at) (originator_of vrp.now) (subtree child.now) }
{
    match child {
        Some(node) => node.contains(vrp, at),
        None => false,
    }
}
