//! Removing a VRP from a trie.
ghost use Rattle.std.specs.Prelude.{◌≡◌, ◌≤◌, false};
ghost use Rattle.addr.specs.Family.{width};
ghost use Rattle.payload.specs.steps.Branch.{top_of};
ghost use Rattle.payload.specs.steps.Tree.{IsPruned, IsRemoved, has, is_bare, subtree, tree};
ghost use Rattle.payload.specs.steps.Trie.{bits_from, originator_of};

use crate::originator::Originator;
use crate::trie::node::{Branch, Node};
use crate::trie::skipped::Skipped;
use addr::Vrp;

impl Node {
    /// Removes the VRP at the end of its prefix's bits from `at` on; returns whether it was there.
    #[cycle(remove)]
    pub(crate) fn remove(&mut self, vrp: &Vrp, at: u8) -> bool
        requires within { at ≤ vrp.now.prefix.length }
        requires pruned { IsPruned (width vrp.now.prefix.family) at (tree self.old) }
        ensures found { result
            ≡ has (bits_from vrp.now.prefix at) (originator_of vrp.now) (tree self.old) }
        ensures rest { IsRemoved (bits_from vrp.now.prefix at) (originator_of vrp.now)
            (tree self.old) (tree self.new) }
        ensures pruned { IsPruned (width vrp.now.prefix.family) at (tree self.new) }
    {
        let shared = self.skipped.shared(&vrp.prefix, at);
        if shared < self.skipped.count() {
            return false;
        }
        let was_there = self.branch.remove(vrp, at + shared);
        if self.branch.is_bare() {
            self.skipped = Skipped::none();
        }
        was_there
    }
}

impl Branch {
    /// As `Node::remove`.
    #[cycle(remove)]
    fn remove(&mut self, vrp: &Vrp, at: u8) -> bool
        requires within { at ≤ vrp.now.prefix.length }
        requires pruned { IsPruned (width vrp.now.prefix.family) at (tree (top_of self.old)) }
        ensures found { result
            ≡ has (bits_from vrp.now.prefix at) (originator_of vrp.now) (tree (top_of self.old)) }
        ensures rest { IsRemoved (bits_from vrp.now.prefix at) (originator_of vrp.now)
            (tree (top_of self.old)) (tree (top_of self.new)) }
        ensures pruned { IsPruned (width vrp.now.prefix.family) at (tree (top_of self.new)) }
    {
        if at == vrp.prefix.length {
            sorted_items::remove(&mut self.originators, &Originator::of(vrp))
        } else if vrp.prefix.bit(at) {
            remove_below(&mut self.one, vrp, at + 1)
        } else {
            remove_below(&mut self.zero, vrp, at + 1)
        }
    }
}

/// As `Node::remove`. Drops the child if nothing is left of it.
#[cycle(remove)]
fn remove_below(child: &mut Option<Box<Node>>, vrp: &Vrp, at: u8) -> bool
    requires within { at ≤ vrp.now.prefix.length }
    requires pruned { IsPruned (width vrp.now.prefix.family) at (subtree child.old) }
    ensures found { result
        ≡ has (bits_from vrp.now.prefix at) (originator_of vrp.now) (subtree child.old) }
    ensures rest { IsRemoved (bits_from vrp.now.prefix at) (originator_of vrp.now)
        (subtree child.old) (subtree child.new) }
    ensures pruned { IsPruned (width vrp.now.prefix.family) at (subtree child.new) }
    ensures full { is_bare (subtree child.new) ≡ false }
{
    let Some(node) = child else {
        return false;
    };
    let was_there = node.remove(vrp, at);
    if node.is_bare() {
        *child = None;
    }
    was_there
}
