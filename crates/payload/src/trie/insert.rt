//! Inserting a VRP into a trie.
ghost use Rattle.std.specs.Prelude.{◌≡◌, ◌≤◌, ◌<◌, not, false, IfOk, OnOk, OnErr, length, take};
ghost use Rattle.addr.specs.Family.{width};
ghost use Rattle.payload.specs.steps.Branch.{top_of};
ghost use Rattle.payload.specs.steps.Tree.{IsInserted, IsPruned, chain, grown, has, is_bare, subtree, tree};
ghost use Rattle.payload.specs.steps.Trie.{bits_from, originator_of};

use crate::originator::Originator;
use crate::trie::node::{Branch, Node};
use crate::trie::skipped::Skipped;
use addr::Vrp;
use smallvec::SmallVec;
use std::alloc::{AllocError, Global};
use std::mem;

impl Node {
    /// Inserts the VRP at the end of its prefix's bits from `at` on; returns whether it was new.
    #[cycle(insert)]
    pub(crate) fn insert(&mut self, alloc: Global, vrp: &Vrp, at: u8) -> Result<bool, AllocError>
        requires within { at ≤ vrp.now.prefix.length }
        requires pruned { IsPruned (width vrp.now.prefix.family) at (tree self.old) }
        ensures new { IfOk result (λ is_new. is_new
            ≡ not (has (bits_from vrp.now.prefix at) (originator_of vrp.now) (tree self.old))) }
        ensures ok { OnOk result (IsInserted (bits_from vrp.now.prefix at) (originator_of vrp.now)
            (tree self.old) (tree self.new)) }
        ensures err { OnErr result (tree self.new ≡ tree self.old) }
        ensures absent { OnErr result (has (bits_from vrp.now.prefix at) (originator_of vrp.now)
            (tree self.old) ≡ false) }
        ensures pruned { IsPruned (width vrp.now.prefix.family) at (tree self.new) }
    {
        let shared = self.skipped.shared(&vrp.prefix, at);
        cut(&mut self.skipped, &mut self.branch, alloc, shared)?;
        self.branch.insert(alloc, vrp, at + shared)
    }
}

impl Branch {
    /// As `Node::insert`.
    #[cycle(insert)]
    fn insert(&mut self, alloc: Global, vrp: &Vrp, at: u8) -> Result<bool, AllocError>
        requires within { at ≤ vrp.now.prefix.length }
        requires pruned { IsPruned (width vrp.now.prefix.family) at (tree (top_of self.old)) }
        ensures new { IfOk result (λ is_new. is_new
            ≡ not (has (bits_from vrp.now.prefix at) (originator_of vrp.now)
            (tree (top_of self.old)))) }
        ensures ok { OnOk result (IsInserted (bits_from vrp.now.prefix at) (originator_of vrp.now)
            (tree (top_of self.old)) (tree (top_of self.new))) }
        ensures err { OnErr result (tree (top_of self.new) ≡ tree (top_of self.old)) }
        ensures absent { OnErr result (has (bits_from vrp.now.prefix at) (originator_of vrp.now)
            (tree (top_of self.old)) ≡ false) }
        ensures pruned { IsPruned (width vrp.now.prefix.family) at (tree (top_of self.new)) }
    {
        if at == vrp.prefix.length {
            sorted_items::insert(&mut self.originators, Originator::of(vrp))
        } else if vrp.prefix.bit(at) {
            insert_below(&mut self.one, alloc, vrp, at + 1)
        } else {
            insert_below(&mut self.zero, alloc, vrp, at + 1)
        }
    }
}

/// As `Node::insert`, at a child that may be missing. A new node is made before it is put in its
/// place.
#[cycle(insert)]
fn insert_below(
    child: &mut Option<Box<Node>>,
    alloc: Global,
    vrp: &Vrp,
    at: u8,
) -> Result<bool, AllocError>
    requires below_root { 0 < at }
    requires within { at ≤ vrp.now.prefix.length }
    requires pruned { IsPruned (width vrp.now.prefix.family) at (subtree child.old) }
    requires full { is_bare (subtree child.old) ≡ false }
    ensures new { IfOk result (λ is_new. is_new
        ≡ not (has (bits_from vrp.now.prefix at) (originator_of vrp.now) (subtree child.old))) }
    ensures ok { OnOk result (IsInserted (bits_from vrp.now.prefix at) (originator_of vrp.now)
        (subtree child.old) (subtree child.new)) }
    ensures err { OnErr result (subtree child.new ≡ subtree child.old) }
    ensures absent { OnErr result (has (bits_from vrp.now.prefix at) (originator_of vrp.now)
        (subtree child.old) ≡ false) }
    ensures pruned { IsPruned (width vrp.now.prefix.family) at (subtree child.new) }
    ensures full { is_bare (subtree child.new) ≡ false }
{
    match child {
        Some(node) => node.insert(alloc, vrp, at),
        None => {
            *child = Some(Box::new(alloc, lone(alloc, vrp, at))?);
            Ok(true)
        }
    }
}

/// Leaves only the first `n` of a node's skipped bits: what the rest leads to goes into a node of
/// its own, which is made before anything changes.
fn cut(skipped: &mut Skipped, branch: &mut Branch, alloc: Global, n: u8) -> Result<(), AllocError>
    requires { n ≤ length skipped.old }
    ensures first { OnOk result (skipped.new ≡ take n skipped.old) }
    ensures more { OnErr result (n < length skipped.old) }
    ensures same { grown skipped.new (top_of branch.new) ≡ grown skipped.old (top_of branch.old) }
{
    if n == skipped.count() {
        return Ok(());
    }
    let mut lower = Box::new(alloc, Node::new(alloc))?;
    let bit = skipped.bit(n);
    *lower = Node {
        skipped: skipped.after(n + 1),
        branch: mem::replace(branch, Branch::new(alloc)),
    };
    *skipped = skipped.first(n);
    if bit {
        branch.one = Some(lower);
    } else {
        branch.zero = Some(lower);
    }
    Ok(())
}

/// A node that skips the bits of the VRP's prefix from `at` on, with the VRP and no other.
fn lone(alloc: Global, vrp: &Vrp, at: u8) -> Node
    requires below_root { 0 < at }
    requires within { at ≤ vrp.now.prefix.length }
    ensures { tree result ≡ chain (bits_from vrp.now.prefix at) (originator_of vrp.now) }
{
    Node {
        skipped: Skipped::of(&vrp.prefix, at),
        branch: Branch {
            originators: SmallVec::from_buf(alloc, [Originator::of(vrp)]),
            zero: None,
            one: None,
        },
    }
}
