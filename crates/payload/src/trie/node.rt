//! The nodes of a trie.
use crate::originator::Originator;
use crate::trie::skipped::Skipped;
use smallvec::SmallVec;
use std::alloc::Global;
use std::marker::Model;

/// A node of a trie: the bits from the branch that leads to it up to its prefix, and what is at its
/// prefix and below it.
///
/// It is seen as the tree that has a node for each of these bits too.
#[cycle(node)]
#[derive(Drop)]
pub(crate) struct Node {
    pub(crate) skipped: Skipped,
    pub(crate) branch: Branch,
}

/// The originators of a prefix, and the nodes of longer prefixes by their next bit.
///
/// It does not keep its prefix, which is known from the way down to it. Most prefixes have one
/// originator, which lies in the node itself.
#[cycle(node)]
#[derive(Drop)]
pub(crate) struct Branch {
    pub(crate) originators: SmallVec<Originator, 1>,
    pub(crate) zero: Option<Box<Node>>,
    pub(crate) one: Option<Box<Node>>,
}

impl Model for Node {
    ghost use Rattle.payload.specs.steps.Tree.{Top, coded_top, grown, tree, weight};

    ghost Value = { Top };

    ghost coded = { coded_top };

    ghost use Rattle.payload.specs.steps.Branch.{top_of};

    ghost view = { λ a. grown a.skipped (top_of a.branch) };

    ghost size = { λ top. weight (tree top) };

    ghost use Rattle.payload.specs.steps.Shrinks.{shrinks};

    ghost size_decreases = { λ a h. shrinks a };
}

impl Node {
    ghost use Rattle.std.specs.Prelude.{◌≡◌};
    ghost use Rattle.payload.specs.steps.Tree.{bare, is_bare, tree};

    /// A node with nothing at it or below it.
    pub(crate) fn new(alloc: Global) -> Node
        ensures { result ≡ bare }
    {
        Node {
            skipped: Skipped::none(),
            branch: Branch::new(alloc),
        }
    }

    /// Whether nothing is at it or below it.
    pub(crate) fn is_bare(&self) -> bool
        ensures { result ≡ is_bare (tree self.now) }
    {
        self.skipped.count() == 0 && self.branch.is_bare()
    }
}

impl Branch {
    ghost use Rattle.std.specs.Prelude.{◌≡◌};
    ghost use Rattle.payload.specs.steps.Branch.{top_of};
    ghost use Rattle.payload.specs.steps.Tree.{bare, is_bare, tree};

    /// A branch with nothing at it or below it.
    pub(crate) fn new(alloc: Global) -> Branch
        ensures { top_of result ≡ bare }
    {
        Branch {
            originators: SmallVec::new(alloc),
            zero: None,
            one: None,
        }
    }

    /// Whether nothing is at it or below it.
    pub(crate) fn is_bare(&self) -> bool
        ensures { result ≡ is_bare (tree (top_of self.now)) }
    {
        if !self.originators.is_empty() {
            return false;
        }
        self.zero.is_none() && self.one.is_none()
    }
}
