//! A set of VRPs in a tree of prefixes.
ghost use Rattle.std.specs.Prelude.{◌≡◌, ◌≤◌, ◌+◌, length, IfOk};
ghost use Rattle.std.specs.List.{filter};
ghost use Rattle.addr.specs.OriginValidation.{validation_state};
ghost use Rattle.payload.specs.SearchDepths.{search_depths};
ghost use Rattle.payload.specs.ValidityState.{state_of};
ghost use Rattle.payload.specs.VrpSet as set;
ghost use Rattle.payload.specs.steps.Trie.{whole};

mod among;
mod contains;
mod insert;
mod node;
mod remove;
mod skipped;
mod validity;
mod visit;

use crate::trie::node::Node;
use crate::{PayloadIndex, Sink, Stop, Validity, VrpTest};
use addr::{Family, Prefix, Route, Vrp};
use std::alloc::{AllocError, Global};
use std::marker::Model;

/// A set of VRPs in a tree for each family, which branches by the bits of the prefixes, seen as
/// the set.
#[derive(Drop)]
pub struct Trie {
    alloc: Global,
    four: Node,
    six: Node,
}

impl Model for Trie {
    ghost use Rattle.payload.specs.VrpSet as set;
    ghost use Rattle.payload.specs.steps.Tree.{IsPruned, tree};
    ghost use Rattle.payload.specs.steps.Trie.{trie_vrps};

    ghost Value = { set.VrpSet };

    ghost coded = { set.coded_set };

    ghost view = { λ a. set.from_list (trie_vrps (tree a.four) (tree a.six)) };

    ghost invariant = { λ a. IsPruned 32 0 (tree a.four) × IsPruned 128 0 (tree a.six) };
}

impl Trie {
    /// The empty set. It allocates nothing.
    pub fn new(alloc: Global) -> Trie
        ensures { result ≡ set.empty }
    {
        Trie {
            alloc,
            four: Node::new(alloc),
            six: Node::new(alloc),
        }
    }

    /// The set of these VRPs, which may be in any order and repeat.
    pub fn of(alloc: Global, vrps: &[Vrp]) -> Result<Trie, AllocError>
        ensures { IfOk result (λ trie. trie ≡ set.from_list vrps.now) }
    {
        let mut trie = Trie::new(alloc);
        for vrp in vrps {
            trie.insert(*vrp)?;
        }
        Ok(trie)
    }

    /// Like `validity`, with the number of lengths at which the set has something to look at, up to
    /// the first VRP that matches: the root's always, a node's, and those that a node skips.
    pub fn validity_counted(&self, route: &Route) -> (Validity, u32)
        ensures state { state_of result.0 ≡ validation_state (set.items self.now) route.now }
        ensures count { result.1 ≡ length (search_depths (set.items self.now) route.now) }
        ensures most { result.1 ≤ route.now.prefix.length + 1 }
    {
        match route.prefix.family {
            Family::V4 => self.four.validity(route, 0, Validity::NotFound, 0),
            Family::V6 => self.six.validity(route, 0, Validity::NotFound, 0),
        }
    }

    /// The state of the route over those VRPs of the set that pass the test. Only VRPs that may
    /// change the state are tested.
    pub fn validity_among<T: VrpTest>(&self, route: &Route, test: &T) -> Validity
        ensures { state_of result ≡ validation_state
            (filter (T.passes test.now) (set.items self.now)) route.now }
    {
        let place = whole(route.prefix.family);
        let above = Validity::NotFound;
        match route.prefix.family {
            Family::V4 => self.four.validity_among(&place, route, test, above),
            Family::V6 => self.six.validity_among(&place, route, test, above),
        }
    }
}

impl PayloadIndex for Trie {
    ghost vrps = { λ trie. trie };

    fn insert(&mut self, vrp: Vrp) -> Result<bool, AllocError> {
        match vrp.prefix.family {
            Family::V4 => self.four.insert(self.alloc, &vrp, 0),
            Family::V6 => self.six.insert(self.alloc, &vrp, 0),
        }
    }

    fn remove(&mut self, vrp: &Vrp) -> bool {
        match vrp.prefix.family {
            Family::V4 => self.four.remove(vrp, 0),
            Family::V6 => self.six.remove(vrp, 0),
        }
    }

    fn contains(&self, vrp: &Vrp) -> bool {
        match vrp.prefix.family {
            Family::V4 => self.four.contains(vrp, 0),
            Family::V6 => self.six.contains(vrp, 0),
        }
    }

    fn validity(&self, route: &Route) -> Validity {
        self.validity_counted(route).0
    }

    #[tactic(auto, using(crate::proofs::Sets::items_rise))]
    fn visit<S: Sink>(&self, sink: &mut S) -> Result<(), Stop> {
        self.four.visit(&whole(Family::V4), sink)?;
        self.six.visit(&whole(Family::V6), sink)
    }
}

/// The prefix of all addresses of the family.
fn whole(family: Family) -> Prefix
    ensures { result ≡ whole family }
{
    Prefix {
        family,
        first: 0,
        length: 0,
    }
}
