//! A set of VRPs as a sorted vector.
ghost use Rattle.std.specs.Prelude.{◌≡◌};
ghost use Rattle.payload.specs.VrpSet as set;

use crate::shortest::Shortest;
use crate::{PayloadIndex, Sink, Stop, Validity, search};
use addr::{Route, Vrp};
use sorted_items::sort_and_dedup;
use std::alloc::{AllocError, Global};
use std::marker::Model;

/// A set of VRPs in a sorted vector, seen as the set.
#[derive(Debug, Drop)]
pub struct ListIndex {
    vrps: Vec<Vrp>,
    shortest: Shortest,
}

impl Model for ListIndex {
    ghost use Rattle.payload.specs.VrpSet as set;
    ghost use Rattle.payload.specs.Rising.{AreRising};
    ghost use Rattle.payload.specs.steps.Shortest.{AreNoShorter};

    ghost Value = { set.VrpSet };

    ghost coded = { set.coded_set };

    ghost view = { λ a. set.from_list a.vrps.items };

    ghost invariant = { λ a. AreRising a.vrps.items × AreNoShorter a.shortest a.vrps.items };
}

impl ListIndex {
    /// The empty set.
    pub fn new(alloc: Global) -> ListIndex
        ensures { result ≡ set.empty }
    {
        ListIndex {
            vrps: Vec::new(alloc),
            shortest: Shortest::new(),
        }
    }
}

impl From<Vec<Vrp>> for ListIndex {
    ghost from_gives = { λ vrps index. index ≡ set.from_list vrps.items };

    /// The set of these VRPs, which may be in any order and repeat. Allocates nothing.
    fn from(mut vrps: Vec<Vrp>) -> ListIndex {
        sort_and_dedup(&mut vrps);
        let shortest = Shortest::of(&vrps);
        ListIndex { vrps, shortest }
    }
}

impl PayloadIndex for ListIndex {
    ghost vrps = { λ index. index };

    fn insert(&mut self, vrp: Vrp) -> Result<bool, AllocError> {
        let is_new = sorted_items::insert(&mut self.vrps, vrp)?;
        self.shortest = self.shortest.with(&vrp.prefix);
        Ok(is_new)
    }

    fn remove(&mut self, vrp: &Vrp) -> bool {
        sorted_items::remove(&mut self.vrps, vrp)
    }

    fn contains(&self, vrp: &Vrp) -> bool {
        sorted_items::contains(&self.vrps, vrp)
    }

    fn validity(&self, route: &Route) -> Validity {
        search::validity(&self.vrps, self.shortest, route)
    }

    #[tactic(auto, using(crate::proofs::Sets::items_rise))]
    fn visit<S: Sink>(&self, sink: &mut S) -> Result<(), Stop> {
        for vrp in &self.vrps {
            sink.take(vrp)?;
        }
        Ok(())
    }
}
