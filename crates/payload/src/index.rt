//! Sets of VRPs on which routes are judged.
ghost use Rattle.std.specs.Prelude.{◌≡◌, true, false, not, IfOk, OnOk, OnErr};
ghost use Rattle.addr.specs.OriginValidation.{validation_state};
ghost use Rattle.payload.specs.Rising.{AreRising};
ghost use Rattle.payload.specs.ValidityState.{state_of};
ghost use Rattle.payload.specs.Visit.{TookBeginning};
ghost use Rattle.payload.specs.VrpSet as set;

use crate::{Sink, Stop, Validity};
use addr::{Route, Vrp};
use std::alloc::AllocError;

/// A finite set of VRPs on which routes are judged, however it is kept.
pub trait PayloadIndex {
    /// The set.
    ghost vrps: { Self → set.VrpSet };

    /// Inserts the VRP; returns whether it was new.
    fn insert(&mut self, vrp: Vrp) -> Result<bool, AllocError>
        ensures new { IfOk result (λ is_new. is_new ≡ not (set.has_vrp (vrps self.old) vrp)) }
        ensures ok { OnOk result (vrps self.new ≡ set.insert (vrps self.old) vrp) }
        ensures err { OnErr result (vrps self.new ≡ vrps self.old) }
        ensures absent { OnErr result (set.has_vrp (vrps self.old) vrp ≡ false) };

    /// Removes the VRP; returns whether it was there.
    fn remove(&mut self, vrp: &Vrp) -> bool
        ensures found { result ≡ set.has_vrp (vrps self.old) vrp.now }
        ensures rest { vrps self.new ≡ set.remove (vrps self.old) vrp.now };

    /// Whether the set has the VRP.
    fn contains(&self, vrp: &Vrp) -> bool
        ensures { result ≡ set.has_vrp (vrps self.now) vrp.now };

    /// The state of the route over the whole set: any VRP that covers it may match it.
    fn validity(&self, route: &Route) -> Validity
        ensures { state_of result ≡ validation_state (set.items (vrps self.now)) route.now };

    /// Lets the sink take the VRPs, rising, each once, until it stops.
    fn visit<S: Sink>(&self, sink: &mut S) -> Result<(), Stop>
        ensures rising { AreRising (set.items (vrps self.now)) }
        ensures all { OnOk result (S.has_stopped sink.old ≡ false
            → S.took sink.old (set.items (vrps self.now)) sink.new) }
        ensures goes_on { OnOk result (S.has_stopped sink.old ≡ false
            → S.has_stopped sink.new ≡ false) }

        // The sink's last `take` returned the `Stop`.
        ensures beginning { OnErr result (S.has_stopped sink.old ≡ false
            → TookBeginning S.took (set.items (vrps self.now)) sink.old sink.new) }
        ensures stopped { OnErr result (S.has_stopped sink.new ≡ true) };
}
