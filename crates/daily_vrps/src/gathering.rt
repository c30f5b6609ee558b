//! What is read from an index: its VRPs, and the states of routes.
ghost use Rattle.std.specs.Prelude.{◌≡◌, map, IfOk};
ghost use Rattle.addr.specs.OriginValidation.{validation_state};
ghost use Rattle.payload.specs.Rising.{AreRising};
ghost use Rattle.payload.specs.ValidityState.{state_of};
ghost use Rattle.payload.specs.VrpSet as set;
ghost use Rattle.daily_vrps.specs.steps.Gathering.{gathered_none, gathered_then, HasGathered};

use addr::{Route, Vrp};
use payload::{PayloadIndex, Sink, Stop, Validity};
use std::alloc::{AllocError, Global};

/// VRPs gathered in a vector, until one finds no room.
#[derive(Drop)]
struct Gathering {
    vrps: Vec<Vrp>,
    has_failed: bool,
}

impl Sink for Gathering {
    ghost took = { λ a vrps b.
        HasGathered a.has_failed b.has_failed a.vrps.items vrps b.vrps.items };

    ghost has_stopped = { λ g. g.has_failed };

    fn take(&mut self, vrp: &Vrp) -> Result<(), Stop> {
        self.has_failed = self.vrps.push(*vrp).is_err();
        if self.has_failed {
            return Err(Stop);
        }
        Ok(())
    }

    ghost took_none = { λ g. gathered_none g.has_failed g.vrps.items };

    ghost took_then = { λ a b c. gathered_then a.has_failed b.has_failed c.has_failed
        a.vrps.items b.vrps.items c.vrps.items };
}

/// The VRPs of an index, rising, each once.
pub fn gather<I: PayloadIndex>(alloc: Global, index: &I) -> Result<Vec<Vrp>, AllocError>
    ensures items { IfOk result (λ vrps. vrps.items ≡ set.items (I.vrps index.now)) }
    ensures rising { IfOk result (λ vrps. AreRising vrps.items) }
{
    let mut gathering = Gathering {
        vrps: Vec::new(alloc),
        has_failed: false,
    };
    match index.visit(&mut gathering) {
        Ok(()) => Ok(gathering.vrps),
        Err(Stop) => Err(AllocError),
    }
}

/// The validation state of each route over the VRPs of an index.
pub fn judge<I: PayloadIndex>(
    alloc: Global,
    index: &I,
    routes: &[Route],
) -> Result<Vec<Validity>, AllocError>
    ensures { IfOk result (λ states. map state_of states.items
        ≡ map (λ r. validation_state (set.items (I.vrps index.now)) r) routes.now) }
{
    let mut states = Vec::with_capacity(alloc, routes.len())?;
    for route in routes {
        states.push(index.validity(route))?;
    }
    Ok(states)
}
