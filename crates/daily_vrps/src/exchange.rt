//! The states of routes after an exchange of authorizations, which is not made.
ghost use Rattle.std.specs.Prelude.{◌≡◌, ◌↔◌, map, Any, Contains, IfOk};
ghost use Rattle.std.specs.List.{zip};
ghost use Rattle.addr.specs.OriginValidation.{validation_state, HasState};
ghost use Rattle.addr.specs.declared.vrp.Vrp.{Vrp};
ghost use Rattle.payload.specs.ValidityState.{state_of};
ghost use Rattle.payload.specs.VrpSet as set;
ghost use Rattle.slurm.specs.Filter.{FilterMatches};
ghost use Rattle.daily_vrps.specs.Changes.{AreExchanged};
ghost use Rattle.daily_vrps.specs.Giving.{AreGivingOn};
ghost use Rattle.daily_vrps.specs.States.{states_after, states_now, HaveStates};
ghost use Rattle.daily_vrps.specs.steps.Exchanging.{is_left, over_both, IsAfter};

use crate::exceptions::keep_unfiltered;
use crate::giving::given_on;
use crate::{DailyVrps, judge};
use addr::{Route, Vrp};
use payload::{ListIndex, PayloadIndex, Validity, VrpTest};
use registry::Auth;
use std::alloc::{AllocError, Global};

/// The states of the routes over what is kept, and those after the ended authorizations gave way to
/// the begun ones.
///
/// What is kept is neither changed nor copied: of it only VRPs that cover a route are visited.
pub fn judge_twice(
    alloc: Global,
    kept: &DailyVrps,
    ended: &[Auth],
    begun: &[Auth],
    routes: &[Route],
) -> Result<Vec<(Validity, Validity)>, AllocError>
    ensures now { IfOk result (λ states. map state_of (states_now states.items)
        ≡ map (λ r. validation_state (set.items kept.now.vrps) r) routes.now) }
    ensures after { IfOk result (λ states. HaveStates
        (AreExchanged kept.now ended.now begun.now) routes.now (states_after states.items)) }
{
    let now = judge(alloc, kept.vrps(), routes)?;
    let exchange = Exchange::of(alloc, kept, ended, begun)?;
    let after = exchange.judge(alloc, kept, routes)?;
    pair(alloc, &now, &after)
}

/// The states, each with the other of its place, as far as both go.
fn pair(
    alloc: Global,
    ones: &[Validity],
    others: &[Validity],
) -> Result<Vec<(Validity, Validity)>, AllocError>
    ensures { IfOk result (λ pairs. pairs.items ≡ zip ones.now others.now) }
{
    ones.iter()
        .copied()
        .zip(others.iter().copied())
        .collect(alloc)
}

/// What an exchange takes out of a day that is kept, unless it is asserted, and what it puts in.
#[derive(Drop)]
struct Exchange {
    ended: ListIndex,
    begun: ListIndex,
}

impl Exchange {
    /// What the begun authorizations give on the day that no filter matches, and what the ended
    /// ones give and these do not. So what ends and begins again is tested for no route.
    fn of(
        alloc: Global,
        kept: &DailyVrps,
        ended: &[Auth],
        begun: &[Auth],
    ) -> Result<Exchange, AllocError>
        ensures ended { IfOk result (λ exchange. (v : Vrp)
            → Contains (set.items exchange.ended) v ↔ (AreGivingOn ended.now kept.now.day v
            × ¬ Contains (set.items exchange.begun) v)) }
        ensures begun { IfOk result (λ exchange. (v : Vrp)
            → Contains (set.items exchange.begun) v ↔ (AreGivingOn begun.now kept.now.day v
            × ¬ Any (λ filter. FilterMatches filter v) kept.now.filters)) }
    {
        let mut begun = given_on(alloc, begun, kept.day())?;
        keep_unfiltered(kept.filters(), &mut begun);
        let begun = ListIndex::from(begun);
        let mut ended = given_on(alloc, ended, kept.day())?;
        remove_all(&begun, &mut ended);
        let ended = ListIndex::from(ended);
        Ok(Exchange { ended, begun })
    }

    /// The state of each route after the exchange.
    fn judge(
        &self,
        alloc: Global,
        kept: &DailyVrps,
        routes: &[Route],
    ) -> Result<Vec<Validity>, AllocError>
        ensures { IfOk result (λ states. HaveStates
            (IsAfter kept.now self.now.ended self.now.begun) routes.now states.items) }
    {
        let mut states = Vec::with_capacity(alloc, routes.len())?;
        for route in routes {
            states.push(self.validity(kept, route))?;
        }
        Ok(states)
    }

    /// The state of the route after the exchange.
    fn validity(&self, kept: &DailyVrps, route: &Route) -> Validity
        ensures { HasState (IsAfter kept.now self.now.ended self.now.begun) route.now
            (state_of result) }
    {
        let left = Left {
            kept,
            ended: &self.ended,
        };
        over_both(
            kept.vrps().validity_among(route, &left),
            self.begun.validity(route),
        )
    }
}

/// Removes the VRPs that the index has.
fn remove_all(index: &ListIndex, vrps: &mut Vec<Vrp>)
    ensures { (v : Vrp) → Contains vrps.new.items v
        ↔ (Contains vrps.old.items v × ¬ Contains (set.items index.now) v) }
{
    vrps.retain(|vrp| !index.contains(vrp));
}

/// Passes the kept VRPs that are left once these end.
#[derive(Drop)]
struct Left<'a> {
    kept: &'a DailyVrps,
    ended: &'a ListIndex,
}

impl VrpTest for Left<'_> {
    ghost passes = { λ left vrp. is_left left.ended.now left.kept.now.asserted vrp };

    fn passes(&self, vrp: &Vrp) -> bool {
        !self.ended.contains(vrp) || self.kept.is_asserted(vrp)
    }
}

/// The state over the VRPs of two sets, by the states over the one and over the other.
fn over_both(one: Validity, other: Validity) -> Validity
    ensures { state_of result ≡ over_both (state_of one) (state_of other) }
{
    match (one, other) {
        (Validity::Valid, _) | (_, Validity::Valid) => Validity::Valid,
        (Validity::Invalid, _) | (_, Validity::Invalid) => Validity::Invalid,
        (Validity::NotFound, Validity::NotFound) => Validity::NotFound,
    }
}
