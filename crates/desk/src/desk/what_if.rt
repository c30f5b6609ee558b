//! What-if requests.
ghost use Rattle.std.specs.Prelude.{◌≡◌, false, option_copied, IfErr, IfOk, List, MatchResult};
ghost use Rattle.addr.specs.declared.route.Route.{Route};
ghost use Rattle.registry.specs.Rows.{auths_if_any};
ghost use Rattle.store.specs.StoreRows.{IsRead};
ghost use Rattle.desk.specs.Answer.{is_accepted, AnswersWhatIf};
ghost use Rattle.desk.specs.Desk.{EachHeld};
ghost use Rattle.desk.specs.DeskView.{HoldsRowsAndDay};
ghost use Rattle.desk.specs.steps.WhatIf.{AreStatesOver, WouldExchange};

use super::daily::{kept_if, kept_on};
use crate::Reply;
use addr::{Day, Name, Route};
use daily_vrps::{DailyVrps, judge_twice};
use payload::Validity;
use registry::{Auth, HolderRows, Proposed};
use sqlite::Alter;
use std::alloc::Global;
use store::{Part, Store, StoreFault};

/// The authorizations of the rows; none if there are no rows.
fn auths_of(rows: Option<&HolderRows>) -> &[Auth]
    ensures { result.now ≡ auths_if_any (option_copied rows.entry) }
{
    match rows {
        Some(rows) => &rows.auths,
        None => &[],
    }
}

/// The state of each route now, and as it would be after the changes of the caller at the holder.
pub(super) fn what_if<S: Alter>(
    store: &mut Store<S>,
    alloc: Global,
    kept: &Option<DailyVrps>,
    holder: &Name,
    day: Day,
    caller: &Name,
    changes: &[Proposed],
    routes: &[Route],
) -> Result<Reply, StoreFault>
    requires { HoldsRowsAndDay S.Store store.old kept.now }
    ensures read { IsRead S.Store store.old store.new }
    ensures answered { IfOk result (λ reply. EachHeld S.Store store.old store.new (λ history.
        AnswersWhatIf store.old.charter history day caller.now holder.now changes.now routes.now
        reply)) }
    ensures never_done { IfOk result (λ reply. is_accepted reply ≡ false) }
{
    let (before, after) = match suppose(store, alloc, holder, day, caller, changes) {
        Ok(supposed) => supposed,
        Err(refused) => return Ok(refused),
    };
    let ended = auths_of(before.as_ref());
    let begun = auths_of(after.as_ref());
    let states = states_now_and_after(store, alloc, kept, holder, day, ended, begun, routes)?;
    Ok(Reply::Report(states))
}

/// The part of the holder's rows that the changes are judged on, and what they would leave of it,
/// or the reply that refuses them. If there is no change, nothing is loaded.
///
/// The rest stays as it is: no change is of an authorization that the part leaves out, and other
/// holders keep their rows. No two authorizations give the same VRP, so to take out those of the
/// part takes nothing of the others'.
fn suppose<S: Alter>(
    store: &mut Store<S>,
    alloc: Global,
    holder: &Name,
    day: Day,
    caller: &Name,
    changes: &[Proposed],
) -> Result<(Option<HolderRows>, Option<HolderRows>), Reply>
    ensures read { IsRead S.Store store.old store.new }
    ensures found { EachHeld S.Store store.old store.new (λ history. MatchResult result
        (λ supposed. WouldExchange store.old.charter history day caller.now holder.now
        changes.now (auths_if_any supposed.0) (auths_if_any supposed.1))
        (λ reply. (routes : List Route) → AnswersWhatIf store.old.charter history day
        caller.now holder.now changes.now routes reply)) }
    ensures never_done { IfErr result (λ reply. is_accepted reply ≡ false) }
{
    registry_laws::histories::no_shared_vrp();
    registry_laws::histories::hypothetical_is_legal();
    registry_laws::isolation::hypothetical_keeps_others();
    store::laws::part_of_a_history();
    if changes.is_empty() {
        return Ok((None, None));
    }
    let Part { rows, left_out } = store.load_for_changes(alloc, holder, changes)?;
    let after = policy::suppose_on(rows.as_ref(), left_out, day, caller, changes)?;
    Ok((rows, Some(after)))
}

/// The states of the routes now, and with the begun authorizations in place of the ended ones. If
/// the day is not kept, its VRPs are read for this and dropped at the end. The holder is looked up
/// even if it is kept, so that a database that does not answer is noticed.
fn states_now_and_after<S: Alter>(
    store: &mut Store<S>,
    alloc: Global,
    kept: &Option<DailyVrps>,
    holder: &Name,
    day: Day,
    ended: &[Auth],
    begun: &[Auth],
    routes: &[Route],
) -> Result<Vec<(Validity, Validity)>, StoreFault>
    requires { HoldsRowsAndDay S.Store store.old kept.now }
    ensures read { IsRead S.Store store.old store.new }
    ensures states { IfOk result (λ states. EachHeld S.Store store.old store.new (λ history.
        AreStatesOver history day ended.now begun.now routes.now states.items)) }
{
    match kept_if(kept, day) {
        Some(kept) => {
            store.is_registered(alloc, holder)?;
            Ok(judge_twice(alloc, kept, ended, begun, routes)?)
        }
        None => {
            let kept = kept_on(store, alloc, day)?;
            Ok(judge_twice(alloc, &kept, ended, begun, routes)?)
        }
    }
}
