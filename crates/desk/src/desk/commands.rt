//! Commands: judged on the rows, then made.
ghost use Rattle.std.specs.Prelude.{◌≡◌, true, false, option_map};
ghost use Rattle.registry.specs.Answer.{imported};
ghost use Rattle.store.specs.StoreRows.{IsRead};
ghost use Rattle.desk.specs.Answer.{is_accepted, only_reads, IsAnswered};
ghost use Rattle.desk.specs.CrashOutcomes.{asked_on, IsDurablyAnswered, StaysOpen};
ghost use Rattle.desk.specs.DayAfter.{has_made_none, DayAfter, DropsForGain};
ghost use Rattle.desk.specs.Prepared.{day_of};
ghost use Rattle.desk.specs.Desk.{charter_of, IsOnCleanDisk, RowsStay, EachHistory};
ghost use Rattle.desk.specs.HolderAnswers.{may_change, may_except, OthersStay};
ghost use Rattle.desk.specs.steps.Accepting.{AnswersAccepted, Decides};

use super::Desk;
use super::following::{Decided, follow};
use crate::{Reply, Request};
use addr::{Day, Name};
use policy::Facts;
use registry::{Auth, Change, Command, HolderRows};
use sqlite::Alter;
use std::alloc::Global;
use store::{Loaded, Store};

/// The reply to a command that is accepted with this change.
fn accepted(command: &Command, change: &Change) -> Reply
    ensures answers { AnswersAccepted command.now change.now result }
    ensures accepted { is_accepted result ≡ true }
    ensures made { has_made_none result ≡ true → imported change.now ≡ 0 }
{
    match command {
        Command::Import { rows, .. } => {
            let made = change.imported();
            Reply::Imported {
                made: made as u64,
                present: rows.len().saturating_sub(made) as u64,
            }
        }
        _ => Reply::Done(change.number()),
    }
}

/// The authorizations of the rows, if there are rows.
fn auths_of(rows: Option<HolderRows>) -> Option<Vec<Auth>>
    ensures { result ≡ option_map (λ r. r.auths) rows }
{
    match rows {
        Some(HolderRows { auths, .. }) => Some(auths),
        None => None,
    }
}

/// The change that the command makes, or the reply that refuses it.
fn decide<S: Alter>(
    store: &mut Store<S>,
    alloc: Global,
    day: Day,
    caller: &Name,
    command: &Command,
) -> Result<Decided, Reply>
    ensures read { IsRead S.Store store.old store.new }
    ensures decides { Decides S.Store day caller.now command.now store.old store.new result }
{
    store::laws::facts_of_a_history();
    let Loaded {
        rows,
        taker,
        answers,
    } = store.load_for(alloc, command)?;
    let facts = Facts {
        rows: rows.as_ref(),
        taker: taker.as_ref(),
        answers,
    };
    let charter = store.charter();
    let change = policy::judge(alloc, charter, facts, day, caller, command)?;
    Ok(Decided {
        change,
        first: auths_of(rows),
        second: auths_of(taker),
    })
}

impl<S: Alter> Desk<S> {
    /// Judges the command, and makes its change if it is accepted. After the commit nothing fails:
    /// if the kept day cannot follow, it is dropped.
    pub(super) fn carry_out(&mut self, day: Day, caller: &Name, command: &Command) -> Reply
        ensures left { EachHistory S.Store self.old self.new (λ history.
            IsDurablyAnswered S.Store (charter_of self.old) history
            (asked_on day caller.now (Request.Command command.now)) result self.old self.new) }
        ensures charter { charter_of self.new ≡ charter_of self.old }
        ensures limit { self.new.store.connection.step_limit
            ≡ self.old.store.connection.step_limit }
        ensures clean { IsOnCleanDisk S.Store self.new → IsOnCleanDisk S.Store self.old }
        ensures kept { is_accepted result ≡ false → RowsStay S.Store self.old self.new }
        ensures read { only_reads (Request.Command command.now) result ≡ true
            → IsRead S.Store self.old.store self.new.store }
        ensures is_open { is_accepted result ≡ true → StaysOpen S.Store self.new }
        ensures kept_day { DayAfter day (Request.Command command.now) result
            (day_of self.old.kept) (day_of self.new.kept) }
        ensures dropped { EachHistory S.Store self.old self.new (λ history.
            (is : IsAnswered S.Store (charter_of self.old) history day caller.now
            (Request.Command command.now) result self.new)
            × DropsForGain (Request.Command command.now) history is.after
            (day_of self.old.kept) (day_of self.new.kept)) }
        ensures others { EachHistory S.Store self.old self.new (λ _.
            OthersStay S.Store (may_change (Request.Command command.now))
            (may_except (Request.Command command.now)) self.old self.new) }
    {
        // For the proof: the theorems that it uses. The first reads the values of the request.
        registry::laws::entry_fits(day, caller, command);
        registry_laws::histories::growth_is_legal();
        registry_laws::histories::growth_fits();
        let decided = match decide(&mut self.store, self.alloc, day, caller, command) {
            Ok(decided) => decided,
            Err(refused) => return refused,
        };
        let reply = accepted(command, &decided.change);
        match self.store.apply(&decided.change) {
            Ok(()) => {
                follow(&mut self.kept, &decided);
                reply
            }
            Err(_) => Reply::Unavailable,
        }
    }
}
