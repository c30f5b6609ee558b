//! What hypothetical changes would leave.

ghost use Rattle.std.specs.Prelude.{◌≡◌, ◌+◌, ◌<◌, ℕ, Bool, List, Option, Contains, length, Some, Err, IsSome, option_copied};
ghost use Rattle.registry.specs.declared.charter.Charter.{Charter as CharterValue};
ghost use Rattle.registry.specs.declared.authorization.Auth.{Auth as AuthValue};
ghost use Rattle.registry.specs.declared.command.Proposed.{Proposed as ProposedValue};
ghost use Rattle.registry.specs.History.{History};
ghost use Rattle.registry.specs.Rows.{Rows, RowsIfAny, rows_of, rows_if_any, auths_if_any};
ghost use Rattle.registry.specs.Verdict.{IsLegal, Verdict};
ghost use Rattle.registry.specs.HypotheticalHistory.{hypothetical_command};
ghost use Rattle.registry.specs.Answer.{AtEachHolder, IsHypotheticalAnswer};
ghost use Rattle.registry.specs.PartOfRows.{IsPartIfAny};
ghost use Rattle.policy.specs.PartAnswer.{IsPartAnswer};
ghost use Rattle.policy.specs.steps.Part.{Judged};
ghost use Rattle.policy.specs.steps.HypotheticalChange.{IsHypotheticalChange, OfPart};

use crate::creation::create_in;
use crate::part::refusal_at;
use crate::withdrawal::withdraw_from;
use crate::{Charter, HolderRows, Proposed, Refusal, Rule, View};
use addr::{Day, Name};
use std::alloc::Global;

/// Makes one change of the rows, unless a rule denies it. The rows may leave out so many
/// authorizations that the rules do not look for.
fn apply_change(
    rows: &mut HolderRows,
    left_out: u32,
    day: Day,
    caller: &Name,
    change: &Proposed,
) -> Result<(), Refusal>
    ensures { (changes : List ProposedValue) (more : ℕ) → Contains changes change.now
        → OfPart changes (more + 1) left_out (rows_of rows.old) (λ charter history h keep whole.
        Judged
        (λ _. IsHypotheticalChange charter history h day caller.now changes more left_out
        change.now keep whole (rows_of rows.old) (rows_of rows.new))
        (λ rule.
        Verdict charter history day caller.now (hypothetical_command h change.now) (Some rule))
        result) }
{
    match change {
        Proposed::Create(terms) => {
            create_in(rows, left_out, day, caller, terms)?;
        }
        Proposed::Withdraw(number) => withdraw_from(rows, day, caller, *number)?,
    }
    Ok(())
}

/// The rows of a holder as the changes of the caller on the day would leave them, one after the
/// other, or the first change that would be denied, counted from 1. There is at least one change,
/// since without any no rule would be checked. Nothing is stored.
pub fn suppose(
    alloc: Global,
    charter: &Charter,
    view: &View,
    day: Day,
    caller: &Name,
    changes: &[Proposed],
) -> Result<HolderRows, Refusal>
    requires { 0 < length changes.now }
    ensures { AtEachHolder charter.now (rows_if_any view.now.holder) (λ history holder.
        IsHypotheticalAnswer charter.now history holder day caller.now changes.now result) }
{
    suppose_on(view.holder.as_ref(), 0, day, caller, changes)
}

/// Like `suppose`, on a part of the rows: the grants, the counters, the authorizations that the
/// rules of the changes look for, and the addresses of the creates that the holder has. `left_out`
/// is how many of its active authorizations are not in the part; 0 will do if they are so few that
/// the changes cannot make more than a holder may have.
pub fn suppose_on(
    part: Option<&HolderRows>,
    left_out: u32,
    day: Day,
    caller: &Name,
    changes: &[Proposed],
) -> Result<HolderRows, Refusal>
    requires { 0 < length changes.now }
    ensures rows { left_out ≡ 0 → (charter : CharterValue)
        → AtEachHolder charter (rows_if_any (option_copied part.entry)) (λ history holder.
        IsHypotheticalAnswer charter history holder day caller.now changes.now result) }
    ensures part { (charter : CharterValue) (history : History) (holder : List ℕ)
        (keep : AuthValue → Bool) (whole : Option Rows)
        → IsLegal charter history → RowsIfAny history holder whole
        → IsPartIfAny changes.now left_out keep whole (rows_if_any (option_copied part.entry))
        → IsPartAnswer charter history holder day caller.now changes.now
        (auths_if_any (option_copied part.entry)) result }
    ensures memory { result ≡ Err Refusal.Memory → IsSome (option_copied part.entry) }
{
    let Some(before) = part else {
        return Err(Refusal::Denied(Rule::Grant, Some(1)));
    };
    let mut rows = before.clone()?;
    let mut place = 0;
    for change in changes {
        place += 1;
        let done = apply_change(&mut rows, left_out, day, caller, change);
        if let Err(refusal) = done {
            return Err(refusal_at(refusal, place));
        }
    }
    Ok(rows)
}
