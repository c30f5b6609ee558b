//! Registering a holder, and delegating a prefix to it.

ghost use Rattle.std.specs.Prelude.{◌≡◌, ℕ, List, None, Some, false, option_copied, MatchResult, IfOk};
ghost use Rattle.registry.specs.declared.command.Command.{Command};
ghost use Rattle.registry.specs.Answer.{AnswersDelegate, HasRuns, IsAccepted, IsAnswer};
ghost use Rattle.registry.specs.Edits.{HasEditsOf};
ghost use Rattle.registry.specs.History.{History, is_registered};
ghost use Rattle.registry.specs.Verdict.{IsLegal, Verdict};
ghost use Rattle.policy.specs.steps.Admission.{IsAdmitted};

use crate::admission::require;
use crate::part::change_of;
use crate::space::{exchange, with_prefix};
use crate::{Change, Charter, Edit, Refusal, Rule};
use addr::{Holdings, Name, Prefix};
use std::alloc::Global;

/// The change that the registration of a holder makes, or the first rule that fails. `registered`
/// is whether the holder is registered already. Allocates nothing.
pub(crate) fn register(
    charter: &Charter,
    holder: &Name,
    registered: bool,
    caller: &Name,
) -> Result<Change, Rule>
    ensures answer { (history : History) (day : ℕ) → IsLegal charter.now history
        → registered ≡ is_registered history holder.now
        → MatchResult result
        (IsAccepted charter.now history day caller.now (Command.Register holder.now))
        (λ rule. Verdict charter.now history day caller.now
        (Command.Register holder.now) (Some rule)) }
    ensures shape { IfOk result (HasEditsOf (Command.Register holder.now)) }
    ensures fresh { IfOk result (λ _. registered ≡ false) }
{
    require(charter.is_operator(caller), Rule::Operator)?;
    require(!registered, Rule::Fresh)?;
    Ok(change_of(holder, Edit::Register))
}

/// The addresses of the holder; the rule `holder` if it is not registered.
fn registered_holdings(holdings: Option<&Holdings>) -> Result<&Holdings, Rule>
    ensures { MatchResult result (λ runs. option_copied holdings.entry ≡ Some runs.now)
        (λ rule. (option_copied holdings.entry ≡ None) × (rule ≡ Rule.Holder)) }
{
    holdings.ok_or(Rule::Holder)
}

/// The addresses of the holder if all rules of a delegation hold; otherwise the first that fails.
fn holdings_for_delegation<'a>(
    charter: &Charter,
    caller: &Name,
    holdings: Option<&'a Holdings>,
    taken: bool,
    prefix: &Prefix,
) -> Result<&'a Holdings, Rule>
    ensures { (history : History) (day : ℕ) (h : List ℕ)
        → AnswersDelegate history h prefix.now (option_copied holdings.entry) taken
        → IsAdmitted charter.now history day caller.now (Command.Delegate h prefix.now)
        (λ runs. HasRuns history h runs.now) result }
{
    require(charter.is_operator(caller), Rule::Operator)?;
    let held = registered_holdings(holdings)?;
    require(charter.has_in_pool(prefix), Rule::Pool)?;
    require(!taken, Rule::Free)?;
    Ok(held)
}

/// The change that the delegation of a prefix makes, or the first rule that fails. `holdings` are
/// the holder's addresses, `None` if it is not registered; `taken` is whether some holder has an
/// address of the prefix.
pub(crate) fn delegate(
    alloc: Global,
    charter: &Charter,
    holder: &Name,
    holdings: Option<&Holdings>,
    taken: bool,
    caller: &Name,
    prefix: &Prefix,
) -> Result<Change, Refusal>
    ensures answer { (history : History) (day : ℕ) → IsLegal charter.now history
        → AnswersDelegate history holder.now prefix.now (option_copied holdings.entry) taken
        → IsAnswer charter.now history day caller.now
        (Command.Delegate holder.now prefix.now) result }
    ensures shape { IfOk result (HasEditsOf (Command.Delegate holder.now prefix.now)) }
{
    let held = holdings_for_delegation(charter, caller, holdings, taken, prefix)?;
    let more = with_prefix(held, prefix)?;
    let edit = exchange(held, &more, Vec::new(alloc))?;
    Ok(change_of(holder, edit))
}
