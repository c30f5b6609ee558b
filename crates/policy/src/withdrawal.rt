//! Withdrawing an authorization.

ghost use Rattle.std.specs.Prelude.{◌≡◌, ℕ, List, [], ◌∷◌, Some, option_copied, MatchResult, IfOk};
ghost use Rattle.registry.specs.declared.change.Edit.{Edit};
ghost use Rattle.registry.specs.declared.charter.Charter.{Charter as CharterValue};
ghost use Rattle.registry.specs.declared.command.Command.{Command};
ghost use Rattle.registry.specs.declared.command.Proposed.{Proposed};
ghost use Rattle.registry.specs.History.{History};
ghost use Rattle.registry.specs.Rows.{rows_of, edited};
ghost use Rattle.registry.specs.Answer.{AnswersNumber, IsAccepted};
ghost use Rattle.registry.specs.Edits.{HasEditsOf};
ghost use Rattle.registry.specs.Verdict.{IsLegal, Verdict};
ghost use Rattle.policy.specs.steps.HypotheticalChange.{OfPart};
ghost use Rattle.policy.specs.steps.Withdrawal.{IsWithdrawn};

use crate::admission::{found_with_access, require_access};
use crate::part::change_of;
use crate::{Access, Auth, Change, Edit, Granted, HolderRows, Rule};
use addr::{Day, Name};
use registry::auth_of_number;

/// `Ok` if all rules of a withdrawal hold; otherwise the first that fails.
fn may_withdraw(
    grants: &[Granted],
    found: Option<&Auth>,
    day: Day,
    caller: &Name,
) -> Result<(), Rule>
    ensures { (charter : CharterValue) (history : History) (h : List ℕ) (number : ℕ)
        → IsLegal charter history
        → AnswersNumber history h number grants.now (option_copied found.entry)
        → MatchResult result
        (λ _. IsWithdrawn charter history h day caller.now number)
        (λ rule. Verdict charter history day caller.now (Command.Withdraw h number) (Some rule)) }
{
    require_access(grants, day, caller, Access::Alter)?;
    found_with_access(grants, found, day, caller, Access::Alter)?;
    Ok(())
}

/// The change that the withdrawal of a number makes, or the first rule that fails. `grants` are the
/// holder's, and `found` is its authorization of the number, if there is one. Allocates nothing.
pub(crate) fn withdraw(
    holder: &Name,
    grants: &[Granted],
    found: Option<&Auth>,
    day: Day,
    caller: &Name,
    number: u32,
) -> Result<Change, Rule>
    ensures answer { (charter : CharterValue) (history : History) → IsLegal charter history
        → AnswersNumber history holder.now number grants.now (option_copied found.entry)
        → MatchResult result
        (IsAccepted charter history day caller.now (Command.Withdraw holder.now number))
        (λ rule. Verdict charter history day caller.now
        (Command.Withdraw holder.now number) (Some rule)) }
    ensures shape { IfOk result (HasEditsOf (Command.Withdraw holder.now number)) }
{
    may_withdraw(grants, found, day, caller)?;
    Ok(change_of(holder, Edit::Withdraw(number)))
}

/// Removes the authorization of the number from the rows.
fn take_away(rows: &mut HolderRows, number: u32)
    ensures { rows_of rows.new ≡ edited (Edit.Withdraw number) (rows_of rows.old) }
{
    rows.auths.retain(|auth| auth.number != number);
}

/// Removes the authorization of the number from the rows, unless a rule denies it. The rows may
/// leave out authorizations of other numbers.
pub(crate) fn withdraw_from(
    rows: &mut HolderRows,
    day: Day,
    caller: &Name,
    number: u32,
) -> Result<(), Rule>
    ensures rows { IfOk result
        (λ _. rows_of rows.new ≡ edited (Edit.Withdraw number) (rows_of rows.old)) }
    ensures judged { (left_out : ℕ)
        → OfPart (Proposed.Withdraw number ∷ []) 0 left_out (rows_of rows.old)
        (λ charter history h _ _. MatchResult result
        (λ _. IsWithdrawn charter history h day caller.now number)
        (λ rule. Verdict charter history day caller.now (Command.Withdraw h number) (Some rule))) }
{
    let found = auth_of_number(&rows.auths, number);
    may_withdraw(&rows.grants, found, day, caller)?;
    take_away(rows, number);
    Ok(())
}
