//! Making and revoking grants.

ghost use Rattle.std.specs.Prelude.{◌≡◌, MatchResult, IfOk};
ghost use Rattle.registry.specs.declared.command.Command.{Command};
ghost use Rattle.registry.specs.History.{History};
ghost use Rattle.registry.specs.Answer.{AnswersGrant, IsAccepted};
ghost use Rattle.registry.specs.Edits.{HasEditsOf};
ghost use Rattle.registry.specs.Terms.{grant_terms};
ghost use Rattle.registry.specs.Verdict.{IsLegal, Verdict};

use crate::admission::{has_room_for_grant, is_among, is_steward, require};
use crate::part::change_of;
use crate::{Change, Charter, Edit, GrantTerms, Granted, Rule};
use addr::{Day, Name};

/// The change that a grant of the terms makes, or the first rule that fails. `grants` are the
/// holder's, and `made` is how many were ever made, `None` if it is not registered. Allocates
/// nothing.
pub(crate) fn grant(
    charter: &Charter,
    holder: &Name,
    grants: &[Granted],
    made: Option<u32>,
    day: Day,
    caller: &Name,
    terms: &GrantTerms,
) -> Result<Change, Rule>
    ensures answer { (history : History) → IsLegal charter.now history
        → AnswersGrant history holder.now grants.now made
        → MatchResult result
        (IsAccepted charter.now history day caller.now (Command.Grant holder.now terms.now))
        (λ rule. Verdict charter.now history day caller.now
        (Command.Grant holder.now terms.now) (Some rule)) }
    ensures shape { IfOk result (HasEditsOf (Command.Grant holder.now terms.now)) }
{
    require(is_steward(charter, grants, day, caller), Rule::Steward)?;
    let made = made.ok_or(Rule::Holder)?;
    require(day.number() <= terms.until.number(), Rule::Dates)?;
    require(has_room_for_grant(grants, made), Rule::Room)?;
    let grant = terms.numbered(made + 1);
    Ok(change_of(holder, Edit::Grant(grant)))
}

/// The change that the revocation of a number makes, or the first rule that fails. `grants` are the
/// holder's. Allocates nothing.
pub(crate) fn revoke(
    charter: &Charter,
    holder: &Name,
    grants: &[Granted],
    day: Day,
    caller: &Name,
    number: u32,
) -> Result<Change, Rule>
    ensures answer { (history : History) → IsLegal charter.now history
        → grants.now ≡ grant_terms history holder.now
        → MatchResult result
        (IsAccepted charter.now history day caller.now (Command.Revoke holder.now number))
        (λ rule. Verdict charter.now history day caller.now
        (Command.Revoke holder.now number) (Some rule)) }
    ensures shape { IfOk result (HasEditsOf (Command.Revoke holder.now number)) }
{
    require(is_steward(charter, grants, day, caller), Rule::Steward)?;
    require(is_among(grants, number), Rule::Number)?;
    Ok(change_of(holder, Edit::Revoke(number)))
}
