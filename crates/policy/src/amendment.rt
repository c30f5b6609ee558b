//! Amending an authorization.

ghost use Rattle.std.specs.Prelude.{◌≡◌, ℕ, ◌==◌, ◌&&◌, not, List, Some, option_copied, IfSome, IfOk};
ghost use Rattle.std.specs.Global.{Vec};
ghost use Rattle.std.specs.List.{list_any};
ghost use Rattle.registry.specs.declared.charter.Charter.{Charter as CharterValue};
ghost use Rattle.registry.specs.declared.authorization.Auth.{Auth as AuthValue};
ghost use Rattle.registry.specs.declared.command.Command.{Command};
ghost use Rattle.registry.specs.History.{History};
ghost use Rattle.registry.specs.RoaPrefixes.{with_maxes};
ghost use Rattle.registry.specs.Answer.{AnswersAmend, IsAnswer};
ghost use Rattle.registry.specs.Edits.{HasEditsOf};
ghost use Rattle.registry.specs.Terms.{share_vrp};
ghost use Rattle.registry.specs.Verdict.{IsLegal, auth_of_number};
ghost use Rattle.policy.specs.steps.Admission.{IsAdmitted};
ghost use Rattle.policy.specs.steps.Amendment.{IsAmended};

use crate::admission::{are_dates, found_with_access, require, require_access, shares_with_other};
use crate::part::change_of;
use crate::{Access, Auth, Change, Edit, Granted, Refusal, Rule};
use addr::{Day, Name};

/// What an amendment sets.
#[derive(Clone, Copy)]
pub(crate) struct Amendment<'a> {
    /// A maxLength for each entry, in order.
    pub(crate) maxes: &'a [u8],
    /// The last day in force.
    pub(crate) until: Day,
}

/// The authorization that was found, if all rules of an amendment of it hold; otherwise the first
/// that fails.
fn auth_to_amend<'a>(
    grants: &[Granted],
    found: Option<&'a Auth>,
    is_shared: bool,
    day: Day,
    caller: &Name,
    maxes: &[u8],
    until: Day,
) -> Result<&'a Auth, Rule>
    ensures judged { (charter : CharterValue) (history : History) (h : List ℕ) (number : ℕ)
        (asked : Vec ℕ) → asked.items ≡ maxes.now → IsLegal charter history
        → AnswersAmend history h number asked.items grants.now
        (option_copied found.entry) is_shared
        → IsAdmitted charter history day caller.now (Command.Amend h number asked until)
        (λ x. IsAmended history h day caller.now number asked until x.now) result }
    ensures found { IfOk result (λ x. option_copied found.entry ≡ Some x.now) }
{
    require_access(grants, day, caller, Access::Alter)?;
    let auth = found_with_access(grants, found, day, caller, Access::Alter)?;
    require(are_dates(day, auth.from, until), Rule::Dates)?;
    require(auth.fits_maxes(maxes), Rule::Length)?;
    require(!is_shared, Rule::Same)?;
    Ok(auth)
}

/// The change that an amendment makes, or the first rule that fails. `grants` are the holder's,
/// `found` is its authorization of the number, if there is one, and `is_shared` is whether another
/// active one gives an AS, prefix and maxLength that the amended one would give.
pub(crate) fn amend(
    holder: &Name,
    grants: &[Granted],
    found: Option<&Auth>,
    is_shared: bool,
    day: Day,
    caller: &Name,
    amendment: Amendment<'_>,
) -> Result<Change, Refusal>
    ensures answer { (charter : CharterValue) (history : History) (number : ℕ) (asked : Vec ℕ)
        → asked.items ≡ amendment.entry.maxes.now → IsLegal charter history
        → AnswersAmend history holder.now number asked.items grants.now
        (option_copied found.entry) is_shared
        → IsAnswer charter history day caller.now
        (Command.Amend holder.now number asked amendment.entry.until) result }
    ensures shape { (number : ℕ) (asked : Vec ℕ) (auths : List AuthValue)
        → option_copied found.entry ≡ auth_of_number number auths
        → IfOk result (HasEditsOf
        (Command.Amend holder.now number asked amendment.entry.until)) }
{
    let Amendment { maxes, until } = amendment;
    let auth = auth_to_amend(grants, found, is_shared, day, caller, maxes, until)?;
    let amended = auth.with_terms(maxes, until)?;
    Ok(change_of(holder, Edit::Amend(amended)))
}

/// Whether another authorization of the list shares an AS, prefix and maxLength with the one that
/// was found, once it has these maxLengths.
pub(crate) fn is_found_shared(auths: &[Auth], found: Option<&Auth>, maxes: &[u8]) -> bool
    ensures { IfSome (option_copied found.entry) (λ x. result
        ≡ list_any (λ y. not (y.number == x.number)
        && share_vrp (record x { entries = with_maxes maxes.now x.entries }) y) auths.now) }
{
    match found {
        Some(auth) => shares_with_other(auths, auth, maxes),
        None => false,
    }
}
