//! Showing and listing authorizations.

ghost use Rattle.std.specs.Prelude.{◌≡◌, ℕ, List, [], ◌∷◌, ◌++◌, Some, option_copied, MatchResult, IfOk, OnOk, filter};
ghost use Rattle.registry.specs.declared.charter.Charter.{Charter as CharterValue};
ghost use Rattle.registry.specs.History.{History};
ghost use Rattle.registry.specs.Permission.{is_permitted_terms};
ghost use Rattle.registry.specs.Rows.{rows_if_any, grants_if_any, auths_if_any};
ghost use Rattle.registry.specs.Verdict.{ShowVerdict, auth_of_number};
ghost use Rattle.registry.specs.Answer.{ListBasis, AnswersNumber, AtEachHolder, IsShown, IsListed, IsListRefusal};

use crate::admission::{
    auths_of, found_with_access, grants_of, is_permitted_terms, require_access,
};
use crate::{Access, Auth, Granted, HolderRows, Refusal, Rule};
use addr::{Day, Name};
use registry::auth_of_number;
use std::alloc::{AllocError, Global};

/// The authorization of the number, if the caller may see it on the day; otherwise the rule that
/// denies it. A hidden authorization and a missing one get the same reply. Of the rows it reads the
/// grants and the authorizations of the number. Allocates nothing.
pub fn see<'a>(
    rows: Option<&'a HolderRows>,
    day: Day,
    caller: &Name,
    number: u32,
) -> Result<&'a Auth, Rule>
    ensures rows { (charter : CharterValue)
        → AtEachHolder charter (rows_if_any (option_copied rows.entry)) (λ history h.
        MatchResult result (λ x. IsShown history h day caller.now number x.now)
        (λ rule. ShowVerdict history h day caller.now number (Some rule))) }
    ensures part { (history : History) (h : List ℕ)
        → AnswersNumber history h number (grants_if_any (option_copied rows.entry))
        (auth_of_number number (auths_if_any (option_copied rows.entry)))
        → MatchResult result
        (λ x. IsShown history h day caller.now number x.now)
        (λ rule. ShowVerdict history h day caller.now number (Some rule)) }
{
    let grants = grants_of(rows);
    let found = auth_of_number(auths_of(rows), number);
    require_access(grants, day, caller, Access::Look)?;
    found_with_access(grants, found, day, caller, Access::Look)
}

/// Puts a copy of the authorization after the others.
fn push_copy(auths: &mut Vec<Auth>, auth: &Auth) -> Result<(), AllocError>
    ensures { OnOk result (auths.new.items ≡ auths.old.items ++ auth.now ∷ []) }
{
    auths.push(auth.clone()?)?;
    Ok(())
}

/// The authorizations that the caller may see on the day.
fn permitted_auths(
    alloc: Global,
    auths: &[Auth],
    grants: &[Granted],
    day: Day,
    caller: &Name,
) -> Result<Vec<Auth>, AllocError>
    ensures { IfOk result (λ seen. seen.items
        ≡ filter (λ x. is_permitted_terms grants.now day caller.now Access.Look x) auths.now) }
{
    let mut seen = Vec::new(alloc);
    for auth in auths {
        if is_permitted_terms(grants, day, caller, Access::Look, auth) {
            push_copy(&mut seen, auth)?;
        }
    }
    Ok(seen)
}

/// The active authorizations that the caller may see on the day, by rising number. Of the rows it
/// reads the grants and the authorizations.
pub fn see_all(
    alloc: Global,
    rows: Option<&HolderRows>,
    day: Day,
    caller: &Name,
) -> Result<Vec<Auth>, Refusal>
    ensures rows { (charter : CharterValue)
        → AtEachHolder charter (rows_if_any (option_copied rows.entry)) (λ history h.
        MatchResult result (λ seen. IsListed history h day caller.now seen.items)
        (λ refusal. IsListRefusal history h day caller.now refusal)) }
    ensures part { (history : History) (h : List ℕ)
        → ListBasis history h (grants_if_any (option_copied rows.entry))
        (auths_if_any (option_copied rows.entry))
        → MatchResult result
        (λ seen. IsListed history h day caller.now seen.items)
        (λ refusal. IsListRefusal history h day caller.now refusal) }
{
    let grants = grants_of(rows);
    require_access(grants, day, caller, Access::Look)?;
    Ok(permitted_auths(alloc, auths_of(rows), grants, day, caller)?)
}
