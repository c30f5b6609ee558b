//! Parts of rules, each a test of the rows.

ghost use Rattle.std.specs.Prelude.{◌≡◌, ℕ, ◌+◌, ◌<◌, ◌==◌, ◌&&◌, nat_le, not, length, List, true, false, ◌↔◌, IsTrue, None, Some, ◌≤◌, option_copied, option_map, IfOk, MatchResult};
ghost use Rattle.std.specs.List.{list_all, list_any};
ghost use Rattle.registry.specs.declared.limits.TheConstants.{MOST_GRANTS, MOST_AUTHORIZATIONS, LAST_NUMBER};
ghost use Rattle.addr.specs.Address.{Address};
ghost use Rattle.addr.specs.Spans.{span_covers, spans_have};
ghost use Rattle.registry.specs.History.{History};
ghost use Rattle.registry.specs.Resources.{HoldsPrefix};
ghost use Rattle.addr.specs.VrpParts.{is_entry};
ghost use Rattle.registry.specs.Terms.{grant_terms, HoldsEntries, are_shared, gives_some, share_vrp};
ghost use Rattle.registry.specs.RoaPrefixes.{with_maxes};
ghost use Rattle.registry.specs.Permission.{has_access, is_permitted_terms};
ghost use Rattle.registry.specs.Answer.{AnswersNumber, HasRuns};
ghost use Rattle.registry.specs.Verdict.{is_steward, HasAccessTo};
ghost use Rattle.registry.specs.Rows.{Rows, rows_of, RowsOf, grants_if_any, auths_if_any};
ghost use Rattle.registry.specs.PartOfRows.{AreInRuns};

use crate::{Access, Auth, AuthTerms, Charter, Granted, HolderRows, LAST_NUMBER, Rule};
use addr::{Asn, Day, Holdings, Name, Prefix, RoaPrefix};
use registry::{MOST_AUTHORIZATIONS, MOST_GRANTS, are_permitted, has_access};

/// `Err(rule)` unless `holds`.
pub(crate) fn require(holds: bool, rule: Rule) -> Result<(), Rule>
    ensures { MatchResult result (λ _. holds ≡ true) (λ first. (holds ≡ false) × (first ≡ rule)) }
{
    if holds { Ok(()) } else { Err(rule) }
}

/// The rows of the holder; the rule `holder` if it is not registered.
pub(crate) fn registered(rows: Option<&HolderRows>) -> Result<&HolderRows, Rule>
    ensures { MatchResult result (λ r. option_copied rows.entry ≡ Some r.now)
        (λ rule. (option_copied rows.entry ≡ None) × (rule ≡ Rule.Holder)) }
{
    rows.ok_or(Rule::Holder)
}

/// The grants of the rows; none if there are no rows.
pub(crate) fn grants_of(rows: Option<&HolderRows>) -> &[Granted]
    ensures { result.now ≡ grants_if_any (option_copied rows.entry) }
{
    match rows {
        Some(rows) => &rows.grants,
        None => &[],
    }
}

/// The authorizations of the rows; none if there are no rows.
pub(crate) fn auths_of(rows: Option<&HolderRows>) -> &[Auth]
    ensures { result.now ≡ auths_if_any (option_copied rows.entry) }
{
    match rows {
        Some(rows) => &rows.auths,
        None => &[],
    }
}

/// The addresses of the rows, if there are rows.
pub(crate) fn holdings_of(rows: Option<&HolderRows>) -> Option<&Holdings>
    ensures { option_copied result ≡ option_map (λ r. r.holdings) (option_copied rows.entry) }
{
    match rows {
        Some(rows) => Some(&rows.holdings),
        None => None,
    }
}

/// How many grants were made at the holder; `None` if there are no rows.
pub(crate) fn made_of(rows: Option<&HolderRows>) -> Option<u32>
    ensures { result ≡ option_map (λ r. r.granted) (option_copied rows.entry) }
{
    match rows {
        Some(rows) => Some(rows.granted),
        None => None,
    }
}

/// Whether the caller is an operator, or a manager by these grants of the holder.
pub(crate) fn is_steward(charter: &Charter, grants: &[Granted], day: Day, caller: &Name) -> bool
    ensures { (history : History) (h : List ℕ) → grants.now ≡ grant_terms history h
        → result ≡ is_steward charter.now history day caller.now h }
{
    charter.is_operator(caller) || has_access(grants, day, caller, Access::Manage)
}

/// The rule `grant`, unless one of the grants gives the caller the access, whatever its scope.
pub(crate) fn require_access(
    grants: &[Granted],
    day: Day,
    caller: &Name,
    access: Access,
) -> Result<(), Rule>
    ensures { (history : History) (h : List ℕ) → grants.now ≡ grant_terms history h
        → MatchResult result
        (λ _. has_access (grant_terms history h) day caller.now access ≡ true)
        (λ rule. (has_access (grant_terms history h) day caller.now access ≡ false)
        × (rule ≡ Rule.Grant)) }
{
    require(has_access(grants, day, caller, access), Rule::Grant)
}

/// Whether every address of the prefix is held by the holder of the rows.
pub(crate) fn holds(rows: &HolderRows, prefix: &Prefix) -> bool
    ensures { (history : History) (h : List ℕ) → HasRuns history h rows.now.holdings
        → (IsTrue result ↔ HoldsPrefix history h prefix.now) }
{
    rows.holdings.holds(prefix)
}

/// Whether every address of the entries is held by the holder of the rows. Of its addresses these
/// may be a part, if all of the entries are there whenever the holder has them.
pub(crate) fn holds_entries(rows: &HolderRows, entries: &[RoaPrefix]) -> bool
    ensures { (history : History) (h : List ℕ) (whole : Rows) → RowsOf history h whole
        → ((a : Address) → spans_have rows.now.holdings a ≡ true
        → spans_have whole.holdings a ≡ true)
        → (AreInRuns whole.holdings entries.now → AreInRuns rows.now.holdings entries.now)
        → (IsTrue result ↔ HoldsEntries history h entries.now) }
{
    // For the proof alone: the runs are maximal, so one run covers a prefix that is held.
    let _ = rows.holdings.spans();
    are_covered(&rows.holdings, entries)
}

/// Whether some run of the addresses covers each prefix of the entries.
fn are_covered(holdings: &Holdings, entries: &[RoaPrefix]) -> bool
    ensures { result
        ≡ list_all (λ e. list_any (λ s. span_covers s e.prefix) holdings.now) entries.now }
{
    entries.iter().all(|entry| holdings.holds(&entry.prefix))
}

/// Whether the caller has the access to each prefix of the terms.
pub(crate) fn is_permitted_terms(
    grants: &[Granted],
    day: Day,
    caller: &Name,
    access: Access,
    auth: &Auth,
) -> bool
    ensures { result ≡ is_permitted_terms grants.now day caller.now access auth.now }
{
    are_permitted(grants, day, caller, access, auth.entries.as_slice())
}

/// The authorization that was found, if the caller has the access to it; otherwise the rule
/// `number`.
pub(crate) fn found_with_access<'a>(
    grants: &[Granted],
    found: Option<&'a Auth>,
    day: Day,
    caller: &Name,
    access: Access,
) -> Result<&'a Auth, Rule>
    ensures judged { (history : History) (h : List ℕ) (number : ℕ)
        → AnswersNumber history h number grants.now (option_copied found.entry)
        → MatchResult result
        (λ x. (option_copied found.entry ≡ Some x.now)
        × HasAccessTo history h day caller.now access number)
        (λ rule. (HasAccessTo history h day caller.now access number → ⊥)
        × (rule ≡ Rule.Number)) }
    ensures found { IfOk result (λ x. option_copied found.entry ≡ Some x.now) }
{
    match found {
        Some(auth) => {
            if is_permitted_terms(grants, day, caller, access, auth) {
                Ok(auth)
            } else {
                Err(Rule::Number)
            }
        }
        None => Err(Rule::Number),
    }
}

/// Whether neither the first day nor the day of the request is after the last day.
pub(crate) fn are_dates(today: Day, from: Day, until: Day) -> bool
    ensures { IsTrue result ↔ ((from ≤ until) × (today ≤ until)) }
{
    from.number() <= until.number() && today.number() <= until.number()
}

/// Whether some grant has the number.
pub(crate) fn is_among(grants: &[Granted], number: u32) -> bool
    ensures { result ≡ list_any (λ g. g.number == number) grants.now }
{
    grants.iter().any(|grant| grant.number == number)
}

/// Whether some authorization gives the AS with some entry of the list.
pub(crate) fn some_gives(auths: &[Auth], asn: Asn, entries: &[RoaPrefix]) -> bool
    ensures { result ≡ list_any (λ y. gives_some y asn entries.now) auths.now }
{
    auths.iter().any(|auth| auth.gives_some(asn, entries))
}

/// Whether another grant may be made: neither too many are unrevoked, nor were too many made.
pub(crate) fn has_room_for_grant(grants: &[Granted], made: u32) -> bool
    ensures { IsTrue result ↔ ((length grants.now < MOST_GRANTS) × (made < LAST_NUMBER)) }
{
    grants.len() < MOST_GRANTS && made < LAST_NUMBER
}

/// Whether these authorizations and so many others are as many as a holder may have.
pub(crate) fn is_full(auths: &[Auth], others: u32) -> bool
    ensures { result ≡ nat_le MOST_AUTHORIZATIONS (length auths.now + others) }
{
    auths.len() + others as usize >= MOST_AUTHORIZATIONS
}

/// Whether some entry has this prefix and maxLength.
fn has_entry(entries: &[RoaPrefix], entry: &RoaPrefix) -> bool
    ensures { result ≡ list_any (is_entry entry.now.prefix entry.now.max) entries.now }
{
    entries.iter().any(|other| other.prefix == entry.prefix && other.max == entry.max)
}

/// Whether some entry has this prefix and maxLength, once the entries have these maxLengths.
fn has_amended_entry(entries: &[RoaPrefix], maxes: &[u8], entry: &RoaPrefix) -> bool
    ensures { result
        ≡ list_any (is_entry entry.now.prefix entry.now.max) (with_maxes maxes.now entries.now) }
{
    match maxes {
        [] => has_entry(entries, entry),
        [max, maxes @ ..] => match entries {
            [] => false,
            [first, others @ ..] => {
                (first.prefix == entry.prefix && *max == entry.max)
                    || has_amended_entry(others, maxes, entry)
            }
        },
    }
}

/// Whether some prefix and maxLength is an entry of both lists, once the entries of the first have
/// these maxLengths.
fn are_shared_amended(entries: &[RoaPrefix], maxes: &[u8], others: &[RoaPrefix]) -> bool
    ensures { result ≡ are_shared (with_maxes maxes.now entries.now) others.now }
{
    others
        .iter()
        .any(|other| has_amended_entry(entries, maxes, other))
}

/// Whether the other has another number, and shares an AS, prefix and maxLength with these terms
/// once they have these maxLengths.
fn is_other_sharing(auth: &Auth, maxes: &[u8], other: &Auth) -> bool
    ensures { result ≡ (not (other.now.number == auth.now.number)
        && share_vrp (record auth.now { entries = with_maxes maxes.now auth.now.entries })
        other.now) }
{
    other.number != auth.number
        && auth.asn.0 == other.asn.0
        && are_shared_amended(auth.entries.as_slice(), maxes, other.entries.as_slice())
}

/// Whether an authorization of another number shares an AS, prefix and maxLength with these terms
/// once they have these maxLengths.
pub(crate) fn shares_with_other(auths: &[Auth], auth: &Auth, maxes: &[u8]) -> bool
    ensures { result ≡ list_any (λ y. not (y.number == auth.now.number)
        && share_vrp (record auth.now { entries = with_maxes maxes.now auth.now.entries }) y)
        auths.now }
{
    auths
        .iter()
        .any(|other| is_other_sharing(auth, maxes, other))
}
