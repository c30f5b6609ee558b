//! Authorizations and their terms.

ghost use Rattle.std.specs.Prelude.{◌≡◌, ◌≤◌, ◌↔◌, ◌&&◌, true, IsTrue, IsSome, IfSome, IfOk, option_copied};
ghost use Rattle.std.specs.List.{list_any};
ghost use Rattle.addr.specs.Address.{FitsMaxLength};
ghost use Rattle.addr.specs.VrpParts.{is_entry};
ghost use Rattle.registry.specs.Terms.{numbered_terms, row_terms, terms_overlap, are_shared, gives_some, with_terms, IsVrpOf};
ghost use Rattle.registry.specs.Verdict.{auth_of_number, fit_lengths, maxes_fit};

use crate::RoaPrefixes;
use addr::{Asn, Day, Prefix, RoaPrefix, Vrp};
use std::alloc::{AllocError, Global};

/// Whether each maxLength of the entries is one for its prefix.
pub fn fit_lengths(entries: &[RoaPrefix]) -> bool
    ensures { result ≡ fit_lengths entries.now }
{
    entries
        .iter()
        .all(|entry| entry.prefix.fits_max_length(entry.max))
}

/// Whether there are as many maxLengths as entries, each one for the prefix of the entry in its
/// place.
fn maxes_fit(maxes: &[u8], entries: &[RoaPrefix]) -> bool
    ensures { result ≡ maxes_fit maxes.now entries.now }
{
    match (maxes, entries) {
        ([], []) => true,
        ([max, maxes @ ..], [entry, entries @ ..]) => {
            entry.prefix.fits_max_length(*max) && maxes_fit(maxes, entries)
        }
        _ => false,
    }
}

/// Whether some entry has this prefix and maxLength.
fn has_entry(entries: &[RoaPrefix], prefix: &Prefix, max: u8) -> bool
    ensures { result ≡ list_any (is_entry prefix.now max) entries.now }
{
    entries.iter().any(|entry| entry.is(prefix, max))
}

/// Whether some prefix and maxLength is an entry of both lists.
fn are_shared(entries: &[RoaPrefix], others: &[RoaPrefix]) -> bool
    ensures { result ≡ are_shared entries.now others.now }
{
    others
        .iter()
        .any(|other| has_entry(entries, &other.prefix, other.max))
}

/// A route origin authorization with its terms.
#[derive(Clone, Debug, Drop)]
pub struct Auth {
    /// Counts the holder's authorizations from 1, in the order in which they were made.
    pub number: u32,
    pub asn: Asn,
    pub entries: RoaPrefixes,
    /// The first day in force.
    pub from: Day,
    /// The last day in force.
    pub until: Day,
}

/// What an authorization is to say, before it has a number.
#[derive(Clone, Debug, Drop)]
pub struct AuthTerms {
    pub asn: Asn,
    pub entries: RoaPrefixes,
    /// The first day in force.
    pub from: Day,
    /// The last day in force.
    pub until: Day,
}

/// A row of an import, which authorizes an AS for one prefix.
#[derive(Clone, Copy, Debug, PartialEq, Eq, PartialOrd, Ord)]
pub struct ImportRow {
    pub asn: Asn,
    pub prefix: Prefix,
    /// The maxLength as it is requested; the rule `length` judges it.
    pub max: u8,
    /// The first day in force.
    pub from: Day,
    /// The last day in force.
    pub until: Day,
}

impl ImportRow {
    /// The terms of the authorization that the row makes.
    pub fn terms(&self, alloc: Global) -> Result<AuthTerms, AllocError>
        ensures { IfOk result (λ terms. terms ≡ row_terms self.now) }
    {
        let entries = RoaPrefixes::one(alloc, self.prefix, self.max)?;
        Ok(AuthTerms {
            asn: self.asn,
            entries,
            from: self.from,
            until: self.until,
        })
    }
}

impl AuthTerms {
    /// The authorization of these terms and of this number.
    pub fn numbered(&self, number: u32) -> Result<Auth, AllocError>
        ensures { IfOk result (λ x. x ≡ numbered_terms self.now number) }
    {
        let terms = self.clone()?;
        Ok(Auth {
            number,
            asn: terms.asn,
            entries: terms.entries,
            from: terms.from,
            until: terms.until,
        })
    }
}

impl Auth {
    /// Whether a prefix of the terms shares an address with `prefix`.
    pub fn overlaps(&self, prefix: &Prefix) -> bool
        ensures { result ≡ terms_overlap self.now prefix.now }
    {
        self.entries
            .as_slice()
            .iter()
            .any(|entry| entry.prefix.overlaps(prefix))
    }

    /// Whether the terms give this AS with some entry of the list.
    pub fn gives_some(&self, asn: Asn, entries: &[RoaPrefix]) -> bool
        ensures { result ≡ gives_some self.now asn entries.now }
    {
        self.asn.0 == asn.0 && are_shared(self.entries.as_slice(), entries)
    }

    /// Whether there are as many maxLengths as entries, each one for the prefix of the entry in its
    /// place.
    pub fn fits_maxes(&self, maxes: &[u8]) -> bool
        ensures { result ≡ maxes_fit maxes.now self.now.entries }
    {
        maxes_fit(maxes, self.entries.as_slice())
    }

    /// The authorization with these maxLengths, one an entry in order, and this last day.
    pub fn with_terms(&self, maxes: &[u8], until: Day) -> Result<Auth, AllocError>
        ensures { IfOk result (λ x. x ≡ with_terms maxes.now until self.now) }
    {
        let mut amended = self.clone()?;
        amended.entries.set_maxes(maxes);
        amended.until = until;
        Ok(amended)
    }

    /// Whether the day lies from the first to the last day in force.
    pub fn is_in_force(&self, day: Day) -> bool
        ensures { IsTrue result ↔ ((self.now.from ≤ day) × (day ≤ self.now.until)) }
    {
        self.from.number() <= day.number() && day.number() <= self.until.number()
    }

    /// Whether the VRP is one of the terms.
    pub fn gives_vrp(&self, vrp: &Vrp) -> bool
        ensures { IsTrue result ↔ IsVrpOf self.now vrp.now }
    {
        self.asn.0 == vrp.asn.0 && has_entry(self.entries.as_slice(), &vrp.prefix, vrp.max)
    }
}

/// The authorization that has the number, if there is one.
pub fn auth_of_number(auths: &[Auth], number: u32) -> Option<&Auth>
    ensures { option_copied result ≡ auth_of_number number auths.now }
{
    auths.iter().find(|auth| auth.number == number)
}
