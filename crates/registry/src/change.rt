//! What accepted commands do to rows.

ghost use Rattle.std.specs.Prelude.{◌≡◌, ◌==◌};
ghost use Rattle.std.specs.List.{list_any};

use crate::{Auth, Granted};
use addr::{Name, Span};
use slurm::SlurmSet;
use std::slice;

/// What an accepted command does to the rows of one resource holder.
#[derive(Drop)]
pub enum Edit {
    /// Puts the holder's row. It has no other rows, and both counters are 0.
    Register,
    /// Deletes these runs of addresses, puts others in their place, and deletes the authorizations
    /// of these numbers. A run that stays is in neither list.
    Hold {
        removed: Vec<Span>,
        added: Vec<Span>,
        ended: Vec<u32>,
    },
    /// Puts a grant and sets the counter of grants to its number.
    Grant(Granted),
    /// Deletes the grant of this number.
    Revoke(u32),
    /// Puts an authorization and sets the counter of authorizations to its number.
    Create(Auth),
    /// Puts authorizations and sets the counter of authorizations.
    Import {
        auths: Vec<Auth>,
        created: u32,
    },
    /// Replaces the authorization of the same number.
    Amend(Auth),
    /// Deletes the authorization of this number.
    Withdraw(u32),
}

/// An edit of the rows of one resource holder.
#[derive(Drop)]
pub struct HolderChange {
    pub holder: Name,
    pub edit: Edit,
}

/// What an accepted command does to the rows.
#[derive(Drop)]
pub enum Change {
    /// Edits the rows of one holder, or for a transfer of two.
    Holders {
        first: HolderChange,
        second: Option<HolderChange>,
    },
    /// Replaces all SLURM files by these.
    Exceptions(SlurmSet),
}

/// Whether the number is one of these.
fn is_among(numbers: &[u32], number: u32) -> bool
    ensures { result ≡ list_any (λ other. number == other) numbers.now }
{
    numbers.iter().any(|other| number == *other)
}

/// Whether one of the authorizations has the number.
fn has_number(auths: &[Auth], number: u32) -> bool
    ensures { result ≡ list_any (λ auth. auth.number == number) auths.now }
{
    auths.iter().any(|auth| auth.number == number)
}

impl Edit {
    ghost use Rattle.registry.specs.Answer.{edit_imported, edit_number};
    ghost use Rattle.registry.specs.Edits.{begun, ends};

    /// The number of the grant or authorization that the edit makes; other edits make none.
    fn number(&self) -> Option<u32>
        ensures { result ≡ edit_number self.now }
    {
        match self {
            Edit::Grant(grant) => Some(grant.number),
            Edit::Create(auth) => Some(auth.number),
            Edit::Register
            | Edit::Hold { .. }
            | Edit::Revoke(_)
            | Edit::Import { .. }
            | Edit::Amend(_)
            | Edit::Withdraw(_) => None,
        }
    }

    /// How many authorizations the edit of an import makes; 0 for another edit.
    fn imported(&self) -> usize
        ensures { result ≡ edit_imported self.now }
    {
        match self {
            Edit::Import { auths, .. } => auths.len(),
            _ => 0,
        }
    }

    /// Whether the edit ends the authorization of this number: deletes or replaces it. A
    /// registration ends all, since a holder that was not registered has none.
    pub fn ends(&self, number: u32) -> bool
        ensures { result ≡ ends self.now number }
    {
        match self {
            Edit::Register => true,
            Edit::Hold { ended, .. } => is_among(ended, number),
            Edit::Amend(auth) => number == auth.number,
            Edit::Withdraw(other) => number == *other,
            Edit::Grant(_) | Edit::Revoke(_) | Edit::Create(_) | Edit::Import { .. } => false,
        }
    }

    /// The authorizations that the edit begins at a holder that has those of `beside`. An amendment
    /// begins its own only if one of them has its number.
    pub fn begun(&self, beside: &[Auth]) -> &[Auth]
        ensures { result.now ≡ begun self.now beside.now }
    {
        match self {
            Edit::Create(auth) => slice::from_ref(auth),
            Edit::Import { auths, .. } => auths,
            Edit::Amend(auth) if has_number(beside, auth.number) => slice::from_ref(auth),
            Edit::Amend(_)
            | Edit::Register
            | Edit::Hold { .. }
            | Edit::Grant(_)
            | Edit::Revoke(_)
            | Edit::Withdraw(_) => &[],
        }
    }
}

impl Change {
    ghost use Rattle.registry.specs.Answer.{imported, number_made};

    /// The number of the grant or authorization that the change makes; other changes make none.
    pub fn number(&self) -> Option<u32>
        ensures { result ≡ number_made self.now }
    {
        match self {
            Change::Holders { first, .. } => first.edit.number(),
            Change::Exceptions(_) => None,
        }
    }

    /// How many authorizations the change of an import makes; 0 for another change.
    pub fn imported(&self) -> usize
        ensures { result ≡ imported self.now }
    {
        match self {
            Change::Holders { first, .. } => first.edit.imported(),
            Change::Exceptions(_) => 0,
        }
    }
}
