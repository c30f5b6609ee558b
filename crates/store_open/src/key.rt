//! What is held of a claim while the rows of its entries are read.
ghost use Rattle.std.specs.Prelude.{◌≡◌};
ghost use Rattle.store_open.specs.steps.Keys.{key_cmp, key_entry_if, key_of};

use addr::{Asn, Name, RoaPrefix};
use std::cmp::Ordering;
use store_tables::{Claim, EntryRow, OfHolder};

/// What the rows of the entries of a claim have of it. An opening holds those of all claims, so it
/// leaves out the days.
#[derive(Clone, Copy)]
pub(crate) struct ClaimKey {
    holder: Name,
    number: u32,
    asn: Asn,
}

impl ClaimKey {
    /// The key of a claim.
    pub(crate) fn of(claim: &OfHolder<Claim>) -> ClaimKey
        ensures { result ≡ key_of claim.now }
    {
        ClaimKey {
            holder: claim.holder,
            number: claim.row.number,
            asn: claim.row.asn,
        }
    }

    /// The entry of the claim that the row is, if it is one.
    pub(crate) fn entry_if(&self, row: &OfHolder<EntryRow>) -> Option<RoaPrefix>
        ensures { result ≡ key_entry_if self.now row.now }
    {
        let entry = &row.row;
        if self.holder == row.holder && self.number == entry.number && self.asn == entry.asn {
            Some(entry.entry)
        } else {
            None
        }
    }

    /// The order of claims.
    pub(crate) fn order(&self, other: &ClaimKey) -> Ordering
        ensures { result ≡ key_cmp self.now other.now }
    {
        let holders = self.holder.cmp(&other.holder);
        holders.then(self.number.cmp(&other.number))
    }
}
