//! Joins a list of claims and a list of the rows of their entries.
ghost use Rattle.std.specs.Prelude.{◌≡◌, Option, Some, IfOk, MatchOption};
ghost use Rattle.addr.specs.declared.roa_prefix.RoaPrefix.{RoaPrefix};
ghost use Rattle.store_tables.specs.Cells.{claim_cells, entry_cells, named_cells};
ghost use Rattle.store_tables.specs.Decode.{ClaimFits, EntryRowFits, NamedFits};
ghost use Rattle.store_tables.specs.Groups.{AllApart, AreGroups, HasNoGroups, claim_entry, holder_entry};
ghost use Rattle.store_tables.specs.steps.Groups.{entry_found, entry_if, first_entries, holder_entry_found, holder_entry_if, only_found, only_found_of_holder};

use crate::decode::{cell, decode_name};
use crate::{Claim, EntryRow, FromRow};
use addr::{Name, RoaPrefix};
use registry::RoaPrefixes;
use sqlite::Row;
use std::alloc::{AllocError, Global};

/// A claim with its entries.
#[derive(Debug, Drop)]
pub struct Group<C> {
    pub claim: C,
    pub entries: RoaPrefixes,
}

/// A claim, or a row of an entry, with the name of its holder.
#[derive(Clone, Copy, Debug)]
pub struct OfHolder<T> {
    pub holder: Name,
    pub row: T,
}

/// A claim whose entries are rows of another type.
pub trait HasEntries<R>: Copy {
    // The row of an entry of the claim.
    ghost written: { Self → RoaPrefix → R };

    // The entry of the claim that a row is, if it is one.
    ghost entry_if: { Self → R → Option RoaPrefix };

    /// The entry of the claim that the row is, if it is one.
    fn entry_if(&self, row: &R) -> Option<RoaPrefix>
        ensures { result ≡ entry_if self.now row.now };

    // An entry is found in its row, and only there.
    ghost found: { (c : Self) (e : RoaPrefix) → entry_if c (written c e) ≡ Some e };

    ghost only: { (c : Self) (r : R) (e : RoaPrefix) → entry_if c r ≡ Some e → r ≡ written c e };
}

/// The entries that the first rows are, up to the first row that is no entry of the claim.
pub fn first_entries<R, C: HasEntries<R>>(
    alloc: Global,
    claim: &C,
    rows: &[R],
) -> Result<Vec<RoaPrefix>, AllocError>
    ensures { IfOk result (λ found. found.items
        ≡ first_entries (C.entry_if claim.now) rows.now) }
{
    let mut entries = Vec::new(alloc);
    for row in rows {
        let Some(entry) = claim.entry_if(row) else {
            break;
        };
        entries.push(entry)?;
    }
    Ok(entries)
}

/// Joins claims and the rows of their entries, both in one order. If no row can be an entry of two
/// of the claims, `None` means that no claims with entries have just these claims and rows.
pub fn group_entries<R, C: HasEntries<R>>(
    alloc: Global,
    claims: &[C],
    rows: &[R],
) -> Result<Option<Vec<Group<C>>>, AllocError>
    ensures { IfOk result (λ found. MatchOption found
        (AllApart C.written claims.now → HasNoGroups C.written claims.now rows.now)
        (λ groups. AreGroups C.written claims.now rows.now groups.items)) }
{
    let mut groups = Vec::new(alloc);
    let mut rest = rows;
    for claim in claims {
        let entries = first_entries(alloc, claim, rest)?;
        (_, rest) = rest.split_at(entries.len());
        let Some(entries) = RoaPrefixes::in_order(entries) else {
            return Ok(None);
        };
        groups.push(Group {
            claim: *claim,
            entries,
        })?;
    }
    Ok(rest.is_empty().then_some(groups))
}

impl HasEntries<EntryRow> for Claim {
    ghost written = { claim_entry };

    ghost entry_if = { entry_if };

    fn entry_if(&self, row: &EntryRow) -> Option<RoaPrefix> {
        (self.number == row.number && self.asn == row.asn).then_some(row.entry)
    }

    ghost found = { entry_found };

    ghost only = { only_found };
}

impl<R, C: HasEntries<R>> HasEntries<OfHolder<R>> for OfHolder<C> {
    ghost written = { holder_entry C.written };

    ghost entry_if = { holder_entry_if C.entry_if };

    fn entry_if(&self, row: &OfHolder<R>) -> Option<RoaPrefix> {
        if self.holder == row.holder {
            self.row.entry_if(&row.row)
        } else {
            None
        }
    }

    ghost found = { holder_entry_found C.written C.entry_if C.found };

    ghost only = { only_found_of_holder C.written C.entry_if C.only };
}

impl FromRow for OfHolder<Claim> {
    ghost cells = { named_cells claim_cells };

    ghost width = { 5 };

    ghost fits = { NamedFits ClaimFits };

    fn in_row(row: &Row) -> Option<OfHolder<Claim>> {
        let claim = Claim::in_row(row)?;
        let holder = decode_name(cell(row, 4))?;
        Some(OfHolder { holder, row: claim })
    }
}

impl FromRow for OfHolder<EntryRow> {
    ghost cells = { named_cells entry_cells };

    ghost width = { 7 };

    ghost fits = { NamedFits EntryRowFits };

    fn in_row(row: &Row) -> Option<OfHolder<EntryRow>> {
        let entry = EntryRow::in_row(row)?;
        let holder = decode_name(cell(row, 6))?;
        Some(OfHolder { holder, row: entry })
    }
}
