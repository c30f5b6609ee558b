//! The table `entry`, of which each row is the name of a holder and an entry of an authorization of
//! it: a prefix with its maxLength (RFC 9582 section 4.3.2).
ghost use Rattle.std.specs.Prelude.{◌≡◌, ◌∷◌, []};
ghost use Rattle.sqlite.specs.Values.{bound};
ghost use Rattle.registry.specs.Values.{VrpFits};
ghost use Rattle.sqlite_value.specs.declared.value.Value.TheVariants.{Blob, Text};
ghost use Rattle.store_tables.specs.Cells.{address_bytes, entry_cells, entry_row, family_number, given_cells, number_cell, vrp_cells};
ghost use Rattle.store_tables.specs.Decode.{EntryRowFits};
ghost use Rattle.store_tables.specs.Groups.{claim_entry};

use crate::FromRow;
use crate::cells::family_number;
use crate::claim::Claim;
use crate::decode::{
    cell, decode_asn, decode_max_length, decode_number, decode_prefix, decode_vrp,
};
use addr::{Asn, Family, Name, RoaPrefix, Vrp};
use sqlite::Row;
use sqlite::types::{ToSql, ValueRef};

/// Makes the table. Each entry has the AS too, so that a key prevents two authorizations from
/// giving one VRP.
pub const CREATE_ENTRY: &str = "\
    CREATE TABLE entry (holder TEXT NOT NULL, number INTEGER NOT NULL, asn INTEGER NOT NULL, \
    family INTEGER NOT NULL, lo BLOB NOT NULL, len INTEGER NOT NULL, max INTEGER NOT NULL, \
    PRIMARY KEY (holder, number, family, lo, len), UNIQUE (asn, family, lo, len, max), \
    FOREIGN KEY (holder, number) REFERENCES claim (holder, number) ON DELETE CASCADE) STRICT";

/// Puts an entry of an authorization.
pub const INSERT_ENTRY: &str = "\
    INSERT INTO entry (holder, number, asn, family, lo, len, max) \
    VALUES (?1, ?2, ?3, ?4, ?5, ?6, ?7)";

/// Deletes the entries of an authorization.
pub const DELETE_ENTRIES: &str = "DELETE FROM entry WHERE holder = ?1 AND number = ?2";

/// The entries of a holder's authorizations.
pub const SELECT_HOLDER_ENTRIES: &str = "\
    SELECT number, asn, family, lo, len, max FROM entry WHERE holder = ?1 \
    ORDER BY number, family, lo, len";

/// The entries of a holder's authorization that has a number.
pub const SELECT_NUMBERED_ENTRIES: &str = "\
    SELECT number, asn, family, lo, len, max FROM entry WHERE holder = ?1 AND number = ?2 \
    ORDER BY number, family, lo, len";

/// The entries of a holder's authorizations that give a VRP.
pub const SELECT_GIVEN_ENTRIES: &str = "\
    SELECT number, asn, family, lo, len, max FROM entry WHERE holder = ?1 AND asn = ?2 \
    AND family = ?3 AND lo = ?4 AND len = ?5 AND max = ?6 ORDER BY number, family, lo, len";

/// The entries of a holder's authorizations, of one family, that begin at or before `?3`.
pub const SELECT_ENTRIES_UP_TO: &str = "\
    SELECT number, asn, family, lo, len, max FROM entry WHERE holder = ?1 AND family = ?2 \
    AND lo <= ?3 ORDER BY number, family, lo, len";

/// All entries, the names of their holders, and their rowids.
pub const SELECT_ALL_ENTRIES: &str = "\
    SELECT number, asn, family, lo, len, max, holder, rowid FROM entry ORDER BY rowid";

/// All entries and the names of their holders, in the order of the table's key.
pub const SELECT_ENTRIES_BY_KEY: &str = "\
    SELECT number, asn, family, lo, len, max, holder FROM entry \
    ORDER BY holder, number, family, lo, len";

/// The rowids of all entries.
pub const SELECT_ENTRY_ROWIDS: &str = "SELECT rowid FROM entry ORDER BY rowid";

/// The VRPs of all entries, with the holders and the numbers of their authorizations.
pub const SELECT_PAYLOADS: &str = "\
    SELECT asn, family, lo, len, max, holder, number FROM entry";

/// An entry with the number and the AS of its authorization.
#[derive(Clone, Copy, Debug, PartialEq, Eq)]
pub struct EntryRow {
    /// The number of the authorization.
    pub number: u32,
    pub asn: Asn,
    pub entry: RoaPrefix,
}

/// The entry with the number and the AS of the claim.
pub fn entry_row_of(claim: &Claim, entry: RoaPrefix) -> EntryRow
    ensures { result ≡ claim_entry claim.now entry }
{
    EntryRow {
        number: claim.number,
        asn: claim.asn,
        entry,
    }
}

/// A row of the table, with the bytes of the first address of the entry's prefix.
pub fn entry_values<'a>(holder: &'a Name, row: &EntryRow, first: &'a [u8]) -> [ValueRef<'a>; 7]
    requires { first.now ≡ address_bytes row.now.entry.prefix.first }
    ensures { bound result ≡ entry_row holder.now row.now }
{
    [
        holder.as_str().to_sql(),
        row.number.to_sql(),
        row.asn.0.to_sql(),
        family_number(row.entry.prefix.family).to_sql(),
        first.to_sql(),
        u32::from(row.entry.prefix.length).to_sql(),
        u32::from(row.entry.max).to_sql(),
    ]
}

/// The name of a holder, and the AS, prefix and maxLength that an entry gives, with the bytes of the
/// first address of the prefix.
pub fn given_values<'a>(
    holder: &'a Name,
    asn: Asn,
    entry: &RoaPrefix,
    first: &'a [u8],
) -> [ValueRef<'a>; 6]
    requires { first.now ≡ address_bytes entry.now.prefix.first }
    ensures { bound result ≡ Text holder.now ∷ given_cells asn entry.now }
{
    [
        holder.as_str().to_sql(),
        asn.0.to_sql(),
        family_number(entry.prefix.family).to_sql(),
        first.to_sql(),
        u32::from(entry.prefix.length).to_sql(),
        u32::from(entry.max).to_sql(),
    ]
}

/// The name of a holder, a family, and the bytes of an address.
pub fn up_to_values<'a>(holder: &'a Name, family: Family, last: &'a [u8]) -> [ValueRef<'a>; 3]
    ensures { bound result
        ≡ Text holder.now ∷ number_cell (family_number family) ∷ Blob last.now ∷ [] }
{
    [
        holder.as_str().to_sql(),
        family_number(family).to_sql(),
        last.to_sql(),
    ]
}

impl FromRow for EntryRow {
    ghost cells = { entry_cells };

    ghost width = { 6 };

    ghost fits = { EntryRowFits };

    fn in_row(row: &Row) -> Option<EntryRow> {
        let prefix = decode_prefix(cell(row, 2), cell(row, 3), cell(row, 4))?;
        Some(EntryRow {
            number: decode_number(cell(row, 0))?,
            asn: decode_asn(cell(row, 1))?,
            entry: RoaPrefix {
                prefix,
                max: decode_max_length(&prefix, cell(row, 5))?,
            },
        })
    }
}

impl FromRow for Vrp {
    ghost cells = { vrp_cells };

    ghost width = { 5 };

    ghost fits = { VrpFits };

    fn in_row(row: &Row) -> Option<Vrp> {
        decode_vrp(
            cell(row, 0),
            cell(row, 1),
            cell(row, 2),
            cell(row, 3),
            cell(row, 4),
        )
    }
}
