//! The table `holding`, of which each row is a run of addresses and the name of its holder.
ghost use Rattle.std.specs.Prelude.{◌≡◌, ⊤};
ghost use Rattle.sqlite.specs.Values.{bound};
ghost use Rattle.store_tables.specs.Cells.{address_bytes, span_cells, holding_row};

use crate::FromRow;
use crate::cells::family_number;
use crate::decode::{cell, decode_span};
use addr::{Name, Span};
use sqlite::Row;
use sqlite::types::{ToSql, ValueRef};

/// Makes the table.
pub const CREATE_HOLDING: &str = "\
    CREATE TABLE holding (family INTEGER NOT NULL, lo BLOB NOT NULL, hi BLOB NOT NULL, \
    holder TEXT NOT NULL REFERENCES holder (name), PRIMARY KEY (family, lo)) STRICT";

/// Makes the index of a holder's runs.
pub const CREATE_HOLDING_INDEX: &str = "CREATE INDEX holding_of ON holding (holder)";

/// Puts a run of a holder.
pub const INSERT_HOLDING: &str = "\
    INSERT INTO holding (family, lo, hi, holder) VALUES (?1, ?2, ?3, ?4)";

/// Deletes a run of a holder.
pub const DELETE_HOLDING: &str = "\
    DELETE FROM holding WHERE family = ?1 AND lo = ?2 AND hi = ?3 AND holder = ?4";

/// The runs of a holder.
pub const SELECT_HOLDER_SPANS: &str = "\
    SELECT family, lo, hi FROM holding WHERE holder = ?1 ORDER BY family, lo";

/// All runs, and their rowids.
pub const SELECT_ALL_SPANS: &str = "SELECT family, lo, hi, rowid FROM holding ORDER BY rowid";

/// One row if some holder has an address from `?2` to `?3`.
pub const SELECT_OVERLAP: &str = "\
    SELECT 1 FROM holding WHERE family = ?1 AND lo <= ?3 AND hi >= ?2 LIMIT 1";

/// The last run of a family that begins at or before `?2`, and its holder.
pub const SELECT_RUN_BELOW: &str = "\
    SELECT family, lo, hi, holder FROM holding WHERE family = ?1 AND lo <= ?2 \
    ORDER BY lo DESC LIMIT 1";

/// A row of the table, with the bytes of the run's first and last address.
pub fn holding_values<'a>(
    holder: &'a Name,
    span: &Span,
    first: &'a [u8],
    last: &'a [u8],
) -> [ValueRef<'a>; 4]
    requires first { first.now ≡ address_bytes span.now.lo }
    requires last { last.now ≡ address_bytes span.now.hi }
    ensures { bound result ≡ holding_row holder.now span.now }
{
    [
        family_number(span.family).to_sql(),
        first.to_sql(),
        last.to_sql(),
        holder.as_str().to_sql(),
    ]
}

impl FromRow for Span {
    ghost cells = { span_cells };

    ghost width = { 3 };

    ghost fits = { λ _. ⊤ };

    fn in_row(row: &Row) -> Option<Span> {
        decode_span(cell(row, 0), cell(row, 1), cell(row, 2))
    }
}
