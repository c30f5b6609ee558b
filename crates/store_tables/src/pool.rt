//! The table `pool`, of which each row is a prefix of the pool.
ghost use Rattle.std.specs.Prelude.{⊤};
ghost use Rattle.store_tables.specs.Cells.{prefix_cells};

use crate::FromRow;
use crate::decode::{cell, decode_prefix};
use addr::Prefix;
use sqlite::Row;

/// Makes the table.
pub const CREATE_POOL: &str = "\
    CREATE TABLE pool (family INTEGER NOT NULL, lo BLOB NOT NULL, len INTEGER NOT NULL, \
    PRIMARY KEY (family, lo, len)) STRICT";

/// Puts a prefix.
pub const INSERT_PREFIX: &str = "INSERT INTO pool (family, lo, len) VALUES (?1, ?2, ?3)";

/// All prefixes, and their rowids.
pub const SELECT_ALL_PREFIXES: &str = "SELECT family, lo, len, rowid FROM pool ORDER BY rowid";

impl FromRow for Prefix {
    ghost cells = { prefix_cells };

    ghost width = { 3 };

    ghost fits = { λ _. ⊤ };

    fn in_row(row: &Row) -> Option<Prefix> {
        decode_prefix(cell(row, 0), cell(row, 1), cell(row, 2))
    }
}
