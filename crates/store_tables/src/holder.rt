//! The table `holder`: the registered resource holders, and how many grants and authorizations each
//! has made.
ghost use Rattle.std.specs.Prelude.{IsTrue};
ghost use Rattle.addr.specs.Name.{is_name};
ghost use Rattle.registry.specs.Values.{IsCount};
ghost use Rattle.store_tables.specs.Cells.{counter_cells, holder_row};

use crate::FromRow;
use crate::decode::{cell, decode_count, decode_name};
use addr::Name;
use sqlite::Row;

/// Makes the table.
pub const CREATE_HOLDER: &str = "\
    CREATE TABLE holder (name TEXT NOT NULL, grants INTEGER NOT NULL, auths INTEGER NOT NULL, \
    PRIMARY KEY (name)) STRICT";

/// Puts a holder that has made nothing.
pub const INSERT_HOLDER: &str = "INSERT INTO holder (name, grants, auths) VALUES (?1, 0, 0)";

/// Sets how many grants were made at a holder.
pub const UPDATE_GRANTED: &str = "UPDATE holder SET grants = ?2 WHERE name = ?1";

/// Sets how many authorizations were made at a holder.
pub const UPDATE_CREATED: &str = "UPDATE holder SET auths = ?2 WHERE name = ?1";

/// The counters of a holder.
pub const SELECT_COUNTERS: &str = "SELECT grants, auths FROM holder WHERE name = ?1";

/// All holders, and their rowids.
pub const SELECT_ALL_HOLDERS: &str = "SELECT name, grants, auths, rowid FROM holder ORDER BY rowid";

/// How many grants and authorizations a resource holder has made.
#[derive(Clone, Copy, Debug, PartialEq, Eq)]
pub struct Counters {
    pub granted: u32,
    pub created: u32,
}

impl FromRow for Counters {
    ghost cells = { λ counters. counter_cells counters.granted counters.created };

    ghost width = { 2 };

    ghost fits = { λ counters. IsCount counters.granted × IsCount counters.created };

    fn in_row(row: &Row) -> Option<Counters> {
        Some(Counters {
            granted: decode_count(cell(row, 0))?,
            created: decode_count(cell(row, 1))?,
        })
    }
}

/// A registered resource holder.
#[derive(Drop)]
pub struct Registered {
    pub name: Name,
    pub counters: Counters,
}

impl FromRow for Registered {
    ghost cells = { λ holder.
        holder_row holder.name holder.counters.granted holder.counters.created };

    ghost width = { 3 };

    ghost fits = { λ holder. IsTrue (is_name holder.name)
        × IsCount holder.counters.granted × IsCount holder.counters.created };

    fn in_row(row: &Row) -> Option<Registered> {
        Some(Registered {
            name: decode_name(cell(row, 0))?,
            counters: Counters {
                granted: decode_count(cell(row, 1))?,
                created: decode_count(cell(row, 2))?,
            },
        })
    }
}
