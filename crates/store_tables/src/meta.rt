//! The table `meta`, whose one row has the number of the schema.
ghost use Rattle.std.specs.Prelude.{◌≡◌, ◌↔◌, IsTrue};
ghost use Rattle.store_tables.specs.Cells.{schema_row};
ghost use Rattle.store_tables.specs.Decode.{first_columns};

use crate::decode::cell;
use sqlite::Row;
use sqlite::types::ValueRef;

/// The number of the schema.
pub const SCHEMA: u32 = 2;

/// Makes the table.
pub const CREATE_META: &str = "\
    CREATE TABLE meta (name TEXT NOT NULL, value INTEGER NOT NULL, PRIMARY KEY (name)) STRICT";

/// Puts the number of the schema.
pub const INSERT_SCHEMA: &str = "INSERT INTO meta (name, value) VALUES ('schema', 2)";

/// Its rows, and their rowids.
pub const SELECT_SCHEMA: &str = "SELECT name, value, rowid FROM meta ORDER BY rowid";

/// Whether the row has the number of this schema.
pub fn shows_schema(row: &Row) -> bool
    ensures { IsTrue result ↔ (first_columns 2 row.now ≡ schema_row) }
{
    match (cell(row, 0), cell(row, 1)) {
        (ValueRef::Text(name), ValueRef::Int(number)) => name == b"schema".as_slice()
            && number == i64::from(SCHEMA),
        _ => false,
    }
}
