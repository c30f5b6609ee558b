//! The number of schema 1.
ghost use Rattle.std.specs.Prelude.{◌≡◌, ◌↔◌, IsTrue};
ghost use Rattle.store_tables.specs.Decode.{first_columns};
ghost use Rattle.store_schema.specs.OldTables.{old_schema_row};

use sqlite::Row;
use sqlite::types::ValueRef;
use store_tables::cell;

/// Whether the row has the number of schema 1.
pub fn shows_old_schema(row: &Row) -> bool
    ensures { IsTrue result ↔ (first_columns 2 row.now ≡ old_schema_row) }
{
    match (cell(row, 0), cell(row, 1)) {
        (ValueRef::Text(name), ValueRef::Int(number)) => {
            name == b"schema".as_slice() && number == 1
        }
        _ => false,
    }
}
