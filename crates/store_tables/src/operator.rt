//! The table `operator`, of which each row is the name of an operator.
ghost use Rattle.std.specs.Prelude.{[], ◌∷◌, IsTrue};
ghost use Rattle.addr.specs.Name.{is_name};
ghost use Rattle.sqlite_value.specs.declared.value.Value.TheVariants.{Text};

use crate::FromRow;
use crate::decode::{cell, decode_name};
use addr::Name;
use sqlite::Row;

/// Makes the table.
pub const CREATE_OPERATOR: &str = "\
    CREATE TABLE operator (name TEXT NOT NULL, PRIMARY KEY (name)) STRICT";

/// Puts an operator.
pub const INSERT_OPERATOR: &str = "INSERT INTO operator (name) VALUES (?1)";

/// All operators, and their rowids.
pub const SELECT_ALL_OPERATORS: &str = "SELECT name, rowid FROM operator ORDER BY rowid";

impl FromRow for Name {
    ghost cells = { λ text. Text text ∷ [] };

    ghost width = { 1 };

    ghost fits = { λ text. IsTrue (is_name text) };

    fn in_row(row: &Row) -> Option<Name> {
        decode_name(cell(row, 0))
    }
}
