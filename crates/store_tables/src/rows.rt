//! Reads rows as values. A row that shows no value of its type is of another schema.
ghost use Rattle.std.specs.Prelude.{◌≡◌, ◌≤◌, ℕ, [], map, length, vec_capacity};
ghost use Rattle.sqlite_value.specs.Order.{Row as Cells};
ghost use Rattle.store_tables.specs.Decode.{Decodes, DecodesAll, first_columns};

use sqlite::Row;

/// A value that the first columns of a row show.
pub trait FromRow: Drop {
    ghost cells: { Self → Cells };

    // How many columns those are.
    ghost width: { ℕ };

    // The value is one of its Rust type, as a number below 2 ^ 32 is one of `u32`, and in the range
    // that a row needs. Each such value is read from the cells that it shows.
    ghost fits: { Self → Type 0 };

    /// The value that the first columns show, if they show one.
    fn in_row(row: &Row) -> Option<Self>
        ensures { Decodes cells fits (first_columns width row.now) result };
}

/// The values that the rows show, in their order, in a vector that has room for them; `None` if
/// some row shows no value.
pub fn in_rows<T: FromRow>(mut values: Vec<T>, rows: &[Row]) -> Option<Vec<T>>
    requires empty { values.items ≡ [] }
    requires room { length rows.now ≤ vec_capacity values }
    ensures { DecodesAll T.cells T.fits (map (first_columns T.width) rows.now) result }
{
    for row in rows {
        let value = T::in_row(row)?;
        values.push(value).unwrap();
    }
    Some(values)
}
