//! The values that the rows of an answer are read as.
ghost use Rattle.std.specs.Prelude.{◌≡◌, ◌≢◌, ◌≤◌, ◌↔◌, [], map, length, All, Any, Err, IfOk, vec_capacity};
ghost use Rattle.store_tables.specs.Decode.{ShowsNone, first_columns};

use crate::fault::StoreFault;
use sqlite::Row;
use std::alloc::Global;
use store_tables::{FromRow, in_rows};

/// The values that the first columns of the rows show, in their order. If a row shows none, the
/// fault is `Schema`.
pub fn read_all<T: FromRow>(alloc: Global, rows: &[Row]) -> Result<Vec<T>, StoreFault>
    ensures shown { IfOk result (λ values.
        map (first_columns T.width) rows.now ≡ map T.cells values.items) }
    ensures fits { IfOk result (λ values. All T.fits values.items) }
    ensures schema { result ≡ Err StoreFault.Schema
        → Any (ShowsNone T.cells T.fits) (map (first_columns T.width) rows.now) }
{
    read_within(Vec::with_capacity(alloc, rows.len())?, rows)
}

/// The same into a vector that has room for them, so that only a row that shows none is a fault.
fn read_within<T: FromRow>(values: Vec<T>, rows: &[Row]) -> Result<Vec<T>, StoreFault>
    requires empty { values.items ≡ [] }
    requires room { length rows.now ≤ vec_capacity values }
    ensures shown { IfOk result (λ values.
        map (first_columns T.width) rows.now ≡ map T.cells values.items) }
    ensures fits { IfOk result (λ values. All T.fits values.items) }
    ensures schema { result ≡ Err StoreFault.Schema
        ↔ Any (ShowsNone T.cells T.fits) (map (first_columns T.width) rows.now) }
    ensures no_database { result ≢ Err StoreFault.Database }
{
    in_rows(values, rows).ok_or(StoreFault::Schema)
}
