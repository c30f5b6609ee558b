//! Checks whether the rowids of rows rise.
ghost use Rattle.std.specs.Prelude.{◌≡◌, ◌↔◌, true, length, All, IsTrue};
ghost use Rattle.std.specs.List.{AllAdjacentBelow};
ghost use Rattle.sqlite_value.specs.Value.{owned};
ghost use Rattle.sqlite_trees.specs.View.{is_int};
ghost use Rattle.store_open.specs.steps.Numbered.{last_value, is_integer_below, AscendByNumber};

use sqlite::Row;
use sqlite::types::ValueRef;

/// The last value of the row, or NULL if there is none.
pub(crate) fn last_value(row: &Row) -> ValueRef<'_>
    ensures { owned result ≡ last_value row.now }
{
    let last = row.column_count().saturating_sub(1);
    row.get_ref(last).unwrap_or(ValueRef::Null)
}

/// Whether the last value of the row is an integer.
fn ends_in_integer(row: &Row) -> bool
    ensures { result ≡ is_int (last_value row.now) }
{
    matches!(last_value(row), ValueRef::Int(_))
}

/// Whether the rows end in integers, of which the first is below the second.
fn is_integer_below(row: &Row, next: &Row) -> bool
    ensures { result ≡ is_integer_below (last_value row.now) (last_value next.now) }
{
    match (last_value(row), last_value(next)) {
        (ValueRef::Int(one), ValueRef::Int(other)) => one < other,
        _ => false,
    }
}

/// Whether each row ends in an integer.
fn end_in_integers(rows: &[Row]) -> bool
    ensures { IsTrue result ↔ All (λ c. is_int (last_value c) ≡ true) rows.now }
{
    rows.iter().all(ends_in_integer)
}

/// Whether each row ends in an integer that is below that of the next.
fn are_below_the_next(rows: &[Row]) -> bool
    ensures { IsTrue result
        → AllAdjacentBelow (λ a b. is_integer_below (last_value a) (last_value b) ≡ true)
        rows.now (length rows.now) }
{
    rows.is_sorted_by(|row, next| is_integer_below(row, next))
}

/// Whether the rows end in integers that rise.
pub(crate) fn rise(rows: &[Row]) -> bool
    ensures { IsTrue result → AscendByNumber rows.now }
{
    end_in_integers(rows) && are_below_the_next(rows)
}
