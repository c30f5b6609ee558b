//! The last run that begins at or before an address, and what it decides if runs are apart.
ghost use Rattle.std.specs.Prelude.{◌≡◌, ◌≤◌, ◌↔◌, [], ◌∷◌, ℕ, List, IsTrue};
ghost use Rattle.sqlite.specs.Values.{bound};
ghost use Rattle.sqlite_value.specs.declared.value.Value.TheVariants.{Blob};
ghost use Rattle.addr.specs.Spans.{HaveAll};
ghost use Rattle.addr.specs.declared.span.Span.{Span};
ghost use Rattle.store_tables.specs.Cells.{family_number, holding_row, number_cell};
ghost use Rattle.store_tables.specs.TablesHold.{items_if_any};
ghost use Rattle.store_transactions.specs.Queries.{IsAsked, IsReadyToAsk};
ghost use Rattle.store_read.specs.Loads.{AreRunsApart, IsToldWhereApart, MeetsSome, Finds};
ghost use Rattle.store_read.specs.steps.Below.{IsRowBelow};

use crate::across::cell;
use addr::{Family, Name, Prefix};
use sqlite::types::{ToSql, ValueRef};
use sqlite::{Alter, Connection, Error, Row};
use sqlite_value::order::compare;
use store_tables::{SELECT_RUN_BELOW, address_bytes, family_number};
use store_transactions::ask;

/// A family, and the bytes of an address.
fn below_values<'a>(family: Family, address: &'a [u8]) -> [ValueRef<'a>; 2]
    ensures { bound result ≡ number_cell (family_number family) ∷ Blob address.now ∷ [] }
{
    [family_number(family).to_sql(), address.to_sql()]
}

/// The row of the last run of the family that begins at or before the address, if there is one.
fn run_below<S: Alter>(
    conn: &mut Connection<S>,
    family: Family,
    address: u128,
) -> Result<Option<Row>, Error>
    requires { IsReadyToAsk S.Store conn.old }
    ensures asked { IsAsked S.Store conn.old conn.new result }
    ensures found { Finds S.Store conn.old conn.new result (λ rows run.
        IsRowBelow rows family address run) }
{
    let bytes = address_bytes(address);
    let mut found = ask(conn, SELECT_RUN_BELOW, &below_values(family, &bytes))?;
    // One row at most is found.
    Ok(found.pop())
}

/// Whether the row of a run is one of the holder.
fn is_of(run: &Row, holder: &Name) -> bool
    ensures { (h : List ℕ) (s : Span) → run.now ≡ holding_row h s
        → IsTrue result ↔ (h ≡ holder.now) }
{
    compare(cell(run, 3), holder.as_str().to_sql()).is_eq()
}

/// Whether the row of a run is one that ends at or after the address.
fn reaches(run: &Row, address: u128) -> bool
    ensures { (h : List ℕ) (s : Span) → run.now ≡ holding_row h s
        → IsTrue result ↔ (address ≤ s.hi) }
{
    let bytes = address_bytes(address);
    compare(cell(run, 2), bytes.as_slice().to_sql()).is_ge()
}

/// Whether the holder holds every address of the prefix, if runs are apart.
pub(crate) fn is_held<S: Alter>(
    conn: &mut Connection<S>,
    holder: &Name,
    prefix: &Prefix,
) -> Result<bool, Error>
    requires { IsReadyToAsk S.Store conn.old }
    ensures asked { IsAsked S.Store conn.old conn.new result }
    ensures found { Finds S.Store conn.old conn.new result (λ rows held.
        IsToldWhereApart rows held
        (HaveAll (items_if_any (λ r. r.holdings) (rows.of_holder holder.now)) prefix.now)) }
{
    match run_below(conn, prefix.family, prefix.first)? {
        Some(run) => Ok(is_of(&run, holder) && reaches(&run, prefix.last())),
        None => Ok(false),
    }
}

/// Whether some holder holds an address of the prefix, if runs are apart.
pub(crate) fn is_taken<S: Alter>(conn: &mut Connection<S>, prefix: &Prefix) -> Result<bool, Error>
    requires { IsReadyToAsk S.Store conn.old }
    ensures asked { IsAsked S.Store conn.old conn.new result }
    ensures found { Finds S.Store conn.old conn.new result (λ rows taken.
        AreRunsApart rows → IsTrue taken ↔ MeetsSome rows prefix.now) }
{
    match run_below(conn, prefix.family, prefix.last())? {
        Some(run) => Ok(reaches(&run, prefix.first)),
        None => Ok(false),
    }
}
