//! A query of a database that has the tables of a desk.
ghost use Rattle.std.specs.Prelude.{◌≡◌, ◌≢◌, ◌⊎◌, false, List, [], ◌∷◌, ◌++◌, Err, IfOk, OnErr};
ghost use Rattle.sqlite.specs.Given.{IsPlain};
ghost use Rattle.sqlite.specs.Held.{state};
ghost use Rattle.sqlite.specs.Listing.{understood, reads_listing};
ghost use Rattle.sqlite.specs.State.{IsRolledBack, IsUnchanged, Shown, Survives};
ghost use Rattle.sqlite.specs.Values.{bound};
ghost use Rattle.sqlite_value.specs.Order.{Row as Cells};
ghost use Rattle.store_tables.specs.Tables.{OverDesk};
ghost use Rattle.store_transactions.specs.Statements.{IfAnswered, IsReady, OnCleanDisk};
ghost use Rattle.store_transactions.specs.Queries.{IsAsked, IsClean, IsReadyToAsk, IsAskedInside};
ghost use Rattle.store_transactions.specs.steps.Statements.{AnswersWith};

use crate::fault::StoreFault;
use sqlite::types::ValueRef;
use sqlite::{Alter, Connection, Error, Row, Transaction};

/// All rows that a query answers. The database stays as it is.
///
/// The text is compiled first: a connection that compiled it is known to be open, and only for an
/// open one is it known that the text commits nothing.
pub fn ask<S: Alter>(
    conn: &mut Connection<S>,
    sql: &str,
    values: &[ValueRef<'_>],
) -> Result<Vec<Row>, Error>
    requires ready { IsReadyToAsk S.Store conn.old }
    requires plain { OverDesk (λ s. IsPlain (understood s sql.now)) }
    ensures asked { IsAsked S.Store conn.old conn.new result }
    ensures shown { IsClean S.Store conn.new → IfOk result (λ rows.
        Shown sql.now (bound values.now) (state S.Store conn.old) (state S.Store conn.new)
        rows.items) }
{
    // For the proof: its contract says that outside a transaction all that is shown is committed.
    let _idle = conn.is_autocommit();
    let query = conn.prepare(sql)?;
    query.query_all(conn, values)
}

/// All rows that a query answers within a transaction. The database stays as it is.
pub fn ask_inside<S: Alter>(
    tx: &mut Transaction<'_, S>,
    sql: &str,
    values: &[ValueRef<'_>],
) -> Result<Vec<Row>, Error>
    requires ready { OnCleanDisk S.Store IsReady tx.old }
    requires plain { OverDesk (λ s. IsPlain (understood s sql.now)) }
    ensures asked { IsAskedInside S.Store tx.old tx.new result }
    ensures shown { IfAnswered S.Store result (λ rows old new.
        Shown sql.now (bound values.now) old new rows.items) tx.old tx.new }
{
    tx.query_all(sql, values)
}

/// Takes the rows of an answer, one after the other.
pub trait TakeRow: Drop {
    // What a taker may be once it took these rows, in order.
    ghost took: { Self → List Cells → Self → Type 0 };

    /// Takes one more row. What a row shows is no fault: a taker keeps in mind what it found, and
    /// takes the rest too, so that in the end it is known of a whole answer.
    fn take(self, row: &Row) -> Result<Self, StoreFault>
        ensures took { IfOk result (λ now. (start : Self) (rows : List Cells)
            → took start rows self → took start (rows ++ row.now ∷ []) now) }
        ensures no_schema { result ≢ Err StoreFault.Schema };
}

/// Hands each row that a query answers to the taker. The text commits nothing.
fn take_rows<S: Alter, T: TakeRow>(
    conn: &mut Connection<S>,
    sql: &str,
    values: &[ValueRef<'_>],
    taker: T,
) -> Result<T, StoreFault>
    requires plain { IsClean S.Store conn.old → IsPlain (understood conn.old.schema sql.now) }
    requires begun { T.took taker [] taker }
    ensures mode { conn.old.in_transaction ≡ false → conn.new.in_transaction ≡ false }
    ensures taken { IsClean S.Store conn.new → IfOk result (λ now. (rows : List Cells)
        × Shown sql.now (bound values.now) (state S.Store conn.old) (state S.Store conn.new) rows
        × T.took taker rows now) }
    ensures kept { IsClean S.Store conn.new → OnErr result
        (IsUnchanged (state S.Store conn.old) (state S.Store conn.new)
        ⊎ IsRolledBack (state S.Store conn.old) (state S.Store conn.new)) }
    ensures survives { Survives (state S.Store conn.old) (state S.Store conn.new) (λ _. ⊥) }
    ensures no_schema { result ≢ Err StoreFault.Schema }
{
    let mut now = taker;
    let mut rows = conn.query(sql, values)?;
    'rows: for _ in 0..u64::MAX {
        let Some(row) = rows.next()? else {
            return Ok(now);
        };
        now = now.take(row)?;
    }
    Err(StoreFault::Database)
}

/// Hands each row that a query answers to the taker, one after the other, so that one row is held
/// at a time. The database stays as it is.
pub fn take_each<S: Alter, T: TakeRow>(
    conn: &mut Connection<S>,
    sql: &str,
    values: &[ValueRef<'_>],
    taker: T,
) -> Result<T, StoreFault>
    requires ready { IsReadyToAsk S.Store conn.old }
    requires plain { OverDesk (λ s. IsPlain (understood s sql.now)) }
    requires unlisted { OverDesk (λ s. reads_listing s sql.now ≡ false) }
    requires begun { T.took taker [] taker }
    ensures asked { IsAsked S.Store conn.old conn.new result }
    ensures taken { IsClean S.Store conn.new → IfOk result (λ now. (rows : List Cells)
        × AnswersWith sql.now (bound values.now) (state S.Store conn.old).now rows
        × T.took taker rows now) }
    ensures no_schema { result ≢ Err StoreFault.Schema }
{
    // For the proof: its contract says that outside a transaction all that is shown is committed.
    let _idle = conn.is_autocommit();
    conn.prepare(sql)?;
    take_rows(conn, sql, values, taker)
}
