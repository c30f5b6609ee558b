//! Opening a database that has the tables of a desk, or those of schema 1.
ghost use Rattle.std.specs.Prelude.{◌≡◌, false, None, Err, OnOk, IfOk, IsTrue};
ghost use Rattle.sqlite.specs.Held.{state};
ghost use Rattle.store_schema.specs.Making.{IsOver};
ghost use Rattle.store_transactions.specs.Statements.{IfAnswered, IfRolledBack, StaysInside, OnCleanDisk};
ghost use Rattle.store_schema.specs.Moving.{old_schema_if};
ghost use Rattle.store_open.specs.Opening.{IsOfAnotherSchema, IsStrange, LeavesOldOrMoved, OpensDesk};
ghost use Rattle.store_open.specs.OldTablesRead.{OldTablesRead};
ghost use Rattle.store_transactions.specs.Queries.{IsClean};
ghost use Rattle.store_open.specs.steps.Found.{HasFound};
ghost use Rattle.store_open.specs.steps.Moving.{MovesDesk};
ghost use Rattle.store_open.specs.steps.Reading.{RefusesIn};

use crate::found::{Found, find_tables};
use crate::reading::{read_inside, read_number, read_tables};
use registry::Charter;
use sqlite::{Alter, Connection, Transaction};
use std::alloc::Global;
use store_schema::{move_rows, widen_tables};
use store_transactions::StoreFault;

/// Finds which tables a database has. A connection in a transaction is refused, and a limit of its
/// steps is lifted.
fn find_in<S: Alter>(conn: &mut Connection<S>, alloc: Global) -> Result<Found, StoreFault>
    ensures same { conn.new ≡ record conn.old { step_limit = conn.new.step_limit } }
    ensures idle { OnOk result (conn.new.in_transaction ≡ false) }
    ensures unlimited { OnOk result (conn.new.step_limit ≡ None) }
    ensures settled { OnOk result (IsTrue (state S.Store conn.new).is_open
        → (state S.Store conn.new).committed ≡ (state S.Store conn.new).now) }
    ensures found { IfOk result (HasFound conn.new.schema) }
    ensures schema { result ≡ Err StoreFault.Schema → IsStrange conn.new.schema }
{
    if !conn.is_autocommit() {
        return Err(StoreFault::Database);
    }
    conn.set_step_limit(None);
    find_tables(alloc, conn.schema())
}

/// Moves a database of schema 1, and reads all rows of the desk that it becomes.
fn move_desk<S: Alter>(
    tx: &mut Transaction<'_, S>,
    alloc: Global,
    has_index: bool,
) -> Result<Charter, StoreFault>
    requires { OnCleanDisk S.Store (IsOver (old_schema_if has_index)) tx.old }
    ensures moved { IfAnswered S.Store result
        (λ charter old. MovesDesk charter old.now.trees) tx.old tx.new }
    ensures inside { StaysInside S.Store tx.old tx.new }
    ensures schema { RefusesIn S.Store tx.old.conn.now tx.new.conn.now result
        (λ db. ¬ OldTablesRead db.trees) }
{
    widen_tables(tx, has_index)?;
    read_number(tx, true)?;
    move_rows(tx)?;
    read_inside(tx, alloc)
}

/// Moves a database of schema 1 in one transaction, and returns the charter of the desk that it
/// becomes.
fn open_old<S: Alter>(
    conn: &mut Connection<S>,
    alloc: Global,
    has_index: bool,
) -> Result<Charter, StoreFault>
    requires idle { conn.old.in_transaction ≡ false }
    requires schema { conn.old.schema ≡ old_schema_if has_index }
    ensures idle { conn.new.in_transaction ≡ false }
    ensures limit { conn.new.step_limit ≡ conn.old.step_limit }
    ensures clean { IsClean S.Store conn.new → IsClean S.Store conn.old }
    ensures opened { IsClean S.Store conn.new → IfOk result
        (λ charter. OpensDesk charter (state S.Store conn.old) (state S.Store conn.new)) }
    ensures err { IfRolledBack S.Store result conn.old conn.new }
    ensures crash { IsClean S.Store conn.new
        → LeavesOldOrMoved (state S.Store conn.old) (state S.Store conn.new) }
    ensures unread { RefusesIn S.Store conn.old conn.new result (λ db. ¬ OldTablesRead db.trees) }
{
    // For the proof: its contract says that outside a transaction all that is shown is committed.
    let _idle = conn.is_autocommit();
    let mut tx = conn.transaction();
    let charter = move_desk(&mut tx, alloc, has_index)?;
    tx.commit()?;
    Ok(charter)
}

/// Reads every row of a desk and returns its charter. Nothing is written, except that a database
/// of schema 1 is moved. A connection in a transaction is refused, and a limit of its steps is
/// lifted.
pub fn open_tables<S: Alter>(conn: &mut Connection<S>, alloc: Global) -> Result<Charter, StoreFault>
    ensures idle { OnOk result (conn.new.in_transaction ≡ false) }
    ensures unlimited { OnOk result (conn.new.step_limit ≡ None) }
    ensures clean { IsClean S.Store conn.new → IsClean S.Store conn.old }
    ensures opened { IsClean S.Store conn.new → IfOk result
        (λ charter. OpensDesk charter (state S.Store conn.old) (state S.Store conn.new)) }
    ensures err { IfRolledBack S.Store result conn.old conn.new }
    ensures crash { IsClean S.Store conn.new
        → LeavesOldOrMoved (state S.Store conn.old) (state S.Store conn.new) }
    ensures schema { IsClean S.Store conn.new → result ≡ Err StoreFault.Schema
        → IsOfAnotherSchema (state S.Store conn.old).now }
{
    match find_in(conn, alloc)? {
        Found::Desk => read_tables(conn, alloc),
        Found::Old(has_index) => open_old(conn, alloc, has_index),
    }
}
