//! Making the tables of a desk in a database that has none.
ghost use Rattle.std.specs.Prelude.{◌≡◌, ◌≢◌, ◌↔◌, false, None, Err, OnOk, OnErr, IsTrue};
ghost use Rattle.sqlite.specs.Held.{state};
ghost use Rattle.sqlite.specs.State.{HasCleanDisk};
ghost use Rattle.registry.specs.RowsOfAll.{blank_rows};
ghost use Rattle.store_transactions.specs.Databases.{IsUnused, IsNew, IsDeskTrees, LeavesOldOrNew};
ghost use Rattle.store_tables.specs.Tables.{blank_schema};
ghost use Rattle.store_tables.specs.TablesHold.{TablesHold};
ghost use Rattle.store_transactions.specs.Statements.{IfCommitted, IfRolledBack, CommitsAtMost, OnCleanDisk, IfDone, StaysInside};
ghost use Rattle.store_schema.specs.Moving.{IsOverOld};
ghost use Rattle.store_schema.specs.Making.{schema_so_far, IsOver, IsMadeTo};
ghost use Rattle.store_schema.specs.steps.Making.{MakesClaimTables};

use crate::charter::put_charter;
use registry::Charter;
use sqlite::{Alter, Connection, Error, Transaction};
use sqlite_schema::schema::Schema;
use store_tables::{
    CREATE_AUTH, CREATE_CLAIM, CREATE_ENTRY, CREATE_GRANTED, CREATE_HOLDER, CREATE_HOLDING,
    CREATE_HOLDING_INDEX, CREATE_META, CREATE_OPERATOR, CREATE_POOL, CREATE_SLURM,
};
use store_transactions::{StoreFault, execute};

/// Makes the tables `meta`, `operator`, `pool` and `holder` in a database that has no table.
fn make_first_tables<S: Alter>(tx: &mut Transaction<'_, S>) -> Result<(), Error>
    requires { OnCleanDisk S.Store (IsMadeTo 0) tx.old }
    ensures made { IfDone S.Store result (λ _. IsMadeTo 4) tx.old tx.new }
    ensures inside { StaysInside S.Store tx.old tx.new }
{
    execute(tx, CREATE_META, &[])?;
    execute(tx, CREATE_OPERATOR, &[])?;
    execute(tx, CREATE_POOL, &[])?;
    execute(tx, CREATE_HOLDER, &[])
}

/// Makes the tables `holding`, `granted`, `auth` and `slurm` after the first four.
fn make_other_tables<S: Alter>(tx: &mut Transaction<'_, S>) -> Result<(), Error>
    requires { OnCleanDisk S.Store (IsMadeTo 4) tx.old }
    ensures made { IfDone S.Store result (λ _. IsMadeTo 8) tx.old tx.new }
    ensures inside { StaysInside S.Store tx.old tx.new }
{
    execute(tx, CREATE_HOLDING, &[])?;
    execute(tx, CREATE_GRANTED, &[])?;
    execute(tx, CREATE_AUTH, &[])?;
    execute(tx, CREATE_SLURM, &[])
}

/// Makes the tables `claim` and `entry` after the first eight.
pub(crate) fn make_claim_tables<S: Alter>(tx: &mut Transaction<'_, S>) -> Result<(), Error>
    requires { OnCleanDisk S.Store (IsOver (schema_so_far 8)) tx.old }
    ensures made { IfDone S.Store result MakesClaimTables tx.old tx.new }
    ensures inside { StaysInside S.Store tx.old tx.new }
{
    execute(tx, CREATE_CLAIM, &[])?;
    execute(tx, CREATE_ENTRY, &[])
}

/// Makes the tables `claim` and `entry` after the first eight, and then the index of a holder's
/// runs.
fn make_last_tables<S: Alter>(tx: &mut Transaction<'_, S>) -> Result<(), Error>
    requires { OnCleanDisk S.Store (IsMadeTo 8) tx.old }
    ensures made { IfDone S.Store result (λ _. IsMadeTo 11) tx.old tx.new }
    ensures inside { StaysInside S.Store tx.old tx.new }
{
    make_claim_tables(tx)?;
    execute(tx, CREATE_HOLDING_INDEX, &[])
}

/// Makes the tables of a desk and the index in a database that has no table.
pub fn make_schema<S: Alter>(tx: &mut Transaction<'_, S>) -> Result<(), Error>
    requires { OnCleanDisk S.Store (IsMadeTo 0) tx.old }
    ensures made { IfDone S.Store result (λ _. IsMadeTo 11) tx.old tx.new }
    ensures inside { StaysInside S.Store tx.old tx.new }
{
    make_first_tables(tx)?;
    make_other_tables(tx)?;
    make_last_tables(tx)
}

/// Makes the index of a holder's runs after the tables of schema 1, if it is wanted.
fn make_old_index<S: Alter>(tx: &mut Transaction<'_, S>, is_wanted: bool) -> Result<(), Error>
    requires { OnCleanDisk S.Store (IsMadeTo 8) tx.old }
    ensures made { IfDone S.Store result (λ _. IsOverOld is_wanted) tx.old tx.new }
    ensures inside { StaysInside S.Store tx.old tx.new }
{
    if is_wanted {
        execute(tx, CREATE_HOLDING_INDEX, &[])?;
    }
    Ok(())
}

/// Makes the tables of schema 1 in a database that has no table, with the index or without it.
pub fn make_old_schema<S: Alter>(tx: &mut Transaction<'_, S>, has_index: bool) -> Result<(), Error>
    requires { OnCleanDisk S.Store (IsMadeTo 0) tx.old }
    ensures made { IfDone S.Store result (λ _. IsOverOld has_index) tx.old tx.new }
    ensures inside { StaysInside S.Store tx.old tx.new }
{
    make_first_tables(tx)?;
    make_other_tables(tx)?;
    make_old_index(tx, has_index)
}

/// Whether the database has no table, index or view.
fn is_blank(schema: &Schema) -> bool
    ensures { IsTrue result ↔ (schema.now ≡ blank_schema) }
{
    schema.tables.is_empty() && schema.indexes.is_empty() && schema.views.is_empty()
}

/// Makes the tables of a desk and the index in a database that has none, with its charter, in one
/// transaction.
fn commit_tables<S: Alter>(conn: &mut Connection<S>, charter: &Charter) -> Result<(), StoreFault>
    requires idle { conn.old.in_transaction ≡ false }
    requires blank { HasCleanDisk (state S.Store conn.old)
        → (state S.Store conn.old).now.schema ≡ blank_schema }
    ensures idle { conn.new.in_transaction ≡ false }
    ensures made { IfCommitted S.Store result (λ _. IsNew charter.now) conn.old conn.new }
    ensures err { IfRolledBack S.Store result conn.old conn.new }
    ensures crash { CommitsAtMost S.Store
        (λ _ trees. TablesHold charter.now blank_rows trees × IsDeskTrees trees)
        conn.old conn.new }
    ensures no_schema { result ≢ Err StoreFault.Schema }
{
    // For the proof: its contract says that outside a transaction all that is shown is committed.
    let _idle = conn.is_autocommit();
    let mut tx = conn.transaction();
    make_schema(&mut tx)?;
    put_charter(&mut tx, charter)?;
    tx.commit()?;
    Ok(())
}

/// Makes a desk of a database that has no table yet, and lifts the limit of its steps. Every other
/// database stays as it is, and so does one in a transaction.
pub fn make_tables<S: Alter>(conn: &mut Connection<S>, charter: &Charter) -> Result<(), StoreFault>
    ensures unused { OnOk result (IsUnused (state S.Store conn.old)) }
    ensures idle { OnOk result (conn.new.in_transaction ≡ false) }
    ensures unlimited { OnOk result (conn.new.step_limit ≡ None) }
    ensures made { IfCommitted S.Store result (λ _. IsNew charter.now) conn.old conn.new }
    ensures mode { OnErr result (conn.new.in_transaction ≡ conn.old.in_transaction) }
    ensures err { IfRolledBack S.Store result conn.old conn.new }
    ensures clean { HasCleanDisk (state S.Store conn.new) → HasCleanDisk (state S.Store conn.old) }
    ensures crash { HasCleanDisk (state S.Store conn.new)
        → LeavesOldOrNew charter.now (state S.Store conn.old) (state S.Store conn.new) }
    ensures no_schema { result ≢ Err StoreFault.Schema }
{
    if !conn.is_autocommit() || !is_blank(conn.schema()) {
        return Err(StoreFault::Database);
    }
    conn.set_step_limit(None);
    commit_tables(conn, charter)
}
