//! Moving the rows of schema 1 to the tables of a desk, within a transaction.
ghost use Rattle.store_transactions.specs.Statements.{OnCleanDisk, IfDone, StaysInside};
ghost use Rattle.store_schema.specs.Making.{IsOver};
ghost use Rattle.store_schema.specs.Moving.{old_schema_if, wide_schema, WidensTables, MovesRows};
ghost use Rattle.store_schema.specs.steps.Making.{DropsIndex};
ghost use Rattle.store_tables.specs.Tables.{desk_schema};

use crate::make::make_claim_tables;
use crate::statements::{
    COPY_CLAIMS, COPY_ENTRIES, DELETE_ALL_AUTHS, DROP_HOLDING_INDEX, UPDATE_SCHEMA,
};
use sqlite::{Alter, Error, Transaction};
use store_tables::CREATE_HOLDING_INDEX;
use store_transactions::execute;

/// Drops the index of a holder's runs, if the database has it.
fn drop_index<S: Alter>(tx: &mut Transaction<'_, S>, has_index: bool) -> Result<(), Error>
    requires { OnCleanDisk S.Store (IsOver (old_schema_if has_index)) tx.old }
    ensures dropped { IfDone S.Store result DropsIndex tx.old tx.new }
    ensures inside { StaysInside S.Store tx.old tx.new }
{
    if has_index {
        execute(tx, DROP_HOLDING_INDEX, &[])?;
    }
    Ok(())
}

/// Adds the tables `claim` and `entry` to those of schema 1, whose rows stay, and drops the index
/// of a holder's runs.
pub fn widen_tables<S: Alter>(tx: &mut Transaction<'_, S>, has_index: bool) -> Result<(), Error>
    requires { OnCleanDisk S.Store (IsOver (old_schema_if has_index)) tx.old }
    ensures widened { IfDone S.Store result WidensTables tx.old tx.new }
    ensures inside { StaysInside S.Store tx.old tx.new }
{
    drop_index(tx, has_index)?;
    make_claim_tables(tx)
}

/// Moves the rows of `auth` to `claim` and `entry`, and sets the number of the schema.
fn edit_rows<S: Alter>(tx: &mut Transaction<'_, S>) -> Result<(), Error>
    requires { OnCleanDisk S.Store (IsOver wide_schema) tx.old }
    ensures moved { IfDone S.Store result (MovesRows wide_schema) tx.old tx.new }
    ensures inside { StaysInside S.Store tx.old tx.new }
{
    execute(tx, COPY_CLAIMS, &[])?;
    execute(tx, COPY_ENTRIES, &[])?;
    execute(tx, DELETE_ALL_AUTHS, &[])?;
    execute(tx, UPDATE_SCHEMA, &[])
}

/// Moves the rows of schema 1 once `widen_tables` has run, and makes the index of a holder's runs.
pub fn move_rows<S: Alter>(tx: &mut Transaction<'_, S>) -> Result<(), Error>
    requires { OnCleanDisk S.Store (IsOver wide_schema) tx.old }
    ensures moved { IfDone S.Store result (MovesRows desk_schema) tx.old tx.new }
    ensures inside { StaysInside S.Store tx.old tx.new }
{
    edit_rows(tx)?;
    execute(tx, CREATE_HOLDING_INDEX, &[])
}
