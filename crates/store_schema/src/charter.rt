//! The first rows of a desk: the number of its schema, and its charter.
ghost use Rattle.std.specs.Prelude.{[], ◌∷◌, map};
ghost use Rattle.store_tables.specs.Cells.{schema_row, operator_row, prefix_cells};
ghost use Rattle.store_tables.specs.Tables.{meta, operator, pool};
ghost use Rattle.store_transactions.specs.Statements.{IsReady, OnCleanDisk, IfDone, StaysInside};
ghost use Rattle.store_schema.specs.Making.{IsMadeTo};
ghost use Rattle.store_schema.specs.steps.Making.{HasCharter};
ghost use Rattle.store_transactions.specs.steps.Statements.{PutsRows};

use addr::{Name, Prefix};
use registry::Charter;
use sqlite::{Alter, Error, Transaction};
use store_tables::{
    INSERT_OPERATOR, INSERT_PREFIX, INSERT_SCHEMA, address_bytes, name_values, prefix_values,
};
use store_transactions::execute;

/// Puts the number of the schema.
fn put_schema<S: Alter>(tx: &mut Transaction<'_, S>) -> Result<(), Error>
    requires { OnCleanDisk S.Store IsReady tx.old }
    ensures put { IfDone S.Store result (PutsRows meta.tree (schema_row ∷ [])) tx.old tx.new }
    ensures inside { StaysInside S.Store tx.old tx.new }
{
    execute(tx, INSERT_SCHEMA, &[])
}

/// Puts an operator.
fn put_operator<S: Alter>(tx: &mut Transaction<'_, S>, name: &Name) -> Result<(), Error>
    requires { OnCleanDisk S.Store IsReady tx.old }
    ensures put { IfDone S.Store result
        (PutsRows operator.tree (operator_row name.now ∷ [])) tx.old tx.new }
    ensures inside { StaysInside S.Store tx.old tx.new }
{
    execute(tx, INSERT_OPERATOR, &name_values(name))
}

/// Puts operators.
fn put_operators<S: Alter>(tx: &mut Transaction<'_, S>, names: &[Name]) -> Result<(), Error>
    requires { OnCleanDisk S.Store IsReady tx.old }
    ensures put { IfDone S.Store result
        (PutsRows operator.tree (map operator_row names.now)) tx.old tx.new }
    ensures inside { StaysInside S.Store tx.old tx.new }
{
    for name in names {
        put_operator(tx, name)?;
    }
    Ok(())
}

/// Puts a prefix of the pool.
fn put_prefix<S: Alter>(tx: &mut Transaction<'_, S>, prefix: &Prefix) -> Result<(), Error>
    requires { OnCleanDisk S.Store IsReady tx.old }
    ensures put { IfDone S.Store result
        (PutsRows pool.tree (prefix_cells prefix.now ∷ [])) tx.old tx.new }
    ensures inside { StaysInside S.Store tx.old tx.new }
{
    let first = address_bytes(prefix.first);
    execute(tx, INSERT_PREFIX, &prefix_values(prefix, &first))
}

/// Puts prefixes of the pool.
fn put_pool<S: Alter>(tx: &mut Transaction<'_, S>, prefixes: &[Prefix]) -> Result<(), Error>
    requires { OnCleanDisk S.Store IsReady tx.old }
    ensures put { IfDone S.Store result
        (PutsRows pool.tree (map prefix_cells prefixes.now)) tx.old tx.new }
    ensures inside { StaysInside S.Store tx.old tx.new }
{
    for prefix in prefixes {
        put_prefix(tx, prefix)?;
    }
    Ok(())
}

/// Puts the number of the schema and the charter into tables that were just made.
pub(crate) fn put_charter<S: Alter>(
    tx: &mut Transaction<'_, S>,
    charter: &Charter,
) -> Result<(), Error>
    requires { OnCleanDisk S.Store (IsMadeTo 11) tx.old }
    ensures put { IfDone S.Store result (λ _. HasCharter charter.now) tx.old tx.new }
    ensures inside { StaysInside S.Store tx.old tx.new }
{
    put_schema(tx)?;
    put_operators(tx, charter.operators())?;
    put_pool(tx, charter.pool())
}
