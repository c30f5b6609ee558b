//! A statement within a transaction.
ghost use Rattle.std.specs.Prelude.{◌≡◌, true};
ghost use Rattle.sqlite.specs.Values.{bound};
ghost use Rattle.store_transactions.specs.Statements.{OnCleanDisk, IfDone, StaysInside, IsExecuted};

use sqlite::types::ValueRef;
use sqlite::{Alter, Error, Transaction};

/// Executes a statement that shows no rows.
pub fn execute<S: Alter>(
    tx: &mut Transaction<'_, S>,
    sql: &str,
    values: &[ValueRef<'_>],
) -> Result<(), Error>
    requires { OnCleanDisk S.Store (λ s. s.in_transaction ≡ true) tx.old }
    ensures ran { IfDone S.Store result (IsExecuted sql.now (bound values.now)) tx.old tx.new }
    ensures inside { StaysInside S.Store tx.old tx.new }
{
    tx.execute(sql, values)?;
    Ok(())
}
