//! The exceptions of the SLURM files in force, as rows of the table `slurm`.
ghost use Rattle.std.specs.Prelude.{◌≡◌, ◌≤◌, [], ◌∷◌, length, map, flat_map, All, OnOk};
ghost use Rattle.slurm.specs.declared.exceptions.TheConstants.{MOST_ENTRIES};
ghost use Rattle.store_tables.specs.Cells.{exception_row};
ghost use Rattle.store_tables.specs.Tables.{slurm};
ghost use Rattle.store_tables.specs.TablesHold.{file_rows};
ghost use Rattle.store_tables.specs.declared.exception.Exception.{Exception as AnyException};
ghost use Rattle.store_transactions.specs.Statements.{IsReady, OnCleanDisk, IfDone, StaysInside};
ghost use Rattle.store_transactions.specs.steps.Statements.{PutsRows};
ghost use Rattle.store_write.specs.Changes.{MakesChange, RowsBecome};
ghost use Rattle.store_write.specs.steps.Statements.{TakesRows, entry_rows, IsBounded};

use addr::{Name, Vrp};
use registry::Change;
use slurm::{Filter, NamedSlurm, SlurmSet};
use sqlite::{Alter, Error, Transaction};
use store_tables::{
    DELETE_EXCEPTIONS, Exception, ExceptionRow, INSERT_EXCEPTION, address_bytes, exception_first,
    exception_values,
};
use store_transactions::execute;

/// An entry of a SLURM file, which is put as a row of the table.
trait ExceptionEntry {
    ghost as_exception: { Self → AnyException };

    fn as_exception(&self) -> Exception
        ensures { result ≡ as_exception self.now };
}

impl ExceptionEntry for Filter {
    ghost use Rattle.store_tables.specs.declared.exception.Exception.TheVariants.{Filter as FilterOf};

    ghost as_exception = { FilterOf };

    fn as_exception(&self) -> Exception {
        Exception::Filter(*self)
    }
}

impl ExceptionEntry for Vrp {
    ghost use Rattle.store_tables.specs.declared.exception.Exception.TheVariants.{Assertion};

    ghost as_exception = { Assertion };

    fn as_exception(&self) -> Exception {
        Exception::Assertion(*self)
    }
}

/// Deletes all exceptions.
fn take_exceptions<S: Alter>(tx: &mut Transaction<'_, S>) -> Result<(), Error>
    requires { OnCleanDisk S.Store IsReady tx.old }
    ensures done { IfDone S.Store result (TakesRows slurm.tree) tx.old tx.new }
    ensures inside { StaysInside S.Store tx.old tx.new }
{
    execute(tx, DELETE_EXCEPTIONS, &[])
}

/// Puts an exception.
#[tactic(auto, using(crate::proofs::ExceptionSteps::puts_exception))]
fn put_exception<S: Alter>(tx: &mut Transaction<'_, S>, row: &ExceptionRow) -> Result<(), Error>
    requires { OnCleanDisk S.Store IsReady tx.old }
    ensures done { IfDone S.Store result
        (PutsRows slurm.tree (exception_row row.now ∷ [])) tx.old tx.new }
    ensures inside { StaysInside S.Store tx.old tx.new }
{
    let first = address_bytes(exception_first(&row.exception));
    execute(tx, INSERT_EXCEPTION, &exception_values(row, &first))
}

/// Puts the entries of one kind of a file, at the positions from 1 up.
fn put_entries<T: ExceptionEntry, S: Alter>(
    tx: &mut Transaction<'_, S>,
    file: &Name,
    entries: &[T],
) -> Result<(), Error>
    requires ready { OnCleanDisk S.Store IsReady tx.old }
    requires number { length entries.now ≤ MOST_ENTRIES }
    ensures done { IfDone S.Store result
        (PutsRows slurm.tree (entry_rows file.now T.as_exception entries.now)) tx.old tx.new }
    ensures inside { StaysInside S.Store tx.old tx.new }
{
    let mut position = 0;
    for entry in entries {
        position += 1;
        let row = ExceptionRow {
            file: *file,
            position,
            exception: entry.as_exception(),
        };
        put_exception(tx, &row)?;
    }
    Ok(())
}

/// Puts the exceptions of a file.
fn put_file<S: Alter>(tx: &mut Transaction<'_, S>, named: &NamedSlurm) -> Result<(), Error>
    requires { OnCleanDisk S.Store IsReady tx.old }
    ensures done { IfDone S.Store result
        (PutsRows slurm.tree (map exception_row (file_rows named.now))) tx.old tx.new }
    ensures inside { StaysInside S.Store tx.old tx.new }
    ensures bounded { IsBounded named.now }
{
    put_entries(tx, &named.name, named.file.filters())?;
    put_entries(tx, &named.name, named.file.assertions())
}

/// Puts the exceptions of the files, one file after another.
fn put_files<S: Alter>(tx: &mut Transaction<'_, S>, files: &[NamedSlurm]) -> Result<(), Error>
    requires { OnCleanDisk S.Store IsReady tx.old }
    ensures done { IfDone S.Store result
        (PutsRows slurm.tree (map exception_row (flat_map file_rows files.now))) tx.old tx.new }
    ensures inside { StaysInside S.Store tx.old tx.new }
    ensures bounded { OnOk result (All IsBounded files.now) }
{
    for named in files {
        put_file(tx, named)?;
    }
    Ok(())
}

/// Replaces all exceptions by those of the files.
pub(crate) fn replace_files<S: Alter>(
    tx: &mut Transaction<'_, S>,
    files: &SlurmSet,
) -> Result<(), Error>
    requires { OnCleanDisk S.Store IsReady tx.old }
    ensures done { IfDone S.Store result
        (MakesChange (RowsBecome (Change.Exceptions files.now))) tx.old tx.new }
    ensures inside { StaysInside S.Store tx.old tx.new }
{
    take_exceptions(tx)?;
    put_files(tx, files.files())
}
