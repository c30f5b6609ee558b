//! Groups the exceptions that the table `slurm` shows into SLURM files.
ghost use Rattle.std.specs.Prelude.{◌≡◌, ◌≤◌, ◌+◌, ◌++◌, List, [], ◌∷◌, map, filter, length, not, Err, IfOk, OnOk, IsTrue};
ghost use Rattle.std.specs.List.{filter_map};
ghost use Rattle.std.specs.List.Sorted.{IsPartitionedBy};
ghost use Rattle.sqlite_value.specs.Order.{Row as Cells};
ghost use Rattle.slurm.specs.declared.exceptions.TheConstants.{MOST_ENTRIES};
ghost use Rattle.slurm.specs.declared.set.NamedSlurm.{NamedSlurm};
ghost use Rattle.store_tables.specs.Cells.{kind_number};
ghost use Rattle.store_transactions.specs.Files.{AreFewOfEach, HoldsInRange, ShowsExceptions};
ghost use Rattle.store_transactions.specs.steps.Files.{AreFew, AreFilesIn, RiseByPlace, assertion_if, exceptions_in, filter_if, is_in_file, place_cmp};

use crate::fault::StoreFault;
use addr::{Name, Vrp};
use slurm::{Filter, Slurm};
use std::alloc::{AllocError, Global};
use std::cmp::Ordering;
use store_tables::{Exception, ExceptionRow};

fn kind_number(exception: &Exception) -> u32
    ensures { result ≡ kind_number exception.now }
{
    match exception {
        Exception::Filter(_) => 1,
        Exception::Assertion(_) => 2,
    }
}

/// The order by file, kind and position.
fn compare_places(one: &ExceptionRow, other: &ExceptionRow) -> Ordering
    ensures { result ≡ place_cmp one.now other.now }
{
    let files = one.file.cmp(&other.file);
    let kinds = kind_number(&one.exception).cmp(&kind_number(&other.exception));
    files.then(kinds.then(one.position.cmp(&other.position)))
}

/// Whether each exception is before the next one, so that no two are at one place.
fn rise(exceptions: &[ExceptionRow]) -> bool
    ensures { IsTrue result → RiseByPlace exceptions.now }
{
    exceptions.is_sorted_by(|one, other| compare_places(one, other).is_lt())
}

fn filter_if(row: &ExceptionRow) -> Option<Filter>
    ensures { result ≡ filter_if row.now }
{
    match row.exception {
        Exception::Filter(filter) => Some(filter),
        Exception::Assertion(_) => None,
    }
}

fn assertion_if(row: &ExceptionRow) -> Option<Vrp>
    ensures { result ≡ assertion_if row.now }
{
    match row.exception {
        Exception::Filter(_) => None,
        Exception::Assertion(vrp) => Some(vrp),
    }
}

fn filters_in(alloc: Global, exceptions: &[ExceptionRow]) -> Result<Vec<Filter>, AllocError>
    ensures { IfOk result (λ filters. filters.items ≡ filter_map filter_if exceptions.now) }
{
    exceptions.iter().filter_map(filter_if).collect(alloc)
}

fn assertions_in(alloc: Global, exceptions: &[ExceptionRow]) -> Result<Vec<Vrp>, AllocError>
    ensures { IfOk result (λ vrps. vrps.items ≡ filter_map assertion_if exceptions.now) }
{
    exceptions.iter().filter_map(assertion_if).collect(alloc)
}

/// The file of these entries. If they are more than a file may have, the fault is `Schema`.
fn make_file(filters: Vec<Filter>, assertions: Vec<Vrp>) -> Result<Slurm, StoreFault>
    ensures file { IfOk result (λ file. file
        ≡ record { filters = filters.items; assertions = assertions.items }) }
    ensures number { OnOk result (length filters.items + length assertions.items ≤ MOST_ENTRIES) }
    ensures schema { result ≡ Err StoreFault.Schema
        → ¬ (length filters.items + length assertions.items ≤ MOST_ENTRIES) }
{
    Slurm::make(filters, assertions).map_err(|_| StoreFault::Schema)
}

/// The file of exceptions that are all of one file.
fn file_of(alloc: Global, exceptions: &[ExceptionRow]) -> Result<Slurm, StoreFault>
    ensures file { IfOk result (λ file. file ≡ exceptions_in exceptions.now) }
    ensures number { OnOk result (length exceptions.now ≤ MOST_ENTRIES) }
    ensures schema { result ≡ Err StoreFault.Schema → ¬ (length exceptions.now ≤ MOST_ENTRIES) }
{
    let filters = filters_in(alloc, exceptions)?;
    let assertions = assertions_in(alloc, exceptions)?;
    make_file(filters, assertions)
}

/// The exceptions of the file of this name, which come first, and the others.
fn split_file<'a>(
    exceptions: &'a [ExceptionRow],
    name: &Name,
) -> (&'a [ExceptionRow], &'a [ExceptionRow])
    requires { IsPartitionedBy (is_in_file name.now) exceptions.now }
    ensures mine { result.0.now ≡ filter (is_in_file name.now) exceptions.now }
    ensures others { result.1.now ≡ filter (λ r. not (is_in_file name.now r)) exceptions.now }
{
    exceptions.split_at(exceptions.partition_point(|row| row.file == *name))
}

fn push_file(files: &mut Vec<Slurm>, file: Slurm) -> Result<(), AllocError>
    ensures { OnOk result (files.new.items ≡ files.old.items ++ file ∷ []) }
{
    files.push(file)?;
    Ok(())
}

/// The files of exceptions in the order of their places, each without its name, by rising name.
fn files_in(alloc: Global, exceptions: &[ExceptionRow]) -> Result<Vec<Slurm>, StoreFault>
    requires { RiseByPlace exceptions.now }
    ensures found { IfOk result (λ files. (named : List NamedSlurm)
        × AreFilesIn exceptions.now named × (files.items ≡ map (λ f. f.file) named)) }
    ensures schema { result ≡ Err StoreFault.Schema → ¬ AreFew exceptions.now }
{
    let mut files = Vec::new(alloc);
    let mut rest = exceptions;
    while let [first, ..] = rest {
        let (mine, others) = split_file(rest, &first.file);
        let file = file_of(alloc, mine)?;
        push_file(&mut files, file)?;
        rest = others;
    }
    Ok(files)
}

/// The SLURM files whose exceptions these are, each without its name, by rising name. If a file has
/// more exceptions than it may have, the fault is `Schema`. If two exceptions of a file have one
/// kind and one position, which the key of the table forbids, it is `Database`.
pub fn group_files(
    alloc: Global,
    mut exceptions: Vec<ExceptionRow>,
) -> Result<Vec<Slurm>, StoreFault>
    ensures found { IfOk result (λ files. (table : List Cells)
        → ShowsExceptions exceptions.items table → HoldsInRange files.items table) }
    ensures schema { result ≡ Err StoreFault.Schema → (table : List Cells)
        → ShowsExceptions exceptions.items table → ¬ AreFewOfEach table }
{
    exceptions.sort_unstable_by(compare_places);
    if !rise(&exceptions) {
        return Err(StoreFault::Database);
    }
    files_in(alloc, &exceptions)
}
