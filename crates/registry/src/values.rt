//! Proof only: each function brings in the range that a type promises, since a contract sees a day
//! or a number as any number, and a name as any text. The loops run, and change nothing.

ghost use Rattle.std.specs.Prelude.{All, IsTrue};
ghost use Rattle.std.specs.List.{AllByRecursion};
ghost use Rattle.addr.specs.Day.{IsDay};
ghost use Rattle.addr.specs.Name.{is_name};
ghost use Rattle.registry.specs.Values.{IsU8, IsU32, CommandFits, ExceptionsFit, FilesFit, FilterFits, ImportRowFits, TermsFit, VrpFits};

use crate::{AuthTerms, Command, ImportRow};
use addr::{Day, Name, RoaPrefix, Vrp};
use slurm::{Filter, NamedSlurm, Slurm};

/// The values of the command are those of their types.
pub(crate) fn command_fits(command: &Command)
    ensures { CommandFits command.now }
{
    match command {
        Command::Register { holder }
        | Command::Delegate { holder, .. }
        | Command::Reclaim { holder, .. } => name_fits(holder),
        Command::Transfer { giver, taker, .. } => {
            name_fits(giver);
            name_fits(taker);
        }
        Command::Grant { holder, terms } => {
            name_fits(holder);
            name_fits(&terms.to);
            day_fits(terms.until);
        }
        Command::Revoke { holder, number } | Command::Withdraw { holder, number } => {
            name_fits(holder);
            number_fits(*number);
        }
        Command::Create { holder, terms } => {
            name_fits(holder);
            terms_fit(terms);
        }
        Command::Amend {
            holder,
            number,
            maxes,
            until,
        } => {
            name_fits(holder);
            number_fits(*number);
            max_lengths_fit(maxes);
            day_fits(*until);
        }
        Command::Import { holder, rows } => {
            name_fits(holder);
            rows_fit(rows);
        }
        Command::Slurm { files } => files_fit(files.files()),
    }
}

/// The text of a name is a name's.
pub(crate) fn name_fits(name: &Name)
    ensures { IsTrue (is_name name.now) }
{
    let _ = name.as_bytes();
}

/// The texts of the names are those of names.
pub(crate) fn names_fit(names: &[Name])
    ensures { AllByRecursion (λ name. IsTrue (is_name name)) names.now }
{
    if let [first, others @ ..] = names {
        name_fits(first);
        names_fit(others);
    }
}

/// The number of a day is a day's.
pub(crate) fn day_fits(day: Day)
    ensures { IsDay day }
{
    let _ = day.number();
}

/// A `u32` is below 2^32.
fn number_fits(number: u32)
    ensures { IsU32 number }
{}

/// A `u8` is below 2^8.
fn max_length_fits(max: u8)
    ensures { IsU8 max }
{}

/// Each `u8` is below 2^8.
fn max_lengths_fit(maxes: &[u8])
    ensures { All IsU8 maxes.now }
{}

/// The maxLength of each entry is below 2^8.
fn entries_fit(entries: &[RoaPrefix])
    ensures { AllByRecursion (λ entry. IsU8 entry.max) entries.now }
{
    if let [first, others @ ..] = entries {
        max_length_fits(first.max);
        entries_fit(others);
    }
}

/// The values of each row are those of their types.
fn rows_fit(rows: &[ImportRow])
    ensures { All ImportRowFits rows.now }
{
    for row in rows {
        row_fits(row);
    }
}

/// The values of the row are those of their types.
fn row_fits(row: &ImportRow)
    ensures { ImportRowFits row.now }
{
    number_fits(row.asn.0);
    max_length_fits(row.max);
    day_fits(row.from);
    day_fits(row.until);
}

/// The values of the terms are those of their types.
fn terms_fit(terms: &AuthTerms)
    ensures { TermsFit terms.now }
{
    number_fits(terms.asn.0);
    entries_fit(terms.entries.as_slice());
    day_fits(terms.from);
    day_fits(terms.until);
}

/// Each SLURM file has a name, and its exceptions are those of one.
fn files_fit(files: &[NamedSlurm])
    ensures { FilesFit files.now }
{
    for named in files {
        name_fits(&named.name);
        exceptions_fit(&named.file);
    }
}

/// The exceptions are those of one SLURM file.
fn exceptions_fit(file: &Slurm)
    ensures { ExceptionsFit file.now }
{
    filters_fit(file.filters());
    assertions_fit(file.assertions());
}

/// Each AS number of the filters is below 2^32.
fn filters_fit(filters: &[Filter])
    ensures { All FilterFits filters.now }
{
    for filter in filters {
        filter_fits(filter);
    }
}

/// The AS number of the filter, if any, is below 2^32.
fn filter_fits(filter: &Filter)
    ensures { FilterFits filter.now }
{
    match filter {
        Filter::Under(_) => {}
        Filter::By(asn) | Filter::Both(_, asn) => number_fits(asn.0),
    }
}

/// Each AS number of the assertions is below 2^32.
fn assertions_fit(assertions: &[Vrp])
    ensures { All VrpFits assertions.now }
{
    for assertion in assertions {
        number_fits(assertion.asn.0);
    }
}
