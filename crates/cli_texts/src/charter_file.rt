//! Charter files: the operators of a desk and its pool of prefixes.
ghost use Rattle.std.specs.Prelude.{◌≡◌, ◌+◌, ◌++◌, ◌∷◌, ◌||◌, not, [], List, None, Some, map, length, IfOk, IfErr, OnOk, MatchResult};
ghost use Rattle.csv.specs.Records.{fields_of};
ghost use Rattle.cli_texts.specs.CharterFile.{charter_fault, charter_file_fault, charter_row, first_charter_fault, kind_and_value_fault, kind_of, operators_in, pool_in, is_noted, same_row, value_of, HoldsRows, IsCharterFile, IsCharterOf, RefusesCharter};
ghost use Rattle.csv_records.specs.CsvRecords.{csv_records, records_left, IsReading};
ghost use Rattle.cli_texts.specs.CsvRows.{at_row, IsReported};
ghost use Rattle.cli_texts.specs.declared.charter_file.CharterRow as read;
ghost use Rattle.cli_texts.specs.declared.fault.FileFault.TheVariants as file;

use crate::fault::{FileFault, InputFile, ProgramFault, RowFault};
use crate::files::after_header;
use addr::{Name, Prefix};
use csv::ByteRecord;
use csv_records::{CsvRecords, two_fields};
use registry::{Charter, CharterFault};
use std::alloc::{AllocError, Global};
use std::collections::BTreeSet;

#[derive(Clone, Copy)]
enum CharterRow {
    Operator(Name),
    Pool(Prefix),
}

/// The rows that were read. A file may have any number of them, so sets find a row that repeats
/// another.
#[derive(Drop)]
struct CharterRows {
    operators: Vec<Name>,
    pool: Vec<Prefix>,
    names: BTreeSet<Name>,
    prefixes: BTreeSet<Prefix>,
}

/// The charter that a CSV file with the header `kind,value` spells. Its rows are `operator,NAME` and
/// `pool,PREFIX`, in any order, none twice.
pub fn charter_from(alloc: Global, text: &[u8]) -> Result<Charter, ProgramFault>
    ensures ok { IfOk result (λ charter.
        (rows : List read.CharterRow) × IsCharterOf text.now charter rows) }
    ensures err { IfErr result (λ fault. RefusesCharter fault text.now) }
{
    let rows = match read_charter_rows(alloc, text) {
        Ok(rows) => rows,
        Err(fault) => return Err(fault.of(InputFile::Charter)),
    };
    match Charter::make(rows.operators, rows.pool) {
        Ok(charter) => Ok(charter),
        Err(CharterFault::Count) => Err(ProgramFault::CharterCount),
        // A row that repeats another was refused.
        Err(CharterFault::Repeated) => unreachable!(),
    }
}

fn read_charter_rows(alloc: Global, text: &[u8]) -> Result<CharterRows, FileFault>
    ensures ok { IfOk result (λ kept.
        (rows : List read.CharterRow) × IsCharterFile text.now rows × HoldsRows kept rows) }
    ensures faultless { IfOk result (λ kept. charter_file_fault (csv_records text.now) ≡ None) }
    ensures err { IfErr result (λ fault.
        IsReported fault (charter_file_fault (csv_records text.now))) }
{
    let mut records = after_header(alloc, text, &["kind", "value"])?;
    read_rows(alloc, &mut records)
}

fn read_rows(alloc: Global, records: &mut CsvRecords<'_>) -> Result<CharterRows, FileFault>
    requires { IsReading records.old }
    ensures ok { IfOk result (λ kept. (rows : List read.CharterRow)
        × (records_left records.old ≡ map charter_row rows) × HoldsRows kept rows) }
    ensures faultless { IfOk result (λ kept.
        first_charter_fault [] (records_left records.old) ≡ None) }
    ensures err { IfErr result (λ fault.
        IsReported fault (first_charter_fault [] (records_left records.old))) }
{
    let mut rows = CharterRows::new(alloc);
    while records.advance()? {
        rows.take(records.row())?;
    }
    Ok(rows)
}

impl CharterRows {
    fn new(alloc: Global) -> CharterRows
        ensures { HoldsRows result [] }
    {
        CharterRows {
            operators: Vec::new(alloc),
            pool: Vec::new(alloc),
            names: BTreeSet::new(alloc),
            prefixes: BTreeSet::new(alloc),
        }
    }

    fn take(&mut self, row: &ByteRecord) -> Result<(), FileFault>
        ensures ok { OnOk result ((rows : List read.CharterRow) → HoldsRows self.old rows
            → (r : read.CharterRow) × (fields_of row.now ≡ charter_row r)
            × HoldsRows self.new (rows ++ r ∷ [])
            × (charter_fault (map charter_row rows) (fields_of row.now) ≡ None)) }
        ensures err { IfErr result (λ fault. (rows : List read.CharterRow) → HoldsRows self.old rows
            → IsReported fault (at_row (length rows + 1)
            (charter_fault (map charter_row rows) (fields_of row.now)) None)) }
    {
        let Some((kind, value)) = two_fields(row) else {
            return Err(self.fault(RowFault::Fields));
        };
        let read = match read_texts(kind, value) {
            Ok(read) => read,
            Err(fault) => return Err(self.fault(fault)),
        };
        let is_new = self.note(&read)?;
        if !is_new {
            return Err(self.fault(RowFault::Repeated));
        }
        self.keep(&read)?;
        Ok(())
    }

    /// The fault of the row that comes next.
    fn fault(&self, fault: RowFault) -> FileFault
        ensures { result
            ≡ file.Row (length self.now.operators.items + length self.now.pool.items + 1) fault }
    {
        FileFault::Row {
            row: self.operators.len() as u64 + self.pool.len() as u64 + 1,
            fault,
        }
    }

    /// Puts the row into its set; returns whether it was new.
    fn note(&mut self, row: &CharterRow) -> Result<bool, AllocError>
        ensures is_new { IfOk result (λ is_new. is_new ≡ not (is_noted self.old row.now)) }
        ensures noted { OnOk result (
            (other : read.CharterRow) → is_noted self.new other
            ≡ (same_row row.now other || is_noted self.old other)) }
        ensures operators { self.new.operators ≡ self.old.operators }
        ensures pool { self.new.pool ≡ self.old.pool }
    {
        match row {
            CharterRow::Operator(name) => Ok(self.names.insert(*name)?),
            CharterRow::Pool(prefix) => Ok(self.prefixes.insert(*prefix)?),
        }
    }

    fn keep(&mut self, row: &CharterRow) -> Result<(), AllocError>
        ensures operators { OnOk result (
            self.new.operators.items ≡ self.old.operators.items ++ operators_in (row.now ∷ [])) }
        ensures pool { OnOk result (
            self.new.pool.items ≡ self.old.pool.items ++ pool_in (row.now ∷ [])) }
        ensures names { self.new.names ≡ self.old.names }
        ensures prefixes { self.new.prefixes ≡ self.old.prefixes }
    {
        match row {
            CharterRow::Operator(name) => self.operators.push(*name).map_err(|_| AllocError),
            CharterRow::Pool(prefix) => self.pool.push(*prefix).map_err(|_| AllocError),
        }
    }
}

fn read_texts(kind: &[u8], value: &[u8]) -> Result<CharterRow, RowFault>
    ensures { MatchResult result
        (λ r. (kind.now ≡ kind_of r) × (value.now ≡ value_of r)
        × (kind_and_value_fault kind.now value.now ≡ None))
        (λ fault. kind_and_value_fault kind.now value.now ≡ Some fault) }
{
    if kind == "operator".as_bytes() {
        return match Name::read(value) {
            Some(name) => Ok(CharterRow::Operator(name)),
            None => Err(RowFault::Name),
        };
    }
    if kind == "pool".as_bytes() {
        return match Prefix::read(value) {
            Ok(prefix) => Ok(CharterRow::Pool(prefix)),
            Err(fault) => Err(RowFault::Prefix(fault)),
        };
    }
    Err(RowFault::Kind)
}
