//! Imports: a header, and a row for each authorization that is to be made.
ghost use Rattle.std.specs.Prelude.{◌≡◌, IfOk};
ghost use Rattle.std.specs.Result.{result_err};
ghost use Rattle.addr.specs.PrefixText.{spelled_prefix};
ghost use Rattle.csv.specs.Records.{fields_of};
ghost use Rattle.json_values.specs.Parts.{and_then, each, mapped};
ghost use Rattle.csv_records.specs.CsvRecords.{records_left, IsReading};
ghost use Rattle.csv_records.specs.Imports.{import_fault, import_fault_number, max_in, named_asn, IsImportText};
ghost use Rattle.csv_records.specs.steps.Importing.{counted, import_in, row_of_parts, row_in_fields, row_or_fault};

use crate::CsvRecords;
use crate::fields::field;
use addr::{Asn, Day, Prefix, number_from_text};
use csv::ByteRecord;
use json_values::{Gathered, Read, both};
use registry::ImportRow;
use std::alloc::Global;

/// How many rows an import may have.
const MOST_ROWS: usize = 10_000;

/// What may be wrong with an import. If several faults apply, the one with the lowest number is
/// reported.
#[derive(Clone, Copy, Debug, PartialEq, Eq)]
pub enum ImportFault {
    /// The header is not there, or a row has another number of fields.
    Form,
    Prefix,
    Asn,
    /// The maxLength is no number from 0 to 255. Whether it fits the prefix, the rules judge.
    Max,
    Day,
    /// There are no rows, or too many.
    Count,
}

impl ImportFault {
    /// The number that the fault has among those of requests.
    pub fn number(self) -> u8
        ensures { result ≡ import_fault_number self }
    {
        match self {
            ImportFault::Form => 2,
            ImportFault::Prefix => 5,
            ImportFault::Asn => 6,
            ImportFault::Max => 7,
            ImportFault::Day => 8,
            ImportFault::Count => 12,
        }
    }
}

impl json_values::Fault for ImportFault {
    ghost use Rattle.csv_records.specs.declared.imports.ImportFault.TheVariants.{Form};

    ghost number = { import_fault_number };

    ghost members = { Form };

    fn number(self) -> u8 {
        ImportFault::number(self)
    }

    fn members() -> ImportFault {
        ImportFault::Form
    }
}

/// The rows of the import that a text is.
pub fn read_import(alloc: Global, text: &[u8]) -> Read<Vec<ImportRow>, ImportFault>
    ensures rows { IfOk result (λ read. IfOk read (λ rows. IsImportText text.now rows.items)) }
    ensures fault { IfOk result (λ read. result_err read ≡ import_fault text.now) }
{
    let read = import_in(alloc, text)?;
    Ok(read)
}

/// The rows below the header, or the lowest fault, computed as the definition does.
fn import_in(alloc: Global, text: &[u8]) -> Read<Vec<ImportRow>, ImportFault>
    ensures { IfOk result (λ read. mapped (λ v. v.items) read ≡ import_in text.now) }
{
    let header = &["asn", "prefix", "maxlength", "from", "until"];
    let Some(mut records) = CsvRecords::after_header(alloc, text, header)? else {
        return Ok(Err(ImportFault::Form));
    };
    let rows = read_rows(alloc, &mut records)?;
    Ok(counted(rows))
}

/// Reads the rows that are left.
fn read_rows(alloc: Global, records: &mut CsvRecords<'_>) -> Read<Vec<ImportRow>, ImportFault>
    requires { IsReading records.old }
    ensures { IfOk result (λ read. mapped (λ v. v.items) read
        ≡ each import_fault_number row_in_fields (records_left records.old)) }
{
    let mut gathered = Gathered::new(alloc);
    while records.advance()? {
        gathered.add(read_row(records.row()))?;
    }
    Ok(gathered.finish())
}

/// Refuses rows without a fault of their own that are too many, or none.
fn counted(rows: Result<Vec<ImportRow>, ImportFault>) -> Result<Vec<ImportRow>, ImportFault>
    ensures { mapped (λ v. v.items) result ≡ and_then counted (mapped (λ v. v.items) rows) }
{
    let rows = rows?;
    if 1 <= rows.len() && rows.len() <= MOST_ROWS {
        Ok(rows)
    } else {
        Err(ImportFault::Count)
    }
}

/// The row that a record says, or its lowest fault.
fn read_row(row: &ByteRecord) -> Result<ImportRow, ImportFault>
    ensures { result ≡ row_in_fields (fields_of row.now) }
{
    if row.len() != 5 {
        return Err(ImportFault::Form);
    }
    row_of(
        asn_in(field(row, 0)),
        prefix_in(field(row, 1)),
        max_in(field(row, 2)),
        Day::read(field(row, 3)),
        Day::read(field(row, 4)),
    )
}

/// The row of the five fields, each of which was read or not.
fn row_of(
    asn: Option<Asn>,
    prefix: Option<Prefix>,
    max: Option<u8>,
    from: Option<Day>,
    until: Option<Day>,
) -> Result<ImportRow, ImportFault>
    ensures { result ≡ row_or_fault asn prefix max from until }
{
    let vrp = both(
        both(
            asn.ok_or(ImportFault::Asn),
            prefix.ok_or(ImportFault::Prefix),
        ),
        max.ok_or(ImportFault::Max),
    );
    let first_day = both(vrp, from.ok_or(ImportFault::Day));
    row_of_parts(both(first_day, until.ok_or(ImportFault::Day)))
}

/// The row of parts that are nested in pairs.
fn row_of_parts(
    parts: Result<((((Asn, Prefix), u8), Day), Day), ImportFault>,
) -> Result<ImportRow, ImportFault>
    ensures { result ≡ mapped row_of_parts parts }
{
    let ((((asn, prefix), max), from), until) = parts?;
    Ok(ImportRow {
        asn,
        prefix,
        max,
        from,
        until,
    })
}

/// The field `asn`.
fn asn_in(text: &[u8]) -> Option<Asn>
    ensures { result ≡ named_asn text.now }
{
    Asn::from_text(text)
}

/// The field `prefix`.
fn prefix_in(text: &[u8]) -> Option<Prefix>
    ensures { result ≡ spelled_prefix text.now }
{
    Prefix::read(text).ok()
}

/// The field `maxlength`: whether it fits the prefix is judged later.
fn max_in(text: &[u8]) -> Option<u8>
    ensures { result ≡ max_in text.now }
{
    match number_from_text(text) {
        Some(number) if number <= 255 => Some(number as u8),
        _ => None,
    }
}
