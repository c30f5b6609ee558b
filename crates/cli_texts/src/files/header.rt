//! The headers of CSV files.
ghost use Rattle.std.specs.Prelude.{◌≡◌, ◌∷◌, None, IfOk, IfErr};
ghost use Rattle.cli_texts.specs.CsvRows.{header_fault, IsReported};
ghost use Rattle.csv_records.specs.CsvRecords.{csv_records, records_left, IsReading};
ghost use Rattle.csv_records.specs.Fields.{texts_of};

use crate::fault::FileFault;
use csv_records::CsvRecords;
use std::alloc::Global;

/// The records after the header.
pub(crate) fn after_header<'a>(
    alloc: Global,
    text: &'a [u8],
    header: &[&str],
) -> Result<CsvRecords<'a>, FileFault>
    ensures reading { IfOk result (λ records. IsReading records) }
    ensures ok { IfOk result (λ records.
        csv_records text.now ≡ texts_of header.now ∷ records_left records) }
    ensures faultless { IfOk result (λ records.
        header_fault (texts_of header.now) (csv_records text.now) ≡ None) }
    ensures err { IfErr result (λ fault.
        IsReported fault (header_fault (texts_of header.now) (csv_records text.now))) }
{
    match CsvRecords::after_header(alloc, text, header)? {
        Some(records) => Ok(records),
        None => Err(FileFault::Header),
    }
}
