//! Payload files: VRPs, in any order.
ghost use Rattle.std.specs.Prelude.{◌≡◌, [], ◌∷◌, None, Some, map, decimal, IfSome, IfOk, IfErr, MatchResult};
ghost use Rattle.csv.specs.Records.{fields_of};
ghost use Rattle.addr.specs.Address.{FitsMaxLength};
ghost use Rattle.addr.specs.Family.{width};
ghost use Rattle.csv_records.specs.CsvRecords.{csv_records, records_left, IsReading};
ghost use Rattle.cli_texts.specs.CsvRows.{file_fault, first_fault, decimal_between, payload_fault, payload_texts_fault, IsReported};
ghost use Rattle.csv_records.specs.Lines.{payload_header, payload_row};

use super::after_header;
use crate::fault::{FileFault, RowFault};
use addr::{Asn, Prefix, Vrp, number_from_text};
use csv::ByteRecord;
use csv_records::{CsvRecords, three_fields};
use std::alloc::Global;

/// The VRPs of the rows.
pub(crate) fn read_payloads(alloc: Global, text: &[u8]) -> Result<Vec<Vrp>, FileFault>
    ensures ok { IfOk result (λ vrps.
        csv_records text.now ≡ payload_header ∷ map payload_row vrps.items) }
    ensures faultless { IfOk result (λ vrps.
        file_fault payload_header payload_fault (csv_records text.now) ≡ None) }
    ensures err { IfErr result (λ fault.
        IsReported fault (file_fault payload_header payload_fault (csv_records text.now))) }
{
    let mut records = after_header(alloc, text, &["asn", "prefix", "maxlength"])?;
    read_rows(alloc, &mut records)
}

fn read_rows(alloc: Global, records: &mut CsvRecords<'_>) -> Result<Vec<Vrp>, FileFault>
    requires { IsReading records.old }
    ensures ok { IfOk result (λ vrps. records_left records.old ≡ map payload_row vrps.items) }
    ensures faultless { IfOk result (λ vrps.
        first_fault payload_fault 1 (records_left records.old) ≡ None) }
    ensures err { IfErr result (λ fault.
        IsReported fault (first_fault payload_fault 1 (records_left records.old))) }
{
    let mut vrps = Vec::new(alloc);
    while records.advance()? {
        match read_row(records.row()) {
            Ok(vrp) => vrps.push(vrp).map_err(|_| FileFault::Memory)?,
            Err(fault) => {
                return Err(FileFault::Row {
                    row: vrps.len() as u64 + 1,
                    fault,
                });
            }
        }
    }
    Ok(vrps)
}

fn read_row(row: &ByteRecord) -> Result<Vrp, RowFault>
    ensures { MatchResult result
        (λ vrp. (fields_of row.now ≡ payload_row vrp) × (payload_fault (fields_of row.now) ≡ None))
        (λ fault. payload_fault (fields_of row.now) ≡ Some fault) }
{
    match three_fields(row) {
        Some((asn, prefix, max)) => read_texts(asn, prefix, max),
        None => Err(RowFault::Fields),
    }
}

fn read_texts(asn: &[u8], prefix: &[u8], max: &[u8]) -> Result<Vrp, RowFault>
    ensures { MatchResult result
        (λ vrp. (asn.now ∷ prefix.now ∷ max.now ∷ [] ≡ payload_row vrp)
        × (payload_texts_fault asn.now prefix.now max.now ≡ None))
        (λ fault. payload_texts_fault asn.now prefix.now max.now ≡ Some fault) }
{
    let Some(asn) = Asn::from_text(asn) else {
        return Err(RowFault::Asn);
    };
    let prefix = match Prefix::read(prefix) {
        Ok(prefix) => prefix,
        Err(fault) => return Err(RowFault::Prefix(fault)),
    };
    match read_max_length(&prefix, max) {
        Some(max) => Ok(Vrp { prefix, max, asn }),
        None => Err(RowFault::Length),
    }
}

fn read_max_length(prefix: &Prefix, text: &[u8]) -> Option<u8>
    ensures value { result ≡ decimal_between prefix.now.length (width prefix.now.family) text.now }
    ensures exact { IfSome result (λ max. text.now ≡ decimal max) }
    ensures range { IfSome result (λ max. FitsMaxLength prefix.now max) }
{
    match number_from_text(text) {
        Some(number)
            if u64::from(prefix.length) <= number && number <= u64::from(prefix.family.width()) => {
            Some(number as u8)
        }
        _ => None,
    }
}
