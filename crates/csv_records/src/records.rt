//! The records of a CSV text.
ghost use Rattle.std.specs.Prelude.{◌≡◌, ◌∷◌, None, true, option_map, IfOk, IfSome};
ghost use Rattle.csv_records.specs.CsvRecords.{csv_records, current, records_left, IsReading, Takes};
ghost use Rattle.csv_records.specs.Fields.{rows_after, texts_of};

use crate::fields::are_fields;
use csv::{ByteRecord, Reader, ReaderBuilder};
use std::alloc::{AllocError, Global};

/// Reads one record at a time: a text may have a million.
#[derive(Drop)]
pub struct CsvRecords<'a> {
    reader: Reader<&'a [u8]>,
    row: ByteRecord,
}

impl<'a> CsvRecords<'a> {
    /// A reader before the first record, which may be a header.
    fn new(alloc: Global, text: &'a [u8]) -> CsvRecords<'a>
        ensures reading { IsReading result }
        ensures all { records_left result ≡ csv_records text.now }
    {
        let reader = ReaderBuilder::new()
            .has_headers(false)
            .flexible(true)
            .from_reader(alloc, text);
        CsvRecords {
            reader,
            row: ByteRecord::new(alloc),
        }
    }

    /// The records after the header; `None` if the first record is another, or there is none.
    pub fn after_header(
        alloc: Global,
        text: &'a [u8],
        header: &[&str],
    ) -> Result<Option<CsvRecords<'a>>, AllocError>
        ensures reading { IfOk result (λ found. IfSome found (λ records. IsReading records)) }
        ensures after { IfOk result (λ found. option_map records_left found
            ≡ rows_after (texts_of header.now) (csv_records text.now)) }
    {
        let mut records = CsvRecords::new(alloc, text);
        if !records.advance()? {
            return Ok(None);
        }
        if !are_fields(records.row(), header) {
            return Ok(None);
        }
        Ok(Some(records))
    }

    /// Whether there is a next record, which is then the one at hand. The bytes are in memory and
    /// records may have any number of fields, so that an error of the crate `csv` is
    /// an allocation that failed.
    pub fn advance(&mut self) -> Result<bool, AllocError>
        requires { IsReading self.old }
        ensures reading { IfOk result (λ found. found ≡ true → IsReading self.new) }
        ensures found { IfOk result (λ found.
            Takes found (current self.new) (records_left self.old) (records_left self.new)) }
    {
        let Ok(found) = self.reader.read_byte_record(&mut self.row) else {
            return Err(AllocError);
        };
        Ok(found)
    }

    /// The record at hand.
    pub fn row(&self) -> &ByteRecord
        ensures { result.now ≡ self.now.row }
    {
        &self.row
    }
}
