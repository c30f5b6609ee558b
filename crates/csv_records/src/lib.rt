//! CSV texts (RFC 4180): their records, the rows of imports, and the rows that the desk exports.
#![tactic(auto)]

mod fields;
mod imports;
pub mod laws;
mod lines;
mod records;

pub use fields::{three_fields, two_fields};
pub use imports::{ImportFault, read_import};
pub use lines::{
    day_text, list_lines, payload_header, payload_line, payload_line_length, payload_lines,
    push_payload_line,
};
pub use records::CsvRecords;
