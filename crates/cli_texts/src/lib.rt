//! The program's command line: the words after its name, the CSV files that its tasks read, and the
//! lines of its faults.
#![tactic(auto)]

mod charter_file;
mod check;
mod fault;
mod files;
pub mod laws;
mod state_lines;
mod words;

pub use charter_file::charter_from;
pub use check::{check_on, check_routes, payload_index};
pub use fault::{FileFault, InputFile, ProgramFault, RowFault};
pub use words::{Task, WordsFault, read_words};
