//! Statements and queries on the tables of a desk: what one leaves of its transaction or its
//! connection, what a transaction leaves, and how a store fails.
#![tactic(auto)]

mod fault;
mod files;
pub mod laws;
mod query;
mod statement;
mod values;

pub use fault::StoreFault;
pub use files::group_files;
pub use query::{TakeRow, ask, ask_inside, take_each};
pub use statement::execute;
pub use values::read_all;
