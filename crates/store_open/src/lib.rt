//! Databases that have the tables of a desk: making one, and opening one.
#![tactic(auto)]

mod collect;
mod found;
mod join;
mod key;
pub mod laws;
mod opening;
mod reading;
mod rise;

pub use opening::open_tables;
pub use store_schema::make_tables;
pub use store_transactions::{StoreFault, ask, execute, read_all};
