//! The tables of a desk in a database: making them with their first rows, and making them out of
//! those of schema 1, statement by statement within a transaction.
#![tactic(auto)]

mod charter;
pub mod laws;
mod make;
mod schema;
mod statements;
mod upgrade;

pub use make::{make_old_schema, make_schema, make_tables};
pub use schema::shows_old_schema;
pub use upgrade::{move_rows, widen_tables};
