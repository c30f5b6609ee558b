//! What a change does to the tables, statement by statement within a transaction.
#![tactic(auto, using(store_transactions::proofs::StatementLemmas::stays_then))]

mod auth;
mod change;
mod exceptions;
mod granted;
mod holder;
mod holding;
mod row;

pub use change::make_change;
