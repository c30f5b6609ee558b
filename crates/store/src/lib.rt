//! The rows of a desk as tables of SQLite.
#![tactic(auto)]

pub mod laws;
mod loss;
mod part;
mod store;

pub use part::Part;
pub use store::Store;
pub use store_read::Loaded;
pub use store_transactions::StoreFault;
