//! What is loaded from the tables of a desk, query by query on a connection.
#![tactic(auto)]

mod across;
mod answers;
mod below;
mod exceptions;
mod load;
mod select;

pub use across::some_overlap;
pub use answers::{
    Loaded, load_entries_up_to, load_for_amend, load_for_create, load_for_delegate, load_given,
    load_grants_counted,
};
pub use exceptions::load_files;
pub use load::{
    count_auths, is_registered, load_auths_numbered, load_holdings, load_listed, load_numbered,
    load_rows, load_runs, load_vrps,
};
