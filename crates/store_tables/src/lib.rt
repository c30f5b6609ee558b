//! The tables of a desk: for each table its statements, its rows as values, and values as its rows.
#![tactic(auto)]

mod auth;
mod authorizations;
mod cells;
mod claim;
mod decode;
mod entry;
mod exception;
mod granted;
mod groups;
mod holder;
mod holding;
pub mod laws;
mod meta;
mod names;
mod operator;
mod pool;
mod rows;
mod same;

pub use auth::{CREATE_AUTH, SELECT_ALL_AUTHS};
pub use authorizations::auths_of;
pub use cells::{address_bytes, family_number, name_values, number_values, prefix_values};
pub use claim::{
    COUNT_HOLDER_CLAIMS, CREATE_CLAIM, Claim, DELETE_CLAIM, INSERT_CLAIM, SELECT_ALL_CLAIMS,
    SELECT_CLAIMS_IN_FORCE, SELECT_HOLDER_CLAIMS, SELECT_NUMBERED_CLAIM, UPDATE_CLAIM, claim_of,
    claim_values,
};
pub use decode::{cell, count_in};
pub use entry::{
    CREATE_ENTRY, DELETE_ENTRIES, EntryRow, INSERT_ENTRY, SELECT_ALL_ENTRIES,
    SELECT_ENTRIES_BY_KEY, SELECT_ENTRIES_UP_TO, SELECT_ENTRY_ROWIDS, SELECT_GIVEN_ENTRIES,
    SELECT_HOLDER_ENTRIES, SELECT_NUMBERED_ENTRIES, SELECT_PAYLOADS, entry_row_of, entry_values,
    given_values, up_to_values,
};
pub use exception::{
    CREATE_SLURM, DELETE_EXCEPTIONS, Exception, ExceptionRow, INSERT_EXCEPTION,
    SELECT_ALL_EXCEPTIONS, exception_first, exception_values,
};
pub use granted::{
    CREATE_GRANTED, DELETE_GRANT, INSERT_GRANT, SELECT_ALL_GRANTS, SELECT_HOLDER_GRANTS,
    granted_values, scope_first,
};
pub use groups::{Group, HasEntries, OfHolder, first_entries, group_entries};
pub use holder::{
    CREATE_HOLDER, Counters, INSERT_HOLDER, Registered, SELECT_ALL_HOLDERS, SELECT_COUNTERS,
    UPDATE_CREATED, UPDATE_GRANTED,
};
pub use holding::{
    CREATE_HOLDING, CREATE_HOLDING_INDEX, DELETE_HOLDING, INSERT_HOLDING, SELECT_ALL_SPANS,
    SELECT_HOLDER_SPANS, SELECT_OVERLAP, SELECT_RUN_BELOW, holding_values,
};
pub use meta::{CREATE_META, INSERT_SCHEMA, SCHEMA, SELECT_SCHEMA, shows_schema};
pub use names::has_names;
pub use operator::{CREATE_OPERATOR, INSERT_OPERATOR, SELECT_ALL_OPERATORS};
pub use pool::{CREATE_POOL, INSERT_PREFIX, SELECT_ALL_PREFIXES};
pub use rows::{FromRow, in_rows};
pub use same::{same_schema, same_tables};
