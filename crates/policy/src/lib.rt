//! The rules of the desk: for a request on the rows of a holder, the first rule that fails, or the
//! change of the rows. Nothing here reads or writes a store.
#![tactic(auto)]

mod admission;
mod amendment;
mod authorized;
mod creation;
mod decision;
mod delegation;
mod granting;
mod part;
mod sight;
mod space;
mod what_if;
mod withdrawal;

pub use decision::{Facts, decide, decide_two, judge};
pub use registry::{
    Access, Answers, Auth, AuthTerms, Change, Charter, CharterFault, Command, Edit, GrantTerms,
    Granted, HolderChange, HolderRows, ImportRow, LAST_NUMBER, Proposed, Query, Refusal,
    RoaPrefixes, Role, Rule, Scope, View, laws,
};
pub use sight::{see, see_all};
pub use what_if::{suppose, suppose_on};
