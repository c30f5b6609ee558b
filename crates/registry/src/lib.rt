//! What a registry's commands mean: holders and their rows, grants, authorizations, commands and
//! the rules that each has to meet. The crate `policy` decides by them.
#![tactic(auto)]

mod asked;
mod authorization;
mod change;
mod charter;
mod command;
mod grant;
pub mod laws;
mod limits;
mod roa_prefixes;
mod rows;
mod rule;
mod values;

pub use asked::{Asked, Request};
pub use authorization::{Auth, AuthTerms, ImportRow, auth_of_number, fit_lengths};
pub use change::{Change, Edit, HolderChange};
pub use charter::{Charter, CharterFault};
pub use command::{Command, Proposed, Query};
pub use grant::{Access, GrantTerms, Granted, Role, Scope, are_permitted, has_access};
pub use limits::{LAST_NUMBER, MOST_AUTHORIZATIONS, MOST_GRANTS};
pub use roa_prefixes::{RoaPrefixes, RoaPrefixesFault};
pub use rows::{Answers, HolderRows, View};
pub use rule::{Refusal, Rule};
