//! Reading JSON values: those that lines and SLURM files have in common, and the parts of a value.
//! All parts are read, and of all their faults the one of the lowest number is reported.
#![tactic(auto)]

mod fault;
mod lists;
mod members;
mod pairs;
mod text;
mod values;

pub use fault::{Fault, Read};
pub use lists::{Gathered, each};
pub use members::{FromJson, FromJsonIn, member, only, optional, required};
pub use pairs::{both, unless};
pub use text::tree_of;
pub use values::{as_asn, as_day, as_name, as_number_in, as_prefix};
