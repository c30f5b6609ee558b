//! SLURM files (RFC 8416): local exceptions to the VRPs of a relying party, as filters that remove
//! VRPs and assertions that add some.
#![tactic(auto)]

mod entries;
mod exceptions;
mod fault;
mod file;
mod filter;
mod index;
pub mod laws;
mod lists;
mod members;
mod overlap;
mod reach;
mod set;
mod walk;

pub use exceptions::{MOST_ENTRIES, Slurm};
pub use fault::SlurmFault;
pub use filter::Filter;
pub use index::FilterIndex;
pub use set::{MOST_FILES, NamedSlurm, SlurmSet, SlurmSetFault};
