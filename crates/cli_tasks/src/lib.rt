//! What the program does for each of its tasks: `script`, `init`, `serve`, `check` and `help`.
#![tactic(auto)]

pub mod check_files;
pub mod fault;
pub mod help;
pub mod lives;
mod run;
pub mod serve;
pub mod serve_desk;

pub use run::{Host, run_task};
