//! The files of a desk: a desk is made and opened in them, and what they hold after its end or a stop.
#![tactic(auto)]

mod file;
pub mod laws;
mod lives;
mod stopping;

pub use file::{
    CloseFault, MakeFault, OpenFault, close_desk, connect, files_at, make_desk, open_desk,
    open_files, stop_connection,
};
pub use lives::{Lived, live, restart};
pub use stopping::{reopen, stop};
