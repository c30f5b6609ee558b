//! Bytes in and bytes out: scripts, connections of HTTP, and the texts of replies.
#![tactic(auto)]

mod http;
mod lines;
mod pieces;
mod reply;
mod script;
mod session;
mod vrps;

pub use http::{Extent, WebFault, serve_one, serve_request};
pub use reply::{short_text, write_reply};
pub use requests::{LineFault, Malformed, read_line_request};
pub use script::ScriptFault;
pub use session::run_script;
pub use streams::{Device, Drain, Failed, Source, write_all};
