//! The desk: its requests, and its replies to them.
#![tactic(auto)]

mod content_text;
mod desk;
pub mod laws;
mod reply;
mod vrps;

pub use desk::Desk;
pub use registry::{Asked, Request};
pub use reply::Reply;
pub use vrps::Vrps;
