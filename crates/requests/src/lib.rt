//! Requests: which one a line is, or the head and body of an HTTP message, or why they are none.
#![tactic(auto)]

mod action;
mod head;
pub mod laws;
mod malformed;
mod member_names;
mod path;
mod piece;
mod request;
mod router;
mod table;

pub use action::Action;
pub use head::{FIELD_LIMIT, Head, read_request_head};
pub use malformed::Malformed;
pub use registry::{Asked, Request};
pub use request::message::read_http_request;
pub use request::{LINE_LENGTH_LIMIT, LineFault, read_line_request};
pub use router::Routes;
