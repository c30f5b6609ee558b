//! Messages of HTTP/1.1 (RFC 9112): the head and the body of a request as a stream gives them, the
//! fields of a head, and the text of a response. The paths of the desk are in the crate `requests`.
#![tactic(auto)]

mod body;
mod field;
mod head;
pub mod laws;
mod length;
mod method;
mod reading;
mod refusal;
mod response;
mod status;

pub use body::{BODY_LIMIT, BodyFault, read_body};
pub use field::{Repeated, only_value};
pub use head::{HEAD_LIMIT, HeadFault, read_head};
pub use length::body_length;
pub use method::{Method, Methods};
pub use refusal::HttpRefusal;
pub use response::{ContentType, fault_text, response_head, write_response};
pub use status::Status;
