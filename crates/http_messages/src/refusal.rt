//! Why a head is refused.
use crate::method::Methods;

/// The protocol's faults of a request.
#[derive(Clone, Copy, Debug, PartialEq, Eq)]
pub enum HttpRefusal {
    /// The head does not parse, or its `Content-Length` is repeated, is not a number, or is not
    /// zero for a request without a body.
    BadRequest,
    /// The path has no route.
    NotFound,
    /// The path has only these methods.
    MethodNotAllowed(Methods),
    /// A body without its `Content-Length`, or with `Transfer-Encoding`.
    LengthRequired,
    ContentTooLarge,
}
