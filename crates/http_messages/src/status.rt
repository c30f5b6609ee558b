//! Statuses of responses.
ghost use Rattle.std.specs.Prelude.{◌≡◌, ◌≤◌, length};
ghost use Rattle.http_messages.specs.ResponseText.{refused_status, status_code, status_reason};

use crate::method::Methods;
use crate::refusal::HttpRefusal;

/// The statuses of the desk's responses.
#[derive(Clone, Copy, Debug, PartialEq, Eq)]
pub enum Status {
    Done,
    BadRequest,
    Forbidden,
    NotFound,
    /// The response lists the methods that the path has.
    MethodNotAllowed(Methods),
    LengthRequired,
    ContentTooLarge,
    ServiceUnavailable,
}

impl Status {
    pub fn code(self) -> u16
        ensures { result ≡ status_code self }
    {
        match self {
            Status::Done => 200,
            Status::BadRequest => 400,
            Status::Forbidden => 403,
            Status::NotFound => 404,
            Status::MethodNotAllowed(_) => 405,
            Status::LengthRequired => 411,
            Status::ContentTooLarge => 413,
            Status::ServiceUnavailable => 503,
        }
    }

    /// The reason, which follows the code.
    pub fn reason(self) -> &'static str
        ensures text { result.now ≡ status_reason self }
        ensures short { length result.now ≤ 19 }
    {
        match self {
            Status::Done => "OK",
            Status::BadRequest => "Bad Request",
            Status::Forbidden => "Forbidden",
            Status::NotFound => "Not Found",
            Status::MethodNotAllowed(_) => "Method Not Allowed",
            Status::LengthRequired => "Length Required",
            Status::ContentTooLarge => "Content Too Large",
            Status::ServiceUnavailable => "Service Unavailable",
        }
    }
}

impl HttpRefusal {
    /// Its status.
    pub fn status(self) -> Status
        ensures { result ≡ refused_status self }
    {
        match self {
            HttpRefusal::BadRequest => Status::BadRequest,
            HttpRefusal::NotFound => Status::NotFound,
            HttpRefusal::MethodNotAllowed(methods) => Status::MethodNotAllowed(methods),
            HttpRefusal::LengthRequired => Status::LengthRequired,
            HttpRefusal::ContentTooLarge => Status::ContentTooLarge,
        }
    }
}
