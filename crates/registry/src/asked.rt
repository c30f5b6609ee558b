//! Requests, each with its day and its caller.

use crate::{Command, Query};
use addr::{Day, Name};

/// What a caller requests.
#[derive(Debug, Drop)]
pub enum Request {
    Command(Command),
    Query(Query),
}

/// A request with its caller, as an authenticating front named it, and the day on which it is
/// judged.
#[derive(Debug, Drop)]
pub struct Asked {
    pub day: Day,
    pub caller: Name,
    pub request: Request,
}
