//! The rows of CSV files that are in memory.
mod header;
mod payloads;
mod routes;

pub(crate) use header::after_header;
pub(crate) use payloads::read_payloads;
pub(crate) use routes::{RouteRow, read_route};
