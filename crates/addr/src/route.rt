//! Announced routes.
use crate::{Asn, Prefix};

/// Who announced a route: an AS, or none if the path names no single one (RFC 6811 section 2).
#[derive(Clone, Copy, Debug, PartialEq, Eq, PartialOrd, Ord)]
pub enum Origin {
    As(Asn),
    None,
}

/// An announced route, as route origin validation sees it.
#[derive(Clone, Copy, Debug, PartialEq, Eq, PartialOrd, Ord)]
pub struct Route {
    /// The prefix that was announced.
    pub prefix: Prefix,
    /// Who announced it.
    pub origin: Origin,
}
