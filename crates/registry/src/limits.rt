//! The limits of the rule `room`.

/// How many grants that are not revoked a holder may have.
pub const MOST_GRANTS: usize = 64;

/// How many active authorizations a holder may have.
pub const MOST_AUTHORIZATIONS: usize = 1000;

/// The last number that a grant or an authorization of a holder gets.
pub const LAST_NUMBER: u32 = 999_999;
