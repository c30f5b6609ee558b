//! The statements that move the rows of schema 1, in the order in which they run. Between the first
//! and the second the tables `claim` and `entry` are made, and after the last the index is made
//! again.

/// Drops the index of a holder's runs, whose tree would be in the place of `claim`.
pub const DROP_HOLDING_INDEX: &str = "DROP INDEX holding_of";

/// Puts the claim of each row of `auth`.
pub const COPY_CLAIMS: &str = "\
    INSERT INTO claim (holder, number, asn, opens, ends) \
    SELECT holder, number, asn, opens, ends FROM auth";

/// Puts the one entry of each row of `auth`.
pub const COPY_ENTRIES: &str = "\
    INSERT INTO entry (holder, number, asn, family, lo, len, max) \
    SELECT holder, number, asn, family, lo, len, max FROM auth";

/// Deletes all authorizations of schema 1.
pub const DELETE_ALL_AUTHS: &str = "DELETE FROM auth";

/// Sets the number of the schema.
pub const UPDATE_SCHEMA: &str = "UPDATE meta SET value = 2";
