//! The table `auth`, of which each row is the name of a holder and an authorization of it with one
//! entry. A desk has none: the table is that of schema 1, whose successors are `claim` and `entry`.

/// Makes the table.
pub const CREATE_AUTH: &str = "\
    CREATE TABLE auth (holder TEXT NOT NULL REFERENCES holder (name), number INTEGER NOT NULL, \
    asn INTEGER NOT NULL, family INTEGER NOT NULL, lo BLOB NOT NULL, len INTEGER NOT NULL, \
    max INTEGER NOT NULL, opens INTEGER NOT NULL, ends INTEGER NOT NULL, \
    PRIMARY KEY (holder, number), UNIQUE (asn, family, lo, len, max)) STRICT";

/// All authorizations, and their rowids.
pub const SELECT_ALL_AUTHS: &str = "\
    SELECT number, asn, family, lo, len, max, opens, ends, rowid FROM auth ORDER BY rowid";
