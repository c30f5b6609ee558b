//! The table `claim`, of which each row is the name of a holder and an authorization of it without
//! its entries, which are rows of the table `entry`.
ghost use Rattle.std.specs.Prelude.{◌≡◌};
ghost use Rattle.sqlite.specs.Values.{bound};
ghost use Rattle.store_tables.specs.Authorizations.{claim_of};
ghost use Rattle.store_tables.specs.Cells.{claim_cells, claim_row};
ghost use Rattle.store_tables.specs.Decode.{ClaimFits};

use crate::FromRow;
use crate::decode::{cell, decode_asn, decode_day, decode_number};
use addr::{Asn, Day, Name};
use registry::Auth;
use sqlite::Row;
use sqlite::types::{ToSql, ValueRef};

/// Makes the table.
pub const CREATE_CLAIM: &str = "\
    CREATE TABLE claim (holder TEXT NOT NULL REFERENCES holder (name), number INTEGER NOT NULL, \
    asn INTEGER NOT NULL, opens INTEGER NOT NULL, ends INTEGER NOT NULL, \
    PRIMARY KEY (holder, number)) STRICT";

/// Puts a claim of a holder.
pub const INSERT_CLAIM: &str = "\
    INSERT INTO claim (holder, number, asn, opens, ends) VALUES (?1, ?2, ?3, ?4, ?5)";

/// Sets the columns of a claim of a holder, except its number.
pub const UPDATE_CLAIM: &str = "\
    UPDATE claim SET asn = ?3, opens = ?4, ends = ?5 WHERE holder = ?1 AND number = ?2";

/// Deletes a claim of a holder.
pub const DELETE_CLAIM: &str = "DELETE FROM claim WHERE holder = ?1 AND number = ?2";

/// The claims of a holder.
pub const SELECT_HOLDER_CLAIMS: &str = "\
    SELECT number, asn, opens, ends FROM claim WHERE holder = ?1 ORDER BY number";

/// The claim of a holder that has a number, if there is one.
pub const SELECT_NUMBERED_CLAIM: &str = "\
    SELECT number, asn, opens, ends FROM claim WHERE holder = ?1 AND number = ?2 ORDER BY number";

/// The number of claims of a holder.
pub const COUNT_HOLDER_CLAIMS: &str = "SELECT COUNT(*) FROM claim WHERE holder = ?1";

/// All claims, the names of their holders, and their rowids.
pub const SELECT_ALL_CLAIMS: &str = "\
    SELECT number, asn, opens, ends, holder, rowid FROM claim ORDER BY rowid";

/// The claims in force on a day, and the names of their holders.
pub const SELECT_CLAIMS_IN_FORCE: &str = "\
    SELECT number, asn, opens, ends, holder FROM claim WHERE opens <= ?1 AND ends >= ?1 \
    ORDER BY holder, number";

/// What an authorization has beside its entries.
#[derive(Clone, Copy, Debug, PartialEq, Eq)]
pub struct Claim {
    /// The number of the authorization.
    pub number: u32,
    pub asn: Asn,
    /// The first day in force.
    pub from: Day,
    /// The last day in force.
    pub until: Day,
}

/// The authorization without its entries.
pub fn claim_of(auth: &Auth) -> Claim
    ensures { result ≡ claim_of auth.now }
{
    Claim {
        number: auth.number,
        asn: auth.asn,
        from: auth.from,
        until: auth.until,
    }
}

/// A row of the table.
pub fn claim_values<'a>(holder: &'a Name, claim: &Claim) -> [ValueRef<'a>; 5]
    ensures { bound result ≡ claim_row holder.now claim.now }
{
    [
        holder.as_str().to_sql(),
        claim.number.to_sql(),
        claim.asn.0.to_sql(),
        claim.from.number().to_sql(),
        claim.until.number().to_sql(),
    ]
}

impl FromRow for Claim {
    ghost cells = { claim_cells };

    ghost width = { 4 };

    ghost fits = { ClaimFits };

    fn in_row(row: &Row) -> Option<Claim> {
        Some(Claim {
            number: decode_number(cell(row, 0))?,
            asn: decode_asn(cell(row, 1))?,
            from: decode_day(cell(row, 2))?,
            until: decode_day(cell(row, 3))?,
        })
    }
}
