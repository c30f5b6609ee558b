//! The table `granted`, of which each row is the name of a holder and a grant at it.
ghost use Rattle.std.specs.Prelude.{◌≡◌};
ghost use Rattle.registry.specs.Values.{GrantFits};
ghost use Rattle.sqlite.specs.Values.{bound};
ghost use Rattle.store_tables.specs.Cells.{address_bytes, role_number, scope_first, scope_cells, grant_cells, granted_row};

use crate::FromRow;
use crate::cells::prefix_values;
use crate::decode::{cell, decode_day, decode_name, decode_number, decode_role, decode_scope};
use addr::Name;
use registry::{Granted, Role, Scope};
use sqlite::Row;
use sqlite::types::{ToSql, ValueRef};

/// Makes the table.
pub const CREATE_GRANTED: &str = "\
    CREATE TABLE granted (holder TEXT NOT NULL REFERENCES holder (name), number INTEGER NOT NULL, \
    caller TEXT NOT NULL, role INTEGER NOT NULL, family INTEGER, lo BLOB, len INTEGER, \
    until INTEGER NOT NULL, PRIMARY KEY (holder, number)) STRICT";

/// Puts a grant at a holder.
pub const INSERT_GRANT: &str = "\
    INSERT INTO granted (holder, number, caller, role, family, lo, len, until) \
    VALUES (?1, ?2, ?3, ?4, ?5, ?6, ?7, ?8)";

/// Deletes a grant of a holder.
pub const DELETE_GRANT: &str = "DELETE FROM granted WHERE holder = ?1 AND number = ?2";

/// The grants at a holder.
pub const SELECT_HOLDER_GRANTS: &str = "\
    SELECT number, caller, role, family, lo, len, until FROM granted WHERE holder = ?1 \
    ORDER BY number";

/// All grants, and their rowids.
pub const SELECT_ALL_GRANTS: &str = "\
    SELECT number, caller, role, family, lo, len, until, rowid FROM granted ORDER BY rowid";

/// The number of a role in the table.
fn role_number(role: Role) -> u32
    ensures { result ≡ role_number role }
{
    match role {
        Role::Manager => 1,
        Role::Clerk => 2,
        Role::Auditor => 3,
    }
}

/// The first address of the scope's prefix, as a number; 0 if the scope is all prefixes.
pub fn scope_first(scope: &Scope) -> u128
    ensures { result ≡ scope_first scope.now }
{
    match scope {
        Scope::All => 0,
        Scope::Only(prefix) => prefix.first,
    }
}

/// The columns of a scope, with the bytes of the first address of its prefix.
fn scope_values<'a>(scope: &Scope, first: &'a [u8]) -> [ValueRef<'a>; 3]
    requires { first.now ≡ address_bytes (scope_first scope.now) }
    ensures { bound result ≡ scope_cells scope.now }
{
    match scope {
        Scope::All => [ValueRef::Null, ValueRef::Null, ValueRef::Null],
        Scope::Only(prefix) => prefix_values(prefix, first),
    }
}

/// A row of the table, with the bytes of the first address of the grant's scope.
pub fn granted_values<'a>(
    holder: &'a Name,
    grant: &'a Granted,
    first: &'a [u8],
) -> [ValueRef<'a>; 8]
    requires { first.now ≡ address_bytes (scope_first grant.now.scope) }
    ensures { bound result ≡ granted_row holder.now grant.now }
{
    let [family, lo, length] = scope_values(&grant.scope, first);
    [
        holder.as_str().to_sql(),
        grant.number.to_sql(),
        grant.caller.as_str().to_sql(),
        role_number(grant.role).to_sql(),
        family,
        lo,
        length,
        grant.until.number().to_sql(),
    ]
}

impl FromRow for Granted {
    ghost cells = { grant_cells };

    ghost width = { 7 };

    ghost fits = { GrantFits };

    fn in_row(row: &Row) -> Option<Granted> {
        Some(Granted {
            number: decode_number(cell(row, 0))?,
            caller: decode_name(cell(row, 1))?,
            role: decode_role(cell(row, 2))?,
            scope: decode_scope(cell(row, 3), cell(row, 4), cell(row, 5))?,
            until: decode_day(cell(row, 6))?,
        })
    }
}
