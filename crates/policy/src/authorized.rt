//! The rows of an import that are already authorized.

ghost use Rattle.std.specs.Prelude.{◌≡◌, ◌↔◌, ◌++◌, ◌∷◌, [], ℕ, List, IfOk, OnOk, IsTrue};
ghost use Rattle.registry.specs.declared.authorization.Auth.{Auth as AuthValue};
ghost use Rattle.registry.specs.Edits.{IsOfTerms};
ghost use Rattle.registry.specs.History.{History};
ghost use Rattle.registry.specs.Import.{IsPresent};
ghost use Rattle.registry.specs.Rows.{rows_of, RowsOf};
ghost use Rattle.registry.specs.Terms.{row_terms};
ghost use Rattle.policy.specs.steps.Authorized.{AreAuthorized, row_of_auth};

use crate::{Access, Auth, HolderRows, ImportRow};
use addr::{Day, Name, RoaPrefix};
use registry::are_permitted;
use std::alloc::{AllocError, Global};
use std::collections::BTreeSet;

/// The row that makes an authorization of these terms, if it has one entry.
fn row_of(auth: &Auth) -> Option<ImportRow>
    ensures { result ≡ row_of_auth auth.now }
{
    match auth.entries.as_slice() {
        [entry] => Some(ImportRow {
            asn: auth.asn,
            prefix: entry.prefix,
            max: entry.max,
            from: auth.from,
            until: auth.until,
        }),
        _ => None,
    }
}

/// The rows that these authorizations have the terms of.
pub(crate) fn authorized_rows(
    alloc: Global,
    auths: &[Auth],
) -> Result<BTreeSet<ImportRow>, AllocError>
    ensures { IfOk result (λ rows. AreAuthorized rows auths.now) }
{
    let mut rows = BTreeSet::new(alloc);
    for auth in auths {
        if let Some(row) = row_of(auth) {
            rows.insert(row)?;
        }
    }
    Ok(rows)
}

/// Puts the row among those that are authorized.
pub(crate) fn authorize(rows: &mut BTreeSet<ImportRow>, row: &ImportRow) -> Result<(), AllocError>
    ensures { OnOk result ((auths : List AuthValue) (made : AuthValue)
        → IsOfTerms (row_terms row.now) made → AreAuthorized rows.old auths
        → AreAuthorized rows.new (auths ++ made ∷ [])) }
{
    rows.insert(*row)?;
    Ok(())
}

/// Whether a row of an import is already authorized: the caller may alter authorizations of its
/// prefix, and an active one has its terms. `authorized` has the rows of the holder's.
pub(crate) fn is_present(
    rows: &HolderRows,
    authorized: &BTreeSet<ImportRow>,
    day: Day,
    caller: &Name,
    row: &ImportRow,
) -> bool
    requires { AreAuthorized authorized.now rows.now.auths.items }
    ensures { (history : History) (h : List ℕ) → RowsOf history h (rows_of rows.now)
        → (IsTrue result ↔ IsPresent day caller.now h history row.now) }
{
    let entry = RoaPrefix {
        prefix: row.prefix,
        max: row.max,
    };
    are_permitted(&rows.grants, day, caller, Access::Alter, &[entry]) && authorized.contains(row)
}
