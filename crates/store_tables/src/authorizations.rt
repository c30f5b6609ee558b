//! Joins claims and the rows of their entries into authorizations.
ghost use Rattle.std.specs.Prelude.{◌≡◌, map, IfOk, MatchOption};
ghost use Rattle.store_tables.specs.Authorizations.{AreAuths, HasNoAuths, NumbersRise};
ghost use Rattle.store_tables.specs.steps.Ungrouping.{auth_of};

use crate::groups::{Group, group_entries};
use crate::{Claim, EntryRow};
use registry::Auth;
use std::alloc::{AllocError, Global};

/// The authorization of a claim with its entries.
fn auth_of(group: Group<Claim>) -> Auth
    ensures { result ≡ auth_of group }
{
    let Group { claim, entries } = group;
    Auth {
        number: claim.number,
        asn: claim.asn,
        entries,
        from: claim.from,
        until: claim.until,
    }
}

/// The authorizations of claims with their entries.
fn ungroup(alloc: Global, groups: Vec<Group<Claim>>) -> Result<Vec<Auth>, AllocError>
    ensures { IfOk result (λ auths. auths.items ≡ map auth_of groups.items) }
{
    groups.into_iter().map(auth_of).collect(alloc)
}

/// Joins claims and the rows of their entries, both in one order, into authorizations. If the
/// claims rise by number, `None` means that no authorizations have just these claims and rows.
pub fn auths_of(
    alloc: Global,
    claims: &[Claim],
    rows: &[EntryRow],
) -> Result<Option<Vec<Auth>>, AllocError>
    ensures { IfOk result (λ found. MatchOption found
        (NumbersRise claims.now → HasNoAuths claims.now rows.now)
        (λ auths. AreAuths claims.now rows.now auths.items)) }
{
    let Some(groups) = group_entries(alloc, claims, rows)? else {
        return Ok(None);
    };
    Ok(Some(ungroup(alloc, groups)?))
}
