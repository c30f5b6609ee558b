//! What an authorization is to say, as a create or a row of an import names it.
ghost use Rattle.std.specs.Prelude.{◌≡◌, IfOk};
ghost use Rattle.serde_json.specs.View.{view};
ghost use Rattle.requests.specs.steps.RequestReading.{asn_and_days_in, row_members_in, terms_in};

use super::entries::{entries_in, entry_members_in};
use super::fault::{Fault, Read};
use super::members::{asn_in, day_in};
use crate::member_names::{FROM, UNTIL};
use addr::{Asn, Day};
use json_values::both;
use registry::{AuthTerms, ImportRow};
use serde_json::Value;
use std::alloc::Global;

/// What is said beside the entries.
#[derive(Clone, Copy)]
struct AsnAndDays {
    asn: Asn,
    from: Day,
    until: Day,
}

fn asn_and_days_in(value: &Value) -> Result<AsnAndDays, Fault>
    ensures { result ≡ asn_and_days_in (view value.now) }
{
    let days = both(day_in(value, FROM), day_in(value, UNTIL));
    let (asn, (from, until)) = both(asn_in(value), days)?;
    Ok(AsnAndDays { asn, from, until })
}

/// What a create is to authorize.
pub(crate) fn terms_in(alloc: Global, value: &Value) -> Read<AuthTerms>
    ensures { IfOk result (λ terms. terms ≡ terms_in (view value.now)) }
{
    let entries = entries_in(alloc, value)?;
    let parts = both(asn_and_days_in(value), entries);
    Ok(parts.map(|(said, entries)| AuthTerms {
        asn: said.asn,
        entries,
        from: said.from,
        until: said.until,
    }))
}

/// The members of a row of an import.
pub(crate) fn row_members_in(value: &Value) -> Result<ImportRow, Fault>
    ensures { result ≡ row_members_in (view value.now) }
{
    let (said, entry) = both(asn_and_days_in(value), entry_members_in(value))?;
    Ok(ImportRow {
        asn: said.asn,
        prefix: entry.prefix,
        max: entry.max,
        from: said.from,
        until: said.until,
    })
}
