//! The members of requests: each reader reads one member, which has to be there.
ghost use Rattle.std.specs.Prelude.{◌≡◌, codes};
ghost use Rattle.serde_json.specs.View.{view};
ghost use Rattle.json_values.specs.Values.{as_asn, as_name};
ghost use Rattle.requests.specs.RequestFaults.{role_at};
ghost use Rattle.requests.specs.RequestValues.{any_scope, as_max, as_number, as_origin, as_role, as_scope, fitting_scope, role_of};
ghost use Rattle.requests.specs.steps.RequestReading.{asked_prefix, caller_member, day_member, holder_member, max_member, member_in, number_member};

use super::fault::Fault;
use crate::member_names::{ASN, MAX, NAME, NUMBER, ORIGIN, PREFIX, ROLE, SCOPE};
use addr::{Asn, Day, Name, Origin, Prefix};
use json_values::{as_asn, as_day, as_name, as_number_in, as_prefix, member};
use registry::{LAST_NUMBER, Role, Scope};
use serde_json::Value;

/// The greatest `max` that a line may have. Whether it fits the prefix, the rules judge.
const GREATEST_MAX: u64 = 255;

// ---- values

fn as_origin(value: &Value) -> Option<Origin>
    ensures { result ≡ as_origin (view value.now) }
{
    match value {
        Value::Null => Some(Origin::None),
        _ => Some(Origin::As(as_asn(value)?)),
    }
}

pub(crate) fn as_max(value: &Value) -> Option<u8>
    ensures { result ≡ as_max (view value.now) }
{
    Some(as_number_in(value, 0, GREATEST_MAX)? as u8)
}

fn as_number(value: &Value) -> Option<u32>
    ensures { result ≡ as_number (view value.now) }
{
    Some(as_number_in(value, 1, u64::from(LAST_NUMBER))? as u32)
}

fn role_of(text: &str) -> Option<Role>
    ensures { result ≡ role_of text.now }
{
    match text {
        "manager" => Some(Role::Manager),
        "clerk" => Some(Role::Clerk),
        "auditor" => Some(Role::Auditor),
        _ => None,
    }
}

fn as_role(value: &Value) -> Option<Role>
    ensures { result ≡ as_role (view value.now) }
{
    role_of(value.as_str()?)
}

fn role_at(value: &Value) -> Option<Role>
    ensures { result ≡ role_at (view value.now) }
{
    as_role(value.get(ROLE)?)
}

fn any_scope(value: &Value) -> Option<Scope>
    ensures { result ≡ any_scope (view value.now) }
{
    if value.as_str()? == "all" {
        return Some(Scope::All);
    }
    Some(Scope::Only(as_prefix(value)?))
}

/// A manager's scope is all.
fn fitting_scope(role: Option<Role>, scope: Scope) -> Option<Scope>
    ensures { result ≡ fitting_scope role scope }
{
    match (role, scope) {
        (Some(Role::Manager), Scope::Only(_)) => None,
        (_, scope) => Some(scope),
    }
}

fn as_scope(role: Option<Role>, value: &Value) -> Option<Scope>
    ensures { result ≡ as_scope role (view value.now) }
{
    fitting_scope(role, any_scope(value)?)
}

// ---- members

pub(crate) fn holder_in(value: &Value, name: &str) -> Result<Name, Fault>
    ensures { result ≡ holder_member name.now (view value.now) }
{
    as_name(member(value, name)?).ok_or(Fault::Holder)
}

pub(crate) fn caller_in(value: &Value, name: &str) -> Result<Name, Fault>
    ensures { result ≡ caller_member name.now (view value.now) }
{
    as_name(member(value, name)?).ok_or(Fault::Caller)
}

/// The name of a SLURM file.
pub(crate) fn file_name_in(value: &Value) -> Result<Name, Fault>
    ensures { result ≡ member_in as_name Fault.FileName (codes "name") (view value.now) }
{
    as_name(member(value, NAME)?).ok_or(Fault::FileName)
}

pub(crate) fn prefix_in(value: &Value) -> Result<Prefix, Fault>
    ensures { result ≡ asked_prefix (view value.now) }
{
    as_prefix(member(value, PREFIX)?).ok_or(Fault::Prefix)
}

pub(crate) fn asn_in(value: &Value) -> Result<Asn, Fault>
    ensures { result ≡ member_in as_asn Fault.Asn (codes "asn") (view value.now) }
{
    as_asn(member(value, ASN)?).ok_or(Fault::Asn)
}

pub(crate) fn origin_in(value: &Value) -> Result<Origin, Fault>
    ensures { result ≡ member_in as_origin Fault.Asn (codes "origin") (view value.now) }
{
    as_origin(member(value, ORIGIN)?).ok_or(Fault::Asn)
}

pub(crate) fn max_in(value: &Value) -> Result<u8, Fault>
    ensures { result ≡ max_member (view value.now) }
{
    as_max(member(value, MAX)?).ok_or(Fault::Max)
}

pub(crate) fn number_in(value: &Value) -> Result<u32, Fault>
    ensures { result ≡ number_member (view value.now) }
{
    as_number(member(value, NUMBER)?).ok_or(Fault::Number)
}

pub(crate) fn day_in(value: &Value, name: &str) -> Result<Day, Fault>
    ensures { result ≡ day_member name.now (view value.now) }
{
    as_day(member(value, name)?).ok_or(Fault::Day)
}

pub(crate) fn role_in(value: &Value) -> Result<Role, Fault>
    ensures { result ≡ member_in as_role Fault.Role (codes "role") (view value.now) }
{
    as_role(member(value, ROLE)?).ok_or(Fault::Role)
}

/// A scope that the role beside it may have.
pub(crate) fn scope_in(value: &Value) -> Result<Scope, Fault>
    ensures { result ≡ member_in (as_scope (role_at (view value.now))) Fault.Role (codes "scope")
        (view value.now) }
{
    as_scope(role_at(value), member(value, SCOPE)?).ok_or(Fault::Role)
}
