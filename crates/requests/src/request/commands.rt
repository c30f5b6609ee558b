//! One reader for each request, of what it names and of its further members: null where it has
//! none.
ghost use Rattle.std.specs.Prelude.{◌≡◌, IfOk};
ghost use Rattle.serde_json.specs.Data.{null};
ghost use Rattle.serde_json.specs.View.{view};
ghost use Rattle.json_values.specs.Parts.{mapped};
ghost use Rattle.requests.specs.steps.RequestReading.{grant_terms_in, request_in, request_terms};

use super::entries::maxes_in;
use super::fault::{Fault, Read};
use super::members::{caller_in, day_in, holder_in, prefix_in, role_in, scope_in};
use super::terms::terms_in;
use crate::action::Action;
use crate::member_names::{GIVER, NAME, TAKER, UNTIL};
use addr::Name;
use json_values::both;
use registry::{Command, GrantTerms, Query, Request};
use serde_json::Value;
use std::alloc::Global;

/// The holder and the number that a request names. If it names none, the fault is not used.
#[derive(Clone, Copy, Debug)]
pub(crate) struct Subject {
    pub(crate) holder: Result<Name, Fault>,
    pub(crate) number: Result<u32, Fault>,
}

pub(crate) fn register_in(subject: Subject) -> Result<Request, Fault>
    ensures { mapped request_terms result ≡ request_in Action.Register subject null }
{
    let holder = subject.holder?;
    Ok(Request::Command(Command::Register { holder }))
}

pub(crate) fn delegate_in(subject: Subject, value: &Value) -> Result<Request, Fault>
    ensures { mapped request_terms result ≡ request_in Action.Delegate subject (view value.now) }
{
    let (holder, prefix) = both(subject.holder, prefix_in(value))?;
    Ok(Request::Command(Command::Delegate { holder, prefix }))
}

pub(crate) fn transfer_in(value: &Value) -> Result<Request, Fault>
    ensures { (subject : Subject) → mapped request_terms result
        ≡ request_in Action.Transfer subject (view value.now) }
{
    let holders = both(holder_in(value, GIVER), holder_in(value, TAKER));
    let (prefix, (giver, taker)) = both(prefix_in(value), holders)?;
    Ok(Request::Command(Command::Transfer {
        prefix,
        giver,
        taker,
    }))
}

pub(crate) fn reclaim_in(subject: Subject, value: &Value) -> Result<Request, Fault>
    ensures { mapped request_terms result ≡ request_in Action.Reclaim subject (view value.now) }
{
    let (holder, prefix) = both(subject.holder, prefix_in(value))?;
    Ok(Request::Command(Command::Reclaim { holder, prefix }))
}

/// What a grant gives, and to whom.
fn grant_terms_in(value: &Value) -> Result<GrantTerms, Fault>
    ensures { result ≡ grant_terms_in (view value.now) }
{
    let access = both(role_in(value), both(scope_in(value), day_in(value, UNTIL)));
    let (to, (role, (scope, until))) = both(caller_in(value, NAME), access)?;
    Ok(GrantTerms {
        to,
        role,
        scope,
        until,
    })
}

pub(crate) fn grant_in(subject: Subject, value: &Value) -> Result<Request, Fault>
    ensures { mapped request_terms result ≡ request_in Action.Grant subject (view value.now) }
{
    let (holder, terms) = both(subject.holder, grant_terms_in(value))?;
    Ok(Request::Command(Command::Grant { holder, terms }))
}

pub(crate) fn revoke_in(subject: Subject) -> Result<Request, Fault>
    ensures { mapped request_terms result ≡ request_in Action.Revoke subject null }
{
    let (holder, number) = both(subject.holder, subject.number)?;
    Ok(Request::Command(Command::Revoke { holder, number }))
}

pub(crate) fn create_in(alloc: Global, subject: Subject, value: &Value) -> Read<Request>
    ensures { IfOk result (λ request. mapped request_terms request
        ≡ request_in Action.Create subject (view value.now)) }
{
    let terms = terms_in(alloc, value)?;
    let parts = both(subject.holder, terms);
    Ok(parts.map(|(holder, terms)| Request::Command(Command::Create { holder, terms })))
}

pub(crate) fn amend_in(alloc: Global, subject: Subject, value: &Value) -> Read<Request>
    ensures { IfOk result (λ request. mapped request_terms request
        ≡ request_in Action.Amend subject (view value.now)) }
{
    let maxes = maxes_in(alloc, value)?;
    let authorization = both(subject.holder, subject.number);
    let parts = both(authorization, both(day_in(value, UNTIL), maxes));
    Ok(parts.map(|((holder, number), (until, maxes))| {
        Request::Command(Command::Amend {
            holder,
            number,
            maxes,
            until,
        })
    }))
}

pub(crate) fn withdraw_in(subject: Subject) -> Result<Request, Fault>
    ensures { mapped request_terms result ≡ request_in Action.Withdraw subject null }
{
    let (holder, number) = both(subject.holder, subject.number)?;
    Ok(Request::Command(Command::Withdraw { holder, number }))
}

pub(crate) fn show_in(subject: Subject) -> Result<Request, Fault>
    ensures { mapped request_terms result ≡ request_in Action.Show subject null }
{
    let (holder, number) = both(subject.holder, subject.number)?;
    Ok(Request::Query(Query::Show { holder, number }))
}

pub(crate) fn content_in(subject: Subject) -> Result<Request, Fault>
    ensures { mapped request_terms result ≡ request_in Action.Content subject null }
{
    let (holder, number) = both(subject.holder, subject.number)?;
    Ok(Request::Query(Query::Content { holder, number }))
}

pub(crate) fn list_in(subject: Subject) -> Result<Request, Fault>
    ensures { mapped request_terms result ≡ request_in Action.List subject null }
{
    let holder = subject.holder?;
    Ok(Request::Query(Query::List { holder }))
}
