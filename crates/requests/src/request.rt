//! Reading requests: here from JSON lines.
ghost use Rattle.std.specs.Prelude.{◌≡◌, ◌≤◌, length, Some, Err, true, IfOk, OnErr};
ghost use Rattle.serde_json.specs.View.{view};
ghost use Rattle.json_values.specs.Parts.{mapped};
ghost use Rattle.json_values.specs.Tree.{tree_of};
ghost use Rattle.requests.specs.Actions.{takes_body};
ghost use Rattle.requests.specs.RequestFaults.{action_in, request_fault};
ghost use Rattle.requests.specs.RequestText.{ReadsLine};
ghost use Rattle.requests.specs.declared.request.TheConstants.{LINE_LENGTH_LIMIT};
ghost use Rattle.requests.specs.steps.RequestReading.{asked_as, asked_by, asked_in, asked_terms, asked_with, line_subject, request_in, request_terms};

mod commands;
mod entries;
mod exceptions;
pub(crate) mod fault;
pub(crate) mod form;
mod lists;
pub(crate) mod members;
pub(crate) mod message;
mod terms;

use crate::action::Action;
use crate::malformed::Malformed;
use crate::member_names::{CALLER, DAY, HOLDER};
use addr::{Day, Name};
use commands::Subject;
use fault::{Fault, Read};
use form::{action_in, only_members_of};
use json_values::{both, tree_of, unless};
use members::{caller_in, day_in, holder_in, number_in};
use registry::{Asked, Query, Request};
use serde_json::Value;
use std::alloc::Global;

/// The longest line that is judged, in bytes without its line feed: 1 MiB.
pub const LINE_LENGTH_LIMIT: usize = 1_048_576;

/// Why bytes are no request.
#[derive(Clone, Copy, Debug, PartialEq, Eq)]
pub enum LineFault {
    Malformed(Malformed),
    /// An allocation failed; the bytes were not judged.
    Memory,
}

/// The request that a line is, or its lowest fault. A JSON number is taken if it is written in
/// plain digits; of a repeated member the last value counts.
pub fn read_line_request(alloc: Global, line: &[u8]) -> Result<Asked, LineFault>
    ensures ok { IfOk result (ReadsLine line.now) }
    ensures malformed { (m : Malformed) → result ≡ Err (LineFault.Malformed m)
        → request_fault line.now ≡ Some m }
    // To refuse a line that is too long takes no memory.
    ensures memory { result ≡ Err LineFault.Memory → length line.now ≤ LINE_LENGTH_LIMIT }
{
    match asked_in(alloc, line) {
        Ok(Ok(asked)) => Ok(asked),
        Ok(Err(fault)) => Err(LineFault::Malformed(fault.malformed())),
        Err(_) => Err(LineFault::Memory),
    }
}

/// The request of a line, or its lowest fault.
fn asked_in(alloc: Global, line: &[u8]) -> Read<Asked>
    ensures read { IfOk result (λ asked. mapped asked_terms asked ≡ asked_in line.now) }
    ensures memory { OnErr result (length line.now ≤ LINE_LENGTH_LIMIT) }
{
    if line.len() > LINE_LENGTH_LIMIT {
        return Ok(Err(Fault::TooLong));
    }
    match tree_of(alloc, line)? {
        Some(value) => asked_by(alloc, &value),
        None => Ok(Err(Fault::Json)),
    }
}

/// The request of a JSON value, by its `do`.
fn asked_by(alloc: Global, value: &Value) -> Read<Asked>
    ensures { IfOk result (λ asked. mapped asked_terms asked
        ≡ asked_by (action_in (view value.now)) (view value.now)) }
{
    match action_in(value) {
        Some(action) => asked_as(alloc, action, value),
        None => Ok(Err(Fault::Members)),
    }
}

/// The request of a JSON value whose `do` is known.
fn asked_as(alloc: Global, action: Action, value: &Value) -> Read<Asked>
    ensures { IfOk result (λ asked. mapped asked_terms asked ≡ asked_as action (view value.now)) }
{
    let request = request_in(alloc, action, line_subject(value), value)?;
    let asked = asked_with(day_in(value, DAY), caller_in(value, CALLER), request);
    Ok(unless(asked, only_members_of(action, value)))
}

/// Puts day, caller and request together.
fn asked_with(
    day: Result<Day, Fault>,
    caller: Result<Name, Fault>,
    request: Result<Request, Fault>,
) -> Result<Asked, Fault>
    ensures { mapped asked_terms result ≡ asked_with day caller (mapped request_terms request) }
{
    let (day, (caller, request)) = both(day, both(caller, request))?;
    Ok(Asked {
        day,
        caller,
        request,
    })
}

/// What a line names, by its members.
fn line_subject(value: &Value) -> Subject
    ensures { result ≡ line_subject (view value.now) }
{
    Subject {
        holder: holder_in(value, HOLDER),
        number: number_in(value),
    }
}

/// The request with this subject and these further members.
fn request_in(alloc: Global, action: Action, subject: Subject, value: &Value) -> Read<Request>
    ensures read { IfOk result (λ request. mapped request_terms request
        ≡ request_in action subject (view value.now)) }
    ensures memory { OnErr result (takes_body action ≡ true) }
{
    match action {
        Action::Register => Ok(commands::register_in(subject)),
        Action::Delegate => Ok(commands::delegate_in(subject, value)),
        Action::Transfer => Ok(commands::transfer_in(value)),
        Action::Reclaim => Ok(commands::reclaim_in(subject, value)),
        Action::Grant => Ok(commands::grant_in(subject, value)),
        Action::Revoke => Ok(commands::revoke_in(subject)),
        Action::Create => commands::create_in(alloc, subject, value),
        Action::Amend => commands::amend_in(alloc, subject, value),
        Action::Withdraw => Ok(commands::withdraw_in(subject)),
        Action::Slurm => exceptions::slurm_in(alloc, value),
        Action::Slurms => exceptions::slurms_in(alloc, value),
        Action::Show => Ok(commands::show_in(subject)),
        Action::Content => Ok(commands::content_in(subject)),
        Action::List | Action::Export => Ok(commands::list_in(subject)),
        Action::Import => lists::import_in(alloc, subject, value),
        Action::WhatIf => lists::what_if_in(alloc, subject, value),
        Action::Payloads => Ok(Ok(Request::Query(Query::Payloads))),
        Action::Validity => lists::validity_in(alloc, value),
    }
}
