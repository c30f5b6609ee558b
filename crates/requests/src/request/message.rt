//! Reading requests from HTTP messages.
ghost use Rattle.std.specs.Prelude.{◌≡◌, ◌&&◌, None, Some, Err, true, IfOk, OnErr};
ghost use Rattle.std.specs.Option.{option_copied};
ghost use Rattle.serde_json.specs.View.{view};
ghost use Rattle.json_values.specs.Parts.{mapped};
ghost use Rattle.requests.specs.Actions.{takes_body};
ghost use Rattle.requests.specs.RequestHeads.{head_view};
ghost use Rattle.requests.specs.HttpFaults.{body_bytes, http_fault, json_tree, path_number};
ghost use Rattle.requests.specs.HttpRequests.{SaysAsked};
ghost use Rattle.requests.specs.steps.HttpReading.{asked_of, caller_of, import_body, import_rows, object_body, object_request, path_subject, request_of};
ghost use Rattle.requests.specs.steps.RequestReading.{asked_terms, main_file_of, request_terms, slurm_request};

use super::commands::Subject;
use super::exceptions::slurm_of;
use super::fault::{Fault, Read};
use super::form::only_body_members_of;
use super::lists::asked_import;
use super::{LineFault, asked_with, request_in};
use crate::action::Action;
use crate::head::Head;
use crate::malformed::Malformed;
use addr::{Day, Name, number_from_text};
use csv_records::read_import;
use json_values::{tree_of, unless};
use registry::{Asked, ImportRow, LAST_NUMBER, Request};
use serde_json::Value;
use slurm::SlurmFault;
use std::alloc::Global;

/// The request that a head and its body are, or its lowest fault.
pub fn read_http_request(
    alloc: Global,
    day: Day,
    head: &Head<'_>,
    body: Option<&[u8]>,
) -> Result<Asked, LineFault>
    ensures ok { IfOk result (SaysAsked day (head_view head.now) (option_copied body.entry)) }
    ensures malformed { (m : Malformed) → result ≡ Err (LineFault.Malformed m)
        → http_fault (head_view head.now) (option_copied body.entry) ≡ Some m }
    // A request that is complete without a body takes no memory.
    ensures memory { result ≡ Err LineFault.Memory → body.entry ≡ None
        → takes_body head.now.action ≡ true }
{
    match asked_of(alloc, day, head, body) {
        Ok(Ok(asked)) => Ok(asked),
        Ok(Err(fault)) => Err(LineFault::Malformed(fault.malformed())),
        Err(_) => Err(LineFault::Memory),
    }
}

/// The request of a head and a body on this day, or its lowest fault.
fn asked_of(alloc: Global, day: Day, head: &Head<'_>, body: Option<&[u8]>) -> Read<Asked>
    ensures read { IfOk result (λ asked. mapped asked_terms asked
        ≡ asked_of day (head_view head.now) (option_copied body.entry)) }
    ensures memory { OnErr result (body.entry ≡ None → takes_body head.now.action ≡ true) }
{
    let request = request_of(alloc, head, body)?;
    Ok(asked_with(Ok(day), caller_of(head), request))
}

/// The caller that the head names.
fn caller_of(head: &Head<'_>) -> Result<Name, Fault>
    ensures { result ≡ caller_of (head_view head.now) }
{
    match head.caller {
        Some(caller) => Name::read(caller).ok_or(Fault::Caller),
        None => Err(Fault::Caller),
    }
}

/// What a head and a body ask, whoever the caller is.
fn request_of(alloc: Global, head: &Head<'_>, body: Option<&[u8]>) -> Read<Request>
    ensures read { IfOk result (λ request. mapped request_terms request
        ≡ request_of (head_view head.now) (option_copied body.entry)) }
    ensures memory { OnErr result (body.entry ≡ None → takes_body head.now.action ≡ true) }
{
    let subject = path_subject(head);
    match head.action {
        Action::Slurm => file_body(alloc, body),
        Action::Import => import_body(alloc, subject, body),
        action => object_body(alloc, action, subject, body),
    }
}

/// The request of a body that is a SLURM file.
fn file_body(alloc: Global, body: Option<&[u8]>) -> Read<Request>
    ensures { IfOk result (λ request. mapped request_terms request
        ≡ slurm_request (main_file_of (json_tree (option_copied body.entry)))) }
{
    let Some(bytes) = body else {
        return slurm_of(alloc, &Value::Null);
    };
    match tree_of(alloc, bytes)? {
        Some(value) => slurm_of(alloc, &value),
        None => Ok(Err(Fault::File(SlurmFault::NotJson))),
    }
}

/// The request of a body that is an import in CSV.
fn import_body(alloc: Global, subject: Subject, body: Option<&[u8]>) -> Read<Request>
    ensures { IfOk result (λ request. mapped request_terms request
        ≡ import_body subject (option_copied body.entry)) }
{
    let rows = import_rows(alloc, body_bytes(body))?;
    Ok(asked_import(subject, rows))
}

/// The bytes of a body: none if there is no body.
fn body_bytes(body: Option<&[u8]>) -> &[u8]
    ensures { result.now ≡ body_bytes (option_copied body.entry) }
{
    match body {
        Some(bytes) => bytes,
        None => &[],
    }
}

/// The rows of an import in CSV.
fn import_rows(alloc: Global, text: &[u8]) -> Read<Vec<ImportRow>>
    ensures { IfOk result (λ rows. mapped (λ v. v.items) rows ≡ import_rows text.now) }
{
    Ok(read_import(alloc, text)?.map_err(Fault::of_import))
}

/// The request of a body that is a JSON object.
fn object_body(
    alloc: Global,
    action: Action,
    subject: Subject,
    body: Option<&[u8]>,
) -> Read<Request>
    ensures read { IfOk result (λ request. mapped request_terms request
        ≡ object_body action subject (option_copied body.entry)) }
    ensures memory { OnErr result (body.entry ≡ None → takes_body action ≡ true) }
{
    let Some(bytes) = body else {
        return request_in(alloc, action, subject, &Value::Null);
    };
    match tree_of(alloc, bytes)? {
        Some(value) => object_request(alloc, action, subject, &value),
        None => Ok(Err(Fault::Json)),
    }
}

/// What the path names.
fn path_subject(head: &Head<'_>) -> Subject
    ensures { result ≡ path_subject (head_view head.now) }
{
    Subject {
        holder: Name::read(head.holder).ok_or(Fault::Holder),
        number: path_number(head.number).ok_or(Fault::Number),
    }
}

/// The number of a grant or of an authorization, from the path.
fn path_number(text: &[u8]) -> Option<u32>
    ensures { result ≡ path_number text.now }
{
    match number_from_text(text) {
        Some(number) if 1 <= number && number <= u64::from(LAST_NUMBER) => Some(number as u32),
        _ => None,
    }
}

/// The request of a JSON object that has the members of a body and no others.
fn object_request(alloc: Global, action: Action, subject: Subject, value: &Value) -> Read<Request>
    ensures { IfOk result (λ request. mapped request_terms request
        ≡ object_request action subject (view value.now)) }
{
    let request = request_in(alloc, action, subject, value)?;
    Ok(unless(request, only_body_members_of(action, value)))
}
