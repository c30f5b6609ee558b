//! Acting on a request, and the response.
ghost use Rattle.std.specs.Prelude.{◌≡◌, ◌++◌, ℕ, List, true, OnOk, OnErr};
ghost use Rattle.streams.specs.Streams.{AppendsBeginning};
ghost use Rattle.web.specs.HttpResponses.{json_response, refusal_response, reply_status, reply_type, unavailable_response};
ghost use Rattle.web.specs.ScriptAnswer.{IsLaterDesk};
ghost use Rattle.web.specs.steps.HttpAnswering.{AnswersNext, IsReplyResponse, IsVrpsResponse};

use super::body::reply_body;
use super::reading::Next;
use crate::reply::{short_text, unavailable_text};
use crate::vrps::{asks_for_vrps, write_csv};
use daily_vrps::CountedVrps;
use desk::{Desk, Reply};
use http_messages::{ContentType, HttpRefusal, Status, fault_text, response_head, write_response};
use registry::{Asked, Query, Request};
use sqlite::Alter;
use std::alloc::Global;
use streams::{Drain, Failed};

/// Acts on what was read, and writes the response. What a reply shows is collected first, except
/// the VRPs of a day; if an allocation fails there, the response says so.
pub(super) fn respond<D: Drain, A: Alter>(
    alloc: Global,
    drain: &mut D,
    desk: &mut Desk<A>,
    next: &Next,
) -> Result<(), Failed>
    ensures ok { OnOk result ((text : List ℕ)
        × AnswersNext A.Store desk.old next.now text desk.new
        × (D.written drain.new ≡ D.written drain.old ++ text)) }
    ensures err { OnErr result ((text : List ℕ)
        × AnswersNext A.Store desk.old next.now text desk.new
        × AppendsBeginning (D.written drain.old) (D.written drain.new) text) }
    ensures failed { OnErr result (D.has_failed drain.new ≡ true) }
    ensures later { IsLaterDesk A.Store desk.old desk.new }
{
    match next {
        Next::Refused(refusal) => write_refusal(drain, *refusal),
        Next::Malformed(malformed) => write_json(
            drain,
            Status::BadRequest,
            malformed.text().as_str(),
        ),
        Next::Asked(form, asked) => answer_to(alloc, drain, desk, *form, asked),
        Next::NotRead => write_unavailable(drain),
    }
}

/// Acts on the request, and writes the response to the reply.
fn answer_to<D: Drain, A: Alter>(
    alloc: Global,
    drain: &mut D,
    desk: &mut Desk<A>,
    form: ContentType,
    asked: &Asked,
) -> Result<(), Failed>
    ensures ok { OnOk result ((text : List ℕ)
        × AnswersNext A.Store desk.old (Next.Asked form asked.now) text desk.new
        × (D.written drain.new ≡ D.written drain.old ++ text)) }
    ensures err { OnErr result ((text : List ℕ)
        × AnswersNext A.Store desk.old (Next.Asked form asked.now) text desk.new
        × AppendsBeginning (D.written drain.old) (D.written drain.new) text) }
    ensures failed { OnErr result (D.has_failed drain.new ≡ true) }
    ensures later { IsLaterDesk A.Store desk.old desk.new }
{
    if asks_for_vrps(&asked.request) {
        return write_payloads(drain, desk, form, asked);
    }
    registry::laws::asked_fits(asked);
    let reply = desk.handle(asked.day, &asked.caller, &asked.request);
    write_reply_response(alloc, drain, form, &reply)
}

/// Answers a request for the VRPs of a day from those that the desk keeps; no list is made, and
/// nothing is allocated for a day that is kept.
fn write_payloads<D: Drain, A: Alter>(
    drain: &mut D,
    desk: &mut Desk<A>,
    form: ContentType,
    asked: &Asked,
) -> Result<(), Failed>
    requires { asked.now.request ≡ Request.Query Query.Payloads }
    ensures ok { OnOk result ((text : List ℕ)
        × AnswersNext A.Store desk.old (Next.Asked form asked.now) text desk.new
        × (D.written drain.new ≡ D.written drain.old ++ text)) }
    ensures err { OnErr result ((text : List ℕ)
        × AnswersNext A.Store desk.old (Next.Asked form asked.now) text desk.new
        × AppendsBeginning (D.written drain.old) (D.written drain.new) text) }
    ensures failed { OnErr result (D.has_failed drain.new ≡ true) }
    ensures later { IsLaterDesk A.Store desk.old desk.new }
{
    match desk.counted_payloads(asked.day) {
        Some(vrps) => write_vrps_response(drain, form, vrps),
        None => write_unavailable(drain),
    }
}

/// Writes the response that has the VRPs as CSV. Its head has the length, so a body of 2^64 octets
/// or more cannot be sent.
fn write_vrps_response<D: Drain>(
    drain: &mut D,
    form: ContentType,
    vrps: &CountedVrps,
) -> Result<(), Failed>
    ensures ok { OnOk result ((text : List ℕ)
        × IsVrpsResponse form vrps.now text
        × (D.written drain.new ≡ D.written drain.old ++ text)) }
    ensures err { OnErr result ((text : List ℕ)
        × IsVrpsResponse form vrps.now text
        × AppendsBeginning (D.written drain.old) (D.written drain.new) text) }
    ensures failed { OnErr result (D.has_failed drain.new ≡ true) }
{
    match vrps.csv_length() {
        Some(length) => {
            let head = response_head(Status::Done, ContentType::Csv, length);
            write_csv(head.as_str(), vrps.vrps(), drain)
        }
        None => write_unavailable(drain),
    }
}

/// Writes a response whose body is this JSON text.
fn write_json<D: Drain>(drain: &mut D, status: Status, text: &str) -> Result<(), Failed>
    ensures ok { OnOk result
        (D.written drain.new ≡ D.written drain.old ++ json_response status text.now) }
    ensures err { OnErr result (AppendsBeginning (D.written drain.old) (D.written drain.new)
        (json_response status text.now)) }
    ensures failed { OnErr result (D.has_failed drain.new ≡ true) }
{
    write_response(drain, status, ContentType::Json, text.as_bytes())
}

/// Writes the response to what the protocol refuses.
fn write_refusal<D: Drain>(drain: &mut D, refusal: HttpRefusal) -> Result<(), Failed>
    ensures ok { OnOk result
        (D.written drain.new ≡ D.written drain.old ++ refusal_response refusal) }
    ensures err { OnErr result (AppendsBeginning (D.written drain.old) (D.written drain.new)
        (refusal_response refusal)) }
    ensures failed { OnErr result (D.has_failed drain.new ≡ true) }
{
    let status = refusal.status();
    write_json(drain, status, fault_text(status).as_str())
}

/// Writes the response to a reply. One that shows something has its body collected first, since
/// the head has its length.
fn write_reply_response<D: Drain>(
    alloc: Global,
    drain: &mut D,
    form: ContentType,
    reply: &Reply,
) -> Result<(), Failed>
    ensures ok { OnOk result ((text : List ℕ) × IsReplyResponse form reply.now text
        × (D.written drain.new ≡ D.written drain.old ++ text)) }
    ensures err { OnErr result ((text : List ℕ) × IsReplyResponse form reply.now text
        × AppendsBeginning (D.written drain.old) (D.written drain.new) text) }
    ensures failed { OnErr result (D.has_failed drain.new ≡ true) }
{
    if let Some(text) = short_text(reply) {
        return write_json(drain, reply_status(reply), text.as_str());
    }
    let content_type = reply_type(form, reply);
    match reply_body(alloc, content_type, reply) {
        Ok(body) => write_response(drain, Status::Done, content_type, body.as_slice()),
        Err(_) => write_unavailable(drain),
    }
}

/// The status of the response to a reply.
fn reply_status(reply: &Reply) -> Status
    ensures { result ≡ reply_status reply.now }
{
    match reply {
        Reply::Denied(..) => Status::Forbidden,
        Reply::Unavailable => Status::ServiceUnavailable,
        _ => Status::Done,
    }
}

/// The media type of a reply, if a list is sent in this form.
fn reply_type(form: ContentType, reply: &Reply) -> ContentType
    ensures { result ≡ reply_type form reply.now }
{
    match reply {
        Reply::Listed(_) => form,
        Reply::Payloads(_) => ContentType::Csv,
        _ => ContentType::Json,
    }
}

/// Writes the response that says that an allocation failed.
fn write_unavailable<D: Drain>(drain: &mut D) -> Result<(), Failed>
    ensures ok { OnOk result
        (D.written drain.new ≡ D.written drain.old ++ unavailable_response) }
    ensures err { OnErr result (AppendsBeginning (D.written drain.old) (D.written drain.new)
        unavailable_response) }
    ensures failed { OnErr result (D.has_failed drain.new ≡ true) }
{
    write_json(
        drain,
        Status::ServiceUnavailable,
        unavailable_text().as_str(),
    )
}
