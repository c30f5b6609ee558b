//! What the head of a request asks for.
ghost use Rattle.std.specs.Prelude.{◌≡◌, ◌≤◌, [], ℕ, map, option_map, length, take, All, IfSome, IfNone};
ghost use Rattle.httparse.specs.Grammar.{ReadsRequest, RequestHead};
ghost use Rattle.httparse.specs.Spans.{IsHeaderWithin, IsRequestAt, IsRequestWithin, header_bytes};
ghost use Rattle.requests.specs.RequestHeads.{SaysHead, caller_field, head_of, read_view};

use crate::action::Action;
use crate::piece::{holder_piece, number_piece};
use crate::router::Routes;
use http_messages::{HttpRefusal, body_length, only_value};
use httparse::Status;
use httparse::spans::{EMPTY_HEADER_SPAN, HeaderSpan, RequestSpans, parse_request};

/// How many fields a head may have.
pub const FIELD_LIMIT: usize = 32;

/// What the head of a request asks for. Its names and numbers are not read yet.
#[derive(Clone, Copy, Debug)]
pub struct Head<'a> {
    pub action: Action,
    /// The path's piece that names a holder, if the path has one.
    pub holder: &'a [u8],
    /// The path's piece that is a number, if the path has one.
    pub number: &'a [u8],
    /// The value of the one field `Desk-Caller`; `None` if there is none, or more than one.
    pub caller: Option<&'a [u8]>,
    /// The length of the body, if the request has one.
    pub body_length: Option<usize>,
}

/// What a head asks for, or the first fault of it.
pub fn read_request_head<'a>(routes: &Routes, head: &'a [u8]) -> Result<Head<'a>, HttpRefusal>
    ensures { SaysHead head.now (read_view result) }
{
    let mut spans = [EMPTY_HEADER_SPAN; FIELD_LIMIT];
    let Some(request) = parse_head(head, &mut spans) else {
        return Err(HttpRefusal::BadRequest);
    };
    let method = request.method.of(head);
    let target = request.path.of(head);
    head_of(routes, head, method, target, &spans[..request.headers])
}

/// The head that is exactly these bytes, if there is one.
fn parse_head(head: &[u8], fields: &mut [HeaderSpan]) -> Option<RequestSpans>
    ensures some { IfSome result (λ spans. (h : RequestHead)
        × IsRequestAt head.now fields.new spans h × ReadsRequest head.now h []) }
    ensures none { IfNone result ((h : RequestHead) → length h.fields ≤ length fields.old
        → ¬ (ReadsRequest head.now h [])) }
    ensures within { IfSome result (λ spans. IsRequestWithin head.now fields.new spans) }
    ensures whole { IfSome result (λ spans. spans.len ≡ length head.now) }
{
    match parse_request(head, fields) {
        Ok(Status::Complete(spans)) if spans.len == head.len() => Some(spans),
        _ => None,
    }
}

/// What a method, a target and fields ask for, or their first fault.
fn head_of<'a>(
    routes: &Routes,
    head: &'a [u8],
    method: &[u8],
    target: &'a [u8],
    fields: &[HeaderSpan],
) -> Result<Head<'a>, HttpRefusal>
    requires { All (IsHeaderWithin (length head.now)) fields.now }
    ensures { read_view result
        ≡ head_of method.now target.now (map (header_bytes head.now) fields.now) }
{
    let Some(path) = routes.path_of(target) else {
        return Err(HttpRefusal::NotFound);
    };
    let Some(action) = path.action(method) else {
        return Err(HttpRefusal::MethodNotAllowed(path.methods()));
    };
    let body_length = body_length(head, fields, action.takes_body())?;
    Ok(Head {
        action,
        holder: holder_piece(target),
        number: number_piece(target),
        caller: caller_field(head, fields),
        body_length,
    })
}

/// The value of the one field `Desk-Caller`.
fn caller_field<'a>(head: &'a [u8], fields: &[HeaderSpan]) -> Option<&'a [u8]>
    requires { All (IsHeaderWithin (length head.now)) fields.now }
    ensures { option_map (λ caller. caller.now) result
        ≡ caller_field (map (header_bytes head.now) fields.now) }
{
    match only_value(head, fields, b"desk-caller") {
        Ok(caller) => caller,
        Err(_) => None,
    }
}
