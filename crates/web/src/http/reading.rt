//! The request of a connection, read before anything is acted on.
ghost use Rattle.std.specs.Prelude.{◌≡◌, ◌≢◌, ◌++◌, ◌<◌, ℕ, List, Ok, None, Some, length, IfSome};
ghost use Rattle.std.specs.Option.{option_copied};
ghost use Rattle.http_messages.specs.HeadEnd.{IsWholeHead};
ghost use Rattle.http_messages.specs.Input.{Gives, HasNoMore};
ghost use Rattle.requests.specs.RequestHeads.{SaysHead, head_view};
ghost use Rattle.requests.specs.HttpRequests.{IsCutShort, IsMessage};
ghost use Rattle.web.specs.steps.HttpAnswering.{ReadsNext, extent_of};

use super::Extent;
use addr::Day;
use http_messages::{BodyFault, ContentType, HeadFault, HttpRefusal, read_body, read_head};
use registry::Asked;
use requests::{Head, LineFault, Malformed, Routes, read_http_request, read_request_head};
use std::alloc::Global;
use streams::Source;

/// What was read from a connection. It borrows nothing of the bytes that were read.
#[derive(Debug, Drop)]
pub(super) enum Next {
    Refused(HttpRefusal),
    Malformed(Malformed),
    /// A request, and the form in which it wants a list.
    Asked(ContentType, Asked),
    /// An allocation failed, so the request was not read.
    NotRead,
}

impl Next {
    /// How much of the request was read for it.
    pub(super) fn extent(&self) -> Extent
        ensures { result ≡ extent_of self.now }
    {
        match self {
            Next::Refused(_) | Next::NotRead => Extent::Part,
            Next::Malformed(_) | Next::Asked(..) => Extent::Whole,
        }
    }
}

/// Reads the request of a connection; `None` if the source ended or failed before its end. The
/// routes are made for this call if there are none.
pub(super) fn read_next<S: Source>(
    alloc: Global,
    routes: Option<&Routes>,
    source: &mut S,
    day: Day,
) -> Option<Next>
    ensures some { IfSome result (λ next. (bytes : List ℕ)
        × Gives bytes (S.handed_out source.old) (S.handed_out source.new)
        × ReadsNext day bytes next) }
    ensures none { result ≡ None → (bytes : List ℕ)
        × Gives bytes (S.handed_out source.old) (S.handed_out source.new)
        × IsCutShort bytes
        × HasNoMore (S.has_ended source.new) (S.has_failed source.new) }
    ensures begun { routes.entry ≢ None → IfSome result (λ _.
        S.handed_out source.new ≢ S.handed_out source.old) }
{
    if let Some(routes) = routes {
        return read_by(alloc, routes, source, day);
    }
    // Made before the head is read, so that what the head's bytes decide needs no allocation.
    match Routes::new(alloc) {
        Ok(routes) => read_by(alloc, &routes, source, day),
        Err(_) => Some(Next::NotRead),
    }
}

/// Reads the request of a connection from its head and, if one is announced, its body.
fn read_by<S: Source>(alloc: Global, routes: &Routes, source: &mut S, day: Day) -> Option<Next>
    ensures some { IfSome result (λ next. (bytes : List ℕ)
        × Gives bytes (S.handed_out source.old) (S.handed_out source.new)
        × ReadsNext day bytes next) }
    ensures none { result ≡ None → (bytes : List ℕ)
        × Gives bytes (S.handed_out source.old) (S.handed_out source.new)
        × IsCutShort bytes
        × HasNoMore (S.has_ended source.new) (S.has_failed source.new) }
    ensures begun { IfSome result (λ _. S.handed_out source.new ≢ S.handed_out source.old) }
{
    let head = match read_head(source) {
        Ok(head) => head,
        Err(HeadFault::TooLong) => return Some(Next::Refused(HttpRefusal::BadRequest)),
        Err(HeadFault::CutShort) => return None,
    };
    match read_request_head(routes, head.as_slice()) {
        Ok(request) => read_rest(alloc, source, day, &request),
        Err(refusal) => Some(Next::Refused(refusal)),
    }
}

/// Reads the body that a head announces, if any, and then the request of both.
fn read_rest<S: Source>(alloc: Global, source: &mut S, day: Day, request: &Head<'_>) -> Option<Next>
    ensures some { IfSome result (λ next. (rest : List ℕ)
        × Gives rest (S.handed_out source.old) (S.handed_out source.new)
        × ((head : List ℕ) → IsWholeHead head → SaysHead head (Ok (head_view request.now))
        → ReadsNext day (head ++ rest) next)) }
    ensures none { result ≡ None → (rest : List ℕ) × (size : ℕ)
        × Gives rest (S.handed_out source.old) (S.handed_out source.new)
        × (request.now.body_length ≡ Some size) × (length rest < size)
        × HasNoMore (S.has_ended source.new) (S.has_failed source.new) }
{
    let Some(size) = request.body_length else {
        return Some(next_of(alloc, day, request, None));
    };
    match read_body(alloc, source, size) {
        Ok(body) => Some(next_of(alloc, day, request, Some(body.as_slice()))),
        Err(BodyFault::CutShort) => None,
        Err(BodyFault::Memory) => Some(Next::NotRead),
    }
}

/// The request of a head and its body.
fn next_of(alloc: Global, day: Day, request: &Head<'_>, body: Option<&[u8]>) -> Next
    ensures { (bytes : List ℕ)
        → IsMessage bytes (head_view request.now) (option_copied body.entry)
        → ReadsNext day bytes result }
{
    match read_http_request(alloc, day, request, body) {
        Ok(asked) => Next::Asked(request.action.list_form(), asked),
        Err(LineFault::Malformed(malformed)) => Next::Malformed(malformed),
        Err(LineFault::Memory) => Next::NotRead,
    }
}
