//! The desk over HTTP, one request a connection.
ghost use Rattle.std.specs.Prelude.{◌≡◌, ◌≢◌, ◌++◌, ℕ, List, Err, None, true, IfOk, OnOk};
ghost use Rattle.std.specs.Io.{appended_bytes};
ghost use Rattle.streams.specs.Streams.{AppendsBeginning};
ghost use Rattle.desk.specs.Desk.{RowsStay};
ghost use Rattle.http_messages.specs.Input.{Gives, HasNoMore};
ghost use Rattle.requests.specs.HttpRequests.{IsCutShort};
ghost use Rattle.web.specs.HttpAnswers.{RespondsTo};
ghost use Rattle.web.specs.HttpResponses.{HasErrorStatus};
ghost use Rattle.web.specs.RequestExtent.{HasExtent};
ghost use Rattle.web.specs.ScriptAnswer.{IsLaterDesk};

mod body;
mod reading;
mod response;

use addr::Day;
use desk::Desk;
use reading::read_next;
use requests::Routes;
use response::respond;
use sqlite::Alter;
use std::alloc::Global;
use streams::{Drain, Source};

/// How serving a connection ended early.
#[derive(Clone, Copy, Debug, PartialEq, Eq)]
pub enum WebFault {
    /// A read failed, or the stream ended before a whole request. Nothing was acted on.
    Read,
    /// A write failed. The request was acted on if its status would be 200.
    Write,
}

impl WebFault {
    ghost use Rattle.web.specs.WebFault.{web_fault_number};

    pub fn number(self) -> u8
        ensures { result ≡ web_fault_number self }
    {
        match self {
            WebFault::Read => 1,
            WebFault::Write => 2,
        }
    }
}

/// How much of a request was read before it was answered.
#[derive(Clone, Copy, Debug, PartialEq, Eq)]
pub enum Extent {
    /// The whole request.
    Whole,
    /// A part, of which more may come.
    Part,
}

/// Answers the one request of a connection on the desk, on this day. No byte is read past the head,
/// nor past the body if one is read.
pub fn serve_one<S: Source, D: Drain, A: Alter>(
    alloc: Global,
    source: &mut S,
    drain: &mut D,
    desk: &mut Desk<A>,
    day: Day,
) -> Result<(), WebFault>
    ensures ok { OnOk result ((bytes text : List ℕ)
        × Gives bytes (S.handed_out source.old) (S.handed_out source.new)
        × RespondsTo A.Store desk.old day bytes text desk.new
        × (D.written drain.new ≡ D.written drain.old ++ text)) }

    ensures read { result ≡ Err WebFault.Read → (bytes : List ℕ)
        × Gives bytes (S.handed_out source.old) (S.handed_out source.new)
        × IsCutShort bytes
        × HasNoMore (S.has_ended source.new) (S.has_failed source.new)
        × (desk.new ≡ desk.old) × (drain.new ≡ drain.old) }

    // A beginning of the response is out, and the request was acted on as it says.
    ensures write { result ≡ Err WebFault.Write → (bytes text : List ℕ)
        × Gives bytes (S.handed_out source.old) (S.handed_out source.new)
        × RespondsTo A.Store desk.old day bytes text desk.new
        × AppendsBeginning (D.written drain.old) (D.written drain.new) text }
    ensures write_failed { result ≡ Err WebFault.Write → D.has_failed drain.new ≡ true }

    // A response of another status than 200 leaves the rows, even if it breaks off.
    ensures kept { HasErrorStatus (appended_bytes (D.written drain.old) (D.written drain.new))
        → RowsStay A.Store desk.old desk.new }

    ensures desk { IsLaterDesk A.Store desk.old desk.new }
{
    match serve_request(alloc, None, source, drain, desk, day) {
        Ok(_) => Ok(()),
        Err(fault) => Err(fault),
    }
}

/// Answers the one request of a connection as [`serve_one`] does, and returns how much of it was
/// read. The routes, which all connections share, are made for this one if there are none.
pub fn serve_request<S: Source, D: Drain, A: Alter>(
    alloc: Global,
    routes: Option<&Routes>,
    source: &mut S,
    drain: &mut D,
    desk: &mut Desk<A>,
    day: Day,
) -> Result<Extent, WebFault>
    ensures ok { IfOk result (λ extent. (bytes text : List ℕ)
        × Gives bytes (S.handed_out source.old) (S.handed_out source.new)
        × RespondsTo A.Store desk.old day bytes text desk.new
        × HasExtent day bytes text extent
        × (D.written drain.new ≡ D.written drain.old ++ text)) }

    ensures read { result ≡ Err WebFault.Read → (bytes : List ℕ)
        × Gives bytes (S.handed_out source.old) (S.handed_out source.new)
        × IsCutShort bytes
        × HasNoMore (S.has_ended source.new) (S.has_failed source.new)
        × (desk.new ≡ desk.old) × (drain.new ≡ drain.old) }

    // A beginning of the response is out, and the request was acted on as it says.
    ensures write { result ≡ Err WebFault.Write → (bytes text : List ℕ)
        × Gives bytes (S.handed_out source.old) (S.handed_out source.new)
        × RespondsTo A.Store desk.old day bytes text desk.new
        × AppendsBeginning (D.written drain.old) (D.written drain.new) text }
    ensures write_failed { result ≡ Err WebFault.Write → D.has_failed drain.new ≡ true }

    ensures kept { HasErrorStatus (appended_bytes (D.written drain.old) (D.written drain.new))
        → RowsStay A.Store desk.old desk.new }
    ensures desk { IsLaterDesk A.Store desk.old desk.new }

    // If the routes are given, no response comes before a byte was read.
    ensures begun { routes.entry ≢ None → result ≢ Err WebFault.Read
        → S.handed_out source.new ≢ S.handed_out source.old }
{
    let Some(next) = read_next(alloc, routes, source, day) else {
        return Err(WebFault::Read);
    };
    let Ok(()) = respond(alloc, drain, desk, &next) else {
        return Err(WebFault::Write);
    };
    Ok(next.extent())
}
