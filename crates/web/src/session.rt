//! Scripts over a desk.
ghost use Rattle.std.specs.Prelude.{◌≡◌, ◌≢◌, ◌++◌, true, Err, OnOk, OnErr};
ghost use Rattle.std.specs.Io.{StartsWith, appended_bytes};
ghost use Rattle.desk.specs.Desk.{RowsStay};
ghost use Rattle.requests.specs.MalformedText.{malformed_text};
ghost use Rattle.web.specs.ReplyText.{line_text};
ghost use Rattle.web.specs.ScriptAnswer.{AnswersLineAt, AnswersLines, BreaksOffLines, IsLaterDesk, RepliesAt, SaysAccepted};
ghost use Rattle.web.specs.ScriptLines.{lines_read, script_lines, whole_lines};
ghost use Rattle.streams.specs.Streams.{AppendsBeginning};

use crate::reply::write_reply;
use crate::script::{AnswerLines, ScriptFault, run_lines};
use crate::vrps::{asks_for_vrps, write_line};
use desk::{Desk, Reply};
use registry::{Asked, Query, Request};
use requests::{LineFault, Malformed, read_line_request};
use sqlite::Alter;
use std::alloc::Global;
use streams::{Drain, Failed, Source, write_all};

/// Writes why a line is no request.
fn write_malformed<D: Drain>(drain: &mut D, malformed: Malformed) -> Result<(), Failed>
    ensures ok { OnOk result
        (D.written drain.new ≡ D.written drain.old ++ malformed_text malformed) }
    ensures err { OnErr result
        (AppendsBeginning (D.written drain.old) (D.written drain.new) (malformed_text malformed)) }
    ensures failed { OnErr result (D.has_failed drain.new ≡ true) }
{
    write_all(drain, malformed.text().as_str().as_bytes())
}

/// Answers a request for the VRPs of a day from those that the desk keeps; no list is made.
fn write_payloads<D: Drain, A: Alter>(
    desk: &mut Desk<A>,
    drain: &mut D,
    asked: &Asked,
) -> Result<(), Failed>
    requires { asked.now.request ≡ Request.Query Query.Payloads }
    ensures ok { OnOk result ((reply : Reply) × RepliesAt A.Store desk.old asked.now reply desk.new
        × (D.written drain.new ≡ D.written drain.old ++ line_text reply)) }
    ensures err { OnErr result ((reply : Reply)
        × RepliesAt A.Store desk.old asked.now reply desk.new
        × AppendsBeginning (D.written drain.old) (D.written drain.new) (line_text reply)) }
    ensures failed { OnErr result (D.has_failed drain.new ≡ true) }
{
    match desk.payloads(asked.day) {
        Some(vrps) => write_line(vrps, drain),
        None => write_reply(&Reply::Unavailable, drain),
    }
}

/// Acts on the request, and writes the reply's text.
fn reply_to<D: Drain, A: Alter>(
    desk: &mut Desk<A>,
    drain: &mut D,
    asked: &Asked,
) -> Result<(), Failed>
    ensures ok { OnOk result ((reply : Reply) × RepliesAt A.Store desk.old asked.now reply desk.new
        × (D.written drain.new ≡ D.written drain.old ++ line_text reply)) }
    ensures err { OnErr result ((reply : Reply)
        × RepliesAt A.Store desk.old asked.now reply desk.new
        × AppendsBeginning (D.written drain.old) (D.written drain.new) (line_text reply)) }
    ensures failed { OnErr result (D.has_failed drain.new ≡ true) }
{
    if asks_for_vrps(&asked.request) {
        return write_payloads(desk, drain, asked);
    }
    registry::laws::asked_fits(asked);
    let reply = desk.handle(asked.day, &asked.caller, &asked.request);
    write_reply(&reply, drain)
}

impl<A: Alter> AnswerLines for Desk<A> {
    ghost answers = { AnswersLineAt A.Store };

    fn answer<D: Drain>(
        &mut self,
        alloc: Global,
        drain: &mut D,
        line: Option<&[u8]>,
    ) -> Result<(), Failed> {
        let Some(line) = line else {
            return write_malformed(drain, Malformed::too_long());
        };
        match read_line_request(alloc, line) {
            Ok(asked) => reply_to(self, drain, &asked),
            Err(LineFault::Malformed(malformed)) => write_malformed(drain, malformed),
            Err(LineFault::Memory) => write_reply(&Reply::Unavailable, drain),
        }
    }
}

/// Answers the lines of the source on the desk, one after the other, and writes each reply before
/// the next line is acted on. The last line may lack its line feed.
pub fn run_script<S: Source, D: Drain, A: Alter>(
    alloc: Global,
    source: &mut S,
    drain: &mut D,
    desk: &mut Desk<A>,
) -> Result<(), ScriptFault>
    ensures reads { StartsWith (S.handed_out source.new) (S.handed_out source.old) }
    ensures ended { OnOk result (S.has_ended source.new ≡ true) }
    ensures read_failed { result ≡ Err ScriptFault.Read → S.has_failed source.new ≡ true }
    ensures write_failed { result ≡ Err ScriptFault.Write → D.has_failed drain.new ≡ true }

    ensures ok { OnOk result (AnswersLines A.Store desk.old desk.new
        (script_lines (appended_bytes (S.handed_out source.old) (S.handed_out source.new)))
        (D.written drain.old) (D.written drain.new)) }

    // What came after the last line feed is dropped.
    ensures read { result ≡ Err ScriptFault.Read → AnswersLines A.Store desk.old desk.new
        (whole_lines (appended_bytes (S.handed_out source.old) (S.handed_out source.new)))
        (D.written drain.old) (D.written drain.new) }

    // A line without its line feed was acted on only after the end.
    ensures write { result ≡ Err ScriptFault.Write → BreaksOffLines A.Store desk.old desk.new
        (lines_read (S.has_ended source.new)
        (appended_bytes (S.handed_out source.old) (S.handed_out source.new)))
        (D.written drain.old) (D.written drain.new) }

    // If no reply says that a command was accepted, the rows stay. Nothing is said if a reply broke
    // off.
    ensures kept { result ≢ Err ScriptFault.Write
        → ¬ SaysAccepted (appended_bytes (D.written drain.old) (D.written drain.new))
        → RowsStay A.Store desk.old desk.new }

    ensures desk { IsLaterDesk A.Store desk.old desk.new }

    ensures memory { result ≡ Err ScriptFault.Memory
        → (source.new ≡ source.old) × (drain.new ≡ drain.old) × (desk.new ≡ desk.old) }
{
    run_lines(alloc, source, drain, desk)
}
