//! Scripts: lines in and replies out.
ghost use Rattle.std.specs.Prelude.{◌≡◌, ◌++◌, ◌∷◌, ℕ, List, [], Option, Err, true, OnOk, OnErr};
ghost use Rattle.std.specs.Io.{StartsWith, appended_bytes};
ghost use Rattle.std.specs.Option.{option_copied};
ghost use Rattle.streams.specs.Streams.{AppendsBeginning};
ghost use Rattle.web.specs.ScriptLines.{lines_read, script_lines, unless_empty, whole_lines, within_limit};
ghost use Rattle.web.specs.steps.LineSplitting.{completed_lines, unfinished_line};
ghost use Rattle.web.specs.Script.{AnswersEach, BreaksOff};

use crate::lines::{LineBuffer, cut_at_line_feed};
use std::alloc::Global;
use streams::{Drain, Failed, Source};

/// How a script ended early.
#[derive(Clone, Copy, Debug, PartialEq, Eq)]
pub enum ScriptFault {
    /// A read failed. The whole lines before it were answered.
    Read,
    /// A write failed. The line in hand may have been acted on, and no later one was.
    Write,
    /// An allocation failed for the line at the start. Nothing was read.
    Memory,
}

impl ScriptFault {
    ghost use Rattle.web.specs.ScriptFault.{script_fault_number};

    pub fn number(self) -> u8
        ensures { result ≡ script_fault_number self }
    {
        match self {
            ScriptFault::Read => 1,
            ScriptFault::Write => 2,
            ScriptFault::Memory => 3,
        }
    }
}

/// What answers the lines of a script, one after the other.
pub(crate) trait AnswerLines {
    // What may be replied to a line (`None` where it is too long), and which state that leaves.
    ghost answers: { Self → Option (List ℕ) → List ℕ → Self → Type 0 };

    /// Acts on the line and writes its reply.
    fn answer<D: Drain>(
        &mut self,
        alloc: Global,
        drain: &mut D,
        line: Option<&[u8]>,
    ) -> Result<(), Failed>
        ensures ok { OnOk result ((reply : List ℕ)
            × answers self.old (option_copied line.entry) reply self.new
            × (D.written drain.new ≡ D.written drain.old ++ reply)) }
        ensures err { OnErr result ((reply : List ℕ)
            × answers self.old (option_copied line.entry) reply self.new
            × AppendsBeginning (D.written drain.old) (D.written drain.new) reply) }
        ensures failed { OnErr result (D.has_failed drain.new ≡ true) };
}

/// Answers each line that the bytes complete, and keeps what follows the last of them.
fn answer_completed<D: Drain, E: AnswerLines>(
    alloc: Global,
    bytes: &[u8],
    buffer: &mut LineBuffer,
    drain: &mut D,
    engine: &mut E,
) -> Result<(), Failed>
    ensures rest { (unfinished : List ℕ) → buffer.old ≡ within_limit unfinished
        → OnOk result (buffer.new ≡ within_limit (unfinished_line unfinished bytes.now)) }
    ensures ok { (unfinished : List ℕ) → buffer.old ≡ within_limit unfinished
        → OnOk result (AnswersEach E.answers engine.old engine.new
        (completed_lines unfinished bytes.now) (D.written drain.old) (D.written drain.new)) }
    ensures err { (unfinished : List ℕ) → buffer.old ≡ within_limit unfinished
        → OnErr result (BreaksOff E.answers engine.old engine.new
        (completed_lines unfinished bytes.now) (D.written drain.old) (D.written drain.new)) }
    ensures failed { OnErr result (D.has_failed drain.new ≡ true) }
{
    let mut rest = bytes;
    while let Some((line, more)) = cut_at_line_feed(rest) {
        buffer.append(line);
        engine.answer(alloc, drain, buffer.line())?;
        buffer.clear();
        rest = more;
    }
    buffer.append(rest);
    Ok(())
}

/// Answers the last line, which no line feed ended, if there is one.
fn answer_last<D: Drain, E: AnswerLines>(
    alloc: Global,
    buffer: &LineBuffer,
    drain: &mut D,
    engine: &mut E,
) -> Result<(), Failed>
    ensures ok { (unfinished : List ℕ) → buffer.now ≡ within_limit unfinished
        → OnOk result (AnswersEach E.answers engine.old engine.new
        (unless_empty unfinished) (D.written drain.old) (D.written drain.new)) }
    ensures err { (unfinished : List ℕ) → buffer.now ≡ within_limit unfinished
        → OnErr result (BreaksOff E.answers engine.old engine.new
        (unless_empty unfinished) (D.written drain.old) (D.written drain.new)) }
    ensures failed { OnErr result (D.has_failed drain.new ≡ true) }
{
    if buffer.is_empty() {
        return Ok(());
    }
    engine.answer(alloc, drain, buffer.line())?;
    Ok(())
}

/// Answers the lines of the source, each as soon as it is whole and before more is read. A line
/// that is too long is answered at its end. A last line without a line feed is answered if the
/// source ends, and dropped if it fails.
pub(crate) fn run_lines<S: Source, D: Drain, E: AnswerLines>(
    alloc: Global,
    source: &mut S,
    drain: &mut D,
    engine: &mut E,
) -> Result<(), ScriptFault>
    ensures reads { StartsWith (S.handed_out source.new) (S.handed_out source.old) }
    ensures ended { OnOk result (S.has_ended source.new ≡ true) }
    ensures read_failed { result ≡ Err ScriptFault.Read → S.has_failed source.new ≡ true }
    ensures write_failed { result ≡ Err ScriptFault.Write → D.has_failed drain.new ≡ true }

    ensures ok { OnOk result (AnswersEach E.answers engine.old engine.new
        (script_lines (appended_bytes (S.handed_out source.old) (S.handed_out source.new)))
        (D.written drain.old) (D.written drain.new)) }

    // What came after the last line feed is dropped.
    ensures read { result ≡ Err ScriptFault.Read → AnswersEach E.answers engine.old engine.new
        (whole_lines (appended_bytes (S.handed_out source.old) (S.handed_out source.new)))
        (D.written drain.old) (D.written drain.new) }

    // A line without its line feed was acted on only after the end.
    ensures write { result ≡ Err ScriptFault.Write → BreaksOff E.answers engine.old engine.new
        (lines_read (S.has_ended source.new)
        (appended_bytes (S.handed_out source.old) (S.handed_out source.new)))
        (D.written drain.old) (D.written drain.new) }

    ensures memory { result ≡ Err ScriptFault.Memory
        → (source.new ≡ source.old) × (drain.new ≡ drain.old) × (engine.new ≡ engine.old) }
{
    let Ok(mut buffer) = LineBuffer::new(alloc) else {
        return Err(ScriptFault::Memory);
    };
    let mut piece = [0u8; 4096];
    loop {
        let Ok(count) = source.read(&mut piece) else {
            return Err(ScriptFault::Read);
        };
        if count == 0 {
            break;
        }
        let Ok(()) = answer_completed(alloc, &piece[..count], &mut buffer, drain, engine) else {
            return Err(ScriptFault::Write);
        };
    }
    let Ok(()) = answer_last(alloc, &buffer, drain, engine) else {
        return Err(ScriptFault::Write);
    };
    Ok(())
}
