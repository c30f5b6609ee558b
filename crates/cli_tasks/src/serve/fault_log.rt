//! The lines for connections that failed.
ghost use Rattle.std.specs.Prelude.{◌≡◌, ℕ, Bool, List, Option, None};
ghost use Rattle.std.specs.Result.{result_err};
ghost use Rattle.streams.specs.Printed.{printed_has_lost, printed_writer};
ghost use Rattle.cli_tasks.specs.Connections.{Logs};
ghost use Rattle.cli_tasks.specs.Serving.{fault_line, line_for};
ghost use Rattle.web.specs.WebFault.{web_fault_number};

use addr::digits;
use arrayvec::ArrayString;
use std::io::Write;
use streams::Printed;
use web::{Extent, WebFault};

/// A log of lines. A line that cannot be written is lost, and the next is tried.
pub trait Log {
    // The text of the log, if that is known.
    ghost contents: { Self → Option (List ℕ) } = { λ _. None };

    // Whether a line was lost, or a part of one.
    ghost has_lost: { Self → Bool };

    fn add(&mut self, line: &str)
        ensures { Logs (has_lost self.old) (has_lost self.new) (contents self.old)
            (contents self.new) line.now };
}

impl<W: Write> Log for Printed<'_, W> {
    ghost contents = { λ log. W.contents (printed_writer log) };

    ghost has_lost = { λ log. printed_has_lost log };

    fn add(&mut self, line: &str) {
        self.print(line.as_bytes());
    }
}

/// Adds the line for the connection of this number, if it failed.
pub(super) fn log_fault<L: Log>(log: &mut L, number: u32, ended: Result<Extent, WebFault>)
    ensures { Logs (L.has_lost log.old) (L.has_lost log.new) (L.contents log.old)
        (L.contents log.new) (line_for number (result_err ended)) }
{
    if let Err(fault) = ended {
        log.add(fault_line(number, fault).as_str());
    }
}

/// The line for a connection that failed.
fn fault_line(number: u32, fault: WebFault) -> ArrayString<80>
    ensures { result.bytes ≡ fault_line number (web_fault_number fault) }
{
    let mut line = ArrayString::new();
    line.push_str("roadesk: connection ");
    line.push_str(digits(u64::from(number)).as_str());
    line.push_str(": fault ");
    line.push_str(digits(u64::from(fault.number())).as_str());
    line.push_str("\n");
    line
}
