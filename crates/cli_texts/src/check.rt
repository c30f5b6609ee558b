//! The task `check`: the routes of a file judged on the VRPs of another.
ghost use Rattle.std.specs.Prelude.{◌≡◌, ◌++◌, ◌∷◌, [], ℕ, Bool, List, None, map, IfOk, IfErr, OnOk};
ghost use Rattle.addr.specs.declared.route.Route as announced;
ghost use Rattle.cli_texts.specs.Check.{state_lines, check_fault, AreVrpsOf, JudgesFiles, EndsCheck};
ghost use Rattle.cli_texts.specs.steps.StateLines.{lines_text, Stands};
ghost use Rattle.csv_records.specs.CsvRecords.{csv_records, records_left, IsReading};
ghost use Rattle.cli_texts.specs.CsvRows.{file_fault, first_fault, route_fault, route_header, route_row, IsReported};

use crate::fault::{FileFault, InputFile, ProgramFault};
use crate::files::{after_header, read_payloads, read_route};
use crate::state_lines::StateLines;
use csv_records::CsvRecords;
use payload::{ListIndex, PayloadIndex};
use std::alloc::Global;
use streams::Drain;

/// Judges the routes of a file on the VRPs of another, and writes a line `prefix,origin,state` for
/// each (RFC 6811 section 2). Both are CSV files with a header, and both are read to their ends before
/// anything is written.
pub fn check_on<D: Drain>(
    alloc: Global,
    payloads: &[u8],
    routes: &[u8],
    drain: &mut D,
) -> Result<(), ProgramFault>
    ensures ok { OnOk result ((text : List ℕ) × JudgesFiles payloads.now routes.now text
        × (D.written drain.new ≡ D.written drain.old ++ text)) }
    ensures faultless { OnOk result (check_fault payloads.now routes.now ≡ None) }
    ensures err { IfErr result (λ fault. EndsCheck fault payloads.now routes.now
        (D.written drain.old) (D.written drain.new) (D.has_failed drain.new)) }
{
    let index = payload_index(alloc, payloads)?;
    check_routes(alloc, &index, routes, drain)
}

/// The VRPs of a payload file, to judge routes on: the first part of a check.
pub fn payload_index(alloc: Global, payloads: &[u8]) -> Result<ListIndex, ProgramFault>
    ensures ok { IfOk result (λ index. AreVrpsOf payloads.now index) }
    ensures err { IfErr result (λ fault. (routes written : List ℕ) (failed : Bool)
        → EndsCheck fault payloads.now routes written written failed) }
{
    match read_payloads(alloc, payloads) {
        Ok(vrps) => Ok(ListIndex::from(vrps)),
        Err(fault) => Err(fault.of(InputFile::Payloads)),
    }
}

/// Judges the routes of a file on the VRPs of a payload file, which may be gone: the second part of a
/// check.
pub fn check_routes<D: Drain>(
    alloc: Global,
    index: &ListIndex,
    routes: &[u8],
    drain: &mut D,
) -> Result<(), ProgramFault>
    ensures ok { OnOk result ((payloads : List ℕ) → AreVrpsOf payloads index.now
        → (text : List ℕ) × JudgesFiles payloads routes.now text
        × (D.written drain.new ≡ D.written drain.old ++ text)) }
    ensures faultless { OnOk result ((payloads : List ℕ) → AreVrpsOf payloads index.now
        → check_fault payloads routes.now ≡ None) }
    ensures err { IfErr result (λ fault. (payloads : List ℕ) → AreVrpsOf payloads index.now
        → EndsCheck fault payloads routes.now
        (D.written drain.old) (D.written drain.new) (D.has_failed drain.new)) }
{
    let lines = match lines_of(alloc, index, routes) {
        Ok(lines) => lines,
        Err(fault) => return Err(fault.of(InputFile::Routes)),
    };
    let Ok(()) = lines.write_to(drain) else {
        return Err(ProgramFault::Stream);
    };
    Ok(())
}

/// The lines for the routes of a file.
fn lines_of<'a>(
    alloc: Global,
    index: &ListIndex,
    text: &'a [u8],
) -> Result<StateLines<'a>, FileFault>
    ensures stands { IfOk result (λ lines. Stands lines) }
    ensures ok { IfOk result (λ lines. (routes : List announced.Route)
        × (csv_records text.now ≡ route_header ∷ map route_row routes)
        × (lines_text lines ≡ state_lines index.now routes)) }
    ensures faultless { IfOk result (λ lines.
        file_fault route_header route_fault (csv_records text.now) ≡ None) }
    ensures err { IfErr result (λ fault.
        IsReported fault (file_fault route_header route_fault (csv_records text.now))) }
{
    let mut records = after_header(alloc, text, &["prefix", "origin"])?;
    let mut lines = StateLines::new(alloc, text);
    push_rows(index, &mut records, &mut lines)?;
    Ok(lines)
}

/// Adds the lines for the routes that are left.
fn push_rows(
    index: &ListIndex,
    records: &mut CsvRecords<'_>,
    lines: &mut StateLines<'_>,
) -> Result<(), FileFault>
    requires reading { IsReading records.old }
    requires stands { Stands lines.old }
    requires none { lines_text lines.old ≡ [] }
    ensures stands { OnOk result (Stands lines.new) }
    ensures ok { OnOk result ((routes : List announced.Route)
        × (records_left records.old ≡ map route_row routes)
        × (lines_text lines.new ≡ state_lines index.now routes)) }
    ensures faultless { OnOk result (first_fault route_fault 1 (records_left records.old) ≡ None) }
    ensures err { IfErr result (λ fault.
        IsReported fault (first_fault route_fault 1 (records_left records.old))) }
{
    let mut row = 1;
    while records.advance()? {
        match read_route(records.row()) {
            Ok(read) => lines.push(&read, index.validity(&read.route))?,
            Err(fault) => return Err(FileFault::Row { row, fault }),
        }
        row += 1;
    }
    Ok(())
}
