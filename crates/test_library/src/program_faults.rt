//! The lines and the statuses of the program's faults.
use crate::tables::assert_same;
use addr::PrefixFault;
use cli_texts::{FileFault, InputFile, ProgramFault, RowFault, WordsFault};
use std::process::Abort;

const FAULTS: [(ProgramFault, &str, u8); 7] = [
    (ProgramFault::File, "roadesk: file", 3),
    (ProgramFault::Database, "roadesk: database", 3),
    (ProgramFault::Socket, "roadesk: socket", 3),
    (ProgramFault::Stream, "roadesk: stream", 3),
    (ProgramFault::Memory, "roadesk: memory", 4),
    (ProgramFault::CharterCount, "roadesk: charter count", 5),
    (ProgramFault::Exists, "roadesk: exists", 5),
];

const HEADERS: [(InputFile, &str); 3] = [
    (InputFile::Charter, "roadesk: charter header"),
    (InputFile::Payloads, "roadesk: payloads header"),
    (InputFile::Routes, "roadesk: routes header"),
];

/// Faults of row 3 of a charter, and the ends of their lines.
const CHARTER_ROWS: [(RowFault, &str); 5] = [
    (RowFault::Fields, "fields"),
    (RowFault::Kind, "kind"),
    (RowFault::Name, "name"),
    (RowFault::Repeated, "repeated"),
    (RowFault::Prefix(PrefixFault::HostBits), "prefix 4"),
];

/// Faults of row 1 of a payload file, and the ends of their lines.
const PAYLOAD_ROWS: [(RowFault, &str); 5] = [
    (RowFault::Asn, "asn"),
    (RowFault::Prefix(PrefixFault::Shape), "prefix 1"),
    (RowFault::Prefix(PrefixFault::Spelling), "prefix 2"),
    (RowFault::Prefix(PrefixFault::Length), "prefix 3"),
    (RowFault::Length, "length"),
];

fn assert_fault(rt: &impl Abort, fault: ProgramFault, line: &str, status: u8) {
    assert_same(rt, fault.line().as_str(), line, line);
    assert_same(rt, fault.status(), status, line);
}

/// The line of the fault is this beginning and then this end.
fn assert_row(rt: &impl Abort, fault: ProgramFault, beginning: &str, end: &str) {
    let line = fault.line();
    let found = line.as_str().strip_prefix(beginning);
    assert_same(rt, found, Some(end), end);
    assert_same(rt, fault.status(), 5, end);
}

#[test]
fn lines_and_statuses(rt: HostRuntime) {
    for (fault, line, status) in FAULTS {
        assert_fault(&rt, fault, line, status);
    }
    for (file, line) in HEADERS {
        assert_fault(&rt, ProgramFault::Header(file), line, 5);
    }
}

#[test]
fn lines_of_rows(rt: HostRuntime) {
    let (file, row) = (InputFile::Charter, 3);
    for (fault, end) in CHARTER_ROWS {
        let fault = ProgramFault::Row { file, row, fault };
        assert_row(&rt, fault, "roadesk: charter row 3: ", end);
    }
    let (file, row) = (InputFile::Payloads, 1);
    for (fault, end) in PAYLOAD_ROWS {
        let fault = ProgramFault::Row { file, row, fault };
        assert_row(&rt, fault, "roadesk: payloads row 1: ", end);
    }
    let (file, row, fault) = (InputFile::Routes, u64::MAX, RowFault::Origin);
    let fault = ProgramFault::Row { file, row, fault };
    assert_row(
        &rt,
        fault,
        "roadesk: routes row 18446744073709551615: ",
        "origin",
    );
}

#[test]
fn lines_of_words(rt: HostRuntime) {
    assert_fault(&rt, WordsFault::Words.into(), "roadesk: words", 2);
    assert_fault(&rt, WordsFault::Day.into(), "roadesk: day", 2);
}

#[test]
fn lines_of_files(rt: HostRuntime) {
    let memory = FileFault::Memory.of(InputFile::Routes);
    assert_fault(&rt, memory, "roadesk: memory", 4);
    let header = FileFault::Header.of(InputFile::Routes);
    assert_fault(&rt, header, "roadesk: routes header", 5);
}
