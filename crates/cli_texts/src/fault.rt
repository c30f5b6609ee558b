//! How the program ends if it does not do its task: a line on standard error and a status.
ghost use Rattle.std.specs.Prelude.{◌≡◌, ◌≤◌, length};
ghost use Rattle.cli_texts.specs.ProgramFaults.{fault_of_file, fault_of_words, input_name, program_fault_text, row_fault_text, status_of};

use crate::words::WordsFault;
use addr::{PrefixFault, digits};
use arrayvec::ArrayString;
use std::alloc::AllocError;

/// A file that the program reads, by what it holds.
#[derive(Clone, Copy, Debug, PartialEq, Eq)]
pub enum InputFile {
    Charter,
    Payloads,
    Routes,
}

impl InputFile {
    fn as_str(self) -> &'static str
        ensures name { result.now ≡ input_name self }
        ensures short { length result.now ≤ 8 }
    {
        match self {
            InputFile::Charter => "charter",
            InputFile::Payloads => "payloads",
            InputFile::Routes => "routes",
        }
    }
}

/// What is wrong with a row. If several faults apply, the leftmost one counts.
#[derive(Clone, Copy, Debug, PartialEq, Eq)]
pub enum RowFault {
    /// It has another number of fields.
    Fields,
    /// Its kind is none that a charter has.
    Kind,
    /// A field is no name.
    Name,
    /// A field is no AS number.
    Asn,
    /// A field is no prefix in its one spelling.
    Prefix(PrefixFault),
    /// A field is no maxLength of the prefix.
    Length,
    /// A field is neither an AS number nor `NONE`.
    Origin,
    /// It says what an earlier row says.
    Repeated,
}

impl RowFault {
    fn text(self) -> ArrayString<32>
        ensures { result.bytes ≡ row_fault_text self }
    {
        let mut text = ArrayString::new();
        match self {
            RowFault::Fields => text.push_str("fields"),
            RowFault::Kind => text.push_str("kind"),
            RowFault::Name => text.push_str("name"),
            RowFault::Asn => text.push_str("asn"),
            RowFault::Prefix(fault) => {
                text.push_str("prefix ");
                text.push_str(digits(u64::from(fault.number())).as_str());
            }
            RowFault::Length => text.push_str("length"),
            RowFault::Origin => text.push_str("origin"),
            RowFault::Repeated => text.push_str("repeated"),
        }
        text
    }
}

/// Why the bytes of a file were not read.
#[derive(Clone, Copy, Debug, PartialEq, Eq)]
pub enum FileFault {
    /// An allocation failed.
    Memory,
    /// The first record is not the header.
    Header,
    /// The first row that has a fault, counted from 1 after the header.
    Row { row: u64, fault: RowFault },
}

impl From<AllocError> for FileFault {
    ghost use Rattle.cli_texts.specs.declared.fault.FileFault.TheVariants.{Memory};

    ghost from_gives = { λ _ fault. fault ≡ Memory };

    fn from(_: AllocError) -> FileFault {
        FileFault::Memory
    }
}

/// Why the program did not do its task.
#[derive(Clone, Copy, Debug, PartialEq, Eq)]
pub enum ProgramFault {
    /// The words after the program's name are those of no task.
    Words,
    /// They are those of a task, except that the day is not one.
    Day,
    /// A file was not read.
    File,
    /// The database refused, or there was no memory for it.
    Database,
    /// A socket was not bound, or did not accept.
    Socket,
    /// Standard input or output failed.
    Stream,
    /// An allocation failed.
    Memory,
    /// The file's first record is not its header.
    Header(InputFile),
    /// The file's first row that has a fault, counted from 1 after the header.
    Row {
        file: InputFile,
        row: u64,
        fault: RowFault,
    },
    /// The charter does not have 1 to 16 operators and 1 to 64 prefixes.
    CharterCount,
    /// The database is not a desk's.
    Schema,
    /// There is a database, or another file with content, where one was to be made.
    Exists,
}

impl ProgramFault {
    /// The status that the program ends with.
    pub fn status(&self) -> u8
        ensures { result ≡ status_of self.now }
    {
        match self {
            ProgramFault::Words | ProgramFault::Day => 2,
            ProgramFault::File
            | ProgramFault::Database
            | ProgramFault::Socket
            | ProgramFault::Stream => 3,
            ProgramFault::Memory => 4,
            ProgramFault::Header(_)
            | ProgramFault::Row { .. }
            | ProgramFault::CharterCount
            | ProgramFault::Schema
            | ProgramFault::Exists => 5,
        }
    }

    /// The line on standard error, without its line feed.
    pub fn line(&self) -> ArrayString<80>
        ensures { result.bytes ≡ program_fault_text self.now }
    {
        let mut text = ArrayString::new();
        text.push_str("roadesk: ");
        match self {
            ProgramFault::Words => text.push_str("words"),
            ProgramFault::Day => text.push_str("day"),
            ProgramFault::File => text.push_str("file"),
            ProgramFault::Database => text.push_str("database"),
            ProgramFault::Socket => text.push_str("socket"),
            ProgramFault::Stream => text.push_str("stream"),
            ProgramFault::Memory => text.push_str("memory"),
            ProgramFault::Header(file) => {
                text.push_str(file.as_str());
                text.push_str(" header");
            }
            ProgramFault::Row { file, row, fault } => {
                text.push_str(file.as_str());
                text.push_str(" row ");
                text.push_str(digits(*row).as_str());
                text.push_str(": ");
                text.push_str(fault.text().as_str());
            }
            ProgramFault::CharterCount => text.push_str("charter count"),
            ProgramFault::Schema => text.push_str("schema"),
            ProgramFault::Exists => text.push_str("exists"),
        }
        text
    }
}

impl From<WordsFault> for ProgramFault {
    ghost from_gives = { λ fault reported. reported ≡ fault_of_words fault };

    fn from(fault: WordsFault) -> ProgramFault {
        match fault {
            WordsFault::Words => ProgramFault::Words,
            WordsFault::Day => ProgramFault::Day,
        }
    }
}

impl From<AllocError> for ProgramFault {
    ghost use Rattle.cli_texts.specs.declared.fault.ProgramFault.TheVariants.{Memory};

    ghost from_gives = { λ _ fault. fault ≡ Memory };

    fn from(_: AllocError) -> ProgramFault {
        ProgramFault::Memory
    }
}

impl FileFault {
    /// The program's fault for this fault of a file.
    pub fn of(self, file: InputFile) -> ProgramFault
        ensures { result ≡ fault_of_file file self }
    {
        match self {
            FileFault::Memory => ProgramFault::Memory,
            FileFault::Header => ProgramFault::Header(file),
            FileFault::Row { row, fault } => ProgramFault::Row { file, row, fault },
        }
    }
}
