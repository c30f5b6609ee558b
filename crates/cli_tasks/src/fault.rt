//! How the faults of a script, of the store, of an open and of serving become the program's.
ghost use Rattle.std.specs.Prelude.{◌≡◌, ◌≢◌};
ghost use Rattle.std.specs.IoError.{error_kind};
ghost use Rattle.cli_tasks.specs.TaskFaults.{fault_of_open, fault_of_script, fault_of_serve, fault_of_store};

use crate::serve_desk::ServeFault;
use cli_texts::ProgramFault;
use desk_files::OpenFault;
use sqlite_disk::Disk;
use std::io::{self, ErrorKind};
use store::StoreFault;
use web::ScriptFault;

/// The program's fault if a script ended early.
pub fn fault_of_script(fault: ScriptFault) -> ProgramFault
    ensures { result ≡ fault_of_script fault }
{
    match fault {
        ScriptFault::Read | ScriptFault::Write => ProgramFault::Stream,
        ScriptFault::Memory => ProgramFault::Memory,
    }
}

/// The program's fault if the database refused, or holds no desk.
pub fn fault_of_store(fault: StoreFault) -> ProgramFault
    ensures { result ≡ fault_of_store fault }
{
    match fault {
        StoreFault::Database => ProgramFault::Database,
        StoreFault::Schema => ProgramFault::Schema,
    }
}

/// The program's fault if the desk in a file was not opened.
pub fn fault_of_open<D: Disk>(fault: &OpenFault<D>) -> ProgramFault
    ensures { result ≡ fault_of_open fault.now }
{
    match fault {
        OpenFault::Path(fault) | OpenFault::File(fault, _) => *fault,
        OpenFault::Store(fault, _) => fault_of_store(*fault),
    }
}

/// The program's fault if serving ended early.
pub fn fault_of_serve<D: Disk>(fault: &ServeFault<D>) -> ProgramFault
    ensures { result ≡ fault_of_serve fault.now }
{
    match fault {
        ServeFault::Open(fault) => fault_of_open(fault),
        ServeFault::Bind(fault, _) => *fault,
        ServeFault::Accept(_) => ProgramFault::Socket,
        ServeFault::Close(_) => ProgramFault::Database,
    }
}

/// The fault of an allocation that failed, or else this fault.
pub fn fault_of_error(error: &io::Error, fault: ProgramFault) -> ProgramFault
    ensures memory { error_kind error.now ≡ ErrorKind.OutOfMemory → result ≡ ProgramFault.Memory }
    ensures other { error_kind error.now ≢ ErrorKind.OutOfMemory → result ≡ fault }
{
    match error.kind() {
        ErrorKind::OutOfMemory => ProgramFault::Memory,
        _ => fault,
    }
}
