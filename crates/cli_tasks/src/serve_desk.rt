//! The task `serve`: from the files of a desk to the files that it leaves.
ghost use Rattle.std.specs.Prelude.{◌≡◌, List, length, IfErr, IsTrue, true};
ghost use Rattle.sqlite.specs.Files.{image_of, over_files};
ghost use Rattle.sqlite_store.specs.FileStore.{view};
ghost use Rattle.sqlite_trees.specs.View.{IsClean};
ghost use Rattle.sqlite_wal.specs.Reads.{AreClean};
ghost use Rattle.registry.specs.History.{History};
ghost use Rattle.registry.specs.declared.charter.Charter as shown;
ghost use Rattle.desk.specs.Desk.{IsOnCleanDisk, Represents};
ghost use Rattle.cli_tasks.specs.Connections.{Accepts, Logs};
ghost use Rattle.cli_tasks.specs.ServedFiles.{FailsToCloseAfter, FailsToCloseOver, IfClosed, IfServed};
ghost use Rattle.cli_tasks.specs.ServedFiles.{IfNotOpened, IfUnclosed, IsCauseOf};
ghost use Rattle.cli_tasks.specs.ServedFiles.{IsLateCause, IsServedCount, FilesGoOn, LeavesStore};
ghost use Rattle.cli_tasks.specs.ServedFiles.{LeavesUnclosed};
ghost use Rattle.cli_tasks.specs.ServedHistories.{HoldServed};
ghost use Rattle.cli_tasks.specs.Serving.{Transcript, fault_lines};

use crate::fault::fault_of_error;
use crate::serve::{Connections, Log, serve_on};
use addr::Day;
use cli_texts::ProgramFault;
use desk::Desk;
use desk_files::{CloseFault, OpenFault, close_desk, open_files};
use sqlite_disk::{Disk, Files};
use sqlite_pager::Options;
use sqlite_store::FileStore;
use std::alloc::Global;
use web::Failed;

/// Why `serve` ended early. If the desk was opened, its files were closed, or closing them failed
/// too; what `close_desk` returned is here.
#[derive(Drop)]
pub enum ServeFault<D: Disk> {
    /// The desk was not opened.
    Open(OpenFault<D>),
    /// The socket was not bound.
    Bind(ProgramFault, Result<Files<D>, CloseFault<D>>),
    /// A connection could not be accepted.
    Accept(Result<Files<D>, CloseFault<D>>),
    /// All connections were answered, but the files were not closed.
    Close(CloseFault<D>),
}

/// Opens the desk in the files, binds the socket, serves this many connections on this day, and
/// closes the files. Neither of them may have failed a sync.
pub fn serve_files<D: Disk + Drop, C: Connections, L: Log>(
    alloc: Global,
    files: Files<D>,
    options: Options,
    connections: &mut C,
    count: u32,
    day: Day,
    log: &mut L,
) -> Result<Files<D>, ServeFault<D>>
    requires log { IsTrue (D.Disk.is_usable files.log) }
    requires db { IsTrue (D.Disk.is_usable files.db) }
    ensures clean { IfClosed result (λ left. AreClean D.Disk left.log left.db
        → AreClean D.Disk files.log files.db) }
    ensures clean_store { IfUnclosed result (λ fault. IsClean (view fault.store)
        → AreClean D.Disk files.log files.db) }
    // `passed` are the connections: there are as many, they were accepted, the files have what they
    // lead to, a store that could not be closed leaves no more, and the log has the lines of those
    // that failed.
    ensures served { (passed : List Transcript) × IsServedCount result (length passed) count
        × Accepts (C.accepted connections.old) (C.accepted connections.new) passed
        × Logs (L.has_lost log.old) (L.has_lost log.new) (L.contents log.old)
        (L.contents log.new) (fault_lines 1 passed)
        × IfClosed result (λ left. AreClean D.Disk left.log left.db
        → FilesGoOn D.Disk (image_of D.Disk files) day passed left)
        × IfUnclosed result (λ fault. IsClean (view fault.store)
        → FailsToCloseOver (image_of D.Disk files) day passed fault
        × LeavesUnclosed (image_of D.Disk files) day passed fault.store) }
    ensures err { IfErr result (IsCauseOf files
        (C.listen_error connections.new) (C.has_failed connections.new)) }
    ensures listens { IfServed result ((C.is_listening connections.new ≡ true)
        × (C.listen_error connections.new ≡ C.listen_error connections.old)) }
    // So the socket is not bound where the database is refused.
    ensures unbound { IfNotOpened result
        ((connections.new ≡ connections.old) × (log.new ≡ log.old)) }
{
    let desk = match open_files(alloc, files, options) {
        Ok(desk) => desk,
        Err(fault) => return Err(ServeFault::Open(fault)),
    };
    match connections.listen() {
        Ok(()) => serve_desk(alloc, desk, connections, count, day, log),
        Err(error) => {
            let fault = fault_of_error(&error, ProgramFault::Socket);
            Err(ServeFault::Bind(fault, close_desk(desk)))
        }
    }
}

/// Serves this many connections on this day, and ends the desk. If accepting fails, the desk is
/// ended too.
pub fn serve_desk<D: Disk + Drop, C: Connections, L: Log>(
    alloc: Global,
    mut desk: Desk<FileStore<D>>,
    connections: &mut C,
    count: u32,
    day: Day,
    log: &mut L,
) -> Result<Files<D>, ServeFault<D>>
    ensures clean { IfClosed result (λ files. AreClean D.Disk files.log files.db
        → IsOnCleanDisk over_files desk) }
    ensures clean_store { IfUnclosed result (λ fault. IsClean (view fault.store)
        → IsOnCleanDisk over_files desk) }
    ensures served { (passed : List Transcript) × IsServedCount result (length passed) count
        × Accepts (C.accepted connections.old) (C.accepted connections.new) passed
        × Logs (L.has_lost log.old) (L.has_lost log.new) (L.contents log.old)
        (L.contents log.new) (fault_lines 1 passed)
        × IfClosed result (λ files. AreClean D.Disk files.log files.db
        → (charter : shown.Charter) (history : History) → Represents over_files charter desk history
        → HoldServed D.Disk charter day passed history files)
        × IfUnclosed result (λ fault. IsClean (view fault.store)
        → FailsToCloseAfter day desk passed fault
        × LeavesStore day desk passed fault.store) }
    ensures err { IfErr result (IsLateCause (C.has_failed connections.new)) }
    ensures listens { (C.is_listening connections.new ≡ C.is_listening connections.old)
        × (C.listen_error connections.new ≡ C.listen_error connections.old) }
{
    match serve_on(alloc, connections, count, &mut desk, day, log) {
        Ok(()) => match close_desk(desk) {
            Ok(files) => Ok(files),
            Err(fault) => Err(ServeFault::Close(fault)),
        },
        Err(Failed) => Err(ServeFault::Accept(close_desk(desk))),
    }
}
