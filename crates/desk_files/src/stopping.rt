//! What becomes of a desk's files at the end of a process.
ghost use Rattle.std.specs.Prelude.{IfErr, IfOk};
ghost use Rattle.sqlite.specs.Files.{over_files};
ghost use Rattle.sqlite_wal.specs.Reads.{AreClean};
ghost use Rattle.registry.specs.CharterSets.{IsCharter};
ghost use Rattle.registry.specs.History.{History};
ghost use Rattle.registry.specs.declared.charter.Charter as shown;
ghost use Rattle.desk.specs.CrashOutcomes.{HasNonePending};
ghost use Rattle.desk.specs.Desk.{IsOnCleanDisk, Represents};
ghost use Rattle.desk_files.specs.DeskFiles.{LeavesFiles};
ghost use Rattle.desk_files.specs.Refused.{RefusesReopen};

use crate::file::{OpenFault, close_desk, fault_of_sqlite, open_files, stop_connection};
use desk::Desk;
use sqlite::Leftover;
use sqlite_disk::{Disk, Files};
use sqlite_pager::Options;
use sqlite_store::FileStore;
use std::alloc::Global;

/// Returns the files of the desk as a process leaves them that ends at this moment: nothing more is
/// written, and what was not committed is lost.
pub fn stop<D: Disk + Drop>(desk: Desk<FileStore<D>>) -> Files<D>
    ensures clean { AreClean D.Disk result.log result.db → IsOnCleanDisk over_files desk }
    ensures left { AreClean D.Disk result.log result.db → LeavesFiles D.Disk desk result }
{
    stop_connection(desk.close())
}

/// Closes the desk's files and opens the desk in them again.
pub fn reopen<D: Disk + Drop>(
    alloc: Global,
    desk: Desk<FileStore<D>>,
    options: Options,
) -> Result<Desk<FileStore<D>>, OpenFault<D>>
    ensures clean { IfOk result (λ again. IsOnCleanDisk over_files again
        → IsOnCleanDisk over_files desk) }
    ensures same { IfOk result (λ again. IsOnCleanDisk over_files again
        → (charter : shown.Charter) (history : History) → IsCharter charter
        → Represents over_files charter desk history
        → Represents over_files charter again history) }
    ensures none_pending { IfOk result (λ again. IsOnCleanDisk over_files again
        → HasNonePending over_files again) }
    ensures err { IfErr result (RefusesReopen desk) }
{
    match close_desk(desk) {
        Ok(files) => open_files(alloc, files, options),
        Err(fault) => {
            let told = fault_of_sqlite(&fault.error);
            Err(OpenFault::File(told, Leftover::Store(fault.store)))
        }
    }
}
