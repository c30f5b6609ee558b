//! The database file of a desk.
ghost use Rattle.std.specs.Prelude.{◌≡◌, [], false, Err, None, IfOk, IfErr, IfSome, IsTrue, OnOk};
ghost use Rattle.sqlite_std_file.specs.File.{file_is_usable};
ghost use Rattle.sqlite_store.specs.FileStore.{view};
ghost use Rattle.sqlite_wal.specs.Files.{image_at};
ghost use Rattle.sqlite_wal.specs.Reads.{AreClean};
ghost use Rattle.sqlite_wal.specs.Recovery.{Image};
ghost use Rattle.sqlite.specs.Files.{IsBlankAs, file_state, image_of, over_files};
ghost use Rattle.sqlite.specs.State.{HasCleanDisk};
ghost use Rattle.registry.specs.History.{History};
ghost use Rattle.store.specs.StoreRows.{OnCleanStore, IsOpened};
ghost use Rattle.store_transactions.specs.Databases.{IsUnused};
ghost use Rattle.desk.specs.CrashOutcomes.{HasNonePending};
ghost use Rattle.desk.specs.Desk.{charter_of, store_of, HoldsHistory, IsOnCleanDisk};
ghost use Rattle.desk_files.specs.DeskFiles.{ContinuesFiles, HoldLeft, IsOpenOver, FilesHoldDesk};
ghost use Rattle.desk_files.specs.DeskFiles.{OpensFiles, ResumesFiles, ResumesLeft, image_in};
ghost use Rattle.desk_files.specs.Faults.{IsNoPath, IsOfDatabase, IsOfMemory, IsFaultOf};
ghost use Rattle.desk_files.specs.Refused.{RefusedLeaves, RefusedLeavesOver, UnclosedLeaves};
ghost use Rattle.desk_files.specs.Refused.{LeavesUnmade, RefusedDatabase, RefusesFiles};
ghost use Rattle.desk_files.specs.Refused.{RefusesNoLeft, RefusesNoLegal};

use cli_texts::ProgramFault;
use desk::Desk;
use policy::Charter;
use sqlite::{Connection, Error, ErrorCode, Leftover};
use sqlite_disk::{Disk, Files, Start};
use sqlite_pager::Options;
use sqlite_std_file::{FileFrom, OpenError};
use sqlite_store::FileStore;
use std::alloc::Global;
use std::hash::{BuildHasher, RandomState};
use std::io::ErrorKind;
use std::rt::HostRuntime;
use store::StoreFault;

/// Why the desk in some files was not opened. What was opened is returned, so that a contract can
/// say what is left of it.
#[derive(Drop)]
pub enum OpenFault<D: Disk> {
    /// There are no files at the path.
    Path(ProgramFault),
    /// The files could not be opened, or hold no database.
    File(ProgramFault, Leftover<D>),
    /// The database in the files was refused.
    Store(StoreFault, Files<D>),
}

/// Why no desk was made in some files. What was opened is returned, so that a contract can say what
/// is left of it.
#[derive(Drop)]
pub enum MakeFault<D: Disk> {
    /// The database was refused.
    Database(Files<D>),
    /// The desk was made, but its files were not closed.
    Close(CloseFault<D>),
}

/// Why the files of a desk were not closed. Its store is returned, so that a contract can say what
/// is left of the desk.
#[derive(Drop)]
pub struct CloseFault<D: Disk> {
    pub error: Error,
    pub store: FileStore<D>,
}

/// A connection to the file at the path, which is made if there is none. What is left of files that
/// could not be opened is returned with the fault.
pub fn connect<S: Start>(
    rt: &HostRuntime,
    path: &str,
    start: S,
) -> Result<Connection<FileStore<FileFrom<S>>>, (ProgramFault, Option<Leftover<FileFrom<S>>>)>
    ensures over { IfOk result (λ conn. IsOpenOver conn (image_at S.Start)) }
    // So an ordinary `sqlite3`, which writes no sums, does not spoil the file.
    ensures plain { IfOk result (λ conn. HasCleanDisk (file_state conn)
        → IsBlankAs false (image_at S.Start) → (view conn.store).has_sums ≡ false) }
    ensures no_path { IsNoPath path.now → result ≡ Err (ProgramFault.Database, None) }
    ensures err { IfErr result (λ refused. IsOfDatabase refused.0) }
    ensures left { IfErr result (λ refused. IfSome refused.1 (λ left.
        RefusedLeavesOver (image_at S.Start) (OpenFault.File refused.0 left))) }
{
    let (files, options) = match files_at(rt, path, start) {
        Ok(found) => found,
        Err(fault) => return Err((fault, None)),
    };
    match connect_files(rt.alloc(), files, options) {
        Ok(conn) => Ok(conn),
        Err((fault, left)) => Err((fault, Some(left))),
    }
}

/// A connection to the files. Neither of them may have failed a sync.
fn connect_files<D: Disk + Drop>(
    alloc: Global,
    files: Files<D>,
    options: Options,
) -> Result<Connection<FileStore<D>>, (ProgramFault, Leftover<D>)>
    requires log { IsTrue (D.Disk.is_usable files.log) }
    requires db { IsTrue (D.Disk.is_usable files.db) }
    ensures clean { IfOk result (λ conn. HasCleanDisk (file_state conn)
        → AreClean D.Disk files.log files.db) }
    ensures over { IfOk result (λ conn. IsOpenOver conn (image_of D.Disk files)) }
    ensures plain { IfOk result (λ conn. HasCleanDisk (file_state conn)
        → IsBlankAs false (image_of D.Disk files) → (view conn.store).has_sums ≡ false) }
    ensures err { IfErr result (λ refused. IsOfDatabase refused.0) }
    ensures left { IfErr result (λ refused.
        RefusedLeaves files (OpenFault.File refused.0 refused.1)) }
{
    match Connection::open_files(alloc, files, options) {
        Ok(conn) => Ok(conn),
        Err((error, left)) => Err((fault_of_sqlite(&error), left)),
    }
}

/// The program's fault if files could not be opened or closed.
pub fn fault_of_sqlite(error: &Error) -> ProgramFault
    ensures told { IsFaultOf error.now result }
    ensures kind { IsOfDatabase result }
{
    match error {
        Error::SqliteFailure(ErrorCode::OutOfMemory) => ProgramFault::Memory,
        _ => ProgramFault::Database,
    }
}

/// Makes a desk of this charter, on which nothing was accepted yet, in a database that has no
/// table, and ends it.
pub fn make_desk<D: Disk + Drop>(
    alloc: Global,
    conn: Connection<FileStore<D>>,
    charter: &Charter,
) -> Result<Files<D>, MakeFault<D>>
    ensures made { IfOk result (λ files. AreClean D.Disk files.log files.db
        → FilesHoldDesk D.Disk charter.now [] files) }
    ensures unused { OnOk result (IsUnused (file_state conn)) }
    ensures err { IfErr result (LeavesUnmade charter.now conn) }
{
    match Desk::create_or_return(alloc, conn, charter) {
        Ok(desk) => match close_desk(desk) {
            Ok(files) => Ok(files),
            Err(fault) => Err(MakeFault::Close(fault)),
        },
        Err((_, conn)) => Err(MakeFault::Database(stop_connection(conn))),
    }
}

/// The database file at the path and its log, which are made if there are none, and the options to
/// open them with. A path that SQLite would not take as that of a file is refused.
pub fn files_at<S: Start>(
    rt: &HostRuntime,
    path: &str,
    start: S,
) -> Result<(Files<FileFrom<S>>, Options), ProgramFault>
    ensures usable { IfOk result (λ found. IsTrue (file_is_usable S.Start found.0.log)
        × IsTrue (file_is_usable S.Start found.0.db)) }
    ensures image { IfOk result (λ found. image_in S.Start found.0 ≡ image_at S.Start) }
    ensures no_path { IsNoPath path.now → result ≡ Err ProgramFault.Database }
    ensures err { IfErr result IsOfDatabase }
{
    if path == ":memory:" || path.starts_with("file:") {
        return Err(ProgramFault::Database);
    }
    let files = match sqlite_std_file::open(rt, path, start) {
        Ok(files) => files,
        Err(error) => return Err(fault_of_path(&error)),
    };
    let Ok(random) = RandomState::new(rt) else {
        return Err(ProgramFault::Database);
    };
    Ok((files, Options::new(random.hash_one(&0u8))))
}

/// The program's fault if there are no files at a path.
fn fault_of_path(error: &OpenError) -> ProgramFault
    ensures memory { IsOfMemory error.now → result ≡ ProgramFault.Memory }
    ensures other { (¬ IsOfMemory error.now) → result ≡ ProgramFault.Database }
    ensures kind { IsOfDatabase result }
{
    match error {
        OpenError::OutOfMemory => ProgramFault::Memory,
        OpenError::Io(error) if error.kind() == ErrorKind::OutOfMemory => ProgramFault::Memory,
        _ => ProgramFault::Database,
    }
}

/// Opens the desk in the file at the path.
pub fn open_desk<S: Start>(
    rt: &HostRuntime,
    path: &str,
    start: S,
) -> Result<Desk<FileStore<FileFrom<S>>>, OpenFault<FileFrom<S>>>
    ensures continued { IfOk result (λ desk. IsOnCleanDisk over_files desk
        → ContinuesFiles (image_at S.Start) desk) }
    ensures resumed { IfOk result (λ desk. IsOnCleanDisk over_files desk
        → ResumesFiles (image_at S.Start) desk) }
    ensures none_pending { IfOk result (λ desk. IsOnCleanDisk over_files desk
        → HasNonePending over_files desk) }
    ensures opened { IfOk result (λ desk. IsOnCleanDisk over_files desk
        → OpensFiles (image_at S.Start) desk) }
    ensures err { IfErr result (RefusesFiles (image_at S.Start)) }
    ensures not_schema { IfErr result (RefusesNoLeft (image_at S.Start)) }
    ensures left { IfErr result (RefusedLeavesOver (image_at S.Start)) }
{
    match files_at(rt, path, start) {
        Ok((files, options)) => open_files(rt.alloc(), files, options),
        Err(fault) => Err(OpenFault::Path(fault)),
    }
}

/// Opens the desk in the files. Neither of them may have failed a sync.
pub fn open_files<D: Disk + Drop>(
    alloc: Global,
    files: Files<D>,
    options: Options,
) -> Result<Desk<FileStore<D>>, OpenFault<D>>
    requires log { IsTrue (D.Disk.is_usable files.log) }
    requires db { IsTrue (D.Disk.is_usable files.db) }
    ensures clean { IfOk result (λ desk. IsOnCleanDisk over_files desk
        → AreClean D.Disk files.log files.db) }
    ensures continued { IfOk result (λ desk. IsOnCleanDisk over_files desk
        → ContinuesFiles (image_of D.Disk files) desk) }
    ensures resumed { IfOk result (λ desk. IsOnCleanDisk over_files desk
        → ResumesFiles (image_of D.Disk files) desk) }
    ensures resumed_left { IfOk result (λ desk. IsOnCleanDisk over_files desk
        → ResumesLeft D.Disk files desk) }
    ensures none_pending { IfOk result (λ desk. IsOnCleanDisk over_files desk
        → HasNonePending over_files desk) }
    ensures opened { IfOk result (λ desk. IsOnCleanDisk over_files desk
        → OpensFiles (image_of D.Disk files) desk) }
    ensures err { IfErr result (RefusesFiles (image_of D.Disk files)) }
    ensures not_schema { IfErr result (RefusesNoLeft (image_of D.Disk files)) }
    ensures no_legal { IfErr result (RefusesNoLegal files) }
    ensures left { IfErr result (RefusedLeaves files) }
{
    let conn = match connect_files(alloc, files, options) {
        Ok(conn) => conn,
        Err((fault, left)) => return Err(OpenFault::File(fault, left)),
    };
    match open_over(alloc, conn) {
        Ok(desk) => Ok(desk),
        Err((fault, files)) => Err(OpenFault::Store(fault, files)),
    }
}

/// Opens the desk over a connection, which found what some files hold.
fn open_over<D: Disk + Drop>(
    alloc: Global,
    conn: Connection<FileStore<D>>,
) -> Result<Desk<FileStore<D>>, (StoreFault, Files<D>)>
    ensures clean { IfOk result (λ desk. IsOnCleanDisk over_files desk
        → HasCleanDisk (file_state conn)) }
    ensures continued { IfOk result (λ desk. IsOnCleanDisk over_files desk
        → (image : Image) → IsOpenOver conn image → ContinuesFiles image desk) }
    ensures resumed { IfOk result (λ desk. IsOnCleanDisk over_files desk
        → (image : Image) → IsOpenOver conn image → ResumesFiles image desk) }
    ensures none_pending { IfOk result (λ desk. IsOnCleanDisk over_files desk
        → HasNonePending over_files desk) }
    ensures opened { IfOk result (λ desk. OnCleanStore over_files (store_of desk)
        (IsOpened over_files (file_state conn) (store_of desk))) }
    ensures given_clean { IfErr result (λ refused. AreClean D.Disk refused.1.log refused.1.db
        → HasCleanDisk (file_state conn)) }
    ensures err { IfErr result (λ refused. (image : Image) → IsOpenOver conn image
        → RefusedDatabase D.Disk image refused.0 refused.1) }
    ensures not_schema { IfErr result (λ refused. (image : Image) → IsOpenOver conn image
        → RefusesNoLeft {g = D.Disk} image (OpenFault.Store refused.0 refused.1)) }
{
    match Desk::open_or_return(alloc, conn) {
        Ok(desk) => Ok(desk),
        Err((fault, conn)) => Err((fault, stop_connection(conn))),
    }
}

/// Ends the desk, so that its one file holds everything.
pub fn close_desk<D: Disk + Drop>(desk: Desk<FileStore<D>>) -> Result<Files<D>, CloseFault<D>>
    ensures clean { IfOk result (λ files. AreClean D.Disk files.log files.db
        → IsOnCleanDisk over_files desk) }
    ensures usable { IfOk result (λ files. IsTrue (D.Disk.is_usable files.log)
        × IsTrue (D.Disk.is_usable files.db)) }
    ensures kept { IfOk result (λ files. AreClean D.Disk files.log files.db
        → (history : History) → HoldsHistory over_files desk history
        → FilesHoldDesk D.Disk (charter_of desk) history files) }
    ensures err { IfErr result (UnclosedLeaves desk) }
{
    let conn = desk.close();
    // For the proof: its contract says that what is committed obeys its schema.
    let _schema = conn.schema();
    match conn.close_files() {
        Ok(files) => Ok(files),
        Err((error, store)) => Err(CloseFault { error, store }),
    }
}

/// Returns the files of the connection as a process leaves them that ends at this moment: nothing
/// more is written, and what was not committed is lost.
pub fn stop_connection<D: Disk + Drop>(conn: Connection<FileStore<D>>) -> Files<D>
    ensures clean { AreClean D.Disk result.log result.db → HasCleanDisk (file_state conn) }
    ensures left { AreClean D.Disk result.log result.db
        → HoldLeft D.Disk (file_state conn) result }
{
    conn.into_store().close()
}
