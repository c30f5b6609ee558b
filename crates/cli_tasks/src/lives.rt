//! The lives of `serve` on files whose disk may crash.
ghost use Rattle.std.specs.Prelude.{◌≡◌, ◌≤◌, List, length, IfErr, IfOk, IsTrue, OnErr, OnOk};
ghost use Rattle.std.specs.Prelude.{false, is_some, true};
ghost use Rattle.std.specs.List.{flat_map};
ghost use Rattle.sqlite.specs.Files.{image_of};
ghost use Rattle.sqlite_wal.specs.Reads.{AreClean};
ghost use Rattle.desk_files.specs.Refused.{RefusedLeaves, RefusesFiles, RefusesNoLeft};
ghost use Rattle.desk_files.specs.Refused.{RefusesNoLegal};
ghost use Rattle.cli_tasks.specs.Connections.{Accepts, Logs};
ghost use Rattle.cli_tasks.specs.ServedLives.{EndsLife, EndsLives, HasLifeCount, ServesLife, ServesLives};
ghost use Rattle.cli_tasks.specs.ServedLives.{end_of_close, end_of_serve};
ghost use Rattle.cli_tasks.specs.Serving.{Transcript, fault_lines};

use crate::serve::{Connections, Log, serve_on};
use crate::serve_desk::{ServeFault, serve_files};
use addr::Day;
use desk_files::{CloseFault, OpenFault, open_files, stop};
use sqlite_disk::{Crash, Disk, Files};
use sqlite_pager::Options;
use std::alloc::Global;

/// A life of `serve`: the day, how many connections it has at most, the options of its opening, and
/// whether the files are closed at its end or the process just ends.
#[derive(Clone, Copy)]
pub struct Life {
    pub day: Day,
    pub count: u32,
    pub options: Options,
    pub is_closed: bool,
}

/// Why a life was the last one. What is left of its files is here.
#[derive(Drop)]
pub enum LifeFault<D: Disk> {
    /// The desk was not opened.
    Open(OpenFault<D>),
    /// The files were to be closed, and were not.
    Close(CloseFault<D>),
}

/// Opens the desk in the files, serves at most this many connections on this day, and returns the
/// files as a process leaves them that ends then. Neither of them may have failed a sync. As the
/// disk is any, it may be one that stops at some call, and then each later call fails.
pub fn serve_until_stop<D: Disk + Drop, C: Connections, L: Log>(
    alloc: Global,
    files: Files<D>,
    options: Options,
    connections: &mut C,
    count: u32,
    day: Day,
    log: &mut L,
) -> Result<Files<D>, OpenFault<D>>
    requires log { IsTrue (D.Disk.is_usable files.log) }
    requires db { IsTrue (D.Disk.is_usable files.db) }
    ensures clean { IfOk result (λ left. AreClean D.Disk left.log left.db
        → AreClean D.Disk files.log files.db) }
    // `passed` are the connections: there are as many, unless one could not be accepted, they were
    // accepted, the log has the lines of those that failed, and a crash leaves of the files at most
    // what they lead to.
    ensures served { (passed : List Transcript) × (length passed ≤ count)
        × OnOk result (HasLifeCount (length passed) count false (C.has_failed connections.new))
        × Accepts (C.accepted connections.old) (C.accepted connections.new) passed
        × Logs (L.has_lost log.old) (L.has_lost log.new) (L.contents log.old)
        (L.contents log.new) (fault_lines 1 passed)
        × IfOk result (λ left. AreClean D.Disk left.log left.db
        → ServesLife D.Disk false day files passed left) }
    ensures unserved { OnErr result ((connections.new ≡ connections.old) × (log.new ≡ log.old)) }
    ensures err { IfErr result (RefusesFiles (image_of D.Disk files)) }
    ensures not_schema { IfErr result (RefusesNoLeft (image_of D.Disk files)) }
    ensures no_legal { IfErr result (RefusesNoLegal files) }
    ensures left { IfErr result (RefusedLeaves files) }
{
    let mut desk = match open_files(alloc, files, options) {
        Ok(desk) => desk,
        Err(fault) => return Err(fault),
    };
    // If a connection cannot be accepted, the process ends there.
    let _ended = serve_on(alloc, connections, count, &mut desk, day, log);
    Ok(stop(desk))
}

/// Serves a life. Neither of the files may have failed a sync.
pub fn serve_life<D: Disk + Drop, C: Connections, L: Log>(
    alloc: Global,
    files: Files<D>,
    life: Life,
    connections: &mut C,
    log: &mut L,
) -> Result<Files<D>, LifeFault<D>>
    requires log { IsTrue (D.Disk.is_usable files.log) }
    requires db { IsTrue (D.Disk.is_usable files.db) }
    ensures clean { IfOk result (λ left. AreClean D.Disk left.log left.db
        → AreClean D.Disk files.log files.db) }
    ensures served { (passed : List Transcript) × (length passed ≤ life.count)
        × OnOk result (HasLifeCount (length passed) life.count
        (is_some (C.listen_error connections.new)) (C.has_failed connections.new))
        × Accepts (C.accepted connections.old) (C.accepted connections.new) passed
        × Logs (L.has_lost log.old) (L.has_lost log.new) (L.contents log.old)
        (L.contents log.new) (fault_lines 1 passed)
        × IfOk result (λ left. AreClean D.Disk left.log left.db
        → ServesLife D.Disk life.is_closed life.day files passed left)
        × IfErr result (EndsLife D.Disk life.day files passed) }
{
    if life.is_closed {
        return serve_until_close(
            alloc,
            files,
            life.options,
            connections,
            life.count,
            life.day,
            log,
        );
    }
    match serve_until_stop(
        alloc,
        files,
        life.options,
        connections,
        life.count,
        life.day,
        log,
    ) {
        Ok(left) => Ok(left),
        Err(fault) => Err(LifeFault::Open(fault)),
    }
}

/// Serves a life that is to close its files, as `serve_files`. It has ended well if they were
/// closed, even if the socket was not bound or a connection could not be accepted.
fn serve_until_close<D: Disk + Drop, C: Connections, L: Log>(
    alloc: Global,
    files: Files<D>,
    options: Options,
    connections: &mut C,
    count: u32,
    day: Day,
    log: &mut L,
) -> Result<Files<D>, LifeFault<D>>
    requires log { IsTrue (D.Disk.is_usable files.log) }
    requires db { IsTrue (D.Disk.is_usable files.db) }
    ensures clean { IfOk result (λ left. AreClean D.Disk left.log left.db
        → AreClean D.Disk files.log files.db) }
    ensures served { (passed : List Transcript) × (length passed ≤ count)
        × OnOk result (HasLifeCount (length passed) count
        (is_some (C.listen_error connections.new)) (C.has_failed connections.new))
        × Accepts (C.accepted connections.old) (C.accepted connections.new) passed
        × Logs (L.has_lost log.old) (L.has_lost log.new) (L.contents log.old)
        (L.contents log.new) (fault_lines 1 passed)
        × IfOk result (λ left. AreClean D.Disk left.log left.db
        → ServesLife D.Disk true day files passed left)
        × IfErr result (EndsLife D.Disk day files passed) }
{
    let end = serve_files(alloc, files, options, connections, count, day, log);
    end_of_serve(end)
}

/// The end of a life whose files were to be closed.
fn end_of_serve<D: Disk>(end: Result<Files<D>, ServeFault<D>>) -> Result<Files<D>, LifeFault<D>>
    ensures { result ≡ end_of_serve end }
{
    match end {
        Ok(files) => Ok(files),
        Err(ServeFault::Open(fault)) => Err(LifeFault::Open(fault)),
        Err(ServeFault::Bind(_, closed)) => end_of_close(closed),
        Err(ServeFault::Accept(closed)) => end_of_close(closed),
        Err(ServeFault::Close(fault)) => Err(LifeFault::Close(fault)),
    }
}

fn end_of_close<D: Disk>(closed: Result<Files<D>, CloseFault<D>>) -> Result<Files<D>, LifeFault<D>>
    ensures { result ≡ end_of_close closed }
{
    match closed {
        Ok(files) => Ok(files),
        Err(fault) => Err(LifeFault::Close(fault)),
    }
}

/// Serves each life in turn, and crashes the files before each. One that does not end well ends the
/// lives.
pub fn serve_lives<D: Crash + Drop, C: Connections, L: Log>(
    alloc: Global,
    mut files: Files<D>,
    lives: &[Life],
    connections: &mut C,
    log: &mut L,
) -> Result<Files<D>, LifeFault<D>>
    ensures clean { IfOk result (λ left. AreClean D.Disk left.log left.db
        → AreClean D.Disk files.log files.db) }
    // `served` are the connections of each life, also of one that did not end well: they were
    // accepted, the log has the lines of those that failed, and a crash leaves of the files at most
    // what the lives lead to.
    ensures served { (served : List (List Transcript))
        × Accepts (C.accepted connections.old) (C.accepted connections.new)
        (flat_map (λ passed. passed) served)
        × Logs (L.has_lost log.old) (L.has_lost log.new) (L.contents log.old)
        (L.contents log.new) (flat_map (fault_lines 1) served)
        × OnOk result (length served ≡ length lives.now)
        × IfOk result (λ left. AreClean D.Disk left.log left.db
        → ServesLives D.Disk lives.now files served left)
        × IfErr result (EndsLives D.Disk lives.now files served) }
{
    // For the proof: the theorem by which the values of the requests reach the next life.
    desk::laws::pending_fits();
    for life in lives {
        files.log.crash();
        files.db.crash();
        files = match serve_life(alloc, files, *life, connections, log) {
            Ok(left) => left,
            Err(fault) => return Err(fault),
        };
    }
    Ok(files)
}
