//! Desks over files of which one fails while a desk is made in them, or its desk is opened and
//! closed. Clauses say what is left then, but not that it opens again.
use crate::example_requests::{REQUEST_COUNT, assert_answered};
use crate::failing::{Failing, FailingFile, Failure};
use crate::sweep::{
    Course, FileFault, MANY, Sweep, desk_after, empty_files, failing_files, files_after, files_of,
    left_of_close, make_in, open_copy,
};
use desk_files::{OpenFault, open_files, stop};
use sqlite::{Alter, Connection, FileStore};
use sqlite_disk::{Disk, Files, Memory};
use sqlite_pager::Options;
use std::alloc::Global;
use std::process::Abort;
use store::StoreFault;

/// The log is copied once it has some frames, since each opening reads all of it.
fn options() -> Options {
    let mut options = Options::new(1);
    options.cache_pages = 64;
    options.checkpoint_frames = 48;
    options
}

/// What a refused opening leaves. It never answers another schema.
fn left_of_opening<D: Disk + Drop>(rt: &impl Abort, fault: OpenFault<D>) -> Files<D> {
    match fault {
        OpenFault::File(_, left) => left.into_files(),
        OpenFault::Store(StoreFault::Database, files) => files,
        OpenFault::Path(_) | OpenFault::Store(StoreFault::Schema, _) => rt.panic("another schema"),
    }
}

/// Opens the desk of these files and closes it, and returns what that leaves.
fn open_and_close<D: Disk + Drop>(
    rt: &impl Abort,
    alloc: Global,
    files: Files<D>,
    options: Options,
) -> Files<D> {
    if !files.may_be_used() {
        return files;
    }
    match open_files(alloc, files, options) {
        Ok(desk) => left_of_close(desk),
        Err(fault) => left_of_opening(rt, fault),
    }
}

/// What a life of these files leaves.
fn live_once<D: Disk + Drop>(rt: &impl Abort, sweep: &Sweep, files: Files<D>) -> Files<D> {
    match sweep.course {
        Course::Making => make_in(rt, sweep.alloc, files, sweep.options),
        Course::Lines | Course::HttpCreate => {
            open_and_close(rt, sweep.alloc, files, sweep.options)
        }
    }
}

/// A copy of the files lives once, of which one fails, and all requests are found again. Returns
/// whether it failed.
fn run<D: FailingFile + Drop>(
    rt: &impl Abort,
    sweep: &mut Sweep,
    found: &Files<D>,
    fault: FileFault,
) -> bool {
    let answered = sweep.course.count();
    let copy = files_of(rt, sweep.alloc, found.log.bytes(), found.db.bytes());
    let mut left = live_once(rt, sweep, failing_files::<D>(copy, fault));
    sweep.open_after_run(rt, &mut left, answered)
}

/// Goes over the calls of a file until a run has none that fails. No request is found that was not
/// answered.
fn run_until_done<D: FailingFile + Drop>(
    rt: &impl Abort,
    sweep: &mut Sweep,
    found: &Files<D>,
    failure: Failure,
    is_log: bool,
) {
    for calls in 0..MANY {
        let fault = FileFault::new(failure, is_log, calls);
        if !run(rt, sweep, found, fault) {
            assert!(rt; calls > 0 && sweep.kept.is_empty());
            return;
        }
    }
    rt.panic("a run that does not end")
}

/// The file fails at each of its calls in a life of these files.
fn fail_each_call<D: FailingFile + Drop>(
    rt: &impl Abort,
    alloc: Global,
    course: Course,
    found: &Files<D>,
    failure: Failure,
    is_log: bool,
) {
    let mut sweep = Sweep::new(alloc, options(), course);
    run_until_done(rt, &mut sweep, found, failure, is_log);
}

/// The files of a desk that stopped after all requests, with the last of them in the log.
fn stopped_files<D: FailingFile + Drop>(rt: &impl Abort, alloc: Global) -> Files<D> {
    let last = REQUEST_COUNT.saturating_sub(1)..REQUEST_COUNT;
    let before = files_after::<D>(rt, alloc, options(), last.start);
    let desk = open_copy(rt, alloc, &before, FileFault::NEVER, options());
    let mut desk = desk.expect(rt, "a desk");
    assert_answered(rt, alloc, &mut desk, &last);
    stop(desk)
}

/// The file fails at each of its calls while a desk of all requests is opened and closed.
fn fail_opening(rt: &impl Abort, alloc: Global, failure: Failure, is_log: bool) {
    let found = stopped_files::<Failing<Memory>>(rt, alloc);
    fail_each_call(rt, alloc, Course::Lines, &found, failure, is_log);
}

#[test]
fn stop_of_the_log_while_opened_and_closed(rt: HostRuntime) {
    fail_opening(&rt, rt.alloc(), Failure::Stop, true);
}

#[test]
fn stop_of_the_database_while_opened_and_closed(rt: HostRuntime) {
    fail_opening(&rt, rt.alloc(), Failure::Stop, false);
}

#[test]
fn refused_call_of_the_log_while_opened_and_closed(rt: HostRuntime) {
    fail_opening(&rt, rt.alloc(), Failure::Refusal, true);
}

#[test]
fn refused_call_of_the_database_while_opened_and_closed(rt: HostRuntime) {
    fail_opening(&rt, rt.alloc(), Failure::Refusal, false);
}

/// Makes a desk one of schema 1. None of these authorizations has more than one entry.
const OLD: &str = "
INSERT INTO auth SELECT holder, number, asn, family, lo, len, max, opens, ends
    FROM claim JOIN entry USING (holder, number, asn);
DROP INDEX holding_of;
DROP TABLE entry;
DROP TABLE claim;
UPDATE meta SET value = 1;
CREATE INDEX holding_of ON holding (holder);
";

/// Makes the desk of this connection one of schema 1.
fn make_old<S: Alter>(rt: &impl Abort, conn: &mut Connection<S>) {
    conn.execute_batch(OLD).expect(rt, "an old schema");
}

/// The files of this connection, closed.
fn closed<D: Disk + Drop>(conn: Connection<FileStore<D>>) -> Files<D> {
    match conn.close_files() {
        Ok(files) => files,
        Err((_, store)) => store.close(),
    }
}

/// The files of a desk of schema 1 that has all requests, closed.
fn old_files<D: FailingFile + Drop>(rt: &impl Abort, alloc: Global) -> Files<D> {
    let mut conn = desk_after::<D>(rt, alloc, options(), REQUEST_COUNT).close();
    make_old(rt, &mut conn);
    closed(conn)
}

/// The file fails at each of its calls while a desk of schema 1 is opened, which moves it, and
/// closed.
fn fail_move(rt: &impl Abort, alloc: Global, failure: Failure, is_log: bool) {
    let found = old_files::<Failing<Memory>>(rt, alloc);
    fail_each_call(rt, alloc, Course::Lines, &found, failure, is_log);
}

#[test]
fn stop_of_the_log_while_moved(rt: HostRuntime) {
    fail_move(&rt, rt.alloc(), Failure::Stop, true);
}

#[test]
fn stop_of_the_database_while_moved(rt: HostRuntime) {
    fail_move(&rt, rt.alloc(), Failure::Stop, false);
}

#[test]
fn refused_call_of_the_log_while_moved(rt: HostRuntime) {
    fail_move(&rt, rt.alloc(), Failure::Refusal, true);
}

#[test]
fn refused_call_of_the_database_while_moved(rt: HostRuntime) {
    fail_move(&rt, rt.alloc(), Failure::Refusal, false);
}

/// The file fails at each of its calls while a desk is made.
fn fail_making(rt: &impl Abort, alloc: Global, failure: Failure, is_log: bool) {
    let found = failing_files::<Failing<Memory>>(empty_files(alloc), FileFault::NEVER);
    fail_each_call(rt, alloc, Course::Making, &found, failure, is_log);
}

#[test]
fn stop_of_the_log_while_made(rt: HostRuntime) {
    fail_making(&rt, rt.alloc(), Failure::Stop, true);
}

#[test]
fn stop_of_the_database_while_made(rt: HostRuntime) {
    fail_making(&rt, rt.alloc(), Failure::Stop, false);
}

#[test]
fn refused_call_of_the_log_while_made(rt: HostRuntime) {
    fail_making(&rt, rt.alloc(), Failure::Refusal, true);
}

#[test]
fn refused_call_of_the_database_while_made(rt: HostRuntime) {
    fail_making(&rt, rt.alloc(), Failure::Refusal, false);
}
