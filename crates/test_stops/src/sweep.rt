//! Runs of desks over files of which one fails, and what is found when the files are opened again.
//! A sweep goes over the calls of some requests, and several tests together go over all calls.
use crate::example_requests::{
    Answers, COUNT_WITH_CREATE, REQUEST_COUNT, ask_each, assert_answered, count_found,
    example_charter,
};
use crate::failing::{FailingFile, Failure};
use crate::http_creates::ask_until_create;
use desk::Desk;
use desk_files::{MakeFault, close_desk, make_desk, open_files, stop};
use policy::Charter;
use sqlite::{Alter, Connection, FileStore};
use sqlite_disk::{Crash, Disk, Files, Memory};
use sqlite_pager::Options;
use std::alloc::Global;
use std::hash::{DefaultHasher, Hasher};
use std::ops::Range;
use std::process::Abort;

/// More calls than a run makes of one file.
pub(crate) const MANY: u64 = 1_000;

/// Each opening fills the cache, so it is small.
pub(crate) fn small_options() -> Options {
    let mut options = Options::new(1);
    options.cache_pages = 16;
    options
}

/// The log is copied into the database after each request.
pub(crate) fn copying_options() -> Options {
    let mut options = small_options();
    options.checkpoint_frames = 1;
    options
}

/// How the log or the database fails, and after how many of its calls.
#[derive(Clone, Copy)]
pub(crate) struct FileFault {
    failure: Failure,
    is_log: bool,
    calls: u64,
}

impl FileFault {
    /// It does not come before the end of a test.
    pub(crate) const NEVER: FileFault = FileFault {
        failure: Failure::Stop,
        is_log: true,
        calls: u64::MAX,
    };

    pub(crate) fn new(failure: Failure, is_log: bool, calls: u64) -> FileFault {
        FileFault {
            failure,
            is_log,
            calls,
        }
    }
}

/// These files, of which one fails.
pub(crate) fn failing_files<D: FailingFile>(files: Files<Memory>, fault: FileFault) -> Files<D> {
    let never = u64::MAX;
    let (log, db) = if fault.is_log {
        (fault.calls, never)
    } else {
        (never, fault.calls)
    };
    Files {
        log: D::failing(files.log, fault.failure, log),
        db: D::failing(files.db, fault.failure, db),
    }
}

/// Files of no bytes.
pub(crate) fn empty_files(alloc: Global) -> Files<Memory> {
    Files {
        log: Memory::new(alloc),
        db: Memory::new(alloc),
    }
}

/// A file of these bytes, all of them synced.
fn file_of(rt: &impl Abort, alloc: Global, bytes: &[u8]) -> Memory {
    let mut file = Memory::new(alloc);
    file.write_at(0, bytes).expect(rt, "written bytes");
    file.sync().expect(rt, "a synced file");
    file
}

/// Files of these bytes, all of them synced.
pub(crate) fn files_of(rt: &impl Abort, alloc: Global, log: &[u8], db: &[u8]) -> Files<Memory> {
    Files {
        log: file_of(rt, alloc, log),
        db: file_of(rt, alloc, db),
    }
}

/// What a disk writes at once or not at all.
const SECTOR: usize = 512;

/// Appends these bytes from where the file ends, before the given end.
fn extend_to(rt: &impl Abort, file: &mut Vec<u8>, bytes: &[u8], end: usize) {
    let end = end.min(bytes.len());
    if let Some(more) = bytes.get(file.len()..end) {
        file.extend_from_slice(more).expect(rt, "memory");
    }
}

/// The file after a power cut that kept every other sector of what was not synced.
fn every_other_sector(rt: &impl Abort, alloc: Global, written: &[u8], synced: &[u8]) -> Vec<u8> {
    let len = written.len().max(synced.len());
    let mut mixed = Vec::new(alloc);
    for sector in 0..len.div_ceil(SECTOR) {
        let end = sector.saturating_add(1).saturating_mul(SECTOR).min(len);
        if sector % 2 == 0 {
            extend_to(rt, &mut mixed, written, end);
        }
        extend_to(rt, &mut mixed, synced, end);
        mixed.resize(end, 0).expect(rt, "memory");
    }
    mixed
}

/// A desk of this charter; `None` if the disk failed before there was one.
fn begin_with<D: Disk + Drop>(
    alloc: Global,
    files: Files<D>,
    options: Options,
    charter: &Charter,
) -> Option<Desk<FileStore<D>>> {
    if !files.may_be_used() {
        return None;
    }
    let conn = Connection::open_files(alloc, files, options).ok()?;
    Desk::create_on(alloc, conn, charter).ok()
}

/// A new desk over files of which one fails; `None` if it failed before there was one.
pub(crate) fn begin<D: FailingFile + Drop>(
    rt: &impl Abort,
    alloc: Global,
    fault: FileFault,
    options: Options,
) -> Option<Desk<FileStore<D>>> {
    let charter = example_charter(rt, alloc);
    let files = failing_files(empty_files(alloc), fault);
    begin_with(alloc, files, options, &charter)
}

/// A new desk over files that do not fail before the end of a test.
pub(crate) fn sound_desk<D: FailingFile + Drop>(
    rt: &impl Abort,
    alloc: Global,
    options: Options,
) -> Desk<FileStore<D>> {
    begin(rt, alloc, FileFault::NEVER, options).expect(rt, "a desk")
}

/// What making a desk leaves.
fn left_of_making<D: Disk + Drop>(made: Result<Files<D>, MakeFault<D>>) -> Files<D> {
    match made {
        Ok(files) => files,
        Err(MakeFault::Database(files)) => files,
        Err(MakeFault::Close(fault)) => fault.store.close(),
    }
}

/// Makes a desk of this charter in these files, and returns what that leaves.
fn make_with<D: Disk + Drop>(
    alloc: Global,
    files: Files<D>,
    options: Options,
    charter: &Charter,
) -> Files<D> {
    if !files.may_be_used() {
        return files;
    }
    match Connection::open_files(alloc, files, options) {
        Ok(conn) => left_of_making(make_desk(alloc, conn, charter)),
        Err((_, left)) => left.into_files(),
    }
}

/// Makes a desk in these files, and returns what that leaves.
pub(crate) fn make_in<D: Disk + Drop>(
    rt: &impl Abort,
    alloc: Global,
    files: Files<D>,
    options: Options,
) -> Files<D> {
    let charter = example_charter(rt, alloc);
    make_with(alloc, files, options, &charter)
}

/// The desk of these files.
fn open_again<D: Disk + Drop>(
    rt: &impl Abort,
    alloc: Global,
    files: Files<D>,
    options: Options,
) -> Desk<FileStore<D>> {
    if !files.may_be_used() {
        rt.panic("files that are refused");
    }
    match open_files(alloc, files, options) {
        Ok(desk) => desk,
        Err(_) => rt.panic("a desk that is refused"),
    }
}

/// How many of the requests the desk of these files has.
fn count_in<D: Disk + Drop>(
    rt: &impl Abort,
    alloc: Global,
    files: Files<D>,
    options: Options,
) -> usize {
    count_of(rt, alloc, open_again(rt, alloc, files, options))
}

/// How many of the requests the desk has.
fn count_of<S: Alter + Drop>(rt: &impl Abort, alloc: Global, mut desk: Desk<S>) -> usize {
    count_found(rt, alloc, &mut desk)
}

/// A desk that answered the first of the requests, so many.
pub(crate) fn desk_after<D: FailingFile + Drop>(
    rt: &impl Abort,
    alloc: Global,
    options: Options,
    count: usize,
) -> Desk<FileStore<D>> {
    let mut desk = sound_desk(rt, alloc, options);
    assert_answered(rt, alloc, &mut desk, &(0..count));
    desk
}

/// What a close leaves.
pub(crate) fn left_of_close<D: Disk + Drop>(desk: Desk<FileStore<D>>) -> Files<D> {
    match close_desk(desk) {
        Ok(files) => files,
        Err(fault) => fault.store.close(),
    }
}

/// The files of a desk that answered the first of the requests, so many, and was closed.
pub(crate) fn files_after<D: FailingFile + Drop>(
    rt: &impl Abort,
    alloc: Global,
    options: Options,
    count: usize,
) -> Files<D> {
    left_of_close(desk_after(rt, alloc, options, count))
}

/// A desk over a copy of these files, of which one fails; `None` if it failed before there was one.
pub(crate) fn open_copy<D: FailingFile + Drop>(
    rt: &impl Abort,
    alloc: Global,
    files: &Files<D>,
    fault: FileFault,
    options: Options,
) -> Option<Desk<FileStore<D>>> {
    let copy = files_of(rt, alloc, files.log.bytes(), files.db.bytes());
    let copy = failing_files(copy, fault);
    if !copy.may_be_used() {
        return None;
    }
    open_files(alloc, copy, options).ok()
}

/// How many calls of a file passed in a run whose fault never came.
fn calls_of<D: FailingFile>(rt: &impl Abort, files: &Files<D>, is_log: bool) -> u64 {
    let left = if is_log {
        files.log.calls_left()
    } else {
        files.db.calls_left()
    };
    u64::MAX.saturating_sub(left.expect(rt, "calls that are left"))
}

fn copy_of(rt: &impl Abort, alloc: Global, bytes: &[u8]) -> Vec<u8> {
    let mut copy = Vec::new(alloc);
    copy.extend_from_slice(bytes).expect(rt, "memory");
    copy
}

/// Files that were opened, and how many of the requests their desk had.
#[derive(Clone, Copy)]
struct Opened {
    digest: u64,
    found: usize,
}

/// What files are told apart by.
fn digest_of(log: &[u8], db: &[u8]) -> u64 {
    let mut hasher = DefaultHasher::new();
    hasher.write(log);
    hasher.write(db);
    hasher.finish()
}

/// What a run sends to its desk.
#[derive(Clone, Copy)]
pub(crate) enum Course {
    /// All requests, as lines.
    Lines,
    /// Those before the create as lines, and the create over HTTP.
    HttpCreate,
    /// Nothing: the desk is being made, and what that left is made a desk where it is none.
    Making,
}

impl Course {
    /// How many requests there are.
    pub(crate) fn count(self) -> usize {
        match self {
            Course::Lines => REQUEST_COUNT,
            Course::HttpCreate => COUNT_WITH_CREATE,
            Course::Making => 0,
        }
    }

    /// Sends the requests from this one on.
    fn ask<S: Alter>(
        self,
        rt: &impl Abort,
        alloc: Global,
        desk: &mut Desk<S>,
        first: usize,
    ) -> Answers {
        match self {
            Course::Lines => ask_each(rt, alloc, desk, &(first..REQUEST_COUNT)),
            Course::HttpCreate => ask_until_create(rt, alloc, desk, first),
            Course::Making => ask_each(rt, alloc, desk, &(0..0)),
        }
    }
}

/// Runs of desks on disks that fail, and what they met.
#[derive(Drop)]
pub(crate) struct Sweep {
    pub(crate) alloc: Global,
    pub(crate) options: Options,
    pub(crate) course: Course,
    /// How many runs ended before there was a desk.
    pub(crate) without_desk: usize,
    /// The requests that were answered only when they were sent again.
    pub(crate) delayed: Vec<usize>,
    /// The requests that were in progress at a stop, and were found.
    pub(crate) kept: Vec<usize>,
    /// The requests that were in progress at a stop, and were not found.
    pub(crate) lost: Vec<usize>,
    /// What is found depends on the bytes of the files alone, so those of one digest are opened once.
    opened: Vec<Opened>,
}

impl Sweep {
    pub(crate) fn new(alloc: Global, options: Options, course: Course) -> Sweep {
        Sweep {
            alloc,
            options,
            course,
            without_desk: 0,
            delayed: Vec::new(alloc),
            kept: Vec::new(alloc),
            lost: Vec::new(alloc),
            opened: Vec::new(alloc),
        }
    }

    /// How many of the requests the desk of these files had, if files of this digest were opened.
    fn found_before(&self, digest: u64) -> Option<usize> {
        for opened in &self.opened {
            if opened.digest == digest {
                return Some(opened.found);
            }
        }
        None
    }

    /// Notes how many of the requests the desk of files of this digest had.
    fn note(&mut self, rt: &impl Abort, digest: u64, found: usize) {
        let opened = Opened { digest, found };
        self.opened.push(opened).expect(rt, "memory");
    }

    /// How many of the requests the desk of these files has, once it is made again in what making it
    /// left, and closed. Most of the files are the same then.
    fn found_once_made<D: FailingFile + Drop>(
        &mut self,
        rt: &impl Abort,
        files: Files<D>,
    ) -> usize {
        let made = make_in(rt, self.alloc, files, self.options);
        let files = left_of_close(open_again(rt, self.alloc, made, self.options));
        let digest = digest_of(files.log.bytes(), files.db.bytes());
        if let Some(found) = self.found_before(digest) {
            return found;
        }
        let found = count_in(rt, self.alloc, files, self.options);
        self.note(rt, digest, found);
        found
    }

    /// How many of the requests the desk of files of these bytes has.
    fn found_in<D: FailingFile + Drop>(&mut self, rt: &impl Abort, log: &[u8], db: &[u8]) -> usize {
        let digest = digest_of(log, db);
        if let Some(found) = self.found_before(digest) {
            return found;
        }
        let files = files_of(rt, self.alloc, log, db);
        let files = failing_files::<D>(files, FileFault::NEVER);
        let found = match self.course {
            Course::Making => self.found_once_made(rt, files),
            Course::Lines | Course::HttpCreate => count_in(rt, self.alloc, files, self.options),
        };
        self.note(rt, digest, found);
        found
    }

    /// The files have the requests that were answered, and perhaps the one that was in progress.
    fn assert_found<D: FailingFile + Drop>(
        &mut self,
        rt: &impl Abort,
        log: &[u8],
        db: &[u8],
        answered: usize,
    ) {
        let found = self.found_in::<D>(rt, log, db);
        if found == answered {
            self.lost.push(answered).expect(rt, "memory");
        } else {
            assert_eq!(rt; found, answered.saturating_add(1));
            self.kept.push(answered).expect(rt, "memory");
        }
    }

    /// Opens the files as a killed process leaves them, and as a power cut does.
    pub(crate) fn open_both<D: FailingFile + Drop>(
        &mut self,
        rt: &impl Abort,
        files: &mut Files<D>,
        answered: usize,
    ) {
        self.assert_found::<D>(rt, files.log.bytes(), files.db.bytes(), answered);
        files.log.crash();
        files.db.crash();
        self.assert_found::<D>(rt, files.log.bytes(), files.db.bytes(), answered);
    }

    /// Opens the files as a killed process leaves them, as a power cut does, and as one does that
    /// kept every other sector of what was not synced.
    fn open_all<D: FailingFile + Drop>(
        &mut self,
        rt: &impl Abort,
        files: &mut Files<D>,
        answered: usize,
    ) {
        let log = copy_of(rt, self.alloc, files.log.bytes());
        let db = copy_of(rt, self.alloc, files.db.bytes());
        self.open_both(rt, files, answered);
        let log = every_other_sector(rt, self.alloc, &log, files.log.bytes());
        let db = every_other_sector(rt, self.alloc, &db, files.db.bytes());
        self.assert_found::<D>(rt, &log, &db, answered);
    }

    /// Sends the requests from this one on to a desk until it is unavailable; returns how many it has.
    fn ask<S: Alter>(&mut self, rt: &impl Abort, desk: &mut Desk<S>, first: usize) -> usize {
        let answers = self.course.ask(rt, self.alloc, desk, first);
        if let Some(request) = answers.delayed {
            self.delayed.push(request).expect(rt, "memory");
        }
        answers.count
    }

    /// Opens the files of a run; returns whether one of them failed.
    pub(crate) fn open_after_run<D: FailingFile + Drop>(
        &mut self,
        rt: &impl Abort,
        files: &mut Files<D>,
        answered: usize,
    ) -> bool {
        let has_failed = files.log.has_failed() || files.db.has_failed();
        assert!(rt; has_failed || answered == self.course.count());
        self.open_all(rt, files, answered);
        has_failed
    }

    /// A desk over a copy of these files, or a new one, of which one file fails; `None` if it failed
    /// before there was a desk.
    fn begin<D: FailingFile + Drop>(
        &self,
        rt: &impl Abort,
        before: &Option<Files<D>>,
        fault: FileFault,
    ) -> Option<Desk<FileStore<D>>> {
        match before {
            Some(files) => open_copy(rt, self.alloc, files, fault, self.options),
            None => begin(rt, self.alloc, fault, self.options),
        }
    }

    /// Sends the requests from this one on to a desk until it is unavailable, and stops it; returns
    /// whether a file failed.
    fn run<D: FailingFile + Drop>(
        &mut self,
        rt: &impl Abort,
        before: &Option<Files<D>>,
        first: usize,
        fault: FileFault,
    ) -> bool {
        let Some(mut desk) = self.begin(rt, before, fault) else {
            self.without_desk = self.without_desk.saturating_add(1);
            return true;
        };
        let answered = self.ask(rt, &mut desk, first);
        self.open_after_run(rt, &mut stop(desk), answered)
    }

    /// How many calls of a file come in a run up to the end of these requests, its first ones.
    fn calls_until<D: FailingFile + Drop>(
        &self,
        rt: &impl Abort,
        before: &Option<Files<D>>,
        is_log: bool,
        requests: &Range<usize>,
    ) -> u64 {
        let desk = self.begin(rt, before, FileFault::NEVER);
        let mut desk = desk.expect(rt, "a desk");
        assert_answered(rt, self.alloc, &mut desk, requests);
        calls_of(rt, &stop(desk), is_log)
    }

    /// The file fails at each of its calls of these requests, and of making the desk before the first
    /// of all; where the last request is among them, until a run has none that fails.
    fn fail_each_call<D: FailingFile + Drop>(
        &mut self,
        rt: &impl Abort,
        before: &Option<Files<D>>,
        failure: Failure,
        is_log: bool,
        requests: &Range<usize>,
    ) {
        let first = requests.start;
        let is_last = requests.end == self.course.count();
        let start = match before {
            Some(_) => self.calls_until(rt, before, is_log, &(first..first)),
            None => 0,
        };
        let end = if is_last {
            MANY
        } else {
            self.calls_until(rt, before, is_log, requests)
        };
        for calls in start..end {
            let fault = FileFault::new(failure, is_log, calls);
            if !self.run(rt, before, first, fault) {
                assert!(rt; is_last, "no call {calls}");
                return;
            }
        }
        assert!(rt; !is_last, "a run that does not end");
    }

    /// Either file fails at each of its calls of these requests, on a desk that is opened with those
    /// before them, or made. Each of them was in progress at a stop and found in some run, and not in
    /// another.
    pub(crate) fn fail_at<D: FailingFile + Drop>(
        &mut self,
        rt: &impl Abort,
        failure: Failure,
        requests: &Range<usize>,
    ) {
        let before = if requests.start > 0 {
            Some(files_after::<D>(rt, self.alloc, self.options, requests.start))
        } else {
            None
        };
        self.fail_each_call(rt, &before, failure, true, requests);
        self.fail_each_call(rt, &before, failure, false, requests);
        assert!(rt; requests.start > 0 || self.without_desk > 0);
        for request in requests.start..requests.end {
            assert!(rt; self.kept.contains(&request), "{request} kept");
            assert!(rt; self.lost.contains(&request), "{request} lost");
        }
    }
}
