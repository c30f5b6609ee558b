//! A create over HTTP, on desks over files that stop at each call of the disk.
use crate::example_requests::{
    Answers, COUNT_BEFORE_CREATE, COUNT_WITH_CREATE, ask_each, assert_answered, sheet_of,
};
use crate::failing::{Failing, FailingFile, Failure};
use crate::sweep::{Course, Sweep, copying_options, small_options, sound_desk};
use addr::Day;
use desk::Desk;
use desk_files::stop;
use sqlite::Alter;
use sqlite_disk::{Files, Memory};
use sqlite_pager::Options;
use std::alloc::Global;
use std::process::Abort;
use test_library::sheet::Sheet;
use web::{Device, WebFault, serve_one};

/// The create of the requests.
const CREATE: &str = "POST /holders/alpha/auths HTTP/1.1\r\nDesk-Caller: ann\r\n\
    Content-Length: 87\r\n\r\n{\"asn\":64496,\"prefix\":\"192.0.2.0/24\",\"max\":24,\
    \"from\":\"2026-01-01\",\"until\":\"2026-12-31\"}";

const DONE: &str = "HTTP/1.1 200 OK\r\nContent-Type: application/json\r\n\
    Content-Length: 11\r\nConnection: close\r\n\r\n{\"done\":1}\n";

const UNAVAILABLE: &str = "HTTP/1.1 503 Service Unavailable\r\n\
    Content-Type: application/json\r\nContent-Length: 21\r\nConnection: close\r\n\r\n\
    {\"unavailable\":true}\n";

/// Serves the create to a writer.
fn serve_create<S: Alter>(
    rt: &impl Abort,
    alloc: Global,
    desk: &mut Desk<S>,
    sheet: &mut Sheet,
) -> Result<(), WebFault> {
    let day = Day::read(b"2026-03-01").expect(rt, "a day");
    let mut source = Device::new(CREATE.as_bytes());
    let mut drain = Device::new(sheet);
    serve_one(alloc, &mut source, &mut drain, desk, day)
}

/// Whether the desk answers that it made the create; else it answers that it is unavailable.
fn is_created<S: Alter>(rt: &impl Abort, alloc: Global, desk: &mut Desk<S>) -> bool {
    let mut sheet = sheet_of(alloc, usize::MAX);
    serve_create(rt, alloc, desk, &mut sheet).expect(rt, "a response");
    let response = String::from_utf8(sheet.bytes).expect(rt, "a text");
    let is_done = response.as_str() == DONE;
    if !is_done {
        assert_eq!(rt; response.as_str(), UNAVAILABLE);
    }
    is_done
}

/// Sends the requests from this one to the one before the create as lines, and the create over HTTP.
pub(crate) fn ask_until_create<S: Alter>(
    rt: &impl Abort,
    alloc: Global,
    desk: &mut Desk<S>,
    first: usize,
) -> Answers {
    let mut answers = ask_each(rt, alloc, desk, &(first..COUNT_BEFORE_CREATE));
    if answers.count == COUNT_BEFORE_CREATE && is_created(rt, alloc, desk) {
        answers.count = COUNT_WITH_CREATE;
    }
    answers
}

/// The create was answered with 503 in some run, and was found after it; and so was not in another.
/// A run that stops before the last request ahead of it does not send it, and is one of those that
/// send lines alone.
fn stop_at_a_create(rt: &impl Abort, alloc: Global, options: Options) {
    let requests = COUNT_BEFORE_CREATE.saturating_sub(1)..COUNT_WITH_CREATE;
    let mut sweep = Sweep::new(alloc, options, Course::HttpCreate);
    sweep.fail_at::<Failing<Memory>>(rt, Failure::Stop, &requests);
}

#[test]
fn stop_at_a_create_while_the_log_grows(rt: HostRuntime) {
    stop_at_a_create(&rt, rt.alloc(), small_options());
}

#[test]
fn stop_at_a_create_while_the_log_is_copied(rt: HostRuntime) {
    stop_at_a_create(&rt, rt.alloc(), copying_options());
}

/// Sends a create whose response is not taken.
fn create_untaken<S: Alter>(rt: &impl Abort, alloc: Global, desk: &mut Desk<S>) {
    assert_answered(rt, alloc, desk, &(0..COUNT_BEFORE_CREATE));
    let mut sheet = sheet_of(alloc, 0);
    let result = serve_create(rt, alloc, desk, &mut sheet);
    assert_eq!(rt; result, Err(WebFault::Write));
    assert!(rt; sheet.bytes.is_empty());
}

/// What is left of a desk after a create whose response is not taken.
fn files_after_untaken<D: FailingFile + Drop>(rt: &impl Abort, alloc: Global) -> Files<D> {
    let mut desk = sound_desk(rt, alloc, small_options());
    create_untaken(rt, alloc, &mut desk);
    stop(desk)
}

/// These files have all requests with the create, as they are and after a power cut.
fn assert_all_left<D: FailingFile + Drop>(rt: &impl Abort, alloc: Global, mut files: Files<D>) {
    let mut sweep = Sweep::new(alloc, small_options(), Course::HttpCreate);
    sweep.open_both(rt, &mut files, COUNT_WITH_CREATE);
    let found = [COUNT_WITH_CREATE, COUNT_WITH_CREATE];
    assert_eq!(rt; sweep.lost.as_slice(), found.as_slice());
}

/// It was made, and is there after a stop: nothing was in progress then.
#[test]
fn response_that_is_not_taken(rt: HostRuntime) {
    let files = files_after_untaken::<Failing<Memory>>(&rt, rt.alloc());
    assert_all_left(&rt, rt.alloc(), files);
}
