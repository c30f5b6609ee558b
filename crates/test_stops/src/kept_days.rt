//! The VRPs of the day that a desk keeps, where the disk fails at a command.
use crate::example_requests::{COUNT_WITH_CREATE, UNAVAILABLE, assert_reply, replies_with};
use crate::failing::{Failing, FailingFile, Failure};
use crate::sweep::{FileFault, MANY, files_after, open_copy};
use addr::Day;
use desk::Desk;
use desk_files::stop;
use sqlite::Alter;
use sqlite_disk::{Files, Memory};
use sqlite_pager::Options;
use std::alloc::Global;
use std::process::Abort;

const PAYLOADS: &str = r#"bob {"do":"payloads"}"#;

/// The command at which the disk fails.
const AMEND: &str =
    r#"ann {"do":"amend","holder":"alpha","number":1,"max":25,"until":"2026-12-31"}"#;

const DONE: &str = r#"{"done":null}"#;

/// The VRPs before it and after it.
const BEFORE: &str = r#"{"payloads":[{"asn":64496,"prefix":"192.0.2.0/24","max":24}]}"#;

const AFTER: &str = r#"{"payloads":[{"asn":64496,"prefix":"192.0.2.0/24","max":25}]}"#;

/// How many pages a small cache has, and one that has room for all pages of the desk.
const SMALL: usize = 16;

const WIDE: usize = 64;

/// How a run ended.
#[derive(Clone, Copy, PartialEq, Eq)]
enum End {
    /// The disk failed before the command.
    Early,
    /// The desk was unavailable at the command and from there on, except for the day that it kept.
    Shut,
    /// The desk was unavailable at the command, even when it was sent again, and read another day
    /// from its cache.
    Cached,
    /// The desk was unavailable at the command, and made it when it was sent again.
    Delayed,
    /// The disk did not fail.
    Done,
}

/// The desk answers the request for the VRPs with these.
fn assert_payloads<S: Alter>(rt: &impl Abort, alloc: Global, desk: &mut Desk<S>, expected: &str) {
    assert_reply(rt, alloc, desk, PAYLOADS, expected, COUNT_WITH_CREATE);
}

/// Whether the desk is unavailable at the command; else it carries it out.
fn refuses_command<S: Alter>(rt: &impl Abort, alloc: Global, desk: &mut Desk<S>) -> bool {
    replies_with(rt, alloc, desk, AMEND, UNAVAILABLE, DONE, COUNT_WITH_CREATE)
}

/// The desk of a disk that failed answers the day that it keeps. Another day it reads from its
/// cache, or it keeps none.
fn end_of_failed<S: Alter>(rt: &impl Abort, alloc: Global, desk: &mut Desk<S>) -> End {
    let kept = Day::read(b"2026-03-01");
    let other = Day::read(b"2026-12-31").expect(rt, "a day");
    assert_payloads(rt, alloc, desk, BEFORE);
    assert!(rt; desk.kept() == kept);
    if desk.payloads(other).is_some() {
        assert!(rt; desk.kept() == Some(other));
        return End::Cached;
    }
    assert!(rt; desk.kept().is_none());
    assert_payloads(rt, alloc, desk, UNAVAILABLE);
    End::Shut
}

/// Sends the command to a desk that keeps a day, twice where it is unavailable at first.
fn end_of_command<S: Alter>(rt: &impl Abort, alloc: Global, desk: &mut Desk<S>) -> End {
    if !refuses_command(rt, alloc, desk) {
        assert_payloads(rt, alloc, desk, AFTER);
        return End::Done;
    }
    assert_payloads(rt, alloc, desk, BEFORE);
    if !refuses_command(rt, alloc, desk) {
        assert_payloads(rt, alloc, desk, AFTER);
        return End::Delayed;
    }
    end_of_failed(rt, alloc, desk)
}

/// Makes the desk keep a day, and sends the command to it.
fn end_on_kept_day<S: Alter>(rt: &impl Abort, alloc: Global, desk: &mut Desk<S>) -> End {
    if replies_with(
        rt,
        alloc,
        desk,
        PAYLOADS,
        UNAVAILABLE,
        BEFORE,
        COUNT_WITH_CREATE,
    ) {
        return End::Early;
    }
    assert_payloads(rt, alloc, desk, BEFORE);
    end_of_command(rt, alloc, desk)
}

/// The end of a run, where the log perhaps failed after the command.
fn end_with_log<D: FailingFile>(end: End, log: &D) -> End {
    if end == End::Done && log.has_failed() {
        return End::Early;
    }
    end
}

/// Keeps a day, and sends the command to a desk over a copy of these files, of which one fails.
fn run<D: FailingFile + Drop>(
    rt: &impl Abort,
    alloc: Global,
    before: &Files<D>,
    options: Options,
    fault: FileFault,
) -> End {
    let Some(mut desk) = open_copy(rt, alloc, before, fault, options) else {
        return End::Early;
    };
    let end = end_on_kept_day(rt, alloc, &mut desk);
    end_with_log(end, &stop(desk).log)
}

/// The log fails at each of its calls up to the end of the command, with this end in some run.
fn assert_answers_kept(
    rt: &impl Abort,
    alloc: Global,
    cache_pages: usize,
    failure: Failure,
    expected: End,
) {
    let mut options = Options::new(1);
    options.cache_pages = cache_pages;
    let before = files_after::<Failing<Memory>>(rt, alloc, options, COUNT_WITH_CREATE);
    let mut is_met = false;
    for calls in 0..MANY {
        let fault = FileFault::new(failure, true, calls);
        let end = run(rt, alloc, &before, options, fault);
        if end == End::Done {
            assert!(rt; is_met);
            return;
        }
        is_met = is_met || end == expected;
    }
    rt.panic("a run that does not end")
}

#[test]
fn kept_day_is_answered_after_a_stop(rt: HostRuntime) {
    assert_answers_kept(&rt, rt.alloc(), WIDE, Failure::Stop, End::Cached);
}

#[test]
fn kept_day_is_answered_after_a_refused_call(rt: HostRuntime) {
    assert_answers_kept(&rt, rt.alloc(), SMALL, Failure::Refusal, End::Delayed);
}

#[test]
fn kept_day_is_answered_after_a_refused_sync(rt: HostRuntime) {
    assert_answers_kept(&rt, rt.alloc(), SMALL, Failure::Refusal, End::Shut);
}
