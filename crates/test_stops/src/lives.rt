//! Desks over files whose disk crashes between lists of requests.
use crate::example_requests::{
    COUNT_BEFORE_CREATE, REQUEST_COUNT, asked_requests, count_found, first_replies, text_of,
};
use crate::failing::{Failing, FailingFile};
use crate::sweep::{small_options, sound_desk};
use desk::Asked;
use desk_files::{Lived, live};
use sqlite::{Alter, FileStore};
use sqlite_disk::Memory;
use std::alloc::Global;
use std::process::Abort;

/// The desk answered all requests in its lives as those that are sent for the first time, and has
/// them.
fn assert_lived<S: Alter>(rt: &impl Abort, alloc: Global, lived: &mut Lived<S>) {
    let text = text_of(rt, alloc, &lived.replies);
    let expected = first_replies(rt, alloc);
    assert_eq!(rt; text.as_str(), expected.as_str());
    assert!(rt; count_found(rt, alloc, &mut lived.desk) == REQUEST_COUNT);
}

/// A desk after a life for each of these lists.
fn desk_after<D: FailingFile + Drop>(
    rt: &impl Abort,
    alloc: Global,
    lists: &[&[Asked]],
) -> Lived<FileStore<D>> {
    let desk = sound_desk(rt, alloc, small_options());
    match live(alloc, desk, lists) {
        Ok(lived) => lived,
        Err(_) => rt.panic("a desk that is refused"),
    }
}

/// A desk has a life for each of these lists, which together have all requests.
fn live_each<D: FailingFile + Drop>(rt: &impl Abort, alloc: Global, lists: &[&[Asked]]) {
    let mut lived = desk_after::<D>(rt, alloc, lists);
    assert_lived(rt, alloc, &mut lived);
}

/// A desk has what it answered before each crash.
#[test]
fn each_life_goes_on_with_the_one_before(rt: HostRuntime) {
    let asked = asked_requests(&rt, rt.alloc());
    let before = asked.get(..COUNT_BEFORE_CREATE).expect(&rt, "requests");
    let after = asked.get(COUNT_BEFORE_CREATE..).expect(&rt, "requests");
    let lists = [before, &[], after];
    live_each::<Failing<Memory>>(&rt, rt.alloc(), &lists);
}
