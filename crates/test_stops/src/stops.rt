//! Desks over files that stop at each call of the disk.
use crate::example_requests::REQUEST_COUNT;
use crate::failing::{Failing, Failure};
use crate::sweep::{Course, Sweep, copying_options, desk_after, small_options};
use desk_files::{reopen, stop};
use sqlite_disk::Memory;
use sqlite_pager::Options;
use std::alloc::Global;
use std::ops::Range;
use std::process::Abort;

/// The desk stops at each call of these requests.
fn stop_at(rt: &impl Abort, alloc: Global, options: Options, requests: Range<usize>) {
    let mut sweep = Sweep::new(alloc, options, Course::Lines);
    sweep.fail_at::<Failing<Memory>>(rt, Failure::Stop, &requests);
}

#[test]
fn stop_at_the_first_while_the_log_grows(rt: HostRuntime) {
    stop_at(&rt, rt.alloc(), small_options(), 0..1);
}

#[test]
fn stop_at_the_next_three_while_the_log_grows(rt: HostRuntime) {
    stop_at(&rt, rt.alloc(), small_options(), 1..4);
}

#[test]
fn stop_at_the_last_four_while_the_log_grows(rt: HostRuntime) {
    stop_at(&rt, rt.alloc(), small_options(), 4..REQUEST_COUNT);
}

#[test]
fn stop_at_the_first_while_the_log_is_copied(rt: HostRuntime) {
    stop_at(&rt, rt.alloc(), copying_options(), 0..1);
}

#[test]
fn stop_at_the_next_two_while_the_log_is_copied(rt: HostRuntime) {
    stop_at(&rt, rt.alloc(), copying_options(), 1..3);
}

#[test]
fn stop_at_the_middle_two_while_the_log_is_copied(rt: HostRuntime) {
    stop_at(&rt, rt.alloc(), copying_options(), 3..5);
}

#[test]
fn stop_at_the_last_three_while_the_log_is_copied(rt: HostRuntime) {
    stop_at(&rt, rt.alloc(), copying_options(), 5..REQUEST_COUNT);
}

/// Files that were closed in order have all requests, even if the power fails after that.
#[test]
fn closed_files_have_all(rt: HostRuntime) {
    let desk = desk_after::<Failing<Memory>>(&rt, rt.alloc(), small_options(), REQUEST_COUNT);
    let Ok(again) = reopen(rt.alloc(), desk, small_options()) else {
        rt.panic("files that are refused")
    };
    let mut sweep = Sweep::new(rt.alloc(), small_options(), Course::Lines);
    sweep.open_both(&rt, &mut stop(again), REQUEST_COUNT);
}
