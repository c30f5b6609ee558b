//! Desks over files that refuse one call of the disk.
use crate::example_requests::REQUEST_COUNT;
use crate::failing::{Failing, Failure};
use crate::sweep::{Course, Sweep, small_options};
use sqlite_disk::Memory;
use std::alloc::Global;
use std::ops::Range;
use std::process::Abort;

/// Each of these requests was refused and answered when it was sent again in some run, and in
/// another the desk was unavailable from there on.
fn refuse_calls_of(rt: &impl Abort, alloc: Global, requests: Range<usize>) {
    let mut sweep = Sweep::new(alloc, small_options(), Course::Lines);
    sweep.fail_at::<Failing<Memory>>(rt, Failure::Refusal, &requests);
    for request in requests {
        assert!(rt; sweep.delayed.contains(&request), "{request} delayed");
    }
}

#[test]
fn refused_call_of_the_first_while_the_log_grows(rt: HostRuntime) {
    refuse_calls_of(&rt, rt.alloc(), 0..1);
}

#[test]
fn refused_call_of_the_next_three_while_the_log_grows(rt: HostRuntime) {
    refuse_calls_of(&rt, rt.alloc(), 1..4);
}

#[test]
fn refused_call_of_the_last_four_while_the_log_grows(rt: HostRuntime) {
    refuse_calls_of(&rt, rt.alloc(), 4..REQUEST_COUNT);
}
