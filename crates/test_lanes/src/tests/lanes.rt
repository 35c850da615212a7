//! Two lanes on threads over one shard. A run that is refused memory ends early, and is made again.

use super::events::{Events, add, command, dealt, report, request};
use super::runs::{Handed, Open, end_so, ended, run_over};
use crate::tests::same;
use std::alloc::{AllocError, Global};
use std::collections::VecDeque;
use std::process::Abort;
use std::rt::Clock;
use std::sync::Wait;
use std::thread::Threads;
use test_support::retry::BACK;
use wl_frames::Operation;
use wl_locked::{CloseFault, History, Work};

/// Returns a tab's report, and `times` requests of a lock, each with its release.
fn events_of(alloc: Global, tab: u16, times: u32) -> Result<Events, AllocError> {
    let mut events = VecDeque::new(alloc);
    add(&mut events, report(alloc, 1, tab))?;
    for time in 0..times {
        let number = time.wrapping_mul(2);
        let asked = request(alloc)?;
        add(&mut events, command(1, tab, number, asked))?;
        let done = Operation::Release { number };
        add(&mut events, command(1, tab, number.wrapping_add(1), done))?;
    }
    Ok(events)
}

/// Returns the work of two tabs over one shard. Each tab takes the lock `times` times.
fn handing_over(alloc: Global, times: u32) -> Result<Vec<VecDeque<Work>>, AllocError> {
    let mut scripts = Vec::new(alloc);
    scripts.push(dealt(alloc, 1, events_of(alloc, 1, times)?)?)?;
    scripts.push(dealt(alloc, 1, events_of(alloc, 2, times)?)?)?;
    Ok(scripts)
}

fn run_two<R: Threads + Wait + Clock + Abort + Sync>(
    rt: &R,
    alloc: Global,
) -> Result<(), AllocError> {
    let scripts = handing_over(alloc, 50)?;
    let ran = run_over(rt, alloc, 1, 202, scripts, &Open, Handed::All)?;
    end_so(rt, ran.ends.as_slice(), ended(101), ended(101));
    let histories = ran.closed.expect(rt, "the steps of all lanes");
    same(rt, count_steps(histories.as_slice()), (1, 202));
    Ok(())
}

#[test]
fn two_lanes_on_one_lock(rt: HostRuntime) {
    let alloc = rt.alloc();
    if run_two(&rt, alloc).is_err() {
        run_two(&rt, alloc).expect(&rt, BACK);
    }
}

/// Closes a broker without one of its lanes.
fn leave_out<R: Threads + Wait + Clock + Abort + Sync>(
    rt: &R,
    alloc: Global,
) -> Result<(), AllocError> {
    let scripts = handing_over(alloc, 0)?;
    let ran = run_over(rt, alloc, 1, 9, scripts, &Open, Handed::First)?;
    end_so(rt, ran.ends.as_slice(), ended(1), ended(1));
    same(rt, ran.closed.err(), Some((0, CloseFault::WrongCount)));
    Ok(())
}

#[test]
fn a_lane_left_out(rt: HostRuntime) {
    let alloc = rt.alloc();
    if leave_out(&rt, alloc).is_err() {
        leave_out(&rt, alloc).expect(&rt, BACK);
    }
}

/// Returns how many histories there are, and how many steps they have.
fn count_steps(histories: &[History]) -> (usize, usize) {
    let mut steps = 0usize;
    for history in histories {
        steps = steps.saturating_add(history.steps().len());
    }
    (histories.len(), steps)
}
