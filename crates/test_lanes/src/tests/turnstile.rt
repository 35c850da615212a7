//! Two lanes that run at the same time, since each waits for the other.

ghost use Rattle.std.specs.Prelude.{◌<◌};

use super::events::{add, dealt, report};
use super::runs::{Handed, end_so, ended, run_over};
use crate::tests::same;
use std::alloc::{AllocError, Global};
use std::collections::VecDeque;
use std::process::Abort;
use std::rt::Clock;
use std::sync::{Mutex, Wait};
use std::thread;
use std::thread::Threads;
use std::time::Duration;
use test_support::retry::BACK;
use wl_locked::Work;
use wl_workers::Gate;

/// Count of milliseconds that a lane waits at the gate.
pub(super) const TURNS: u32 = 10_000;

/// Counts of a lane's calls of `pass` and of `answered`.
#[derive(Clone, Copy)]
struct Calls {
    stood: u32,
    answered: u32,
}

/// Calls of two lanes at a gate.
#[derive(Drop)]
pub(super) struct Seen {
    lanes: [Calls; 2],
    /// Whether a lane's calls of `pass` and `answered` did not alternate.
    is_out_of_order: bool,
    /// Whether a lane waited too long. A lane without memory for its thread runs after the other.
    pub(super) has_given_up: bool,
}

impl Seen {
    fn new() -> Seen {
        let none = Calls {
            stood: 0,
            answered: 0,
        };
        Seen {
            lanes: [none, none],
            is_out_of_order: false,
            has_given_up: false,
        }
    }

    fn stand(&mut self, lane: u16) {
        match self.lanes.get_mut(usize::from(lane)) {
            Some(calls) if calls.stood == calls.answered => {
                calls.stood = calls.stood.wrapping_add(1);
            }
            _ => self.is_out_of_order = true,
        }
    }

    /// Holds lane 0 until lane 1 comes for the second time, and lane 1 until lane 0 is answered.
    fn lets_pass(&self, lane: u16) -> bool {
        let [first, second] = self.lanes;
        match lane {
            0 => second.stood >= 2,
            _ => second.stood < 2 || first.answered >= 1,
        }
    }

    fn answer(&mut self, lane: u16) {
        match self.lanes.get_mut(usize::from(lane)) {
            Some(calls) if calls.stood == calls.answered.wrapping_add(1) => {
                calls.answered = calls.stood;
            }
            _ => self.is_out_of_order = true,
        }
    }
}

/// Gate that two lanes pass only if they run at the same time.
#[derive(Drop)]
pub(super) struct Turnstile {
    seen: Mutex<Seen>,
}

impl Turnstile {
    pub(super) fn new() -> Turnstile {
        Turnstile {
            seen: Mutex::new(Seen::new()),
        }
    }

    pub(super) fn into_seen(self) -> Seen {
        self.seen.into_inner()
    }

    /// Returns whether a lane passes, or None if it has to wait.
    fn verdict<R: Wait>(&self, rt: &R, lane: u16) -> Option<bool> {
        let seen = self.seen.lock(rt);
        if seen.has_given_up {
            Some(false)
        } else if seen.lets_pass(lane) {
            Some(true)
        } else {
            None
        }
    }
}

impl Gate for Turnstile {
    fn pass<R: Wait + Clock>(&self, rt: &R, lane: u16) -> bool {
        self.seen.lock(rt).stand(lane);
        for _turn in 0..TURNS {
            if let Some(passes) = self.verdict(rt, lane) {
                return passes;
            }
            thread::sleep(rt, Duration::from_millis(1));
        }
        self.seen.lock(rt).has_given_up = true;
        false
    }

    fn answered<R: Wait + Clock>(&self, rt: &R, lane: u16) {
        self.seen.lock(rt).answer(lane);
    }
}

/// Returns the works of two lanes: one report for lane 0, and two for lane 1. Each tab is alone in its partition.
fn once_and_twice(alloc: Global, shards: u16) -> Result<Vec<VecDeque<Work>>, AllocError>
    requires { 0 < shards }
{
    let mut scripts = Vec::new(alloc);
    for tab in 1..=2u16 {
        let mut events = VecDeque::new(alloc);
        for _time in 0..tab {
            add(&mut events, report(alloc, tab, tab))?;
        }
        scripts.push(dealt(alloc, shards, events)?)?;
    }
    Ok(scripts)
}

/// Asserts that lane 0 came once and lane 1 twice, and that each call was answered.
pub(super) fn were_in_order(rt: &impl Abort, seen: &Seen) {
    assert!(rt; !seen.is_out_of_order);
    let [first, second] = seen.lanes;
    same(rt, (first.stood, first.answered), (1, 1));
    same(rt, (second.stood, second.answered), (2, 2));
}

/// Runs two lanes that wait for each other. Fails if one of them had no memory for its thread.
fn run_gated<R: Threads + Wait + Clock + Abort + Sync>(
    rt: &R,
    alloc: Global,
    shards: u16,
) -> Result<(), AllocError>
    requires { 0 < shards }
{
    let scripts = once_and_twice(alloc, shards)?;
    let gate = Turnstile::new();
    let ran = run_over(rt, alloc, shards, 3, scripts, &gate, Handed::All)?;
    let seen = gate.into_seen();
    if seen.has_given_up {
        return Err(AllocError);
    }
    end_so(rt, ran.ends.as_slice(), ended(1), ended(2));
    assert!(rt; ran.closed.is_ok());
    were_in_order(rt, &seen);
    Ok(())
}

/// Runs them again if memory is refused.
fn runs_gated<R: Threads + Wait + Clock + Abort + Sync>(rt: &R, alloc: Global, shards: u16)
    requires { 0 < shards }
{
    if run_gated(rt, alloc, shards).is_err() {
        run_gated(rt, alloc, shards).expect(rt, BACK);
    }
}

/// The lanes run at the same time over one shard and over two.
#[test]
fn two_lanes_at_the_same_time(rt: HostRuntime) {
    runs_gated(&rt, rt.alloc(), 1);
    runs_gated(&rt, rt.alloc(), 2);
}
