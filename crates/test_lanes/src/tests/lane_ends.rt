//! Ends of a lane, caused by its intake, its desk, its gate or its outlet.

use super::events::{answer, reply};
use super::runs::{Counter, Open};
use crate::tests::same;
use std::alloc::{AllocError, Global};
use std::collections::VecDeque;
use std::process::Abort;
use std::rt::Clock;
use std::sync::Wait;
use test_support::retry::BACK;
use wl_frames::{Frame, Outcome};
use wl_locked::{BookEvent, NotStepped, Receipt, Reply, SharedEvent, Work};
use wl_workers::{Desk, Gate, Intake, LaneEndCause, Outlet, OutletFault, lane};

/// Intake that gives deaths without end.
#[derive(Drop)]
struct Endless {
    given: u32,
}

impl Intake for Endless {
    ghost shards = { λ _. 1 };

    fn next<R: Wait + Clock>(&mut self, _rt: &R) -> Option<Work> {
        self.given = self.given.wrapping_add(1);
        Some(Work {
            shard: 0,
            event: BookEvent::Dead(1),
        })
    }
}

/// Desk that gives a list of answers, and then is out of memory.
#[derive(Drop)]
struct Answers {
    left: VecDeque<Result<Receipt, NotStepped>>,
}

impl Desk for Answers {
    ghost shards = { λ _. 1 };

    fn take_one<R: Wait + Clock>(&mut self, _rt: &R, _work: Work) -> Result<Receipt, NotStepped> {
        self.left.pop_front().unwrap_or(Err(NotStepped::Memory))
    }
}

/// Gate that no step passes.
#[derive(Drop)]
struct Shut;

impl Gate for Shut {
    fn pass<R: Wait + Clock>(&self, _rt: &R, _lane: u16) -> bool {
        false
    }

    fn answered<R: Wait + Clock>(&self, _rt: &R, _lane: u16) {}
}

/// Outlet that refuses each frame.
#[derive(Drop)]
struct Refusing;

impl Outlet for Refusing {
    fn put<R: Wait + Clock>(&mut self, _rt: &R, _frame: &Frame) -> Result<(), OutletFault> {
        Err(OutletFault::Write)
    }
}

/// Adds an answer.
fn add(desk: &mut Answers, answer: Result<Receipt, NotStepped>) -> Result<(), AllocError> {
    desk.left.push_back(answer)?;
    Ok(())
}

/// Returns the receipt of tab 1's death, with this reply.
fn receipt(alloc: Global, reply: Reply) -> Result<Receipt, AllocError> {
    Ok(Receipt {
        place: 0,
        event: SharedEvent::new(alloc, BookEvent::Dead(1))?,
        reply,
    })
}

/// Returns a desk that is out of memory once, and then grants tab 1 a lock.
fn lost_and_granted(alloc: Global) -> Result<Answers, AllocError> {
    let mut desk = Answers {
        left: VecDeque::new(alloc),
    };
    add(&mut desk, Err(NotStepped::Memory))?;
    let granted = answer(1, 1, 0, Outcome::Granted);
    let reply = reply(alloc, Some(granted), None)?;
    add(&mut desk, Ok(receipt(alloc, reply)?))?;
    Ok(desk)
}

/// Runs a lane with endless works, and compares its steps, the cause of its end, and the count of its works.
fn ends<G: Gate, O: Outlet, R: Wait + Clock + Abort>(
    rt: &R,
    mut desk: Answers,
    gate: &G,
    outlet: &mut O,
    want: (u32, LaneEndCause, u32),
) {
    let mut endless = Endless { given: 0 };
    let end = lane(rt, 0, &mut endless, &mut desk, gate, outlet);
    same(rt, (end.steps, end.why, endless.given), want);
}

/// Returns the same desk, which then tells that the generation is spent.
fn then_spent(alloc: Global) -> Result<Answers, AllocError> {
    let mut desk = lost_and_granted(alloc)?;
    add(&mut desk, Err(NotStepped::GenerationSpent))?;
    Ok(desk)
}

fn end_lanes<R: Wait + Clock + Abort>(rt: &R, alloc: Global) -> Result<(), AllocError> {
    let shut = (1, LaneEndCause::Shut, 2);
    ends(rt, lost_and_granted(alloc)?, &Shut, &mut Refusing, shut);
    let refused = (1, LaneEndCause::Outlet, 2);
    ends(rt, lost_and_granted(alloc)?, &Open, &mut Refusing, refused);
    let mut outlet = Counter { frames: 0 };
    let spent = (1, LaneEndCause::Spent, 3);
    ends(rt, then_spent(alloc)?, &Open, &mut outlet, spent);
    same(rt, outlet.frames, 1);
    let all_seen = (1, LaneEndCause::Spent, 1_000_000);
    ends(rt, lost_and_granted(alloc)?, &Open, &mut outlet, all_seen);
    Ok(())
}

#[test]
fn ends_of_a_lane(rt: HostRuntime) {
    let alloc = rt.alloc();
    if end_lanes(&rt, alloc).is_err() {
        end_lanes(&rt, alloc).expect(&rt, BACK);
    }
}
