//! A broker's process with two lanes over one shard. Frames leave in the order of the places of their steps, also if the lanes are
//! through with them in another order, and a lane that ends leaves no other one waiting.

use super::events::{command, report};
use super::process_lanes::{append_event, link_with, start};
use super::turnstile::TURNS;
use crate::tests::same;
use std::alloc::{AllocError, Global};
use std::net::{Net, Shutdown};
use std::os::unix::net::UnixStream;
use std::process::Abort;
use std::rt::Clock;
use std::sync::{Mutex, Wait};
use std::thread;
use std::thread::Threads;
use std::time::Duration;
use test_support::retry::BACK;
use wl_frames::device::READ_LIMIT;
use wl_frames::{Downward, Frame, Mode, Name, Operation, Outcome};
use wl_process::Incoming;
use wl_process_broker::run_generation;
use wl_workers::Gate;

/// Count of the broker's lanes. Tab 2 belongs to lane 0, and tabs 1 and 3 to lane 1.
const LANES: u16 = 2;

/// Counts of the calls of `pass`.
#[derive(Clone, Copy, PartialEq, Eq, Debug)]
struct Stood {
    first: u32,
    second: u32,
}

/// Calls of two lanes at a gate.
#[derive(Clone, Copy)]
struct Seen {
    stood: Stood,
    /// Whether lane 0 waited too long.
    has_given_up: bool,
}

/// Gate that holds lane 0 at one of its steps until lane 1 has come for one of its own. Lane 1 has finished all of its steps before
/// that one then.
#[derive(Drop)]
struct LateLane {
    held: Stood,
    /// Whether lane 0 passes then, or has to end.
    passes: bool,
    seen: Mutex<Seen>,
}

impl LateLane {
    fn new(held: Stood, passes: bool) -> LateLane {
        LateLane {
            held,
            passes,
            seen: Mutex::new(Seen {
                stood: Stood {
                    first: 0,
                    second: 0,
                },
                has_given_up: false,
            }),
        }
    }

    /// Counts a call, and returns whether the lane is held.
    fn holds<R: Wait>(&self, rt: &R, lane: u16) -> bool {
        let mut seen = self.seen.lock(rt);
        if lane != 0 {
            seen.stood.second = seen.stood.second.wrapping_add(1);
            return false;
        }
        seen.stood.first = seen.stood.first.wrapping_add(1);
        seen.stood.first == self.held.first
    }

    fn has_come<R: Wait>(&self, rt: &R) -> bool {
        self.seen.lock(rt).stood.second >= self.held.second
    }
}

impl Gate for LateLane {
    fn pass<R: Wait + Clock>(&self, rt: &R, lane: u16) -> bool {
        if !self.holds(rt, lane) {
            return true;
        }
        for _turn in 0..TURNS {
            if self.has_come(rt) {
                return self.passes;
            }
            thread::sleep(rt, Duration::from_millis(1));
        }
        self.seen.lock(rt).has_given_up = true;
        false
    }

    fn answered<R: Wait + Clock>(&self, _rt: &R, _lane: u16) {}
}

/// Appends a tab's request for an exclusive lock. All tabs share a partition.
fn append_request(
    bytes: &mut Vec<u8>,
    alloc: Global,
    tab: u16,
    number: u32,
    name: &str,
) -> Result<(), AllocError> {
    let operation = Operation::Request {
        mode: Mode::Exclusive,
        if_available: false,
        name: Name::new(String::from_str(alloc, name)?),
    };
    append_event(bytes, command(1, tab, number, operation))
}

/// Appends a tab's release of the lock of its request 0.
fn append_release(bytes: &mut Vec<u8>, tab: u16) -> Result<(), AllocError> {
    append_event(bytes, command(1, tab, 1, Operation::Release { number: 0 }))
}

/// Returns the bytes of a conversation. Tab 3 waits for lock `a` of tab 2 and for lock `b` of tab 1, which release them in this
/// order. Between the releases and behind them tab 1 reports again, which the broker drops.
fn two_releases(alloc: Global) -> Result<Vec<u8>, AllocError> {
    let mut bytes = start(alloc)?;
    for tab in [2u16, 1, 3] {
        append_event(&mut bytes, report(alloc, 1, tab))?;
    }
    append_request(&mut bytes, alloc, 2, 0, "a")?;
    append_request(&mut bytes, alloc, 1, 0, "b")?;
    append_request(&mut bytes, alloc, 3, 0, "a")?;
    append_request(&mut bytes, alloc, 3, 1, "b")?;
    append_release(&mut bytes, 2)?;
    append_event(&mut bytes, report(alloc, 1, 1))?;
    append_release(&mut bytes, 1)?;
    append_event(&mut bytes, report(alloc, 1, 1))?;
    Ok(bytes)
}

/// Returns the bytes of two reports of tab 2, and of one of tab 1.
fn three_reports(alloc: Global) -> Result<Vec<u8>, AllocError> {
    let mut bytes = start(alloc)?;
    for tab in [2u16, 2, 1] {
        append_event(&mut bytes, report(alloc, 1, tab))?;
    }
    Ok(bytes)
}

/// Adds the number and the outcome of an answer to tab 3.
fn add_answer(answers: &mut Vec<(u32, Outcome)>, frame: &Frame) -> Result<(), AllocError> {
    if let Frame::Addressed(addressed) = frame {
        if let Downward::Answer(answer) = &addressed.inner {
            if addressed.tab == 3 {
                answers.push((answer.number, answer.outcome))?;
            }
        }
    }
    Ok(())
}

/// Reads the frames of a broker that has ended, and returns the answers to tab 3.
fn answers_over(alloc: Global, kernel: &UnixStream) -> Result<Vec<(u32, Outcome)>, AllocError> {
    let mut incoming = Incoming::new(alloc, kernel);
    let mut answers = Vec::new(alloc);
    for _reads in 0..READ_LIMIT {
        match incoming.next() {
            Ok(Some(frames)) => {
                for frame in frames {
                    add_answer(&mut answers, &frame)?;
                }
            }
            Ok(None) => return Ok(answers),
            Err(_) => return Err(AllocError),
        }
    }
    Err(AllocError)
}

/// Runs a broker over one shard and this conversation. Returns the answers to tab 3. Fails if a lane has not come for all of its
/// steps, since a work is lost if memory is refused.
fn run_late<R: Threads + Wait + Clock + Net + Abort + Sync>(
    rt: &R,
    alloc: Global,
    bytes: &[u8],
    gate: LateLane,
    wanted: Stood,
) -> Result<Vec<(u32, Outcome)>, AllocError> {
    let (link, kernel) = link_with(rt, bytes).expect(rt, "a link");
    kernel.shutdown(Shutdown::Write).expect(rt, "an end");
    let served = run_generation(rt, alloc, &link, LANES, 1, 100, &gate);
    let seen = gate.seen.into_inner();
    if served.is_err() || seen.has_given_up || seen.stood != wanted {
        return Err(AllocError);
    }
    answers_over(alloc, &kernel)
}

/// Plays the two releases. Lane 0 is late with the first one.
fn release_late<R: Threads + Wait + Clock + Net + Abort + Sync>(
    rt: &R,
    alloc: Global,
    passes: bool,
) -> Result<Vec<(u32, Outcome)>, AllocError> {
    let bytes = two_releases(alloc)?;
    let all = Stood {
        first: 3,
        second: 8,
    };
    run_late(rt, alloc, bytes.as_slice(), LateLane::new(all, passes), all)
}

fn released<R: Threads + Wait + Clock + Net + Abort + Sync>(
    rt: &R,
    alloc: Global,
    passes: bool,
) -> Vec<(u32, Outcome)> {
    match release_late(rt, alloc, passes) {
        Ok(answers) => answers,
        Err(_) => release_late(rt, alloc, passes).expect(rt, BACK),
    }
}

/// The grants of both releases come in the order of their steps, although lane 0 finishes the first one last, and although a step
/// without frames stands between them.
#[test]
fn grants_in_the_order_of_places(rt: HostRuntime) {
    let answers = released(&rt, rt.alloc(), true);
    let wanted = [
        (0, Outcome::Waiting),
        (1, Outcome::Waiting),
        (0, Outcome::Granted),
        (1, Outcome::Granted),
    ];
    assert!(&rt; answers.as_slice() == wanted.as_slice());
}

/// Lane 0 ends with the first release. Its grant is not sent, and the later one is.
#[test]
fn a_lane_that_ends_keeps_no_frames_back(rt: HostRuntime) {
    let answers = released(&rt, rt.alloc(), false);
    let wanted = [
        (0, Outcome::Waiting),
        (1, Outcome::Waiting),
        (1, Outcome::Granted),
    ];
    assert!(&rt; answers.as_slice() == wanted.as_slice());
}

fn end_early<R: Threads + Wait + Clock + Net + Abort + Sync>(
    rt: &R,
    alloc: Global,
) -> Result<(), AllocError> {
    let bytes = three_reports(alloc)?;
    let once = Stood {
        first: 1,
        second: 0,
    };
    let answers = run_late(
        rt,
        alloc,
        bytes.as_slice(),
        LateLane::new(once, false),
        once,
    )?;
    same(rt, answers.len(), 0);
    Ok(())
}

/// Lane 0 ends with its first step, and has another work. Lane 1 waits for that work's step before its own, and ends without one.
#[test]
fn a_lane_that_ends_leaves_no_lane_waiting(rt: HostRuntime) {
    if end_early(&rt, rt.alloc()).is_err() {
        end_early(&rt, rt.alloc()).expect(&rt, BACK);
    }
}
