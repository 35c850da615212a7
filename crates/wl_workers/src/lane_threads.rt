//! Runs each lane on a thread of its own.

ghost use Rattle.std.specs.Prelude.{◌≡◌, ◌<◌, ◌≤◌, length};
ghost use Rattle.wl_locked.specs.declared.locked.TheConstants.{LANE_LIMIT};
ghost use Rattle.wl_workers.specs.Jobs.{DealTo, RunsJob, RunsJobs};

use crate::lanes::{Desk, Gate, Intake, LaneEnd, Outlet, lane};
use std::rt::Clock;
use std::sync::Wait;
use std::thread;
use std::thread::Threads;
use wl_locked::{NotStepped, Receipt, ShardLane, Sharded, Shards, Work};

/// A lane with its intake, its outlet and its result.
#[derive(Drop)]
pub struct Job<J: Shards, I, O> {
    pub lane: ShardLane<J>,
    pub intake: I,
    pub outlet: O,
    /// How the lane ended; `None` until it has run.
    pub end: Option<LaneEnd>,
}

/// A lane's desk over a sharded broker.
#[derive(Drop)]
struct LaneDesk<'a, J: Shards> {
    broker: &'a Sharded<J>,
    lane: &'a mut ShardLane<J>,
}

impl<'a, J: Shards> Desk for LaneDesk<'a, J> {
    ghost use Rattle.std.specs.Prelude.{Some};
    ghost use Rattle.wl_locked.specs.Sharding.{receipts_of};

    ghost kept = { λ d shard. Some (receipts_of shard d.lane.now) };

    ghost borrowed = { λ d. d.lane.ghost_name };

    ghost shards = { λ _. J.run.shards };

    fn take_one<R: Wait + Clock>(&mut self, rt: &R, work: Work) -> Result<Receipt, NotStepped> {
        self.broker.take(rt, self.lane, work)
    }
}

/// Runs each job's lane to its end, on a thread of its own, and allocates nothing.
///
/// When a lane ends, its end is passed to the job's intake and stored in the job.
pub fn run_lanes<
    J: Shards + Send + Sync,
    I: Intake + Send,
    O: Outlet + Send,
    G: Gate + Sync,
    R: Threads + Wait + Clock + Sync,
>(rt: &R, broker: &Sharded<J>, jobs: &mut [Job<J, I, O>], gate: &G)
    requires count { (0 < length jobs.old) × (length jobs.old ≤ LANE_LIMIT) }
    requires shards { DealTo I.shards J.run.shards jobs.old }
    // Each lane holds the receipts of the works its intake gave, and its outlet was given their
    // frames.
    ensures { RunsJobs I.given O.put_out jobs.old jobs.new }
{
    let threads = jobs.len();
    thread::for_each_mut(
        rt,
        jobs,
        threads,
        &|number: usize, job: &mut Job<J, I, O>|
            requires number { number < LANE_LIMIT }
            requires shards { I.shards job.old.intake ≡ J.run.shards }
            ensures { RunsJob I.given O.put_out job.old job.new }
        { run(rt, number as u16, broker, job, gate) },
    );
}

/// Runs one job's lane and records how it ended.
fn run<J: Shards, I: Intake, O: Outlet, G: Gate, R: Wait + Clock>(
    rt: &R,
    number: u16,
    broker: &Sharded<J>,
    job: &mut Job<J, I, O>,
    gate: &G,
)
    requires { I.shards job.old.intake ≡ J.run.shards }
    ensures { RunsJob I.given O.put_out job.old job.new }
{
    let mut desk = LaneDesk {
        broker,
        lane: &mut job.lane,
    };
    let end = lane(
        rt,
        number,
        &mut job.intake,
        &mut desk,
        gate,
        &mut job.outlet,
    );
    job.intake.end(rt, end);
    job.end = Some(end);
}
