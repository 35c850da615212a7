//! Runs of lanes, each on its thread, over a broker in shards, each behind its lock.

ghost use Rattle.std.specs.Prelude.{◌≡◌, ◌<◌, ◌≤◌, []};
ghost use Rattle.wl_locked.specs.Blanks.{HaveParts, AreNamed};
ghost use Rattle.wl_locked.specs.declared.locked.TheConstants.{LANE_LIMIT};
ghost use Rattle.wl_locked.specs.declared.shards.TheConstants.{SHARD_LIMIT};

use crate::tests::same;
use std::alloc::{AllocError, Global};
use std::collections::VecDeque;
use std::marker::{Brand, Model, PhantomData};
use std::process::Abort;
use std::rt::Clock;
use std::sync::Wait;
use std::thread::Threads;
use wl_frames::Frame;
use wl_locked::{
    Blanks, CloseFault, History, LANE_LIMIT, SHARD_LIMIT, ShardLane, Sharded, Shards, Work,
};
use wl_workers::{Gate, Intake, Job, LaneEnd, LaneEndCause, Outlet, OutletFault, run_lanes};

/// Intake that gives a list of works, up to the first that is not dealt to `shards` shards. Contracts see that number alone.
#[derive(Drop)]
struct Script<J: Shards> {
    shards: u16,
    works: VecDeque<Work>,
    given: u32,
    of: PhantomData<J>,
}

impl<J: Shards> Model for Script<J> {
    ghost use Rattle.std.specs.Prelude.{◌≡◌, ℕ};

    ghost Value = { ℕ };

    ghost view = { λ s. s.shards };

    ghost invariant = { λ s. s.shards ≡ J.run.shards };
}

impl<J: Shards> Intake for Script<J> {
    ghost shards = { λ _. J.run.shards };

    fn next<R: Wait + Clock>(&mut self, _rt: &R) -> Option<Work> {
        let work = self.works.pop_front()?;
        if !work.is_dealt(self.shards) {
            return None;
        }
        self.given = self.given.wrapping_add(1);
        Some(work)
    }
}

/// Outlet that counts frames.
#[derive(Drop)]
pub struct Counter {
    pub frames: u32,
}

impl Outlet for Counter {
    fn put<R: Wait + Clock>(&mut self, _rt: &R, _frame: &Frame) -> Result<(), OutletFault> {
        self.frames = self.frames.wrapping_add(1);
        Ok(())
    }
}

/// Gate that every step passes.
#[derive(Drop)]
pub struct Open;

impl Gate for Open {
    fn pass<R: Wait + Clock>(&self, _rt: &R, _lane: u16) -> bool {
        true
    }

    fn answered<R: Wait + Clock>(&self, _rt: &R, _lane: u16) {}
}

/// Ends of the lanes, and the histories of the shards.
#[derive(Drop)]
pub struct Ran {
    pub ends: Vec<LaneEnd>,
    pub closed: Result<Vec<History>, (u16, CloseFault)>,
}

/// Lanes that are handed back at the close.
#[derive(Clone, Copy, PartialEq, Eq)]
pub enum Handed {
    All,
    /// The first lane alone.
    First,
}

/// Returns the job of a lane with these works.
fn job_of<J: Shards>(
    lane: ShardLane<J>,
    shards: u16,
    works: VecDeque<Work>,
) -> Job<J, Script<J>, Counter>
    requires { shards ≡ J.run.shards }
{
    Job {
        lane,
        intake: Script {
            shards,
            works,
            given: 0,
            of: PhantomData::<J>,
        },
        outlet: Counter { frames: 0 },
        end: None,
    }
}

/// Returns a job for each lane that has a list of works.
fn jobs_of<J: Shards>(
    alloc: Global,
    lanes: Vec<ShardLane<J>>,
    shards: u16,
    scripts: Vec<VecDeque<Work>>,
) -> Result<Vec<Job<J, Script<J>, Counter>>, AllocError>
    requires { shards ≡ J.run.shards }
{
    lanes
        .into_iter()
        .zip(scripts)
        .map(
            |(lane, works): (ShardLane<J>, VecDeque<Work>)|
                requires { shards ≡ J.run.shards }
            { job_of(lane, shards, works) },
        )
        .collect::<Vec<Job<J, Script<J>, Counter>>>(alloc)
}

/// Runs jobs, from one to the broker's limit of lanes.
fn run_jobs<J: Shards + Send + Sync, G: Gate + Sync, R: Threads + Wait + Clock + Abort + Sync>(
    rt: &R,
    broker: &Sharded<J>,
    jobs: &mut [Job<J, Script<J>, Counter>],
    gate: &G,
) {
    assert!(rt; !jobs.is_empty() && jobs.len() <= usize::from(LANE_LIMIT));
    run_lanes(rt, broker, jobs, gate);
}

/// Returns the end of a job that ran. A work is lost only if the lane is out of memory.
fn end_of<J: Shards, R: Abort>(
    rt: &R,
    job: &Job<J, Script<J>, Counter>,
) -> Result<LaneEnd, AllocError> {
    let end = job.end.expect(rt, "it was run");
    if end.why == LaneEndCause::Ended && end.steps < job.intake.given {
        return Err(AllocError);
    }
    Ok(end)
}

fn ends_of<J: Shards, R: Abort>(
    rt: &R,
    alloc: Global,
    jobs: &[Job<J, Script<J>, Counter>],
) -> Result<Vec<LaneEnd>, AllocError> {
    let mut ends = Vec::new(alloc);
    for job in jobs {
        ends.push(end_of(rt, job)?)?;
    }
    Ok(ends)
}

fn lanes_of<J: Shards>(
    alloc: Global,
    jobs: Vec<Job<J, Script<J>, Counter>>,
) -> Result<Vec<ShardLane<J>>, AllocError> {
    jobs.into_iter()
        .map(|job: Job<J, Script<J>, Counter>| job.lane)
        .collect::<Vec<ShardLane<J>>>(alloc)
}

/// Runs the lanes of a broker, each with a list of works, and returns their ends and the lanes.
fn run_scripts<J: Shards + Send + Sync, G: Gate + Sync, R: Threads + Wait + Clock + Abort + Sync>(
    rt: &R,
    alloc: Global,
    broker: &Sharded<J>,
    lanes: Vec<ShardLane<J>>,
    scripts: Vec<VecDeque<Work>>,
    gate: &G,
) -> Result<(Vec<LaneEnd>, Vec<ShardLane<J>>), AllocError> {
    let mut jobs = jobs_of(alloc, lanes, broker.shards(), scripts)?;
    run_jobs(rt, broker, jobs.as_mut_slice(), gate);
    let ends = ends_of(rt, alloc, jobs.as_slice())?;
    Ok((ends, lanes_of(alloc, jobs)?))
}

/// Closes a broker with the lanes that are handed back.
fn close<J: Shards>(
    broker: Sharded<J>,
    mut lanes: Vec<ShardLane<J>>,
    handed: Handed,
) -> Result<Vec<History>, (u16, CloseFault)> {
    if handed == Handed::First {
        lanes.truncate(1);
    }
    broker.close(lanes)
}

/// Runs the lanes of a broker, each with a list of works, and closes the broker.
fn run_and_close<J: Shards + Send + Sync, G: Gate + Sync, R: Threads + Wait + Clock + Abort + Sync>(
    rt: &R,
    alloc: Global,
    broker: Sharded<J>,
    lanes: Vec<ShardLane<J>>,
    scripts: Vec<VecDeque<Work>>,
    gate: &G,
    handed: Handed,
) -> Result<Ran, AllocError> {
    match run_scripts(rt, alloc, &broker, lanes, scripts, gate) {
        Ok((ends, lanes)) => Ok(Ran {
            ends,
            closed: close(broker, lanes, handed),
        }),
        Err(refused) => {
            drop(broker);
            Err(refused)
        }
    }
}

/// Runs a lane for each list of works over a broker without tabs.
fn run_named<J: Shards + Send + Sync, G: Gate + Sync, R: Threads + Wait + Clock + Abort + Sync>(
    rt: &R,
    alloc: Global,
    blanks: Blanks,
    lanes: u16,
    shards: u16,
    limit: u32,
    scripts: Vec<VecDeque<Work>>,
    gate: &G,
    handed: Handed,
) -> Result<Ran, AllocError>
    requires names { AreNamed J.names blanks }
    requires parts { HaveParts lanes blanks }
    requires lanes { (0 < lanes) × (lanes ≤ LANE_LIMIT) }
    requires shards { (0 < shards) × (shards ≤ SHARD_LIMIT) }
    requires run { J.run
        ≡ record { generation = 1; listed = []; shards = shards; lanes = lanes; limit = limit } }
{
    let (broker, lanes, _hellos) = Sharded::<J>::new(alloc, blanks, 1, &[], limit, lanes, shards)?;
    run_and_close(rt, alloc, broker, lanes, scripts, gate, handed)
}

/// Runs a lane for each list of works, up to 16.
pub fn run_over<G: Gate + Sync, R: Threads + Wait + Clock + Abort + Sync>(
    rt: &R,
    alloc: Global,
    shards: u16,
    limit: u32,
    scripts: Vec<VecDeque<Work>>,
    gate: &G,
    handed: Handed,
) -> Result<Ran, AllocError> {
    let lanes = u16::try_from(scripts.len()).expect(rt, "few lanes");
    assert!(rt; 0 < lanes && lanes <= LANE_LIMIT);
    assert!(rt; 0 < shards && shards <= SHARD_LIMIT);
    let blanks = Blanks::new(u64::from(lanes));
    run_named::<Brand, G, R>(
        rt, alloc, blanks, lanes, shards, limit, scripts, gate, handed,
    )
}

pub fn ended(steps: u32) -> LaneEnd {
    LaneEnd {
        steps,
        why: LaneEndCause::Ended,
    }
}

/// Compares the ends of two lanes.
pub fn end_so(rt: &impl Abort, ends: &[LaneEnd], first: LaneEnd, second: LaneEnd) {
    same(rt, ends.len(), 2);
    same(rt, ends.first().copied(), Some(first));
    same(rt, ends.last().copied(), Some(second));
}
