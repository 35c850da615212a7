//! Lanes that step a sharded broker, each on a thread of its own.

ghost use Rattle.std.specs.Prelude.{◌≡◌, ◌<◌, ◌≤◌, []};
ghost use Rattle.wl_locked.specs.Blanks.{HaveParts, AreNamed};
ghost use Rattle.wl_locked.specs.declared.locked.TheConstants.{LANE_LIMIT};
ghost use Rattle.wl_locked.specs.declared.shards.TheConstants.{SHARD_LIMIT};

use crate::brokers::Outcome;
use crate::brokers::events::{Events, of_tab};
use std::alloc::{AllocError, AllocFailed, Global};
use std::io;
use std::marker::{Brand, Model, PhantomData};
use std::sync::Wait;
use std::thread::Threads;
use std::time::{Clock, Instant};
use wl_grammar::Frame;
use wl_locked::{Blanks, History, LANE_LIMIT, ShardLane, Sharded, Shards, Work, shard_of};
use wl_workers::{Gate, Intake, Job, Outlet, OutletFault, run_lanes};

/// An intake that reads from a list of events for one shard. Its value in contracts is the number
/// of shards.
#[derive(Drop)]
struct Listed<J: Shards> {
    shards: u16,
    shard: u16,
    events: Events,
    of: PhantomData<J>,
}

impl<J: Shards> Model for Listed<J> {
    ghost use Rattle.std.specs.Prelude.{◌≡◌, ℕ};

    ghost Value = { ℕ };

    ghost view = { λ i. i.shards };

    ghost invariant = { λ i. i.shards ≡ J.run.shards };
}

impl<J: Shards> Intake for Listed<J> {
    ghost shards = { λ _. J.run.shards };

    fn next<R: Wait + Clock>(&mut self, _rt: &R) -> Option<Work> {
        let event = self.events.pop_front()?;
        let work = Work {
            shard: self.shard,
            event,
        };
        if work.is_dealt(self.shards) {
            return Some(work);
        }
        drop(work);
        None
    }
}

/// A gate that lets every step pass.
#[derive(Drop)]
struct Open;

impl Gate for Open {
    fn pass<R: Wait + Clock>(&self, _rt: &R, _lane: u16) -> bool {
        true
    }

    fn answered<R: Wait + Clock>(&self, _rt: &R, _lane: u16) {}
}

/// An outlet that discards all frames.
#[derive(Drop)]
struct Nowhere;

impl Outlet for Nowhere {
    fn put<R: Wait + Clock>(&mut self, _rt: &R, _frame: &Frame) -> Result<(), OutletFault> {
        Ok(())
    }
}

/// Creates the events of one tab for each lane, with the shard of that tab.
fn lists_of(
    alloc: Global,
    lanes: u16,
    shards: u16,
    locks: u32,
) -> Result<Vec<(u16, Events)>, AllocError>
    requires { 0 < shards }
{
    let mut lists = Vec::new(alloc);
    for lane in 0..lanes {
        let tab = lane.wrapping_add(1);
        let events = of_tab(alloc, tab, locks)?;
        add(&mut lists, (shard_of(shards, tab), events))?;
    }
    Ok(lists)
}

/// Appends a list. Fails if out of memory.
fn add<L: Drop>(lists: &mut Vec<L>, list: L) -> Result<(), AllocError> {
    match lists.push(list) {
        Ok(()) => Ok(()),
        Err(AllocFailed { value: _ }) => Err(AllocError),
    }
}

/// Creates the job of a lane, with its events for one shard.
fn job_of<J: Shards>(
    lane: ShardLane<J>,
    shards: u16,
    shard: u16,
    events: Events,
) -> Job<J, Listed<J>, Nowhere>
    requires { shards ≡ J.run.shards }
{
    Job {
        lane,
        intake: Listed {
            shards,
            shard,
            events,
            of: PhantomData::<J>,
        },
        outlet: Nowhere,
        end: None,
    }
}

/// Creates a job for each lane.
fn jobs_of<J: Shards>(
    alloc: Global,
    lanes: Vec<ShardLane<J>>,
    shards: u16,
    lists: Vec<(u16, Events)>,
) -> Result<Vec<Job<J, Listed<J>, Nowhere>>, AllocError>
    requires { shards ≡ J.run.shards }
{
    lanes
        .into_iter()
        .zip(lists)
        .map(
            |(lane, (shard, events)): (ShardLane<J>, (u16, Events))|
                requires { shards ≡ J.run.shards }
            { job_of(lane, shards, shard, events) },
        )
        .collect::<Vec<Job<J, Listed<J>, Nowhere>>>(alloc)
}

fn lanes_of<J: Shards>(
    alloc: Global,
    jobs: Vec<Job<J, Listed<J>, Nowhere>>,
) -> Result<Vec<ShardLane<J>>, AllocError> {
    jobs.into_iter()
        .map(|job: Job<J, Listed<J>, Nowhere>| job.lane)
        .collect::<Vec<ShardLane<J>>>(alloc)
}

/// Returns the total number of steps in these histories.
fn steps_of(histories: &[History]) -> u32 {
    histories
        .iter()
        .map(|history| u32::try_from(history.steps().len()).unwrap_or(u32::MAX))
        .fold(0, |steps: u32, more: u32| steps.saturating_add(more))
}

/// Runs lanes over a sharded broker, each with the events of a tab of its own. The tab's partition
/// has the same number as the tab.
pub(crate) fn run<R: Threads + Wait + Clock + Sync>(
    rt: &R,
    alloc: Global,
    lanes: u16,
    shards: u16,
    locks: u32,
) -> io::Result<Outcome>
    requires lanes { (0 < lanes) × (lanes ≤ LANE_LIMIT) }
    requires shards { (0 < shards) × (shards ≤ SHARD_LIMIT) }
{
    let blanks = Blanks::new(u64::from(lanes));
    run_named::<Brand, R>(rt, alloc, blanks, lanes, shards, locks)
}

fn run_named<J: Shards + Send + Sync, R: Threads + Wait + Clock + Sync>(
    rt: &R,
    alloc: Global,
    blanks: Blanks,
    lanes: u16,
    shards: u16,
    locks: u32,
) -> io::Result<Outcome>
    requires names { AreNamed J.names blanks }
    requires parts { HaveParts lanes blanks }
    requires lanes { (0 < lanes) × (lanes ≤ LANE_LIMIT) }
    requires shards { (0 < shards) × (shards ≤ SHARD_LIMIT) }
    requires run { J.run
        ≡ record { generation = 1; listed = []; shards = shards; lanes = lanes; limit = 4294967295 } }
{
    let lists = lists_of(alloc, lanes, shards, locks)?;
    let (broker, made, hellos) = Sharded::<J>::new(alloc, blanks, 1, &[], u32::MAX, lanes, shards)?;
    drop(hellos);
    let mut jobs = jobs_of(alloc, made, shards, lists)?;
    let nanoseconds = timed(rt, &broker, jobs.as_mut_slice())?;
    let steps = closed(alloc, broker, jobs)?;
    Ok(Outcome { steps, nanoseconds })
}

/// Runs the lanes and returns the elapsed nanoseconds.
fn timed<J: Shards + Send + Sync, R: Threads + Wait + Clock + Sync>(
    rt: &R,
    broker: &Sharded<J>,
    jobs: &mut [Job<J, Listed<J>, Nowhere>],
) -> io::Result<u128> {
    if jobs.is_empty() || jobs.len() > usize::from(LANE_LIMIT) {
        return Err(io::Error::from(io::ErrorKind::Other));
    }
    let start = Instant::now(rt)?;
    run_lanes(rt, broker, jobs, &Open);
    Ok(start.elapsed(rt)?.as_nanos())
}

/// Closes the broker with its lanes and returns the number of its steps.
fn closed<J: Shards>(
    alloc: Global,
    broker: Sharded<J>,
    jobs: Vec<Job<J, Listed<J>, Nowhere>>,
) -> io::Result<u32> {
    match broker.close(lanes_of(alloc, jobs)?) {
        Ok(histories) => Ok(steps_of(histories.as_slice())),
        Err(_) => Err(io::Error::from(io::ErrorKind::Other)),
    }
}
