//! The lanes of the broker's process: their intakes and outlets, and how they end.

ghost use Rattle.std.specs.Prelude.{◌≡◌, IfOk, length};

use crate::inbox::Inbox;
use crate::outbound::{LaneOutput, LinkOutput};
use std::alloc::{AllocError, Global};
use std::marker::{Model, PhantomData};
use std::net::Shutdown;
use std::os::unix::net::UnixStream;
use std::rt::Clock;
use std::sync::{Arc, Wait};
use wl_frames::Frame;
use wl_locked::{ShardLane, Shards, Work};
use wl_process::ProcessFault;
use wl_workers::{Intake, Job, LaneEnd, LaneEndCause, Outlet, OutletFault};

/// The number of works after which a lane writes the gathered frames, even if it has more works.
const FLUSH_EVERY: u32 = 64;

/// The intake of a lane. Gathered frames are written before the lane reads the link or sleeps. Its value
/// in contracts is the number of the broker's shards.
#[derive(Drop)]
pub(crate) struct LaneIntake<'a, 'l, J: Shards> {
    inbox: &'a Inbox<'l>,
    link: &'a UnixStream,
    lane: usize,
    output: Arc<LaneOutput>,
    /// The shard of the work that the lane has in hand, which is neither stepped nor known to be lost.
    in_hand: Option<u16>,
    /// Whether the rendezvous with the other lanes succeeded.
    has_met: bool,
    /// The number of works requested, modulo `FLUSH_EVERY`. At 0 the gathered frames are written
    /// first.
    asked: u32,
    shards: u16,
    of: PhantomData<J>,
}

impl<'a, 'l, J: Shards> Model for LaneIntake<'a, 'l, J> {
    ghost use Rattle.std.specs.Prelude.{◌≡◌, ℕ};

    ghost Value = { ℕ };

    ghost view = { λ i. i.shards };

    ghost invariant = { λ i. i.shards ≡ J.run.shards };
}

impl<'a, 'l, J: Shards> LaneIntake<'a, 'l, J> {
    /// Waits once for all other lanes. Returns true if all of them have a thread.
    fn meets<R: Wait + Clock>(&mut self, rt: &R) -> bool {
        if !self.has_met {
            self.has_met = self.inbox.meet(rt);
        }
        self.has_met
    }

    /// Leaves the line of the work in hand, if there is one.
    fn leave_line<R: Wait>(&mut self, rt: &R) {
        if let Some(shard) = self.in_hand {
            self.in_hand = None;
            self.inbox.leave_line(rt, self.lane, shard);
        }
    }

    /// Leaves the last work behind: its line, if it was lost, and the place of its step.
    fn finish<R: Wait>(&mut self, rt: &R) -> Result<(), OutletFault> {
        self.leave_line(rt);
        self.output.finish(rt)
    }

    /// Waits for the next work. Returns `None` if no more will come or a write failed.
    fn wait<R: Wait>(&mut self, rt: &R) -> Option<Work> {
        self.asked = self.asked.wrapping_add(1) % FLUSH_EVERY;
        if self.asked != 0 {
            if let Some(work) = self.inbox.take_now(rt, self.lane) {
                return Some(work);
            }
        }
        if self.output.flush(rt).is_err() {
            return None;
        }
        self.inbox.take(rt, self.lane)
    }
}

impl<'a, 'l, J: Shards> Intake for LaneIntake<'a, 'l, J> {
    ghost shards = { λ _. J.run.shards };

    fn next<R: Wait + Clock>(&mut self, rt: &R) -> Option<Work> {
        if !self.meets(rt) || self.finish(rt).is_err() {
            return None;
        }
        // Works in a mailbox were dealt to this shard count, but the mailbox's lock has no
        // invariant that says so.
        match self.wait(rt) {
            Some(work) if work.is_dealt(self.shards) => {
                self.in_hand = Some(work.shard);
                Some(work)
            }
            _ => None,
        }
    }

    /// Lets the lane behind this one step its work, before this lane waits at the gate.
    fn stepped<R: Wait + Clock>(&mut self, rt: &R, shard: u16, place: u32) {
        self.output.begin(rt, shard, place);
        self.leave_line(rt);
    }

    /// Finishes the last place, writes the gathered frames, and wakes all other lanes. If the lane
    /// failed, or ended before its intake did, no lane takes another work. The other lanes may still
    /// write the frames of their last steps, unless this one failed.
    fn end<R: Wait + Clock>(&mut self, rt: &R, end: LaneEnd) {
        let _ = self.finish(rt);
        let _ = self.output.flush(rt);
        let has_failed = !self.has_met || self.output.fault(rt).is_some();
        if has_failed || end.why != LaneEndCause::Ended {
            self.inbox.cut(rt);
            let _ = self.link.shutdown(Shutdown::Read);
        }
        if has_failed {
            shut_down(self.link);
        }
        self.inbox.shut(rt);
    }
}

#[derive(Drop)]
pub(crate) struct LaneOutlet {
    output: Arc<LaneOutput>,
}

impl Outlet for LaneOutlet {
    fn put<R: Wait + Clock>(&mut self, rt: &R, frame: &Frame) -> Result<(), OutletFault> {
        self.output.gather(rt, frame)
    }
}

type LaneJob<'a, 'l, J> = Job<J, LaneIntake<'a, 'l, J>, LaneOutlet>;

/// Creates the job of a lane.
fn job_of<'a, 'l, J: Shards>(
    inbox: &'a Inbox<'l>,
    link: &'a UnixStream,
    outputs: (Arc<LaneOutput>, Arc<LaneOutput>),
    shards: u16,
    place: usize,
    lane: ShardLane<J>,
) -> LaneJob<'a, 'l, J>
    requires { shards ≡ J.run.shards }
{
    let (taking, putting) = outputs;
    Job {
        lane,
        intake: LaneIntake {
            inbox,
            link,
            lane: place,
            output: taking,
            in_hand: None,
            has_met: false,
            asked: 0,
            shards,
            of: PhantomData,
        },
        outlet: LaneOutlet { output: putting },
        end: None,
    }
}

/// Creates the jobs of all lanes. They share this inbox and write to this link.
pub(crate) fn jobs_of<'a, 'l, J: Shards>(
    alloc: Global,
    inbox: &'a Inbox<'l>,
    link: &'a UnixStream,
    writing: UnixStream,
    shards: u16,
    lanes: Vec<ShardLane<J>>,
) -> Result<Vec<LaneJob<'a, 'l, J>>, AllocError>
    requires { shards ≡ J.run.shards }
    ensures { IfOk result (λ jobs. length jobs.items ≡ length lanes.items) }
{
    let output = Arc::new(alloc, LinkOutput::new(alloc, writing, shards)?)?;
    let mut jobs = Vec::new(alloc);
    for lane in lanes {
        let outputs = LaneOutput::pair(alloc, &output)?;
        let place = jobs.len();
        jobs.push(job_of(inbox, link, outputs, shards, place, lane))?;
    }
    Ok(jobs)
}

/// Returns the result of a generation after all lanes have ended.
pub(crate) fn end_of<R: Wait, J: Shards>(
    rt: &R,
    inbox: &Inbox<'_>,
    jobs: &[LaneJob<'_, '_, J>],
) -> Result<(), ProcessFault> {
    if inbox.is_off(rt) {
        return Err(ProcessFault::Device);
    }
    if jobs.iter().any(|job| is_spent(job.end)) {
        return Ok(());
    }
    for job in jobs {
        if let Some(fault) = job.outlet.output.fault(rt) {
            return Err(fault);
        }
    }
    inbox.end(rt)
}

/// Returns true if the lane ended because its generation is spent.
fn is_spent(end: Option<LaneEnd>) -> bool {
    match end {
        Some(end) => end.why == LaneEndCause::Spent,
        None => false,
    }
}

/// Shuts the link down for reading and writing.
pub(crate) fn shut_down(link: &UnixStream) {
    let _ = link.shutdown(Shutdown::Both);
}
