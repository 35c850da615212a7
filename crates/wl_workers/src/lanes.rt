//! A lane: one thread's share of a broker. It takes works from an intake, passes them to its desk,
//! and gives the frames that the broker sends to an outlet.

ghost use Rattle.std.specs.Prelude.{◌≡◌, ◌⊎◌, [], ◌∷◌, true, Err, OnOk, IfErr};
ghost use Rattle.wl_grammar.specs.declared.frame.Frame.TheVariants as frame;
ghost use Rattle.wl_workers.specs.CallRecords.{RecordGrows};
ghost use Rattle.wl_workers.specs.Lane.{as_frames, frames_of, all_put, PutsUpTo, IsUnsent, IsLet, RunsLane};

use std::rt::Clock;
use std::sync::Wait;
use thiserror::Error;
use wl_frames::{Addressed, Frame};
use wl_locked::{Frames, NotStepped, Receipt, Reply, Work};

/// The largest number of events that a lane takes.
pub const EVENT_LIMIT: u32 = 1_000_000;

/// Source of a lane's works, in order.
pub trait Intake {
    ghost use Rattle.std.specs.Prelude.{◌≡◌, ℕ, List, [], ◌∷◌, Option, None, IfSome};
    ghost use Rattle.wl_locked.specs.declared.work.Work.{Work};
    ghost use Rattle.wl_locked.specs.Sharding.{IsDealt};
    ghost use Rattle.wl_workers.specs.CallRecords.{RecordGrows};

    /// The results of `next` so far, with `None` for an end. `None` if the intake keeps no record.
    ghost given: { Self → Option (List (Option Work)) } = { λ _. None };

    /// The number of shards that the works are dealt to.
    ghost shards: { Self → ℕ };

    /// Returns the next work, or `None` if no more will come.
    fn next<R: Wait + Clock>(&mut self, rt: &R) -> Option<Work>
        ensures given { RecordGrows (given self.old) (given self.new) (result ∷ []) }
        ensures dealt { IfSome result (IsDealt (shards self.old)) }
        ensures shards { shards self.new ≡ shards self.old };

    /// Receives the shard and the place of the last work's step. `lane` calls it once for each step, before it
    /// asks the gate.
    fn stepped<R: Wait + Clock>(&mut self, _rt: &R, _shard: u16, _place: u32)
        ensures given { given self.new ≡ given self.old }
        ensures shards { shards self.new ≡ shards self.old }
    {}

    /// Receives how the lane ended. `run_lanes` calls it once, after the last `next`.
    fn end<R: Wait + Clock>(&mut self, _rt: &R, _end: LaneEnd)
        ensures given { given self.new ≡ given self.old }
        ensures shards { shards self.new ≡ shards self.old }
    {}
}

/// Takes one work at a time and returns the receipt of its step.
pub trait Desk {
    ghost use Rattle.std.specs.Prelude.{◌≡◌, ℕ, List, [], ◌∷◌, Option, None, Result};
    ghost use Rattle.wl_locked.specs.declared.work.Work.{Work};
    ghost use Rattle.wl_locked.specs.declared.receipt.Receipt.{Receipt};
    ghost use Rattle.wl_locked.specs.declared.receipt.NotStepped.{NotStepped};
    ghost use Rattle.wl_locked.specs.Sharding.{IsDealt};
    ghost use Rattle.wl_workers.specs.CallRecords.{RecordGrows};
    ghost use Rattle.wl_workers.specs.Lane.{receipt_in};

    /// The works taken so far, each with its result. `None` if the desk keeps no record.
    ghost answered: { Self → Option (List (Work × Result Receipt NotStepped)) } = { λ _. None };

    /// The receipts kept for the steps of each shard. `None` if the desk keeps no record.
    ghost kept: { Self → ℕ → Option (List Receipt) } = { λ _ _. None };

    /// The ghost name of the lane that the desk borrows, or 0.
    ghost borrowed: { Self → ℕ } = { λ _. 0 };

    /// The number of shards of the broker.
    ghost shards: { Self → ℕ };

    /// Passes one work to the broker and returns the step's receipt. Fails if no step was made.
    fn take_one<R: Wait + Clock>(&mut self, rt: &R, work: Work) -> Result<Receipt, NotStepped>
        requires { IsDealt (shards self.old) work }
        ensures answered { RecordGrows (answered self.old) (answered self.new) ((work, result) ∷ []) }
        ensures kept { (shard : ℕ)
            → RecordGrows (kept self.old shard) (kept self.new shard) (receipt_in shard (work, result)) }
        ensures borrowed { borrowed self.new ≡ borrowed self.old }
        ensures shards { shards self.new ≡ shards self.old };
}

/// Decides when the frames of a step may be sent. Several lanes share one gate.
pub trait Gate {
    ghost use Rattle.std.specs.Prelude.{◌≡◌, ℕ, Bool, true};

    /// Whether the gate may ever let this lane pass. `true` if the gate makes no promise.
    ghost lets: { Self → ℕ → Bool } = { λ _ _. true };

    /// Returns true if the lane may send the frames of its last step, and false if the lane must
    /// end. May block.
    fn pass<R: Wait + Clock>(&self, rt: &R, lane: u16) -> bool
        ensures { result ≡ true → lets self.now lane ≡ true };

    /// Notes that the lane has sent all frames of its last step.
    fn answered<R: Wait + Clock>(&self, rt: &R, lane: u16);
}

/// Why an outlet refused a frame.
#[derive(Clone, Copy, Debug, PartialEq, Eq, Error)]
pub enum OutletFault {
    /// The frame could not be written.
    #[error("Write")]
    Write,
    /// Out of memory.
    #[error("Memory")]
    Memory,
}

/// Sends the broker's frames on their way to tabs.
pub trait Outlet {
    ghost use Rattle.std.specs.Prelude.{List, [], ◌∷◌, Option, None, Result};
    ghost use Rattle.wl_grammar.specs.declared.frame.Frame.{Frame};
    ghost use Rattle.wl_workers.specs.declared.lanes.OutletFault.{OutletFault};
    ghost use Rattle.wl_workers.specs.CallRecords.{RecordGrows};

    /// The frames given to `put` so far, each with its result. `None` if the outlet keeps no
    /// record.
    ghost put_out: { Self → Option (List (Frame × Result (Unit {0}) OutletFault)) } = { λ _. None };

    /// Sends one frame.
    fn put<R: Wait + Clock>(&mut self, rt: &R, frame: &Frame) -> Result<(), OutletFault>
        ensures { RecordGrows (put_out self.old) (put_out self.new) ((frame.now, result) ∷ []) };
}

/// Why a lane ended.
#[derive(Clone, Copy, Debug, PartialEq, Eq)]
pub enum LaneEndCause {
    /// The intake has no more events.
    Ended,
    /// The generation used up its steps, or the lane its `EVENT_LIMIT` events.
    Spent,
    /// The gate did not let the lane pass.
    Shut,
    /// The outlet refused a frame.
    Outlet,
}

/// How a lane ended.
#[derive(Clone, Copy, Debug, PartialEq, Eq)]
pub struct LaneEnd {
    /// The number of events that made a step.
    pub steps: u32,
    pub why: LaneEndCause,
}

/// Sends one frame.
fn put_one<R: Wait + Clock, O: Outlet>(
    rt: &R,
    addressed: Addressed,
    outlet: &mut O,
) -> Result<(), OutletFault>
    ensures { RecordGrows (O.put_out outlet.old) (O.put_out outlet.new) ((frame.Addressed addressed, result) ∷ []) }
{
    let frame = Frame::Addressed(addressed);
    let put = outlet.put(rt, &frame);
    drop(frame);
    put
}

/// Sends frames in order, up to the first one that the outlet refuses.
fn put_frames<R: Wait + Clock, O: Outlet>(
    rt: &R,
    outs: Vec<Addressed>,
    outlet: &mut O,
) -> Result<(), OutletFault>
    ensures all { OnOk result
        (RecordGrows (O.put_out outlet.old) (O.put_out outlet.new) (all_put (as_frames outs.items))) }
    ensures some { IfErr result (λ fault.
        PutsUpTo (O.put_out outlet.old) (O.put_out outlet.new) (as_frames outs.items) fault) }
{
    for addressed in outs {
        put_one(rt, addressed, outlet)?;
    }
    Ok(())
}

/// Sends the frames of a reply.
fn put_reply<R: Wait + Clock, O: Outlet>(
    rt: &R,
    reply: Reply,
    outlet: &mut O,
) -> Result<(), OutletFault>
    ensures all { OnOk result
        (RecordGrows (O.put_out outlet.old) (O.put_out outlet.new) (all_put (frames_of reply))) }
    ensures some { IfErr result (λ fault.
        PutsUpTo (O.put_out outlet.old) (O.put_out outlet.new) (frames_of reply) fault) }
{
    match reply {
        Reply::Outs(outs) => match outs.into_frames() {
            Frames::One(addressed) => put_one(rt, addressed, outlet),
            Frames::Listed(listed) => put_frames(rt, listed, outlet),
        },
        Reply::Dropped(_reason) => Ok(()),
    }
}

/// Extracts the reply from a receipt.
fn reply_of(receipt: Receipt) -> Reply
    ensures { result ≡ receipt.reply }
{
    receipt.reply
}

/// Waits at the gate, then sends the frames of a step. Fails with the cause of the lane's end.
fn send<R: Wait + Clock, G: Gate, O: Outlet>(
    rt: &R,
    number: u16,
    receipt: Receipt,
    gate: &G,
    outlet: &mut O,
) -> Result<(), LaneEndCause>
    ensures all { OnOk result
        (RecordGrows (O.put_out outlet.old) (O.put_out outlet.new) (all_put (frames_of receipt.reply))) }
    ensures some { IfErr result (λ why.
        IsUnsent why (O.put_out outlet.old) (O.put_out outlet.new) receipt.reply) }
    ensures lets { (result ≡ Err LaneEndCause.Shut) ⊎ (G.lets gate.now number ≡ true) }
{
    if !gate.pass(rt, number) {
        drop(receipt);
        return Err(LaneEndCause::Shut);
    }
    if put_reply(rt, reply_of(receipt), outlet).is_err() {
        return Err(LaneEndCause::Outlet);
    }
    gate.answered(rt, number);
    Ok(())
}

/// Runs a lane: takes works from the intake, passes each to the desk, tells the intake of each step,
/// and sends the frames of the step after the gate lets the lane pass.
///
/// An event that is lost for lack of memory makes no step, and nothing is sent for it.
pub fn lane<R: Wait + Clock, I: Intake, D: Desk, G: Gate, O: Outlet>(
    rt: &R,
    number: u16,
    intake: &mut I,
    desk: &mut D,
    gate: &G,
    outlet: &mut O,
) -> LaneEnd
    requires { I.shards intake.old ≡ D.shards desk.old }
    ensures runs { RunsLane (I.given intake.old) (I.given intake.new)
        (D.answered desk.old) (D.answered desk.new)
        (D.kept desk.old) (D.kept desk.new) (O.put_out outlet.old) (O.put_out outlet.new) result }
    ensures borrowed { D.borrowed desk.new ≡ D.borrowed desk.old }
    ensures lets { IsLet (G.lets gate.now number) result }
{
    let mut steps = 0;
    for _event in 0..EVENT_LIMIT {
        let Some(work) = intake.next(rt) else {
            return LaneEnd {
                steps,
                why: LaneEndCause::Ended,
            };
        };
        let shard = work.shard;
        match desk.take_one(rt, work) {
            Ok(receipt) => {
                steps += 1;
                intake.stepped(rt, shard, receipt.place);
                if let Err(why) = send(rt, number, receipt, gate, outlet) {
                    return LaneEnd { steps, why };
                }
            }
            Err(NotStepped::Memory) => {}
            Err(NotStepped::GenerationSpent) => {
                return LaneEnd {
                    steps,
                    why: LaneEndCause::Spent,
                };
            }
        }
    }
    LaneEnd {
        steps,
        why: LaneEndCause::Spent,
    }
}
