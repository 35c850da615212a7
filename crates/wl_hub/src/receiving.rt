//! Bytes and frames of tabs, and deaths that the broker is told of.

ghost use Rattle.std.specs.Prelude.{◌≡◌, ◌≢◌, ◌++◌, [], Some, None, Err, nat_eq, IfSome, IfOk, IfErr, OnOk, OnErr};
ghost use Rattle.std.specs.Map.{lookup};
ghost use Rattle.wl_frames.specs.declared.fault.FrameFault.{FrameFault};
ghost use Rattle.wl_hub.specs.declared.fault.ReceiveFault.TheVariants as faults;
ghost use Rattle.wl_kernel.specs.Routes.{route_up_refusal};
ghost use Rattle.wl_hub.specs.Hub.{IsFed, IsReceived, advanced, after_first, after_greeting, frame_step, handling, progress_after, progress_at, progress_of};
ghost use Rattle.wl_hub.specs.Early.{greeted_next, verdict_of};
ghost use Rattle.wl_hub.specs.Stored.{queued, HasRoom};

use crate::fault::ReceiveFault;
use crate::hub::Hub;
use crate::outputs::Outputs;
use indexmap::IndexMap;
use std::alloc::{AllocError, Global};
use wl_broker::Dropped;
use wl_frames::{Decoded, Feed, Frame, Hello};
use wl_kernel::{RouteFault, Routed};
use wl_supervised_broker::SupervisedBroker;
use wl_world_messages::{Effect, Reason};

/// Result of `advance`.
#[derive(Clone, Copy, Debug, PartialEq, Eq)]
pub enum Progress {
    /// Nothing was left to do.
    Idle,
    /// The broker was told of this tab's death.
    Told(u16),
    /// This tab was greeted again, since its command came too early and its partition is now active.
    Greeted(u16),
    /// The command of this tab came too early, and its partition still recovers.
    Postponed(u16),
    /// A frame was handled.
    Handled,
    /// A frame was dropped for this reason. The caller has to close its sender.
    Refused(RouteFault),
}

/// The broker's answer to a frame of a tab.
#[derive(Clone, Copy, Debug, PartialEq, Eq)]
pub(crate) enum Verdict {
    /// It dropped a command, since the tab's partition recovers.
    Early,
    /// The tab has joined, and its partition is active.
    Active,
    Other,
}

/// Gives a piece to a tab's decoder. Returns `None` if there is none.
fn feed(feeds: &mut IndexMap<u16, Feed>, tab: u16, piece: &[u8]) -> Option<Decoded>
    ensures fed { IfSome result (λ f. IsFed tab piece.now feeds.old.entries feeds.new.entries f.frames.items f.fault) }
    ensures none { result ≡ None → (feeds.new.entries ≡ feeds.old.entries) × (lookup (nat_eq tab) feeds.old.entries ≡ None) }
{
    let Some(place) = feeds.get_index_of(&tab) else {
        return None;
    };
    let Some(feed) = feeds.get_index_mut(place) else {
        return None;
    };
    Some(feed.decode(piece))
}

impl Hub {
    /// Takes bytes that a tab has sent. `advance` handles the frames that they complete.
    ///
    /// If it fails with `Frame(Memory)`, no byte is taken. After any other `Frame` fault, the frames in
    /// front of it have arrived, and the caller has to close the tab.
    pub fn receive(&mut self, tab: u16, bytes: &[u8]) -> Result<(), ReceiveFault>
        ensures ok { OnOk result (IsReceived tab bytes.now self.old self.new None) }
        ensures fault { IfErr result (λ e. (f : FrameFault) → e ≡ faults.Frame f → IsReceived tab bytes.now self.old self.new (Some f)) }
        ensures busy { result ≡ Err faults.Busy → (self.old.arrived ≢ []) × (self.new ≡ self.old) }
        ensures no_tab { result ≡ Err faults.NoTab → (lookup (nat_eq tab) self.old.feeds ≡ None) × (self.new ≡ self.old) }
    {
        if self.arrived.get(self.handled).is_some() {
            return Err(ReceiveFault::Busy);
        }
        let Some(fed) = feed(&mut self.feeds, tab, bytes) else {
            return Err(ReceiveFault::NoTab);
        };
        self.sender = tab;
        self.arrived = fed.frames;
        self.handled = 0;
        let Some(fault) = fed.fault else {
            return Ok(());
        };
        Err(ReceiveFault::Frame(fault))
    }

    /// Tells the broker of a death, greets or postpones a tab whose command came too early, or handles the
    /// oldest arrived frame, in this order. Fails if out of memory, and then changes nothing.
    pub fn advance(&mut self) -> Result<Progress, AllocError>
        ensures progress { IfOk result (λ p. p ≡ progress_of self.old) }
        ensures state { OnOk result (self.new ≡ advanced self.old) }
        ensures err { OnErr result (self.new ≡ self.old) }
    {
        self.outputs.make_room()?;
        if !self.supervised.is_up() {
            return self.handle_first();
        }
        let Some(tab) = self.untold.front() else {
            return self.greet_or_handle();
        };
        let tab = *tab;
        let outcome = self.supervised.tell(self.alloc, tab)?;
        let _ = self.untold.pop_front();
        self.outputs.put_outs(outcome.outs);
        self.early.greet_all();
        Ok(Progress::Told(tab))
    }

    /// Greets or postpones the next early tab, or handles the oldest arrived frame if there is none.
    fn greet_or_handle(&mut self) -> Result<Progress, AllocError>
        ensures progress { IfOk result (λ p. p ≡ progress_after self.old (greeted_next self.old.greetings self.old.early)) }
        ensures state { OnOk result (self.new ≡ after_greeting self.old (greeted_next self.old.greetings self.old.early)) }
        ensures err { OnErr result (self.new ≡ self.old) }
    {
        self.outputs.make_room()?;
        let Some(tab) = self.early.first() else {
            return self.handle_first();
        };
        if !self.supervised.is_active_for(tab) {
            self.early.postpone_first();
            return Ok(Progress::Postponed(tab));
        }
        self.early.remove_first();
        let generation = self.supervised.tabs().generation();
        self.outputs.put(tab, Frame::Hello(Hello { generation }));
        Ok(Progress::Greeted(tab))
    }

    /// Handles the oldest arrived frame.
    fn handle_first(&mut self) -> Result<Progress, AllocError>
        ensures progress { IfOk result (λ p. p ≡ progress_at self.old self.old.arrived) }
        ensures state { OnOk result (self.new ≡ after_first self.old self.old.arrived) }
        ensures err { OnErr result (self.new ≡ self.old) }
    {
        self.outputs.make_room()?;
        self.early.make_room()?;
        let Some(frame) = self.arrived.get(self.handled) else {
            return Ok(Progress::Idle);
        };
        let frame = frame.copy()?;
        let (progress, verdict) = handle(
            self.alloc,
            &mut self.supervised,
            &mut self.outputs,
            self.sender,
            frame,
        )?;
        self.handled += 1;
        self.early.note(self.sender, verdict);
        Ok(progress)
    }
}

/// Handles a frame of a tab.
fn handle(
    alloc: Global,
    supervised: &mut SupervisedBroker,
    outputs: &mut Outputs,
    tab: u16,
    frame: Frame,
) -> Result<(Progress, Verdict), AllocError>
    requires { HasRoom 1 outputs.old }
    ensures verdict { IfOk result (λ r. r.1 ≡ (frame_step tab frame supervised.old).verdict) }
    ensures progress { IfOk result (λ r. r.0 ≡ handling (route_up_refusal tab frame supervised.old.kernel)) }
    ensures supervised { OnOk result (supervised.new ≡ (frame_step tab frame supervised.old).supervised) }
    ensures sent { OnOk result (queued outputs.new ≡ queued outputs.old ++ (frame_step tab frame supervised.old).sent) }
    ensures err { OnErr result ((supervised.new ≡ supervised.old) × (queued outputs.new ≡ queued outputs.old)) }
{
    match supervised.tabs().route_up(tab, frame) {
        Ok(Routed::Broker(frame)) => {
            let Frame::Stamped(stamped) = frame else {
                unreachable!()
            };
            let outcome = supervised.take(alloc, &stamped)?;
            let verdict = verdict_of(&outcome.said, supervised.is_active_for(stamped.tab));
            outputs.put_outs(outcome.outs);
            Ok((Progress::Handled, verdict))
        }
        Ok(Routed::Tabs(heard)) => {
            outputs.put_all(heard.into_vec())?;
            Ok((Progress::Handled, Verdict::Other))
        }
        Err(RouteFault::Memory) => Err(AllocError),
        Err(fault) => Ok((Progress::Refused(fault), Verdict::Other)),
    }
}

/// Returns what an effect says of the sender, given whether the sender's partition is now active.
fn verdict_of(said: &Effect, is_active: bool) -> Verdict
    ensures { result ≡ verdict_of is_active said.now }
{
    match said {
        Effect::Dropped(Reason::AtBroker(Dropped::Recovering)) => Verdict::Early,
        Effect::Joined { .. } if is_active => Verdict::Active,
        _ => Verdict::Other,
    }
}
