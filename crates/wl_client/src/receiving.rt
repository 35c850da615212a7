//! Bytes and frames that arrive from the hub.

ghost use Rattle.std.specs.Prelude.{◌≡◌, ◌≢◌, [], Some, None, Err, IfOk, IfErr, OnOk, OnErr};
ghost use Rattle.wl_frames.specs.declared.fault.FrameFault.{FrameFault};
ghost use Rattle.wl_client.specs.Client.{IsReceived, advanced, has_post, is_entering, is_hello_of, is_visible, progress_of, welcome_of};
ghost use Rattle.wl_client.specs.declared.fault.ReceiveFault.TheVariants as faults;

use crate::client::{Client, Event, Unsent};
use crate::fault::ReceiveFault;
use std::alloc::AllocError;
use wl_broadcast::Hearing;
use wl_frames::Frame;
use wl_tab::{TabChannels, TabLocks};
use wl_world_messages::Effect;

/// Result of `advance`.
#[derive(Clone, Copy, Debug, PartialEq, Eq)]
pub enum Progress {
    /// Nothing was left to do.
    Idle,
    /// A frame was handled.
    Handled,
    /// The first frame is not a welcome, and was dropped. The caller has to close the link.
    NotWelcome,
}

impl Client {
    /// Takes bytes that the hub has sent. `advance` handles the frames that they complete.
    ///
    /// If it fails with `Frame(Memory)`, no byte is taken. After any other `Frame` fault, the frames in
    /// front of it have arrived, and the caller has to close the link.
    pub fn receive(&mut self, bytes: &[u8]) -> Result<(), ReceiveFault>
        ensures ok { OnOk result (IsReceived bytes.now self.old self.new None) }
        ensures fault { IfErr result (λ e. (f : FrameFault) → e ≡ faults.Frame f → IsReceived bytes.now self.old self.new (Some f)) }
        ensures busy { result ≡ Err faults.Busy → (self.old.arrived ≢ []) × (self.new ≡ self.old) }
    {
        if self.arrived.get(self.handled).is_some() {
            return Err(ReceiveFault::Busy);
        }
        let fed = self.feed.decode(bytes);
        self.arrived = fed.frames;
        self.handled = 0;
        let Some(fault) = fed.fault else {
            return Ok(());
        };
        Err(ReceiveFault::Frame(fault))
    }

    /// Handles the oldest arrived frame. Fails if out of memory, and then changes nothing.
    pub fn advance(&mut self) -> Result<Progress, AllocError>
        ensures progress { IfOk result (λ p. p ≡ progress_of self.old) }
        ensures state { OnOk result (self.new ≡ advanced self.old) }
        ensures err { OnErr result (self.new ≡ self.old) }
    {
        self.unsent.reserve(1)?;
        self.events.reserve(1)?;
        let Some(frame) = self.arrived.get(self.handled) else {
            return Ok(Progress::Idle);
        };
        if !self.is_welcomed {
            let Some((tab, in_parts)) = welcome_of(frame) else {
                self.handled += 1;
                return Ok(Progress::NotWelcome);
            };
            self.is_welcomed = true;
            self.locks = if in_parts {
                TabLocks::new_two(self.alloc, tab)
            } else {
                TabLocks::new(self.alloc, tab)
            };
            self.channels = TabChannels::new(self.alloc, tab);
            self.events.push_back_reserved(Event::Welcomed(tab));
            self.handled += 1;
            return Ok(Progress::Handled);
        }
        if is_hello_of(frame, self.locks.entered()) {
            self.unsent.push_back_reserved(Unsent::Resend);
            self.handled += 1;
            return Ok(Progress::Handled);
        }
        if let Frame::Heard(_) = frame {
            let hearing = self.channels.heard(frame)?;
            self.handled += 1;
            if !has_post(&hearing) {
                drop(hearing);
                return Ok(Progress::Handled);
            }
            self.events.push_back_reserved(Event::Heard(hearing));
            return Ok(Progress::Handled);
        }
        let effect = self.locks.deliver(frame)?;
        self.handled += 1;
        if is_entering(&effect) {
            self.unsent.push_back_reserved(Unsent::Resend);
            self.events.push_back_reserved(Event::Told(effect));
            return Ok(Progress::Handled);
        }
        if !is_visible(&effect) {
            drop(effect);
            return Ok(Progress::Handled);
        }
        self.events.push_back_reserved(Event::Told(effect));
        Ok(Progress::Handled)
    }
}

/// Returns the tab's number, and whether it reports in parts, if the frame is a welcome.
fn welcome_of(frame: &Frame) -> Option<(u16, bool)>
    ensures { result ≡ welcome_of frame.now }
{
    match frame {
        Frame::Welcome(welcome) => Some((welcome.tab, false)),
        Frame::PairWelcome(welcome) => Some((welcome.tab, true)),
        _ => None,
    }
}

/// Returns whether the frame is a hello of this generation.
fn is_hello_of(frame: &Frame, generation: u32) -> bool
    ensures { result ≡ is_hello_of generation frame.now }
{
    match frame {
        Frame::Hello(hello) => hello.generation == generation,
        _ => false,
    }
}

/// Returns whether the tab has entered a generation.
fn is_entering(effect: &Effect) -> bool
    ensures { result ≡ is_entering effect.now }
{
    matches!(effect, Effect::Entered { .. })
}

/// Returns whether the page sees the effect of a frame.
fn is_visible(effect: &Effect) -> bool
    ensures { result ≡ is_visible effect.now }
{
    matches!(
        effect,
        Effect::Entered { .. }
            | Effect::Granted(_)
            | Effect::Waiting(_)
            | Effect::Null(_)
            | Effect::Lost(_)
            | Effect::Whole { .. }
    )
}

/// Returns whether some channel took the post.
pub(crate) fn has_post(hearing: &Hearing) -> bool
    ensures { result ≡ has_post hearing.now }
{
    match hearing {
        Hearing::Old => false,
        Hearing::New { took, .. } => !took.as_slice().is_empty(),
    }
}
