//! Frames for tabs, as bytes.

ghost use Rattle.std.specs.Prelude.{◌≡◌, true, false, IfOk, OnErr};
ghost use Rattle.wl_hub.specs.Sending.{IsDue, IsNext, is_current};

use crate::hub::Hub;
use std::alloc::AllocError;
use wl_frames::{Frame, encode_into};
use wl_kernel::Tabs;

/// Result of `next_output`.
#[derive(Clone, Copy, Debug, PartialEq, Eq)]
pub enum Output {
    /// No frame was left.
    Idle,
    /// The encoding of a frame for this tab was appended.
    For(u16),
    /// The frame was dropped: its tab is dead, or a later generation has begun.
    Dropped,
}

impl Hub {
    /// Appends the encoding of the oldest frame to `out` and removes the frame. A frame for a dead tab
    /// or of an earlier generation is dropped instead. Fails if out of memory, and then changes nothing.
    pub fn next_output(&mut self, out: &mut Vec<u8>) -> Result<Output, AllocError>
        ensures next { IfOk result (λ done. IsNext self.old done out.old.items out.new.items self.new) }
        ensures err { OnErr result ((self.new ≡ self.old) × (out.new.items ≡ out.old.items)) }
    {
        self.outputs.settle()?;
        let Some(oldest) = self.outputs.take_front() else {
            return Ok(Output::Idle);
        };
        let tab = oldest.0;
        if !is_due(self.supervised.tabs(), tab, &oldest.1) {
            drop(oldest);
            return Ok(Output::Dropped);
        }
        if let Err(refused) = encode_into(out, &oldest.1) {
            self.outputs.put_back(oldest);
            return Err(refused);
        }
        drop(oldest);
        Ok(Output::For(tab))
    }
}

/// Returns whether a frame can be sent to a tab.
fn is_due(tabs: &Tabs, tab: u16, frame: &Frame) -> bool
    ensures yes { result ≡ true → IsDue tabs.now tab frame.now }
    ensures no { result ≡ false → IsDue tabs.now tab frame.now → ⊥ }
{
    tabs.is_living(tab) && is_current(frame, tabs.generation()) && frame.is_well_formed()
}

/// Returns whether a frame for a tab belongs to no generation or to this one.
fn is_current(frame: &Frame, generation: u32) -> bool
    ensures { result ≡ is_current generation frame.now }
{
    match frame {
        Frame::Hello(hello) => hello.generation == generation,
        Frame::Answer(answer) => answer.generation == generation,
        Frame::Snapshot(snapshot) => snapshot.generation == generation,
        _ => true,
    }
}
