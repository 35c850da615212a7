//! The receiver of the frames that tabs send.

use std::rt::Clock;
use std::sync::Wait;
use wl_frames::Frame;
use wl_kernel::RouteFault;

/// Accepts or refuses the frames that tabs send.
pub trait Uplink {
    ghost use Rattle.std.specs.Prelude.{ℕ, List, [], ◌∷◌, Option, None};
    ghost use Rattle.wl_grammar.specs.declared.frame.Frame.{Frame};
    ghost use Rattle.wl_workers.specs.CallRecords.{RecordGrows};

    /// The frames received so far, each with its tab, including refused ones. `None` if the uplink
    /// keeps no record.
    ghost handed: { Self → Option (List (ℕ × Frame)) } = { λ _. None };

    /// Sends on the frames gathered so far. The reader flushes at the start of each round.
    fn flush<R: Wait + Clock>(&self, _rt: &R) {}

    /// Pauses the reader if the tab sends too fast. The reader calls it after each flush.
    fn pace<R: Wait + Clock>(&self, _rt: &R) {}

    /// Accepts a frame of a tab. Fails with the reason if the frame may not pass.
    fn up<R: Wait + Clock>(&mut self, rt: &R, tab: u16, frame: Frame) -> Result<(), RouteFault>
        ensures { RecordGrows (handed self.old) (handed self.new) ((tab, frame) ∷ []) };
}
