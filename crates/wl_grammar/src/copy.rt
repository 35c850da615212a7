//! Copy function of frames.

ghost use Rattle.std.specs.Prelude.{◌≡◌, IfOk};

use crate::frame::Frame;
use std::alloc::AllocError;

impl Frame {
    /// Returns an equal frame. The data of posts is shared with this frame; all else is a deep
    /// copy. Fails if out of memory.
    pub fn copy(&self) -> Result<Frame, AllocError>
        ensures { IfOk result (λ copy. copy ≡ self.now) }
    {
        self.clone()
    }
}
