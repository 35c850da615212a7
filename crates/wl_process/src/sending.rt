//! Encoding of outgoing frames.

ghost use Rattle.std.specs.Prelude.{◌≡◌, ◌++◌, IsOk, OnOk, OnErr};
ghost use Rattle.wl_grammar.specs.Grammar.{IsWellFormed, spelling};

use std::alloc::{AllocError, Global};
use wl_frames::{Frame, encode_into};

/// Appends the encoding of a frame. Appends nothing for a malformed frame. Leaves the bytes
/// unchanged if out of memory.
pub fn append(bytes: &mut Vec<u8>, frame: &Frame) -> Result<(), AllocError>
    ensures spelled { IsWellFormed frame.now
        → OnOk result (bytes.new.items ≡ bytes.old.items ++ spelling frame.now) }
    ensures nothing { (¬ IsWellFormed frame.now) → IsOk result × (bytes.new.items ≡ bytes.old.items) }
    ensures refused { OnErr result (bytes.new.items ≡ bytes.old.items) }
{
    if !frame.is_well_formed() {
        return Ok(());
    }
    encode_into(bytes, frame)
}
