//! Decoder of a frame's body.

ghost use Rattle.std.specs.Prelude.{◌≤◌, length, IfOk, IfErr};
ghost use Rattle.wl_grammar.specs.Grammar.{IsBody};
ghost use Rattle.wl_frames.specs.Stream.{IsFaultOf};

mod bodies;
mod fault;
mod fields;
mod kind;

use crate::fault::FrameFault;
use std::alloc::Global;
use wl_grammar::frame::Frame;

/// Returns the frame that has this body. The body has at least two bytes. Fails with the first
/// fault of the body, or with `Memory` if out of memory.
pub fn decode(alloc: Global, body: &[u8]) -> Result<Frame, FrameFault>
    requires { 2 ≤ length body.now }
    ensures frame { IfOk result (λ f. IsBody body.now f) }
    ensures fault { IfErr result (IsFaultOf body.now) }
{
    if !kind::is_version(body[0]) {
        return Err(FrameFault::BadVersion);
    }
    let Some(kind) = kind::kind_of(body[0], body[1]) else {
        return Err(FrameFault::BadKind);
    };
    let (frame, rest) = bodies::frame_of(alloc, kind, &body[2..])?;
    if !rest.is_empty() {
        drop(frame);
        return Err(FrameFault::LeftOver);
    }
    Ok(frame)
}
