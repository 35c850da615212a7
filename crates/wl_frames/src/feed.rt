//! Decoder of a stream of frames that arrives in pieces.

ghost use Rattle.std.specs.Prelude.{◌≡◌, ◌++◌, ◌<◌, ◌≤◌, ◌^◌, ◌⊎◌, [], length, drop, IfOk, IfErr, OnOk, MatchOption};
ghost use Rattle.wl_frames.specs.declared.fault.FrameFault.TheVariants.{Memory};
ghost use Rattle.wl_grammar.specs.Grammar.{IsWellFormed, u32 as spelled_u32, spelling};
ghost use Rattle.wl_frames.specs.Stream.{IsPartial, HasFaultNext, Reads, Rest, Fault, Decodes, Takes, Refuses, at_start, end_of};

use crate::fault::{FrameFault, PushFault};
use crate::reading::decode;
use std::alloc::{AllocFailed, Global};
use std::marker::Model;
use wl_grammar::frame::Frame;
use wl_limits::frames::{BODY_LIMIT, LEAST_BODY};

/// Returns the length at the front of a stream and the bytes after it, or `None` if it is
/// incomplete.
fn length_at(bytes: &[u8]) -> Option<(usize, &[u8])>
    ensures { MatchOption result (length bytes.now < 4) (λ x.
        (bytes.now ≡ spelled_u32 x.0 ++ x.1.now) × (x.0 < 2 ^ 32)) }
{
    if bytes.len() < 4 {
        return None;
    }
    let (front, rest) = bytes.split_at(4);
    let len = u32::from_be_bytes([front[0], front[1], front[2], front[3]]);
    Some((len as usize, rest))
}

/// Returns the frame at the front of a stream and the bytes after it, or `None` if it is
/// incomplete.
fn frame_at(alloc: Global, bytes: &[u8]) -> Result<Option<(Frame, &[u8])>, FrameFault>
    ensures frame { IfOk result (λ next. MatchOption next (IsPartial bytes.now) (λ x.
        IsWellFormed x.0 × (bytes.now ≡ spelling x.0 ++ x.1.now))) }
    ensures fault { IfErr result (λ e. (e ≡ Memory) ⊎ HasFaultNext bytes.now e) }
{
    let Some((len, rest)) = length_at(bytes) else {
        return Ok(None);
    };
    if !(LEAST_BODY..=BODY_LIMIT).contains(&len) {
        return Err(FrameFault::BadLength);
    }
    if rest.len() < len {
        return Ok(None);
    }
    let (body, after) = rest.split_at(len);
    let frame = decode(alloc, body)?;
    Ok(Some((frame, after)))
}

/// Decodes the complete frames at the front of a stream into an empty list, and returns their
/// length in bytes. On a fault, the list holds the frames in front of it.
fn read_frames(alloc: Global, frames: &mut Vec<Frame>, bytes: &[u8]) -> Result<usize, FrameFault>
    requires { frames.old.items ≡ [] }
    ensures length { IfOk result (λ taken. taken ≤ length bytes.now) }
    ensures rest { IfOk result (λ taken. Reads bytes.now frames.new.items (Rest (drop taken bytes.now))) }
    ensures fault { IfErr result (λ e. (e ≡ Memory) ⊎ Reads bytes.now frames.new.items (Fault e)) }
{
    let mut rest = bytes;
    while let Some((frame, after)) = frame_at(alloc, rest)? {
        frames.push(frame).map_err(unstored)?;
        rest = after;
    }
    Ok(bytes.len() - rest.len())
}

/// Drops a frame that could not be stored, and returns `Memory`.
fn unstored(failed: AllocFailed<Frame>) -> FrameFault
    ensures { result ≡ Memory }
{
    drop(failed);
    FrameFault::Memory
}

/// What a decoder makes of a piece: the frames that the piece completes, and a fault behind them.
#[derive(Drop)]
pub struct Decoded {
    pub frames: Vec<Frame>,
    pub fault: Option<FrameFault>,
}

/// Decoder of a stream that arrives in pieces of any size.
#[derive(Drop)]
pub struct Feed {
    alloc: Global,
    rest: Vec<u8>,
    has_failed: bool,
}

impl Model for Feed {
    ghost use Rattle.wl_frames.specs.Stream.{Feeding};

    ghost Value = { Feeding };

    ghost view = { λ f. record { rest = f.rest.items; has_failed = f.has_failed } };
}

impl Feed {
    /// Returns a decoder at the start of a stream.
    pub fn new(alloc: Global) -> Feed
        ensures { result ≡ at_start }
    {
        Feed {
            alloc,
            rest: Vec::new(alloc),
            has_failed: false,
        }
    }

    /// Consumes the next piece, and returns the frames that it completes. A fault comes with the
    /// frames of the piece in front of it. If it fails with `Memory`, nothing is consumed, and the
    /// piece may be pushed again. After any other fault, each later call fails with `Failed`.
    pub fn push(&mut self, piece: &[u8]) -> Result<Vec<Frame>, PushFault>
        ensures frames { IfOk result (λ frames. Takes self.old self.new piece.now frames.items) }
        ensures fault { IfErr result (λ e. Refuses self.old self.new piece.now e.before.items e.fault) }
    {
        let mut frames = Vec::new(self.alloc);
        match self.take(piece, &mut frames) {
            Ok(()) => Ok(frames),
            Err(fault) => Err(PushFault {
                before: frames,
                fault,
            }),
        }
    }

    /// Consumes the next piece as `push` does, and returns its frames with the fault behind them.
    pub fn decode(&mut self, piece: &[u8]) -> Decoded
        ensures { Decodes self.old self.new piece.now result.frames.items result.fault }
    {
        match self.push(piece) {
            Ok(frames) => Decoded {
                frames,
                fault: None,
            },
            Err(PushFault { before, fault }) => Decoded {
                frames: before,
                fault: Some(fault),
            },
        }
    }

    /// Consumes the next piece, and puts the frames that it completes into an empty list.
    fn take(&mut self, piece: &[u8], frames: &mut Vec<Frame>) -> Result<(), FrameFault>
        requires { frames.old.items ≡ [] }
        ensures frames { OnOk result (Takes self.old self.new piece.now frames.new.items) }
        ensures fault { IfErr result (Refuses self.old self.new piece.now frames.new.items) }
    {
        if self.has_failed {
            return Err(FrameFault::Failed);
        }
        let old_len = self.rest.len();
        self.rest
            .extend_from_slice(piece)
            .map_err(|_| FrameFault::Memory)?;
        match read_frames(self.alloc, frames, &self.rest) {
            Ok(taken) => {
                self.rest.drain(..taken);
                Ok(())
            }
            Err(FrameFault::Memory) => {
                // The piece may be pushed again, and yields its frames then.
                frames.clear();
                self.rest.truncate(old_len);
                Err(FrameFault::Memory)
            }
            Err(fault) => {
                self.rest.clear();
                self.has_failed = true;
                Err(fault)
            }
        }
    }

    /// Ends the stream. Fails with `Truncated` if a frame is incomplete, and with `Failed` after an
    /// earlier fault.
    pub fn end(self) -> Result<(), FrameFault>
        ensures { result ≡ end_of self }
    {
        if self.has_failed {
            return Err(FrameFault::Failed);
        }
        if !self.rest.is_empty() {
            return Err(FrameFault::Truncated);
        }
        Ok(())
    }
}
