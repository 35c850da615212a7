//! Frames for tabs, oldest first.

ghost use Rattle.std.specs.Prelude.{◌≡◌, ◌+◌, ◌≤◌, ◌<◌, [], ◌∷◌, ◌++◌, length, None, IfSome, IsSome, OnOk, OnErr};
ghost use Rattle.std.specs.VecDeque.{deque_len, deque_capacity};
ghost use Rattle.wl_hub.specs.Hub.{from_broker};
ghost use Rattle.wl_hub.specs.Stored.{queued, HasRoom};
ghost use Rattle.wl_hub.specs.declared.outputs.TheConstants.{SPARE};

use std::alloc::{AllocError, Global};
use std::collections::VecDeque;
use wl_broker::Outs;
use wl_broker::outs::Frames;
use wl_frames::{Addressed, Downward, Frame};

/// The number of frames for which the queue has room before an event.
pub(crate) const SPARE: usize = 2;

/// Frames for tabs. A frame that the broker has sent is never lost: if the queue cannot grow, the
/// frames of the broker's last event stay in the list that the broker made.
#[derive(Drop)]
pub(crate) struct Outputs {
    pub(crate) queue: VecDeque<(u16, Frame)>,
    /// Frames of the broker's last event. They are sent after the frames of the queue.
    rest: VecDeque<Addressed>,
}

impl Outputs {
    /// Creates an empty queue.
    pub(crate) fn new(alloc: Global) -> Outputs
        ensures { queued result ≡ [] }
    {
        Outputs {
            queue: VecDeque::new(alloc),
            rest: VecDeque::new(alloc),
        }
    }

    /// Returns the number of frames.
    pub(crate) fn len(&self) -> usize
        ensures { result ≡ length (queued self.now) }
    {
        self.queue.len().saturating_add(self.rest.len())
    }

    /// Moves all frames into the queue, with room for `SPARE` more. Fails if out of memory.
    pub(crate) fn make_room(&mut self) -> Result<(), AllocError>
        ensures same { queued self.new ≡ queued self.old }
        ensures room { OnOk result (HasRoom SPARE self.new) }
    {
        self.queue.reserve(self.rest.len().saturating_add(SPARE))?;
        while let Some(addressed) = self.rest.pop_front() {
            self.queue.push_back_reserved(frame_for(addressed));
        }
        Ok(())
    }

    /// Moves a frame to the front of the queue, unless no frame is left. Fails if out of memory.
    pub(crate) fn settle(&mut self) -> Result<(), AllocError>
        ensures same { queued self.new ≡ queued self.old }
        ensures front { OnOk result (self.new.queue.items ≡ [] → self.new.rest.items ≡ []) }
    {
        if !self.queue.is_empty() {
            return Ok(());
        }
        self.queue.reserve(1)?;
        if let Some(addressed) = self.rest.pop_front() {
            self.queue.push_back_reserved(frame_for(addressed));
        }
        Ok(())
    }

    /// Removes the oldest frame. `settle` has moved it to the queue.
    pub(crate) fn take_front(&mut self) -> Option<(u16, Frame)>
        requires { self.old.queue.items ≡ [] → self.old.rest.items ≡ [] }
        ensures first { IfSome result (λ o. queued self.old ≡ o ∷ queued self.new) }
        ensures none { result ≡ None → (queued self.old ≡ []) × (queued self.new ≡ queued self.old) }
        ensures room { IsSome result → deque_len self.new.queue < deque_capacity self.new.queue }
    {
        self.queue.pop_front()
    }

    /// Puts a frame back to the front.
    pub(crate) fn put_back(&mut self, frame: (u16, Frame))
        requires { deque_len self.old.queue < deque_capacity self.old.queue }
        ensures { queued self.new ≡ frame ∷ queued self.old }
    {
        self.queue.push_front_reserved(frame);
    }

    /// Appends a frame.
    pub(crate) fn put(&mut self, tab: u16, frame: Frame)
        requires { HasRoom 1 self.old }
        ensures frames { queued self.new ≡ queued self.old ++ (tab, frame) ∷ [] }
        ensures room { HasRoom 2 self.old → HasRoom 1 self.new }
    {
        self.queue.push_back_reserved((tab, frame));
    }

    /// Appends the frames of an event of the broker. Allocates no memory.
    pub(crate) fn put_outs(&mut self, outs: Outs)
        requires { HasRoom 1 self.old }
        ensures { queued self.new ≡ queued self.old ++ from_broker outs }
    {
        match outs.into_frames() {
            Frames::One(addressed) => self.queue.push_back_reserved(frame_for(addressed)),
            Frames::Listed(listed) => self.rest = VecDeque::from(listed),
        }
    }

    /// Appends frames of the kernel. Fails if out of memory.
    pub(crate) fn put_all(&mut self, frames: Vec<(u16, Frame)>) -> Result<(), AllocError>
        requires { HasRoom 0 self.old }
        ensures ok { OnOk result (queued self.new ≡ queued self.old ++ frames.items) }
        ensures err { OnErr result (queued self.new ≡ queued self.old) }
    {
        self.queue.reserve(frames.len())?;
        let mut frames = VecDeque::from(frames);
        while let Some(frame) = frames.pop_front() {
            self.queue.push_back_reserved(frame);
        }
        Ok(())
    }
}

/// Returns the broker's frame as its tab receives it.
fn frame_for(addressed: Addressed) -> (u16, Frame)
    ensures { result ∷ [] ≡ from_broker (addressed ∷ []) }
{
    let Addressed { tab, inner } = addressed;
    let frame = match inner {
        Downward::Hello(hello) => Frame::Hello(hello),
        Downward::Answer(answer) => Frame::Answer(answer),
        Downward::Snapshot(snapshot) => Frame::Snapshot(snapshot.into_inner()),
    };
    (tab, frame)
}
