//! The broker's input events and its replies.

ghost use Rattle.std.specs.Prelude.{◌≡◌, IfOk};

use std::alloc::AllocError;
use wl_broker::{Dropped, Outs};
use wl_grammar::Stamped;

/// An input event of the broker.
#[derive(Drop, PartialEq, Eq)]
pub enum BookEvent {
    /// A message of a tab arrived.
    Take(Stamped),
    /// The kernel reported the death of this tab.
    Dead(u16),
}

/// The broker's reply to an event.
#[derive(Drop, PartialEq, Eq)]
pub enum Reply {
    /// The broker acted on the event and sends these frames.
    Outs(Outs),
    /// The broker dropped the message for this reason, which is never `Memory`. Nothing has
    /// changed.
    Dropped(Dropped),
}

impl BookEvent {
    /// Copies the event into memory of its own.
    pub fn copy(&self) -> Result<BookEvent, AllocError>
        ensures { IfOk result (λ copy. copy ≡ self.now) }
    {
        Ok(match self {
            BookEvent::Take(stamped) => BookEvent::Take(stamped.clone()?),
            BookEvent::Dead(tab) => BookEvent::Dead(*tab),
        })
    }
}
