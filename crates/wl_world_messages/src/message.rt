//! Messages that tabs, kernel and broker send each other.

ghost use Rattle.std.specs.Prelude.{◌≡◌, IfOk};

use std::alloc::AllocError;
use wl_grammar::{Addressed, Heard, Stamped};

/// Sender of a message to a tab, other than a post.
#[derive(Clone, Copy, Debug, PartialEq, Eq)]
pub enum Sender {
    Kernel,
    Broker,
}

/// A message with its sender and its recipient.
#[derive(Drop)]
pub enum Message {
    /// A tab's command, report or part of a report to the broker, with the kernel's stamp.
    Up(Stamped),
    /// A hello, an answer or a part of a snapshot, to a tab.
    Down {
        sender: Sender,
        addressed: Addressed,
    },
    /// A post of one tab to another.
    Across {
        tab: u16,
        heard: Heard,
    },
}

impl Message {
    /// Returns an equal message. The bytes of a post are shared with this message. Everything else is copied.
    pub fn copy(&self) -> Result<Message, AllocError>
        ensures equals { IfOk result (λ copy. copy ≡ self.now) }
    {
        Ok(match self {
            Message::Up(stamped) => Message::Up(stamped.clone()?),
            Message::Down { sender, addressed } => Message::Down {
                sender: *sender,
                addressed: addressed.clone()?,
            },
            Message::Across { tab, heard } => Message::Across {
                tab: *tab,
                heard: heard.clone()?,
            },
        })
    }
}
