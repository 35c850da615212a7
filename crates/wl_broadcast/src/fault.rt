//! Faults of calls on a tab's channels.

ghost use Rattle.std.specs.Prelude.{◌≡◌};
ghost use Rattle.wl_broadcast.specs.declared.fault.ChannelFault.TheVariants.{Memory as memory};

use std::alloc::{AllocError, AllocFailed};
use thiserror::Error;

/// Reason why a call on a tab's channels was refused. A refused call changes nothing.
#[derive(Clone, Copy, Debug, PartialEq, Eq, Error)]
pub enum ChannelFault {
    /// The name is longer than 255 bytes.
    #[error("NameTooLong")]
    NameTooLong,
    /// The data is longer than 16,384 bytes.
    #[error("DataTooLong")]
    DataTooLong,
    /// The tab has 64 open channels.
    #[error("TooManyChannels")]
    TooManyChannels,
    /// The tab has made 1,000,000 posts.
    #[error("PostsUsedUp")]
    PostsUsedUp,
    /// The channel is closed, or belongs to another tab.
    #[error("ForeignChannel")]
    ForeignChannel,
    /// The frame is not a Heard frame.
    #[error("WrongKind")]
    WrongKind,
    /// Out of memory.
    #[error("Memory")]
    Memory,
}

impl From<AllocError> for ChannelFault {
    ghost from_gives = { λ _ fault. fault ≡ memory };

    fn from(_refused: AllocError) -> ChannelFault {
        ChannelFault::Memory
    }
}

impl<T: Drop> From<AllocFailed<T>> for ChannelFault {
    ghost from_gives = { λ _ fault. fault ≡ memory };

    fn from(_refused: AllocFailed<T>) -> ChannelFault {
        ChannelFault::Memory
    }
}
