//! Faults of issuing commands and of making frames.

ghost use Rattle.std.specs.Prelude.{◌≡◌};
ghost use Rattle.wl_agent.specs.declared.fault.AgentFault.TheVariants.{Memory as agent_memory};
ghost use Rattle.wl_agent.specs.declared.fault.MessageFault.TheVariants.{Memory as message_memory};

use std::alloc::AllocError;
use thiserror::Error;

/// Reason why a command was not issued. A refused call changes nothing.
#[derive(Clone, Copy, Debug, PartialEq, Eq, Error)]
pub enum AgentFault {
    /// The name starts with U+002D.
    #[error("NotSupported")]
    NotSupported,
    /// The name is longer than 255 bytes.
    #[error("NameTooLong")]
    NameTooLong,
    /// The tab has reached its limit of live numbers.
    #[error("TooMany")]
    TooMany,
    /// Too few numbers are left for the command, or for its release or abort.
    #[error("NumbersUsedUp")]
    NumbersUsedUp,
    /// Out of memory.
    #[error("Memory")]
    Memory,
}

impl From<AllocError> for AgentFault {
    ghost from_gives = { λ _ fault. fault ≡ agent_memory };

    fn from(_refused: AllocError) -> AgentFault {
        AgentFault::Memory
    }
}

/// Reason why a frame was not made.
#[derive(Clone, Copy, Debug, PartialEq, Eq, Error)]
pub enum MessageFault {
    /// The tab has not entered any generation.
    #[error("NotEntered")]
    NotEntered,
    /// No command has the number.
    #[error("NoSuchNumber")]
    NoSuchNumber,
    /// Out of memory.
    #[error("Memory")]
    Memory,
}

impl From<AllocError> for MessageFault {
    ghost from_gives = { λ _ fault. fault ≡ message_memory };

    fn from(_refused: AllocError) -> MessageFault {
        MessageFault::Memory
    }
}
