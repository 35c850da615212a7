//! Reasons for which a call of the client fails.

ghost use Rattle.std.specs.Prelude.{◌≡◌};
ghost use Rattle.wl_client.specs.Faults.{of_agent, of_opening, of_channel};
ghost use Rattle.wl_client.specs.declared.fault.CallFault.TheVariants as calls;
ghost use Rattle.wl_client.specs.declared.fault.ChannelCallFault.TheVariants as channel_calls;

use std::alloc::AllocError;
use thiserror::Error;
use wl_agent::AgentFault;
use wl_broadcast::ChannelFault;
use wl_frames::FrameFault;
use wl_tab::ChannelRefusal;

/// Reason for which a command was not issued.
#[derive(Clone, Copy, Debug, PartialEq, Eq, Error)]
pub enum CallFault {
    /// The welcome has not arrived.
    #[error("NotWelcomed")]
    NotWelcomed,
    /// The agent refused the command.
    #[error("Agent")]
    Agent(AgentFault),
    /// Out of memory.
    #[error("Memory")]
    Memory,
}

impl CallFault {
    /// Converts a refusal of the agent.
    pub(crate) fn of_agent(fault: AgentFault) -> CallFault
        ensures { result ≡ of_agent fault }
    {
        match fault {
            AgentFault::Memory => CallFault::Memory,
            fault => CallFault::Agent(fault),
        }
    }
}

impl From<AllocError> for CallFault {
    ghost from_gives = { λ _ fault. fault ≡ calls.Memory };

    fn from(_refused: AllocError) -> CallFault {
        CallFault::Memory
    }
}

/// Reason for which a call on a channel failed.
#[derive(Clone, Copy)]
pub enum ChannelCallFault {
    /// The welcome has not arrived.
    NotWelcomed,
    /// The channels refused the call.
    Channel(ChannelRefusal),
    /// Out of memory.
    Memory,
}

impl ChannelCallFault {
    /// Converts a refusal to open a channel.
    pub(crate) fn of_opening(fault: ChannelFault) -> ChannelCallFault
        ensures { result ≡ of_opening fault }
    {
        match fault {
            ChannelFault::Memory => ChannelCallFault::Memory,
            fault => ChannelCallFault::Channel(ChannelRefusal::Fault(fault)),
        }
    }

    /// Converts a refusal of a call on a channel number.
    pub(crate) fn of_channel(refusal: ChannelRefusal) -> ChannelCallFault
        ensures { result ≡ of_channel refusal }
    {
        match refusal {
            ChannelRefusal::Fault(fault) => ChannelCallFault::of_opening(fault),
            refusal => ChannelCallFault::Channel(refusal),
        }
    }
}

impl From<AllocError> for ChannelCallFault {
    ghost from_gives = { λ _ fault. fault ≡ channel_calls.Memory };

    fn from(_refused: AllocError) -> ChannelCallFault {
        ChannelCallFault::Memory
    }
}

/// Reason for which the client did not take bytes of the hub.
#[derive(Clone, Copy, Debug, PartialEq, Eq, Error)]
pub enum ReceiveFault {
    /// Frames that arrived earlier wait for `advance`.
    #[error("Busy")]
    Busy,
    /// The bytes are not a stream of frames. The caller has to close the link.
    #[error("Frame")]
    Frame(FrameFault),
}
