//! Reasons for which a call of the hub fails.

ghost use Rattle.std.specs.Prelude.{◌≡◌};
ghost use Rattle.wl_hub.specs.Faults.{of_origin, of_kernel};
ghost use Rattle.wl_hub.specs.declared.fault.OpenRefusal.TheVariants as refusals;
ghost use Rattle.wl_hub.specs.declared.fault.CloseFault.TheVariants as closings;
ghost use Rattle.wl_hub.specs.declared.fault.RestartFault.TheVariants as restarts;

use std::alloc::AllocError;
use thiserror::Error;
use wl_frames::FrameFault;
use wl_kernel::OpenFault;
use wl_origin::OriginFault;

/// Reason for which a tab was not opened.
#[derive(Clone, Copy, Debug, PartialEq, Eq, Error)]
pub enum OpenRefusal {
    /// The tab's URL, or the top-level URL, has no partition.
    #[error("Origin")]
    Origin(OriginFault),
    /// The kernel refused the tab.
    #[error("Tab")]
    Tab(OpenFault),
    /// Out of memory.
    #[error("Memory")]
    Memory,
}

impl OpenRefusal {
    /// Converts a fault of a URL.
    pub(crate) fn of_origin(fault: OriginFault) -> OpenRefusal
        ensures { result ≡ of_origin fault }
    {
        match fault {
            OriginFault::Memory => OpenRefusal::Memory,
            fault => OpenRefusal::Origin(fault),
        }
    }

    /// Converts a refusal of the kernel.
    pub(crate) fn of_kernel(fault: OpenFault) -> OpenRefusal
        ensures { result ≡ of_kernel fault }
    {
        match fault {
            OpenFault::Memory => OpenRefusal::Memory,
            fault => OpenRefusal::Tab(fault),
        }
    }
}

impl From<AllocError> for OpenRefusal {
    ghost from_gives = { λ _ refusal. refusal ≡ refusals.Memory };

    fn from(_refused: AllocError) -> OpenRefusal {
        OpenRefusal::Memory
    }
}

/// Reason for which a tab was not closed.
#[derive(Clone, Copy, Debug, PartialEq, Eq, Error)]
pub enum CloseFault {
    /// No such tab lives.
    #[error("NotLiving")]
    NotLiving,
    /// Out of memory.
    #[error("Memory")]
    Memory,
}

impl From<AllocError> for CloseFault {
    ghost from_gives = { λ _ fault. fault ≡ closings.Memory };

    fn from(_refused: AllocError) -> CloseFault {
        CloseFault::Memory
    }
}

/// Reason for which the hub did not take bytes of a tab.
#[derive(Clone, Copy, Debug, PartialEq, Eq, Error)]
pub enum ReceiveFault {
    /// No such tab lives.
    #[error("NoTab")]
    NoTab,
    /// Frames that arrived earlier wait for `advance`.
    #[error("Busy")]
    Busy,
    /// The bytes are not a stream of frames. The caller has to close the tab.
    #[error("Frame")]
    Frame(FrameFault),
}

/// Reason for which no broker was started.
#[derive(Clone, Copy, Debug, PartialEq, Eq, Error)]
pub enum RestartFault {
    /// The broker is of the last generation.
    #[error("GenerationsUsedUp")]
    GenerationsUsedUp,
    /// Out of memory. No broker is up.
    #[error("Memory")]
    Memory,
}

impl From<AllocError> for RestartFault {
    ghost from_gives = { λ _ fault. fault ≡ restarts.Memory };

    fn from(_refused: AllocError) -> RestartFault {
        RestartFault::Memory
    }
}
