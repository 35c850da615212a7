//! Reasons for which the kernel refuses a call.

use std::alloc::{AllocError, AllocFailed};
use thiserror::Error;

/// Reason for which a tab was not opened.
#[derive(Clone, Copy, Debug, PartialEq, Eq, Error)]
pub enum OpenFault {
    /// The number is 0, or a tab was opened with it before.
    #[error("NumberTaken")]
    NumberTaken,
    /// 1,024 tabs live.
    #[error("TooManyLiving")]
    TooManyLiving,
    /// 64 tabs of the partition live.
    #[error("PartitionFull")]
    PartitionFull,
    /// Out of memory.
    #[error("Memory")]
    Memory,
}

/// Reason for which a tab was not killed.
#[derive(Clone, Copy, Debug, PartialEq, Eq, Error)]
pub enum KillFault {
    /// No such tab was ever opened.
    #[error("NoTab")]
    NoTab,
    /// The tab is dead.
    #[error("AlreadyDead")]
    AlreadyDead,
}

/// Reason for which a broker was not started.
#[derive(Clone, Copy, Debug, PartialEq, Eq, Error)]
pub enum StartFault {
    /// More than 1,024 tabs are listed.
    #[error("TooManyListed")]
    TooManyListed,
    /// The listed numbers do not strictly rise.
    #[error("NotRising")]
    NotRising,
    /// The least listed tab that was never opened.
    #[error("Stranger")]
    Stranger(u16),
    /// The least living tab that was opened before the last stop and is not listed.
    #[error("Missing")]
    Missing(u16),
    /// Out of memory.
    #[error("Memory")]
    Memory,
}

/// The current generation is the last one that there may be.
#[derive(Clone, Copy, Debug, PartialEq, Eq, Error)]
#[error("GenerationsUsedUp")]
pub struct GenerationsUsedUp;

/// Reason for which a frame was not routed.
#[derive(Clone, Copy, Debug, PartialEq, Eq, Error)]
pub enum RouteFault {
    /// The frame came over the link of a broker whose generation is not the current one.
    #[error("StaleLink")]
    StaleLink,
    /// No frame of this kind is routed in this direction, or its generation differs from its link's.
    #[error("WrongKind")]
    WrongKind,
    /// The tab was never opened.
    #[error("NoTab")]
    NoTab,
    /// The tab is dead.
    #[error("DeadTab")]
    DeadTab,
    /// Out of memory.
    #[error("Memory")]
    Memory,
}

impl From<AllocError> for OpenFault {
    ghost use Rattle.std.specs.Prelude.{◌≡◌};
    ghost use Rattle.wl_kernel.specs.declared.fault.OpenFault.TheVariants.{Memory as memory};

    ghost from_gives = { λ _ fault. fault ≡ memory };

    fn from(_refused: AllocError) -> OpenFault {
        OpenFault::Memory
    }
}

impl<T: Drop> From<AllocFailed<T>> for OpenFault {
    ghost use Rattle.std.specs.Prelude.{◌≡◌};
    ghost use Rattle.wl_kernel.specs.declared.fault.OpenFault.TheVariants.{Memory as memory};

    ghost from_gives = { λ _ fault. fault ≡ memory };

    fn from(_refused: AllocFailed<T>) -> OpenFault {
        OpenFault::Memory
    }
}

impl From<AllocError> for StartFault {
    ghost use Rattle.std.specs.Prelude.{◌≡◌};
    ghost use Rattle.wl_kernel.specs.declared.fault.StartFault.TheVariants.{Memory as memory};

    ghost from_gives = { λ _ fault. fault ≡ memory };

    fn from(_refused: AllocError) -> StartFault {
        StartFault::Memory
    }
}

impl From<AllocError> for RouteFault {
    ghost use Rattle.std.specs.Prelude.{◌≡◌};
    ghost use Rattle.wl_kernel.specs.declared.fault.RouteFault.TheVariants.{Memory as memory};

    ghost from_gives = { λ _ fault. fault ≡ memory };

    fn from(_refused: AllocError) -> RouteFault {
        RouteFault::Memory
    }
}
