//! Faults of a URL that has no partition.

use std::alloc::AllocError;
use thiserror::Error;
use url::ParseError;

/// Reason why a URL has no partition.
#[derive(Clone, Copy, Debug, PartialEq, Eq, Error)]
pub enum OriginFault {
    /// The text is not a URL or is too long, or its origin is too long.
    #[error("BadUrl")]
    BadUrl,
    /// The origin is opaque.
    #[error("SecurityError")]
    Security,
    /// Out of memory.
    #[error("Memory")]
    Memory,
}

impl From<ParseError> for OriginFault {
    ghost use Rattle.std.specs.Prelude.{◌≡◌};
    ghost use Rattle.wl_origin.specs.Fault.{fault_of};

    ghost from_gives = { λ cause fault. fault ≡ fault_of cause };

    // An overflow, at a URL of 4 GB, counts as out of memory.
    fn from(cause: ParseError) -> OriginFault {
        match cause {
            ParseError::OutOfMemory | ParseError::Overflow => OriginFault::Memory,
            _ => OriginFault::BadUrl,
        }
    }
}

impl From<AllocError> for OriginFault {
    ghost use Rattle.std.specs.Prelude.{◌≡◌};
    ghost use Rattle.wl_origin.specs.declared.fault.OriginFault.TheVariants.{Memory};

    ghost from_gives = { λ _ fault. fault ≡ Memory };

    fn from(_: AllocError) -> OriginFault {
        OriginFault::Memory
    }
}
