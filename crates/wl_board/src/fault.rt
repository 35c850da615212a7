//! Reasons for the failure of a call.

use std::alloc::AllocError;
use thiserror::Error;

/// Why no number was drawn.
#[derive(Clone, Copy, Debug, PartialEq, Eq, Error)]
pub enum DrawFault {
    /// All numbers of the board are drawn.
    #[error("TabsUsedUp")]
    TabsUsedUp,
    /// The seat has made `SEAT_STEP_LIMIT` draws.
    #[error("SeatSpent")]
    SeatSpent,
}

/// The seat has made `SEAT_STEP_LIMIT` bumps.
#[derive(Clone, Copy, Debug, PartialEq, Eq, Error)]
#[error("SeatSpent")]
pub struct SeatSpent;

/// Out of memory.
#[derive(Clone, Copy, Debug, PartialEq, Eq, Error)]
#[error("Memory")]
pub struct Memory;

impl From<AllocError> for Memory {
    fn from(_refused: AllocError) -> Memory {
        Memory
    }
}
