//! The kernel's board: tab numbers, the life state of each tab, and the broker's current
//! generation.
//!
//! Threads share the board without a lock. Each call is one atomic operation and never blocks.
#![tactic(auto)]

pub mod board;
pub mod fault;
pub mod laws;
pub mod rule;
pub mod seat;
pub mod tab;

pub use board::Board;
pub use fault::{DrawFault, Memory, SeatSpent};
pub use rule::View;
pub use seat::Seat;
pub use tab::{Birth, Life, Ticket};
