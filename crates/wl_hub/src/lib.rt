//! Hub: the kernel with its broker, behind bytes.
//!
//! A browser process owns one hub. Bytes from tabs go in, and bytes for tabs come out. The hub has no
//! thread, socket, clock or global state.
#![tactic(auto)]

mod broker_life;
mod early;
pub mod fault;
pub mod hub;
mod outputs;
pub mod receiving;
pub mod sending;

pub use fault::{CloseFault, OpenRefusal, ReceiveFault, RestartFault};
pub use hub::{Hub, HubStatus};
pub use receiving::Progress;
pub use sending::Output;
