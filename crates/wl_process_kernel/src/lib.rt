//! The kernel's process: threads, sockets, children and locks around the verified crates below.
//! This crate is proved to be memory-safe and free of panics; its behavior is tested.
#![tactic(auto)]

mod broker_keeper;
mod child_link;
mod clock;
pub mod kernel;
mod shared_kernel;
pub mod tab_death;
mod tab_link;
mod tab_outbox;
mod tab_uplink;
mod writer_wait;

pub use kernel::{KernelWords, run_kernel};
