//! The broker's process: threads and locks around the verified broker. This crate is proved to be
//! memory-safe and free of panics; its behavior is tested.
#![tactic(auto)]

pub mod broker;
mod inbox;
mod lanes;
mod mailbox;
mod outbound;

pub use broker::{run_broker, run_generation};
