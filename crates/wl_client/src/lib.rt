//! Client: a tab's locks and channels, behind bytes.
//!
//! A renderer owns one client for each tab. Bytes from the hub go in, and bytes for the hub and events
//! come out. The client has no thread, socket, clock or global state.
#![tactic(auto)]

pub mod channels;
pub mod client;
pub mod commands;
pub mod fault;
pub mod receiving;
pub mod sending;

pub use client::{Client, Event, Unsent};
pub use fault::{CallFault, ChannelCallFault, ReceiveFault};
pub use receiving::Progress;
pub use sending::Output;
