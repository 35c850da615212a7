//! One tab's side of the machine: its locks with their tokens, its channels, and the tables of all tabs.
#![tactic(auto)]

pub mod channel_tables;
pub mod channels;
pub mod holding;
pub mod lock_tables;
pub mod locks;

pub use channels::{ChannelRefusal, TabChannels};
pub use holding::Holding;
pub use locks::{AbortResult, TabLocks};
