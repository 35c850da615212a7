//! The broker of one generation behind one lock, or in shards with one lock each, with its whole
//! history.
//!
//! Lanes step the broker from any thread, and each lane keeps a receipt of every step it made.
//! `close` compares the history with the receipts.
#![tactic(auto)]

mod answering;
pub mod book;
mod brokers;
pub mod event;
mod gathering;
pub mod lane;
pub mod laws;
pub mod locked;
mod locking;
mod marking;
pub mod receipt;
mod reservation;
mod shard_groups;
pub mod shard_lane;
pub mod sharded;
pub mod shards;
pub mod shared_event;
pub mod work;

pub use book::Book;
pub use event::{BookEvent, Reply};
pub use lane::{Generation, Lane};
pub use locked::{LANE_LIMIT, LockedBroker, STEP_LIMIT};
pub use receipt::{CloseFault, History, NotStepped, Receipt, Step};
pub use shard_lane::ShardLane;
pub use sharded::Sharded;
pub use shards::{Blanks, SHARD_LIMIT, Shards};
pub use shared_event::{EventHandles, SharedEvent};
pub use wl_broker::{Dropped, Frames, Memory, Outs};
pub use work::{Work, deal, shard_of};
