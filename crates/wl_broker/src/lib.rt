//! Broker of one generation: the tabs that have arrived, and the locks of each partition.
#![tactic(auto)]

mod answers;
pub mod broker;
mod changes;
pub mod dropped;
pub mod examples;
mod judging;
pub mod laws;
mod listed;
pub mod outs;
mod partition_locks;
pub mod seat;
mod seats;
mod spare_buffers;

pub use broker::Broker;
pub use dropped::Dropped;
pub use outs::{Frames, Outs};
pub use wl_table::{LockTable, Memory};
