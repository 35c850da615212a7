//! Partitions (storage keys) of pages: a top-level origin and an own origin, by RFC 6454.
#![tactic(auto)]

pub mod fault;
pub mod origin_pair;
pub mod parse;
mod tuple_origin;

pub use fault::OriginFault;
pub use origin_pair::Partition;
pub use parse::{partition, partition_pair};
