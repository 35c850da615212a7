//! The outbox of a tab: a bounded queue of parcels on their way to the tab.
//!
//! Several threads put, each with a pass of its own, and one thread takes. They share the outbox
//! without a lock.
#![tactic(auto)]

pub mod fault;
pub mod laws;
pub mod outbox;
pub mod parcel;
pub mod pass;
pub mod rule;

pub use fault::{CrossPartition, Full};
pub use outbox::Outbox;
pub use parcel::Parcel;
pub use pass::Pass;
pub use rule::{Role, View};
pub use wl_grammar::Memory;
