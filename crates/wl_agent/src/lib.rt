//! Tab's side of the lock protocol: its numbered commands, the status of each, and the tokens of
//! their owners.
#![tactic(auto)]

pub mod agent;
mod answers;
pub mod delivered;
pub mod drop_reason;
pub mod fault;
pub mod laws;
mod operations;
mod reporting;
pub mod snapshot;
pub mod snapshot_parts;
pub mod status;
mod statuses;
pub mod token;

pub use agent::Agent;
pub use agent::ending::DeadAgent;
pub use agent::sending::Resend;
pub use delivered::Delivered;
pub use drop_reason::DropReason;
pub use fault::{AgentFault, MessageFault};
pub use snapshot::{LockInfo, Snapshot};
pub use token::{
    AbortFault, Asking, Foreign, HeldLock, Pending, Probe, ProbeSettled, QuerySettled, Settled,
    Token,
};
pub use wl_grammar::{Memory, Mode, Name};
