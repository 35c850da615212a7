//! Supervisor with its broker: the kernel's table of tabs, and the broker that is up.
#![tactic(auto)]

pub mod supervised_broker;

pub use supervised_broker::{SupervisedBroker, SupervisorOutcome};
