//! Limits of the standards, the protocol and the scripts. Code and contracts use the same name for
//! each limit.
#![tactic(auto)]

pub mod brokers;
pub mod frames;
pub mod laws;
pub mod scripts;
pub mod tabs;
pub mod texts;
