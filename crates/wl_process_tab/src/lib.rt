//! A tab's process: two threads around the verified agent. This crate is proved to be memory-safe
//! and free of panics; its behavior is tested.
#![tactic(auto)]

pub mod tab;
mod tab_session;

pub use tab::run_tab;
