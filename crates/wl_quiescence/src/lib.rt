//! Law of rest: once every frame has arrived, a request waits only for a lock.
//!
//! The law is stated over the steps of `wl_library_model`, after which it speaks of the hub, the clients and the links.
#![tactic(auto)]

pub mod quiescence;
