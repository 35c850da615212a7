//! Model of a program that links the library, with the laws of all its runs.
//!
//! The model is made of definitions alone (`specs/`): a hub, the clients of its tabs, and the links between them. Its
//! steps are the public calls of `wl_hub` and `wl_client`.
#![tactic(auto)]

pub mod examples;
pub mod laws;
pub mod progress;
pub mod timely;
