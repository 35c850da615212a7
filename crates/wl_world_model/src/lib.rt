//! Model of the browser's locks and channels as one machine over events, with the laws of all its runs.
//!
//! The model is made of definitions alone (`specs/`). The crate `wl_world` has the machine that runs.
#![tactic(auto)]

pub mod event;
pub mod examples;
pub mod laws;
pub mod reply;
