//! C interface of the hub.
//!
//! Each function takes a handle, which holds a hub or nothing, and calls one function of `wl_hub`.
#![tactic(auto)]

mod broker;
mod handle;
mod life;
mod links;
mod status;
mod tabs;
