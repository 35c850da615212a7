//! C interface of the client.
//!
//! Each function takes a handle, which holds a client or nothing, and calls one function of `wl_client`.
#![tactic(auto)]

mod channels;
mod commands;
mod events;
mod handle;
mod life;
mod links;
mod page;
mod status;
