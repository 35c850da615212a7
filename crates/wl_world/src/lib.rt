//! Machine that runs the model of the browser's locks and channels, event by event.
#![tactic(auto)]

mod components;
pub mod run;
mod sending;
pub mod world;

pub use wl_tab::holding;
pub use wl_world_messages::message;
pub use wl_world_model::{event, examples, laws, reply};
