//! Broadcast channels of one tab: its channel objects, the posts it makes and the posts it
//! receives.
#![tactic(auto)]

pub mod channel;
pub mod channels;
pub mod fault;
pub mod laws;
pub mod letter;
mod object;

pub use channel::{Channel, Foreign};
pub use channels::Channels;
pub use fault::ChannelFault;
pub use letter::{Hearing, Letter, Numbers, Posted};
