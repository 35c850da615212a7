//! Messages of the machine, the bag of all messages ever sent, and the effects of events.
#![tactic(auto)]

pub mod bag;
pub mod effect;
pub mod message;
mod message_key;
mod places;
mod sameness;
pub mod sent;

pub use bag::Bag;
pub use effect::{Effect, Ended, Reached, Reason, Refusal};
pub use message::{Message, Sender};
pub use sent::Sent;
