//! Reply to an event.

use wl_grammar::Sequence;
pub use wl_world_messages::{Effect, Ended, Reached, Reason, Refusal, Sent};

/// Complete reply to one event.
#[derive(Drop)]
pub struct Reply {
    pub said: Effect,
    /// The messages sent, in order.
    pub sent: Sequence<Sent>,
}
