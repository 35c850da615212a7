//! Result of sending a message.

use crate::message::Message;

/// A message that was sent.
#[derive(Drop)]
pub struct Sent {
    pub message: Message,
    /// Its place in the bag, counted from 0.
    pub place: usize,
    /// Whether no equal message was sent before.
    pub is_new: bool,
}
