//! Faults of a stream of frames.

use thiserror::Error;
use wl_grammar::frame::Frame;

/// Fault of a stream of frames, or reason why it could not be read further.
#[derive(Clone, Copy, Debug, PartialEq, Eq, Error)]
pub enum FrameFault {
    /// The length of a body is below 2 or above 65,536.
    #[error("BadLength")]
    BadLength,
    /// The version is unknown.
    #[error("BadVersion")]
    BadVersion,
    /// The kind is unknown in its version.
    #[error("BadKind")]
    BadKind,
    /// A field has an invalid value, or is cut off by the end of the body.
    #[error("BadField")]
    BadField,
    /// Bytes follow the last field.
    #[error("LeftOver")]
    LeftOver,
    /// The stream ended within a frame.
    #[error("Truncated")]
    Truncated,
    /// Out of memory.
    #[error("Memory")]
    Memory,
    /// An earlier fault has ended the stream.
    #[error("Failed")]
    Failed,
}

/// A fault in a piece of a stream, with the frames of that piece in front of the fault.
#[derive(Drop)]
pub struct PushFault {
    pub before: Vec<Frame>,
    pub fault: FrameFault,
}
