//! Results of received frames.

use crate::drop_reason::DropReason;
use wl_grammar::{Frame, Sequence};

/// Result of a frame that the tab received.
#[derive(Drop)]
pub enum Delivered {
    /// The tab has entered a generation. It has to send these frames, which are its report.
    Entered(Sequence<Frame>),
    /// The tab holds the lock of this number.
    Granted(u32),
    /// The request of this number is waiting.
    Waiting(u32),
    /// The probe of this number was refused.
    Null(u32),
    /// The query of this number gets no answer.
    Lost(u32),
    /// The broker has done the release or abort of this number.
    Taken(u32),
    /// The frame is a part of the answer to the query of this number.
    Part(u32),
    /// The frame is the last missing part of that answer.
    Whole(u32),
    /// The frame was dropped.
    Dropped(DropReason),
}
