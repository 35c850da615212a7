//! Parsed script lines.

use wl_frames::Name;
use wl_world::event::Event;

/// A parsed script line. Most lines are one event.
#[derive(Drop)]
pub enum SimLine {
    /// An empty line or a comment.
    Blank,
    /// `open`: opens a tab for a page, and greets it if a broker is up.
    Open {
        tab: u16,
        /// The URL as written, without escapes.
        url: Name,
    },
    /// `open2`: opens a tab that reports in parts, for a page embedded under a top-level page.
    OpenTwo {
        tab: u16,
        top: Name,
        url: Name,
    },
    /// `start` without tabs: starts the broker with all living tabs listed.
    StartAll,
    /// `deliver`: delivers the message of this name. `m1` is 1.
    Deliver {
        name: u64,
    },
    /// `show`: prints the locks held by living tabs.
    Show,
    /// Any other line: this event happens.
    Happens(Event),
}
