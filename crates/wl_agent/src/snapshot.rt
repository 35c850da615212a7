//! Answer to a query.

use wl_grammar::{Mode, Name, Sequence};

/// A lock of the tab's partition, or a request for one.
#[derive(Debug, Drop)]
pub struct LockInfo {
    pub tab: u16,
    pub mode: Mode,
    pub name: Name,
}

/// The locks of the tab's partition at the time when the broker took the query.
#[derive(Debug, Drop)]
pub struct Snapshot {
    /// Held locks, in the order of granting.
    pub held: Sequence<LockInfo>,
    /// Pending requests, in the order of queueing.
    pub pending: Sequence<LockInfo>,
}
