//! Locks that tabs hold.

use wl_draft::{Mode, Name};

/// A lock that a living tab holds, by its own account.
#[derive(Debug, Drop)]
pub struct Holding {
    pub tab: u16,
    /// The number of the command that requested it.
    pub number: u32,
    pub mode: Mode,
    pub name: Name,
}
