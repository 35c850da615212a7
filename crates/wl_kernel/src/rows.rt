//! Rows of the tab table, one for each tab that was opened.

use crate::homes::Home;

/// A tab that was opened.
#[derive(Drop)]
pub(crate) struct TabRow {
    pub(crate) tab: u16,
    /// The index of its partition's home.
    pub(crate) home: usize,
    /// The kernel's generation when the tab was opened.
    pub(crate) generation: u32,
    pub(crate) is_living: bool,
}

/// Result of a lookup: the tab's row and its partition's home.
#[derive(Clone, Copy)]
pub(crate) struct Found<'a> {
    pub(crate) row: &'a TabRow,
    pub(crate) home: &'a Home,
}
