/// TabSeat of a tab that has joined or died.
#[derive(Clone, Copy, Debug, PartialEq, Eq)]
pub enum TabSeat {
    /// The tab has reported in this generation.
    Joined {
        partition: u16,
        /// Number of the tab's next command.
        next: u32,
        /// Maximum number of locks of the tab.
        limit: u16,
    },
    /// The tab is dead.
    Dead,
}
