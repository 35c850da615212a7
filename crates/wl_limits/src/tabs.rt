//! Limits of the number of tabs, and of the commands and locks of each.

/// Maximum number of tabs alive at the same time.
pub const LIVING_LIMIT: usize = 1_024;

/// Maximum number of tabs of one partition alive at the same time.
pub const PARTITION_LIMIT: usize = 64;

/// The last tab number. The kernel never reuses a tab's number.
pub const LAST_TAB: u16 = 65_535;

/// Maximum number of commands that a tab issues.
pub const COMMAND_LIMIT: u32 = 1_000_000;

/// The greatest number that fits in a frame. The broker takes no command with this number.
pub const LAST_NUMBER: u32 = 4_294_967_295;

/// Maximum number of live locks of a tab that reports in a single frame.
pub const LIVE_LIMIT: usize = 64;

/// Maximum number of live locks of a tab that reports in parts.
pub const LIVE_LIMIT_IN_PARTS: usize = 1_024;
