//! Limits of a frame's length, and of the parts of reports and snapshots.

/// Minimum length of a frame's body, in bytes: its version and its kind.
pub const LEAST_BODY: usize = 2;

/// Maximum length of a frame's body, in bytes.
pub const BODY_LIMIT: usize = 65_536;

/// Maximum number of locks in a report, in a report part or in a snapshot part.
pub const ENTRY_LIMIT: usize = 64;

/// Maximum number of parts of a report.
pub const REPORT_PART_LIMIT: u16 = 16;

/// Maximum number of parts of a snapshot.
pub const SNAPSHOT_PART_LIMIT: u16 = 65_535;

/// Maximum number of tabs in a start list.
pub const LIST_LIMIT: usize = 1_024;
