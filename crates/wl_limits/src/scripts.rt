//! Limit of the length of a script's lines.

/// Maximum length of a script's line, in bytes, without its line end.
pub const LINE_LIMIT: usize = 65_536;
