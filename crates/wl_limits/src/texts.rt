//! Limits of the length of texts, in bytes.

/// Maximum length of a URL from which an origin is parsed.
pub const URL_LIMIT: usize = 2_048;

/// Maximum length of an origin.
pub const ORIGIN_LIMIT: usize = 4_096;

/// Maximum length of the name of a lock or of a channel.
pub const NAME_LIMIT: usize = 255;

/// Maximum length of a post's data.
pub const DATA_LIMIT: usize = 16_384;
