//! Bytes that are compared, and printed as text when they differ.

use std::fmt;
use std::fmt::{Debug, Formatter};
use std::str::from_utf8;

/// Bytes of a text, which a failed assertion prints as that text.
#[derive(Clone, Copy, PartialEq, Eq)]
pub struct Text<'a>(pub &'a [u8]);

impl Debug for Text<'_> {
    fn fmt<W: fmt::Write>(&self, f: &mut Formatter<W>) -> fmt::Result {
        match from_utf8(self.0) {
            Ok(text) => f.write_str(text),
            Err(_) => f.write_str("bytes that are no text"),
        }
    }
}
