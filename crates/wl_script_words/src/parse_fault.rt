//! Reasons for not parsing a line or a word.

ghost use Rattle.std.specs.Prelude.{◌≡◌};
ghost use Rattle.wl_script_words.specs.declared.parse_fault.ParseFault.TheVariants as unread;

use std::alloc::{AllocError, AllocFailed};
use std::str::Utf8Error;

/// Why a line or a word of it was not parsed.
#[derive(Clone, Copy, Debug, PartialEq, Eq)]
pub enum ParseFault {
    /// Syntax error.
    Form,
    /// Out of memory.
    Memory,
}

impl From<AllocError> for ParseFault {
    ghost from_gives = { λ _ e. e ≡ unread.Memory };

    fn from(_fault: AllocError) -> ParseFault {
        ParseFault::Memory
    }
}

impl<T: Drop> From<AllocFailed<T>> for ParseFault {
    ghost from_gives = { λ _ e. e ≡ unread.Memory };

    fn from(_fault: AllocFailed<T>) -> ParseFault {
        ParseFault::Memory
    }
}

impl From<Utf8Error> for ParseFault {
    ghost from_gives = { λ _ e. e ≡ unread.Form };

    fn from(_fault: Utf8Error) -> ParseFault {
        ParseFault::Form
    }
}
