//! Text of an origin.

ghost use Rattle.std.specs.Prelude.{◌≡◌};
ghost use Rattle.std.specs.String.{string_bytes};
ghost use Rattle.std.specs.Str.{IsUtf8};

use std::marker::Model;

/// The text of an origin in a frame. Contracts see it as its bytes.
#[derive(Clone, Drop)]
pub struct Origin {
    text: String,
}

impl Model for Origin {
    ghost use Rattle.std.specs.Prelude.{ℕ, List};
    ghost use Rattle.std.specs.String.{string_bytes};

    ghost Value = { List ℕ };

    ghost view = { λ o. string_bytes o.text };
}

impl Origin {
    /// Wraps a text. Does not allocate.
    pub fn new(text: String) -> Origin
        ensures { result ≡ string_bytes text }
    {
        Origin { text }
    }

    /// Returns the text. Does not allocate.
    pub fn into_string(self) -> String
        ensures { string_bytes result ≡ self }
    {
        self.text
    }

    /// Returns the text as a string slice.
    pub fn as_str(&self) -> &str
        ensures value { result.now ≡ self.now }
        ensures utf8 { IsUtf8 self.now }
    {
        self.text.as_str()
    }
}
