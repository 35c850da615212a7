//! Printing of texts and numbers. Each function appends to the output.

ghost use Rattle.std.specs.Prelude.{◌≡◌, ◌++◌, OnOk, decimal};
ghost use Rattle.wl_script_words.specs.WordPrinting.{numbered, mode_text};

use itoa::Buffer;
use std::alloc::AllocError;
use wl_draft::Mode;

/// Returns the word of a lock mode.
#[tactic(auto, unfolding(crate::specs::WordPrinting::mode_text))]
pub fn mode_word(mode: Mode) -> &'static str
    ensures { result.now ≡ mode_text mode }
{
    match mode {
        Mode::Shared => "shared",
        Mode::Exclusive => "exclusive",
    }
}

/// Appends a text unchanged.
pub fn put(out: &mut Vec<u8>, text: &str) -> Result<(), AllocError>
    ensures { OnOk result (out.new.items ≡ out.old.items ++ text.now) }
{
    out.extend_from_slice(text.as_bytes())
}

/// Appends a number in decimal.
pub fn put_number(out: &mut Vec<u8>, number: u64) -> Result<(), AllocError>
    ensures { OnOk result (out.new.items ≡ out.old.items ++ decimal number) }
{
    let mut buffer = Buffer::new();
    out.extend_from_slice(buffer.format(number).as_bytes())
}

/// Appends a line of a word and a number.
pub fn put_numbered(out: &mut Vec<u8>, word: &str, number: u64) -> Result<(), AllocError>
    ensures { OnOk result (out.new.items ≡ out.old.items ++ numbered word.now number) }
{
    put(out, word)?;
    put(out, " ")?;
    put_number(out, number)?;
    put(out, "\n")
}
