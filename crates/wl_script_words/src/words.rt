//! Spelling of names, channels and data as words of scripts and replies.

ghost use Rattle.std.specs.Prelude.{◌≡◌, ◌<◌, ◌++◌, true, OnOk};
ghost use Rattle.std.specs.Fmt.{digit_glyph};
ghost use Rattle.wl_script_words.specs.Words.{is_plain as is_plain_byte, escaped, word_of, unescaped, Gives};

use crate::parse_fault::ParseFault;
use percent_encoding::percent_decode;
use std::alloc::{AllocError, Global};

/// Returns true if the byte needs no escape.
fn is_plain(byte: u8) -> bool
    ensures { result ≡ is_plain_byte byte }
{
    b'!' <= byte && byte <= b'~' && byte != b'%'
}

/// Returns the uppercase hexadecimal digit of a number below 16.
fn hex_digit(number: u8) -> u8
    requires { number < 16 }
    ensures { result ≡ digit_glyph true number }
{
    b"0123456789ABCDEF"[number as usize]
}

#[tactic(auto, unfolding(crate::specs::Words::escaped))]
fn put_byte(out: &mut Vec<u8>, byte: u8) -> Result<(), AllocError>
    ensures { OnOk result (out.new.items ≡ out.old.items ++ escaped byte) }
{
    if is_plain(byte) {
        out.push(byte)?;
        return Ok(());
    }
    out.extend_from_slice(&[b'%', hex_digit(byte / 16), hex_digit(byte % 16)])
}

/// Appends the word of a text: plain bytes as they are, others as `%` and two hexadecimal digits.
/// The word of the empty text is `%`.
#[tactic(auto, using(crate::proofs::WordLemmas::word_of_empty, crate::proofs::WordLemmas::word_of_some))]
pub fn put_word(out: &mut Vec<u8>, bytes: &[u8]) -> Result<(), AllocError>
    ensures { OnOk result (out.new.items ≡ out.old.items ++ word_of bytes.now) }
{
    if bytes.is_empty() {
        out.push(b'%')?;
        return Ok(());
    }
    for byte in bytes {
        put_byte(out, *byte)?;
    }
    Ok(())
}

/// Parses a word and returns its text. Fails with `Form` if the word is not exactly the one that
/// `put_word` writes for the text.
#[tactic(auto, unfolding(crate::specs::Words::unescaped))]
pub fn unescape(alloc: Global, word: &[u8]) -> Result<Vec<u8>, ParseFault>
    ensures { Gives (λ bytes. bytes.items) result (unescaped word.now) }
{
    if word == b"%".as_slice() {
        return Ok(Vec::new(alloc));
    }
    let mut bytes = Vec::new(alloc);
    percent_decode(word).append_to(&mut bytes)?;
    let mut again = Vec::new(alloc);
    put_word(&mut again, bytes.as_slice())?;
    if again.as_slice() != word {
        return Err(ParseFault::Form);
    }
    Ok(bytes)
}
