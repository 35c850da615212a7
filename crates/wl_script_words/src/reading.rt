//! Parsing of a line's words.

ghost use Rattle.std.specs.Prelude.{◌≡◌, IfOk};
ghost use Rattle.wl_script_words.specs.WordReading.{has_leading_zero as leading_zero, number_at, tab_at, mode_at, name_at, text_of as text_at, url_at, none, one, two, three, line_words_at, words_of, texts, most_number};
ghost use Rattle.wl_script_words.specs.Words.{Gives, unescaped};
ghost use Rattle.wl_limits.specs.declared.tabs.TheConstants.{LAST_NUMBER};

use crate::parse_fault::ParseFault;
use crate::words::unescape;
use bytes::Bytes;
use std::alloc::{AllocError, Global};
use std::str;
use wl_draft::{Mode, Name};
use wl_limits::scripts::LINE_LIMIT;
use wl_limits::tabs::{LAST_NUMBER, LAST_TAB};

// Lines

/// Splits a line, without its line feed, into words. An empty line and a comment have no words.
/// Fails with `Form` if the line is longer than `LINE_LIMIT`.
#[tactic(auto, unfolding(crate::specs::WordReading::line_words_at))]
pub fn line_words(alloc: Global, text: &[u8]) -> Result<Vec<&[u8]>, ParseFault>
    ensures { Gives (λ words. texts words.items) result (line_words_at text.now) }
{
    if text.len() > LINE_LIMIT {
        return Err(ParseFault::Form);
    }
    match text {
        [] | [b'#', ..] => Ok(Vec::new(alloc)),
        _ => Ok(words_of(alloc, text)?),
    }
}

/// Splits a text at every space.
fn words_of(alloc: Global, text: &[u8]) -> Result<Vec<&[u8]>, AllocError>
    ensures { IfOk result (λ words. texts words.items ≡ words_of text.now) }
{
    text.split(|byte| *byte == b' ').collect(alloc)
}

// Exact word counts

/// Checks that there is no word. Fails with `Form` otherwise.
pub fn nothing(words: &[&[u8]]) -> Result<(), ParseFault>
    ensures { Gives (λ _. 0) result (none (texts words.now)) }
{
    match words {
        [] => Ok(()),
        _ => Err(ParseFault::Form),
    }
}

/// Returns the only word. Fails with `Form` if there is not exactly one.
pub fn one<'a>(words: &[&'a [u8]]) -> Result<&'a [u8], ParseFault>
    ensures { Gives (λ x. x.now) result (one (texts words.now)) }
{
    match words {
        [first] => Ok(first),
        _ => Err(ParseFault::Form),
    }
}

/// Returns the two words. Fails with `Form` if there are not exactly two.
pub fn two<'a>(words: &[&'a [u8]]) -> Result<(&'a [u8], &'a [u8]), ParseFault>
    ensures { Gives (λ x. (x.0.now, x.1.now)) result (two (texts words.now)) }
{
    match words {
        [first, second] => Ok((first, second)),
        _ => Err(ParseFault::Form),
    }
}

/// Returns the three words. Fails with `Form` if there are not exactly three.
pub fn three<'a>(words: &[&'a [u8]]) -> Result<(&'a [u8], &'a [u8], &'a [u8]), ParseFault>
    ensures { Gives (λ x. (x.0.now, x.1.now, x.2.now)) result (three (texts words.now)) }
{
    match words {
        [first, second, third] => Ok((first, second, third)),
        _ => Err(ParseFault::Form),
    }
}

// Numbers

fn has_leading_zero(word: &[u8]) -> bool
    ensures { result ≡ leading_zero word.now }
{
    word.len() > 1 && word[0] == b'0'
}

/// Parses decimal digits without a leading zero. Caps the number at the largest `u64`. Returns
/// `None` if the word is no number.
pub fn decimal_of(word: &[u8]) -> Option<u64>
    ensures { result ≡ number_at most_number word.now }
{
    if word.is_empty() {
        return None;
    }
    if has_leading_zero(word) {
        return None;
    }
    let mut number: u64 = 0;
    for digit in word {
        if !digit.is_ascii_digit() {
            return None;
        }
        number = number
            .saturating_mul(10)
            .saturating_add(u64::from(*digit - b'0'));
    }
    Some(number)
}

/// Parses a number, capped at the largest `u64`. Fails with `Form` if the word is no number.
pub fn number_of(word: &[u8]) -> Result<u64, ParseFault>
    ensures { Gives (λ n. n) result (number_at most_number word.now) }
{
    decimal_of(word).ok_or(ParseFault::Form)
}

/// Parses a command's number, capped at the largest `u32`. Fails with `Form` if the word is no
/// number.
pub fn command_of(word: &[u8]) -> Result<u32, ParseFault>
    ensures { Gives (λ n. n) result (number_at LAST_NUMBER word.now) }
{
    let number = number_of(word)?;
    Ok(number.min(u64::from(LAST_NUMBER)) as u32)
}

/// Parses a tab number, 1 to 65,535. Fails with `Form` for any other word.
#[tactic(auto, unfolding(crate::specs::WordReading::tab_at))]
pub fn tab_of(word: &[u8]) -> Result<u16, ParseFault>
    ensures { Gives (λ n. n) result (tab_at word.now) }
{
    let number = number_of(word)?;
    if number < 1 || number > u64::from(LAST_TAB) {
        return Err(ParseFault::Form);
    }
    Ok(number as u16)
}

// Other words

/// Parses a lock mode: `shared` or `exclusive`. Fails with `Form` for any other word.
#[tactic(auto, unfolding(crate::specs::WordReading::mode_at))]
pub fn mode_of(word: &[u8]) -> Result<Mode, ParseFault>
    ensures { Gives (λ mode. mode) result (mode_at word.now) }
{
    if word == b"shared".as_slice() {
        return Ok(Mode::Shared);
    }
    if word == b"exclusive".as_slice() {
        return Ok(Mode::Exclusive);
    }
    Err(ParseFault::Form)
}

/// Converts bytes to text. Fails with `Form` if they are not UTF-8.
fn text_of(alloc: Global, text: &[u8]) -> Result<Name, ParseFault>
    ensures { Gives (λ name. name) result (text_at text.now) }
{
    let text = str::from_utf8(text)?;
    Ok(Name::new(String::from_str(alloc, text)?))
}

/// Parses the name of a lock or a channel. Fails with `Form` if the word is not the word of a name.
#[tactic(auto, unfolding(crate::specs::WordReading::name_at))]
pub fn name_of(alloc: Global, word: &[u8]) -> Result<Name, ParseFault>
    ensures { Gives (λ name. name) result (name_at word.now) }
{
    let bytes = unescape(alloc, word)?;
    text_of(alloc, bytes.as_slice())
}

/// Parses a URL or a file path, which has no escapes. Fails with `Form` if it is empty or not
/// UTF-8.
#[tactic(auto, unfolding(crate::specs::WordReading::url_at))]
pub fn url_of(alloc: Global, word: &[u8]) -> Result<Name, ParseFault>
    ensures { Gives (λ url. url) result (url_at word.now) }
{
    if word.is_empty() {
        return Err(ParseFault::Form);
    }
    text_of(alloc, word)
}

/// Parses the data of a post. Fails with `Form` if the word is not the word of any data.
pub fn data_of(alloc: Global, word: &[u8]) -> Result<Bytes, ParseFault>
    ensures { Gives (λ bytes. bytes) result (unescaped word.now) }
{
    let bytes = unescape(alloc, word)?;
    Ok(Bytes::copy_from_slice(alloc, bytes.as_slice())?)
}
