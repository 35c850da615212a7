//! Words of scripts, and the texts that they spell.

use super::process_lines::clear_front;
use std::alloc::{AllocError, Global};
use std::process::Abort;
use test_support::retry::BACK;
use test_support::text::Text;
use wl_script_words::{ParseFault, put_word, unescape};

/// Calls `put_word` alone: a caller without its clauses is proved much sooner.
fn put_word_once(out: &mut Vec<u8>, text: &str) -> Result<(), AllocError> {
    put_word(out, text.as_bytes())
}

/// Asserts the word of a text. A call that is refused memory has written a prefix of it, and is made again.
fn has_word(rt: &impl Abort, alloc: Global, text: &str, word: &str) {
    let mut out = Vec::new(alloc);
    if put_word_once(&mut out, text).is_err() {
        clear_front(rt, &mut out, word);
        put_word_once(&mut out, text).expect(rt, BACK);
    }
    assert_eq!(rt; Text(out.as_slice()), Text(word.as_bytes()), "of {text}");
}

/// Returns the text of a word.
fn unescaped(alloc: Global, word: &str) -> Result<Vec<u8>, ParseFault> {
    match unescape(alloc, word.as_bytes()) {
        Err(ParseFault::Memory) => unescape(alloc, word.as_bytes()),
        answer => answer,
    }
}

fn is_text(read: &Result<Vec<u8>, ParseFault>, text: &str) -> bool {
    match read {
        Ok(bytes) => bytes.as_slice() == text.as_bytes(),
        Err(_) => false,
    }
}

/// Asserts that a text has this word, and is read from it.
fn spells(rt: &impl Abort, alloc: Global, text: &str, word: &str) {
    has_word(rt, alloc, text, word);
    assert!(rt; is_text(&unescaped(alloc, word), text), "of {word}");
}

#[test]
fn words(rt: HostRuntime) {
    let alloc = rt.alloc();
    spells(&rt, alloc, "", "%");
    spells(&rt, alloc, "a", "a");
    spells(&rt, alloc, "!~-", "!~-");
    spells(&rt, alloc, "a b", "a%20b");
    spells(&rt, alloc, "%", "%25");
    spells(&rt, alloc, "\n", "%0A");
    spells(&rt, alloc, "\u{7f}", "%7F");
    spells(&rt, alloc, "é", "%C3%A9");
}

#[test]
fn other_spellings(rt: HostRuntime) {
    // No word, one digit, an escaped letter, lower case, bytes that need escapes, and `%` alone within a word.
    let words = ["", "%2", "%41", "%c3%a9", "a b", "é", "a%", "%%", "%G0"];
    for word in &words {
        let text = unescaped(rt.alloc(), word);
        assert!(&rt; matches!(&text, Err(ParseFault::Form)), "of {word}");
    }
}
