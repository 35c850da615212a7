//! Parsing of a tab's script lines.

ghost use Rattle.wl_script_words.specs.WordReading.{texts};
ghost use Rattle.wl_script_words.specs.Words.{Gives};
ghost use Rattle.wl_process_rules.specs.TabLines.{mode_and_name, line_by_verb, line_of_words, tab_line_at};

use std::alloc::Global;
use wl_draft::{Mode, Name};
use wl_script_words::ParseFault;
use wl_script_words::reading::{
    command_of, line_words, mode_of, name_of, nothing, one, two, url_of,
};

/// A parsed line of a tab's script. A command's number counts from 0. It is capped at the largest
/// `u32`.
#[derive(Debug, PartialEq, Eq, Drop)]
pub enum TabLine {
    /// An empty line or a comment.
    Blank,
    /// `ask`: requests a lock.
    Ask {
        mode: Mode,
        name: Name,
    },
    /// `probe`: requests a lock with `ifAvailable`.
    Probe {
        mode: Mode,
        name: Name,
    },
    /// `wait`: waits until the command of this number is decided: granted, lost, aborted or, for a
    /// probe, refused.
    Wait {
        number: u32,
    },
    /// `release`: releases the lock of this number.
    Release {
        number: u32,
    },
    /// `abort`: aborts the request of this number.
    Abort {
        number: u32,
    },
    /// `query`: requests a snapshot of the locks and waits for it.
    Query,
    /// `add`: increments the number in a counter file.
    Add {
        /// The path as written, without escapes.
        file: Name,
    },
}

/// Parses one line, without its line feed. Fails with `Form` on a syntax error.
#[tactic(auto, unfolding(crate::specs::TabLines::tab_line_at))]
pub fn read_tab_line(alloc: Global, text: &[u8]) -> Result<TabLine, ParseFault>
    ensures { Gives (λ line. line) result (tab_line_at text.now) }
{
    let words = line_words(alloc, text)?;
    read_words(alloc, words.as_slice())
}

#[tactic(auto, unfolding(crate::specs::TabLines::line_of_words))]
fn read_words(alloc: Global, words: &[&[u8]]) -> Result<TabLine, ParseFault>
    ensures { Gives (λ line. line) result (line_of_words (texts words.now)) }
{
    match words {
        [] => Ok(TabLine::Blank),
        [verb, rest @ ..] => line_by_verb(alloc, verb, rest),
    }
}

#[tactic(auto, unfolding(crate::specs::TabLines::line_by_verb))]
fn line_by_verb(alloc: Global, verb: &[u8], words: &[&[u8]]) -> Result<TabLine, ParseFault>
    ensures { Gives (λ line. line) result (line_by_verb verb.now (texts words.now)) }
{
    if verb == b"ask".as_slice() {
        let (mode, name) = mode_and_name(alloc, words)?;
        Ok(TabLine::Ask { mode, name })
    } else if verb == b"probe".as_slice() {
        let (mode, name) = mode_and_name(alloc, words)?;
        Ok(TabLine::Probe { mode, name })
    } else if verb == b"wait".as_slice() {
        Ok(TabLine::Wait {
            number: command_of(one(words)?)?,
        })
    } else if verb == b"release".as_slice() {
        Ok(TabLine::Release {
            number: command_of(one(words)?)?,
        })
    } else if verb == b"abort".as_slice() {
        Ok(TabLine::Abort {
            number: command_of(one(words)?)?,
        })
    } else if verb == b"query".as_slice() {
        nothing(words)?;
        Ok(TabLine::Query)
    } else if verb == b"add".as_slice() {
        Ok(TabLine::Add {
            file: url_of(alloc, one(words)?)?,
        })
    } else {
        Err(ParseFault::Form)
    }
}

#[tactic(auto, unfolding(crate::specs::TabLines::mode_and_name))]
fn mode_and_name(alloc: Global, words: &[&[u8]]) -> Result<(Mode, Name), ParseFault>
    ensures { Gives (λ x. x) result (mode_and_name (texts words.now)) }
{
    let (mode, name) = two(words)?;
    Ok((mode_of(mode)?, name_of(alloc, name)?))
}
