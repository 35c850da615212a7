//! Parsing of the kernel's script lines.

ghost use Rattle.wl_script_words.specs.WordReading.{texts};
ghost use Rattle.wl_script_words.specs.Words.{Gives};
ghost use Rattle.wl_process_rules.specs.KernelLines.{pause_at, url_and_file, urls_and_file, line_by_verb, line_of_words, kernel_line_at};

use std::alloc::Global;
use wl_draft::Name;
use wl_script_words::ParseFault;
use wl_script_words::reading::{line_words, nothing, number_of, one, tab_of, three, two, url_of};

/// The longest pause, in milliseconds.
pub const PAUSE_LIMIT: u16 = 10_000;

/// A parsed line of the kernel's script.
#[derive(Debug, PartialEq, Eq, Drop)]
pub enum KernelLine {
    /// An empty line or a comment.
    Blank,
    /// `start`: starts a broker with all living tabs listed.
    Start,
    /// `open`: opens a tab for a page. The tab runs the script in a file.
    Open {
        /// The URL as written, without escapes.
        url: Name,
        /// The path as written, without escapes.
        file: Name,
    },
    /// `open2`: opens a tab that reports in parts, for a page embedded under a top-level page. The
    /// tab runs the script in a file.
    OpenTwo {
        top: Name,
        url: Name,
        file: Name,
    },
    /// `stop`: stops the broker's generation and kills its process.
    Stop,
    /// `kill`: kills the tab's process.
    Kill {
        /// 1 to 65,535.
        tab: u16,
    },
    /// `pause`: the kernel sleeps.
    Pause {
        /// At most `PAUSE_LIMIT`.
        milliseconds: u16,
    },
    /// `join`: waits until the processes of all tabs have ended.
    Join,
}

/// Parses one line, without its line feed. Fails with `Form` on a syntax error.
#[tactic(auto, unfolding(crate::specs::KernelLines::kernel_line_at))]
pub fn read_kernel_line(alloc: Global, text: &[u8]) -> Result<KernelLine, ParseFault>
    ensures { Gives (λ line. line) result (kernel_line_at text.now) }
{
    let words = line_words(alloc, text)?;
    read_words(alloc, words.as_slice())
}

#[tactic(auto, unfolding(crate::specs::KernelLines::line_of_words))]
fn read_words(alloc: Global, words: &[&[u8]]) -> Result<KernelLine, ParseFault>
    ensures { Gives (λ line. line) result (line_of_words (texts words.now)) }
{
    match words {
        [] => Ok(KernelLine::Blank),
        [verb, rest @ ..] => line_by_verb(alloc, verb, rest),
    }
}

#[tactic(auto, unfolding(crate::specs::KernelLines::line_by_verb))]
fn line_by_verb(alloc: Global, verb: &[u8], words: &[&[u8]]) -> Result<KernelLine, ParseFault>
    ensures { Gives (λ line. line) result (line_by_verb verb.now (texts words.now)) }
{
    if verb == b"start".as_slice() {
        nothing(words)?;
        Ok(KernelLine::Start)
    } else if verb == b"open".as_slice() {
        let (url, file) = url_and_file(alloc, words)?;
        Ok(KernelLine::Open { url, file })
    } else if verb == b"open2".as_slice() {
        let (top, url, file) = urls_and_file(alloc, words)?;
        Ok(KernelLine::OpenTwo { top, url, file })
    } else if verb == b"stop".as_slice() {
        nothing(words)?;
        Ok(KernelLine::Stop)
    } else if verb == b"kill".as_slice() {
        Ok(KernelLine::Kill {
            tab: tab_of(one(words)?)?,
        })
    } else if verb == b"pause".as_slice() {
        Ok(KernelLine::Pause {
            milliseconds: pause_of(one(words)?)?,
        })
    } else if verb == b"join".as_slice() {
        nothing(words)?;
        Ok(KernelLine::Join)
    } else {
        Err(ParseFault::Form)
    }
}

// The words after the first

#[tactic(auto, unfolding(crate::specs::KernelLines::url_and_file))]
fn url_and_file(alloc: Global, words: &[&[u8]]) -> Result<(Name, Name), ParseFault>
    ensures { Gives (λ x. x) result (url_and_file (texts words.now)) }
{
    let (url, file) = two(words)?;
    Ok((url_of(alloc, url)?, url_of(alloc, file)?))
}

#[tactic(auto, unfolding(crate::specs::KernelLines::urls_and_file))]
fn urls_and_file(alloc: Global, words: &[&[u8]]) -> Result<(Name, Name, Name), ParseFault>
    ensures { Gives (λ x. x) result (urls_and_file (texts words.now)) }
{
    let (top, url, file) = three(words)?;
    Ok((
        url_of(alloc, top)?,
        url_of(alloc, url)?,
        url_of(alloc, file)?,
    ))
}

/// Parses the length of a pause, in milliseconds. Fails with `Form` above `PAUSE_LIMIT`.
#[tactic(auto, unfolding(crate::specs::KernelLines::pause_at))]
fn pause_of(word: &[u8]) -> Result<u16, ParseFault>
    ensures { Gives (λ n. n) result (pause_at word.now) }
{
    let number = number_of(word)?;
    if number > u64::from(PAUSE_LIMIT) {
        return Err(ParseFault::Form);
    }
    Ok(number as u16)
}
