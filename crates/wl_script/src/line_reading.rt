//! Parsing of script lines.

ghost use Rattle.wl_script_words.specs.WordReading.{most_number, texts};
ghost use Rattle.wl_script_words.specs.Words.{Gives};
ghost use Rattle.wl_script.specs.SimLines.{message_name_at, tab_alone, tab_and_url, tab_and_urls, tab_mode_name, tab_and_name, tab_and_number, tab_channel_data, tab_and_forged, tabs_at, start_at, line_by_verb, lock_line, channel_line, line_of_words, line_at};
ghost use Rattle.wl_limits.specs.declared.tabs.TheConstants.{LAST_NUMBER};

use crate::forgery::forged_of;
use crate::sim_line::SimLine;
use bytes::Bytes;
use std::alloc::Global;
use wl_frames::{Mode, Name, Sequence};
use wl_script_words::ParseFault;
use wl_script_words::reading::{
    command_of, data_of, line_words, mode_of, name_of, nothing, number_of, one, tab_of, three, two,
    url_of,
};
use wl_world::event::{Event, Forged};

/// Parses one line, without its line feed. Fails with `Form` on a syntax error.
#[tactic(auto, unfolding(crate::specs::SimLines::line_at))]
pub fn read_line(alloc: Global, text: &[u8]) -> Result<SimLine, ParseFault>
    ensures { Gives (λ line. line) result (line_at text.now) }
{
    let words = line_words(alloc, text)?;
    read_words(alloc, words.as_slice())
}

#[tactic(auto, unfolding(crate::specs::SimLines::line_of_words))]
fn read_words(alloc: Global, words: &[&[u8]]) -> Result<SimLine, ParseFault>
    ensures { Gives (λ line. line) result (line_of_words (texts words.now)) }
{
    match words {
        [] => Ok(SimLine::Blank),
        [verb, rest @ ..] => line_by_verb(alloc, verb, rest),
    }
}

/// Parses a line by its first word: lines on tabs and the broker, else `lock_line`.
#[tactic(auto, unfolding(crate::specs::SimLines::line_by_verb))]
fn line_by_verb(alloc: Global, verb: &[u8], words: &[&[u8]]) -> Result<SimLine, ParseFault>
    ensures { Gives (λ line. line) result (line_by_verb verb.now (texts words.now)) }
{
    if verb == b"open".as_slice() {
        let (tab, url) = tab_and_url(alloc, words)?;
        Ok(SimLine::Open { tab, url })
    } else if verb == b"open2".as_slice() {
        let (tab, top, url) = tab_and_urls(alloc, words)?;
        Ok(SimLine::OpenTwo { tab, top, url })
    } else if verb == b"start".as_slice() {
        start(alloc, words)
    } else if verb == b"stop".as_slice() {
        nothing(words)?;
        Ok(SimLine::Happens(Event::Stop))
    } else if verb == b"hello".as_slice() {
        let tab = tab_alone(words)?;
        Ok(SimLine::Happens(Event::Hello { tab }))
    } else if verb == b"kill".as_slice() {
        let tab = tab_alone(words)?;
        Ok(SimLine::Happens(Event::Kill { tab }))
    } else if verb == b"tell".as_slice() {
        let tab = tab_alone(words)?;
        Ok(SimLine::Happens(Event::Tell { tab }))
    } else {
        lock_line(alloc, verb, words)
    }
}

/// Parses lines on locks and messages, else `channel_line`.
#[tactic(auto, unfolding(crate::specs::SimLines::lock_line))]
fn lock_line(alloc: Global, verb: &[u8], words: &[&[u8]]) -> Result<SimLine, ParseFault>
    ensures { Gives (λ line. line) result (lock_line verb.now (texts words.now)) }
{
    if verb == b"ask".as_slice() {
        let (tab, mode, name) = tab_mode_name(alloc, words)?;
        Ok(SimLine::Happens(Event::Ask { tab, mode, name }))
    } else if verb == b"probe".as_slice() {
        let (tab, mode, name) = tab_mode_name(alloc, words)?;
        Ok(SimLine::Happens(Event::Probe { tab, mode, name }))
    } else if verb == b"query".as_slice() {
        let tab = tab_alone(words)?;
        Ok(SimLine::Happens(Event::Query { tab }))
    } else if verb == b"abort".as_slice() {
        let (tab, number) = tab_and_command(words)?;
        Ok(SimLine::Happens(Event::Abort { tab, number }))
    } else if verb == b"release".as_slice() {
        let (tab, number) = tab_and_command(words)?;
        Ok(SimLine::Happens(Event::Release { tab, number }))
    } else if verb == b"resend".as_slice() {
        let tab = tab_alone(words)?;
        Ok(SimLine::Happens(Event::Resend { tab }))
    } else if verb == b"deliver".as_slice() {
        Ok(SimLine::Deliver {
            name: message_name(one(words)?)?,
        })
    } else {
        channel_line(alloc, verb, words)
    }
}

/// Parses lines on channels, compromised tabs and holdings. Any other line is a syntax error.
#[tactic(auto, unfolding(crate::specs::SimLines::channel_line))]
fn channel_line(alloc: Global, verb: &[u8], words: &[&[u8]]) -> Result<SimLine, ParseFault>
    ensures { Gives (λ line. line) result (channel_line verb.now (texts words.now)) }
{
    if verb == b"channel".as_slice() {
        let (tab, name) = tab_and_name(alloc, words)?;
        Ok(SimLine::Happens(Event::Channel { tab, name }))
    } else if verb == b"post".as_slice() {
        let (tab, channel, bytes) = tab_channel_data(alloc, words)?;
        Ok(SimLine::Happens(Event::Post {
            tab,
            channel,
            bytes,
        }))
    } else if verb == b"read".as_slice() {
        let (tab, channel) = tab_and_channel(words)?;
        Ok(SimLine::Happens(Event::Read { tab, channel }))
    } else if verb == b"close".as_slice() {
        let (tab, channel) = tab_and_channel(words)?;
        Ok(SimLine::Happens(Event::Close { tab, channel }))
    } else if verb == b"corrupt".as_slice() {
        let tab = tab_alone(words)?;
        Ok(SimLine::Happens(Event::Corrupt { tab }))
    } else if verb == b"forge".as_slice() {
        let (tab, forged) = tab_and_forged(alloc, words)?;
        Ok(SimLine::Happens(Event::Forge { tab, forged }))
    } else if verb == b"show".as_slice() {
        nothing(words)?;
        Ok(SimLine::Show)
    } else {
        Err(ParseFault::Form)
    }
}

// The words after the first

#[tactic(auto, unfolding(crate::specs::SimLines::tab_alone))]
fn tab_alone(words: &[&[u8]]) -> Result<u16, ParseFault>
    ensures { Gives (λ tab. tab) result (tab_alone (texts words.now)) }
{
    tab_of(one(words)?)
}

#[tactic(auto, unfolding(crate::specs::SimLines::tab_and_url))]
fn tab_and_url(alloc: Global, words: &[&[u8]]) -> Result<(u16, Name), ParseFault>
    ensures { Gives (λ x. x) result (tab_and_url (texts words.now)) }
{
    let (tab, url) = two(words)?;
    Ok((tab_of(tab)?, url_of(alloc, url)?))
}

#[tactic(auto, unfolding(crate::specs::SimLines::tab_and_urls))]
fn tab_and_urls(alloc: Global, words: &[&[u8]]) -> Result<(u16, Name, Name), ParseFault>
    ensures { Gives (λ x. x) result (tab_and_urls (texts words.now)) }
{
    let (tab, top, url) = three(words)?;
    Ok((tab_of(tab)?, url_of(alloc, top)?, url_of(alloc, url)?))
}

#[tactic(auto, unfolding(crate::specs::SimLines::tab_mode_name))]
fn tab_mode_name(alloc: Global, words: &[&[u8]]) -> Result<(u16, Mode, Name), ParseFault>
    ensures { Gives (λ x. x) result (tab_mode_name (texts words.now)) }
{
    let (tab, mode, name) = three(words)?;
    Ok((tab_of(tab)?, mode_of(mode)?, name_of(alloc, name)?))
}

#[tactic(auto, unfolding(crate::specs::SimLines::tab_and_name))]
fn tab_and_name(alloc: Global, words: &[&[u8]]) -> Result<(u16, Name), ParseFault>
    ensures { Gives (λ x. x) result (tab_and_name (texts words.now)) }
{
    let (tab, name) = two(words)?;
    Ok((tab_of(tab)?, name_of(alloc, name)?))
}

#[tactic(auto, unfolding(crate::specs::SimLines::tab_and_number))]
fn tab_and_command(words: &[&[u8]]) -> Result<(u16, u32), ParseFault>
    ensures { Gives (λ x. x) result (tab_and_number LAST_NUMBER (texts words.now)) }
{
    let (tab, number) = two(words)?;
    Ok((tab_of(tab)?, command_of(number)?))
}

#[tactic(auto, unfolding(crate::specs::SimLines::tab_and_number))]
fn tab_and_channel(words: &[&[u8]]) -> Result<(u16, usize), ParseFault>
    ensures { Gives (λ x. x) result (tab_and_number most_number (texts words.now)) }
{
    let (tab, channel) = two(words)?;
    Ok((tab_of(tab)?, number_of(channel)? as usize))
}

#[tactic(auto, unfolding(crate::specs::SimLines::tab_channel_data))]
fn tab_channel_data(alloc: Global, words: &[&[u8]]) -> Result<(u16, usize, Bytes), ParseFault>
    ensures { Gives (λ x. x) result (tab_channel_data (texts words.now)) }
{
    let (tab, channel, word) = three(words)?;
    Ok((
        tab_of(tab)?,
        number_of(channel)? as usize,
        data_of(alloc, word)?,
    ))
}

#[tactic(auto, unfolding(crate::specs::SimLines::tab_and_forged))]
fn tab_and_forged(alloc: Global, words: &[&[u8]]) -> Result<(u16, Forged), ParseFault>
    ensures { Gives (λ x. x) result (tab_and_forged (texts words.now)) }
{
    let (tab, word) = two(words)?;
    Ok((tab_of(tab)?, forged_of(alloc, word)?))
}

/// Parses the tabs of a `start` line: none for all living tabs, `-` for no tab, or a list of tabs.
#[tactic(auto, unfolding(crate::specs::SimLines::start_at))]
fn start(alloc: Global, words: &[&[u8]]) -> Result<SimLine, ParseFault>
    ensures { Gives (λ line. line) result (start_at (texts words.now)) }
{
    match words {
        [] => Ok(SimLine::StartAll),
        [word] if *word == b"-".as_slice() => {
            Ok(SimLine::Happens(Event::Start(Sequence::new(Vec::new(alloc)))))
        }
        _ => Ok(SimLine::Happens(Event::Start(tabs_of(alloc, words)?))),
    }
}

fn tabs_of(alloc: Global, words: &[&[u8]]) -> Result<Sequence<u16>, ParseFault>
    ensures { Gives (λ tabs. tabs) result (tabs_at (texts words.now)) }
{
    let mut tabs = Vec::new(alloc);
    for word in words {
        tabs.push(tab_of(word)?)?;
    }
    Ok(Sequence::new(tabs))
}

// Names of messages

#[tactic(auto, unfolding(crate::specs::SimLines::message_name_at))]
fn message_name(word: &[u8]) -> Result<u64, ParseFault>
    ensures { Gives (λ n. n) result (message_name_at word.now) }
{
    match word {
        [b'm', number @ ..] => number_of(number),
        _ => Err(ParseFault::Form),
    }
}
