//! Forged messages of a compromised tab, written as frame bodies in hexadecimal.

ghost use Rattle.std.specs.Prelude.{◌≡◌};
ghost use Rattle.std.specs.Char.{is_ascii_lowercase};
ghost use Rattle.std.specs.List.{list_any};
ghost use Rattle.wl_script.specs.Forgeries.{hex_at, body_at, unread_of as unread_for, tab_says, forged_at};
ghost use Rattle.wl_script_words.specs.Words.{Gives};

use hex::FromHexError;
use std::alloc::Global;
use wl_frames::reading::decode;
use wl_frames::{Frame, FrameFault, Upward};
use wl_limits::frames::LEAST_BODY;
use wl_script_words::ParseFault;
use wl_world::event::Forged;

/// Parses a word into the message that it forges. Fails with `Form` if the word is no forged
/// message.
#[tactic(auto, unfolding(crate::specs::Forgeries::forged_at))]
pub(crate) fn forged_of(alloc: Global, word: &[u8]) -> Result<Forged, ParseFault>
    ensures { Gives (λ forged. forged) result (forged_at word.now) }
{
    let body = bytes_of(alloc, word)?;
    let frame = frame_of(alloc, body.as_slice())?;
    said_by_tab(frame)
}

/// Parses bytes from pairs of uppercase hexadecimal digits.
#[tactic(auto, unfolding(crate::specs::Forgeries::hex_at))]
fn bytes_of(alloc: Global, word: &[u8]) -> Result<Vec<u8>, ParseFault>
    ensures { Gives (λ bytes. bytes.items) result (hex_at word.now) }
{
    if has_lowercase(word) {
        return Err(ParseFault::Form);
    }
    match hex::decode(alloc, word) {
        Ok(bytes) => Ok(bytes),
        Err(FromHexError::OutOfMemory) => Err(ParseFault::Memory),
        Err(_) => Err(ParseFault::Form),
    }
}

fn has_lowercase(word: &[u8]) -> bool
    ensures { result ≡ list_any is_ascii_lowercase word.now }
{
    word.iter().any(|byte| byte.is_ascii_lowercase())
}

/// Decodes a frame body.
fn frame_of(alloc: Global, body: &[u8]) -> Result<Frame, ParseFault>
    ensures { Gives (λ frame. frame) result (body_at body.now) }
{
    if body.len() < LEAST_BODY {
        return Err(ParseFault::Form);
    }
    match decode(alloc, body) {
        Ok(frame) => Ok(frame),
        Err(fault) => Err(unread_of(fault)),
    }
}

/// Maps a decoding fault to the reason for refusing the word.
fn unread_of(fault: FrameFault) -> ParseFault
    ensures { result ≡ unread_for fault }
{
    match fault {
        FrameFault::Memory => ParseFault::Memory,
        _ => ParseFault::Form,
    }
}

/// Returns the frame as a tab's message. Only commands, reports, report parts and posts are such.
fn said_by_tab(frame: Frame) -> Result<Forged, ParseFault>
    ensures { Gives (λ forged. forged) result (tab_says frame) }
{
    match frame {
        Frame::Command(command) => Ok(Forged::Upward(Upward::Command(command))),
        Frame::Report(report) => Ok(Forged::Upward(Upward::Report(report))),
        Frame::ReportPart(part) => Ok(Forged::Upward(Upward::ReportPart(part))),
        Frame::Post(post) => Ok(Forged::Post(post)),
        _ => Err(ParseFault::Form),
    }
}
