//! Decoders of the fields that several kinds of frames share. Each returns the value and the bytes
//! after it.

ghost use Rattle.std.specs.Prelude.{ℕ, List, Option};
ghost use Rattle.std.specs.Int.{w16, w32};
ghost use Rattle.wl_frames.specs.Reading.{Gives, byte_at, number_at, generation_at, tab_at, mode_at, flag_at, held_at, taken_at, short_text_at, long_text_at, text_of, channel_at, lock_name_at, data_at, origin_text_of, origin_at, items_at, list_at};

use super::fault::ReadFault;
use bytes::Bytes;
use std::alloc::Global;
use std::str;
use wl_draft::{Mode, Name};
use wl_grammar::origin::Origin;
use wl_grammar::sequence::Sequence;
use wl_limits::texts::{DATA_LIMIT, ORIGIN_LIMIT};

/// Decodes one byte.
pub fn byte_of(bytes: &[u8]) -> Result<(u8, &[u8]), ReadFault>
    ensures { Gives (λ x. (x.0, x.1.now)) result (byte_at bytes.now) }
{
    match bytes {
        [] => Err(ReadFault::Field),
        [byte, rest @ ..] => Ok((*byte, rest)),
    }
}

/// Decodes a big-endian number of two bytes.
pub fn u16_of(bytes: &[u8]) -> Result<(u16, &[u8]), ReadFault>
    ensures { Gives (λ x. (x.0, x.1.now)) result (number_at w16 bytes.now) }
{
    match bytes {
        [first, second, rest @ ..] => Ok((u16::from_be_bytes([*first, *second]), rest)),
        _ => Err(ReadFault::Field),
    }
}

/// Decodes a big-endian number of four bytes.
pub fn u32_of(bytes: &[u8]) -> Result<(u32, &[u8]), ReadFault>
    ensures { Gives (λ x. (x.0, x.1.now)) result (number_at w32 bytes.now) }
{
    match bytes {
        [first, second, third, fourth, rest @ ..] => {
            let number = u32::from_be_bytes([*first, *second, *third, *fourth]);
            Ok((number, rest))
        }
        _ => Err(ReadFault::Field),
    }
}

/// Decodes a generation, which is at least 1.
#[tactic(auto, unfolding(crate::specs::Reading::generation_at))]
pub fn generation_of(bytes: &[u8]) -> Result<(u32, &[u8]), ReadFault>
    ensures { Gives (λ x. (x.0, x.1.now)) result (generation_at bytes.now) }
{
    let (generation, rest) = u32_of(bytes)?;
    if generation == 0 {
        return Err(ReadFault::Field);
    }
    Ok((generation, rest))
}

/// Decodes a tab or a partition, which is at least 1.
#[tactic(auto, unfolding(crate::specs::Reading::tab_at))]
pub fn tab_of(bytes: &[u8]) -> Result<(u16, &[u8]), ReadFault>
    ensures { Gives (λ x. (x.0, x.1.now)) result (tab_at bytes.now) }
{
    let (tab, rest) = u16_of(bytes)?;
    if tab == 0 {
        return Err(ReadFault::Field);
    }
    Ok((tab, rest))
}

/// Decodes a lock mode.
#[tactic(auto, unfolding(crate::specs::Reading::mode_at))]
pub fn mode_of(bytes: &[u8]) -> Result<(Mode, &[u8]), ReadFault>
    ensures { Gives (λ x. (x.0, x.1.now)) result (mode_at bytes.now) }
{
    let (code, rest) = byte_of(bytes)?;
    match code {
        1 => Ok((Mode::Shared, rest)),
        2 => Ok((Mode::Exclusive, rest)),
        _ => Err(ReadFault::Field),
    }
}

/// Decodes a flag.
#[tactic(auto, unfolding(crate::specs::Reading::flag_at))]
pub fn flag_of(bytes: &[u8]) -> Result<(bool, &[u8]), ReadFault>
    ensures { Gives (λ x. (x.0, x.1.now)) result (flag_at bytes.now) }
{
    let (code, rest) = byte_of(bytes)?;
    match code {
        0 => Ok((false, rest)),
        1 => Ok((true, rest)),
        _ => Err(ReadFault::Field),
    }
}

/// Decodes whether a lock is held. If not, its request is waiting.
#[tactic(auto, unfolding(crate::specs::Reading::held_at))]
pub fn held_of(bytes: &[u8]) -> Result<(bool, &[u8]), ReadFault>
    ensures { Gives (λ x. (x.0, x.1.now)) result (held_at bytes.now) }
{
    let (code, rest) = byte_of(bytes)?;
    match code {
        1 => Ok((true, rest)),
        2 => Ok((false, rest)),
        _ => Err(ReadFault::Field),
    }
}

#[tactic(auto, unfolding(crate::specs::Reading::taken_at))]
fn taken_of(len: usize, bytes: &[u8]) -> Result<(&[u8], &[u8]), ReadFault>
    ensures { Gives (λ x. (x.0.now, x.1.now)) result (taken_at len bytes.now) }
{
    if bytes.len() < len {
        return Err(ReadFault::Field);
    }
    Ok(bytes.split_at(len))
}

#[tactic(auto, unfolding(crate::specs::Reading::short_text_at))]
fn short_text_of(bytes: &[u8]) -> Result<(&[u8], &[u8]), ReadFault>
    ensures { Gives (λ x. (x.0.now, x.1.now)) result (short_text_at bytes.now) }
{
    let (len, rest) = byte_of(bytes)?;
    taken_of(len as usize, rest)
}

#[tactic(auto, unfolding(crate::specs::Reading::long_text_at))]
fn long_text_of(most: usize, bytes: &[u8]) -> Result<(&[u8], &[u8]), ReadFault>
    ensures { Gives (λ x. (x.0.now, x.1.now)) result (long_text_at most bytes.now) }
{
    let (len, rest) = u16_of(bytes)?;
    let len = usize::from(len);
    if most < len {
        return Err(ReadFault::Field);
    }
    taken_of(len, rest)
}

fn name_of(alloc: Global, text: &[u8]) -> Result<Name, ReadFault>
    ensures { Gives (λ x. x) result (text_of text.now) }
{
    let text = str::from_utf8(text)?;
    Ok(Name::new(String::from_str(alloc, text)?))
}

/// Decodes a channel's name, which is UTF-8.
#[tactic(auto, unfolding(crate::specs::Reading::channel_at))]
pub fn channel_of(alloc: Global, bytes: &[u8]) -> Result<(Name, &[u8]), ReadFault>
    ensures { Gives (λ x. (x.0, x.1.now)) result (channel_at bytes.now) }
{
    let (channel, rest) = short_text_of(bytes)?;
    Ok((name_of(alloc, channel)?, rest))
}

/// Decodes a lock's name, which is UTF-8 and does not start with U+002D.
#[tactic(auto, unfolding(crate::specs::Reading::lock_name_at))]
pub fn lock_name_of(alloc: Global, bytes: &[u8]) -> Result<(Name, &[u8]), ReadFault>
    ensures { Gives (λ x. (x.0, x.1.now)) result (lock_name_at bytes.now) }
{
    let (text, rest) = short_text_of(bytes)?;
    if let [b'-', ..] = text {
        return Err(ReadFault::Field);
    }
    Ok((name_of(alloc, text)?, rest))
}

/// Decodes the data of a post.
#[tactic(auto, unfolding(crate::specs::Reading::data_at))]
pub fn data_of(alloc: Global, bytes: &[u8]) -> Result<(Bytes, &[u8]), ReadFault>
    ensures { Gives (λ x. (x.0, x.1.now)) result (data_at bytes.now) }
{
    let (data, rest) = long_text_of(DATA_LIMIT, bytes)?;
    Ok((Bytes::copy_from_slice(alloc, data)?, rest))
}

fn origin_text_of(alloc: Global, text: &[u8]) -> Result<Origin, ReadFault>
    ensures { Gives (λ x. x) result (origin_text_of text.now) }
{
    if !text.is_ascii() {
        return Err(ReadFault::Field);
    }
    let text = str::from_utf8(text)?;
    Ok(Origin::new(String::from_str(alloc, text)?))
}

/// Decodes an origin, which is ASCII.
#[tactic(auto, unfolding(crate::specs::Reading::origin_at))]
pub fn origin_of(alloc: Global, bytes: &[u8]) -> Result<(Origin, &[u8]), ReadFault>
    ensures { Gives (λ x. (x.0, x.1.now)) result (origin_at bytes.now) }
{
    let (text, rest) = long_text_of(ORIGIN_LIMIT, bytes)?;
    Ok((origin_text_of(alloc, text)?, rest))
}

/// An item of a list of fields.
pub trait Item: Sized + Drop {
    ghost item_at: { List ℕ → Option (Self × List ℕ) };

    /// Decodes one item.
    fn read(alloc: Global, bytes: &[u8]) -> Result<(Self, &[u8]), ReadFault>
        ensures { Gives (λ x. (x.0, x.1.now)) result (item_at bytes.now) };
}

fn items_of<T: Item>(alloc: Global, count: u16, bytes: &[u8]) -> Result<(Vec<T>, &[u8]), ReadFault>
    ensures { Gives (λ x. (x.0.items, x.1.now)) result (items_at T.item_at count bytes.now) }
{
    let mut items = Vec::new(alloc);
    let mut rest = bytes;
    for _ in 0..count {
        let (item, after) = T::read(alloc, rest)?;
        items.push(item)?;
        rest = after;
    }
    Ok((items, rest))
}

/// Decodes a list that follows the number of its items. Fails with `Field` if there are more than
/// `most` items.
#[tactic(auto, unfolding(crate::specs::Reading::list_at))]
pub fn list_of<T: Item>(
    alloc: Global,
    most: usize,
    bytes: &[u8],
) -> Result<(Sequence<T>, &[u8]), ReadFault>
    ensures { Gives (λ x. (x.0, x.1.now)) result (list_at T.item_at most bytes.now) }
{
    let (count, rest) = u16_of(bytes)?;
    if most < usize::from(count) {
        return Err(ReadFault::Field);
    }
    let (items, rest) = items_of(alloc, count, rest)?;
    Ok((Sequence::new(items), rest))
}
