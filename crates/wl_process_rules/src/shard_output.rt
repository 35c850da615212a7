//! The order in which the output of a shard's steps leaves: that of the steps' places.
//!
//! The lanes of a broker may finish the frames of their steps in another order. Output of a place whose turn has not come is kept
//! until all lower places of its shard are finished, and then leaves with the last of them.

ghost use Rattle.std.specs.Prelude.{◌≡◌, ◌^◌, ◌<◌, ◌≤◌, [], ◌++◌, length, take, OnOk, OnErr};
ghost use Rattle.std.specs.List.{concat};
ghost use Rattle.wl_process_rules.specs.ShardOutput.{empty, ready, behind, filled, released, finished, LeavesInOrder};

use std::alloc::{AllocError, Global};
use std::collections::VecDeque;
use std::marker::Model;
use std::mem;

/// The encoded frames of one step.
#[derive(Drop)]
struct StepBytes {
    bytes: Vec<u8>,
}

impl Model for StepBytes {
    ghost use Rattle.std.specs.Prelude.{ℕ, List};

    ghost Value = { List ℕ };

    ghost view = { λ s. s.bytes.items };
}

impl StepBytes {
    /// Moves the bytes out of a buffer.
    fn taken_from(alloc: Global, bytes: &mut Vec<u8>) -> StepBytes
        ensures taken { result ≡ bytes.old.items }
        ensures emptied { bytes.new.items ≡ [] }
    {
        StepBytes {
            bytes: mem::replace(bytes, Vec::new(alloc)),
        }
    }

    fn append_to(&self, sink: &mut Vec<u8>) -> Result<(), AllocError>
        ensures ok { OnOk result (sink.new.items ≡ sink.old.items ++ self.now) }
        ensures err { OnErr result (sink.new.items ≡ sink.old.items) }
    {
        sink.extend_from_slice(self.bytes.as_slice())
    }
}

/// Output of one shard's steps. Its value in contracts is what it holds back.
#[derive(Drop)]
pub struct ShardOutput {
    alloc: Global,
    /// The lowest place that is not finished.
    next: usize,
    /// The places behind it, `None` if not finished.
    later: VecDeque<Option<StepBytes>>,
}

impl Model for ShardOutput {
    ghost use Rattle.std.specs.Prelude.{◌≤◌, ◌+◌, ◌^◌, min, length};
    ghost use Rattle.wl_process_rules.specs.ShardOutput.{Output};

    ghost Value = { Output };

    ghost view = { λ o. record { next = o.next; later = o.later.items } };

    ghost invariant = { λ o. o.next + length o.later.items + min 1 (length o.later.items) ≤ 2 ^ 32 };
}

impl ShardOutput {
    /// Creates the output of a shard without steps.
    pub fn new(alloc: Global) -> ShardOutput
        ensures { result ≡ empty }
    {
        ShardOutput {
            alloc,
            next: 0,
            later: VecDeque::new(alloc),
        }
    }

    /// Finishes a place, and takes the encoded frames of its step out of `bytes`, which may be none. If all lower places are
    /// finished, appends them to `sink`, with those that are kept right behind. Otherwise keeps them. Drops them if the place has
    /// been finished before.
    pub fn finish(
        &mut self,
        place: u32,
        bytes: &mut Vec<u8>,
        sink: &mut Vec<u8>,
    ) -> Result<(), AllocError>
        ensures ok { OnOk result (self.new ≡ finished self.old place bytes.old.items) }
        ensures sink { OnOk result
            (sink.new.items ≡ sink.old.items ++ concat (released self.old place bytes.old.items)) }
        ensures taken { OnOk result (bytes.new.items ≡ []) }
        ensures err { OnErr result (self.new ≡ self.old) }
        ensures err_sink { OnErr result (sink.new.items ≡ sink.old.items) }
        ensures err_bytes { OnErr result (bytes.new.items ≡ bytes.old.items) }
    {
        let place = place as usize;
        if place == self.next {
            append_with_ready(bytes.as_slice(), &self.later, sink)?;
            self.next += 1 + remove_ready(&mut self.later);
        } else if place > self.next {
            let index = place - self.next - 1;
            return fill(self.alloc, &mut self.later, index, bytes);
        }
        bytes.clear();
        Ok(())
    }
}

/// Appends the bytes of the finished places in front. If out of memory, appends a part of them.
fn append_ready(places: &VecDeque<Option<StepBytes>>, sink: &mut Vec<u8>) -> Result<(), AllocError>
    ensures ok { OnOk result (sink.new.items ≡ sink.old.items ++ concat (ready places.now.items)) }
    ensures begun { take (length sink.old.items) sink.new.items ≡ sink.old.items }
{
    for place in places.iter() {
        let Some(bytes) = place else {
            return Ok(());
        };
        bytes.append_to(sink)?;
    }
    Ok(())
}

/// Appends bytes, and those of the finished places in front. Leaves `sink` unchanged if out of memory.
fn append_with_ready(
    bytes: &[u8],
    places: &VecDeque<Option<StepBytes>>,
    sink: &mut Vec<u8>,
) -> Result<(), AllocError>
    ensures ok { OnOk result
        (sink.new.items ≡ sink.old.items ++ (bytes.now ++ concat (ready places.now.items))) }
    ensures err { OnErr result (sink.new.items ≡ sink.old.items) }
{
    let len = sink.len();
    sink.extend_from_slice(bytes)?;
    if append_ready(places, sink).is_err() {
        sink.truncate(len);
        return Err(AllocError);
    }
    Ok(())
}

/// Removes the finished places in front, and the place behind them, if there is one. Returns the number of finished places.
fn remove_ready(places: &mut VecDeque<Option<StepBytes>>) -> usize
    ensures places { places.new.items ≡ behind places.old.items }
    ensures count { result ≡ length (ready places.old.items) }
{
    let mut count = 0;
    while let Some(Some(_bytes)) = places.pop_front() {
        count += 1;
    }
    count
}

/// Puts bytes at an index, and takes them out of their buffer. Drops them if the place is finished.
fn fill(
    alloc: Global,
    places: &mut VecDeque<Option<StepBytes>>,
    index: usize,
    bytes: &mut Vec<u8>,
) -> Result<(), AllocError>
    requires { index < 2 ^ 32 }
    ensures ok { OnOk result (places.new.items ≡ filled index bytes.old.items places.old.items) }
    ensures taken { OnOk result (bytes.new.items ≡ []) }
    ensures err { OnErr result (places.new.items ≡ places.old.items) }
    ensures err_bytes { OnErr result (bytes.new.items ≡ bytes.old.items) }
{
    if index < places.len() {
        fill_within(alloc, places, index, bytes);
        return Ok(());
    }
    fill_behind(alloc, places, index, bytes)
}

/// Puts bytes at an index of the list, unless that place is finished.
fn fill_within(
    alloc: Global,
    places: &mut VecDeque<Option<StepBytes>>,
    index: usize,
    bytes: &mut Vec<u8>,
)
    requires { index < length places.old.items }
    ensures places { places.new.items ≡ filled index bytes.old.items places.old.items }
    ensures taken { bytes.new.items ≡ [] }
{
    if places[index].is_none() {
        places[index] = Some(StepBytes::taken_from(alloc, bytes));
    } else {
        bytes.clear();
    }
}

/// Puts bytes at an index behind the list.
fn fill_behind(
    alloc: Global,
    places: &mut VecDeque<Option<StepBytes>>,
    index: usize,
    bytes: &mut Vec<u8>,
) -> Result<(), AllocError>
    requires behind { length places.old.items ≤ index }
    requires index { index < 2 ^ 32 }
    ensures ok { OnOk result (places.new.items ≡ filled index bytes.old.items places.old.items) }
    ensures taken { OnOk result (bytes.new.items ≡ []) }
    ensures err { OnErr result (places.new.items ≡ places.old.items) }
    ensures err_bytes { OnErr result (bytes.new.items ≡ bytes.old.items) }
{
    let len = places.len();
    places.reserve(index - len + 1)?;
    for _place in len..index {
        places.push_back_reserved(None);
    }
    places.push_back_reserved(Some(StepBytes::taken_from(alloc, bytes)));
    Ok(())
}

/// Law over any list of places that are finished, each with its bytes.
///
/// The outputs that have left are those of all places below the next one, in the order of places, each once. The next place is not
/// finished. All other outputs are kept.
pub fn law_shard_output()
    ensures { LeavesInOrder }
{}
