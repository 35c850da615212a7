//! Output buffers for the frames of a change. They are allocated before the change, when the number
//! of frames is unknown.

ghost use Rattle.std.specs.Prelude.{◌≡◌, ◌≤◌, ◌<◌, ◌+◌, ◌++◌, [], IfOk, OnOk, length, map, replicate};
ghost use Rattle.std.specs.List.{AllByRecursion};
ghost use Rattle.std.specs.Vec.{vec_len, vec_capacity};
ghost use Rattle.wl_broker.specs.BrokerInvariant.{no_rooms, replied, grant_of};

use crate::answers::{TabAnswer, push_grants};
use crate::outs::Outs;
use crate::seat::TabSeat;
use std::alloc::{AllocError, Global};
use std::collections::BTreeMap;
use std::marker::Model;
use wl_draft::Grant;
use wl_grammar::Addressed;

/// Spare output buffers, sized for the worst case. Output normally gets a buffer of exact size. A
/// spare is used only if that allocation fails. So a change never fails after it has started, and
/// the caller does not keep oversized buffers.
#[derive(Drop)]
pub struct SpareBuffers {
    alloc: Global,
    lists: Vec<Vec<Addressed>>,
    frames: usize,
}

impl Model for SpareBuffers {
    ghost use Rattle.std.specs.Prelude.{◌≡◌, ◌≤◌, [], length};
    ghost use Rattle.std.specs.List.{AllByRecursion};
    ghost use Rattle.std.specs.Vec.{vec_len, vec_capacity};
    ghost use Rattle.wl_broker.specs.BrokerInvariant.{RoomsState};

    ghost Value = { RoomsState };

    ghost view = { λ r. record { lists = length r.lists.items; frames = r.frames } };

    ghost invariant = { λ r. AllByRecursion (λ v. (v.items ≡ []) × (vec_len v ≡ 0) × (r.frames ≤ vec_capacity v)) r.lists.items };
}

/// Returns `lists` empty buffers, each with capacity for `frames` frames. Fails if out of memory.
fn empty_lists(
    alloc: Global,
    lists: usize,
    frames: usize,
) -> Result<Vec<Vec<Addressed>>, AllocError>
    ensures len { IfOk result (λ all. length all.items ≡ lists) }
    ensures room { IfOk result (λ all.
        AllByRecursion (λ v. (v.items ≡ []) × (vec_len v ≡ 0) × (frames ≤ vec_capacity v)) all.items) }
{
    let mut all = Vec::with_capacity(alloc, lists)?;
    for _ in 0..lists {
        all.push_reserved(Vec::with_capacity(alloc, frames)?);
    }
    Ok(all)
}

impl SpareBuffers {
    /// Returns a set without buffers.
    pub fn new(alloc: Global) -> SpareBuffers
        ensures { result ≡ no_rooms }
    {
        SpareBuffers {
            alloc,
            lists: Vec::new(alloc),
            frames: 0,
        }
    }

    /// Ensures that there are `lists` spare buffers for `frames` frames each. The capacity at least
    /// doubles when it grows, so a growing queue costs little.
    fn reserve(&mut self, lists: usize, frames: usize) -> Result<(), AllocError>
        ensures lists { OnOk result (lists ≤ self.new.lists) }
        ensures frames { OnOk result (frames ≤ self.new.frames) }
    {
        if lists <= self.lists.len() && frames <= self.frames {
            return Ok(());
        }
        let frames = if self.frames < frames {
            frames.max(self.frames.saturating_mul(2))
        } else {
            self.frames
        };
        self.lists = empty_lists(self.alloc, lists, frames)?;
        self.frames = frames;
        Ok(())
    }

    /// Allocates for `copies` lists of `answers` answers and `grants` grants each. Returns an empty
    /// list with capacity for them. Fails if out of memory.
    pub fn prepare(
        &mut self,
        copies: usize,
        answers: usize,
        grants: usize,
    ) -> Result<Vec<Outs>, AllocError>
        ensures items { IfOk result (λ all. all.items ≡ []) }
        ensures len { IfOk result (λ all. vec_len all ≡ 0) }
        ensures capacity { IfOk result (λ all. copies ≤ vec_capacity all) }
        ensures lists { OnOk result (copies ≤ self.new.lists) }
        ensures frames { OnOk result (answers + grants ≤ self.new.frames) }
    {
        self.reserve(copies, answers.checked_add(grants).ok_or(AllocError)?)?;
        Vec::with_capacity(self.alloc, copies)
    }

    /// Returns an empty buffer with capacity for `frames` frames.
    fn list(&mut self, frames: usize) -> Vec<Addressed>
        requires lists { 0 < self.old.lists }
        requires frames { frames ≤ self.old.frames }
        ensures items { result.items ≡ [] }
        ensures len { vec_len result ≡ 0 }
        ensures capacity { frames ≤ vec_capacity result }
        ensures lists { self.old.lists ≤ self.new.lists + 1 }
        ensures frames { self.new.frames ≡ self.old.frames }
    {
        match Vec::with_capacity(self.alloc, frames) {
            Ok(list) => list,
            Err(_) => self.lists.pop().unwrap(),
        }
    }

    /// Returns the frames of an answer, if there is one, and of the grants. A spare buffer must be
    /// available. An answer alone, as most events send, needs no buffer.
    fn said(
        &mut self,
        generation: u32,
        seats: &BTreeMap<u16, TabSeat>,
        own: Option<TabAnswer>,
        granted: &[Grant],
    ) -> Outs
        requires lists { 0 < self.old.lists }
        requires frames { length (replied generation own) + length granted.now ≤ self.old.frames }
        ensures said { result
            ≡ replied generation own ++ map (grant_of generation seats.now.entries) granted.now }
        ensures lists { self.old.lists ≤ self.new.lists + 1 }
        ensures frames { self.new.frames ≡ self.old.frames }
    {
        match own {
            Some(reply) if granted.is_empty() => Outs::one(reply.to_frame(generation)),
            _ => Outs::new(self.said_in_list(generation, seats, own, granted)),
        }
    }

    /// Returns these frames in a buffer.
    fn said_in_list(
        &mut self,
        generation: u32,
        seats: &BTreeMap<u16, TabSeat>,
        own: Option<TabAnswer>,
        granted: &[Grant],
    ) -> Vec<Addressed>
        requires lists { 0 < self.old.lists }
        requires frames { length (replied generation own) + length granted.now ≤ self.old.frames }
        ensures said { result.items
            ≡ replied generation own ++ map (grant_of generation seats.now.entries) granted.now }
        ensures lists { self.old.lists ≤ self.new.lists + 1 }
        ensures frames { self.new.frames ≡ self.old.frames }
    {
        let answers = usize::from(own.is_some());
        let mut outs = self.list(answers + granted.len());
        if let Some(reply) = own {
            outs.push_reserved(reply.to_frame(generation));
        }
        push_grants(&mut outs, generation, seats, granted);
        outs
    }

    /// Appends `copies` equal lists of these frames to `all`. The capacity must be prepared.
    pub fn tell(
        &mut self,
        all: &mut Vec<Outs>,
        copies: usize,
        generation: u32,
        seats: &BTreeMap<u16, TabSeat>,
        own: Option<TabAnswer>,
        granted: &[Grant],
    )
        requires none { all.old.items ≡ [] }
        requires len { vec_len all.old ≡ 0 }
        requires capacity { copies ≤ vec_capacity all.old }
        requires lists { copies ≤ self.old.lists }
        requires frames { length (replied generation own) + length granted.now ≤ self.old.frames }
        ensures { all.new.items ≡ replicate copies (replied generation own
            ++ map (grant_of generation seats.now.entries) granted.now) }
    {
        for _ in 0..copies {
            let said = self.said(generation, seats, own, granted);
            all.push_reserved(said);
        }
    }
}
