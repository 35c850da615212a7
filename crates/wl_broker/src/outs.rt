//! Frames that the broker sends for one event.

ghost use Rattle.std.specs.Prelude.{◌≡◌, [], ◌∷◌, length, IfOk, OnErr};
ghost use Rattle.wl_broker.specs.Outs.{listed};

use std::alloc::{AllocError, Global};
use std::marker::Model;
use std::slice;
use wl_grammar::Addressed;

/// The frames that the broker sends for one event, as stored.
#[derive(Drop)]
pub enum Frames {
    /// A single frame.
    One(Addressed),
    /// Any number of frames, on the heap.
    Listed(Vec<Addressed>),
}

/// The frames that the broker sends for one event, each with the tab that it is for. Most events
/// send a single frame, which does not allocate. Contracts see it as the list alone.
#[derive(Drop)]
pub struct Outs {
    frames: Frames,
}

impl Model for Outs {
    ghost use Rattle.std.specs.Prelude.{List};
    ghost use Rattle.wl_grammar.specs.declared.frame.Addressed.{Addressed};
    ghost use Rattle.wl_broker.specs.Outs.{listed};

    ghost Value = { List Addressed };

    ghost view = { λ o. listed o.frames };
}

impl Outs {
    /// Wraps a list of frames. Does not allocate.
    pub fn new(frames: Vec<Addressed>) -> Outs
        ensures { result ≡ frames.items }
    {
        Outs {
            frames: Frames::Listed(frames),
        }
    }

    /// Wraps a single frame. Does not allocate.
    pub fn one(frame: Addressed) -> Outs
        ensures { result ≡ frame ∷ [] }
    {
        Outs {
            frames: Frames::One(frame),
        }
    }

    /// Returns the frames as stored. Does not allocate.
    pub fn into_frames(self) -> Frames
        ensures { listed result ≡ self }
    {
        self.frames
    }

    /// Returns the frames as a vector. Allocates only for a single frame, and fails if out of
    /// memory.
    pub fn into_list(self, alloc: Global) -> Result<Vec<Addressed>, AllocError>
        ensures list { IfOk result (λ list. list.items ≡ self) }
        ensures refused { OnErr result (length self ≡ 1) }
    {
        match self.frames {
            Frames::One(frame) => Ok(Vec::from_array(alloc, [frame])?),
            Frames::Listed(frames) => Ok(frames),
        }
    }

    /// Returns the frames as a slice.
    pub fn as_slice(&self) -> &[Addressed]
        ensures { result.now ≡ self.now }
    {
        match &self.frames {
            Frames::One(frame) => slice::from_ref(frame),
            Frames::Listed(frames) => frames.as_slice(),
        }
    }
}

impl PartialEq for Outs {
    ghost use Rattle.std.specs.Cmp.Lexicographic.{pointwise, lists_per};
    ghost use Rattle.wl_grammar.specs.contracts.frame.AddressedPartialEq.TheImpl.Laws.{laws-law};

    ghost eq = { pointwise ⟦<Addressed as PartialEq>⟧.eq };

    ghost laws = { lists_per laws-law };

    fn eq(&self, other: &Outs) -> bool {
        self.as_slice() == other.as_slice()
    }
}

impl Eq for Outs {
    ghost use Rattle.std.specs.Cmp.Lexicographic.{lists_equiv};
    ghost use Rattle.wl_grammar.specs.contracts.frame.AddressedEq.TheImpl.Laws.{laws-law};

    ghost laws = { lists_equiv laws-law };
}
