//! Places of the messages with one key.

ghost use Rattle.std.specs.Prelude.{◌≡◌, [], ◌∷◌, ◌++◌, IfOk, OnOk, OnErr};

use std::alloc::{AllocError, Global};
use std::marker::Model;

/// Places in the bag, in the order of sending.
#[derive(Drop)]
pub(crate) struct Places {
    items: Vec<usize>,
}

impl Model for Places {
    ghost use Rattle.std.specs.Prelude.{ℕ, List};

    ghost Value = { List ℕ };

    ghost view = { λ p. p.items.items };
}

impl Places {
    /// Returns a list of this one place.
    pub(crate) fn of(alloc: Global, place: usize) -> Result<Places, AllocError>
        ensures { IfOk result (λ places. places ≡ place ∷ []) }
    {
        let mut items = Vec::with_capacity(alloc, 1)?;
        items.push(place)?;
        Ok(Places { items })
    }

    /// Appends a place.
    pub(crate) fn push(&mut self, place: usize) -> Result<(), AllocError>
        ensures ok { OnOk result (self.new ≡ self.old ++ place ∷ []) }
        ensures err { OnErr result (self.new ≡ self.old) }
    {
        self.items.push(place)?;
        Ok(())
    }

    pub(crate) fn as_slice(&self) -> &[usize]
        ensures { result.now ≡ self.now }
    {
        self.items.as_slice()
    }
}
