//! Steps, their receipts, and the reasons for having none.

ghost use Rattle.std.specs.Prelude.{◌≡◌};
ghost use Rattle.wl_locked.specs.declared.receipt.NotStepped.TheVariants.{Memory};

use crate::event::Reply;
use crate::shared_event::SharedEvent;
use std::alloc::AllocError;
use std::marker::Model;
use thiserror::Error;

/// One step of the broker: an event and the broker's reply.
#[derive(Drop)]
pub struct Step {
    pub event: SharedEvent,
    pub reply: Reply,
}

/// A lane's record of a step: the step and its place in the history.
#[derive(Drop)]
pub struct Receipt {
    /// Index in the history, from 0.
    pub place: u32,
    pub event: SharedEvent,
    pub reply: Reply,
}

/// Why an event made no step. Nothing has changed.
#[derive(Clone, Copy, Debug, PartialEq, Eq, Error)]
pub enum NotStepped {
    /// The generation has reached its step limit.
    #[error("GenerationSpent")]
    GenerationSpent,
    /// Out of memory.
    #[error("Memory")]
    Memory,
}

impl From<AllocError> for NotStepped {
    ghost from_gives = { λ _ e. e ≡ Memory };

    fn from(_error: AllocError) -> NotStepped {
        NotStepped::Memory
    }
}

/// Why a history does not match the lanes' receipts.
#[derive(Clone, Copy, Debug, PartialEq, Eq, Error)]
pub enum CloseFault {
    /// A receipt of this place differs from the step there, occurs twice, or is out of order in its
    /// lane.
    #[error("Mismatch({0})")]
    Mismatch(u32),
    /// There are fewer receipts than steps.
    #[error("WrongCount")]
    WrongCount,
}

/// The steps of one generation, in order. Its value in contracts is the list of steps.
#[derive(Drop)]
pub struct History {
    steps: Vec<Step>,
}

impl Model for History {
    ghost use Rattle.std.specs.Prelude.{List};
    ghost use Rattle.wl_locked.specs.declared.receipt.Step.{Step};

    ghost Value = { List Step };

    ghost view = { λ h. h.steps.items };
}

impl History {
    pub(crate) fn new(steps: Vec<Step>) -> History
        ensures { result ≡ steps.items }
    {
        History { steps }
    }

    /// Returns the steps, in order.
    pub fn steps(&self) -> &[Step]
        ensures { result.now ≡ self.now }
    {
        self.steps.as_slice()
    }
}
