//! An event shared by the history and the receipts of its step.

ghost use Rattle.std.specs.Prelude.{◌≡◌, IfOk};

use crate::event::BookEvent;
use std::alloc::{AllocError, Global};
use std::marker::Model;
use std::sync::Arc;

/// A reference-counted event, shared by a step in the history and the step's receipts. Its value in
/// contracts is the event.
#[derive(Drop)]
pub struct SharedEvent {
    event: Arc<BookEvent>,
}

impl Model for SharedEvent {
    ghost use Rattle.std.specs.Arc.{arc_value};
    ghost use Rattle.wl_locked.specs.declared.event.BookEvent.{BookEvent};

    ghost Value = { BookEvent };

    ghost view = { λ s. arc_value s.event };
}

impl SharedEvent {
    /// Moves the event into a new allocation.
    pub fn new(alloc: Global, event: BookEvent) -> Result<SharedEvent, AllocError>
        ensures { IfOk result (λ shared. shared ≡ event) }
    {
        Ok(SharedEvent {
            event: Arc::new(alloc, event)?,
        })
    }

    /// Returns another handle of the same event. Allocates nothing. Fails if the reference count is
    /// at its maximum.
    pub(crate) fn share(&self) -> Result<SharedEvent, AllocError>
        ensures { IfOk result (λ shared. shared ≡ self.now) }
    {
        Ok(SharedEvent {
            event: Arc::try_clone(&self.event)?,
        })
    }

    /// Returns the event.
    pub fn get(&self) -> &BookEvent
        ensures { result.now ≡ self.now }
    {
        &self.event
    }
}

impl PartialEq for SharedEvent {
    ghost use Rattle.wl_locked.specs.contracts.event.BookEventPartialEq.TheImpl.Laws.{laws-law};

    ghost eq = { ⟦<BookEvent as PartialEq>⟧.eq };

    ghost laws = { laws-law };

    fn eq(&self, other: &SharedEvent) -> bool {
        self.get() == other.get()
    }
}

impl Eq for SharedEvent {
    ghost use Rattle.wl_locked.specs.contracts.event.BookEventEq.TheImpl.Laws.{laws-law};

    ghost laws = { laws-law };
}

/// Handles of one event, for its step and the step's two receipts. Its value in contracts is the
/// event.
#[derive(Drop)]
pub struct EventHandles {
    pub(crate) stored: SharedEvent,
    pub(crate) first: SharedEvent,
    pub(crate) second: SharedEvent,
}

impl Model for EventHandles {
    ghost use Rattle.std.specs.Prelude.{◌≡◌};
    ghost use Rattle.wl_locked.specs.declared.event.BookEvent.{BookEvent};

    ghost Value = { BookEvent };

    ghost view = { λ h. h.stored };

    ghost invariant = { λ h. (h.first ≡ h.stored) × (h.second ≡ h.stored) };
}

impl EventHandles {
    /// Moves an event into a new allocation and returns its handles.
    pub fn new(alloc: Global, event: BookEvent) -> Result<EventHandles, AllocError>
        ensures { IfOk result (λ h. h ≡ event) }
    {
        let stored = SharedEvent::new(alloc, event)?;
        let first = stored.share()?;
        let second = stored.share()?;
        Ok(EventHandles {
            stored,
            first,
            second,
        })
    }
}
