//! World: a list of events and the state after them.

ghost use Rattle.std.specs.Prelude.{◌≡◌, [], ◌∷◌, ◌++◌, IfOk, is_some, slice_get};
ghost use Rattle.std.specs.Option.{option_copied};
ghost use Rattle.wl_world_model.specs.Hostile.{MovesOwnAloneBetween};
ghost use Rattle.wl_world_model.specs.Machine.{AreHoldings, held_by_living};
ghost use Rattle.wl_kernel.specs.Kernel.{living_tabs};
ghost use Rattle.wl_world_model.specs.World.{empty_world, after_event, run};
ghost use Rattle.wl_world_model.specs.Replies.{reply_of};

use crate::components::Components;
use crate::event::Event;
use crate::reply::Reply;
use std::alloc::{AllocError, Global};
use std::marker::Model;
use wl_grammar::Sequence;
use wl_tab::Holding;
use wl_world_messages::Message;

/// A list of events and the state after them. Dropping it spends the tokens that it holds.
#[derive(Drop)]
pub struct World {
    events: Vec<Event>,
    parts: Components,
}

impl Model for World {
    ghost use Rattle.std.specs.Prelude.{◌≡◌};
    ghost use Rattle.wl_world_model.specs.Machine.{Machine};
    ghost use Rattle.wl_world_model.specs.World.{empty_world, run};

    ghost Value = { Machine };

    ghost view = { λ w. record { events = w.events.items; world = w.parts } };

    ghost invariant = { λ w. w.parts ≡ run w.events.items empty_world };
}

impl World {
    /// Returns the world before any event.
    pub fn new(alloc: Global) -> World
        ensures events { result.events ≡ [] }
        ensures world { result.world ≡ empty_world }
    {
        World {
            events: Vec::new(alloc),
            parts: Components::new(alloc),
        }
    }

    /// Applies an event and returns the new world with the reply. Fails if out of memory; the world is lost then.
    pub fn step(self, event: Event) -> Result<(World, Reply), AllocError>
        ensures events { IfOk result (λ r. r.0.events ≡ self.events ++ event ∷ []) }
        ensures world { IfOk result (λ r. r.0.world ≡ after_event self.world event) }
        ensures reply { IfOk result (λ r. r.1 ≡ reply_of self.world event) }
        // A message that arrives at the broker, forged or not, moves its own tab's locks alone. Other locks
        // move only by settling.
        ensures moves { IfOk result (λ r. MovesOwnAloneBetween self.world event r.0.world) }
    {
        let World { mut events, parts } = self;
        // The event is stored first, so that no exit has to drop an event or a reply. A drop would be a match
        // over all kinds of events.
        let (parts, reply) = parts.happen(events.push_mut(event)?)?;
        Ok((World { events, parts }, reply))
    }

    /// Returns all events so far, in order.
    pub fn events(&self) -> &[Event]
        ensures events { result.now ≡ self.now.events }
        ensures world { self.now.world ≡ run self.now.events empty_world }
    {
        self.events.as_slice()
    }

    /// Returns the message at a place of the bag, counted from 0.
    pub fn message(&self, place: usize) -> Option<&Message>
        ensures { option_copied result ≡ slice_get self.now.world.bag place }
    {
        self.parts.message(place)
    }

    /// Returns every lock that a living tab holds, by tab and then by number. Fails if out of memory.
    pub fn holdings(&self) -> Result<Sequence<Holding>, AllocError>
        ensures list { IfOk result (λ holdings. holdings ≡ held_by_living self.now.world) }
        ensures exact { IfOk result (λ holdings. AreHoldings self.now.world holdings) }
    {
        Ok(Sequence::new(self.parts.holdings()?))
    }

    /// Returns whether a broker is up.
    pub fn is_up(&self) -> bool
        ensures { result ≡ is_some self.now.world.broker }
    {
        self.parts.is_up()
    }

    /// Returns the living tabs, by rising number.
    pub fn living(&self) -> &[u16]
        ensures { result.now ≡ living_tabs self.now.world.kernel }
    {
        self.parts.living()
    }
}
