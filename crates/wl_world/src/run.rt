//! Run of a list of events from the empty world.

ghost use Rattle.std.specs.Prelude.{◌≡◌, IfOk};
ghost use Rattle.wl_world_model.specs.World.{empty_world, run};
ghost use Rattle.wl_world_model.specs.Holdings.{Exclusion, Own};
ghost use Rattle.wl_world_model.specs.Hostile.{HonestIfUnnamed};
ghost use Rattle.wl_world_model.specs.Orders.{CommandsInOrder, GrantedWereHeld, GrantsWereSent, ManagerIsFold};
ghost use Rattle.wl_world_model.specs.Heard.{HeardIsRead, HeardPosts, HeardRising, HeardTillClosed};
ghost use Rattle.wl_world_model.specs.Apart.{RunsApart};

use crate::event::Event;
use crate::world::World;
use std::alloc::{AllocError, Global};

/// Applies the events in order to the empty world and returns the world after them. Fails if out of memory.
pub fn run(alloc: Global, events: &[Event]) -> Result<World, AllocError>
    ensures events { IfOk result (λ w. w.events ≡ events.now) }
    ensures world { IfOk result (λ w. w.world ≡ run events.now empty_world) }
    // A tab is honest unless one of the events takes it over.
    ensures honest { IfOk result (λ w. HonestIfUnnamed events.now w.world) }
    // If living honest tabs of one partition hold two different locks of one name, both are shared.
    ensures exclusion { IfOk result (λ w. Exclusion w.world) }
    // Each held lock was requested by its holder, which has neither released nor aborted it.
    ensures own { IfOk result (λ w. Own events.now w.world) }
    // An honest tab's commands are taken in order and each once.
    ensures commands { IfOk result (λ w. CommandsInOrder events.now w.world) }
    // A granted answer is sent only for a lock that the broker of its generation has held.
    ensures granted { IfOk result (λ w. GrantedWereHeld events.now w.world) }
    // Each newly granted lock is sent a granted answer.
    ensures grants { IfOk result (λ w. GrantsWereSent events.now w.world) }
    // While a generation is up, its broker's locks are the draft's operations folded over the commands, reports and
    // deaths that it took.
    ensures fold { IfOk result (λ w. ManagerIsFold events.now w.world) }
    // A channel object takes posts of one source with strictly rising numbers.
    ensures heard_rising { IfOk result (λ w. HeardRising events.now) }
    // A channel object takes from honest sources only posts to its name, by tabs of its partition, that were
    // not made on the object itself.
    ensures heard_posts { IfOk result (λ w. HeardPosts events.now) }
    // A closed channel object takes no posts, and none are read from it.
    ensures heard_closed { IfOk result (λ w. HeardTillClosed events.now) }
    // The posts taken are those read, as the replies say, followed by a rest. The rest is the
    // inbox while the object is open.
    ensures heard_told { IfOk result (λ w. HeardIsRead events.now w.world) }
    // The part of the world that belongs to a partition is the world after the events of that partition alone.
    ensures apart { IfOk result (λ w. RunsApart events.now w.world) }
{
    let mut world = World::new(alloc);
    for event in events {
        let (next, _reply) = world.step(event.copy(alloc)?)?;
        world = next;
    }
    Ok(world)
}
