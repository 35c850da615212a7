//! Works: events with their shards.

ghost use Rattle.std.specs.Prelude.{◌≡◌, ◌<◌, ◌↔◌, ◌++◌, IsTrue, OnErr, OnOk};
ghost use Rattle.wl_broker.specs.Shards.{shard_of};
ghost use Rattle.wl_locked.specs.Sharding.{IsDealt, works_of};

use crate::event::BookEvent;
use std::alloc::AllocError;

/// An event for the broker of one shard. A message belongs to the shard of its partition. A death
/// is one work in each shard.
#[derive(Drop)]
pub struct Work {
    /// Shard number, from 0.
    pub shard: u16,
    pub event: BookEvent,
}

impl Work {
    /// Returns true if the shard is one of `shards` shards and the event belongs to it.
    pub fn is_dealt(&self, shards: u16) -> bool
        ensures { IsTrue result ↔ IsDealt shards self.now }
    {
        self.shard < shards
            && match &self.event {
                BookEvent::Take(stamped) => shard_of(shards, stamped.partition) == self.shard,
                BookEvent::Dead(_tab) => true,
            }
    }
}

/// Returns the shard of a partition.
pub fn shard_of(shards: u16, partition: u16) -> u16
    requires { 0 < shards }
    ensures { result ≡ shard_of shards partition }
{
    partition % shards
}

/// Appends the works of an event: one in the partition's shard for a message, one in each shard for
/// a death. Leaves the list unchanged if out of memory.
pub fn deal(works: &mut Vec<Work>, shards: u16, event: BookEvent) -> Result<(), AllocError>
    requires { 0 < shards }
    ensures ok { OnOk result (works.new.items ≡ works.old.items ++ works_of shards event) }
    ensures err { OnErr result (works.new.items ≡ works.old.items) }
{
    match event {
        BookEvent::Take(stamped) => {
            let shard = shard_of(shards, stamped.partition);
            let event = BookEvent::Take(stamped);
            works.push(Work { shard, event })?;
        }
        BookEvent::Dead(tab) => {
            works.reserve(usize::from(shards))?;
            for shard in 0..shards {
                let event = BookEvent::Dead(tab);
                works.push(Work { shard, event }).unwrap();
            }
        }
    }
    Ok(())
}
