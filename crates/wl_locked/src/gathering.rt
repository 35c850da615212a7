//! The histories of the shards, collected in order up to the first fault.

ghost use Rattle.std.specs.Prelude.{◌≡◌, ◌<◌, ◌+◌, List, IfOk, IfErr};
ghost use Rattle.wl_locked.specs.Sharding.{IsGathered, IsRoomy};
ghost use Rattle.wl_locked.specs.Closing.{IsClosed};
ghost use Rattle.wl_locked.specs.Sharding.{opening_of, receipts_in};
ghost use Rattle.wl_locked.specs.declared.receipt.Receipt.{Receipt};

use crate::receipt::{CloseFault, History};
use crate::shards::Shards;

#[derive(Drop)]
pub(crate) struct Gathering {
    pub(crate) histories: Vec<History>,
    pub(crate) shards: u16,
    /// The lowest shard that has a fault, with the fault.
    pub(crate) fault: Option<(u16, CloseFault)>,
}

impl Gathering {
    /// Adds the result of the next shard. Allocates nothing.
    pub(crate) fn add<J: Shards>(&mut self, shard: u16, closed: Result<History, CloseFault>)
        requires room { IsRoomy shard self.old }
        requires shards { self.old.shards ≡ J.run.shards }
        ensures room { IsRoomy (shard + 1) self.new }
        ensures shards { self.new.shards ≡ self.old.shards }
        ensures gathered { (lanes : List (List (List Receipt))) → IsGathered J.run lanes self.old
            → IsClosed (opening_of J.run shard) J.run.limit J.run.lanes (receipts_in shard lanes) closed
            → IsGathered J.run lanes self.new }
    {
        if shard >= self.shards || self.fault.is_some() {
            return;
        }
        match closed {
            Ok(history) => self.histories.push(history).unwrap(),
            Err(fault) => self.fault = Some((shard, fault)),
        }
    }

    /// Returns the histories, or the fault of the lowest shard that has one.
    pub(crate) fn end(self) -> Result<Vec<History>, (u16, CloseFault)>
        ensures histories { IfOk result (λ histories. (histories ≡ self.histories) × (self.fault ≡ None)) }
        ensures fault { IfErr result (λ e. self.fault ≡ Some e) }
    {
        match self.fault {
            Some(fault) => Err(fault),
            None => Ok(self.histories),
        }
    }
}
