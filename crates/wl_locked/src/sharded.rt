//! A sharded broker: partitions of different shards do not wait for each other.

ghost use Rattle.std.specs.Prelude.{◌≡◌, ◌≢◌, ◌<◌, ◌≤◌, [], ℕ, List, length, replicate, slice_index_or, IfOk, IfErr, OnErr};
ghost use Rattle.wl_grammar.specs.Grammar.{TabsRiseFrom};
ghost use Rattle.wl_locked.specs.Blanks.{HaveParts, AreNamed};
ghost use Rattle.wl_locked.specs.History.{IsAnswer};
ghost use Rattle.wl_locked.specs.Sharding.{IsDealt, IsShardFault, IsShardHistory, hellos_below, opening_of, receipts_of, KeepsIn};
ghost use Rattle.wl_locked.specs.declared.locked.TheConstants.{LANE_LIMIT};
ghost use Rattle.wl_locked.specs.declared.shards.TheConstants.{SHARD_LIMIT};
ghost use Rattle.wl_locked.specs.declared.receipt.Step.{Step};

use crate::brokers::{Brokers, OpenParameters};
use crate::event::Reply;
use crate::gathering::Gathering;
use crate::receipt::{CloseFault, History, NotStepped, Receipt};
use crate::shard_lane::{ShardLane, Shares};
use crate::shards::{Blanks, Shards};
use crate::work::Work;
use std::alloc::{AllocError, Global};
use std::marker::Model;
use std::sync::Wait;
use wl_broker::{Dropped, Outs};

/// A broker of one generation in shards, each behind a lock of its own, shared by lanes on several
/// threads. Partition p belongs to shard p mod n, where n is the number of shards.
#[derive(Drop)]
pub struct Sharded<J: Shards> {
    brokers: Brokers<J>,
    shards: u16,
    /// Space for the history of each shard, filled by `close`.
    room: Vec<History>,
}

impl<J: Shards> Model for Sharded<J> {
    ghost use Rattle.std.specs.Prelude.{◌≡◌, ◌≤◌, ℕ, [], vec_capacity};
    ghost use Rattle.wl_locked.specs.declared.shards.TheConstants.{SHARD_LIMIT};

    ghost Value = { ℕ };

    ghost view = { λ s. s.shards };

    ghost invariant = { λ s. (s.shards ≡ J.run.shards) × (s.shards ≤ SHARD_LIMIT) × (s.room.items ≡ []) × (s.shards ≤ vec_capacity s.room) };
}

/// Cuts the lanes from the shares of all shards.
fn cut_lanes<J: Shards>(
    alloc: Global,
    shares: Shares<J>,
    lanes: u16,
) -> Result<Vec<ShardLane<J>>, AllocError>
    requires parts { shares.0 ≡ lanes }
    requires amounts { shares.1 ≡ replicate SHARD_LIMIT 0 }
    ensures { IfOk result (λ made. made.items ≡ replicate lanes (replicate SHARD_LIMIT [])) }
{
    let mut shares = shares;
    let mut made = Vec::with_capacity(alloc, lanes as usize)?;
    for _i in 0..lanes {
        made.push(shares.cut(alloc))?;
    }
    Ok(made)
}

impl<J: Shards> Sharded<J> {
    /// Starts a generation of at most `limit` steps in each shard. Returns the broker, its lanes,
    /// and a hello for each listed tab.
    ///
    /// The hellos are in ascending order of shards, and within a shard in the order of the start
    /// list.
    pub fn new(
        alloc: Global,
        blanks: Blanks,
        generation: u32,
        list: &[(u16, u16)],
        limit: u32,
        lanes: u16,
        shards: u16,
    ) -> Result<(Sharded<J>, Vec<ShardLane<J>>, Outs), AllocError>
        requires list { TabsRiseFrom 1 list.now }
        requires names { AreNamed J.names blanks }
        requires parts { HaveParts lanes blanks }
        requires lanes { (0 < lanes) × (lanes ≤ LANE_LIMIT) }
        requires shards { (0 < shards) × (shards ≤ SHARD_LIMIT) }
        requires run { J.run ≡ record {
          generation = generation;
          listed = list.now;
          shards = shards;
          lanes = lanes;
          limit = limit;
        } }
        ensures lanes { IfOk result (λ r. r.1.items ≡ replicate lanes (replicate SHARD_LIMIT [])) }
        ensures hellos { IfOk result (λ r. r.2 ≡ hellos_below J.run shards) }
    {
        let beginning = OpenParameters {
            alloc,
            generation,
            list,
            shards,
            limit,
            lanes,
        };
        let room = Vec::with_capacity(alloc, shards as usize)?;
        let (brokers, shares, greetings) = Brokers::open(&beginning, blanks)?;
        let made = match cut_lanes(alloc, shares, lanes) {
            Ok(made) => made,
            Err(refused) => {
                drop((brokers, greetings));
                return Err(refused);
            }
        };
        let sharded = Sharded {
            brokers,
            shards,
            room,
        };
        Ok((sharded, made, Outs::new(greetings)))
    }

    /// Returns the number of shards.
    pub fn shards(&self) -> u16
        ensures { result ≡ J.run.shards }
    {
        self.shards
    }

    /// Steps the broker of the work's shard once and returns the receipt of the step. The lane
    /// keeps a copy of the receipt. Fails with `GenerationSpent` at the shard's step limit, and
    /// with `Memory` if out of memory.
    pub fn take<R: Wait>(
        &self,
        rt: &R,
        lane: &mut ShardLane<J>,
        work: Work,
    ) -> Result<Receipt, NotStepped>
        requires { IsDealt J.run.shards work }
        ensures event { IfOk result (λ r. r.event ≡ work.event) }
        ensures reply { IfOk result (λ r. IsAnswer (opening_of J.run work.shard) r.place work.event r.reply) }
        ensures cause { IfOk result (λ r. r.reply ≢ Reply.Dropped Dropped.Memory) }
        ensures place { IfOk result (λ r. length (receipts_of work.shard lane.old) ≤ r.place) }
        ensures limit { IfOk result (λ r. r.place < J.run.limit) }
        ensures kept { IfOk result (λ r. KeepsIn work.shard r lane.old lane.new) }
        ensures err { OnErr result (lane.new ≡ lane.old) }
    {
        self.brokers.take(rt, lane, work)
    }

    /// Closes the broker and returns the history of each shard, if each matches the lanes' receipts
    /// of that shard. Else fails with the lowest shard that has a fault. Allocates nothing.
    pub fn close(self, lanes: Vec<ShardLane<J>>) -> Result<Vec<History>, (u16, CloseFault)>
        ensures count { IfOk result (λ histories. length histories.items ≡ J.run.shards) }
        ensures made { IfOk result (λ histories. (shard : ℕ) → shard < J.run.shards
            → IsShardHistory J.run lanes.items shard (slice_index_or histories.items shard [])) }
        ensures shard { IfErr result (λ e. e.0 < J.run.shards) }
        ensures fault { IfErr result (λ e. IsShardFault J.run lanes.items e.0 e.1) }
        ensures least { IfErr result (λ e. (shard : ℕ) → shard < e.0
            → (history : List Step) × IsShardHistory J.run lanes.items shard history) }
    {
        let Sharded {
            brokers,
            shards,
            room,
        } = self;
        let gathering = Gathering {
            histories: room,
            shards,
            fault: None,
        };
        brokers.close(lanes, gathering)
    }
}
