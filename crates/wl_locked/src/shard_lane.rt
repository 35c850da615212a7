//! Lanes over shards, and the shares of all shards' ledgers.

ghost use Rattle.std.specs.Prelude.{◌≡◌, ◌+◌, ◌<◌, ℕ, [], length, replicate, slice_index_or};
ghost use Rattle.wl_locked.specs.Sharding.{receipts_of, receipts_in, raised};
ghost use Rattle.wl_locked.specs.Receipts.{total};
ghost use Rattle.wl_locked.specs.declared.shards.TheConstants.{SHARD_LIMIT};

use crate::lane::ShardReceipts;
use crate::receipt::Receipt;
use crate::shard_groups::{FourLanes, FourShares};
use crate::shards::Shards;
use std::alloc::Global;
use std::marker::Model;

/// One lane of a sharded broker, for use by one thread. It contains a lane of each shard.
///
/// Its value in contracts is the list of receipts of each shard, in order. Shards that the run does
/// not use have no receipts.
#[derive(Drop)]
pub struct ShardLane<J: Shards> {
    pub(crate) first: FourLanes<J, 0, 1, 2, 3>,
    pub(crate) second: FourLanes<J, 4, 5, 6, 7>,
    pub(crate) third: FourLanes<J, 8, 9, 10, 11>,
    pub(crate) fourth: FourLanes<J, 12, 13, 14, 15>,
}

impl<J: Shards> Model for ShardLane<J> {
    ghost use Rattle.std.specs.Prelude.{List, [], ◌∷◌};
    ghost use Rattle.wl_locked.specs.declared.receipt.Receipt.{Receipt};

    ghost Value = { List (List Receipt) };

    ghost view = { λ l. l.first.first ∷ l.first.second ∷ l.first.third ∷ l.first.fourth ∷ l.second.first ∷ l.second.second ∷ l.second.third ∷ l.second.fourth ∷ l.third.first ∷ l.third.second ∷ l.third.third ∷ l.third.fourth ∷ l.fourth.first ∷ l.fourth.second ∷ l.fourth.third ∷ l.fourth.fourth ∷ [] };
}

impl<J: Shards> ShardLane<J> {
    /// Returns the lane's receipts of one shard, in order.
    pub fn receipts(&self, shard: u16) -> &[Receipt]
        requires { shard < SHARD_LIMIT }
        ensures { result.now ≡ receipts_of shard self.now }
    {
        match shard {
            0 => self.first.first.receipts(),
            1 => self.first.second.receipts(),
            2 => self.first.third.receipts(),
            3 => self.first.fourth.receipts(),
            4 => self.second.first.receipts(),
            5 => self.second.second.receipts(),
            6 => self.second.third.receipts(),
            7 => self.second.fourth.receipts(),
            8 => self.third.first.receipts(),
            9 => self.third.second.receipts(),
            10 => self.third.third.receipts(),
            11 => self.third.fourth.receipts(),
            12 => self.fourth.first.receipts(),
            13 => self.fourth.second.receipts(),
            14 => self.fourth.third.receipts(),
            _ => self.fourth.fourth.receipts(),
        }
    }
}

impl<J: Shards> ShardReceipts for ShardLane<J> {
    ghost use Rattle.wl_locked.specs.Sharding.{receipts_of};

    ghost kept = { λ shard l. receipts_of shard l };

    fn kept(&self, shard: u16) -> &[Receipt] {
        self.receipts(shard)
    }
}

/// One share of each shard's ledger, in groups of four. All shares have the same number of parts.
///
/// Its value in contracts is that number, and the amount of each share.
#[derive(Drop)]
pub(crate) struct Shares<J: Shards> {
    pub(crate) first: FourShares<J, 0, 1, 2, 3>,
    pub(crate) second: FourShares<J, 4, 5, 6, 7>,
    pub(crate) third: FourShares<J, 8, 9, 10, 11>,
    pub(crate) fourth: FourShares<J, 12, 13, 14, 15>,
}

impl<J: Shards> Model for Shares<J> {
    ghost use Rattle.std.specs.Prelude.{◌≡◌, ℕ, List, [], ◌∷◌};

    ghost Value = { ℕ × List ℕ };

    ghost view = { λ s. (s.first.first.parts, s.first.first.amount ∷ s.first.second.amount ∷ s.first.third.amount ∷ s.first.fourth.amount ∷ s.second.first.amount ∷ s.second.second.amount ∷ s.second.third.amount ∷ s.second.fourth.amount ∷ s.third.first.amount ∷ s.third.second.amount ∷ s.third.third.amount ∷ s.third.fourth.amount ∷ s.fourth.first.amount ∷ s.fourth.second.amount ∷ s.fourth.third.amount ∷ s.fourth.fourth.amount ∷ []) };

    ghost invariant = { λ s. (s.first.second.parts ≡ s.first.first.parts) × (s.first.third.parts ≡ s.first.first.parts) × (s.first.fourth.parts ≡ s.first.first.parts) × (s.second.first.parts ≡ s.first.first.parts) × (s.second.second.parts ≡ s.first.first.parts) × (s.second.third.parts ≡ s.first.first.parts) × (s.second.fourth.parts ≡ s.first.first.parts) × (s.third.first.parts ≡ s.first.first.parts) × (s.third.second.parts ≡ s.first.first.parts) × (s.third.third.parts ≡ s.first.first.parts) × (s.third.fourth.parts ≡ s.first.first.parts) × (s.fourth.first.parts ≡ s.first.first.parts) × (s.fourth.second.parts ≡ s.first.first.parts) × (s.fourth.third.parts ≡ s.first.first.parts) × (s.fourth.fourth.parts ≡ s.first.first.parts) };
}

impl<J: Shards> Shares<J> {
    /// Cuts off a lane without receipts.
    pub(crate) fn cut(&mut self, alloc: Global) -> ShardLane<J>
        requires parts { 0 < self.old.0 }
        requires amounts { self.old.1 ≡ replicate SHARD_LIMIT 0 }
        ensures lane { result ≡ replicate SHARD_LIMIT [] }
        ensures parts { self.new.0 + 1 ≡ self.old.0 }
        ensures amounts { self.new.1 ≡ self.old.1 }
    {
        ShardLane {
            first: self.first.cut(alloc),
            second: self.second.cut(alloc),
            third: self.third.cut(alloc),
            fourth: self.fourth.cut(alloc),
        }
    }

    /// Merges the shares of a lane into these.
    pub(crate) fn merge(&mut self, lane: ShardLane<J>)
        ensures parts { self.new.0 ≡ self.old.0 + 1 }
        ensures amounts { self.new.1 ≡ raised self.old.1 lane }
    {
        self.first.merge(lane.first);
        self.second.merge(lane.second);
        self.third.merge(lane.third);
        self.fourth.merge(lane.fourth);
    }
}

/// Merges the shares of all lanes.
pub(crate) fn gather_all<J: Shards>(shares: Shares<J>, lanes: Vec<ShardLane<J>>) -> Shares<J>
    requires parts { shares.0 ≡ 0 }
    requires amounts { shares.1 ≡ replicate SHARD_LIMIT 0 }
    ensures parts { result.0 ≡ length lanes.items }
    ensures amounts { (shard : ℕ) → shard < SHARD_LIMIT
        → slice_index_or result.1 shard 0 ≡ total (receipts_in shard lanes.items) }
{
    let mut all = shares;
    let mut lanes = lanes;
    while let Some(lane) = lanes.pop() {
        all.merge(lane);
    }
    all
}
