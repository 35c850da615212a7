//! Lanes, and the receipts they keep.

ghost use Rattle.std.specs.Prelude.{◌≡◌, ◌+◌, [], length};
ghost use Rattle.wl_locked.specs.Receipts.{total};

use crate::receipt::Receipt;
use std::alloc::Global;
use std::marker::{Brand, Model};
use std::sync::ledger::{Ledger, Share};

/// A ghost description of one run of a broker: the ledger that counts the lanes' steps, the
/// broker's opening state and its step limit. A program uses a fresh brand for each run.
pub trait Generation: Ledger {
    ghost use Rattle.std.specs.Prelude.{ℕ};
    ghost use Rattle.wl_broker.specs.Broker.{BrokerState};

    ghost opening: { BrokerState };

    ghost limit: { ℕ };
}

impl Generation for Brand {
    ghost use Rattle.std.specs.Prelude.{[]};
    ghost use Rattle.wl_broker.specs.Broker.{started};

    ghost opening = { started 0 [] };

    ghost limit = { 0 };
}

/// One lane of a broker, for use by one thread. Its value in contracts is the list of its receipts.
#[derive(Drop)]
pub struct Lane<J: Generation> {
    pub(crate) receipts: Vec<Receipt>,
    pub(crate) share: Share<J>,
}

impl<J: Generation> Model for Lane<J> {
    ghost use Rattle.std.specs.Prelude.{◌≡◌, List, length};
    ghost use Rattle.wl_locked.specs.declared.receipt.Receipt.{Receipt};

    ghost Value = { List Receipt };

    ghost view = { λ l. l.receipts.items };

    ghost invariant = { λ l. (l.share.parts ≡ 1) × (l.share.amount ≡ length l.receipts.items) };
}

impl<J: Generation> Lane<J> {
    pub(crate) fn new(alloc: Global, share: Share<J>) -> Lane<J>
        requires { (share.parts ≡ 1) × (share.amount ≡ 0) }
        ensures { result ≡ [] }
    {
        Lane {
            receipts: Vec::new(alloc),
            share,
        }
    }

    /// Returns the number of steps that the lane has made.
    pub fn count(&self) -> usize
        ensures { result ≡ length self.now }
    {
        self.receipts.len()
    }

    /// Returns the lane's receipts, in order.
    pub fn receipts(&self) -> &[Receipt]
        ensures { result.now ≡ self.now }
    {
        self.receipts.as_slice()
    }

    /// Returns the lane's share of the ledger, and drops its receipts.
    pub(crate) fn into_ledger_share(self) -> Share<J>
        ensures parts { result.parts ≡ 1 }
        ensures amount { result.amount ≡ length self }
    {
        self.share
    }
}

/// Holder of receipts that belong to shards.
pub(crate) trait ShardReceipts {
    ghost use Rattle.std.specs.Prelude.{◌≡◌, ◌<◌, ℕ, List};
    ghost use Rattle.wl_locked.specs.declared.receipt.Receipt.{Receipt};
    ghost use Rattle.wl_locked.specs.declared.shards.TheConstants.{SHARD_LIMIT};

    ghost kept: { ℕ → Self → List Receipt };

    /// Returns the receipts of one shard, in order.
    fn kept(&self, shard: u16) -> &[Receipt]
        requires { shard < SHARD_LIMIT }
        ensures { result.now ≡ kept shard self.now };
}

/// The lane of a single book has the same receipts for every shard number.
impl<J: Generation> ShardReceipts for Lane<J> {
    ghost kept = { λ _ l. l };

    fn kept(&self, _shard: u16) -> &[Receipt] {
        self.receipts()
    }
}

/// Merges the shares of all lanes into one.
pub(crate) fn gather<J: Generation>(spare: Share<J>, lanes: Vec<Lane<J>>) -> Share<J>
    ensures parts { result.parts ≡ spare.parts + length lanes.items }
    ensures amount { result.amount ≡ spare.amount + total lanes.items }
{
    let mut all = spare;
    let mut lanes = lanes;
    while let Some(lane) = lanes.pop() {
        all.merge(lane.into_ledger_share());
    }
    all
}
