//! Groups of four shards: their brokers, the shares of their ledgers and a lane's part of them.

ghost use Rattle.std.specs.Prelude.{◌≡◌, ◌<◌, ◌+◌, ◌++◌, [], List, length, IfOk, OnOk};
ghost use Rattle.wl_grammar.specs.Grammar.{TabsRiseFrom};
ghost use Rattle.wl_locked.specs.Sharding.{IsEnding, IsGathered, IsRoomy, IsRun, hellos_of, opening_of, receipts_in};
ghost use Rattle.wl_locked.specs.Closing.{IsCompared};
ghost use Rattle.wl_locked.specs.declared.receipt.Receipt.{Receipt};
ghost use Rattle.wl_locked.specs.declared.shards.TheConstants.{SHARD_LIMIT};

use crate::book::ComparedBook;
use crate::brokers::{OpenParameters, open_shard};
use crate::gathering::Gathering;
use crate::lane::Lane;
use crate::locked::LockedBroker;
use crate::shard_lane::ShardLane;
use crate::shards::{At, Shards};
use std::alloc::{AllocError, Global};
use std::sync::ledger::{Blank, Share};
use wl_grammar::Addressed;

/// A lane's part of four shards.
#[derive(Drop)]
pub(crate) struct FourLanes<
    J: Shards,
    const FIRST: u16,
    const SECOND: u16,
    const THIRD: u16,
    const FOURTH: u16,
> {
    pub(crate) first: Lane<At<J, FIRST>>,
    pub(crate) second: Lane<At<J, SECOND>>,
    pub(crate) third: Lane<At<J, THIRD>>,
    pub(crate) fourth: Lane<At<J, FOURTH>>,
}

/// One share of the ledger of each of four shards.
#[derive(Drop)]
pub(crate) struct FourShares<
    J: Shards,
    const FIRST: u16,
    const SECOND: u16,
    const THIRD: u16,
    const FOURTH: u16,
> {
    pub(crate) first: Share<At<J, FIRST>>,
    pub(crate) second: Share<At<J, SECOND>>,
    pub(crate) third: Share<At<J, THIRD>>,
    pub(crate) fourth: Share<At<J, FOURTH>>,
}

impl<
    J: Shards,
    const FIRST: u16,
    const SECOND: u16,
    const THIRD: u16,
    const FOURTH: u16,
> FourShares<J, FIRST, SECOND, THIRD, FOURTH> {
    /// Cuts one lane's part off the shares. The part has no receipts.
    pub(crate) fn cut(&mut self, alloc: Global) -> FourLanes<J, FIRST, SECOND, THIRD, FOURTH>
        requires parts { (0 < self.old.first.parts) × (0 < self.old.second.parts)
            × (0 < self.old.third.parts) × (0 < self.old.fourth.parts) }
        requires amounts { (self.old.first.amount ≡ 0) × (self.old.second.amount ≡ 0)
            × (self.old.third.amount ≡ 0) × (self.old.fourth.amount ≡ 0) }
        ensures lanes { (result.first ≡ []) × (result.second ≡ [])
            × (result.third ≡ []) × (result.fourth ≡ []) }
        ensures parts { (self.new.first.parts + 1 ≡ self.old.first.parts)
            × (self.new.second.parts + 1 ≡ self.old.second.parts)
            × (self.new.third.parts + 1 ≡ self.old.third.parts)
            × (self.new.fourth.parts + 1 ≡ self.old.fourth.parts) }
        ensures amounts { (self.new.first.amount ≡ 0) × (self.new.second.amount ≡ 0)
            × (self.new.third.amount ≡ 0) × (self.new.fourth.amount ≡ 0) }
    {
        FourLanes {
            first: Lane::new(alloc, self.first.split_off(1, 0)),
            second: Lane::new(alloc, self.second.split_off(1, 0)),
            third: Lane::new(alloc, self.third.split_off(1, 0)),
            fourth: Lane::new(alloc, self.fourth.split_off(1, 0)),
        }
    }

    /// Merges the shares of a lane's part into these.
    pub(crate) fn merge(&mut self, lanes: FourLanes<J, FIRST, SECOND, THIRD, FOURTH>)
        ensures parts { (self.new.first.parts ≡ self.old.first.parts + 1)
            × (self.new.second.parts ≡ self.old.second.parts + 1)
            × (self.new.third.parts ≡ self.old.third.parts + 1)
            × (self.new.fourth.parts ≡ self.old.fourth.parts + 1) }
        ensures amounts { (self.new.first.amount ≡ self.old.first.amount + length lanes.first)
            × (self.new.second.amount ≡ self.old.second.amount + length lanes.second)
            × (self.new.third.amount ≡ self.old.third.amount + length lanes.third)
            × (self.new.fourth.amount ≡ self.old.fourth.amount + length lanes.fourth) }
    {
        self.first.merge(lanes.first.into_ledger_share());
        self.second.merge(lanes.second.into_ledger_share());
        self.third.merge(lanes.third.into_ledger_share());
        self.fourth.merge(lanes.fourth.into_ledger_share());
    }
}

/// The locked brokers of four shards.
#[derive(Drop)]
pub(crate) struct FourBrokers<
    J: Shards,
    const FIRST: u16,
    const SECOND: u16,
    const THIRD: u16,
    const FOURTH: u16,
> {
    pub(crate) first: LockedBroker<At<J, FIRST>>,
    pub(crate) second: LockedBroker<At<J, SECOND>>,
    pub(crate) third: LockedBroker<At<J, THIRD>>,
    pub(crate) fourth: LockedBroker<At<J, FOURTH>>,
}

/// The books of four shards, each compared with the lanes' receipts.
#[derive(Drop)]
pub(crate) struct FourEndings<
    J: Shards,
    const FIRST: u16,
    const SECOND: u16,
    const THIRD: u16,
    const FOURTH: u16,
> {
    first: ComparedBook<At<J, FIRST>>,
    second: ComparedBook<At<J, SECOND>>,
    third: ComparedBook<At<J, THIRD>>,
    fourth: ComparedBook<At<J, FOURTH>>,
}

impl<
    J: Shards,
    const FIRST: u16,
    const SECOND: u16,
    const THIRD: u16,
    const FOURTH: u16,
> FourBrokers<J, FIRST, SECOND, THIRD, FOURTH> {
    /// Starts four shards in order. Returns their brokers and the shares that lanes are cut from.
    pub(crate) fn open(
        beginning: &OpenParameters<'_>,
        blanks: (Blank, Blank, Blank, Blank),
        greetings: &mut Vec<Addressed>,
    ) -> Result<
        (
            FourBrokers<J, FIRST, SECOND, THIRD, FOURTH>,
            FourShares<J, FIRST, SECOND, THIRD, FOURTH>,
        ),
        AllocError,
    >
        requires shards { 0 < beginning.now.shards }
        requires list { TabsRiseFrom 1 beginning.now.list.now }
        requires names { (blanks.0.name ≡ J.names FIRST) × (blanks.1.name ≡ J.names SECOND)
            × (blanks.2.name ≡ J.names THIRD) × (blanks.3.name ≡ J.names FOURTH) }
        requires parts { (blanks.0.parts ≡ J.run.lanes) × (blanks.1.parts ≡ J.run.lanes)
            × (blanks.2.parts ≡ J.run.lanes) × (blanks.3.parts ≡ J.run.lanes) }
        requires run { IsRun J.run beginning.now }
        ensures parts { IfOk result (λ r. (r.1.first.parts ≡ J.run.lanes) × (r.1.second.parts ≡ J.run.lanes)
            × (r.1.third.parts ≡ J.run.lanes) × (r.1.fourth.parts ≡ J.run.lanes)) }
        ensures amounts { IfOk result (λ r. (r.1.first.amount ≡ 0) × (r.1.second.amount ≡ 0)
            × (r.1.third.amount ≡ 0) × (r.1.fourth.amount ≡ 0)) }
        ensures greetings { OnOk result (greetings.new.items
            ≡ (((greetings.old.items ++ hellos_of J.run FIRST) ++ hellos_of J.run SECOND)
            ++ hellos_of J.run THIRD) ++ hellos_of J.run FOURTH) }
    {
        let (first, first_share) = open_shard::<J, FIRST>(beginning, blanks.0, greetings)?;
        let (second, second_share) = open_shard::<J, SECOND>(beginning, blanks.1, greetings)?;
        let (third, third_share) = open_shard::<J, THIRD>(beginning, blanks.2, greetings)?;
        let (fourth, fourth_share) = open_shard::<J, FOURTH>(beginning, blanks.3, greetings)?;
        let brokers = FourBrokers {
            first,
            second,
            third,
            fourth,
        };
        let shares = FourShares {
            first: first_share,
            second: second_share,
            third: third_share,
            fourth: fourth_share,
        };
        Ok((brokers, shares))
    }

    /// Compares each shard's history with the lanes' receipts. Returns the results and the spare
    /// shares.
    pub(crate) fn compare(
        self,
        lanes: &[ShardLane<J>],
    ) -> (
        FourEndings<J, FIRST, SECOND, THIRD, FOURTH>,
        FourShares<J, FIRST, SECOND, THIRD, FOURTH>,
    )
        requires { (FIRST < SHARD_LIMIT) × (SECOND < SHARD_LIMIT)
            × (THIRD < SHARD_LIMIT) × (FOURTH < SHARD_LIMIT) }
        ensures first { IsCompared (opening_of J.run FIRST) J.run.limit (receipts_in FIRST lanes.now)
            result.0.first.steps.items result.0.first.compared result.0.first.calls.total }
        ensures second { IsCompared (opening_of J.run SECOND) J.run.limit (receipts_in SECOND lanes.now)
            result.0.second.steps.items result.0.second.compared result.0.second.calls.total }
        ensures third { IsCompared (opening_of J.run THIRD) J.run.limit (receipts_in THIRD lanes.now)
            result.0.third.steps.items result.0.third.compared result.0.third.calls.total }
        ensures fourth { IsCompared (opening_of J.run FOURTH) J.run.limit (receipts_in FOURTH lanes.now)
            result.0.fourth.steps.items result.0.fourth.compared result.0.fourth.calls.total }
        ensures parts { (result.1.first.parts ≡ 0) × (result.1.second.parts ≡ 0)
            × (result.1.third.parts ≡ 0) × (result.1.fourth.parts ≡ 0) }
        ensures amounts { (result.1.first.amount ≡ 0) × (result.1.second.amount ≡ 0)
            × (result.1.third.amount ≡ 0) × (result.1.fourth.amount ≡ 0) }
    {
        let (first, first_spare) = self.first.compare(FIRST, lanes);
        let (second, second_spare) = self.second.compare(SECOND, lanes);
        let (third, third_spare) = self.third.compare(THIRD, lanes);
        let (fourth, fourth_spare) = self.fourth.compare(FOURTH, lanes);
        let endings = FourEndings {
            first,
            second,
            third,
            fourth,
        };
        let spares = FourShares {
            first: first_spare,
            second: second_spare,
            third: third_spare,
            fourth: fourth_spare,
        };
        (endings, spares)
    }
}

impl<
    J: Shards,
    const FIRST: u16,
    const SECOND: u16,
    const THIRD: u16,
    const FOURTH: u16,
> FourEndings<J, FIRST, SECOND, THIRD, FOURTH> {
    /// Collects the results of four consecutive shards, given all shares of their ledgers.
    pub(crate) fn end(
        self,
        shares: FourShares<J, FIRST, SECOND, THIRD, FOURTH>,
        gathering: &mut Gathering,
    )
        requires next { (SECOND ≡ FIRST + 1) × (THIRD ≡ FIRST + 2) × (FOURTH ≡ FIRST + 3) }
        requires room { IsRoomy FIRST gathering.old }
        requires shards { gathering.old.shards ≡ J.run.shards }
        ensures room { IsRoomy (FIRST + 4) gathering.new }
        ensures shards { gathering.new.shards ≡ gathering.old.shards }
        ensures gathered { (lanes : List (List (List Receipt))) → IsGathered J.run lanes gathering.old
            → IsEnding J.run lanes FIRST self.first.steps.items self.first.compared self.first.calls.total
            shares.first.parts shares.first.amount
            → IsEnding J.run lanes SECOND self.second.steps.items self.second.compared self.second.calls.total
            shares.second.parts shares.second.amount
            → IsEnding J.run lanes THIRD self.third.steps.items self.third.compared self.third.calls.total
            shares.third.parts shares.third.amount
            → IsEnding J.run lanes FOURTH self.fourth.steps.items self.fourth.compared self.fourth.calls.total
            shares.fourth.parts shares.fourth.amount
            → IsGathered J.run lanes gathering.new }
    {
        gathering.add::<J>(FIRST, self.first.end(shares.first));
        gathering.add::<J>(SECOND, self.second.end(shares.second));
        gathering.add::<J>(THIRD, self.third.end(shares.third));
        gathering.add::<J>(FOURTH, self.fourth.end(shares.fourth));
    }
}
