//! The locked brokers of all shards. Each shard has a ledger of its own, and so a type of its own.

ghost use Rattle.std.specs.Prelude.{◌≡◌, ◌≢◌, ◌<◌, ◌≤◌, ◌++◌, [], ℕ, List, length, replicate, slice_index_or, IfErr, IfOk, OnOk, OnErr};
ghost use Rattle.wl_locked.specs.declared.receipt.Step.{Step};
ghost use Rattle.wl_grammar.specs.Grammar.{TabsRiseFrom};
ghost use Rattle.wl_broker.specs.Shards.{is_of, listed_of};
ghost use Rattle.wl_locked.specs.Blanks.{HaveParts, AreNamed};
ghost use Rattle.wl_locked.specs.History.{IsAnswer};
ghost use Rattle.wl_locked.specs.Sharding.{IsGathered, IsRoomy, IsRun, IsShardFault, IsShardHistory, hellos_below, hellos_of, opening_of, receipts_of, with_receipt};
ghost use Rattle.wl_locked.specs.declared.shards.TheConstants.{SHARD_LIMIT};

use crate::event::Reply;
use crate::gathering::Gathering;
use crate::locked::LockedBroker;
use crate::receipt::{CloseFault, History, NotStepped, Receipt};
use crate::shard_groups::FourBrokers;
use crate::shard_lane::{ShardLane, Shares, gather_all};
use crate::shards::{At, Blanks, Shards};
use crate::work::{Work, shard_of};
use std::alloc::{AllocError, Global};
use std::sync::Wait;
use std::sync::ledger::{Blank, Share};
use wl_broker::{Dropped, Outs};
use wl_grammar::Addressed;

/// One locked broker for each of `SHARD_LIMIT` shards, in groups of four. Brokers of shards that
/// the run does not use stay idle.
#[derive(Drop)]
pub(crate) struct Brokers<J: Shards> {
    first: FourBrokers<J, 0, 1, 2, 3>,
    second: FourBrokers<J, 4, 5, 6, 7>,
    third: FourBrokers<J, 8, 9, 10, 11>,
    fourth: FourBrokers<J, 12, 13, 14, 15>,
}

/// The parameters that the brokers of all shards are started with.
#[derive(Clone, Copy)]
pub(crate) struct OpenParameters<'a> {
    pub(crate) alloc: Global,
    pub(crate) generation: u32,
    pub(crate) list: &'a [(u16, u16)],
    pub(crate) shards: u16,
    pub(crate) limit: u32,
    pub(crate) lanes: u16,
}

/// Returns the listed tabs whose partition belongs to a shard.
fn listed_in(beginning: &OpenParameters<'_>, shard: u16) -> Result<Vec<(u16, u16)>, AllocError>
    requires shards { 0 < beginning.now.shards }
    requires list { TabsRiseFrom 1 beginning.now.list.now }
    ensures listed { IfOk result (λ part.
        part.items ≡ listed_of (is_of beginning.now.shards shard) beginning.now.list.now) }
    ensures rises { IfOk result (λ part. TabsRiseFrom 1 part.items) }
{
    let mut part = Vec::new(beginning.alloc);
    for listed in beginning.list {
        if shard_of(beginning.shards, listed.1) == shard {
            part.push(*listed)?;
        }
    }
    Ok(part)
}

/// Appends hellos to the greetings.
fn append_hellos(
    alloc: Global,
    greetings: &mut Vec<Addressed>,
    hellos: Outs,
) -> Result<(), AllocError>
    ensures { OnOk result (greetings.new.items ≡ greetings.old.items ++ hellos) }
{
    let mut list = hellos.into_list(alloc)?;
    greetings.append(&mut list)
}

/// Starts the broker of one shard with its part of the start list, and appends its hellos to the
/// greetings.
pub(crate) fn open_shard<J: Shards, const SHARD: u16>(
    beginning: &OpenParameters<'_>,
    blank: Blank,
    greetings: &mut Vec<Addressed>,
) -> Result<(LockedBroker<At<J, SHARD>>, Share<At<J, SHARD>>), AllocError>
    requires shards { 0 < beginning.now.shards }
    requires list { TabsRiseFrom 1 beginning.now.list.now }
    requires name { blank.name ≡ J.names SHARD }
    requires parts { blank.parts ≡ J.run.lanes }
    requires run { IsRun J.run beginning.now }
    ensures parts { IfOk result (λ r. r.1.parts ≡ J.run.lanes) }
    ensures amount { IfOk result (λ r. r.1.amount ≡ 0) }
    ensures greetings { OnOk result (greetings.new.items
        ≡ greetings.old.items ++ hellos_of J.run SHARD) }
{
    let part = listed_in(beginning, SHARD)?;
    let (broker, share, hellos) = LockedBroker::open(
        beginning.alloc,
        blank,
        beginning.generation,
        part.as_slice(),
        beginning.limit,
        beginning.lanes,
    )?;
    append_hellos(beginning.alloc, greetings, hellos)?;
    Ok((broker, share))
}

impl<J: Shards> Brokers<J> {
    /// Starts the brokers. Returns them with the shares that lanes are cut from, and the hellos in
    /// ascending order of shards.
    pub(crate) fn open(
        beginning: &OpenParameters<'_>,
        blanks: Blanks,
    ) -> Result<(Brokers<J>, Shares<J>, Vec<Addressed>), AllocError>
        requires shards { 0 < beginning.now.shards }
        requires list { TabsRiseFrom 1 beginning.now.list.now }
        requires names { AreNamed J.names blanks }
        requires parts { HaveParts J.run.lanes blanks }
        requires run { IsRun J.run beginning.now }
        ensures parts { IfOk result (λ r. r.1.0 ≡ J.run.lanes) }
        ensures amounts { IfOk result (λ r. r.1.1 ≡ replicate SHARD_LIMIT 0) }
        ensures hellos { IfOk result (λ r. r.2.items ≡ hellos_below J.run SHARD_LIMIT) }
    {
        let mut greetings = Vec::new(beginning.alloc);
        let (first, first_shares) = FourBrokers::<J, 0, 1, 2, 3>::open(
            beginning,
            (blanks.zero, blanks.one, blanks.two, blanks.three),
            &mut greetings,
        )?;
        let (second, second_shares) = FourBrokers::<J, 4, 5, 6, 7>::open(
            beginning,
            (blanks.four, blanks.five, blanks.six, blanks.seven),
            &mut greetings,
        )?;
        let (third, third_shares) = FourBrokers::<J, 8, 9, 10, 11>::open(
            beginning,
            (blanks.eight, blanks.nine, blanks.ten, blanks.eleven),
            &mut greetings,
        )?;
        let (fourth, fourth_shares) = FourBrokers::<J, 12, 13, 14, 15>::open(
            beginning,
            (
                blanks.twelve,
                blanks.thirteen,
                blanks.fourteen,
                blanks.fifteen,
            ),
            &mut greetings,
        )?;
        let brokers = Brokers {
            first,
            second,
            third,
            fourth,
        };
        let shares = Shares {
            first: first_shares,
            second: second_shares,
            third: third_shares,
            fourth: fourth_shares,
        };
        Ok((brokers, shares, greetings))
    }

    /// Passes a work to the broker of its shard.
    pub(crate) fn take<R: Wait>(
        &self,
        rt: &R,
        lane: &mut ShardLane<J>,
        work: Work,
    ) -> Result<Receipt, NotStepped>
        requires { work.shard < SHARD_LIMIT }
        ensures event { IfOk result (λ r. r.event ≡ work.event) }
        ensures reply { IfOk result (λ r. IsAnswer (opening_of J.run work.shard) r.place work.event r.reply) }
        ensures cause { IfOk result (λ r. r.reply ≢ Reply.Dropped Dropped.Memory) }
        ensures place { IfOk result (λ r. length (receipts_of work.shard lane.old) ≤ r.place) }
        ensures limit { IfOk result (λ r. r.place < J.run.limit) }
        ensures kept { IfOk result (λ r. lane.new ≡ with_receipt work.shard r lane.old) }
        ensures wide { length lane.old ≡ SHARD_LIMIT }
        ensures err { OnErr result (lane.new ≡ lane.old) }
    {
        let Work { shard, event } = work;
        match shard {
            0 => self.first.first.take(rt, &mut lane.first.first, event),
            1 => self.first.second.take(rt, &mut lane.first.second, event),
            2 => self.first.third.take(rt, &mut lane.first.third, event),
            3 => self.first.fourth.take(rt, &mut lane.first.fourth, event),
            4 => self.second.first.take(rt, &mut lane.second.first, event),
            5 => self.second.second.take(rt, &mut lane.second.second, event),
            6 => self.second.third.take(rt, &mut lane.second.third, event),
            7 => self.second.fourth.take(rt, &mut lane.second.fourth, event),
            8 => self.third.first.take(rt, &mut lane.third.first, event),
            9 => self.third.second.take(rt, &mut lane.third.second, event),
            10 => self.third.third.take(rt, &mut lane.third.third, event),
            11 => self.third.fourth.take(rt, &mut lane.third.fourth, event),
            12 => self.fourth.first.take(rt, &mut lane.fourth.first, event),
            13 => self.fourth.second.take(rt, &mut lane.fourth.second, event),
            14 => self.fourth.third.take(rt, &mut lane.fourth.third, event),
            _ => self.fourth.fourth.take(rt, &mut lane.fourth.fourth, event),
        }
    }

    /// Closes every shard with the lanes' receipts. Returns the history of each shard, or the fault
    /// of the lowest shard that has one. Allocates nothing.
    pub(crate) fn close(
        self,
        lanes: Vec<ShardLane<J>>,
        gathering: Gathering,
    ) -> Result<Vec<History>, (u16, CloseFault)>
        requires room { IsRoomy 0 gathering }
        requires shards { (gathering.shards ≡ J.run.shards) × (gathering.shards ≤ SHARD_LIMIT) }
        requires first { (gathering.fault ≡ None) × (gathering.histories.items ≡ []) }
        ensures count { IfOk result (λ histories. length histories.items ≡ J.run.shards) }
        ensures made { IfOk result (λ histories. (shard : ℕ) → shard < length histories.items
            → IsShardHistory J.run lanes.items shard (slice_index_or histories.items shard [])) }
        ensures shard { IfErr result (λ e. e.0 < J.run.shards) }
        ensures fault { IfErr result (λ e. IsShardFault J.run lanes.items e.0 e.1) }
        ensures least { IfErr result (λ e. (shard : ℕ) → shard < e.0
            → (history : List Step) × IsShardHistory J.run lanes.items shard history) }
    {
        let gathered = self.gather(lanes, gathering);
        gathered.end()
    }

    /// Compares each shard's history with the lanes' receipts and collects the results.
    fn gather(self, lanes: Vec<ShardLane<J>>, gathering: Gathering) -> Gathering
        requires room { IsRoomy 0 gathering }
        requires shards { gathering.shards ≡ J.run.shards }
        requires first { IsGathered J.run lanes.items gathering }
        ensures room { IsRoomy SHARD_LIMIT result }
        ensures shards { result.shards ≡ gathering.shards }
        ensures gathered { IsGathered J.run lanes.items result }
    {
        let all = lanes.as_slice();
        let (first, first_spares) = self.first.compare(all);
        let (second, second_spares) = self.second.compare(all);
        let (third, third_spares) = self.third.compare(all);
        let (fourth, fourth_spares) = self.fourth.compare(all);
        let spares = Shares {
            first: first_spares,
            second: second_spares,
            third: third_spares,
            fourth: fourth_spares,
        };
        let shares = gather_all(spares, lanes);
        let mut gathering = gathering;
        first.end(shares.first, &mut gathering);
        second.end(shares.second, &mut gathering);
        third.end(shares.third, &mut gathering);
        fourth.end(shares.fourth, &mut gathering);
        gathering
    }
}
