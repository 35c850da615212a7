//! A broker behind a lock.

ghost use Rattle.std.specs.Prelude.{◌≡◌, ◌≢◌, ◌<◌, ◌≤◌, ◌∷◌, ◌++◌, [], ℕ, List, length, map, replicate, IfOk, OnErr};
ghost use Rattle.wl_grammar.specs.Grammar.{TabsRiseFrom};
ghost use Rattle.wl_broker.specs.Broker.{started, hellos};
ghost use Rattle.wl_locked.specs.declared.receipt.Step.{Step};
ghost use Rattle.wl_locked.specs.History.{IsReplay, IsAnswer};
ghost use Rattle.wl_locked.specs.Receipts.{total, IsMadeOf, IsMismatch};
ghost use Rattle.wl_locked.specs.Closing.{IsCompared};
ghost use Rattle.wl_locked.specs.declared.shards.TheConstants.{SHARD_LIMIT};

use crate::book::{Book, ComparedBook, handles_with_room};
use crate::event::{BookEvent, Reply};
use crate::lane::{Generation, Lane, ShardReceipts};
use crate::locking::lock;
use crate::receipt::{CloseFault, History, NotStepped, Receipt};
use crate::reservation::receipts_at_once;
use std::alloc::{AllocError, Global};
use std::sync::ledger::{Blank, Share};
use std::sync::{Mutex, Wait};
use wl_broker::{Broker, Dropped, Outs};

/// The largest number of lanes of a broker.
pub const LANE_LIMIT: u16 = 16;

/// The largest number of steps per generation and shard that the command line accepts.
pub const STEP_LIMIT: u32 = 65_536;

/// A broker of one generation behind a lock, shared by lanes on several threads.
#[derive(Drop)]
pub struct LockedBroker<J: Generation> {
    book: Mutex<Book<J>>,
    /// The number of receipts that a lane reserves space for at once.
    reserve_step: usize,
    alloc: Global,
}

/// Cuts the lanes from the share of the whole ledger.
fn cut_lanes<J: Generation>(
    alloc: Global,
    rest: Share<J>,
    lanes: u16,
) -> Result<Vec<Lane<J>>, AllocError>
    requires { (rest.parts ≡ lanes) × (rest.amount ≡ 0) }
    ensures { IfOk result (λ made. made.items ≡ replicate lanes []) }
{
    let mut rest = rest;
    let mut made = Vec::with_capacity(alloc, lanes as usize)?;
    for _i in 0..lanes {
        made.push(Lane::new(alloc, rest.split_off(1, 0)))?;
    }
    Ok(made)
}

impl<J: Generation> LockedBroker<J> {
    /// Starts a generation of at most `limit` steps. Returns the broker, its lanes, and a hello for
    /// each listed tab.
    pub fn new(
        alloc: Global,
        blank: Blank,
        generation: u32,
        list: &[(u16, u16)],
        limit: u32,
        lanes: u16,
    ) -> Result<(LockedBroker<J>, Vec<Lane<J>>, Outs), AllocError>
        requires list { TabsRiseFrom 1 list.now }
        requires name { blank.name ≡ J.name }
        requires parts { blank.parts ≡ J.parts }
        requires lanes { (J.parts ≡ lanes) × (0 < lanes) × (lanes ≤ LANE_LIMIT) }
        requires opening { J.opening ≡ started generation list.now }
        requires limit { J.limit ≡ limit }
        ensures lanes { IfOk result (λ r. r.1.items ≡ replicate lanes []) }
        ensures hellos { IfOk result (λ r. r.2 ≡ hellos generation list.now) }
    {
        let (locked, rest, hellos) = LockedBroker::open(
            alloc, blank, generation, list, limit, lanes,
        )?;
        let made = match cut_lanes(alloc, rest, lanes) {
            Ok(made) => made,
            Err(refused) => {
                drop((locked, hellos));
                return Err(refused);
            }
        };
        Ok((locked, made, hellos))
    }

    /// Starts a generation without its lanes. Returns the broker, the share that the lanes are cut
    /// from, and the hellos.
    pub(crate) fn open(
        alloc: Global,
        blank: Blank,
        generation: u32,
        list: &[(u16, u16)],
        limit: u32,
        lanes: u16,
    ) -> Result<(LockedBroker<J>, Share<J>, Outs), AllocError>
        requires list { TabsRiseFrom 1 list.now }
        requires name { blank.name ≡ J.name }
        requires parts { blank.parts ≡ J.parts }
        requires opening { J.opening ≡ started generation list.now }
        requires limit { J.limit ≡ limit }
        ensures parts { IfOk result (λ r. r.1.parts ≡ J.parts) }
        ensures amount { IfOk result (λ r. r.1.amount ≡ 0) }
        ensures hellos { IfOk result (λ r. r.2 ≡ hellos generation list.now) }
    {
        let (calls, mut share) = blank.open::<J>();
        let (broker, hellos) = Broker::start(alloc, generation, list)?;
        let book = Book::open(alloc, broker, limit, calls, share.empty());
        let locked = LockedBroker {
            book: Mutex::new(book),
            reserve_step: receipts_at_once(limit, lanes),
            alloc,
        };
        Ok((locked, share, hellos))
    }

    /// Steps the broker once and returns the receipt of the step. The lane keeps a copy of the
    /// receipt.
    ///
    /// The event is allocated and the lane's list is grown before the lock is taken. Fails with
    /// `GenerationSpent` at the step limit, and with `Memory` if out of memory.
    pub fn take<R: Wait>(
        &self,
        rt: &R,
        lane: &mut Lane<J>,
        event: BookEvent,
    ) -> Result<Receipt, NotStepped>
        ensures event { IfOk result (λ r. r.event ≡ event) }
        ensures reply { IfOk result (λ r. IsAnswer J.opening r.place event r.reply) }
        ensures cause { IfOk result (λ r. r.reply ≢ Reply.Dropped Dropped.Memory) }
        ensures place { IfOk result (λ r. length lane.old ≤ r.place) }
        ensures limit { IfOk result (λ r. r.place < J.limit) }
        ensures kept { IfOk result (λ r. lane.new ≡ lane.old ++ r ∷ []) }
        ensures err { OnErr result (lane.new ≡ lane.old) }
    {
        let Ok(event) = handles_with_room(self.alloc, &mut lane.receipts, self.reserve_step, event)
        else {
            return Err(lock(&self.book, rt).without_memory());
        };
        let (answered, kept) = lock(&self.book, rt).step(&mut lane.share, event)?;
        lane.receipts.push_reserved(kept);
        Ok(answered)
    }

    /// Closes the broker and returns its history if it matches the lanes' receipts. Allocates
    /// nothing.
    ///
    /// Fails with `Mismatch` if a receipt does not fit the history, and with `WrongCount` if there
    /// are fewer receipts than steps.
    pub fn close(self, lanes: Vec<Lane<J>>) -> Result<History, CloseFault>
        ensures replays { IfOk result (λ h. IsReplay J.opening h) }
        ensures within { IfOk result (λ h. length h ≤ J.limit) }
        ensures made { IfOk result (λ h. IsMadeOf h lanes.items) }
        ensures mismatch { (p : ℕ) → result ≡ Err (CloseFault.Mismatch p)
            → (h : List Step) × IsReplay J.opening h × (length h ≤ J.limit)
            × (length lanes.items ≡ J.parts → length h ≡ total lanes.items) × IsMismatch h lanes.items p }
        ensures count { result ≡ Err CloseFault.WrongCount → length lanes.items ≢ J.parts }
    {
        self.book.into_inner().close(lanes)
    }

    /// Compares the history with the lanes' receipts of one shard. Returns the result and the spare
    /// share.
    pub(crate) fn compare<L: ShardReceipts>(
        self,
        shard: u16,
        lanes: &[L],
    ) -> (ComparedBook<J>, Share<J>)
        requires { shard < SHARD_LIMIT }
        ensures compared { IsCompared J.opening J.limit
            (map (L.kept shard) lanes.now) result.0.steps.items result.0.compared result.0.calls.total }
        ensures spare { (result.1.parts ≡ 0) × (result.1.amount ≡ 0) }
    {
        self.book.into_inner().compare(shard, lanes)
    }
}
