//! The broker's reply to an event, in as many copies as are needed: one for the history, one for
//! the receipt returned to the caller and one for the lane's own receipt.

ghost use Rattle.std.specs.Prelude.{◌≡◌, ◌≢◌, ◌+◌, ℕ, Err, OnOk, OnErr, IfOk};
ghost use Rattle.wl_locked.specs.Stepping.{stepped};
ghost use Rattle.wl_locked.specs.Replying.{HasNext, AreReplies};
ghost use Rattle.wl_locked.specs.declared.event.Reply.{Reply};

use crate::event::{BookEvent, Reply};
use crate::receipt::NotStepped;
use crate::shared_event::SharedEvent;
use wl_broker::{Broker, Dropped, Outs};
use wl_table::IndexedTable;

/// The number of copies of a step's reply.
pub(crate) const COPIES: usize = 3;

/// Copies of one reply. `next` builds each `Reply` only when it is stored, because moving the list
/// is cheaper than moving replies.
#[derive(Drop)]
pub(crate) enum Replies {
    /// The broker acted on the event. Each element holds the frames to send.
    Sent(Vec<Outs>),
    /// The broker dropped the message for this reason.
    Refused(Dropped),
}

impl Replies {
    /// Returns the next copy.
    pub(crate) fn next(&mut self) -> Reply
        requires { HasNext self.old }
        ensures { (n : ℕ) → (reply : Reply) → AreReplies (n + 1) reply self.old
            → (result ≡ reply) × AreReplies n reply self.new }
    {
        match self {
            Replies::Sent(all) => Reply::Outs(all.pop().unwrap()),
            Replies::Refused(reason) => Reply::Dropped(*reason),
        }
    }

    /// Returns the last copy.
    pub(crate) fn last(mut self) -> Reply
        requires { HasNext self }
        ensures { (n : ℕ) → (reply : Reply) → AreReplies (n + 1) reply self → result ≡ reply }
    {
        self.next()
    }
}

/// Steps the broker and returns copies of its reply. Leaves the broker unchanged on failure.
pub(crate) fn answer(
    broker: &mut Broker<IndexedTable>,
    event: &SharedEvent,
) -> Result<Replies, NotStepped>
    ensures replies { IfOk result (λ r. AreReplies COPIES (stepped broker.old event.now).1 r) }
    ensures cause { OnOk result ((stepped broker.old event.now).1 ≢ Reply.Dropped Dropped.Memory) }
    ensures broker { OnOk result (broker.new ≡ (stepped broker.old event.now).0) }
    ensures err { OnErr result (broker.new ≡ broker.old) }
    ensures unspent { result ≢ Err NotStepped.GenerationSpent }
{
    match event.get() {
        BookEvent::Take(stamped) => match broker.take_copies(stamped, COPIES) {
            Ok(all) => Ok(Replies::Sent(all)),
            Err(Dropped::Memory) => Err(NotStepped::Memory),
            Err(reason) => Ok(Replies::Refused(reason)),
        },
        BookEvent::Dead(tab) => Ok(Replies::Sent(broker.dead_copies(*tab, COPIES)?)),
    }
}
