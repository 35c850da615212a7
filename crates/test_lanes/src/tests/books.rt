//! Rows of steps of a book that no lock guards. A step that is refused memory leaves the book unchanged, is made again, and must then
//! give its receipts.

ghost use Rattle.std.specs.Prelude.{◌≡◌, ◌<◌, []};
ghost use Rattle.wl_broker.specs.Broker.{started};

use super::steps::{Row, copy, is_of, steps_in};
use crate::tests::same;
use std::alloc::{AllocError, Global};
use std::marker::Brand;
use std::process::Abort;
use std::sync::ledger::{Blank, Share};
use test_support::retry::BACK;
use wl_broker::Broker;
use wl_locked::{Book, BookEvent, EventHandles, Generation, NotStepped, Receipt, Step};

/// A book with the share that counts all of its steps.
#[derive(Drop)]
struct OwnBook<J: Generation> {
    book: Book<J>,
    share: Share<J>,
    ghost counts: { 0 < share.parts },
}

impl<J: Generation> OwnBook<J> {
    fn step_once(
        &mut self,
        alloc: Global,
        event: BookEvent,
    ) -> Result<(Receipt, Receipt), NotStepped> {
        let handles = EventHandles::new(alloc, event)?;
        self.book.step(&mut self.share, handles)
    }

    /// Makes a step, again if memory is refused. The receipt of the step shows that the refused one is not stored.
    fn step(
        &mut self,
        rt: &impl Abort,
        alloc: Global,
        event: &BookEvent,
    ) -> Result<(Receipt, Receipt), NotStepped> {
        let is_spent = self.book.is_spent();
        match self.step_once(alloc, copy(rt, event)) {
            Err(NotStepped::Memory) => {
                same(rt, self.book.is_spent(), is_spent);
                self.step_once(alloc, copy(rt, event))
            }
            answer => answer,
        }
    }

    /// Makes the step at a place of a row. Both receipts have to be those of the row.
    fn step_at(&mut self, rt: &impl Abort, alloc: Global, row: &[Step], place: usize) {
        let wanted = row.get(place).expect(rt, "a step of the row");
        let (one, other) = self
            .step(rt, alloc, wanted.event.get())
            .expect(rt, "a step");
        for receipt in [&one, &other] {
            let is_there = receipt.place as usize == place;
            assert!(rt; is_there && is_of(receipt, row), "at {place}");
        }
    }
}

/// Plays a row on a book whose limit is the row's length. One more step finds the generation spent.
fn play_named<J: Generation>(
    rt: &impl Abort,
    alloc: Global,
    blank: Blank,
    limit: u32,
    row: &[Step],
) -> Result<(), AllocError>
    requires name { blank.name ≡ J.name }
    requires parts { (blank.parts ≡ J.parts) × (J.parts ≡ 1) }
    requires opening { J.opening ≡ started 1 [] }
    requires limit { J.limit ≡ limit }
{
    let (calls, mut share) = blank.open::<J>();
    let (broker, hellos) = Broker::start(alloc, 1, &[])?;
    drop(hellos);
    let book = Book::open(alloc, broker, limit, calls, share.empty());
    let mut own = OwnBook { book, share };
    for place in 0..row.len() {
        assert!(rt; !own.book.is_spent(), "before {place}");
        own.step_at(rt, alloc, row, place);
    }
    assert!(rt; own.book.is_spent());
    let spent = own.step(rt, alloc, &BookEvent::Dead(1)).err();
    same(rt, spent, Some(NotStepped::GenerationSpent));
    Ok(())
}

fn play(rt: &impl Abort, alloc: Global, limit: u32, row: &[Step]) -> Result<(), AllocError> {
    play_named::<Brand>(rt, alloc, Blank::new(1), limit, row)
}

/// Plays a row of `count` steps.
fn plays(rt: &impl Abort, alloc: Global, row: Row, count: u32) {
    let steps = steps_in(rt, alloc, row);
    same(rt, steps.len(), count as usize);
    if play(rt, alloc, count, steps.as_slice()).is_err() {
        play(rt, alloc, count, steps.as_slice()).expect(rt, BACK);
    }
}

#[test]
fn four_steps_of_a_book(rt: HostRuntime) {
    plays(&rt, rt.alloc(), Row::Four, 4);
}

#[test]
fn a_book_hands_over(rt: HostRuntime) {
    plays(&rt, rt.alloc(), Row::HandingOver, 202);
}
