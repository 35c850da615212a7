//! The putting end of a tab's outbox.

ghost use Rattle.std.specs.Prelude.{◌≡◌, ◌≢◌, true, false};
ghost use Rattle.std.specs.Arc.{arc_value};
ghost use Rattle.wl_process_rules.specs.OwedHello.{greeting, noted};
ghost use Rattle.wl_outbox.specs.Passes.{IsOf, takes};

use std::alloc::{AllocError, Global};
use std::sync::{Arc, Mutex, Wait};
use std::thread::Parker;
use wl_frames::Frame;
use wl_outbox::{Outbox, Parcel, Pass};
use wl_process_rules::{OwedHello, greeting_of};

/// The outbox's only putting pass, and the Hello owed to the tab.
#[derive(Drop)]
struct OutboxProducer {
    outbox: Arc<Outbox>,
    pass: Pass,
    owed: OwedHello,
    ghost of_outbox: { IsOf pass (arc_value outbox) },
    ghost puts: { takes pass ≡ false },
}

impl OutboxProducer {
    /// Puts the owed Hello, if any, and then a frame from this partition.
    fn put<R: Wait>(&mut self, rt: &R, partition: u16, frame: Frame) {
        self.put_owed(rt);
        self.put_one(rt, partition, frame);
    }

    /// Puts the owed Hello, if any. Returns true if one was put.
    fn put_owed<R: Wait>(&mut self, rt: &R) -> bool {
        match self.owed.due() {
            Some(hello) => {
                let partition = self.outbox.partition();
                self.put_one(rt, partition, hello)
            }
            None => false,
        }
    }

    /// Puts a frame from this partition. Returns true if it was put. A Hello that does not fit
    /// becomes owed.
    fn put_one<R: Wait>(&mut self, rt: &R, partition: u16, frame: Frame) -> bool
        ensures own { partition ≡ (arc_value self.old.outbox).partition
            → self.new.owed ≡ noted (greeting frame) result self.old.owed }
        ensures other { partition ≢ (arc_value self.old.outbox).partition
            → self.new.owed ≡ self.old.owed }
    {
        let greeting = greeting_of(&frame);
        let outbox = &*self.outbox;
        match Parcel::new(partition, outbox.partition(), outbox.tab(), frame) {
            Ok(parcel) => {
                let put = outbox.put(rt, &mut self.pass, parcel);
                let is_put = put.is_ok();
                drop(put);
                self.owed.note(greeting, is_put);
                is_put
            }
            Err(refused) => {
                drop(refused);
                false
            }
        }
    }
}

/// A tab's outbox, with the bell of the thread that empties it.
#[derive(Drop)]
pub(crate) struct TabOutbox {
    producer: Mutex<OutboxProducer>,
    pub(crate) bell: Arc<Parker>,
}

/// Consumer half of an outbox.
#[derive(Drop)]
pub(crate) struct OutboxConsumer {
    pub(crate) outbox: Arc<Outbox>,
    pub(crate) pass: Pass,
    ghost of_outbox: { IsOf pass (arc_value outbox) },
    ghost takes: { takes pass ≡ true },
}

impl TabOutbox {
    /// Creates an empty outbox for a tab in this partition.
    pub(crate) fn new(
        alloc: Global,
        partition: u16,
        tab: u16,
    ) -> Result<(TabOutbox, OutboxConsumer), AllocError> {
        let Ok((outbox, taker, mut putters)) = Outbox::new(alloc, partition, tab, 1) else {
            return Err(AllocError);
        };
        let Some(putter) = putters.pop() else {
            return Err(AllocError);
        };
        let outbox = Arc::new(alloc, outbox)?;
        let producer = OutboxProducer {
            outbox: Arc::try_clone(&outbox)?,
            pass: putter,
            owed: OwedHello::new(),
        };
        let tab_outbox = TabOutbox {
            producer: Mutex::new(producer),
            bell: Arc::new(alloc, Parker::new())?,
        };
        let consumer = OutboxConsumer {
            outbox,
            pass: taker,
        };
        Ok((tab_outbox, consumer))
    }

    /// Puts a frame from this partition and rings the bell.
    ///
    /// A frame from a partition other than the tab's is lost. A frame that finds the outbox full is
    /// lost too, unless it is a Hello, which is put later when there is room.
    pub(crate) fn put<R: Wait>(&self, rt: &R, partition: u16, frame: Frame) {
        let mut producer = self.producer.lock(rt);
        producer.put(rt, partition, frame);
        drop(producer);
        self.bell.unpark();
    }

    /// Puts the owed Hello, if any. Rings the bell if one was put.
    pub(crate) fn put_owed<R: Wait>(&self, rt: &R) {
        let is_put = self.producer.lock(rt).put_owed(rt);
        if is_put {
            self.bell.unpark();
        }
    }
}
