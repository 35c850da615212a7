//! Frames read from a link, as they arrive.

ghost use Rattle.std.specs.Prelude.{◌≡◌, Ok, Err, None, OnOk, IfOk, IfErr, IfSome, false};
ghost use Rattle.wl_process.specs.Links.{fresh_link, told, IsOver, Stops, Brings, Ended, Fails};

use crate::fault::ProcessFault;
use std::alloc::Global;
use std::io::Read;
use std::marker::Model;
use wl_frames::device::{PIECE_LEN, Source};
use wl_frames::{Feed, Frame};

/// The reading end of a link.
#[derive(Drop)]
pub struct Incoming<R> {
    source: Source<R>,
    /// `None` after the end or a fault.
    feed: Option<Feed>,
    /// The reason why reading stopped.
    end: Result<(), ProcessFault>,
}

impl<R> Model for Incoming<R> {
    ghost use Rattle.wl_process.specs.Links.{Link, unread_in, IsSound};

    ghost Value = { Link R };

    ghost view = { λ i. record { source = i.source; unread = unread_in i.feed; end = i.end } };

    ghost invariant = { λ i. IsSound i.feed };
}

impl<R> Incoming<R> {
    /// Creates the reading end of a link that has not been read.
    pub fn new(alloc: Global, reader: R) -> Incoming<R>
        ensures { result ≡ fresh_link reader }
    {
        Incoming {
            source: Source::new(reader),
            feed: Some(Feed::new(alloc)),
            end: Ok(()),
        }
    }

    /// Returns the result of every call after reading stopped.
    fn told(&self) -> Result<Option<Vec<Frame>>, ProcessFault>
        ensures { result ≡ told self.now.end }
    {
        match self.end {
            Ok(()) => Ok(None),
            Err(fault) => Err(fault),
        }
    }

    /// Decodes a piece of input that follows the feed's rest, and returns its frames.
    fn push(&mut self, mut feed: Feed, piece: &[u8]) -> Vec<Frame>
        requires sound { feed.has_failed ≡ false }
        ensures stops { Stops feed.rest piece.now result.items self.new }
        ensures source { self.new.source ≡ self.old.source }
    {
        match feed.push(piece) {
            Ok(frames) => {
                self.feed = Some(feed);
                frames
            }
            Err(refused) => {
                self.feed = None;
                self.end = Err(ProcessFault::from(refused.fault));
                refused.before
            }
        }
    }
}

impl<R: Read> Incoming<R> {
    /// Reads once and returns the frames that became complete, possibly none. Returns `None` at end
    /// of input.
    ///
    /// A fault is returned after all frames before it have been returned. Once at the end or
    /// failed, every later call returns the same result.
    pub fn next(&mut self) -> Result<Option<Vec<Frame>>, ProcessFault>
        ensures frames { IfOk result (λ came. IfSome came (λ frames. IfSome self.old.unread (λ rest.
            Brings (R.remaining self.old.source.reader) (R.remaining self.new.source.reader)
            rest frames.items self.new))) }
        ensures end { result ≡ Ok None → IfSome self.old.unread (λ rest.
            Ended (R.remaining self.old.source.reader) (R.remaining self.new.source.reader) rest) }
        ensures fault { IfErr result (λ fault. IfSome self.old.unread (λ rest.
            Fails (R.remaining self.old.source.reader) (R.remaining self.new.source.reader)
            rest fault self.new)) }
        ensures closed { IfErr result (λ fault. IsOver self.new (Err fault)) }
        ensures ended { result ≡ Ok None → IsOver self.new (Ok tt) }
        ensures over { self.old.unread ≡ None → (result ≡ told self.old.end) × (self.new ≡ self.old) }
    {
        let Some(feed) = self.feed.take() else {
            return self.told();
        };
        let mut buffer = [0; PIECE_LEN];
        match self.source.read(&mut buffer) {
            Ok(0) => self.end = feed.end().map_err(|fault| ProcessFault::from(fault)),
            Ok(n) => return Ok(Some(self.push(feed, &buffer[..n]))),
            Err(fault) => self.end = Err(ProcessFault::from(fault)),
        }
        self.told()
    }
}
