//! Posts in the inboxes of channel objects, and results of posting and receiving.

ghost use Rattle.std.specs.Prelude.{◌≡◌, IfOk};

use bytes::Bytes;
use std::alloc::AllocError;
use wl_grammar::{Frame, Sequence};

/// A post in the inbox of a channel object.
#[derive(Clone, Debug, Drop)]
pub struct Letter {
    /// The tab that sent the post.
    pub source: u16,
    /// The post's number, counted over that tab's life.
    pub number: u32,
    pub bytes: Bytes,
}

impl Letter {
    /// Returns an equal letter that shares the data. Fails if out of memory.
    pub(crate) fn copy(&self) -> Result<Letter, AllocError>
        ensures { IfOk result (λ copy. copy ≡ self.now) }
    {
        self.clone()
    }
}

/// Numbers of channel objects, oldest first.
pub type Numbers = Sequence<usize>;

/// Result of posting.
#[derive(Drop)]
pub struct Posted {
    /// The frame for the other tabs.
    pub frame: Frame,
    /// The tab's own channels that took the post.
    pub took: Numbers,
    /// The tab's own channels whose inbox was full.
    pub full: Numbers,
}

/// Result of receiving another tab's post.
#[derive(Debug, Drop)]
pub enum Hearing {
    /// This post or a later one of its source was received before. Nothing changes.
    Old,
    /// The tab's channels that took the post, and those whose inbox was full.
    New { took: Numbers, full: Numbers },
}
