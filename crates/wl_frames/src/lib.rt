//! Decoder of frames, and the readers and writers for their bytes.
#![tactic(auto)]

pub mod device;
pub mod fault;
pub mod feed;
pub mod laws;
pub mod reading;

pub use fault::{FrameFault, PushFault};
pub use feed::{Decoded, Feed};
pub use wl_grammar::{
    Addressed, Answer, Boxed, Command, Dead, Downward, Entry, Frame, Heard, Hello, Memory, Mode,
    Name, Operation, Origin, Outcome, PairWelcome, Post, Report, ReportPart, Sequence, Snapshot,
    SnapshotEntry, Stamped, Start, Upward, Welcome, encode, encode_into,
};
