//! Frames as values: the messages between the tabs, the kernel and the broker, with the one encoding of
//! each.
#![tactic(auto)]

pub mod boxed;
mod copy;
pub mod encoding;
pub mod frame;
mod generation;
pub mod kinds;
pub mod laws;
pub mod origin;
pub mod sequence;
mod well_formed;

pub use boxed::Boxed;
pub use encoding::{encode, encode_into};
pub use frame::{
    Addressed, Answer, Command, Dead, Downward, Frame, Heard, Hello, Operation, Outcome,
    PairWelcome, Post, Report, ReportPart, Snapshot, SnapshotEntry, Stamped, Start, Upward,
    Welcome,
};
pub use origin::Origin;
pub use sequence::Sequence;
pub use wl_draft::{Entry, Memory, Mode, Name};
