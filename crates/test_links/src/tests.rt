//! Modules: the board and outboxes, both ends of a tab's link, frames of a process, its rules, and the command line.

mod board;
mod command_line;
mod incoming;
mod notices;
mod outbox;
mod pauses;
mod sending;
mod shard_output;
mod tab_links;
mod values;

use std::fmt::Debug;
use std::process::Abort;

/// Asserts that two values are equal, and prints both if they differ.
fn same<T: Copy + PartialEq + Debug>(rt: &impl Abort, found: T, wanted: T) {
    assert_eq!(rt; found, wanted);
}
