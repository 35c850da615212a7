//! Modules: steps of a book, steps of one lane, lanes on threads over shards, ends of a lane, the lanes of the broker's process,
//! the order of their frames, and the statuses of faults.

mod books;
mod events;
mod lane_ends;
mod lanes;
mod place_order;
mod process_lanes;
mod runs;
mod shards;
mod statuses;
mod steps;
mod turnstile;

use std::fmt::Debug;
use std::process::Abort;

/// Asserts that two values are equal, and prints both if they differ.
fn same<T: Copy + PartialEq + Debug>(rt: &impl Abort, found: T, wanted: T) {
    assert_eq!(rt; found, wanted);
}
