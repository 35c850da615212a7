//! Modules: rows of frames, the desk that plays them, the broker behind it, devices, and large conversations.

mod broker;
mod desk;
mod devices;
mod large;
mod rows;

use std::fmt::Debug;
use std::process::Abort;

/// Asserts that two values are equal, and prints both if they differ.
fn same<T: Copy + PartialEq + Debug>(rt: &impl Abort, found: T, wanted: T) {
    assert_eq!(rt; found, wanted);
}
