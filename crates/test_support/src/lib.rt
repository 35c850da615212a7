//! Helpers of several test crates: devices that fail, numbers that look random, compared texts, and values made again when
//! memory is refused. No function of this crate ends the process.
#![tactic(auto)]

pub mod devices;
pub mod dice;
pub mod retry;
pub mod text;
