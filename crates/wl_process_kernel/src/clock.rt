//! Elapsed times.

use std::rt::Clock;
use std::time::Instant;

/// Returns the milliseconds since `then`, or `u64::MAX` if either time is unknown.
pub(crate) fn milliseconds_since<R: Clock>(rt: &R, then: Option<Instant>) -> u64 {
    match (Instant::now(rt).ok(), then) {
        (Some(now), Some(then)) => {
            u64::try_from(now.duration_since(then).as_millis()).unwrap_or(u64::MAX)
        }
        _ => u64::MAX,
    }
}
