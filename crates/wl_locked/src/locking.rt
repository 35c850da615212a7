//! Acquisition of a lock that another lane may hold.

use std::hint::spin_loop;
use std::sync::{Mutex, MutexGuard, Wait};

/// The number of attempts at the lock before a lane sleeps.
const LOOKS: u32 = 12;

/// Locks a mutex, with exponential backoff between attempts.
///
/// The backoff lets the lane that holds the lock make several steps in a row, before another
/// processor needs the memory they wrote. It also makes it rare that a sleeping lane must be woken.
pub(crate) fn lock<'a, T, R: Wait>(mutex: &'a Mutex<T>, rt: &R) -> MutexGuard<'a, T> {
    for look in 0..LOOKS {
        if let Some(guard) = mutex.try_lock() {
            return guard;
        }
        for _ in 0..1u32 << look {
            spin_loop();
        }
    }
    mutex.lock(rt)
}
