//! Tests of the broker behind its locks, through the public items of `wl_locked`, `wl_workers` and `wl_process_broker`.
#![tactic(auto)]

#[cfg(test)]
mod tests;
