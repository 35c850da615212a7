//! Tests of the broker and of the desk around it, through the public items of `wl_broker` and `wl_workers`.
#![tactic(auto)]

#[cfg(test)]
mod tests;
