//! Tests of the world, the whole machine without processes, through the public items of `wl_world`.
#![tactic(auto)]

#[cfg(test)]
mod tests;
