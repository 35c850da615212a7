//! Tests of a tab's agent, locks and channels, through the public items of `wl_agent`, `wl_tab` and `wl_broadcast`.
#![tactic(auto)]

#[cfg(test)]
mod tests;
