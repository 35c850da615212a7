//! Tests of the draft's lock manager and of both lock tables, through the public items of `wl_draft` and `wl_table`.
#![tactic(auto)]

#[cfg(test)]
mod tests;
