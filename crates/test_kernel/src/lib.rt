//! Tests of partitions and of the kernel's table of tabs, through the public items of `wl_origin` and `wl_kernel`.
#![tactic(auto)]

#[cfg(test)]
mod tests;
