//! Tests of the links of tabs, of the state that threads share, and of the rules and the command line of processes.
#![tactic(auto)]

#[cfg(test)]
mod tests;
