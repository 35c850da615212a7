//! The command line of `wlb`: the meaning of its arguments, in the grammar of clap's simple
//! commands.
#![tactic(auto)]

pub mod command;
pub mod words;

pub use command::{Line, LineFault};
pub use words::line;
