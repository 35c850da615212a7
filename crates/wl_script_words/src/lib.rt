//! Words of script lines: spelling, parsing and printing of names, data and numbers, and the JSON text of
//! a snapshot.
#![tactic(auto)]

pub mod laws;
pub mod parse_fault;
pub mod printing;
pub mod reading;
pub mod snapshot_text;
pub mod words;

pub use parse_fault::ParseFault;
pub use snapshot_text::snapshot_json;
pub use words::{put_word, unescape};
