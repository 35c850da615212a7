//! Index of a partition's held locks and waiting requests, by name and by client.
//!
//! Entries keep their order by rising order numbers. `granting.rt` decides which requests are granted.
#![tactic(auto)]

pub mod clients;
pub mod grant_candidates;
mod granting;
pub mod holdings;
pub mod index;
pub mod laws;
pub mod name_line;
pub mod name_lines;
mod removal;
pub mod request_queue;
pub mod restoring;
pub mod rows;

pub use grant_candidates::Candidates;
pub use holdings::Removal;
pub use index::Index;
pub use request_queue::RequestQueue;
