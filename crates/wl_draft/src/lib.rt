//! Lock manager of the Web Locks API on plain data. It has names, modes, the held locks in the
//! order of granting, and the waiting requests in the order of queueing.
#![tactic(auto)]

pub mod laws;
mod lists;
pub mod manager;
pub mod mode;
pub mod name;
pub mod row;

pub use lists::rows_of;
pub use manager::Manager;
pub use mode::Mode;
pub use name::Name;
pub use row::{Entry, Grant, Row, Standing};

/// Error of a failed allocation.
pub type Memory = std::alloc::AllocError;
