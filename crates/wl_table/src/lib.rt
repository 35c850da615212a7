//! Lock tables: a trait for the lock manager of one partition, and two implementations.
#![tactic(auto)]

pub mod indexed_table;
pub mod lock_table;
pub mod plain_table;

pub use indexed_table::IndexedTable;
pub use lock_table::LockTable;
pub use plain_table::PlainTable;
pub use wl_draft::{Entry, Grant, Memory, Mode, Name, Row, Standing};
