//! Reports of tabs, which may come in parts: their headers, the parts kept, and the test whether a
//! report is whole.
#![tactic(auto)]

pub mod heading;
pub mod partial_report;

pub use heading::PartHeader;
pub use partial_report::PartialReport;
