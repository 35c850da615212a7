//! Parts that all processes share: OS access, children with their sockets, faults, frames read from
//! a link, output buffers, and script files.
#![tactic(auto)]

pub mod children;
pub mod fault;
pub mod host;
pub mod incoming;
pub mod link_buffer;
pub mod script;
pub mod sending;

pub use fault::ProcessFault;
pub use host::Host;
pub use incoming::Incoming;
pub use script::{line_number, read_script};
pub use sending::append;
