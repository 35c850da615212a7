//! Kernel of the browser: the tabs and their partitions, the current generation of the broker, and the route of each frame.
#![tactic(auto)]

pub mod fault;
mod homes;
pub mod laws;
pub mod routes;
mod rows;
mod sorted_tabs;
pub mod states;
pub mod supervisor;
pub mod tabs;
pub mod welcome;

pub use fault::{GenerationsUsedUp, KillFault, OpenFault, RouteFault, StartFault};
pub use routes::Routed;
pub use states::{Down, Up};
pub use supervisor::{
    KilledTab, NotStarted, NotStopped, RoutedDown, RoutedUp, StartRefusal, Supervisor,
};
pub use tabs::Tabs;
pub use welcome::Origins;
