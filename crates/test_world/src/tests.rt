//! Modules: rows of events, how they are played, copies of events, and ends of a run of the sim.

mod copies;
mod play;
mod rows;
mod sim_ends;
