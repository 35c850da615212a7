//! Modules: a tab's agent, its locks around the agent, and its channels.

mod agent;
mod channels;
mod tab_locks;
