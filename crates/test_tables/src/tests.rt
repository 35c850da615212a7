//! Modules: the manager alone, and both lock tables side by side.

mod entries;
mod manager;
mod tables;
