//! Modules: partitions of URLs, the kernel's table of tabs, and its supervisor.

mod partitions;
mod supervisor;
mod tab_table;
