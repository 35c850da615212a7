//! Running and ended processes of tabs.

ghost use Rattle.std.specs.Prelude.{◌≡◌, [], IfOk, OnOk, OnErr, IsSome, None};
ghost use Rattle.wl_process_rules.specs.TabEnds.{known_of, with_begun, with_ended, without, runs, any_runs, running, untold};

use std::alloc::{AllocError, Global};
use std::collections::BTreeMap;
use std::marker::Model;

/// A table of tabs' processes, in ascending order of tabs. A row tells that the process runs, or
/// has its exit status until that is reported.
#[derive(Drop)]
pub struct Ends {
    /// `None` while the process runs, then its exit status.
    tabs: BTreeMap<u16, Option<u8>>,
}

impl Model for Ends {
    ghost use Rattle.wl_process_rules.specs.TabEnds.{Rows};

    ghost Value = { Rows };

    ghost view = { λ e. e.tabs.entries };
}

impl Ends {
    /// Creates an empty table.
    pub fn new(alloc: Global) -> Ends
        ensures { result ≡ [] }
    {
        Ends {
            tabs: BTreeMap::new(alloc),
        }
    }

    /// Records that a tab's process runs. Leaves the table unchanged if out of memory.
    pub fn begin(&mut self, tab: u16) -> Result<(), AllocError>
        ensures ok { OnOk result (self.new ≡ with_begun tab self.old) }
        ensures err { OnErr result (self.new ≡ self.old) }
    {
        self.tabs.insert(tab, None)?;
        Ok(())
    }

    /// Records the exit status of a tab's process. Ignores a tab without a row. Allocates nothing.
    pub fn end(&mut self, tab: u16, status: u8)
        ensures known { IsSome (known_of self.old tab) → self.new ≡ with_ended tab status self.old }
        ensures unknown { known_of self.old tab ≡ None → self.new ≡ self.old }
    {
        if let Some(end) = self.tabs.get_mut(&tab) {
            *end = Some(status);
        }
    }

    /// Removes a tab's row, so its end will not be reported.
    pub fn forget(&mut self, tab: u16)
        ensures { self.new ≡ without tab self.old }
    {
        self.tabs.remove(&tab);
    }

    /// Returns true if the tab's process runs.
    pub fn is_running(&self, tab: u16) -> bool
        ensures { result ≡ runs (known_of self.now tab) }
    {
        matches!(self.tabs.get(&tab), Some(None))
    }

    /// Returns true if the process of any tab runs.
    pub fn is_any_running(&self) -> bool
        ensures { result ≡ any_runs self.now }
    {
        self.tabs.values().any(|end| end.is_none())
    }

    /// Returns the tabs whose processes have ended, in ascending order, with their statuses, and
    /// removes their rows. Leaves the table unchanged if out of memory.
    pub fn tell(&mut self, alloc: Global) -> Result<Vec<(u16, u8)>, AllocError>
        ensures told { IfOk result (λ told. told.items ≡ untold self.old) }
        ensures rest { OnOk result (self.new ≡ running self.old) }
        ensures err { OnErr result (self.new ≡ self.old) }
    {
        let told = self
            .tabs
            .iter()
            .filter_map(|(tab, end)| end.map(|status| (*tab, status)))
            .collect::<Vec<(u16, u8)>>(alloc)?;
        self.tabs.retain(|_tab, end| end.is_none());
        Ok(told)
    }
}
