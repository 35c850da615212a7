//! Tabs whose commands came too early: the broker dropped them, since the tab's partition recovered.

ghost use Rattle.std.specs.Prelude.{◌≡◌, ◌<◌, [], length, OnOk};
ghost use Rattle.std.specs.VecDeque.{deque_len, deque_capacity};
ghost use Rattle.wl_hub.specs.Early.{greeted_next, noted, postponed, rest_after, without_tab};

use crate::receiving::Verdict;
use std::alloc::{AllocError, Global};
use std::collections::VecDeque;

/// Tabs whose commands came too early. A partition may become active when a tab joins or a death is told. Then the
/// tabs of active partitions are greeted again.
#[derive(Drop)]
pub(crate) struct EarlyTabs {
    pub(crate) tabs: VecDeque<u16>,
    /// The number of tabs in front whose greetings may be due.
    pub(crate) greetings: usize,
}

impl EarlyTabs {
    /// Creates an empty list.
    pub(crate) fn new(alloc: Global) -> EarlyTabs
        ensures tabs { result.tabs.items ≡ [] }
        ensures greetings { result.greetings ≡ 0 }
    {
        EarlyTabs {
            tabs: VecDeque::new(alloc),
            greetings: 0,
        }
    }

    /// Makes room for one more tab. Fails if out of memory.
    pub(crate) fn make_room(&mut self) -> Result<(), AllocError>
        ensures tabs { self.new.tabs.items ≡ self.old.tabs.items }
        ensures greetings { self.new.greetings ≡ self.old.greetings }
        ensures room { OnOk result (deque_len self.new.tabs < deque_capacity self.new.tabs) }
    {
        self.tabs.reserve(1)?;
        Ok(())
    }

    /// Notes what the broker did with a command or a report of a tab.
    pub(crate) fn note(&mut self, tab: u16, verdict: Verdict)
        requires { deque_len self.old.tabs < deque_capacity self.old.tabs }
        ensures tabs { self.new.tabs.items ≡ (noted verdict tab self.old.tabs.items self.old.greetings).0 }
        ensures greetings { self.new.greetings ≡ (noted verdict tab self.old.tabs.items self.old.greetings).1 }
    {
        match verdict {
            Verdict::Early => {
                if self.tabs.contains(&tab) {
                    return;
                }
                self.tabs.push_back_reserved(tab);
            }
            Verdict::Active => self.greet_all(),
            Verdict::Other => {}
        }
    }

    /// Removes a tab that has died. Allocates no memory.
    pub(crate) fn forget(&mut self, tab: u16)
        ensures tabs { self.new.tabs.items ≡ without_tab tab self.old.tabs.items }
        ensures greetings { self.new.greetings ≡ self.old.greetings }
    {
        self.tabs.retain(|early| *early != tab);
    }

    /// Lets all tabs whose partitions are active be greeted.
    pub(crate) fn greet_all(&mut self)
        ensures tabs { self.new.tabs.items ≡ self.old.tabs.items }
        ensures greetings { self.new.greetings ≡ length self.old.tabs.items }
    {
        self.greetings = self.tabs.len();
    }

    /// Returns the next tab whose greeting may be due.
    pub(crate) fn first(&self) -> Option<u16>
        ensures { result ≡ greeted_next self.now.greetings self.now.tabs.items }
    {
        if self.greetings == 0 {
            return None;
        }
        self.tabs.front().copied()
    }

    /// Removes the tab that `first` returns.
    pub(crate) fn remove_first(&mut self)
        ensures tabs { self.new.tabs.items ≡ (rest_after self.old.greetings self.old.tabs.items).0 }
        ensures greetings { self.new.greetings ≡ (rest_after self.old.greetings self.old.tabs.items).1 }
    {
        if self.greetings == 0 {
            return;
        }
        let Some(_tab) = self.tabs.pop_front() else {
            return;
        };
        self.greetings -= 1;
    }

    /// Moves the tab that `first` returns to the end, since its partition still recovers.
    pub(crate) fn postpone_first(&mut self)
        ensures tabs { self.new.tabs.items ≡ (postponed self.old.greetings self.old.tabs.items).0 }
        ensures greetings { self.new.greetings ≡ (postponed self.old.greetings self.old.tabs.items).1 }
    {
        if self.greetings == 0 || self.tabs.is_empty() {
            return;
        }
        self.tabs.rotate_left(1);
        self.greetings -= 1;
    }
}
