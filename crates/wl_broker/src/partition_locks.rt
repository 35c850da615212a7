//! Locks of one partition.

ghost use Rattle.std.specs.Prelude.{◌≡◌, length, replicate, IfOk, OnOk, OnErr, IsTrue, not, []};
ghost use Rattle.std.specs.List.{filter};
ghost use Rattle.wl_draft.specs.declared.row.Standing.TheVariants.{Absent};
ghost use Rattle.wl_draft.specs.Locks.{settle, newly_granted, settle_if, newly_granted_if, standing, live, grants, without, ended, restored};
ghost use Rattle.wl_broker.specs.Broker.{drafted, snapshot_of, snapshot_entries};
ghost use Rattle.wl_broker.specs.BrokerInvariant.{no_partition, is_grant_of};

use crate::answers::snapshot;
use crate::outs::Outs;
use std::alloc::{AllocError, Global};
use std::marker::Model;
use wl_draft::{Entry, Grant, Standing};
use wl_grammar::Operation;
use wl_table::LockTable;

/// The locks of one partition. They are settled while the partition is active.
#[derive(Drop)]
pub struct PartitionLocks<T: LockTable> {
    table: T,
    /// Whether each listed tab of the partition has arrived.
    is_active: bool,
}

impl<T: LockTable> Model for PartitionLocks<T> {
    ghost use Rattle.std.specs.Prelude.{◌≡◌, [], IsTrue};
    ghost use Rattle.wl_draft.specs.Locks.{newly_granted};
    ghost use Rattle.wl_broker.specs.BrokerInvariant.{PartitionState};

    ghost Value = { PartitionState };

    ghost view = { λ p. record { locks = T.content p.table; is_active = p.is_active } };

    ghost invariant = { λ p. IsTrue p.is_active → newly_granted (T.content p.table) ≡ [] };
}

impl<T: LockTable> PartitionLocks<T> {
    /// Returns a partition without locks, which is not active.
    pub fn new(alloc: Global) -> PartitionLocks<T>
        ensures { result ≡ no_partition }
    {
        PartitionLocks {
            table: T::new(alloc),
            is_active: false,
        }
    }

    /// Returns whether the partition is active.
    pub fn is_active(&self) -> bool
        ensures { result ≡ self.now.is_active }
    {
        self.is_active
    }

    /// Returns the number of waiting requests.
    pub fn waiting(&self) -> usize
        ensures { result ≡ length self.now.locks.waiting }
    {
        self.table.waiting()
    }

    /// Returns the number of locks that the tab holds or waits for.
    pub fn live(&self, tab: u16) -> usize
        ensures { result ≡ live self.now.locks tab }
    {
        self.table.live(tab)
    }

    /// Returns whether the tab's lock with this number is held, waiting or absent.
    pub fn state(&self, tab: u16, number: u32) -> Standing
        ensures { result ≡ standing self.now.locks tab number }
    {
        self.table.state(tab, number)
    }

    /// Returns `copies` copies of the answer to a query: the held locks and the waiting requests,
    /// in parts. Fails if out of memory.
    pub fn snapshots(
        &self,
        alloc: Global,
        copies: usize,
        generation: u32,
        upto: u32,
        tab: u16,
        number: u32,
    ) -> Result<Vec<Outs>, AllocError>
        ensures copies { IfOk result (λ all. all.items
            ≡ replicate copies (snapshot_of generation upto tab number (snapshot_entries self.now.locks))) }
        ensures settled { OnOk result (IsTrue self.now.is_active → newly_granted self.now.locks ≡ []) }
    {
        let mut all = Vec::with_capacity(alloc, copies)?;
        for _ in 0..copies {
            let (held, waiting) = self.table.snapshot()?;
            let outs = snapshot(alloc, generation, upto, tab, number, held, waiting)?;
            all.push_reserved(Outs::new(outs));
        }
        Ok(all)
    }

    /// Adds a tab's reported locks, and sets whether the partition is active. Returns the grants.
    /// Fails if out of memory.
    pub fn restore(
        &mut self,
        tab: u16,
        entries: &[Entry],
        is_active: bool,
    ) -> Result<Vec<Grant>, AllocError>
        ensures grants { IfOk result (λ g.
            g.items ≡ grants (newly_granted_if is_active (restored tab entries.now self.old.locks))) }
        ensures ok { OnOk result (self.new ≡ record {
          locks = settle_if is_active (restored tab entries.now self.old.locks);
          is_active = is_active;
        }) }
        ensures err { OnErr result (self.new ≡ self.old) }
    {
        let granted = self.table.restore(tab, entries, is_active)?;
        self.is_active = is_active;
        Ok(granted)
    }

    /// Removes a tab's locks and requests, and sets whether the partition is active. Returns the
    /// grants. Fails if out of memory.
    pub fn end_tab(&mut self, tab: u16, is_active: bool) -> Result<Vec<Grant>, AllocError>
        ensures grants { IfOk result (λ g. g.items ≡ grants (newly_granted_if is_active (ended tab self.old.locks))) }
        ensures ok { OnOk result (self.new
            ≡ record { locks = settle_if is_active (ended tab self.old.locks); is_active = is_active }) }
        ensures err { OnErr result (self.new ≡ self.old) }
    {
        let granted = self.table.end_client(tab, is_active)?;
        self.is_active = is_active;
        Ok(granted)
    }

    /// Executes a tab's command. The number must be new. Returns the grants to other requests.
    /// Fails if out of memory.
    pub fn command(
        &mut self,
        alloc: Global,
        tab: u16,
        number: u32,
        operation: &Operation,
    ) -> Result<Vec<Grant>, AllocError>
        requires active { IsTrue self.old.is_active }
        requires new { standing self.old.locks tab number ≡ Absent }
        ensures grants { IfOk result (λ g.
            g.items ≡ grants (without tab number (newly_granted (drafted tab number operation.now self.old.locks)))) }
        ensures ok { OnOk result (self.new
            ≡ record self.old { locks = settle (drafted tab number operation.now self.old.locks) }) }
        ensures err { OnErr result (self.new ≡ self.old) }
    {
        let mut granted = self.change(alloc, tab, number, operation)?;
        granted.retain(|grant| grant.client != tab || grant.number != number);
        Ok(granted)
    }

    /// Executes a tab's command. The number must be new. Returns the grants, which may include the
    /// command's own.
    fn change(
        &mut self,
        alloc: Global,
        tab: u16,
        number: u32,
        operation: &Operation,
    ) -> Result<Vec<Grant>, AllocError>
        requires active { IsTrue self.old.is_active }
        requires new { standing self.old.locks tab number ≡ Absent }
        ensures grants { IfOk result (λ g. filter (λ x. not (is_grant_of tab number x)) g.items
            ≡ grants (without tab number (newly_granted (drafted tab number operation.now self.old.locks)))) }
        ensures ok { OnOk result (self.new
            ≡ record self.old { locks = settle (drafted tab number operation.now self.old.locks) }) }
        ensures err { OnErr result (self.new ≡ self.old) }
    {
        match operation {
            Operation::Request {
                mode,
                if_available,
                name,
            } => {
                if *if_available {
                    self.table.probe(tab, number, name, *mode)
                } else {
                    self.table.request(tab, number, name, *mode)
                }
            }
            Operation::Release { number: lock } => self.table.release(tab, *lock),
            Operation::Abort { number: request } => self.table.abort(tab, *request),
            Operation::Query => Ok(Vec::new(alloc)),
        }
    }
}
