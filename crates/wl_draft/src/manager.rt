//! Lock manager that keeps its locks in two plain lists.

ghost use Rattle.std.specs.Prelude.{◌≡◌, [], ◌∷◌, IfOk, OnOk, OnErr, length, if◌then◌else◌};
ghost use Rattle.wl_draft.specs.declared.row.Standing.TheVariants.{Absent};
ghost use Rattle.wl_draft.specs.Locks.{no_locks, settle, newly_granted, settle_if, newly_granted_if, is_grantable, standing, live, grantable, grants, row_of, queued, probed, released, aborted, ended, restored};

use crate::lists;
use crate::mode::Mode;
use crate::name::Name;
use crate::row::{Entry, Grant, Row, Standing};
use std::alloc::{AllocError, Global};
use std::marker::Model;

/// The locks of one partition, in two plain lists. Contracts see it as these lists. Each call
/// allocates all its memory before it changes them.
#[derive(Drop)]
pub struct Manager {
    alloc: Global,
    held: Vec<Row>,
    waiting: Vec<Row>,
}

impl Model for Manager {
    ghost use Rattle.wl_draft.specs.Locks.{Locks};

    ghost Value = { Locks };

    ghost view = { λ m. record { held = m.held.items; waiting = m.waiting.items } };
}

impl Manager {
    /// Returns a manager without locks.
    pub fn new(alloc: Global) -> Manager
        ensures { result ≡ no_locks }
    {
        Manager {
            alloc,
            held: Vec::new(alloc),
            waiting: Vec::new(alloc),
        }
    }

    /// Queues a request, and settles. The pair must be new. Returns the grants in the order of
    /// queueing. Fails if out of memory.
    #[tactic(auto, unfolding(crate::specs::Locks::settle, crate::specs::Locks::newly_granted, crate::specs::Locks::queued))]
    pub fn request(
        &mut self,
        client: u16,
        number: u32,
        name: &Name,
        mode: Mode,
    ) -> Result<Vec<Grant>, AllocError>
        requires { standing self.old client number ≡ Absent }
        ensures grants { IfOk result
            (λ g. g.items ≡ grants (newly_granted (queued (row_of client number name.now mode) self.old))) }
        ensures ok { OnOk result
            (self.new ≡ settle (queued (row_of client number name.now mode) self.old)) }
        ensures err { OnErr result (self.new ≡ self.old) }
    {
        let row = Row {
            client,
            number,
            name: name.clone()?,
            mode,
        };
        self.waiting.reserve(1)?;
        let count = self.waiting.len() + 1;
        let mut granted = lists::reserve_grants(self.alloc, &mut self.held, count)?;
        self.waiting.push(row).unwrap();
        lists::settle(&mut self.held, &mut self.waiting, &mut granted);
        Ok(granted)
    }

    /// Grants a lock if it is grantable, and otherwise does nothing. The pair must be new. Returns
    /// the pair if it is granted. Fails if out of memory.
    #[tactic(auto, unfolding(crate::specs::Locks::probed))]
    pub fn probe(
        &mut self,
        client: u16,
        number: u32,
        name: &Name,
        mode: Mode,
    ) -> Result<Vec<Grant>, AllocError>
        requires { standing self.old client number ≡ Absent }
        ensures grants { IfOk result (λ g. g.items
            ≡ (if is_grantable self.old.held self.old.waiting (row_of client number name.now mode)
            then grants (row_of client number name.now mode ∷ []) else [])) }
        ensures ok { OnOk result (self.new ≡ probed (row_of client number name.now mode) self.old) }
        ensures err { OnErr result (self.new ≡ self.old) }
    {
        let row = Row {
            client,
            number,
            name: name.clone()?,
            mode,
        };
        let mut granted = lists::reserve_grants(self.alloc, &mut self.held, 1)?;
        if lists::is_grantable(&self.held, &self.waiting, &row) {
            granted.push(Grant::from(&row)).unwrap();
            self.held.push(row).unwrap();
        }
        Ok(granted)
    }

    /// Releases a held lock, and settles. If the pair holds no lock, it only settles. Returns the
    /// grants. Fails if out of memory.
    #[tactic(auto, unfolding(crate::specs::Locks::settle, crate::specs::Locks::newly_granted, crate::specs::Locks::released))]
    pub fn release(&mut self, client: u16, number: u32) -> Result<Vec<Grant>, AllocError>
        ensures grants { IfOk result
            (λ g. g.items ≡ grants (newly_granted (released client number self.old))) }
        ensures ok { OnOk result (self.new ≡ settle (released client number self.old)) }
        ensures err { OnErr result (self.new ≡ self.old) }
    {
        let mut granted = lists::reserve_grants(self.alloc, &mut self.held, self.waiting.len())?;
        lists::remove_pair(client, number, &mut self.held);
        lists::settle(&mut self.held, &mut self.waiting, &mut granted);
        Ok(granted)
    }

    /// Removes a pair's lock or request, and settles. Returns the grants. Fails if out of memory.
    #[tactic(auto, unfolding(crate::specs::Locks::settle, crate::specs::Locks::newly_granted, crate::specs::Locks::aborted))]
    pub fn abort(&mut self, client: u16, number: u32) -> Result<Vec<Grant>, AllocError>
        ensures grants { IfOk result
            (λ g. g.items ≡ grants (newly_granted (aborted client number self.old))) }
        ensures ok { OnOk result (self.new ≡ settle (aborted client number self.old)) }
        ensures err { OnErr result (self.new ≡ self.old) }
    {
        let mut granted = lists::reserve_grants(self.alloc, &mut self.held, self.waiting.len())?;
        lists::remove_pair(client, number, &mut self.waiting);
        lists::remove_pair(client, number, &mut self.held);
        lists::settle(&mut self.held, &mut self.waiting, &mut granted);
        Ok(granted)
    }

    /// Removes all locks and requests of a client, and settles if `settle` is set. Returns the
    /// grants. Fails if out of memory.
    #[tactic(auto, unfolding(crate::specs::Locks::settle, crate::specs::Locks::newly_granted, crate::specs::Locks::ended))]
    pub fn end_client(&mut self, client: u16, settle: bool) -> Result<Vec<Grant>, AllocError>
        ensures grants { IfOk result
            (λ g. g.items ≡ grants (newly_granted_if settle (ended client self.old))) }
        ensures ok { OnOk result (self.new ≡ settle_if settle (ended client self.old)) }
        ensures err { OnErr result (self.new ≡ self.old) }
    {
        let mut granted = lists::reserve_grants(self.alloc, &mut self.held, self.waiting.len())?;
        lists::remove_client(client, &mut self.held);
        lists::remove_client(client, &mut self.waiting);
        if settle {
            lists::settle(&mut self.held, &mut self.waiting, &mut granted);
        }
        Ok(granted)
    }

    /// Appends the entries of a client's report, and settles if `settle` is set. Returns the
    /// grants. Fails if out of memory.
    #[tactic(auto, unfolding(crate::specs::Locks::settle, crate::specs::Locks::newly_granted, crate::specs::Locks::restored))]
    pub fn restore(
        &mut self,
        client: u16,
        entries: &[Entry],
        settle: bool,
    ) -> Result<Vec<Grant>, AllocError>
        ensures grants { IfOk result
            (λ g. g.items ≡ grants (newly_granted_if settle (restored client entries.now self.old))) }
        ensures ok { OnOk result
            (self.new ≡ settle_if settle (restored client entries.now self.old)) }
        ensures err { OnErr result (self.new ≡ self.old) }
    {
        let (mut held, mut waiting) = lists::rows_of(self.alloc, client, entries)?;
        self.waiting.reserve(waiting.len())?;
        let all_waiting = self.waiting.len() + waiting.len();
        self.held.reserve(held.len() + all_waiting)?;
        let mut granted = Vec::with_capacity(self.alloc, all_waiting)?;
        self.held.append(&mut held).unwrap();
        self.waiting.append(&mut waiting).unwrap();
        if settle {
            lists::settle(&mut self.held, &mut self.waiting, &mut granted);
        }
        Ok(granted)
    }

    /// Returns whether the pair is waiting and is grantable.
    pub fn grantable(&self, client: u16, number: u32) -> bool
        ensures { result ≡ grantable self.now client number }
    {
        lists::is_grantable_pair(&self.held, &self.waiting, client, number)
    }

    /// Returns whether the pair's lock is held, waiting or absent.
    pub fn state(&self, client: u16, number: u32) -> Standing
        ensures { result ≡ standing self.now client number }
    {
        if lists::has_pair(client, number, &self.held) {
            Standing::Held
        } else if lists::has_pair(client, number, &self.waiting) {
            Standing::Waiting
        } else {
            Standing::Absent
        }
    }

    /// Returns the number of locks that the client holds or waits for.
    pub fn live(&self, client: u16) -> usize
        ensures { result ≡ live self.now client }
    {
        lists::count_of(client, &self.held) + lists::count_of(client, &self.waiting)
    }

    /// Returns the number of waiting requests, which is the most that one release or abort can
    /// grant.
    pub fn waiting(&self) -> usize
        ensures { result ≡ length self.now.waiting }
    {
        self.waiting.len()
    }

    /// Returns copies of the held locks, in the order of granting, and of the waiting requests, in
    /// the order of queueing. Fails if out of memory.
    pub fn snapshot(&self) -> Result<(Vec<Row>, Vec<Row>), AllocError>
        ensures { IfOk result (λ s. (s.0.items ≡ self.now.held) × (s.1.items ≡ self.now.waiting)) }
    {
        let held = lists::copy_rows(self.alloc, &self.held)?;
        Ok((held, lists::copy_rows(self.alloc, &self.waiting)?))
    }
}
