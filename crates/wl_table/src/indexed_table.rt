//! Lock table with indexes.

ghost use Rattle.std.specs.Prelude.{◌≡◌, [], ◌∷◌, true, IfOk, OnOk, OnErr};
ghost use Rattle.wl_draft.specs.Locks.{is_grantable, row_of, grants, probed, standing};
ghost use Rattle.wl_draft.specs.declared.row.Standing.TheVariants.{Absent};

use crate::lock_table::LockTable;
use std::alloc::{AllocError, Global};
use std::marker::Model;
use std::mem;
use wl_draft::{Entry, Grant, Mode, Name, Row, Standing, rows_of};
use wl_table_index::{Candidates, Index, Removal};

/// A lock table with an index of its names and an index of its clients. The cost of a command does
/// not grow with the locks and requests of other clients.
#[derive(Drop)]
pub struct IndexedTable {
    alloc: Global,
    index: Index,
    // Every grantable request is among the candidates. A settled table has none.
    candidates: Candidates,
    // Buffer for the grants of a command. It is empty between commands.
    granted: Vec<Grant>,
}

impl Model for IndexedTable {
    ghost use Rattle.wl_draft.specs.Locks.{Locks};

    ghost Value = { Locks };

    ghost use Rattle.wl_table_index.specs.Index.{locks_in};
    ghost use Rattle.wl_table.specs.TableInvariant.{IsKept};

    ghost view = { λ t. locks_in t.index.held.items t.index.waiting.items };

    ghost invariant = { IsKept };
}

impl LockTable for IndexedTable {
    ghost content = { λ locks. locks };

    fn new(alloc: Global) -> IndexedTable {
        IndexedTable {
            alloc,
            index: Index::new(alloc),
            candidates: Candidates::new(alloc),
            granted: Vec::new(alloc),
        }
    }

    fn request(
        &mut self,
        client: u16,
        number: u32,
        name: &Name,
        mode: Mode,
    ) -> Result<Vec<Grant>, AllocError> {
        // If nothing else is grantable, the request is granted alone or waits.
        let (place, is_next) = self.index.lines.ask(name, mode);
        if self.candidates.is_empty() && is_next {
            return self.grant_immediately(place, client, number, name, mode);
        }
        self.index.room_to_settle(&mut self.granted, 1)?;
        self.candidates.reserve(1)?;
        let row = self.index.ready(place, client, number, name, mode)?;
        let order = self.index.queue(place, row);
        self.candidates.push(order);
        self.index.settle(&mut self.candidates, &mut self.granted);
        Ok(exact_size_grants(self.alloc, &mut self.granted))
    }

    fn probe(
        &mut self,
        client: u16,
        number: u32,
        name: &Name,
        mode: Mode,
    ) -> Result<Vec<Grant>, AllocError> {
        let (place, is_next) = self.index.lines.ask(name, mode);
        if !is_next {
            return Ok(Vec::new(self.alloc));
        }
        self.grant_immediately(place, client, number, name, mode)
    }

    fn release(&mut self, client: u16, number: u32) -> Result<Vec<Grant>, AllocError> {
        self.index.room_to_settle(&mut self.granted, 0)?;
        self.candidates.reserve(self.index.clients.live(client))?;
        self.index
            .remove_all(client, Removal::Release(number), &mut self.candidates);
        self.index.forget_client(client);
        self.index.settle(&mut self.candidates, &mut self.granted);
        Ok(exact_size_grants(self.alloc, &mut self.granted))
    }

    fn abort(&mut self, client: u16, number: u32) -> Result<Vec<Grant>, AllocError> {
        self.index.room_to_settle(&mut self.granted, 0)?;
        self.candidates.reserve(self.index.clients.live(client))?;
        self.index
            .remove_all(client, Removal::Abort(number), &mut self.candidates);
        self.index.forget_client(client);
        self.index.settle(&mut self.candidates, &mut self.granted);
        Ok(exact_size_grants(self.alloc, &mut self.granted))
    }

    fn end_client(&mut self, client: u16, settle: bool) -> Result<Vec<Grant>, AllocError> {
        self.index.room_to_settle(&mut self.granted, 0)?;
        self.candidates.reserve(self.index.clients.live(client))?;
        self.index
            .remove_all(client, Removal::End, &mut self.candidates);
        self.index.forget_client(client);
        if !settle {
            return Ok(Vec::new(self.alloc));
        }
        self.index.settle(&mut self.candidates, &mut self.granted);
        Ok(exact_size_grants(self.alloc, &mut self.granted))
    }

    fn restore(
        &mut self,
        client: u16,
        entries: &[Entry],
        settle: bool,
    ) -> Result<Vec<Grant>, AllocError> {
        let (held, waiting) = rows_of(self.alloc, client, entries)?;
        self.index.room_to_settle(&mut self.granted, entries.len())?;
        self.candidates.reserve(waiting.len())?;
        self.index.make_room(client, &held, &waiting)?;
        self.index
            .put_all(client, held, waiting, &mut self.candidates);
        self.index.forget_client(client);
        if !settle {
            return Ok(Vec::new(self.alloc));
        }
        self.index.settle(&mut self.candidates, &mut self.granted);
        Ok(exact_size_grants(self.alloc, &mut self.granted))
    }

    fn grantable(&self, client: u16, number: u32) -> bool {
        match self.index.clients.first_waiting(client, number) {
            Some(order) => self.index.is_grantable(order),
            None => false,
        }
    }

    fn state(&self, client: u16, number: u32) -> Standing {
        self.index.clients.standing(client, number)
    }

    fn live(&self, client: u16) -> usize {
        self.index.clients.live(client)
    }

    fn waiting(&self) -> usize {
        self.index.waiting.len()
    }

    fn snapshot(&self) -> Result<(Vec<Row>, Vec<Row>), AllocError> {
        let held = self.index.held.copies(self.alloc)?;
        let waiting = self.index.waiting.copies(self.alloc)?;
        Ok((held, waiting))
    }
}

impl IndexedTable {
    // Holds a lock that is grantable.
    fn grant_immediately(
        &mut self,
        place: usize,
        client: u16,
        number: u32,
        name: &Name,
        mode: Mode,
    ) -> Result<Vec<Grant>, AllocError>
        requires grantable { is_grantable self.old.held self.old.waiting (row_of client number name.now mode) ≡ true }
        requires fresh { standing self.old client number ≡ Absent }
        ensures grants { IfOk result (λ g. g.items ≡ grants (row_of client number name.now mode ∷ [])) }
        ensures ok { OnOk result (self.new ≡ probed (row_of client number name.now mode) self.old) }
        ensures err { OnErr result (self.new ≡ self.old) }
    {
        let mut granted = Vec::with_capacity(self.alloc, 1)?;
        let row = self.index.ready_lock(place, client, number, name, mode)?;
        granted.push(Grant::from(&row)).unwrap();
        self.index.hold(place, row);
        Ok(granted)
    }
}

// Returns the grants in a list of exact size. If that cannot be allocated, returns the buffer
// itself.
fn exact_size_grants(alloc: Global, granted: &mut Vec<Grant>) -> Vec<Grant>
    ensures value { result.items ≡ granted.old.items }
    ensures emptied { granted.new.items ≡ [] }
{
    match granted.clone() {
        Ok(copy) => {
            granted.clear();
            copy
        }
        Err(_) => mem::replace(granted, Vec::new(alloc)),
    }
}
