//! Removal of a client's entries.

ghost use Rattle.std.specs.Prelude.{◌≡◌, ℕ, List, false, true, not, ◌&&◌, ◌||◌, ◌==◌, bytes_eq, ◌+◌, ◌<◌, ◌≤◌, ◌^◌, OnOk, IsSome, length, vec_len, vec_capacity};
ghost use Rattle.wl_draft.specs.Tables.{find};
ghost use Rattle.wl_draft.specs.Locks.{is_named};
ghost use Rattle.wl_table_index.specs.OrderNumbers.{without_order};
ghost use Rattle.wl_table_index.specs.NameLines.{is_idle_line};
ghost use Rattle.wl_table_index.specs.Clients.{is_idle_client, count_at};
ghost use Rattle.wl_table_index.specs.Index.{IsIndexed, IsLean, IsLeanBut, is_entry};
ghost use Rattle.wl_table_index.specs.Nexts.{left_by, AreCandidates};

use crate::grant_candidates::Candidates;
use crate::holdings::Removal;
use crate::index::Index;
use std::alloc::AllocError;
use wl_draft::{Grant, Name, Row};

impl Index {
    /// Removes the entries of the client that the command removes. The front request of each name
    /// concerned becomes a candidate.
    pub fn remove_all(&mut self, client: u16, removal: Removal, candidates: &mut Candidates)
        requires indexed { IsIndexed self.old }
        requires room { count_at self.old.clients client ≤ candidates.old.room }
        requires candidates { AreCandidates candidates.old.items self.old.held.items self.old.waiting.items }
        ensures indexed { IsIndexed self.new }
        ensures held { self.new.held.items ≡ left_by client removal true self.old.held.items }
        ensures waiting { self.new.waiting.items ≡ left_by client removal false self.old.waiting.items }
        ensures next { self.new.next ≡ self.old.next }
        ensures fewer { length self.new.waiting.items ≤ length self.old.waiting.items }
        ensures candidates { AreCandidates candidates.new.items self.new.held.items self.new.waiting.items }
        ensures lean { IsLeanBut self.old (λ n. false) (λ c. client == c) → IsLeanBut self.new (λ n. false) (λ c. client == c) }
    {
        while let Some(place) = self.clients.find(client, removal) {
            if place.is_held {
                self.drop_held(place.order, candidates);
            } else {
                self.drop_waiting(place.order, candidates);
            }
        }
    }

    // Removes a held lock. The front request of its name becomes a candidate.
    fn drop_held(&mut self, order: u128, candidates: &mut Candidates)
        requires indexed { IsIndexed self.old }
        requires there { IsSome (find self.old.held.items order) }
        requires room { 0 < candidates.old.room }
        ensures indexed { IsIndexed self.new }
        ensures held { self.new.held.items ≡ without_order order self.old.held.items }
        ensures waiting { self.new.waiting.items ≡ self.old.waiting.items }
        ensures next { self.new.next ≡ self.old.next }
        ensures room { candidates.old.room ≤ candidates.new.room + 1 }
        ensures candidates { AreCandidates candidates.old.items self.old.held.items self.old.waiting.items
            → AreCandidates candidates.new.items self.new.held.items self.new.waiting.items }
        ensures lean { (client number : ℕ) → is_entry client number (find self.old.held.items order) ≡ true
            → IsLeanBut self.old (λ n. false) (λ c. client == c) → IsLeanBut self.new (λ n. false) (λ c. client == c) }
    {
        let probable = self.held.line_of(order);
        match self.take_held(order) {
            Some(row) => {
                let place = self.lines.place_near(probable, &row.name);
                self.note_front(place, &row.name, candidates);
                self.forget_name(place, &row.name);
            }
            None => {}
        }
    }

    // Removes a waiting request. The front request of its name becomes a candidate.
    fn drop_waiting(&mut self, order: u128, candidates: &mut Candidates)
        requires indexed { IsIndexed self.old }
        requires there { IsSome (find self.old.waiting.items order) }
        requires room { 0 < candidates.old.room }
        ensures indexed { IsIndexed self.new }
        ensures held { self.new.held.items ≡ self.old.held.items }
        ensures waiting { self.new.waiting.items ≡ without_order order self.old.waiting.items }
        ensures next { self.new.next ≡ self.old.next }
        ensures room { candidates.old.room ≤ candidates.new.room + 1 }
        ensures candidates { AreCandidates candidates.old.items self.old.held.items self.old.waiting.items
            → AreCandidates candidates.new.items self.new.held.items self.new.waiting.items }
        ensures lean { (client number : ℕ) → is_entry client number (find self.old.waiting.items order) ≡ true
            → IsLeanBut self.old (λ n. false) (λ c. client == c) → IsLeanBut self.new (λ n. false) (λ c. client == c) }
    {
        let probable = self.waiting.line_of(order);
        match self.take_waiting(order) {
            Some(row) => {
                let place = self.lines.place_near(probable, &row.name);
                self.note_front(place, &row.name, candidates);
                self.forget_name(place, &row.name);
            }
            None => {}
        }
    }

    // Removes the name's line if it has no holder and no waiting request.
    fn forget_name(&mut self, place: usize, name: &Name)
        requires { IsIndexed self.old }
        ensures indexed { IsIndexed self.new }
        ensures held { self.new.held.items ≡ self.old.held.items }
        ensures waiting { self.new.waiting.items ≡ self.old.waiting.items }
        ensures next { self.new.next ≡ self.old.next }
        ensures names { (n : List ℕ) → is_idle_line self.new.lines n
            ≡ (is_idle_line self.old.lines n && not (bytes_eq name.now n)) }
        ensures clients { (c : ℕ) → is_idle_client self.new.clients c ≡ is_idle_client self.old.clients c }
    {
        self.lines.forget(place, name);
    }

    /// Removes the client if it has no entry.
    pub fn forget_client(&mut self, client: u16)
        requires { IsIndexed self.old }
        ensures indexed { IsIndexed self.new }
        ensures held { self.new.held.items ≡ self.old.held.items }
        ensures waiting { self.new.waiting.items ≡ self.old.waiting.items }
        ensures next { self.new.next ≡ self.old.next }
        ensures names { (n : List ℕ) → is_idle_line self.new.lines n ≡ is_idle_line self.old.lines n }
        ensures clients { (c : ℕ) → is_idle_client self.new.clients c
            ≡ (is_idle_client self.old.clients c && not (client == c)) }
    {
        self.clients.forget(client);
    }

    /// Removes the client and the name if they have no entry.
    pub fn forget(&mut self, client: u16, place: usize, name: &Name)
        requires { IsIndexed self.old }
        ensures indexed { IsIndexed self.new }
        ensures held { self.new.held.items ≡ self.old.held.items }
        ensures waiting { self.new.waiting.items ≡ self.old.waiting.items }
        ensures next { self.new.next ≡ self.old.next }
        ensures lean { IsLeanBut self.old (λ n. bytes_eq name.now n) (λ c. client == c) → IsLean self.new }
    {
        self.forget_name(place, name);
        self.forget_client(client);
    }

    /// Removes the client and the names of these rows if they have no entry.
    pub fn forget_rows(&mut self, client: u16, held: &[Row], waiting: &[Row])
        requires { IsIndexed self.old }
        ensures indexed { IsIndexed self.new }
        ensures held { self.new.held.items ≡ self.old.held.items }
        ensures waiting { self.new.waiting.items ≡ self.old.waiting.items }
        ensures next { self.new.next ≡ self.old.next }
        ensures lean { IsLeanBut self.old (λ n. is_named n held.now || is_named n waiting.now) (λ c. client == c)
            → IsLean self.new }
    {
        self.lines.forget_all(held);
        self.lines.forget_all(waiting);
        self.forget_client(client);
    }

    /// Reserves capacity for all grants of a settling after `more` entries are added. Fails if out
    /// of memory, or if too few turns are left.
    pub fn room_to_settle(&self, granted: &mut Vec<Grant>, more: usize) -> Result<(), AllocError>
        ensures items { granted.new.items ≡ granted.old.items }
        ensures room { OnOk result
            (vec_len granted.new + length self.now.waiting.items + more ≤ vec_capacity granted.new) }
        ensures small { OnOk result (self.now.next + length self.now.waiting.items + more + more < 2 ^ 64) }
    {
        let waiting = self.waiting.len();
        if self.next >= LAST_TURN || waiting >= MOST_ENTRIES || more >= MOST_ENTRIES {
            return Err(AllocError);
        }
        granted.reserve(waiting + more)
    }
}

/// Bound of the turns of a table. No table lives long enough to reach it.
const LAST_TURN: u64 = 1 << 62;

/// Bound of the number of waiting requests, and of the entries of a report.
const MOST_ENTRIES: usize = 1 << 61;
