//! Granting of requests.

ghost use Rattle.std.specs.Prelude.{◌≡◌, ◌+◌, ◌<◌, ◌≤◌, ◌^◌, ◌++◌, ◌∷◌, [], ◌==◌, ℕ, true, Some, length, vec_len, vec_capacity};
ghost use Rattle.wl_draft.specs.declared.row.Row.{Row};
ghost use Rattle.wl_draft.specs.Tables.{find};
ghost use Rattle.wl_draft.specs.Locks.{grants, newly_granted, settle};
ghost use Rattle.wl_table_index.specs.OrderNumbers.{without_order, order_at};
ghost use Rattle.wl_table_index.specs.Index.{IsIndexed, IsLean, locks_in};
ghost use Rattle.wl_table_index.specs.Nexts.{next_in, is_next, is_among, AreCandidates, AreOthers};

use crate::grant_candidates::Candidates;
use crate::index::Index;
use wl_draft::{Grant, Name};

impl Index {
    // Returns the order number of the first request that waits for the name, if it is grantable.
    fn grantable_request(&self, place: usize, name: &Name) -> Option<u128>
        requires { IsIndexed self.now }
        ensures { result ≡ next_in name.now self.now.held.items self.now.waiting.items }
    {
        match self.lines.front(place, name) {
            Some(order) => match self.waiting.get(order) {
                Some(row) => {
                    if self.lines.is_free(place, name, row.mode) {
                        Some(order)
                    } else {
                        None
                    }
                }
                None => None,
            },
            None => None,
        }
    }

    /// Returns whether the request with this order number is grantable.
    pub fn is_grantable(&self, order: u128) -> bool
        requires { IsIndexed self.now }
        ensures { result ≡ is_next order self.now.held.items self.now.waiting.items }
    {
        match self.waiting.get(order) {
            Some(row) => match self.grantable_request(self.waiting.line_of(order), &row.name) {
                Some(next) => next == order,
                None => false,
            },
            None => false,
        }
    }

    /// Adds the first request that waits for the name to the candidates. Capacity must be reserved.
    pub fn note_front(&self, place: usize, name: &Name, candidates: &mut Candidates)
        requires indexed { IsIndexed self.now }
        requires room { 0 < candidates.old.room }
        ensures front { (k : ℕ) → next_in name.now self.now.held.items self.now.waiting.items ≡ Some k
            → is_among k candidates.new.items ≡ true }
        ensures kept { (k : ℕ) → is_among k candidates.old.items ≡ true
            → is_among k candidates.new.items ≡ true }
        ensures len { length candidates.new.items ≤ length candidates.old.items + 1 }
        ensures room { candidates.old.room ≤ candidates.new.room + 1 }
    {
        candidates.push_front(self.lines.front(place, name));
    }

    // Grants a request: moves it from the waiting requests to the end of the held locks. Capacity
    // must be reserved.
    fn grant(&mut self, order: u128, candidates: &mut Candidates, granted: &mut Vec<Grant>)
        requires indexed { IsIndexed self.old }
        requires small { self.old.next + 1 < 2 ^ 64 }
        requires room { vec_len granted.old < vec_capacity granted.old }
        requires candidates_room { 0 < candidates.old.room }
        requires others { AreOthers order candidates.old.items self.old.held.items self.old.waiting.items }
        ensures indexed { IsIndexed self.new }
        ensures waiting { self.new.waiting.items ≡ without_order order self.old.waiting.items }
        ensures held { (r : Row) → find self.old.waiting.items order ≡ Some r
            → self.new.held.items
            ≡ self.old.held.items ++ (order_at self.old.next self.old.held.slot, r) ∷ [] }
        ensures granted { (r : Row) → find self.old.waiting.items order ≡ Some r
            → granted.new.items ≡ granted.old.items ++ grants (r ∷ []) }
        ensures next { self.new.next ≤ self.old.next + 1 }
        ensures len { vec_len granted.new ≤ vec_len granted.old + 1 }
        ensures capacity { vec_capacity granted.old ≤ vec_capacity granted.new }
        ensures candidates { (r : Row) → find self.old.waiting.items order ≡ Some r
            → AreCandidates candidates.new.items self.new.held.items self.new.waiting.items }
        ensures candidates_len { length candidates.new.items ≤ length candidates.old.items + 1 }
        ensures lean { IsLean self.old → IsLean self.new }
    {
        let probable = self.waiting.line_of(order);
        match self.waiting.remove(order) {
            Some(row) => {
                let place = self.lines.place_near(probable, &row.name);
                let turn = self.next;
                let held = self.held.next_order(turn);
                let _count = self.held.len();
                self.next = turn + 1;
                self.lines.take_out(place, &row.name, order);
                candidates.push_front(self.lines.front(place, &row.name));
                self.lines.hold(place, &row.name, row.mode);
                self.clients.grant(row.client, row.number, order, held);
                granted.push(Grant::from(&row)).unwrap();
                self.held.append(turn, place, row);
            }
            None => {}
        }
    }

    /// Grants each grantable request, in the order of queueing. All of them must be among the
    /// candidates. No candidate is left afterwards.
    pub fn settle(&mut self, candidates: &mut Candidates, granted: &mut Vec<Grant>)
        requires indexed { IsIndexed self.old }
        requires small { self.old.next + length self.old.waiting.items < 2 ^ 64 }
        requires room { vec_len granted.old + length self.old.waiting.items ≤ vec_capacity granted.old }
        requires candidates { AreCandidates candidates.old.items self.old.held.items self.old.waiting.items }
        ensures indexed { IsIndexed self.new }
        ensures settled { locks_in self.new.held.items self.new.waiting.items
            ≡ settle (locks_in self.old.held.items self.old.waiting.items) }
        ensures granted { granted.new.items
            ≡ granted.old.items ++ grants (newly_granted (locks_in self.old.held.items self.old.waiting.items)) }
        ensures candidates { AreCandidates candidates.new.items self.new.held.items self.new.waiting.items }
        ensures lean { IsLean self.old → IsLean self.new }
    {
        while let Some(order) = candidates.pop() {
            if self.is_grantable(order) {
                self.grant(order, candidates, granted);
            }
        }
    }
}
