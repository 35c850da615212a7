//! Lines of all names.

ghost use Rattle.std.specs.Prelude.{◌≡◌, true, false, not, ◌||◌, ◌+◌, ◌<◌, ◌≤◌, ◌^◌, ℕ, List, Some, None, OnOk, IfSome, IfNone, is_some, ◌==◌, ◌&&◌, length, slice_get, bytes_eq, option_copied, if◌then◌else◌};
ghost use Rattle.std.specs.String.{string_bytes};
ghost use Rattle.std.specs.HashMap.{get_by_text};
ghost use Rattle.indexmap.specs.IndexMap.{index_of_by, index_map_len, values};
ghost use Rattle.wl_draft.specs.Locks.{is_named};
ghost use Rattle.wl_table_index.specs.OrderNumbers.{do_rise};
ghost use Rattle.wl_table_index.specs.NameLines.{nobody, lets_in, with_holder, with_waiter, without_holder, without_waiter, line_at, room_at, HasLine, count_named, is_idle_line};

use crate::name_line::NameLine;
use indexmap::IndexMap;
use std::alloc::{AllocError, Global};
use wl_draft::{Mode, Name, Row};

/// The holders and the waiting requests of each name. A name without a line has none.
#[derive(Drop)]
pub struct Lines {
    pub alloc: Global,
    pub lines: IndexMap<String, NameLine>,
}

impl Lines {
    /// Returns an index without names.
    pub fn new(alloc: Global) -> Lines
        ensures lines { (n : List ℕ) → line_at result n ≡ nobody }
        ensures idle { (n : List ℕ) → is_idle_line result n ≡ false }
    {
        Lines {
            alloc,
            lines: IndexMap::new(alloc),
        }
    }

    /// Returns the place of the name's line, or the place that a new line would get. The place of a
    /// line can change whenever a line is removed. A method that is given a wrong place finds the line
    /// by the name, so a wrong place costs time and never changes an answer. No clause speaks of places
    /// for that reason.
    pub fn place(&self, name: &Name) -> usize {
        match self.lines.get_index_of(name.as_str()) {
            Some(place) => place,
            None => self.lines.len(),
        }
    }

    /// Returns the place of the name's line, as `place` does, with as little promised. A probable place
    /// is tried first.
    pub fn place_near(&self, probable: usize, name: &Name) -> usize {
        if self.is_at(probable, name) {
            probable
        } else {
            self.place(name)
        }
    }

    // Returns the place of the name's line. The given place is tried first.
    fn find(&self, place: usize, name: &Name) -> Option<usize>
        ensures index { result ≡ index_of_by (λ k. bytes_eq name.now (string_bytes k)) self.now.lines }
        ensures found { is_some result ≡ is_some (get_by_text self.now.lines name.now) }
        ensures within { IfSome result (λ i. i < index_map_len self.now.lines) }
        ensures value { IfSome result (λ i.
            slice_get (values self.now.lines) i ≡ get_by_text self.now.lines name.now) }
        ensures none { IfNone result (get_by_text self.now.lines name.now ≡ None) }
    {
        if self.is_at(place, name) {
            Some(place)
        } else {
            self.lines.get_index_of(name.as_str())
        }
    }

    // Returns whether the name's line is at this place.
    fn is_at(&self, place: usize, name: &Name) -> bool
        ensures { result ≡ true
            → index_of_by (λ k. bytes_eq name.now (string_bytes k)) self.now.lines ≡ Some place }
    {
        let _len = self.lines.len();
        match self.lines.get_index(place) {
            Some((key, _)) => key.as_str() == name.as_str(),
            None => false,
        }
    }

    // Returns whether the name has a line.
    fn has_line(&self, place: usize, name: &Name) -> bool
        ensures { result ≡ is_some (get_by_text self.now.lines name.now) }
    {
        self.find(place, name).is_some()
    }

    // Returns the name's line.
    fn line(&self, place: usize, name: &Name) -> Option<&NameLine>
        ensures { option_copied result ≡ get_by_text self.now.lines name.now }
    {
        match self.find(place, name) {
            Some(index) => Some(&self.lines[index]),
            None => None,
        }
    }

    /// Returns whether a lock in this mode conflicts with no held lock of the name.
    pub fn is_free(&self, place: usize, name: &Name, mode: Mode) -> bool
        ensures { result ≡ lets_in (line_at self.now name.now) mode }
    {
        match self.line(place, name) {
            Some(line) => line.is_free(mode),
            None => true,
        }
    }

    /// Returns the order number of the first request that waits for the name.
    pub fn front(&self, place: usize, name: &Name) -> Option<u128>
        ensures { result ≡ slice_get (line_at self.now name.now).queue 0 }
    {
        match self.line(place, name) {
            Some(line) => line.front(),
            None => None,
        }
    }

    /// Counts one more holder of the name.
    pub fn hold(&mut self, place: usize, name: &Name, mode: Mode)
        requires there { HasLine self.old name.now }
        requires small { (line_at self.old name.now).shared + (line_at self.old name.now).exclusive + 1 < 2 ^ 64 }
        ensures lines { (n : List ℕ) → line_at self.new n
            ≡ (if bytes_eq name.now n then with_holder (line_at self.old n) mode else line_at self.old n) }
        ensures room { (n : List ℕ) → room_at self.new n ≡ room_at self.old n }
        ensures kept { (n : List ℕ) → HasLine self.old n → HasLine self.new n }
        ensures idle { (n : List ℕ) → is_idle_line self.new n ≡ (is_idle_line self.old n && not (bytes_eq name.now n)) }
    {
        match self.find(place, name) {
            Some(index) => self.lines[index].hold(mode),
            None => {}
        }
    }

    /// Appends a request to the line of its name. Capacity must be reserved.
    pub fn push(&mut self, place: usize, name: &Name, order: u128)
        requires { 0 < room_at self.old name.now }
        ensures lines { (n : List ℕ) → line_at self.new n
            ≡ (if bytes_eq name.now n then with_waiter (line_at self.old n) order else line_at self.old n) }
        ensures room { (n : List ℕ)
            → room_at self.old n ≤ room_at self.new n + (if bytes_eq name.now n then 1 else 0) }
        ensures kept { (n : List ℕ) → HasLine self.old n → HasLine self.new n }
        ensures idle { (n : List ℕ) → is_idle_line self.new n ≡ (is_idle_line self.old n && not (bytes_eq name.now n)) }
    {
        match self.find(place, name) {
            Some(index) => self.lines[index].push(order),
            None => {}
        }
    }

    /// Adds a line for the name if there is none. Fails if out of memory.
    pub fn open(&mut self, place: usize, name: &Name) -> Result<(), AllocError>
        ensures lines { (n : List ℕ) → line_at self.new n ≡ line_at self.old n }
        ensures there { OnOk result (HasLine self.new name.now) }
        ensures kept { (n : List ℕ) → room_at self.old n ≤ room_at self.new n }
        ensures kept_lines { (n : List ℕ) → HasLine self.old n → HasLine self.new n }
        ensures idle { (n : List ℕ) → is_idle_line self.new n ≡ true → (is_idle_line self.old n || bytes_eq name.now n) ≡ true }
    {
        if !self.has_line(place, name) {
            let key = String::from_str(self.alloc, name.as_str())?;
            self.lines.insert(key, NameLine::new(self.alloc))?;
        }
        Ok(())
    }

    /// Returns the place of the name's line, as `place` does, and whether a request with this name and
    /// mode would be granted at once.
    pub fn ask(&self, name: &Name, mode: Mode) -> (usize, bool)
        ensures { result.1
            ≡ (length (line_at self.now name.now).queue == 0 && lets_in (line_at self.now name.now) mode) }
    {
        match self.lines.get_full(name.as_str()) {
            Some((place, _, line)) => (place, line.is_queue_empty() && line.is_free(mode)),
            None => (self.lines.len(), true),
        }
    }

    /// Reserves capacity for `count` more requests for the name. Fails if out of memory.
    pub fn reserve(&mut self, place: usize, name: &Name, count: usize) -> Result<(), AllocError>
        ensures lines { (n : List ℕ) → line_at self.new n ≡ line_at self.old n }
        ensures room { OnOk result (count ≤ room_at self.new name.now) }
        ensures there { OnOk result (HasLine self.new name.now) }
        ensures kept { (n : List ℕ) → room_at self.old n ≤ room_at self.new n }
        ensures kept_lines { (n : List ℕ) → HasLine self.old n → HasLine self.new n }
        ensures idle { (n : List ℕ) → is_idle_line self.new n ≡ true → (is_idle_line self.old n || bytes_eq name.now n) ≡ true }
    {
        self.open(place, name)?;
        match self.find(place, name) {
            Some(index) => self.lines[index].reserve(count),
            None => Err(AllocError),
        }
    }

    /// Adds a line for the name of each row. Fails if out of memory.
    pub fn open_all(&mut self, rows: &[Row]) -> Result<(), AllocError>
        ensures lines { (n : List ℕ) → line_at self.new n ≡ line_at self.old n }
        ensures there { OnOk result ((n : List ℕ) → is_named n rows.now ≡ true → HasLine self.new n) }
        ensures idle { (n : List ℕ) → is_idle_line self.new n ≡ true → (is_idle_line self.old n || is_named n rows.now) ≡ true }
    {
        for row in rows {
            let place = self.place(&row.name);
            self.open(place, &row.name)?;
        }
        Ok(())
    }

    /// Reserves capacity for all these requests. Fails if out of memory.
    pub fn reserve_all(&mut self, rows: &[Row]) -> Result<(), AllocError>
        ensures lines { (n : List ℕ) → line_at self.new n ≡ line_at self.old n }
        ensures room { OnOk result ((n : List ℕ) → count_named n rows.now ≤ room_at self.new n) }
        ensures kept_lines { (n : List ℕ) → HasLine self.old n → HasLine self.new n }
        ensures idle { (n : List ℕ) → is_idle_line self.new n ≡ true → (is_idle_line self.old n || is_named n rows.now) ≡ true }
    {
        let mut counts: IndexMap<&str, usize> = IndexMap::new(self.alloc);
        for row in rows {
            let name = row.name.as_str();
            let count = counts.get(name).copied().unwrap_or(0) + 1;
            counts.insert(name, count)?;
            let place = self.place(&row.name);
            self.reserve(place, &row.name, count)?;
        }
        Ok(())
    }

    /// Counts one holder of the name less.
    pub fn remove_holder(&mut self, place: usize, name: &Name, mode: Mode)
        ensures lines { (n : List ℕ) → line_at self.new n
            ≡ (if bytes_eq name.now n then without_holder (line_at self.old n) mode else line_at self.old n) }
        ensures room { (n : List ℕ) → room_at self.new n ≡ room_at self.old n }
        ensures kept { (n : List ℕ) → HasLine self.old n → HasLine self.new n }
        ensures idle { (n : List ℕ) → is_idle_line self.new n ≡ true → (is_idle_line self.old n || bytes_eq name.now n) ≡ true }
    {
        match self.find(place, name) {
            Some(index) => self.lines[index].remove_holder(mode),
            None => {}
        }
    }

    /// Removes a request from the line of its name.
    pub fn take_out(&mut self, place: usize, name: &Name, order: u128)
        requires { do_rise (line_at self.old name.now).queue ≡ true }
        ensures lines { (n : List ℕ) → line_at self.new n ≡ (if bytes_eq name.now n
            then without_waiter (line_at self.old n) order else line_at self.old n) }
        ensures room { (n : List ℕ) → room_at self.old n ≤ room_at self.new n }
        ensures kept { (n : List ℕ) → HasLine self.old n → HasLine self.new n }
        ensures idle { (n : List ℕ) → is_idle_line self.new n ≡ true → (is_idle_line self.old n || bytes_eq name.now n) ≡ true }
    {
        match self.find(place, name) {
            Some(index) => self.lines[index].take_out(order),
            None => {}
        }
    }

    /// Removes the name's line if it has no holder and no waiting request.
    pub fn forget(&mut self, place: usize, name: &Name)
        ensures lines { (n : List ℕ) → line_at self.new n ≡ line_at self.old n }
        ensures idle { (n : List ℕ)
            → is_idle_line self.new n ≡ (is_idle_line self.old n && not (bytes_eq name.now n)) }
    {
        if self.is_idle(place, name) {
            let _ = self.lines.swap_remove(name.as_str());
        }
    }

    /// Removes the lines of these rows' names that have no holder and no waiting request.
    pub fn forget_all(&mut self, rows: &[Row])
        ensures lines { (n : List ℕ) → line_at self.new n ≡ line_at self.old n }
        ensures idle { (n : List ℕ) → is_idle_line self.new n ≡ true
            → (is_idle_line self.old n && not (is_named n rows.now)) ≡ true }
    {
        for row in rows {
            let place = self.place(&row.name);
            self.forget(place, &row.name);
        }
    }

    // Returns whether the name has a line without holders and waiting requests.
    fn is_idle(&self, place: usize, name: &Name) -> bool
        ensures { result ≡ is_idle_line self.now name.now }
    {
        match self.line(place, name) {
            Some(line) => line.is_idle(),
            None => false,
        }
    }
}
