//! Places of one client's entries.

ghost use Rattle.std.specs.Prelude.{◌≡◌, ◌+◌, ◌-◌, ◌<◌, ◌≤◌, ◌^◌, ◌&&◌, ◌||◌, ◌==◌, not, ℕ, Bool, true, false, Some, None, OnOk, IfSome, IfNone, is_some, map, nat_eq};
ghost use Rattle.std.specs.HashMap.{get, spare};
ghost use Rattle.wl_table_index.specs.Clients.{is_same, is_place, is_latest, has_place, further_room, granted_place, granted_further, lesser_of, takes, IsLeast, IsStanding, IsTaken};
ghost use Rattle.wl_table_index.specs.declared.holdings.Removal.TheVariants.{End};

use indexmap::IndexMap;
use std::alloc::{AllocError, Global};
use wl_draft::Standing;

/// Order number of an entry in the held locks or in the waiting requests.
#[derive(Clone, Copy)]
pub struct Place {
    pub order: u128,
    /// Whether the lock is held. If not, its request waits.
    pub is_held: bool,
}

/// A further place of a number.
#[derive(Clone, Copy)]
pub struct FurtherPlace {
    pub number: u32,
    pub place: Place,
}

/// Entries of a client that a command removes.
#[derive(Clone, Copy)]
pub enum Removal {
    /// The locks that are held under this number.
    Release(u32),
    /// All entries with this number.
    Abort(u32),
    /// All entries.
    End,
}

/// The places of a client's entries, by the client's numbers. A lookup takes constant time, unless a
/// report has named a number twice.
#[derive(Drop)]
pub struct Holdings {
    /// The latest place of each number.
    pub places: IndexMap<u32, Place>,
    /// The other places of numbers that a report has named more than once.
    pub further: Vec<FurtherPlace>,
    /// Number of entries.
    pub count: usize,
}

impl Holdings {
    /// Returns holdings without entries.
    pub fn new(alloc: Global) -> Holdings
        ensures places { (n o : ℕ) (b : Bool) → has_place result n o b ≡ false }
        ensures numbers { (n : ℕ) → get nat_eq result.places n ≡ None }
        ensures count { result.count ≡ 0 }
    {
        Holdings {
            places: IndexMap::new(alloc),
            further: Vec::new(alloc),
            count: 0,
        }
    }

    /// Returns whether the lock with this number is held, waiting or absent.
    pub fn standing(&self, number: u32) -> Standing
        ensures { IsStanding (has_place self.now number) result }
    {
        let place = self.places.get(&number).copied();
        if self.least(place, number, true).is_some() {
            Standing::Held
        } else if self.least(place, number, false).is_some() {
            Standing::Waiting
        } else {
            Standing::Absent
        }
    }

    /// Returns the order number of the first request with this number.
    pub fn first_waiting(&self, number: u32) -> Option<u128>
        ensures { IsLeast (λ o. has_place self.now number o false) result }
    {
        self.least(self.places.get(&number).copied(), number, false)
    }

    /// Returns the place of some entry that the command removes.
    pub fn find(&self, removal: Removal) -> Option<Place>
        ensures some { IfSome result (λ p. IsTaken removal (has_place self.now) p) }
        ensures none { IfNone result ((n o : ℕ) (b : Bool) → takes removal b n ≡ true → has_place self.now n o b ≡ false) }
    {
        match removal {
            Removal::Release(number) => self.find_held(self.places.get(&number).copied(), number),
            Removal::Abort(number) => self.find_number(number),
            Removal::End => self.find_any(),
        }
    }

    fn find_held(&self, place: Option<Place>, number: u32) -> Option<Place>
        requires { place ≡ get nat_eq self.now.places number }
        ensures some { IfSome result (λ p. has_place self.now number p.order true ≡ true) }
        ensures held { IfSome result (λ p. p.is_held ≡ true) }
        ensures none { IfNone result ((o : ℕ) → has_place self.now number o true ≡ false) }
    {
        match self.least(place, number, true) {
            Some(order) => Some(Place {
                order,
                is_held: true,
            }),
            None => None,
        }
    }

    fn find_number(&self, number: u32) -> Option<Place>
        ensures some { IfSome result (λ p. has_place self.now number p.order p.is_held ≡ true) }
        ensures none { IfNone result ((o : ℕ) (b : Bool) → has_place self.now number o b ≡ false) }
    {
        let place = self.places.get(&number).copied();
        match self.find_held(place, number) {
            Some(held) => Some(held),
            None => match self.least(place, number, false) {
                Some(order) => Some(Place {
                    order,
                    is_held: false,
                }),
                None => None,
            },
        }
    }

    fn find_any(&self) -> Option<Place>
        ensures some { IfSome result (λ p. IsTaken End (has_place self.now) p) }
        ensures none { IfNone result ((n o : ℕ) (b : Bool) → has_place self.now n o b ≡ false) }
    {
        match self.places.get_index(0) {
            Some((_, place)) => Some(*place),
            None => match self.further.first() {
                Some(other) => Some(other.place),
                None => None,
            },
        }
    }

    // Returns the least order number of the locks that are held under this number, or of the requests
    // that wait under it. `place` is the place of the number in `places`.
    fn least(&self, place: Option<Place>, number: u32, is_held: bool) -> Option<u128>
        requires { place ≡ get nat_eq self.now.places number }
        ensures { IsLeast (λ o. has_place self.now number o is_held) result }
    {
        let mut least = latest_order(place, is_held);
        for other in &self.further {
            if other.number == number && other.place.is_in(is_held) {
                least = Some(lesser(other.place.order, least));
            }
        }
        least
    }

    /// Reserves capacity for `count` more entries. The client has an entry with the number of `further`
    /// of them. Fails if out of memory.
    pub fn reserve(&mut self, count: usize, further: usize) -> Result<(), AllocError>
        ensures places { (n o : ℕ) (b : Bool) → has_place self.new n o b ≡ has_place self.old n o b }
        ensures numbers { (n : ℕ) → get nat_eq self.new.places n ≡ get nat_eq self.old.places n }
        ensures count { self.new.count ≡ self.old.count }
        ensures room { OnOk result (count ≤ spare self.new.places) }
        ensures further { OnOk result (further ≤ further_room self.new) }
    {
        self.places.reserve(count)?;
        self.further.reserve(further)
    }

    /// Frees the capacity for further places if there are none.
    pub fn shrink(&mut self)
        ensures places { (n o : ℕ) (b : Bool) → has_place self.new n o b ≡ has_place self.old n o b }
        ensures count { self.new.count ≡ self.old.count }
    {
        self.further.shrink_to_fit();
    }

    /// Adds the place of an entry. Capacity must be reserved.
    pub fn push(&mut self, number: u32, place: Place)
        requires room { 0 < spare self.old.places }
        requires further { is_some (get nat_eq self.old.places number) ≡ true → 0 < further_room self.old }
        requires small { self.old.count + 1 < 2 ^ 64 }
        ensures places { (n o : ℕ) (b : Bool) → has_place self.new n o b
            ≡ ((number == n && is_place place o b) || has_place self.old n o b) }
        ensures count { self.new.count ≡ self.old.count + 1 }
        ensures room { spare self.old.places ≤ spare self.new.places + 1 }
        ensures further { further_room self.old ≤ further_room self.new + 1 }
    {
        self.count += 1;
        match self.places.insert(number, place) {
            Ok(Some(place)) => self.further.push(FurtherPlace { number, place }).unwrap(),
            _ => {}
        }
    }

    /// Removes the place of an entry.
    pub fn remove(&mut self, number: u32, place: Place)
        ensures places { (n o : ℕ) (b : Bool) → has_place self.new n o b
            ≡ (not (number == n && is_place place o b) && has_place self.old n o b) }
        ensures count { self.new.count ≡ self.old.count - 1 }
    {
        self.count = self.count.saturating_sub(1);
        self.further.retain(
            |other|
                ensures { result ≡ not (other.now.number == number && is_place other.now.place place.order place.is_held) }
            { !(other.number == number && other.place.is_at(place)) },
        );
        match self.places.get(&number) {
            Some(latest) => {
                if latest.is_at(place) {
                    let _ = self.places.swap_remove(&number);
                }
            }
            None => {}
        }
    }

    /// Moves an entry from the waiting requests to the held locks, where it gets another order number.
    pub fn grant(&mut self, number: u32, order: u128, granted: u128)
        requires { has_place self.old number order false ≡ true }
        ensures held { (n o : ℕ) → has_place self.new n o true
            ≡ ((number == n && granted == o) || has_place self.old n o true) }
        ensures waiting { (n o : ℕ) → has_place self.new n o false
            ≡ (not (number == n && order == o) && has_place self.old n o false) }
        ensures count { self.new.count ≡ self.old.count }
    {
        grant_further(&mut self.further, number, order, granted);
        match self.places.get_mut(&number) {
            Some(place) => *place = place.granted(order, granted),
            None => {}
        }
    }
}

impl Place {
    // Returns whether the entry is held, or waits if `is_held` is not set.
    fn is_in(self, is_held: bool) -> bool
        ensures { result ≡ is_same self.is_held is_held }
    {
        if is_held { self.is_held } else { !self.is_held }
    }

    // Returns whether this is the other place.
    fn is_at(self, other: Place) -> bool
        ensures { result ≡ is_place self other.order other.is_held }
    {
        self.is_in(other.is_held) && self.order == other.order
    }

    // Returns the place after a request is granted.
    fn granted(self, order: u128, granted: u128) -> Place
        ensures { result ≡ granted_place order granted self }
    {
        if !self.is_held && self.order == order {
            Place {
                order: granted,
                is_held: true,
            }
        } else {
            self
        }
    }
}

impl FurtherPlace {
    // Returns the place after a request is granted.
    fn granted(self, number: u32, order: u128, granted: u128) -> FurtherPlace
        ensures { result ≡ granted_further number order granted self }
    {
        if self.number == number {
            FurtherPlace {
                number,
                place: self.place.granted(order, granted),
            }
        } else {
            self
        }
    }
}

// Changes each further place of a request that is granted.
fn grant_further(further: &mut Vec<FurtherPlace>, number: u32, order: u128, granted: u128)
    ensures { further.new.items ≡ map (granted_further number order granted) further.old.items }
{
    for other in further.iter_mut() {
        *other = other.granted(number, order, granted);
    }
}

fn latest_order(place: Option<Place>, is_held: bool) -> Option<u128>
    ensures { IsLeast (λ o. is_latest place o is_held) result }
{
    match place {
        Some(place) => {
            if place.is_in(is_held) {
                Some(place.order)
            } else {
                None
            }
        }
        None => None,
    }
}

fn lesser(order: u128, other: Option<u128>) -> u128
    ensures { result ≡ lesser_of order other }
{
    match other {
        Some(other) => { if other < order { other } else { order } }
        None => order,
    }
}
