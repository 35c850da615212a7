//! Entries of all clients.

ghost use Rattle.std.specs.Prelude.{true, false, not, ◌&&◌, ◌||◌, ◌≡◌, ◌+◌, ◌-◌, ◌<◌, ◌≤◌, ◌^◌, ◌==◌, ℕ, Bool, OnOk, IfSome, IfNone, if◌then◌else◌};
ghost use Rattle.wl_table_index.specs.Clients.{is_place, is_idle_client, has_place_at, has_number_at, count_at, place_room_at, further_room_at, takes, IsLeast, IsStanding, IsTaken};

use crate::holdings::{Holdings, Place, Removal};
use indexmap::IndexMap;
use std::alloc::{AllocError, Global};
use wl_draft::Standing;

/// The locks and requests of each client.
#[derive(Drop)]
pub struct Clients {
    pub alloc: Global,
    pub clients: IndexMap<u16, Holdings>,
}

impl Clients {
    /// Returns an index without clients.
    pub fn new(alloc: Global) -> Clients
        ensures places { (c n o : ℕ) (b : Bool) → has_place_at result c n o b ≡ false }
        ensures count { (c : ℕ) → count_at result c ≡ 0 }
        ensures idle { (c : ℕ) → is_idle_client result c ≡ false }
    {
        Clients {
            alloc,
            clients: IndexMap::new(alloc),
        }
    }

    /// Returns whether the client's lock with this number is held, waiting or absent.
    pub fn standing(&self, client: u16, number: u32) -> Standing
        ensures { IsStanding (has_place_at self.now client number) result }
    {
        match self.clients.get(&client) {
            Some(holdings) => holdings.standing(number),
            None => Standing::Absent,
        }
    }

    /// Returns the number of entries of the client.
    pub fn live(&self, client: u16) -> usize
        ensures { result ≡ count_at self.now client }
    {
        match self.clients.get(&client) {
            Some(holdings) => holdings.count,
            None => 0,
        }
    }

    /// Returns the order number of the client's first request with this number.
    pub fn first_waiting(&self, client: u16, number: u32) -> Option<u128>
        ensures { IsLeast (λ o. has_place_at self.now client number o false) result }
    {
        match self.clients.get(&client) {
            Some(holdings) => holdings.first_waiting(number),
            None => None,
        }
    }

    /// Returns the place of some entry of the client that the command removes.
    pub fn find(&self, client: u16, removal: Removal) -> Option<Place>
        ensures some { IfSome result (λ p. IsTaken removal (has_place_at self.now client) p) }
        ensures none { IfNone result ((n o : ℕ) (b : Bool) → takes removal b n ≡ true
            → has_place_at self.now client n o b ≡ false) }
    {
        match self.clients.get(&client) {
            Some(holdings) => holdings.find(removal),
            None => None,
        }
    }

    /// Reserves capacity for `count` more entries of the client. It has an entry with the number of
    /// `further` of them. Fails if out of memory.
    pub fn reserve(&mut self, client: u16, count: usize, further: usize) -> Result<(), AllocError>
        ensures places { (c n o : ℕ) (b : Bool) → has_place_at self.new c n o b ≡ has_place_at self.old c n o b }
        ensures numbers { (c n : ℕ) → has_number_at self.new c n ≡ has_number_at self.old c n }
        ensures count { (c : ℕ) → count_at self.new c ≡ count_at self.old c }
        ensures room { OnOk result (count ≤ place_room_at self.new client) }
        ensures further { OnOk result (further ≤ further_room_at self.new client) }
        ensures idle { (c : ℕ) → is_idle_client self.new c ≡ true → (is_idle_client self.old c || client == c) ≡ true }
    {
        match self.clients.get_mut(&client) {
            Some(holdings) => holdings.reserve(count, further),
            None => {
                let mut holdings = Holdings::new(self.alloc);
                holdings.reserve(count, further)?;
                drop(self.clients.insert(client, holdings)?);
                Ok(())
            }
        }
    }

    /// Frees the client's capacity for further places if it has none.
    pub fn shrink(&mut self, client: u16)
        ensures places { (c n o : ℕ) (b : Bool) → has_place_at self.new c n o b ≡ has_place_at self.old c n o b }
        ensures count { (c : ℕ) → count_at self.new c ≡ count_at self.old c }
        ensures idle { (c : ℕ) → is_idle_client self.new c ≡ is_idle_client self.old c }
    {
        match self.clients.get_mut(&client) {
            Some(holdings) => holdings.shrink(),
            None => {}
        }
    }

    /// Adds an entry of the client. Capacity must be reserved.
    pub fn add(&mut self, client: u16, number: u32, place: Place)
        requires room { 0 < place_room_at self.old client }
        requires further { has_number_at self.old client number ≡ true → 0 < further_room_at self.old client }
        requires small { count_at self.old client + 1 < 2 ^ 64 }
        ensures places { (c n o : ℕ) (b : Bool) → has_place_at self.new c n o b
            ≡ ((client == c && number == n && is_place place o b)
            || has_place_at self.old c n o b) }
        ensures count { (c : ℕ) → count_at self.new c ≡ count_at self.old c + (if client == c then 1 else 0) }
        ensures room { (c : ℕ) → place_room_at self.old c ≤ place_room_at self.new c + 1 }
        ensures further { (c : ℕ) → further_room_at self.old c ≤ further_room_at self.new c + 1 }
        ensures idle { (c : ℕ) → is_idle_client self.new c ≡ (is_idle_client self.old c && not (client == c)) }
    {
        match self.clients.get_mut(&client) {
            Some(holdings) => holdings.push(number, place),
            None => {}
        }
    }

    /// Removes an entry of the client.
    pub fn drop_entry(&mut self, client: u16, number: u32, place: Place)
        ensures places { (c n o : ℕ) (b : Bool) → has_place_at self.new c n o b
            ≡ (not (client == c && number == n && is_place place o b)
            && has_place_at self.old c n o b) }
        ensures count { (c : ℕ) → count_at self.new c ≡ count_at self.old c - (if client == c then 1 else 0) }
        ensures idle { (c : ℕ) → is_idle_client self.new c ≡ true → (is_idle_client self.old c || client == c) ≡ true }
    {
        match self.clients.get_mut(&client) {
            Some(holdings) => holdings.remove(number, place),
            None => {}
        }
    }

    /// Moves a request of the client to its held locks, where it gets another order number.
    pub fn grant(&mut self, client: u16, number: u32, order: u128, granted: u128)
        requires { has_place_at self.old client number order false ≡ true }
        ensures held { (c n o : ℕ) → has_place_at self.new c n o true
            ≡ ((client == c && number == n && granted == o) || has_place_at self.old c n o true) }
        ensures waiting { (c n o : ℕ) → has_place_at self.new c n o false
            ≡ (not (client == c && number == n && order == o) && has_place_at self.old c n o false) }
        ensures count { (c : ℕ) → count_at self.new c ≡ count_at self.old c }
        ensures idle { (c : ℕ) → is_idle_client self.new c ≡ is_idle_client self.old c }
    {
        match self.clients.get_mut(&client) {
            Some(holdings) => holdings.grant(number, order, granted),
            None => {}
        }
    }

    /// Removes the client if it has no entry.
    pub fn forget(&mut self, client: u16)
        requires { count_at self.old client ≡ 0 → (n o : ℕ) (b : Bool) → has_place_at self.old client n o b ≡ false }
        ensures places { (c n o : ℕ) (b : Bool) → has_place_at self.new c n o b ≡ has_place_at self.old c n o b }
        ensures count { (c : ℕ) → count_at self.new c ≡ count_at self.old c }
        ensures idle { (c : ℕ) → is_idle_client self.new c ≡ (is_idle_client self.old c && not (client == c)) }
    {
        if self.is_idle(client) {
            drop(self.clients.swap_remove(&client));
        }
    }

    // Returns whether the client is stored without an entry.
    fn is_idle(&self, client: u16) -> bool
        ensures { result ≡ is_idle_client self.now client }
    {
        match self.clients.get(&client) {
            Some(holdings) => holdings.count == 0,
            None => false,
        }
    }
}
