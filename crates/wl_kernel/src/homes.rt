//! Homes of partitions: the number and the living tabs of each partition in which a tab was opened.

ghost use Rattle.std.specs.Prelude.{◌≡◌, ◌<◌, IfOk, OnOk, OnErr, Some, None, [], ◌∷◌, ◌++◌, length, option_map, true, vec_len, vec_capacity};
ghost use Rattle.wl_kernel.specs.Kernel.{insert_sorted, rises};
ghost use Rattle.wl_kernel.specs.TableIndexes.{no_homes, home_of, home_place, partition_at, HasOneMore, SetsHome, KeepsPlaces, members, joined, left};

use crate::sorted_tabs;
use std::alloc::{AllocError, Global};
use std::collections::BTreeMap;
use std::marker::Model;
use wl_origin::Partition;

/// A partition's number and its living tabs.
#[derive(Drop)]
pub(crate) struct Home {
    number: u16,
    /// By rising number.
    living: Vec<u16>,
}

impl Model for Home {
    ghost use Rattle.std.specs.Prelude.{ℕ, List};

    ghost Value = { ℕ × List ℕ };

    ghost view = { λ h. (h.number, h.living.items) };
}

impl Home {
    /// Returns the home of a partition whose first tab this is.
    fn new(alloc: Global, tab: u16) -> Result<Home, AllocError>
        ensures { IfOk result (λ home. home ≡ (tab, tab ∷ [])) }
    {
        let mut living = Vec::with_capacity(alloc, 1)?;
        living.push_reserved(tab);
        Ok(Home {
            number: tab,
            living,
        })
    }

    /// Returns the partition's number.
    pub(crate) fn number(&self) -> u16
        ensures { result ≡ self.now.0 }
    {
        self.number
    }

    /// Returns the living tabs, by rising number.
    pub(crate) fn members(&self) -> &[u16]
        ensures { result.now ≡ self.now.1 }
    {
        self.living.as_slice()
    }

    /// Adds a further tab.
    fn join(&mut self, tab: u16) -> Result<(), AllocError>
        requires { rises self.old.1 ≡ true }
        ensures ok { OnOk result (self.new ≡ (self.old.0, insert_sorted tab self.old.1)) }
        ensures err { OnErr result (self.new ≡ self.old) }
    {
        self.living.reserve(1)?;
        sorted_tabs::insert_sorted(&mut self.living, tab);
        Ok(())
    }

    /// Removes a tab. The partition keeps its number. Allocates no memory.
    fn leave(&mut self, tab: u16)
        ensures { self.new ≡ left tab self.old }
    {
        sorted_tabs::remove_sorted(&mut self.living, tab);
    }
}

/// The homes of all partitions in which a tab was opened. The index of a home never changes.
#[derive(Drop)]
pub(crate) struct Homes {
    /// In the order in which the partitions got their first tab.
    list: Vec<Home>,
    /// The index of each partition's home.
    places: BTreeMap<Partition, usize>,
}

impl Model for Homes {
    ghost use Rattle.std.specs.Prelude.{length};
    ghost use Rattle.wl_kernel.specs.TableIndexes.{HomeTable, AreHomePlaces};

    ghost Value = { HomeTable };

    ghost view = { λ h. record { homes = h.list.items; places = h.places.entries } };

    ghost invariant = { λ h. AreHomePlaces h.places.entries (length h.list.items) };
}

impl Homes {
    pub(crate) fn new(alloc: Global) -> Homes
        ensures { result ≡ no_homes }
    {
        Homes {
            list: Vec::new(alloc),
            places: BTreeMap::new(alloc),
        }
    }

    /// Returns the home at an index.
    pub(crate) fn at(&self, place: usize) -> &Home
        requires { place < length self.now.homes }
        ensures { home_of self.now (partition_at self.now place) ≡ Some result.now }
    {
        &self.list[place]
    }

    /// Returns the living tabs of a partition, by rising number.
    pub(crate) fn members(&self, partition: &Partition) -> &[u16]
        ensures { result.now ≡ members (home_of self.now partition.now) }
    {
        match self.places.get(partition) {
            Some(place) => self.list[*place].members(),
            None => &[],
        }
    }

    /// Adds a tab to its partition, as its first or a further one. Returns the index of the partition's home.
    pub(crate) fn join(
        &mut self,
        alloc: Global,
        partition: Partition,
        tab: u16,
    ) -> Result<usize, AllocError>
        requires { rises (members (home_of self.old partition)) ≡ true }
        ensures joined { OnOk result
            (SetsHome self.old self.new partition (Some (joined tab (home_of self.old partition)))) }
        ensures place { IfOk result (λ place.
            (place < length self.new.homes) × (partition_at self.new place ≡ partition)) }
        ensures kept { OnOk result (KeepsPlaces self.old self.new) }
        ensures err { OnErr result (self.new ≡ self.old) }
    {
        match self.places.get(&partition).copied() {
            Some(place) => {
                drop(partition);
                self.list[place].join(tab)?;
                Ok(place)
            }
            None => found(alloc, &mut self.list, &mut self.places, partition, tab),
        }
    }

    /// Removes a tab from the partition whose home has this index. Allocates no memory.
    pub(crate) fn leave(&mut self, place: usize, tab: u16)
        requires { place < length self.old.homes }
        ensures left { SetsHome self.old self.new (partition_at self.old place)
            (option_map (left tab) (home_of self.old (partition_at self.old place))) }
        ensures kept { KeepsPlaces self.old self.new }
    {
        self.list[place].leave(tab);
    }
}

/// Creates the home of a first tab, and reserves memory for it in the list.
fn first_home(alloc: Global, list: &mut Vec<Home>, tab: u16) -> Result<Home, AllocError>
    ensures home { IfOk result (λ home. home ≡ (tab, tab ∷ [])) }
    ensures list { list.new.items ≡ list.old.items }
    ensures room { OnOk result (vec_len list.new < vec_capacity list.new) }
{
    let home = Home::new(alloc, tab)?;
    list.reserve(1)?;
    Ok(home)
}

/// Appends the home of a partition's first tab and returns its index.
fn found(
    alloc: Global,
    list: &mut Vec<Home>,
    places: &mut BTreeMap<Partition, usize>,
    partition: Partition,
    tab: u16,
) -> Result<usize, AllocError>
    requires { home_place places.old.entries partition ≡ None }
    ensures list { OnOk result (list.new.items ≡ list.old.items ++ (tab, tab ∷ []) ∷ []) }
    ensures place { IfOk result (λ place. place ≡ length list.old.items) }
    ensures places { OnOk result
        (HasOneMore partition (length list.old.items) places.old.entries places.new.entries) }
    ensures err { OnErr result
        ((list.new.items ≡ list.old.items) × (places.new.entries ≡ places.old.entries)) }
{
    // The last allocation is the first change, so a failed one changes nothing.
    let home = match first_home(alloc, list, tab) {
        Ok(home) => home,
        Err(refused) => {
            drop(partition);
            return Err(refused);
        }
    };
    let place = list.len();
    if places.insert(partition, place).is_err() {
        drop(home);
        return Err(AllocError);
    }
    list.push_reserved(home);
    Ok(place)
}
