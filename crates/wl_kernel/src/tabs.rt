//! Tab table, owned by the supervisor.

ghost use Rattle.std.specs.Prelude.{◌≡◌, ◌≢◌, ◌<◌, ◌≤◌, [], length, None, Some, Err, IfOk, OnOk, IfErr, OnErr, IfSome, IsTrue, true, false, option_map, if◌then◌else◌, vec_len, vec_capacity};
ghost use Rattle.std.specs.BTreeMap.{insert_entry};
ghost use Rattle.std.specs.Ordering.{nat_cmp};
ghost use Rattle.wl_draft.specs.Refusals.{RefusesBy, RefusesOnlyBy};
ghost use Rattle.wl_grammar.specs.Grammar.{IsTab, IsUpward, IsPost, IsWellFormed};
ghost use Rattle.wl_grammar.specs.declared.frame.Frame.TheVariants as frame;
ghost use Rattle.wl_kernel.specs.declared.routes.Routed.TheVariants.{Broker};
ghost use Rattle.wl_kernel.specs.Kernel.{OpenedTab, no_tabs, tab_of, is_opened, is_living, living_tabs, living_of, partition_number, number_for, open_refusal, opened, kill_refusal, killed, start_refusal, placed, stranger, missing, is_from_before, rises, may_stop, stopped};
ghost use Rattle.wl_kernel.specs.Routes.{tab_refusal, stamped, hearers, route_up_refusal, routed_up, TakesMemory, IsWellRouted, route_down_refusal, routed_down};
ghost use Rattle.wl_kernel.specs.TableIndexes.{seen_in, partition_of, place_in, IsList};

use crate::fault::{GenerationsUsedUp, KillFault, OpenFault, RouteFault, StartFault};
use crate::homes::Homes;
use crate::routes::{Routed, addressed_in, frame_of, generation_of, heard};
use crate::rows::{Found, TabRow};
use crate::sorted_tabs;
use std::alloc::{AllocError, Global};
use std::collections::BTreeMap;
use std::marker::Model;
use wl_grammar::{Frame, Post, Sequence, Stamped, Upward};
use wl_limits::frames::LIST_LIMIT;
use wl_limits::tabs::{LIVING_LIMIT, PARTITION_LIMIT};
use wl_origin::Partition;

/// All tabs that were ever opened, and the generation of the broker that runs or runs next. `Down` and `Up`
/// own the table and lend it.
#[derive(Drop)]
pub struct Tabs {
    alloc: Global,
    /// In the order of opening.
    rows: Vec<TabRow>,
    /// The index of each tab's row.
    places: BTreeMap<u16, usize>,
    /// The number and the living tabs of each partition.
    homes: Homes,
    /// All living tabs, by rising number.
    living: Vec<u16>,
    generation: u32,
    last: u32,
}

impl Model for Tabs {
    ghost use Rattle.wl_kernel.specs.Kernel.{KernelState};
    ghost use Rattle.wl_kernel.specs.TableIndexes.{all_seen, IsConsistent};

    ghost Value = { KernelState };

    ghost view = { λ t. record { opened = all_seen t.homes t.rows.items; generation = t.generation; last = t.last } };

    ghost invariant = { λ t. IsConsistent t.rows.items t.places.entries t.homes t.living.items t.generation t.last };
}

impl Tabs {
    /// Returns a table without tabs, in generation 1.
    pub(crate) fn new(alloc: Global, last: u32) -> Tabs
        requires { 1 ≤ last }
        ensures { result ≡ no_tabs last }
    {
        Tabs {
            alloc,
            rows: Vec::new(alloc),
            places: BTreeMap::new(alloc),
            homes: Homes::new(alloc),
            living: Vec::new(alloc),
            generation: 1,
            last,
        }
    }

    /// Returns the generation of the broker that runs, or of the next one.
    pub fn generation(&self) -> u32
        ensures value { result ≡ self.now.generation }
        ensures from_one { 1 ≤ result }
    {
        self.generation
    }

    /// Returns whether the tab was opened and has not died.
    pub fn is_living(&self, tab: u16) -> bool
        ensures { result ≡ is_living self.now tab }
    {
        match self.found(tab) {
            Some(found) => found.row.is_living,
            None => false,
        }
    }

    /// Returns the living tabs, by rising number.
    pub fn living(&self) -> &[u16]
        ensures { result.now ≡ living_tabs self.now }
    {
        self.living.as_slice()
    }

    /// Returns the number of a tab's partition, which is the number of the first tab opened in it. A dead tab
    /// keeps it. Returns `None` if the tab was never opened.
    pub fn partition_number(&self, tab: u16) -> Option<u16>
        ensures { result ≡ (if is_opened self.now tab then Some (partition_number self.now tab) else None) }
    {
        match self.found(tab) {
            Some(found) => Some(found.home.number()),
            None => None,
        }
    }

    /// Opens a tab in a partition and returns the partition's number.
    pub fn open(&mut self, tab: u16, partition: Partition) -> Result<u16, OpenFault>
        ensures ok { OnOk result (self.new ≡ opened tab partition self.old) }
        ensures number { IfOk result (λ n. n ≡ number_for tab partition self.old) }
        ensures refused { RefusesBy result (open_refusal tab partition self.old) OpenFault.Memory }
        ensures err { OnErr result (self.new ≡ self.old) }
    {
        if let Some(fault) = self.open_fault(tab, &partition) {
            drop(partition);
            return Err(fault);
        }
        if let Err(refused) = enter(&mut self.rows, &mut self.living, &mut self.places, tab) {
            drop(partition);
            return Err(OpenFault::from(refused));
        }
        let home = match self.homes.join(self.alloc, partition, tab) {
            Ok(home) => home,
            Err(refused) => {
                self.places.remove(&tab);
                return Err(OpenFault::from(refused));
            }
        };
        self.rows.push_reserved(TabRow {
            tab,
            home,
            generation: self.generation,
            is_living: true,
        });
        sorted_tabs::insert_sorted(&mut self.living, tab);
        Ok(self.homes.at(home).number())
    }

    /// Marks a tab as dead. Allocates no memory.
    pub fn kill(&mut self, tab: u16) -> Result<(), KillFault>
        ensures ok { OnOk result (self.new ≡ killed tab self.old) }
        ensures refused { RefusesOnlyBy result (kill_refusal tab self.old) }
        ensures err { OnErr result (self.new ≡ self.old) }
    {
        let place = self.living_place(tab)?;
        let row = &mut self.rows[place];
        row.is_living = false;
        self.homes.leave(row.home, tab);
        sorted_tabs::remove_sorted(&mut self.living, tab);
        Ok(())
    }

    /// Routes a tab's frame. Commands, reports and parts of reports go to the broker. A post goes to each
    /// other living tab of the partition.
    pub fn route_up(&self, tab: u16, frame: Frame) -> Result<Routed, RouteFault>
        ensures routed { IfOk result (λ routed. routed ≡ routed_up tab frame self.now) }
        ensures refused { RefusesBy result (route_up_refusal tab frame self.now) RouteFault.Memory }
        ensures growth { result ≡ Err RouteFault.Memory → TakesMemory tab frame self.now }
        ensures well_formed { IfOk result (λ routed. IsWellFormed frame → IsWellRouted routed) }
    {
        match frame {
            Frame::Command(command) => self.to_broker(tab, Upward::Command(command)),
            Frame::Report(report) => self.to_broker(tab, Upward::Report(report)),
            Frame::ReportPart(part) => self.to_broker(tab, Upward::ReportPart(part)),
            Frame::Post(post) => self.to_others(tab, post),
            _ => Err(RouteFault::WrongKind),
        }
    }

    /// Routes a broker's frame to a living tab. Allocates no memory.
    pub(crate) fn route_down(&self, link: u32, frame: Frame) -> Result<(u16, Frame), RouteFault>
        ensures routed { IfOk result (λ r. routed_down frame ≡ Some r) }
        ensures refused { RefusesOnlyBy result (route_down_refusal link frame self.now) }
        ensures well_formed { IfOk result (λ r. IsWellFormed frame → IsTab r.0 × IsWellFormed r.1) }
    {
        if link != self.generation {
            drop(frame);
            return Err(RouteFault::StaleLink);
        }
        let Some(addressed) = addressed_in(frame) else {
            return Err(RouteFault::WrongKind);
        };
        if generation_of(&addressed.inner) != link {
            drop(addressed);
            return Err(RouteFault::WrongKind);
        }
        if let Err(fault) = self.found_living(addressed.tab) {
            drop(addressed);
            return Err(fault);
        }
        Ok((addressed.tab, frame_of(addressed.inner)))
    }

    /// Returns the start list for a broker: each listed tab with the number of its partition.
    pub fn start_list(&self, listed: &[u16]) -> Result<Sequence<(u16, u16)>, StartFault>
        ensures placed { IfOk result (λ list. list ≡ placed listed.now self.now) }
        ensures well_formed { IfOk result IsList }
        ensures refused { RefusesBy result (start_refusal listed.now self.now) StartFault.Memory }
        ensures growth { result ≡ Err StartFault.Memory → 0 < length listed.now }
    {
        if listed.len() > LIST_LIMIT {
            return Err(StartFault::TooManyListed);
        }
        if !sorted_tabs::rises(listed) {
            return Err(StartFault::NotRising);
        }
        if let Some(tab) = self.stranger(listed) {
            return Err(StartFault::Stranger(tab));
        }
        if let Some(tab) = self.missing(listed) {
            return Err(StartFault::Missing(tab));
        }
        let list = self.placed(listed)?;
        Ok(Sequence::new(list))
    }

    /// Advances to the next generation. Fails if the current one is the last. Allocates no memory.
    pub(crate) fn stop(&mut self) -> Result<(), GenerationsUsedUp>
        ensures ok { OnOk result ((self.new ≡ stopped self.old) × IsTrue (may_stop self.old)) }
        ensures refused { OnErr result ((self.new ≡ self.old) × (may_stop self.old ≡ false)) }
    {
        if self.generation == self.last {
            return Err(GenerationsUsedUp);
        }
        self.generation += 1;
        Ok(())
    }

    /// Returns the reason for which a tab cannot be opened, apart from out of memory.
    fn open_fault(&self, tab: u16, partition: &Partition) -> Option<OpenFault>
        ensures { result ≡ open_refusal tab partition.now self.now }
    {
        if tab == 0 || self.found(tab).is_some() {
            return Some(OpenFault::NumberTaken);
        }
        if self.living().len() >= LIVING_LIMIT {
            return Some(OpenFault::TooManyLiving);
        }
        if self.members(partition).len() >= PARTITION_LIMIT {
            return Some(OpenFault::PartitionFull);
        }
        None
    }

    /// Returns the living tabs of a partition, by rising number.
    fn members(&self, partition: &Partition) -> &[u16]
        ensures { result.now ≡ living_of self.now partition.now }
    {
        self.homes.members(partition)
    }

    /// Returns the index of a living tab's row.
    fn living_place(&self, tab: u16) -> Result<usize, KillFault>
        ensures place { IfOk result (λ place. place_in self.now.opened tab ≡ Some place) }
        ensures refused { RefusesOnlyBy result (kill_refusal tab self.now) }
    {
        let Some(place) = self.places.get(&tab) else {
            return Err(KillFault::NoTab);
        };
        if !self.rows[*place].is_living {
            return Err(KillFault::AlreadyDead);
        }
        Ok(*place)
    }

    /// Returns the row of a tab and the home of its partition, if it was ever opened.
    fn found(&self, tab: u16) -> Option<Found<'_>>
        ensures row { option_map (λ found.
            seen_in (partition_of self.now tab) found.row.now) result ≡ tab_of self.now tab }
        ensures home { IfSome result (λ found. found.home.now
            ≡ (partition_number self.now tab, living_of self.now (partition_of self.now tab))) }
        ensures from_one { (o : OpenedTab) → tab_of self.now tab ≡ Some o
            → (1 ≤ tab) × (1 ≤ partition_number self.now tab) }
    {
        let place = self.places.get(&tab)?;
        let row = &self.rows[*place];
        let home = self.homes.at(row.home);
        Some(Found { row, home })
    }

    /// Returns the row of a living tab and the home of its partition.
    fn found_living(&self, tab: u16) -> Result<Found<'_>, RouteFault>
        ensures row { IfOk result (λ found.
            tab_of self.now tab ≡ Some (seen_in (partition_of self.now tab) found.row.now)) }
        ensures home { IfOk result (λ found. found.home.now
            ≡ (partition_number self.now tab, living_of self.now (partition_of self.now tab))) }
        ensures refused { RefusesOnlyBy result (tab_refusal self.now tab) }
        ensures no_memory { IfErr result (λ e. e ≢ RouteFault.Memory) }
        ensures from_one { (o : OpenedTab) → tab_of self.now tab ≡ Some o
            → (1 ≤ tab) × (1 ≤ partition_number self.now tab) }
    {
        match self.found(tab) {
            Some(found) if found.row.is_living => Ok(found),
            Some(_) => Err(RouteFault::DeadTab),
            None => Err(RouteFault::NoTab),
        }
    }

    /// Stamps a living tab's frame for the broker.
    fn to_broker(&self, tab: u16, inner: Upward) -> Result<Routed, RouteFault>
        ensures routed { IfOk result (λ routed. routed ≡ Broker (stamped self.now tab inner)) }
        ensures refused { RefusesOnlyBy result (tab_refusal self.now tab) }
        ensures no_memory { IfErr result (λ e. e ≢ RouteFault.Memory) }
        ensures well_formed { IfOk result (λ routed. IsUpward inner → IsWellRouted routed) }
    {
        let found = self.found_living(tab)?;
        let partition = found.home.number();
        Ok(Routed::Broker(Frame::Stamped(Stamped {
            tab,
            partition,
            inner,
        })))
    }

    /// Routes a living tab's post to the other living tabs of its partition.
    fn to_others(&self, tab: u16, post: Post) -> Result<Routed, RouteFault>
        ensures routed { IfOk result (λ routed. routed ≡ routed_up tab (frame.Post post) self.now) }
        ensures refused { RefusesBy result (tab_refusal self.now tab) RouteFault.Memory }
        ensures growth { result ≡ Err RouteFault.Memory → hearers tab self.now ≢ [] }
        ensures well_formed { IfOk result (λ routed. IsPost post → IsWellRouted routed) }
    {
        let found = self.found_living(tab)?;
        let members = found.home.members();
        let heard = heard(self.alloc, tab, post, members)?;
        Ok(Routed::Tabs(Sequence::new(heard)))
    }

    /// Returns the least listed tab that was never opened.
    fn stranger(&self, listed: &[u16]) -> Option<u16>
        ensures { result ≡ stranger self.now listed.now }
    {
        for tab in listed {
            if self.found(*tab).is_none() {
                return Some(*tab);
            }
        }
        None
    }

    /// Returns the least living tab that was opened before the last stop and is not listed.
    fn missing(&self, listed: &[u16]) -> Option<u16>
        requires { rises listed.now ≡ true }
        ensures { result ≡ missing self.now listed.now }
    {
        let living = self.living();
        for tab in living {
            if self.is_from_before(*tab) && !sorted_tabs::contains(listed, *tab) {
                return Some(*tab);
            }
        }
        None
    }

    /// Returns whether a stop has occurred since the tab was opened.
    fn is_from_before(&self, tab: u16) -> bool
        ensures { result ≡ is_from_before self.now tab }
    {
        match self.found(tab) {
            Some(found) => found.row.generation < self.generation,
            None => false,
        }
    }

    /// Returns each of these tabs with the number of its partition.
    fn placed(&self, listed: &[u16]) -> Result<Vec<(u16, u16)>, AllocError>
        requires { start_refusal listed.now self.now ≡ None }
        ensures placed { IfOk result (λ list. list.items ≡ placed listed.now self.now) }
        ensures well_formed { IfOk result (λ list. IsList list.items) }
        ensures growth { OnErr result (0 < length listed.now) }
    {
        let mut list = Vec::with_capacity(self.alloc, listed.len())?;
        for tab in listed {
            list.push((*tab, self.number_of(*tab)))?;
        }
        Ok(list)
    }

    /// Returns the number of a tab's partition, or 0 if the tab was never opened.
    fn number_of(&self, tab: u16) -> u16
        ensures { result ≡ partition_number self.now tab }
    {
        match self.found(tab) {
            Some(found) => found.home.number(),
            None => 0,
        }
    }
}

/// Reserves memory for one more row and one more living tab, and records the index of the new row.
fn enter(
    rows: &mut Vec<TabRow>,
    living: &mut Vec<u16>,
    places: &mut BTreeMap<u16, usize>,
    tab: u16,
) -> Result<(), AllocError>
    ensures rows { rows.new.items ≡ rows.old.items }
    ensures room { OnOk result (vec_len rows.new < vec_capacity rows.new) }
    ensures living { living.new.items ≡ living.old.items }
    ensures living_room { OnOk result (vec_len living.new < vec_capacity living.new) }
    ensures places { OnOk result
        (places.new.entries ≡ insert_entry nat_cmp places.old.entries tab (length rows.old.items)) }
    ensures err { OnErr result (places.new.entries ≡ places.old.entries) }
{
    rows.reserve(1)?;
    living.reserve(1)?;
    places.insert(tab, rows.len())?;
    Ok(())
}
