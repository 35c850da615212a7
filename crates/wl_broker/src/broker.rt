//! Broker of one generation.

ghost use Rattle.std.specs.Prelude.{◌≡◌, ◌≢◌, ◌<◌, IfOk, IfErr, OnErr, List, [], ◌∷◌, true, false, length, replicate};
ghost use Rattle.wl_limits.specs.declared.tabs.TheConstants.{LAST_NUMBER};
ghost use Rattle.wl_grammar.specs.declared.frame.Addressed.{Addressed};
ghost use Rattle.wl_grammar.specs.declared.frame.Operation.TheVariants.{Query};
ghost use Rattle.wl_grammar.specs.Grammar.{TabsRiseFrom};
ghost use Rattle.wl_broker_reports.specs.ReportParts.{fits, has_part, with_told, all_below};
ghost use Rattle.wl_broker_reports.specs.PartialReports.{told, joining};
ghost use Rattle.wl_broker.specs.declared.seat.TabSeat.TheVariants.{Joined, Dead};
ghost use Rattle.wl_broker.specs.Broker.{started, hellos, taking, death_step, Does, Drops, copied, repeated, IsTaken, is_active, is_dead, is_joined, seat_of, listed_at, elsewhere, is_misplaced, take_report_part, take_command, partial_of, join_if, keeping, join, perform, later_answer, next_of, buried_at, with_seat, manager_of};
ghost use Rattle.wl_broker.specs.BrokerInvariant.{Had};

use crate::answers::{TabAnswer, hellos};
use crate::changes::{
    command_at, end_at, is_active_in, is_too_many, outcome_in, restore_at, row_at, snapshots_at,
    waiting_in,
};
use crate::dropped::Dropped;
use crate::judging::{is_bad_report, is_held_by_newcomer, is_misplaced, is_out_of_turn};
use crate::listed::{awaited_at, count_arrival, listed_at, missing_at, missing_without, read_list};
use crate::outs::Outs;
use crate::partition_locks::PartitionLocks;
use crate::seat::TabSeat;
use crate::seats::{is_dead, is_joined, limit_in, next_in, put_back, seat_of, set_seat};
use crate::spare_buffers::SpareBuffers;
use std::alloc::{AllocError, Global};
use std::collections::BTreeMap;
use std::marker::Model;
use wl_broker_reports::PartHeader;
use wl_broker_reports::partial_report::{PartialReport, discard, has_part, is_last, keep, kept_of};
use wl_grammar::{Entry, Operation, Stamped, Upward};
use wl_table::LockTable;

/// The broker (lock manager) of one generation, over any kind of lock table. Contracts see it as
/// the state of the definition.
#[derive(Drop)]
pub struct Broker<T: LockTable> {
    alloc: Global,
    generation: u32,
    /// The tabs that the broker waits for, each with its partition.
    listed: BTreeMap<u16, u16>,
    /// Number of listed tabs that have not arrived, by partition.
    missing: BTreeMap<u16, usize>,
    seats: BTreeMap<u16, TabSeat>,
    partitions: BTreeMap<u16, PartitionLocks<T>>,
    /// The incomplete reports, by tab.
    kept: BTreeMap<u16, PartialReport>,
    /// Spare output buffers.
    rooms: SpareBuffers,
}

impl<T: LockTable> Model for Broker<T> {
    ghost use Rattle.wl_broker.specs.Broker.{BrokerState};
    ghost use Rattle.wl_broker.specs.BrokerInvariant.{broker_of, IsConsistent, AwaitsParts, AreCounts};

    ghost Value = { BrokerState };

    ghost view = { λ b. broker_of b.generation b.listed.entries b.seats.entries b.partitions.entries b.kept.entries };

    ghost invariant = { λ b. IsConsistent b.listed.entries b.seats.entries b.partitions.entries
        × AwaitsParts b.seats.entries b.kept.entries × AreCounts b.listed.entries b.seats.entries b.missing.entries };
}

impl<T: LockTable> Broker<T> {
    /// Starts the broker of a generation, and returns it with a hello for each listed tab. A
    /// partition is served only after each of its listed tabs has reported or died. Fails if out of
    /// memory.
    pub fn start(
        alloc: Global,
        generation: u32,
        list: &[(u16, u16)],
    ) -> Result<(Broker<T>, Outs), AllocError>
        requires { TabsRiseFrom 1 list.now }
        ensures broker { IfOk result (λ r. r.0 ≡ started generation list.now) }
        ensures hellos { IfOk result (λ r. r.1 ≡ hellos generation list.now) }
    {
        let (listed, missing) = read_list(alloc, list)?;
        let hellos = hellos(alloc, generation, list)?;
        let broker = Broker {
            alloc,
            generation,
            listed,
            missing,
            seats: BTreeMap::new(alloc),
            partitions: BTreeMap::new(alloc),
            kept: BTreeMap::new(alloc),
            rooms: SpareBuffers::new(alloc),
        };
        Ok((broker, Outs::new(hellos)))
    }

    /// Takes a stamped command, report or report part, and returns the frames to send. A repeated
    /// command is answered again, and changes nothing. A report part is kept until all parts have
    /// been received. Fails with a reason if the message is dropped, and then changes nothing.
    pub fn take(&mut self, stamped: &Stamped) -> Result<Outs, Dropped>
        ensures taken { IfOk result (λ outs. taking self.old stamped.now ≡ Does self.new outs) }
        // The message is dropped for the first reason that applies.
        ensures dropped { IfErr result (λ d. d ≢ Dropped.Memory → taking self.old stamped.now ≡ Drops d) }
        // It is dropped for lack of memory only if no other reason applies.
        ensures memory { IfErr result (λ d. d ≡ Dropped.Memory → IsTaken (taking self.old stamped.now)) }
        ensures err { OnErr result (self.new ≡ self.old) }
    {
        match self.take_copies(stamped, 1) {
            Ok(all) => Ok(only(all)),
            Err(dropped) => Err(dropped),
        }
    }

    /// Takes a message like `take`, and returns its frames in `copies` equal lists. It allocates
    /// all memory before it changes anything.
    pub fn take_copies(&mut self, stamped: &Stamped, copies: usize) -> Result<Vec<Outs>, Dropped>
        ensures taken { IfOk result (λ all.
            copied copies (taking self.old stamped.now) ≡ Some (self.new, all.items)) }
        // The message is dropped for the first reason that applies.
        ensures dropped { IfErr result (λ d. d ≢ Dropped.Memory → taking self.old stamped.now ≡ Drops d) }
        // It is dropped for lack of memory only if no other reason applies.
        ensures memory { IfErr result (λ d. d ≡ Dropped.Memory → IsTaken (taking self.old stamped.now)) }
        ensures err { OnErr result (self.new ≡ self.old) }
    {
        let generation = stamped.inner.generation();
        if generation < self.generation {
            return Err(Dropped::OldGeneration);
        }
        if generation > self.generation {
            return Err(Dropped::LaterGeneration);
        }
        let seat = seat_of(&self.seats, stamped.tab);
        if is_dead(seat) {
            return Err(Dropped::DeadTab);
        }
        let place = listed_at(&self.listed, stamped.tab);
        if is_misplaced(place, seat, &self.kept, stamped.tab, stamped.partition) {
            return Err(Dropped::Misplaced);
        }
        match &stamped.inner {
            Upward::Command(command) => self.take_command(
                stamped.tab,
                stamped.partition,
                seat,
                command.number,
                &command.operation,
                copies,
            ),
            Upward::Report(report) => self.take_report_part(
                stamped.tab,
                stamped.partition,
                seat,
                place,
                PartHeader::at_once(report),
                report.entries.as_slice(),
                copies,
            ),
            Upward::ReportPart(part) => self.take_report_part(
                stamped.tab,
                stamped.partition,
                seat,
                place,
                PartHeader::in_part(part),
                part.entries.as_slice(),
                copies,
            ),
        }
    }

    /// Records the death of a tab, removes its locks and requests, and returns the frames to send.
    /// A second call for the same tab changes nothing. Fails if out of memory.
    pub fn dead(&mut self, tab: u16) -> Result<Outs, AllocError>
        ensures dead { IfOk result (λ outs. death_step self.old tab ≡ (self.new, outs)) }
        ensures err { OnErr result (self.new ≡ self.old) }
    {
        match self.dead_copies(tab, 1) {
            Ok(all) => Ok(only(all)),
            Err(error) => Err(error),
        }
    }

    /// Records a death like `dead`, and returns the frames in `copies` equal lists. It allocates
    /// all memory before it changes anything.
    pub fn dead_copies(&mut self, tab: u16, copies: usize) -> Result<Vec<Outs>, AllocError>
        ensures dead { IfOk result (λ all. repeated copies (death_step self.old tab) ≡ (self.new, all.items)) }
        ensures err { OnErr result (self.new ≡ self.old) }
    {
        match seat_of(&self.seats, tab) {
            Some(TabSeat::Dead) => self.say_nothing(copies),
            Some(TabSeat::Joined { partition, .. }) => self.remove_tab(tab, partition, copies),
            None => match listed_at(&self.listed, tab) {
                Some(partition) => self.remove_tab(tab, partition, copies),
                None => self.remove_unknown_tab(tab, copies),
            },
        }
    }

    /// Returns whether the partition is active: each of its listed tabs has arrived, and locks are
    /// granted.
    pub fn is_active(&self, partition: u16) -> bool
        ensures { result ≡ is_active self.now partition }
    {
        missing_at(&self.missing, partition) == 0
    }

    /// Returns whether the tab has joined: the broker has its whole report, and does not know it to
    /// be dead.
    pub fn is_joined(&self, tab: u16) -> bool
        ensures { result ≡ is_joined (seat_of self.now tab) }
    {
        is_joined(seat_of(&self.seats, tab))
    }

    /// Takes a report or a part of one, from a tab that is neither dead nor misplaced.
    fn take_report_part(
        &mut self,
        tab: u16,
        partition: u16,
        seat: Option<TabSeat>,
        place: Option<u16>,
        heading: PartHeader,
        entries: &[Entry],
        copies: usize,
    ) -> Result<Vec<Outs>, Dropped>
        requires seat { seat ≡ seat_of self.old tab }
        requires place { place ≡ listed_at tab self.old.listed }
        requires alive { is_dead (seat_of self.old tab) ≡ false }
        requires placed { is_misplaced self.old tab partition ≡ false }
        ensures taken { IfOk result (λ all.
            copied copies (take_report_part self.old tab partition (told heading entries.now))
            ≡ Some (self.new, all.items)) }
        ensures dropped { IfErr result (λ d.
            d ≢ Dropped.Memory → take_report_part self.old tab partition (told heading entries.now) ≡ Drops d) }
        ensures memory { IfErr result (λ d.
            d ≡ Dropped.Memory → IsTaken (take_report_part self.old tab partition (told heading entries.now))) }
        ensures err { OnErr result (self.new ≡ self.old) }
    {
        if is_joined(seat) {
            return Err(Dropped::AlreadyJoined);
        }
        if is_held_by_newcomer(place, entries) {
            return Err(Dropped::HeldByNewcomer);
        }
        if is_bad_report(&self.kept, tab, heading, entries) {
            return Err(Dropped::BadReport);
        }
        if has_part(&self.kept, tab, heading.part) {
            return Err(Dropped::PartTwice);
        }
        self.join_if(tab, partition, place, heading, entries, copies)
            .map_err(|_| Dropped::Memory)
    }

    /// Takes a command of a tab that is neither dead nor misplaced.
    fn take_command(
        &mut self,
        tab: u16,
        partition: u16,
        seat: Option<TabSeat>,
        number: u32,
        operation: &Operation,
        copies: usize,
    ) -> Result<Vec<Outs>, Dropped>
        requires seat { seat ≡ seat_of self.old tab }
        requires placed { is_misplaced self.old tab partition ≡ false }
        ensures taken { IfOk result (λ all.
            copied copies (take_command self.old tab partition number operation.now)
            ≡ Some (self.new, all.items)) }
        ensures dropped { IfErr result (λ d.
            d ≢ Dropped.Memory → take_command self.old tab partition number operation.now ≡ Drops d) }
        ensures memory { IfErr result (λ d.
            d ≡ Dropped.Memory → IsTaken (take_command self.old tab partition number operation.now)) }
        ensures err { OnErr result (self.new ≡ self.old) }
    {
        if !is_joined(seat) {
            return Err(Dropped::NotJoined);
        }
        let row = row_at(&self.partitions, partition);
        if !is_active_in(row) {
            return Err(Dropped::Recovering);
        }
        let next = next_in(seat);
        if is_out_of_turn(next, number) {
            return Err(Dropped::OutOfTurn);
        }
        if number < next {
            return self
                .answer_again(tab, partition, next, number, operation, copies)
                .map_err(|_| Dropped::Memory);
        }
        let limit = limit_in(seat);
        if is_too_many(row, tab, limit, operation) {
            return Err(Dropped::TooMany);
        }
        let waiting = waiting_in(row);
        self.perform(tab, partition, number, limit, waiting, operation, copies)
            .map_err(|_| Dropped::Memory)
    }

    /// Lets the tab join if this is the last missing part, and otherwise keeps the part.
    fn join_if(
        &mut self,
        tab: u16,
        partition: u16,
        place: Option<u16>,
        heading: PartHeader,
        entries: &[Entry],
        copies: usize,
    ) -> Result<Vec<Outs>, AllocError>
        requires new { seat_of self.old tab ≡ None }
        requires place { place ≡ listed_at tab self.old.listed }
        requires placed { elsewhere (listed_at tab self.old.listed) partition ≡ false }
        requires below { all_below heading.base entries.now ≡ true }
        requires fits { fits (told heading entries.now) (partial_of self.old tab) ≡ true }
        requires missing { has_part (told heading entries.now) (partial_of self.old tab) ≡ false }
        ensures joined { let k = with_told partition (told heading entries.now) (partial_of self.old tab) in
            IfOk result (λ all. copied copies (join_if self.old tab partition k)
            ≡ Some (self.new, all.items)) }
        ensures err { OnErr result (self.new ≡ self.old) }
    {
        if !is_last(&self.kept, tab, heading) {
            return self.keep(tab, partition, heading, entries, copies);
        }
        match kept_of(&self.kept, tab) {
            Some(kept) => {
                let gathered = kept.gathered(self.alloc, heading.part, entries)?;
                self.join(tab, partition, place, heading, &gathered, copies)
            }
            None => self.join(tab, partition, place, heading, entries, copies),
        }
    }

    /// Keeps a part until all parts have been received.
    fn keep(
        &mut self,
        tab: u16,
        partition: u16,
        heading: PartHeader,
        entries: &[Entry],
        copies: usize,
    ) -> Result<Vec<Outs>, AllocError>
        requires new { seat_of self.old tab ≡ None }
        requires below { all_below heading.base entries.now ≡ true }
        requires fits { fits (told heading entries.now) (partial_of self.old tab) ≡ true }
        ensures kept { let k = with_told partition (told heading entries.now) (partial_of self.old tab) in
            IfOk result (λ all. copied copies (Does (keeping tab k self.old) [])
            ≡ Some (self.new, all.items)) }
        ensures err { OnErr result (self.new ≡ self.old) }
    {
        let mut all = self.rooms.prepare(copies, 0, 0)?;
        keep(self.alloc, &mut self.kept, tab, partition, heading, entries)?;
        self.rooms
            .tell(&mut all, copies, self.generation, &self.seats, None, &[]);
        Ok(all)
    }

    /// Lets a tab join with the entries of its whole report.
    fn join(
        &mut self,
        tab: u16,
        partition: u16,
        place: Option<u16>,
        heading: PartHeader,
        entries: &[Entry],
        copies: usize,
    ) -> Result<Vec<Outs>, AllocError>
        requires new { seat_of self.old tab ≡ None }
        requires place { place ≡ listed_at tab self.old.listed }
        requires placed { elsewhere (listed_at tab self.old.listed) partition ≡ false }
        requires below { all_below heading.base entries.now ≡ true }
        ensures joined { IfOk result (λ all.
            copied copies (join self.old tab partition (joining heading entries.now))
            ≡ Some (self.new, all.items)) }
        ensures err { OnErr result (self.new ≡ self.old) }
    {
        let waiting = waiting_in(row_at(&self.partitions, partition));
        let mut all = self.rooms.prepare(copies, entries.len(), waiting)?;
        let seat = TabSeat::Joined {
            partition,
            next: heading.base,
            limit: heading.limit,
        };
        self.seats.insert(tab, seat)?;
        let is_active = missing_without(&self.missing, place, partition) == 0;
        match restore_at(
            self.alloc,
            &mut self.partitions,
            partition,
            tab,
            entries,
            is_active,
        ) {
            Ok(granted) => {
                count_arrival(&mut self.missing, place);
                discard(&mut self.kept, tab);
                self.rooms.tell(
                    &mut all,
                    copies,
                    self.generation,
                    &self.seats,
                    None,
                    &granted,
                );
                Ok(all)
            }
            Err(error) => {
                put_back(&mut self.seats, tab, None);
                Err(error)
            }
        }
    }

    /// Removes the locks and requests of a dead tab in its partition.
    fn remove_tab(
        &mut self,
        tab: u16,
        partition: u16,
        copies: usize,
    ) -> Result<Vec<Outs>, AllocError>
        requires { Had self.old tab partition }
        ensures buried { IfOk result (λ all.
            repeated copies (buried_at (with_seat tab Dead self.old) tab (Some partition))
            ≡ (self.new, all.items)) }
        ensures err { OnErr result (self.new ≡ self.old) }
    {
        let before = seat_of(&self.seats, tab);
        let waiting = waiting_in(row_at(&self.partitions, partition));
        let mut all = self.rooms.prepare(copies, 0, waiting)?;
        self.seats.insert(tab, TabSeat::Dead)?;
        let place = awaited_at(before, partition);
        let is_active = missing_without(&self.missing, place, partition) == 0;
        match end_at(self.alloc, &mut self.partitions, partition, tab, is_active) {
            Ok(granted) => {
                count_arrival(&mut self.missing, place);
                discard(&mut self.kept, tab);
                self.rooms.tell(
                    &mut all,
                    copies,
                    self.generation,
                    &self.seats,
                    None,
                    &granted,
                );
                Ok(all)
            }
            Err(error) => {
                put_back(&mut self.seats, tab, before);
                Err(error)
            }
        }
    }

    /// Records the death of a tab that belongs to no partition.
    fn remove_unknown_tab(&mut self, tab: u16, copies: usize) -> Result<Vec<Outs>, AllocError>
        requires new { seat_of self.old tab ≡ None }
        requires unlisted { listed_at tab self.old.listed ≡ None }
        ensures buried { IfOk result (λ all.
            repeated copies (with_seat tab Dead self.old, []) ≡ (self.new, all.items)) }
        ensures err { OnErr result (self.new ≡ self.old) }
    {
        let mut all = self.rooms.prepare(copies, 0, 0)?;
        self.seats.insert(tab, TabSeat::Dead)?;
        discard(&mut self.kept, tab);
        self.rooms
            .tell(&mut all, copies, self.generation, &self.seats, None, &[]);
        Ok(all)
    }

    /// Returns `copies` empty lists.
    fn say_nothing(&mut self, copies: usize) -> Result<Vec<Outs>, AllocError>
        ensures nothing { IfOk result (λ all. all.items ≡ replicate copies []) }
        ensures same { self.new ≡ self.old }
    {
        let mut all = self.rooms.prepare(copies, 0, 0)?;
        self.rooms
            .tell(&mut all, copies, self.generation, &self.seats, None, &[]);
        Ok(all)
    }

    /// Answers a command that was taken before.
    fn answer_again(
        &mut self,
        tab: u16,
        partition: u16,
        upto: u32,
        number: u32,
        operation: &Operation,
        copies: usize,
    ) -> Result<Vec<Outs>, AllocError>
        requires { upto ≡ next_of self.old tab }
        ensures again { IfOk result (λ all.
            all.items ≡ replicate copies (later_answer self.old tab partition number operation.now ∷ [])) }
        ensures same { self.new ≡ self.old }
    {
        let outcome = outcome_in(row_at(&self.partitions, partition), tab, number, operation);
        let reply = TabAnswer {
            tab,
            upto,
            number,
            outcome,
        };
        let mut all = self.rooms.prepare(copies, 1, 0)?;
        self.rooms.tell(
            &mut all,
            copies,
            self.generation,
            &self.seats,
            Some(reply),
            &[],
        );
        Ok(all)
    }

    /// Executes a tab's next command.
    fn perform(
        &mut self,
        tab: u16,
        partition: u16,
        number: u32,
        limit: u16,
        waiting: usize,
        operation: &Operation,
        copies: usize,
    ) -> Result<Vec<Outs>, AllocError>
        requires joined { seat_of self.old tab ≡ Some (Joined partition number limit) }
        requires waiting { waiting ≡ length (manager_of self.old partition).waiting }
        requires active { is_active self.old partition ≡ true }
        requires more { number < LAST_NUMBER }
        ensures performed { IfOk result (λ all.
            copied copies (perform self.old tab partition number operation.now)
            ≡ Some (self.new, all.items)) }
        ensures err { OnErr result (self.new ≡ self.old) }
    {
        if let Operation::Query = operation {
            return self.query(tab, partition, number, limit, copies);
        }
        // Space for its answer, and for a grant of each request then waiting, including its own.
        let mut all = self.rooms.prepare(copies, 2, waiting)?;
        let (granted, outcome) = command_at(
            self.alloc,
            &mut self.partitions,
            partition,
            tab,
            number,
            operation,
        )?;
        let next = number + 1;
        let seat = TabSeat::Joined {
            partition,
            next,
            limit,
        };
        set_seat(&mut self.seats, tab, seat);
        let reply = TabAnswer {
            tab,
            upto: next,
            number,
            outcome,
        };
        self.rooms.tell(
            &mut all,
            copies,
            self.generation,
            &self.seats,
            Some(reply),
            &granted,
        );
        Ok(all)
    }

    /// Executes a query, which changes only the tab's next number.
    fn query(
        &mut self,
        tab: u16,
        partition: u16,
        number: u32,
        limit: u16,
        copies: usize,
    ) -> Result<Vec<Outs>, AllocError>
        requires joined { seat_of self.old tab ≡ Some (Joined partition number limit) }
        requires active { is_active self.old partition ≡ true }
        requires more { number < LAST_NUMBER }
        ensures performed { IfOk result (λ all.
            copied copies (perform self.old tab partition number Query) ≡ Some (self.new, all.items)) }
        ensures err { OnErr result (self.new ≡ self.old) }
    {
        let next = number + 1;
        let all = snapshots_at(
            self.alloc,
            &self.partitions,
            partition,
            copies,
            self.generation,
            next,
            tab,
            number,
        )?;
        let seat = TabSeat::Joined {
            partition,
            next,
            limit,
        };
        set_seat(&mut self.seats, tab, seat);
        Ok(all)
    }
}

/// Returns the only list.
fn only(mut all: Vec<Outs>) -> Outs
    requires { length all.items ≡ 1 }
    ensures { (outs : List Addressed) → all.items ≡ outs ∷ [] → result ≡ outs }
{
    all.pop().unwrap()
}
