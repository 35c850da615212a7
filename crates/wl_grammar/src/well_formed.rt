//! Tests whether frames are well-formed, that is, whether they have an encoding.

ghost use Rattle.std.specs.Prelude.{◌↔◌, IsTrue};
ghost use Rattle.std.specs.List.{AllByRecursion};
ghost use Rattle.wl_grammar.specs.Grammar.{IsWellFormed, IsCommand, IsReport, IsReportPart, IsPost, IsHello, IsAnswer, IsSnapshot, IsHeard, IsWelcome, IsPairWelcome, IsStamped, IsStart, IsAddressed, IsDead, IsUpward, IsDownward, IsOperation, IsGeneration, IsTab, IsChannel, IsLockName, IsData, IsOrigin, IsEntry, IsSnapshotEntry, IsPlace, RiseFrom, TabsRiseFrom};

use crate::frame::{
    Addressed, Answer, Command, Dead, Downward, Frame, Heard, Hello, Operation, PairWelcome, Post,
    Report, ReportPart, Snapshot, SnapshotEntry, Stamped, Start, Upward, Welcome,
};
use crate::origin::Origin;
use wl_draft::{Entry, Name};
use wl_limits::frames::{ENTRY_LIMIT, LIST_LIMIT, REPORT_PART_LIMIT};
use wl_limits::texts::{DATA_LIMIT, NAME_LIMIT, ORIGIN_LIMIT};

impl Frame {
    /// Returns whether each field has a valid value, so that the frame can be encoded.
    pub fn is_well_formed(&self) -> bool
        ensures { IsTrue result ↔ IsWellFormed self.now }
    {
        match self {
            Frame::Command(c) => c.is_well_formed(),
            Frame::Report(r) => r.is_well_formed(),
            Frame::ReportPart(r) => r.is_well_formed(),
            Frame::Post(p) => p.is_well_formed(),
            Frame::Hello(h) => h.is_well_formed(),
            Frame::Answer(a) => a.is_well_formed(),
            Frame::Snapshot(s) => s.is_well_formed(),
            Frame::Heard(h) => h.is_well_formed(),
            Frame::Welcome(w) => w.is_well_formed(),
            Frame::PairWelcome(w) => w.is_well_formed(),
            Frame::Stamped(s) => s.is_well_formed(),
            Frame::Start(s) => s.is_well_formed(),
            Frame::Addressed(a) => a.is_well_formed(),
            Frame::Dead(d) => d.is_well_formed(),
        }
    }
}

// Fields

fn is_generation(number: u32) -> bool
    ensures { IsTrue result ↔ IsGeneration number }
{
    number >= 1
}

fn is_tab(number: u16) -> bool
    ensures { IsTrue result ↔ IsTab number }
{
    number >= 1
}

fn is_channel(name: &Name) -> bool
    ensures { IsTrue result ↔ IsChannel name.now }
{
    name.as_str().len() <= NAME_LIMIT
}

fn is_lock_name(name: &Name) -> bool
    ensures { IsTrue result ↔ IsLockName name.now }
{
    match name.as_str().as_bytes() {
        [b'-', ..] => false,
        _ => is_channel(name),
    }
}

fn is_data(bytes: &[u8]) -> bool
    ensures { IsTrue result ↔ IsData bytes.now }
{
    bytes.len() <= DATA_LIMIT
}

fn is_origin(origin: &Origin) -> bool
    ensures { IsTrue result ↔ IsOrigin origin.now }
{
    let text = origin.as_str();
    text.len() <= ORIGIN_LIMIT && text.is_ascii()
}

// Lists

/// Returns whether each entry is valid and the numbers strictly rise.
fn are_entries(entries: &[Entry]) -> bool
    ensures { IsTrue result ↔ (AllByRecursion IsEntry entries.now × RiseFrom 0 entries.now) }
{
    // The least valid number of the next entry. It may exceed the range of `u32`.
    let mut least = 0u64;
    for e in entries {
        let number = u64::from(e.number);
        if number < least || !is_lock_name(&e.name) {
            return false;
        }
        least = number + 1;
    }
    true
}

fn are_snapshot_entries(entries: &[SnapshotEntry]) -> bool
    ensures { IsTrue result ↔ AllByRecursion IsSnapshotEntry entries.now }
{
    for e in entries {
        if !is_tab(e.tab) || !is_lock_name(&e.name) {
            return false;
        }
    }
    true
}

/// Returns whether each entry is a valid tab and partition and the tabs strictly rise.
fn are_places(places: &[(u16, u16)]) -> bool
    ensures { IsTrue result ↔ (AllByRecursion IsPlace places.now × TabsRiseFrom 1 places.now) }
{
    let mut least = 1u32;
    for (tab, partition) in places {
        let tab = u32::from(*tab);
        if tab < least || *partition < 1 {
            return false;
        }
        least = tab + 1;
    }
    true
}

// Bodies

impl Operation {
    fn is_well_formed(&self) -> bool
        ensures { IsTrue result ↔ IsOperation self.now }
    {
        match self {
            Operation::Request { name, .. } => is_lock_name(name),
            // Each `u32` is a valid number.
            Operation::Release { number } | Operation::Abort { number } => {
                let _number = *number;
                true
            }
            Operation::Query => true,
        }
    }
}

impl Command {
    fn is_well_formed(&self) -> bool
        ensures { IsTrue result ↔ IsCommand self.now }
    {
        let _number = self.number;
        is_generation(self.generation) && self.operation.is_well_formed()
    }
}

impl Report {
    fn is_well_formed(&self) -> bool
        ensures { IsTrue result ↔ IsReport self.now }
    {
        let _base = self.base;
        let entries = self.entries.as_slice();
        is_generation(self.generation) && entries.len() <= ENTRY_LIMIT && are_entries(entries)
    }
}

impl ReportPart {
    fn is_well_formed(&self) -> bool
        ensures { IsTrue result ↔ IsReportPart self.now }
    {
        let _base = self.base;
        let entries = self.entries.as_slice();
        is_generation(self.generation)
            && self.part < self.parts
            && self.parts <= REPORT_PART_LIMIT
            && entries.len() <= ENTRY_LIMIT
            && are_entries(entries)
    }
}

impl Post {
    fn is_well_formed(&self) -> bool
        ensures { IsTrue result ↔ IsPost self.now }
    {
        let _number = self.number;
        is_channel(&self.channel) && is_data(self.bytes.as_slice())
    }
}

impl Hello {
    fn is_well_formed(&self) -> bool
        ensures { IsTrue result ↔ IsHello self.now }
    {
        is_generation(self.generation)
    }
}

impl Answer {
    fn is_well_formed(&self) -> bool
        ensures { IsTrue result ↔ IsAnswer self.now }
    {
        let _upto = self.upto;
        let _number = self.number;
        is_generation(self.generation)
    }
}

impl Snapshot {
    fn is_well_formed(&self) -> bool
        ensures { IsTrue result ↔ IsSnapshot self.now }
    {
        let _number = self.number;
        let entries = self.entries.as_slice();
        is_generation(self.generation)
            && self.part < self.parts
            && entries.len() <= ENTRY_LIMIT
            && are_snapshot_entries(entries)
    }
}

impl Heard {
    fn is_well_formed(&self) -> bool
        ensures { IsTrue result ↔ IsHeard self.now }
    {
        let _number = self.number;
        is_tab(self.source) && is_channel(&self.channel) && is_data(self.bytes.as_slice())
    }
}

impl Welcome {
    fn is_well_formed(&self) -> bool
        ensures { IsTrue result ↔ IsWelcome self.now }
    {
        is_tab(self.tab) && is_origin(&self.origin)
    }
}

impl PairWelcome {
    fn is_well_formed(&self) -> bool
        ensures { IsTrue result ↔ IsPairWelcome self.now }
    {
        is_tab(self.tab) && is_origin(&self.top) && is_origin(&self.own)
    }
}

impl Upward {
    fn is_well_formed(&self) -> bool
        ensures { IsTrue result ↔ IsUpward self.now }
    {
        match self {
            Upward::Command(c) => c.is_well_formed(),
            Upward::Report(r) => r.is_well_formed(),
            Upward::ReportPart(r) => r.is_well_formed(),
        }
    }
}

impl Downward {
    fn is_well_formed(&self) -> bool
        ensures { IsTrue result ↔ IsDownward self.now }
    {
        match self {
            Downward::Hello(h) => h.is_well_formed(),
            Downward::Answer(a) => a.is_well_formed(),
            Downward::Snapshot(s) => s.get().is_well_formed(),
        }
    }
}

impl Stamped {
    fn is_well_formed(&self) -> bool
        ensures { IsTrue result ↔ IsStamped self.now }
    {
        is_tab(self.tab) && is_tab(self.partition) && self.inner.is_well_formed()
    }
}

impl Start {
    fn is_well_formed(&self) -> bool
        ensures { IsTrue result ↔ IsStart self.now }
    {
        let places = self.list.as_slice();
        is_generation(self.generation) && places.len() <= LIST_LIMIT && are_places(places)
    }
}

impl Addressed {
    fn is_well_formed(&self) -> bool
        ensures { IsTrue result ↔ IsAddressed self.now }
    {
        is_tab(self.tab) && self.inner.is_well_formed()
    }
}

impl Dead {
    fn is_well_formed(&self) -> bool
        ensures { IsTrue result ↔ IsDead self.now }
    {
        is_tab(self.tab)
    }
}
