//! Encoder of frames: one function for each field and each body.

ghost use Rattle.std.specs.Prelude.{◌≡◌, ◌≤◌, ◌<◌, ◌+◌, ◌^◌, ◌++◌, ◌∷◌, [], length, take, drop, IfOk, OnOk, OnErr};
ghost use Rattle.std.specs.List.{flat_map, AllByRecursion};
ghost use Rattle.wl_grammar.specs.Prefixes.{IsPrefixOf};
ghost use Rattle.wl_grammar.specs.Grammar.{u16, u32, IsWellFormed, IsCommand, IsReport, IsReportPart, IsPost, IsSnapshot, IsHeard, IsWelcome, IsPairWelcome, IsStamped, IsStart, IsAddressed, IsUpward, IsDownward, IsOperation, IsLockName, IsEntry, IsSnapshotEntry, spelled_mode, spelled_flag, spelled_held, spelled_outcome, short_text, long_text, operation, entry, snapshot_entry, place, command, report, report_part, post, hello, answer, snapshot, heard, welcome, pair_welcome, upward, downward, stamped, start, addressed, dead, body, spelling};
ghost use Rattle.wl_limits.specs.declared.frames.TheConstants.{ENTRY_LIMIT, LIST_LIMIT};
ghost use Rattle.wl_limits.specs.declared.texts.TheConstants.{NAME_LIMIT};

use crate::frame::{
    Addressed, Answer, Command, Dead, Downward, Frame, Heard, Hello, Operation, Outcome,
    PairWelcome, Post, Report, ReportPart, Snapshot, SnapshotEntry, Stamped, Start, Upward,
    Welcome,
};
use crate::kinds::{
    ADDRESSED, ANSWER, COMMAND, DEAD, FIRST_VERSION, HEARD, HELLO, PAIR_WELCOME, POST, REPORT,
    REPORT_PART, SECOND_VERSION, SNAPSHOT, STAMPED, START, WELCOME,
};
use std::alloc::{AllocError, Global};
use wl_draft::{Entry, Mode};

/// Returns the encoding of a frame: the length of its body, and the body. Fails if out of memory.
pub fn encode(alloc: Global, frame: &Frame) -> Result<Vec<u8>, AllocError>
    requires { IsWellFormed frame.now }
    ensures { IfOk result (λ bytes. bytes.items ≡ spelling frame.now) }
{
    let mut bytes = Vec::new(alloc);
    encode_into(&mut bytes, frame)?;
    Ok(bytes)
}

/// Appends the encoding of a frame. Fails if out of memory, and then leaves `out` unchanged.
pub fn encode_into(out: &mut Vec<u8>, frame: &Frame) -> Result<(), AllocError>
    requires { IsWellFormed frame.now }
    ensures spelled { OnOk result (out.new.items ≡ out.old.items ++ spelling frame.now) }
    ensures refused { OnErr result (out.new.items ≡ out.old.items) }
{
    let start = out.len();
    let put = put_frame(out, frame);
    if put.is_err() {
        out.truncate(start);
    }
    put
}

/// Appends the encoding of a frame. If out of memory, it may have appended some of it.
#[tactic(auto, using(crate::proofs::Framing::length_set), unfolding(crate::specs::Grammar::spelling))]
fn put_frame(out: &mut Vec<u8>, frame: &Frame) -> Result<(), AllocError>
    requires { IsWellFormed frame.now }
    ensures spelled { OnOk result (out.new.items ≡ out.old.items ++ spelling frame.now) }
    ensures kept { IsPrefixOf out.old.items out.new.items }
{
    let start = out.len();
    // The length is known only after the body is written.
    out.extend_from_slice(&[0; 4])?;
    put_body(out, frame)?;
    let length = (out.len() - start - 4) as u32;
    set_length(out, start, length);
    Ok(())
}

/// Overwrites the four bytes at `start` with the length.
fn set_length(bytes: &mut [u8], start: usize, count: u32)
    requires { start + 4 ≤ length bytes.old }
    ensures { bytes.new ≡ take start bytes.old ++ u32 count ++ drop (start + 4) bytes.old }
{
    bytes[start..start + 4].copy_from_slice(&count.to_be_bytes());
}

#[tactic(auto, unfolding(crate::specs::Grammar::body))]
fn put_body(out: &mut Vec<u8>, frame: &Frame) -> Result<(), AllocError>
    requires { IsWellFormed frame.now }
    ensures spelled { OnOk result (out.new.items ≡ out.old.items ++ body frame.now) }
    ensures kept { IsPrefixOf out.old.items out.new.items }
{
    match frame {
        Frame::Command(c) => put_command(out, c),
        Frame::Report(r) => put_report(out, r),
        Frame::ReportPart(r) => put_report_part(out, r),
        Frame::Post(p) => put_post(out, p),
        Frame::Hello(h) => put_hello(out, h),
        Frame::Answer(a) => put_answer(out, a),
        Frame::Snapshot(s) => put_snapshot(out, s),
        Frame::Heard(h) => put_heard(out, h),
        Frame::Welcome(w) => put_welcome(out, w),
        Frame::PairWelcome(w) => put_pair_welcome(out, w),
        Frame::Stamped(s) => put_stamped(out, s),
        Frame::Start(s) => put_start(out, s),
        Frame::Addressed(a) => put_addressed(out, a),
        Frame::Dead(d) => put_dead(out, d),
    }
}

// Fields

fn put_u16(out: &mut Vec<u8>, number: u16) -> Result<(), AllocError>
    ensures spelled { OnOk result (out.new.items ≡ out.old.items ++ u16 number) }
    ensures kept { IsPrefixOf out.old.items out.new.items }
{
    out.extend_from_slice(&number.to_be_bytes())
}

fn put_u32(out: &mut Vec<u8>, number: u32) -> Result<(), AllocError>
    ensures spelled { OnOk result (out.new.items ≡ out.old.items ++ u32 number) }
    ensures kept { IsPrefixOf out.old.items out.new.items }
{
    out.extend_from_slice(&number.to_be_bytes())
}

/// Appends the version and the kind of a body.
fn put_kind(out: &mut Vec<u8>, version: u8, kind: u8) -> Result<(), AllocError>
    ensures spelled { OnOk result (out.new.items ≡ out.old.items ++ (version ∷ kind ∷ [])) }
    ensures kept { IsPrefixOf out.old.items out.new.items }
{
    out.extend_from_slice(&[version, kind])
}

fn put_mode(out: &mut Vec<u8>, mode: Mode) -> Result<(), AllocError>
    ensures spelled { OnOk result (out.new.items ≡ out.old.items ++ spelled_mode mode) }
    ensures kept { IsPrefixOf out.old.items out.new.items }
{
    let byte = match mode {
        Mode::Shared => 1,
        Mode::Exclusive => 2,
    };
    out.push(byte)?;
    Ok(())
}

fn put_flag(out: &mut Vec<u8>, flag: bool) -> Result<(), AllocError>
    ensures spelled { OnOk result (out.new.items ≡ out.old.items ++ spelled_flag flag) }
    ensures kept { IsPrefixOf out.old.items out.new.items }
{
    let byte = if flag { 1 } else { 0 };
    out.push(byte)?;
    Ok(())
}

fn put_held(out: &mut Vec<u8>, held: bool) -> Result<(), AllocError>
    ensures spelled { OnOk result (out.new.items ≡ out.old.items ++ spelled_held held) }
    ensures kept { IsPrefixOf out.old.items out.new.items }
{
    let byte = if held { 1 } else { 2 };
    out.push(byte)?;
    Ok(())
}

fn put_outcome(out: &mut Vec<u8>, outcome: Outcome) -> Result<(), AllocError>
    ensures spelled { OnOk result (out.new.items ≡ out.old.items ++ spelled_outcome outcome) }
    ensures kept { IsPrefixOf out.old.items out.new.items }
{
    let byte = match outcome {
        Outcome::Waiting => 1,
        Outcome::Granted => 2,
        Outcome::Gone => 3,
        Outcome::Taken => 4,
    };
    out.push(byte)?;
    Ok(())
}

/// Appends a text after its length in one byte.
fn put_short_text(out: &mut Vec<u8>, text: &str) -> Result<(), AllocError>
    requires { length text.now ≤ NAME_LIMIT }
    ensures spelled { OnOk result (out.new.items ≡ out.old.items ++ short_text text.now) }
    ensures kept { IsPrefixOf out.old.items out.new.items }
{
    out.push(text.len() as u8)?;
    out.extend_from_slice(text.as_bytes())
}

/// Appends text or data after its length in two bytes.
fn put_long_text(out: &mut Vec<u8>, bytes: &[u8]) -> Result<(), AllocError>
    requires { length bytes.now < 2 ^ 16 }
    ensures spelled { OnOk result (out.new.items ≡ out.old.items ++ long_text bytes.now) }
    ensures kept { IsPrefixOf out.old.items out.new.items }
{
    put_u16(out, bytes.len() as u16)?;
    out.extend_from_slice(bytes)
}

// Operations and entries

fn put_operation(out: &mut Vec<u8>, asked: &Operation) -> Result<(), AllocError>
    requires { IsOperation asked.now }
    ensures spelled { OnOk result (out.new.items ≡ out.old.items ++ operation asked.now) }
    ensures kept { IsPrefixOf out.old.items out.new.items }
{
    match asked {
        Operation::Request {
            mode,
            if_available,
            name,
        } => {
            out.push(1)?;
            put_mode(out, *mode)?;
            put_flag(out, *if_available)?;
            put_short_text(out, name.as_str())
        }
        Operation::Release { number } => {
            out.push(2)?;
            put_u32(out, *number)
        }
        Operation::Abort { number } => {
            out.push(3)?;
            put_u32(out, *number)
        }
        Operation::Query => {
            out.push(4)?;
            Ok(())
        }
    }
}

fn put_entry(out: &mut Vec<u8>, e: &Entry) -> Result<(), AllocError>
    requires { IsLockName e.now.name }
    ensures spelled { OnOk result (out.new.items ≡ out.old.items ++ entry e.now) }
    ensures kept { IsPrefixOf out.old.items out.new.items }
{
    put_u32(out, e.number)?;
    put_held(out, e.held)?;
    put_mode(out, e.mode)?;
    put_short_text(out, e.name.as_str())
}

fn put_snapshot_entry(out: &mut Vec<u8>, e: &SnapshotEntry) -> Result<(), AllocError>
    requires { IsLockName e.now.name }
    ensures spelled { OnOk result (out.new.items ≡ out.old.items ++ snapshot_entry e.now) }
    ensures kept { IsPrefixOf out.old.items out.new.items }
{
    put_held(out, e.held)?;
    put_u16(out, e.tab)?;
    put_mode(out, e.mode)?;
    put_short_text(out, e.name.as_str())
}

fn put_entries(out: &mut Vec<u8>, entries: &[Entry]) -> Result<(), AllocError>
    requires count { length entries.now ≤ ENTRY_LIMIT }
    requires each { AllByRecursion IsEntry entries.now }
    ensures spelled { OnOk result (out.new.items
        ≡ out.old.items ++ (u16 (length entries.now) ++ flat_map entry entries.now)) }
    ensures kept { IsPrefixOf out.old.items out.new.items }
{
    put_u16(out, entries.len() as u16)?;
    for e in entries {
        put_entry(out, e)?;
    }
    Ok(())
}

fn put_snapshot_entries(out: &mut Vec<u8>, entries: &[SnapshotEntry]) -> Result<(), AllocError>
    requires count { length entries.now ≤ ENTRY_LIMIT }
    requires each { AllByRecursion IsSnapshotEntry entries.now }
    ensures spelled { OnOk result (out.new.items
        ≡ out.old.items ++ (u16 (length entries.now) ++ flat_map snapshot_entry entries.now)) }
    ensures kept { IsPrefixOf out.old.items out.new.items }
{
    put_u16(out, entries.len() as u16)?;
    for e in entries {
        put_snapshot_entry(out, e)?;
    }
    Ok(())
}

fn put_places(out: &mut Vec<u8>, places: &[(u16, u16)]) -> Result<(), AllocError>
    requires { length places.now ≤ LIST_LIMIT }
    ensures spelled { OnOk result (out.new.items
        ≡ out.old.items ++ (u16 (length places.now) ++ flat_map place places.now)) }
    ensures kept { IsPrefixOf out.old.items out.new.items }
{
    put_u16(out, places.len() as u16)?;
    for p in places {
        put_place(out, p)?;
    }
    Ok(())
}

/// Appends a tab and its partition.
fn put_place(out: &mut Vec<u8>, p: &(u16, u16)) -> Result<(), AllocError>
    ensures spelled { OnOk result (out.new.items ≡ out.old.items ++ place p.now) }
    ensures kept { IsPrefixOf out.old.items out.new.items }
{
    put_u16(out, p.0)?;
    put_u16(out, p.1)
}

// Bodies

#[tactic(auto, unfolding(crate::specs::Grammar::command))]
fn put_command(out: &mut Vec<u8>, c: &Command) -> Result<(), AllocError>
    requires { IsCommand c.now }
    ensures spelled { OnOk result (out.new.items ≡ out.old.items ++ command c.now) }
    ensures kept { IsPrefixOf out.old.items out.new.items }
{
    put_kind(out, FIRST_VERSION, COMMAND)?;
    put_u32(out, c.generation)?;
    put_u32(out, c.number)?;
    put_operation(out, &c.operation)
}

#[tactic(auto, unfolding(crate::specs::Grammar::report))]
fn put_report(out: &mut Vec<u8>, r: &Report) -> Result<(), AllocError>
    requires { IsReport r.now }
    ensures spelled { OnOk result (out.new.items ≡ out.old.items ++ report r.now) }
    ensures kept { IsPrefixOf out.old.items out.new.items }
{
    put_kind(out, FIRST_VERSION, REPORT)?;
    put_u32(out, r.generation)?;
    put_u32(out, r.base)?;
    put_entries(out, r.entries.as_slice())
}

#[tactic(auto, unfolding(crate::specs::Grammar::report_part))]
fn put_report_part(out: &mut Vec<u8>, r: &ReportPart) -> Result<(), AllocError>
    requires { IsReportPart r.now }
    ensures spelled { OnOk result (out.new.items ≡ out.old.items ++ report_part r.now) }
    ensures kept { IsPrefixOf out.old.items out.new.items }
{
    put_kind(out, SECOND_VERSION, REPORT_PART)?;
    put_u32(out, r.generation)?;
    put_u32(out, r.base)?;
    put_u16(out, r.part)?;
    put_u16(out, r.parts)?;
    put_entries(out, r.entries.as_slice())
}

#[tactic(auto, unfolding(crate::specs::Grammar::post))]
fn put_post(out: &mut Vec<u8>, p: &Post) -> Result<(), AllocError>
    requires { IsPost p.now }
    ensures spelled { OnOk result (out.new.items ≡ out.old.items ++ post p.now) }
    ensures kept { IsPrefixOf out.old.items out.new.items }
{
    put_kind(out, FIRST_VERSION, POST)?;
    put_u32(out, p.number)?;
    put_short_text(out, p.channel.as_str())?;
    put_long_text(out, p.bytes.as_slice())
}

#[tactic(auto, unfolding(crate::specs::Grammar::hello))]
fn put_hello(out: &mut Vec<u8>, h: &Hello) -> Result<(), AllocError>
    ensures spelled { OnOk result (out.new.items ≡ out.old.items ++ hello h.now) }
    ensures kept { IsPrefixOf out.old.items out.new.items }
{
    put_kind(out, FIRST_VERSION, HELLO)?;
    put_u32(out, h.generation)
}

#[tactic(auto, unfolding(crate::specs::Grammar::answer))]
fn put_answer(out: &mut Vec<u8>, a: &Answer) -> Result<(), AllocError>
    ensures spelled { OnOk result (out.new.items ≡ out.old.items ++ answer a.now) }
    ensures kept { IsPrefixOf out.old.items out.new.items }
{
    put_kind(out, FIRST_VERSION, ANSWER)?;
    put_u32(out, a.generation)?;
    put_u32(out, a.upto)?;
    put_u32(out, a.number)?;
    put_outcome(out, a.outcome)
}

#[tactic(auto, unfolding(crate::specs::Grammar::snapshot))]
fn put_snapshot(out: &mut Vec<u8>, s: &Snapshot) -> Result<(), AllocError>
    requires { IsSnapshot s.now }
    ensures spelled { OnOk result (out.new.items ≡ out.old.items ++ snapshot s.now) }
    ensures kept { IsPrefixOf out.old.items out.new.items }
{
    put_kind(out, FIRST_VERSION, SNAPSHOT)?;
    put_u32(out, s.generation)?;
    put_u32(out, s.number)?;
    put_u16(out, s.part)?;
    put_u16(out, s.parts)?;
    put_snapshot_entries(out, s.entries.as_slice())
}

#[tactic(auto, unfolding(crate::specs::Grammar::heard))]
fn put_heard(out: &mut Vec<u8>, h: &Heard) -> Result<(), AllocError>
    requires { IsHeard h.now }
    ensures spelled { OnOk result (out.new.items ≡ out.old.items ++ heard h.now) }
    ensures kept { IsPrefixOf out.old.items out.new.items }
{
    put_kind(out, FIRST_VERSION, HEARD)?;
    put_u16(out, h.source)?;
    put_u32(out, h.number)?;
    put_short_text(out, h.channel.as_str())?;
    put_long_text(out, h.bytes.as_slice())
}

#[tactic(auto, unfolding(crate::specs::Grammar::welcome))]
fn put_welcome(out: &mut Vec<u8>, w: &Welcome) -> Result<(), AllocError>
    requires { IsWelcome w.now }
    ensures spelled { OnOk result (out.new.items ≡ out.old.items ++ welcome w.now) }
    ensures kept { IsPrefixOf out.old.items out.new.items }
{
    put_kind(out, FIRST_VERSION, WELCOME)?;
    put_u16(out, w.tab)?;
    put_long_text(out, w.origin.as_str().as_bytes())
}

#[tactic(auto, unfolding(crate::specs::Grammar::pair_welcome))]
fn put_pair_welcome(out: &mut Vec<u8>, w: &PairWelcome) -> Result<(), AllocError>
    requires { IsPairWelcome w.now }
    ensures spelled { OnOk result (out.new.items ≡ out.old.items ++ pair_welcome w.now) }
    ensures kept { IsPrefixOf out.old.items out.new.items }
{
    put_kind(out, SECOND_VERSION, PAIR_WELCOME)?;
    put_u16(out, w.tab)?;
    put_long_text(out, w.top.as_str().as_bytes())?;
    put_long_text(out, w.own.as_str().as_bytes())
}

#[tactic(auto, unfolding(crate::specs::Grammar::upward))]
fn put_upward(out: &mut Vec<u8>, inner: &Upward) -> Result<(), AllocError>
    requires { IsUpward inner.now }
    ensures spelled { OnOk result (out.new.items ≡ out.old.items ++ upward inner.now) }
    ensures kept { IsPrefixOf out.old.items out.new.items }
{
    match inner {
        Upward::Command(c) => put_command(out, c),
        Upward::Report(r) => put_report(out, r),
        Upward::ReportPart(r) => put_report_part(out, r),
    }
}

#[tactic(auto, unfolding(crate::specs::Grammar::downward))]
fn put_downward(out: &mut Vec<u8>, inner: &Downward) -> Result<(), AllocError>
    requires { IsDownward inner.now }
    ensures spelled { OnOk result (out.new.items ≡ out.old.items ++ downward inner.now) }
    ensures kept { IsPrefixOf out.old.items out.new.items }
{
    match inner {
        Downward::Hello(h) => put_hello(out, h),
        Downward::Answer(a) => put_answer(out, a),
        Downward::Snapshot(s) => put_snapshot(out, s.get()),
    }
}

#[tactic(auto, unfolding(crate::specs::Grammar::stamped))]
fn put_stamped(out: &mut Vec<u8>, s: &Stamped) -> Result<(), AllocError>
    requires { IsStamped s.now }
    ensures spelled { OnOk result (out.new.items ≡ out.old.items ++ stamped s.now) }
    ensures kept { IsPrefixOf out.old.items out.new.items }
{
    put_kind(out, FIRST_VERSION, STAMPED)?;
    put_u16(out, s.tab)?;
    put_u16(out, s.partition)?;
    put_upward(out, &s.inner)
}

#[tactic(auto, unfolding(crate::specs::Grammar::start))]
fn put_start(out: &mut Vec<u8>, s: &Start) -> Result<(), AllocError>
    requires { IsStart s.now }
    ensures spelled { OnOk result (out.new.items ≡ out.old.items ++ start s.now) }
    ensures kept { IsPrefixOf out.old.items out.new.items }
{
    put_kind(out, FIRST_VERSION, START)?;
    put_u32(out, s.generation)?;
    put_places(out, s.list.as_slice())
}

#[tactic(auto, unfolding(crate::specs::Grammar::addressed))]
fn put_addressed(out: &mut Vec<u8>, a: &Addressed) -> Result<(), AllocError>
    requires { IsAddressed a.now }
    ensures spelled { OnOk result (out.new.items ≡ out.old.items ++ addressed a.now) }
    ensures kept { IsPrefixOf out.old.items out.new.items }
{
    put_kind(out, FIRST_VERSION, ADDRESSED)?;
    put_u16(out, a.tab)?;
    put_downward(out, &a.inner)
}

#[tactic(auto, unfolding(crate::specs::Grammar::dead))]
fn put_dead(out: &mut Vec<u8>, d: &Dead) -> Result<(), AllocError>
    ensures spelled { OnOk result (out.new.items ≡ out.old.items ++ dead d.now) }
    ensures kept { IsPrefixOf out.old.items out.new.items }
{
    put_kind(out, FIRST_VERSION, DEAD)?;
    put_u16(out, d.tab)
}
