//! Decoders of the fields of each kind of frame. Each returns the value and the bytes after it.

ghost use Rattle.std.specs.Prelude.{◌≡◌};
ghost use Rattle.wl_frames.specs.Bodies.{request_at, operation_at, command_at, entry_at, numbers_rise, rising_entries_at, report_at, part_at, few_parts_at, report_part_at, hello_at, outcome_at, answer_at, snapshot_entry_at, snapshot_at, inner_kind_at, upward_fields_at, upward_at, downward_fields_at, downward_at, place_at, tabs_rise, rising_places_at, frame_at};
ghost use Rattle.wl_frames.specs.Reading.{Gives};

use super::fault::ReadFault;
use super::fields::{
    Item, byte_of, channel_of, data_of, flag_of, generation_of, held_of, list_of, lock_name_of,
    mode_of, origin_of, tab_of, u16_of, u32_of,
};
use super::kind::{Kind, kind_of};
use std::alloc::Global;
use wl_draft::{Entry, Mode, Name};
use wl_grammar::boxed::Boxed;
use wl_grammar::frame::{
    Addressed, Answer, Command, Dead, Downward, Frame, Heard, Hello, Operation, Outcome,
    PairWelcome, Post, Report, ReportPart, Snapshot, SnapshotEntry, Stamped, Start, Upward,
    Welcome,
};
use wl_grammar::sequence::Sequence;
use wl_limits::frames::{ENTRY_LIMIT, LIST_LIMIT, REPORT_PART_LIMIT};

#[tactic(auto, unfolding(crate::specs::Bodies::request_at))]
fn request_of(alloc: Global, bytes: &[u8]) -> Result<((Mode, bool, Name), &[u8]), ReadFault>
    ensures { Gives (λ x. (x.0, x.1.now)) result (request_at bytes.now) }
{
    let (mode, rest) = mode_of(bytes)?;
    let (if_available, rest) = flag_of(rest)?;
    let (name, rest) = lock_name_of(alloc, rest)?;
    Ok(((mode, if_available, name), rest))
}

#[tactic(auto, unfolding(crate::specs::Bodies::operation_at))]
fn operation_of(alloc: Global, bytes: &[u8]) -> Result<(Operation, &[u8]), ReadFault>
    ensures { Gives (λ x. (x.0, x.1.now)) result (operation_at bytes.now) }
{
    let (code, rest) = byte_of(bytes)?;
    match code {
        1 => {
            let ((mode, if_available, name), rest) = request_of(alloc, rest)?;
            Ok((
                Operation::Request {
                    mode,
                    if_available,
                    name,
                },
                rest,
            ))
        }
        2 => {
            let (number, rest) = u32_of(rest)?;
            Ok((Operation::Release { number }, rest))
        }
        3 => {
            let (number, rest) = u32_of(rest)?;
            Ok((Operation::Abort { number }, rest))
        }
        4 => Ok((Operation::Query, rest)),
        _ => Err(ReadFault::Field),
    }
}

#[tactic(auto, unfolding(crate::specs::Bodies::command_at))]
fn command_of(alloc: Global, bytes: &[u8]) -> Result<(Command, &[u8]), ReadFault>
    ensures { Gives (λ x. (x.0, x.1.now)) result (command_at bytes.now) }
{
    let (generation, rest) = generation_of(bytes)?;
    let (number, rest) = u32_of(rest)?;
    let (operation, rest) = operation_of(alloc, rest)?;
    Ok((
        Command {
            generation,
            number,
            operation,
        },
        rest,
    ))
}

impl Item for Entry {
    ghost item_at = { entry_at };

    #[tactic(auto, unfolding(crate::specs::Bodies::entry_at))]
    fn read(alloc: Global, bytes: &[u8]) -> Result<(Entry, &[u8]), ReadFault> {
        let (number, rest) = u32_of(bytes)?;
        let (held, rest) = held_of(rest)?;
        let (mode, rest) = mode_of(rest)?;
        let (name, rest) = lock_name_of(alloc, rest)?;
        Ok((
            Entry {
                number,
                held,
                mode,
                name,
            },
            rest,
        ))
    }
}

/// Returns whether the numbers strictly rise.
fn numbers_rise(entries: &[Entry]) -> bool
    ensures { result ≡ numbers_rise 0 entries.now }
{
    let mut least: u64 = 0;
    for entry in entries {
        let number = u64::from(entry.number);
        if number < least {
            return false;
        }
        least = number + 1;
    }
    true
}

#[tactic(auto, unfolding(crate::specs::Bodies::rising_entries_at))]
fn entries_of(alloc: Global, bytes: &[u8]) -> Result<(Sequence<Entry>, &[u8]), ReadFault>
    ensures { Gives (λ x. (x.0, x.1.now)) result (rising_entries_at bytes.now) }
{
    let (entries, rest) = list_of(alloc, ENTRY_LIMIT, bytes)?;
    if !numbers_rise(entries.as_slice()) {
        return Err(ReadFault::Field);
    }
    Ok((entries, rest))
}

#[tactic(auto, unfolding(crate::specs::Bodies::report_at))]
fn report_of(alloc: Global, bytes: &[u8]) -> Result<(Report, &[u8]), ReadFault>
    ensures { Gives (λ x. (x.0, x.1.now)) result (report_at bytes.now) }
{
    let (generation, rest) = generation_of(bytes)?;
    let (base, rest) = u32_of(rest)?;
    let (entries, rest) = entries_of(alloc, rest)?;
    Ok((
        Report {
            generation,
            base,
            entries,
        },
        rest,
    ))
}

/// Decodes the index of a part and the number of parts.
#[tactic(auto, unfolding(crate::specs::Bodies::part_at))]
fn part_of(bytes: &[u8]) -> Result<((u16, u16), &[u8]), ReadFault>
    ensures { Gives (λ x. (x.0, x.1.now)) result (part_at bytes.now) }
{
    let (part, rest) = u16_of(bytes)?;
    let (parts, rest) = u16_of(rest)?;
    if part >= parts {
        return Err(ReadFault::Field);
    }
    Ok(((part, parts), rest))
}

/// Decodes the index and the number of a report's parts.
#[tactic(auto, unfolding(crate::specs::Bodies::few_parts_at))]
fn few_parts_of(bytes: &[u8]) -> Result<((u16, u16), &[u8]), ReadFault>
    ensures { Gives (λ x. (x.0, x.1.now)) result (few_parts_at bytes.now) }
{
    let ((part, parts), rest) = part_of(bytes)?;
    if REPORT_PART_LIMIT < parts {
        return Err(ReadFault::Field);
    }
    Ok(((part, parts), rest))
}

#[tactic(auto, unfolding(crate::specs::Bodies::report_part_at))]
fn report_part_of(alloc: Global, bytes: &[u8]) -> Result<(ReportPart, &[u8]), ReadFault>
    ensures { Gives (λ x. (x.0, x.1.now)) result (report_part_at bytes.now) }
{
    let (generation, rest) = generation_of(bytes)?;
    let (base, rest) = u32_of(rest)?;
    let ((part, parts), rest) = few_parts_of(rest)?;
    let (entries, rest) = entries_of(alloc, rest)?;
    Ok((
        ReportPart {
            generation,
            base,
            part,
            parts,
            entries,
        },
        rest,
    ))
}

#[tactic(auto, unfolding(crate::specs::Bodies::post_at))]
fn post_of(alloc: Global, bytes: &[u8]) -> Result<(Frame, &[u8]), ReadFault>
    ensures { Gives (λ x. (x.0, x.1.now)) result (frame_at Kind.Post bytes.now) }
{
    let (number, rest) = u32_of(bytes)?;
    let (channel, rest) = channel_of(alloc, rest)?;
    let (data, rest) = data_of(alloc, rest)?;
    let post = Post {
        number,
        channel,
        bytes: data,
    };
    Ok((Frame::Post(post), rest))
}

#[tactic(auto, unfolding(crate::specs::Bodies::hello_at))]
fn hello_of(bytes: &[u8]) -> Result<(Hello, &[u8]), ReadFault>
    ensures { Gives (λ x. (x.0, x.1.now)) result (hello_at bytes.now) }
{
    let (generation, rest) = generation_of(bytes)?;
    Ok((Hello { generation }, rest))
}

#[tactic(auto, unfolding(crate::specs::Bodies::outcome_at))]
fn outcome_of(bytes: &[u8]) -> Result<(Outcome, &[u8]), ReadFault>
    ensures { Gives (λ x. (x.0, x.1.now)) result (outcome_at bytes.now) }
{
    let (code, rest) = byte_of(bytes)?;
    match code {
        1 => Ok((Outcome::Waiting, rest)),
        2 => Ok((Outcome::Granted, rest)),
        3 => Ok((Outcome::Gone, rest)),
        4 => Ok((Outcome::Taken, rest)),
        _ => Err(ReadFault::Field),
    }
}

#[tactic(auto, unfolding(crate::specs::Bodies::answer_at))]
fn answer_of(bytes: &[u8]) -> Result<(Answer, &[u8]), ReadFault>
    ensures { Gives (λ x. (x.0, x.1.now)) result (answer_at bytes.now) }
{
    let (generation, rest) = generation_of(bytes)?;
    let (upto, rest) = u32_of(rest)?;
    let (number, rest) = u32_of(rest)?;
    let (outcome, rest) = outcome_of(rest)?;
    Ok((
        Answer {
            generation,
            upto,
            number,
            outcome,
        },
        rest,
    ))
}

impl Item for SnapshotEntry {
    ghost item_at = { snapshot_entry_at };

    #[tactic(auto, unfolding(crate::specs::Bodies::snapshot_entry_at))]
    fn read(alloc: Global, bytes: &[u8]) -> Result<(SnapshotEntry, &[u8]), ReadFault> {
        let (held, rest) = held_of(bytes)?;
        let (tab, rest) = tab_of(rest)?;
        let (mode, rest) = mode_of(rest)?;
        let (name, rest) = lock_name_of(alloc, rest)?;
        Ok((
            SnapshotEntry {
                held,
                tab,
                mode,
                name,
            },
            rest,
        ))
    }
}

#[tactic(auto, unfolding(crate::specs::Bodies::snapshot_at))]
fn snapshot_of(alloc: Global, bytes: &[u8]) -> Result<(Snapshot, &[u8]), ReadFault>
    ensures { Gives (λ x. (x.0, x.1.now)) result (snapshot_at bytes.now) }
{
    let (generation, rest) = generation_of(bytes)?;
    let (number, rest) = u32_of(rest)?;
    let ((part, parts), rest) = part_of(rest)?;
    let (entries, rest) = list_of(alloc, ENTRY_LIMIT, rest)?;
    Ok((
        Snapshot {
            generation,
            number,
            part,
            parts,
            entries,
        },
        rest,
    ))
}

#[tactic(auto, unfolding(crate::specs::Bodies::heard_at))]
fn heard_of(alloc: Global, bytes: &[u8]) -> Result<(Frame, &[u8]), ReadFault>
    ensures { Gives (λ x. (x.0, x.1.now)) result (frame_at Kind.Heard bytes.now) }
{
    let (source, rest) = tab_of(bytes)?;
    let (number, rest) = u32_of(rest)?;
    let (channel, rest) = channel_of(alloc, rest)?;
    let (data, rest) = data_of(alloc, rest)?;
    let heard = Heard {
        source,
        number,
        channel,
        bytes: data,
    };
    Ok((Frame::Heard(heard), rest))
}

#[tactic(auto, unfolding(crate::specs::Bodies::welcome_at))]
fn welcome_of(alloc: Global, bytes: &[u8]) -> Result<(Frame, &[u8]), ReadFault>
    ensures { Gives (λ x. (x.0, x.1.now)) result (frame_at Kind.Welcome bytes.now) }
{
    let (tab, rest) = tab_of(bytes)?;
    let (origin, rest) = origin_of(alloc, rest)?;
    let welcome = Welcome { tab, origin };
    Ok((Frame::Welcome(welcome), rest))
}

#[tactic(auto, unfolding(crate::specs::Bodies::pair_welcome_at))]
fn pair_welcome_of(alloc: Global, bytes: &[u8]) -> Result<(Frame, &[u8]), ReadFault>
    ensures { Gives (λ x. (x.0, x.1.now)) result (frame_at Kind.PairWelcome bytes.now) }
{
    let (tab, rest) = tab_of(bytes)?;
    let (top, rest) = origin_of(alloc, rest)?;
    let (own, rest) = origin_of(alloc, rest)?;
    let welcome = PairWelcome { tab, top, own };
    Ok((Frame::PairWelcome(welcome), rest))
}

/// Decodes the version and the kind of an inner body.
#[tactic(auto, unfolding(crate::specs::Bodies::inner_kind_at))]
fn inner_kind_of(bytes: &[u8]) -> Result<(Kind, &[u8]), ReadFault>
    ensures { Gives (λ x. (x.0, x.1.now)) result (inner_kind_at bytes.now) }
{
    let (version, rest) = byte_of(bytes)?;
    let (code, rest) = byte_of(rest)?;
    let Some(kind) = kind_of(version, code) else {
        return Err(ReadFault::Field);
    };
    Ok((kind, rest))
}

fn upward_fields_of(alloc: Global, kind: Kind, bytes: &[u8]) -> Result<(Upward, &[u8]), ReadFault>
    ensures { Gives (λ x. (x.0, x.1.now)) result (upward_fields_at kind bytes.now) }
{
    match kind {
        Kind::Command => {
            let (command, rest) = command_of(alloc, bytes)?;
            Ok((Upward::Command(command), rest))
        }
        Kind::Report => {
            let (report, rest) = report_of(alloc, bytes)?;
            Ok((Upward::Report(report), rest))
        }
        Kind::ReportPart => {
            let (part, rest) = report_part_of(alloc, bytes)?;
            Ok((Upward::ReportPart(part), rest))
        }
        _ => Err(ReadFault::Field),
    }
}

/// Decodes the inner body of a stamped frame, which extends to the end.
#[tactic(auto, unfolding(crate::specs::Bodies::upward_at))]
fn upward_of(alloc: Global, bytes: &[u8]) -> Result<(Upward, &[u8]), ReadFault>
    ensures { Gives (λ x. (x.0, x.1.now)) result (upward_at bytes.now) }
{
    let (kind, rest) = inner_kind_of(bytes)?;
    let (inner, rest) = upward_fields_of(alloc, kind, rest)?;
    if !rest.is_empty() {
        return Err(ReadFault::Field);
    }
    Ok((inner, rest))
}

#[tactic(auto, unfolding(crate::specs::Bodies::stamped_at))]
fn stamped_of(alloc: Global, bytes: &[u8]) -> Result<(Frame, &[u8]), ReadFault>
    ensures { Gives (λ x. (x.0, x.1.now)) result (frame_at Kind.Stamped bytes.now) }
{
    let (tab, rest) = tab_of(bytes)?;
    let (partition, rest) = tab_of(rest)?;
    let (inner, rest) = upward_of(alloc, rest)?;
    let stamped = Stamped {
        tab,
        partition,
        inner,
    };
    Ok((Frame::Stamped(stamped), rest))
}

impl Item for (u16, u16) {
    ghost item_at = { place_at };

    #[tactic(auto, unfolding(crate::specs::Bodies::place_at))]
    fn read(_alloc: Global, bytes: &[u8]) -> Result<((u16, u16), &[u8]), ReadFault> {
        let (tab, rest) = tab_of(bytes)?;
        let (partition, rest) = tab_of(rest)?;
        Ok(((tab, partition), rest))
    }
}

/// Returns whether the tabs strictly rise.
fn tabs_rise(places: &[(u16, u16)]) -> bool
    ensures { result ≡ tabs_rise 1 places.now }
{
    let mut least: u32 = 1;
    for (tab, _partition) in places {
        let tab = u32::from(*tab);
        if tab < least {
            return false;
        }
        least = tab + 1;
    }
    true
}

#[tactic(auto, unfolding(crate::specs::Bodies::rising_places_at))]
fn places_of(alloc: Global, bytes: &[u8]) -> Result<(Sequence<(u16, u16)>, &[u8]), ReadFault>
    ensures { Gives (λ x. (x.0, x.1.now)) result (rising_places_at bytes.now) }
{
    let (places, rest) = list_of(alloc, LIST_LIMIT, bytes)?;
    if !tabs_rise(places.as_slice()) {
        return Err(ReadFault::Field);
    }
    Ok((places, rest))
}

#[tactic(auto, unfolding(crate::specs::Bodies::start_at))]
fn start_of(alloc: Global, bytes: &[u8]) -> Result<(Frame, &[u8]), ReadFault>
    ensures { Gives (λ x. (x.0, x.1.now)) result (frame_at Kind.Start bytes.now) }
{
    let (generation, rest) = generation_of(bytes)?;
    let (list, rest) = places_of(alloc, rest)?;
    let start = Start { generation, list };
    Ok((Frame::Start(start), rest))
}

fn downward_fields_of(
    alloc: Global,
    kind: Kind,
    bytes: &[u8],
) -> Result<(Downward, &[u8]), ReadFault>
    ensures { Gives (λ x. (x.0, x.1.now)) result (downward_fields_at kind bytes.now) }
{
    match kind {
        Kind::Hello => {
            let (hello, rest) = hello_of(bytes)?;
            Ok((Downward::Hello(hello), rest))
        }
        Kind::Answer => {
            let (answer, rest) = answer_of(bytes)?;
            Ok((Downward::Answer(answer), rest))
        }
        Kind::Snapshot => {
            let (snapshot, rest) = snapshot_of(alloc, bytes)?;
            Ok((Downward::Snapshot(Boxed::new(alloc, snapshot)?), rest))
        }
        _ => Err(ReadFault::Field),
    }
}

/// Decodes the inner body of an addressed frame, which extends to the end.
#[tactic(auto, unfolding(crate::specs::Bodies::downward_at))]
fn downward_of(alloc: Global, bytes: &[u8]) -> Result<(Downward, &[u8]), ReadFault>
    ensures { Gives (λ x. (x.0, x.1.now)) result (downward_at bytes.now) }
{
    let (kind, rest) = inner_kind_of(bytes)?;
    let (inner, rest) = downward_fields_of(alloc, kind, rest)?;
    if !rest.is_empty() {
        return Err(ReadFault::Field);
    }
    Ok((inner, rest))
}

#[tactic(auto, unfolding(crate::specs::Bodies::addressed_at))]
fn addressed_of(alloc: Global, bytes: &[u8]) -> Result<(Frame, &[u8]), ReadFault>
    ensures { Gives (λ x. (x.0, x.1.now)) result (frame_at Kind.Addressed bytes.now) }
{
    let (tab, rest) = tab_of(bytes)?;
    let (inner, rest) = downward_of(alloc, rest)?;
    let addressed = Addressed { tab, inner };
    Ok((Frame::Addressed(addressed), rest))
}

#[tactic(auto, unfolding(crate::specs::Bodies::dead_at))]
fn dead_of(bytes: &[u8]) -> Result<(Frame, &[u8]), ReadFault>
    ensures { Gives (λ x. (x.0, x.1.now)) result (frame_at Kind.Dead bytes.now) }
{
    let (tab, rest) = tab_of(bytes)?;
    let dead = Dead { tab };
    Ok((Frame::Dead(dead), rest))
}

/// Decodes the fields of a frame of this kind. Returns the frame and the bytes after it. Fails with
/// `Field` if a field is invalid, and with `Memory` if out of memory.
pub fn frame_of(alloc: Global, kind: Kind, bytes: &[u8]) -> Result<(Frame, &[u8]), ReadFault>
    ensures { Gives (λ x. (x.0, x.1.now)) result (frame_at kind bytes.now) }
{
    match kind {
        Kind::Command => {
            let (command, rest) = command_of(alloc, bytes)?;
            Ok((Frame::Command(command), rest))
        }
        Kind::Report => {
            let (report, rest) = report_of(alloc, bytes)?;
            Ok((Frame::Report(report), rest))
        }
        Kind::ReportPart => {
            let (part, rest) = report_part_of(alloc, bytes)?;
            Ok((Frame::ReportPart(part), rest))
        }
        Kind::Post => post_of(alloc, bytes),
        Kind::Hello => {
            let (hello, rest) = hello_of(bytes)?;
            Ok((Frame::Hello(hello), rest))
        }
        Kind::Answer => {
            let (answer, rest) = answer_of(bytes)?;
            Ok((Frame::Answer(answer), rest))
        }
        Kind::Snapshot => {
            let (snapshot, rest) = snapshot_of(alloc, bytes)?;
            Ok((Frame::Snapshot(snapshot), rest))
        }
        Kind::Heard => heard_of(alloc, bytes),
        Kind::Welcome => welcome_of(alloc, bytes),
        Kind::PairWelcome => pair_welcome_of(alloc, bytes),
        Kind::Stamped => stamped_of(alloc, bytes),
        Kind::Start => start_of(alloc, bytes),
        Kind::Addressed => addressed_of(alloc, bytes),
        Kind::Dead => dead_of(bytes),
    }
}
