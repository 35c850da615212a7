//! The text of messages. Each function appends to the output.

ghost use Rattle.std.specs.Prelude.{◌≡◌, ◌++◌, OnOk};
ghost use Rattle.std.specs.List.{flat_map};
ghost use Rattle.wl_script.specs.MessageTexts.{held_text, outcome_text, lock_text, command_number, operation_text, command_text, entry_text, report_text, report_part_text, upward_text, hello_text, answer_text, row_text, part_text, snapshot_text, downward_text, post_text};

use std::alloc::AllocError;
use wl_frames::{
    Answer, Command, Downward, Entry, Heard, Hello, Mode, Name, Operation, Outcome, Report,
    ReportPart, Snapshot, SnapshotEntry, Upward,
};
use wl_script_words::printing::{mode_word, put, put_number};
use wl_script_words::put_word;

// Parts of messages

#[tactic(auto, unfolding(crate::specs::MessageTexts::held_text))]
fn held_word(held: bool) -> &'static str
    ensures { result.now ≡ held_text held }
{
    if held { "held" } else { "waiting" }
}

#[tactic(auto, unfolding(crate::specs::MessageTexts::outcome_text))]
fn outcome_word(outcome: Outcome) -> &'static str
    ensures { result.now ≡ outcome_text outcome }
{
    match outcome {
        Outcome::Waiting => "waiting",
        Outcome::Granted => "granted",
        Outcome::Gone => "gone",
        Outcome::Taken => "taken",
    }
}

/// Appends a lock's mode and name.
#[tactic(auto, unfolding(crate::specs::MessageTexts::lock_text))]
pub fn put_lock(out: &mut Vec<u8>, mode: Mode, name: &Name) -> Result<(), AllocError>
    ensures { OnOk result (out.new.items ≡ out.old.items ++ lock_text mode name.now) }
{
    put(out, mode_word(mode))?;
    put(out, " ")?;
    put_word(out, name.as_str().as_bytes())
}

#[tactic(auto, unfolding(crate::specs::MessageTexts::command_number))]
fn put_command_number(out: &mut Vec<u8>, generation: u32, number: u32) -> Result<(), AllocError>
    ensures { OnOk result (out.new.items ≡ out.old.items ++ command_number generation number) }
{
    put(out, "gen ")?;
    put_number(out, u64::from(generation))?;
    put(out, " #")?;
    put_number(out, u64::from(number))
}

/// Appends `part P of Q`.
#[tactic(auto, unfolding(crate::specs::MessageTexts::part_text))]
pub(crate) fn put_part(out: &mut Vec<u8>, part: u16, parts: u16) -> Result<(), AllocError>
    ensures { OnOk result (out.new.items ≡ out.old.items ++ part_text part parts) }
{
    put(out, "part ")?;
    put_number(out, u64::from(part))?;
    put(out, " of ")?;
    put_number(out, u64::from(parts))
}

// From tabs to the broker

#[tactic(auto, unfolding(crate::specs::MessageTexts::operation_text))]
fn put_operation(out: &mut Vec<u8>, operation: &Operation) -> Result<(), AllocError>
    ensures { OnOk result (out.new.items ≡ out.old.items ++ operation_text operation.now) }
{
    match operation {
        Operation::Request {
            mode,
            if_available,
            name,
        } => {
            if *if_available {
                put(out, " probe ")?;
            } else {
                put(out, " request ")?;
            }
            put_lock(out, *mode, name)
        }
        Operation::Release { number } => {
            put(out, " release ")?;
            put_number(out, u64::from(*number))
        }
        Operation::Abort { number } => {
            put(out, " abort ")?;
            put_number(out, u64::from(*number))
        }
        Operation::Query => put(out, " query"),
    }
}

#[tactic(auto, unfolding(crate::specs::MessageTexts::command_text))]
fn put_command(out: &mut Vec<u8>, command: &Command) -> Result<(), AllocError>
    ensures { OnOk result (out.new.items ≡ out.old.items ++ command_text command.now) }
{
    put_command_number(out, command.generation, command.number)?;
    put_operation(out, &command.operation)
}

#[tactic(auto, unfolding(crate::specs::MessageTexts::entry_text))]
fn put_entry(out: &mut Vec<u8>, entry: &Entry) -> Result<(), AllocError>
    ensures { OnOk result (out.new.items ≡ out.old.items ++ entry_text entry.now) }
{
    put(out, " #")?;
    put_number(out, u64::from(entry.number))?;
    put(out, " ")?;
    put(out, held_word(entry.held))?;
    put(out, " ")?;
    put_lock(out, entry.mode, &entry.name)
}

fn put_entries(out: &mut Vec<u8>, entries: &[Entry]) -> Result<(), AllocError>
    ensures { OnOk result (out.new.items ≡ out.old.items ++ flat_map entry_text entries.now) }
{
    for entry in entries {
        put_entry(out, entry)?;
    }
    Ok(())
}

#[tactic(auto, unfolding(crate::specs::MessageTexts::report_text))]
fn put_report(out: &mut Vec<u8>, report: &Report) -> Result<(), AllocError>
    ensures { OnOk result (out.new.items ≡ out.old.items ++ report_text report.now) }
{
    put(out, "report ")?;
    put_number(out, u64::from(report.generation))?;
    put(out, " base ")?;
    put_number(out, u64::from(report.base))?;
    put_entries(out, report.entries.as_slice())
}

#[tactic(auto, unfolding(crate::specs::MessageTexts::report_part_text))]
fn put_report_part(out: &mut Vec<u8>, report: &ReportPart) -> Result<(), AllocError>
    ensures { OnOk result (out.new.items ≡ out.old.items ++ report_part_text report.now) }
{
    put(out, "report2 ")?;
    put_number(out, u64::from(report.generation))?;
    put(out, " base ")?;
    put_number(out, u64::from(report.base))?;
    put(out, " ")?;
    put_part(out, report.part, report.parts)?;
    put_entries(out, report.entries.as_slice())
}

/// Appends the text of a tab's message to the broker.
#[tactic(auto, unfolding(crate::specs::MessageTexts::upward_text))]
pub(crate) fn put_upward(out: &mut Vec<u8>, upward: &Upward) -> Result<(), AllocError>
    ensures { OnOk result (out.new.items ≡ out.old.items ++ upward_text upward.now) }
{
    match upward {
        Upward::Command(command) => put_command(out, command),
        Upward::Report(report) => put_report(out, report),
        Upward::ReportPart(part) => put_report_part(out, part),
    }
}

// To tabs

#[tactic(auto, unfolding(crate::specs::MessageTexts::hello_text))]
fn put_hello(out: &mut Vec<u8>, hello: &Hello) -> Result<(), AllocError>
    ensures { OnOk result (out.new.items ≡ out.old.items ++ hello_text hello.now) }
{
    put(out, "hello ")?;
    put_number(out, u64::from(hello.generation))
}

#[tactic(auto, unfolding(crate::specs::MessageTexts::answer_text))]
fn put_answer(out: &mut Vec<u8>, answer: &Answer) -> Result<(), AllocError>
    ensures { OnOk result (out.new.items ≡ out.old.items ++ answer_text answer.now) }
{
    put_command_number(out, answer.generation, answer.number)?;
    put(out, " ")?;
    put(out, outcome_word(answer.outcome))?;
    put(out, " upto ")?;
    put_number(out, u64::from(answer.upto))
}

#[tactic(auto, unfolding(crate::specs::MessageTexts::row_text))]
fn put_row(out: &mut Vec<u8>, row: &SnapshotEntry) -> Result<(), AllocError>
    ensures { OnOk result (out.new.items ≡ out.old.items ++ row_text row.now) }
{
    put(out, " ")?;
    put(out, held_word(row.held))?;
    put(out, " ")?;
    put_number(out, u64::from(row.tab))?;
    put(out, " ")?;
    put_lock(out, row.mode, &row.name)
}

fn put_rows(out: &mut Vec<u8>, rows: &[SnapshotEntry]) -> Result<(), AllocError>
    ensures { OnOk result (out.new.items ≡ out.old.items ++ flat_map row_text rows.now) }
{
    for row in rows {
        put_row(out, row)?;
    }
    Ok(())
}

#[tactic(auto, unfolding(crate::specs::MessageTexts::snapshot_text))]
fn put_snapshot(out: &mut Vec<u8>, snapshot: &Snapshot) -> Result<(), AllocError>
    ensures { OnOk result (out.new.items ≡ out.old.items ++ snapshot_text snapshot.now) }
{
    put_command_number(out, snapshot.generation, snapshot.number)?;
    put(out, " ")?;
    put_part(out, snapshot.part, snapshot.parts)?;
    put_rows(out, snapshot.entries.as_slice())
}

/// Appends the text of a broker's message to a tab.
#[tactic(auto, unfolding(crate::specs::MessageTexts::downward_text))]
pub(crate) fn put_downward(out: &mut Vec<u8>, downward: &Downward) -> Result<(), AllocError>
    ensures { OnOk result (out.new.items ≡ out.old.items ++ downward_text downward.now) }
{
    match downward {
        Downward::Hello(hello) => put_hello(out, hello),
        Downward::Answer(answer) => put_answer(out, answer),
        Downward::Snapshot(snapshot) => put_snapshot(out, snapshot.get()),
    }
}

// Between tabs

/// Appends the text of a post on its way to a tab.
#[tactic(auto, unfolding(crate::specs::MessageTexts::post_text))]
pub(crate) fn put_post(out: &mut Vec<u8>, post: &Heard) -> Result<(), AllocError>
    ensures { OnOk result (out.new.items ≡ out.old.items ++ post_text post.now) }
{
    put(out, "post ")?;
    put_number(out, u64::from(post.number))?;
    put(out, " ")?;
    put_word(out, post.channel.as_str().as_bytes())?;
    put(out, " ")?;
    put_word(out, &post.bytes)
}
