//! Frames of a report: a single frame, or one for each part.

ghost use Rattle.std.specs.Prelude.{◌≡◌, ◌≤◌, IfOk, length, map};
ghost use Rattle.wl_agent.specs.Tab.{upward_frame, report_bodies};
ghost use Rattle.wl_agent.specs.AgentInvariant.{IsValidReport};
ghost use Rattle.wl_limits.specs.declared.tabs.TheConstants.{LIVE_LIMIT_IN_PARTS};
ghost use Rattle.wl_grammar.specs.PartCount.{part_count};

use std::alloc::{AllocError, Global};
use wl_grammar::{Entry, Frame, Report, ReportPart, Sequence};
use wl_limits::frames::ENTRY_LIMIT;

/// Returns the frames of a report, by rising part. Fails if out of memory.
pub(crate) fn report_frames(
    alloc: Global,
    in_parts: bool,
    report: &Report,
) -> Result<Sequence<Frame>, AllocError>
    requires { IsValidReport in_parts report.now }
    ensures { IfOk result (λ frames. frames ≡ map upward_frame (report_bodies in_parts report.now)) }
{
    let mut frames = Vec::new(alloc);
    if !in_parts {
        frames.push(Frame::Report(copy_of(report)?))?;
        return Ok(Sequence::new(frames));
    }
    let mut rest = report.entries.as_slice();
    let parts = part_count(rest);
    for part in 0..parts {
        let (entries, later) = rest.split_at(ENTRY_LIMIT.min(rest.len()));
        frames.push(Frame::ReportPart(ReportPart {
            generation: report.generation,
            base: report.base,
            part,
            parts,
            entries: copies(alloc, entries)?,
        }))?;
        rest = later;
    }
    Ok(Sequence::new(frames))
}

/// Returns the number of parts of a report. A report without entries is one part.
fn part_count(entries: &[Entry]) -> u16
    requires { length entries.now ≤ LIVE_LIMIT_IN_PARTS }
    ensures { result ≡ part_count entries.now }
{
    if entries.is_empty() {
        1
    } else {
        entries.len().div_ceil(ENTRY_LIMIT) as u16
    }
}

fn copy_of(report: &Report) -> Result<Report, AllocError>
    ensures { IfOk result (λ copy. copy ≡ report.now) }
{
    report.clone()
}

fn copies(alloc: Global, entries: &[Entry]) -> Result<Sequence<Entry>, AllocError>
    ensures { IfOk result (λ copies. copies ≡ entries.now) }
{
    Ok(Sequence::new(entries.to_vec(alloc)?))
}
