//! Header of a report part.

ghost use Rattle.std.specs.Prelude.{◌≡◌};
ghost use Rattle.wl_broker_reports.specs.ReportParts.{at_once, in_part};
ghost use Rattle.wl_broker_reports.specs.PartialReports.{told};

use wl_grammar::{Report, ReportPart};
use wl_limits::tabs::{LIVE_LIMIT, LIVE_LIMIT_IN_PARTS};

/// Header of one report part: the base, the index of the part, the number of parts, and the tab's
/// lock limit.
#[derive(Clone, Copy)]
pub struct PartHeader {
    pub base: u32,
    pub part: u16,
    pub parts: u16,
    pub limit: u16,
}

impl PartHeader {
    /// Returns the header of a report in a single frame, which is its only part.
    pub fn at_once(report: &Report) -> PartHeader
        ensures { told result report.now.entries ≡ at_once report.now }
    {
        PartHeader {
            base: report.base,
            part: 0,
            parts: 1,
            limit: LIVE_LIMIT as u16,
        }
    }

    /// Returns the header of a report part.
    pub fn in_part(part: &ReportPart) -> PartHeader
        ensures { told result part.now.entries ≡ in_part part.now }
    {
        PartHeader {
            base: part.base,
            part: part.part,
            parts: part.parts,
            limit: LIVE_LIMIT_IN_PARTS as u16,
        }
    }
}
