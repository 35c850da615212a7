//! Entering a generation.

ghost use Rattle.std.specs.Prelude.{◌≡◌, ◌<◌, ◌≤◌, length, IfOk, OnOk, OnErr};
ghost use Rattle.std.specs.List.{AllByRecursion};
ghost use Rattle.wl_grammar.specs.Grammar.{IsWellFormed};
ghost use Rattle.wl_agent.specs.Tab.{enter, report_frames};
ghost use Rattle.wl_agent.specs.AgentInvariant.{carried_tab, begun, IsValidReport};

use crate::agent::Agent;
use crate::reporting::report_frames;
use std::alloc::AllocError;
use wl_grammar::{Frame, Report, Sequence};

impl Agent {
    /// Enters a later generation, and returns the frames of its report. Fails if out of memory, and
    /// then changes nothing.
    pub(crate) fn enter(&mut self, generation: u32) -> Result<Sequence<Frame>, AllocError>
        requires { self.old.entered < generation }
        ensures ok { OnOk result (self.new ≡ enter generation self.old) }
        ensures frames { IfOk result (λ frames. frames ≡ report_frames (enter generation self.old)) }
        ensures spoken { IfOk result (λ frames. AllByRecursion IsWellFormed frames) }
        ensures err { OnErr result (self.new ≡ self.old) }
    {
        let report = self.next_report(generation)?;
        let frames = report_frames(self.alloc, self.in_parts, &report)?;
        self.carry();
        self.begin(report);
        Ok(frames)
    }

    /// Updates the statuses for a later generation. In the first generation of a life they stay
    /// unchanged.
    fn carry(&mut self)
        ensures { self.new ≡ carried_tab self.old }
    {
        if self.entered == 0 {
            return;
        }
        self.statuses.carry(&self.issued);
    }

    /// Starts the generation of this report.
    fn begin(&mut self, report: Report)
        requires base { report.base ≤ length self.old.issued }
        requires tellable { IsValidReport self.old.in_parts report }
        ensures { self.new ≡ begun report self.old }
    {
        self.entered = report.generation;
        self.acknowledged = report.base;
        self.answered = false;
        self.report = report;
    }

    /// Returns the report of the next generation to enter.
    fn next_report(&self, generation: u32) -> Result<Report, AllocError>
        ensures report { IfOk result (λ report. report ≡ (enter generation self.now).report) }
        ensures tellable { IfOk result (λ report. IsValidReport self.now.in_parts report) }
    {
        if self.entered == 0 {
            return Ok(Report {
                generation,
                base: 0,
                entries: Sequence::new(Vec::new(self.alloc)),
            });
        }
        let entries = self.statuses.reported(self.alloc, &self.issued)?;
        Ok(Report {
            generation,
            base: self.count(),
            entries: Sequence::new(entries),
        })
    }
}
