//! Generation of a frame from a tab.

ghost use Rattle.std.specs.Prelude.{◌≡◌};
ghost use Rattle.wl_grammar.specs.Generation.{generation_of};

use crate::frame::Upward;

impl Upward {
    /// Returns the generation for which the tab sent the frame.
    pub fn generation(&self) -> u32
        ensures { result ≡ generation_of self.now }
    {
        match self {
            Upward::Command(command) => command.generation,
            Upward::Report(report) => report.generation,
            Upward::ReportPart(part) => part.generation,
        }
    }
}
