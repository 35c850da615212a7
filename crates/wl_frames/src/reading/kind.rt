//! Versions of bodies, and the kinds of frames of each version.

ghost use Rattle.std.specs.Prelude.{◌≡◌, ◌↔◌, IsTrue};
ghost use Rattle.wl_frames.specs.Reading.{kind_at, first_kinds, second_kinds, value_of};
ghost use Rattle.wl_frames.specs.Stream.{IsVersion};

use wl_grammar::kinds::{
    ADDRESSED, ANSWER, COMMAND, DEAD, FIRST_VERSION, HEARD, HELLO, PAIR_WELCOME, POST, REPORT,
    REPORT_PART, SECOND_VERSION, SNAPSHOT, STAMPED, START, WELCOME,
};

/// Kind of a frame.
#[derive(Clone, Copy)]
pub enum Kind {
    Command,
    Report,
    Post,
    Hello,
    Answer,
    Snapshot,
    Heard,
    Welcome,
    Stamped,
    Start,
    Addressed,
    Dead,
    ReportPart,
    PairWelcome,
}

/// Returns whether the version is known.
pub fn is_version(version: u8) -> bool
    ensures { IsTrue result ↔ IsVersion version }
{
    version == FIRST_VERSION || version == SECOND_VERSION
}

/// Returns the kind with this code in this version.
#[tactic(auto, unfolding(crate::specs::Reading::kind_at))]
pub fn kind_of(version: u8, code: u8) -> Option<Kind>
    ensures { result ≡ kind_at version code }
{
    match version {
        FIRST_VERSION => first_kind_of(code),
        SECOND_VERSION => second_kind_of(code),
        _ => None,
    }
}

fn first_kind_of(code: u8) -> Option<Kind>
    ensures { result ≡ value_of first_kinds code }
{
    match code {
        COMMAND => Some(Kind::Command),
        REPORT => Some(Kind::Report),
        POST => Some(Kind::Post),
        HELLO => Some(Kind::Hello),
        ANSWER => Some(Kind::Answer),
        SNAPSHOT => Some(Kind::Snapshot),
        HEARD => Some(Kind::Heard),
        WELCOME => Some(Kind::Welcome),
        STAMPED => Some(Kind::Stamped),
        START => Some(Kind::Start),
        ADDRESSED => Some(Kind::Addressed),
        DEAD => Some(Kind::Dead),
        _ => None,
    }
}

fn second_kind_of(code: u8) -> Option<Kind>
    ensures { result ≡ value_of second_kinds code }
{
    match code {
        REPORT_PART => Some(Kind::ReportPart),
        PAIR_WELCOME => Some(Kind::PairWelcome),
        _ => None,
    }
}
