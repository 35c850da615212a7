//! Keys by which the bag looks up messages.

ghost use Rattle.std.specs.Prelude.{◌≡◌};
ghost use Rattle.wl_world_messages.specs.MessageKeys.{key_of};

use crate::message::Message;
use wl_grammar::{Downward, Upward};

/// Kind, recipient or sender, partition and numbers of a message. Few messages share a key.
#[derive(Clone, Copy, PartialEq, Eq, PartialOrd, Ord)]
pub(crate) enum Key {
    Command {
        tab: u16,
        partition: u16,
        generation: u32,
        number: u32,
    },
    Report {
        tab: u16,
        partition: u16,
        generation: u32,
        base: u32,
    },
    ReportPart {
        tab: u16,
        partition: u16,
        generation: u32,
        base: u32,
        part: u16,
    },
    Hello {
        tab: u16,
        generation: u32,
    },
    Answer {
        tab: u16,
        generation: u32,
        upto: u32,
        number: u32,
    },
    Part {
        tab: u16,
        generation: u32,
        number: u32,
        part: u16,
    },
    Post {
        source: u16,
        target: u16,
        number: u32,
    },
}

/// Returns the key of a message. Equal messages have the same key.
pub(crate) fn key_of(message: &Message) -> Key
    ensures { result ≡ key_of message.now }
{
    match message {
        Message::Up(stamped) => match &stamped.inner {
            Upward::Command(command) => Key::Command {
                tab: stamped.tab,
                partition: stamped.partition,
                generation: command.generation,
                number: command.number,
            },
            Upward::Report(report) => Key::Report {
                tab: stamped.tab,
                partition: stamped.partition,
                generation: report.generation,
                base: report.base,
            },
            Upward::ReportPart(part) => Key::ReportPart {
                tab: stamped.tab,
                partition: stamped.partition,
                generation: part.generation,
                base: part.base,
                part: part.part,
            },
        },
        Message::Down { addressed, .. } => match &addressed.inner {
            Downward::Hello(hello) => Key::Hello {
                tab: addressed.tab,
                generation: hello.generation,
            },
            Downward::Answer(answer) => Key::Answer {
                tab: addressed.tab,
                generation: answer.generation,
                upto: answer.upto,
                number: answer.number,
            },
            Downward::Snapshot(part) => Key::Part {
                tab: addressed.tab,
                generation: part.get().generation,
                number: part.get().number,
                part: part.get().part,
            },
        },
        Message::Across { tab, heard } => Key::Post {
            source: heard.source,
            target: *tab,
            number: heard.number,
        },
    }
}
