//! Equality of messages: the same sender, recipient and content.

ghost use Rattle.std.specs.Prelude.{◌≡◌};
ghost use Rattle.wl_world_messages.specs.Messages.{same_heard, same_message};

use crate::message::Message;
use wl_grammar::Heard;

pub(crate) fn same_message(one: &Message, other: &Message) -> bool
    ensures { result ≡ same_message one.now other.now }
{
    match (one, other) {
        (Message::Up(one), Message::Up(other)) => one == other,
        (
            Message::Down { sender, addressed },
            Message::Down {
                sender: other_sender,
                addressed: other,
            },
        ) => sender == other_sender && addressed == other,
        (
            Message::Across { tab, heard },
            Message::Across {
                tab: other_tab,
                heard: other,
            },
        ) => tab == other_tab && same_heard(heard, other),
        _ => false,
    }
}

fn same_heard(one: &Heard, other: &Heard) -> bool
    ensures { result ≡ same_heard one.now other.now }
{
    one.source == other.source
        && one.number == other.number
        && one.channel == other.channel
        && one.bytes == other.bytes
}
