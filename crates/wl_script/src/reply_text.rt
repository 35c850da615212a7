//! The text of replies. Each function appends to the output.

ghost use Rattle.std.specs.Prelude.{◌≡◌, ◌++◌, OnOk, IfOk};
ghost use Rattle.std.specs.List.{flat_map};
ghost use Rattle.wl_script.specs.ReplyTexts.{sender_text, message_text, name_text, sent_text, ended_text, letter_text, reached_text, heard_text, said_text, reply_text};

use crate::message_text::{put_downward, put_part, put_post, put_upward};
use crate::refusal_text::{put_refusal, reason_words};
use bytes::Bytes;
use itoa::Buffer;
use std::alloc::{AllocError, Global};
use wl_agent::Snapshot;
use wl_broadcast::Letter;
use wl_origin::Partition;
use wl_script_words::printing::{put, put_number, put_numbered};
use wl_script_words::{put_word, snapshot_json};
use wl_world::message::{Message, Sender};
use wl_world::reply::{Effect, Ended, Reached, Reason, Refusal, Reply, Sent};

// Messages

#[tactic(auto, unfolding(crate::specs::ReplyTexts::sender_text))]
fn sender_word(sender: Sender) -> &'static str
    ensures { result.now ≡ sender_text sender }
{
    match sender {
        Sender::Kernel => "k>",
        Sender::Broker => "b>",
    }
}

/// Appends a message with its sender and receiver.
#[tactic(auto, unfolding(crate::specs::ReplyTexts::message_text))]
pub fn put_message(out: &mut Vec<u8>, message: &Message) -> Result<(), AllocError>
    ensures { OnOk result (out.new.items ≡ out.old.items ++ message_text message.now) }
{
    match message {
        Message::Up(stamped) => {
            put_number(out, u64::from(stamped.tab))?;
            put(out, ">b ")?;
            put_upward(out, &stamped.inner)
        }
        Message::Down { sender, addressed } => {
            put(out, sender_word(*sender))?;
            put_number(out, u64::from(addressed.tab))?;
            put(out, " ")?;
            put_downward(out, &addressed.inner)
        }
        Message::Across { tab, heard } => {
            put_number(out, u64::from(heard.source))?;
            put(out, ">")?;
            put_number(out, u64::from(*tab))?;
            put(out, " ")?;
            put_post(out, heard)
        }
    }
}

/// Appends the name of the message at this index of the bag.
#[tactic(auto, unfolding(crate::specs::ReplyTexts::name_text))]
fn put_name(out: &mut Vec<u8>, place: usize) -> Result<(), AllocError>
    ensures { OnOk result (out.new.items ≡ out.old.items ++ name_text place) }
{
    put(out, "m")?;
    let mut buffer = Buffer::new();
    out.extend_from_slice(buffer.format(place as u128 + 1).as_bytes())
}

/// Appends the line of a message that was sent, or sent again.
#[tactic(auto, unfolding(crate::specs::ReplyTexts::sent_text))]
fn put_sent(out: &mut Vec<u8>, sent: &Sent) -> Result<(), AllocError>
    ensures { OnOk result (out.new.items ≡ out.old.items ++ sent_text sent.now) }
{
    if !sent.is_new {
        put(out, "again ")?;
        put_name(out, sent.place)?;
        return put(out, "\n");
    }
    put_name(out, sent.place)?;
    put(out, " ")?;
    put_message(out, &sent.message)?;
    put(out, "\n")
}

fn put_all_sent(out: &mut Vec<u8>, sent: &[Sent]) -> Result<(), AllocError>
    ensures { OnOk result (out.new.items ≡ out.old.items ++ flat_map sent_text sent.now) }
{
    for one in sent {
        put_sent(out, one)?;
    }
    Ok(())
}

// Results of events

#[tactic(auto, unfolding(crate::specs::ReplyTexts::ended_text))]
fn put_ended(out: &mut Vec<u8>, ended: Ended) -> Result<(), AllocError>
    ensures { OnOk result (out.new.items ≡ out.old.items ++ ended_text ended) }
{
    match ended {
        Ended::Null(number) => put_numbered(out, "null", u64::from(number)),
        Ended::Lost(number) => put_numbered(out, "lost", u64::from(number)),
    }
}

fn put_all_ended(out: &mut Vec<u8>, endings: &[Ended]) -> Result<(), AllocError>
    ensures { OnOk result (out.new.items ≡ out.old.items ++ flat_map ended_text endings.now) }
{
    for ended in endings {
        put_ended(out, *ended)?;
    }
    Ok(())
}

/// Appends a post as its receivers know it: source, number and data.
#[tactic(auto, unfolding(crate::specs::ReplyTexts::letter_text))]
fn put_letter(out: &mut Vec<u8>, source: u16, number: u32, bytes: &[u8]) -> Result<(), AllocError>
    ensures { OnOk result (out.new.items ≡ out.old.items ++ letter_text source number bytes.now) }
{
    put_number(out, u64::from(source))?;
    put(out, "#")?;
    put_number(out, u64::from(number))?;
    put(out, " ")?;
    put_word(out, bytes)
}

/// Appends the line for a post at one of the tab's channel objects, which took it or was full.
#[tactic(auto, unfolding(crate::specs::ReplyTexts::reached_text))]
fn put_reached(
    out: &mut Vec<u8>,
    tab: u16,
    letter: &[u8],
    reached: Reached,
) -> Result<(), AllocError>
    ensures { OnOk result (out.new.items ≡ out.old.items ++ reached_text tab letter.now reached) }
{
    put_number(out, u64::from(tab))?;
    put(out, "*")?;
    match reached {
        Reached::Took(channel) => {
            put_number(out, channel as u64)?;
            put(out, " heard ")?;
            out.extend_from_slice(letter)?;
            put(out, "\n")
        }
        Reached::Full(channel) => {
            put_number(out, channel as u64)?;
            put(out, " full\n")
        }
    }
}

fn put_all_reached(
    out: &mut Vec<u8>,
    tab: u16,
    letter: &[u8],
    objects: &[Reached],
) -> Result<(), AllocError>
    ensures { OnOk result (out.new.items
        ≡ out.old.items ++ flat_map (reached_text tab letter.now) objects.now) }
{
    for reached in objects {
        put_reached(out, tab, letter, *reached)?;
    }
    Ok(())
}

#[tactic(auto, unfolding(crate::specs::ReplyTexts::heard_text))]
fn put_heard(
    out: &mut Vec<u8>,
    tab: u16,
    letter: &[u8],
    objects: &[Reached],
) -> Result<(), AllocError>
    ensures { OnOk result (out.new.items ≡ out.old.items ++ heard_text tab letter.now objects.now) }
{
    match objects {
        [] => put(out, "heard none\n"),
        _ => put_all_reached(out, tab, letter, objects),
    }
}

fn letter_of(alloc: Global, source: u16, number: u32, bytes: &[u8]) -> Result<Vec<u8>, AllocError>
    ensures { IfOk result (λ letter. letter.items ≡ letter_text source number bytes.now) }
{
    let mut letter = Vec::new(alloc);
    put_letter(&mut letter, source, number, bytes)?;
    Ok(letter)
}

#[tactic(auto, unfolding(crate::specs::ReplyTexts::said_text))]
fn put_refused(out: &mut Vec<u8>, refusal: Refusal) -> Result<(), AllocError>
    ensures { OnOk result (out.new.items ≡ out.old.items ++ said_text (Effect.Refused refusal)) }
{
    put_refusal(out, refusal)?;
    put(out, "\n")
}

#[tactic(auto, unfolding(crate::specs::ReplyTexts::said_text))]
fn put_dropped(out: &mut Vec<u8>, reason: Reason) -> Result<(), AllocError>
    ensures { OnOk result (out.new.items ≡ out.old.items ++ said_text (Effect.Dropped reason)) }
{
    put(out, "dropped ")?;
    put(out, reason_words(reason))?;
    put(out, "\n")
}

#[tactic(auto, unfolding(crate::specs::ReplyTexts::said_text))]
fn put_opened(out: &mut Vec<u8>, tab: u16, partition: &Partition) -> Result<(), AllocError>
    ensures { OnOk result (out.new.items ≡ out.old.items ++ said_text (Effect.Opened tab partition.now)) }
{
    put(out, "opened ")?;
    put_number(out, u64::from(tab))?;
    put(out, " ")?;
    put(out, partition.text())?;
    put(out, "\n")
}

#[tactic(auto, unfolding(crate::specs::ReplyTexts::said_text))]
fn put_opened_two(out: &mut Vec<u8>, tab: u16, partition: &Partition) -> Result<(), AllocError>
    ensures { OnOk result (out.new.items ≡ out.old.items ++ said_text (Effect.OpenedTwo tab partition.now)) }
{
    put(out, "opened ")?;
    put_number(out, u64::from(tab))?;
    put(out, " ")?;
    put(out, partition.top_text())?;
    put(out, " ")?;
    put(out, partition.text())?;
    put(out, "\n")
}

#[tactic(auto, unfolding(crate::specs::ReplyTexts::said_text))]
fn put_issued(out: &mut Vec<u8>, tab: u16, number: u32) -> Result<(), AllocError>
    ensures { OnOk result (out.new.items ≡ out.old.items ++ said_text (Effect.Issued tab number)) }
{
    put_number(out, u64::from(tab))?;
    put(out, "#")?;
    put_number(out, u64::from(number))?;
    put(out, "\n")
}

#[tactic(auto, unfolding(crate::specs::ReplyTexts::said_text))]
fn put_entered(out: &mut Vec<u8>, generation: u32, ended: &[Ended]) -> Result<(), AllocError>
    ensures { OnOk result (out.new.items ≡ out.old.items ++ said_text (Effect.Entered generation ended.now)) }
{
    put_numbered(out, "entered", u64::from(generation))?;
    put_all_ended(out, ended)
}

#[tactic(auto, unfolding(crate::specs::ReplyTexts::said_text))]
fn put_one_part(out: &mut Vec<u8>, part: u16, parts: u16) -> Result<(), AllocError>
    ensures { OnOk result (out.new.items ≡ out.old.items ++ said_text (Effect.Part part parts)) }
{
    put_part(out, part, parts)?;
    put(out, "\n")
}

#[tactic(auto, unfolding(crate::specs::ReplyTexts::said_text))]
fn put_whole(
    alloc: Global,
    out: &mut Vec<u8>,
    number: u32,
    snapshot: &Snapshot,
) -> Result<(), AllocError>
    ensures { OnOk result (out.new.items ≡ out.old.items ++ said_text (Effect.Whole number snapshot.now)) }
{
    put_numbered(out, "whole", u64::from(number))?;
    let json = snapshot_json(alloc, snapshot)?;
    put(out, json.as_str())?;
    put(out, "\n")
}

/// Appends the lines for a post that arrived at the tab.
#[tactic(auto, unfolding(crate::specs::ReplyTexts::said_text))]
fn put_hearing(
    alloc: Global,
    out: &mut Vec<u8>,
    tab: u16,
    letter: &Letter,
    objects: &[Reached],
) -> Result<(), AllocError>
    ensures { OnOk result (out.new.items
        ≡ out.old.items ++ said_text (Effect.Heard tab letter.now objects.now)) }
{
    let letter = letter_of(alloc, letter.source, letter.number, &letter.bytes)?;
    put_heard(out, tab, letter.as_slice(), objects)
}

/// Appends the lines for a post that the tab sent.
#[tactic(auto, unfolding(crate::specs::ReplyTexts::said_text))]
fn put_posted(
    alloc: Global,
    out: &mut Vec<u8>,
    tab: u16,
    number: u32,
    bytes: &Bytes,
    objects: &[Reached],
) -> Result<(), AllocError>
    ensures { OnOk result (out.new.items
        ≡ out.old.items ++ said_text (Effect.Posted tab number bytes.now objects.now)) }
{
    let letter = letter_of(alloc, tab, number, bytes)?;
    put_numbered(out, "post", u64::from(number))?;
    put_all_reached(out, tab, letter.as_slice(), objects)
}

#[tactic(auto, unfolding(crate::specs::ReplyTexts::said_text))]
fn put_read(out: &mut Vec<u8>, letter: &Letter) -> Result<(), AllocError>
    ensures { OnOk result (out.new.items ≡ out.old.items ++ said_text (Effect.Read letter.now)) }
{
    put(out, "read ")?;
    put_letter(out, letter.source, letter.number, &letter.bytes)?;
    put(out, "\n")
}

/// Appends the result of an event, without the messages sent.
#[tactic(auto, unfolding(crate::specs::ReplyTexts::said_text))]
fn put_said(alloc: Global, out: &mut Vec<u8>, said: &Effect) -> Result<(), AllocError>
    ensures { OnOk result (out.new.items ≡ out.old.items ++ said_text said.now) }
{
    match said {
        Effect::Refused(refusal) => put_refused(out, *refusal),
        Effect::Dropped(reason) => put_dropped(out, *reason),
        Effect::Opened { tab, partition } => put_opened(out, *tab, partition),
        Effect::OpenedTwo { tab, partition } => put_opened_two(out, *tab, partition),
        Effect::Started { generation } => put_numbered(out, "up", u64::from(*generation)),
        Effect::Stopped { generation } => put_numbered(out, "stopped", u64::from(*generation)),
        Effect::Greeted | Effect::Resent | Effect::Answered | Effect::Forged => Ok(()),
        Effect::Killed { tab } => put_numbered(out, "killed", u64::from(*tab)),
        Effect::Told { tab } => put_numbered(out, "told", u64::from(*tab)),
        Effect::Issued { tab, number } => put_issued(out, *tab, *number),
        Effect::Joined { tab } => put_numbered(out, "joined", u64::from(*tab)),
        Effect::Entered { generation, ended } => put_entered(out, *generation, ended.as_slice()),
        Effect::Granted(number) => put_numbered(out, "granted", u64::from(*number)),
        Effect::Waiting(number) => put_numbered(out, "waiting", u64::from(*number)),
        Effect::Null(number) => put_numbered(out, "null", u64::from(*number)),
        Effect::Lost(number) => put_numbered(out, "lost", u64::from(*number)),
        Effect::Taken(number) => put_numbered(out, "taken", u64::from(*number)),
        Effect::Part { part, parts } => put_one_part(out, *part, *parts),
        Effect::Whole { number, snapshot } => put_whole(alloc, out, *number, snapshot),
        Effect::Heard {
            tab,
            letter,
            objects,
        } => put_hearing(alloc, out, *tab, letter, objects.as_slice()),
        Effect::ChannelOpened { channel } => put_numbered(out, "channel", *channel as u64),
        Effect::Posted {
            tab,
            number,
            bytes,
            objects,
        } => put_posted(alloc, out, *tab, *number, bytes, objects.as_slice()),
        Effect::Read(letter) => put_read(out, letter),
        Effect::Closed { channel } => put_numbered(out, "closed", *channel as u64),
        Effect::Corrupted { tab } => put_numbered(out, "corrupted", u64::from(*tab)),
    }
}

// Replies

/// Appends the whole reply to one event, as lines.
#[tactic(auto, unfolding(crate::specs::ReplyTexts::reply_text))]
pub fn put_reply(alloc: Global, out: &mut Vec<u8>, reply: &Reply) -> Result<(), AllocError>
    ensures { OnOk result (out.new.items ≡ out.old.items ++ reply_text reply.now) }
{
    put_said(alloc, out, &reply.said)?;
    put_all_sent(out, reply.sent.as_slice())
}
