//! Bag of all messages that were ever sent.

ghost use Rattle.std.specs.Prelude.{◌≡◌, [], ◌∷◌, ◌++◌, length, is_some, IfOk, OnOk, OnErr, slice_get, find, if◌then◌else◌};
ghost use Rattle.std.specs.Option.{option_copied};
ghost use Rattle.wl_world_messages.specs.Messages.{is_sent, place_of, sent, sending};
ghost use Rattle.wl_world_messages.specs.BagIndex.{places_at, same_key, is_at};

use crate::message::Message;
use crate::message_key::{self, Key};
use crate::places::Places;
use crate::sameness::same_message;
use crate::sent::Sent;
use std::alloc::{AllocError, Global};
use std::collections::BTreeMap;
use std::marker::Model;

/// All messages in the order of sending, each once. Contracts treat the bag as a list.
#[derive(Drop)]
pub struct Bag {
    alloc: Global,
    messages: Vec<Message>,
    /// The places of the messages with each key.
    index: BTreeMap<Key, Places>,
}

impl Model for Bag {
    ghost use Rattle.std.specs.Prelude.{List};
    ghost use Rattle.wl_world_messages.specs.declared.message.Message.{Message};
    ghost use Rattle.wl_world_messages.specs.BagIndex.{IsIndexOf};

    ghost Value = { List Message };

    ghost view = { λ b. b.messages.items };

    ghost invariant = { λ b. IsIndexOf b.messages.items b.index };
}

impl Bag {
    /// Returns an empty bag.
    pub fn new(alloc: Global) -> Bag
        ensures { result ≡ [] }
    {
        Bag {
            alloc,
            messages: Vec::new(alloc),
            index: BTreeMap::new(alloc),
        }
    }

    /// Returns the message at a place, counted from 0.
    pub fn get(&self, place: usize) -> Option<&Message>
        ensures { option_copied result ≡ slice_get self.now place }
    {
        self.messages.get(place)
    }

    /// Returns the place of the message, or `None` if it was never sent.
    pub fn find(&self, message: &Message) -> Option<usize>
        ensures place { result ≡ place_of message.now self.now }
        ensures sent { is_some result ≡ is_sent message.now self.now }
    {
        let places = places_at(&self.index, message_key::key_of(message));
        find_at(places, &self.messages, message)
    }

    /// Puts a message into the bag. A new message is appended after all others. Fails if out of memory.
    pub fn put(&mut self, message: Message) -> Result<Sent, AllocError>
        ensures ok { OnOk result (self.new ≡ sent message self.old) }
        ensures sending { IfOk result (λ s. s ≡ sending message self.old) }
        ensures err { OnErr result (self.new ≡ self.old) }
    {
        match self.find(&message) {
            Some(place) => Ok(Sent {
                message,
                place,
                is_new: false,
            }),
            None => {
                let place = self.add(message.copy()?)?;
                Ok(Sent {
                    message,
                    place,
                    is_new: true,
                })
            }
        }
    }

    /// Appends a message and returns its place.
    fn add(&mut self, message: Message) -> Result<usize, AllocError>
        ensures ok { OnOk result (self.new ≡ self.old ++ message ∷ []) }
        ensures place { IfOk result (λ place. place ≡ length self.old) }
        ensures err { OnErr result (self.new ≡ self.old) }
    {
        let place = self.messages.len();
        self.messages.reserve(1)?;
        note(
            &mut self.index,
            self.alloc,
            message_key::key_of(&message),
            place,
        )?;
        self.messages.push_reserved(message);
        Ok(place)
    }
}

/// Returns the places that the index has for the key.
fn places_at(index: &BTreeMap<Key, Places>, key: Key) -> &[usize]
    ensures { result.now ≡ places_at index.now key }
{
    match index.get(&key) {
        Some(places) => places.as_slice(),
        None => &[],
    }
}

/// Returns the first of these places that has an equal message.
fn find_at(places: &[usize], messages: &[Message], message: &Message) -> Option<usize>
    ensures { result ≡ find (is_at message.now messages.now) places.now }
{
    places
        .iter()
        .copied()
        .find(|place| is_at(messages, *place, message))
}

fn is_at(messages: &[Message], place: usize, message: &Message) -> bool
    ensures { result ≡ is_at message.now messages.now place }
{
    match messages.get(place) {
        Some(other) => same_message(message, other),
        None => false,
    }
}

/// Adds a place to the index under the key.
fn note(
    index: &mut BTreeMap<Key, Places>,
    alloc: Global,
    key: Key,
    place: usize,
) -> Result<(), AllocError>
    ensures ok { OnOk result ((k : Key) → places_at index.new k
        ≡ (if same_key key k then places_at index.old k ++ place ∷ [] else places_at index.old k)) }
    ensures err { OnErr result ((k : Key) → places_at index.new k ≡ places_at index.old k) }
{
    match index.get_mut(&key) {
        Some(places) => places.push(place)?,
        None => {
            index.insert(key, Places::of(alloc, place)?)?;
        }
    }
    Ok(())
}
