//! Channel objects of a tab, and the delivery of a post to them.

ghost use Rattle.std.specs.Prelude.{◌≡◌, ◌+◌, ◌<◌, ◌^◌, ◌++◌, [], length, false, IsTrue, OnOk, OnErr};
ghost use Rattle.wl_broadcast.specs.Channels.{new_object, has_room, is_destination, delivered_from, taking_from, full_from, changed_at, is_open_at, name_at, inbox_at, rest_of, first_of};
ghost use Rattle.wl_broadcast.specs.OpenObjects.{seen, all_seen, open_from};

use crate::letter::Letter;
use std::alloc::{AllocError, Global};
use std::collections::VecDeque;
use wl_draft::Name;

/// Maximum number of unread posts in an inbox.
pub const INBOX_LIMIT: usize = 256;

/// A channel object of the tab.
#[derive(Drop)]
pub(crate) struct ChannelObject {
    name: Name,
    is_open: bool,
    /// The unread posts, oldest first.
    inbox: VecDeque<Letter>,
}

impl ChannelObject {
    pub(crate) fn new(alloc: Global, name: Name) -> ChannelObject
        ensures { seen result ≡ new_object name }
    {
        ChannelObject {
            name,
            is_open: true,
            inbox: VecDeque::new(alloc),
        }
    }

    /// Returns the number of unread posts.
    fn waiting(&self) -> usize
        ensures { result ≡ length self.now.inbox.items }
    {
        self.inbox.len()
    }

    fn has_room(&self) -> bool
        ensures { result ≡ has_room (seen self.now) }
    {
        self.waiting() < INBOX_LIMIT
    }

    /// Removes and returns the oldest unread post.
    fn read(&mut self) -> Option<Letter>
        ensures oldest { result ≡ first_of self.old.inbox.items }
        ensures rest { seen self.new ≡ record (seen self.old) { inbox = rest_of self.old.inbox.items } }
    {
        self.inbox.pop_front()
    }

    /// Closes the object, and discards its unread posts.
    fn close(&mut self, alloc: Global)
        ensures { seen self.new ≡ record (seen self.old) { is_open = false; inbox = [] } }
    {
        self.is_open = false;
        self.inbox = VecDeque::new(alloc);
    }
}

/// Returns whether an object with this number exists and is open.
pub(crate) fn is_open_at(objects: &[ChannelObject], number: usize) -> bool
    ensures value { result ≡ is_open_at (all_seen objects.now) number }
    ensures within { IsTrue result → number < length objects.now }
{
    match objects.get(number) {
        Some(object) => object.is_open,
        None => false,
    }
}

pub(crate) fn name_at(objects: &[ChannelObject], number: usize) -> &Name
    requires { number < length objects.now }
    ensures { result.now ≡ name_at (all_seen objects.now) number }
{
    &objects[number].name
}

/// Returns the number of the object's unread posts.
pub(crate) fn waiting_at(objects: &[ChannelObject], number: usize) -> usize
    requires { number < length objects.now }
    ensures { result ≡ length (inbox_at (all_seen objects.now) number) }
{
    objects[number].waiting()
}

/// Removes and returns the object's oldest unread post.
pub(crate) fn read_at(objects: &mut [ChannelObject], number: usize) -> Option<Letter>
    requires { number < length objects.old }
    ensures oldest { result ≡ first_of (inbox_at (all_seen objects.old) number) }
    ensures rest { all_seen objects.new
        ≡ changed_at number (λ o. record o { inbox = rest_of o.inbox }) (all_seen objects.old) }
{
    objects[number].read()
}

/// Closes the object.
pub(crate) fn close_at(objects: &mut [ChannelObject], number: usize, alloc: Global)
    requires { number < length objects.old }
    ensures { all_seen objects.new
        ≡ changed_at number (λ o. record o { is_open = false; inbox = [] }) (all_seen objects.old) }
{
    objects[number].close(alloc);
}

/// A post in delivery to the objects of its channel name.
#[derive(Clone, Copy)]
pub(crate) struct Delivery<'a> {
    /// Number of the object that sent the post, which does not receive it.
    pub(crate) sender: Option<usize>,
    pub(crate) name: &'a Name,
    pub(crate) letter: &'a Letter,
}

impl Delivery<'_> {
    fn is_for(&self, number: usize, object: &ChannelObject) -> bool
        ensures { result ≡ is_destination self.now.sender self.now.name.now number (seen object.now) }
    {
        object.is_open && object.name == *self.name && self.sender != Some(number)
    }
}

/// Numbers of the objects that took a post, and of those whose inbox was full.
#[derive(Drop)]
pub(crate) struct PostDelivery {
    pub(crate) took: Vec<usize>,
    pub(crate) full: Vec<usize>,
}

impl PostDelivery {
    pub(crate) fn new(alloc: Global) -> PostDelivery
        ensures took { result.took.items ≡ [] }
        ensures full { result.full.items ≡ [] }
    {
        PostDelivery {
            took: Vec::new(alloc),
            full: Vec::new(alloc),
        }
    }
}

/// Delivers a post to `objects`. The first object has the number `first`, and `open_numbers` lists
/// the open ones. Each destination reserves room before any takes the post. If out of memory, no
/// object changes.
pub(crate) fn deliver(
    objects: &mut [ChannelObject],
    first: usize,
    open_numbers: &[usize],
    delivery: &Delivery,
    takers: &mut PostDelivery,
) -> Result<(), AllocError>
    requires numbers { first + length objects.old < 2 ^ 64 }
    requires open { open_numbers.now ≡ open_from first (all_seen objects.old) }
    ensures ok { OnOk result (all_seen objects.new
        ≡ delivered_from first delivery.now.sender delivery.now.name.now delivery.now.letter.now
        (all_seen objects.old)) }
    ensures took { OnOk result (takers.new.took.items
        ≡ takers.old.took.items
        ++ taking_from first delivery.now.sender delivery.now.name.now (all_seen objects.old)) }
    ensures full { OnOk result (takers.new.full.items
        ≡ takers.old.full.items
        ++ full_from first delivery.now.sender delivery.now.name.now (all_seen objects.old)) }
    ensures err { OnErr result (all_seen objects.new ≡ all_seen objects.old) }
{
    let Some((number, later)) = open_numbers.split_first() else {
        return Ok(());
    };
    let (_, from) = objects.split_at_mut(*number - first);
    let Some((object, behind)) = from.split_first_mut() else {
        unreachable!();
    };
    if !delivery.is_for(*number, object) {
        return deliver(behind, *number + 1, later, delivery, takers);
    }
    if !object.has_room() {
        takers.full.push(*number)?;
        return deliver(behind, *number + 1, later, delivery, takers);
    }
    takers.took.push(*number)?;
    object.inbox.reserve(1)?;
    let copy = delivery.letter.copy()?;
    if let Err(refused) = deliver(behind, *number + 1, later, delivery, takers) {
        drop(copy);
        return Err(refused);
    }
    object.inbox.push_back_reserved(copy);
    Ok(())
}
