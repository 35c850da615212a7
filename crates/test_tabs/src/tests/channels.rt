//! A tab's channels. A call that is refused memory leaves the channels unchanged, is made again, and must then give its answer.

use bytes::Bytes;
use std::alloc::Global;
use std::process::Abort;
use test_support::retry::{BACK, bytes, letters, name};
use wl_broadcast::channels::POST_LIMIT;
use wl_broadcast::{Channel, ChannelFault, Channels, Foreign, Hearing, Letter, Posted};
use wl_frames::{Frame, Heard};

/// Calls `open` alone. A caller without its clauses is proved much sooner, as with each function below named `_once`.
fn open_once(channels: &mut Channels, name: &str) -> Result<Channel, ChannelFault> {
    channels.open(name)
}

fn inbox_once(channels: &Channels, channel: &Channel) -> Result<usize, ChannelFault> {
    channels.inbox(channel)
}

/// Count of channels that `Inboxes` has.
const SEEN: usize = 3;

/// Counts of waiting posts in the channels that a test holds, or None for a closed channel. Looking takes no memory.
type Inboxes = [Option<usize>; SEEN];

fn inboxes(channels: &Channels, held: &[&Channel]) -> Inboxes {
    let mut inboxes = [None; SEEN];
    for (inbox, channel) in inboxes.iter_mut().zip(held) {
        *inbox = inbox_once(channels, channel).ok();
    }
    inboxes
}

/// Asserts that a call was refused memory and nothing else, and that it changed nothing.
fn is_unchanged(
    rt: &impl Abort,
    channels: &Channels,
    held: &[&Channel],
    before: Inboxes,
    fault: ChannelFault,
) {
    assert!(rt; fault == ChannelFault::Memory);
    assert!(rt; inboxes(channels, held) == before);
}

/// Opens a channel beside the held ones, and compares its number.
fn open(
    rt: &impl Abort,
    channels: &mut Channels,
    held: &[&Channel],
    name: &str,
    number: usize,
) -> Channel {
    let before = inboxes(channels, held);
    let channel = match open_once(channels, name) {
        Ok(channel) => channel,
        Err(fault) => {
            is_unchanged(rt, channels, held, before, fault);
            open_once(channels, name).expect(rt, BACK)
        }
    };
    assert!(rt; channel.number() == number);
    channel
}

fn close(rt: &impl Abort, channels: &mut Channels, channel: Channel) {
    match channels.close(channel) {
        Ok(()) => {}
        Err(_foreign) => panic!(rt; "the channel was refused"),
    }
}

/// Closes the last channel of a tab, and drops the tab's channels.
fn close_last(rt: &impl Abort, mut channels: Channels, channel: Channel) {
    close(rt, &mut channels, channel);
}

fn post_once(
    channels: &mut Channels,
    channel: &Channel,
    data: &[u8],
) -> Result<Posted, ChannelFault> {
    channels.post(channel, data)
}

/// Posts on the first of the held channels.
fn post(rt: &impl Abort, channels: &mut Channels, held: &[&Channel], data: &[u8]) -> Posted {
    let sender = held.first().expect(rt, "a channel");
    let before = inboxes(channels, held);
    match post_once(channels, sender, data) {
        Ok(posted) => posted,
        Err(fault) => {
            is_unchanged(rt, channels, held, before, fault);
            post_once(channels, sender, data).expect(rt, BACK)
        }
    }
}

/// Returns whether a frame is the tab's post of this number, of the data `x` to the name `n`.
fn is_post(frame: &Frame, number: u32) -> bool {
    match frame {
        Frame::Post(post) => {
            post.number == number
                && post.channel.as_str() == "n"
                && post.bytes.as_slice() == b"x".as_slice()
        }
        _ => false,
    }
}

/// Returns post `number` of tab 1, of the data `x` to the name `n`.
fn heard(rt: &impl Abort, alloc: Global, number: u32) -> Frame {
    Frame::Heard(Heard {
        source: 1,
        number,
        channel: name(alloc, "n").expect(rt, BACK),
        bytes: Bytes::from_static(b"x"),
    })
}

fn hear_once(channels: &mut Channels, frame: &Frame) -> Result<Hearing, ChannelFault> {
    channels.heard(frame)
}

/// Delivers post `number` of tab 1.
fn hear(
    rt: &impl Abort,
    alloc: Global,
    channels: &mut Channels,
    held: &[&Channel],
    number: u32,
) -> Hearing {
    let frame = heard(rt, alloc, number);
    let before = inboxes(channels, held);
    let hearing = match hear_once(channels, &frame) {
        Ok(hearing) => hearing,
        Err(fault) => {
            is_unchanged(rt, channels, held, before, fault);
            hear_once(channels, &frame).expect(rt, BACK)
        }
    };
    drop(frame);
    hearing
}

fn is_new(hearing: &Hearing, takers: &[usize], filled: &[usize]) -> bool {
    match hearing {
        Hearing::Old => false,
        Hearing::New { took, full } => took.as_slice() == takers && full.as_slice() == filled,
    }
}

/// Returns whether post `number` of tab 1 is new, which channels took it, and which had a full inbox.
fn hears_new(
    rt: &impl Abort,
    alloc: Global,
    channels: &mut Channels,
    held: &[&Channel],
    number: u32,
    takers: &[usize],
    filled: &[usize],
) -> bool {
    is_new(&hear(rt, alloc, channels, held, number), takers, filled)
}

/// Returns whether post `number` of tab 1 is an old one.
fn hears_old(
    rt: &impl Abort,
    alloc: Global,
    channels: &mut Channels,
    held: &[&Channel],
    number: u32,
) -> bool {
    matches!(&hear(rt, alloc, channels, held, number), Hearing::Old)
}

fn read_once(channels: &mut Channels, channel: &Channel) -> Read {
    channels.read(channel)
}

type Read = Result<Option<Letter>, ChannelFault>;

/// Returns the source and the number of a post whose data are `x`.
fn post_of(read: &Read) -> Option<(u16, u32)> {
    match read {
        Ok(Some(letter)) if letter.bytes.as_slice() == b"x".as_slice() => {
            Some((letter.source, letter.number))
        }
        _ => None,
    }
}

/// Reads the oldest post of a channel, and compares its source and number.
fn reads(rt: &impl Abort, channels: &mut Channels, channel: &Channel, post: (u16, u32)) {
    assert!(rt; post_of(&read_once(channels, channel)) == Some(post));
}

fn is_nothing(read: &Read) -> bool {
    matches!(read, Ok(None))
}

fn reads_nothing(channels: &mut Channels, channel: &Channel) -> bool {
    is_nothing(&read_once(channels, channel))
}

/// Reads all posts of a channel, and compares their sources and numbers.
fn reads_all(rt: &impl Abort, channels: &mut Channels, channel: &Channel, posts: &[(u16, u32)]) {
    for post in posts {
        reads(rt, channels, channel, *post);
    }
    assert!(rt; reads_nothing(channels, channel));
}

/// Returns whether the name is refused for this cause.
fn refuses_name(rt: &impl Abort, channels: &mut Channels, name: &str, fault: ChannelFault) -> bool {
    match open_once(channels, name) {
        Ok(channel) => {
            close(rt, channels, channel);
            false
        }
        Err(refusal) => refusal == fault,
    }
}

/// Returns whether the data are refused for this cause.
fn refuses_post(
    channels: &mut Channels,
    channel: &Channel,
    data: &[u8],
    fault: ChannelFault,
) -> bool {
    post_once(channels, channel, data).err() == Some(fault)
}

/// Closes a channel of another tab, which is refused and returned.
fn given_back(rt: &impl Abort, channels: &mut Channels, channel: Channel) -> Channel {
    match channels.close(channel) {
        Ok(()) => panic!(rt; "a foreign channel was closed"),
        Err(Foreign { value }) => value,
    }
}

/// Returns whether this is the tab's post of this number, and these channels took it.
fn is_posted(posted: &Posted, number: u32, takers: &[usize]) -> bool {
    is_post(&posted.frame, number)
        && posted.took.as_slice() == takers
        && posted.full.as_slice().is_empty()
}

/// Posts on the first channel, and compares the post's number and takers. Its frame is none that comes to a tab.
fn posts(
    rt: &impl Abort,
    channels: &mut Channels,
    held: &[&Channel],
    number: u32,
    takers: &[usize],
) {
    let posted = post(rt, channels, held, b"x");
    assert!(rt; is_posted(&posted, number, takers));
    let refusal = hear_once(channels, &posted.frame).err();
    assert!(rt; refusal == Some(ChannelFault::WrongKind));
    drop(posted);
}

/// Returns whether no channel takes a post.
fn posts_to_none(rt: &impl Abort, channels: &mut Channels, sender: &Channel, data: &[u8]) -> bool {
    let posted = post(rt, channels, &[sender], data);
    let is_taken_by_none = posted.took.as_slice().is_empty();
    drop(posted);
    is_taken_by_none
}

#[test]
fn broadcast(rt: HostRuntime) {
    let mut channels = Channels::new(rt.alloc(), 1);
    let sender = open(&rt, &mut channels, &[], "n", 0);
    let twin = open(&rt, &mut channels, &[&sender], "n", 1);
    posts(&rt, &mut channels, &[&sender, &twin], 0, &[1]);
    reads(&rt, &mut channels, &twin, (1, 0));
    assert!(&rt; reads_nothing(&mut channels, &twin));
    assert!(&rt; reads_nothing(&mut channels, &sender));
    close(&rt, &mut channels, sender);
    close_last(&rt, channels, twin);
}

#[test]
fn broadcast_to_another_tab(rt: HostRuntime) {
    let alloc = rt.alloc();
    let mut channels = Channels::new(alloc, 2);
    let channel = open(&rt, &mut channels, &[], "n", 0);
    assert!(&rt; hears_new(&rt, alloc, &mut channels, &[&channel], 0, &[0], &[]));
    assert!(&rt; hears_old(&rt, alloc, &mut channels, &[&channel], 0));
    reads(&rt, &mut channels, &channel, (1, 0));
    assert!(&rt; reads_nothing(&mut channels, &channel));
    close_last(&rt, channels, channel);
}

/// Plays posts that several channels take. If memory is refused for one of them, no channel has the post.
fn play_to_all(rt: &impl Abort, alloc: Global, channels: &mut Channels, held: &[&Channel]) {
    posts(rt, channels, held, 0, &[1, 2]);
    posts(rt, channels, held, 1, &[1, 2]);
    assert!(rt; hears_new(rt, alloc, channels, held, 0, &[0, 1, 2], &[]));
    assert!(rt; hears_new(rt, alloc, channels, held, 1, &[0, 1, 2], &[]));
    assert!(rt; inboxes(channels, held) == [Some(2), Some(4), Some(4)]);
}

#[test]
fn broadcast_to_all(rt: HostRuntime) {
    let alloc = rt.alloc();
    let mut channels = Channels::new(alloc, 2);
    let first = open(&rt, &mut channels, &[], "n", 0);
    let second = open(&rt, &mut channels, &[&first], "n", 1);
    let third = open(&rt, &mut channels, &[&first, &second], "n", 2);
    play_to_all(&rt, alloc, &mut channels, &[&first, &second, &third]);
    reads_all(&rt, &mut channels, &first, &[(1, 0), (1, 1)]);
    reads_all(
        &rt,
        &mut channels,
        &second,
        &[(2, 0), (2, 1), (1, 0), (1, 1)],
    );
    reads_all(
        &rt,
        &mut channels,
        &third,
        &[(2, 0), (2, 1), (1, 0), (1, 1)],
    );
    close(&rt, &mut channels, first);
    close(&rt, &mut channels, second);
    close_last(&rt, channels, third);
}

/// Posts that come out of order are heard from the later one on.
#[test]
fn broadcast_1(rt: HostRuntime) {
    let alloc = rt.alloc();
    let mut channels = Channels::new(alloc, 2);
    let channel = open(&rt, &mut channels, &[], "n", 0);
    assert!(&rt; hears_new(&rt, alloc, &mut channels, &[&channel], 1, &[0], &[]));
    assert!(&rt; hears_old(&rt, alloc, &mut channels, &[&channel], 0));
    assert!(&rt; inbox_once(&channels, &channel) == Ok(1));
    reads_all(&rt, &mut channels, &channel, &[(1, 1)]);
    close_last(&rt, channels, channel);
}

/// A post that finds the inbox full is lost, and is an old one when it comes again.
#[test]
fn broadcast_2(rt: HostRuntime) {
    let alloc = rt.alloc();
    let mut channels = Channels::new(alloc, 2);
    let channel = open(&rt, &mut channels, &[], "n", 0);
    for number in 0..256 {
        assert!(&rt; hears_new(&rt, alloc, &mut channels, &[&channel], number, &[0], &[]));
    }
    assert!(&rt; hears_new(&rt, alloc, &mut channels, &[&channel], 256, &[], &[0]));
    assert!(&rt; hears_old(&rt, alloc, &mut channels, &[&channel], 256));
    reads(&rt, &mut channels, &channel, (1, 0));
    assert!(&rt; inbox_once(&channels, &channel) == Ok(255));
    for number in 1..256 {
        reads(&rt, &mut channels, &channel, (1, number));
    }
    assert!(&rt; reads_nothing(&mut channels, &channel));
    close_last(&rt, channels, channel);
}

#[test]
fn limit_of_names(rt: HostRuntime) {
    let alloc = rt.alloc();
    let mut channels = Channels::new(alloc, 1);
    let longest = letters(alloc, 255).expect(&rt, BACK);
    let channel = open(&rt, &mut channels, &[], longest.as_str(), 0);
    close(&rt, &mut channels, channel);
    let too_long = letters(alloc, 256).expect(&rt, BACK);
    let too_long = too_long.as_str();
    assert!(&rt; refuses_name(&rt, &mut channels, too_long, ChannelFault::NameTooLong));
    drop(channels);
}

#[test]
fn limits_of_posts(rt: HostRuntime) {
    assert_eq!(&rt; POST_LIMIT, 1_000_000);
    let alloc = rt.alloc();
    let mut channels = Channels::new(alloc, 1);
    let channel = open(&rt, &mut channels, &[], "n", 0);
    let longest = bytes(alloc, 0, 16_384).expect(&rt, BACK);
    assert!(&rt; posts_to_none(&rt, &mut channels, &channel, longest.as_slice()));
    let too_long = bytes(alloc, 0, 16_385).expect(&rt, BACK);
    let too_long = too_long.as_slice();
    assert!(&rt; refuses_post(&mut channels, &channel, too_long, ChannelFault::DataTooLong));
    close_last(&rt, channels, channel);
}

#[test]
fn foreign_channel(rt: HostRuntime) {
    let alloc = rt.alloc();
    let mut channels = Channels::new(alloc, 1);
    let channel = open(&rt, &mut channels, &[], "n", 0);
    let mut others = Channels::new(alloc, 2);
    refuses_foreign(&rt, &mut others, &channel);
    let channel = given_back(&rt, &mut others, channel);
    close_last(&rt, channels, channel);
}

/// Asserts that another tab has no such channel.
fn refuses_foreign(rt: &impl Abort, others: &mut Channels, channel: &Channel) {
    let fault = ChannelFault::ForeignChannel;
    assert!(rt; refuses_post(others, channel, b"x", fault));
    assert!(rt; read_once(others, channel).err() == Some(fault));
    assert!(rt; inbox_once(others, channel) == Err(fault));
}

/// Opens the channel of this number, and keeps it with the others.
fn open_next(rt: &impl Abort, channels: &mut Channels, held: &mut Vec<Channel>, number: usize) {
    let channel = open(rt, channels, &[], "n", number);
    if let Err(refused) = held.push(channel) {
        if let Err(lost) = held.push(refused.value) {
            close(rt, channels, lost.value);
        }
    }
}

/// Asserts that a tab with 64 open channels opens no more.
fn has_no_channel(rt: &impl Abort, channels: &mut Channels, held: &[Channel]) {
    assert!(rt; held.len() == 64);
    assert!(rt; refuses_name(rt, channels, "n", ChannelFault::TooManyChannels));
}

/// A closed channel makes room for another, which has a new number.
#[test]
fn limit_of_channels(rt: HostRuntime) {
    let alloc = rt.alloc();
    let mut channels = Channels::new(alloc, 1);
    let mut held = Vec::new(alloc);
    for number in 0..64 {
        open_next(&rt, &mut channels, &mut held, number);
    }
    has_no_channel(&rt, &mut channels, &held);
    let closed = held.pop().expect(&rt, "a channel");
    close(&rt, &mut channels, closed);
    open_next(&rt, &mut channels, &mut held, 64);
    has_no_channel(&rt, &mut channels, &held);
    channels.end(held);
}
