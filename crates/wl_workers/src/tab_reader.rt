//! The kernel's reading end of a tab's link.

ghost use Rattle.std.specs.Prelude.{◌≡◌, ◌≢◌, ◌↔◌, ◌≤◌, List, [], true, false, length, Err, MatchResult};
ghost use Rattle.wl_frames.specs.declared.device.TheConstants.{PIECE_LEN, READ_LIMIT};
ghost use Rattle.wl_grammar.specs.declared.frame.Frame.{Frame as TheFrame};
ghost use Rattle.wl_frames.specs.Stream.{IsPartial};
ghost use Rattle.wl_frames.specs.Faults.{of_read};
ghost use Rattle.wl_workers.specs.declared.tab_reader.ReadEnd.TheVariants as ends;
ghost use Rattle.wl_workers.specs.TabReader.{ended, dead_look, HandsUp, IsProperPrefix, EndsAfter, Passes, NeedsEnd, ReadsTab, Closes, IsPieceEnd};

use crate::liveness::{Lives, finds_dead};
use crate::uplink::Uplink;
use std::alloc::Global;
use std::io::Read;
use std::rt::Clock;
use std::sync::Wait;
use wl_frames::device::{PIECE_LEN, READ_LIMIT, ReadFault, Source};
use wl_frames::{Feed, Frame, FrameFault};

/// How reading a tab's link ended.
#[derive(Clone, Copy, Debug, PartialEq, Eq)]
pub enum ReadEnd {
    /// The input ended between two frames.
    End,
    /// The input is not a valid stream of frames, it ended within a frame, or memory ran out.
    Frame(FrameFault),
    /// The reader failed.
    Read,
    /// The input was not at its end after `READ_LIMIT` reads.
    TooManyReads,
    /// A look found the tab dead.
    Dead,
}

impl From<FrameFault> for ReadEnd {
    ghost from_gives = { λ fault end. end ≡ ends.Frame fault };

    fn from(fault: FrameFault) -> ReadEnd {
        ReadEnd::Frame(fault)
    }
}

impl From<ReadFault> for ReadEnd {
    ghost from_gives = { λ fault end. end ≡ of_read ends.Read ends.TooManyReads fault };

    fn from(fault: ReadFault) -> ReadEnd {
        match fault {
            ReadFault::Failed => ReadEnd::Read,
            ReadFault::TooManyReads => ReadEnd::TooManyReads,
        }
    }
}

/// Forwards frames to the uplink in order, each after a look, until a look finds the tab dead. A
/// frame that the uplink refuses is lost.
fn hand_up<R: Wait + Clock, L: Lives, U: Uplink>(
    rt: &R,
    tab: u16,
    frames: Vec<Frame>,
    lives: &mut L,
    uplink: &mut U,
) -> Result<(), ReadEnd>
    ensures { MatchResult result
        (λ _. HandsUp tab (L.answered lives.old) (L.answered lives.new)
        (U.handed uplink.old) (U.handed uplink.new) frames.items [])
        (λ end. IsPieceEnd end × (end ≡ ReadEnd.Dead)
        × ((front : List TheFrame) × IsProperPrefix front frames.items
        × HandsUp tab (L.answered lives.old) (L.answered lives.new)
        (U.handed uplink.old) (U.handed uplink.new) front (dead_look end))) }
{
    for frame in frames {
        if finds_dead(rt, tab, lives) {
            drop(frame);
            return Err(ReadEnd::Dead);
        }
        let _refused = uplink.up(rt, tab, frame);
    }
    Ok(())
}

/// Decodes a piece of the input and forwards its frames. If a fault is found, the frames before it
/// are forwarded first.
fn take_piece<R: Wait + Clock, L: Lives, U: Uplink>(
    rt: &R,
    tab: u16,
    feed: &mut Feed,
    piece: &[u8],
    lives: &mut L,
    uplink: &mut U,
) -> Result<(), ReadEnd>
    requires feed { feed.old.has_failed ≡ false }
    requires rest { IsPartial feed.old.rest }
    requires piece { length piece.now ≤ PIECE_LEN }
    ensures { MatchResult result
        (λ _. Passes tab (L.answered lives.old) (L.answered lives.new)
        (U.handed uplink.old) (U.handed uplink.new) feed.old.rest piece.now feed.new)
        (λ end. IsPieceEnd end × ((frames : List TheFrame) × EndsAfter feed.old.rest piece.now frames end
        × HandsUp tab (L.answered lives.old) (L.answered lives.new)
        (U.handed uplink.old) (U.handed uplink.new) frames (dead_look end))) }
{
    match feed.push(piece) {
        Ok(frames) => hand_up(rt, tab, frames, lives, uplink),
        Err(refused) => {
            hand_up(rt, tab, refused.before, lives, uplink)?;
            Err(ReadEnd::from(refused.fault))
        }
    }
}

/// Checks that the input ended between two frames.
fn close(feed: Feed) -> Result<(), ReadEnd>
    requires { feed.has_failed ≡ false }
    ensures { Closes feed.rest result }
{
    feed.end()?;
    Ok(())
}

/// Forwards every frame to the uplink until end of input, a fault, or the tab's death.
fn read_all<R: Wait + Clock, S: Read, L: Lives, U: Uplink>(
    rt: &R,
    alloc: Global,
    tab: u16,
    source: &mut Source<S>,
    lives: &mut L,
    uplink: &mut U,
) -> Result<(), ReadEnd>
    requires source { source.old.has_failed ≡ false }
    requires reads { source.old.reads ≡ 0 }
    ensures reads { ReadsTab tab (S.remaining source.old.reader) (S.remaining source.new.reader)
        (L.answered lives.old) (L.answered lives.new)
        (U.handed uplink.old) (U.handed uplink.new) (ended result) }
    ensures end { NeedsEnd (ended result) (S.remaining source.new.reader) }
    ensures other { result ≢ Err ReadEnd.End }
    ensures failed { (result ≡ Err ReadEnd.Read) ↔ (source.new.has_failed ≡ true) }
    ensures limit { result ≡ Err ReadEnd.TooManyReads → source.new.reads ≡ READ_LIMIT }
{
    let mut feed = Feed::new(alloc);
    let mut buffer = [0; PIECE_LEN];
    // The prover needs a bounded loop, so this loop counts the reads too.
    for _reads in 0..READ_LIMIT {
        uplink.flush(rt);
        uplink.pace(rt);
        let n = source.read(&mut buffer)?;
        if n == 0 {
            return close(feed);
        }
        take_piece(rt, tab, &mut feed, &buffer[..n], lives, uplink)?;
    }
    Err(ReadEnd::TooManyReads)
}

/// Reads a tab's frames and forwards them to the uplink until end of input, a fault, or the tab's
/// death.
///
/// In each round it flushes and paces the uplink, reads, and hands the frames up. Before each frame it
/// looks whether the tab lives. A frame that the uplink refuses is lost.
pub fn tab_reader<R: Wait + Clock, S: Read, L: Lives, U: Uplink>(
    rt: &R,
    alloc: Global,
    tab: u16,
    source: &mut Source<S>,
    lives: &mut L,
    uplink: &mut U,
) -> ReadEnd
    requires source { source.old.has_failed ≡ false }
    requires reads { source.old.reads ≡ 0 }

    // Exactly the frames of the input are forwarded, in order.
    ensures reads { ReadsTab tab (S.remaining source.old.reader) (S.remaining source.new.reader)
        (L.answered lives.old) (L.answered lives.new) (U.handed uplink.old) (U.handed uplink.new) result }
    ensures end { NeedsEnd result (S.remaining source.new.reader) }

    // `Read` is returned exactly if the source recorded a failure of its reader.
    ensures failed { (result ≡ ReadEnd.Read) ↔ (source.new.has_failed ≡ true) }
    ensures limit { result ≡ ReadEnd.TooManyReads → source.new.reads ≡ READ_LIMIT }
{
    match read_all(rt, alloc, tab, source, lives, uplink) {
        Ok(()) => ReadEnd::End,
        Err(end) => end,
    }
}
