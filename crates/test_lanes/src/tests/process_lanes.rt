//! Lanes of the broker's process, which take turns at one link. They run at the same time, since each waits for the other.

ghost use Rattle.std.specs.Prelude.{◌≤◌};
ghost use Rattle.wl_locked.specs.declared.shards.TheConstants.{SHARD_LIMIT};

use super::events::report;
use super::turnstile::{Turnstile, were_in_order};
use std::alloc::{AllocError, Global};
use std::io;
use std::io::Write;
use std::net::{Net, Shutdown};
use std::os::unix::net::UnixStream;
use std::process::Abort;
use std::rt::Clock;
use std::sync::Wait;
use std::thread::Threads;
use test_support::retry::BACK;
use wl_frames::{Dead, Frame, Sequence, Start};
use wl_locked::BookEvent;
use wl_process::append;
use wl_process_broker::run_generation;

/// Count of the broker's lanes. Tab 2 belongs to lane 0, and tab 1 to lane 1.
const LANES: u16 = 2;

/// Returns the bytes of a Start frame without tabs.
pub(super) fn start(alloc: Global) -> Result<Vec<u8>, AllocError> {
    let mut bytes = Vec::new(alloc);
    let start = Start {
        generation: 1,
        list: Sequence::new(Vec::new(alloc)),
    };
    append(&mut bytes, &Frame::Start(start))?;
    Ok(bytes)
}

/// Appends the bytes of an event.
pub(super) fn append_event(bytes: &mut Vec<u8>, event: BookEvent) -> Result<(), AllocError> {
    let frame = match event {
        BookEvent::Take(stamped) => Frame::Stamped(stamped),
        BookEvent::Dead(tab) => Frame::Dead(Dead { tab }),
    };
    append(bytes, &frame)
}

/// Returns the bytes of a Start frame without tabs, and of a report of each of these tabs.
fn conversation(alloc: Global, tabs: &[u16]) -> Result<Vec<u8>, AllocError> {
    let mut bytes = start(alloc)?;
    for tab in tabs {
        append_event(&mut bytes, report(alloc, *tab, *tab))?;
    }
    Ok(bytes)
}

/// Returns a link that these bytes come over, and its other end.
pub(super) fn link_with<R: Net>(rt: &R, bytes: &[u8]) -> io::Result<(UnixStream, UnixStream)> {
    let (link, mut kernel) = UnixStream::pair(rt)?;
    kernel.write_all(bytes)?;
    Ok((link, kernel))
}

/// Runs a broker of two lanes that wait for each other.
fn run_gated<R: Threads + Wait + Clock + Net + Abort + Sync>(
    rt: &R,
    alloc: Global,
    shards: u16,
) -> Result<(), AllocError>
    requires { (1 ≤ shards) × (shards ≤ SHARD_LIMIT) }
{
    let bytes = conversation(alloc, &[2, 1, 1])?;
    let (link, kernel) = link_with(rt, bytes.as_slice()).expect(rt, "a link");
    kernel.shutdown(Shutdown::Write).expect(rt, "an end");
    let gate = Turnstile::new();
    let served = run_generation(rt, alloc, &link, LANES, shards, 3, &gate);
    let seen = gate.into_seen();
    if served.is_err() || seen.has_given_up {
        return Err(AllocError);
    }
    were_in_order(rt, &seen);
    Ok(())
}

/// Runs it again if memory is refused.
fn runs_gated<R: Threads + Wait + Clock + Net + Abort + Sync>(rt: &R, alloc: Global, shards: u16)
    requires { (1 ≤ shards) × (shards ≤ SHARD_LIMIT) }
{
    if run_gated(rt, alloc, shards).is_err() {
        run_gated(rt, alloc, shards).expect(rt, BACK);
    }
}

/// The lanes run at the same time over one shard, over two and over four. Each tab is alone in its partition.
#[test]
fn two_lanes_of_a_process_at_the_same_time(rt: HostRuntime) {
    runs_gated(&rt, rt.alloc(), 1);
    runs_gated(&rt, rt.alloc(), 2);
    runs_gated(&rt, rt.alloc(), 4);
}
