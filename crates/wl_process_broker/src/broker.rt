//! The broker's process: reads the Start frame of its generation, greets the listed tabs, and runs
//! its lanes over the link.

ghost use Rattle.std.specs.Prelude.{◌≡◌, ◌<◌, ◌≤◌, IfOk, length};
ghost use Rattle.wl_grammar.specs.Grammar.{TabsRiseFrom};
ghost use Rattle.wl_locked.specs.Blanks.{HaveParts, AreNamed};
ghost use Rattle.wl_locked.specs.declared.locked.TheConstants.{LANE_LIMIT};
ghost use Rattle.wl_locked.specs.declared.shards.TheConstants.{SHARD_LIMIT};

use crate::inbox::Inbox;
use crate::lanes::{end_of, jobs_of, shut_down};
use std::alloc::{AllocError, Global};
use std::io::{Read, Write};
use std::marker::Brand;
use std::os::unix::net::UnixStream;
use std::rt::Clock;
use std::sync::Wait;
use std::thread::Threads;
use wl_frames::device::READ_LIMIT;
use wl_frames::{Addressed, Frame, Start};
use wl_locked::{Blanks, Outs, ShardLane, Sharded, Shards};
use wl_process::{Host, Incoming, ProcessFault, append};
use wl_workers::{Gate, run_lanes};

/// A gate that is always open.
struct OpenGate;

impl Gate for OpenGate {
    fn pass<R: Wait + Clock>(&self, _rt: &R, _lane: u16) -> bool {
        true
    }

    fn answered<R: Wait + Clock>(&self, _rt: &R, _lane: u16) {}
}

/// Returns the frame as a Start frame. Fails with `Unexpected` if it is none, or is malformed.
fn start_of(frame: Frame) -> Result<Start, ProcessFault>
    ensures { IfOk result (λ start. TabsRiseFrom 1 start.list) }
{
    let is_well_formed = frame.is_well_formed();
    match (is_well_formed, frame) {
        (true, Frame::Start(start)) => Ok(start),
        (_, _other) => Err(ProcessFault::Unexpected),
    }
}

/// Reads the Start frame, which must come first. Returns it with the frames read behind it.
fn read_start<S: Read>(
    alloc: Global,
    incoming: &mut Incoming<S>,
) -> Result<(Start, Vec<Frame>), ProcessFault>
    ensures { IfOk result (λ r. TabsRiseFrom 1 r.0.list) }
{
    for _reads in 0..READ_LIMIT {
        let Some(frames) = incoming.next()? else {
            return Err(ProcessFault::Unexpected);
        };
        let mut frames = frames.into_iter();
        if let Some(first) = frames.next() {
            let start = start_of(first)?;
            return Ok((start, frames.collect::<Vec<Frame>>(alloc)?));
        }
    }
    Err(ProcessFault::TooManyReads)
}

/// Runs the broker of one generation over a socket, until the input or the generation ends. The
/// generation is the one that the kernel's Start frame names.
pub fn run_broker<R: Host>(
    rt: R,
    alloc: Global,
    socket: &str,
    lanes: u16,
    shards: u16,
    limit: u32,
) -> Result<(), ProcessFault>
    requires lanes { (1 ≤ lanes) × (lanes ≤ LANE_LIMIT) }
    requires shards { (1 ≤ shards) × (shards ≤ SHARD_LIMIT) }
{
    let link = rt.connect(socket).map_err(ProcessFault::of_device)?;
    run_generation(&rt, alloc, &link, lanes, shards, limit, &OpenGate)
}

/// Runs the broker of one generation over a link, until the input or the generation ends, and shuts
/// the link down. The gate is passed between each step and the sending of its frames.
pub fn run_generation<R: Threads + Wait + Clock + Sync, G: Gate + Sync>(
    rt: &R,
    alloc: Global,
    link: &UnixStream,
    lanes: u16,
    shards: u16,
    limit: u32,
    gate: &G,
) -> Result<(), ProcessFault>
    requires lanes { (1 ≤ lanes) × (lanes ≤ LANE_LIMIT) }
    requires shards { (1 ≤ shards) × (shards ≤ SHARD_LIMIT) }
{
    let mut incoming = Incoming::new(alloc, link);
    let (start, rest) = read_start(alloc, &mut incoming)?;
    let blanks = Blanks::new(u64::from(lanes));
    let served = serve::<R, Brand, G>(
        rt, alloc, blanks, start, lanes, shards, limit, link, rest, incoming, gate,
    );
    shut_down(link);
    served
}

/// Serves a generation.
fn serve<R: Threads + Wait + Clock + Sync, J: Shards + Send + Sync, G: Gate + Sync>(
    rt: &R,
    alloc: Global,
    blanks: Blanks,
    start: Start,
    lanes: u16,
    shards: u16,
    limit: u32,
    link: &UnixStream,
    rest: Vec<Frame>,
    incoming: Incoming<&UnixStream>,
    gate: &G,
) -> Result<(), ProcessFault>
    requires list { TabsRiseFrom 1 start.list }
    requires names { AreNamed J.names blanks }
    requires parts { HaveParts lanes blanks }
    requires lanes { (0 < lanes) × (lanes ≤ LANE_LIMIT) }
    requires shards { (0 < shards) × (shards ≤ SHARD_LIMIT) }
    requires run { J.run ≡ record {
      generation = start.generation;
      listed = start.list;
      shards = shards;
      lanes = lanes;
      limit = limit;
    } }
{
    let (broker, places, hellos) = Sharded::<J>::new(
        alloc,
        blanks,
        start.generation,
        start.list.as_slice(),
        limit,
        lanes,
        shards,
    )?;
    serve_link(
        rt, alloc, &broker, places, hellos, lanes, shards, link, rest, incoming, gate,
    )
}

/// Greets the listed tabs and serves the link.
fn serve_link<R: Threads + Wait + Clock + Sync, J: Shards + Send + Sync, G: Gate + Sync>(
    rt: &R,
    alloc: Global,
    broker: &Sharded<J>,
    places: Vec<ShardLane<J>>,
    hellos: Outs,
    lanes: u16,
    shards: u16,
    link: &UnixStream,
    rest: Vec<Frame>,
    incoming: Incoming<&UnixStream>,
    gate: &G,
) -> Result<(), ProcessFault>
    requires lanes { (0 < lanes) × (lanes ≤ LANE_LIMIT) }
    requires places { length places.items ≡ lanes }
    requires shards { 0 < shards }
    requires run { shards ≡ J.run.shards }
{
    let writing = link.try_clone().map_err(ProcessFault::of_device)?;
    greet(alloc, &writing, hellos)?;
    let inbox = Inbox::new(alloc, lanes, shards, incoming)?;
    // Frames read with the Start frame are answered even if a fault follows them.
    inbox.begin(rt, rest);
    let mut jobs = match jobs_of(alloc, &inbox, link, writing, shards, places) {
        Ok(jobs) => jobs,
        Err(AllocError) => return Err(ProcessFault::Memory),
    };
    run_lanes(rt, broker, jobs.as_mut_slice(), gate);
    end_of(rt, &inbox, jobs.as_slice())
}

/// Greets the listed tabs in one write.
fn greet(alloc: Global, mut link: &UnixStream, hellos: Outs) -> Result<(), ProcessFault> {
    let greeting = greeting_of(alloc, hellos)?;
    if link.write_all(greeting.as_slice()).is_err() {
        return Err(ProcessFault::Write);
    }
    Ok(())
}

/// Encodes the hellos to the listed tabs.
fn greeting_of(alloc: Global, hellos: Outs) -> Result<Vec<u8>, AllocError> {
    let mut bytes = Vec::new(alloc);
    for hello in hellos.into_list(alloc)? {
        append_addressed(&mut bytes, hello)?;
    }
    Ok(bytes)
}

fn append_addressed(bytes: &mut Vec<u8>, addressed: Addressed) -> Result<(), AllocError> {
    append(bytes, &Frame::Addressed(addressed))
}
