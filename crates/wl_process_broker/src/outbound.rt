//! Frames on their way from the lanes to the link. Those of one shard leave in the order of the places of their steps.
//!
//! A lane gathers the frames of one step at a time, and finishes the step's place when it is through with the step. It waits for no
//! other lane: frames whose turn has not come are kept, and leave when a lane finishes the last place before theirs.

use std::alloc::{AllocError, Global};
use std::io::Write;
use std::mem::swap;
use std::os::unix::net::UnixStream;
use std::sync::{Arc, Mutex, Wait};
use wl_frames::Frame;
use wl_frames::device::BUNDLE_LEN;
use wl_process::{ProcessFault, append};
use wl_process_rules::ShardOutput;
use wl_workers::OutletFault;

/// Output of all lanes, before it is written.
#[derive(Drop)]
struct Gathered {
    /// Output of each shard that is held back.
    shards: Vec<ShardOutput>,
    /// Frames that are written next.
    bytes: Vec<u8>,
    /// The first fault of any lane.
    fault: Option<ProcessFault>,
}

impl Gathered {
    fn note(&mut self, fault: ProcessFault) {
        if self.fault.is_none() {
            self.fault = Some(fault);
        }
    }
}

/// The link's writing end.
#[derive(Drop)]
struct Writer {
    link: UnixStream,
    /// Frames that are being written. Empty while no lane writes.
    bytes: Vec<u8>,
}

/// Output of a broker: the frames of all lanes, and the link. The lock of the writer is taken before that of the gathered frames.
#[derive(Drop)]
pub(crate) struct LinkOutput {
    gathered: Mutex<Gathered>,
    writer: Mutex<Writer>,
}

impl LinkOutput {
    /// Creates the output of a broker with this number of shards.
    pub(crate) fn new(
        alloc: Global,
        link: UnixStream,
        shards: u16,
    ) -> Result<LinkOutput, AllocError> {
        let mut outputs = Vec::new(alloc);
        for _shard in 0..shards {
            outputs.push(ShardOutput::new(alloc))?;
        }
        Ok(LinkOutput {
            gathered: Mutex::new(Gathered {
                shards: outputs,
                bytes: Vec::new(alloc),
                fault: None,
            }),
            writer: Mutex::new(Writer {
                link,
                bytes: Vec::new(alloc),
            }),
        })
    }

    /// Finishes the place of a step, and takes its frames out of their buffer. Returns true if enough frames are gathered to be
    /// written at once.
    fn finish<R: Wait>(
        &self,
        rt: &R,
        step: StepPlace,
        frames: &mut Vec<u8>,
    ) -> Result<bool, OutletFault> {
        let mut gathered = self.gathered.lock(rt);
        let gathered = &mut *gathered;
        let finished = match gathered.shards.get_mut(usize::from(step.shard)) {
            Some(shard) => shard.finish(step.place, frames, &mut gathered.bytes),
            None => Ok(()),
        };
        if finished.is_err() {
            gathered.note(ProcessFault::Memory);
            return Err(OutletFault::Memory);
        }
        Ok(gathered.bytes.len() >= BUNDLE_LEN)
    }

    /// Writes the frames whose turn has come. Fails if a write has failed, also one of another lane.
    fn flush<R: Wait>(&self, rt: &R) -> Result<(), OutletFault> {
        if self.gathered.lock(rt).bytes.is_empty() {
            return Ok(());
        }
        // Frames are taken out under the writer's lock, so no later ones overtake them.
        let mut writer = self.writer.lock(rt);
        let Writer { link, bytes } = &mut *writer;
        self.take_out(rt, bytes)?;
        let is_written = link.write_all(bytes.as_slice()).is_ok();
        bytes.clear();
        if !is_written {
            self.note(rt, ProcessFault::Write);
            return Err(OutletFault::Write);
        }
        Ok(())
    }

    /// Takes the frames that are written next, in exchange for an empty buffer. Fails if a write has failed.
    fn take_out<R: Wait>(&self, rt: &R, bytes: &mut Vec<u8>) -> Result<(), OutletFault> {
        let mut gathered = self.gathered.lock(rt);
        if gathered.fault == Some(ProcessFault::Write) {
            return Err(OutletFault::Write);
        }
        swap(&mut gathered.bytes, bytes);
        Ok(())
    }

    fn note<R: Wait>(&self, rt: &R, fault: ProcessFault) {
        self.gathered.lock(rt).note(fault);
    }

    fn fault<R: Wait>(&self, rt: &R) -> Option<ProcessFault> {
        self.gathered.lock(rt).fault
    }
}

/// Place of a step in its shard.
#[derive(Clone, Copy)]
struct StepPlace {
    shard: u16,
    place: u32,
}

/// The step that a lane works on, and the frames that it has gathered for it.
#[derive(Drop)]
struct StepFrames {
    step: Option<StepPlace>,
    bytes: Vec<u8>,
}

/// Output of one lane. The lock of its step is used by that lane only and never contended.
#[derive(Drop)]
pub(crate) struct LaneOutput {
    link: Arc<LinkOutput>,
    step: Mutex<StepFrames>,
}

impl LaneOutput {
    /// Creates the output of a lane, with one handle for its intake and one for its outlet.
    pub(crate) fn pair(
        alloc: Global,
        link: &Arc<LinkOutput>,
    ) -> Result<(Arc<LaneOutput>, Arc<LaneOutput>), AllocError> {
        let output = Arc::new(
            alloc,
            LaneOutput {
                link: Arc::try_clone(link)?,
                step: Mutex::new(StepFrames {
                    step: None,
                    bytes: Vec::new(alloc),
                }),
            },
        )?;
        Ok((Arc::try_clone(&output)?, output))
    }

    /// Begins to gather the frames of a step.
    pub(crate) fn begin<R: Wait>(&self, rt: &R, shard: u16, place: u32) {
        self.step.lock(rt).step = Some(StepPlace { shard, place });
    }

    /// Gathers a frame of the step.
    pub(crate) fn gather<R: Wait>(&self, rt: &R, frame: &Frame) -> Result<(), OutletFault> {
        if append(&mut self.step.lock(rt).bytes, frame).is_err() {
            self.link.note(rt, ProcessFault::Memory);
            return Err(OutletFault::Memory);
        }
        Ok(())
    }

    /// Finishes the place of the step, if there is one, with the frames gathered so far.
    pub(crate) fn finish<R: Wait>(&self, rt: &R) -> Result<(), OutletFault> {
        let mut frames = self.step.lock(rt);
        let frames = &mut *frames;
        let Some(step) = frames.step else {
            return Ok(());
        };
        let is_full = self.link.finish(rt, step, &mut frames.bytes)?;
        frames.step = None;
        if is_full {
            return self.link.flush(rt);
        }
        Ok(())
    }

    /// Writes the frames of all lanes whose turn has come.
    pub(crate) fn flush<R: Wait>(&self, rt: &R) -> Result<(), OutletFault> {
        self.link.flush(rt)
    }

    /// Returns the first fault of any lane.
    pub(crate) fn fault<R: Wait>(&self, rt: &R) -> Option<ProcessFault> {
        self.link.fault(rt)
    }
}
