//! The kernel's writing end of a tab's link.

ghost use Rattle.std.specs.Prelude.{◌≡◌, ◌↔◌, [], ◌∷◌, true, false, Ok, OnOk};
ghost use Rattle.crossbeam_queue.specs.Fifo.{Held};
ghost use Rattle.wl_outbox.specs.OutboxSteps.{IsMoment};
ghost use Rattle.wl_outbox.specs.Passes.{IsOf, IsSamePass, takes};
ghost use Rattle.wl_workers.specs.Looks.{LooksOnly, FoundDead};
ghost use Rattle.wl_workers.specs.TabWriter.{WritesFrames, WritesTab};

use crate::liveness::{Lives, finds_dead};
use std::alloc::Global;
use std::io::Write;
use std::rt::Clock;
use std::sync::Wait;
use wl_frames::device::{Sink, WriteFault};
use wl_frames::{Frame, encode};
use wl_outbox::{Outbox, Pass};

/// How writing a tab's link ended.
#[derive(Clone, Copy, Debug, PartialEq, Eq)]
pub enum WriteEnd {
    /// A look found the tab dead, and its outbox was empty afterwards.
    Dead,
    /// The writer failed.
    Write,
}

/// Writes the encoding of a frame. A malformed frame is lost, and so is any frame when memory runs
/// out.
fn write_frame<W: Write>(alloc: Global, frame: &Frame, sink: &mut Sink<W>) -> Result<(), WriteFault>
    requires { sink.old.has_failed ≡ false }
    ensures written { WritesFrames (frame.now ∷ [])
        (W.contents sink.old.writer) (W.contents sink.new.writer) sink.new.has_failed }
    ensures failed { (result ≡ Ok tt) ↔ (sink.new.has_failed ≡ false) }
{
    if !frame.is_well_formed() {
        return Ok(());
    }
    let Ok(bytes) = encode(alloc, frame) else {
        return Ok(());
    };
    sink.write(bytes.as_slice())
}

/// Takes parcels and writes their frames until the tab is dead and its outbox is empty.
fn write_all<R: Wait + Clock, L: Lives, W: Write>(
    rt: &R,
    alloc: Global,
    tab: u16,
    outbox: &Outbox,
    pass: &mut Pass,
    lives: &mut L,
    sink: &mut Sink<W>,
) -> Result<(), WriteFault>
    requires pass { IsOf pass.old outbox.now }
    requires takes { takes pass.old ≡ true }
    requires sink { sink.old.has_failed ≡ false }
    ensures pass { IsSamePass pass.old pass.new }
    ensures writes { WritesTab pass.old.view.parcels pass.new.view.parcels
        (W.contents sink.old.writer) (W.contents sink.new.writer) sink.new.has_failed }
    ensures looks { LooksOnly tab (L.answered lives.old) (L.answered lives.new) }
    ensures dead { OnOk result (FoundDead tab (L.answered lives.old) (L.answered lives.new)) }
    ensures empty { OnOk result (Held 0 (IsMoment pass.new.view)) }
    ensures failed { (result ≡ Ok tt) ↔ (sink.new.has_failed ≡ false) }
{
    let mut is_dead = false;
    for _ in rt.forever() {
        let Some(parcel) = outbox.take(rt, pass) else {
            if is_dead {
                return Ok(());
            }
            lives.wait(rt);
            is_dead = finds_dead(rt, tab, lives);
            continue;
        };
        let written = write_frame(alloc, parcel.frame(), sink);
        drop(parcel);
        written?;
    }
    unreachable!()
}

/// Takes the parcels of a tab's outbox and writes their frames, in order. Ends when the writer
/// fails, or when the tab is dead and its outbox is empty.
///
/// If the outbox is empty, it waits and then looks whether the tab lives.
pub fn tab_writer<R: Wait + Clock, L: Lives, W: Write>(
    rt: &R,
    alloc: Global,
    tab: u16,
    outbox: &Outbox,
    pass: &mut Pass,
    lives: &mut L,
    sink: &mut Sink<W>,
) -> WriteEnd
    requires pass { IsOf pass.old outbox.now }
    requires takes { takes pass.old ≡ true }
    requires sink { sink.old.has_failed ≡ false }
    ensures pass { IsSamePass pass.old pass.new }

    // The output is the encodings of the frames taken, in order, except for lost ones.
    ensures writes { WritesTab pass.old.view.parcels pass.new.view.parcels
        (W.contents sink.old.writer) (W.contents sink.new.writer) sink.new.has_failed }
    ensures looks { LooksOnly tab (L.answered lives.old) (L.answered lives.new) }
    ensures dead { result ≡ WriteEnd.Dead → FoundDead tab (L.answered lives.old) (L.answered lives.new) }
    ensures empty { result ≡ WriteEnd.Dead → Held 0 (IsMoment pass.new.view) }

    // `Write` is returned exactly if the sink recorded a failure of its writer.
    ensures failed { (result ≡ WriteEnd.Dead) ↔ (sink.new.has_failed ≡ false) }
{
    match write_all(rt, alloc, tab, outbox, pass, lives, sink) {
        Ok(()) => WriteEnd::Dead,
        Err(_failed) => WriteEnd::Write,
    }
}
