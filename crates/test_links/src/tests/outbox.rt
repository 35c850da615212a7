//! The outbox of a tab, used by one thread and by two.

ghost use Rattle.std.specs.Prelude.{◌≡◌, ◌≤◌, [], true, false, All};
ghost use Rattle.wl_outbox.specs.Passes.{IsOf, takes};

use crate::tests::same;
use std::alloc::Global;
use std::process::Abort;
use std::sync::Wait;
use std::thread;
use test_support::retry::BACK;
use wl_frames::{Frame, Hello, Memory};
use wl_outbox::{CrossPartition, Full, Outbox, Parcel, Pass};

/// Removes one of the putting passes, which is unused.
fn next_pass(rt: &impl Abort, outbox: &Outbox, passes: &mut Vec<Pass>) -> Pass
    requires { All (λ p. IsOf p outbox.now × (takes p ≡ false) × (p.view.parcels ≡ [])) passes.old.items }
    ensures pass { IsOf result outbox.now × (takes result ≡ false) }
    ensures others { All (λ p.
        IsOf p outbox.now × (takes p ≡ false) × (p.view.parcels ≡ [])) passes.new.items }
{
    passes.pop().expect(rt, "one more pass")
}

/// Returns the outbox of tab 2 in partition 1, its taking pass, and two putting passes.
fn outbox_of_two(rt: &impl Abort, alloc: Global) -> (Outbox, Pass, Pass, Pass)
    ensures tab { (result.0.partition ≡ 1) × (result.0.tab ≡ 2) }
    ensures taker { IsOf result.1 result.0 × (takes result.1 ≡ true) }
    ensures first { IsOf result.2 result.0 × (takes result.2 ≡ false) }
    ensures second { IsOf result.3 result.0 × (takes result.3 ≡ false) }
{
    let (outbox, taker, mut putters) = match Outbox::new(alloc, 1, 2, 2) {
        Ok(made) => made,
        Err(Memory) => Outbox::new(alloc, 1, 2, 2).expect(rt, BACK),
    };
    let first = next_pass(rt, &outbox, &mut putters);
    let second = next_pass(rt, &outbox, &mut putters);
    (outbox, taker, first, second)
}

/// Returns a parcel for tab 2 in partition 1: the hello of a generation.
fn parcel(rt: &impl Abort, generation: u32) -> Parcel
    ensures { (result.partition ≡ 1) × (result.tab ≡ 2) }
{
    Parcel::new(1, 1, 2, Frame::Hello(Hello { generation })).expect(rt, "of one partition")
}

/// Returns the generation of a hello.
fn generation_of(frame: &Frame) -> Option<u32> {
    match frame {
        Frame::Hello(hello) => Some(hello.generation),
        _ => None,
    }
}

/// Puts a parcel into an outbox with room.
fn put<R: Wait + Abort>(rt: &R, outbox: &Outbox, pass: &mut Pass, parcel: Parcel)
    requires pass { IsOf pass.old outbox.now × (takes pass.old ≡ false) }
    requires tab { (outbox.now.partition ≡ 1) × (outbox.now.tab ≡ 2) }
    requires parcel { (parcel.partition ≡ 1) × (parcel.tab ≡ 2) }
    ensures { IsOf pass.new outbox.now × (takes pass.new ≡ false) }
{
    let put = outbox.put(rt, pass, parcel);
    assert!(rt; put.is_ok());
    drop(put);
}

/// Puts a parcel into a full outbox, which returns it.
fn given_back<R: Wait + Abort>(rt: &R, outbox: &Outbox, pass: &mut Pass, parcel: Parcel) -> Parcel
    requires pass { IsOf pass.old outbox.now × (takes pass.old ≡ false) }
    requires tab { (outbox.now.partition ≡ 1) × (outbox.now.tab ≡ 2) }
    requires parcel { (parcel.partition ≡ 1) × (parcel.tab ≡ 2) }
    ensures pass { IsOf pass.new outbox.now × (takes pass.new ≡ false) }
    ensures parcel { (result.partition ≡ 1) × (result.tab ≡ 2) }
{
    match outbox.put(rt, pass, parcel) {
        Err(Full(back)) => back,
        Ok(()) => panic!(rt; "the outbox was full"),
    }
}

/// Puts parcels of these generations into an outbox with room.
fn put_all<R: Wait + Abort>(rt: &R, outbox: &Outbox, pass: &mut Pass, from: u32, to: u32)
    requires pass { IsOf pass.old outbox.now × (takes pass.old ≡ false) }
    requires tab { (outbox.now.partition ≡ 1) × (outbox.now.tab ≡ 2) }
    ensures { IsOf pass.new outbox.now × (takes pass.new ≡ false) }
{
    for generation in from..to {
        put(rt, outbox, pass, parcel(rt, generation));
    }
}

/// Takes a parcel, and returns its generation, or None if the outbox is empty.
fn next_generation<R: Wait>(rt: &R, outbox: &Outbox, pass: &mut Pass) -> Option<u32>
    requires { IsOf pass.old outbox.now × (takes pass.old ≡ true) }
    ensures { IsOf pass.new outbox.now × (takes pass.new ≡ true) }
{
    let taken = outbox.take(rt, pass);
    let generation = generation_in(&taken);
    drop(taken);
    generation
}

fn generation_in(taken: &Option<Parcel>) -> Option<u32> {
    match taken {
        Some(parcel) => generation_of(parcel.frame()),
        None => None,
    }
}

/// Takes a parcel of generation 0, and compares its address with the outbox's.
fn take_first<R: Wait + Abort>(rt: &R, outbox: &Outbox, pass: &mut Pass)
    requires { IsOf pass.old outbox.now × (takes pass.old ≡ true) }
    ensures { IsOf pass.new outbox.now × (takes pass.new ≡ true) }
{
    let first = outbox.take(rt, pass).expect(rt, "the first parcel");
    same(rt, first.partition(), outbox.partition());
    same(rt, first.tab(), outbox.tab());
    let frame = first.into_frame();
    same(rt, generation_of(&frame), Some(0));
    drop(frame);
}

/// Returns whether the outbox is empty.
fn is_empty<R: Wait>(rt: &R, outbox: &Outbox, pass: &mut Pass) -> bool
    requires { IsOf pass.old outbox.now × (takes pass.old ≡ true) }
    ensures { IsOf pass.new outbox.now × (takes pass.new ≡ true) }
{
    let taken = outbox.take(rt, pass);
    let is_none = taken.is_none();
    drop(taken);
    is_none
}

/// Takes parcels, and compares their generations.
fn take_all<R: Wait + Abort>(rt: &R, outbox: &Outbox, pass: &mut Pass, from: u32, to: u32)
    requires { IsOf pass.old outbox.now × (takes pass.old ≡ true) }
    ensures { IsOf pass.new outbox.now × (takes pass.new ≡ true) }
{
    for generation in from..to {
        same(rt, next_generation(rt, outbox, pass), Some(generation));
    }
}

/// Puts a parcel that a full outbox returns, and puts it again after the first parcel is taken.
fn put_again<R: Wait + Abort>(rt: &R, outbox: &Outbox, taker: &mut Pass, putter: &mut Pass)
    requires taker { IsOf taker.old outbox.now × (takes taker.old ≡ true) }
    requires putter { IsOf putter.old outbox.now × (takes putter.old ≡ false) }
    requires tab { (outbox.now.partition ≡ 1) × (outbox.now.tab ≡ 2) }
    ensures taker { IsOf taker.new outbox.now × (takes taker.new ≡ true) }
    ensures putter { IsOf putter.new outbox.now × (takes putter.new ≡ false) }
{
    let back = given_back(rt, outbox, putter, parcel(rt, 256));
    same(rt, generation_of(back.frame()), Some(256));
    take_first(rt, outbox, taker);
    put(rt, outbox, putter, back);
}

#[test]
fn a_full_outbox_gives_the_parcel_back(rt: HostRuntime) {
    let (outbox, mut taker, mut putter, _other) = outbox_of_two(&rt, rt.alloc());
    assert!(&rt; taker.takes());
    assert!(&rt; !putter.takes());
    put_all(&rt, &outbox, &mut putter, 0, 256);
    put_again(&rt, &outbox, &mut taker, &mut putter);
    take_all(&rt, &outbox, &mut taker, 1, 257);
    assert!(&rt; is_empty(&rt, &outbox, &mut taker));
}

#[test]
fn a_parcel_stays_in_its_partition(rt: HostRuntime) {
    let refused = Parcel::new(1, 2, 2, Frame::Hello(Hello { generation: 1 })).err();
    same(&rt, refused, Some(CrossPartition));
}

/// Puts a hundred parcels.
fn put_hundred<R: Wait + Abort>(rt: &R, outbox: &Outbox, mut pass: Pass, from: u32)
    requires pass { IsOf pass outbox.now × (takes pass ≡ false) }
    requires tab { (outbox.now.partition ≡ 1) × (outbox.now.tab ≡ 2) }
    requires from { from ≤ 1000 }
{
    put_all(rt, outbox, &mut pass, from, from + 100);
}

/// Compares a generation with the next one, and advances it.
fn is_next(rt: &impl Abort, generation: u32, next: &mut u32) {
    same(rt, generation, *next);
    *next = next.wrapping_add(1);
}

/// Takes two hundred parcels. Those below 500 come in order, and so do the others.
fn take_both<R: Wait + Abort>(rt: &R, outbox: &Outbox, pass: &mut Pass)
    requires { IsOf pass.old outbox.now × (takes pass.old ≡ true) }
    ensures { IsOf pass.new outbox.now × (takes pass.new ≡ true) }
{
    let mut next = 0;
    let mut next_other = 500;
    for _ in 0..200 {
        let generation = next_generation(rt, outbox, pass).expect(rt, "a hello");
        if generation < 500 {
            is_next(rt, generation, &mut next);
        } else {
            is_next(rt, generation, &mut next_other);
        }
    }
}

#[test]
fn parcels_of_two_threads_come_in_order(rt: HostRuntime) {
    let (outbox, mut taker, one, other) = outbox_of_two(&rt, rt.alloc());
    let shared = &outbox;
    let host = &rt;
    thread::join(
        &rt,
        move ||
            requires { IsOf one shared.now × (takes one ≡ false)
                × (shared.now.partition ≡ 1) × (shared.now.tab ≡ 2) }
        { put_hundred(host, shared, one, 0) },
        move ||
            requires { IsOf other shared.now × (takes other ≡ false)
                × (shared.now.partition ≡ 1) × (shared.now.tab ≡ 2) }
        { put_hundred(host, shared, other, 500) },
    );
    take_both(&rt, &outbox, &mut taker);
    assert!(&rt; is_empty(&rt, &outbox, &mut taker));
}
