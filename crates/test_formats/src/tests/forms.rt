//! Well-formed frames, and frames that are not.

use bytes::Bytes;
use std::alloc::{AllocError, Global};
use std::process::Abort;
use test_support::retry::{BACK, bytes, letters, name, report_part};
use wl_frames::{Command, Dead, Frame, Hello, Mode, Operation, Origin, PairWelcome, Post};

/// Asserts whether a frame is well-formed.
fn expect_form(rt: &impl Abort, frame: Frame, want: bool) {
    assert!(rt; frame.is_well_formed() == want);
    drop(frame);
}

fn expect_name(rt: &impl Abort, alloc: Global, text: &str, want: bool) {
    let operation = Operation::Request {
        mode: Mode::Exclusive,
        if_available: false,
        name: name(alloc, text).expect(rt, BACK),
    };
    let command = Command {
        generation: 1,
        number: 0,
        operation,
    };
    expect_form(rt, Frame::Command(command), want);
}

fn data(rt: &impl Abort, alloc: Global, bytes: &[u8]) -> Bytes {
    match Bytes::copy_from_slice(alloc, bytes) {
        Ok(data) => data,
        Err(_) => Bytes::copy_from_slice(alloc, bytes).expect(rt, BACK),
    }
}

fn expect_post(rt: &impl Abort, alloc: Global, channel: &str, bytes: &[u8], want: bool) {
    let bytes = data(rt, alloc, bytes);
    let post = Post {
        number: 1,
        channel: name(alloc, channel).expect(rt, BACK),
        bytes,
    };
    expect_form(rt, Frame::Post(post), want);
}

/// Asserts whether a text of `length` letters is the name of a lock and of a channel.
fn expect_long_name(rt: &impl Abort, alloc: Global, length: usize, want: bool) {
    let text = letters(alloc, length).expect(rt, BACK);
    expect_name(rt, alloc, text.as_str(), want);
    expect_post(rt, alloc, text.as_str(), b"", want);
}

#[test]
fn forms_of_names(rt: HostRuntime) {
    let alloc = rt.alloc();
    expect_long_name(&rt, alloc, 255, true);
    expect_long_name(&rt, alloc, 256, false);
    expect_name(&rt, alloc, "", true);
    expect_name(&rt, alloc, "-", false);
    expect_name(&rt, alloc, "a-", true);
    expect_post(&rt, alloc, "-", b"", true);
}

fn expect_data(rt: &impl Abort, alloc: Global, length: usize, want: bool) {
    let data = bytes(alloc, 0, length).expect(rt, BACK);
    expect_post(rt, alloc, "c", data.as_slice(), want);
}

#[test]
fn forms_of_data_and_numbers(rt: HostRuntime) {
    expect_data(&rt, rt.alloc(), 16_384, true);
    expect_data(&rt, rt.alloc(), 16_385, false);
    expect_form(&rt, Frame::Hello(Hello { generation: 0 }), false);
    expect_form(&rt, Frame::Dead(Dead { tab: 0 }), false);
}

#[test]
fn forms_of_parts(rt: HostRuntime) {
    for (part, parts, want) in [
        (0, 1, true),
        (15, 16, true),
        (0, 0, false),
        (16, 16, false),
        (0, 17, false),
    ] {
        expect_form(&rt, report_part(rt.alloc(), part, parts), want);
    }
}

fn origin_once(alloc: Global, text: &str) -> Result<Origin, AllocError> {
    Ok(Origin::new(String::from_str(alloc, text)?))
}

fn origin(rt: &impl Abort, alloc: Global, text: &str) -> Origin {
    match origin_once(alloc, text) {
        Ok(origin) => origin,
        Err(_) => origin_once(alloc, text).expect(rt, BACK),
    }
}

fn pair_welcome(rt: &impl Abort, alloc: Global, top: &str, own: &str) -> Frame {
    let top = origin(rt, alloc, top);
    Frame::PairWelcome(PairWelcome {
        tab: 1,
        top,
        own: origin(rt, alloc, own),
    })
}

/// Asserts whether a text is an origin, at the top and below it.
fn expect_origin(rt: &impl Abort, alloc: Global, text: &str, want: bool) {
    expect_form(rt, pair_welcome(rt, alloc, text, ""), want);
    expect_form(rt, pair_welcome(rt, alloc, "", text), want);
}

#[test]
fn forms_of_origins(rt: HostRuntime) {
    let longest = letters(rt.alloc(), 4_096).expect(&rt, BACK);
    expect_origin(&rt, rt.alloc(), longest.as_str(), true);
    let too_long = letters(rt.alloc(), 4_097).expect(&rt, BACK);
    expect_origin(&rt, rt.alloc(), too_long.as_str(), false);
    expect_origin(&rt, rt.alloc(), "é", false);
}
