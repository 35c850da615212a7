//! The order in which the output of a shard's steps leaves.

use std::alloc::Global;
use std::process::Abort;
use test_support::retry::{BACK, append};
use wl_process_rules::ShardOutput;

/// Finishes a place with these bytes. A refused call changes nothing and can be repeated.
fn finish<R: Abort>(
    rt: &R,
    alloc: Global,
    output: &mut ShardOutput,
    place: u32,
    text: &str,
    sink: &mut Vec<u8>,
) {
    let mut bytes = Vec::new(alloc);
    append(&mut bytes, text.as_bytes()).expect(rt, BACK);
    let len = sink.len();
    if output.finish(place, &mut bytes, sink).is_err() {
        assert!(rt; sink.len() == len && bytes.as_slice() == text.as_bytes());
        output.finish(place, &mut bytes, sink).expect(rt, BACK);
    }
    assert!(rt; bytes.is_empty());
}

/// Finishes places with their bytes, and compares all bytes that have left after each. Place 1 has none, and places 0 and 4 are
/// finished twice.
#[test]
fn outputs_leave_in_the_order_of_places(rt: HostRuntime) {
    let alloc = rt.alloc();
    let mut output = ShardOutput::new(alloc);
    let mut sink = Vec::new(alloc);
    let rows = [
        (2, "c", ""),
        (1, "", ""),
        (4, "e", ""),
        (0, "a", "ac"),
        (0, "x", "ac"),
        (4, "x", "ac"),
        (3, "d", "acde"),
        (5, "f", "acdef"),
    ];
    for (place, text, wanted) in rows {
        finish(&rt, alloc, &mut output, place, text, &mut sink);
        assert!(&rt; sink.as_slice() == wanted.as_bytes());
    }
}
