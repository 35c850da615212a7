//! Readers and writers of the desk that end, fail, or take nothing.

use crate::tests::same;
use std::io::Read;
use std::process::Abort;
use test_support::devices::{FullWriter, SlowReader, SlowWriter};
use test_support::text::Text;
use wl_workers::{ReadFault, Sink, Source, WriteFault};

/// Reads from a source, and compares the answer.
fn answers<S: Read>(
    rt: &impl Abort,
    source: &mut Source<S>,
    buffer: &mut [u8],
    want: Result<usize, ReadFault>,
) {
    assert!(rt; !buffer.is_empty());
    same(rt, source.read(buffer), want);
}

#[test]
fn source_reads_to_the_end(rt: HostRuntime) {
    let mut source = Source::new(b"ab".as_slice());
    let mut buffer = [0; 4];
    answers(&rt, &mut source, &mut buffer, Ok(2));
    same(&rt, buffer, *b"ab\0\0");
    answers(&rt, &mut source, &mut buffer, Ok(0));
}

#[test]
fn source_fails_when_its_reader_does(rt: HostRuntime) {
    let mut source = Source::new(SlowReader::new(b"ab", 1));
    let mut buffer = [0; 4];
    answers(&rt, &mut source, &mut buffer, Ok(1));
    answers(&rt, &mut source, &mut buffer, Err(ReadFault::Failed));
}

#[test]
fn source_ends_at_its_limit(rt: HostRuntime) {
    let mut source = Source::new(b"".as_slice());
    let mut buffer = [0; 1];
    for _ in 0..1_000_000 {
        answers(&rt, &mut source, &mut buffer, Ok(0));
    }
    let too_many = Err(ReadFault::TooManyReads);
    answers(&rt, &mut source, &mut buffer, too_many);
}

/// Writes into a writer that fails after a number of writes, and compares the answer and the bytes taken.
fn writes(rt: &impl Abort, writes: usize, want: Result<(), WriteFault>, taken: usize) {
    let text = b"abcd";
    let mut writer = SlowWriter::new(writes);
    let done = Sink::new(&mut writer).write(text);
    same(rt, (writes, done), (writes, want));
    assert!(rt; taken <= text.len());
    assert_eq!(rt; Text(writer.taken()), Text(&text[..taken]), "of {}", "abcd");
}

#[test]
fn sink_writes_up_to_the_failure(rt: HostRuntime) {
    for bytes in 0..4 {
        writes(&rt, bytes, Err(WriteFault), bytes);
    }
    writes(&rt, 4, Ok(()), 4);
    writes(&rt, 5, Ok(()), 4);
}

#[test]
fn sink_fails_when_nothing_is_taken(rt: HostRuntime) {
    let mut sink = Sink::new(FullWriter);
    same(&rt, sink.write(b""), Ok(()));
    same(&rt, sink.write(b"a"), Err(WriteFault));
}
