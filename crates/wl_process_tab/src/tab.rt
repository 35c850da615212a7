//! A tab's process: one thread reads the link and delivers frames, another runs the script.

use crate::tab_session::{LineFailure, SharedTabSession};
use std::alloc::{AllocError, Global};
use std::io::{ErrorKind, Read};
use std::net::Shutdown;
use std::os::unix::net::UnixStream;
use std::sync::Arc;
use std::thread;
use std::thread::JoinHandle;
use wl_agent::Snapshot;
use wl_frames::device::{PIECE_LEN, READ_LIMIT};
use wl_process::{Host, Incoming, ProcessFault, line_number, read_script};
use wl_process_rules::{TabLine, count_of, put_count, read_tab_line};
use wl_script_words::{ParseFault, snapshot_json};

/// Runs one tab's script over a socket of the kernel, until the script or the link ends.
pub fn run_tab<R: Host>(
    rt: R,
    alloc: Global,
    socket: &str,
    script: &str,
) -> Result<(), ProcessFault> {
    let link = rt.connect(socket).map_err(ProcessFault::of_device)?;
    let (page, reader) = start_reader(rt, alloc, &link)?;
    let ran = run(&rt, alloc, &page, script);
    // The reader drains the unread input.
    let _ = link.shutdown(Shutdown::Both);
    reader.join(&rt);
    ran
}

/// Starts the thread that reads the link. Returns the state it shares with the script, and its
/// handle.
fn start_reader<R: Host>(
    rt: R,
    alloc: Global,
    link: &UnixStream,
) -> Result<(Arc<SharedTabSession>, JoinHandle<()>), ProcessFault> {
    let writing = link.try_clone().map_err(ProcessFault::of_device)?;
    let reading = link.try_clone().map_err(ProcessFault::of_device)?;
    let page = Arc::new(alloc, SharedTabSession::new(alloc, writing))?;
    let reader = {
        let page = Arc::try_clone(&page)?;
        thread::spawn(&rt, move || {
            let end = match read_link(&rt, alloc, &page, &reading) {
                Ok(()) => ProcessFault::Read,
                Err(fault) => fault,
            };
            page.end(&rt, end);
            drain(&reading);
        })
        .map_err(|_| ProcessFault::Device)?
    };
    Ok((page, reader))
}

/// Delivers all frames of the link.
fn read_link<R: Host>(
    rt: &R,
    alloc: Global,
    page: &SharedTabSession,
    link: &UnixStream,
) -> Result<(), ProcessFault> {
    let mut incoming = Incoming::new(alloc, link);
    deliver_all(rt, page, &mut incoming)
}

fn deliver_all<R: Host, S: Read>(
    rt: &R,
    page: &SharedTabSession,
    incoming: &mut Incoming<S>,
) -> Result<(), ProcessFault> {
    for _reads in 0..READ_LIMIT {
        let Some(frames) = incoming.next()? else {
            return Ok(());
        };
        page.take(rt, frames)?;
    }
    Err(ProcessFault::TooManyReads)
}

/// Reads and discards the rest of a link's input. Closing a socket with unread bytes would look
/// like a fault to the peer.
fn drain(link: &UnixStream) {
    let mut buffer = [0; PIECE_LEN];
    let mut reader = link;
    for _reads in 0..u64::MAX {
        if !matches!(reader.read(&mut buffer), Ok(count) if count != 0) {
            return;
        }
    }
}

/// Runs the lines of a script.
fn run<R: Host>(
    rt: &R,
    alloc: Global,
    page: &SharedTabSession,
    path: &str,
) -> Result<(), ProcessFault> {
    let script = read_script(rt, path)?;
    page.wait_for_welcome(rt)?;
    for (index, text) in script.as_slice().split(|byte| *byte == b'\n').enumerate() {
        page.check(rt)?;
        run_line(rt, alloc, page, line_number(index, text)?, text)?;
    }
    Ok(())
}

/// Runs one line.
fn run_line<R: Host>(
    rt: &R,
    alloc: Global,
    page: &SharedTabSession,
    number: u64,
    text: &[u8],
) -> Result<(), ProcessFault> {
    match &read_tab_line(alloc, text) {
        Ok(line) => at_line(number, obey(rt, alloc, page, line)),
        Err(ParseFault::Form) => Err(ProcessFault::Line(number)),
        Err(ParseFault::Memory) => Err(ProcessFault::Memory),
    }
}

/// Maps the result of a line to that of the process.
fn at_line(number: u64, done: Result<(), LineFailure>) -> Result<(), ProcessFault> {
    match done {
        Ok(()) => Ok(()),
        Err(LineFailure::Refused) => Err(ProcessFault::Line(number)),
        Err(LineFailure::Failed) => Err(ProcessFault::LineFailed(number)),
        Err(LineFailure::Fault(fault)) => Err(fault),
    }
}

/// Executes a line.
fn obey<R: Host>(
    rt: &R,
    alloc: Global,
    page: &SharedTabSession,
    line: &TabLine,
) -> Result<(), LineFailure> {
    match line {
        TabLine::Blank => Ok(()),
        TabLine::Ask { mode, name } => page.ask(rt, *mode, name),
        TabLine::Probe { mode, name } => page.probe(rt, *mode, name),
        TabLine::Wait { number } => wait(rt, page, *number),
        TabLine::Release { number } => Ok(page.release(rt, *number)?),
        TabLine::Abort { number } => Ok(page.abort(rt, *number)?),
        TabLine::Query => print_snapshot(rt, alloc, page),
        TabLine::Add { file } => add(rt, alloc, file.as_str()),
    }
}

/// Waits until a number is decided.
fn wait<R: Host>(rt: &R, page: &SharedTabSession, number: u32) -> Result<(), LineFailure> {
    let _answer = page.wait(rt, number)?;
    Ok(())
}

/// Requests a snapshot and prints it.
fn print_snapshot<R: Host>(
    rt: &R,
    alloc: Global,
    page: &SharedTabSession,
) -> Result<(), LineFailure> {
    let answer = page.query(rt)?;
    let Ok(text) = text_of(alloc, answer.as_ref()) else {
        return Err(LineFailure::Fault(ProcessFault::Memory));
    };
    if println!(rt; "{}", text.as_str()).is_err() {
        return Err(LineFailure::Fault(ProcessFault::Write));
    }
    Ok(())
}

/// Returns the output line for the answer to a query.
fn text_of(alloc: Global, answer: Option<&Snapshot>) -> Result<String, AllocError> {
    match answer {
        Some(snapshot) => snapshot_json(alloc, snapshot),
        None => String::from_str(alloc, "lost"),
    }
}

/// Increments the number in a counter file. The new text is written over the old one and is never
/// shorter, so the file holds a number at every moment.
fn add<R: Host>(rt: &R, alloc: Global, path: &str) -> Result<(), LineFailure> {
    let text = rt.read_file(path).map_err(|error| match error.kind() {
        ErrorKind::OutOfMemory => LineFailure::Fault(ProcessFault::Memory),
        _ => LineFailure::Failed,
    })?;
    let Some(count) = count_of(text.as_slice()) else {
        return Err(LineFailure::Failed);
    };
    let mut text = Vec::new(alloc);
    if put_count(&mut text, count.saturating_add(1)).is_err() {
        return Err(LineFailure::Fault(ProcessFault::Memory));
    }
    rt.write_over(path, text.as_slice())
        .map_err(|_| LineFailure::Failed)
}
