//! Lines of the kernel's and the tabs' scripts, replies of the kernel, and files in which tabs count.

use std::alloc::{AllocError, Global};
use std::process::Abort;
use test_support::retry::{BACK, name};
use test_support::text::Text;
use wl_frames::{Mode, Name};
use wl_process_rules::{
    KernelLine, KernelReply, TabLine, count_of, put_count, read_kernel_line, read_tab_line,
};
use wl_script_words::ParseFault;

/// Clears the output of a call that was refused memory, which must be a prefix of its text.
pub fn clear_front(rt: &impl Abort, out: &mut Vec<u8>, text: &str) {
    assert!(rt; text.as_bytes().starts_with(out.as_slice()), "of {text}");
    out.clear();
}

/// Reads a line of the kernel's script, again if memory is refused.
fn kernel_line(alloc: Global, text: &[u8]) -> Result<KernelLine, ParseFault> {
    match read_kernel_line(alloc, text) {
        Err(ParseFault::Memory) => read_kernel_line(alloc, text),
        read => read,
    }
}

/// Reads a line of a tab's script, again if memory is refused.
fn tab_line(alloc: Global, text: &[u8]) -> Result<TabLine, ParseFault> {
    match read_tab_line(alloc, text) {
        Err(ParseFault::Memory) => read_tab_line(alloc, text),
        read => read,
    }
}

/// Returns whether a line is refused for its form.
fn is_refused<L>(read: &Result<L, ParseFault>) -> bool {
    matches!(read, Err(ParseFault::Form))
}

/// Returns whether a line was read as this one.
fn is_line<L: PartialEq>(read: &Result<L, ParseFault>, line: &L) -> bool {
    match read {
        Ok(read) => read == line,
        Err(_) => false,
    }
}

fn named(rt: &impl Abort, alloc: Global, text: &str) -> Name {
    name(alloc, text).expect(rt, BACK)
}

fn is_kernel_line(rt: &impl Abort, alloc: Global, text: &str, line: KernelLine) {
    let read = kernel_line(alloc, text.as_bytes());
    assert!(rt; is_line(&read, &line), "of {text}");
    drop(read);
    drop(line);
}

#[test]
fn kernel_lines(rt: HostRuntime) {
    let alloc = rt.alloc();
    is_kernel_line(&rt, alloc, "", KernelLine::Blank);
    is_kernel_line(&rt, alloc, "# start", KernelLine::Blank);
    is_kernel_line(&rt, alloc, "start", KernelLine::Start);
    is_kernel_line(&rt, alloc, "stop", KernelLine::Stop);
    is_kernel_line(&rt, alloc, "kill 1", KernelLine::Kill { tab: 1 });
    is_kernel_line(&rt, alloc, "kill 65535", KernelLine::Kill { tab: 65_535 });
    is_kernel_line(&rt, alloc, "pause 0", KernelLine::Pause { milliseconds: 0 });
    is_kernel_line(
        &rt,
        alloc,
        "pause 50",
        KernelLine::Pause { milliseconds: 50 },
    );
    is_kernel_line(
        &rt,
        alloc,
        "pause 10000",
        KernelLine::Pause {
            milliseconds: 10_000,
        },
    );
    is_kernel_line(&rt, alloc, "join", KernelLine::Join);
}

#[test]
fn kernel_lines_that_open_tabs(rt: HostRuntime) {
    let alloc = rt.alloc();
    let url = named(&rt, alloc, "https://a.test/");
    let file = named(&rt, alloc, "TAB");
    let line = KernelLine::Open { url, file };
    is_kernel_line(&rt, alloc, "open https://a.test/ TAB", line);
    // Neither a URL nor a path has escapes.
    let url = named(&rt, alloc, "data:,%20");
    let file = named(&rt, alloc, "a%20b/é");
    let line = KernelLine::Open { url, file };
    is_kernel_line(&rt, alloc, "open data:,%20 a%20b/é", line);
    let top = named(&rt, alloc, "https://t.test/");
    let url = named(&rt, alloc, "https://a.test/");
    let file = named(&rt, alloc, "TAB");
    let line = KernelLine::OpenTwo { top, url, file };
    let text = "open2 https://t.test/ https://a.test/ TAB";
    is_kernel_line(&rt, alloc, text, line);
}

/// Lines of the kernel's script that are refused for their form. A carriage return does not end a line of this text.
const OTHER_KERNEL_LINES: &str = "\x20
\r
\x20start
start\x20
start 1
start\r
Start
starts
open https://a.test/
open https://a.test/\x20
open  https://a.test/ TAB
open https://a.test/  TAB
open https://a.test/ TAB TAB
open2 https://t.test/ https://a.test/
open2 https://t.test/ https://a.test/\x20
open2 https://t.test/  https://a.test/ TAB
open2 https://t.test/ https://a.test/ TAB TAB
stop 1
stop\r
kill
kill 0
kill 01
kill 65536
kill  1
kill 1 2
kill 1\r
pause
pause 10001
pause 18446744073709551666
pause 050
pause +50
pause 50ms
pause 50\r
join 1
join\r
tell 1
wait 0";

#[test]
fn other_kernel_lines(rt: HostRuntime) {
    let alloc = rt.alloc();
    for text in OTHER_KERNEL_LINES.split('\n') {
        let line = kernel_line(alloc, text.as_bytes());
        assert!(&rt; is_refused(&line), "of {text:?}");
    }
    assert!(&rt; is_refused(&kernel_line(alloc, b"open \xff TAB")));
    assert!(&rt; is_refused(&kernel_line(alloc, b"open a \xff")));
}

fn is_tab_line(rt: &impl Abort, alloc: Global, text: &str, line: TabLine) {
    let read = tab_line(alloc, text.as_bytes());
    assert!(rt; is_line(&read, &line), "of {text}");
    drop(read);
    drop(line);
}

#[test]
fn tab_lines(rt: HostRuntime) {
    let alloc = rt.alloc();
    is_tab_line(&rt, alloc, "", TabLine::Blank);
    is_tab_line(&rt, alloc, "#ask exclusive f", TabLine::Blank);
    is_tab_line(&rt, alloc, "wait 0", TabLine::Wait { number: 0 });
    is_tab_line(
        &rt,
        alloc,
        "wait 4294967295",
        TabLine::Wait { number: u32::MAX },
    );
    is_tab_line(&rt, alloc, "release 18", TabLine::Release { number: 18 });
    is_tab_line(&rt, alloc, "abort 2", TabLine::Abort { number: 2 });
    is_tab_line(&rt, alloc, "query", TabLine::Query);
}

#[test]
fn tab_lines_with_names(rt: HostRuntime) {
    let alloc = rt.alloc();
    let (mode, name) = (Mode::Exclusive, named(&rt, alloc, "f"));
    is_tab_line(&rt, alloc, "ask exclusive f", TabLine::Ask { mode, name });
    let (mode, name) = (Mode::Shared, named(&rt, alloc, ""));
    is_tab_line(&rt, alloc, "ask shared %", TabLine::Ask { mode, name });
    let (mode, name) = (Mode::Exclusive, named(&rt, alloc, "a b"));
    let line = TabLine::Probe { mode, name };
    is_tab_line(&rt, alloc, "probe exclusive a%20b", line);
    let file = named(&rt, alloc, "COUNTER");
    is_tab_line(&rt, alloc, "add COUNTER", TabLine::Add { file });
}

/// Lines of a tab's script that are refused for their form.
const OTHER_TAB_LINES: &str = "\x20
ask
ask exclusive
ask exclusive\x20
ask  exclusive f
ask exclusive  f
ask exclusive f\x20
ask exclusive f g
ask exclusive f\r
ask both f
ask Exclusive f
ask exclusive %66
ask exclusive %FF
ask 1 exclusive f
Ask exclusive f
probe f
wait
wait 00
wait 01
wait  1
wait 1 2
wait x
wait -1
wait 1\r
release
release 1 2
abort 1 2
query 1
query\r
add
add\x20
add  COUNTER
add COUNTER 1
start
post 0 x";

#[test]
fn other_tab_lines(rt: HostRuntime) {
    let alloc = rt.alloc();
    for text in OTHER_TAB_LINES.split('\n') {
        let line = tab_line(alloc, text.as_bytes());
        assert!(&rt; is_refused(&line), "of {text:?}");
    }
    assert!(&rt; is_refused(&tab_line(alloc, b"add \xff")));
}

/// Calls `put` alone: a caller without its clauses is proved much sooner.
fn put_once(reply: &KernelReply<'_>, out: &mut Vec<u8>) -> Result<(), AllocError> {
    reply.put(out)
}

/// Asserts the text of a reply. A call that is refused memory has written a prefix of it, and is made again.
fn prints(rt: &impl Abort, alloc: Global, reply: KernelReply<'_>, text: &str) {
    let mut out = Vec::new(alloc);
    if put_once(&reply, &mut out).is_err() {
        clear_front(rt, &mut out, text);
        put_once(&reply, &mut out).expect(rt, BACK);
    }
    assert_eq!(rt;
        Text(out.as_slice()),
        Text(text.as_bytes()),
        "of {}",
        "a reply"
    );
}

#[test]
fn replies_of_brokers(rt: HostRuntime) {
    let alloc = rt.alloc();
    prints(&rt, alloc, KernelReply::Up(1), "up 1\n");
    prints(&rt, alloc, KernelReply::AlreadyUp, "already up\n");
    prints(&rt, alloc, KernelReply::Stopped(1), "stopped 1\n");
    prints(&rt, alloc, KernelReply::AlreadyDown, "already down\n");
    let used_up = KernelReply::GenerationsUsedUp;
    prints(&rt, alloc, used_up, "GenerationsUsedUp\n");
}

#[test]
fn replies_of_openings(rt: HostRuntime) {
    let alloc = rt.alloc();
    let (tab, top, origin) = (1, "https://t.test", "https://a.test");
    let opened = KernelReply::Opened { tab, origin };
    prints(&rt, alloc, opened, "opened 1 https://a.test\n");
    let opened = KernelReply::OpenedTwo { tab, top, origin };
    let text = "opened 1 https://t.test https://a.test\n";
    prints(&rt, alloc, opened, text);
    prints(&rt, alloc, KernelReply::BadUrl, "BadUrl\n");
    prints(&rt, alloc, KernelReply::SecurityError, "SecurityError\n");
    prints(&rt, alloc, KernelReply::NumberTaken, "NumberTaken\n");
    prints(&rt, alloc, KernelReply::TooManyLiving, "TooManyLiving\n");
    prints(&rt, alloc, KernelReply::PartitionFull, "PartitionFull\n");
    prints(&rt, alloc, KernelReply::TabsUsedUp, "TabsUsedUp\n");
}

#[test]
fn replies_of_deaths(rt: HostRuntime) {
    let alloc = rt.alloc();
    prints(&rt, alloc, KernelReply::Killed(2), "killed 2\n");
    prints(&rt, alloc, KernelReply::NoTab, "no tab\n");
    let (tab, status) = (4, 0);
    prints(
        &rt,
        alloc,
        KernelReply::Ended { tab, status },
        "ended 4 0\n",
    );
    let (tab, status) = (65_535, 255);
    let ended = KernelReply::Ended { tab, status };
    prints(&rt, alloc, ended, "ended 65535 255\n");
}

fn put_count_once(out: &mut Vec<u8>, count: u32) -> Result<(), AllocError> {
    put_count(out, count)
}

/// Asserts the text of a count.
fn counts_as(rt: &impl Abort, alloc: Global, count: u32, text: &str) {
    let mut out = Vec::new(alloc);
    if put_count_once(&mut out, count).is_err() {
        clear_front(rt, &mut out, text);
        put_count_once(&mut out, count).expect(rt, BACK);
    }
    assert_eq!(rt;
        Text(out.as_slice()),
        Text(text.as_bytes()),
        "of {}",
        "a count"
    );
}

/// Texts of other forms than a count's, between bars.
const OTHER_COUNTS: &str =
    "|\n|40|40\r\n|40\n\n|\n40\n|040\n|00\n| 40\n|+40\n|-1\n|4 0\n|1000000\n|18446744073709551616\n";

#[test]
fn counts(rt: HostRuntime) {
    assert_eq!(&rt; count_of("0\n".as_bytes()), Some(0));
    assert_eq!(&rt; count_of("40\n".as_bytes()), Some(40));
    assert_eq!(&rt; count_of("999999\n".as_bytes()), Some(999_999));
    for text in OTHER_COUNTS.split('|') {
        assert!(&rt; count_of(text.as_bytes()).is_none(), "of {text}");
    }
    counts_as(&rt, rt.alloc(), 0, "0\n");
    counts_as(&rt, rt.alloc(), 10, "10\n");
    counts_as(&rt, rt.alloc(), 1_000_000, "1000000\n");
}
