//! Rows of the kernel's table of tabs. A call that is refused memory leaves the kernel unchanged, is made again, and must then
//! give its answer.

use super::partitions::{pair_of, partition_of, refuses};
use bytes::Bytes;
use std::alloc::{AllocError, Global};
use std::process::Abort;
use test_support::retry::{BACK, name, report_part, with_numbers};
use wl_frames::{
    Addressed, Answer, Command, Downward, Frame, Hello, Operation, Outcome, Post, Upward,
};
use wl_kernel::{
    Down, GenerationsUsedUp, KillFault, OpenFault, RouteFault, Routed, StartFault, Tabs, Up,
};
use wl_origin::{OriginFault, Partition};

/// Partition number of a tab, and whether the tab lives.
pub type Seen = (Option<u16>, bool);

fn seen(tabs: &Tabs, tab: u16) -> Seen {
    (tabs.partition_number(tab), tabs.is_living(tab))
}

/// State of the kernel: the generation, the count of living tabs, and `Seen` of the tabs 0 to 5.
pub type State = (u32, usize, [Seen; 6]);

pub fn state(tabs: &Tabs) -> State {
    (
        tabs.generation(),
        tabs.living().len(),
        [
            seen(tabs, 0),
            seen(tabs, 1),
            seen(tabs, 2),
            seen(tabs, 3),
            seen(tabs, 4),
            seen(tabs, 5),
        ],
    )
}

/// Returns the partition of a page, at the top or under another page.
fn partition_under(rt: &impl Abort, alloc: Global, top: Option<&str>, url: &str) -> Partition {
    match top {
        Some(top) => pair_of(rt, alloc, top, url),
        None => partition_of(rt, alloc, url),
    }
}

/// Calls `open` alone. A caller without its clauses is proved much sooner, as with each function below named `_once`.
fn open_once(tabs: &mut Tabs, tab: u16, partition: Partition) -> Result<u16, OpenFault> {
    tabs.open(tab, partition)
}

/// Opens a tab, and compares the answer.
fn opens(
    rt: &impl Abort,
    alloc: Global,
    tabs: &mut Tabs,
    tab: u16,
    url: &str,
    expected: Result<u16, OpenFault>,
) {
    opens_under(rt, alloc, tabs, tab, None, url, expected);
}

/// Opens a tab under a top, and compares the answer.
fn opens_under(
    rt: &impl Abort,
    alloc: Global,
    tabs: &mut Tabs,
    tab: u16,
    top: Option<&str>,
    url: &str,
    expected: Result<u16, OpenFault>,
) {
    let before = state(tabs);
    let mut answer = open_once(tabs, tab, partition_under(rt, alloc, top, url));
    if answer == Err(OpenFault::Memory) {
        assert!(rt; state(tabs) == before);
        answer = open_once(tabs, tab, partition_under(rt, alloc, top, url));
    }
    assert!(rt; answer == expected, "tab {tab}");
}

/// Answer to a start.
type Started = Result<(Up, Frame), (Down, StartFault)>;

fn start_once(down: Down, listed: &[u16]) -> Started {
    down.start(listed)
}

fn start(rt: &impl Abort, down: Down, listed: &[u16]) -> Started {
    let before = state(down.tabs());
    let (down, fault) = match start_once(down, listed) {
        Ok(started) => return Ok(started),
        Err(refused) => refused,
    };
    if fault != StartFault::Memory {
        return Err((down, fault));
    }
    assert!(rt; state(down.tabs()) == before);
    start_once(down, listed)
}

/// Returns whether a frame starts a broker of the generation with these tabs and partitions.
fn is_start(frame: &Frame, generation: u32, list: &[(u16, u16)]) -> bool {
    match frame {
        Frame::Start(start) => start.generation == generation && start.list.as_slice() == list,
        _ => false,
    }
}

/// Starts a broker with these tabs, and compares the generation and the listed partitions.
fn started(
    rt: &impl Abort,
    down: Down,
    listed: &[u16],
    generation: u32,
    list: &[(u16, u16)],
) -> Up {
    match start(rt, down, listed) {
        Ok((up, frame)) => {
            assert!(rt; is_start(&frame, generation, list));
            drop(frame);
            up
        }
        Err(_refused) => panic!(rt; "the start was refused"),
    }
}

/// Asserts that a start with these tabs is refused and leaves the kernel unchanged.
fn refused(rt: &impl Abort, down: Down, listed: &[u16], expected: StartFault) -> Down {
    let before = state(down.tabs());
    match start(rt, down, listed) {
        Ok(_started) => panic!(rt; "the broker was started"),
        Err((down, fault)) => {
            assert!(rt; fault == expected && state(down.tabs()) == before);
            down
        }
    }
}

/// Answer to a stop.
type Stopped = Result<Down, (Up, GenerationsUsedUp)>;

fn stop_once(up: Up) -> Stopped {
    up.stop()
}

fn stopped(rt: &impl Abort, up: Up) -> Down {
    match stop_once(up) {
        Ok(down) => down,
        Err(_refused) => panic!(rt; "the stop was refused"),
    }
}

/// Returns post 0 of a tab, of the data `x` to the name `n`.
fn post(rt: &impl Abort, alloc: Global) -> Frame {
    Frame::Post(Post {
        number: 0,
        channel: name(alloc, "n").expect(rt, BACK),
        bytes: Bytes::from_static(b"x"),
    })
}

fn query() -> Frame {
    Frame::Command(Command {
        generation: 1,
        number: 0,
        operation: Operation::Query,
    })
}

/// Returns the broker's answer to a tab that grants its command 0.
fn granted(tab: u16, generation: u32) -> Frame {
    Frame::Addressed(Addressed {
        tab,
        inner: Downward::Answer(Answer {
            generation,
            upto: 1,
            number: 0,
            outcome: Outcome::Granted,
        }),
    })
}

fn is_granted(frame: &Frame) -> bool {
    match frame {
        Frame::Answer(answer) => answer.number == 0 && answer.outcome == Outcome::Granted,
        _ => false,
    }
}

/// Route of a broker's frame over the link of generation 1.
type RoutedDown = Result<(u16, Frame), RouteFault>;

fn down_once(up: &Up, frame: Frame) -> RoutedDown {
    up.route_down(1, frame)
}

fn down_without_broker_once(down: &Down, frame: Frame) -> RoutedDown {
    down.route_down(1, frame)
}

fn up_once(tabs: &Tabs, tab: u16, frame: Frame) -> Result<Routed, RouteFault> {
    tabs.route_up(tab, frame)
}

fn is_grant_for(routed: &RoutedDown, tab: u16) -> bool {
    match routed {
        Ok((target, frame)) => *target == tab && is_granted(frame),
        Err(_) => false,
    }
}

/// Returns whether the broker of generation 1 reaches this tab with its answer.
fn passes(up: &Up, tab: u16) -> bool {
    let routed = down_once(up, granted(tab, 1));
    let passes = is_grant_for(&routed, tab);
    drop(routed);
    passes
}

/// Returns whether a broker's frame over the link of generation 1 is refused for this cause.
fn refuses_down(up: &Up, frame: Frame, fault: RouteFault) -> bool {
    down_once(up, frame).err() == Some(fault)
}

/// Returns whether an answer is refused while no broker runs.
fn refuses_all(down: &Down) -> bool {
    down_without_broker_once(down, granted(1, 1)).err() == Some(RouteFault::StaleLink)
}

/// Returns whether a tab's frame is refused for this cause.
fn refuses_up(up: &Up, tab: u16, frame: Frame, fault: RouteFault) -> bool {
    up_once(up.tabs(), tab, frame).err() == Some(fault)
}

/// Returns the body of a frame that goes to the broker, if it has this tab's stamp.
fn stamped(routed: &Result<Routed, RouteFault>, tab: u16, partition: u16) -> Option<&Upward> {
    match routed {
        Ok(Routed::Broker(Frame::Stamped(stamped)))
            if stamped.tab == tab && stamped.partition == partition => { Some(&stamped.inner) }
        _ => None,
    }
}

/// Returns whether a tab's query goes to the broker under this partition number.
fn is_stamped(tabs: &Tabs, tab: u16, partition: u16) -> bool {
    let routed = up_once(tabs, tab, query());
    let is_stamped = matches!(stamped(&routed, tab, partition), Some(Upward::Command(_)));
    drop(routed);
    is_stamped
}

fn routed_post(
    rt: &impl Abort,
    alloc: Global,
    tabs: &Tabs,
    tab: u16,
) -> Result<Routed, RouteFault> {
    match up_once(tabs, tab, post(rt, alloc)) {
        Err(RouteFault::Memory) => up_once(tabs, tab, post(rt, alloc)),
        answer => answer,
    }
}

/// Returns whether this is the post of a source, addressed to a tab.
fn is_heard(heard: &(u16, Frame), tab: u16, source: u16) -> bool {
    let (target, frame) = heard;
    match frame {
        Frame::Heard(heard) => {
            *target == tab
                && heard.source == source
                && heard.number == 0
                && heard.channel.as_str() == "n"
                && heard.bytes.as_slice() == b"x".as_slice()
        }
        _ => false,
    }
}

/// Returns whether a tab's post goes to these tabs, in this order.
fn is_heard_by(routed: &Result<Routed, RouteFault>, tab: u16, hearers: &[u16]) -> bool {
    match routed {
        Ok(Routed::Tabs(heard)) => {
            let heard = heard.as_slice();
            heard.len() == hearers.len()
                && heard
                    .iter()
                    .zip(hearers)
                    .all(|(heard, hearer)| is_heard(heard, *hearer, tab))
        }
        _ => false,
    }
}

fn is_posted(rt: &impl Abort, alloc: Global, tabs: &Tabs, tab: u16, hearers: &[u16]) -> bool {
    let routed = routed_post(rt, alloc, tabs, tab);
    let is_posted = is_heard_by(&routed, tab, hearers);
    drop(routed);
    is_posted
}

/// Asserts that the broker of this generation, the last one, is not stopped.
fn not_stopped(rt: &impl Abort, up: Up, generation: u32) -> Up {
    match stop_once(up) {
        Ok(_down) => panic!(rt; "the last generation was stopped"),
        Err((up, GenerationsUsedUp)) => {
            assert!(rt; up.tabs().generation() == generation);
            up
        }
    }
}

/// Returns a kernel with a broker that was started without tabs, and with tabs 1 and 2 of one partition.
fn two_tabs(rt: &impl Abort, alloc: Global) -> Up {
    let mut up = started(rt, Down::new(alloc, 65_535), &[], 1, &[]);
    let tabs = up.tabs_mut();
    opens(rt, alloc, tabs, 1, "https://a.test/", Ok(1));
    opens(rt, alloc, tabs, 2, "https://a.test/", Ok(1));
    up
}

/// Two tabs of one origin share the partition of the first. A tab number is given once.
#[test]
fn origins_1(rt: HostRuntime) {
    let alloc = rt.alloc();
    let mut down = Down::new(alloc, 1);
    let tabs = down.tabs_mut();
    opens(&rt, alloc, tabs, 5, "https://a.test/", Ok(5));
    opens(&rt, alloc, tabs, 3, "https://a.test:443/x", Ok(5));
    opens(&rt, alloc, tabs, 2, "http://a.test/", Ok(2));
    opens(
        &rt,
        alloc,
        tabs,
        5,
        "https://b.test/",
        Err(OpenFault::NumberTaken),
    );
    opens(
        &rt,
        alloc,
        tabs,
        0,
        "https://b.test/",
        Err(OpenFault::NumberTaken),
    );
    assert!(rt; tabs.living() == [2, 3, 5].as_slice());
    down.end();
}

/// A start lists opened tabs, each once, by rising number.
#[test]
fn origins_2(rt: HostRuntime) {
    let alloc = rt.alloc();
    let mut down = Down::new(alloc, 1);
    let tabs = down.tabs_mut();
    opens(&rt, alloc, tabs, 3, "https://a.test/", Ok(3));
    opens(&rt, alloc, tabs, 2, "https://a.test/", Ok(3));
    let down = refused(&rt, down, &[3, 2], StartFault::NotRising);
    let down = refused(&rt, down, &[3, 3], StartFault::NotRising);
    let down = refused(&rt, down, &[4], StartFault::Stranger(4));
    down.end();
}

/// Opens 64 tabs in the partition of a port, from this number on.
fn fills(rt: &impl Abort, alloc: Global, tabs: &mut Tabs, port: u16, first: u16) {
    let url = with_numbers(alloc, "http://a.test:{n}/", u32::from(port), 0).expect(rt, BACK);
    for next in 0..64 {
        opens(
            rt,
            alloc,
            tabs,
            first.saturating_add(next),
            url.as_str(),
            Ok(first),
        );
    }
}

/// The limits of living tabs, of one partition and in all.
#[test]
fn origins_3(rt: HostRuntime) {
    let alloc = rt.alloc();
    let mut down = Down::new(alloc, 1);
    let tabs = down.tabs_mut();
    fills(&rt, alloc, tabs, 1, 1);
    opens(
        &rt,
        alloc,
        tabs,
        65,
        "http://a.test:1/",
        Err(OpenFault::PartitionFull),
    );
    for port in 2..17 {
        fills(&rt, alloc, tabs, port, (port - 1) * 64 + 1);
    }
    assert!(rt; tabs.living().len() == 1_024);
    opens(
        &rt,
        alloc,
        tabs,
        1_025,
        "http://a.test:17/",
        Err(OpenFault::TooManyLiving),
    );
    down.end();
}

/// The limit of generations. A frame of an earlier link is stale.
#[test]
fn origins_4(rt: HostRuntime) {
    let up = started(&rt, Down::new(rt.alloc(), 2), &[], 1, &[]);
    let down = stopped(&rt, up);
    assert!(rt; refuses_all(&down));
    let up = started(&rt, down, &[], 2, &[]);
    assert!(rt; refuses_down(&up, granted(1, 1), RouteFault::StaleLink));
    not_stopped(&rt, up, 2).end();
}

#[test]
fn missing_tab(rt: HostRuntime) {
    let alloc = rt.alloc();
    let mut down = stopped(&rt, two_tabs(&rt, alloc));
    opens(&rt, alloc, down.tabs_mut(), 3, "https://a.test/", Ok(1));
    let down = refused(&rt, down, &[1], StartFault::Missing(2));
    let up = started(&rt, down, &[1, 2], 2, &[(1, 1), (2, 1)]);
    up.end();
}

#[test]
fn origins_apart(rt: HostRuntime) {
    let alloc = rt.alloc();
    let mut down = Down::new(alloc, 1);
    let tabs = down.tabs_mut();
    opens(&rt, alloc, tabs, 1, "https://a.test/", Ok(1));
    opens(&rt, alloc, tabs, 2, "https://a.test:443/x", Ok(1));
    opens(&rt, alloc, tabs, 3, "http://a.test/", Ok(3));
    // A page with an opaque origin has no partition.
    refuses(&rt, alloc, "data:,x", OriginFault::Security);
    let up = started(&rt, down, &[1, 2, 3], 1, &[(1, 1), (2, 1), (3, 3)]);
    assert!(rt; is_stamped(up.tabs(), 1, 1));
    assert!(rt; is_stamped(up.tabs(), 3, 3));
    assert!(rt; is_stamped(up.tabs(), 2, 1));
    assert!(rt; passes(&up, 3));
    up.end();
}

/// A page under another top has another partition. A page under its own origin has the partition of a page at the top.
#[test]
fn tops_apart(rt: HostRuntime) {
    let alloc = rt.alloc();
    let (a, t) = ("https://a.test/", "https://t.test/");
    let mut down = Down::new(alloc, 1);
    let tabs = down.tabs_mut();
    opens_under(&rt, alloc, tabs, 1, Some(t), a, Ok(1));
    opens(&rt, alloc, tabs, 2, a, Ok(2));
    opens_under(&rt, alloc, tabs, 3, Some(a), a, Ok(2));
    opens_under(&rt, alloc, tabs, 4, Some(t), a, Ok(1));
    assert!(rt; is_posted(&rt, alloc, tabs, 1, &[4]));
    assert!(rt; is_posted(&rt, alloc, tabs, 3, &[2]));
    down.end();
}

/// Returns whether a part of the tab's report goes to the broker under this partition number.
fn is_reported(alloc: Global, tabs: &Tabs, tab: u16, partition: u16) -> bool {
    let routed = up_once(tabs, tab, report_part(alloc, 0, 1));
    let is_reported = matches!(
        stamped(&routed, tab, partition),
        Some(Upward::ReportPart(_))
    );
    drop(routed);
    is_reported
}

#[test]
fn parts_go_up(rt: HostRuntime) {
    let alloc = rt.alloc();
    let mut up = two_tabs(&rt, alloc);
    assert!(rt; is_reported(alloc, up.tabs(), 2, 1));
    assert!(rt; refuses_up(&up, 3, report_part(alloc, 0, 1), RouteFault::NoTab));
    assert!(rt; up.tabs_mut().kill(2) == Ok(()));
    assert!(rt; refuses_up(&up, 2, report_part(alloc, 0, 1), RouteFault::DeadTab));
    assert!(rt; refuses_down(&up, report_part(alloc, 0, 1), RouteFault::WrongKind));
    up.end();
}

#[test]
fn broadcast(rt: HostRuntime) {
    let alloc = rt.alloc();
    let mut down = Down::new(alloc, 1);
    let tabs = down.tabs_mut();
    opens(&rt, alloc, tabs, 1, "https://a.test/", Ok(1));
    assert!(rt; is_posted(&rt, alloc, tabs, 1, &[]));
    opens(&rt, alloc, tabs, 2, "https://a.test/", Ok(1));
    opens(&rt, alloc, tabs, 3, "http://a.test/", Ok(3));
    assert!(rt; is_posted(&rt, alloc, tabs, 1, &[2]));

    // Two tabs hear the next post, by rising number.
    opens(&rt, alloc, tabs, 5, "https://a.test/", Ok(1));
    opens(&rt, alloc, tabs, 4, "https://a.test/", Ok(1));
    assert!(rt; tabs.kill(5) == Ok(()));
    assert!(rt; is_posted(&rt, alloc, tabs, 2, &[1, 4]));
    down.end();
}

#[test]
fn death_hands_over(rt: HostRuntime) {
    let alloc = rt.alloc();
    let mut up = two_tabs(&rt, alloc);
    assert!(rt; up.tabs_mut().kill(1) == Ok(()));
    assert!(rt; passes(&up, 2));
    assert!(rt; refuses_up(&up, 1, query(), RouteFault::DeadTab));
    assert!(rt; refuses_down(&up, granted(1, 1), RouteFault::DeadTab));
    assert!(rt; up.tabs_mut().kill(1) == Err(KillFault::AlreadyDead));
    assert!(rt; up.tabs().partition_number(1) == Some(1) && !up.tabs().is_living(1));
    up.end();
}

#[test]
fn refusals(rt: HostRuntime) {
    let alloc = rt.alloc();
    let mut up = two_tabs(&rt, alloc);
    assert!(rt; up.tabs_mut().kill(4) == Err(KillFault::NoTab));
    assert!(rt; refuses_up(&up, 4, query(), RouteFault::NoTab));
    assert!(rt; refuses_up(&up, 1, granted(1, 1), RouteFault::WrongKind));
    assert!(rt; refuses_down(&up, granted(4, 1), RouteFault::NoTab));
    assert!(rt; refuses_down(&up, granted(1, 2), RouteFault::WrongKind));
    let hello = Frame::Hello(Hello { generation: 1 });
    assert!(rt; refuses_down(&up, hello, RouteFault::WrongKind));
    up.end();
}

fn ones(alloc: Global, count: usize) -> Result<Vec<u16>, AllocError> {
    vec![in alloc; 1; count]
}

#[test]
fn too_many_listed(rt: HostRuntime) {
    let alloc = rt.alloc();
    let listed = match ones(alloc, 1_025) {
        Ok(listed) => listed,
        Err(_) => ones(alloc, 1_025).expect(&rt, BACK),
    };
    let down = refused(
        &rt,
        Down::new(alloc, 1),
        listed.as_slice(),
        StartFault::TooManyListed,
    );
    down.end();
}
