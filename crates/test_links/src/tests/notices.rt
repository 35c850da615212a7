//! Frames that the kernel itself sends to tabs and the broker. A call that is refused memory is made again, and
//! must then give its answer.

ghost use Rattle.std.specs.Prelude.{◌≡◌};

use std::alloc::{AllocError, Global};
use std::process::Abort;
use test_support::retry::BACK;
use wl_frames::{
    Addressed, Answer, Command, Downward, Frame, Hello, Operation, Outcome, Stamped, Upward,
};
use wl_kernel::{KilledTab, OpenFault, Origins, Supervisor};
use wl_origin::{OriginFault, Partition, partition_pair};
use wl_process_rules::{DeathNotice, OwedHello, greeting_of, is_beyond_hello, late_hello};

/// Frame that tells the broker of the death of tab 9.
static DEATH: [u8; 8] = [0, 0, 0, 4, 1, 35, 0, 9];

/// URL of the page, and of the page at its top.
const OWN: &str = "https://a.test/";

const TOP: &str = "https://top.test/";

fn page_once(alloc: Global) -> Result<Partition, OriginFault> {
    partition_pair(alloc, TOP, OWN)
}

/// Returns the partition of the page.
fn page(rt: &impl Abort, alloc: Global) -> Partition {
    let page = page_once(alloc).or_else(|_| page_once(alloc));
    page.ok().expect(rt, "a partition")
}

/// Returns a query of this generation.
fn query(generation: u32) -> Frame {
    Frame::Command(Command {
        generation,
        number: 7,
        operation: Operation::Query,
    })
}

/// Returns the answer that the broker has taken command 7 of this tab.
fn answer(tab: u16, generation: u32) -> Frame {
    Frame::Addressed(Addressed {
        tab,
        inner: Downward::Answer(Answer {
            generation,
            upto: 8,
            number: 7,
            outcome: Outcome::Taken,
        }),
    })
}

fn welcome_once(alloc: Global, page: &Partition, is_pair: bool) -> Result<Frame, AllocError> {
    Ok(Origins::new(alloc, page, is_pair)?.welcome(9))
}

/// Returns the welcome of tab 9.
fn welcome(rt: &impl Abort, alloc: Global, page: &Partition, is_pair: bool) -> Frame {
    let welcome = welcome_once(alloc, page, is_pair).or_else(|_| welcome_once(
        alloc, page, is_pair,
    ));
    welcome.expect(rt, BACK)
}

/// A tab is welcomed with its own origin or with both origins, and the broker hears of its death.
#[test]
fn growths_of_news(rt: HostRuntime) {
    let alloc = rt.alloc();
    let page = page(&rt, alloc);
    let one = welcome(&rt, alloc, &page, false);
    assert!(&rt; is_welcome(&one));
    drop(one);
    let both = welcome(&rt, alloc, &page, true);
    assert!(&rt; is_pair_welcome(&both));
    drop(both);
    let death = DeathNotice::new(alloc, 9).or_else(|_| DeathNotice::new(alloc, 9));
    let death = death.expect(&rt, BACK);
    let killed = killed(&rt, alloc);
    assert_eq!(&rt; death.bytes(&killed), DEATH.as_slice());
}

/// Opens tab 9 of the page and kills it.
fn killed(rt: &impl Abort, alloc: Global) -> KilledTab
    ensures { result ≡ 9 }
{
    let mut supervisor = Supervisor::new(alloc, 1);
    let opened = match supervisor.open(9, page(rt, alloc)) {
        Err(OpenFault::Memory) => supervisor.open(9, page(rt, alloc)),
        opened => opened,
    };
    assert_eq!(rt; opened, Ok(9));
    supervisor.kill(9).ok().expect(rt, "a living tab")
}

fn is_welcome(frame: &Frame) -> bool {
    match frame {
        Frame::Welcome(welcome) => welcome.tab == 9 && welcome.origin.as_str() == "https://a.test",
        _ => false,
    }
}

fn is_pair_welcome(frame: &Frame) -> bool {
    match frame {
        Frame::PairWelcome(welcome) => {
            welcome.tab == 9
                && welcome.top.as_str() == "https://top.test"
                && welcome.own.as_str() == "https://a.test"
        }
        _ => false,
    }
}

/// The kernel tells a tab of the current generation if the tab sent a frame of an earlier one. A hello is no answer.
#[test]
fn late_tabs_are_told(rt: HostRuntime) {
    for (sent, current, told) in [
        (1, None, None),
        (1, Some(1), None),
        (2, Some(1), None),
        (1, Some(2), Some(2)),
    ] {
        let frame = Frame::Stamped(Stamped {
            tab: 4,
            partition: 4,
            inner: Upward::Command(Command {
                generation: sent,
                number: 7,
                operation: Operation::Query,
            }),
        });
        assert_eq!(&rt; content_of(&frame, current), told, "{sent}");
        drop(frame);
    }
    let hello = Downward::Hello(Hello { generation: 1 });
    let hello = Frame::Addressed(Addressed {
        tab: 4,
        inner: hello,
    });
    assert!(&rt; !is_beyond_hello(&hello));
    drop(hello);
    let answer = answer(4, 1);
    assert!(&rt; is_beyond_hello(&answer));
    drop(answer);
}

/// Returns the generation that the sender of this frame is told of.
fn content_of(frame: &Frame, current: Option<u32>) -> Option<u32> {
    let told = late_hello(frame, current);
    let generation = hello_in(&told);
    drop(told);
    generation
}

/// Returns the generation of a hello.
fn hello_in(frame: &Option<Frame>) -> Option<u32> {
    match frame {
        Some(Frame::Hello(hello)) => Some(hello.generation),
        _ => None,
    }
}

/// Returns the generation of the Hello that is owed.
fn generation_due(owed: &OwedHello) -> Option<u32> {
    let due = owed.due();
    let generation = hello_in(&due);
    drop(due);
    generation
}

/// The newest Hello that found no room is owed until it or a later one is put.
#[test]
fn a_hello_that_found_no_room_is_owed(rt: HostRuntime) {
    let mut owed = OwedHello::new();
    assert_eq!(&rt; generation_due(&owed), None);
    for (generation, is_put, due) in [
        (2, false, Some(2)),
        (1, false, Some(2)),
        (3, false, Some(3)),
        (2, true, Some(3)),
        (3, true, None),
        (4, true, None),
        (5, false, Some(5)),
        (6, true, None),
    ] {
        let hello = Frame::Hello(Hello { generation });
        owed.note(greeting_of(&hello), is_put);
        drop(hello);
        assert_eq!(&rt; generation_due(&owed), due, "after {generation}");
    }
    owed.refuse(7);
    owed.note(greeting_of(&query(7)), true);
    assert_eq!(&rt; generation_due(&owed), Some(7));
    owed.settle(7);
    assert_eq!(&rt; generation_due(&owed), None);
}
