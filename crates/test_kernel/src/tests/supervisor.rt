//! The kernel's supervisor over the lives of two tabs. A call that is refused memory leaves the supervisor unchanged, is made again,
//! and must then give its answer.

use super::tab_table::{State, state};
use std::alloc::Global;
use std::process::Abort;
use test_support::retry::is_spelled;
use wl_frames::{Addressed, Answer, Command, Downward, Frame, Operation, Outcome};
use wl_kernel::{
    NotStarted, NotStopped, OpenFault, RouteFault, Routed, RoutedDown, RoutedUp, Supervisor,
};
use wl_origin::{OriginFault, Partition, partition_pair};

/// URL of the page, and of the page at its top.
const OWN: &str = "https://a.test/";

const TOP: &str = "https://top.test/";

fn page_once(alloc: Global) -> Result<Partition, OriginFault> {
    partition_pair(alloc, TOP, OWN)
}

/// Returns the partition of the page.
fn page(rt: &impl Abort, alloc: Global) -> Partition {
    let page = page_once(alloc).or_else(|_| page_once(alloc));
    page.ok().expect(rt, "a partition")
}

/// Returns the state of a supervisor: the generation that runs, and the table of tabs.
fn seen(supervisor: &Supervisor) -> (Option<u32>, State) {
    (supervisor.current(), state(supervisor.tabs()))
}

/// Opens a tab of the page.
fn open(
    rt: &impl Abort,
    alloc: Global,
    supervisor: &mut Supervisor,
    tab: u16,
) -> Result<u16, OpenFault> {
    let before = seen(supervisor);
    match supervisor.open(tab, page(rt, alloc)) {
        Err(OpenFault::Memory) => {
            assert!(rt; seen(supervisor) == before);
            supervisor.open(tab, page(rt, alloc))
        }
        answer => answer,
    }
}

/// Starts a broker.
fn start(rt: &impl Abort, supervisor: &mut Supervisor) -> Result<(u32, Frame), NotStarted> {
    let before = seen(supervisor);
    let answer = supervisor.start_with_living();
    if matches!(&answer, Err(NotStarted::Memory)) {
        drop(answer);
        assert!(rt; seen(supervisor) == before);
        return supervisor.start_with_living();
    }
    answer
}

/// Starts a broker, and returns the cause if it is refused.
fn refusal(rt: &impl Abort, supervisor: &mut Supervisor) -> Option<NotStarted> {
    match start(rt, supervisor) {
        Ok((_generation, frame)) => {
            drop(frame);
            None
        }
        Err(refused) => Some(refused),
    }
}

/// Returns a query of this generation.
fn query(generation: u32) -> Frame {
    Frame::Command(Command {
        generation,
        number: 7,
        operation: Operation::Query,
    })
}

/// Asserts that a tab's query goes to the broker with the tab's stamp, and which generation runs.
fn is_stamped(
    rt: &impl Abort,
    supervisor: &Supervisor,
    tab: u16,
    partition: u16,
    current: Option<u32>,
) {
    let Ok(sent) = supervisor.route_up(tab, query(1)) else {
        panic!(rt; "a query is sent on");
    };
    assert_eq!(rt; (sent.partition, sent.current), (partition, current));
    assert!(rt; bears(&sent, tab, partition));
    drop(sent);
}

/// Returns whether a frame goes to the broker with this stamp.
fn bears(sent: &RoutedUp, tab: u16, partition: u16) -> bool {
    match &sent.routed {
        Routed::Broker(Frame::Stamped(stamped)) => {
            stamped.tab == tab && stamped.partition == partition
        }
        _ => false,
    }
}

/// Returns the answer that the broker has taken command 7 of this tab.
fn answer(tab: u16, generation: u32) -> Frame {
    Frame::Addressed(Addressed {
        tab,
        inner: Downward::Answer(Answer {
            generation,
            upto: 8,
            number: 7,
            outcome: Outcome::Taken,
        }),
    })
}

/// Delivers an answer to a tab over the link of a generation, and returns its tab and partition.
fn delivered(supervisor: &Supervisor, link: u32, tab: u16) -> Result<(u16, u16), RouteFault> {
    let RoutedDown {
        tab,
        partition,
        frame,
    } = supervisor.route_down(link, answer(tab, link))?;
    drop(frame);
    Ok((tab, partition))
}

/// Two tabs of one page, a broker started with both, a death, and the end of the last generation.
#[test]
fn growths_of_a_supervisor(rt: HostRuntime) {
    let alloc = rt.alloc();
    let mut supervisor = Supervisor::new(alloc, 2);
    assert_eq!(&rt; (supervisor.current(), supervisor.generation()), (None, 1));
    assert_eq!(&rt; open(&rt, alloc, &mut supervisor, 3), Ok(3));
    assert_eq!(&rt;
        open(&rt, alloc, &mut supervisor, 3),
        Err(OpenFault::NumberTaken)
    );
    assert_eq!(&rt; open(&rt, alloc, &mut supervisor, 5), Ok(3));
    assert_eq!(&rt; delivered(&supervisor, 1, 3), Err(RouteFault::StaleLink));
    assert_eq!(&rt; supervisor.stop(), Err(NotStopped::NotUp));
    is_stamped(&rt, &supervisor, 5, 3, None);
    starts(&rt, alloc, &mut supervisor);
    is_stamped(&rt, &supervisor, 5, 3, Some(1));
    assert_eq!(&rt; delivered(&supervisor, 1, 5), Ok((5, 3)));
    assert_eq!(&rt; delivered(&supervisor, 2, 5), Err(RouteFault::StaleLink));
    assert_eq!(&rt; supervisor.kill(3).is_ok(), true);
    assert_eq!(&rt; delivered(&supervisor, 1, 3), Err(RouteFault::DeadTab));
    ends(&rt, &mut supervisor);
}

/// Starts the broker of generation 1 with tabs 3 and 5 of partition 3. A second start is refused.
fn starts(rt: &impl Abort, alloc: Global, supervisor: &mut Supervisor) {
    let Ok((generation, frame)) = start(rt, supervisor) else {
        panic!(rt; "a broker is started");
    };
    assert_eq!(rt; generation, 1);
    let bytes = [0, 0, 0, 16, 1, 33, 0, 0, 0, 1, 0, 2, 0, 3, 0, 3, 0, 5, 0, 3];
    assert!(rt; is_spelled(alloc, &frame, &bytes));
    drop(frame);
    assert_eq!(rt; refusal(rt, supervisor), Some(NotStarted::AlreadyUp));
    assert_eq!(rt; supervisor.current(), Some(1));
}

/// Stops the broker. The broker of generation 2, the last one, is not stopped.
fn ends(rt: &impl Abort, supervisor: &mut Supervisor) {
    assert_eq!(rt; supervisor.stop(), Ok(1));
    assert_eq!(rt; (supervisor.current(), supervisor.generation()), (None, 2));
    assert_eq!(rt; refusal(rt, supervisor), None);
    assert_eq!(rt; supervisor.stop(), Err(NotStopped::GenerationsUsedUp));
    assert_eq!(rt; supervisor.current(), Some(2));
}
