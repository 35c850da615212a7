//! The pace of a tab's frames to the broker, and the pauses of the broker's keeper.

use wl_process_rules::{Load, Pace, Restarts};

/// A burst costs no pause, and frames beyond it wait until they are paid for.
#[test]
fn a_tab_beyond_its_burst_pauses(rt: HostRuntime) {
    let flood = Load {
        frames: 2_000,
        bytes: 40_000,
    };
    let mut pace = Pace::new();
    // 32 milliseconds for the frames, 5 for their bytes.
    pace.send(flood, 0);
    assert_eq!(&rt; pace.pause(), 0);
    // The same load a millisecond later: 73 milliseconds, including a burst of 50.
    pace.send(flood, 1_000_000);
    assert_eq!(&rt; pace.pause(), 23_000_000);
    // The tab has paused for that long, and sends one frame more.
    let one = Load {
        frames: 1,
        bytes: 20,
    };
    pace.send(one, 23_000_000);
    assert_eq!(&rt; pace.pause(), 18_500);
    // After a second the tab owes nothing.
    pace.send(one, 1_000_000_000);
    assert_eq!(&rt; pace.pause(), 0);
}

/// Returns the keeper's pause in milliseconds after `brokers` brokers that ended at once without an answer.
fn pause_after(brokers: u32) -> u64 {
    let mut restarts = Restarts::new();
    for _broker in 0..brokers {
        restarts.end(49, false);
    }
    restarts.pause()
}

/// Sixteen such brokers in a row cost no pause, and each further one 20 milliseconds more, up to a second. A broker that gave an
/// answer, or ran for 50 milliseconds, ends the row.
#[test]
fn brokers_that_end_at_once_cost_a_pause(rt: HostRuntime) {
    for (brokers, pause) in [
        (0, 0),
        (16, 0),
        (17, 20),
        (18, 40),
        (66, 1_000),
        (99, 1_000),
    ] {
        assert_eq!(&rt; pause_after(brokers), pause, "after {brokers}");
    }
    for (lasted, has_answered) in [(50, false), (0, true)] {
        let mut restarts = Restarts::new();
        for _broker in 0..20 {
            restarts.end(0, false);
        }
        assert_eq!(&rt; restarts.pause(), 80);
        restarts.end(lasted, has_answered);
        assert_eq!(&rt; restarts.pause(), 0);
    }
}
