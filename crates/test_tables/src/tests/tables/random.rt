//! Random calls of both tables: a sample of longer histories than the rows have.

use super::{Both, Call};
use crate::tests::entries::Reported;
use std::alloc::{AllocError, Global};
use std::process::Abort;
use std::test::Fail;
use test_support::dice::Dice;
use wl_table::Mode;

/// Count of random calls.
const CALLS: usize = 600;

/// Count of clients, and of the command numbers that each uses.
const CLIENTS: u64 = 5;

const NUMBERS: u64 = 3;

/// Report of a client, whose numbers may be in use.
static REPORT: [Reported; 2] = [
    (0, true, Mode::Shared, "a"),
    (2, false, Mode::Exclusive, "b"),
];

/// Chooses a call, most often a request or a release.
fn random_call(dice: &mut Dice) -> Call<'static> {
    match dice.below(40) {
        0 | 1 => Call::End {
            settle: dice.is_true(),
        },
        2 => Call::Restore {
            report: &REPORT,
            settle: dice.is_true(),
        },
        3..=7 => Call::Abort,
        8..=17 => Call::Release,
        18..=21 => Call::Probe(dice.mode(), dice.lock_name()),
        _ => Call::Request(dice.mode(), dice.lock_name()),
    }
}

/// Makes random calls, and returns how many locks they granted, and how many entries there were at most.
fn play_random(rt: &impl Abort, both: &mut Both) -> Result<(usize, usize), AllocError> {
    let mut dice = Dice::new(20_261_123);
    let (mut granted, mut most) = (0usize, 0usize);
    for _call in 0..CALLS {
        let client = u16::try_from(dice.below(CLIENTS)).unwrap_or(0);
        let number = dice.number(NUMBERS);
        let call = random_call(&mut dice);
        let grants = both.make_again(rt, client, number, call)?;
        granted = granted.saturating_add(grants.len());
        let (held, waiting) = both.compare(rt)?;
        most = most.max(held.saturating_add(waiting));
    }
    Ok((granted, most))
}

fn played(rt: &impl Abort, alloc: Global) -> Result<(usize, usize), AllocError> {
    let mut both = Both::new(alloc);
    let played = play_random(rt, &mut both);
    drop(both);
    played
}

#[test]
fn both_tables_agree_on_random_calls(rt: HostRuntime) -> Result<(), Fail> {
    let (granted, most) = played(&rt, rt.alloc())?;
    // The calls built up tables worth comparing.
    assert!(&rt; granted >= 100, "granted {granted}");
    assert!(&rt; most >= 8, "entries {most}");
    Ok(())
}
