//! Refusals of a tab's locks. They take no memory, so each is given whichever allocation fails.

use std::process::Abort;
use test_support::retry::{BACK, letters, name};
use wl_agent::{AgentFault, Mode};
use wl_frames::Name;
use wl_tab::TabLocks;

/// Requests a lock, again if memory is refused.
fn request(locks: &mut TabLocks, name: &Name) -> Result<u32, AgentFault> {
    match locks.request(name, Mode::Exclusive) {
        Err(AgentFault::Memory) => locks.request(name, Mode::Exclusive),
        answer => answer,
    }
}

/// Asserts that a request and a probe of the name are refused for the same cause.
fn refuses(rt: &impl Abort, locks: &mut TabLocks, name: &Name, cause: AgentFault) {
    assert_eq!(rt; locks.request(name, Mode::Shared), Err(cause));
    assert_eq!(rt; locks.probe(name, Mode::Exclusive), Err(cause));
}

#[test]
fn refusals_of_locks(rt: HostRuntime) {
    let alloc = rt.alloc();
    let usual = name(alloc, "a").expect(&rt, BACK);
    let unsupported = name(alloc, "-a").expect(&rt, BACK);
    let long = Name::new(letters(alloc, 256).expect(&rt, BACK));
    let mut locks = TabLocks::new(alloc, 1);
    refuses(&rt, &mut locks, &unsupported, AgentFault::NotSupported);
    refuses(&rt, &mut locks, &long, AgentFault::NameTooLong);
    for number in 0..64 {
        assert_eq!(&rt; request(&mut locks, &usual), Ok(number));
    }
    refuses(&rt, &mut locks, &usual, AgentFault::TooMany);
    assert_eq!(&rt; locks.query(), Err(AgentFault::TooMany));
    drop(locks);
}
