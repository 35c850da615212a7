//! Values of a limit and of process statuses, which contracts cite by name.

use wl_board::board::SEAT_LIMIT;
use wl_process_rules::exit_status::{SIGNALLED, status_of};

#[test]
fn limit_of_seats(rt: HostRuntime) {
    assert_eq!(&rt; SEAT_LIMIT, 16);
}

/// The statuses have the values that shells use.
#[test]
fn statuses_of_processes(rt: HostRuntime) {
    assert_eq!(&rt; SIGNALLED, 128);
    assert_eq!(&rt; status_of(Some(3), None), 3);
    assert_eq!(&rt; status_of(None, Some(9)), 137);
    assert_eq!(&rt; status_of(None, None), 128);
}
