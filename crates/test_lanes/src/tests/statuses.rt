//! Exit statuses of faults, which contracts cite by name.

use wl_frames::FrameFault;
use wl_process::ProcessFault;

#[test]
fn faults_have_their_statuses(rt: HostRuntime) {
    for (fault, status) in [
        (ProcessFault::Line(1), 1),
        (ProcessFault::Frame(FrameFault::Truncated), 1),
        (ProcessFault::Unexpected, 1),
        (ProcessFault::TooManyReads, 1),
        (ProcessFault::LineFailed(1), 3),
        (ProcessFault::Read, 3),
        (ProcessFault::Write, 3),
        (ProcessFault::Device, 3),
        (ProcessFault::Memory, 3),
    ] {
        assert_eq!(&rt; fault.status(), status);
    }
}
