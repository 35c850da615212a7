//! Loops over readers and writers, and the threads of a broker's lanes.
#![tactic(auto)]

pub mod desk;
pub mod lane_threads;
pub mod lanes;
pub mod laws;
pub mod liveness;
pub mod tab_reader;
pub mod tab_writer;
pub mod uplink;

pub use desk::{DeskFault, desk_run, desk_run_on};
pub use lane_threads::{Job, run_lanes};
pub use lanes::{
    Desk, EVENT_LIMIT, Gate, Intake, LaneEnd, LaneEndCause, Outlet, OutletFault, lane,
};
pub use liveness::{AfterBell, BoardSeat, Lives, SharedSeat};
pub use tab_reader::ReadEnd;
pub use tab_writer::WriteEnd;
pub use uplink::Uplink;
pub use wl_frames::device::{READ_LIMIT, ReadFault, Sink, Source, WriteFault};
