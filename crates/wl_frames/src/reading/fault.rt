//! Faults of a frame's fields.

ghost use Rattle.std.specs.Prelude.{◌≡◌};
ghost use Rattle.wl_frames.specs.declared.reading.fault.ReadFault.TheVariants as read_fault;
ghost use Rattle.wl_frames.specs.Reading.{frame_fault};

use crate::fault::FrameFault;
use std::alloc::{AllocError, AllocFailed};
use std::str::Utf8Error;

/// Reason why a field could not be decoded.
#[derive(Drop)]
pub enum ReadFault {
    /// Out of memory.
    Memory,
    /// The field has an invalid value, or is cut off by the end of the bytes.
    Field,
}

impl From<AllocError> for ReadFault {
    ghost from_gives = { λ _ e. e ≡ read_fault.Memory };

    fn from(_e: AllocError) -> ReadFault {
        ReadFault::Memory
    }
}

impl<T: Drop> From<AllocFailed<T>> for ReadFault {
    ghost from_gives = { λ _ e. e ≡ read_fault.Memory };

    fn from(_e: AllocFailed<T>) -> ReadFault {
        ReadFault::Memory
    }
}

impl From<Utf8Error> for ReadFault {
    ghost from_gives = { λ _ e. e ≡ read_fault.Field };

    fn from(_e: Utf8Error) -> ReadFault {
        ReadFault::Field
    }
}

impl From<ReadFault> for FrameFault {
    ghost from_gives = { λ fault e. e ≡ frame_fault fault };

    fn from(fault: ReadFault) -> FrameFault {
        match fault {
            ReadFault::Memory => FrameFault::Memory,
            ReadFault::Field => FrameFault::BadField,
        }
    }
}
