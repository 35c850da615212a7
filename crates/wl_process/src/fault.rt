//! Faults that end a process early.

ghost use Rattle.std.specs.IoError.{error_kind};
ghost use Rattle.std.specs.Prelude.{◌≡◌, ◌≢◌};
ghost use Rattle.wl_frames.specs.Faults.{of_read, of_frame};
ghost use Rattle.wl_process.specs.declared.fault.ProcessFault.TheVariants as faults;
ghost use Rattle.wl_process.specs.FaultStatus.{status_of};

use std::alloc::{AllocError, AllocFailed};
use std::io;
use std::io::ErrorKind;
use thiserror::Error;
use wl_frames::FrameFault;
use wl_frames::device::{ReadFault, WriteFault};

/// Why a process ended before its work was done. The text follows `wlb: ` on standard error.
#[derive(Clone, Copy, Debug, PartialEq, Eq, Error)]
pub enum ProcessFault {
    /// Syntax error in this line, counted from 1, or its command was refused.
    #[error("line {0}")]
    Line(u64),
    /// A file named in this line could not be read or written, or the line's wait took too long.
    #[error("line {0}")]
    LineFailed(u64),
    /// A link's input is not a valid stream of frames, or it ended within a frame.
    #[error("{0}")]
    Frame(FrameFault),
    /// An unexpected frame arrived, or no frame at all.
    #[error("Unexpected")]
    Unexpected,
    /// A reader failed, or a link ended too early.
    #[error("Read")]
    Read,
    /// A writer failed.
    #[error("Write")]
    Write,
    /// A link's input was not at its end after `READ_LIMIT` reads.
    #[error("TooManyReads")]
    TooManyReads,
    /// A device other than a reader or a writer failed.
    #[error("Device")]
    Device,
    /// Out of memory.
    #[error("Memory")]
    Memory,
}

/// Exit status of a process that refused its input.
pub const REFUSED: u8 = 1;

/// Exit status of a process that failed because of a device or memory.
pub const DEVICE_OR_MEMORY: u8 = 3;

impl ProcessFault {
    /// Returns the exit status for this fault: `REFUSED` for bad input, `DEVICE_OR_MEMORY` for a
    /// failure of a device or memory.
    pub fn status(self) -> u8
        ensures { result ≡ status_of self }
    {
        match self {
            ProcessFault::Line(_)
            | ProcessFault::Frame(_)
            | ProcessFault::Unexpected
            | ProcessFault::TooManyReads => REFUSED,
            ProcessFault::LineFailed(_)
            | ProcessFault::Read
            | ProcessFault::Write
            | ProcessFault::Device
            | ProcessFault::Memory => DEVICE_OR_MEMORY,
        }
    }

    /// Maps an OS error that is neither of a read nor of a write to a `ProcessFault`.
    pub fn of_device(error: io::Error) -> ProcessFault
        ensures memory { error_kind error ≡ ErrorKind.OutOfMemory → result ≡ ProcessFault.Memory }
        ensures device { error_kind error ≢ ErrorKind.OutOfMemory → result ≡ ProcessFault.Device }
    {
        match error.kind() {
            ErrorKind::OutOfMemory => ProcessFault::Memory,
            _ => ProcessFault::Device,
        }
    }

    /// Maps a file-read error to a `ProcessFault`.
    pub fn of_reading(error: io::Error) -> ProcessFault
        ensures memory { error_kind error ≡ ErrorKind.OutOfMemory → result ≡ ProcessFault.Memory }
        ensures reader { error_kind error ≢ ErrorKind.OutOfMemory → result ≡ ProcessFault.Read }
    {
        match error.kind() {
            ErrorKind::OutOfMemory => ProcessFault::Memory,
            _ => ProcessFault::Read,
        }
    }
}

impl From<AllocError> for ProcessFault {
    ghost from_gives = { λ _ e. e ≡ faults.Memory };

    fn from(_refused: AllocError) -> ProcessFault {
        ProcessFault::Memory
    }
}

impl<T: Drop> From<AllocFailed<T>> for ProcessFault {
    ghost from_gives = { λ _ e. e ≡ faults.Memory };

    fn from(_refused: AllocFailed<T>) -> ProcessFault {
        ProcessFault::Memory
    }
}

impl From<FrameFault> for ProcessFault {
    ghost from_gives = { λ fault e. e ≡ of_frame faults.Memory faults.Frame fault };

    fn from(fault: FrameFault) -> ProcessFault {
        match fault {
            FrameFault::Memory => ProcessFault::Memory,
            fault => ProcessFault::Frame(fault),
        }
    }
}

impl From<ReadFault> for ProcessFault {
    ghost from_gives = { λ fault e. e ≡ of_read faults.Read faults.TooManyReads fault };

    fn from(fault: ReadFault) -> ProcessFault {
        match fault {
            ReadFault::Failed => ProcessFault::Read,
            ReadFault::TooManyReads => ProcessFault::TooManyReads,
        }
    }
}

impl From<WriteFault> for ProcessFault {
    ghost from_gives = { λ _ e. e ≡ faults.Write };

    fn from(_fault: WriteFault) -> ProcessFault {
        ProcessFault::Write
    }
}
