//! The commands that the command line can express.

ghost use Rattle.std.specs.Prelude.{◌≡◌};
ghost use Rattle.wlb_command_line.specs.declared.command.LineFault.TheVariants.{Memory as memory};

use std::alloc::AllocError;
use thiserror::Error;

/// A parsed command.
#[derive(Debug, PartialEq, Eq, Drop)]
pub enum Line {
    /// Run a broker between standard input and standard output.
    Desk,
    /// Play a script from standard input and print the replies.
    Sim,
    /// Run a kernel's script, which starts and stops the broker and the tabs as processes.
    Kernel {
        /// The directory of the sockets.
        directory: String,
        /// The number of the broker's lanes: 1 to `LANE_LIMIT`.
        lanes: u16,
        /// The number of the broker's shards: 1 to `SHARD_LIMIT`.
        shards: u16,
        /// The largest number of steps per generation and shard: 1 to `STEP_LIMIT`.
        limit: u32,
        /// The path of the script.
        script: String,
    },
    /// Run the broker of one generation over a socket of the kernel.
    Broker {
        /// The path of the socket.
        socket: String,
        /// As for `Kernel`.
        lanes: u16,
        /// As for `Kernel`.
        shards: u16,
        /// As for `Kernel`.
        limit: u32,
    },
    /// Run one tab's script over a socket of the kernel.
    Tab {
        /// The path of the socket.
        socket: String,
        /// The path of the script.
        script: String,
    },
}

/// Why the command line could not be parsed.
#[derive(Debug, Drop, Error)]
pub enum LineFault {
    /// Text for standard error: a usage message, or the requested help.
    #[error("{0}")]
    Usage(String),
    /// Out of memory.
    #[error("Memory")]
    Memory,
}

impl From<AllocError> for LineFault {
    ghost from_gives = { λ _ fault. fault ≡ memory };

    fn from(_error: AllocError) -> LineFault {
        LineFault::Memory
    }
}
