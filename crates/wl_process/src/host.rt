//! Access to the operating system.

use std::fs::{OpenOptions, Permissions};
use std::io::Write;
use std::net::Net;
use std::os::unix::fs::PermissionsExt;
use std::os::unix::net::{UnixListener, UnixStream};
use std::process::{Child, Command, Processes, SystemProcess};
use std::rt::{Clock, Files};
use std::sync::Wait;
use std::thread::Threads;
use std::{fs, io};

/// File mode that allows access for the owner only.
const OWNER_ONLY: u32 = 0o600;

/// The operating system as the processes use it: memory, standard output, the clock, threads and
/// locks, and calls for files, sockets and children.
///
/// Files and streams have concrete types here, because a handle of a generic type could not be
/// passed to a thread.
pub trait Host: AllocGlobal + Print + Clock + Threads + Wait + Copy + Send + Sync + 'static {
    /// Reads a whole file.
    fn read_file(&self, path: &str) -> io::Result<Vec<u8>>;

    /// Overwrites the first bytes of an existing file.
    fn write_over(&self, path: &str, bytes: &[u8]) -> io::Result<()>;

    /// Removes a file.
    fn remove_file(&self, path: &str) -> io::Result<()>;

    /// Listens on a Unix socket and creates its file.
    fn listen(&self, path: &str) -> io::Result<UnixListener>;

    /// Restricts a file to its owner: nobody else may read it, write to it or, if it is a socket,
    /// connect to it.
    fn make_private(&self, path: &str) -> io::Result<()>;

    /// Connects to a Unix socket.
    fn connect(&self, path: &str) -> io::Result<UnixStream>;

    /// Starts a program.
    fn start(&self, command: &mut Command) -> io::Result<Child>;
}

impl<R> Host for R
where
    R: Net
        + Files
        + Processes<Started = SystemProcess>
        + AllocGlobal
        + Print
        + Clock
        + Threads
        + Wait
        + Copy
        + Send
        + Sync
        + 'static,
{
    fn read_file(&self, path: &str) -> io::Result<Vec<u8>> {
        fs::read(self, path)
    }

    fn write_over(&self, path: &str, bytes: &[u8]) -> io::Result<()> {
        let mut file = OpenOptions::new().write(true).open(self, path)?;
        file.write_all(bytes)
    }

    fn remove_file(&self, path: &str) -> io::Result<()> {
        fs::remove_file(self, path)
    }

    fn listen(&self, path: &str) -> io::Result<UnixListener> {
        UnixListener::bind(self, path)
    }

    fn make_private(&self, path: &str) -> io::Result<()> {
        fs::set_permissions(self, path, Permissions::from_mode(OWNER_ONLY))
    }

    fn connect(&self, path: &str) -> io::Result<UnixStream> {
        UnixStream::connect(self, path)
    }

    fn start(&self, command: &mut Command) -> io::Result<Child> {
        command.spawn(self)
    }
}
