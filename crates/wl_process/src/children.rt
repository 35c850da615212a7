//! Child processes that connect to a socket of their own.

ghost use Rattle.std.specs.IoError.{error_kind, raw_os_error};
ghost use Rattle.std.specs.Prelude.{◌≡◌, ◌≢◌, [], Some, codes, if◌then◌else◌};
ghost use Rattle.wl_process.specs.Paths.{is_like_an_option};
ghost use Rattle.wl_process.specs.declared.children.ChildNotStarted.TheVariants as reasons;
ghost use Rattle.wl_process.specs.declared.children.TheConstants.{EMFILE, ENFILE};
ghost use Rattle.wl_process.specs.declared.fault.ProcessFault.TheVariants as faults;

use crate::fault::ProcessFault;
use crate::host::Host;
use std::alloc::AllocError;
use std::io::ErrorKind;
use std::os::unix::net::{UnixListener, UnixStream};
use std::process::{Child, Command};
use std::time::Duration;
use std::{io, thread};

/// The number of one-millisecond polls within which a child must connect.
const TURNS: u32 = 10_000;

/// The OS error number for too many open files in this process.
pub const EMFILE: i32 = 24;

/// The OS error number for too many open files in the system.
pub const ENFILE: i32 = 23;

/// Why a child was not started.
#[derive(Clone, Copy, Debug, PartialEq, Eq)]
pub enum ChildNotStarted {
    /// No file descriptor is left for the child.
    NoDescriptor,
    Fault(ProcessFault),
}

impl ChildNotStarted {
    /// Converts an OS error.
    pub fn of_device(error: io::Error) -> ChildNotStarted
        ensures process { raw_os_error error ≡ Some EMFILE → result ≡ ChildNotStarted.NoDescriptor }
        ensures system { raw_os_error error ≡ Some ENFILE → result ≡ ChildNotStarted.NoDescriptor }
        ensures memory { raw_os_error error ≢ Some EMFILE → raw_os_error error ≢ Some ENFILE
            → error_kind error ≡ ErrorKind.OutOfMemory → result ≡ ChildNotStarted.Fault ProcessFault.Memory }
        ensures device { raw_os_error error ≢ Some EMFILE → raw_os_error error ≢ Some ENFILE
            → error_kind error ≢ ErrorKind.OutOfMemory → result ≡ ChildNotStarted.Fault ProcessFault.Device }
    {
        match error.raw_os_error() {
            Some(EMFILE | ENFILE) => ChildNotStarted::NoDescriptor,
            _ => ChildNotStarted::Fault(ProcessFault::of_device(error)),
        }
    }
}

impl From<AllocError> for ChildNotStarted {
    ghost from_gives = { λ _ e. e ≡ reasons.Fault faults.Memory };

    fn from(_refused: AllocError) -> ChildNotStarted {
        ChildNotStarted::Fault(ProcessFault::Memory)
    }
}

/// A started child, and its link if it connected.
#[derive(Drop)]
pub struct Started {
    pub child: Child,
    pub link: Option<UnixStream>,
}

/// Returns the prefix that makes a path safe as a program argument: `./` if the path starts with
/// `-`, else nothing.
pub fn path_prefix(path: &str) -> &'static str
    ensures { result.now ≡ (if is_like_an_option path.now then codes "./" else []) }
{
    if path.starts_with('-') { "./" } else { "" }
}

/// Starts a program with these arguments and accepts its connection to a socket at `path`.
///
/// Only this user may connect to the socket. Its file is removed before the call returns. Fails
/// with `NoDescriptor` if fewer than `spare` file descriptors would be left besides the link.
pub fn start_child<R: Host>(
    rt: &R,
    program: &str,
    path: &str,
    words: &[&str],
    spare: usize,
) -> Result<Started, ChildNotStarted> {
    let listener = rt.listen(path).map_err(ChildNotStarted::of_device)?;
    let started = match prepare(rt, &listener, path, spare) {
        Ok(()) => start_listened(rt, &listener, program, words),
        Err(error) => Err(error),
    };
    let removed = remove(rt, path);
    let mut started = started.map_err(ChildNotStarted::of_device)?;
    if let Err(fault) = removed {
        end(&mut started.child);
        return Err(ChildNotStarted::Fault(fault));
    }
    Ok(started)
}

/// Prepares a socket for its child.
fn prepare<R: Host>(rt: &R, listener: &UnixListener, path: &str, spare: usize) -> io::Result<()> {
    rt.make_private(path)?;
    listener.set_nonblocking(true)?;
    find_spare(rt, listener, spare)
}

/// Fails if fewer than `spare` file descriptors are left. Opens that many for a moment.
fn find_spare<R: Host>(rt: &R, listener: &UnixListener, spare: usize) -> io::Result<()> {
    let mut taken = Vec::new(rt.alloc());
    for _descriptor in 0..spare {
        taken.push(listener.try_clone()?)?;
    }
    Ok(())
}

/// Removes a socket's file. Succeeds if the child has removed it already.
fn remove<R: Host>(rt: &R, path: &str) -> Result<(), ProcessFault> {
    match rt.remove_file(path) {
        Err(error) if error.kind() != ErrorKind::NotFound => Err(ProcessFault::of_device(error)),
        _ => Ok(()),
    }
}

fn start_listened<R: Host>(
    rt: &R,
    listener: &UnixListener,
    program: &str,
    words: &[&str],
) -> io::Result<Started> {
    let mut child = start_program(rt, program, words)?;
    match accept(rt, listener, &mut child) {
        Ok(link) => {
            if link.is_none() {
                let _ = child.kill();
            }
            Ok(Started { child, link })
        }
        Err(error) => {
            end(&mut child);
            Err(error)
        }
    }
}

fn start_program<R: Host>(rt: &R, program: &str, words: &[&str]) -> io::Result<Child> {
    let mut command = Command::new(rt.alloc(), program)?;
    for word in words {
        command.arg(*word)?;
    }
    rt.start(&mut command)
}

/// Kills a process if it still runs, and waits for it.
pub fn end(child: &mut Child) {
    let _ = child.kill();
    let _ = child.wait();
}

/// Accepts the connection of a child. Returns `None` if the child ended first or did not connect in
/// time.
fn accept<R: Host>(
    rt: &R,
    listener: &UnixListener,
    child: &mut Child,
) -> io::Result<Option<UnixStream>> {
    for _turn in 0..TURNS {
        match listener.accept() {
            Ok((link, _address)) => return Ok(Some(link)),
            Err(error) if error.kind() == ErrorKind::WouldBlock => {}
            Err(error) => return Err(error),
        }
        match child.try_wait() {
            Ok(None) => {}
            // The child may have connected just before it ended.
            _ => return Ok(listener.accept().ok().map(|(link, _address)| link)),
        }
        thread::sleep(rt, Duration::from_millis(1));
    }
    Ok(None)
}
