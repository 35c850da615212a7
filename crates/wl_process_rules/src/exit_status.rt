//! Exit statuses of processes, as they are reported.

ghost use Rattle.std.specs.Prelude.{◌≡◌, IfSome, None};
ghost use Rattle.wl_process_rules.specs.declared.exit_status.TheConstants.{SIGNALLED};
ghost use Rattle.wl_process_rules.specs.ExitStatus.{status_of_number, status_of_signal};

/// The status of a process killed by signal n is `SIGNALLED` + n. It is also the status of a
/// process that has neither an exit code nor a signal.
pub const SIGNALLED: u8 = 128;

/// Returns the status of an ended process: its exit code, or 128 plus the number of the signal that
/// killed it, as shells do. Numbers outside 0 to 255 become 255.
pub fn status_of(code: Option<i32>, signal: Option<i32>) -> u8
    ensures exited { IfSome code (λ code. result ≡ status_of_number code) }
    ensures signalled { code ≡ None → IfSome signal (λ signal. result ≡ status_of_signal signal) }
    ensures neither { code ≡ None → signal ≡ None → result ≡ SIGNALLED }
{
    match (code, signal) {
        (Some(code), _) => byte_of(code),
        (None, Some(signal)) => byte_of(signal).saturating_add(SIGNALLED),
        (None, None) => SIGNALLED,
    }
}

fn byte_of(number: i32) -> u8
    ensures { result ≡ status_of_number number }
{
    u8::try_from(number).unwrap_or(u8::MAX)
}
