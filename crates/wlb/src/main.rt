//! `wlb`: a broker of Web Locks for browser tabs, as a program.
#![tactic(auto)]

use std::alloc::{AllocError, Global};
use std::io::ErrorKind;
use std::process::ExitCode;
use wl_frames::device::{Sink, Source};
use wl_process::fault::{DEVICE_OR_MEMORY, ProcessFault, REFUSED};
use wl_process_broker::run_broker;
use wl_process_kernel::{KernelWords, run_kernel};
use wl_process_tab::run_tab;
use wl_script::sim::{SimFault, sim_run};
use wl_workers::{DeskFault, desk_run};
use wlb_command_line::{Line, LineFault, line};

/// Exit status for a wrong command line.
const USAGE: u8 = 2;

fn main(rt: HostRuntime) -> ExitCode {
    let alloc = rt.alloc();
    let arguments = match std::env::args(&rt) {
        Ok(arguments) => arguments,
        Err(error) if error.kind() == ErrorKind::InvalidData => {
            return failed(&rt, "an argument is not UTF-8", USAGE);
        }
        Err(_) => return failed(&rt, "Memory", DEVICE_OR_MEMORY),
    };
    let Ok(words) = arguments.collect::<Vec<String>>(alloc) else {
        return failed(&rt, "Memory", DEVICE_OR_MEMORY);
    };
    match line(alloc, words.as_slice()) {
        Ok(Line::Desk) => {
            let mut source = Source::new(rt.stdin());
            let mut sink = Sink::new(rt.stdout());
            match desk_run(alloc, &mut source, &mut sink) {
                Ok(()) => ExitCode::SUCCESS,
                Err(fault) => failed(&rt, fault, desk_status(fault)),
            }
        }
        Ok(Line::Sim) => {
            let mut source = Source::new(rt.stdin());
            let mut sink = Sink::new(rt.stdout());
            match sim_run(alloc, &mut source, &mut sink) {
                Ok(()) => ExitCode::SUCCESS,
                Err(fault) => failed(&rt, fault, sim_status(fault)),
            }
        }
        Ok(
            Line::Kernel {
                directory,
                lanes,
                shards,
                limit,
                script,
            },
        ) => {
            let Ok(program) = program_of(alloc, words.as_slice()) else {
                return failed(&rt, "Memory", DEVICE_OR_MEMORY);
            };
            let kernel = KernelWords {
                directory,
                lanes,
                shards,
                limit,
                script,
                program,
            };
            ended(&rt, run_kernel(rt, alloc, kernel))
        }
        Ok(
            Line::Broker {
                socket,
                lanes,
                shards,
                limit,
            },
        ) => ended(
            &rt,
            run_broker(rt, alloc, socket.as_str(), lanes, shards, limit),
        ),
        Ok(Line::Tab { socket, script }) => {
            ended(&rt, run_tab(rt, alloc, socket.as_str(), script.as_str()))
        }
        Err(fault) => misused(&rt, fault),
    }
}

/// Prints why the command line was refused. A usage message is printed as clap formats it.
fn misused(rt: &impl Eprint, fault: LineFault) -> ExitCode {
    match fault {
        LineFault::Usage(_) => {
            let _ = eprint!(rt; "{fault}");
            ExitCode::from(USAGE)
        }
        LineFault::Memory => failed(rt, fault, DEVICE_OR_MEMORY),
    }
}

/// Returns the program's own name, which the kernel uses to start its children.
fn program_of(alloc: Global, words: &[String]) -> Result<String, AllocError> {
    let program = words.first().map_or("", |word| word.as_str());
    String::from_str(alloc, program)
}

/// Returns the exit status of a finished process, after printing its fault.
fn ended(rt: &impl Eprint, end: Result<(), ProcessFault>) -> ExitCode {
    match end {
        Ok(()) => ExitCode::SUCCESS,
        Err(fault) => failed(rt, fault, fault.status()),
    }
}

/// Prints the fault to standard error and returns the status. A failure to print is ignored.
fn failed(rt: &impl Eprint, fault: impl std::fmt::Display + Drop, status: u8) -> ExitCode {
    let _ = eprintln!(rt; "wlb: {fault}");
    ExitCode::from(status)
}

fn desk_status(fault: DeskFault) -> u8 {
    match fault {
        DeskFault::Frame(_) | DeskFault::Unexpected | DeskFault::TooManyReads => REFUSED,
        DeskFault::Read | DeskFault::Write | DeskFault::Memory => DEVICE_OR_MEMORY,
    }
}

fn sim_status(fault: SimFault) -> u8 {
    match fault {
        SimFault::Line(_) | SimFault::TooManyReads => REFUSED,
        SimFault::Read | SimFault::Write | SimFault::Memory => DEVICE_OR_MEMORY,
    }
}
