//! Parsing of the command line.

ghost use Rattle.std.specs.Prelude.{◌≡◌, ◌≢◌, [], codes, map, IfOk, IfErr, Some};
ghost use Rattle.std.specs.Option.{ForSome};
ghost use Rattle.std.specs.String.{string_bytes};
ghost use Rattle.wl_locked.specs.declared.locked.TheConstants.{LANE_LIMIT};
ghost use Rattle.wl_locked.specs.declared.shards.TheConstants.{SHARD_LIMIT};
ghost use Rattle.clap.specs.Words.{App, app_of, fault_of, kind_of, new_app, subcommand_rows_of};
ghost use Rattle.wlb_command_line.specs.CommandWords.{broker_command, command_line, kernel_command, number_option, placed, tab_command, text_option, up_to, values_of, with_size};
ghost use Rattle.wlb_command_line.specs.CommandWords.{GivesAll, GivesNumber, GivesSize, GivesText, HasGrammar, HasNumber, HasRule, HasText, IsCommand, IsInRange, IsMeant, Means};

use crate::command::{Line, LineFault};
use clap::builder::ValueParser;
use clap::error::ErrorKind;
use clap::{Arg, ArgMatches, Command, value_parser};
use std::alloc::{AllocError, Global};
use wl_locked::{LANE_LIMIT, SHARD_LIMIT, STEP_LIMIT};

/// Parses the command line, whose first word is the program's name. Returns `Desk` if there are no
/// other words.
///
/// Fails with `Usage` if the words are not a command or ask for help, and with `Memory` if out of
/// memory.
pub fn line(alloc: Global, words: &[String]) -> Result<Line, LineFault>
    // The line is the meaning of clap's subcommand and its values.
    ensures meant { IfOk result (IsMeant (map string_bytes words.now)) }
    // All numbers are within their limits.
    ensures ranges { IfOk result IsInRange }
    // A command in its plain form is refused only if memory runs out.
    ensures command { IfErr result (λ e. IsCommand (map string_bytes words.now) → e ≡ LineFault.Memory) }
    // Words that the grammar refuses are never accepted.
    ensures refused { IfOk result (λ _. fault_of command_line (map string_bytes words.now) ≡ []) }
    // A usage message is returned only if the grammar finds a fault.
    ensures usage { IfErr result (λ e.
        e ≢ LineFault.Memory → fault_of command_line (map string_bytes words.now) ≢ []) }
{
    match program(alloc)?.try_get_matches_from(words) {
        Ok(matches) => Ok(line_of(alloc, &matches)?),
        Err(error) => Err(line_fault(alloc, &error)),
    }
}

// Grammar

fn program<'a>(alloc: Global) -> Result<Command<'a>, AllocError>
    ensures { IfOk result (λ program. app_of program ≡ command_line) }
{
    Command::new(alloc, "wlb")
        .about("The lock broker of a browser's tabs")
        .after_help(
            "Without a command, wlb runs wlb desk.\n\nExample: wlb sim < examples/lock_moves_on.sim",
        )
        .subcommand(desk(alloc))?
        .subcommand(sim(alloc))?
        .subcommand(kernel(alloc)?)?
        .subcommand(broker(alloc)?)?
        .subcommand(tab(alloc)?)
}

fn desk<'a>(alloc: Global) -> Command<'a>
    ensures { HasGrammar (new_app (codes "desk")) result }
{
    Command::new(alloc, "desk").about(
        "Reads frames from standard input and writes the broker's answers to standard output",
    )
}

fn sim<'a>(alloc: Global) -> Command<'a>
    ensures { HasGrammar (new_app (codes "sim")) result }
{
    Command::new(alloc, "sim").about(
        "Plays a script from standard input and prints the replies of tabs, broker and kernel",
    )
}

fn kernel<'a>(alloc: Global) -> Result<Command<'a>, AllocError>
    ensures { IfOk result (HasGrammar kernel_command) }
{
    let directory = text_option(alloc, "dir", "DIR").help(
        "Directory of the sockets, one for each process",
    );
    let kernel = Command::new(alloc, "kernel")
        .about(
            "Runs a kernel's script, which starts and stops the broker and the tabs as processes",
        )
        .after_help("Example: wlb kernel --dir sockets --lanes 2 --shards 2 --limit 65536 KERNEL")
        .arg(directory)?;
    with_size(alloc, kernel)?.arg(script(alloc))
}

fn broker<'a>(alloc: Global) -> Result<Command<'a>, AllocError>
    ensures { IfOk result (HasGrammar broker_command) }
{
    let broker = Command::new(alloc, "broker")
        .about("Runs the broker of one generation, as the kernel starts it")
        .arg(socket(alloc))?;
    with_size(alloc, broker)
}

fn tab<'a>(alloc: Global) -> Result<Command<'a>, AllocError>
    ensures { IfOk result (HasGrammar tab_command) }
{
    Command::new(alloc, "tab")
        .about("Runs one tab's script, as the kernel starts it")
        .arg(socket(alloc))?
        .arg(script(alloc))
}

/// Adds the options for the size of a broker to a command.
fn with_size<'a>(alloc: Global, command: Command<'a>) -> Result<Command<'a>, AllocError>
    ensures { (app : App) → HasGrammar app command.entry → IfOk result (HasGrammar (with_size app)) }
{
    command
        .arg(lanes(alloc))?
        .arg(shards(alloc))?
        .arg(limit(alloc))
}

fn lanes<'a>(alloc: Global) -> Arg<'a>
    ensures { HasRule (number_option (codes "lanes") (up_to LANE_LIMIT)) result }
{
    let numbers = value_parser!(u16).range(1..=i64::from(LANE_LIMIT));
    number_option(alloc, "lanes", "N", numbers).help(
        "Number of the broker's lanes (threads): 1 to 16",
    )
}

fn shards<'a>(alloc: Global) -> Arg<'a>
    ensures { HasRule (number_option (codes "shards") (up_to SHARD_LIMIT)) result }
{
    let numbers = value_parser!(u16).range(1..=i64::from(SHARD_LIMIT));
    number_option(alloc, "shards", "S", numbers).help(
        "Number of shards (parts) of the broker's locks: 1 to 16",
    )
}

fn limit<'a>(alloc: Global) -> Arg<'a>
    ensures { HasRule (number_option (codes "limit") (up_to STEP_LIMIT)) result }
{
    let numbers = value_parser!(u32).range(1..=i64::from(STEP_LIMIT));
    number_option(alloc, "limit", "N", numbers).help(
        "Largest number of steps of a generation in each shard: 1 to 65536",
    )
}

fn socket<'a>(alloc: Global) -> Arg<'a>
    ensures { HasRule (text_option (codes "socket")) result }
{
    text_option(alloc, "socket", "PATH").help("Path of the socket that the kernel has made")
}

fn script<'a>(alloc: Global) -> Arg<'a>
    ensures { HasRule (placed (codes "script")) result }
{
    placed(alloc, "script", "SCRIPT").help(
        "Path of the script, a text with one command in each line",
    )
}

/// Returns a required positional argument.
fn placed<'a>(alloc: Global, id: &'a str, value_name: &'a str) -> Arg<'a>
    ensures { HasRule (placed id.entry.now) result }
{
    Arg::new(alloc, id).value_name(value_name).required(true)
}

/// Returns a required option with a text value.
fn text_option<'a>(alloc: Global, id: &'a str, value_name: &'a str) -> Arg<'a>
    ensures { HasRule (text_option id.entry.now) result }
{
    placed(alloc, id, value_name).long(id)
}

/// Returns a required option with a number value.
fn number_option<'a>(
    alloc: Global,
    id: &'a str,
    value_name: &'a str,
    parser: ValueParser<'a>,
) -> Arg<'a>
    ensures { HasRule (number_option id.entry.now parser.entry) result }
{
    text_option(alloc, id, value_name).value_parser(parser)
}

// Meaning of the words

/// Returns the line for the subcommand that clap found and its values.
fn line_of(alloc: Global, matches: &ArgMatches<'_>) -> Result<Line, AllocError>
    requires { ForSome (subcommand_rows_of matches.now) (λ found. GivesAll found.0 found.1) }
    ensures meant { IfOk result (Means (subcommand_rows_of matches.now)) }
    ensures ranges { IfOk result IsInRange }
{
    match matches.subcommand() {
        Some((name, values)) => subcommand_line(alloc, name, values),
        None => Ok(Line::Desk),
    }
}

fn subcommand_line(alloc: Global, name: &str, values: &ArgMatches<'_>) -> Result<Line, AllocError>
    requires { GivesAll name.now (values_of values.now) }
    ensures meant { IfOk result (Means (Some (name.now, values_of values.now))) }
    ensures ranges { IfOk result IsInRange }
{
    match name {
        "sim" => Ok(Line::Sim),
        "kernel" => kernel_line(alloc, values),
        "broker" => broker_line(alloc, values),
        "tab" => tab_line(alloc, values),
        _ => Ok(Line::Desk),
    }
}

fn kernel_line(alloc: Global, values: &ArgMatches<'_>) -> Result<Line, AllocError>
    requires directory { GivesText (values_of values.now) (codes "dir") }
    requires size { GivesSize (values_of values.now) }
    requires script { GivesText (values_of values.now) (codes "script") }
    ensures meant { IfOk result (Means (Some (codes "kernel", values_of values.now))) }
    ensures ranges { IfOk result IsInRange }
{
    Ok(Line::Kernel {
        directory: text(alloc, values, "dir")?,
        lanes: short_number(values, "lanes"),
        shards: short_number(values, "shards"),
        limit: long_number(values, "limit"),
        script: text(alloc, values, "script")?,
    })
}

fn broker_line(alloc: Global, values: &ArgMatches<'_>) -> Result<Line, AllocError>
    requires socket { GivesText (values_of values.now) (codes "socket") }
    requires size { GivesSize (values_of values.now) }
    ensures meant { IfOk result (Means (Some (codes "broker", values_of values.now))) }
    ensures ranges { IfOk result IsInRange }
{
    Ok(Line::Broker {
        socket: text(alloc, values, "socket")?,
        lanes: short_number(values, "lanes"),
        shards: short_number(values, "shards"),
        limit: long_number(values, "limit"),
    })
}

fn tab_line(alloc: Global, values: &ArgMatches<'_>) -> Result<Line, AllocError>
    requires socket { GivesText (values_of values.now) (codes "socket") }
    requires script { GivesText (values_of values.now) (codes "script") }
    ensures meant { IfOk result (Means (Some (codes "tab", values_of values.now))) }
    ensures ranges { IfOk result IsInRange }
{
    Ok(Line::Tab {
        socket: text(alloc, values, "socket")?,
        script: text(alloc, values, "script")?,
    })
}

/// Returns a copy of the text of an argument.
fn text(alloc: Global, values: &ArgMatches<'_>, id: &str) -> Result<String, AllocError>
    requires { GivesText (values_of values.now) id.now }
    ensures { IfOk result (HasText (values_of values.now) id.now) }
{
    String::from_str(alloc, values.get_str(id).unwrap())
}

/// Returns the 16-bit number of an argument.
fn short_number(values: &ArgMatches<'_>, id: &str) -> u16
    requires { GivesNumber (values_of values.now) id.now u16.MAX }
    ensures { HasNumber (values_of values.now) id.now result }
{
    values.get_one::<u16>(id).unwrap()
}

/// Returns the 32-bit number of an argument.
fn long_number(values: &ArgMatches<'_>, id: &str) -> u32
    requires { GivesNumber (values_of values.now) id.now u32.MAX }
    ensures { HasNumber (values_of values.now) id.now result }
{
    values.get_one::<u32>(id).unwrap()
}

// Faults

/// Converts clap's error into a usage message. Returns `Memory` if clap or the conversion ran out
/// of memory.
fn line_fault(alloc: Global, error: &clap::Error) -> LineFault
    ensures { kind_of error.now ≡ ErrorKind.OutOfMemory → result ≡ LineFault.Memory }
{
    if error.kind() == ErrorKind::OutOfMemory {
        return LineFault::Memory;
    }
    match error.to_string(alloc) {
        Ok(text) => LineFault::Usage(text),
        Err(_) => LineFault::Memory,
    }
}
