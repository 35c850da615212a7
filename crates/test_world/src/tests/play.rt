//! Play of a row of events: event by event, as one run, and as the sim shows it. A row that runs out of memory is played again.

use std::alloc::{AllocError, Global};
use std::marker::Model;
use std::process::Abort;
use test_support::retry::{BACK, append};
use test_support::text::Text;
use wl_draft::Mode;
use wl_frames::Sequence;
use wl_frames::device::{Sink, Source};
use wl_origin::{partition, partition_pair};
use wl_script::sim::{SimFault, sim_run};
use wl_script::{SimLine, read_line};
use wl_world::event::Event;
use wl_world::holding::Holding;
use wl_world::run::run;
use wl_world::world::World;

// Events

/// Calls `read_line` alone. A caller without its clauses is proved much sooner, as with each function below named `_once`. The
/// rows have no line of another form, so a failure means that memory was refused.
fn read_once(alloc: Global, text: &str) -> Result<SimLine, AllocError> {
    read_line(alloc, text.as_bytes()).map_err(|_unread| AllocError)
}

/// Returns the opening of a page whose URL has an origin.
fn opening(alloc: Global, tab: u16, url: &str) -> Result<Event, AllocError> {
    match partition(alloc, url) {
        Ok(partition) => Ok(Event::Open { tab, partition }),
        Err(_) => Err(AllocError),
    }
}

fn opening_under(alloc: Global, tab: u16, top: &str, url: &str) -> Result<Event, AllocError> {
    match partition_pair(alloc, top, url) {
        Ok(partition) => Ok(Event::OpenTwo { tab, partition }),
        Err(_) => Err(AllocError),
    }
}

/// Returns the delivery of the message of this name: `m1` was sent first.
fn delivery(rt: &impl Abort, alloc: Global, world: &World, name: u64) -> Result<Event, AllocError> {
    let place = name.saturating_sub(1) as usize;
    let message = world.message(place).expect(rt, "the message was sent");
    Ok(Event::Deliver(message.copy()?))
}

/// Returns the event of a line that needs the world.
fn meant(
    rt: &impl Abort,
    alloc: Global,
    world: &World,
    line: &SimLine,
) -> Result<Event, AllocError> {
    match line {
        SimLine::Open { tab, url } => opening(alloc, *tab, url.as_str()),
        SimLine::OpenTwo { tab, top, url } => opening_under(
            alloc,
            *tab,
            top.as_str(),
            url.as_str(),
        ),
        SimLine::Deliver { name } => delivery(rt, alloc, world, *name),
        _ => panic!(rt; "no event of a row"),
    }
}

fn event(rt: &impl Abort, alloc: Global, world: &World, text: &str) -> Result<Event, AllocError> {
    match read_once(alloc, text)? {
        SimLine::Happens(event) => Ok(event),
        line => {
            let event = meant(rt, alloc, world, &line);
            drop(line);
            event
        }
    }
}

// Held locks

fn holdings_once(world: &World) -> Result<Sequence<Holding>, AllocError> {
    world.holdings()
}

fn mode_word(mode: Mode) -> &'static str {
    match mode {
        Mode::Shared => "shared",
        Mode::Exclusive => "exclusive",
    }
}

/// Returns the text of a lock: the tab and its number, the mode and the name. Names of held locks need no escapes in the rows.
fn lock_text(alloc: Global, holding: &Holding) -> Result<String, AllocError> {
    let (tab, number) = (holding.tab, holding.number);
    let (mode, name) = (mode_word(holding.mode), holding.name.as_str());
    format!(in alloc; "{tab}#{number} {mode} {name}")
}

/// Returns locks as the rows list them.
fn text_of(alloc: Global, holdings: &[Holding]) -> Result<String, AllocError> {
    let mut text = String::from_str(alloc, "held")?;
    for holding in holdings {
        text.push(' ')?;
        text.push_str(lock_text(alloc, holding)?.as_str())?;
    }
    Ok(text)
}

/// Returns locks as the sim shows them.
fn list_of(alloc: Global, holdings: &[Holding]) -> Result<String, AllocError> {
    if holdings.is_empty() {
        return String::from_str(alloc, "nothing held\n");
    }
    let mut list = String::new(alloc);
    for holding in holdings {
        list.push_str(lock_text(alloc, holding)?.as_str())?;
        list.push('\n')?;
    }
    Ok(list)
}

/// Returns whether living tabs hold just the locks of a line.
fn holds(alloc: Global, world: &World, line: &str) -> Result<bool, AllocError> {
    let holdings = holdings_once(world)?;
    let text = text_of(alloc, holdings.as_slice())?;
    Ok(text.as_str() == line)
}

fn run_once(alloc: Global, events: &[Event]) -> Result<World, AllocError> {
    run(alloc, events)
}

fn hold_alike(alloc: Global, one: &World, other: &World, line: &str) -> Result<bool, AllocError> {
    Ok(
        one.events().len() == other.events().len()
            && holds(alloc, one, line)?
            && holds(alloc, other, line)?,
    )
}

fn run_script_once(alloc: Global, script: &[u8]) -> Result<Vec<u8>, SimFault> {
    let mut written = Vec::new(alloc);
    let mut source = Source::new(script);
    sim_run(alloc, &mut source, &mut Sink::new(&mut written))?;
    Ok(written)
}

/// Returns the output of a script that the sim plays to its end.
fn written_for(rt: &impl Abort, alloc: Global, script: &[u8]) -> Vec<u8> {
    match run_script_once(alloc, script) {
        Ok(written) => written,
        Err(_) => run_script_once(alloc, script).expect(rt, BACK),
    }
}

/// Asserts that living tabs hold the locks of a line in both worlds. Lists the locks of the second world.
fn list_alike(
    rt: &impl Abort,
    alloc: Global,
    one: &World,
    other: &World,
    line: &str,
) -> Result<String, AllocError> {
    let is_held = hold_alike(alloc, one, other, line)?;
    assert!(rt; is_held, "{line}");
    list_of(alloc, holdings_once(other)?.as_slice())
}

/// Asserts that living tabs hold the locks of a line in this world, and in a run of its events, and lists them.
fn list(rt: &impl Abort, alloc: Global, world: &World, line: &str) -> Result<String, AllocError> {
    let again = run_once(alloc, world.events())?;
    let list = list_alike(rt, alloc, world, &again, line);
    drop(again);
    list
}

// Play of a row

/// Way to play a row.
#[derive(Clone, Copy, PartialEq, Eq)]
pub enum Way {
    /// Event by event, and at the end all events as one run.
    Steps,
    /// Also as one run, and as the sim shows it, at each list of held locks.
    Shows,
}

/// World of a row, and the script of the row's lines so far.
#[derive(Drop)]
pub struct Play {
    way: Way,
    world: World,
    script: Vec<u8>,
}

// Contracts see nothing of it, so that proofs of its callers stay small.
impl Model for Play {
    ghost use Rattle.std.specs.Prelude.{⊤};

    ghost Value = { ⊤ };

    ghost view = { λ _. tt };
}

impl Play {
    fn new(alloc: Global, way: Way) -> Play {
        Play {
            way,
            world: World::new(alloc),
            script: Vec::new(alloc),
        }
    }

    /// Returns the events of the row.
    pub fn events(&self) -> &[Event] {
        self.world.events()
    }

    fn write(&mut self, rt: &impl Abort, line: &str) {
        append(&mut self.script, line.as_bytes()).expect(rt, BACK);
        append(&mut self.script, b"\n").expect(rt, BACK);
    }

    /// Asserts that `show` prints just this list behind the output of the lines so far.
    fn show(&mut self, rt: &impl Abort, alloc: Global, list: &str) {
        let mut wanted = written_for(rt, alloc, self.script.as_slice());
        append(&mut wanted, list.as_bytes()).expect(rt, BACK);
        self.write(rt, "show");
        let written = written_for(rt, alloc, self.script.as_slice());
        assert_eq!(rt;
            Text(written.as_slice()),
            Text(wanted.as_slice()),
            "of {}",
            "a row"
        );
    }
}

/// Calls `step` alone.
fn step_once(play: Play, event: Event) -> Result<Play, AllocError> {
    let Play { way, world, script } = play;
    let (world, _reply) = world.step(event)?;
    Ok(Play { way, world, script })
}

fn after_event(
    rt: &impl Abort,
    alloc: Global,
    mut play: Play,
    line: &str,
) -> Result<Play, AllocError> {
    if play.way == Way::Shows {
        play.write(rt, line);
    }
    match event(rt, alloc, &play.world, line) {
        Ok(event) => step_once(play, event),
        Err(refused) => {
            drop(play);
            Err(refused)
        }
    }
}

/// Asserts that living tabs hold the locks of a line, and that the sim shows them.
fn shown(rt: &impl Abort, alloc: Global, mut play: Play, line: &str) -> Result<Play, AllocError> {
    match list(rt, alloc, &play.world, line) {
        Ok(list) => {
            play.show(rt, alloc, list.as_str());
            Ok(play)
        }
        Err(refused) => {
            drop(play);
            Err(refused)
        }
    }
}

/// Asserts that living tabs hold the locks of a line.
fn held(rt: &impl Abort, alloc: Global, play: Play, line: &str) -> Result<Play, AllocError> {
    match holds(alloc, &play.world, line) {
        Ok(is_held) => {
            assert!(rt; is_held, "{line}");
            Ok(play)
        }
        Err(refused) => {
            drop(play);
            Err(refused)
        }
    }
}

/// Plays the next line of a row.
fn then(rt: &impl Abort, alloc: Global, play: Play, line: &str) -> Result<Play, AllocError> {
    if !line.starts_with("held") {
        return after_event(rt, alloc, play, line);
    }
    match play.way {
        Way::Steps => held(rt, alloc, play, line),
        Way::Shows => shown(rt, alloc, play, line),
    }
}

/// Plays the lines of a row.
pub fn played(
    rt: &impl Abort,
    alloc: Global,
    way: Way,
    parts: &[&str],
) -> Result<Play, AllocError> {
    let mut play = Play::new(alloc, way);
    for part in parts {
        for line in part.lines() {
            play = then(rt, alloc, play, line)?;
        }
    }
    Ok(play)
}

/// Asserts that living tabs hold the locks of a line after a run of these events.
pub fn run_holds(
    rt: &impl Abort,
    alloc: Global,
    events: &[Event],
    line: &str,
) -> Result<(), AllocError> {
    let world = run_once(alloc, events)?;
    let is_held = holds(alloc, &world, line);
    drop(world);
    assert!(rt; is_held?, "{line}");
    Ok(())
}

fn play_once(rt: &impl Abort, alloc: Global, way: Way, parts: &[&str]) -> Result<(), AllocError> {
    let play = played(rt, alloc, way, parts)?;
    let last = parts.last().unwrap_or(&"").lines().last().unwrap_or("");
    let ran = run_holds(rt, alloc, play.events(), last);
    drop(play);
    ran
}

/// Plays a row, which ends with a list of held locks, again if memory is refused.
pub fn check(rt: &impl Abort, alloc: Global, way: Way, parts: &[&str]) {
    if play_once(rt, alloc, way, parts).is_err() {
        play_once(rt, alloc, way, parts).expect(rt, BACK);
    }
}
