//! Words of the command line and their meaning. A call that is refused memory is made again, and must then give its answer.

use std::alloc::{AllocError, Global};
use std::process::Abort;
use test_support::retry::BACK;
use wlb_command_line::{Line, LineFault, line};

/// Returns the program's name and the words of a text.
fn words_once(alloc: Global, text: &str) -> Result<Vec<String>, AllocError> {
    let mut words = Vec::new(alloc);
    words.push(String::from_str(alloc, "wlb")?)?;
    for word in text.split(' ') {
        if !word.is_empty() {
            words.push(String::from_str(alloc, word)?)?;
        }
    }
    Ok(words)
}

fn words_of(rt: &impl Abort, alloc: Global, text: &str) -> Vec<String> {
    match words_once(alloc, text) {
        Ok(words) => words,
        Err(_) => words_once(alloc, text).expect(rt, BACK),
    }
}

fn meaning(alloc: Global, words: &[String]) -> Result<Line, LineFault> {
    match line(alloc, words) {
        Err(LineFault::Memory) => line(alloc, words),
        other => other,
    }
}

fn text_once(alloc: Global, line: &Line) -> Result<String, AllocError> {
    format!(in alloc; "{line:?}")
}

fn first_word(alloc: Global, text: &str) -> Result<String, AllocError> {
    let word = text.split(' ').next().unwrap_or("");
    String::from_str(alloc, word).or_else(|_| String::from_str(alloc, word))
}

/// Returns a line, or the first word of the message in its place.
fn told(rt: &impl Abort, alloc: Global, meaning: &Result<Line, LineFault>) -> String {
    let text = match meaning {
        Ok(line) => text_once(alloc, line).or_else(|_| text_once(alloc, line)),
        Err(LineFault::Usage(text)) => first_word(alloc, text.as_str()),
        Err(LineFault::Memory) => first_word(alloc, "Memory"),
    };
    text.expect(rt, BACK)
}

/// Asserts the meaning of the words of a text.
fn means(rt: &impl Abort, alloc: Global, text: &str, line: &str) {
    let words = words_of(rt, alloc, text);
    let meaning = meaning(alloc, words.as_slice());
    assert_eq!(rt; told(rt, alloc, &meaning).as_str(), line, "{text}");
}

/// Words, and behind ` => ` the line that they mean or the first word of the message. Options may stand in any order, and a value
/// that begins like an option stands behind an equals sign.
const MEANINGS: &str = "\
desk => Desk
sim => Sim
broker --socket D/broker1.sock --lanes 2 --shards 1 --limit 65536 => \
Broker { socket: \"D/broker1.sock\", lanes: 2, shards: 1, limit: 65536 }
tab --socket D/tab1.sock TAB => Tab { socket: \"D/tab1.sock\", script: \"TAB\" }
kernel --limit 1 KERNEL --shards=16 --lanes 16 --dir=-x => \
Kernel { directory: \"-x\", lanes: 16, shards: 16, limit: 1, script: \"KERNEL\" }
--help => The
tab --help => Runs";

#[test]
fn meanings_of_words(rt: HostRuntime) {
    means(&rt, rt.alloc(), "", "Desk");
    for row in MEANINGS.lines() {
        let (words, line) = row.split_once(" => ").expect(&rt, "a row");
        means(&rt, rt.alloc(), words, line);
    }
}

/// Words of a kernel whose four tabs make forty rounds.
#[test]
fn growths_of_a_line(rt: HostRuntime) {
    means(
        &rt,
        rt.alloc(),
        "kernel --dir D --lanes 2 --shards 1 --limit 65536 KERNEL",
        "Kernel { directory: \"D\", lanes: 2, shards: 1, limit: 65536, script: \"KERNEL\" }",
    );
}

/// Words that are refused: numbers beyond their limits, missing and repeated options, and words too few and too many.
const REFUSED: &str = "\
kernel --dir D --lanes 0 --shards 1 --limit 1 KERNEL
kernel --dir D --lanes 17 --shards 1 --limit 1 KERNEL
kernel --dir D --lanes 1 --shards 0 --limit 1 KERNEL
kernel --dir D --lanes 1 --shards 17 --limit 1 KERNEL
kernel --dir D --lanes 1 --shards 1 --limit 0 KERNEL
kernel --dir D --lanes 1 --shards 1 --limit 65537 KERNEL
kernel --dir D --lanes -1 --shards 1 --limit 1 KERNEL
kernel --dir D --lanes one --shards 1 --limit 1 KERNEL
other
desk more
kernel
kernel --dir D --lanes 2 --shards 1 --limit 8
kernel --lanes 2 --shards 1 --limit 8 KERNEL
kernel --dir D --shards 1 --limit 8 KERNEL
kernel --dir D --lanes 2 --limit 8 KERNEL
kernel --dir D --lanes 2 --shards 1 KERNEL
kernel --dir D --lanes 2 --shards 1 --limit 8 KERNEL MORE
kernel --dir D --lanes 2 --lanes 2 --shards 1 --limit 8 KERNEL
broker --socket D/broker1.sock --lanes 2 --shards 1 --limit 8 MORE
tab --socket D/tab1.sock
tab TAB";

#[test]
fn refused_words(rt: HostRuntime) {
    for words in REFUSED.lines() {
        means(&rt, rt.alloc(), words, "error:");
    }
}
