//! Runs each example over a keeper in memory, and one of them over a file that is opened twice, and tells whether what it writes is
//! what its file of replies has. The scripts and the replies lie in `data/`; the folder `examples` at the top is a link to it.
#![tactic(auto)]

ghost use Rattle.std.specs.Prelude.{◌≡◌, false};

use bdb_base::{List, Txt};
use bdb_io::{MemSink, MemSource};
use bdb_keep::Keeper;
use bdb_memory::MemKeeper;
use bdb_sql::SqlKeeper;
use bdb_top::run;
use std::alloc::{AllocError, Global};
use std::process::ExitCode;
use std::{fs, io};

/// The examples, in order. Each has a script, `NAME.bsql`, and what is written where it runs, `NAME.replies`.
const NAMES: [&str; 8] = [
    "ask",
    "birds",
    "collection",
    "first",
    "keys",
    "leaving",
    "undo",
    "why",
];

/// The example that is run twice more, in two halves.
const HALVED: &str = "collection";

/// The file over which the halves are run, which isn't there before.
const FILE: &str = "halved.db";

/// How many bytes of a script a read gives.
const STEP: usize = 4_096;

/// How many bytes of replies a sink takes.
const ROOM: usize = 1_000_000;

/// A script, and the replies to it.
#[derive(Drop)]
struct Example {
    script: Vec<u8>,
    replies: Vec<u8>,
}

/// What came of an example.
#[derive(Clone, Copy, Drop)]
enum Outcome {
    /// It wrote the replies, and ended with the status that they tell of.
    AsTold,
    /// What it wrote differs from the replies, first at this byte. The first one has the number 1.
    Differs(usize),
    /// It wrote the replies, and ended with another status, this one.
    Ended(u8),
    /// It wasn't run: a file of it can't be read, or memory runs out.
    NotRun,
}

fn main(rt: HostRuntime) -> ExitCode {
    match tell_all(&rt) {
        Ok(true) => ExitCode::SUCCESS,
        _ => ExitCode::FAILURE,
    }
}

/// Tells what came of each example, and of the one in two halves, in memory and in a file. Answers whether all are as told.
fn tell_all(rt: &HostRuntime) -> io::Result<bool> {
    let mut is_all = true;
    for name in NAMES {
        let outcome = outcome_at_once(rt, name).unwrap_or(Outcome::NotRun);
        tell(rt, name, outcome)?;
        is_all = is_all && is_as_told(outcome);
    }
    let halved = outcome_in_halves(rt, HALVED).unwrap_or(Outcome::NotRun);
    let line = format!(in rt.alloc(); "{HALVED}, in two halves")?;
    tell(rt, line.as_str(), halved)?;
    let filed = outcome_in_file(rt, HALVED).unwrap_or(Outcome::NotRun);
    let line = format!(in rt.alloc(); "{HALVED}, in two halves over a file")?;
    tell(rt, line.as_str(), filed)?;
    Ok(is_all && is_as_told(halved) && is_as_told(filed))
}

/// Tells what came of an example.
fn tell(rt: &HostRuntime, name: &str, outcome: Outcome) -> io::Result<()> {
    match outcome {
        Outcome::AsTold => println!(rt; "{name}: as told"),
        Outcome::Differs(byte) => println!(rt; "{name}: differs at byte {byte}"),
        Outcome::Ended(status) => println!(rt; "{name}: ended with status {status}"),
        Outcome::NotRun => println!(rt; "{name}: can't be run"),
    }
}

/// Whether an example wrote its replies.
fn is_as_told(outcome: Outcome) -> bool {
    matches!(outcome, Outcome::AsTold)
}

/// What comes of an example in one run over a keeper without rows.
fn outcome_at_once(rt: &HostRuntime, name: &str) -> io::Result<Outcome> {
    let alloc = rt.alloc();
    let example = example_of(rt, name)?;
    let mut out = MemSink::new(alloc, List::new(alloc), 0, ROOM)?;
    let mut keeper = MemKeeper::new(alloc, List::new(alloc));
    let status = ran(alloc, example.script.as_slice(), &mut out, &mut keeper)?;
    Ok(judged(example.replies.as_slice(), status, out.bytes()))
}

/// What comes of an example in two runs over one keeper: the second goes on over the rows that the first left, as over a database
/// that is opened again.
fn outcome_in_halves(rt: &HostRuntime, name: &str) -> io::Result<Outcome> {
    let alloc = rt.alloc();
    let example = example_of(rt, name)?;
    let (first, second) = halves(example.script.as_slice());
    let mut out = MemSink::new(alloc, List::new(alloc), 0, ROOM)?;
    let mut keeper = MemKeeper::new(alloc, List::new(alloc));
    let begun = ran(alloc, first, &mut out, &mut keeper)?;
    let ended = ran(alloc, second, &mut out, &mut keeper)?;
    Ok(judged(example.replies.as_slice(), begun.max(ended), out.bytes()))
}

/// What comes of an example in two runs over a file: it is opened, closed and opened again.
fn outcome_in_file(rt: &HostRuntime, name: &str) -> io::Result<Outcome> {
    let alloc = rt.alloc();
    let example = example_of(rt, name)?;
    let (first, second) = halves(example.script.as_slice());
    let mut out = MemSink::new(alloc, List::new(alloc), 0, ROOM)?;
    let begun = ran_in_file(rt, first, &mut out)?;
    let ended = ran_in_file(rt, second, &mut out)?;
    Ok(judged(example.replies.as_slice(), begun.max(ended), out.bytes()))
}

/// Runs a script over the file, closes it, and answers the status.
fn ran_in_file(rt: &HostRuntime, script: &[u8], out: &mut MemSink) -> Result<u8, AllocError> {
    let mut keeper = SqlKeeper::from_file(rt.alloc(), rt, FILE);
    let status = ran(rt.alloc(), script, out, &mut keeper);
    // Where this fails, the second run finds other rows, or none, and what it writes differs.
    drop(keeper.close());
    status
}

/// The files of an example.
fn example_of(rt: &HostRuntime, name: &str) -> io::Result<Example> {
    let file = format!(in rt.alloc(); "{name}.bsql")?;
    let script = fs::read(rt, file.as_str())?;
    let file = format!(in rt.alloc(); "{name}.replies")?;
    let replies = fs::read(rt, file.as_str())?;
    Ok(Example { script, replies })
}

/// The halves of a script. The first one ends with the first empty line behind the middle, which may not stand within a command.
fn halves(script: &[u8]) -> (&[u8], &[u8]) {
    let middle = script.len() / 2;
    let mut end: usize = 0;
    for line in script.split_inclusive(|byte| *byte == b'\n') {
        end = end.saturating_add(line.len());
        if middle < end && line.len() == 1 {
            break;
        }
    }
    script.split_at(end.min(script.len()))
}

/// Runs a script over a keeper, and answers the status.
fn ran<K: Keeper>(
    alloc: Global,
    script: &[u8],
    out: &mut MemSink,
    keeper: &mut K,
) -> Result<u8, AllocError>
    requires idle { (K.seen keeper.old).running ≡ false }
    ensures idle { (K.seen keeper.new).running ≡ false }
{
    let mut words = List::new(alloc);
    words.push(Txt::try_new(alloc, "run")?)?;
    let text = Vec::from_slice(alloc, script)?;
    let mut source = MemSource::new(text, STEP, List::new(alloc));
    Ok(run(alloc, words.as_slice(), &mut source, out, keeper))
}

/// What came of an example with these replies that ended so and wrote this.
fn judged(replies: &[u8], status: u8, written: &[u8]) -> Outcome {
    match difference(replies, written) {
        Some(byte) => Outcome::Differs(byte),
        None if status == status_of(replies) => Outcome::AsTold,
        None => Outcome::Ended(status),
    }
}

/// At which byte two texts first differ, if they do. The first byte has the number 1.
fn difference(replies: &[u8], written: &[u8]) -> Option<usize> {
    let mut number: usize = 1;
    for (reply, byte) in replies.iter().zip(written) {
        if *reply != *byte {
            return Some(number);
        }
        number = number.saturating_add(1);
    }
    if replies.len() == written.len() {
        None
    } else {
        Some(number)
    }
}

/// The status of which replies tell: 1 where one of them is a refusal.
fn status_of(replies: &[u8]) -> u8 {
    u8::from(
        replies
            .split(|byte| *byte == b'\n')
            .any(|line| is_refusal(line)),
    )
}

/// Whether a line of replies is a refusal.
fn is_refusal(line: &[u8]) -> bool {
    line.starts_with(b"error")
}
