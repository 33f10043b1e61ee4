//! Runs each case over keepers in memory, and tells of those that are told otherwise than they have it. The cases lie in `data/`, in
//! files of the form that the README tells.
#![tactic(auto)]

mod told;

use crate::told::{Portions, is_told};
use std::process::ExitCode;
use std::{fs, io};

/// The files of cases, in order.
const FILES: [&str; 10] = [
    "generated.cases",
    "leaving.cases",
    "opened.cases",
    "queries.cases",
    "reading.cases",
    "redone.cases",
    "replies.cases",
    "streams.cases",
    "undone.cases",
    "why.cases",
];

/// How many bytes of a script a read gives. Each case is read in each of these ways.
const STEPS: [usize; 4] = [1, 2, 7, 4_096];

fn main(rt: HostRuntime) -> ExitCode {
    if tell_all(&rt).unwrap_or(false) {
        ExitCode::SUCCESS
    } else {
        ExitCode::FAILURE
    }
}

/// Tells how many cases each file has, and which are told otherwise. Answers whether none is.
fn tell_all(rt: &HostRuntime) -> io::Result<bool> {
    let mut is_all = true;
    for name in FILES {
        is_all &= tell(rt, name)?;
    }
    Ok(is_all)
}

/// The same of one file.
fn tell(rt: &HostRuntime, name: &str) -> io::Result<bool> {
    let bytes = fs::read(rt, name)?;
    let text = std::str::from_utf8(bytes.as_slice()).unwrap_or("");
    let (setup, cases) = text.split_once('#').unwrap_or((text, ""));
    let mut count: u64 = 0;
    let mut is_all = true;
    for case in cases.split('#') {
        let (title, lines) = case.split_once('\n').unwrap_or((case, ""));
        count = count.saturating_add(1);
        if !is_told_however_read(rt, setup, lines)? {
            println!(rt; "{name}: told otherwise:{title}")?;
            is_all = false;
        }
    }
    println!(rt; "{name}: {count} cases")?;
    Ok(is_all)
}

/// Whether a case is told what it has: in steps of each size, and in two parts that meet at any place.
fn is_told_however_read(rt: &HostRuntime, setup: &str, lines: &str) -> io::Result<bool> {
    for step in STEPS {
        if !is_told(rt, setup, lines, Portions::Steps(step))? {
            return Ok(false);
        }
    }
    // No script of the case is longer than these lines and those before.
    let cuts = setup.len().saturating_add(lines.len());
    for cut in 0..cuts {
        if !is_told(rt, setup, lines, Portions::Cut(cut))? {
            return Ok(false);
        }
    }
    Ok(true)
}
