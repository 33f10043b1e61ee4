//! Measures what no script can reach, in microseconds of the clock: reading a script without answering it, telling which base
//! rows hold, the keeper in memory, and the keeper over a file. `bench/run.sh` calls it; without words it says how. And it tells what the keeper makes
//! of files that are there or not, which the gate compares.
#![tactic(auto)]

mod filed;
mod files;
mod kept;
mod read;
mod told;

use std::process::ExitCode;
use std::time::Instant;
use std::{env, io};

fn main(rt: HostRuntime) -> ExitCode {
    match measured(&rt) {
        Ok(()) => ExitCode::SUCCESS,
        Err(_) => ExitCode::FAILURE,
    }
}

/// Does what the words after the program's name ask for.
fn measured(rt: &HostRuntime) -> io::Result<()> {
    let mut words = Vec::new(rt.alloc());
    for word in env::args(rt)?.skip(1) {
        words.push(word)?;
    }
    match words.as_slice() {
        [job] if job.as_str() == "read" => read::measure(rt),
        [job] if job.as_str() == "told" => told::measure(rt),
        [job, count] if job.as_str() == "kept" => kept::measure(rt, number(count.as_str())),
        [job, file, commits, rows] if job.as_str() == "filed" => filed::measure(
            rt,
            file.as_str(),
            number(commits.as_str()),
            number(rows.as_str()),
        ),
        [job, file] if job.as_str() == "open" => filed::measure_open(rt, file.as_str()),
        [job] if job.as_str() == "files" => files::tell(rt),
        _ => println!(rt;
            "read < SCRIPT | told < SCRIPT | kept COUNT | filed FILE COMMITS ROWS | open FILE | files"
        ),
    }
}

/// The number that a word spells, or 0.
fn number(word: &str) -> u32 {
    word.parse().unwrap_or(0)
}

/// The microseconds since a moment.
fn micros(rt: &HostRuntime, start: &Instant) -> io::Result<u64> {
    let elapsed = start.elapsed(rt)?;
    Ok(u64::try_from(elapsed.as_micros()).unwrap_or(u64::MAX))
}

/// The key of a number, and its row: 24 bytes whose order has nothing to do with that of the numbers.
fn key_of(number: u32) -> [u8; 24] {
    let mixed = u64::from(number)
        .wrapping_mul(0x9E37_79B9_7F4A_7C15)
        .to_be_bytes();
    let plain = u64::from(number).to_be_bytes();
    let mut key = [0; 24];
    key[..8].copy_from_slice(&mixed);
    key[8..16].copy_from_slice(&plain);
    key[16..].copy_from_slice(&mixed);
    key
}

/// The key of a number as the rows of stored worlds have it, in the order of the numbers: a world, a relation, the text of a
/// key and a tuple's number.
fn ordered_key(number: u32) -> [u8; 24] {
    let mut key = [0; 24];
    key[..4].copy_from_slice(&(number / 1000).to_be_bytes());
    key[7] = 1;
    key[8] = 2;
    key[9..19].copy_from_slice(b"sighting a");
    key[20..].copy_from_slice(&number.to_be_bytes());
    key
}
