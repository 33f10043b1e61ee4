// Telling which base rows hold.
use crate::micros;
use bdb_base::{List, Txt};
use bdb_decode::decode;
use bdb_io::{QuietSink, ReadSource};
use bdb_memory::QuietKeeper;
use bdb_top::run;
use std::io;
use std::time::Instant;

/// Runs the script on standard input over a keeper in memory, and then tells which base its rows hold, as an opening or a check
/// does. A line is printed as each of the two ends.
pub fn measure(rt: &HostRuntime) -> io::Result<()> {
    let alloc = rt.alloc();
    let mut words = List::new(alloc);
    words.push(Txt::try_new(alloc, "run")?)?;
    let mut keeper = QuietKeeper::new(alloc);
    let mut script = ReadSource::new(rt.reader());
    let start = Instant::now(rt)?;
    let status = run(
        alloc,
        words.as_slice(),
        &mut script,
        &mut QuietSink::new(),
        &mut keeper,
    );
    let run = micros(rt, &start)?;
    println!(rt; "status {status} run {run}")?;
    let start = Instant::now(rt)?;
    let told = decode(alloc, &mut keeper).is_ok();
    let tell = micros(rt, &start)?;
    println!(rt; "told {told} tell {tell}")
}
