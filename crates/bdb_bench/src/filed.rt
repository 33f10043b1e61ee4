// The keeper over a file.
ghost use Rattle.std.specs.Prelude.{◌≡◌, false};
ghost use Rattle.bdb_base.specs.Causes.{HasCause};

use crate::kept::put_rows;
use crate::micros;
use bdb_keep::{KeepError, Keeper};
use bdb_sql::SqlKeeper;
use std::io;
use std::time::Instant;

/// Opens a file, and commits so many rows so many times, each time the same keys with another content.
pub fn measure(rt: &HostRuntime, file: &str, commits: u32, rows: u32) -> io::Result<()> {
    let start = Instant::now(rt)?;
    let mut keeper = SqlKeeper::from_file(rt.alloc(), rt, file);
    let open = micros(rt, &start)?;
    let start = Instant::now(rt)?;
    let done = commit_times(&mut keeper, commits, rows).is_ok();
    let commit = micros(rt, &start)?;
    let closed = keeper.close().is_ok();
    println!(rt; "done {done} closed {closed} open {open} commit {commit}")
}

/// Opens a file.
pub fn measure_open(rt: &HostRuntime, file: &str) -> io::Result<()> {
    let start = Instant::now(rt)?;
    let keeper = SqlKeeper::from_file(rt.alloc(), rt, file);
    let open = micros(rt, &start)?;
    let works = keeper.works();
    let closed = keeper.close().is_ok();
    println!(rt; "works {works} closed {closed} open {open}")
}

/// Commits so many rows so many times.
pub fn commit_times<K: Keeper>(keeper: &mut K, commits: u32, rows: u32) -> Result<(), KeepError>
    requires { (K.seen keeper.old).running ≡ false }
    ensures { HasCause (K.seen keeper.old).faults
        (K.seen keeper.new).faults result KeepError.Fault }
{
    for round in 0..commits {
        keeper.begin()?;
        put_rows(keeper, rows, round)?;
        keeper.commit()?;
    }
    Ok(())
}
