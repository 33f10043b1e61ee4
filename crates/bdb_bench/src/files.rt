// Files that are opened again, and files that are none of the keeper's.
ghost use Rattle.std.specs.Prelude.{◌≡◌, false};
ghost use Rattle.bdb_base.specs.Causes.{HasCause};

use crate::filed::commit_times;
use crate::key_of;
use bdb_keep::{KeepError, Keeper};
use bdb_sql::SqlKeeper;
use std::alloc::Global;
use std::{fs, io};

/// How many rows are committed.
const ROWS: u32 = 100;

/// The file to which they are committed.
const OURS: &str = "ours.db";

/// The same as it is where changes don't go to a log first.
const UNLOGGED: &str = "unlogged.db";

/// A file of one byte, and one of none.
const BYTE: &str = "byte.db";

const EMPTY: &str = "empty.db";

/// Commits rows to a new file, closes it, opens it again and looks for them. Then opens files that are none of the keeper's, first
/// as a run does and then as a check does, and tells what the keeper answers and what is there afterwards. All of them lie in the
/// folder where it runs; a text lies there already.
pub fn tell(rt: &HostRuntime) -> io::Result<()> {
    println!(rt; "committed {}", commits(rt))?;
    println!(rt; "found again {}", finds(rt))?;
    make_others(rt)?;
    for file in ["nowhere/ours.db", "plain.txt", BYTE, UNLOGGED] {
        let before = bytes_of(rt, file)?;
        let told = answer(rt, file);
        tell_rest(rt, file, told, before.as_slice())?;
    }
    for file in ["missing.db", EMPTY, BYTE, UNLOGGED, OURS] {
        let before = bytes_of(rt, file)?;
        let told = present_answer(rt, file);
        tell_rest(rt, file, told, before.as_slice())?;
    }
    Ok(())
}

/// Commits the rows twice, with other contents, and closes the file.
fn commits(rt: &HostRuntime) -> bool {
    let mut keeper = SqlKeeper::from_file(rt.alloc(), rt, OURS);
    let done = commit_times(&mut keeper, 2, ROWS).is_ok();
    keeper.close().is_ok() && done
}

/// Whether each row is in the file, with the content of the second commit.
fn finds(rt: &HostRuntime) -> bool {
    let mut keeper = SqlKeeper::from_file(rt.alloc(), rt, OURS);
    let found = has_rows(rt.alloc(), &mut keeper).unwrap_or(false);
    keeper.close().is_ok() && found
}

/// Whether each row is there.
fn has_rows<K: Keeper>(alloc: Global, keeper: &mut K) -> Result<bool, KeepError>
    ensures { HasCause (K.seen keeper.old).faults
        (K.seen keeper.new).faults result KeepError.Fault }
{
    let mut row = Vec::new(alloc);
    for number in 0..ROWS {
        let found = keeper.get(1, &key_of(number), &mut row)?;
        if !found || row.as_slice() != 1_u32.to_be_bytes().as_slice() {
            return Ok(false);
        }
    }
    Ok(true)
}

/// Makes the files that are none of the keeper's.
fn make_others(rt: &HostRuntime) -> io::Result<()> {
    fs::write(rt, BYTE, b"S")?;
    fs::write(rt, EMPTY, b"")?;
    let mut bytes = fs::read(rt, OURS)?;
    if bytes.len() >= 20 {
        bytes[18] = 1;
        bytes[19] = 1;
    }
    fs::write(rt, UNLOGGED, &bytes)
}

/// The bytes of a file; none where it isn't there.
fn bytes_of(rt: &HostRuntime, file: &str) -> io::Result<Vec<u8>> {
    if fs::exists(rt, file)? {
        fs::read(rt, file)
    } else {
        Ok(Vec::new(rt.alloc()))
    }
}

/// What the keeper of a file answers to its first call.
fn answer(rt: &HostRuntime, file: &str) -> &'static str {
    let mut keeper = SqlKeeper::from_file(rt.alloc(), rt, file);
    let answer = first_answer(&mut keeper);
    keeper.leave();
    answer
}

/// What the keeper of a file that has to be there answers to its first call.
fn present_answer(rt: &HostRuntime, file: &str) -> &'static str {
    let mut keeper = SqlKeeper::from_present_file(rt.alloc(), rt, file);
    let answer = first_answer(&mut keeper);
    keeper.leave();
    answer
}

/// What a keeper answers to its first call.
fn first_answer<K: Keeper>(keeper: &mut K) -> &'static str
    requires { (K.seen keeper.old).running ≡ false }
{
    match keeper.begin() {
        Ok(()) => "works",
        Err(KeepError::Fault) => "fault",
        Err(KeepError::Memory) => "memory",
    }
}

/// Tells what the keeper of a file answered, whether the file is there and has the bytes that it had, and whether a log lies beside it.
fn tell_rest(rt: &HostRuntime, file: &str, answer: &str, before: &[u8]) -> io::Result<()> {
    let there = fs::exists(rt, file)?;
    let after = bytes_of(rt, file)?;
    let same = after.as_slice() == before;
    let log = format!(in rt.alloc(); "{file}-wal")?;
    let logged = fs::exists(rt, log.as_str())?;
    println!(rt; "{file} {answer} there {there} same {same} log {logged}")
}
