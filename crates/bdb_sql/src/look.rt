// What stands at a path, looked at before anything is opened for writing.
ghost use Rattle.std.specs.Prelude.{IsTrue};
ghost use Rattle.bdb_sql.specs.Heads.{IsLogged};

use std::fs::{self, File};
use std::io::{self, ErrorKind, Read};

/// How a database file begins.
const MAGIC: &[u8] = b"SQLite format 3\0";

/// The shortest page of a database.
const SHORTEST: u64 = 512;

/// How long a database is that was just made.
const PAGE: u64 = 4096;

/// What stands at a path.
#[derive(Clone, Copy, PartialEq, Eq)]
pub enum Sight {
    /// No database yet: no file, one without a byte, or what is left where a run was cut off while it made one.
    Nothing,
    /// A database whose changes go to a log first, as in each file that a keeper made.
    Database,
    Other,
}

/// Looks at the file at a path. It makes none, and writes to none.
pub fn look_at(rt: &HostRuntime, path: &str) -> io::Result<Sight> {
    let found = match fs::metadata(rt, path) {
        Ok(found) => found,
        Err(error) if error.kind() == ErrorKind::NotFound => return Ok(Sight::Nothing),
        Err(error) => return Err(error),
    };
    if !found.is_file() {
        return Ok(Sight::Other);
    }
    match found.len() {
        0 => Ok(Sight::Nothing),
        1 => look_at_byte(rt, path),
        length => look_at_head(rt, path, length),
    }
}

/// Looks at a file of one byte. The first byte of a new database is written as a zero, and only behind all others as what it is.
fn look_at_byte(rt: &HostRuntime, path: &str) -> io::Result<Sight> {
    let mut file = File::open(rt, path)?;
    let mut byte = [1; 1];
    file.read_exact(&mut byte)?;
    if byte[0] == 0 {
        Ok(Sight::Nothing)
    } else {
        Ok(Sight::Other)
    }
}

/// Looks at how a longer file begins.
fn look_at_head(rt: &HostRuntime, path: &str, length: u64) -> io::Result<Sight> {
    if length < SHORTEST {
        return Ok(Sight::Other);
    }
    let mut file = File::open(rt, path)?;
    let mut head = [0; 20];
    file.read_exact(&mut head)?;
    if is_logged(&head) {
        return Ok(Sight::Database);
    }
    // Whether it was cut off is told by SQLite's crate, from the log beside it.
    if length <= PAGE && head[0] == 0 {
        head[0] = MAGIC[0];
        if is_logged(&head) {
            return Ok(Sight::Nothing);
        }
    }
    Ok(Sight::Other)
}

/// Whether a file that begins so is a database whose changes go to a log first.
fn is_logged(head: &[u8]) -> bool
    ensures { IsTrue result → IsLogged head.now }
{
    head.len() >= 20 && &head[..16] == MAGIC && head[18] == 2 && head[19] == 2
}
