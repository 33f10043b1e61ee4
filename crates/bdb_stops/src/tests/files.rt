// The two files of a database in memory, of which one fails from some call on, and a run of the script over them.
ghost use Rattle.std.specs.Prelude.{◌≡◌, false, IfOk};

use crate::tests::script::{ROOM, Script, all_of, ran};
use bdb_base::List;
use bdb_io::MemSink;
use bdb_sql::SqlKeeper;
use sqlite::{Connection, FileStore, Options};
use sqlite_disk::{Crash, Disk, Files, Fuse, Memory};
use std::alloc::Global;
use std::test::Fail;

/// Which of the two files fails.
#[derive(Clone, Copy, Debug, PartialEq, Eq, Drop)]
pub enum Failing {
    Log,
    Database,
}

/// How a run over the files ended.
#[derive(Drop)]
pub struct Ending {
    /// The status; 5 where the files couldn't be opened.
    pub status: u8,
    /// The replies.
    pub replies: MemSink,
    /// Whether the files were closed with no failure.
    pub closed: bool,
    /// The files.
    pub files: Files<Fuse<Memory>>,
}

/// Runs a script over new files, of which one takes so many calls and no more. At the end it closes the files as the program
/// does.
pub fn ended(alloc: Global, script: Script, failing: Failing, calls: u64) -> Result<Ending, Fail> {
    let mut replies = MemSink::new(alloc, List::new(alloc), 0, ROOM)?;
    let keeper = match opened(alloc, files_failing(alloc, failing, calls)) {
        Ok(keeper) => keeper,
        Err(files) => {
            return Ok(Ending {
                status: 5,
                replies,
                closed: false,
                files,
            });
        }
    };
    let (status, keeper) = run_over(alloc, script, keeper, &mut replies)?;
    let (closed, files) = files_of(keeper).ok_or("no connection")?;
    Ok(Ending {
        status,
        replies,
        closed,
        files,
    })
}

/// Runs a script over a keeper.
fn run_over(
    alloc: Global,
    script: Script,
    mut keeper: SqlKeeper<FileStore<Fuse<Memory>>>,
    replies: &mut MemSink,
) -> Result<(u8, SqlKeeper<FileStore<Fuse<Memory>>>), Fail>
    requires idle { keeper.seen.running ≡ false }
{
    let status = ran(alloc, "run", all_of(script), replies, &mut keeper)?;
    Ok((status, keeper))
}

/// New files, of which one takes so many calls and no more.
fn files_failing(alloc: Global, failing: Failing, calls: u64) -> Files<Fuse<Memory>> {
    let (log, db) = match failing {
        Failing::Log => (calls, u64::MAX),
        Failing::Database => (u64::MAX, calls),
    };
    Files {
        log: Fuse::new(Memory::new(alloc), log),
        db: Fuse::new(Memory::new(alloc), db),
    }
}

/// A keeper over files. Where they can't be opened they come back.
pub fn opened(
    alloc: Global,
    files: Files<Fuse<Memory>>,
) -> Result<SqlKeeper<FileStore<Fuse<Memory>>>, Files<Fuse<Memory>>>
    ensures { IfOk result (λ keeper. keeper.seen.running ≡ false) }
{
    if !files.may_be_used() {
        return Err(files);
    }
    match Connection::open_files(alloc, files, Options::new(1)) {
        Ok(conn) => Ok(SqlKeeper::over(alloc, conn)),
        Err((_, left)) => Err(left.into_files()),
    }
}

/// Closes the files of a keeper, and tells whether none of that failed. Where the keeper works its log is copied first.
pub fn files_of(keeper: SqlKeeper<FileStore<Fuse<Memory>>>) -> Option<(bool, Files<Fuse<Memory>>)> {
    let works = keeper.works();
    let conn = keeper.into_connection()?;
    if !works {
        return Some((false, conn.into_store().close()));
    }
    match conn.close_files() {
        Ok(files) => Some((true, files)),
        Err((_, store)) => Some((false, store.close())),
    }
}

/// The files as the program left them: each write that was accepted is there.
pub fn as_they_were_left(
    alloc: Global,
    files: &Files<Fuse<Memory>>,
) -> Result<Files<Fuse<Memory>>, Fail> {
    Ok(Files {
        log: copy_of(alloc, &files.log)?,
        db: copy_of(alloc, &files.db)?,
    })
}

/// A file with the same bytes that doesn't fail.
fn copy_of(alloc: Global, file: &Fuse<Memory>) -> Result<Fuse<Memory>, Fail> {
    let mut copy = Memory::new(alloc);
    copy.write_at(0, file.inner().bytes())?;
    Ok(Fuse::new(copy, u64::MAX))
}

/// The files as a machine leaves them that stops: what was written behind the last sync of each is gone. They don't fail any more.
pub fn after_a_stop(mut files: Files<Fuse<Memory>>) -> Files<Fuse<Memory>> {
    files.log.crash();
    files.db.crash();
    files
}
