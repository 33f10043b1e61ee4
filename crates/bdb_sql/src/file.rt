// A keeper over the file at a path.
ghost use Rattle.std.specs.Prelude.{◌≡◌, true, IfSome, IsSome};
ghost use Rattle.bdb_sql.specs.Filed.{Begins, works};
ghost use Rattle.bdb_sql.specs.Kept.{IsBareOrKept};
ghost use Rattle.bdb_sql.specs.Rows.{StoresTables};
ghost use Rattle.bdb_sql.specs.Tied.{MatchesFile};
ghost use Rattle.sqlite.specs.Files.{file_state, over_files};
ghost use Rattle.sqlite.specs.State.{HasCleanDisk, Opens};

use crate::keeper::SqlKeeper;
use crate::keeper_error::keeper_error;
use crate::look::{Sight, look_at};
use bdb_keep::KeepError;
use sqlite::{Connection, File, FileFrom, FileStore, Start, Unknown};
use std::alloc::Global;
use std::io::{self, ErrorKind};

impl<S: Start> SqlKeeper<FileStore<FileFrom<S>>> {
    /// Opens the file at a path and loads its rows. Where there is none, it has no byte, or a run was cut off while it made it,
    /// it becomes a database without rows. Any other file that is no database in the keeper's form is left as it is, and the
    /// keeper doesn't work. It takes memory. `start` stands for the bytes of the file and of the log beside it, so what is said
    /// here holds whatever they are.
    pub fn from_file_holding(alloc: Global, rt: &HostRuntime, path: &str, start: S) -> Self
        ensures begins { Begins result }
        ensures file { works result ≡ true → IsSome result.conn }
        ensures opens { works result ≡ true → IfSome result.conn (λ c. HasCleanDisk (file_state c)
            → Opens (file_state c)) }
        ensures found { works result ≡ true → IfSome result.conn (λ c. HasCleanDisk (file_state c)
            → IsBareOrKept (file_state c)) }
        ensures rows { works result ≡ true → IfSome result.conn (λ c. HasCleanDisk (file_state c)
            → StoresTables (file_state c).now result.seen.kept) }
        ensures tied { works result ≡ true → MatchesFile over_files result }
    {
        match look_at(rt, path) {
            Ok(Sight::Other) => SqlKeeper::closed(alloc, KeepError::Fault),
            Ok(_) => SqlKeeper::opened(alloc, rt, path, start),
            Err(error) => SqlKeeper::closed(alloc, refusal_of(&error)),
        }
    }

    /// Opens the file at a path, which has to be there, and loads its rows. It makes no file, and where there is none, it has
    /// no byte, or a run was cut off while it made it, the keeper doesn't work. It takes memory. `start` is as above.
    pub fn from_present_file_holding(alloc: Global, rt: &HostRuntime, path: &str, start: S) -> Self
        ensures begins { Begins result }
        ensures file { works result ≡ true → IsSome result.conn }
        ensures opens { works result ≡ true → IfSome result.conn (λ c. HasCleanDisk (file_state c)
            → Opens (file_state c)) }
        ensures found { works result ≡ true → IfSome result.conn (λ c. HasCleanDisk (file_state c)
            → IsBareOrKept (file_state c)) }
        ensures rows { works result ≡ true → IfSome result.conn (λ c. HasCleanDisk (file_state c)
            → StoresTables (file_state c).now result.seen.kept) }
        ensures tied { works result ≡ true → MatchesFile over_files result }
    {
        match look_at(rt, path) {
            Ok(Sight::Database) => SqlKeeper::opened(alloc, rt, path, start),
            Ok(_) => SqlKeeper::closed(alloc, KeepError::Fault),
            Err(error) => SqlKeeper::closed(alloc, refusal_of(&error)),
        }
    }

    /// Opens a file that was looked at.
    fn opened(alloc: Global, rt: &HostRuntime, path: &str, start: S) -> Self
        ensures begins { Begins result }
        ensures file { works result ≡ true → IsSome result.conn }
        ensures opens { works result ≡ true → IfSome result.conn (λ c. HasCleanDisk (file_state c)
            → Opens (file_state c)) }
        ensures found { works result ≡ true → IfSome result.conn (λ c. HasCleanDisk (file_state c)
            → IsBareOrKept (file_state c)) }
        ensures rows { works result ≡ true → IfSome result.conn (λ c. HasCleanDisk (file_state c)
            → StoresTables (file_state c).now result.seen.kept) }
        ensures tied { works result ≡ true → MatchesFile over_files result }
    {
        match Connection::open_from(rt, path, false, start) {
            Ok(conn) => SqlKeeper::over(alloc, conn),
            Err((error, left)) => {
                if let Some(left) = left {
                    drop(left.into_files());
                }
                SqlKeeper::closed(alloc, keeper_error(error))
            }
        }
    }
}

impl SqlKeeper<FileStore<File>> {
    /// Opens the file at a path and loads its rows, as `from_file_holding` does. Of a file that has bytes its clauses say nothing,
    /// as they take it for a new one; those of `from_file_holding` do.
    pub fn from_file(alloc: Global, rt: &HostRuntime, path: &str) -> Self
        ensures begins { Begins result }
        ensures file { works result ≡ true → IsSome result.conn }
        ensures opens { works result ≡ true → IfSome result.conn (λ c. HasCleanDisk (file_state c)
            → Opens (file_state c)) }
        ensures found { works result ≡ true → IfSome result.conn (λ c. HasCleanDisk (file_state c)
            → IsBareOrKept (file_state c)) }
        ensures rows { works result ≡ true → IfSome result.conn (λ c. HasCleanDisk (file_state c)
            → StoresTables (file_state c).now result.seen.kept) }
        ensures tied { works result ≡ true → MatchesFile over_files result }
    {
        SqlKeeper::from_file_holding(alloc, rt, path, Unknown)
    }

    /// Opens the file at a path, which has to be there, and loads its rows, as `from_present_file_holding` does.
    pub fn from_present_file(alloc: Global, rt: &HostRuntime, path: &str) -> Self
        ensures begins { Begins result }
        ensures file { works result ≡ true → IsSome result.conn }
        ensures opens { works result ≡ true → IfSome result.conn (λ c. HasCleanDisk (file_state c)
            → Opens (file_state c)) }
        ensures found { works result ≡ true → IfSome result.conn (λ c. HasCleanDisk (file_state c)
            → IsBareOrKept (file_state c)) }
        ensures rows { works result ≡ true → IfSome result.conn (λ c. HasCleanDisk (file_state c)
            → StoresTables (file_state c).now result.seen.kept) }
        ensures tied { works result ≡ true → MatchesFile over_files result }
    {
        SqlKeeper::from_present_file_holding(alloc, rt, path, Unknown)
    }

    /// Closes the file, and copies the log that lies beside it into it. What was committed is in the two of them in any
    /// case, and a transaction that runs is forgotten. Where the keeper doesn't work, both are left as they are.
    pub fn close(self) -> Result<(), KeepError> {
        if !self.works() {
            self.leave();
            return Ok(());
        }
        let Some(conn) = self.into_connection() else {
            return Ok(());
        };
        match conn.close() {
            Ok(()) => Ok(()),
            Err(error) => Err(keeper_error(error)),
        }
    }

    /// Closes the file, and leaves it and its log as they are. A transaction that runs is forgotten.
    pub fn leave(self) {
        if let Some(conn) = self.into_connection() {
            drop(conn.into_store().close());
        }
    }
}

/// What a keeper answers where a file couldn't be looked at.
fn refusal_of(error: &io::Error) -> KeepError {
    if error.kind() == ErrorKind::OutOfMemory {
        KeepError::Memory
    } else {
        KeepError::Fault
    }
}
