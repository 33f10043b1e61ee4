// What files hold.
ghost use Rattle.std.specs.Prelude.{false};

use crate::tests::files::{files_of, opened};
use crate::tests::script::{ROOM, Script, Section, are_last, change_count, ran};
use bdb_base::List;
use bdb_io::MemSink;
use bdb_keep::Keeper;
use bdb_memory::MemKeeper;
use bdb_sql::SqlKeeper;
use sqlite::FileStore;
use sqlite_disk::{Files, Fuse, Memory};
use std::alloc::Global;
use std::test::Fail;

/// How many commits were answered where so many commands were replied to, that of opening among them; none where none was.
pub fn commits_told(script: Script, commands: usize) -> usize {
    if commands == 0 {
        0
    } else {
        commands.min(change_count(script)) + 1
    }
}

/// The files are opened again and checked to hold a base. Of the commits of an undisturbed run of the script it tells how many, not fewer than
/// `least`, make these very rows; the first is that of opening.
pub fn commits_in(
    alloc: Global,
    script: Script,
    files: Files<Fuse<Memory>>,
    least: usize,
) -> Result<Option<usize>, Fail> {
    let Ok(mut keeper) = opened(alloc, files) else {
        return Ok(None);
    };
    let mut line = MemSink::new(alloc, List::new(alloc), 0, ROOM)?;
    let nothing = Section {
        script,
        from: 0,
        count: 0,
    };
    let status = ran(alloc, "check --db a", nothing, &mut line, &mut keeper)?;
    if status != 0 || line.bytes() != b"ok\n".as_slice() {
        return Ok(None);
    }
    let Some(commits) = commits_made(alloc, script, &mut keeper, least)? else {
        return Ok(None);
    };
    if goes_on(alloc, script, keeper, commits)? {
        Ok(Some(commits))
    } else {
        Ok(None)
    }
}

/// The files are closed and opened once more. Whether the commands behind so many commits can then be done, with the replies and the
/// rows of an undisturbed run.
fn goes_on(
    alloc: Global,
    script: Script,
    keeper: SqlKeeper<FileStore<Fuse<Memory>>>,
    commits: usize,
) -> Result<bool, Fail> {
    let Some((true, files)) = files_of(keeper) else {
        return Ok(false);
    };
    let Ok(mut keeper) = opened(alloc, files) else {
        return Ok(false);
    };
    let done = commits.saturating_sub(1);
    let mut replies = MemSink::new(alloc, List::new(alloc), 0, ROOM)?;
    let others = Section {
        script,
        from: done,
        count: usize::MAX,
    };
    let status = ran(alloc, "run", others, &mut replies, &mut keeper)?;
    let all = change_count(script) + 1;
    let made = commits_made(alloc, script, &mut keeper, all)?;
    Ok(status == 0 && are_last(script, replies.bytes(), done) && made == Some(all))
}

/// How many of the commits of an undisturbed run, not fewer than `least`, make the rows of a keeper.
fn commits_made<K: Keeper>(
    alloc: Global,
    script: Script,
    keeper: &mut K,
    least: usize,
) -> Result<Option<usize>, Fail> {
    for commits in least..change_count(script) + 2 {
        let mut undisturbed = undisturbed(alloc, script, commits)?;
        if undisturbed.commits() != commits as u64 {
            return Ok(None);
        }
        if have_same_rows(alloc, keeper, &mut undisturbed)? {
            return Ok(Some(commits));
        }
    }
    Ok(None)
}

/// A keeper after so many commits.
fn undisturbed(alloc: Global, script: Script, commits: usize) -> Result<MemKeeper, Fail> {
    let mut keeper = MemKeeper::new(alloc, List::new(alloc));
    let mut replies = MemSink::new(alloc, List::new(alloc), 0, ROOM)?;
    if commits > 0 {
        let first = Section {
            script,
            from: 0,
            count: commits - 1,
        };
        ran(alloc, "run", first, &mut replies, &mut keeper)?;
    }
    Ok(keeper)
}

/// Whether two keepers have the same rows.
fn have_same_rows<A: Keeper, B: Keeper>(
    alloc: Global,
    one: &mut A,
    other: &mut B,
) -> Result<bool, Fail> {
    for tab in 1..16 {
        if !have_same_table(alloc, tab, one, other)? {
            return Ok(false);
        }
    }
    Ok(true)
}

/// Whether two keepers have the same rows in a table.
fn have_same_table<A: Keeper, B: Keeper>(
    alloc: Global,
    tab: u8,
    one: &mut A,
    other: &mut B,
) -> Result<bool, Fail> {
    let mut low = Vec::new(alloc);
    for _ in 0..1_000_000 {
        let row = row_from(alloc, tab, low.as_slice(), one)?;
        let wanted = row_from(alloc, tab, low.as_slice(), other)?;
        if !is_same_row(&row, &wanted) {
            return Ok(false);
        }
        if !row.found {
            return Ok(true);
        }
        low = row.key;
        low.push(0)?;
    }
    Ok(false)
}

/// A row of a table with its key. Both are empty where there is none.
#[derive(Drop)]
struct FoundRow {
    found: bool,
    key: Vec<u8>,
    content: Vec<u8>,
}

/// Whether two rows are the same.
fn is_same_row(one: &FoundRow, other: &FoundRow) -> bool {
    one.found == other.found
        && one.key.as_slice() == other.key.as_slice()
        && one.content.as_slice() == other.content.as_slice()
}

/// The first row of a table whose key isn't below `low`.
fn row_from<K: Keeper>(
    alloc: Global,
    tab: u8,
    low: &[u8],
    keeper: &mut K,
) -> Result<FoundRow, Fail> {
    let mut key = Vec::new(alloc);
    let mut content = Vec::new(alloc);
    let found = if tab < 1 || tab > 15 {
        false
    } else {
        keeper.next(tab, low, &mut key, &mut content)?
    };
    Ok(FoundRow {
        found,
        key,
        content,
    })
}
