// Tests of the keeper, over SQLite's store in memory.
ghost use Rattle.std.specs.Prelude.{◌≡◌, false, IfOk, IfSome};

use bdb_keep::{KeepError, Keeper};
use bdb_sql::SqlKeeper;
use sqlite::{Alter, Connection, Error, MemStore};
use sqlite_trees::store::Store;
use std::alloc::Global;
use std::process::Abort;
use std::test::Fail;

/// Makes the keeper's one table, as `bdb_sql` makes it.
const TABLE: &str =
    "create table if not exists kept(tab integer not null, k blob not null, v blob not null, primary key (tab, k)) strict";

/// How many bytes a key or a content has at most in the table, as `bdb_sql` has it.
const LONGEST: usize = 1 << 20;

/// A transaction of changes in three tables. One row is put twice, and one is put and taken away.
fn first<K: Keeper>(keeper: &mut K) -> Result<(), KeepError>
    requires { (K.seen keeper.old).running ≡ false }
    ensures { (K.seen keeper.new).running ≡ false }
{
    keeper.begin()?;
    keeper.put(1, b"a", b"one")?;
    keeper.put(1, b"b", b"two")?;
    keeper.put(15, b"", b"")?;
    keeper.put(1, b"a", b"three")?;
    keeper.put(2, b"a", b"four")?;
    keeper.remove(2, b"a")?;
    keeper.commit()
}

/// Another over the rows of the first. It changes one row, takes one away, and takes one away and puts it again.
fn second<K: Keeper>(keeper: &mut K) -> Result<(), KeepError>
    requires { (K.seen keeper.old).running ≡ false }
    ensures { (K.seen keeper.new).running ≡ false }
{
    keeper.begin()?;
    keeper.put(1, b"b", b"\x00\xff")?;
    keeper.remove(1, b"a")?;
    keeper.remove(15, b"")?;
    keeper.put(15, b"", b"five")?;
    keeper.commit()
}

/// One that is undone.
fn undone<K: Keeper>(keeper: &mut K) -> Result<(), KeepError>
    requires { (K.seen keeper.old).running ≡ false }
    ensures { (K.seen keeper.new).running ≡ false }
{
    keeper.begin()?;
    keeper.put(3, b"a", b"six")?;
    keeper.remove(1, b"b")?;
    keeper.undo();
    Ok(())
}

/// Whether a keeper has this row at a key; `None` is no row.
fn has<K: Keeper>(
    alloc: Global,
    keeper: &mut K,
    tab: u8,
    key: &[u8],
    wanted: Option<&[u8]>,
) -> Result<bool, KeepError> {
    let mut row = Vec::new(alloc);
    if tab < 1 || tab > 15 {
        return Ok(false);
    }
    let found = keeper.get(tab, key, &mut row)?;
    match wanted {
        Some(wanted) => Ok(found && row.as_slice() == wanted),
        None => Ok(!found),
    }
}

/// A keeper over a store in memory on which these statements ran.
fn over(alloc: Global, table: &str, rows: &str) -> Result<SqlKeeper<MemStore>, Error>
    ensures { IfOk result (λ keeper. keeper.seen.running ≡ false) }
{
    let mut conn = Connection::open_in_memory(alloc)?;
    conn.execute_batch(table)?;
    conn.execute_batch(rows)?;
    Ok(SqlKeeper::over(alloc, conn))
}

/// The keeper, taken apart and opened again over its store.
fn reopened<S: Alter + Drop>(alloc: Global, keeper: SqlKeeper<S>) -> Option<SqlKeeper<S>>
    ensures { IfSome result (λ keeper. keeper.seen.running ≡ false) }
{
    let store = keeper.into_connection()?.into_store();
    if store.is_broken() {
        return None;
    }
    match Connection::over(alloc, store) {
        Ok(conn) => Some(SqlKeeper::over(alloc, conn)),
        Err(_) => None,
    }
}

/// The number that a statement shows in the file of a keeper. The keeper is taken apart.
fn number<S: Alter + Drop>(keeper: SqlKeeper<S>, sql: &str) -> Result<Option<i64>, Error> {
    let Some(mut conn) = keeper.into_connection() else {
        return Ok(None);
    };
    let row = conn.query_row(sql, &[])?;
    let count = row.get(0)?;
    Ok(Some(count))
}

/// How many tables, indexes, views and triggers there are.
const OBJECTS: &str = "select count(*) from sqlite_schema";

/// How many rows the table has.
const ROWS: &str = "select count(*) from kept";

#[test]
fn a_file_has_what_was_committed(rt: HostRuntime) -> Result<(), Fail> {
    let alloc = rt.alloc();
    for table in ["", TABLE] {
        let mut keeper = over(alloc, table, "")?;
        assert!(rt; keeper.works(), "{table}");
        first(&mut keeper)?;
        second(&mut keeper)?;
        undone(&mut keeper)?;
        let mut again = reopened(alloc, keeper).ok_or("not opened")?;
        assert!(rt; again.works(), "{table}");
        let rows = [
            (1, b"a".as_slice(), None),
            (1, b"b".as_slice(), Some(b"\x00\xff".as_slice())),
            (2, b"a".as_slice(), None),
            (3, b"a".as_slice(), None),
            (15, b"".as_slice(), Some(b"five".as_slice())),
        ];
        for (tab, key, wanted) in rows {
            assert!(rt;
                has(alloc, &mut again, tab, key, wanted)?,
                "{table}: in table {tab}"
            );
        }
    }
    Ok(())
}

#[test]
fn the_first_commit_makes_the_table(rt: HostRuntime) -> Result<(), Fail> {
    let alloc = rt.alloc();
    let mut keeper = over(alloc, "", "")?;
    undone(&mut keeper)?;
    assert_eq!(rt; number(keeper, OBJECTS)?, Some(0));
    let mut keeper = over(alloc, "", "")?;
    first(&mut keeper)?;
    assert_eq!(rt; number(keeper, OBJECTS)?, Some(2));
    Ok(())
}

#[test]
fn rows_are_loaded_where_they_fit(rt: HostRuntime) -> Result<(), Fail> {
    let files = [
        ("", true, 0),
        (
            "insert into kept values (1, x'', x''), (15, x'00', x'00')",
            true,
            2,
        ),
        (
            "insert into kept values (1, x'', x''), (16, x'', x'')",
            false,
            2,
        ),
        ("insert into kept values (0, x'', x'')", false, 1),
        ("insert into kept values (-1, x'', x'')", false, 1),
        ("begin", false, 0),
    ];
    for (rows, works, count) in files {
        let mut keeper = over(rt.alloc(), TABLE, rows)?;
        assert_eq!(rt; keeper.works(), works, "{rows}");
        let begun = if works { Ok(()) } else { Err(KeepError::Fault) };
        assert_eq!(rt; keeper.begin(), begun, "{rows}");
        assert_eq!(rt; number(keeper, ROWS)?, Some(count), "{rows}");
    }
    Ok(())
}

/// Tables that are almost the keeper's.
const OTHERS: &[&str] = &[
    "create table other(a)",
    "create table kept(a)",
    "create table kept(tab, k, v)",
    "create table kept(tab integer not null, k blob not null, v blob not null) strict",
    "create table kept(tab integer not null, k blob not null, v blob not null, primary key (tab, k))",
    "create table kept(tab integer not null, k blob not null, v blob, primary key (tab, k)) strict",
    "create table kept(tab integer not null, k blob not null, v any not null, primary key (tab, k)) strict",
    "create table kept(tab integer not null, k blob not null, v blob not null default x'', primary key (tab, k)) strict",
    "create table kept(tab integer not null, k blob collate nocase not null, v blob not null, primary key (tab, k)) strict",
    "create table kept(tab integer not null, k blob not null, v blob not null, primary key (k, tab)) strict",
    "create table kept(tab integer not null, k blob not null, v blob not null, primary key (tab, k desc)) strict",
    "create table kept(tab integer not null, k blob not null, v blob not null, primary key (tab)) strict",
    "create table kept(tab integer not null, k blob not null, v blob not null, primary key (tab, k), unique (v)) strict",
    "create table kept(tab integer not null, k blob not null, v blob not null, w blob, primary key (tab, k)) strict",
    "create table kept(tab integer not null, k blob not null, v blob not null, primary key (tab, k), check (tab < 16)) strict",
    "create table kept(tab integer not null, k blob not null, v blob not null references kept(k), primary key (tab, k)) strict",
    "create view kept as with recursive n(tab, k, v) as (select 1, x'', x'' union all select tab + 1, k, v from n) select * from n",
];

/// What may stand beside the table.
const BESIDE: &[&str] = &[
    "create table other(a)",
    "create index more on kept(v)",
    "create view other as select * from kept",
];

#[test]
fn a_file_with_anything_else_is_refused(rt: HostRuntime) -> Result<(), Fail> {
    for table in OTHERS {
        refuses(&rt, rt.alloc(), "", table)?;
    }
    for beside in BESIDE {
        refuses(&rt, rt.alloc(), TABLE, beside)?;
    }
    Ok(())
}

/// Fails unless a file on which these statements ran is refused, with all that it has left as it was.
fn refuses(rt: &impl Abort, alloc: Global, table: &str, beside: &str) -> Result<(), Fail> {
    let objects = number(over(alloc, table, beside)?, OBJECTS)?;
    let mut keeper = over(alloc, table, beside)?;
    assert!(rt; !keeper.works(), "{beside}");
    assert_eq!(rt; first(&mut keeper), Err(KeepError::Fault), "{beside}");
    assert_eq!(rt; number(keeper, OBJECTS)?, objects, "{beside}");
    Ok(())
}

#[test]
fn a_refused_commit_is_a_fault_and_the_last(rt: HostRuntime) -> Result<(), Fail> {
    let alloc = rt.alloc();
    let mut keeper = over(alloc, TABLE, "")?;
    assert!(rt; keeper.works());
    let mut content = Vec::new(alloc);
    for _ in 0..LONGEST + 1 {
        content.push(0)?;
    }
    assert_eq!(rt;
        puts(&mut keeper, content.as_slice()),
        Err(KeepError::Fault)
    );
    assert!(rt; !keeper.works());
    assert_eq!(rt; keeper.begin(), Err(KeepError::Fault));
    let mut again = reopened(alloc, keeper).ok_or("not opened")?;
    assert!(rt; again.works());
    assert!(rt; has(alloc, &mut again, 1, b"", None)?);
    Ok(())
}

/// Commits one row.
fn puts<K: Keeper>(keeper: &mut K, content: &[u8]) -> Result<(), KeepError>
    requires { (K.seen keeper.old).running ≡ false }
    ensures { (K.seen keeper.new).running ≡ false }
{
    keeper.begin()?;
    keeper.put(1, b"", content)?;
    keeper.commit()
}
