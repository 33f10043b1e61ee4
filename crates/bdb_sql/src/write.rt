// Writing changes to a file.
ghost use Rattle.std.specs.Prelude.{◌≡◌, ◌∷◌, ◌≤◌, None, Some, false, OnOk, OnErr};
ghost use Rattle.std.specs.Option.{option_map};
ghost use Rattle.sqlite.specs.State.{HasCleanDisk};
ghost use Rattle.sqlite.specs.Held.{state};
ghost use Rattle.bdb_memory.specs.StoreContents.{written};
ghost use Rattle.bdb_sql.specs.Tied.{HoldsTable, IsReadyFile, IsTied, LeavesEither, WhereTied};
ghost use Rattle.bdb_sql.specs.Written.{CommitsNothing, HasTable, Inside, SetsPlace, SetsPlaces, Turns};

use crate::kept::{CREATE, LONGEST, PUT, REMOVE};
use bdb_memory::Store;
use sqlite::{Alter, Connection, Error, ErrorCode, Transaction, params};
use std::alloc::Global;
use std::collections::BTreeSet;

/// Writes the changes of a store to the file, all of them or none. The first of all commits makes the table with them.
/// Where the file had the rows last committed it has the rows of the store afterwards. After a refusal a crash leaves the
/// ones or the others.
#[tactic(auto, using(crate::proofs::BatchLemmas::none_written))]
pub fn write_changes<S: Alter>(
    alloc: Global,
    conn: &mut Connection<S>,
    store: &Store,
) -> Result<(), Error>
    ensures ok { WhereTied S.Store conn.old conn.new store.now.last
        (λ now. OnOk result (IsTied now store.now.kept)) }
    ensures err { WhereTied S.Store conn.old conn.new store.now.last
        (λ now. OnErr result (LeavesEither now store.now.last store.now.kept)) }
    ensures clean { HasCleanDisk (state S.Store conn.new) → HasCleanDisk (state S.Store conn.old) }
{
    if store.change_count() == 0 {
        return Ok(());
    }
    if !conn.is_autocommit() {
        return Err(Error::SqliteFailure(ErrorCode::TransactionState));
    }
    commit_changes(alloc, conn, store)
}

/// Writes the changes in one transaction.
fn commit_changes<S: Alter>(
    alloc: Global,
    conn: &mut Connection<S>,
    store: &Store,
) -> Result<(), Error>
    requires { conn.old.in_transaction ≡ false }
    ensures ok { WhereTied S.Store conn.old conn.new store.now.last
        (λ now. OnOk result (IsTied now store.now.kept)) }
    ensures err { WhereTied S.Store conn.old conn.new store.now.last
        (λ now. OnErr result (LeavesEither now store.now.last store.now.kept)) }
    ensures clean { HasCleanDisk (state S.Store conn.new) → HasCleanDisk (state S.Store conn.old) }
{
    let mut transaction = conn.transaction();
    write_all(alloc, &mut transaction, store)?;
    transaction.commit()
}

/// Makes the table, where it isn't there, and writes each place that was changed.
fn write_all<S: Alter>(
    alloc: Global,
    transaction: &mut Transaction<'_, S>,
    store: &Store,
) -> Result<(), Error>
    ensures same_reference { transaction.new.conn.ghost_name ≡ transaction.old.conn.ghost_name }
    ensures turns { Inside S.Store transaction.old.conn.now transaction.new.conn.now
        (λ old new. IsReadyFile old → OnOk result (Turns store.now.last store.now.kept old new)) }
    ensures survives { CommitsNothing S.Store transaction.old.conn.now transaction.new.conn.now }
{
    make_table(transaction)?;
    write_each(alloc, transaction, store)
}

/// Writes each place that was changed once, with the row that it has now.
fn write_each<S: Alter>(
    alloc: Global,
    transaction: &mut Transaction<'_, S>,
    store: &Store,
) -> Result<(), Error>
    ensures same_reference { transaction.new.conn.ghost_name ≡ transaction.old.conn.ghost_name }
    ensures set { Inside S.Store transaction.old.conn.now transaction.new.conn.now
        (λ old new. HoldsTable old → OnOk result
        (SetsPlaces store.now.changes store.now.kept old new)) }
    ensures all { written store.now.changes store.now.kept store.now.last ≡ store.now.kept }
    ensures survives { CommitsNothing S.Store transaction.old.conn.now transaction.new.conn.now }
{
    let mut done = BTreeSet::new(alloc);
    'changes: for at in 0..store.change_count() {
        let place = store.changed_place(at);
        if !done.insert(place)? {
            continue;
        }
        write_row(transaction, place.0, place.1, store.changed_row(at))?;
    }
    Ok(())
}

/// Writes the row at a key, or takes it away where there is none.
fn write_row<S: Alter>(
    transaction: &mut Transaction<'_, S>,
    tab: u8,
    key: &[u8],
    row: Option<&[u8]>,
) -> Result<usize, Error>
    requires { (1 ≤ tab) × (tab ≤ 15) }
    ensures same_reference { transaction.new.conn.ghost_name ≡ transaction.old.conn.ghost_name }
    ensures set { Inside S.Store transaction.old.conn.now transaction.new.conn.now
        (λ old new. HoldsTable old → OnOk result
        (SetsPlace (tab ∷ key.now) (option_map (λ row. row.now) row.entry) old new)) }
    ensures survives { CommitsNothing S.Store transaction.old.conn.now transaction.new.conn.now }
{
    match row {
        Some(row) => put(transaction, u32::from(tab), key, row),
        None => remove(transaction, u32::from(tab), key),
    }
}

/// Makes the table, where it isn't there.
fn make_table<S: Alter>(transaction: &mut Transaction<'_, S>) -> Result<usize, Error>
    ensures same_reference { transaction.new.conn.ghost_name ≡ transaction.old.conn.ghost_name }
    ensures table { Inside S.Store transaction.old.conn.now transaction.new.conn.now
        (λ old new. IsReadyFile old → OnOk result (HasTable old new)) }
    ensures survives { CommitsNothing S.Store transaction.old.conn.now transaction.new.conn.now }
{
    transaction.execute(CREATE, &[])
}

/// Puts the row at a key. One that loading would refuse is refused.
fn put<S: Alter>(
    transaction: &mut Transaction<'_, S>,
    tab: u32,
    key: &[u8],
    row: &[u8],
) -> Result<usize, Error>
    ensures same_reference { transaction.new.conn.ghost_name ≡ transaction.old.conn.ghost_name }
    ensures set { Inside S.Store transaction.old.conn.now transaction.new.conn.now
        (λ old new. HoldsTable old → (1 ≤ tab) × (tab ≤ 15) → OnOk result
        (SetsPlace (tab ∷ key.now) (Some row.now) old new)) }
    ensures survives { CommitsNothing S.Store transaction.old.conn.now transaction.new.conn.now }
{
    if key.len() > LONGEST || row.len() > LONGEST {
        return Err(Error::SqliteFailure(ErrorCode::TooBig));
    }
    transaction.execute(PUT, params![tab, key, row])
}

/// Takes the row at a key away.
fn remove<S: Alter>(
    transaction: &mut Transaction<'_, S>,
    tab: u32,
    key: &[u8],
) -> Result<usize, Error>
    ensures same_reference { transaction.new.conn.ghost_name ≡ transaction.old.conn.ghost_name }
    ensures set { Inside S.Store transaction.old.conn.now transaction.new.conn.now
        (λ old new. HoldsTable old → OnOk result (SetsPlace (tab ∷ key.now) None old new)) }
    ensures survives { CommitsNothing S.Store transaction.old.conn.now transaction.new.conn.now }
{
    transaction.execute(REMOVE, params![tab, key])
}
