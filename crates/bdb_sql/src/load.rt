// Loading the rows of a file.
ghost use Rattle.std.specs.Prelude.{◌≡◌, ◌∷◌, ℕ, List, map, IfOk, IfSome, IfNone, OnOk};
ghost use Rattle.std.specs.Ordering.{is_lt};
ghost use Rattle.sqlite.specs.State.{HasCleanDisk, IsUnchanged, Survives};
ghost use Rattle.sqlite.specs.Held.{state};
ghost use Rattle.bdb_keep.specs.Tables.{LieInTables, bytes_cmp};
ghost use Rattle.bdb_sql.specs.Entries.{IsFiledRow, AddsAfter};
ghost use Rattle.bdb_sql.specs.Kept.{IsBareOrKept, kept_schema, no_schema};
ghost use Rattle.bdb_sql.specs.Rows.{AreAllRows, StoresTables, entry};
ghost use Rattle.bdb_sql.specs.Stays.{StaysAs};
ghost use Rattle.bdb_sql.specs.Tied.{IsTied, IsWhole};

use crate::keeper_error::keeper_error;
use crate::kept::{LONGEST, SELECT};
use crate::schema::{FileSchema, schema_of};
use bdb_keep::KeepError;
use bdb_memory::Store;
use sqlite::types::ValueRef;
use sqlite::{Alter, Connection, Error, ErrorCode, Row};
use std::alloc::Global;
use std::cmp::Ordering;

/// What loading answers of a row that is no row of tables 1 to 15, is too long, or doesn't come after the row before it.
const UNFIT: Error = Error::SqliteFailure(ErrorCode::DatabaseCorrupt);

/// Loads the rows of a file that has the keeper's table alone, or nothing at all. Any other file is a fault, and nothing of
/// its own is run. A transaction that runs is a fault too, and so is a row that is in no table 1 to 15, one that is too
/// long, and one that doesn't come after the row before it. It writes nothing. Where the store below is whole, the
/// file is tied to what was loaded.
pub fn load<S: Alter>(alloc: Global, conn: &mut Connection<S>) -> Result<Store, KeepError>
    ensures committed { IfOk result (λ store. store.kept ≡ store.last) }
    ensures fits { IfOk result (λ store. LieInTables store.kept) }
    ensures found { OnOk result (IsBareOrKept (state S.Store conn.old)) }
    ensures rows { HasCleanDisk (state S.Store conn.new)
        → IfOk result (λ store. StoresTables (state S.Store conn.old).now store.kept) }
    ensures same { HasCleanDisk (state S.Store conn.new)
        → OnOk result (StaysAs (state S.Store conn.old) (state S.Store conn.new)) }
    ensures survives { Survives (state S.Store conn.old) (state S.Store conn.new) (λ _. ⊥) }
    ensures tied { HasCleanDisk (state S.Store conn.new) → IsWhole S.Store conn.new
        → IfOk result (λ store. IsTied (state S.Store conn.new) store.kept) }
    ensures adopted { HasCleanDisk (state S.Store conn.new)
        → (HasCleanDisk (state S.Store conn.old) → IsWhole S.Store conn.old)
        → IfOk result (λ store. IsTied (state S.Store conn.new) store.kept) }
{
    if !conn.is_autocommit() {
        return Err(KeepError::Fault);
    }
    let found = schema_of(conn);
    load_found(alloc, conn, found)
}

/// Loads the rows of a file of which this is the schema.
#[tactic(auto, using(bdb_keep::proofs::TableLemmas::none_lie))]
fn load_found<S: Alter>(
    alloc: Global,
    conn: &mut Connection<S>,
    found: FileSchema,
) -> Result<Store, KeepError>
    requires nothing { found ≡ FileSchema.Nothing → (state S.Store conn.old).now.schema
        ≡ no_schema }
    requires table { found ≡ FileSchema.Table → (state S.Store conn.old).now.schema ≡ kept_schema }
    ensures committed { IfOk result (λ store. store.kept ≡ store.last) }
    ensures fits { IfOk result (λ store. LieInTables store.kept) }
    ensures found { OnOk result (IsBareOrKept (state S.Store conn.old)) }
    ensures rows { HasCleanDisk (state S.Store conn.new)
        → IfOk result (λ store. StoresTables (state S.Store conn.old).now store.kept) }
    ensures same { HasCleanDisk (state S.Store conn.new)
        → OnOk result (StaysAs (state S.Store conn.old) (state S.Store conn.new)) }
    ensures survives { Survives (state S.Store conn.old) (state S.Store conn.new) (λ _. ⊥) }
{
    match found {
        FileSchema::Nothing => Ok(Store::new(alloc)),
        FileSchema::Table => match read_rows(alloc, conn) {
            Ok(store) => Ok(store),
            Err(error) => Err(keeper_error(error)),
        },
        FileSchema::Other => Err(KeepError::Fault),
    }
}

/// Reads the rows of the table.
fn read_rows<S: Alter>(alloc: Global, conn: &mut Connection<S>) -> Result<Store, Error>
    requires { (state S.Store conn.old).now.schema ≡ kept_schema }
    ensures committed { IfOk result (λ store. store.kept ≡ store.last) }
    ensures fits { IfOk result (λ store. LieInTables store.kept) }
    ensures rows { HasCleanDisk (state S.Store conn.new)
        → IfOk result (λ store. AreAllRows (map entry ((state S.Store conn.old).now.trees 0))
        store.kept) }
    ensures same { HasCleanDisk (state S.Store conn.new)
        → OnOk result (IsUnchanged (state S.Store conn.old) (state S.Store conn.new)) }
    ensures survives { Survives (state S.Store conn.old) (state S.Store conn.new) (λ _. ⊥) }
{
    let mut store = Store::new(alloc);
    let mut place = Vec::new(alloc);
    let mut rows = conn.query(SELECT, &[])?;
    'rows: for _ in 0..u64::MAX {
        let Some(row) = rows.next()? else {
            return Ok(store);
        };
        add_row(&mut store, row, &mut place)?;
    }
    Err(UNFIT)
}

/// Adds a row of the file to a store, where its place comes after that of the row before. `place` becomes its place.
#[tactic(auto, using(bdb_keep::proofs::TableLemmas::put_lies))]
fn add_row(store: &mut Store, row: &Row, place: &mut Vec<u8>) -> Result<(), Error>
    requires { LieInTables store.old.kept }
    ensures added { OnOk result
        (AddsAfter row.now place.old.items place.new.items store.old.kept store.new.kept) }
    ensures committed { OnOk result (store.new.kept ≡ store.new.last) }
    ensures fits { OnOk result (LieInTables store.new.kept) }
{
    let Some((tab, key, content)) = entry_of(row) else {
        return Err(UNFIT);
    };
    if !comes_after(place.as_slice(), tab, key) {
        return Err(UNFIT);
    }
    place.clear();
    place.push(tab)?;
    place.extend_from_slice(key)?;
    store.preset(tab, key, content)?;
    Ok(())
}

/// Whether a table and key come after a place.
fn comes_after(place: &[u8], tab: u8, key: &[u8]) -> bool
    ensures { result ≡ is_lt (bytes_cmp place.now (tab ∷ key.now)) }
{
    let [first, rest @ ..] = place else {
        return true;
    };
    match first.cmp(&tab) {
        Ordering::Less => true,
        Ordering::Equal => rest.cmp(key).is_lt(),
        Ordering::Greater => false,
    }
}

/// What a row of the file stands for: a table, a key and a row; none where it fits no table 1 to 15, or is too long.
fn entry_of(row: &Row) -> Option<(u8, &[u8], &[u8])>
    ensures some { IfSome result (λ entry. IsFiledRow row.now entry.0 entry.1.now entry.2.now) }
    ensures none { IfNone result ((tab : ℕ) (key content : List ℕ)
        → IsFiledRow row.now tab key content → ⊥) }
{
    let (Ok(tab), Ok(key), Ok(content)) = (row.get_ref(0), row.get_ref(1), row.get_ref(2)) else {
        return None;
    };
    match (tab, key, content) {
        (ValueRef::Int(tab), ValueRef::Blob(key), ValueRef::Blob(content)) => {
            if 1 <= tab && tab <= 15 && key.len() <= LONGEST && content.len() <= LONGEST {
                Some((tab as u8, key, content))
            } else {
                None
            }
        }
        _ => None,
    }
}
