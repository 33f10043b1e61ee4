// The explicit rows of a group: those of a world, a relation and a key.
ghost use Rattle.std.specs.Prelude.{◌≡◌, true, IfOk, OnOk};
ghost use Rattle.std.specs.List.{AllByRecursion};
ghost use Rattle.bdb_base.specs.Clash.{key_of};
ghost use Rattle.bdb_keep.specs.Calls.{IsRead};
ghost use Rattle.bdb_tables.specs.Grammar.{InGrammar};
ghost use Rattle.bdb_tables.specs.GroupMarks.{group_bytes};
ghost use Rattle.bdb_update.specs.Groups.{AreExplicitRows, AreExplicitUnder, HasTupleRow, IsPicked};
ghost use Rattle.bdb_val.specs.Reads.{HaveTuples};

use crate::keys::KEY_ROOM;
use bdb_base::{List, Sign, Tuple, Value, key_of};
use bdb_keep::Keeper;
use bdb_key::put_vals;
use bdb_tables::{TabError, ValTab, put_pair, read_tuple, rows_under};
use bdb_val::StoredRow;
use std::alloc::{AllocError, Global};

// A row of a world: its key, of the world, a relation, the values of the relation's key and the number of a tuple; and its mark.
type ValRow = ((u32, u32, List<Value>, u32), (Sign, bool));

/// The explicit rows of a world for the tuples of a tuple's relation, whose keys have the length `n`, and its key, with
/// their tuples, in order of their numbers. One read for each row, one more for each explicit one, and one.
pub fn read_explicit<K: Keeper>(
    alloc: Global,
    keeper: &mut K,
    wid: u32,
    n: u32,
    tuple: &Tuple,
) -> Result<Vec<StoredRow>, TabError>
    requires running { (K.seen keeper.old).running ≡ true }
    requires grammar { InGrammar (K.seen keeper.old).kept }
    requires tuples { HaveTuples (K.seen keeper.old).kept }
    ensures rows { IfOk result
        (λ rows. AreExplicitUnder (K.seen keeper.old).kept
        (group_bytes wid tuple.now.rel (key_of (λ _. n) tuple.now)) rows.items) }
    ensures read { IsRead (K.seen keeper.old) (K.seen keeper.new) result TabError.Fault }
{
    let prefix = match group_prefix(alloc, wid, n, tuple) {
        Ok(prefix) => prefix,
        Err(_) => {
            keeper.undo();
            return Err(TabError::Memory);
        }
    };
    let entries = match rows_under::<ValTab, K>(alloc, keeper, &prefix) {
        Ok(entries) => entries,
        Err(error) => return Err(error),
    };
    match explicit_among(alloc, keeper, &entries) {
        Ok(rows) => Ok(rows),
        Err(error) => Err(error),
    }
}

// How the keys of a tuple's group of a world begin.
fn group_prefix(alloc: Global, wid: u32, n: u32, tuple: &Tuple) -> Result<Vec<u8>, AllocError>
    ensures { IfOk result
        (λ prefix. prefix.items ≡ group_bytes wid tuple.now.rel (key_of (λ _. n) tuple.now)) }
{
    let mut prefix = Vec::with_capacity(alloc, KEY_ROOM)?;
    put_pair(&mut prefix, wid, tuple.rel)?;
    put_vals(&mut prefix, key_of(tuple, n))?;
    Ok(prefix)
}

// The explicit ones of some rows, with their tuples.
fn explicit_among<K: Keeper>(
    alloc: Global,
    keeper: &mut K,
    entries: &[ValRow],
) -> Result<Vec<StoredRow>, TabError>
    requires running { (K.seen keeper.old).running ≡ true }
    requires grammar { InGrammar (K.seen keeper.old).kept }
    requires there { AllByRecursion (HasTupleRow (K.seen keeper.old).kept) entries.now }
    ensures rows { IfOk result
        (λ rows. AreExplicitRows (K.seen keeper.old).kept entries.now rows.items) }
    ensures read { IsRead (K.seen keeper.old) (K.seen keeper.new) result TabError.Fault }
{
    let mut rows = Vec::new(alloc);
    for entry in entries {
        match push_explicit(alloc, keeper, &mut rows, entry) {
            Ok(()) => {}
            Err(error) => return Err(error),
        }
    }
    Ok(rows)
}

// Adds a row with its tuple, if it is explicit.
fn push_explicit<K: Keeper>(
    alloc: Global,
    keeper: &mut K,
    rows: &mut Vec<StoredRow>,
    entry: &ValRow,
) -> Result<(), TabError>
    requires running { (K.seen keeper.old).running ≡ true }
    requires grammar { InGrammar (K.seen keeper.old).kept }
    requires there { HasTupleRow (K.seen keeper.old).kept entry.now }
    ensures pushed { OnOk result
        (IsPicked (K.seen keeper.old).kept entry.now rows.old.items rows.new.items) }
    ensures read { IsRead (K.seen keeper.old) (K.seen keeper.new) result TabError.Fault }
{
    if !entry.1.1 {
        return Ok(());
    }
    let tuple = match read_tuple(alloc, keeper, entry.0.3) {
        Ok(tuple) => tuple,
        Err(error) => return Err(error),
    };
    let row = StoredRow {
        tid: entry.0.3,
        tuple,
        mark: entry.1,
    };
    match rows.push(row) {
        Ok(()) => Ok(()),
        Err(_) => {
            keeper.undo();
            Err(TabError::Memory)
        }
    }
}
