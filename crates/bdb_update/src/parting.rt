// A statement leaves a base, step by step.
ghost use Rattle.std.specs.Prelude.{◌≡◌, ◌+◌, true, nat_eq, length, Some, IfOk, OnOk};
ghost use Rattle.bdb_base.specs.Causes.{Rises};
ghost use Rattle.bdb_key.specs.Rows.{IsTupleRow, MayBeTuple};
ghost use Rattle.bdb_tables.specs.Codec.{HasAt};
ghost use Rattle.bdb_tables.specs.Grammar.{InGrammar};
ghost use Rattle.bdb_tables.specs.InUse.{HaveKeyTexts, IsValKey, tuple_ix_codec};
ghost use Rattle.bdb_update.specs.Bounds.{RowWrites, StateWrites};
ghost use Rattle.bdb_update.specs.ChangeLaws.{is_of_worlds};
ghost use Rattle.bdb_update.specs.Joining.{IsWorld, is_of_tuples, key_made};
ghost use Rattle.bdb_update.specs.Keeping.{KeepsNames, KeepsTuples};
ghost use Rattle.bdb_tables.specs.Lengths.{IsKeyLength};
ghost use Rattle.bdb_update.specs.Numbering.{number_taken};
ghost use Rattle.bdb_update.specs.Parting.{ClearsWorlds, CountsWorlds, LosesNumber, LosesRows, LosesWorlds, Parts, PartsRows, SomeHasFewerWorlds, SomeHasParted, SomeMayPart, TellsNumber, row_taken};
ghost use Rattle.bdb_tables.specs.Stored.{SameBut};
ghost use Rattle.bdb_val.specs.Others.{SamePlacesBut};
ghost use Rattle.bdb_val.specs.Reads.{HaveTuples};
ghost use Rattle.bdb_val.specs.Steps.{IsChanging};
ghost use Rattle.bdb_worlds.specs.Bounds.{EndsWithin};

use crate::filling::both;
use crate::joining::rel_of;
use crate::keys::row_key;
use crate::reading::is_told;
use bdb_base::{Stmt, Tuple, Value, key_of};
use bdb_keep::Keeper;
use bdb_tables::{Tab, TabError, TupleIx, TupleTab, ValTab, drop_row, table_error};
use bdb_val::{Settled, clear_world, settle_group};
use bdb_worlds::drop_states;
use std::alloc::Global;

/// Takes the row of a statement out of its path's world, of number `wid`, for its tuple, of number `tid`, and settles the rows
/// of the tuple's relation, whose keys have the length `n`, and its key there and in the worlds that inherited them.
pub fn part_statement<K: Keeper>(
    alloc: Global,
    keeper: &mut K,
    stmt: &Stmt,
    n: u32,
    wid: u32,
    tid: u32,
) -> Result<Settled, TabError>
    requires running { (K.seen keeper.old).running ≡ true }
    requires base { SomeMayPart (K.seen keeper.old).kept stmt.now }
    requires world { IsWorld (K.seen keeper.old).kept stmt.now.path wid }
    requires fits { IsTupleRow stmt.now.tuple }
    requires number { HasAt tuple_ix_codec (K.seen keeper.old).kept stmt.now.tuple (Some tid) }
    requires length { IsKeyLength (K.seen keeper.old).kept stmt.now.tuple.rel n }
    ensures parted { OnOk result
        (Parts (K.seen keeper.old).kept (K.seen keeper.new).kept stmt.now) }
    ensures rows { IfOk result
        (λ s. PartsRows (K.seen keeper.old).kept (K.seen keeper.new).kept stmt.now s.put s.taken) }
    ensures writes { OnOk result (RowWrites 2 (K.seen keeper.old) (K.seen keeper.new)) }
    ensures others { OnOk result (SamePlacesBut (λ n. nat_eq n 11) (K.seen keeper.old).kept
        (K.seen keeper.new).kept) }
    ensures changing { IsChanging (K.seen keeper.old) (K.seen keeper.new) result TabError.Fault }
{
    let key = key_of(&stmt.tuple, n);
    let rel = rel_of(&stmt.tuple);
    match take_row(alloc, keeper, stmt, wid, tid, key) {
        Ok(()) => {}
        Err(error) => return Err(error),
    }
    match settle_group(alloc, keeper, wid, rel, key) {
        Ok(settled) => Ok(settled),
        Err(error) => Err(error),
    }
}

// Takes the row of a statement out of a world.
fn take_row<K: Keeper>(
    alloc: Global,
    keeper: &mut K,
    stmt: &Stmt,
    wid: u32,
    tid: u32,
    key: &[Value],
) -> Result<(), TabError>
    requires running { (K.seen keeper.old).running ≡ true }
    requires text { HaveKeyTexts key.now }
    ensures taken { OnOk result
        ((K.seen keeper.new).kept ≡ row_taken (K.seen keeper.old).kept stmt.now wid tid key.now) }
    ensures writes { OnOk result (Rises 1 (K.seen keeper.old).writes (K.seen keeper.new).writes) }
    ensures fits { OnOk result (IsValKey (key_made stmt.now wid tid key.now)) }
    ensures grammar { OnOk result (InGrammar (K.seen keeper.old).kept
        → InGrammar (K.seen keeper.new).kept) }
    ensures changing { IsChanging (K.seen keeper.old) (K.seen keeper.new) result TabError.Fault }
{
    let bytes = match row_key(alloc, wid, rel_of(&stmt.tuple), key, tid) {
        Ok(bytes) => bytes,
        Err(_) => {
            keeper.undo();
            return Err(TabError::Memory);
        }
    };
    match keeper.remove(ValTab::NUMBER, &bytes) {
        Ok(_) => Ok(()),
        Err(error) => Err(table_error(error)),
    }
}

/// Takes the worlds away that are no states any more once a statement has left, with their rows. It tells how many worlds
/// went, and how many rows.
pub fn drop_worlds<K: Keeper>(
    alloc: Global,
    keeper: &mut K,
    stmt: &Stmt,
) -> Result<(usize, usize), TabError>
    requires running { (K.seen keeper.old).running ≡ true }
    requires base { SomeHasParted (K.seen keeper.old).kept stmt.now }
    ensures worlds { OnOk result
        (LosesWorlds (K.seen keeper.old).kept (K.seen keeper.new).kept stmt.now) }
    ensures counted { IfOk result (λ gone. CountsWorlds (K.seen keeper.old).kept stmt.now gone.0) }
    ensures rows { IfOk result
        (λ gone. LosesRows (K.seen keeper.old).kept (K.seen keeper.new).kept gone.1) }
    ensures names { OnOk result (KeepsNames (K.seen keeper.new).kept (K.seen keeper.old).kept) }
    ensures writes { IfOk result (λ gone. StateWrites (length stmt.now.path + 2) gone.1
        (K.seen keeper.old) (K.seen keeper.new)) }
    ensures others { OnOk result
        (SameBut is_of_worlds (K.seen keeper.old).kept (K.seen keeper.new).kept) }
    ensures changing { IsChanging (K.seen keeper.old) (K.seen keeper.new) result TabError.Fault }
{
    let gone = match drop_states(alloc, keeper, stmt.path.as_slice()) {
        Ok(gone) => gone,
        Err(error) => return Err(error),
    };
    match clear_worlds(alloc, keeper, &gone) {
        Ok(rows) => Ok((count_of(&gone), rows)),
        Err(error) => Err(error),
    }
}

// How many numbers there are.
fn count_of(numbers: &[u32]) -> usize
    ensures { result ≡ length numbers.now }
{
    numbers.len()
}

// Takes all rows of some worlds away. It tells how many there were.
fn clear_worlds<K: Keeper>(alloc: Global, keeper: &mut K, wids: &[u32]) -> Result<usize, TabError>
    requires running { (K.seen keeper.old).running ≡ true }
    requires grammar { InGrammar (K.seen keeper.old).kept }
    requires tuples { HaveTuples (K.seen keeper.old).kept }
    ensures cleared { OnOk result
        (ClearsWorlds (K.seen keeper.old).kept (K.seen keeper.new).kept wids.now) }
    ensures rows { IfOk result (LosesRows (K.seen keeper.old).kept (K.seen keeper.new).kept) }
    ensures writes { IfOk result
        (λ n. Rises n (K.seen keeper.old).writes (K.seen keeper.new).writes) }
    ensures others { OnOk result (SamePlacesBut (λ n. nat_eq n 11) (K.seen keeper.old).kept
        (K.seen keeper.new).kept) }
    ensures changing { IsChanging (K.seen keeper.old) (K.seen keeper.new) result TabError.Fault }
{
    let mut count: usize = 0;
    for wid in wids {
        match clear_world(alloc, keeper, *wid) {
            Ok(rows) => count = both(count, rows),
            Err(error) => return Err(error),
        }
    }
    Ok(count)
}

/// Takes the number of a statement's tuple away, once the statement has left, unless another statement has the tuple. True
/// where it went.
pub fn drop_number<K: Keeper>(
    alloc: Global,
    keeper: &mut K,
    stmt: &Stmt,
    tid: u32,
) -> Result<bool, TabError>
    requires running { (K.seen keeper.old).running ≡ true }
    requires base { SomeHasFewerWorlds (K.seen keeper.old).kept stmt.now }
    requires fits { IsTupleRow stmt.now.tuple }
    requires number { HasAt tuple_ix_codec (K.seen keeper.old).kept stmt.now.tuple (Some tid) }
    ensures number { OnOk result
        (LosesNumber (K.seen keeper.old).kept (K.seen keeper.new).kept stmt.now) }
    ensures stood { OnOk result (KeepsTuples (K.seen keeper.new).kept (K.seen keeper.old).kept) }
    ensures tells { IfOk result (TellsNumber (K.seen keeper.old).kept stmt.now) }
    ensures writes { OnOk result
        (EndsWithin 2 (K.seen keeper.old).writes (K.seen keeper.new).writes) }
    ensures others { OnOk result
        (SamePlacesBut is_of_tuples (K.seen keeper.old).kept (K.seen keeper.new).kept) }
    ensures changing { IsChanging (K.seen keeper.old) (K.seen keeper.new) result TabError.Fault }
{
    match is_told(keeper, tid) {
        Ok(true) => return Ok(false),
        Ok(false) => {}
        Err(error) => return Err(error),
    }
    match take_number(alloc, keeper, tid, &stmt.tuple) {
        Ok(()) => Ok(true),
        Err(error) => Err(error),
    }
}

// Takes the two rows of a tuple's number away.
fn take_number<K: Keeper>(
    alloc: Global,
    keeper: &mut K,
    tid: u32,
    tuple: &Tuple,
) -> Result<(), TabError>
    requires running { (K.seen keeper.old).running ≡ true }
    requires tuple { MayBeTuple tuple.now }
    ensures taken { OnOk result
        ((K.seen keeper.new).kept ≡ number_taken (K.seen keeper.old).kept tid tuple.now) }
    ensures writes { OnOk result (Rises 2 (K.seen keeper.old).writes (K.seen keeper.new).writes) }
    ensures changing { IsChanging (K.seen keeper.old) (K.seen keeper.new) result TabError.Fault }
{
    drop_row::<TupleTab, K>(alloc, keeper, &tid)?;
    drop_row::<TupleIx, K>(alloc, keeper, tuple)?;
    Ok(())
}
