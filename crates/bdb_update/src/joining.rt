// A statement joins a base, step by step.
ghost use Rattle.std.specs.Prelude.{◌≡◌, ◌+◌, ◌∷◌, true, nat_eq, cond, Some, None, is_some, length, IfOk, OnOk};
ghost use Rattle.std.specs.FinMap as tables;
ghost use Rattle.bdb_base.specs.Causes.{Rises};
ghost use Rattle.bdb_key.specs.Rows.{IsTupleRow, MayBeTuple, mark_bytes};
ghost use Rattle.bdb_keep.specs.Calls.{IsRead};
ghost use Rattle.bdb_tables.specs.Codec.{HasAt, place};
ghost use Rattle.bdb_tables.specs.Grammar.{InGrammar};
ghost use Rattle.bdb_tables.specs.InUse.{HaveKeyTexts, IsValKey, tuple_ix_codec, val_codec};
ghost use Rattle.bdb_update.specs.Bounds.{RowWrites, StateWrites};
ghost use Rattle.bdb_update.specs.ChangeLaws.{is_of_worlds};
ghost use Rattle.bdb_update.specs.Joining.{Arrive, CountsArrived, CountsSettled, IsWorld, IsWorldFound, Numbers, Settles, SomeHasNumber, SomeHasWorlds, SomeMayJoin, is_of_tuples, key_made, last_or, row_put};
ghost use Rattle.bdb_update.specs.Keeping.{KeepsNames, KeepsTuples, TakesLeastNames};
ghost use Rattle.bdb_tables.specs.Lengths.{IsKeyLength};
ghost use Rattle.bdb_update.specs.Numbering.{HoldsSomeTuples, IsLeastNumber, TakesLeast, number_put};
ghost use Rattle.bdb_tables.specs.Stored.{SameBut};
ghost use Rattle.bdb_val.specs.Others.{SamePlacesBut};
ghost use Rattle.bdb_val.specs.Steps.{IsChanging, counted};
ghost use Rattle.bdb_worlds.specs.Bounds.{EndsWithin};

use crate::filling::{both, fill_worlds};
use crate::keys::row_key;
use bdb_base::{Sign, Stmt, Tuple, Value, key_of};
use bdb_keep::Keeper;
use bdb_key::put_mark;
use bdb_tables::{Tab, TabError, TupleIx, TupleTab, ValTab, first_gap, next, put, table_error};
use bdb_val::{Settled, settle_group};
use bdb_worlds::add_states;
use std::alloc::Global;

/// Makes states of all prefixes of a statement's path, and gives each new one the rows that it inherits. `wid` is the number
/// of the path, if it is a state, and then nothing is read; there are as many states as `worlds`. It tells the number of the
/// path, and how many rows came.
pub fn add_worlds<K: Keeper>(
    alloc: Global,
    keeper: &mut K,
    stmt: &Stmt,
    wid: Option<u32>,
    worlds: u32,
) -> Result<(u32, usize), TabError>
    requires running { (K.seen keeper.old).running ≡ true }
    requires base { SomeMayJoin (K.seen keeper.old).kept stmt.now worlds }
    requires world { IsWorldFound (K.seen keeper.old).kept stmt.now.path wid }
    ensures arrived { IfOk result
        (λ found. Arrive (K.seen keeper.old).kept (K.seen keeper.new).kept stmt.now found.0) }
    ensures counted { IfOk result
        (λ found. CountsArrived (K.seen keeper.old).kept
        (K.seen keeper.new).kept stmt.now found.1) }
    ensures names { OnOk result (KeepsNames (K.seen keeper.old).kept (K.seen keeper.new).kept) }
    ensures least { OnOk result
        (TakesLeastNames (K.seen keeper.old).kept (K.seen keeper.new).kept stmt.now.path) }
    ensures writes { IfOk result (λ found. StateWrites (length stmt.now.path + 2) found.1
        (K.seen keeper.old) (K.seen keeper.new)) }
    ensures others { OnOk result
        (SameBut is_of_worlds (K.seen keeper.old).kept (K.seen keeper.new).kept) }
    ensures changing { IsChanging (K.seen keeper.old) (K.seen keeper.new) result TabError.Fault }
{
    match wid {
        Some(wid) => return Ok((wid, 0)),
        None => {}
    }
    let new = match add_states(alloc, keeper, stmt.path.as_slice(), worlds) {
        Ok(new) => new,
        Err(error) => return Err(error),
    };
    match fill_worlds(alloc, keeper, &new) {
        Ok(rows) => Ok((last_or(0, &new), rows)),
        Err(error) => Err(error),
    }
}

// The last of some numbers; another one where there is none.
fn last_or(other: u32, numbers: &[u32]) -> u32
    ensures { result ≡ last_or other numbers.now }
{
    let mut last = other;
    for number in numbers {
        last = *number;
    }
    last
}

/// Gives the tuple of a statement the least number not in use, unless it has the one that was found. There are as many tuples
/// as `tuples`.
pub fn number_tuple<K: Keeper>(
    alloc: Global,
    keeper: &mut K,
    stmt: &Stmt,
    found: Option<u32>,
    tuples: u32,
) -> Result<u32, TabError>
    requires running { (K.seen keeper.old).running ≡ true }
    requires base { SomeHasWorlds (K.seen keeper.old).kept stmt.now }
    requires fits { IsTupleRow stmt.now.tuple }
    requires found { HasAt tuple_ix_codec (K.seen keeper.old).kept stmt.now.tuple found }
    requires counted { HoldsSomeTuples (K.seen keeper.old).kept tuples }
    ensures numbered { OnOk result
        (Numbers (K.seen keeper.old).kept (K.seen keeper.new).kept stmt.now) }
    ensures here { IfOk result (λ tid. HasAt tuple_ix_codec (K.seen keeper.new).kept stmt.now.tuple
        (Some tid)) }
    ensures keeps { OnOk result (KeepsTuples (K.seen keeper.old).kept (K.seen keeper.new).kept) }
    ensures least { OnOk result
        (TakesLeast (K.seen keeper.old).kept (K.seen keeper.new).kept stmt.now.tuple) }
    ensures writes { OnOk result
        (EndsWithin 2 (K.seen keeper.old).writes (K.seen keeper.new).writes) }
    ensures others { OnOk result
        (SamePlacesBut is_of_tuples (K.seen keeper.old).kept (K.seen keeper.new).kept) }
    ensures changing { IsChanging (K.seen keeper.old) (K.seen keeper.new) result TabError.Fault }
{
    match found {
        Some(tid) => return Ok(tid),
        None => {}
    }
    let tid = match free_tuple(alloc, keeper, tuples) {
        Ok(tid) => tid,
        Err(error) => return Err(error),
    };
    match put_number(alloc, keeper, tid, &stmt.tuple) {
        Ok(()) => Ok(tid),
        Err(error) => Err(error),
    }
}

// Puts the two rows of a tuple's number.
fn put_number<K: Keeper>(
    alloc: Global,
    keeper: &mut K,
    tid: u32,
    tuple: &Tuple,
) -> Result<(), TabError>
    requires running { (K.seen keeper.old).running ≡ true }
    requires tuple { MayBeTuple tuple.now }
    ensures put { OnOk result
        ((K.seen keeper.new).kept ≡ number_put (K.seen keeper.old).kept tid tuple.now) }
    ensures writes { OnOk result (Rises 2 (K.seen keeper.old).writes (K.seen keeper.new).writes) }
    ensures changing { IsChanging (K.seen keeper.old) (K.seen keeper.new) result TabError.Fault }
{
    put::<TupleTab, K>(alloc, keeper, &tid, tuple)?;
    put::<TupleIx, K>(alloc, keeper, tuple, &tid)?;
    Ok(())
}

// The least number that no tuple has. Where the numbers in use have no gaps one read finds it: there are as many as `tuples`.
// Else numbers are tried from 0 on, and no row of theirs is decoded.
fn free_tuple<K: Keeper>(alloc: Global, keeper: &mut K, tuples: u32) -> Result<u32, TabError>
    requires grammar { InGrammar (K.seen keeper.old).kept }
    requires counted { HoldsSomeTuples (K.seen keeper.old).kept tuples }
    ensures least { IfOk result (IsLeastNumber (K.seen keeper.old).kept) }
    ensures read { IsRead (K.seen keeper.old) (K.seen keeper.new) result TabError.Fault }
{
    match next::<TupleTab, K>(alloc, keeper, &tuples) {
        Ok(Some(_)) => {}
        Ok(None) => return Ok(tuples),
        Err(error) => return Err(error),
    }
    match first_gap(alloc, keeper, TupleTab::NUMBER, 0) {
        Ok(tid) => Ok(tid),
        Err(error) => Err(error),
    }
}

/// Puts the row of a statement into its path's world, of number `wid`, for its tuple, of number `tid`, and settles the rows of
/// the tuple's relation, whose keys have the length `n`, and its key there and in the worlds that inherit them.
pub fn settle_statement<K: Keeper>(
    alloc: Global,
    keeper: &mut K,
    stmt: &Stmt,
    n: u32,
    wid: u32,
    tid: u32,
) -> Result<Settled, TabError>
    requires running { (K.seen keeper.old).running ≡ true }
    requires base { SomeHasNumber (K.seen keeper.old).kept stmt.now }
    requires world { IsWorld (K.seen keeper.old).kept stmt.now.path wid }
    requires fits { IsTupleRow stmt.now.tuple }
    requires number { HasAt tuple_ix_codec (K.seen keeper.old).kept stmt.now.tuple (Some tid) }
    requires length { IsKeyLength (K.seen keeper.old).kept stmt.now.tuple.rel n }
    ensures settled { OnOk result
        (Settles (K.seen keeper.old).kept (K.seen keeper.new).kept stmt.now) }
    ensures counted { IfOk result
        (λ s. CountsSettled (K.seen keeper.old).kept
        (K.seen keeper.new).kept stmt.now s.put s.taken) }
    ensures writes { OnOk result (RowWrites 2 (K.seen keeper.old) (K.seen keeper.new)) }
    ensures others { OnOk result (SamePlacesBut (λ n. nat_eq n 11) (K.seen keeper.old).kept
        (K.seen keeper.new).kept) }
    ensures changing { IsChanging (K.seen keeper.old) (K.seen keeper.new) result TabError.Fault }
{
    let key = key_of(&stmt.tuple, n);
    let rel = rel_of(&stmt.tuple);
    let stood = match put_row(alloc, keeper, stmt, wid, tid, key) {
        Ok(stood) => stood,
        Err(error) => return Err(error),
    };
    match settle_group(alloc, keeper, wid, rel, key) {
        Ok(settled) => Ok(with_row(settled, stood)),
        Err(error) => Err(error),
    }
}

// What was done with the row of a statement too, which came unless one stood.
fn with_row(settled: Settled, stood: bool) -> Settled
    ensures put { result.put ≡ counted (settled.put + cond stood 0 1) }
    ensures taken { result.taken ≡ settled.taken }
{
    let one = if stood { 0 } else { 1 };
    Settled {
        put: both(settled.put, one),
        taken: settled.taken,
    }
}

/// The relation of a tuple.
pub fn rel_of(tuple: &Tuple) -> u32
    ensures { result ≡ tuple.now.rel }
{
    tuple.rel
}

// Puts the row of a statement into a world. True where the world had a row for the statement's tuple.
fn put_row<K: Keeper>(
    alloc: Global,
    keeper: &mut K,
    stmt: &Stmt,
    wid: u32,
    tid: u32,
    key: &[Value],
) -> Result<bool, TabError>
    requires running { (K.seen keeper.old).running ≡ true }
    requires text { HaveKeyTexts key.now }
    ensures found { IfOk result
        (λ stood.
        stood ≡ is_some
        (tables.get (K.seen keeper.old).kept
        (place val_codec (key_made stmt.now wid tid key.now)))) }
    ensures put { OnOk result
        ((K.seen keeper.new).kept ≡ row_put (K.seen keeper.old).kept stmt.now wid tid key.now) }
    ensures writes { OnOk result (Rises 1 (K.seen keeper.old).writes (K.seen keeper.new).writes) }
    ensures fits { OnOk result (IsValKey (key_made stmt.now wid tid key.now)) }
    ensures grammar { OnOk result (InGrammar (K.seen keeper.old).kept
        → InGrammar (K.seen keeper.new).kept) }
    ensures changing { IsChanging (K.seen keeper.old) (K.seen keeper.new) result TabError.Fault }
{
    let bytes = match row_key(alloc, wid, rel_of(&stmt.tuple), key, tid) {
        Ok(bytes) => bytes,
        Err(_) => {
            keeper.undo();
            return Err(TabError::Memory);
        }
    };
    match put_explicit(alloc, keeper, &bytes, stmt.sign) {
        Ok(stood) => Ok(stood),
        Err(error) => Err(error),
    }
}

// Puts the explicit row of a sign at a key. True where a row stood there.
fn put_explicit<K: Keeper>(
    alloc: Global,
    keeper: &mut K,
    key: &[u8],
    sign: Sign,
) -> Result<bool, TabError>
    requires running { (K.seen keeper.old).running ≡ true }
    ensures found { IfOk result
        (λ stood. stood ≡ is_some (tables.get (K.seen keeper.old).kept (11 ∷ key.now))) }
    ensures put { OnOk result ((K.seen keeper.new).kept ≡ tables.insert (K.seen keeper.old).kept
        (11 ∷ key.now) (mark_bytes (sign, true))) }
    ensures writes { OnOk result (Rises 1 (K.seen keeper.old).writes (K.seen keeper.new).writes) }
    ensures changing { IsChanging (K.seen keeper.old) (K.seen keeper.new) result TabError.Fault }
{
    let mut row = Vec::new(alloc);
    let stood = match keeper.get(ValTab::NUMBER, key, &mut row) {
        Ok(stood) => stood,
        Err(error) => return Err(table_error(error)),
    };
    row.clear();
    match put_mark(&mut row, sign, true) {
        Ok(()) => {}
        Err(_) => {
            keeper.undo();
            return Err(TabError::Memory);
        }
    }
    match keeper.put(ValTab::NUMBER, key, &row) {
        Ok(()) => Ok(stood),
        Err(error) => Err(table_error(error)),
    }
}
