// The statements near a path, read from the rows of the worlds of its ends.
ghost use Rattle.std.specs.Prelude.{◌≡◌, ◌++◌, true, length, map, IfOk, OnOk};
ghost use Rattle.std.specs.List.{AllByRecursion};
ghost use Rattle.bdb_base.specs.Alternation.{alternates};
ghost use Rattle.bdb_base.specs.Order.{statement_cmp};
ghost use Rattle.bdb_base.specs.SortedSet.{ascending, put_all};
ghost use Rattle.bdb_base.specs.SameLemmas.{statement_of};
ghost use Rattle.bdb_keep.specs.Calls.{IsRead};
ghost use Rattle.bdb_keep.specs.Seen.{NeverFall, Steps};
ghost use Rattle.bdb_key.specs.Grammar.{HasEightBytes, IsNum};
ghost use Rattle.bdb_tables.specs.Grammar.{InGrammar};
ghost use Rattle.bdb_tables.specs.Lengths.{IsKeyLength};
ghost use Rattle.bdb_tables.specs.GroupMarks.{group_bytes};
ghost use Rattle.bdb_val.specs.Reads.{HaveTuples};
ghost use Rattle.bdb_why.specs.Reading.{PutsNear, ReadsAfterOne, ReadsHere, with_both};
ghost use Rattle.bdb_why.specs.Stored.{AreNear, SomeMayAsk};

use crate::descent::next_end;
use bdb_base::{List, Path, Sign, Stmt, Tuple, Value, key_of, put};
use bdb_catalog::tuples_under;
use bdb_keep::Keeper;
use bdb_key::{put_num, put_vals};
use bdb_tables::TabError;
use bdb_worlds::deepest_state;
use std::alloc::{AllocError, Global};

/// The statements at the path's ends whose tuples have the relation and key, in order, where the relation has keys of the
/// length `n`. The ends that are states are found by suffix links; at the others no statement stands.
pub fn near_statements<K: Keeper>(
    alloc: Global,
    keeper: &mut K,
    n: u32,
    path: &[u32],
    t: &Tuple,
) -> Result<List<Stmt>, TabError>
    requires base { SomeMayAsk (K.seen keeper.old).kept path.now t.now }
    requires length { IsKeyLength (K.seen keeper.old).kept t.now.rel n }
    requires apart { alternates path.now ≡ true }
    ensures near { IfOk result (AreNear (K.seen keeper.old).kept path.now t.now) }
    ensures sorted { IfOk result (λ stmts. ascending statement_cmp stmts ≡ true) }
    ensures reads { OnOk result
        (ReadsAfterOne (K.seen keeper.old) (K.seen keeper.new) path.now t.now) }
    ensures kept { OnOk result ((K.seen keeper.new).kept ≡ (K.seen keeper.old).kept) }
    ensures writes { (K.seen keeper.new).writes ≡ (K.seen keeper.old).writes }
    ensures counts { NeverFall (K.seen keeper.old) (K.seen keeper.new) }
    ensures steps { Steps (K.seen keeper.old) (K.seen keeper.new) result TabError.Fault }
{
    let mut at = match deepest_state(alloc, keeper, path) {
        Ok(at) => at,
        Err(error) => return Err(error),
    };
    let mut stmts = List::new(alloc);
    let mut rest = path;
    while let [_, others @ ..] = rest {
        let end = rest;
        rest = others;
        if at.1 as usize != end.len() {
            continue;
        }
        match put_near(alloc, keeper, n, at.0, end, t, &mut stmts) {
            Ok(()) => {}
            Err(error) => return Err(error),
        }
        at = match next_end(alloc, keeper, at.0) {
            Ok(next) => next,
            Err(error) => return Err(error),
        };
    }
    match put_near(alloc, keeper, n, at.0, rest, t, &mut stmts) {
        Ok(()) => Ok(stmts),
        Err(error) => Err(error),
    }
}

/// Puts the statements of the path of a number that have the tuple's relation and key into a set. The relation has keys of
/// the length `n`.
fn put_near<K: Keeper>(
    alloc: Global,
    keeper: &mut K,
    n: u32,
    wid: u32,
    path: &[u32],
    t: &Tuple,
    stmts: &mut List<Stmt>,
) -> Result<(), TabError>
    requires grammar { InGrammar (K.seen keeper.old).kept }
    requires length { IsKeyLength (K.seen keeper.old).kept t.now.rel n }
    requires tuples { HaveTuples (K.seen keeper.old).kept }
    requires apart { alternates path.now ≡ true }
    requires sorted { ascending statement_cmp stmts.old ≡ true }
    ensures put { OnOk result
        (PutsNear (K.seen keeper.old).kept wid path.now t.now stmts.old stmts.new) }
    ensures sorted { OnOk result (ascending statement_cmp stmts.new ≡ true) }
    ensures reads { OnOk result (ReadsHere (K.seen keeper.old).kept wid path.now t.now
        (K.seen keeper.old).reads (K.seen keeper.new).reads) }
    ensures read { IsRead (K.seen keeper.old) (K.seen keeper.new) result TabError.Fault }
{
    match put_of_key(alloc, keeper, n, wid, path, t.rel, t, stmts) {
        Ok(()) => Ok(()),
        Err(error) => Err(error),
    }
}

/// The same, where the number of the tuple's relation is told.
fn put_of_key<K: Keeper>(
    alloc: Global,
    keeper: &mut K,
    n: u32,
    wid: u32,
    path: &[u32],
    rel: u32,
    t: &Tuple,
    stmts: &mut List<Stmt>,
) -> Result<(), TabError>
    requires grammar { InGrammar (K.seen keeper.old).kept }
    requires length { IsKeyLength (K.seen keeper.old).kept t.now.rel n }
    requires tuples { HaveTuples (K.seen keeper.old).kept }
    requires apart { alternates path.now ≡ true }
    requires relation { t.now.rel ≡ rel }
    requires sorted { ascending statement_cmp stmts.old ≡ true }
    ensures put { OnOk result
        (PutsNear (K.seen keeper.old).kept wid path.now t.now stmts.old stmts.new) }
    ensures sorted { OnOk result (ascending statement_cmp stmts.new ≡ true) }
    ensures reads { OnOk result (ReadsHere (K.seen keeper.old).kept wid path.now t.now
        (K.seen keeper.old).reads (K.seen keeper.new).reads) }
    ensures read { IsRead (K.seen keeper.old) (K.seen keeper.new) result TabError.Fault }
{
    let key = key_of(t, n);
    let mut prefix = Vec::new(alloc);
    if put_group(&mut prefix, wid, rel, key).is_err() {
        keeper.undo();
        return Err(TabError::Memory);
    }
    let prefix = prefix.as_slice();
    let said = match tuples_under(alloc, keeper, prefix, Sign::Plus) {
        Ok(said) => said,
        Err(error) => return Err(error),
    };
    let denied = match tuples_under(alloc, keeper, prefix, Sign::Minus) {
        Ok(denied) => denied,
        Err(error) => return Err(error),
    };
    match put_both(alloc, stmts, path, said, denied) {
        Ok(()) => Ok(()),
        Err(_) => {
            keeper.undo();
            Err(TabError::Memory)
        }
    }
}

/// How the keys of a world's rows begin that have a relation and key.
fn put_group(prefix: &mut Vec<u8>, wid: u32, rel: u32, key: &[Value]) -> Result<(), AllocError>
    requires { IsNum (length key.now) }
    ensures bytes { OnOk result
        (prefix.new.items ≡ prefix.old.items ++ group_bytes wid rel key.now) }
    ensures whole { OnOk result (AllByRecursion HasEightBytes key.now) }
{
    put_num(prefix, wid)?;
    put_num(prefix, rel)?;
    put_vals(prefix, key)?;
    Ok(())
}

/// Puts statements at a path into a set: those of some tuples with plus, and those of others with minus.
fn put_both(
    alloc: Global,
    stmts: &mut List<Stmt>,
    path: &[u32],
    said: Vec<Tuple>,
    denied: Vec<Tuple>,
) -> Result<(), AllocError>
    requires apart { alternates path.now ≡ true }
    requires sorted { ascending statement_cmp stmts.old ≡ true }
    ensures { OnOk result (stmts.new ≡ with_both path.now stmts.old said.items denied.items) }
{
    put_tuples(alloc, stmts, path, Sign::Plus, said)?;
    put_tuples(alloc, stmts, path, Sign::Minus, denied)?;
    Ok(())
}

/// Puts the statements of tuples at a path, with one sign, into a set.
fn put_tuples(
    alloc: Global,
    stmts: &mut List<Stmt>,
    path: &[u32],
    sign: Sign,
    tuples: Vec<Tuple>,
) -> Result<(), AllocError>
    requires apart { alternates path.now ≡ true }
    requires sorted { ascending statement_cmp stmts.old ≡ true }
    ensures put { OnOk result
        (stmts.new ≡ put_all statement_cmp stmts.old
        (map (statement_of path.now sign) tuples.items)) }
    ensures sorted { OnOk result (ascending statement_cmp stmts.new ≡ true) }
{
    for tuple in tuples {
        let path = path_of(alloc, path)?;
        put(stmts, Stmt { path, sign, tuple })?;
    }
    Ok(())
}

/// The path of these users, no two neighbours of whom are equal.
fn path_of(alloc: Global, users: &[u32]) -> Result<Path, AllocError>
    requires { alternates users.now ≡ true }
    ensures { IfOk result (λ path. path ≡ users.now) }
{
    match Path::try_new(alloc, users) {
        Ok(path) => Ok(path),
        Err(_) => Err(AllocError),
    }
}
