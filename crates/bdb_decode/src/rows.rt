// The statements that the explicit rows of tables of any bytes make.
ghost use Rattle.std.specs.Prelude.{◌≡◌, ◌≤◌, ◌++◌, true, length, IfOk, IfSome, MatchOption};
ghost use Rattle.std.specs.List.Sorted.{IsPermutation, IsSortedBy};
ghost use Rattle.std.specs.Ordering.{is_lt};
ghost use Rattle.bdb_base.specs.Bases.{key_lengths};
ghost use Rattle.bdb_base.specs.Clash.{key_of};
ghost use Rattle.bdb_base.specs.Limits.{most_statements};
ghost use Rattle.bdb_base.specs.Order.{statement_cmp};
ghost use Rattle.bdb_base.specs.SortedSet.{ascending};
ghost use Rattle.bdb_keep.specs.Calls.{IsRead};
ghost use Rattle.bdb_base.specs.Same.{same_values};
ghost use Rattle.bdb_val.specs.Reads.{is_of_group};
ghost use Rattle.bdb_decode.specs.Explicit.{AreSaid, AreStated, is_placed, said, said_by_row};
ghost use Rattle.bdb_decode.specs.Items.{number_cmp};
ghost use Rattle.bdb_decode.specs.Many.{HaveNoStatements};

use crate::items::item_of;
use crate::keys::key_in;
use crate::limits::are_too_many;
use bdb_base::{Catalog, Exact, List, Path, Sign, Stmt, Tuple, Value, cmp_stmt, same_values};
use bdb_entries::next_raw;
use bdb_keep::Keeper;
use bdb_tables::{Room, TabError, ValTab};
use std::alloc::{AllocError, Global};
use std::cmp::Ordering;

/// A row of table 11: a world, a relation, a key and a tuple, each but the key by its number; a sign, and whether it is explicit.
pub type ValRow = ((u32, u32, List<Value>, u32), (Sign, bool));

/// The statements that the explicit rows make, in order, where each row's world has a path, its tuple a number, and its
/// relation and key are the tuple's, by the relations of the catalog. None exactly where this isn't so of some row, or the rows
/// make more statements than a base may have: it comes as soon as they do. One read more than there are rows at most, of which
/// none is kept.
pub fn raw_statements<K: Keeper>(
    alloc: Global,
    keeper: &mut K,
    catalog: &Catalog,
    worlds: &[(u32, Path)],
    tuples: &[(u32, Tuple)],
) -> Result<Option<Vec<Stmt>>, TabError>
    requires worlds { ascending number_cmp worlds.now ≡ true }
    requires tuples { ascending number_cmp tuples.now ≡ true }
    ensures statements { IfOk result
        (λ r. MatchOption r
        (HaveNoStatements (key_lengths catalog.now.rels) (K.seen keeper.old).kept worlds.now
        tuples.now)
        (λ stmts. AreStated (key_lengths catalog.now.rels) (K.seen keeper.old).kept worlds.now
        tuples.now stmts.items)) }
    ensures few { IfOk result (λ r. IfSome r (λ stmts. length stmts.items ≤ most_statements)) }
    ensures read { IsRead (K.seen keeper.old) (K.seen keeper.new) result TabError.Fault }
{
    match said_statements(alloc, keeper, catalog, worlds, tuples) {
        Ok(Some(made)) => match in_order(made) {
            Ok(stmts) => Ok(Some(stmts)),
            Err(_) => {
                keeper.undo();
                Err(TabError::Memory)
            }
        },
        Ok(None) => Ok(None),
        Err(error) => Err(error),
    }
}

// Statements in their order.
fn in_order(mut stmts: Vec<Stmt>) -> Result<Vec<Stmt>, AllocError>
    ensures moved { IfOk result (λ xs. IsPermutation stmts.items xs.items) }
    ensures sorted { IfOk result (λ xs. IsSortedBy (λ a b. is_lt (statement_cmp a b)) xs.items) }
{
    stmts.sort_by(by_place)?;
    Ok(stmts)
}

// The order of two statements.
fn by_place(a: &Stmt, b: &Stmt) -> Ordering
    ensures { result ≡ statement_cmp a.now b.now }
{
    cmp_stmt(a, b)
}

// The same in the order of the rows.
fn said_statements<K: Keeper>(
    alloc: Global,
    keeper: &mut K,
    catalog: &Catalog,
    worlds: &[(u32, Path)],
    tuples: &[(u32, Tuple)],
) -> Result<Option<Vec<Stmt>>, TabError>
    requires worlds { ascending number_cmp worlds.now ≡ true }
    requires tuples { ascending number_cmp tuples.now ≡ true }
    ensures statements { IfOk result
        (λ r. MatchOption r
        (HaveNoStatements (key_lengths catalog.now.rels) (K.seen keeper.old).kept worlds.now
        tuples.now)
        (λ stmts. AreSaid (key_lengths catalog.now.rels) (K.seen keeper.old).kept worlds.now
        tuples.now stmts.items)) }
    ensures few { IfOk result (λ r. IfSome r (λ stmts. length stmts.items ≤ most_statements)) }
    ensures read { IsRead (K.seen keeper.old) (K.seen keeper.new) result TabError.Fault }
{
    let mut stmts = Vec::new(alloc);
    let mut low = Vec::new(alloc);
    let mut room = Room::new(alloc);
    for _ in 0..u64::MAX {
        match next_raw::<ValTab, K>(alloc, keeper, &mut low, &mut room) {
            Ok(Some(Some(row))) => match push_said(
                alloc, catalog, worlds, tuples, &row, &mut stmts,
            ) {
                Ok(true) => {
                    if are_too_many(&stmts) {
                        return Ok(None);
                    }
                }
                Ok(false) => return Ok(None),
                Err(_) => {
                    keeper.undo();
                    return Err(TabError::Memory);
                }
            },
            Ok(Some(None)) => return Ok(Some(stmts)),
            Ok(None) => return Ok(None),
            Err(error) => return Err(error),
        }
    }
    keeper.undo();
    Err(TabError::Memory)
}

// Appends the statement that a row makes, if it is explicit. False where the row hasn't its place.
fn push_said(
    alloc: Global,
    catalog: &Catalog,
    worlds: &[(u32, Path)],
    tuples: &[(u32, Tuple)],
    row: &ValRow,
    stmts: &mut Vec<Stmt>,
) -> Result<bool, AllocError>
    requires worlds { ascending number_cmp worlds.now ≡ true }
    requires tuples { ascending number_cmp tuples.now ≡ true }
    ensures placed { IfOk result (λ placed. placed ≡ is_placed (key_lengths catalog.now.rels)
        worlds.now tuples.now row.now) }
    ensures said { IfOk result
        (λ placed. placed ≡ true
        → stmts.new.items ≡ stmts.old.items ++ said worlds.now tuples.now row.now) }
{
    match item_of(worlds, row.0.0) {
        Some(path) => match item_of(tuples, row.0.3) {
            Some(tuple) => push_placed(alloc, catalog, path, tuple, row, stmts),
            None => Ok(false),
        },
        None => Ok(false),
    }
}

// The same for a row whose world's path and whose tuple are known.
fn push_placed(
    alloc: Global,
    catalog: &Catalog,
    path: &Path,
    tuple: &Tuple,
    row: &ValRow,
    stmts: &mut Vec<Stmt>,
) -> Result<bool, AllocError>
    ensures placed { IfOk result (λ placed. placed ≡ is_of_group (key_lengths catalog.now.rels)
        row.now.0.1 row.now.0.2 tuple.now) }
    ensures said { IfOk result
        (λ placed. placed ≡ true
        → stmts.new.items ≡ stmts.old.items ++ said_by_row path.now tuple.now row.now) }
{
    if !is_of_group(catalog, tuple, row) {
        return Ok(false);
    }
    if row.1.1 {
        let path = path.try_clone(alloc)?;
        let tuple = tuple.try_clone(alloc)?;
        let sign = row.1.0;
        stmts.push(Stmt { path, sign, tuple })?;
        return Ok(true);
    }
    Ok(true)
}

// Whether a row's relation and key are those of a tuple.
fn is_of_group(catalog: &Catalog, tuple: &Tuple, row: &ValRow) -> bool
    ensures { result ≡ is_of_group (key_lengths catalog.now.rels)
        row.now.0.1 row.now.0.2 tuple.now }
{
    tuple.rel == row.0.1 && has_key(catalog, tuple, row)
}

// Whether a row's key is that of a tuple.
fn has_key(catalog: &Catalog, tuple: &Tuple, row: &ValRow) -> bool
    ensures { result ≡ same_values (key_of (key_lengths catalog.now.rels) tuple.now) row.now.0.2 }
{
    same_values(key_in(catalog, tuple), row.0.2.as_slice())
}
