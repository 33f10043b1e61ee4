// The statements of tables of any bytes, where they are those of a valid base.
ghost use Rattle.std.specs.Prelude.{◌≡◌, ◌&&◌, true, IfOk, MatchOption};
ghost use Rattle.std.specs.Bool.{MatchBool};
ghost use Rattle.bdb_base.specs.SortedSet.{ascending};
ghost use Rattle.bdb_keep.specs.Calls.{IsRead};
ghost use Rattle.bdb_decode.specs.Items.{number_cmp};
ghost use Rattle.bdb_decode.specs.Stated.{all_stated, all_states};
ghost use Rattle.bdb_decode.specs.Whole.{AreBaseStatements, AreWhole, HaveNoBaseStatements};

use crate::rows::raw_statements;
use crate::stated::{all_stated, all_states};
use crate::statements::are_statements;
use bdb_base::{Catalog, Path, Stmt, Tuple};
use bdb_keep::Keeper;
use bdb_tables::TabError;
use std::alloc::{AllocError, Global};

/// The statements that the explicit rows make, in order, where they are those of a valid base with this catalog, each tuple
/// is that of one of them, and each world's path is a state. None exactly where this isn't so, or a row hasn't its place.
pub fn raw_base_statements<K: Keeper>(
    alloc: Global,
    keeper: &mut K,
    catalog: &Catalog,
    worlds: &[(u32, Path)],
    tuples: &[(u32, Tuple)],
) -> Result<Option<Vec<Stmt>>, TabError>
    requires worlds { ascending number_cmp worlds.now ≡ true }
    requires tuples { ascending number_cmp tuples.now ≡ true }
    ensures statements { IfOk result
        (λ r. MatchOption r
        (HaveNoBaseStatements (K.seen keeper.old).kept catalog.now worlds.now tuples.now)
        (λ stmts. AreBaseStatements (K.seen keeper.old).kept catalog.now worlds.now tuples.now
        stmts.items)) }
    ensures read { IsRead (K.seen keeper.old) (K.seen keeper.new) result TabError.Fault }
{
    match raw_statements(alloc, keeper, catalog, worlds, tuples) {
        Ok(Some(stmts)) => match are_whole(alloc, catalog, worlds, tuples, &stmts) {
            Ok(true) => Ok(Some(stmts)),
            Ok(false) => Ok(None),
            Err(_) => {
                keeper.undo();
                Err(TabError::Memory)
            }
        },
        Ok(None) => Ok(None),
        Err(error) => Err(error),
    }
}

// Whether statements are those of a valid base with this catalog, each tuple is that of one of them, and each path is a state.
fn are_whole(
    alloc: Global,
    catalog: &Catalog,
    worlds: &[(u32, Path)],
    tuples: &[(u32, Tuple)],
    stmts: &[Stmt],
) -> Result<bool, AllocError>
    ensures { IfOk result
        (λ whole. MatchBool whole (AreWhole catalog.now worlds.now tuples.now stmts.now)
        (AreWhole catalog.now worlds.now tuples.now stmts.now → ⊥)) }
{
    match are_statements(alloc, catalog, stmts) {
        Ok(true) => match all_named(alloc, worlds, tuples, stmts) {
            Ok(named) => Ok(named),
            Err(error) => Err(error),
        },
        Ok(false) => Ok(false),
        Err(error) => Err(error),
    }
}

// Whether each tuple is that of a statement, and each path is a state.
fn all_named(
    alloc: Global,
    worlds: &[(u32, Path)],
    tuples: &[(u32, Tuple)],
    stmts: &[Stmt],
) -> Result<bool, AllocError>
    ensures { IfOk result
        (λ all. all ≡ (all_stated stmts.now tuples.now && all_states stmts.now worlds.now)) }
{
    match all_stated(alloc, stmts, tuples) {
        Ok(true) => match all_states(alloc, stmts, worlds) {
            Ok(all) => Ok(all),
            Err(error) => Err(error),
        },
        Ok(false) => Ok(false),
        Err(error) => Err(error),
    }
}
