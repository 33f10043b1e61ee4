// The users and the relations of tables of any bytes.
ghost use Rattle.std.specs.Prelude.{◌≡◌, ℕ, false, IfOk, MatchOption, map};
ghost use Rattle.bdb_keep.specs.Calls.{IsRead};
ghost use Rattle.bdb_entries.specs.Catalog.{TellsCatalog, TellsRelations, TellsUsers};
ghost use Rattle.bdb_entries.specs.Numbered.{are_numbered, numbered};

use crate::reading::raw_rows;
use crate::validity::is_catalog;
use bdb_base::{Catalog, Exact, List, RelDef, UserSlot};
use bdb_keep::Keeper;
use bdb_tables::{RelTab, TabError, UserTab};
use std::alloc::{AllocError, Global};

/// The users and the relations. None exactly where the tables have those of no valid base.
pub fn raw_catalog<K: Keeper>(alloc: Global, keeper: &mut K) -> Result<Option<Catalog>, TabError>
    ensures catalog { IfOk result (TellsCatalog (K.seen keeper.old).kept) }
    ensures read { IsRead (K.seen keeper.old) (K.seen keeper.new) result TabError.Fault }
{
    let users = match raw_users(alloc, keeper) {
        Ok(Some(users)) => users,
        Ok(None) => return Ok(None),
        Err(error) => return Err(error),
    };
    let rels = match raw_relations(alloc, keeper) {
        Ok(Some(rels)) => rels,
        Ok(None) => return Ok(None),
        Err(error) => return Err(error),
    };
    let catalog = Catalog { rels, users };
    if !is_catalog(&catalog) {
        return Ok(None);
    }
    Ok(Some(catalog))
}

/// The places of the users, by number from 1: names, and those who are gone. None exactly where the table of users has no list
/// of them.
pub fn raw_users<K: Keeper>(
    alloc: Global,
    keeper: &mut K,
) -> Result<Option<List<UserSlot>>, TabError>
    ensures users { IfOk result (TellsUsers (K.seen keeper.old).kept) }
    ensures read { IsRead (K.seen keeper.old) (K.seen keeper.new) result TabError.Fault }
{
    match raw_rows::<UserTab, K>(alloc, keeper) {
        Ok(Some(rows)) => match numbered_items(alloc, rows, 1) {
            Ok(users) => Ok(users),
            Err(_) => {
                keeper.undo();
                Err(TabError::Memory)
            }
        },
        Ok(None) => Ok(None),
        Err(error) => Err(error),
    }
}

/// The relations, by number from 0. None exactly where the table of relations has no list of them.
pub fn raw_relations<K: Keeper>(
    alloc: Global,
    keeper: &mut K,
) -> Result<Option<List<RelDef>>, TabError>
    ensures relations { IfOk result (TellsRelations (K.seen keeper.old).kept) }
    ensures read { IsRead (K.seen keeper.old) (K.seen keeper.new) result TabError.Fault }
{
    match raw_rows::<RelTab, K>(alloc, keeper) {
        Ok(Some(rows)) => match numbered_items(alloc, rows, 0) {
            Ok(rels) => Ok(rels),
            Err(_) => {
                keeper.undo();
                Err(TabError::Memory)
            }
        },
        Ok(None) => Ok(None),
        Err(error) => Err(error),
    }
}

// The items of rows whose numbers run from one on. None exactly where they do not.
#[tactic(auto, using(crate::proofs::NumberedLemmas::items_numbered))]
fn numbered_items<X: Exact>(
    alloc: Global,
    rows: Vec<(u32, X)>,
    first: u32,
) -> Result<Option<List<X>>, AllocError>
    ensures { IfOk result (λ r. MatchOption r (are_numbered first rows.items ≡ false)
        (λ items. rows.items ≡ numbered first items)) }
{
    if !are_numbered(&rows, first) {
        return Ok(None);
    }
    match items_of(alloc, rows) {
        Ok(items) => Ok(Some(items)),
        Err(error) => Err(error),
    }
}

// Whether the numbers of rows run from one on.
fn are_numbered<X: Exact>(rows: &[(u32, X)], first: u32) -> bool
    ensures { result ≡ are_numbered first rows.now }
{
    let mut next = u64::from(first);
    let mut rest = rows;
    while let [row, others @ ..] = rest {
        if u64::from(number_of(row)) != next {
            return false;
        }
        next += 1;
        rest = others;
    }
    true
}

// The number of a row.
fn number_of<X: Exact>(row: &(u32, X)) -> u32
    ensures { result ≡ row.now.0 }
{
    row.0
}

// The items of rows.
fn items_of<X: Exact>(alloc: Global, rows: Vec<(u32, X)>) -> Result<List<X>, AllocError>
    ensures { IfOk result (λ items. items ≡ map (λ (e : ℕ × X). e.1) rows.items) }
{
    let mut items = Vec::new(alloc);
    for (_, item) in rows {
        items.push(item)?;
    }
    Ok(List::from_vec(items))
}
