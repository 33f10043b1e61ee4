// What can be chosen for the items of a query.
ghost use Rattle.std.specs.Prelude.{◌≡◌, ◌≤◌, ◌<◌, ◌+◌, ◌++◌, ◌^◌, true, length, map, IfOk, OnOk};
ghost use Rattle.std.specs.Option.{option_copied};
ghost use Rattle.bdb_base.specs.Bases.{key_lengths};
ghost use Rattle.bdb_base.specs.Limits.{most_users};
ghost use Rattle.bdb_base.specs.Order.{statement_cmp};
ghost use Rattle.bdb_base.specs.Queries.{columns_at};
ghost use Rattle.bdb_base.specs.SortedSet.{ascending};
ghost use Rattle.bdb_model.specs.Pools.{world_at, item_world, user_pool, plus_tuples, plus_pool, plus_pools, sourced_value, sourced_values, denies, denied_tuples, minus_pool, minus_pools};
ghost use Rattle.bdb_queries.specs.Slots.{user_tuples};

use crate::keys::key_length_of;
use crate::rows::world_among;
use crate::sources::source_of;
use bdb_base::{
    ColDef, Cond, Exact, Held, Item, List, Path, PathError, RelDef, Sign, Stmt, Tuple, UserSlot,
    Value, clash, fits_relation,
};
use bdb_queries::{known_operand, path_of, user_tuples};
use std::alloc::{AllocError, Global};

/// The worlds of the items' paths, with the chosen users put in.
pub fn worlds_of(
    alloc: Global,
    rels: &[RelDef],
    stmts: &[Stmt],
    slots: &[Option<Tuple>],
    items: &[Item],
) -> Result<Vec<List<Held>>, AllocError>
    requires { ascending statement_cmp stmts.now ≡ true }
    ensures { IfOk result
        (λ worlds. worlds.items ≡ map (item_world (key_lengths rels.now) stmts.now slots.now)
        items.now) }
{
    let mut worlds = Vec::new(alloc);
    for item in items {
        worlds.push(item_world(alloc, rels, stmts, slots, item)?)?;
    }
    Ok(worlds)
}

fn item_world(
    alloc: Global,
    rels: &[RelDef],
    stmts: &[Stmt],
    slots: &[Option<Tuple>],
    item: &Item,
) -> Result<List<Held>, AllocError>
    requires { ascending statement_cmp stmts.now ≡ true }
    ensures { IfOk result
        (λ world. world ≡ item_world (key_lengths rels.now) stmts.now slots.now item.now) }
{
    match item {
        Item::Users { .. } => Ok(List::new(alloc)),
        Item::Rel { path, .. } => match path_of(alloc, slots, path.as_slice())? {
            Some(users) => {
                let world = world_at(alloc, rels, stmts, users.as_slice())?;
                Ok(world)
            }
            None => Ok(List::new(alloc)),
        },
    }
}

/// The world of a path that has no equal neighbours; else nothing.
fn world_at(
    alloc: Global,
    rels: &[RelDef],
    stmts: &[Stmt],
    users: &[u32],
) -> Result<List<Held>, AllocError>
    requires { ascending statement_cmp stmts.now ≡ true }
    ensures { IfOk result (λ world. world ≡ world_at (key_lengths rels.now) stmts.now
        (Some users.now)) }
{
    match Path::try_new(alloc, users) {
        Ok(path) => {
            let world = world_among(alloc, rels, stmts, path.as_slice())?;
            Ok(world.held)
        }
        Err(PathError::Repeat) => Ok(List::new(alloc)),
        Err(PathError::Memory) => Err(AllocError),
    }
}

/// The live users for each `Users` item.
pub fn user_pools(
    alloc: Global,
    users: &[UserSlot],
    items: &[Item],
) -> Result<Vec<Option<List<Tuple>>>, AllocError>
    requires { length users.now ≤ most_users }
    ensures { IfOk result (λ pools. pools.items ≡ map (user_pool users.now) items.now) }
{
    let mut pools = Vec::new(alloc);
    for item in items {
        pools.push(user_pool(alloc, users, item)?)?;
    }
    Ok(pools)
}

fn user_pool(
    alloc: Global,
    users: &[UserSlot],
    item: &Item,
) -> Result<Option<List<Tuple>>, AllocError>
    requires { length users.now ≤ most_users }
    ensures { IfOk result (λ pool. pool ≡ user_pool users.now item.now) }
{
    match item {
        Item::Users { .. } => {
            let tuples = user_tuples(alloc, users)?;
            Ok(Some(tuples))
        }
        Item::Rel { .. } => Ok(None),
    }
}

/// The tuples that each plus item's path believes.
pub fn plus_pools(
    alloc: Global,
    items: &[Item],
    worlds: &[List<Held>],
) -> Result<Vec<Option<List<Tuple>>>, AllocError>
    ensures { IfOk result (λ pools. pools.items ≡ plus_pools items.now worlds.now) }
{
    let mut pools = Vec::new(alloc);
    push_plus_pools(alloc, &mut pools, items, worlds)?;
    Ok(pools)
}

fn push_plus_pools(
    alloc: Global,
    pools: &mut Vec<Option<List<Tuple>>>,
    items: &[Item],
    worlds: &[List<Held>],
) -> Result<(), AllocError>
    ensures { OnOk result (pools.new.items ≡ pools.old.items ++ plus_pools items.now worlds.now) }
{
    match items {
        [] => Ok(()),
        [item, items @ ..] => match worlds {
            [] => Ok(()),
            [world, worlds @ ..] => {
                pools.push(plus_pool(alloc, item, world.as_slice())?)?;
                push_plus_pools(alloc, pools, items, worlds)?;
                Ok(())
            }
        },
    }
}

fn plus_pool(alloc: Global, item: &Item, world: &[Held]) -> Result<Option<List<Tuple>>, AllocError>
    ensures { IfOk result (λ pool. pool ≡ plus_pool item.now world.now) }
{
    match item {
        Item::Users { .. } => Ok(None),
        Item::Rel { rel, sign, .. } => match sign {
            Sign::Plus => {
                let tuples = plus_tuples(alloc, *rel, world)?;
                Ok(Some(tuples))
            }
            Sign::Minus => Ok(None),
        },
    }
}

/// The tuples of a relation that a world has with plus.
fn plus_tuples(alloc: Global, rel: u32, world: &[Held]) -> Result<List<Tuple>, AllocError>
    ensures { IfOk result (λ tuples. tuples ≡ plus_tuples rel world.now) }
{
    let mut tuples = List::new(alloc);
    for row in world {
        if row.tuple.rel == rel && row.sign == Sign::Plus {
            tuples.push(row.tuple.try_clone(alloc)?)?;
        }
    }
    Ok(tuples)
}

/// The tuple whose negation each minus item's path believes, by the sources of its columns.
pub fn minus_pools(
    alloc: Global,
    rels: &[RelDef],
    sources: &[Cond],
    slots: &[Option<Tuple>],
    items: &[Item],
    worlds: &[List<Held>],
) -> Result<Vec<Option<List<Tuple>>>, AllocError>
    ensures { IfOk result
        (λ pools. pools.items ≡ minus_pools rels.now sources.now slots.now 0 items.now worlds.now) }
{
    let mut pools = Vec::new(alloc);
    push_minus_pools(alloc, &mut pools, rels, sources, slots, 0, items, worlds)?;
    Ok(pools)
}

fn push_minus_pools(
    alloc: Global,
    pools: &mut Vec<Option<List<Tuple>>>,
    rels: &[RelDef],
    sources: &[Cond],
    slots: &[Option<Tuple>],
    at: usize,
    items: &[Item],
    worlds: &[List<Held>],
) -> Result<(), AllocError>
    requires { at + length items.now < 2 ^ 64 }
    ensures { OnOk result
        (pools.new.items
        ≡ pools.old.items ++ minus_pools rels.now sources.now slots.now at items.now worlds.now) }
{
    match items {
        [] => Ok(()),
        [item, items @ ..] => match worlds {
            [] => Ok(()),
            [world, worlds @ ..] => {
                let pool = minus_pool(alloc, rels, sources, slots, at, item, world.as_slice())?;
                pools.push(pool)?;
                push_minus_pools(alloc, pools, rels, sources, slots, at + 1, items, worlds)?;
                Ok(())
            }
        },
    }
}

fn minus_pool(
    alloc: Global,
    rels: &[RelDef],
    sources: &[Cond],
    slots: &[Option<Tuple>],
    at: usize,
    item: &Item,
    world: &[Held],
) -> Result<Option<List<Tuple>>, AllocError>
    ensures { IfOk result
        (λ pool. pool ≡ minus_pool rels.now sources.now slots.now at item.now world.now) }
{
    match item {
        Item::Users { .. } => Ok(None),
        Item::Rel { rel, sign, .. } => match sign {
            Sign::Plus => Ok(None),
            Sign::Minus => {
                let vals = sourced_tuple(alloc, rels, sources, slots, at, *rel)?;
                let tuples = denied_tuples(alloc, rels, world, *rel, vals)?;
                Ok(Some(tuples))
            }
        },
    }
}

/// The tuple of these values, if they are there, it fits its relation, and a world denies it.
fn denied_tuples(
    alloc: Global,
    rels: &[RelDef],
    world: &[Held],
    rel: u32,
    vals: Option<List<Value>>,
) -> Result<List<Tuple>, AllocError>
    ensures { IfOk result (λ tuples. tuples ≡ denied_tuples rels.now world.now rel vals) }
{
    let mut tuples = List::new(alloc);
    match vals {
        Some(vals) => {
            if vals.is_empty() || !fits_relation(rels, rel, vals.as_slice()) {
                return Ok(tuples);
            }
            let tuple = Tuple { rel, vals };
            if denies(rels, world, &tuple) {
                tuples.push(tuple)?;
            }
            Ok(tuples)
        }
        None => Ok(tuples),
    }
}

/// Whether a world denies a tuple: a row of it clashes with the tuple's being there.
fn denies(rels: &[RelDef], world: &[Held], tuple: &Tuple) -> bool
    ensures { result ≡ denies (key_lengths rels.now) world.now tuple.now }
{
    denies_by(key_length_of(rels, tuple), world, tuple)
}

/// Whether a world denies a tuple whose relation has keys of the length `n`.
fn denies_by(n: u32, world: &[Held], tuple: &Tuple) -> bool
    ensures { result ≡ denies (λ _. n) world.now tuple.now }
{
    world
        .iter()
        .any(|row| clash(n, tuple, Sign::Plus, &row.tuple, row.sign))
}

/// The values of an item's columns by their sources, where all are known.
fn sourced_tuple(
    alloc: Global,
    rels: &[RelDef],
    sources: &[Cond],
    slots: &[Option<Tuple>],
    item: usize,
    rel: u32,
) -> Result<Option<List<Value>>, AllocError>
    ensures { IfOk result (λ vals. vals ≡ sourced_values sources.now slots.now item 0
        (columns_at rels.now rel)) }
{
    match rels.get(rel as usize) {
        Some(def) => {
            let vals = sourced_values(alloc, sources, slots, item, def.cols.as_slice())?;
            Ok(vals)
        }
        None => Ok(Some(List::new(alloc))),
    }
}

fn sourced_values(
    alloc: Global,
    sources: &[Cond],
    slots: &[Option<Tuple>],
    item: usize,
    cols: &[ColDef],
) -> Result<Option<List<Value>>, AllocError>
    ensures { IfOk result (λ vals. vals ≡ sourced_values sources.now slots.now item 0 cols.now) }
{
    let mut vals = List::new(alloc);
    for (col, _column) in cols.iter().enumerate() {
        match sourced_value(sources, slots, item, col) {
            Some(value) => vals.push(value.try_clone(alloc)?)?,
            None => return Ok(None),
        }
    }
    Ok(Some(vals))
}

/// The value of a column by its source.
fn sourced_value<'a>(
    sources: &'a [Cond],
    slots: &'a [Option<Tuple>],
    item: usize,
    col: usize,
) -> Option<&'a Value>
    ensures { option_copied result ≡ sourced_value sources.now slots.now
        (record { item = item; col = col }) }
{
    match source_of(sources, item, col) {
        Some(source) => known_operand(slots, source),
        None => None,
    }
}
