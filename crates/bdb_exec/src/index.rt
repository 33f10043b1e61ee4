// Tuples by the values of some of their columns.
ghost use Rattle.std.specs.Prelude.{◌≡◌, IfOk, OnOk, filter};
ghost use Rattle.std.specs.List.{slice_get};
ghost use Rattle.std.specs.Option.{option_copied};
ghost use Rattle.std.specs.BTreeMap.{get};
ghost use Rattle.bdb_base.specs.Order.{row_cmp};
ghost use Rattle.bdb_keep.specs.Tables.{Tables};
ghost use Rattle.bdb_exec.specs.Indexes.{group_of, GroupsBy, KeepsRest, place_pool, PutsAt, RecallsIndexes, values_of};
ghost use Rattle.bdb_exec.specs.Keys.{passes, value_behind};

use crate::keys::{value_behind, value_of_test};
use crate::passing::passing;
use crate::shared::Shared;
use crate::values::Key;
use bdb_base::{Cond, Exact, List, Operand, Tuple, Value};
use bdb_plan::Step;
use std::alloc::{AllocError, Global};
use std::collections::BTreeMap;

/// Tuples by the values of some of their columns.
#[derive(Drop)]
pub struct Index {
    /// The columns.
    pub cols: List<u32>,
    /// By each choice of values of them the tuples that have these, in order.
    pub groups: BTreeMap<Key, List<Shared>>,
}

/// Of the tuples of a place, those that the tests right behind a choice let through. Where the tests ask for values of columns, the
/// tuples are looked up by these, and an index by them is made where there is none yet.
pub fn by_columns(
    alloc: Global,
    indexes: &mut BTreeMap<((u32, u32), u64), Index>,
    place: (u32, u32),
    slots: &[Option<Shared>],
    item: u32,
    behind: &[Step],
    all: &[Shared],
) -> Result<List<Shared>, AllocError>
    ensures pool { (t : Tables) → all.now ≡ place_pool t place → RecallsIndexes t indexes.old
        → IfOk result (λ pool. pool ≡ filter (passes slots.now item behind.now) all.now) }
    ensures indexes { (t : Tables) → all.now ≡ place_pool t place → RecallsIndexes t indexes.old
        → OnOk result (RecallsIndexes t indexes.new) }
{
    let columns = columns_asked(slots, item, behind);
    if columns == 0 {
        return passing(alloc, slots, item, behind, all);
    }
    let at = (place, columns);
    match indexes.get(&at) {
        Some(index) => return among(alloc, index, slots, item, behind, all),
        None => {}
    }
    let index = index_of(alloc, all, columns_of(alloc, columns)?)?;
    let pool = among(alloc, &index, slots, item, behind, all)?;
    indexes.insert(at, index)?;
    Ok(pool)
}

// Those of the tuples of an index that the tests right behind a choice let through.
fn among(
    alloc: Global,
    index: &Index,
    slots: &[Option<Shared>],
    item: u32,
    behind: &[Step],
    all: &[Shared],
) -> Result<List<Shared>, AllocError>
    ensures { GroupsBy index.now.cols all.now index.now.groups
        → IfOk result (λ pool. pool ≡ filter (passes slots.now item behind.now) all.now) }
{
    if item as usize >= slots.len() {
        return passing(alloc, slots, item, behind, all);
    }
    match values_asked(alloc, slots, item, behind, index.cols.as_slice())? {
        Some(key) => passing(alloc, slots, item, behind, group(&index.groups, &key)),
        None => passing(alloc, slots, item, behind, all),
    }
}

// The tuples that have these values.
fn group<'a>(groups: &'a BTreeMap<Key, List<Shared>>, key: &Key) -> &'a [Shared]
    ensures { result.now ≡ group_of (get row_cmp groups.now key.now) }
{
    match groups.get(key) {
        Some(group) => group.as_slice(),
        None => &[],
    }
}

// Tuples by the values of columns.
fn index_of(alloc: Global, tuples: &[Shared], cols: List<u32>) -> Result<Index, AllocError>
    ensures { IfOk result (λ index. GroupsBy index.cols tuples.now index.groups) }
{
    let groups = groups_of(alloc, tuples, cols.as_slice())?;
    Ok(Index { cols, groups })
}

// The tuples that have the same values of columns, by these values.
fn groups_of(
    alloc: Global,
    tuples: &[Shared],
    cols: &[u32],
) -> Result<BTreeMap<Key, List<Shared>>, AllocError>
    ensures { IfOk result (λ groups. GroupsBy cols.now tuples.now groups) }
{
    let mut groups = BTreeMap::new(alloc);
    for shared in tuples {
        let Some(key) = values_at(alloc, shared.tuple(), cols)? else {
            continue;
        };
        put(alloc, &mut groups, key, shared)?;
    }
    Ok(groups)
}

// Puts a tuple behind those that have the same values.
fn put(
    alloc: Global,
    groups: &mut BTreeMap<Key, List<Shared>>,
    key: Key,
    shared: &Shared,
) -> Result<(), AllocError>
    ensures { OnOk result (PutsAt groups.old groups.new key shared.now) }
{
    let mut group = taken(alloc, groups, &key);
    group.push(shared.try_clone(alloc)?)?;
    groups.insert(key, group)?;
    Ok(())
}

// Takes out the tuples that have these values.
fn taken(alloc: Global, groups: &mut BTreeMap<Key, List<Shared>>, key: &Key) -> List<Shared>
    ensures group { result ≡ group_of (get row_cmp groups.old key.now) }
    ensures rest { KeepsRest groups.old groups.new key.now }
{
    match groups.remove(key) {
        Some(group) => group,
        None => List::new(alloc),
    }
}

// The values of a tuple's columns, where it has them.
fn values_at(alloc: Global, tuple: &Tuple, cols: &[u32]) -> Result<Option<Key>, AllocError>
    ensures { IfOk result (λ key. key ≡ values_of (slice_get tuple.now.vals) cols.now) }
{
    let mut values = List::new(alloc);
    for col in cols {
        match value_at(tuple, *col) {
            Some(value) => values.push(value.try_clone(alloc)?)?,
            None => return Ok(None),
        }
    }
    Ok(Some(Key { values }))
}

// The value of a tuple's column, where it has one.
fn value_at(tuple: &Tuple, col: u32) -> Option<&Value>
    ensures { option_copied result ≡ slice_get tuple.now.vals col }
{
    tuple.vals.get(col as usize)
}

// The values that the tests right behind a choice ask for of columns, where they ask for all of them.
fn values_asked(
    alloc: Global,
    slots: &[Option<Shared>],
    item: u32,
    behind: &[Step],
    cols: &[u32],
) -> Result<Option<Key>, AllocError>
    ensures { IfOk result
        (λ key. key ≡ values_of (value_behind slots.now item behind.now) cols.now) }
{
    let mut values = List::new(alloc);
    for col in cols {
        match value_behind(slots, item, behind, *col) {
            Some(value) => values.push(value.try_clone(alloc)?)?,
            None => return Ok(None),
        }
    }
    Ok(Some(Key { values }))
}

// Of which columns of an item the tests right behind a choice ask for values: a bit for each.
fn columns_asked(slots: &[Option<Shared>], item: u32, behind: &[Step]) -> u64 {
    let mut columns = 0u64;
    for step in behind {
        match step {
            Step::Test { cond } => columns |= column_asked(slots, item, cond),
            Step::User { .. } => return columns,
            Step::Start { .. } => return columns,
            Step::Edge { .. } => return columns,
            Step::Differ { .. } => return columns,
            Step::Pos { .. } => return columns,
            Step::Bind { .. } => return columns,
            Step::Neg { .. } => return columns,
        }
    }
    columns
}

// Of which column of an item a test asks for a value that is known: its bit.
fn column_asked(slots: &[Option<Shared>], item: u32, cond: &Cond) -> u64 {
    if value_of_test(slots, item, cond.left.col, cond).is_some() {
        return bit_of(cond.left.col);
    }
    match &cond.right {
        Operand::Col(r) => {
            if value_of_test(slots, item, r.col, cond).is_some() {
                bit_of(r.col)
            } else {
                0
            }
        }
        Operand::Lit(_) => 0,
    }
}

// A column's bit; none behind the first 64.
fn bit_of(col: u32) -> u64 {
    if col < 64 { 1 << col } else { 0 }
}

// The columns whose bits are set.
fn columns_of(alloc: Global, columns: u64) -> Result<List<u32>, AllocError> {
    let mut cols = List::new(alloc);
    for col in 0..64u32 {
        if columns & bit_of(col) != 0 {
            cols.push(col)?;
        }
    }
    Ok(cols)
}
