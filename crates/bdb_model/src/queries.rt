// The answers of a query.
ghost use Rattle.std.specs.Prelude.{◌≡◌, true, List, IfOk};
ghost use Rattle.bdb_base.specs.declared.kinds.Value.{Value};
ghost use Rattle.bdb_base.specs.Queries.{active_domain, HasValues, answers_of, answers_over};
ghost use Rattle.bdb_base.specs.Safety.{query_fits, IsSafe};
ghost use Rattle.bdb_model.specs.Answering.{open_slots};
ghost use Rattle.bdb_queries.specs.Limits.{up_to};

use crate::choosing::choose;
use crate::pools::user_pools;
use crate::sources::sources_of;
use crate::stages::UsersChosen;
use bdb_base::{Base, Item, List, Query, Tuple, Value};
use bdb_queries::Found;
use std::alloc::{AllocError, Global};

/// The answers of a safe query over a base, in order, each once. They are the same over each domain that has the values
/// of the active one.
pub fn answers(alloc: Global, base: &Base, q: &Query) -> Result<List<List<Value>>, AllocError>
    requires fits { query_fits base.now.catalog q.now ≡ true }
    requires safe { IsSafe base.now.catalog.rels q.now }
    ensures rows { IfOk result (λ rows. rows ≡ answers_of base.now q.now) }
    ensures domains { IfOk result
        (λ rows. (dom : List Value) → HasValues dom (active_domain base.now q.now)
        → rows ≡ answers_over base.now dom q.now) }
{
    match answers_up_to(alloc, base, q, usize::MAX)? {
        Some(rows) => Ok(rows),
        None => Err(AllocError),
    }
}

/// The answers of a safe query over a base, where there are at most so many; none exactly where there are more. It
/// stops once it has found more.
pub fn answers_up_to(
    alloc: Global,
    base: &Base,
    q: &Query,
    most: usize,
) -> Result<Option<List<List<Value>>>, AllocError>
    requires fits { query_fits base.now.catalog q.now ≡ true }
    requires safe { IsSafe base.now.catalog.rels q.now }
    ensures rows { IfOk result (λ rows. rows ≡ up_to most (answers_of base.now q.now)) }
    ensures domains { IfOk result
        (λ rows. (dom : List Value) → HasValues dom (active_domain base.now q.now)
        → rows ≡ up_to most (answers_over base.now dom q.now)) }
{
    let rows = rows_up_to(alloc, base, q, most)?;
    Ok(rows)
}

/// The rows that answer a query, where there are at most so many; none exactly where there are more. They are the answers
/// where the query fits the catalog and is safe.
pub fn rows_up_to(
    alloc: Global,
    base: &Base,
    q: &Query,
    most: usize,
) -> Result<Option<List<List<Value>>>, AllocError>
    ensures { IfOk result (λ rows. query_fits base.now.catalog q.now ≡ true
        → IsSafe base.now.catalog.rels q.now → rows ≡ up_to most (answers_of base.now q.now)) }
{
    let items = q.items.as_slice();
    let sources = sources_of(alloc, q)?;
    let pools = user_pools(alloc, base.catalog().users.as_slice(), items)?;
    let slots = open_slots(alloc, items)?;
    let stage = UsersChosen {
        base,
        query: q,
        sources: sources.as_slice(),
    };
    let mut found = Found::new(alloc, most);
    choose(
        alloc,
        &stage,
        q.conds.as_slice(),
        0,
        pools.as_slice(),
        slots.as_slice(),
        &mut found,
    )?;
    let rows = found.into_rows(alloc)?;
    Ok(rows)
}

/// Nothing is chosen for any item.
fn open_slots(alloc: Global, items: &[Item]) -> Result<Vec<Option<Tuple>>, AllocError>
    ensures { IfOk result (λ slots. slots.items ≡ open_slots items.now) }
{
    let mut slots = Vec::new(alloc);
    for _item in items {
        slots.push(None)?;
    }
    Ok(slots)
}
