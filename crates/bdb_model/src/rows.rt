// The world of a path as a list of rows.
ghost use Rattle.std.specs.Prelude.{◌≡◌, ◌++◌, true, IfOk, OnOk};
ghost use Rattle.bdb_base.specs.Bases.{key_lengths};
ghost use Rattle.bdb_base.specs.Order.{statement_cmp};
ghost use Rattle.bdb_base.specs.SortedSet.{ascending};
ghost use Rattle.bdb_base.specs.WorldRows.{world_of};
ghost use Rattle.bdb_model.specs.Levels.{row_by, rows_by};

use crate::ends::at_ends;
use crate::keys::{TupleKey, key_tuple};
use crate::levels::{Level, level_of, levels_of, stated_by};
use bdb_base::{Exact, Held, List, RelDef, Sign, Stmt, Tuple, World, tuples_of};
use std::alloc::{AllocError, Global};

/// The world of a path, where these statements stand, in order, by tuple. It is made from the statements at the path's
/// ends alone. A row is explicit exactly where it is a statement of this very path.
pub fn world_among(
    alloc: Global,
    rels: &[RelDef],
    stmts: &[Stmt],
    path: &[u32],
) -> Result<World, AllocError>
    requires { ascending statement_cmp stmts.now ≡ true }
    ensures { IfOk result
        (λ world. world.held ≡ world_of (key_lengths rels.now) stmts.now path.now) }
{
    let near = at_ends(alloc, stmts, path)?;
    let world = world_from(alloc, rels, near.as_slice(), path)?;
    Ok(world)
}

/// The world of a path, where these statements stand, with a look at each of their tuples.
fn world_from(
    alloc: Global,
    rels: &[RelDef],
    stmts: &[Stmt],
    path: &[u32],
) -> Result<World, AllocError>
    requires { ascending statement_cmp stmts.now ≡ true }
    ensures { IfOk result
        (λ world. world.held ≡ world_of (key_lengths rels.now) stmts.now path.now) }
{
    let tuples = tuples_of(alloc, stmts)?;
    let levels = levels_of(alloc, rels, stmts, path)?;
    let own = level_of(alloc, rels, stmts, path)?;
    let mut held = List::new(alloc);
    for tuple in tuples.as_slice() {
        push_rows(alloc, rels, &mut held, levels.as_slice(), &own, tuple)?;
    }
    Ok(World { held })
}

fn push_rows(
    alloc: Global,
    rels: &[RelDef],
    held: &mut List<Held>,
    levels: &[Level],
    own: &Level,
    tuple: &Tuple,
) -> Result<(), AllocError>
    ensures { OnOk result
        (held.new ≡ held.old ++ rows_by (key_lengths rels.now) levels.now own.now tuple.now) }
{
    let key = key_tuple(alloc, rels, tuple)?;
    push_row(alloc, held, levels, own, tuple, &key, Sign::Plus)?;
    push_row(alloc, held, levels, own, tuple, &key, Sign::Minus)?;
    Ok(())
}

fn push_row(
    alloc: Global,
    held: &mut List<Held>,
    levels: &[Level],
    own: &Level,
    tuple: &Tuple,
    key: &TupleKey,
    sign: Sign,
) -> Result<(), AllocError>
    ensures { OnOk result
        (held.new ≡ held.old ++ row_by levels.now own.now tuple.now key.now sign) }
{
    if stated_by(levels, tuple, key, sign) {
        held.push(Held {
            tuple: tuple.try_clone(alloc)?,
            sign,
            explicit: own.has(tuple, sign),
        })?;
    }
    Ok(())
}
