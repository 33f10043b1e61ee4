// Worlds and belief over a base.
ghost use Rattle.std.specs.Prelude.{◌≡◌, IfOk, true};
ghost use Rattle.std.specs.Option.{option_copied};
ghost use Rattle.bdb_base.specs.Bases.{key_lengths};
ghost use Rattle.bdb_base.specs.SortedSet.{ascending};
ghost use Rattle.bdb_base.specs.WorldRows.{world_of, row_tuple_cmp};
ghost use Rattle.bdb_base.specs.Worlds.{stated, believes, least_clash};
ghost use Rattle.bdb_model.specs.Agreement.{AreCompatible};

use crate::beliefs::{believes_among, clashing_among, stated_among};
use crate::keys::key_length_of;
use crate::rows::world_among;
use bdb_base::{Base, Sign, Stmt, Tuple, World};
use std::alloc::{AllocError, Global};

/// Whether the world of a path has a signed tuple.
pub fn stated(base: &Base, path: &[u32], t: &Tuple, s: Sign) -> bool
    ensures { result ≡ stated (key_lengths base.now.catalog.rels) base.now.stmts path.now t.now s }
{
    stated_among(key_length_in(base, t), base.stmts(), path, t, s)
}

/// Whether a path believes a tuple, or with minus its negation.
pub fn believes(base: &Base, path: &[u32], t: &Tuple, s: Sign) -> bool
    ensures { result ≡ believes (key_lengths base.now.catalog.rels)
        base.now.stmts path.now t.now s }
{
    believes_among(key_length_in(base, t), base.stmts(), path, t, s)
}

/// The least statement of this very path with which a signed tuple clashes; none exactly where none does.
pub fn clashing<'a>(base: &'a Base, path: &[u32], t: &Tuple, s: Sign) -> Option<&'a Stmt>
    ensures { option_copied result ≡ least_clash (key_lengths base.now.catalog.rels)
        base.now.stmts path.now t.now s }
{
    clashing_among(key_length_in(base, t), base.stmts(), path, t, s)
}

/// The world of a path, by tuple: no two rows clash, and no tuple stands twice. A row is explicit exactly where it is a
/// statement of this very path.
pub fn world_rows(alloc: Global, base: &Base, path: &[u32]) -> Result<World, AllocError>
    ensures world { IfOk result (λ world. world.held ≡ world_of (key_lengths base.now.catalog.rels)
        base.now.stmts path.now) }
    ensures once { IfOk result (λ world. ascending row_tuple_cmp world.held ≡ true) }
    ensures compatible { IfOk result (λ world. AreCompatible (key_lengths base.now.catalog.rels)
        world.held) }
{
    let rels = base.catalog().rels.as_slice();
    let world = world_among(alloc, rels, base.stmts(), path)?;
    Ok(world)
}

/// The length of the key of a tuple's relation.
pub fn key_length_in(base: &Base, t: &Tuple) -> u32
    ensures { result ≡ key_lengths base.now.catalog.rels t.now.rel }
{
    key_length_of(base.catalog().rels.as_slice(), t)
}
