// Making the tables of a base, and adding to its catalog.
ghost use Rattle.std.specs.Prelude.{◌≡◌, true, OnOk};
ghost use Rattle.bdb_base.specs.Bases.{empty_contents};
ghost use Rattle.bdb_base.specs.Causes.{Rises, RoseBy};
ghost use Rattle.bdb_keep.specs.Calls.{IsWrite};
ghost use Rattle.bdb_tables.specs.Stored.{Stores};
ghost use Rattle.bdb_update.specs.Keeping.{SameNumbers};
ghost use Rattle.bdb_update.specs.StoredLaws.{HaveNoRows};
ghost use Rattle.bdb_catalog.specs.Creating.{AddsRelation, SomeMayAddRelation};

use bdb_base::RelDef;
use bdb_keep::Keeper;
use bdb_tables::{DepthTab, FORMAT, MetaTab, RelTab, TabError, put};
use std::alloc::Global;

/// Makes tables without rows those of the empty base: the row of the format, and the depth of world 0. Two writes.
pub fn write_empty<K: Keeper>(alloc: Global, keeper: &mut K) -> Result<(), TabError>
    requires running { (K.seen keeper.old).running ≡ true }
    requires empty { HaveNoRows (K.seen keeper.old).kept }
    ensures stored { OnOk result (Stores (K.seen keeper.new).kept empty_contents) }
    ensures writes { OnOk result (Rises 2 (K.seen keeper.old).writes (K.seen keeper.new).writes) }
    ensures write { IsWrite (K.seen keeper.old) (K.seen keeper.new) result TabError.Fault }
{
    match put::<MetaTab, K>(alloc, keeper, &(), &FORMAT) {
        Ok(()) => {}
        Err(error) => return Err(error),
    }
    match put::<DepthTab, K>(alloc, keeper, &0, &0) {
        Ok(()) => Ok(()),
        Err(error) => Err(error),
    }
}

/// Adds a relation, whose number is the next. Worlds and tuples keep their numbers. One write.
pub fn add_relation<K: Keeper>(
    alloc: Global,
    keeper: &mut K,
    rel: u32,
    def: &RelDef,
) -> Result<(), TabError>
    requires running { (K.seen keeper.old).running ≡ true }
    requires base { SomeMayAddRelation (K.seen keeper.old).kept rel def.now }
    ensures added { OnOk result
        (AddsRelation (K.seen keeper.old).kept (K.seen keeper.new).kept rel def.now) }
    ensures writes { OnOk result (RoseBy 1 (K.seen keeper.old).writes (K.seen keeper.new).writes) }
    ensures keeps { OnOk result (SameNumbers (K.seen keeper.old).kept (K.seen keeper.new).kept) }
    ensures write { IsWrite (K.seen keeper.old) (K.seen keeper.new) result TabError.Fault }
{
    match put::<RelTab, K>(alloc, keeper, &rel, def) {
        Ok(()) => Ok(()),
        Err(error) => Err(error),
    }
}
