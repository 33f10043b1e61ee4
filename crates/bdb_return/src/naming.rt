// What a change named goes, or comes.
ghost use Rattle.std.specs.Prelude.{◌≡◌, true, OnOk};
ghost use Rattle.bdb_return.specs.Naming.{GetsName, LosesLastRelation, LosesName, SomeMayGetName, SomeMayLoseName, SomeRelationIsLast, WritesGain, WritesLastRelation, WritesLoss};
ghost use Rattle.bdb_undo.specs.declared.change.Named.TheVariants.{RelationAdded, UserAdded};
ghost use Rattle.bdb_update.specs.Keeping.{SameNumbers};
ghost use Rattle.bdb_val.specs.Steps.{IsChanging};

use crate::numbers::{next_relation, next_user};
use crate::places::{drop_last_user, leave_place, revive_user};
use bdb_base::{RelDef, Txt};
use bdb_catalog::{add_relation, add_user};
use bdb_keep::Keeper;
use bdb_tables::{RelTab, TabError, drop_row};
use bdb_undo::Named;
use std::alloc::Global;

/// Takes away the user or the relation that a change added last, or lets the user who left come back. The statements are those
/// that stand before the change and after it. Worlds and tuples keep their numbers.
pub fn name_back<K: Keeper>(alloc: Global, keeper: &mut K, named: &Named) -> Result<(), TabError>
    requires running { (K.seen keeper.old).running ≡ true }
    requires base { SomeMayLoseName (K.seen keeper.old).kept named.now }
    ensures back { OnOk result
        (LosesName (K.seen keeper.old).kept (K.seen keeper.new).kept named.now) }
    ensures writes { OnOk result (WritesLoss (K.seen keeper.old) (K.seen keeper.new) named.now) }
    ensures keeps { OnOk result (SameNumbers (K.seen keeper.old).kept (K.seen keeper.new).kept) }
    ensures changing { IsChanging (K.seen keeper.old) (K.seen keeper.new) result TabError.Fault }
{
    match named {
        Named::Nothing => Ok(()),
        Named::UserAdded { name: _ } => match drop_last_user(alloc, keeper) {
            Ok(()) => Ok(()),
            Err(error) => Err(error),
        },
        Named::RelationAdded { def: _ } => match drop_last_relation(alloc, keeper) {
            Ok(()) => Ok(()),
            Err(error) => Err(error),
        },
        Named::UserDropped { uid, name } => match revive_user(alloc, keeper, *uid, name) {
            Ok(()) => Ok(()),
            Err(error) => Err(error),
        },
    }
}

/// Adds the user or the relation that a change added, or lets the user leave who left. The statements are those that stand
/// before the change and after it. Worlds and tuples keep their numbers.
pub fn name_forth<K: Keeper>(alloc: Global, keeper: &mut K, named: &Named) -> Result<(), TabError>
    requires running { (K.seen keeper.old).running ≡ true }
    requires base { SomeMayGetName (K.seen keeper.old).kept named.now }
    ensures forth { OnOk result
        (GetsName (K.seen keeper.old).kept (K.seen keeper.new).kept named.now) }
    ensures writes { OnOk result (WritesGain (K.seen keeper.old) (K.seen keeper.new) named.now) }
    ensures keeps { OnOk result (SameNumbers (K.seen keeper.old).kept (K.seen keeper.new).kept) }
    ensures changing { IsChanging (K.seen keeper.old) (K.seen keeper.new) result TabError.Fault }
{
    match named {
        Named::Nothing => Ok(()),
        Named::UserAdded { name } => match add_last_user(alloc, keeper, name) {
            Ok(()) => Ok(()),
            Err(error) => Err(error),
        },
        Named::RelationAdded { def } => match add_last_relation(alloc, keeper, def) {
            Ok(()) => Ok(()),
            Err(error) => Err(error),
        },
        Named::UserDropped { uid, name: _ } => match leave_place(alloc, keeper, *uid) {
            Ok(()) => Ok(()),
            Err(error) => Err(error),
        },
    }
}

// Adds a user, whose number is the next.
fn add_last_user<K: Keeper>(alloc: Global, keeper: &mut K, name: &Txt) -> Result<(), TabError>
    requires running { (K.seen keeper.old).running ≡ true }
    requires base { SomeMayGetName (K.seen keeper.old).kept (UserAdded name.now) }
    ensures added { OnOk result (GetsName (K.seen keeper.old).kept (K.seen keeper.new).kept
        (UserAdded name.now)) }
    ensures writes { OnOk result
        (WritesGain (K.seen keeper.old) (K.seen keeper.new) (UserAdded name.now)) }
    ensures keeps { OnOk result (SameNumbers (K.seen keeper.old).kept (K.seen keeper.new).kept) }
    ensures changing { IsChanging (K.seen keeper.old) (K.seen keeper.new) result TabError.Fault }
{
    let uid = match next_user(alloc, keeper) {
        Ok(uid) => uid,
        Err(error) => return Err(error),
    };
    match add_user(alloc, keeper, uid, name) {
        Ok(()) => Ok(()),
        Err(error) => Err(error),
    }
}

// Adds a relation, whose number is the next.
fn add_last_relation<K: Keeper>(alloc: Global, keeper: &mut K, def: &RelDef) -> Result<(), TabError>
    requires running { (K.seen keeper.old).running ≡ true }
    requires base { SomeMayGetName (K.seen keeper.old).kept (RelationAdded def.now) }
    ensures added { OnOk result (GetsName (K.seen keeper.old).kept (K.seen keeper.new).kept
        (RelationAdded def.now)) }
    ensures writes { OnOk result
        (WritesGain (K.seen keeper.old) (K.seen keeper.new) (RelationAdded def.now)) }
    ensures keeps { OnOk result (SameNumbers (K.seen keeper.old).kept (K.seen keeper.new).kept) }
    ensures changing { IsChanging (K.seen keeper.old) (K.seen keeper.new) result TabError.Fault }
{
    let rel = match next_relation(alloc, keeper) {
        Ok(rel) => rel,
        Err(error) => return Err(error),
    };
    match add_relation(alloc, keeper, rel, def) {
        Ok(()) => Ok(()),
        Err(error) => Err(error),
    }
}

// Takes away the relation that was added last, of which there is no statement: its row.
fn drop_last_relation<K: Keeper>(alloc: Global, keeper: &mut K) -> Result<(), TabError>
    requires running { (K.seen keeper.old).running ≡ true }
    requires base { SomeRelationIsLast (K.seen keeper.old).kept }
    ensures lost { OnOk result
        (LosesLastRelation (K.seen keeper.old).kept (K.seen keeper.new).kept) }
    ensures writes { OnOk result (WritesLastRelation (K.seen keeper.old) (K.seen keeper.new)) }
    ensures keeps { OnOk result (SameNumbers (K.seen keeper.old).kept (K.seen keeper.new).kept) }
    ensures changing { IsChanging (K.seen keeper.old) (K.seen keeper.new) result TabError.Fault }
{
    let next = match next_relation(alloc, keeper) {
        Ok(next) => next,
        Err(error) => return Err(error),
    };
    match drop_row::<RelTab, K>(alloc, keeper, &(next - 1)) {
        Ok(_) => Ok(()),
        Err(error) => Err(error),
    }
}
