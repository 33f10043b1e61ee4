// Reading what tables tell when they are opened.
ghost use Rattle.std.specs.Prelude.{◌≡◌, IfOk, OnOk};
ghost use Rattle.bdb_keep.specs.Seen.{NeverFall, Steps};
ghost use Rattle.bdb_catalog.specs.Bases.{StoresSome};
ghost use Rattle.bdb_catalog.specs.Opening.{IsPartOf};

use bdb_base::{List, RelDef, UserSlot};
use bdb_keep::Keeper;
use bdb_tables::{TabError, UserTab, get};
use bdb_update::stored_relations;
use std::alloc::Global;

/// The places of the users, by number from 1.
pub fn read_users<K: Keeper>(alloc: Global, keeper: &mut K) -> Result<List<UserSlot>, TabError>
    requires base { StoresSome (K.seen keeper.old).kept }
    ensures users { IfOk result (IsPartOf (λ b. b.catalog.users) (K.seen keeper.old).kept) }
    ensures kept { OnOk result ((K.seen keeper.new).kept ≡ (K.seen keeper.old).kept) }
    ensures writes { (K.seen keeper.new).writes ≡ (K.seen keeper.old).writes }
    ensures counts { NeverFall (K.seen keeper.old) (K.seen keeper.new) }
    ensures steps { Steps (K.seen keeper.old) (K.seen keeper.new) result TabError.Fault }
{
    let mut users = List::new(alloc);
    for number in 0..u32::MAX {
        let uid = number + 1;
        match get::<UserTab, K>(alloc, keeper, &uid) {
            Ok(Some(slot)) => {
                if users.push(slot).is_err() {
                    keeper.undo();
                    return Err(TabError::Memory);
                }
            }
            Ok(None) => return Ok(users),
            Err(error) => return Err(error),
        }
    }
    keeper.undo();
    Err(TabError::Memory)
}

/// The relations, by number from 0.
pub fn read_relations<K: Keeper>(alloc: Global, keeper: &mut K) -> Result<List<RelDef>, TabError>
    requires base { StoresSome (K.seen keeper.old).kept }
    ensures relations { IfOk result (IsPartOf (λ b. b.catalog.rels) (K.seen keeper.old).kept) }
    ensures kept { OnOk result ((K.seen keeper.new).kept ≡ (K.seen keeper.old).kept) }
    ensures writes { (K.seen keeper.new).writes ≡ (K.seen keeper.old).writes }
    ensures counts { NeverFall (K.seen keeper.old) (K.seen keeper.new) }
    ensures steps { Steps (K.seen keeper.old) (K.seen keeper.new) result TabError.Fault }
{
    match stored_relations(alloc, keeper) {
        Ok(rels) => Ok(rels),
        Err(error) => Err(error),
    }
}
