// The row of a user changes, and the edges for him: his place goes, he comes back to it, or he leaves it.
ghost use Rattle.std.specs.Prelude.{◌≡◌, true, OnOk};
ghost use Rattle.bdb_return.specs.Naming.{Leaves, LosesLastUser, LosesName, SomeMayLeave, SomeMayLoseName, SomeUserIsLast, WritesLastUser, WritesLeave, WritesLoss};
ghost use Rattle.bdb_return.specs.Numbers.{StoreAny};
ghost use Rattle.bdb_return.specs.Places.{LosesPlace, PlaceKeeps, WritesReturned};
ghost use Rattle.bdb_undo.specs.declared.change.Named.TheVariants.{UserDropped};
ghost use Rattle.bdb_update.specs.Keeping.{SameNumbers};
ghost use Rattle.bdb_val.specs.Steps.{IsChanging};

use crate::numbers::next_user;
use bdb_base::Txt;
use bdb_catalog::{empty_place, put_live};
use bdb_keep::Keeper;
use bdb_tables::{TabError, UserTab, drop_row};
use bdb_worlds::{add_user_edges, drop_user_edges};
use std::alloc::Global;

/// Takes away the user who was added last, with his place, so that the next one gets his number: his row, and the edge of each
/// world for him. A write for his row, two writes for each world, a read for each user, and reads as `drop_user_edges` makes.
pub fn drop_last_user<K: Keeper>(alloc: Global, keeper: &mut K) -> Result<(), TabError>
    requires running { (K.seen keeper.old).running ≡ true }
    requires base { SomeUserIsLast (K.seen keeper.old).kept }
    ensures lost { OnOk result (LosesLastUser (K.seen keeper.old).kept (K.seen keeper.new).kept) }
    ensures writes { OnOk result (WritesLastUser (K.seen keeper.old) (K.seen keeper.new)) }
    ensures keeps { OnOk result (SameNumbers (K.seen keeper.old).kept (K.seen keeper.new).kept) }
    ensures changing { IsChanging (K.seen keeper.old) (K.seen keeper.new) result TabError.Fault }
{
    let next = match next_user(alloc, keeper) {
        Ok(next) => next,
        Err(error) => return Err(error),
    };
    match drop_place(alloc, keeper, next - 1) {
        Ok(()) => Ok(()),
        Err(error) => Err(error),
    }
}

// Takes away the place of the user of a number, who was added last.
fn drop_place<K: Keeper>(alloc: Global, keeper: &mut K, last: u32) -> Result<(), TabError>
    requires running { (K.seen keeper.old).running ≡ true }
    requires base { StoreAny (K.seen keeper.old).kept }
    ensures lost { OnOk result (LosesPlace (K.seen keeper.old).kept (K.seen keeper.new).kept last) }
    ensures writes { OnOk result (WritesReturned (K.seen keeper.old) (K.seen keeper.new) last) }
    ensures keeps { OnOk result
        (PlaceKeeps (K.seen keeper.old).kept (K.seen keeper.new).kept last) }
    ensures changing { IsChanging (K.seen keeper.old) (K.seen keeper.new) result TabError.Fault }
{
    match drop_row::<UserTab, K>(alloc, keeper, &last) {
        Ok(_) => {}
        Err(error) => return Err(error),
    }
    match drop_user_edges(alloc, keeper, last) {
        Ok(()) => Ok(()),
        Err(error) => Err(error),
    }
}

/// Lets a user who is gone come back to his place, by his number and name: his name is written there, and an edge from each
/// world to the empty path. A write for his name, two writes for each world, and reads as `add_user_edges` makes.
pub fn revive_user<K: Keeper>(
    alloc: Global,
    keeper: &mut K,
    uid: u32,
    name: &Txt,
) -> Result<(), TabError>
    requires running { (K.seen keeper.old).running ≡ true }
    requires base { SomeMayLoseName (K.seen keeper.old).kept (UserDropped uid name.now) }
    ensures back { OnOk result (LosesName (K.seen keeper.old).kept (K.seen keeper.new).kept
        (UserDropped uid name.now)) }
    ensures writes { OnOk result
        (WritesLoss (K.seen keeper.old) (K.seen keeper.new) (UserDropped uid name.now)) }
    ensures keeps { OnOk result (SameNumbers (K.seen keeper.old).kept (K.seen keeper.new).kept) }
    ensures changing { IsChanging (K.seen keeper.old) (K.seen keeper.new) result TabError.Fault }
{
    match put_live(alloc, keeper, uid, name) {
        Ok(()) => {}
        Err(error) => return Err(error),
    }
    match add_user_edges(alloc, keeper, uid) {
        Ok(()) => Ok(()),
        Err(error) => Err(error),
    }
}

/// Lets a user leave whose statements are gone: the row of his place tells that he is gone, and the edge of each world for him
/// goes. A write for his row, two writes for each world, and reads as `empty_place` makes.
pub fn leave_place<K: Keeper>(alloc: Global, keeper: &mut K, uid: u32) -> Result<(), TabError>
    requires running { (K.seen keeper.old).running ≡ true }
    requires base { SomeMayLeave (K.seen keeper.old).kept uid }
    ensures left { OnOk result (Leaves (K.seen keeper.old).kept (K.seen keeper.new).kept uid) }
    ensures writes { OnOk result (WritesLeave (K.seen keeper.old) (K.seen keeper.new) uid) }
    ensures keeps { OnOk result (SameNumbers (K.seen keeper.old).kept (K.seen keeper.new).kept) }
    ensures changing { IsChanging (K.seen keeper.old) (K.seen keeper.new) result TabError.Fault }
{
    match empty_place(alloc, keeper, uid) {
        Ok(()) => Ok(()),
        Err(error) => Err(error),
    }
}
