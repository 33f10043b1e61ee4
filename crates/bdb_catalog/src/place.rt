// The place of a user who leaves.
ghost use Rattle.std.specs.Prelude.{◌≡◌, true, OnOk};
ghost use Rattle.bdb_catalog.specs.Place.{LosesUser, SomeMayLoseUser, WritesEmptied};
ghost use Rattle.bdb_update.specs.Keeping.{SameNumbers};
ghost use Rattle.bdb_val.specs.Steps.{IsChanging};

use bdb_base::UserSlot;
use bdb_keep::Keeper;
use bdb_tables::{TabError, UserTab, put};
use bdb_worlds::drop_user_edges;
use std::alloc::Global;

/// Takes away the name of a user whom no path of a world names, and the edge of each world for him. His place stays, and worlds
/// and tuples keep their numbers. A write for his name, two writes for each world, and two reads at most for each world, and one.
pub fn empty_place<K: Keeper>(alloc: Global, keeper: &mut K, uid: u32) -> Result<(), TabError>
    requires running { (K.seen keeper.old).running ≡ true }
    requires base { SomeMayLoseUser (K.seen keeper.old).kept uid }
    ensures lost { OnOk result (LosesUser (K.seen keeper.old).kept (K.seen keeper.new).kept uid) }
    ensures writes { OnOk result (WritesEmptied (K.seen keeper.old) (K.seen keeper.new) uid) }
    ensures keeps { OnOk result (SameNumbers (K.seen keeper.old).kept (K.seen keeper.new).kept) }
    ensures changing { IsChanging (K.seen keeper.old) (K.seen keeper.new) result TabError.Fault }
{
    match put::<UserTab, K>(alloc, keeper, &uid, &UserSlot::Gone) {
        Ok(()) => {}
        Err(error) => return Err(error),
    }
    match drop_user_edges(alloc, keeper, uid) {
        Ok(()) => Ok(()),
        Err(error) => Err(error),
    }
}
