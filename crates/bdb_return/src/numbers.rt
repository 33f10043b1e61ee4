// The numbers of the next user and of the next relation.
ghost use Rattle.std.specs.Prelude.{IfOk};
ghost use Rattle.bdb_keep.specs.Calls.{IsRead};
ghost use Rattle.bdb_return.specs.Numbers.{IsNextRelation, IsNextUser};

use bdb_keep::Keeper;
use bdb_tables::{RelTab, Tab, TabError, UserTab, first_gap};
use std::alloc::Global;

/// The number of the next user: the least one from 1 on that has no row. A read for each user, also for one who is gone, and one
/// more.
pub fn next_user<K: Keeper>(alloc: Global, keeper: &mut K) -> Result<u32, TabError>
    ensures next { IfOk result (IsNextUser (K.seen keeper.old).kept) }
    ensures read { IsRead (K.seen keeper.old) (K.seen keeper.new) result TabError.Fault }
{
    match first_gap(alloc, keeper, UserTab::NUMBER, 1) {
        Ok(uid) => Ok(uid),
        Err(error) => Err(error),
    }
}

/// The number of the next relation: the least one that has no row. A read for each relation, and one more.
pub fn next_relation<K: Keeper>(alloc: Global, keeper: &mut K) -> Result<u32, TabError>
    ensures next { IfOk result (IsNextRelation (K.seen keeper.old).kept) }
    ensures read { IsRead (K.seen keeper.old) (K.seen keeper.new) result TabError.Fault }
{
    match first_gap(alloc, keeper, RelTab::NUMBER, 0) {
        Ok(rel) => Ok(rel),
        Err(error) => Err(error),
    }
}
