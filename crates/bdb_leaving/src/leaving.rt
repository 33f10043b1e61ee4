// A user leaves, all steps together.
ghost use Rattle.std.specs.Prelude.{◌≡◌, true, IfOk, OnErr, OnOk};
ghost use Rattle.bdb_leaving.specs.Leaving.{LeavesThrough, SomeMayDropUser, UserLeaves};
ghost use Rattle.bdb_update.specs.Keeping.{KeepsNumbers};
ghost use Rattle.bdb_val.specs.Steps.{IsChanging};

use crate::naming::statements_naming;
use bdb_base::{List, Stmt};
use bdb_canon::Counts;
use bdb_catalog::empty_place;
use bdb_keep::Keeper;
use bdb_tables::TabError;
use bdb_update::drop_statements;
use std::alloc::Global;

/// A user leaves the base that the tables store, whose sizes are `counts`: each statement whose path names him goes, with the
/// worlds, rows and numbers that nothing needs any more, then his edges, and his name. His place is left, and no other user
/// gets his number. It gives the statements that went, in order. Worlds and tuples that are left keep their numbers. The
/// paths of all worlds are read, and of the worlds whose paths name him the rows, as `statements_naming` tells; it doesn't
/// matter how many users there are. Each statement takes as many writes as `drop_statement` makes for it, each world that is
/// left two for the user's edge, and his name one.
/// After an error `counts` are as they were.
pub fn drop_user<K: Keeper>(
    alloc: Global,
    keeper: &mut K,
    counts: &mut Counts,
    uid: u32,
) -> Result<List<Stmt>, TabError>
    requires running { (K.seen keeper.old).running ≡ true }
    requires base { SomeMayDropUser (K.seen keeper.old).kept counts.old uid }
    ensures left { IfOk result
        (λ gone. UserLeaves (K.seen keeper.old).kept
        (K.seen keeper.new).kept counts.old counts.new uid gone) }
    ensures counts { OnErr result (counts.new ≡ counts.old) }
    ensures steps { OnOk result
        (LeavesThrough counts.old uid (K.seen keeper.old) (K.seen keeper.new)) }
    ensures keeps { OnOk result (KeepsNumbers (K.seen keeper.new).kept (K.seen keeper.old).kept) }
    ensures changing { IsChanging (K.seen keeper.old) (K.seen keeper.new) result TabError.Fault }
{
    let gone = match statements_naming(alloc, keeper, uid) {
        Ok(gone) => gone,
        Err(error) => return Err(error),
    };
    let mut left = *counts;
    match drop_statements(alloc, keeper, &mut left, gone.as_slice()) {
        Ok(()) => {}
        Err(error) => return Err(error),
    }
    match empty_place(alloc, keeper, uid) {
        Ok(()) => {
            *counts = left;
            Ok(gone)
        }
        Err(error) => Err(error),
    }
}
