// The state whose rows the world of a path has.
ghost use Rattle.std.specs.Prelude.{◌≡◌, ◌+◌, true, length, IfOk, OnOk};
ghost use Rattle.bdb_base.specs.Alternation.{alternates};
ghost use Rattle.bdb_keep.specs.Seen.{NeverFall, Steps};
ghost use Rattle.bdb_tables.specs.Grammar.{InGrammar};
ghost use Rattle.bdb_worlds.specs.Bounds.{EndsWithin};
ghost use Rattle.bdb_worlds.specs.Holding.{HoldSome};
ghost use Rattle.bdb_catalog.specs.Showing.{FindsState, PlainPathsInherit};

use bdb_keep::Keeper;
use bdb_tables::TabError;
use bdb_worlds::deepest_state;
use std::alloc::Global;

/// The number of the deepest state that a path ends in, and whether that is the path itself. A read for each user of the
/// path, and one more.
pub fn state_of<K: Keeper>(
    alloc: Global,
    keeper: &mut K,
    path: &[u32],
) -> Result<(u32, bool), TabError>
    requires grammar { InGrammar (K.seen keeper.old).kept }
    requires states { HoldSome (K.seen keeper.old).kept path.now }
    requires apart { alternates path.now ≡ true }
    ensures found { IfOk result (FindsState (K.seen keeper.old).kept path.now) }
    ensures reads { OnOk result (EndsWithin (length path.now + 1) (K.seen keeper.old).reads
        (K.seen keeper.new).reads) }
    ensures kept { OnOk result ((K.seen keeper.new).kept ≡ (K.seen keeper.old).kept) }
    ensures writes { (K.seen keeper.new).writes ≡ (K.seen keeper.old).writes }
    ensures counts { NeverFall (K.seen keeper.old) (K.seen keeper.new) }
    ensures steps { Steps (K.seen keeper.old) (K.seen keeper.new) result TabError.Fault }
{
    match deepest_state(alloc, keeper, path) {
        Ok((wid, depth)) => Ok((wid, depth as usize == path.len())),
        Err(error) => Err(error),
    }
}

/// A path that is no state has the rows of the deepest state that it ends in, none of them explicit.
pub fn plain_paths_inherit()
    ensures { PlainPathsInherit }
{}
