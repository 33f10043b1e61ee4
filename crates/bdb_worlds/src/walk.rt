// The world of a path.
ghost use Rattle.std.specs.Prelude.{◌≡◌, ◌+◌, true, IfOk, OnOk, length};
ghost use Rattle.bdb_base.specs.Alternation.{alternates};
ghost use Rattle.bdb_base.specs.Causes.{Rises};
ghost use Rattle.bdb_keep.specs.Seen.{NeverFall, Steps};
ghost use Rattle.bdb_tables.specs.Grammar.{InGrammar};
ghost use Rattle.bdb_worlds.specs.Bounds.{EndsWithin};
ghost use Rattle.bdb_worlds.specs.Holding.{EndsAt, HoldSome, StandsFor};

use bdb_keep::Keeper;
use bdb_tables::{DepthTab, EdgeTab, TabError, get};
use std::alloc::Global;

/// The number of the deepest state that a path ends in: the path has this world. The walk takes one edge for each user.
pub fn resolve<K: Keeper>(alloc: Global, keeper: &mut K, path: &[u32]) -> Result<u32, TabError>
    requires grammar { InGrammar (K.seen keeper.old).kept }
    requires states { HoldSome (K.seen keeper.old).kept path.now }
    requires apart { alternates path.now ≡ true }
    ensures found { IfOk result (StandsFor (K.seen keeper.old).kept path.now) }
    ensures kept { OnOk result ((K.seen keeper.new).kept ≡ (K.seen keeper.old).kept) }
    ensures reads { OnOk result
        (Rises (length path.now) (K.seen keeper.old).reads (K.seen keeper.new).reads) }
    ensures writes { (K.seen keeper.new).writes ≡ (K.seen keeper.old).writes }
    ensures counts { NeverFall (K.seen keeper.old) (K.seen keeper.new) }
    ensures steps { Steps (K.seen keeper.old) (K.seen keeper.new) result TabError.Fault }
{
    let mut wid = 0;
    for uid in path {
        let key = (wid, *uid);
        match get::<EdgeTab, K>(alloc, keeper, &key) {
            Ok(Some(target)) => wid = target,
            Ok(None) => unreachable!(),
            Err(error) => return Err(error),
        }
    }
    Ok(wid)
}

/// The number of the deepest state that a path ends in, and how many users it has. A read for each user of the path, and
/// one more.
pub fn deepest_state<K: Keeper>(
    alloc: Global,
    keeper: &mut K,
    path: &[u32],
) -> Result<(u32, u32), TabError>
    requires grammar { InGrammar (K.seen keeper.old).kept }
    requires states { HoldSome (K.seen keeper.old).kept path.now }
    requires apart { alternates path.now ≡ true }
    ensures at { IfOk result (EndsAt (K.seen keeper.old).kept path.now path.now) }
    ensures reads { OnOk result (EndsWithin (length path.now + 1) (K.seen keeper.old).reads
        (K.seen keeper.new).reads) }
    ensures kept { OnOk result ((K.seen keeper.new).kept ≡ (K.seen keeper.old).kept) }
    ensures writes { (K.seen keeper.new).writes ≡ (K.seen keeper.old).writes }
    ensures counts { NeverFall (K.seen keeper.old) (K.seen keeper.new) }
    ensures steps { Steps (K.seen keeper.old) (K.seen keeper.new) result TabError.Fault }
{
    let wid = match resolve(alloc, keeper, path) {
        Ok(wid) => wid,
        Err(error) => return Err(error),
    };
    match get::<DepthTab, K>(alloc, keeper, &wid) {
        Ok(Some(depth)) => Ok((wid, depth)),
        Ok(None) => unreachable!(),
        Err(error) => Err(error),
    }
}
