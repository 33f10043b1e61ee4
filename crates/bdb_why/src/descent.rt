// The way down a path, from one state among its ends to the next.
ghost use Rattle.std.specs.Prelude.{◌+◌, ◌≤◌, IfOk, OnOk};
ghost use Rattle.bdb_keep.specs.Calls.{IsRead};
ghost use Rattle.bdb_tables.specs.Grammar.{InGrammar};
ghost use Rattle.bdb_why.specs.Reading.{LinksTo, SomeHaveLink, SomeHaveState, StandsForDepth};

use bdb_keep::Keeper;
use bdb_tables::{DepthTab, SuffixTab, TabError, get};
use std::alloc::Global;

/// The world to which the suffix link of a world leads, and how many users its path has. Two reads.
pub fn next_end<K: Keeper>(alloc: Global, keeper: &mut K, wid: u32) -> Result<(u32, u32), TabError>
    requires grammar { InGrammar (K.seen keeper.old).kept }
    requires linked { SomeHaveLink (K.seen keeper.old).kept wid }
    ensures at { IfOk result (LinksTo (K.seen keeper.old).kept wid) }
    ensures reads { OnOk result ((K.seen keeper.new).reads ≤ (K.seen keeper.old).reads + 2) }
    ensures read { IsRead (K.seen keeper.old) (K.seen keeper.new) result TabError.Fault }
{
    let next = match get::<SuffixTab, K>(alloc, keeper, &wid) {
        Ok(Some(next)) => next,
        Ok(None) => unreachable!(),
        Err(error) => return Err(error),
    };
    match depth_of(alloc, keeper, next) {
        Ok(depth) => Ok((next, depth)),
        Err(error) => Err(error),
    }
}

/// How many users the path of a world has. One read.
fn depth_of<K: Keeper>(alloc: Global, keeper: &mut K, wid: u32) -> Result<u32, TabError>
    requires grammar { InGrammar (K.seen keeper.old).kept }
    requires state { SomeHaveState (K.seen keeper.old).kept wid }
    ensures depth { IfOk result (StandsForDepth (K.seen keeper.old).kept wid) }
    ensures reads { OnOk result ((K.seen keeper.new).reads ≤ (K.seen keeper.old).reads + 1) }
    ensures read { IsRead (K.seen keeper.old) (K.seen keeper.new) result TabError.Fault }
{
    match get::<DepthTab, K>(alloc, keeper, &wid) {
        Ok(Some(depth)) => Ok(depth),
        Ok(None) => unreachable!(),
        Err(error) => Err(error),
    }
}
