// The worlds whose suffix links lead to one world.
ghost use Rattle.std.specs.Prelude.{◌≡◌, nat_eq, cond, IfOk, OnOk};
ghost use Rattle.bdb_keep.specs.Seen.{NeverFall, Steps};
ghost use Rattle.bdb_tables.specs.Grammar.{InGrammar};
ghost use Rattle.bdb_worlds.specs.Finds.{HasNextChild};

use bdb_keep::Keeper;
use bdb_tables::{Room, SuffixIx, TabError, next_in};
use std::alloc::Global;

/// The least world from `low` on whose suffix link leads to `wid`. One read, or none where `low` is beyond all numbers.
pub fn next_child<K: Keeper>(
    alloc: Global,
    keeper: &mut K,
    wid: u32,
    low: u64,
    room: &mut Room,
) -> Result<Option<u32>, TabError>
    requires grammar { InGrammar (K.seen keeper.old).kept }
    ensures child { IfOk result (HasNextChild (K.seen keeper.old).kept wid low) }
    ensures kept { OnOk result ((K.seen keeper.new).kept ≡ (K.seen keeper.old).kept) }
    ensures writes { (K.seen keeper.new).writes ≡ (K.seen keeper.old).writes }
    ensures counts { NeverFall (K.seen keeper.old) (K.seen keeper.new) }
    ensures steps { Steps (K.seen keeper.old) (K.seen keeper.new) result TabError.Fault }
{
    if low > u32::MAX as u64 {
        return Ok(None);
    }
    let key = (wid, low as u32);
    match next_in::<SuffixIx, K>(alloc, keeper, &key, room) {
        Ok(Some(entry)) => Ok(child_of(wid, entry.0)),
        Ok(None) => Ok(None),
        Err(error) => Err(error),
    }
}

/// The second number of a key, where the first one is this world.
fn child_of(wid: u32, key: (u32, u32)) -> Option<u32>
    ensures { result ≡ cond (nat_eq key.0 wid) (Some key.1) None }
{
    if key.0 == wid { Some(key.1) } else { None }
}
