// The least number that no world has.
ghost use Rattle.std.specs.Prelude.{◌≡◌, IfOk, OnOk};
ghost use Rattle.bdb_keep.specs.Seen.{NeverFall, Steps};
ghost use Rattle.bdb_tables.specs.Grammar.{InGrammar};
ghost use Rattle.bdb_worlds.specs.Free.{FindsFree};

use bdb_keep::Keeper;
use bdb_tables::{DepthTab, Tab, TabError, first_gap, next};
use std::alloc::Global;

/// The least number not in use, where `worlds` numbers are and all below `low` are. Where there are no gaps one read
/// finds it; else numbers are tried from `low` on, and no row of theirs is decoded.
pub fn free_number<K: Keeper>(
    alloc: Global,
    keeper: &mut K,
    worlds: u32,
    low: u32,
) -> Result<u32, TabError>
    requires grammar { InGrammar (K.seen keeper.old).kept }
    ensures number { IfOk result (FindsFree (K.seen keeper.old).kept worlds low) }
    ensures kept { OnOk result ((K.seen keeper.new).kept ≡ (K.seen keeper.old).kept) }
    ensures writes { (K.seen keeper.new).writes ≡ (K.seen keeper.old).writes }
    ensures counts { NeverFall (K.seen keeper.old) (K.seen keeper.new) }
    ensures steps { Steps (K.seen keeper.old) (K.seen keeper.new) result TabError.Fault }
{
    match next::<DepthTab, K>(alloc, keeper, &worlds) {
        Ok(Some(_)) => {}
        Ok(None) => return Ok(worlds),
        Err(error) => return Err(error),
    }
    match first_gap(alloc, keeper, DepthTab::NUMBER, low) {
        Ok(number) => Ok(number),
        Err(error) => Err(error),
    }
}
