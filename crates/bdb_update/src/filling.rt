// Rows for worlds that have come.
ghost use Rattle.std.specs.Prelude.{◌≡◌, ◌+◌, true, nat_eq, Some, IfOk, OnOk};
ghost use Rattle.bdb_base.specs.Causes.{Rises};
ghost use Rattle.bdb_keep.specs.Calls.{IsRead};
ghost use Rattle.bdb_tables.specs.Codec.{HasAt};
ghost use Rattle.bdb_tables.specs.Grammar.{InGrammar};
ghost use Rattle.bdb_tables.specs.InUse.{link_codec};
ghost use Rattle.bdb_update.specs.Filling.{CountsCome, FillsWorlds, HasSomeLink, IsWorldFilled, SomeHaveCome};
ghost use Rattle.bdb_val.specs.Reads.{HaveTuples};
ghost use Rattle.bdb_val.specs.Others.{SamePlacesBut};
ghost use Rattle.bdb_val.specs.Steps.{IsChanging, counted};
ghost use Rattle.bdb_val.specs.WorldCopies.{TellsCopy};

use bdb_keep::Keeper;
use bdb_tables::{SuffixTab, TabError, get};
use bdb_val::copy_world;
use std::alloc::Global;

/// Gives worlds that have come along a path, shortest first, the rows that they inherit. It tells how many rows that makes,
/// each by one write.
pub fn fill_worlds<K: Keeper>(
    alloc: Global,
    keeper: &mut K,
    wids: &[u32],
) -> Result<usize, TabError>
    requires running { (K.seen keeper.old).running ≡ true }
    requires grammar { InGrammar (K.seen keeper.old).kept }
    requires tuples { HaveTuples (K.seen keeper.old).kept }
    requires come { SomeHaveCome (K.seen keeper.old).kept wids.now }
    ensures filled { OnOk result
        (FillsWorlds (K.seen keeper.old).kept (K.seen keeper.new).kept wids.now) }
    ensures counted { IfOk result
        (CountsCome (K.seen keeper.old).kept (K.seen keeper.new).kept wids.now) }
    ensures others { OnOk result
        (SamePlacesBut (λ n. nat_eq n 11) (K.seen keeper.old).kept (K.seen keeper.new).kept) }
    ensures writes { IfOk result
        (λ n. Rises n (K.seen keeper.old).writes (K.seen keeper.new).writes) }
    ensures grammar { OnOk result (InGrammar (K.seen keeper.new).kept) }
    ensures tuples { OnOk result (HaveTuples (K.seen keeper.new).kept) }
    ensures changing { IsChanging (K.seen keeper.old) (K.seen keeper.new) result TabError.Fault }
{
    let mut count: usize = 0;
    for wid in wids {
        match fill_world(alloc, keeper, *wid) {
            Ok(rows) => count = both(count, rows),
            Err(error) => return Err(error),
        }
    }
    Ok(count)
}

// Two counts together.
pub fn both(first: usize, second: usize) -> usize
    ensures { result ≡ counted (first + second) }
{
    first.saturating_add(second)
}

// Gives a world without rows those of the world to which its suffix link leads, as inherited ones.
fn fill_world<K: Keeper>(alloc: Global, keeper: &mut K, wid: u32) -> Result<usize, TabError>
    requires running { (K.seen keeper.old).running ≡ true }
    requires grammar { InGrammar (K.seen keeper.old).kept }
    requires tuples { HaveTuples (K.seen keeper.old).kept }
    requires linked { HasSomeLink (K.seen keeper.old).kept wid }
    ensures filled { OnOk result (IsWorldFilled (K.seen keeper.old).kept (K.seen keeper.new).kept wid) }
    ensures tells { IfOk result (TellsCopy (K.seen keeper.old) (K.seen keeper.new) wid) }
    ensures others { OnOk result
        (SamePlacesBut (λ n. nat_eq n 11) (K.seen keeper.old).kept (K.seen keeper.new).kept) }
    ensures writes { IfOk result
        (λ n. Rises n (K.seen keeper.old).writes (K.seen keeper.new).writes) }
    ensures grammar { OnOk result (InGrammar (K.seen keeper.new).kept) }
    ensures tuples { OnOk result (HaveTuples (K.seen keeper.new).kept) }
    ensures changing { IsChanging (K.seen keeper.old) (K.seen keeper.new) result TabError.Fault }
{
    let link = match linked_to(alloc, keeper, wid) {
        Ok(link) => link,
        Err(error) => return Err(error),
    };
    match copy_world(alloc, keeper, link, wid) {
        Ok(count) => Ok(count),
        Err(error) => Err(error),
    }
}

// The world to which the suffix link of a world leads.
fn linked_to<K: Keeper>(alloc: Global, keeper: &mut K, wid: u32) -> Result<u32, TabError>
    requires grammar { InGrammar (K.seen keeper.old).kept }
    requires linked { HasSomeLink (K.seen keeper.old).kept wid }
    ensures link { IfOk result (λ link. HasAt link_codec (K.seen keeper.old).kept wid (Some link)) }
    ensures read { IsRead (K.seen keeper.old) (K.seen keeper.new) result TabError.Fault }
{
    match get::<SuffixTab, K>(alloc, keeper, &wid) {
        Ok(Some(link)) => Ok(link),
        Ok(None) => unreachable!(),
        Err(error) => Err(error),
    }
}
