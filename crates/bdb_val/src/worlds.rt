// Rows of whole worlds: copied to another world, or taken away.
ghost use Rattle.std.specs.Prelude.{◌≡◌, nat_eq, true, IfOk, OnOk};
ghost use Rattle.bdb_base.specs.Causes.{Rises};
ghost use Rattle.bdb_tables.specs.Grammar.{InGrammar};
ghost use Rattle.bdb_val.specs.Counts.{TellsDifferences};
ghost use Rattle.bdb_val.specs.Others.{SamePlacesBut};
ghost use Rattle.bdb_val.specs.Reads.{HaveTuples};
ghost use Rattle.bdb_val.specs.Steps.{IsChanging};
ghost use Rattle.bdb_val.specs.WorldCopies.{CopiesWorld, ClearsWorld, TellsCopy, IsRowCount};

use bdb_keep::Keeper;
use bdb_tables::{TabError, clear_rows, copy_rows};
use std::alloc::Global;

/// Copies the rows of a world to another one, where they are inherited. It gives their number, and makes as many writes.
pub fn copy_world<K: Keeper>(
    alloc: Global,
    keeper: &mut K,
    from: u32,
    to: u32,
) -> Result<usize, TabError>
    requires running { (K.seen keeper.old).running ≡ true }
    requires grammar { InGrammar (K.seen keeper.old).kept }
    requires tuples { HaveTuples (K.seen keeper.old).kept }
    ensures copied { OnOk result
        (CopiesWorld (K.seen keeper.old).kept (K.seen keeper.new).kept from to) }
    ensures others { OnOk result
        (SamePlacesBut (λ n. nat_eq n 11) (K.seen keeper.old).kept (K.seen keeper.new).kept) }
    ensures counted { IfOk result (IsRowCount (K.seen keeper.old).kept from) }
    ensures writes { IfOk result
        (λ n. Rises n (K.seen keeper.old).writes (K.seen keeper.new).writes) }
    ensures tells { IfOk result (TellsCopy (K.seen keeper.old) (K.seen keeper.new) to) }
    ensures grammar { OnOk result (InGrammar (K.seen keeper.new).kept) }
    ensures tuples { OnOk result (HaveTuples (K.seen keeper.new).kept) }
    ensures changing { IsChanging (K.seen keeper.old) (K.seen keeper.new) result TabError.Fault }
{
    match copy_rows(alloc, keeper, from, to) {
        Ok(many) => Ok(many),
        Err(error) => Err(error),
    }
}

/// Takes all rows of a world away. It gives their number, and makes as many writes.
pub fn clear_world<K: Keeper>(alloc: Global, keeper: &mut K, wid: u32) -> Result<usize, TabError>
    requires running { (K.seen keeper.old).running ≡ true }
    requires grammar { InGrammar (K.seen keeper.old).kept }
    requires tuples { HaveTuples (K.seen keeper.old).kept }
    ensures cleared { OnOk result
        (ClearsWorld (K.seen keeper.old).kept (K.seen keeper.new).kept wid) }
    ensures others { OnOk result
        (SamePlacesBut (λ n. nat_eq n 11) (K.seen keeper.old).kept (K.seen keeper.new).kept) }
    ensures counted { IfOk result (IsRowCount (K.seen keeper.old).kept wid) }
    ensures writes { IfOk result
        (λ n. Rises n (K.seen keeper.old).writes (K.seen keeper.new).writes) }
    ensures tells { IfOk result (TellsDifferences (K.seen keeper.old) (K.seen keeper.new) 0) }
    ensures grammar { OnOk result (InGrammar (K.seen keeper.new).kept) }
    ensures tuples { OnOk result (HaveTuples (K.seen keeper.new).kept) }
    ensures changing { IsChanging (K.seen keeper.old) (K.seen keeper.new) result TabError.Fault }
{
    match clear_rows(alloc, keeper, wid) {
        Ok(many) => Ok(many),
        Err(error) => Err(error),
    }
}
