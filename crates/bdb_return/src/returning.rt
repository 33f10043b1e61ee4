// A change taken back, and made again, all steps together.
ghost use Rattle.std.specs.Prelude.{◌≡◌, true, OnOk};
ghost use Rattle.bdb_return.specs.Returning.{BackThrough, ForthThrough, GoesBack, GoesForth, SomeMayGoBack, SomeMayGoForth};
ghost use Rattle.bdb_val.specs.Steps.{IsChanging};

use crate::naming::{name_back, name_forth};
use bdb_canon::Counts;
use bdb_keep::Keeper;
use bdb_tables::TabError;
use bdb_undo::Change;
use bdb_update::{add_statements, drop_statements};
use std::alloc::Global;

/// Takes a change back in the base that the tables store, whose sizes are `counts`: whichever base the change leads from to
/// the one stored, that one is stored afterwards. The statements that came go first, then the name that was added (or he who
/// left comes back), and then the statements that went come; so each base between is valid. For each statement there are no more
/// writes than `drop_statement` or `add_statement` makes for it, and for the name at most two for each world that is left and one.
pub fn take_back<K: Keeper>(
    alloc: Global,
    keeper: &mut K,
    counts: &mut Counts,
    change: &Change,
) -> Result<(), TabError>
    requires running { (K.seen keeper.old).running ≡ true }
    requires base { SomeMayGoBack (K.seen keeper.old).kept counts.old change.now }
    ensures back { OnOk result
        (GoesBack (K.seen keeper.old).kept
        (K.seen keeper.new).kept counts.old counts.new change.now) }
    ensures steps { OnOk result (BackThrough counts.old change.now (K.seen keeper.old)
        (K.seen keeper.new)) }
    ensures changing { IsChanging (K.seen keeper.old) (K.seen keeper.new) result TabError.Fault }
{
    match drop_statements(alloc, keeper, counts, change.come.as_slice()) {
        Ok(()) => {}
        Err(error) => return Err(error),
    }
    match name_back(alloc, keeper, &change.named) {
        Ok(()) => {}
        Err(error) => return Err(error),
    }
    match add_statements(alloc, keeper, counts, change.gone.as_slice()) {
        Ok(()) => Ok(()),
        Err(error) => Err(error),
    }
}

/// Makes a change again in the base that the tables store, whose sizes are `counts`: whichever base the change leads to from
/// the one stored, that one is stored afterwards. The statements that go are taken away first, then the name is added (or the
/// user leaves), and then the statements that come are added; so each base between is valid. For each statement there are no more
/// writes than `drop_statement` or `add_statement` makes for it, and for the name at most two for each world that is left and one.
pub fn make_again<K: Keeper>(
    alloc: Global,
    keeper: &mut K,
    counts: &mut Counts,
    change: &Change,
) -> Result<(), TabError>
    requires running { (K.seen keeper.old).running ≡ true }
    requires base { SomeMayGoForth (K.seen keeper.old).kept counts.old change.now }
    ensures forth { OnOk result
        (GoesForth (K.seen keeper.old).kept
        (K.seen keeper.new).kept counts.old counts.new change.now) }
    ensures steps { OnOk result (ForthThrough counts.old change.now (K.seen keeper.old)
        (K.seen keeper.new)) }
    ensures changing { IsChanging (K.seen keeper.old) (K.seen keeper.new) result TabError.Fault }
{
    match drop_statements(alloc, keeper, counts, change.gone.as_slice()) {
        Ok(()) => {}
        Err(error) => return Err(error),
    }
    match name_forth(alloc, keeper, &change.named) {
        Ok(()) => {}
        Err(error) => return Err(error),
    }
    match add_statements(alloc, keeper, counts, change.come.as_slice()) {
        Ok(()) => Ok(()),
        Err(error) => Err(error),
    }
}
