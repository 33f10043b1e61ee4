// Whether tables are in the grammar.
ghost use Rattle.std.specs.Prelude.{◌≡◌, ◌≤◌, IfOk};
ghost use Rattle.std.specs.Bool.{MatchBool};
ghost use Rattle.bdb_keep.specs.Calls.{IsRead};
ghost use Rattle.bdb_tables.specs.Grammar.{InGrammar};
ghost use Rattle.bdb_tables.specs.Reading.{OnlyReads};
ghost use Rattle.bdb_keep.specs.Tables.{LieInTables};
ghost use Rattle.bdb_entries.specs.Reading.{AreEntries};

use crate::bare::is_bare;
use crate::reading::fits;
use bdb_keep::Keeper;
use bdb_tables::{
    DepthTab, EdgeIx, EdgeTab, MetaTab, PlainTab, RelTab, SuffixIx, SuffixTab, TABLES, Tab,
    TabError, TupleIx, TupleTab, UserTab, ValTab,
};
use std::alloc::Global;

/// Whether every key and row is in the grammar of its table. One read for each row, and one for each table.
pub fn is_in_grammar<K: Keeper>(alloc: Global, keeper: &mut K) -> Result<bool, TabError>
    requires tables { LieInTables (K.seen keeper.old).kept }
    ensures grammar { IfOk result
        (λ in_grammar. MatchBool in_grammar (InGrammar (K.seen keeper.old).kept)
        (InGrammar (K.seen keeper.old).kept → ⊥)) }
    ensures reading { OnlyReads (K.seen keeper.old) (K.seen keeper.new) result TabError.Fault }
{
    for before in 0..TABLES {
        match are_entries(alloc, keeper, before + 1) {
            Ok(true) => {}
            Ok(false) => return Ok(false),
            Err(error) => return Err(error),
        }
    }
    Ok(true)
}

// Whether every key and row of a table is in its grammar.
fn are_entries<K: Keeper>(alloc: Global, keeper: &mut K, tab: u8) -> Result<bool, TabError>
    requires table { (1 ≤ tab) × (tab ≤ 15) }
    ensures entries { IfOk result (λ fit. MatchBool fit (AreEntries (K.seen keeper.old).kept tab)
        (AreEntries (K.seen keeper.old).kept tab → ⊥)) }
    ensures read { IsRead (K.seen keeper.old) (K.seen keeper.new) result TabError.Fault }
{
    match tab {
        1 => table_fits::<MetaTab, K>(alloc, keeper, tab),
        2 => table_fits::<UserTab, K>(alloc, keeper, tab),
        3 => table_fits::<RelTab, K>(alloc, keeper, tab),
        4 => table_fits::<TupleTab, K>(alloc, keeper, tab),
        5 => table_fits::<TupleIx, K>(alloc, keeper, tab),
        6 => table_fits::<DepthTab, K>(alloc, keeper, tab),
        7 => table_fits::<SuffixTab, K>(alloc, keeper, tab),
        8 => table_fits::<SuffixIx, K>(alloc, keeper, tab),
        9 => table_fits::<EdgeTab, K>(alloc, keeper, tab),
        10 => table_fits::<EdgeIx, K>(alloc, keeper, tab),
        11 => table_fits::<ValTab, K>(alloc, keeper, tab),
        12 => table_fits::<PlainTab, K>(alloc, keeper, tab),
        _ => no_entries(alloc, keeper, tab),
    }
}

// Whether every key and row of a table with rows is in its grammar.
fn table_fits<T: Tab, K: Keeper>(alloc: Global, keeper: &mut K, tab: u8) -> Result<bool, TabError>
    requires { tab ≡ T.NUMBER }
    ensures entries { IfOk result (λ fit. MatchBool fit (AreEntries (K.seen keeper.old).kept tab)
        (AreEntries (K.seen keeper.old).kept tab → ⊥)) }
    ensures read { IsRead (K.seen keeper.old) (K.seen keeper.new) result TabError.Fault }
{
    match fits::<T, K>(alloc, keeper) {
        Ok(fits) => Ok(fits),
        Err(error) => Err(error),
    }
}

// Whether a table that is to have no row has none.
fn no_entries<K: Keeper>(alloc: Global, keeper: &mut K, tab: u8) -> Result<bool, TabError>
    requires table { (13 ≤ tab) × (tab ≤ 15) }
    ensures entries { IfOk result (λ fit. MatchBool fit (AreEntries (K.seen keeper.old).kept tab)
        (AreEntries (K.seen keeper.old).kept tab → ⊥)) }
    ensures read { IsRead (K.seen keeper.old) (K.seen keeper.new) result TabError.Fault }
{
    match is_bare(alloc, keeper, tab) {
        Ok(bare) => Ok(bare),
        Err(error) => Err(error),
    }
}
