// Reading the rows of a world with the bytes of their tuples.
ghost use Rattle.std.specs.Prelude.{◌≡◌, ◌+◌, ◌-◌, ◌*◌, ◌≤◌, ◌∷◌, Some, true, OnOk, length, drop, is_some};
ghost use Rattle.std.specs.FinMap as tables;
ghost use Rattle.std.specs.List.{AllZip};
ghost use Rattle.bdb_base.specs.Causes.{RoseBy};
ghost use Rattle.bdb_keep.specs.Calls.{IsRead};
ghost use Rattle.bdb_keep.specs.Seen.{NeverFall, Steps};
ghost use Rattle.bdb_shown.specs.Rows.{AreRawRows, HasTupleFor, StandWithTuples};
ghost use Rattle.bdb_tables.specs.Grammar.{InGrammar};
ghost use Rattle.bdb_val.specs.Reads.{HaveTuples, world_prefix};

use bdb_keep::{Keeper, Span};
use bdb_tables::{MARKS, TabError, table_error};
use std::alloc::Global;

// The number of the table of tuples.
const TUPLES: u8 = 4;

/// Makes `rows` the rows of a world, each with the bytes of its tuple in the place of its key, in the order of the keys. Two reads
/// for each row, and one more.
pub fn read_rows<K: Keeper>(
    alloc: Global,
    keeper: &mut K,
    wid: u32,
    rows: &mut Span,
) -> Result<(), TabError>
    requires grammar { InGrammar (K.seen keeper.old).kept }
    requires tuples { HaveTuples (K.seen keeper.old).kept }
    ensures rows { OnOk result
        (AreRawRows (K.seen keeper.old).kept (world_prefix wid) rows.new) }
    ensures reads { OnOk result ((K.seen keeper.new).reads
        ≤ (K.seen keeper.old).reads + (2 * length rows.new + 1)) }
    ensures read { IsRead (K.seen keeper.old) (K.seen keeper.new) result TabError.Fault }
{
    let prefix = wid.to_be_bytes();
    let mut stored = Span::new(alloc);
    match keeper.under(MARKS, &prefix, &mut stored) {
        Ok(()) => {}
        Err(error) => return Err(table_error(error)),
    }
    match fill_rows(alloc, keeper, &stored, rows) {
        Ok(()) => Ok(()),
        Err(error) => Err(error),
    }
}

// Makes `rows` these rows of worlds, each with the bytes of its tuple in the place of its key. A read for each.
fn fill_rows<K: Keeper>(
    alloc: Global,
    keeper: &mut K,
    stored: &Span,
    rows: &mut Span,
) -> Result<(), TabError>
    requires stand { StandWithTuples (K.seen keeper.old).kept stored.now }
    ensures rows { OnOk result
        (AllZip (HasTupleFor (K.seen keeper.old).kept) stored.now rows.new) }
    ensures reads { OnOk result ((K.seen keeper.new).reads
        ≤ (K.seen keeper.old).reads + length rows.new) }
    ensures kept { OnOk result ((K.seen keeper.new).kept ≡ (K.seen keeper.old).kept) }
    ensures writes { (K.seen keeper.new).writes ≡ (K.seen keeper.old).writes }
    ensures counts { NeverFall (K.seen keeper.old) (K.seen keeper.new) }
    ensures steps { Steps (K.seen keeper.old) (K.seen keeper.new) result TabError.Fault }
{
    rows.clear();
    let mut tuple = Vec::new(alloc);
    for index in 0..stored.len() {
        let (key, mark) = stored.entry(index);
        match read_tuple(keeper, last_four(key), &mut tuple) {
            Ok(()) => {}
            Err(error) => return Err(error),
        }
        match rows.push(&tuple, mark) {
            Ok(()) => {}
            Err(_) => {
                keeper.undo();
                return Err(TabError::Memory);
            }
        }
    }
    Ok(())
}

// Makes `tuple` the row of the tuple whose number these bytes are, where there is one. One read.
fn read_tuple<K: Keeper>(keeper: &mut K, number: &[u8], tuple: &mut Vec<u8>) -> Result<(), TabError>
    requires there { is_some (tables.get (K.seen keeper.old).kept (4 ∷ number.now)) ≡ true }
    ensures tuple { OnOk result
        (tables.get (K.seen keeper.old).kept (4 ∷ number.now) ≡ Some tuple.new.items) }
    ensures reads { OnOk result (RoseBy 1 (K.seen keeper.old).reads (K.seen keeper.new).reads) }
    ensures read { IsRead (K.seen keeper.old) (K.seen keeper.new) result TabError.Fault }
{
    match keeper.get(TUPLES, number, tuple) {
        Ok(true) => Ok(()),
        Ok(false) => unreachable!(),
        Err(error) => Err(table_error(error)),
    }
}

// The last four bytes.
fn last_four(bytes: &[u8]) -> &[u8]
    requires { 4 ≤ length bytes.now }
    ensures { result.now ≡ drop (length bytes.now - 4) bytes.now }
{
    &bytes[bytes.len() - 4..]
}
