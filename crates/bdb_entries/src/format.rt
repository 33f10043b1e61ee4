// The format of tables.
ghost use Rattle.std.specs.Prelude.{◌≡◌, IfOk};
ghost use Rattle.bdb_keep.specs.Calls.{IsRead};
ghost use Rattle.bdb_entries.specs.Format.{TellsFormat, format_of};

use crate::reading::raw_rows;
use bdb_keep::Keeper;
use bdb_tables::{MetaTab, TabError};
use std::alloc::Global;

/// What the table of the format has.
#[derive(Clone, Copy, Debug, PartialEq, Eq, Drop)]
pub enum Format {
    /// No row.
    Bare,
    /// One row, of the right key and form.
    Is(u32),
    /// Anything else.
    Damaged,
}

/// What the table of the format has. At most two reads.
pub fn read_format<K: Keeper>(alloc: Global, keeper: &mut K) -> Result<Format, TabError>
    ensures format { IfOk result (TellsFormat (K.seen keeper.old).kept) }
    ensures read { IsRead (K.seen keeper.old) (K.seen keeper.new) result TabError.Fault }
{
    match raw_rows::<MetaTab, K>(alloc, keeper) {
        Ok(Some(rows)) => Ok(format_of(&rows)),
        Ok(None) => Ok(Format::Damaged),
        Err(error) => Err(error),
    }
}

// What rows of the format's table tell.
fn format_of(rows: &[((), u32)]) -> Format
    ensures { result ≡ format_of rows.now }
{
    match rows {
        [] => Format::Bare,
        [row] => Format::Is(row.1),
        [_, _, ..] => Format::Damaged,
    }
}
