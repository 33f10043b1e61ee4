// What tables of any bytes are: those of a base, of another format, or damaged.
ghost use Rattle.std.specs.Prelude.{◌≡◌, IfOk, MatchOption};
ghost use Rattle.std.specs.Bool.{MatchBool};
ghost use Rattle.std.specs.FinMap as tables;
ghost use Rattle.bdb_catalog.specs.Bases.{StoresValid};
ghost use Rattle.bdb_keep.specs.Seen.{IsAtRest};
ghost use Rattle.bdb_keep.specs.Tables.{LieInTables};
ghost use Rattle.bdb_entries.specs.Format.{HasFormat};
ghost use Rattle.bdb_tables.specs.Reading.{OnlyReads};
ghost use Rattle.bdb_decode.specs.Judging.{TellsJudgement};
ghost use Rattle.bdb_decode.specs.Parts.{AreFormed, AreParts, StoreNone};

use crate::linking::hold_rows_of;
use crate::parts::{Parts, raw_parts};
use crate::whole::raw_base_statements;
use bdb_base::{Base, List};
use bdb_copy::respelled_copy;
use bdb_entries::{Format, is_bare, is_in_grammar, others_are_bare, read_format};
use bdb_keep::Keeper;
use bdb_tables::{FORMAT, TABLES, TabError, table_error};
use std::alloc::Global;

/// The format before this one.
const FORMER: u32 = 2;

/// What tables are.
#[derive(Drop)]
pub enum Judgement {
    /// They have no row, and stand for the empty base.
    Empty,
    /// They store this base.
    Held(Base),
    /// They store this base in the format before this one.
    Former(Base),
    /// They stand for no base.
    Damaged,
    /// They are of another format, which is told.
    Format(u32),
}

/// What the tables are. No rows at all stand for the empty base.
pub fn judge<K: Keeper>(alloc: Global, keeper: &mut K) -> Result<Judgement, TabError>
    ensures verdict { IfOk result (TellsJudgement (K.seen keeper.old).kept) }
    ensures rest { IsAtRest (K.seen keeper.old) }
    ensures reading { OnlyReads (K.seen keeper.old) (K.seen keeper.new) result TabError.Fault }
{
    match is_empty(alloc, keeper) {
        Ok(true) => return Ok(Judgement::Empty),
        Ok(false) => {}
        Err(error) => return Err(error),
    }
    match read_format(alloc, keeper) {
        Ok(Format::Is(number)) => match judge_format(alloc, keeper, number) {
            Ok(verdict) => Ok(verdict),
            Err(error) => Err(error),
        },
        Ok(Format::Bare) => Ok(Judgement::Damaged),
        Ok(Format::Damaged) => Ok(Judgement::Damaged),
        Err(error) => Err(error),
    }
}

// Whether no table has a row. One read for each table up to the first that has one.
fn is_empty<K: Keeper>(alloc: Global, keeper: &mut K) -> Result<bool, TabError>
    ensures empty { IfOk result (λ empty. MatchBool empty ((K.seen keeper.old).kept ≡ tables.empty)
        ((K.seen keeper.old).kept ≡ tables.empty → ⊥)) }
    ensures tables { LieInTables (K.seen keeper.old).kept }
    ensures rest { IsAtRest (K.seen keeper.old) }
    ensures reading { OnlyReads (K.seen keeper.old) (K.seen keeper.new) result TabError.Fault }
{
    match is_bare(alloc, keeper, 1) {
        Ok(true) => {}
        Ok(false) => return Ok(false),
        Err(error) => return Err(error),
    }
    for tab in 2..TABLES + 1 {
        match is_bare(alloc, keeper, tab) {
            Ok(true) => {}
            Ok(false) => return Ok(false),
            Err(error) => return Err(error),
        }
    }
    Ok(true)
}

// What tables of a format are.
fn judge_format<K: Keeper>(
    alloc: Global,
    keeper: &mut K,
    number: u32,
) -> Result<Judgement, TabError>
    requires tables { LieInTables (K.seen keeper.old).kept }
    requires format { HasFormat (K.seen keeper.old).kept number }
    ensures verdict { IfOk result (TellsJudgement (K.seen keeper.old).kept) }
    ensures reading { OnlyReads (K.seen keeper.old) (K.seen keeper.new) result TabError.Fault }
{
    if number == FORMER {
        return match judge_former(alloc, keeper) {
            Ok(verdict) => Ok(verdict),
            Err(error) => Err(error),
        };
    }
    if number != FORMAT {
        return Ok(Judgement::Format(number));
    }
    match raw_base(alloc, keeper) {
        Ok(Some(base)) => Ok(Judgement::Held(base)),
        Ok(None) => Ok(Judgement::Damaged),
        Err(error) => Err(error),
    }
}

// What tables of the format before this one are, told by a copy of their rows in memory, spelled as this format spells them.
fn judge_former<K: Keeper>(alloc: Global, keeper: &mut K) -> Result<Judgement, TabError>
    requires tables { LieInTables (K.seen keeper.old).kept }
    requires format { HasFormat (K.seen keeper.old).kept 2 }
    ensures verdict { IfOk result (TellsJudgement (K.seen keeper.old).kept) }
    ensures reading { OnlyReads (K.seen keeper.old) (K.seen keeper.new) result TabError.Fault }
{
    let mut copy = match respelled_copy(alloc, keeper) {
        Ok(copy) => copy,
        Err(error) => return Err(table_error(error)),
    };
    match raw_base(alloc, &mut copy) {
        Ok(Some(base)) => Ok(Judgement::Former(base)),
        Ok(None) => Ok(Judgement::Damaged),
        Err(_) => {
            keeper.undo();
            Err(TabError::Memory)
        }
    }
}

// The base that tables of this format store. None exactly where they store no valid base.
fn raw_base<K: Keeper>(alloc: Global, keeper: &mut K) -> Result<Option<Base>, TabError>
    requires tables { LieInTables (K.seen keeper.old).kept }
    requires format { HasFormat (K.seen keeper.old).kept 3 }
    ensures base { IfOk result (λ r. MatchOption r (StoreNone (K.seen keeper.old).kept)
        (StoresValid (K.seen keeper.old).kept)) }
    ensures reading { OnlyReads (K.seen keeper.old) (K.seen keeper.new) result TabError.Fault }
{
    match are_formed(alloc, keeper) {
        Ok(true) => {}
        Ok(false) => return Ok(None),
        Err(error) => return Err(error),
    }
    let parts = match raw_parts(alloc, keeper) {
        Ok(Some(parts)) => parts,
        Ok(None) => return Ok(None),
        Err(error) => return Err(error),
    };
    match base_of(alloc, keeper, parts) {
        Ok(base) => Ok(base),
        Err(error) => Err(error),
    }
}

// Whether every key and row of tables of this format is in the grammar, and no other table has a row.
fn are_formed<K: Keeper>(alloc: Global, keeper: &mut K) -> Result<bool, TabError>
    requires tables { LieInTables (K.seen keeper.old).kept }
    requires format { HasFormat (K.seen keeper.old).kept 3 }
    ensures formed { IfOk result (λ formed. MatchBool formed (AreFormed (K.seen keeper.old).kept)
        (StoreNone (K.seen keeper.old).kept)) }
    ensures reading { OnlyReads (K.seen keeper.old) (K.seen keeper.new) result TabError.Fault }
{
    match others_are_bare(alloc, keeper) {
        Ok(true) => {}
        Ok(false) => return Ok(false),
        Err(error) => return Err(error),
    }
    match is_in_grammar(alloc, keeper) {
        Ok(fits) => Ok(fits),
        Err(error) => Err(error),
    }
}

// The base of these parts. None exactly where the tables store no valid base.
fn base_of<K: Keeper>(alloc: Global, keeper: &mut K, parts: Parts) -> Result<Option<Base>, TabError>
    requires formed { AreFormed (K.seen keeper.old).kept }
    requires parts { AreParts
        (K.seen keeper.old).kept parts.catalog parts.paths.items parts.tuples.items }
    ensures base { IfOk result (λ r. MatchOption r (StoreNone (K.seen keeper.old).kept)
        (StoresValid (K.seen keeper.old).kept)) }
    ensures reading { OnlyReads (K.seen keeper.old) (K.seen keeper.new) result TabError.Fault }
{
    let Parts {
        catalog,
        paths,
        tuples,
    } = parts;
    let stmts = match raw_base_statements(alloc, keeper, &catalog, &paths, &tuples) {
        Ok(Some(stmts)) => stmts,
        Ok(None) => return Ok(None),
        Err(error) => return Err(error),
    };
    match hold_rows_of(alloc, keeper, &catalog, &paths) {
        Ok(true) => Ok(Some(Base::from_parts(catalog, List::from_vec(stmts)))),
        Ok(false) => Ok(None),
        Err(error) => Err(error),
    }
}
