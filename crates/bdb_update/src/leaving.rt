// A statement leaves a base, all steps together.
ghost use Rattle.std.specs.Prelude.{◌≡◌, ◌+◌, true, length, Some, IfOk, OnOk};
ghost use Rattle.bdb_keep.specs.Seen.{NeverFall};
ghost use Rattle.bdb_key.specs.Rows.{IsTupleRow};
ghost use Rattle.bdb_tables.specs.Codec.{HasAt};
ghost use Rattle.bdb_tables.specs.InUse.{tuple_ix_codec};
ghost use Rattle.bdb_update.specs.Bounds.{WritesWithinMore};
ghost use Rattle.bdb_update.specs.Calls.{SomeMayMeet};
ghost use Rattle.bdb_update.specs.Joining.{IsWorld};
ghost use Rattle.bdb_update.specs.Keeping.{KeepsNumbers};
ghost use Rattle.bdb_tables.specs.Lengths.{IsKeyLength};
ghost use Rattle.bdb_update.specs.Leaving.{CountsLeft, MayLose, TriesDrop, counts_less, standing};
ghost use Rattle.bdb_update.specs.Parting.{PartsWith, SomeMayPart};
ghost use Rattle.bdb_val.specs.Steps.{IsChanging, counted};

use crate::filling::both;
use crate::looking::{Finding, has_own, look};
use crate::parting::{drop_number, drop_worlds, part_statement};
use bdb_base::Stmt;
use bdb_canon::Counts;
use bdb_keep::Keeper;
use bdb_tables::TabError;
use std::alloc::Global;

/// What goes with a statement: how many worlds, whether its tuple's number, and how many rows of worlds came and went.
#[derive(Clone, Copy, Drop)]
pub struct Gone {
    pub worlds: usize,
    pub tuple: bool,
    pub came: usize,
    pub went: usize,
}

/// Takes a statement away from the base that the tables store, whose sizes are `counts`. It tells the sizes without it, or
/// nothing where it did not stand.
pub fn try_drop<K: Keeper>(
    alloc: Global,
    keeper: &mut K,
    counts: &Counts,
    stmt: &Stmt,
) -> Result<Option<Counts>, TabError>
    requires running { (K.seen keeper.old).running ≡ true }
    requires base { SomeMayMeet (K.seen keeper.old).kept counts.now stmt.now }
    ensures tried { TriesDrop (K.seen keeper.old) (K.seen keeper.new) counts.now stmt.now result }
    ensures keeps { OnOk result (KeepsNumbers (K.seen keeper.new).kept (K.seen keeper.old).kept) }
    ensures writes { OnOk result (WritesWithinMore (length stmt.now.path + 2) 8 (K.seen keeper.old)
        (K.seen keeper.new)) }
    ensures counts { NeverFall (K.seen keeper.old) (K.seen keeper.new) }
{
    let finding = match look(alloc, keeper, stmt) {
        Ok(finding) => finding,
        Err(error) => return Err(error),
    };
    let tid = match number_if_stands(stmt, &finding) {
        Some(tid) => tid,
        None => return Ok(None),
    };
    match leave(alloc, keeper, stmt, finding.key_len, finding.wid, tid) {
        Ok(gone) => Ok(Some(counts_less(counts, gone))),
        Err(error) => Err(error),
    }
}

// The number of a statement's tuple, where by what was read the statement stands.
fn number_if_stands(stmt: &Stmt, finding: &Finding) -> Option<u32>
    ensures { result ≡ standing stmt.now finding.now }
{
    if has_own(stmt, &finding.rows) {
        return finding.tid;
    }
    None
}

// Lets a statement leave a base: its row goes and its group is settled, its worlds go and its tuple's number, where no other
// statement needs them. `n` is the length of the key of its tuple's relation, `wid` the number of its path, and `tid` that of
// its tuple.
fn leave<K: Keeper>(
    alloc: Global,
    keeper: &mut K,
    stmt: &Stmt,
    n: u32,
    wid: u32,
    tid: u32,
) -> Result<Gone, TabError>
    requires running { (K.seen keeper.old).running ≡ true }
    requires base { SomeMayPart (K.seen keeper.old).kept stmt.now }
    requires world { IsWorld (K.seen keeper.old).kept stmt.now.path wid }
    requires fits { IsTupleRow stmt.now.tuple }
    requires number { HasAt tuple_ix_codec (K.seen keeper.old).kept stmt.now.tuple (Some tid) }
    requires length { IsKeyLength (K.seen keeper.old).kept stmt.now.tuple.rel n }
    ensures left { OnOk result (PartsWith (K.seen keeper.old).kept (K.seen keeper.new).kept stmt.now) }
    ensures counted { IfOk result (CountsLeft (K.seen keeper.old).kept stmt.now) }
    ensures keeps { OnOk result (KeepsNumbers (K.seen keeper.new).kept (K.seen keeper.old).kept) }
    ensures writes { OnOk result (WritesWithinMore (length stmt.now.path + 2) 8 (K.seen keeper.old)
        (K.seen keeper.new)) }
    ensures changing { IsChanging (K.seen keeper.old) (K.seen keeper.new) result TabError.Fault }
{
    let settled = match part_statement(alloc, keeper, stmt, n, wid, tid) {
        Ok(settled) => settled,
        Err(error) => return Err(error),
    };
    let (worlds, rows) = match drop_worlds(alloc, keeper, stmt) {
        Ok(found) => found,
        Err(error) => return Err(error),
    };
    match drop_number(alloc, keeper, stmt, tid) {
        Ok(tuple) => Ok(Gone {
            worlds,
            tuple,
            came: settled.put,
            went: both(both(settled.taken, 1), rows),
        }),
        Err(error) => Err(error),
    }
}

// The sizes without what goes with a statement.
fn counts_less(counts: &Counts, gone: Gone) -> Counts
    requires { MayLose counts.now gone }
    ensures { result ≡ counts_less counts.now gone }
{
    let tuple = if gone.tuple { 1 } else { 0 };
    let rows = counts.rows as usize + gone.came - gone.went;
    Counts {
        worlds: counts.worlds - gone.worlds as u32,
        tuples: counts.tuples - tuple,
        stmts: counts.stmts - 1,
        rows: rows as u32,
    }
}
