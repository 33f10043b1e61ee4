// A statement joins a base, all steps together.
ghost use Rattle.std.specs.Prelude.{◌≡◌, ◌+◌, true, length, IfOk, OnOk};
ghost use Rattle.bdb_key.specs.Rows.{IsTupleRow};
ghost use Rattle.bdb_tables.specs.Codec.{HasAt};
ghost use Rattle.bdb_tables.specs.InUse.{tuple_ix_codec};
ghost use Rattle.bdb_update.specs.Bounds.{WritesWithinMore};
ghost use Rattle.bdb_update.specs.Joining.{CountsJoined, IsWorldFound, Joins, SomeMayJoin};
ghost use Rattle.bdb_update.specs.Keeping.{KeepsNumbers, TakesLeastNames};
ghost use Rattle.bdb_tables.specs.Lengths.{IsKeyLength};
ghost use Rattle.bdb_update.specs.Numbering.{HoldsSomeTuples, TakesLeast};
ghost use Rattle.bdb_val.specs.Steps.{IsChanging};

use crate::filling::both;
use crate::joining::{add_worlds, number_tuple, settle_statement};
use crate::looking::Ready;
use bdb_base::Stmt;
use bdb_keep::Keeper;
use bdb_tables::TabError;
use std::alloc::Global;

/// How many rows of worlds came and went.
#[derive(Clone, Copy, Drop)]
pub struct Moved {
    pub came: usize,
    pub went: usize,
}

/// Lets a statement join a base: its worlds come, its tuple gets a number, its row is put and its group settled.
pub fn insert<K: Keeper>(
    alloc: Global,
    keeper: &mut K,
    stmt: &Stmt,
    ready: &Ready,
    worlds: u32,
    tuples: u32,
) -> Result<Moved, TabError>
    requires running { (K.seen keeper.old).running ≡ true }
    requires base { SomeMayJoin (K.seen keeper.old).kept stmt.now worlds }
    requires world { IsWorldFound (K.seen keeper.old).kept stmt.now.path ready.now.wid }
    requires fits { IsTupleRow stmt.now.tuple }
    requires number { HasAt tuple_ix_codec (K.seen keeper.old).kept stmt.now.tuple ready.now.tid }
    requires counted { HoldsSomeTuples (K.seen keeper.old).kept tuples }
    requires length { IsKeyLength (K.seen keeper.old).kept stmt.now.tuple.rel ready.now.key_len }
    ensures joined { OnOk result
        (Joins (K.seen keeper.old).kept (K.seen keeper.new).kept stmt.now) }
    ensures counted { IfOk result
        (λ moved. CountsJoined (K.seen keeper.old).kept stmt.now moved.came moved.went) }
    ensures keeps { OnOk result (KeepsNumbers (K.seen keeper.old).kept (K.seen keeper.new).kept) }
    ensures least { OnOk result
        (TakesLeastNames (K.seen keeper.old).kept (K.seen keeper.new).kept stmt.now.path) }
    ensures number { OnOk result
        (TakesLeast (K.seen keeper.old).kept (K.seen keeper.new).kept stmt.now.tuple) }
    ensures writes { OnOk result (WritesWithinMore (length stmt.now.path + 2) 8 (K.seen keeper.old)
        (K.seen keeper.new)) }
    ensures changing { IsChanging (K.seen keeper.old) (K.seen keeper.new) result TabError.Fault }
{
    let (wid, rows) = match add_worlds(alloc, keeper, stmt, ready.wid, worlds) {
        Ok(found) => found,
        Err(error) => return Err(error),
    };
    let tid = match number_tuple(alloc, keeper, stmt, ready.tid, tuples) {
        Ok(tid) => tid,
        Err(error) => return Err(error),
    };
    match settle_statement(alloc, keeper, stmt, ready.key_len, wid, tid) {
        Ok(settled) => Ok(Moved {
            came: both(rows, settled.put),
            went: settled.taken,
        }),
        Err(error) => Err(error),
    }
}
