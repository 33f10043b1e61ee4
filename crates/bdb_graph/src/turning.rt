// Suffix links and edges, turned round.
ghost use Rattle.std.specs.Prelude.{◌≡◌, ◌≤◌, ◌++◌, drop, take, IfOk, OnOk};
ghost use Rattle.std.specs.Bool.{MatchBool};
ghost use Rattle.bdb_keep.specs.Calls.{IsRead};
ghost use Rattle.bdb_keep.specs.Scans.{next_key};
ghost use Rattle.bdb_keep.specs.Tables.{NoneFrom};
ghost use Rattle.bdb_tables.specs.Grammar.{InGrammar};
ghost use Rattle.bdb_tables.specs.Reading.{OnlyReads};
ghost use Rattle.bdb_graph.specs.Turning.{AreTurned, BothTurned, HasTurned, IsNextRow, TurnRound, turned};
ghost use Rattle.bdb_graph.specs.Ups.{HoldNoStates};

use bdb_entries::are_same;
use bdb_keep::Keeper;
use bdb_tables::{TabError, table_error};
use std::alloc::{AllocError, Global};

/// Which way a row is turned round.
#[derive(Clone, Copy, Debug, PartialEq, Eq, Drop)]
pub enum Way {
    /// The row is put before the key, and nothing is left for a row.
    Round,
    /// The first number of the key is the row.
    Back,
}

/// Whether the tables of suffix links and edges turned round have exactly those of the other two. False only where the
/// tables hold no states. Two reads for each row of the four tables.
pub fn are_turned_round<K: Keeper>(alloc: Global, keeper: &mut K) -> Result<bool, TabError>
    requires grammar { InGrammar (K.seen keeper.old).kept }
    ensures turned { IfOk result (λ b. MatchBool b (TurnRound (K.seen keeper.old).kept)
        (HoldNoStates (K.seen keeper.old).kept)) }
    ensures reading { OnlyReads (K.seen keeper.old) (K.seen keeper.new) result TabError.Fault }
{
    match both_turned(alloc, keeper, 7, 8) {
        Ok(true) => {}
        Ok(false) => return Ok(false),
        Err(error) => return Err(error),
    }
    match both_turned(alloc, keeper, 9, 10) {
        Ok(both) => Ok(both),
        Err(error) => Err(error),
    }
}

// Whether the rows of a table are in another one turned round, and the other way.
fn both_turned<K: Keeper>(
    alloc: Global,
    keeper: &mut K,
    tab: u8,
    other: u8,
) -> Result<bool, TabError>
    requires table { (1 ≤ tab) × (tab ≤ 15) }
    requires other { (1 ≤ other) × (other ≤ 15) }
    ensures both { IfOk result (λ b. MatchBool b (BothTurned (K.seen keeper.old).kept tab other)
        (BothTurned (K.seen keeper.old).kept tab other → ⊥)) }
    ensures reading { OnlyReads (K.seen keeper.old) (K.seen keeper.new) result TabError.Fault }
{
    match are_turned(alloc, keeper, tab, Way::Round, other) {
        Ok(true) => {}
        Ok(false) => return Ok(false),
        Err(error) => return Err(error),
    }
    match are_turned(alloc, keeper, other, Way::Back, tab) {
        Ok(turned) => Ok(turned),
        Err(error) => Err(error),
    }
}

// Whether each row of a table, turned round, is in another one.
fn are_turned<K: Keeper>(
    alloc: Global,
    keeper: &mut K,
    tab: u8,
    way: Way,
    other: u8,
) -> Result<bool, TabError>
    requires table { (1 ≤ tab) × (tab ≤ 15) }
    requires other { (1 ≤ other) × (other ≤ 15) }
    ensures turned { IfOk result
        (λ b. MatchBool b (AreTurned (K.seen keeper.old).kept tab way other)
        (AreTurned (K.seen keeper.old).kept tab way other → ⊥)) }
    ensures reading { OnlyReads (K.seen keeper.old) (K.seen keeper.new) result TabError.Fault }
{
    let mut low = Vec::new(alloc);
    let mut key = Vec::new(alloc);
    let mut row = Vec::new(alloc);
    for _ in 0..u64::MAX {
        match step(keeper, tab, &mut low, &mut key, &mut row) {
            Ok(true) => {}
            Ok(false) => return Ok(true),
            Err(error) => return Err(error),
        }
        match is_turned(alloc, keeper, way, other, &key, &row) {
            Ok(true) => {}
            Ok(false) => return Ok(false),
            Err(error) => return Err(error),
        }
    }
    keeper.undo();
    Err(TabError::Memory)
}

// The first row from `low` on. Where there is one, `low` becomes what lies right behind its key.
fn step<K: Keeper>(
    keeper: &mut K,
    tab: u8,
    low: &mut Vec<u8>,
    key: &mut Vec<u8>,
    row: &mut Vec<u8>,
) -> Result<bool, TabError>
    requires table { (1 ≤ tab) × (tab ≤ 15) }
    ensures found { IfOk result
        (λ found.
        MatchBool found
        (IsNextRow (K.seen keeper.old).kept tab low.old.items low.new.items key.new.items
        row.new.items) (NoneFrom (K.seen keeper.old).kept tab low.old.items)) }
    ensures read { IsRead (K.seen keeper.old) (K.seen keeper.new) result TabError.Fault }
{
    match keeper.next(tab, low, key, row) {
        Ok(true) => {}
        Ok(false) => return Ok(false),
        Err(error) => return Err(table_error(error)),
    }
    if set_behind(key, low).is_err() {
        keeper.undo();
        return Err(TabError::Memory);
    }
    Ok(true)
}

// Makes `low` what lies right behind a key.
fn set_behind(key: &[u8], low: &mut Vec<u8>) -> Result<(), AllocError>
    ensures { OnOk result (low.new.items ≡ next_key key.now) }
{
    low.clear();
    low.extend_from_slice(key)?;
    low.push(0)?;
    Ok(())
}

// Whether a row, turned round, is in a table. One read.
fn is_turned<K: Keeper>(
    alloc: Global,
    keeper: &mut K,
    way: Way,
    tab: u8,
    key: &[u8],
    row: &[u8],
) -> Result<bool, TabError>
    requires table { (1 ≤ tab) × (tab ≤ 15) }
    ensures turned { IfOk result
        (λ is. MatchBool is (HasTurned (K.seen keeper.old).kept way tab key.now row.now)
        (HasTurned (K.seen keeper.old).kept way tab key.now row.now → ⊥)) }
    ensures read { IsRead (K.seen keeper.old) (K.seen keeper.new) result TabError.Fault }
{
    let mut place = Vec::new(alloc);
    let mut content = Vec::new(alloc);
    let mut found = Vec::new(alloc);
    if turn(way, key, row, &mut place, &mut content).is_err() {
        keeper.undo();
        return Err(TabError::Memory);
    }
    match keeper.get(tab, &place, &mut found) {
        Ok(true) => Ok(are_same(&found, &content)),
        Ok(false) => Ok(false),
        Err(error) => Err(table_error(error)),
    }
}

// Appends the key and the row that a row is, turned round.
fn turn(
    way: Way,
    key: &[u8],
    row: &[u8],
    place: &mut Vec<u8>,
    content: &mut Vec<u8>,
) -> Result<(), AllocError>
    ensures place { OnOk result
        (place.new.items ≡ place.old.items ++ (turned way key.now row.now).0) }
    ensures content { OnOk result
        (content.new.items ≡ content.old.items ++ (turned way key.now row.now).1) }
{
    match way {
        Way::Round => {
            place.extend_from_slice(row)?;
            place.extend_from_slice(key)?;
            Ok(())
        }
        Way::Back => {
            append_rest(key, place)?;
            append_first(key, content)?;
            Ok(())
        }
    }
}

// Appends the first four bytes.
fn append_first(key: &[u8], out: &mut Vec<u8>) -> Result<(), AllocError>
    ensures { OnOk result (out.new.items ≡ out.old.items ++ take 4 key.now) }
{
    if key.len() < 4 {
        return out.extend_from_slice(key);
    }
    out.extend_from_slice(&key[..4])
}

// Appends all bytes but the first four.
fn append_rest(key: &[u8], out: &mut Vec<u8>) -> Result<(), AllocError>
    ensures { OnOk result (out.new.items ≡ out.old.items ++ drop 4 key.now) }
{
    if key.len() < 4 {
        return Ok(());
    }
    out.extend_from_slice(&key[4..])
}
