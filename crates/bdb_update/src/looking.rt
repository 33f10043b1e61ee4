// What is known of a statement before anything is written.
ghost use Rattle.std.specs.Prelude.{◌≡◌, true, IfOk, [], ◌&&◌, is_some};
ghost use Rattle.std.specs.List.{list_any};
ghost use Rattle.std.specs.Option.{option_copied};
ghost use Rattle.bdb_key.specs.Rows.{MayBeTuple};
ghost use Rattle.bdb_keep.specs.Calls.{IsRead};
ghost use Rattle.bdb_tables.specs.Grammar.{InGrammar};
ghost use Rattle.bdb_update.specs.Calls.{SomeMayMeet, size_passed};
ghost use Rattle.bdb_update.specs.Examining.{Examines};
ghost use Rattle.bdb_update.specs.Looking.{AreRowsIf, IsFinding, IsSmall, counts_with, first_of, is_clashing, is_own, joined_by, judged, least_row, state_of};
ghost use Rattle.bdb_val.specs.Reads.{HaveTuples};
ghost use Rattle.bdb_worlds.specs.Holding.{HoldSome};
ghost use Rattle.bdb_base.specs.Alternation.{alternates};

use crate::groups::read_explicit;
use crate::keys::read_key_length;
use crate::numbers::number_of;
use bdb_base::limits::{MOST_STATEMENTS, MOST_TUPLES, MOST_WORLDS};
use bdb_base::{Exact, Stmt, Tuple, What, clash, cmp_tuple, same_tuple};
use bdb_canon::Counts;
use bdb_keep::Keeper;
use bdb_tables::TabError;
use bdb_val::StoredRow;
use bdb_worlds::longest_state;
use std::alloc::{AllocError, Global};

/// What is read of a statement: how many users of its path are those of a state and that state's number, the length of the
/// key of its tuple's relation, the explicit rows of this relation and the tuple's key there, where the whole path is a
/// state, and the number of its tuple, if it has one.
#[derive(Drop)]
pub struct Finding {
    pub len: usize,
    pub wid: u32,
    pub key_len: u32,
    pub rows: Vec<StoredRow>,
    pub tid: Option<u32>,
}

/// What is said of a statement that is to join a base.
#[derive(Drop)]
pub enum Prospect {
    /// It clashes with this statement of its path.
    Clashes(Stmt),
    /// It stands.
    Stands,
    /// With it there would be too many of these.
    Fills(What),
    /// It may join.
    Fits(Ready),
}

/// What there is to know of a statement that may join a base: the number of its path, if that is a state, the number of its
/// tuple, if it has one, the length of the key of its tuple's relation, and the sizes with it, but for the rows.
#[derive(Clone, Copy, Drop)]
pub struct Ready {
    pub wid: Option<u32>,
    pub tid: Option<u32>,
    pub key_len: u32,
    pub next: Counts,
}

/// Reads what there is to know of a statement.
pub fn look<K: Keeper>(alloc: Global, keeper: &mut K, stmt: &Stmt) -> Result<Finding, TabError>
    requires running { (K.seen keeper.old).running ≡ true }
    requires grammar { InGrammar (K.seen keeper.old).kept }
    requires tuples { HaveTuples (K.seen keeper.old).kept }
    requires states { HoldSome (K.seen keeper.old).kept stmt.now.path }
    requires apart { alternates stmt.now.path ≡ true }
    requires tuple { MayBeTuple stmt.now.tuple }
    ensures finding { IfOk result (IsFinding (K.seen keeper.old).kept stmt.now) }
    ensures read { IsRead (K.seen keeper.old) (K.seen keeper.new) result TabError.Fault }
{
    let path = stmt.path.as_slice();
    let (len, wid) = match longest_state(alloc, keeper, path) {
        Ok(found) => found,
        Err(error) => return Err(error),
    };
    let key_len = match read_key_length(alloc, keeper, &stmt.tuple) {
        Ok(n) => n,
        Err(error) => return Err(error),
    };
    let rows = match read_rows(alloc, keeper, wid, len == path.len(), key_len, &stmt.tuple) {
        Ok(rows) => rows,
        Err(error) => return Err(error),
    };
    match number_of(alloc, keeper, &stmt.tuple) {
        Ok(tid) => Ok(Finding {
            len,
            wid,
            key_len,
            rows,
            tid,
        }),
        Err(error) => Err(error),
    }
}

// The explicit rows of a world for a tuple's relation, whose keys have the length `n`, and its key, or none where they are
// not asked for.
fn read_rows<K: Keeper>(
    alloc: Global,
    keeper: &mut K,
    wid: u32,
    asked: bool,
    n: u32,
    tuple: &Tuple,
) -> Result<Vec<StoredRow>, TabError>
    requires running { (K.seen keeper.old).running ≡ true }
    requires grammar { InGrammar (K.seen keeper.old).kept }
    requires tuples { HaveTuples (K.seen keeper.old).kept }
    requires tuple { MayBeTuple tuple.now }
    ensures rows { IfOk result
        (λ rows. AreRowsIf (λ _. n) (K.seen keeper.old).kept wid tuple.now asked rows.items) }
    ensures read { IsRead (K.seen keeper.old) (K.seen keeper.new) result TabError.Fault }
{
    if !asked {
        return Ok(Vec::new(alloc));
    }
    match read_explicit(alloc, keeper, wid, n, tuple) {
        Ok(rows) => Ok(rows),
        Err(error) => Err(error),
    }
}

/// Reads what there is to know of a statement, and says whether it may join the base.
pub fn examine<K: Keeper>(
    alloc: Global,
    keeper: &mut K,
    stmt: &Stmt,
    counts: &Counts,
) -> Result<Prospect, TabError>
    requires running { (K.seen keeper.old).running ≡ true }
    requires base { SomeMayMeet (K.seen keeper.old).kept counts.now stmt.now }
    ensures examined { IfOk result (Examines (K.seen keeper.old).kept counts.now stmt.now) }
    ensures read { IsRead (K.seen keeper.old) (K.seen keeper.new) result TabError.Fault }
{
    let finding = match look(alloc, keeper, stmt) {
        Ok(finding) => finding,
        Err(error) => return Err(error),
    };
    match judge(alloc, stmt, &finding, counts) {
        Ok(verdict) => Ok(verdict),
        Err(_) => {
            keeper.undo();
            Err(TabError::Memory)
        }
    }
}

// What is said of a statement by what was read, and by the sizes of the base.
fn judge(
    alloc: Global,
    stmt: &Stmt,
    finding: &Finding,
    counts: &Counts,
) -> Result<Prospect, AllocError>
    requires { IsSmall stmt.now finding.now counts.now }
    ensures { IfOk result (λ verdict. verdict ≡ judged stmt.now finding.now counts.now) }
{
    match least_row(finding.key_len, stmt, &finding.rows) {
        Some(row) => {
            let path = stmt.path.try_clone(alloc)?;
            let tuple = row.tuple.try_clone(alloc)?;
            Ok(Prospect::Clashes(Stmt {
                path,
                sign: row.mark.0,
                tuple,
            }))
        }
        None => Ok(join_prospect(stmt, finding, counts)),
    }
}

// What is said of a statement with which no row clashes.
fn join_prospect(stmt: &Stmt, finding: &Finding, counts: &Counts) -> Prospect
    requires { IsSmall stmt.now finding.now counts.now }
    ensures { result ≡ joined_by stmt.now finding.now counts.now
        (list_any (is_own stmt.now) finding.now.rows.items) }
{
    if has_own(stmt, &finding.rows) {
        return Prospect::Stands;
    }
    let next = counts_with(stmt, finding, counts);
    match size_passed(&next) {
        Some(what) => Prospect::Fills(what),
        None => Prospect::Fits(Ready {
            wid: state_of(stmt, finding),
            tid: finding.tid,
            key_len: finding.key_len,
            next,
        }),
    }
}

// The number of a statement's path, where the whole path is a state.
fn state_of(stmt: &Stmt, finding: &Finding) -> Option<u32>
    ensures { result ≡ state_of stmt.now finding.now }
{
    if finding.len == stmt.path.as_slice().len() {
        Some(finding.wid)
    } else {
        None
    }
}

// The row whose tuple comes first among those that clash with a statement, where its relation has keys of the length `n`.
fn least_row<'a>(n: u32, stmt: &Stmt, rows: &'a [StoredRow]) -> Option<&'a StoredRow>
    ensures { option_copied result ≡ least_row (λ _. n) stmt.now rows.now }
{
    match rows {
        [] => None,
        [row, rest @ ..] => {
            let least = least_row(n, stmt, rest);
            if is_clashing(n, stmt, row) {
                return Some(first_of(row, least));
            }
            least
        }
    }
}

// Of a row and another, if there is one, that whose tuple comes first.
fn first_of<'a>(row: &'a StoredRow, other: Option<&'a StoredRow>) -> &'a StoredRow
    ensures { result.now ≡ first_of row.now (option_copied other.entry) }
{
    match other {
        None => row,
        Some(other) => {
            if cmp_tuple(&other.tuple, &row.tuple).is_lt() {
                other
            } else {
                row
            }
        }
    }
}

// Whether a row is explicit and clashes with a statement, where its relation has keys of the length `n`.
fn is_clashing(n: u32, stmt: &Stmt, row: &StoredRow) -> bool
    ensures { result ≡ is_clashing (λ _. n) stmt.now row.now }
{
    row.mark.1 && clash(n, &stmt.tuple, stmt.sign, &row.tuple, row.mark.0)
}

/// Whether a statement has a row.
pub fn has_own(stmt: &Stmt, rows: &[StoredRow]) -> bool
    ensures { result ≡ list_any (is_own stmt.now) rows.now }
{
    rows.iter().any(|row| is_own(stmt, row))
}

// Whether a row is explicit, and that of a statement.
fn is_own(stmt: &Stmt, row: &StoredRow) -> bool
    ensures { result ≡ is_own stmt.now row.now }
{
    row.mark.1 && same_tuple(&row.tuple, &stmt.tuple) && row.mark.0 == stmt.sign
}

// The sizes with one statement more, but for the rows.
fn counts_with(stmt: &Stmt, finding: &Finding, counts: &Counts) -> Counts
    requires { IsSmall stmt.now finding.now counts.now }
    ensures { result ≡ counts_with stmt.now finding.now counts.now }
{
    let more = (stmt.path.as_slice().len() - finding.len) as u32;
    let tuples = if finding.tid.is_some() { 0 } else { 1 };
    Counts {
        worlds: counts.worlds + more,
        tuples: counts.tuples + tuples,
        stmts: counts.stmts + 1,
        rows: counts.rows,
    }
}

/// The first limit that is passed by so many worlds, tuples and statements.
pub fn size_passed(counts: &Counts) -> Option<What>
    ensures { result ≡ size_passed counts.now }
{
    if counts.worlds as usize > MOST_WORLDS {
        return Some(What::Worlds);
    }
    if counts.tuples as usize > MOST_TUPLES {
        return Some(What::Tuples);
    }
    if counts.stmts as usize > MOST_STATEMENTS {
        return Some(What::Statements);
    }
    None
}
