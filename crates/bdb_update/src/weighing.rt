// What a change of statements of one path comes to, before anything is written.
ghost use Rattle.std.specs.Prelude.{◌≡◌, true, IfOk};
ghost use Rattle.bdb_base.specs.Bases.{key_lengths};
ghost use Rattle.bdb_base.specs.Changes.{first_clashing, with_statements, without_statements};
ghost use Rattle.bdb_base.specs.Order.{statement_cmp};
ghost use Rattle.bdb_base.specs.SortedSet.{ascending};
ghost use Rattle.bdb_keep.specs.Calls.{IsRead};
ghost use Rattle.bdb_tables.specs.Grammar.{InGrammar};
ghost use Rattle.bdb_update.specs.Elsewhere.{MayBeTuples};
ghost use Rattle.bdb_update.specs.Holding.{AreOfOnePath};
ghost use Rattle.bdb_update.specs.Weighing.{SomeMayWeigh, TellsRoom, Weighs, have_room};

use crate::clashing::first_clashing;
use crate::elsewhere::{fresh_of, lost_of};
use crate::keys::stored_relations;
use crate::reached::{read_statements, with_statements, without_statements};
use bdb_base::limits::MOST_TUPLES;
use bdb_base::{Exact, List, Path, RelDef, Stmt, distinct_tuples};
use bdb_canon::Counts;
use bdb_keep::Keeper;
use bdb_tables::TabError;
use std::alloc::{AllocError, Global};

/// What a change of statements comes to.
#[derive(Drop)]
pub enum Weight {
    /// Statements of the path would clash, of which this is the least.
    Clashes(Stmt),
    /// None would, but there would be too many tuples.
    Fills,
    /// Neither.
    Fits,
}

/// Tells what a change of statements of a path comes to, by what stands there and by the tuples that go and come.
pub fn weigh<K: Keeper>(
    alloc: Global,
    keeper: &mut K,
    counts: &Counts,
    path: &Path,
    gone: &[Stmt],
    come: &[Stmt],
) -> Result<Weight, TabError>
    requires running { (K.seen keeper.old).running ≡ true }
    requires base { SomeMayWeigh (K.seen keeper.old).kept counts.now path.now gone.now come.now }
    ensures weighed { IfOk result
        (Weighs (K.seen keeper.old).kept counts.now path.now gone.now come.now) }
    ensures read { IsRead (K.seen keeper.old) (K.seen keeper.new) result TabError.Fault }
{
    let stmts = match read_statements(alloc, keeper, path) {
        Ok(stmts) => stmts,
        Err(error) => return Err(error),
    };
    let rels = match stored_relations(alloc, keeper) {
        Ok(rels) => rels,
        Err(error) => return Err(error),
    };
    let (reached, least) = match reach(alloc, &rels, stmts, path, gone, come) {
        Ok(reached) => reached,
        Err(_) => {
            keeper.undo();
            return Err(TabError::Memory);
        }
    };
    if let Some(least) = least {
        return Ok(Weight::Clashes(least));
    }
    let tuples = counts.tuples;
    match tell_room(alloc, keeper, tuples, reached.as_slice(), gone, come) {
        Ok(true) => Ok(Weight::Fits),
        Ok(false) => Ok(Weight::Fills),
        Err(error) => Err(error),
    }
}

// The statements of a path with some in place of others, and a copy of the first of them that clashes with another, where
// these are the relations.
fn reach(
    alloc: Global,
    rels: &List<RelDef>,
    stmts: List<Stmt>,
    path: &Path,
    gone: &[Stmt],
    come: &[Stmt],
) -> Result<(List<Stmt>, Option<Stmt>), AllocError>
    requires { ascending statement_cmp stmts ≡ true }
    ensures reached { IfOk result
        (λ found. found.0 ≡ with_statements (without_statements stmts gone.now) come.now) }
    ensures least { IfOk result
        (λ found. found.1 ≡ first_clashing (key_lengths rels.now) found.0 path.now) }
{
    let left = without_statements(stmts, gone);
    let reached = with_statements(alloc, left, come)?;
    let least = clash_among(alloc, rels.as_slice(), reached.as_slice(), path.as_slice())?;
    Ok((reached, least))
}

// A copy of the first of some statements, which are in order, that clashes with another of its path.
fn clash_among(
    alloc: Global,
    rels: &[RelDef],
    reached: &[Stmt],
    path: &[u32],
) -> Result<Option<Stmt>, AllocError>
    requires { ascending statement_cmp reached.now ≡ true }
    ensures { IfOk result
        (λ least. least ≡ first_clashing (key_lengths rels.now) reached.now path.now) }
{
    match first_clashing(rels, reached, path) {
        Some(least) => Ok(Some(least.try_clone(alloc)?)),
        None => Ok(None),
    }
}

// Whether there are not too many tuples after a change of statements at a path, where `reached` are those that stand there then.
fn tell_room<K: Keeper>(
    alloc: Global,
    keeper: &mut K,
    tuples: u32,
    reached: &[Stmt],
    gone: &[Stmt],
    come: &[Stmt],
) -> Result<bool, TabError>
    requires running { (K.seen keeper.old).running ≡ true }
    requires grammar { InGrammar (K.seen keeper.old).kept }
    requires reached { AreOfOnePath reached.now }
    requires gone { MayBeTuples gone.now }
    requires come { MayBeTuples come.now }
    ensures room { IfOk result
        (TellsRoom (K.seen keeper.old).kept tuples reached.now gone.now come.now) }
    ensures read { IsRead (K.seen keeper.old) (K.seen keeper.new) result TabError.Fault }
{
    let lost = match lost_of(alloc, keeper, reached, gone) {
        Ok(lost) => lost,
        Err(error) => return Err(error),
    };
    let fresh = match fresh_of(alloc, keeper, come) {
        Ok(fresh) => fresh,
        Err(error) => return Err(error),
    };
    match have_room(alloc, tuples, lost.as_slice(), fresh.as_slice()) {
        Ok(room) => Ok(room),
        Err(_) => {
            keeper.undo();
            Err(TabError::Memory)
        }
    }
}

// Whether so many tuples, more by the fresh ones and fewer by those lost, are not too many.
fn have_room(alloc: Global, tuples: u32, lost: &[Stmt], fresh: &[Stmt]) -> Result<bool, AllocError>
    ensures { IfOk result (λ room. room ≡ have_room tuples lost.now fresh.now) }
{
    let fewer = distinct_tuples(alloc, lost)? as u128;
    let more = distinct_tuples(alloc, fresh)? as u128;
    Ok(tuples as u128 + more <= MOST_TUPLES as u128 + fewer)
}
