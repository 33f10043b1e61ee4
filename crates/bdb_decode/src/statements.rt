// Whether statements are those of a valid base. Each is looked at once, where they are in order.
ghost use Rattle.std.specs.Prelude.{◌≡◌, ◌&&◌, ◌||◌, not, nat_le, IfOk};
ghost use Rattle.std.specs.Bool.{MatchBool};
ghost use Rattle.std.specs.Ordering.{is_lt};
ghost use Rattle.bdb_base.specs.Bases.{AreStatements, key_lengths, tuple_count, world_count};
ghost use Rattle.bdb_base.specs.Limits.{most_tuples, most_worlds};
ghost use Rattle.bdb_decode.specs.Statements.{are_consistent, are_few, are_ordered_apart, below_next, below_plus, climbs, group_cmp, is_plus, place_cmp, plus_climb};

use crate::keys::key_in;
use bdb_base::limits::{MOST_STATEMENTS, MOST_TUPLES, MOST_WORLDS};
use bdb_base::{Catalog, Sign, Stmt, cmp_path, cmp_row, cmp_tuple, distinct_tuples};
use bdb_entries::all_belong;
use bdb_paths::states_of;
use std::alloc::{AllocError, Global};
use std::cmp::Ordering;

/// Whether statements are those of a valid base with this catalog: in order, of its users and relations, without a clash at
/// a path, and not too many.
pub fn are_statements(alloc: Global, catalog: &Catalog, stmts: &[Stmt]) -> Result<bool, AllocError>
    ensures { IfOk result (λ valid. MatchBool valid (AreStatements catalog.now stmts.now)
        (AreStatements catalog.now stmts.now → ⊥)) }
{
    if !are_consistent(catalog, stmts) {
        return Ok(false);
    }
    match are_few(alloc, stmts) {
        Ok(few) => Ok(few),
        Err(error) => Err(error),
    }
}

// Whether statements belong to a catalog, are in order, and no two clash at a path.
fn are_consistent(catalog: &Catalog, stmts: &[Stmt]) -> bool
    ensures { result ≡ are_consistent catalog.now stmts.now }
{
    all_belong(catalog, stmts) && are_apart(catalog, stmts)
}

// Whether statements are in order, and no two clash at a path.
fn are_apart(catalog: &Catalog, stmts: &[Stmt]) -> bool
    ensures { result ≡ are_ordered_apart (key_lengths catalog.now.rels) stmts.now }
{
    climb(stmts) && plus_climb(catalog, stmts)
}

// Whether statements, their tuples and their worlds are not too many.
fn are_few(alloc: Global, stmts: &[Stmt]) -> Result<bool, AllocError>
    ensures { IfOk result (λ few. few ≡ are_few stmts.now) }
{
    if MOST_STATEMENTS < stmts.len() {
        return Ok(false);
    }
    match are_few_tuples(alloc, stmts) {
        Ok(true) => match are_few_worlds(alloc, stmts) {
            Ok(few) => Ok(few),
            Err(error) => Err(error),
        },
        Ok(false) => Ok(false),
        Err(error) => Err(error),
    }
}

// Whether the tuples of statements are not too many.
fn are_few_tuples(alloc: Global, stmts: &[Stmt]) -> Result<bool, AllocError>
    ensures { IfOk result (λ few. few ≡ nat_le (tuple_count stmts.now) most_tuples) }
{
    match distinct_tuples(alloc, stmts) {
        Ok(count) => Ok(count <= MOST_TUPLES),
        Err(error) => Err(error),
    }
}

// Whether the worlds of statements are not too many.
#[tactic(auto, using(crate::proofs::CountLemmas::few_worlds))]
fn are_few_worlds(alloc: Global, stmts: &[Stmt]) -> Result<bool, AllocError>
    ensures { IfOk result (λ few. few ≡ nat_le (world_count stmts.now) most_worlds) }
{
    match states_of(alloc, stmts) {
        Ok(states) => Ok(states.len() <= MOST_WORLDS),
        Err(error) => Err(error),
    }
}

// Whether each statement is below the next one by path and tuple.
fn climb(stmts: &[Stmt]) -> bool
    ensures { result ≡ climbs place_cmp stmts.now }
{
    let mut rest = stmts;
    while let [first, others @ ..] = rest {
        if !is_below_next(first, others) {
            return false;
        }
        rest = others;
    }
    true
}

// Whether a statement is below the first one of a list by path and tuple, if there is one.
fn is_below_next(stmt: &Stmt, others: &[Stmt]) -> bool
    ensures { result ≡ below_next place_cmp stmt.now others.now }
{
    match others {
        [] => true,
        [next, _rest @ ..] => cmp_place(stmt, next).is_lt(),
    }
}

// The order by path, then tuple.
fn cmp_place(a: &Stmt, b: &Stmt) -> Ordering
    ensures { result ≡ place_cmp a.now b.now }
{
    match cmp_path(a.path.as_slice(), b.path.as_slice()) {
        Ordering::Equal => cmp_tuple(&a.tuple, &b.tuple),
        other => other,
    }
}

// Whether each plus statement is below the next one by path, relation and key.
fn plus_climb(catalog: &Catalog, stmts: &[Stmt]) -> bool
    ensures { result ≡ plus_climb (key_lengths catalog.now.rels) stmts.now }
{
    let mut rest = stmts;
    while let [first, others @ ..] = rest {
        if !goes_before(catalog, first, others) {
            return false;
        }
        rest = others;
    }
    true
}

// Whether a statement, if it is plus, is below the first plus one of a list by path, relation and key.
fn goes_before(catalog: &Catalog, stmt: &Stmt, others: &[Stmt]) -> bool
    ensures { result ≡ (not (is_plus stmt.now) || below_plus (key_lengths catalog.now.rels)
        stmt.now others.now) }
{
    !is_plus(stmt) || is_below_plus(catalog, stmt, others)
}

// Whether a statement is below the first plus one of a list by path, relation and key, if there is one.
fn is_below_plus(catalog: &Catalog, stmt: &Stmt, others: &[Stmt]) -> bool
    ensures { result ≡ below_plus (key_lengths catalog.now.rels) stmt.now others.now }
{
    let mut rest = others;
    while let [next, others @ ..] = rest {
        if is_plus(next) {
            return cmp_group(catalog, stmt, next).is_lt();
        }
        rest = others;
    }
    true
}

// Whether a statement affirms its tuple.
fn is_plus(stmt: &Stmt) -> bool
    ensures { result ≡ is_plus stmt.now }
{
    stmt.sign == Sign::Plus
}

// The order by path, then relation, then key.
fn cmp_group(catalog: &Catalog, a: &Stmt, b: &Stmt) -> Ordering
    ensures { result ≡ group_cmp (key_lengths catalog.now.rels) a.now b.now }
{
    match cmp_path(a.path.as_slice(), b.path.as_slice()) {
        Ordering::Equal => match a.tuple.rel.cmp(&b.tuple.rel) {
            Ordering::Equal => cmp_row(key_in(catalog, &a.tuple), key_in(catalog, &b.tuple)),
            other => other,
        },
        other => other,
    }
}
