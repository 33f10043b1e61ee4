// What is stated at each end of a path, which is all that its world depends on.
ghost use Rattle.std.specs.Prelude.{◌≡◌, ◌++◌, true, [], IfOk, OnOk};
ghost use Rattle.bdb_base.specs.Bases.{key_lengths};
ghost use Rattle.bdb_base.specs.Order.{statement_cmp};
ghost use Rattle.bdb_base.specs.SortedSet.{ascending};
ghost use Rattle.bdb_model.specs.Levels.{no_level, with_stated, with_all, level_of, level_if_any, levels_of, has_stated, refuses, stated_by};

use crate::ends::at_path;
use crate::keys::{TupleKey, key_tuple};
use bdb_base::{List, RelDef, Sign, Stmt, Tuple, contains, put, put_copy};
use std::alloc::{AllocError, Global};
use std::marker::Model;

/// What is stated at one path: the tuples with plus, those with minus, and the keys of the former, each a set in order.
#[derive(Drop)]
pub struct Level {
    plus: List<Tuple>,
    minus: List<Tuple>,
    keys: List<TupleKey>,
}

impl Model for Level {
    ghost use Rattle.bdb_model.specs.LevelSets.{Sets, AreSets};

    ghost Value = { Sets };

    ghost view = { λ l. record { plus = l.plus; minus = l.minus; keys = l.keys } };

    ghost invariant = { λ l. AreSets l.plus l.minus l.keys };
}

impl Level {
    /// The level at which nothing is stated.
    fn new(alloc: Global) -> Self
        ensures { result ≡ record { plus = []; minus = []; keys = [] } }
    {
        Level {
            plus: List::new(alloc),
            minus: List::new(alloc),
            keys: List::new(alloc),
        }
    }

    /// Adds what a statement states.
    fn add(&mut self, alloc: Global, rels: &[RelDef], x: &Stmt) -> Result<(), AllocError>
        ensures { OnOk result
            (self.new ≡ with_stated (key_lengths rels.now) self.old x.now.tuple x.now.sign) }
    {
        match x.sign {
            Sign::Plus => {
                let key = key_tuple(alloc, rels, &x.tuple)?;
                let _added = put_copy(alloc, &mut self.plus, &x.tuple)?;
                let _first = put(&mut self.keys, key)?;
            }
            Sign::Minus => {
                let _added = put_copy(alloc, &mut self.minus, &x.tuple)?;
            }
        }
        Ok(())
    }

    /// Whether a signed tuple is stated here.
    pub fn has(&self, t: &Tuple, s: Sign) -> bool
        ensures { result ≡ has_stated self.now t.now s }
    {
        match s {
            Sign::Plus => contains(self.plus.as_slice(), t),
            Sign::Minus => contains(self.minus.as_slice(), t),
        }
    }

    /// Whether a signed tuple that is not stated here clashes with one that is.
    fn refuses(&self, t: &Tuple, key: &TupleKey, s: Sign) -> bool
        ensures { result ≡ refuses self.now t.now key.now s }
    {
        match s {
            Sign::Plus => {
                contains(self.minus.as_slice(), t) || contains(self.keys.as_slice(), key)
            }
            Sign::Minus => contains(self.plus.as_slice(), t),
        }
    }
}

/// What is stated at this very path.
pub fn level_of(
    alloc: Global,
    rels: &[RelDef],
    stmts: &[Stmt],
    path: &[u32],
) -> Result<Level, AllocError>
    requires { ascending statement_cmp stmts.now ≡ true }
    ensures { IfOk result (λ level. level ≡ level_of (key_lengths rels.now) stmts.now path.now) }
{
    let level = level_with(alloc, rels, at_path(stmts, path))?;
    Ok(level)
}

/// The level at which all of these statements stand.
fn level_with(alloc: Global, rels: &[RelDef], stmts: &[Stmt]) -> Result<Level, AllocError>
    ensures { IfOk result (λ level. level ≡ with_all (key_lengths rels.now) no_level stmts.now) }
{
    let mut level = Level::new(alloc);
    for x in stmts {
        level.add(alloc, rels, x)?;
    }
    Ok(level)
}

/// The level of the path, then that of the path without its first user, and so on to the empty path, without those at
/// which nothing is stated.
pub fn levels_of(
    alloc: Global,
    rels: &[RelDef],
    stmts: &[Stmt],
    path: &[u32],
) -> Result<Vec<Level>, AllocError>
    requires { ascending statement_cmp stmts.now ≡ true }
    ensures { IfOk result
        (λ levels. levels.items ≡ levels_of (key_lengths rels.now) stmts.now path.now) }
{
    let mut levels = Vec::new(alloc);
    let mut rest = path;
    while let [_, others @ ..] = rest {
        push_if_any(alloc, rels, &mut levels, at_path(stmts, rest))?;
        rest = others;
    }
    push_if_any(alloc, rels, &mut levels, at_path(stmts, rest))?;
    Ok(levels)
}

/// Adds the level at which all of these statements stand, if there are any.
fn push_if_any(
    alloc: Global,
    rels: &[RelDef],
    levels: &mut Vec<Level>,
    stmts: &[Stmt],
) -> Result<(), AllocError>
    ensures { OnOk result
        (levels.new.items ≡ levels.old.items ++ level_if_any (key_lengths rels.now) stmts.now) }
{
    if stmts.is_empty() {
        return Ok(());
    }
    levels.push(level_with(alloc, rels, stmts)?)?;
    Ok(())
}

/// Whether the world of the levels' path has a signed tuple.
pub fn stated_by(levels: &[Level], t: &Tuple, key: &TupleKey, s: Sign) -> bool
    ensures { result ≡ stated_by levels.now t.now key.now s }
{
    match levels {
        [] => false,
        [level, lower @ ..] => {
            level.has(t, s) || (stated_by(lower, t, key, s) && !level.refuses(t, key, s))
        }
    }
}
