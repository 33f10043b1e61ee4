// What a command that isn't refused is bound to.
ghost use Rattle.std.specs.Prelude.{◌≡◌, ◌<◌, ◌≤◌, ◌^◌, unsigned_abs, true, None, length, map, IfOk, IfSome};
ghost use Rattle.std.specs.Option.{unwrap_or};
ghost use Rattle.bdb_base.specs.Limits.{most_users, most_relations, most_columns};
ghost use Rattle.bdb_base.specs.Alternation.{alternates};
ghost use Rattle.bdb_base.specs.Bases.{IsCatalog};
ghost use Rattle.bdb_bind.specs.Lookup.{uid_at, path_of};
ghost use Rattle.bdb_bind.specs.Parts.{query_of, path_names, relation_place, change_columns};
ghost use Rattle.bdb_bind.specs.Refusal.{names_refused};
ghost use Rattle.bdb_bind.specs.Binding.{relation_at, key_length, place_of, bound_column, bound_side, bound_cond, bound_set, first_of, bound_of};

use crate::bound::Bound;
use crate::found::FoundRelation;
use crate::lookup::{column_at, number_of, uid_of};
use crate::parts::new_key;
use bdb_base::{
    Catalog, ColDef, Cond, List, Operand, Path, PathError, Ref, RelDef, SetCol, Sign, Stmt, Tuple,
    Txt, UserSlot, Value,
};
use bdb_syntax::{Command, RawCond, RawSet, RawSide};
use std::alloc::{AllocError, Global};
use std::mem;

/// The uid of a name that is a live user's.
pub fn uid_at(users: &[UserSlot], name: &Txt) -> u32
    requires { length users.now ≤ most_users }
    ensures { result ≡ uid_at users.now name.now }
{
    match uid_of(users, name) {
        Some(uid) => uid as u32,
        None => 0,
    }
}

/// The path of these uids.
fn path_of(alloc: Global, ids: &[u32]) -> Result<Path, AllocError>
    requires alternates { alternates ids.now ≡ true }
    ensures { IfOk result (λ path. path ≡ ids.now) }
{
    match Path::try_new(alloc, ids) {
        Ok(path) => Ok(path),
        Err(PathError::Repeat) => unreachable!(),
        Err(PathError::Memory) => Err(AllocError),
    }
}

/// The number of a relation that stands at a place.
fn number_at(place: Option<usize>) -> u32
    requires { IfSome place (λ at. at < most_relations) }
    ensures { result ≡ unwrap_or place 0 }
{
    match place {
        Some(at) => at as u32,
        None => 0,
    }
}

/// The number of a relation that is there.
pub fn relation_at(rels: &[RelDef], name: &Txt) -> u32
    requires { length rels.now ≤ most_relations }
    ensures { result ≡ relation_at rels.now name.now }
{
    match number_of(rels, name) {
        Some(number) => number as u32,
        None => 0,
    }
}

/// A column that is there, of item 0.
fn bound_column(cols: &[ColDef], name: &Txt) -> Ref
    requires { length cols.now ≤ most_columns }
    ensures { result ≡ bound_column cols.now name.now }
{
    Ref {
        item: 0,
        col: place_of(cols, name),
    }
}

/// The place of a column that is there.
fn place_of(cols: &[ColDef], name: &Txt) -> u32
    requires { length cols.now ≤ most_columns }
    ensures { result ≡ place_of cols.now name.now }
{
    match column_at(cols, name) {
        Some(place) => place as u32,
        None => 0,
    }
}

fn bound_side(cols: &[ColDef], side: RawSide) -> Operand
    requires { length cols.now ≤ most_columns }
    ensures { result ≡ bound_side cols.now side }
{
    match side {
        RawSide::Col(right) => Operand::Col(bound_column(cols, &right.col)),
        RawSide::Lit(value) => Operand::Lit(value),
    }
}

fn bound_cond(cols: &[ColDef], cond: RawCond) -> Cond
    requires { length cols.now ≤ most_columns }
    ensures { result ≡ bound_cond cols.now cond }
{
    Cond {
        left: bound_column(cols, &cond.left.col),
        cmp: cond.cmp,
        right: bound_side(cols, cond.right),
    }
}

fn bound_conds(
    alloc: Global,
    cols: &[ColDef],
    conds: List<RawCond>,
) -> Result<List<Cond>, AllocError>
    requires { length cols.now ≤ most_columns }
    ensures { IfOk result (λ b. b ≡ map (bound_cond cols.now) conds) }
{
    let mut bound = List::new(alloc);
    for cond in conds.into_vec() {
        bound.push(bound_cond(cols, cond))?;
    }
    Ok(bound)
}

fn bound_set(cols: &[ColDef], set: RawSet) -> SetCol
    requires { length cols.now ≤ most_columns }
    ensures { result ≡ bound_set cols.now set }
{
    SetCol {
        col: place_of(cols, &set.col),
        to: set.to,
    }
}

fn bound_sets(
    alloc: Global,
    cols: &[ColDef],
    sets: List<RawSet>,
) -> Result<List<SetCol>, AllocError>
    requires { length cols.now ≤ most_columns }
    ensures { IfOk result (λ b. b ≡ map (bound_set cols.now) sets) }
{
    let mut bound = List::new(alloc);
    for set in sets.into_vec() {
        bound.push(bound_set(cols, set))?;
    }
    Ok(bound)
}

/// The statement of a path, a sign and a tuple.
fn statement(
    alloc: Global,
    ids: &[u32],
    sign: Sign,
    rel: u32,
    vals: List<Value>,
) -> Result<Stmt, AllocError>
    requires alternates { alternates ids.now ≡ true }
    requires filled { 0 < length vals }
    ensures { IfOk result
        (λ s. s ≡ record {
          path = ids.now;
          sign = sign;
          tuple = record { rel = rel; vals = vals };
        }) }
{
    let path = path_of(alloc, ids)?;
    let tuple = Tuple { rel, vals };
    Ok(Stmt { path, sign, tuple })
}

/// The insert of a statement.
fn bound_insert(
    alloc: Global,
    ids: &[u32],
    sign: Sign,
    rel: u32,
    vals: List<Value>,
) -> Result<Bound, AllocError>
    requires alternates { alternates ids.now ≡ true }
    requires filled { 0 < length vals }
    ensures { IfOk result
        (λ b. b ≡ Bound.Insert
        (record { path = ids.now; sign = sign; tuple = record { rel = rel; vals = vals } })) }
{
    let stmt = statement(alloc, ids, sign, rel, vals)?;
    Ok(Bound::Insert { stmt })
}

/// The question why a statement is believed or not.
fn bound_why(
    alloc: Global,
    ids: &[u32],
    sign: Sign,
    rel: u32,
    vals: List<Value>,
) -> Result<Bound, AllocError>
    requires alternates { alternates ids.now ≡ true }
    requires filled { 0 < length vals }
    ensures { IfOk result
        (λ b. b ≡ Bound.Why
        (record { path = ids.now; sign = sign; tuple = record { rel = rel; vals = vals } })) }
{
    let stmt = statement(alloc, ids, sign, rel, vals)?;
    Ok(Bound::Why { stmt })
}

/// The delete of the statements that meet all tests.
fn bound_delete(
    alloc: Global,
    ids: &[u32],
    sign: Sign,
    rel: u32,
    cols: &[ColDef],
    conds: List<RawCond>,
) -> Result<Bound, AllocError>
    requires alternates { alternates ids.now ≡ true }
    requires few { length cols.now ≤ most_columns }
    ensures { IfOk result
        (λ b. b ≡ Bound.Delete ids.now sign rel (map (bound_cond cols.now) conds)) }
{
    let path = path_of(alloc, ids)?;
    let conds = bound_conds(alloc, cols, conds)?;
    Ok(Bound::Delete {
        path,
        sign,
        rel,
        conds,
    })
}

/// The update of the statements that meet all tests.
fn bound_update(
    alloc: Global,
    ids: &[u32],
    sign: Sign,
    rel: u32,
    cols: &[ColDef],
    sets: List<RawSet>,
    conds: List<RawCond>,
) -> Result<Bound, AllocError>
    requires alternates { alternates ids.now ≡ true }
    requires few { length cols.now ≤ most_columns }
    ensures { IfOk result (λ b. b ≡ Bound.Update ids.now sign rel (map (bound_set cols.now) sets)
        (map (bound_cond cols.now) conds)) }
{
    let path = path_of(alloc, ids)?;
    let sets = bound_sets(alloc, cols, sets)?;
    let conds = bound_conds(alloc, cols, conds)?;
    Ok(Bound::Update {
        path,
        sign,
        rel,
        sets,
        conds,
    })
}

/// Takes a text out of its place, and leaves an empty one there.
fn take_text(alloc: Global, place: &mut Txt) -> Result<Txt, AllocError>
    ensures { IfOk result (λ text. text ≡ place.old) }
{
    let empty = Txt::try_new(alloc, "")?;
    let text = mem::replace(place, empty);
    Ok(text)
}

/// The new user.
fn bound_user(alloc: Global, name: &mut Txt) -> Result<Bound, AllocError>
    ensures { IfOk result (λ b. b ≡ Bound.CreateUser name.old) }
{
    let name = take_text(alloc, name)?;
    Ok(Bound::CreateUser { name })
}

/// The first number of a path; 0 where it is empty.
fn first_of(ids: &[u32]) -> u32
    ensures { result ≡ first_of ids.now }
{
    match ids {
        [uid, ..] => *uid,
        [] => 0,
    }
}

/// How many columns the key of a new relation has: one where no number is said.
fn key_length(said: Option<i64>) -> u32
    requires { IfSome said (λ length. unsigned_abs length < 2 ^ 32) }
    ensures { result ≡ key_length said }
{
    match said {
        Some(length) => length.unsigned_abs() as u32,
        None => 1,
    }
}

/// The new relation.
fn bound_relation(
    alloc: Global,
    name: &mut Txt,
    cols: &mut List<ColDef>,
    key: u32,
) -> Result<Bound, AllocError>
    ensures { IfOk result
        (λ b. b ≡ Bound.CreateRelation (record { name = name.old; cols = cols.old; key = key })) }
{
    let name = take_text(alloc, name)?;
    let cols = mem::replace(cols, List::new(alloc));
    let def = RelDef { name, cols, key };
    Ok(Bound::CreateRelation { def })
}

/// The world that is shown.
fn bound_world(alloc: Global, ids: &[u32]) -> Result<Bound, AllocError>
    requires alternates { alternates ids.now ≡ true }
    ensures { IfOk result (λ b. b ≡ Bound.ShowWorld ids.now) }
{
    let path = path_of(alloc, ids)?;
    Ok(Bound::ShowWorld { path })
}

/// What a command that is no query and isn't refused is bound to, once its relation and the users of its path are found.
/// Its texts are taken out of it.
#[tactic(auto, using(crate::proofs::CatalogLemmas::place_few, crate::proofs::CatalogLemmas::change_columns_few, crate::proofs::CatalogLemmas::accepted_alternates, crate::proofs::CatalogLemmas::key_few))]
pub fn bound_change(
    alloc: Global,
    catalog: &Catalog,
    found: &FoundRelation,
    ids: &[u32],
    command: &mut Command,
) -> Result<Bound, AllocError>
    requires catalog { IsCatalog catalog.now }
    requires change { query_of command.old ≡ None }
    requires accepted { names_refused catalog.now command.old ≡ None }
    requires place { found.now.place ≡ relation_place catalog.now.rels command.old }
    requires cols { found.now.cols.now ≡ change_columns catalog.now.rels command.old }
    requires ids { ids.now ≡ path_of catalog.now.users (path_names command.old) }
    ensures { IfOk result (λ b. b ≡ bound_of catalog.now command.old) }
{
    let (rel, cols) = (number_at(found.place), found.cols);
    let key = key_length(new_key(command));
    match command {
        Command::CreateUser { name } => bound_user(alloc, name),
        Command::DropUser { .. } => Ok(Bound::DropUser { uid: first_of(ids) }),
        Command::CreateRelation { name, cols, .. } => bound_relation(alloc, name, cols, key),
        Command::Insert { sign, vals, .. } => {
            let vals = mem::replace(vals, List::new(alloc));
            bound_insert(alloc, ids, *sign, rel, vals)
        }
        Command::Delete { sign, conds, .. } => {
            let conds = mem::replace(conds, List::new(alloc));
            bound_delete(alloc, ids, *sign, rel, cols, conds)
        }
        Command::Update {
            sign,
            sets,
            conds,
            ..
        } => {
            let sets = mem::replace(sets, List::new(alloc));
            let conds = mem::replace(conds, List::new(alloc));
            bound_update(alloc, ids, *sign, rel, cols, sets, conds)
        }
        Command::Select { .. } => unreachable!(),
        Command::Explain { .. } => unreachable!(),
        Command::ShowWorld { .. } => bound_world(alloc, ids),
        Command::Why { sign, vals, .. } => {
            let vals = mem::replace(vals, List::new(alloc));
            bound_why(alloc, ids, *sign, rel, vals)
        }
        Command::ShowTables => Ok(Bound::ShowTables),
        Command::Undo => Ok(Bound::Undo),
        Command::Redo => Ok(Bound::Redo),
    }
}
