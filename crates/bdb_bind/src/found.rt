// What the names of a command stand for, each looked up once.
ghost use Rattle.std.specs.Prelude.{◌≡◌, ◌<◌, ◌≤◌, [], None, true, length, map, IfOk, IfSome};
ghost use Rattle.std.specs.List.{slice_get};
ghost use Rattle.std.specs.Option.{option_map};
ghost use Rattle.bdb_base.specs.Limits.{most_users};
ghost use Rattle.bdb_base.specs.Bases.{IsCatalog, are_distinct, user_names};
ghost use Rattle.bdb_bind.specs.Firsts.{Checks};
ghost use Rattle.bdb_bind.specs.Lookup.{is_called_at, uid_of, path_of, is_name, relation_number, columns_of};
ghost use Rattle.bdb_bind.specs.Lines.{unknown_user};
ghost use Rattle.bdb_bind.specs.Parts.{relation_place, change_columns};

use crate::bound::BindError;
use crate::index::NameIndex;
use crate::lookup::uid_of;
use crate::parts::relation_name;
use crate::refusals::unknown_user;
use bdb_base::{Catalog, ColDef, List, RelDef, Txt, UserSlot, is_called, is_same_text};
use bdb_syntax::Command;
use std::alloc::Global;

/// The place and the columns of a relation that may not be there.
#[derive(Drop)]
pub struct FoundRelation<'a> {
    pub place: Option<usize>,
    pub cols: &'a [ColDef],
}

/// The relation that a command names.
pub fn find_relation<'a>(
    catalog: &'a Catalog,
    index: &NameIndex,
    command: &Command,
) -> FoundRelation<'a>
    requires catalog { IsCatalog catalog.now }
    ensures place { result.place ≡ relation_place catalog.now.rels command.now }
    ensures cols { result.cols.now ≡ change_columns catalog.now.rels command.now }
{
    match relation_name(command) {
        Some(name) => find_by_name(catalog.rels.as_slice(), index, name),
        None => FoundRelation {
            place: None,
            cols: &[],
        },
    }
}

/// The relation of a name: where the index says, or else by a search.
#[tactic(auto, using(crate::proofs::PlaceLemmas::relation_at_place, crate::proofs::PlaceLemmas::columns_at_place))]
fn find_by_name<'a>(rels: &'a [RelDef], index: &NameIndex, name: &Txt) -> FoundRelation<'a>
    requires differ { are_distinct (map (λ r. r.name) rels.now) ≡ true }
    ensures place { result.place ≡ relation_number rels.now name.now }
    ensures cols { result.cols.now ≡ columns_of rels.now name.now }
{
    if let Some(at) = index.relation(name) {
        if is_relation_at(rels, at, name) {
            return FoundRelation {
                place: Some(at),
                cols: rels[at].cols.as_slice(),
            };
        }
    }
    search(rels, name)
}

/// Whether a relation of this name stands at a place.
fn is_relation_at(rels: &[RelDef], at: usize, name: &Txt) -> bool
    ensures here { result ≡ is_name name.now (option_map (λ r. r.name) (slice_get rels.now at)) }
    ensures within { result ≡ true → at < length rels.now }
{
    match rels.get(at) {
        Some(rel) => is_same_text(&rel.name, name),
        None => false,
    }
}

/// The relation of a name, by a search.
fn search<'a>(rels: &'a [RelDef], name: &Txt) -> FoundRelation<'a>
    ensures place { result.place ≡ relation_number rels.now name.now }
    ensures cols { result.cols.now ≡ columns_of rels.now name.now }
{
    for (at, rel) in rels.iter().enumerate() {
        if is_same_text(&rel.name, name) {
            return FoundRelation {
                place: Some(at),
                cols: rel.cols.as_slice(),
            };
        }
    }
    FoundRelation {
        place: None,
        cols: &[],
    }
}

/// The uids of names. The first that is no live user's is refused.
pub fn find_users(
    alloc: Global,
    users: &[UserSlot],
    index: &NameIndex,
    names: &[Txt],
) -> Result<List<u32>, BindError>
    requires differ { are_distinct (user_names users.now) ≡ true }
    requires few { length users.now ≤ most_users }
    ensures checks { Checks result (unknown_user users.now names.now) }
    ensures ids { IfOk result (λ ids. ids ≡ path_of users.now names.now) }
{
    let mut ids = List::new(alloc);
    for name in names {
        let Some(uid) = find_user(users, index, name) else {
            return Err(unknown_user(alloc, name));
        };
        if ids.push(uid as u32).is_err() {
            return Err(BindError::Memory);
        }
    }
    Ok(ids)
}

/// The uid of a name: where the index says, or else by a search.
#[tactic(auto, using(crate::proofs::PlaceLemmas::user_at))]
fn find_user(users: &[UserSlot], index: &NameIndex, name: &Txt) -> Option<usize>
    requires differ { are_distinct (user_names users.now) ≡ true }
    ensures uid { result ≡ uid_of users.now name.now }
    ensures within { IfSome result (λ uid. uid ≤ length users.now) }
{
    if let Some(at) = index.user(name) {
        if is_user_at(users, at, name) {
            return Some(at + 1);
        }
    }
    uid_of(users, name)
}

/// Whether a live user of this name stands at a place.
fn is_user_at(users: &[UserSlot], at: usize, name: &Txt) -> bool
    ensures here { result ≡ is_called_at name.now (slice_get users.now at) }
    ensures within { result ≡ true → at < length users.now }
{
    match users.get(at) {
        Some(user) => is_called(name, user),
        None => false,
    }
}
