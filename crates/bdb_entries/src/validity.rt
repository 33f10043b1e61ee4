// Whether users and relations are those of a valid base.
ghost use Rattle.std.specs.Prelude.{◌≡◌, ◌&&◌, ℕ, nat_le, nat_lt, not, List, length, map};
ghost use Rattle.std.specs.List.{list_all, list_any};
ghost use Rattle.bdb_base.specs.Bases.{are_distinct, is_called, is_key, is_plain, is_valid_relation, user_names, users_name};
ghost use Rattle.bdb_base.specs.Limits.{most_columns};
ghost use Rattle.bdb_base.specs.Same.{same_text};
ghost use Rattle.bdb_entries.specs.Catalog.{are_relations, are_users, has_name_of, has_plain_name, is_catalog, names_differ, slots_differ};

use bdb_base::limits::{MOST_COLUMNS, MOST_RELATIONS, MOST_USERS};
use bdb_base::{Catalog, ColDef, RelDef, Txt, UserSlot, is_called, is_plain, is_same_text};

/// Whether users and relations are those of a valid base.
pub fn is_catalog(catalog: &Catalog) -> bool
    ensures { result ≡ is_catalog catalog.now }
{
    are_users(catalog.users.as_slice()) && are_relations(catalog.rels.as_slice())
}

// Whether places are those of users: not too many, and the names of the live ones plain, and no two alike.
fn are_users(users: &[UserSlot]) -> bool
    ensures { result ≡ are_users users.now }
{
    users.len() <= MOST_USERS && are_user_names(users)
}

// Whether the names of live users are plain, and no two alike.
fn are_user_names(users: &[UserSlot]) -> bool
    ensures { result ≡ (are_distinct (user_names users.now) && list_all is_plain
        (user_names users.now)) }
{
    are_users_apart(users) && are_users_plain(users)
}

// Whether no two live users have the same name.
#[tactic(auto, using(crate::proofs::CatalogLemmas::slots_are_distinct))]
fn are_users_apart(users: &[UserSlot]) -> bool
    ensures { result ≡ are_distinct (user_names users.now) }
{
    slots_differ(users)
}

// Whether no live user has the name of a later one.
fn slots_differ(users: &[UserSlot]) -> bool
    ensures { result ≡ slots_differ users.now }
{
    let mut rest = users;
    while let [first, others @ ..] = rest {
        if has_name_of(others, first) {
            return false;
        }
        rest = others;
    }
    true
}

// Whether one of these users has the name of the live user of a place.
fn has_name_of(users: &[UserSlot], slot: &UserSlot) -> bool
    ensures { result ≡ has_name_of users.now slot.now }
{
    match slot {
        UserSlot::Live(name) => has_user(users, name),
        UserSlot::Gone => false,
    }
}

// Whether one of these users has a name.
fn has_user(users: &[UserSlot], name: &Txt) -> bool
    ensures { result ≡ list_any (is_called name.now) users.now }
{
    users.iter().any(|slot| is_called(name, slot))
}

// Whether the names of live users are plain.
#[tactic(auto, using(crate::proofs::CatalogLemmas::slots_are_plain))]
fn are_users_plain(users: &[UserSlot]) -> bool
    ensures { result ≡ list_all is_plain (user_names users.now) }
{
    have_plain_names(users)
}

// Whether each place that has a live user has a plain name.
fn have_plain_names(users: &[UserSlot]) -> bool
    ensures { result ≡ list_all has_plain_name users.now }
{
    users.iter().all(has_plain_name)
}

// Whether a place has a plain name, if its user is live.
fn has_plain_name(slot: &UserSlot) -> bool
    ensures { result ≡ has_plain_name slot.now }
{
    match slot {
        UserSlot::Live(name) => is_plain(name),
        UserSlot::Gone => true,
    }
}

// Whether relations are those of a base: not too many, valid, and no two of one name.
fn are_relations(rels: &[RelDef]) -> bool
    ensures { result ≡ are_relations rels.now }
{
    rels.len() <= MOST_RELATIONS && are_valid_relations(rels)
}

// Whether relations are valid, and no two of one name.
fn are_valid_relations(rels: &[RelDef]) -> bool
    ensures { result ≡ (are_distinct (map (λ r. r.name) rels.now)
        && list_all is_valid_relation rels.now) }
{
    differ(rels) && all_valid(rels)
}

// Whether each relation is valid.
fn all_valid(rels: &[RelDef]) -> bool
    ensures { result ≡ list_all is_valid_relation rels.now }
{
    rels.iter().all(is_valid_relation)
}

// Whether a relation is valid: with columns, not too many, whose names differ, plain names, its own not `Users`, and a key.
fn is_valid_relation(def: &RelDef) -> bool
    ensures { result ≡ is_valid_relation def.now }
{
    has_columns(def.cols.as_slice())
        && (are_names(def.cols.as_slice()) && is_relation_name(&def.name) && is_key(def))
}

// Whether the key of a relation is of its first columns, at least one and at most all.
fn is_key(def: &RelDef) -> bool
    ensures { result ≡ is_key def.now }
{
    0 < def.key && def.key as usize <= def.cols.len()
}

// Whether there are columns, and not too many.
fn has_columns(cols: &[ColDef]) -> bool
    ensures { result ≡ (nat_lt 0 (length cols.now) && nat_le (length cols.now) most_columns) }
{
    0 < cols.len() && cols.len() <= MOST_COLUMNS
}

// Whether a name is one that a relation may have.
fn is_relation_name(name: &Txt) -> bool
    ensures { result ≡ (is_plain name.now && not (same_text name.now users_name)) }
{
    is_plain(name) && !is_users_name(name)
}

// Whether a name is that of the item that lists the users in a query.
fn is_users_name(name: &Txt) -> bool
    ensures { result ≡ same_text name.now users_name }
{
    name.as_str() == "Users"
}

// What has a name.
trait HasName {
    // the bytes of the name
    ghost name_of: { Self → List ℕ };

    fn name(&self) -> &Txt
        ensures { result.now ≡ name_of self.now };
}

impl HasName for ColDef {
    ghost name_of = { λ c. c.name };

    fn name(&self) -> &Txt {
        &self.name
    }
}

impl HasName for RelDef {
    ghost name_of = { λ r. r.name };

    fn name(&self) -> &Txt {
        &self.name
    }
}

// Whether names are plain, and no two alike.
fn are_names<X: HasName>(items: &[X]) -> bool
    ensures { result ≡ (are_distinct (map X.name_of items.now) && list_all
        (λ x. is_plain (X.name_of x)) items.now) }
{
    differ(items) && all_plain(items)
}

// Whether each name is plain.
fn all_plain<X: HasName>(items: &[X]) -> bool
    ensures { result ≡ list_all (λ x. is_plain (X.name_of x)) items.now }
{
    items.iter().all(|item| is_plain(item.name()))
}

// Whether no two names are alike.
#[tactic(auto, using(crate::proofs::CatalogLemmas::differ_are_distinct))]
fn differ<X: HasName>(items: &[X]) -> bool
    ensures { result ≡ are_distinct (map X.name_of items.now) }
{
    names_differ(items)
}

// Whether no name is that of a later one.
fn names_differ<X: HasName>(items: &[X]) -> bool
    ensures { result ≡ names_differ X.name_of items.now }
{
    let mut rest = items;
    while let [first, others @ ..] = rest {
        if has_name(others, first.name()) {
            return false;
        }
        rest = others;
    }
    true
}

// Whether one of these has a name.
fn has_name<X: HasName>(items: &[X], name: &Txt) -> bool
    ensures { result ≡ list_any (λ x. same_text name.now (X.name_of x)) items.now }
{
    items.iter().any(|item| is_same_text(name, item.name()))
}
