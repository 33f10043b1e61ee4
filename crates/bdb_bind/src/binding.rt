// Binding a command.
ghost use Rattle.std.specs.Prelude.{◌≡◌, ◌≢◌, None, Some, IfOk, IfErr, OnOk};
ghost use Rattle.bdb_base.specs.Bases.{IsCatalog};
ghost use Rattle.bdb_bind.specs.Lookup.{path_of};
ghost use Rattle.bdb_bind.specs.Parts.{query_of, path_names, relation_place, change_columns};
ghost use Rattle.bdb_bind.specs.Firsts.{Checks};
ghost use Rattle.bdb_bind.specs.Lines.{text_line};
ghost use Rattle.bdb_bind.specs.Refusal.{query_names_refused, change_refused, query_refusal, refusal_of};
ghost use Rattle.bdb_bind.specs.Binding.{bound_of};
ghost use Rattle.bdb_bind.specs.QueryBinding.{bound_query};

use crate::aliases::check_query_aliases;
use crate::bound::{BindError, Bound};
use crate::columns::check_query_columns;
use crate::found::{FoundRelation, find_relation};
use crate::index::NameIndex;
use crate::kinds::check_kinds;
use crate::making::bound_change;
use crate::names::{check_columns, check_relation, check_taken, check_users};
use crate::queries::{
    check_query_depth, check_query_items, check_query_kinds, check_query_relations,
    check_query_repeat, check_query_users,
};
use crate::query_items::QueryItems;
use crate::query_making::bound_query;
use crate::shape::{check_arity, check_depth, check_items, check_key, check_repeat, check_texts};
use crate::unsafes::check_safe;
use bdb_base::{Catalog, Exact, List, Query};
use bdb_syntax::{Command, RawQuery};
use std::alloc::Global;

/// Binds a command over a catalog. It is refused exactly where a reason to refuse it applies, and the first of them in
/// their fixed order is answered.
pub fn bind(alloc: Global, catalog: &Catalog, command: &Command) -> Result<Bound, BindError>
    requires catalog { IsCatalog catalog.now }
    ensures accepted { OnOk result (refusal_of catalog.now command.now ≡ None) }
    ensures bound { IfOk result (λ b. b ≡ bound_of catalog.now command.now) }
    ensures refused { IfErr result (λ e. e ≢ BindError.Memory → refusal_of catalog.now command.now
        ≡ Some e) }
{
    match command.try_clone(alloc) {
        Ok(copy) => {
            let bound = bind_by(alloc, catalog, &NameIndex::new(alloc), copy)?;
            Ok(bound)
        }
        Err(_) => Err(BindError::Memory),
    }
}

/// The same of a command that is given up, whose texts are moved, but for those of a query; and where an index tells where
/// names stand: that of the catalog makes it fast, whatever the catalog's size.
pub fn bind_by(
    alloc: Global,
    catalog: &Catalog,
    index: &NameIndex,
    command: Command,
) -> Result<Bound, BindError>
    requires catalog { IsCatalog catalog.now }
    ensures accepted { OnOk result (refusal_of catalog.now command ≡ None) }
    ensures bound { IfOk result (λ b. b ≡ bound_of catalog.now command) }
    ensures refused { IfErr result (λ e. e ≢ BindError.Memory → refusal_of catalog.now command
        ≡ Some e) }
{
    let mut command = command;
    match bind_taking(alloc, catalog, index, &mut command) {
        Ok(bound) => Ok(bound),
        Err(error) => Err(error),
    }
}

/// Binds a command, whose texts may be taken out of it.
#[tactic(auto, using(crate::proofs::RefusalLemmas::select_refusal, crate::proofs::RefusalLemmas::explain_refusal, crate::proofs::RefusalLemmas::text_refused, crate::proofs::RefusalLemmas::change_refusal))]
fn bind_taking(
    alloc: Global,
    catalog: &Catalog,
    index: &NameIndex,
    command: &mut Command,
) -> Result<Bound, BindError>
    requires catalog { IsCatalog catalog.now }
    ensures accepted { OnOk result (refusal_of catalog.now command.old ≡ None) }
    ensures bound { IfOk result (λ b. b ≡ bound_of catalog.now command.old) }
    ensures refused { IfErr result (λ e. e ≢ BindError.Memory → refusal_of catalog.now command.old
        ≡ Some e) }
{
    check_texts(command)?;
    match &*command {
        Command::Select { query } => {
            let query = bind_query(alloc, catalog, query)?;
            return Ok(Bound::Select { query });
        }
        Command::Explain { query } => {
            let query = bind_query(alloc, catalog, query)?;
            return Ok(Bound::Explain { query });
        }
        _ => {}
    }
    let bound = bind_change(alloc, catalog, index, command)?;
    Ok(bound)
}

/// Binds a query.
#[tactic(auto, using(crate::proofs::RefusalLemmas::few_items_each, crate::proofs::RefusalLemmas::few_bound_items, crate::proofs::SafeLemmas::catalog_few))]
fn bind_query(alloc: Global, catalog: &Catalog, query: &RawQuery) -> Result<Query, BindError>
    requires catalog { IsCatalog catalog.now }
    ensures checks { Checks result (query_refusal catalog.now query.now) }
    ensures bound { IfOk result (λ b. b ≡ bound_query catalog.now query.now) }
{
    let rels = catalog.rels.as_slice();
    let items = check_query(alloc, catalog, query)?;
    check_query_kinds(alloc, rels, &items, query)?;
    match bound_query(alloc, catalog, &items, query) {
        Ok(bound) => {
            check_safe(alloc, rels, &bound)?;
            Ok(bound)
        }
        Err(_) => Err(BindError::Memory),
    }
}

/// The items of a query, by alias. The first reason to refuse the query's names and sizes is answered.
fn check_query<'a>(
    alloc: Global,
    catalog: &Catalog,
    query: &'a RawQuery,
) -> Result<QueryItems<'a>, BindError>
    ensures checks { Checks result (query_names_refused catalog.now query.now) }
    ensures items { IfOk result (λ items. items ≡ query.now.items) }
{
    let rels = catalog.rels.as_slice();
    check_query_items(query)?;
    check_query_relations(alloc, rels, query)?;
    check_query_users(alloc, catalog.users.as_slice(), query)?;
    let items = QueryItems::of(alloc, query.items.as_slice())?;
    check_query_aliases(alloc, &items, query)?;
    check_query_columns(alloc, rels, &items, query)?;
    check_query_repeat(query)?;
    check_query_depth(query)?;
    Ok(items)
}

/// Binds a command that is no query.
#[tactic(auto, using(crate::proofs::RefusalLemmas::change_names))]
fn bind_change(
    alloc: Global,
    catalog: &Catalog,
    index: &NameIndex,
    command: &mut Command,
) -> Result<Bound, BindError>
    requires catalog { IsCatalog catalog.now }
    requires change { query_of command.old ≡ None }
    requires texts { text_line command.old ≡ None }
    ensures checks { Checks result (change_refused catalog.now command.old) }
    ensures bound { IfOk result (λ b. b ≡ bound_of catalog.now command.old) }
{
    let found = find_relation(catalog, index, command);
    let ids = check_change(alloc, catalog, index, &found, command)?;
    match bound_change(alloc, catalog, &found, ids.as_slice(), command) {
        Ok(bound) => Ok(bound),
        Err(_) => Err(BindError::Memory),
    }
}

/// The uids of the one path of a command that is no query. The first reason to refuse its names and values is answered.
#[tactic(auto, unfolding(crate::specs::Lines::arity_line))]
fn check_change(
    alloc: Global,
    catalog: &Catalog,
    index: &NameIndex,
    found: &FoundRelation,
    command: &Command,
) -> Result<List<u32>, BindError>
    requires catalog { IsCatalog catalog.now }
    requires place { found.now.place ≡ relation_place catalog.now.rels command.now }
    requires cols { found.now.cols.now ≡ change_columns catalog.now.rels command.now }
    ensures checks { Checks result (change_refused catalog.now command.now) }
    ensures ids { IfOk result (λ ids. ids ≡ path_of catalog.now.users (path_names command.now)) }
{
    check_items(command)?;
    check_relation(alloc, catalog, found.place, command)?;
    let ids = check_users(alloc, catalog, index, command)?;
    check_columns(alloc, found.cols, command)?;
    check_taken(alloc, catalog, command)?;
    check_key(command)?;
    check_repeat(command)?;
    check_depth(command)?;
    check_arity(found.cols, command)?;
    check_kinds(alloc, found.cols, command)?;
    Ok(ids)
}
