// The checks of a command's names.
ghost use Rattle.std.specs.Prelude.{◌≡◌, [], ◌∷◌, None, map, IfOk};
ghost use Rattle.std.specs.Option.{option_map};
ghost use Rattle.std.specs.List.{list_any};
ghost use Rattle.bdb_base.specs.Same.{same_text};
ghost use Rattle.bdb_base.specs.Bases.{IsCatalog};
ghost use Rattle.bdb_bind.specs.Lookup.{path_of};
ghost use Rattle.bdb_bind.specs.Parts.{path_names, relation_name, relation_place, cond_columns};
ghost use Rattle.bdb_bind.specs.Firsts.{Checks};
ghost use Rattle.bdb_bind.specs.Lines.{unknown_relation, unknown_user, missing_column, change_column, first_repeated, taken_line};

use crate::bound::BindError;
use crate::found::find_users;
use crate::index::NameIndex;
use crate::lookup::{column_at, number_of, uid_of};
use crate::parts::{path_names, relation_name};
use crate::refusals::{taken_name, taken_user, unknown_column, unknown_relation};
use bdb_base::{Catalog, ColDef, List, Txt, is_same_text};
use bdb_syntax::{Command, RawCond, RawSet, RawSide};
use std::alloc::Global;

/// Refuses the name of a relation that isn't in the catalog.
pub fn check_relation(
    alloc: Global,
    catalog: &Catalog,
    place: Option<usize>,
    command: &Command,
) -> Result<(), BindError>
    requires place { place ≡ relation_place catalog.now.rels command.now }
    ensures { Checks result (unknown_relation catalog.now.rels (relation_name command.now)) }
{
    match (relation_name(command), place) {
        (Some(name), None) => Err(unknown_relation(alloc, name)),
        _ => Ok(()),
    }
}

/// The uids of a command's path. The first name that is no live user's is refused.
#[tactic(auto, using(crate::proofs::CatalogLemmas::users_few))]
pub fn check_users(
    alloc: Global,
    catalog: &Catalog,
    index: &NameIndex,
    command: &Command,
) -> Result<List<u32>, BindError>
    requires catalog { IsCatalog catalog.now }
    ensures checks { Checks result (unknown_user catalog.now.users (path_names command.now)) }
    ensures ids { IfOk result (λ ids. ids ≡ path_of catalog.now.users (path_names command.now)) }
{
    let users = catalog.users.as_slice();
    let ids = find_users(alloc, users, index, path_names(command))?;
    Ok(ids)
}

/// Refuses the first column of a change that is none of these.
pub fn check_columns(alloc: Global, cols: &[ColDef], command: &Command) -> Result<(), BindError>
    ensures { Checks result (change_column cols.now command.now) }
{
    match command {
        Command::Delete { conds, .. } => {
            check_cond_columns(alloc, cols, conds.as_slice())?;
            Ok(())
        }
        Command::Update { sets, conds, .. } => {
            check_set_columns(alloc, cols, sets.as_slice())?;
            check_cond_columns(alloc, cols, conds.as_slice())?;
            Ok(())
        }
        _ => Ok(()),
    }
}

/// Refuses a column that the relation does not have.
#[tactic(auto, unfolding(crate::specs::Lines::missing_column))]
fn check_column(alloc: Global, cols: &[ColDef], name: &Txt) -> Result<(), BindError>
    ensures { Checks result (missing_column cols.now (name.now ∷ [])) }
{
    if column_at(cols, name).is_none() {
        return Err(unknown_column(alloc, name));
    }
    Ok(())
}

#[tactic(auto, unfolding(crate::specs::Lines::missing_column))]
fn check_set_columns(alloc: Global, cols: &[ColDef], sets: &[RawSet]) -> Result<(), BindError>
    ensures { Checks result (missing_column cols.now (map (λ s. s.col) sets.now)) }
{
    for set in sets {
        check_column(alloc, cols, &set.col)?;
    }
    Ok(())
}

#[tactic(auto, unfolding(crate::specs::Lines::missing_column))]
fn check_cond_columns(alloc: Global, cols: &[ColDef], conds: &[RawCond]) -> Result<(), BindError>
    ensures { Checks result (missing_column cols.now (cond_columns conds.now)) }
{
    for cond in conds {
        check_column(alloc, cols, &cond.left.col)?;
        if let RawSide::Col(right) = &cond.right {
            check_column(alloc, cols, &right.col)?;
        }
    }
    Ok(())
}

/// Refuses a new name that is taken.
#[tactic(auto, unfolding(crate::specs::Lines::taken_line))]
pub fn check_taken(alloc: Global, catalog: &Catalog, command: &Command) -> Result<(), BindError>
    ensures { Checks result (taken_line catalog.now command.now) }
{
    match command {
        Command::CreateUser { name } => {
            if uid_of(catalog.users.as_slice(), name).is_some() {
                return Err(taken_user(alloc, name));
            }
            Ok(())
        }
        Command::CreateRelation { name, cols, .. } => {
            if number_of(catalog.rels.as_slice(), name).is_some() || name.as_str() == "Users" {
                return Err(taken_name(alloc, name));
            }
            check_repeated(alloc, cols.as_slice())
        }
        _ => Ok(()),
    }
}

/// Refuses the first column whose name stands earlier in the list.
fn check_repeated(alloc: Global, cols: &[ColDef]) -> Result<(), BindError>
    ensures { Checks result (option_map BindError.TakenName (first_repeated [] cols.now)) }
{
    for (at, col) in cols.iter().enumerate() {
        if has_name(&cols[..at], &col.name) {
            return Err(taken_name(alloc, &col.name));
        }
    }
    Ok(())
}

/// Whether a column has this name.
fn has_name(cols: &[ColDef], name: &Txt) -> bool
    ensures { result ≡ list_any (λ d. same_text name.now d.name) cols.now }
{
    cols.iter().any(|col| is_same_text(name, &col.name))
}
