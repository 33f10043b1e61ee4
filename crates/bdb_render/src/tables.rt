// The reply to `show tables`.
ghost use Rattle.std.specs.Prelude.{◌≡◌, ◌++◌, IfOk, OnOk};
ghost use Rattle.std.specs.List.{flat_map};
ghost use Rattle.bdb_base.specs.Queries.{user_numbers};
ghost use Rattle.bdb_render.specs.Tables.{catalog_lines, structure_lines, tables_reply, user_line};

use crate::lines::append_count;
use crate::names::is_user_at;
use crate::table_lines as lines;
use bdb_base::{Catalog, List};
use bdb_canon::{Canon, line_count};
use std::alloc::{AllocError, Global};

/// The reply to `show tables`: a line for each live user, relation, tuple, world, edge and row, then their number.
pub fn tables_reply(alloc: Global, catalog: &Catalog, canon: &Canon) -> Result<List<u8>, AllocError>
    ensures { IfOk result (λ text. text ≡ tables_reply catalog.now canon.now) }
{
    let mut out = Vec::new(alloc);
    append_catalog(&mut out, catalog)?;
    append_structure(&mut out, catalog, canon)?;
    append_count(&mut out, line_count(catalog, canon))?;
    Ok(List::from_vec(out))
}

/// Appends the lines of the live users and of the relations.
fn append_catalog(out: &mut Vec<u8>, catalog: &Catalog) -> Result<(), AllocError>
    ensures { OnOk result (out.new.items ≡ out.old.items ++ catalog_lines catalog.now) }
{
    append_users(out, catalog)?;
    for def in catalog.rels.as_slice() {
        lines::append_relation(out, def)?;
    }
    Ok(())
}

/// Appends the lines of the live users.
fn append_users(out: &mut Vec<u8>, catalog: &Catalog) -> Result<(), AllocError>
    ensures { OnOk result (out.new.items ≡ out.old.items ++ flat_map (user_line catalog.now)
        (user_numbers catalog.now.users)) }
{
    let users = catalog.users.as_slice();
    for at in 0..users.len() {
        if !is_user_at(catalog, at) {
            continue;
        }
        lines::append_user(out, catalog, at)?;
    }
    Ok(())
}

/// Appends the lines of the tuples, the worlds, the edges and the rows.
fn append_structure(out: &mut Vec<u8>, catalog: &Catalog, canon: &Canon) -> Result<(), AllocError>
    ensures { OnOk result (out.new.items ≡ out.old.items ++ structure_lines catalog.now canon.now) }
{
    for tuple in canon.tuples.as_slice() {
        lines::append_tuple_line(out, catalog, tuple)?;
    }
    for world in canon.worlds.as_slice() {
        lines::append_world(out, catalog, canon, world)?;
    }
    for edge in canon.edges.as_slice() {
        lines::append_edge(out, catalog, canon, edge)?;
    }
    for row in canon.rows.as_slice() {
        lines::append_row(out, catalog, canon, row)?;
    }
    Ok(())
}
