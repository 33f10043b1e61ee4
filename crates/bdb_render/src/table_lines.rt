// The lines of the reply to `show tables`, appended to a buffer.
ghost use Rattle.std.specs.Prelude.{◌≡◌, ◌+◌, ◌^◌, ◌++◌, ◌<◌, OnOk};
ghost use Rattle.bdb_render.specs.Tables.{columns_text, edge_line, key_text, relation_line, row_line, signed_at, suffix_text, tuple_line, user_line, world_line};

use crate::lines::{append_mark, append_path, append_signed, append_tuple};
use crate::names;
use bdb_base::{Catalog, RelDef, Sign, Tuple, append_decimal, append_quoted, append_separated};
use bdb_canon::{Canon, CanonEdge, CanonRow, CanonWorld};
use std::alloc::AllocError;

/// Appends the line of the live user at a place, whose number is one more.
pub fn append_user(out: &mut Vec<u8>, catalog: &Catalog, at: usize) -> Result<(), AllocError>
    requires { at + 1 < 2 ^ 64 }
    ensures { OnOk result (out.new.items ≡ out.old.items ++ user_line catalog.now (at + 1)) }
{
    out.extend_from_slice(b"user ")?;
    append_decimal(out, at as u64 + 1)?;
    out.push(b' ')?;
    append_quoted(out, names::user_name_at(catalog, at))?;
    out.push(b'\n')?;
    Ok(())
}

/// Appends the line of a relation.
pub fn append_relation(out: &mut Vec<u8>, def: &RelDef) -> Result<(), AllocError>
    ensures { OnOk result (out.new.items ≡ out.old.items ++ relation_line def.now) }
{
    append_columns(out, def)?;
    append_key(out, def.key)?;
    out.push(b'\n')?;
    Ok(())
}

/// Appends the name of a relation and its columns.
fn append_columns(out: &mut Vec<u8>, def: &RelDef) -> Result<(), AllocError>
    ensures { OnOk result (out.new.items ≡ out.old.items ++ columns_text def.now) }
{
    out.extend_from_slice(b"relation ")?;
    out.extend_from_slice(def.name.as_bytes())?;
    out.push(b'(')?;
    append_separated(out, b", ", def.cols.as_slice())?;
    out.push(b')')?;
    Ok(())
}

/// Appends how many columns a key has; nothing where it has one.
fn append_key(out: &mut Vec<u8>, key: u32) -> Result<(), AllocError>
    ensures { OnOk result (out.new.items ≡ out.old.items ++ key_text key) }
{
    if key == 1 {
        return Ok(());
    }
    out.extend_from_slice(b" key ")?;
    append_decimal(out, key as u64)
}

/// Appends the line of a tuple.
pub fn append_tuple_line(
    out: &mut Vec<u8>,
    catalog: &Catalog,
    tuple: &Tuple,
) -> Result<(), AllocError>
    ensures { OnOk result (out.new.items ≡ out.old.items ++ tuple_line catalog.now tuple.now) }
{
    out.extend_from_slice(b"tuple ")?;
    append_tuple(out, catalog, tuple)?;
    out.push(b'\n')?;
    Ok(())
}

/// Appends the line of a state.
pub fn append_world(
    out: &mut Vec<u8>,
    catalog: &Catalog,
    canon: &Canon,
    world: &CanonWorld,
) -> Result<(), AllocError>
    ensures { OnOk result
        (out.new.items ≡ out.old.items ++ world_line catalog.now canon.now world.now) }
{
    out.extend_from_slice(b"world ")?;
    append_path(out, catalog, world.path.as_slice())?;
    out.extend_from_slice(b" depth ")?;
    append_decimal(out, world.path.len() as u64)?;
    append_suffix(out, catalog, canon, world.suffix)?;
    out.push(b'\n')?;
    Ok(())
}

/// Appends where the suffix link of a state leads; nothing where it has none.
fn append_suffix(
    out: &mut Vec<u8>,
    catalog: &Catalog,
    canon: &Canon,
    suffix: Option<u32>,
) -> Result<(), AllocError>
    ensures { OnOk result
        (out.new.items ≡ out.old.items ++ suffix_text catalog.now canon.now suffix) }
{
    match suffix {
        None => Ok(()),
        Some(at) => {
            out.extend_from_slice(b" suffix ")?;
            append_path(out, catalog, names::world_path(canon, at))?;
            Ok(())
        }
    }
}

/// Appends the line of an edge.
pub fn append_edge(
    out: &mut Vec<u8>,
    catalog: &Catalog,
    canon: &Canon,
    edge: &CanonEdge,
) -> Result<(), AllocError>
    ensures { OnOk result
        (out.new.items ≡ out.old.items ++ edge_line catalog.now canon.now edge.now) }
{
    out.extend_from_slice(b"edge ")?;
    append_path(out, catalog, names::world_path(canon, edge.from))?;
    out.push(b' ')?;
    append_quoted(out, names::user_text(catalog, edge.uid))?;
    out.push(b' ')?;
    append_path(out, catalog, names::world_path(canon, edge.to))?;
    out.push(b'\n')?;
    Ok(())
}

/// Appends the line of a row.
pub fn append_row(
    out: &mut Vec<u8>,
    catalog: &Catalog,
    canon: &Canon,
    row: &CanonRow,
) -> Result<(), AllocError>
    ensures { OnOk result
        (out.new.items ≡ out.old.items ++ row_line catalog.now canon.now row.now) }
{
    out.extend_from_slice(b"row ")?;
    append_path(out, catalog, names::world_path(canon, row.world))?;
    out.push(b' ')?;
    append_signed_at(out, catalog, canon, row.sign, row.tuple)?;
    out.push(b' ')?;
    append_mark(out, row.explicit)?;
    out.push(b'\n')?;
    Ok(())
}

/// Appends a sign and the tuple at a place; nothing where there is none.
fn append_signed_at(
    out: &mut Vec<u8>,
    catalog: &Catalog,
    canon: &Canon,
    sign: Sign,
    at: u32,
) -> Result<(), AllocError>
    ensures { OnOk result
        (out.new.items ≡ out.old.items ++ signed_at catalog.now canon.now sign at) }
{
    match canon.tuples.get(at as usize) {
        None => Ok(()),
        Some(tuple) => {
            append_signed(out, catalog, sign, tuple)?;
            Ok(())
        }
    }
}
