// The lines of a world's rows, from their bytes.
ghost use Rattle.std.specs.Prelude.{◌≡◌, ◌++◌, ◌∷◌, [], ◌&&◌, codes, map, IfOk, OnOk};
ghost use Rattle.bdb_base.specs.declared.kinds.Held.{Held};
ghost use Rattle.bdb_base.specs.declared.tuple.Tuple.{Tuple};
ghost use Rattle.bdb_key.specs.Reading.{Reads};
ghost use Rattle.bdb_key.specs.Rows.{IsTupleRow, tuple_bytes};
ghost use Rattle.bdb_render.specs.Replies.{mark_text, relation_name, sign_text, tuple_text, world_reply};
ghost use Rattle.bdb_shown.specs.Rows.{Spell, SpellsRow, raw, told, told_line};
ghost use Rattle.std.specs.Prelude.{List};

use crate::row::WorldRow;
use crate::values::append_values;
use bdb_base::{Catalog, List, Sign};
use bdb_key::{mark_of, num_of};
use bdb_render::{append_count, relation_name};
use std::alloc::{AllocError, Global};

/// For how many bytes a reply has room from the start.
const USUAL_LENGTH: usize = 64;

/// The reply that shows rows: a line for each, then their number. Where the world isn't the path's own, none is told as explicit.
pub fn rows_reply(
    alloc: Global,
    catalog: &Catalog,
    own: bool,
    rows: &[WorldRow<'_>],
) -> Result<List<u8>, AllocError>
    ensures { IfOk result (λ text. (held : List Held) → Spell (map raw rows.now) held
        → text ≡ world_reply catalog.now (record { held = map (told own) held })) }
{
    let mut out = Vec::with_capacity(alloc, USUAL_LENGTH)?;
    for row in rows {
        append_line(&mut out, catalog, own, row)?;
    }
    append_count(&mut out, rows.len())?;
    Ok(List::from_vec(out))
}

// Appends the line of a row.
fn append_line(
    out: &mut Vec<u8>,
    catalog: &Catalog,
    own: bool,
    row: &WorldRow<'_>,
) -> Result<(), AllocError>
    ensures { OnOk result ((held : Held) → SpellsRow (raw row.now) held
        → out.new.items ≡ out.old.items ++ told_line catalog.now own held) }
{
    match mark_of(row.mark) {
        Some((sign, explicit)) => {
            append_sign(out, sign)?;
            append_tuple(out, catalog, row.tuple)?;
            append_mark(out, is_told(own, explicit))?;
            Ok(())
        }
        None => Ok(()),
    }
}

// Whether a row is told as explicit.
fn is_told(own: bool, explicit: bool) -> bool
    ensures { result ≡ (own && explicit) }
{
    own && explicit
}

// Appends a sign and a space.
fn append_sign(out: &mut Vec<u8>, sign: Sign) -> Result<(), AllocError>
    ensures { OnOk result (out.new.items ≡ out.old.items ++ sign_text sign ++ codes " ") }
{
    match sign {
        Sign::Plus => out.extend_from_slice(b"+ "),
        Sign::Minus => out.extend_from_slice(b"- "),
    }
}

// Appends the tuple of these bytes: the relation's name, and the values in parentheses.
fn append_tuple(out: &mut Vec<u8>, catalog: &Catalog, bytes: &[u8]) -> Result<(), AllocError>
    ensures { OnOk result ((t : Tuple) → Reads IsTupleRow tuple_bytes bytes.now t
        → out.new.items ≡ out.old.items ++ tuple_text catalog.now t) }
{
    match num_of(bytes) {
        Some((rel, values)) => {
            append_name(out, catalog, rel)?;
            append_values(out, values)?;
            out.push(b')')?;
            Ok(())
        }
        None => Ok(()),
    }
}

// Appends the name of a relation and a parenthesis.
fn append_name(out: &mut Vec<u8>, catalog: &Catalog, rel: u32) -> Result<(), AllocError>
    ensures { OnOk result
        (out.new.items ≡ out.old.items ++ relation_name catalog.now rel ++ codes "(") }
{
    out.extend_from_slice(relation_name(catalog, rel))?;
    out.push(b'(')?;
    Ok(())
}

// Appends a space, the mark of a row and a line feed.
fn append_mark(out: &mut Vec<u8>, explicit: bool) -> Result<(), AllocError>
    ensures { OnOk result
        (out.new.items ≡ out.old.items ++ codes " " ++ mark_text explicit ++ 10 ∷ []) }
{
    if explicit {
        out.extend_from_slice(b" explicit\n")
    } else {
        out.extend_from_slice(b" inherited\n")
    }
}
