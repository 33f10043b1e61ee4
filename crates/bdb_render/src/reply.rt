// Replies and texts, each as a list of bytes.
ghost use Rattle.std.specs.Prelude.{◌≡◌, IfOk};
ghost use Rattle.bdb_base.specs.Texts.{value_text};
ghost use Rattle.bdb_render.specs.Replies.{count_reply, ok_reply, path_text, rows_reply, tuple_text, world_reply};

use crate::lines;
use bdb_base::{Catalog, List, Tuple, Value, World, append_value};
use std::alloc::{AllocError, Global};

/// A value as replies write it: an integer in decimal, a text in quotes.
pub fn value_text(alloc: Global, value: &Value) -> Result<List<u8>, AllocError>
    ensures { IfOk result (λ text. text ≡ value_text value.now) }
{
    let mut out = Vec::new(alloc);
    append_value(&mut out, value)?;
    Ok(List::from_vec(out))
}

/// A tuple as replies write it: the relation's name, and the values in parentheses.
pub fn tuple_text(alloc: Global, catalog: &Catalog, tuple: &Tuple) -> Result<List<u8>, AllocError>
    ensures { IfOk result (λ text. text ≡ tuple_text catalog.now tuple.now) }
{
    let mut out = Vec::new(alloc);
    lines::append_tuple(&mut out, catalog, tuple)?;
    Ok(List::from_vec(out))
}

/// A path as replies write it: for each user a slash and the quoted name; a slash for the empty path.
pub fn path_text(alloc: Global, catalog: &Catalog, path: &[u32]) -> Result<List<u8>, AllocError>
    ensures { IfOk result (λ text. text ≡ path_text catalog.now path.now) }
{
    let mut out = Vec::new(alloc);
    lines::append_path(&mut out, catalog, path)?;
    Ok(List::from_vec(out))
}

/// The reply to a command that adds to the catalog.
pub fn ok_reply(alloc: Global) -> Result<List<u8>, AllocError>
    ensures { IfOk result (λ text. text ≡ ok_reply) }
{
    let mut out = Vec::new(alloc);
    out.extend_from_slice(b"ok\n")?;
    Ok(List::from_vec(out))
}

/// The reply to a command that counts what it did.
pub fn count_reply(alloc: Global, n: usize) -> Result<List<u8>, AllocError>
    ensures { IfOk result (λ text. text ≡ count_reply n) }
{
    let mut out = Vec::with_capacity(alloc, lines::USUAL_LENGTH)?;
    lines::append_count(&mut out, n)?;
    Ok(List::from_vec(out))
}

/// The reply to `show world`: one line for each row, then their number.
pub fn world_reply(alloc: Global, catalog: &Catalog, world: &World) -> Result<List<u8>, AllocError>
    ensures { IfOk result (λ text. text ≡ world_reply catalog.now world.now) }
{
    let mut out = Vec::with_capacity(alloc, lines::USUAL_LENGTH)?;
    for held in world.held.as_slice() {
        lines::append_held(&mut out, catalog, held)?;
    }
    lines::append_count(&mut out, world.held.len())?;
    Ok(List::from_vec(out))
}

/// The reply to `select`: one line for each answer, then their number.
pub fn rows_reply(alloc: Global, rows: &List<List<Value>>) -> Result<List<u8>, AllocError>
    ensures { IfOk result (λ text. text ≡ rows_reply rows.now) }
{
    let mut out = Vec::with_capacity(alloc, lines::USUAL_LENGTH)?;
    for vals in rows.as_slice() {
        lines::append_answer(&mut out, vals)?;
    }
    lines::append_count(&mut out, rows.len())?;
    Ok(List::from_vec(out))
}
