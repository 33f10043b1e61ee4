// Parts of replies, appended to a buffer.
ghost use Rattle.std.specs.Prelude.{◌≡◌, ◌++◌, OnOk};
ghost use Rattle.std.specs.List.{flat_map};
ghost use Rattle.bdb_render.specs.Replies.{answer_line, count_reply, held_line, mark_text, path_text, row_text, sign_text, signed_text, step_text, tuple_text};

use crate::names;
use bdb_base::{
    Catalog, Held, List, Sign, Tuple, Value, append_decimal, append_quoted, append_separated,
};
use std::alloc::AllocError;

/// For how many bytes a reply has room from the start. Most replies of one line have no more.
pub const USUAL_LENGTH: usize = 64;

/// Appends values with a comma and a space between each two.
pub fn append_row(out: &mut Vec<u8>, vals: &List<Value>) -> Result<(), AllocError>
    ensures { OnOk result (out.new.items ≡ out.old.items ++ row_text vals.now) }
{
    append_separated(out, b", ", vals.as_slice())
}

/// Appends a tuple: the relation's name, and the values in parentheses.
pub fn append_tuple(out: &mut Vec<u8>, catalog: &Catalog, tuple: &Tuple) -> Result<(), AllocError>
    ensures { OnOk result (out.new.items ≡ out.old.items ++ tuple_text catalog.now tuple.now) }
{
    out.extend_from_slice(names::relation_name(catalog, tuple.rel))?;
    out.push(b'(')?;
    append_row(out, &tuple.vals)?;
    out.push(b')')?;
    Ok(())
}

/// Appends a path: for each user a slash and the quoted name; a slash for the empty path.
pub fn append_path(out: &mut Vec<u8>, catalog: &Catalog, path: &[u32]) -> Result<(), AllocError>
    ensures { OnOk result (out.new.items ≡ out.old.items ++ path_text catalog.now path.now) }
{
    if path.is_empty() {
        out.push(b'/')?;
        return Ok(());
    }
    append_steps(out, catalog, path)
}

/// Appends for each user a slash and the quoted name.
fn append_steps(out: &mut Vec<u8>, catalog: &Catalog, path: &[u32]) -> Result<(), AllocError>
    ensures { OnOk result (out.new.items ≡ out.old.items ++ flat_map (step_text catalog.now)
        path.now) }
{
    for uid in path {
        out.push(b'/')?;
        append_quoted(out, names::user_text(catalog, *uid))?;
    }
    Ok(())
}

/// Appends a sign.
fn append_sign(out: &mut Vec<u8>, sign: Sign) -> Result<(), AllocError>
    ensures { OnOk result (out.new.items ≡ out.old.items ++ sign_text sign) }
{
    match sign {
        Sign::Plus => out.push(b'+')?,
        Sign::Minus => out.push(b'-')?,
    }
    Ok(())
}

/// Appends a signed tuple.
pub fn append_signed(
    out: &mut Vec<u8>,
    catalog: &Catalog,
    sign: Sign,
    tuple: &Tuple,
) -> Result<(), AllocError>
    ensures { OnOk result
        (out.new.items ≡ out.old.items ++ signed_text catalog.now sign tuple.now) }
{
    append_sign(out, sign)?;
    out.push(b' ')?;
    append_tuple(out, catalog, tuple)
}

/// Appends the mark of a row.
pub fn append_mark(out: &mut Vec<u8>, explicit: bool) -> Result<(), AllocError>
    ensures { OnOk result (out.new.items ≡ out.old.items ++ mark_text explicit) }
{
    if explicit {
        out.extend_from_slice(b"explicit")
    } else {
        out.extend_from_slice(b"inherited")
    }
}

/// Appends the line of a row of a world.
pub fn append_held(out: &mut Vec<u8>, catalog: &Catalog, held: &Held) -> Result<(), AllocError>
    ensures { OnOk result (out.new.items ≡ out.old.items ++ held_line catalog.now held.now) }
{
    append_signed(out, catalog, held.sign, &held.tuple)?;
    out.push(b' ')?;
    append_mark(out, held.explicit)?;
    out.push(b'\n')?;
    Ok(())
}

/// Appends the line of an answer.
pub fn append_answer(out: &mut Vec<u8>, vals: &List<Value>) -> Result<(), AllocError>
    ensures { OnOk result (out.new.items ≡ out.old.items ++ answer_line vals.now) }
{
    append_row(out, vals)?;
    out.push(b'\n')?;
    Ok(())
}

/// Appends the line that ends a reply: `ok` and a count.
pub fn append_count(out: &mut Vec<u8>, n: usize) -> Result<(), AllocError>
    ensures { OnOk result (out.new.items ≡ out.old.items ++ count_reply n) }
{
    out.extend_from_slice(b"ok ")?;
    append_decimal(out, n as u64)?;
    out.push(b'\n')?;
    Ok(())
}
