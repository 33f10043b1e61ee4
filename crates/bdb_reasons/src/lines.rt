// The lines of a certificate, appended to a buffer.
ghost use Rattle.std.specs.Prelude.{◌≡◌, ◌++◌, drop, map, OnOk};
ghost use Rattle.std.specs.List.{flat_map};
ghost use Rattle.bdb_base.specs.Texts.{line};
ghost use Rattle.bdb_reasons.specs.WhyReplies.{other_text, own_text, reason_text, signed_at_level};

use bdb_base::{Catalog, List, Sign, Tuple};
use bdb_render::{append_path, append_signed};
use bdb_why::{Ground, Ruled};
use std::alloc::AllocError;

/// Appends the line of the signed tuple that was asked for.
pub fn append_own(
    out: &mut Vec<u8>,
    catalog: &Catalog,
    path: &[u32],
    tuple: &Tuple,
    sign: Sign,
    reason: &Ground,
) -> Result<(), AllocError>
    ensures { OnOk result
        (out.new.items ≡ out.old.items ++ line
        (own_text catalog.now path.now tuple.now sign reason.now)) }
{
    append_reason(out, catalog, path, b"stated", sign, tuple, reason)?;
    out.push(b'\n')?;
    Ok(())
}

/// Appends the line of another tuple.
pub fn append_other(
    out: &mut Vec<u8>,
    catalog: &Catalog,
    path: &[u32],
    other: &Ruled,
) -> Result<(), AllocError>
    ensures { OnOk result
        (out.new.items ≡ out.old.items ++ line (other_text catalog.now path.now other.now)) }
{
    let (tuple, reason) = (&other.tuple, &other.reason);
    append_reason(out, catalog, path, b"other", Sign::Plus, tuple, reason)?;
    out.push(b'\n')?;
    Ok(())
}

/// Appends a line for each of these tuples.
pub fn append_others(
    out: &mut Vec<u8>,
    catalog: &Catalog,
    path: &[u32],
    others: &List<Ruled>,
) -> Result<(), AllocError>
    ensures { OnOk result
        (out.new.items ≡ out.old.items ++ flat_map line
        (map (other_text catalog.now path.now) others.now)) }
{
    for other in others.as_slice() {
        append_other(out, catalog, path, other)?;
    }
    Ok(())
}

/// Appends what decides of a signed tuple. Where it is found this word says so.
fn append_reason(
    out: &mut Vec<u8>,
    catalog: &Catalog,
    path: &[u32],
    word: &[u8],
    sign: Sign,
    tuple: &Tuple,
    reason: &Ground,
) -> Result<(), AllocError>
    ensures { OnOk result
        (out.new.items
        ≡ out.old.items ++ reason_text catalog.now path.now word.now sign tuple.now reason.now) }
{
    match reason {
        Ground::Found { level } => {
            out.extend_from_slice(word)?;
            out.push(b' ')?;
            append_at_level(out, catalog, path, *level, sign, tuple)
        }
        Ground::Blocked { level, by } => {
            out.extend_from_slice(b"blocked ")?;
            append_at_level(out, catalog, path, *level, sign, tuple)?;
            out.extend_from_slice(b" by ")?;
            append_signed(out, catalog, by.sign, &by.tuple)
        }
        Ground::Nowhere => {
            out.extend_from_slice(b"nowhere ")?;
            append_signed(out, catalog, sign, tuple)
        }
    }
}

/// Appends a signed tuple and the path at a level.
fn append_at_level(
    out: &mut Vec<u8>,
    catalog: &Catalog,
    path: &[u32],
    level: u32,
    sign: Sign,
    tuple: &Tuple,
) -> Result<(), AllocError>
    ensures { OnOk result
        (out.new.items
        ≡ out.old.items ++ signed_at_level catalog.now path.now level sign tuple.now) }
{
    append_signed(out, catalog, sign, tuple)?;
    out.extend_from_slice(b" at ")?;
    append_path(out, catalog, end_of(path, level as usize))
}

/// The path without so many of its first users; empty where it has no more.
fn end_of(path: &[u32], level: usize) -> &[u32]
    ensures { result.now ≡ drop level path.now }
{
    if level >= path.len() {
        return &[];
    }
    &path[level..]
}
