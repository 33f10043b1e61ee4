// The structure of a base as a text.
use bdb_base::{Sign, append_decimal};
use bdb_canon::Canon;
use std::alloc::{AllocError, Global};

/// The worlds as `path>link`, the edges as `from.user>to`, and the rows as world, sign, tuple, and e where explicit.
pub fn text_of(alloc: Global, k: &Canon) -> Result<Vec<u8>, AllocError> {
    let mut out = Vec::new(alloc);
    for world in k.worlds.as_slice() {
        for uid in world.path.as_slice() {
            append_decimal(&mut out, u64::from(*uid))?;
        }
        out.push(b'>')?;
        if let Some(at) = world.suffix {
            append_decimal(&mut out, u64::from(at))?;
        }
        out.push(b' ')?;
    }
    for edge in k.edges.as_slice() {
        append_decimal(&mut out, u64::from(edge.from))?;
        out.push(b'.')?;
        append_decimal(&mut out, u64::from(edge.uid))?;
        out.push(b'>')?;
        append_decimal(&mut out, u64::from(edge.to))?;
        out.push(b' ')?;
    }
    for row in k.rows.as_slice() {
        append_decimal(&mut out, u64::from(row.world))?;
        out.push(if row.sign == Sign::Plus { b'+' } else { b'-' })?;
        append_decimal(&mut out, u64::from(row.tuple))?;
        out.push(if row.explicit { b'e' } else { b'i' })?;
        out.push(b' ')?;
    }
    Ok(out)
}
