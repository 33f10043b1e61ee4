// Rows of a world in the order of their tuples, told by their bytes.
ghost use Rattle.std.specs.Prelude.{◌≡◌, map, IfOk};
ghost use Rattle.bdb_keep.specs.Tables.{bytes_cmp};
ghost use Rattle.bdb_shown.specs.Rows.{AreOrdered, raw};

use crate::row::WorldRow;
use bdb_keep::Span;
use std::alloc::{AllocError, Global};
use std::cmp::Ordering;

/// Rows in the order of the bytes of their tuples.
pub fn in_order(alloc: Global, span: &Span) -> Result<Vec<WorldRow<'_>>, AllocError>
    ensures { IfOk result (λ rows. AreOrdered span.now rows.items) }
{
    let mut rows = rows_of(alloc, span)?;
    rows.sort_by(by_tuple)?;
    Ok(rows)
}

// The rows of a span.
fn rows_of(alloc: Global, span: &Span) -> Result<Vec<WorldRow<'_>>, AllocError>
    ensures { IfOk result (λ rows. map raw rows.items ≡ span.now) }
{
    let mut rows = Vec::with_capacity(alloc, span.len())?;
    for index in 0..span.len() {
        let (tuple, mark) = span.entry(index);
        rows.push(WorldRow { tuple, mark })?;
    }
    Ok(rows)
}

// The order of two rows by the bytes of their tuples.
fn by_tuple(a: &WorldRow<'_>, b: &WorldRow<'_>) -> Ordering
    ensures { result ≡ bytes_cmp a.now.tuple.now b.now.tuple.now }
{
    a.tuple.cmp(b.tuple)
}
