// Rows of a world copied to another one, or taken away, all at once and by their bytes: no value is decoded.
ghost use Rattle.std.specs.Prelude.{◌≡◌, ◌+◌, ◌<◌, length, true, false, IfOk, OnOk};
ghost use Rattle.bdb_base.specs.Causes.{Rises};
ghost use Rattle.bdb_keep.specs.Seen.{NeverFall, Steps};
ghost use Rattle.bdb_key.specs.Bytes.{num_bytes};
ghost use Rattle.bdb_key.specs.Rows.{mark_bytes};
ghost use Rattle.bdb_tables.specs.Copies.{AreChanged, AreCopiesOf, BecomesCopy, IsEntryAt, copied, removed};
ghost use Rattle.bdb_tables.specs.Grammar.{InGrammar};
ghost use Rattle.bdb_tables.specs.InUse.{val_codec};
ghost use Rattle.bdb_tables.specs.Spans.{AreEntriesOf};

use crate::access::table_error;
use crate::marks::{MARKS, mark_from};
use crate::tab::TabError;
use bdb_base::Sign;
use bdb_keep::{Keeper, Span};
use std::alloc::Global;

/// Copies the rows of a world to another one, where they are inherited and take the place of rows at the same keys; the rows of
/// a world that is copied to itself become inherited ones. It gives their number. One write for each, and one read more.
pub fn copy_rows<K: Keeper>(
    alloc: Global,
    keeper: &mut K,
    from: u32,
    to: u32,
) -> Result<usize, TabError>
    requires running { (K.seen keeper.old).running ≡ true }
    requires grammar { InGrammar (K.seen keeper.old).kept }
    ensures copied { IfOk result
        (AreChanged (copied to) (K.seen keeper.old).kept (K.seen keeper.new).kept
        (num_bytes from)) }
    ensures reads { IfOk result
        (λ n. Rises (n + 1) (K.seen keeper.old).reads (K.seen keeper.new).reads) }
    ensures writes { IfOk result
        (λ n. Rises n (K.seen keeper.old).writes (K.seen keeper.new).writes) }
    ensures grammar { OnOk result (InGrammar (K.seen keeper.new).kept) }
    ensures counts { NeverFall (K.seen keeper.old) (K.seen keeper.new) }
    ensures steps { Steps (K.seen keeper.old) (K.seen keeper.new) result TabError.Fault }
{
    let prefix = from.to_be_bytes();
    let mut span = Span::new(alloc);
    match keeper.under(MARKS, &prefix, &mut span) {
        Ok(()) => {}
        Err(error) => return Err(table_error(error)),
    }
    make_copies(&mut span, to);
    match keeper.put_all(MARKS, &span) {
        Ok(()) => Ok(span.len()),
        Err(error) => Err(table_error(error)),
    }
}

/// Takes all rows of a world away. It gives their number. One write for each, and one read more.
pub fn clear_rows<K: Keeper>(alloc: Global, keeper: &mut K, wid: u32) -> Result<usize, TabError>
    requires running { (K.seen keeper.old).running ≡ true }
    requires grammar { InGrammar (K.seen keeper.old).kept }
    ensures cleared { IfOk result
        (AreChanged removed (K.seen keeper.old).kept (K.seen keeper.new).kept (num_bytes wid)) }
    ensures reads { IfOk result
        (λ n. Rises (n + 1) (K.seen keeper.old).reads (K.seen keeper.new).reads) }
    ensures writes { IfOk result
        (λ n. Rises n (K.seen keeper.old).writes (K.seen keeper.new).writes) }
    ensures grammar { OnOk result (InGrammar (K.seen keeper.new).kept) }
    ensures counts { NeverFall (K.seen keeper.old) (K.seen keeper.new) }
    ensures steps { Steps (K.seen keeper.old) (K.seen keeper.new) result TabError.Fault }
{
    let prefix = wid.to_be_bytes();
    let mut span = Span::new(alloc);
    match keeper.under(MARKS, &prefix, &mut span) {
        Ok(()) => {}
        Err(error) => return Err(table_error(error)),
    }
    match keeper.remove_all(MARKS, &span) {
        Ok(()) => Ok(span.len()),
        Err(error) => Err(table_error(error)),
    }
}

// Makes rows their copies in the world `to`, where they are inherited.
fn make_copies(span: &mut Span, to: u32)
    requires { AreEntriesOf val_codec span.old }
    ensures { AreCopiesOf to span.old span.new }
{
    for index in 0..span.len() {
        make_copy(span, index, to);
    }
}

// Makes a row its copy in the world `to`: it has the number of that world in place of its own, which the first four bytes of its
// key are.
#[inline(always)]
fn make_copy(span: &mut Span, index: usize, to: u32)
    requires index { index < length span.old }
    requires entry { IsEntryAt span.old index }
    ensures { BecomesCopy to index span.old span.new }
{
    let (_, row) = span.entry(index);
    let (sign, _) = mark_from(row);
    let world = to.to_be_bytes();
    let mark = inherited(sign).to_be_bytes();
    span.replace_ends(index, &world, &mark);
}

// The number that an inherited row of this sign is.
fn inherited(sign: Sign) -> u32
    ensures { num_bytes result ≡ mark_bytes (sign, false) }
{
    match sign {
        Sign::Plus => 0,
        Sign::Minus => 2,
    }
}
