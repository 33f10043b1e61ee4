// The reply that shows the world of a path.
ghost use Rattle.std.specs.Prelude.{◌≡◌, List, IfOk, OnOk};
ghost use Rattle.bdb_base.specs.declared.kinds.Held.{Held};
ghost use Rattle.bdb_catalog.specs.Bases.{SomeHasUsers};
ghost use Rattle.bdb_keep.specs.Seen.{NeverFall, Steps};
ghost use Rattle.bdb_shown.specs.Rows.{Spell};
ghost use Rattle.bdb_shown.specs.Showing.{ReadsWorld, ShowsRows, ShowsWorld};

use crate::lines::rows_reply;
use crate::order::in_order;
use crate::reading::read_rows;
use bdb_base::{Catalog, List, Path};
use bdb_catalog::state_of;
use bdb_keep::{Keeper, Span};
use bdb_tables::TabError;
use std::alloc::{AllocError, Global};

/// The reply that shows the world of a path, whether or not the path is a state: a line for each of its rows, by tuple, of which
/// those are told as explicit that are statements at this very path. A read for each user of the path, and two for each row, at
/// most.
pub fn shown_world<K: Keeper>(
    alloc: Global,
    keeper: &mut K,
    catalog: &Catalog,
    path: &Path,
) -> Result<List<u8>, TabError>
    requires base { SomeHasUsers (K.seen keeper.old).kept path.now }
    ensures text { IfOk result (ShowsWorld (K.seen keeper.old).kept catalog.now path.now) }
    ensures reads { OnOk result (ReadsWorld (K.seen keeper.old).kept path.now
        (K.seen keeper.old).reads (K.seen keeper.new).reads) }
    ensures kept { OnOk result ((K.seen keeper.new).kept ≡ (K.seen keeper.old).kept) }
    ensures writes { (K.seen keeper.new).writes ≡ (K.seen keeper.old).writes }
    ensures counts { NeverFall (K.seen keeper.old) (K.seen keeper.new) }
    ensures steps { Steps (K.seen keeper.old) (K.seen keeper.new) result TabError.Fault }
{
    let (wid, own) = match state_of(alloc, keeper, path.as_slice()) {
        Ok(found) => found,
        Err(error) => return Err(error),
    };
    let mut rows = Span::new(alloc);
    match read_rows(alloc, keeper, wid, &mut rows) {
        Ok(()) => {}
        Err(error) => return Err(error),
    }
    match ordered_reply(alloc, catalog, own, &rows) {
        Ok(text) => Ok(text),
        Err(_) => {
            keeper.undo();
            Err(TabError::Memory)
        }
    }
}

// The reply that shows rows, in the order of their tuples.
fn ordered_reply(
    alloc: Global,
    catalog: &Catalog,
    own: bool,
    span: &Span,
) -> Result<List<u8>, AllocError>
    ensures { IfOk result (λ text. (held : List Held) → Spell span.now held
        → ShowsRows catalog.now own held text) }
{
    let rows = in_order(alloc, span)?;
    let text = rows_reply(alloc, catalog, own, &rows)?;
    Ok(text)
}
