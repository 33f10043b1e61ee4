// Certificates over the base that tables store.
ghost use Rattle.std.specs.Prelude.{◌≡◌, ◌≤◌, true, length, IfOk, OnOk};
ghost use Rattle.bdb_base.specs.Alternation.{alternates};
ghost use Rattle.bdb_base.specs.Limits.{deepest_query};
ghost use Rattle.bdb_keep.specs.Seen.{NeverFall, Steps};
ghost use Rattle.bdb_why.specs.Stored.{IsWhyOf, ReadsNear, SomeMayAsk};

use crate::among::why_among;
use crate::kinds::Why;
use crate::nearby::near_statements;
use bdb_base::{Sign, Tuple};
use bdb_keep::Keeper;
use bdb_tables::{TabError, stored_key_length};
use std::alloc::Global;

/// Why a path believes a signed tuple, or doesn't, by the base that the tables store. Nothing is written. A read for each
/// user of the path, and for each state among the path's ends four and four for each row of the key in its world, at most.
pub fn why<K: Keeper>(
    alloc: Global,
    keeper: &mut K,
    path: &[u32],
    t: &Tuple,
    s: Sign,
) -> Result<Why, TabError>
    requires base { SomeMayAsk (K.seen keeper.old).kept path.now t.now }
    requires apart { alternates path.now ≡ true }
    requires short { length path.now ≤ deepest_query }
    ensures why { IfOk result (IsWhyOf (K.seen keeper.old).kept path.now t.now s) }
    ensures reads { OnOk result (ReadsNear (K.seen keeper.old) (K.seen keeper.new) path.now t.now) }
    ensures kept { OnOk result ((K.seen keeper.new).kept ≡ (K.seen keeper.old).kept) }
    ensures writes { (K.seen keeper.new).writes ≡ (K.seen keeper.old).writes }
    ensures counts { NeverFall (K.seen keeper.old) (K.seen keeper.new) }
    ensures steps { Steps (K.seen keeper.old) (K.seen keeper.new) result TabError.Fault }
{
    let n = match stored_key_length(alloc, keeper, t.rel) {
        Ok(n) => n,
        Err(error) => return Err(error),
    };
    let near = match near_statements(alloc, keeper, n, path, t) {
        Ok(near) => near,
        Err(error) => return Err(error),
    };
    match why_among(alloc, n, near.as_slice(), path, t, s) {
        Ok(y) => Ok(y),
        Err(_) => {
            keeper.undo();
            Err(TabError::Memory)
        }
    }
}
