// Adding a user, and a place whose user is gone.
ghost use Rattle.std.specs.Prelude.{◌≡◌, true, IfOk, OnOk};
ghost use Rattle.std.specs.FinMap as tables;
ghost use Rattle.bdb_base.specs.Causes.{RoseBy};
ghost use Rattle.bdb_base.specs.declared.kinds.UserSlot.TheVariants.{Live};
ghost use Rattle.bdb_keep.specs.Calls.{IsWrite};
ghost use Rattle.bdb_keep.specs.Seen.{NeverFall, Steps};
ghost use Rattle.bdb_key.specs.Grammar.{IsPlain};
ghost use Rattle.bdb_tables.specs.Codec.{place};
ghost use Rattle.bdb_tables.specs.Grammar.{InGrammar};
ghost use Rattle.bdb_tables.specs.InUse.{user_codec};
ghost use Rattle.bdb_update.specs.Keeping.{SameNumbers};
ghost use Rattle.bdb_catalog.specs.Creating.{AddsGonePlace, AddsUserNamed, SomeMayAddGonePlace, SomeMayAddUser, WritesUser};

use bdb_base::{Exact, Txt, UserSlot};
use bdb_keep::Keeper;
use bdb_tables::{TabError, UserTab, put};
use bdb_worlds::add_user_edges;
use std::alloc::{AllocError, Global};

/// Adds a user, whose number is the next: the row of its name, and an edge from each world to the empty path. Worlds and
/// tuples keep their numbers. A write for the user, two writes and a read for each world, and one read more.
pub fn add_user<K: Keeper>(
    alloc: Global,
    keeper: &mut K,
    uid: u32,
    name: &Txt,
) -> Result<(), TabError>
    requires running { (K.seen keeper.old).running ≡ true }
    requires base { SomeMayAddUser (K.seen keeper.old).kept uid name.now }
    ensures added { OnOk result
        (AddsUserNamed (K.seen keeper.old).kept (K.seen keeper.new).kept uid name.now) }
    ensures writes { OnOk result (WritesUser (K.seen keeper.old) (K.seen keeper.new) uid name.now) }
    ensures keeps { OnOk result (SameNumbers (K.seen keeper.old).kept (K.seen keeper.new).kept) }
    ensures counts { NeverFall (K.seen keeper.old) (K.seen keeper.new) }
    ensures steps { Steps (K.seen keeper.old) (K.seen keeper.new) result TabError.Fault }
{
    match put_live(alloc, keeper, uid, name) {
        Ok(()) => {}
        Err(error) => return Err(error),
    }
    match add_user_edges(alloc, keeper, uid) {
        Ok(()) => Ok(()),
        Err(error) => Err(error),
    }
}

/// Writes the row of a live user. One write.
pub fn put_live<K: Keeper>(
    alloc: Global,
    keeper: &mut K,
    uid: u32,
    name: &Txt,
) -> Result<(), TabError>
    requires running { (K.seen keeper.old).running ≡ true }
    requires plain { IsPlain name.now }
    ensures kept { OnOk result ((K.seen keeper.new).kept ≡ tables.insert (K.seen keeper.old).kept
        (place user_codec uid) (user_codec.row_bytes (Live name.now))) }
    ensures grammar { OnOk result (InGrammar (K.seen keeper.old).kept
        → InGrammar (K.seen keeper.new).kept) }
    ensures writes { OnOk result (RoseBy 1 (K.seen keeper.old).writes (K.seen keeper.new).writes) }
    ensures write { IsWrite (K.seen keeper.old) (K.seen keeper.new) result TabError.Fault }
{
    let slot = match live_slot(alloc, name) {
        Ok(slot) => slot,
        Err(_) => {
            keeper.undo();
            return Err(TabError::Memory);
        }
    };
    match put::<UserTab, K>(alloc, keeper, &uid, &slot) {
        Ok(()) => Ok(()),
        Err(error) => Err(error),
    }
}

// A place with a live user of this name.
fn live_slot(alloc: Global, name: &Txt) -> Result<UserSlot, AllocError>
    ensures { IfOk result (λ slot. slot ≡ Live name.now) }
{
    let name = name.try_clone(alloc)?;
    Ok(UserSlot::Live(name))
}

/// Adds a place whose user is gone, of the next number: a row without bytes, and no edge. So the place of one who left is
/// written where a base is written whole. One write.
pub fn add_gone_place<K: Keeper>(alloc: Global, keeper: &mut K, uid: u32) -> Result<(), TabError>
    requires running { (K.seen keeper.old).running ≡ true }
    requires base { SomeMayAddGonePlace (K.seen keeper.old).kept uid }
    ensures added { OnOk result
        (AddsGonePlace (K.seen keeper.old).kept (K.seen keeper.new).kept uid) }
    ensures writes { OnOk result (RoseBy 1 (K.seen keeper.old).writes (K.seen keeper.new).writes) }
    ensures write { IsWrite (K.seen keeper.old) (K.seen keeper.new) result TabError.Fault }
{
    match put::<UserTab, K>(alloc, keeper, &uid, &UserSlot::Gone) {
        Ok(()) => Ok(()),
        Err(error) => Err(error),
    }
}
