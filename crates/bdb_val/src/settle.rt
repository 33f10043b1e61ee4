// Settling the rows of one world.
ghost use Rattle.std.specs.Prelude.{◌≡◌, ◌+◌, ◌-◌, ◌<◌, ◌^◌, ◌||◌, nat_eq, true, cond, length, map, MatchOption, [], ◌∷◌, Some, IfOk, OnOk};
ghost use Rattle.bdb_base.specs.Causes.{Rises};
ghost use Rattle.bdb_keep.specs.Calls.{IsRead, IsWrite};
ghost use Rattle.bdb_key.specs.Grammar.{AreKeyVals};
ghost use Rattle.bdb_tables.specs.Codec.{HasAt};
ghost use Rattle.bdb_tables.specs.Grammar.{InGrammar};
ghost use Rattle.bdb_tables.specs.GroupMarks.{AreChanges, HaveMarks, IsGroup, group_bytes, in_group};
ghost use Rattle.bdb_tables.specs.InUse.{HaveKeyTexts, link_codec, val_codec};
ghost use Rattle.bdb_tables.specs.Spans.{AreUnder};
ghost use Rattle.bdb_val.specs.GroupChanges.{group_changes, mark_under, TellsMarks};
ghost use Rattle.bdb_val.specs.Others.{SamePlacesBut};
ghost use Rattle.bdb_val.specs.Reads.{HaveTuples};
ghost use Rattle.bdb_val.specs.Rooms.{IsRoomFor};
ghost use Rattle.bdb_val.specs.Stated.{WhereStated};
ghost use Rattle.bdb_val.specs.Steps.{turns_from, comes, goes, IsChanging, IsStep};

use crate::changes::{MarkChange, Marked, put_all_new, put_changes};
use crate::numbered::NumberedRows;
use crate::reading::group_marks;
use crate::room::{GroupRoom, Handed, WalkRoom};
use crate::stored::SettledWorld;
use bdb_base::{Sign, Value};
use bdb_keep::Keeper;
use bdb_tables::{TabError, write_marks};

/// Settles the rows of a world for the tuples of a relation and a key: each is explicit, or what the world
/// inherits from the world to which its suffix link leads, where no explicit row contradicts it. One write for each row that is
/// another afterwards. No tuple is read: where the explicit rows are statements, the numbers of tuples tell which rows of a group
/// contradict each other. The rows of the world to which this one is linked are read unless the room has them.
pub fn settle_state<K: Keeper>(
    keeper: &mut K,
    wid: u32,
    link: Option<u32>,
    rel: u32,
    key: &[Value],
    room: &mut WalkRoom,
) -> Result<SettledWorld, TabError>
    requires running { (K.seen keeper.old).running ≡ true }
    requires grammar { InGrammar (K.seen keeper.old).kept }
    requires tuples { HaveTuples (K.seen keeper.old).kept }
    requires text { HaveKeyTexts key.now }
    requires room { IsRoomFor (K.seen keeper.old).kept rel key.now room.old.group.prefix.items
        room.old.handed.from room.old.handed.rows.items
        room.old.handed.singles.items }
    ensures settled { IfOk result (λ settled. HasAt link_codec (K.seen keeper.old).kept wid link
        → WhereStated (K.seen keeper.old).kept
        (λ keys. IsStep keys (K.seen keeper.old) (K.seen keeper.new) wid
        (λ w. group_bytes w rel key.now) settled)) }
    ensures others { OnOk result
        (SamePlacesBut (λ n. nat_eq n 11) (K.seen keeper.old).kept (K.seen keeper.new).kept) }
    ensures grammar { OnOk result (InGrammar (K.seen keeper.new).kept) }
    ensures tuples { OnOk result (HaveTuples (K.seen keeper.new).kept) }
    ensures fits { OnOk result (AreKeyVals key.now) }
    ensures room { OnOk result
        (IsRoomFor
        (K.seen keeper.new).kept rel key.now room.new.group.prefix.items room.new.handed.from
        room.new.handed.rows.items room.new.handed.singles.items) }
    ensures changing { IsChanging (K.seen keeper.old) (K.seen keeper.new) result TabError.Fault }
{
    match keep_linked(keeper, link, rel, key, &mut room.group, &mut room.handed) {
        Ok(()) => {}
        Err(error) => return Err(error),
    }
    match group_marks(keeper, wid, rel, key, &mut room.group, &mut room.own) {
        Ok(()) => {}
        Err(error) => return Err(error),
    }
    match find_changes(keeper, &mut room.changes, &room.own, &room.handed.rows) {
        Ok(()) => {}
        Err(error) => return Err(error),
    }
    room.handed.forget(wid);
    room.handed.note(wid, &room.own, &room.changes);
    match write_changes(keeper, &mut room.group.prefix, &room.own, &room.changes) {
        Ok(settled) => Ok(settled),
        Err(error) => Err(error),
    }
}

// Makes a list that of the changes that settle a group of a world. Most worlds have no row of a group before.
fn find_changes<K: Keeper>(
    keeper: &mut K,
    changes: &mut Vec<MarkChange>,
    own: &[Marked],
    from: &[Marked],
) -> Result<(), TabError>
    requires running { (K.seen keeper.old).running ≡ true }
    ensures changes { OnOk result (changes.new.items ≡ group_changes own.now from.now) }
    ensures read { IsRead (K.seen keeper.old) (K.seen keeper.new) result TabError.Fault }
{
    if own.is_empty() {
        match put_all_new(changes, from) {
            Ok(()) => return Ok(()),
            Err(_) => {
                keeper.undo();
                return Err(TabError::Memory);
            }
        }
    }
    match put_changes(changes, own, from) {
        Ok(()) => Ok(()),
        Err(_) => {
            keeper.undo();
            Err(TabError::Memory)
        }
    }
}

// Makes changes in a group, and tells what they do to the world's rows.
fn write_changes<K: Keeper>(
    keeper: &mut K,
    prefix: &mut Vec<u8>,
    own: &[Marked],
    changes: &[MarkChange],
) -> Result<SettledWorld, TabError>
    requires running { (K.seen keeper.old).running ≡ true }
    requires group { IsGroup prefix.old.items }
    ensures told { IfOk result (TellsMarks (mark_under own.now) changes.now) }
    ensures kept { OnOk result
        (HaveMarks (K.seen keeper.old).kept (K.seen keeper.new).kept prefix.old.items changes.now) }
    ensures fits { OnOk result (AreChanges prefix.old.items changes.now) }
    ensures grammar { OnOk result (InGrammar (K.seen keeper.old).kept
        → InGrammar (K.seen keeper.new).kept) }
    ensures prefix { OnOk result (prefix.new.items ≡ prefix.old.items) }
    ensures writes { OnOk result (Rises (length changes.now) (K.seen keeper.old).writes
        (K.seen keeper.new).writes) }
    ensures write { IsWrite (K.seen keeper.old) (K.seen keeper.new) result TabError.Fault }
{
    match write_marks(keeper, prefix, changes) {
        Ok(()) => {}
        Err(error) => return Err(error),
    }
    if own.is_empty() {
        return Ok(told_of_new(changes));
    }
    Ok(told(own, changes))
}

// Makes the rows that are kept those of a group of the world to which another is linked, and none where there is no such world.
// They are read where those of another world were kept, and its only row isn't known.
fn keep_linked<K: Keeper>(
    keeper: &mut K,
    link: Option<u32>,
    rel: u32,
    key: &[Value],
    room: &mut GroupRoom,
    handed: &mut Handed,
) -> Result<(), TabError>
    requires running { (K.seen keeper.old).running ≡ true }
    requires grammar { InGrammar (K.seen keeper.old).kept }
    requires text { HaveKeyTexts key.now }
    requires room { IsRoomFor
        (K.seen keeper.old).kept rel key.now room.old.prefix.items handed.old.from
        handed.old.rows.items handed.old.singles.items }
    ensures rows { OnOk result
        (MatchOption link (handed.new.rows.items ≡ [])
        (λ m. AreUnder val_codec (K.seen keeper.old).kept (group_bytes m rel key.now)
        (map (in_group m rel key.now) handed.new.rows.items))) }
    ensures room { OnOk result
        (IsRoomFor (K.seen keeper.old).kept rel key.now room.new.prefix.items handed.new.from
        handed.new.rows.items handed.new.singles.items) }
    ensures singles { handed.new.singles.items ≡ handed.old.singles.items }
    ensures read { IsRead (K.seen keeper.old) (K.seen keeper.new) result TabError.Fault }
{
    let wid = match link {
        Some(wid) => wid,
        None => {
            handed.from = None;
            handed.rows.clear();
            return Ok(());
        }
    };
    if handed.is_from(wid) {
        return Ok(());
    }
    match handed.single(wid) {
        Some(row) => match keep_single(keeper, wid, row, handed) {
            Ok(()) => return Ok(()),
            Err(error) => return Err(error),
        },
        None => {}
    }
    match group_marks(keeper, wid, rel, key, room, &mut handed.rows) {
        Ok(()) => {
            handed.from = Some(wid);
            Ok(())
        }
        Err(error) => Err(error),
    }
}

// Makes the rows that are kept the only one of a world.
fn keep_single<K: Keeper>(
    keeper: &mut K,
    wid: u32,
    row: Marked,
    handed: &mut Handed,
) -> Result<(), TabError>
    requires running { (K.seen keeper.old).running ≡ true }
    ensures from { OnOk result (handed.new.from ≡ Some wid) }
    ensures rows { OnOk result (handed.new.rows.items ≡ row ∷ []) }
    ensures singles { handed.new.singles.items ≡ handed.old.singles.items }
    ensures read { IsRead (K.seen keeper.old) (K.seen keeper.new) result TabError.Fault }
{
    handed.rows.clear();
    if handed.rows.push(row).is_err() {
        keeper.undo();
        return Err(TabError::Memory);
    }
    handed.from = Some(wid);
    Ok(())
}

// What changes do to a world that has no rows.
fn told_of_new(changes: &[MarkChange]) -> SettledWorld
    ensures { TellsMarks (mark_under []) changes.now result }
{
    let mut settled = SettledWorld {
        turned: false,
        put: 0,
        taken: 0,
    };
    for change in changes {
        settled = with_change(settled, None, change.1);
    }
    settled
}

// What changes do to a world's rows.
fn told(own: &[Marked], changes: &[MarkChange]) -> SettledWorld
    ensures { TellsMarks (mark_under own.now) changes.now result }
{
    let rows = NumberedRows::of(own);
    let mut settled = SettledWorld {
        turned: false,
        put: 0,
        taken: 0,
    };
    for change in changes {
        settled = with_change(settled, rows.mark(change.0), change.1);
    }
    settled
}

// What was done, where one more row becomes another.
fn with_change(
    settled: SettledWorld,
    before: Option<(Sign, bool)>,
    next: Option<(Sign, bool)>,
) -> SettledWorld
    requires put { settled.put < 2 ^ 64 - 1 }
    requires taken { settled.taken < 2 ^ 64 - 1 }
    ensures turned { result.turned ≡ (settled.turned || turns_from before next) }
    ensures put { result.put ≡ cond (comes before next) (settled.put + 1) settled.put }
    ensures taken { result.taken ≡ cond (goes before next) (settled.taken + 1) settled.taken }
{
    let SettledWorld { turned, put, taken } = settled;
    match (before, next) {
        (None, None) => settled,
        (None, Some(_)) => SettledWorld {
            turned: true,
            put: put + 1,
            taken,
        },
        (Some(_), None) => SettledWorld {
            turned: true,
            put,
            taken: taken + 1,
        },
        (Some((sign, _)), Some((other, _))) => SettledWorld {
            turned: turned || sign != other,
            put,
            taken,
        },
    }
}
