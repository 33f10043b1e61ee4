// Reading rows of worlds with their tuples.
ghost use Rattle.std.specs.Prelude.{◌≡◌, ◌+◌, ◌*◌, ◌≤◌, ◌++◌, [], true, IfOk, OnOk, length, drop, map};
ghost use Rattle.bdb_keep.specs.Calls.{IsRead};
ghost use Rattle.bdb_key.specs.Bytes.{num_bytes};
ghost use Rattle.bdb_key.specs.Grammar.{AreKeyVals};
ghost use Rattle.bdb_tables.specs.Grammar.{InGrammar};
ghost use Rattle.bdb_tables.specs.GroupMarks.{group_bytes, in_group};
ghost use Rattle.bdb_tables.specs.InUse.{HaveKeyTexts, val_codec};
ghost use Rattle.bdb_tables.specs.Spans.{AreUnder};
ghost use Rattle.bdb_val.specs.Reads.{AreReadUnder, HaveTuples, world_prefix};
ghost use Rattle.bdb_val.specs.Rooms.{MayBegin};

use crate::changes::Marked;
use crate::room::{GroupRoom, PREFIX_ROOM};
use crate::stored::StoredRow;
use bdb_base::Value;
use bdb_keep::Keeper;
use bdb_key::put_num;
use bdb_tables::{Room, TabError, marks_under, numbered_under, put_key_vals, put_pair, read_tuple};
use std::alloc::{AllocError, Global};

/// The rows of worlds whose keys begin with these bytes, with their tuples, in the order of the keys. Two reads for each
/// row at most, and one more.
pub fn read_stored<K: Keeper>(
    alloc: Global,
    keeper: &mut K,
    prefix: &[u8],
) -> Result<Vec<StoredRow>, TabError>
    requires grammar { InGrammar (K.seen keeper.old).kept }
    requires tuples { HaveTuples (K.seen keeper.old).kept }
    ensures rows { IfOk result
        (λ rows. AreReadUnder (K.seen keeper.old).kept prefix.now rows.items) }
    ensures reads { IfOk result
        (λ rows. (K.seen keeper.new).reads
        ≤ (K.seen keeper.old).reads + (2 * length rows.items + 1)) }
    ensures read { IsRead (K.seen keeper.old) (K.seen keeper.new) result TabError.Fault }
{
    let mut room = Room::new(alloc);
    let entries = match numbered_under(alloc, keeper, prefix, &mut room) {
        Ok(entries) => entries,
        Err(error) => return Err(error),
    };
    let mut rows = Vec::new(alloc);
    for entry in &entries {
        match read_tuple(alloc, keeper, entry.0) {
            Ok(tuple) => {
                let row = StoredRow {
                    tid: entry.0,
                    tuple,
                    mark: entry.1,
                };
                if rows.push(row).is_err() {
                    keeper.undo();
                    return Err(TabError::Memory);
                }
            }
            Err(error) => return Err(error),
        }
    }
    Ok(rows)
}

/// The rows of a world, with their tuples, in the order of the keys.
pub fn read_world<K: Keeper>(
    alloc: Global,
    keeper: &mut K,
    wid: u32,
) -> Result<Vec<StoredRow>, TabError>
    requires grammar { InGrammar (K.seen keeper.old).kept }
    requires tuples { HaveTuples (K.seen keeper.old).kept }
    ensures rows { IfOk result (λ rows. AreReadUnder (K.seen keeper.old).kept (world_prefix wid)
        rows.items) }
    ensures reads { IfOk result
        (λ rows. (K.seen keeper.new).reads
        ≤ (K.seen keeper.old).reads + (2 * length rows.items + 1)) }
    ensures read { IsRead (K.seen keeper.old) (K.seen keeper.new) result TabError.Fault }
{
    let mut prefix = Vec::new(alloc);
    if put_num(&mut prefix, wid).is_err() {
        keeper.undo();
        return Err(TabError::Memory);
    }
    match read_stored(alloc, keeper, &prefix) {
        Ok(rows) => Ok(rows),
        Err(error) => Err(error),
    }
}

/// The rows of a world for the tuples of a relation and a key, with their tuples, in order of their numbers.
pub fn read_group<K: Keeper>(
    alloc: Global,
    keeper: &mut K,
    wid: u32,
    rel: u32,
    key: &[Value],
) -> Result<Vec<StoredRow>, TabError>
    requires grammar { InGrammar (K.seen keeper.old).kept }
    requires tuples { HaveTuples (K.seen keeper.old).kept }
    requires text { HaveKeyTexts key.now }
    ensures rows { IfOk result
        (λ rows. AreReadUnder (K.seen keeper.old).kept (group_bytes wid rel key.now) rows.items) }
    ensures reads { IfOk result
        (λ rows. (K.seen keeper.new).reads
        ≤ (K.seen keeper.old).reads + (2 * length rows.items + 1)) }
    ensures fits { OnOk result (AreKeyVals key.now) }
    ensures read { IsRead (K.seen keeper.old) (K.seen keeper.new) result TabError.Fault }
{
    let mut prefix = match Vec::with_capacity(alloc, PREFIX_ROOM) {
        Ok(prefix) => prefix,
        Err(_) => {
            keeper.undo();
            return Err(TabError::Memory);
        }
    };
    if put_group(&mut prefix, wid, rel, key).is_err() {
        keeper.undo();
        return Err(TabError::Memory);
    }
    match read_stored(alloc, keeper, &prefix) {
        Ok(rows) => Ok(rows),
        Err(error) => Err(error),
    }
}

/// Makes `rows` the rows of a world for the tuples of a relation and a key, by the tuples' numbers, in their order.
/// The room's `prefix` becomes the bytes with which the rows' keys begin.
pub fn group_marks<K: Keeper>(
    keeper: &mut K,
    wid: u32,
    rel: u32,
    key: &[Value],
    room: &mut GroupRoom,
    rows: &mut Vec<Marked>,
) -> Result<(), TabError>
    requires running { (K.seen keeper.old).running ≡ true }
    requires grammar { InGrammar (K.seen keeper.old).kept }
    requires text { HaveKeyTexts key.now }
    requires begins { MayBegin room.old.prefix.items rel key.now }
    ensures rows { OnOk result
        (AreUnder val_codec (K.seen keeper.old).kept (group_bytes wid rel key.now)
        (map (in_group wid rel key.now) rows.new.items)) }
    ensures prefix { OnOk result (room.new.prefix.items ≡ group_bytes wid rel key.now) }
    ensures fits { OnOk result (AreKeyVals key.now) }
    ensures read { IsRead (K.seen keeper.old) (K.seen keeper.new) result TabError.Fault }
{
    match begin_group(keeper, &mut room.prefix, wid, rel, key) {
        Ok(()) => {}
        Err(error) => return Err(error),
    }
    match marks_under(keeper, &room.prefix, &mut room.marks, rows) {
        Ok(()) => Ok(()),
        Err(error) => Err(error),
    }
}

// Makes bytes those with which the keys of a group of a world begin. Where they are those of the group in another world, only the
// world's number is replaced.
fn begin_group<K: Keeper>(
    keeper: &mut K,
    prefix: &mut Vec<u8>,
    wid: u32,
    rel: u32,
    key: &[Value],
) -> Result<(), TabError>
    requires running { (K.seen keeper.old).running ≡ true }
    requires text { HaveKeyTexts key.now }
    requires begins { MayBegin prefix.old.items rel key.now }
    ensures bytes { OnOk result (prefix.new.items ≡ group_bytes wid rel key.now) }
    ensures fits { OnOk result (AreKeyVals key.now) }
    ensures read { IsRead (K.seen keeper.old) (K.seen keeper.new) result TabError.Fault }
{
    if !prefix.is_empty() {
        set_world(prefix, wid);
        return Ok(());
    }
    match put_group(prefix, wid, rel, key) {
        Ok(()) => Ok(()),
        Err(_) => {
            keeper.undo();
            Err(TabError::Memory)
        }
    }
}

// Makes no bytes those with which the keys of a group of a world begin.
fn put_group(prefix: &mut Vec<u8>, wid: u32, rel: u32, key: &[Value]) -> Result<(), AllocError>
    requires text { HaveKeyTexts key.now }
    requires none { prefix.old.items ≡ [] }
    ensures bytes { OnOk result (prefix.new.items ≡ group_bytes wid rel key.now) }
    ensures fits { OnOk result (AreKeyVals key.now) }
{
    put_pair(prefix, wid, rel)?;
    put_key_vals(prefix, key)?;
    Ok(())
}

// Makes the number with which bytes begin that of a world.
fn set_world(prefix: &mut Vec<u8>, wid: u32)
    requires { 4 ≤ length prefix.old.items }
    ensures { prefix.new.items ≡ num_bytes wid ++ drop 4 prefix.old.items }
{
    let [first, second, third, fourth] = wid.to_be_bytes();
    prefix[0] = first;
    prefix[1] = second;
    prefix[2] = third;
    prefix[3] = fourth;
}
