// Settling a group of rows at a state and at all states whose suffix links lead to it.
ghost use Rattle.std.specs.Prelude.{◌≡◌, nat_eq, ◌+◌, true, Some, IfOk, OnOk};
ghost use Rattle.bdb_keep.specs.Calls.{IsRead};
ghost use Rattle.bdb_key.specs.Grammar.{AreKeyVals};
ghost use Rattle.bdb_key.specs.Bytes.{num_bytes};
ghost use Rattle.bdb_tables.specs.Codec.{HasAt};
ghost use Rattle.bdb_tables.specs.Grammar.{InGrammar};
ghost use Rattle.bdb_tables.specs.InUse.{HaveKeyTexts, link_codec};
ghost use Rattle.bdb_tables.specs.GroupMarks.{group_bytes};
ghost use Rattle.bdb_val.specs.Groups.{SettlesGroup, TellsGroup};
ghost use Rattle.bdb_val.specs.Others.{SamePlacesBut};
ghost use Rattle.bdb_val.specs.Reads.{HaveTuples};
ghost use Rattle.bdb_val.specs.Rooms.{IsRoomFor};
ghost use Rattle.bdb_val.specs.Stated.{WhereStated};
ghost use Rattle.bdb_val.specs.Steps.{counted, IsChanging};
ghost use Rattle.bdb_val.specs.Visits.{AreAllLinks, ArePushed, IsFirstVisit, IsNextVisit};

use crate::links::{Links, leads_none, push_found, push_read, read_links};
use crate::room::{LinkRoom, WalkRoom};
use crate::settle::settle_state;
use crate::stored::{Settled, SettledWorld};
use bdb_base::Value;
use bdb_keep::Keeper;
use bdb_key::put_num;
use bdb_tables::{SuffixIx, SuffixTab, Tab, TabError, get, table_error};
use std::alloc::{AllocError, Global};

/// Settles the rows of the tuples of a relation and a key, at a state and at all states whose suffix links lead
/// to it: each is explicit, or inherited where no explicit row contradicts it. It goes on from a state only where a sign
/// there is another. One write for each row that is another afterwards; it tells how many rows were put at keys that had none,
/// and how many were taken away. Where it begins at the root, which all links lead to in the end, they are read at once.
pub fn settle_group<K: Keeper>(
    alloc: Global,
    keeper: &mut K,
    wid: u32,
    rel: u32,
    key: &[Value],
) -> Result<Settled, TabError>
    requires running { (K.seen keeper.old).running ≡ true }
    requires grammar { InGrammar (K.seen keeper.old).kept }
    requires tuples { HaveTuples (K.seen keeper.old).kept }
    requires text { HaveKeyTexts key.now }
    ensures settled { OnOk result
        (SettlesGroup (K.seen keeper.old).kept (K.seen keeper.new).kept wid rel key.now) }
    ensures tells { IfOk result
        (TellsGroup (K.seen keeper.old) (K.seen keeper.new) wid rel key.now) }
    ensures others { OnOk result
        (SamePlacesBut (λ n. nat_eq n 11) (K.seen keeper.old).kept (K.seen keeper.new).kept) }
    ensures grammar { OnOk result (InGrammar (K.seen keeper.new).kept) }
    ensures tuples { OnOk result (HaveTuples (K.seen keeper.new).kept) }
    ensures changing { IsChanging (K.seen keeper.old) (K.seen keeper.new) result TabError.Fault }
{
    let links = match read_links(alloc, keeper, wid) {
        Ok(links) => links,
        Err(error) => return Err(error),
    };
    match settle_from(alloc, keeper, wid, rel, key, &links) {
        Ok(settled) => Ok(settled),
        Err(error) => Err(error),
    }
}

// The same by links that were read, where they are all.
fn settle_from<K: Keeper>(
    alloc: Global,
    keeper: &mut K,
    wid: u32,
    rel: u32,
    key: &[Value],
    links: &Links,
) -> Result<Settled, TabError>
    requires running { (K.seen keeper.old).running ≡ true }
    requires grammar { InGrammar (K.seen keeper.old).kept }
    requires tuples { HaveTuples (K.seen keeper.old).kept }
    requires text { HaveKeyTexts key.now }
    requires links { AreAllLinks (K.seen keeper.old).kept links.now.are_all links.now.list.items }
    ensures settled { OnOk result
        (SettlesGroup (K.seen keeper.old).kept (K.seen keeper.new).kept wid rel key.now) }
    ensures tells { IfOk result
        (TellsGroup (K.seen keeper.old) (K.seen keeper.new) wid rel key.now) }
    ensures others { OnOk result
        (SamePlacesBut (λ n. nat_eq n 11) (K.seen keeper.old).kept (K.seen keeper.new).kept) }
    ensures grammar { OnOk result (InGrammar (K.seen keeper.new).kept) }
    ensures tuples { OnOk result (HaveTuples (K.seen keeper.new).kept) }
    ensures changing { IsChanging (K.seen keeper.old) (K.seen keeper.new) result TabError.Fault }
{
    let mut room = match WalkRoom::new(alloc, links.starts.len()) {
        Ok(room) => room,
        Err(_) => {
            keeper.undo();
            return Err(TabError::Memory);
        }
    };
    let mut list = Vec::new(alloc);
    let first = match visit_first(alloc, keeper, wid, rel, key, links, &mut list, &mut room) {
        Ok(settled) => settled,
        Err(error) => return Err(error),
    };
    let mut total = first_of(first);
    let mut at: usize = 0;
    for _ in 0..u64::MAX {
        if at >= list.len() {
            return Ok(total);
        }
        let next = list[at];
        match visit_next(alloc, keeper, next, rel, key, links, &mut list, &mut room) {
            Ok(settled) => total = both(total, settled),
            Err(error) => return Err(error),
        }
        at += 1;
    }
    keeper.undo();
    Err(TabError::Memory)
}

// Settles a state, and puts all links that lead to it on the list.
fn visit_first<K: Keeper>(
    alloc: Global,
    keeper: &mut K,
    wid: u32,
    rel: u32,
    key: &[Value],
    links: &Links,
    list: &mut Vec<(u32, u32)>,
    room: &mut WalkRoom,
) -> Result<SettledWorld, TabError>
    requires running { (K.seen keeper.old).running ≡ true }
    requires grammar { InGrammar (K.seen keeper.old).kept }
    requires tuples { HaveTuples (K.seen keeper.old).kept }
    requires text { HaveKeyTexts key.now }
    requires links { AreAllLinks (K.seen keeper.old).kept links.now.are_all links.now.list.items }
    requires room { IsRoomFor (K.seen keeper.old).kept rel key.now room.old.group.prefix.items
        room.old.handed.from room.old.handed.rows.items
        room.old.handed.singles.items }
    ensures visited { IfOk result
        (λ settled. WhereStated (K.seen keeper.old).kept
        (λ keys. IsFirstVisit keys (K.seen keeper.old) (K.seen keeper.new)
        (λ w. group_bytes w rel key.now) wid list.old.items list.new.items settled)) }
    ensures others { OnOk result
        (SamePlacesBut (λ n. nat_eq n 11) (K.seen keeper.old).kept (K.seen keeper.new).kept) }
    ensures grammar { OnOk result (InGrammar (K.seen keeper.new).kept) }
    ensures tuples { OnOk result (HaveTuples (K.seen keeper.new).kept) }
    ensures fits { OnOk result (AreKeyVals key.now) }
    ensures room { OnOk result
        (IsRoomFor
        (K.seen keeper.new).kept rel key.now room.new.group.prefix.items room.new.handed.from
        room.new.handed.rows.items room.new.handed.singles.items) }
    ensures changing { IsChanging (K.seen keeper.old) (K.seen keeper.new) result TabError.Fault }
{
    let link = match get::<SuffixTab, K>(alloc, keeper, &wid) {
        Ok(link) => link,
        Err(error) => return Err(error),
    };
    let settled = match settle_state(keeper, wid, link, rel, key, room) {
        Ok(settled) => settled,
        Err(error) => return Err(error),
    };
    match push_linked(alloc, keeper, wid, links, list, &mut room.links) {
        Ok(()) => Ok(settled),
        Err(error) => Err(error),
    }
}

// Settles the state that has a link, and puts the links that lead to it on the list where a sign there is another.
fn visit_next<K: Keeper>(
    alloc: Global,
    keeper: &mut K,
    next: (u32, u32),
    rel: u32,
    key: &[Value],
    links: &Links,
    list: &mut Vec<(u32, u32)>,
    room: &mut WalkRoom,
) -> Result<SettledWorld, TabError>
    requires running { (K.seen keeper.old).running ≡ true }
    requires grammar { InGrammar (K.seen keeper.old).kept }
    requires tuples { HaveTuples (K.seen keeper.old).kept }
    requires text { HaveKeyTexts key.now }
    requires links { AreAllLinks (K.seen keeper.old).kept links.now.are_all links.now.list.items }
    requires room { IsRoomFor (K.seen keeper.old).kept rel key.now room.old.group.prefix.items
        room.old.handed.from room.old.handed.rows.items
        room.old.handed.singles.items }
    ensures visited { IfOk result
        (λ settled. HasAt link_codec (K.seen keeper.old).kept next.0 (Some next.1)
        → WhereStated (K.seen keeper.old).kept
        (λ keys. IsNextVisit keys (K.seen keeper.old) (K.seen keeper.new)
        (λ w. group_bytes w rel key.now) next.0 list.old.items list.new.items settled)) }
    ensures others { OnOk result
        (SamePlacesBut (λ n. nat_eq n 11) (K.seen keeper.old).kept (K.seen keeper.new).kept) }
    ensures grammar { OnOk result (InGrammar (K.seen keeper.new).kept) }
    ensures tuples { OnOk result (HaveTuples (K.seen keeper.new).kept) }
    ensures room { OnOk result
        (IsRoomFor
        (K.seen keeper.new).kept rel key.now room.new.group.prefix.items room.new.handed.from
        room.new.handed.rows.items room.new.handed.singles.items) }
    ensures changing { IsChanging (K.seen keeper.old) (K.seen keeper.new) result TabError.Fault }
{
    let settled = match settle_state(keeper, next.0, Some(next.1), rel, key, room) {
        Ok(settled) => settled,
        Err(error) => return Err(error),
    };
    if !settled.turned {
        return Ok(settled);
    }
    match push_linked(alloc, keeper, next.0, links, list, &mut room.links) {
        Ok(()) => Ok(settled),
        Err(error) => Err(error),
    }
}

// Puts the suffix links that lead to a state on the list, each by the state that has it and the one to which it leads. They are
// read unless all were.
fn push_linked<K: Keeper>(
    alloc: Global,
    keeper: &mut K,
    wid: u32,
    links: &Links,
    list: &mut Vec<(u32, u32)>,
    room: &mut LinkRoom,
) -> Result<(), TabError>
    requires running { (K.seen keeper.old).running ≡ true }
    requires grammar { InGrammar (K.seen keeper.old).kept }
    requires links { AreAllLinks (K.seen keeper.old).kept links.now.are_all links.now.list.items }
    ensures pushed { OnOk result
        (ArePushed (K.seen keeper.old).kept wid list.old.items list.new.items) }
    ensures read { IsRead (K.seen keeper.old) (K.seen keeper.new) result TabError.Fault }
{
    if !links.are_all {
        match read_linked(alloc, keeper, wid, list, room) {
            Ok(()) => return Ok(()),
            Err(error) => return Err(error),
        }
    }
    if leads_none(links, wid) {
        return Ok(());
    }
    match push_found(links, wid, list) {
        Ok(()) => Ok(()),
        Err(_) => {
            keeper.undo();
            Err(TabError::Memory)
        }
    }
}

// Reads the suffix links that lead to a state, and puts them on the list. They are read at once.
fn read_linked<K: Keeper>(
    alloc: Global,
    keeper: &mut K,
    wid: u32,
    list: &mut Vec<(u32, u32)>,
    room: &mut LinkRoom,
) -> Result<(), TabError>
    requires grammar { InGrammar (K.seen keeper.old).kept }
    ensures pushed { OnOk result
        (ArePushed (K.seen keeper.old).kept wid list.old.items list.new.items) }
    ensures read { IsRead (K.seen keeper.old) (K.seen keeper.new) result TabError.Fault }
{
    match put_world(&mut room.prefix, wid) {
        Ok(()) => {}
        Err(_) => {
            keeper.undo();
            return Err(TabError::Memory);
        }
    }
    match keeper.under(SuffixIx::NUMBER, &room.prefix, &mut room.span) {
        Ok(()) => {}
        Err(error) => return Err(table_error(error)),
    }
    match push_read(alloc, &room.span, list) {
        Ok(()) => Ok(()),
        Err(_) => {
            keeper.undo();
            Err(TabError::Memory)
        }
    }
}

// Makes bytes those with which the keys of the links that lead to a state begin.
fn put_world(prefix: &mut Vec<u8>, wid: u32) -> Result<(), AllocError>
    ensures { OnOk result (prefix.new.items ≡ num_bytes wid) }
{
    prefix.clear();
    put_num(prefix, wid)?;
    Ok(())
}

// What was done, where one world is settled.
fn first_of(settled: SettledWorld) -> Settled
    ensures put { result.put ≡ counted settled.put }
    ensures taken { result.taken ≡ counted settled.taken }
{
    Settled {
        put: settled.put,
        taken: settled.taken,
    }
}

// What was done, where one more world is settled.
fn both(first: Settled, second: SettledWorld) -> Settled
    ensures put { result.put ≡ counted (first.put + second.put) }
    ensures taken { result.taken ≡ counted (first.taken + second.taken) }
{
    Settled {
        put: first.put.saturating_add(second.put),
        taken: first.taken.saturating_add(second.taken),
    }
}
