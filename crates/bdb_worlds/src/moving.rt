// What a new world takes over: the worlds whose suffix links and edges are to lead to it.
ghost use Rattle.std.specs.Prelude.{◌≡◌, [], ◌∷◌, IfOk, OnOk};
ghost use Rattle.bdb_keep.specs.Seen.{NeverFall, Steps};
ghost use Rattle.bdb_tables.specs.Grammar.{InGrammar};
ghost use Rattle.bdb_names.specs.Search.{sources_after, met_after};
ghost use Rattle.bdb_worlds.specs.Finds.{IsChildRead, FindsMovers};

use crate::children::next_child;
use bdb_keep::Keeper;
use bdb_tables::{EdgeTab, Room, TabError, get_in};
use std::alloc::{AllocError, Global};

/// The worlds whose edges for `uid`, and those whose suffix links, are to lead to the new world that the edge of `start`
/// for `uid` will lead to, and that led to `from` so far. Nothing else is read than the edges of these worlds and of
/// the worlds that are linked to them.
pub fn movers<K: Keeper>(
    alloc: Global,
    keeper: &mut K,
    start: u32,
    uid: u32,
    from: u32,
) -> Result<(Vec<u32>, Vec<u32>), TabError>
    requires grammar { InGrammar (K.seen keeper.old).kept }
    ensures found { IfOk result
        (λ found. FindsMovers (K.seen keeper.old).kept start uid from found.0.items found.1.items) }
    ensures kept { OnOk result ((K.seen keeper.new).kept ≡ (K.seen keeper.old).kept) }
    ensures writes { (K.seen keeper.new).writes ≡ (K.seen keeper.old).writes }
    ensures counts { NeverFall (K.seen keeper.old) (K.seen keeper.new) }
    ensures steps { Steps (K.seen keeper.old) (K.seen keeper.new) result TabError.Fault }
{
    let mut met = Vec::new(alloc);
    let mut sources = match only(alloc, start) {
        Ok(sources) => sources,
        Err(_) => {
            keeper.undo();
            return Err(TabError::Memory);
        }
    };
    let mut room = Room::new(alloc);
    let mut at: usize = 0;
    let mut low: u64 = 0;
    for _ in 0..u64::MAX {
        if at >= sources.len() {
            return Ok((sources, met));
        }
        match next_child(alloc, keeper, sources[at], low, &mut room) {
            Ok(Some(child)) => {
                match visit(
                    alloc,
                    keeper,
                    (child, uid),
                    from,
                    &mut sources,
                    &mut met,
                    &mut room,
                ) {
                    Ok(()) => {}
                    Err(error) => return Err(error),
                }
                low = child as u64 + 1;
                continue;
            }
            Ok(None) => {}
            Err(error) => return Err(error),
        }
        at += 1;
        low = 0;
    }
    keeper.undo();
    Err(TabError::Memory)
}

/// A list of one number.
fn only(alloc: Global, number: u32) -> Result<Vec<u32>, AllocError>
    ensures { IfOk result (λ numbers. numbers.items ≡ number ∷ []) }
{
    let mut numbers = Vec::new(alloc);
    numbers.push(number)?;
    Ok(numbers)
}

/// Reads the edge of a child, given by the child and a user, and notes what it shows: the child's edge moves, or the link of the world to
/// which it leads.
fn visit<K: Keeper>(
    alloc: Global,
    keeper: &mut K,
    edge: (u32, u32),
    from: u32,
    sources: &mut Vec<u32>,
    met: &mut Vec<u32>,
    room: &mut Room,
) -> Result<(), TabError>
    requires grammar { InGrammar (K.seen keeper.old).kept }
    ensures visit { OnOk result
        (IsChildRead (K.seen keeper.old).kept edge.0 edge.1 from sources.old.items met.old.items
        sources.new.items met.new.items) }
    ensures kept { OnOk result ((K.seen keeper.new).kept ≡ (K.seen keeper.old).kept) }
    ensures writes { (K.seen keeper.new).writes ≡ (K.seen keeper.old).writes }
    ensures counts { NeverFall (K.seen keeper.old) (K.seen keeper.new) }
    ensures steps { Steps (K.seen keeper.old) (K.seen keeper.new) result TabError.Fault }
{
    let target = match get_in::<EdgeTab, K>(alloc, keeper, &edge, room) {
        Ok(Some(target)) => target,
        Ok(None) => return Ok(()),
        Err(error) => return Err(error),
    };
    match note(edge.0, target, from, sources, met) {
        Ok(()) => Ok(()),
        Err(_) => {
            keeper.undo();
            Err(TabError::Memory)
        }
    }
}

/// Notes a child whose edge leads to `from`, or else the world to which it leads.
fn note(
    child: u32,
    target: u32,
    from: u32,
    sources: &mut Vec<u32>,
    met: &mut Vec<u32>,
) -> Result<(), AllocError>
    ensures sources { OnOk result
        (sources.new.items ≡ sources_after (Some target) from child sources.old.items) }
    ensures met { OnOk result (met.new.items ≡ met_after (Some target) from met.old.items) }
{
    if target == from {
        sources.push(child)?;
    } else {
        met.push(target)?;
    }
    Ok(())
}
