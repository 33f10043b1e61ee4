// A new state: what it takes over is read first, and then written.
ghost use Rattle.std.specs.Prelude.{◌≡◌, true, Some, IfOk, OnOk, is_some};
ghost use Rattle.std.specs.FinMap as map;
ghost use Rattle.bdb_base.specs.Causes.{Rises};
ghost use Rattle.bdb_keep.specs.Seen.{NeverFall, Steps};
ghost use Rattle.bdb_tables.specs.Codec.{place};
ghost use Rattle.bdb_tables.specs.Grammar.{InGrammar};
ghost use Rattle.bdb_tables.specs.InUse.{edge_codec};
ghost use Rattle.bdb_worlds.specs.Growth.{IsTaken, IsAdded, with_state, state_writes};

use crate::leading::{lead_edges, lead_links};
use crate::making::{make_edges, make_state};
use crate::moving::movers;
use crate::owning::edges_but;
use bdb_keep::Keeper;
use bdb_tables::{EdgeTab, TabError, get};
use std::alloc::Global;

/// What a new world takes over.
#[derive(Drop)]
struct TakenOver {
    /// The world to which its suffix link leads, and to which all led so far that is to lead to it.
    from: u32,
    /// The worlds whose edges for its last user are to lead to it.
    sources: Vec<u32>,
    /// The worlds whose suffix links are to lead to it.
    met: Vec<u32>,
    /// Its own edges, each by its user and the world to which it leads.
    own: Vec<(u32, u32)>,
}

/// Makes a state of the path that the edge of `start` for a user stands for, under a number of its own.
pub fn add_next<K: Keeper>(
    alloc: Global,
    keeper: &mut K,
    start: u32,
    uid: u32,
    depth: u32,
    number: u32,
) -> Result<(), TabError>
    requires running { (K.seen keeper.old).running ≡ true }
    requires grammar { InGrammar (K.seen keeper.old).kept }
    requires edge { is_some (map.get (K.seen keeper.old).kept (place edge_codec (start, uid)))
        ≡ true }
    ensures added { OnOk result
        (IsAdded (K.seen keeper.old).kept (K.seen keeper.new).kept start uid depth number
        (K.seen keeper.old).writes (K.seen keeper.new).writes) }
    ensures grammar { OnOk result (InGrammar (K.seen keeper.new).kept) }
    ensures counts { NeverFall (K.seen keeper.old) (K.seen keeper.new) }
    ensures steps { Steps (K.seen keeper.old) (K.seen keeper.new) result TabError.Fault }
{
    let taken = match read_taken(alloc, keeper, start, uid) {
        Ok(taken) => taken,
        Err(error) => return Err(error),
    };
    match write_taken(alloc, keeper, &taken, uid, depth, number) {
        Ok(()) => Ok(()),
        Err(error) => Err(error),
    }
}

/// What the world takes over that is to stand at the edge of `start` for a user.
fn read_taken<K: Keeper>(
    alloc: Global,
    keeper: &mut K,
    start: u32,
    uid: u32,
) -> Result<TakenOver, TabError>
    requires grammar { InGrammar (K.seen keeper.old).kept }
    requires edge { is_some (map.get (K.seen keeper.old).kept (place edge_codec (start, uid)))
        ≡ true }
    ensures taken { IfOk result
        (λ taken.
        IsTaken (K.seen keeper.old).kept start uid taken.from taken.sources.items taken.met.items
        taken.own.items) }
    ensures kept { OnOk result ((K.seen keeper.new).kept ≡ (K.seen keeper.old).kept) }
    ensures writes { (K.seen keeper.new).writes ≡ (K.seen keeper.old).writes }
    ensures counts { NeverFall (K.seen keeper.old) (K.seen keeper.new) }
    ensures steps { Steps (K.seen keeper.old) (K.seen keeper.new) result TabError.Fault }
{
    let from = match get::<EdgeTab, K>(alloc, keeper, &(start, uid)) {
        Ok(Some(from)) => from,
        Ok(None) => unreachable!(),
        Err(error) => return Err(error),
    };
    let (sources, met) = match movers(alloc, keeper, start, uid, from) {
        Ok(found) => found,
        Err(error) => return Err(error),
    };
    let own = match edges_but(alloc, keeper, from, uid) {
        Ok(own) => own,
        Err(error) => return Err(error),
    };
    Ok(TakenOver {
        from,
        sources,
        met,
        own,
    })
}

/// Leads to a new world what it takes over, and makes its own rows.
fn write_taken<K: Keeper>(
    alloc: Global,
    keeper: &mut K,
    taken: &TakenOver,
    uid: u32,
    depth: u32,
    number: u32,
) -> Result<(), TabError>
    requires running { (K.seen keeper.old).running ≡ true }
    ensures kept { OnOk result
        ((K.seen keeper.new).kept ≡ with_state
        (K.seen keeper.old).kept uid taken.now.from taken.now.sources.items taken.now.met.items
        taken.now.own.items number depth) }
    ensures grammar { OnOk result (InGrammar (K.seen keeper.old).kept
        → InGrammar (K.seen keeper.new).kept) }
    ensures reads { (K.seen keeper.new).reads ≡ (K.seen keeper.old).reads }
    ensures writes { OnOk result
        (Rises (state_writes taken.now.sources.items taken.now.met.items taken.now.own.items)
        (K.seen keeper.old).writes (K.seen keeper.new).writes) }
    ensures counts { NeverFall (K.seen keeper.old) (K.seen keeper.new) }
    ensures steps { Steps (K.seen keeper.old) (K.seen keeper.new) result TabError.Fault }
{
    let from = taken.from;
    lead_edges(alloc, keeper, &taken.sources, uid, from, number)?;
    lead_links(alloc, keeper, &taken.met, from, number)?;
    make_edges(alloc, keeper, number, &taken.own)?;
    make_state(alloc, keeper, number, depth, from)?;
    Ok(())
}
