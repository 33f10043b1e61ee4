// Opening a session over tables.
ghost use Rattle.std.specs.Prelude.{◌≡◌, ℕ, true, false, IfOk, OnOk, OnErr, IsErrOf};
ghost use Rattle.std.specs.FinMap as tables;
ghost use Rattle.bdb_base.specs.Bases.{Contents, empty_contents};
ghost use Rattle.bdb_base.specs.Causes.{HasCause, Rises};
ghost use Rattle.bdb_catalog.specs.Bases.{StoresSome};
ghost use Rattle.bdb_catalog.specs.Opening.{StandFor, StandForSome};
ghost use Rattle.bdb_decode.specs.Opening.{AreDamaged, HaveOtherFormat, TellsStand};
ghost use Rattle.bdb_keep.specs.Seen.{IsAtRest, IsStill, NeverFall, Steps, Unchanged};
ghost use Rattle.bdb_tables.specs.Stored.{Stores};
ghost use Rattle.bdb_session.specs.Committing.{IsCommitted};
ghost use Rattle.bdb_session.specs.Known.{Remembers, RemembersSome};
ghost use Rattle.bdb_session.specs.Opening.{opening, KnowsStored, Opens};
ghost use Rattle.bdb_undo.specs.Histories.{nothing_kept};
ghost use Rattle.bdb_undo.specs.Timelines.{started};

use crate::error::StopError;
use crate::session::Session;
use crate::transact::{begin, commit, stop_from};
use bdb_base::{Base, Catalog, List};
use bdb_bind::NameIndex;
use bdb_canon::Counts;
use bdb_catalog::{read_relations, read_users, write_empty};
use bdb_decode::{OpenError, Stand, stand_of};
use bdb_keep::Keeper;
use bdb_stored::{counts_of, write_all_tables};
use bdb_tables::TabError;
use bdb_undo::History;
use std::alloc::{AllocError, Global};

impl Session {
    /// A session over the base that the tables stand for, whatever bytes they have, with no changes to take back or make again. Tables with no row are given those of the empty
    /// base, and tables of the format before this one are written in this one, each by one commit, after which nothing can be
    /// refused. Others stay as they are, and nothing is written to them, whatever is answered. `Damaged` and `Format` come exactly as
    /// they do where tables of any bytes are decoded; then, too, the tables stay as they are, and nothing is written. After any Err the
    /// rows and what is committed are as they were.
    pub fn open<K: Keeper>(alloc: Global, keeper: &mut K) -> Result<Self, OpenError>
        requires stopped { (K.seen keeper.old).running ≡ false }
        ensures rest { IsAtRest (K.seen keeper.old) }
        ensures stand { OnOk result (StandForSome (K.seen keeper.old).kept) }
        ensures damaged { IsErrOf result OpenError.Damaged → AreDamaged (K.seen keeper.old).kept }
        ensures format { (n : ℕ) → IsErrOf result (OpenError.Format n)
            → HaveOtherFormat (K.seen keeper.old).kept n }
        ensures opened { IfOk result
            (λ session. Opens (K.seen keeper.old).kept (K.seen keeper.new).kept session) }
        ensures agrees { IfOk result (λ session. RemembersSome (K.seen keeper.new).kept session) }
        ensures commits { OnOk result
            (Rises (opening (K.seen keeper.old).kept) (K.seen keeper.old).commits
            (K.seen keeper.new).commits) }
        ensures unchanged { OnOk result (opening (K.seen keeper.old).kept ≡ 0
            → Unchanged (K.seen keeper.old) (K.seen keeper.new)) }
        ensures unwritten { opening (K.seen keeper.old).kept ≡ 0 → (K.seen keeper.new).writes
            ≡ (K.seen keeper.old).writes }
        ensures refused { ((b : Contents) → StandFor (K.seen keeper.old).kept b → ⊥)
            → (K.seen keeper.new).writes ≡ (K.seen keeper.old).writes }
        ensures still { IsStill (K.seen keeper.new) }
        ensures never_fall { NeverFall (K.seen keeper.old) (K.seen keeper.new) }
        ensures cause { HasCause (K.seen keeper.old).faults
            (K.seen keeper.new).faults result OpenError.Fault }
        ensures err { OnErr result (Unchanged (K.seen keeper.old) (K.seen keeper.new)) }
    {
        let stand = match stand_of(alloc, keeper) {
            Ok(stand) => stand,
            Err(error) => return Err(error),
        };
        match open_held(alloc, keeper, &stand) {
            Ok(session) => Ok(session),
            Err(StopError::Fault) => Err(OpenError::Fault),
            Err(StopError::Memory) => Err(OpenError::Memory),
        }
    }
}

/// A session over tables that stand for a base.
fn open_held<K: Keeper>(alloc: Global, keeper: &mut K, stand: &Stand) -> Result<Session, StopError>
    requires still { IsStill (K.seen keeper.old) }
    requires stand { TellsStand (K.seen keeper.old).kept stand.now }
    ensures opened { IfOk result
        (λ session. Opens (K.seen keeper.old).kept (K.seen keeper.new).kept session) }
    ensures agrees { IfOk result (λ session. RemembersSome (K.seen keeper.new).kept session) }
    ensures commits { OnOk result
        (Rises (opening (K.seen keeper.old).kept) (K.seen keeper.old).commits
        (K.seen keeper.new).commits) }
    ensures unchanged { OnOk result (opening (K.seen keeper.old).kept ≡ 0
        → Unchanged (K.seen keeper.old) (K.seen keeper.new)) }
    ensures unwritten { opening (K.seen keeper.old).kept ≡ 0 → (K.seen keeper.new).writes
        ≡ (K.seen keeper.old).writes }
    ensures still { IsStill (K.seen keeper.new) }
    ensures never_fall { NeverFall (K.seen keeper.old) (K.seen keeper.new) }
    ensures cause { HasCause (K.seen keeper.old).faults
        (K.seen keeper.new).faults result StopError.Fault }
    ensures err { OnErr result (Unchanged (K.seen keeper.old) (K.seen keeper.new)) }
{
    match stand {
        Stand::Empty => new_session(alloc, keeper),
        Stand::Stored(_) => read_session(alloc, keeper),
        Stand::Former(base) => migrate(alloc, keeper, base),
    }
}

/// A session over the base that the tables store, where no transaction runs.
fn read_session<K: Keeper>(alloc: Global, keeper: &mut K) -> Result<Session, StopError>
    requires still { IsStill (K.seen keeper.old) }
    requires base { StoresSome (K.seen keeper.old).kept }
    ensures knows { IfOk result (λ session. KnowsStored (K.seen keeper.old).kept session) }
    ensures unchanged { Unchanged (K.seen keeper.old) (K.seen keeper.new) }
    ensures unwritten { (K.seen keeper.new).writes ≡ (K.seen keeper.old).writes }
    ensures still { IsStill (K.seen keeper.new) }
    ensures never_fall { NeverFall (K.seen keeper.old) (K.seen keeper.new) }
    ensures cause { HasCause (K.seen keeper.old).faults
        (K.seen keeper.new).faults result StopError.Fault }
{
    match session_of(alloc, keeper) {
        Ok(session) => Ok(session),
        Err(error) => Err(stop_from(error)),
    }
}

/// A session over the base that the tables store, whether a transaction runs or not.
fn session_of<K: Keeper>(alloc: Global, keeper: &mut K) -> Result<Session, TabError>
    requires base { StoresSome (K.seen keeper.old).kept }
    ensures knows { IfOk result (λ session. KnowsStored (K.seen keeper.old).kept session) }
    ensures kept { OnOk result ((K.seen keeper.new).kept ≡ (K.seen keeper.old).kept) }
    ensures writes { (K.seen keeper.new).writes ≡ (K.seen keeper.old).writes }
    ensures counts { NeverFall (K.seen keeper.old) (K.seen keeper.new) }
    ensures steps { Steps (K.seen keeper.old) (K.seen keeper.new) result TabError.Fault }
{
    let users = match read_users(alloc, keeper) {
        Ok(users) => users,
        Err(error) => return Err(error),
    };
    let rels = match read_relations(alloc, keeper) {
        Ok(rels) => rels,
        Err(error) => return Err(error),
    };
    let counts = match counts_of(alloc, keeper) {
        Ok(counts) => counts,
        Err(error) => return Err(error),
    };
    match session_over(alloc, Catalog { rels, users }, counts) {
        Ok(session) => Ok(session),
        Err(_) => {
            keeper.undo();
            Err(TabError::Memory)
        }
    }
}

/// A session over a base of this catalog and these sizes, with no changes to take back or make again.
pub(crate) fn session_over(
    alloc: Global,
    catalog: Catalog,
    counts: Counts,
) -> Result<Session, AllocError>
    ensures { IfOk result
        (λ session. session ≡ record {
          catalog = catalog;
          counts = counts;
          history = nothing_kept;
        }) }
{
    let index = NameIndex::of(alloc, &catalog)?;
    let history = History::new(alloc)?;
    Ok(Session {
        catalog,
        counts,
        index,
        history,
        alloc,
    })
}

/// Makes the tables those of a base, whatever rows they had, in a transaction of its own, with a session over it. The session is
/// made before the commit: afterwards nothing is asked for that can be refused.
fn migrate<K: Keeper>(alloc: Global, keeper: &mut K, base: &Base) -> Result<Session, StopError>
    requires still { IsStill (K.seen keeper.old) }
    ensures agrees { IfOk result (λ session. Remembers (K.seen keeper.new).kept session
        (started base.now)) }
    ensures committed { IsCommitted (K.seen keeper.old) (K.seen keeper.new) result StopError.Fault }
{
    match begin(keeper) {
        Ok(()) => {}
        Err(stop) => return Err(stop),
    }
    let session = match written_session(alloc, keeper, base) {
        Ok(session) => session,
        Err(error) => return Err(stop_from(error)),
    };
    match commit(keeper) {
        Ok(()) => Ok(session),
        Err(stop) => Err(stop),
    }
}

/// Makes the tables those of a base, whatever rows they had, with a session over it.
fn written_session<K: Keeper>(
    alloc: Global,
    keeper: &mut K,
    base: &Base,
) -> Result<Session, TabError>
    requires running { (K.seen keeper.old).running ≡ true }
    ensures agrees { IfOk result (λ session. Remembers (K.seen keeper.new).kept session
        (started base.now)) }
    ensures counts { NeverFall (K.seen keeper.old) (K.seen keeper.new) }
    ensures steps { Steps (K.seen keeper.old) (K.seen keeper.new) result TabError.Fault }
{
    match write_all_tables(alloc, keeper, base) {
        Ok(()) => {}
        Err(error) => return Err(error),
    }
    match session_of(alloc, keeper) {
        Ok(session) => Ok(session),
        Err(error) => Err(error),
    }
}

/// A session over the empty base, of which the tables are made.
fn new_session<K: Keeper>(alloc: Global, keeper: &mut K) -> Result<Session, StopError>
    requires still { IsStill (K.seen keeper.old) }
    requires empty { (K.seen keeper.old).kept ≡ tables.empty }
    ensures agrees { IfOk result (λ session. Remembers (K.seen keeper.new).kept session
        (started empty_contents)) }
    ensures committed { IsCommitted (K.seen keeper.old) (K.seen keeper.new) result StopError.Fault }
{
    let session = match empty_session(alloc) {
        Ok(session) => session,
        Err(_) => return Err(StopError::Memory),
    };
    match commit_empty(alloc, keeper) {
        Ok(()) => Ok(session),
        Err(stop) => Err(stop),
    }
}

/// A session over the empty base.
fn empty_session(alloc: Global) -> Result<Session, AllocError>
    ensures { IfOk result
        (λ session. session ≡ record {
          catalog = empty_contents.catalog;
          counts = record { worlds = 1; tuples = 0; stmts = 0; rows = 0 };
          history = nothing_kept;
        }) }
{
    let catalog = Catalog {
        rels: List::new(alloc),
        users: List::new(alloc),
    };
    let counts = Counts {
        worlds: 1,
        tuples: 0,
        stmts: 0,
        rows: 0,
    };
    session_over(alloc, catalog, counts)
}

/// Makes the tables of the empty base, in a transaction of its own.
fn commit_empty<K: Keeper>(alloc: Global, keeper: &mut K) -> Result<(), StopError>
    requires still { IsStill (K.seen keeper.old) }
    requires empty { (K.seen keeper.old).kept ≡ tables.empty }
    ensures stored { OnOk result (Stores (K.seen keeper.new).kept empty_contents) }
    ensures committed { IsCommitted (K.seen keeper.old) (K.seen keeper.new) result StopError.Fault }
{
    match begin(keeper) {
        Ok(()) => {}
        Err(stop) => return Err(stop),
    }
    match write_empty(alloc, keeper) {
        Ok(()) => {}
        Err(error) => return Err(stop_from(error)),
    }
    match commit(keeper) {
        Ok(()) => Ok(()),
        Err(stop) => Err(stop),
    }
}
