// The changes that commands make, as the history notes them.
ghost use Rattle.std.specs.Prelude.{◌≡◌, true, [], ◌∷◌, ◌++◌, IfOk, OnOk};
ghost use Rattle.bdb_base.specs.Order.{statement_cmp};
ghost use Rattle.bdb_base.specs.SortedSet.{sorted_set};
ghost use Rattle.bdb_undo.specs.declared.change.Named.TheVariants.{Nothing, UserAdded, RelationAdded, UserDropped};
ghost use Rattle.bdb_val.specs.Steps.{IsChanging};
ghost use Rattle.bdb_update.specs.Calls.{SomeMayMeet};
ghost use Rattle.bdb_session.specs.Noting.{AreNew, PushesNew, Replaces, SomeMayMeetEach, made_of};

use bdb_base::{Exact, List, RelDef, Stmt, Txt, put_copy};
use bdb_canon::Counts;
use bdb_keep::Keeper;
use bdb_tables::TabError;
use bdb_undo::{Change, Named, missing_from};
use bdb_update::stands;
use std::alloc::{AllocError, Global};

/// A user was added.
pub(crate) fn user_added(alloc: Global, name: Txt) -> Change
    ensures { result ≡ record { named = UserAdded name; gone = []; come = [] } }
{
    Change {
        named: Named::UserAdded { name },
        gone: List::new(alloc),
        come: List::new(alloc),
    }
}

/// A relation was added.
pub(crate) fn relation_added(alloc: Global, def: RelDef) -> Change
    ensures { result ≡ record { named = RelationAdded def; gone = []; come = [] } }
{
    Change {
        named: Named::RelationAdded { def },
        gone: List::new(alloc),
        come: List::new(alloc),
    }
}

/// A user left, and with him these statements.
pub(crate) fn user_dropped(alloc: Global, uid: u32, name: Txt, gone: List<Stmt>) -> Change
    ensures { result ≡ record { named = UserDropped uid name; gone = gone; come = [] } }
{
    Change {
        named: Named::UserDropped { uid, name },
        gone,
        come: List::new(alloc),
    }
}

/// A statement came.
pub(crate) fn statement_added(alloc: Global, stmt: Stmt) -> Result<Change, AllocError>
    ensures { IfOk result (λ c. c ≡ record { named = Nothing; gone = []; come = stmt ∷ [] }) }
{
    let mut come = List::new(alloc);
    come.push(stmt)?;
    Ok(Change {
        named: Named::Nothing,
        gone: List::new(alloc),
        come,
    })
}

/// Statements went.
pub(crate) fn statements_taken(alloc: Global, gone: List<Stmt>) -> Option<Change>
    ensures { result ≡ made_of (record { named = Nothing; gone = gone; come = [] }) }
{
    made_of(Change {
        named: Named::Nothing,
        gone,
        come: List::new(alloc),
    })
}

/// A change, where it alters something.
fn made_of(change: Change) -> Option<Change>
    ensures { result ≡ made_of change }
{
    if change.alters() { Some(change) } else { None }
}

/// What goes and what comes where statements are put in place of others that stand: those of them go that are not among the others,
/// and those of the others come that do not stand. For each of the others is read whether it stands.
pub(crate) fn replacement<K: Keeper>(
    alloc: Global,
    keeper: &mut K,
    counts: &Counts,
    gone: &[Stmt],
    come: &[Stmt],
) -> Result<Option<Change>, TabError>
    requires running { (K.seen keeper.old).running ≡ true }
    requires base { SomeMayMeetEach (K.seen keeper.old).kept counts.now come.now }
    ensures change { IfOk result
        (λ c. Replaces (K.seen keeper.old).kept counts.now gone.now come.now c) }
    ensures kept { OnOk result ((K.seen keeper.new).kept ≡ (K.seen keeper.old).kept) }
    ensures writes { (K.seen keeper.new).writes ≡ (K.seen keeper.old).writes }
    ensures changing { IsChanging (K.seen keeper.old) (K.seen keeper.new) result TabError.Fault }
{
    let made = match statement_set(alloc, come) {
        Ok(made) => made,
        Err(_) => {
            keeper.undo();
            return Err(TabError::Memory);
        }
    };
    let fresh = match new_among(alloc, keeper, counts, made.as_slice()) {
        Ok(fresh) => fresh,
        Err(error) => return Err(error),
    };
    match missing_from(alloc, made.as_slice(), gone) {
        Ok(gone) => Ok(made_of(Change {
            named: Named::Nothing,
            gone,
            come: fresh,
        })),
        Err(_) => {
            keeper.undo();
            Err(TabError::Memory)
        }
    }
}

/// Copies of statements as a set, in order.
fn statement_set(alloc: Global, stmts: &[Stmt]) -> Result<List<Stmt>, AllocError>
    ensures { IfOk result (λ xs. xs ≡ sorted_set statement_cmp stmts.now) }
{
    let mut set = List::new(alloc);
    for stmt in stmts {
        let _added = put_copy(alloc, &mut set, stmt)?;
    }
    Ok(set)
}

/// Copies of those statements that do not stand in the base that the tables store.
fn new_among<K: Keeper>(
    alloc: Global,
    keeper: &mut K,
    counts: &Counts,
    stmts: &[Stmt],
) -> Result<List<Stmt>, TabError>
    requires running { (K.seen keeper.old).running ≡ true }
    requires base { SomeMayMeetEach (K.seen keeper.old).kept counts.now stmts.now }
    ensures new { IfOk result (λ xs. AreNew (K.seen keeper.old).kept counts.now stmts.now xs) }
    ensures kept { OnOk result ((K.seen keeper.new).kept ≡ (K.seen keeper.old).kept) }
    ensures writes { (K.seen keeper.new).writes ≡ (K.seen keeper.old).writes }
    ensures changing { IsChanging (K.seen keeper.old) (K.seen keeper.new) result TabError.Fault }
{
    let mut fresh = List::new(alloc);
    for stmt in stmts {
        match push_new(alloc, keeper, counts, &mut fresh, stmt) {
            Ok(()) => {}
            Err(error) => return Err(error),
        }
    }
    Ok(fresh)
}

/// Pushes a copy of a statement, unless it stands in the base that the tables store.
fn push_new<K: Keeper>(
    alloc: Global,
    keeper: &mut K,
    counts: &Counts,
    list: &mut List<Stmt>,
    stmt: &Stmt,
) -> Result<(), TabError>
    requires running { (K.seen keeper.old).running ≡ true }
    requires base { SomeMayMeet (K.seen keeper.old).kept counts.now stmt.now }
    ensures pushed { OnOk result
        (PushesNew (K.seen keeper.old).kept counts.now stmt.now list.old list.new) }
    ensures kept { OnOk result ((K.seen keeper.new).kept ≡ (K.seen keeper.old).kept) }
    ensures writes { (K.seen keeper.new).writes ≡ (K.seen keeper.old).writes }
    ensures changing { IsChanging (K.seen keeper.old) (K.seen keeper.new) result TabError.Fault }
{
    match stands(alloc, keeper, counts, stmt) {
        Ok(true) => Ok(()),
        Ok(false) => match push_copy(alloc, list, stmt) {
            Ok(()) => Ok(()),
            Err(_) => {
                keeper.undo();
                Err(TabError::Memory)
            }
        },
        Err(error) => Err(error),
    }
}

/// Pushes a copy of a statement.
fn push_copy(alloc: Global, list: &mut List<Stmt>, stmt: &Stmt) -> Result<(), AllocError>
    ensures { OnOk result (list.new ≡ list.old ++ stmt.now ∷ []) }
{
    list.push(stmt.try_clone(alloc)?)?;
    Ok(())
}
