// What tables show, read from a keeper.
ghost use Rattle.std.specs.Prelude.{◌≡◌, ◌≤◌, ◌+◌, ◌*◌, true, Some, IfOk, OnOk, filter_map, length, map, take};
ghost use Rattle.std.specs.List.{AllByRecursion, list_any};
ghost use Rattle.bdb_base.specs.declared.tuple.Tuple.{Tuple};
ghost use Rattle.bdb_plan.specs.Running.{plus_tuples};
ghost use Rattle.bdb_plan.specs.Sight.{rows_deny};
ghost use Rattle.bdb_tables.specs.Codec.{HasRow};
ghost use Rattle.bdb_tables.specs.InUse.{tuple_codec};
ghost use Rattle.bdb_tables.specs.Reading.{OnlyReads};
ghost use Rattle.bdb_exec.specs.Keys.{asks_for_key, key_asked, of_key, rows_of_key, values_behind};
ghost use Rattle.bdb_exec.specs.LookUps.{deny_looks, pool_looks};
ghost use Rattle.bdb_exec.specs.Memos.{Recalls};
ghost use Rattle.bdb_exec.specs.Readable.{CanBeRun};
ghost use Rattle.bdb_exec.specs.Rows.{HasTuple, IsNumberOf, HasPushed, signed_at, mark_denies, tuple_of_slot};
ghost use Rattle.bdb_exec.specs.Seen.{sight_of, signed_under};

use crate::memo::{Memo, keep_pool, keep_tuple, last_pool};
use crate::prefixes::{are_written, put_group, put_key_prefix, put_relation_prefix};
use crate::shared::Shared;
use crate::state::State;
use bdb_base::{Exact, List, Sign, Tuple, UserSlot, key_of};
use bdb_keep::Keeper;
use bdb_plan::Step;
use bdb_queries::user_tuple;
use bdb_tables::{
    EdgeTab, TabError, TupleIx, UserTab, get, numbered_under, read_tuple, rows_under,
    stored_key_length,
};
use std::alloc::{AllocError, Global};

/// The users, by number. One read for each place of users, and one more.
pub fn users<K: Keeper>(alloc: Global, keeper: &mut K) -> Result<List<Shared>, TabError>
    requires run { CanBeRun (K.seen keeper.old).kept }
    ensures users { IfOk result (λ users. users ≡ (sight_of (K.seen keeper.old).kept).users) }
    ensures reads { OnOk result
        ((K.seen keeper.new).reads
        ≤ (K.seen keeper.old).reads + ((sight_of (K.seen keeper.old).kept).places + 1)) }
    ensures looks { OnlyReads (K.seen keeper.old) (K.seen keeper.new) result TabError.Fault }
{
    let entries = match rows_under::<UserTab, K>(alloc, keeper, &[]) {
        Ok(entries) => entries,
        Err(error) => return Err(error),
    };
    match users_of(alloc, entries) {
        Ok(users) => Ok(users),
        Err(_) => {
            keeper.undo();
            Err(TabError::Memory)
        }
    }
}

// The users of rows, without those who are gone.
fn users_of(alloc: Global, entries: Vec<(u32, UserSlot)>) -> Result<List<Shared>, AllocError>
    ensures { IfOk result (λ users. users ≡ filter_map tuple_of_slot entries.items) }
{
    let mut users = List::new(alloc);
    for entry in entries {
        let (uid, slot) = entry;
        match slot {
            UserSlot::Live(name) => {
                let tuple = user_tuple(alloc, uid, name)?;
                users.push(Shared::new(alloc, tuple)?)?;
            }
            UserSlot::Gone => {}
        }
    }
    Ok(users)
}

/// Where the edge of a world for a user leads. One read, the first time.
pub fn edge<K: Keeper>(
    alloc: Global,
    keeper: &mut K,
    memo: &mut Memo,
    world: u32,
    uid: u32,
) -> Result<Option<u32>, TabError>
    requires run { CanBeRun (K.seen keeper.old).kept }
    requires memo { Recalls (K.seen keeper.old).kept memo.old }
    ensures target { IfOk result
        (λ target. target ≡ (sight_of (K.seen keeper.old).kept).edge world uid) }
    ensures reads { OnOk result ((K.seen keeper.new).reads ≤ (K.seen keeper.old).reads + 1) }
    ensures memo { OnOk result (Recalls (K.seen keeper.old).kept memo.new) }
    ensures looks { OnlyReads (K.seen keeper.old) (K.seen keeper.new) result TabError.Fault }
{
    let key = (world, uid);
    match memo.edges.get(&key) {
        Some(target) => return Ok(*target),
        None => {}
    }
    let target = match get::<EdgeTab, K>(alloc, keeper, &key) {
        Ok(target) => target,
        Err(error) => return Err(error),
    };
    match memo.edges.insert(key, target) {
        Ok(_) => Ok(target),
        Err(_) => {
            keeper.undo();
            Err(TabError::Memory)
        }
    }
}

/// How long the key of a relation is. One read, the first time.
pub fn read_key_length<K: Keeper>(
    alloc: Global,
    keeper: &mut K,
    memo: &mut Memo,
    rel: u32,
) -> Result<u32, TabError>
    requires run { CanBeRun (K.seen keeper.old).kept }
    requires memo { Recalls (K.seen keeper.old).kept memo.old }
    ensures length { IfOk result (λ n. n ≡ (sight_of (K.seen keeper.old).kept).keys rel) }
    ensures reads { OnOk result ((K.seen keeper.new).reads ≤ (K.seen keeper.old).reads + 1) }
    ensures memo { OnOk result (Recalls (K.seen keeper.old).kept memo.new) }
    ensures looks { OnlyReads (K.seen keeper.old) (K.seen keeper.new) result TabError.Fault }
{
    match memo.lengths.get(&rel) {
        Some(n) => return Ok(*n),
        None => {}
    }
    let n = match stored_key_length(alloc, keeper, rel) {
        Ok(n) => n,
        Err(error) => return Err(error),
    };
    match memo.lengths.insert(rel, n) {
        Ok(_) => Ok(n),
        Err(_) => {
            keeper.undo();
            Err(TabError::Memory)
        }
    }
}

/// The tuples of a relation that a world has with plus. At most two reads for each row of the world and the relation, and
/// one more.
pub fn plus_tuples<K: Keeper>(
    alloc: Global,
    keeper: &mut K,
    memo: &mut Memo,
    world: u32,
    rel: u32,
) -> Result<List<Shared>, TabError>
    requires run { CanBeRun (K.seen keeper.old).kept }
    requires memo { Recalls (K.seen keeper.old).kept memo.old }
    ensures tuples { IfOk result
        (λ tuples. tuples ≡ plus_tuples ((sight_of (K.seen keeper.old).kept).rows world rel)) }
    ensures reads { OnOk result
        ((K.seen keeper.new).reads
        ≤ (K.seen keeper.old).reads + (2 * length
        ((sight_of (K.seen keeper.old).kept).rows world rel) + 1)) }
    ensures memo { OnOk result (Recalls (K.seen keeper.old).kept memo.new) }
    ensures looks { OnlyReads (K.seen keeper.old) (K.seen keeper.new) result TabError.Fault }
{
    let mut prefix = Vec::new(alloc);
    if put_relation_prefix(&mut prefix, world, rel).is_err() {
        keeper.undo();
        return Err(TabError::Memory);
    }
    match plus_under(alloc, keeper, memo, prefix.as_slice()) {
        Ok(tuples) => Ok(tuples),
        Err(error) => Err(error),
    }
}

/// As `plus_tuples`, but only the tuples whose first values are those that the tests right behind a choice ask for, and only their
/// rows are read, and how long the relation's key is.
pub fn plus_tuples_of_key<K: Keeper>(
    alloc: Global,
    keeper: &mut K,
    memo: &mut Memo,
    item: u32,
    rel: u32,
    state: &State,
    behind: &[Step],
) -> Result<List<Shared>, TabError>
    requires run { CanBeRun (K.seen keeper.old).kept }
    requires memo { Recalls (K.seen keeper.old).kept memo.old }
    requires asks { asks_for_key state.now.slots item behind.now ≡ true }
    ensures tuples { IfOk result
        (λ tuples.
        tuples ≡ of_key
        (key_asked ((sight_of (K.seen keeper.old).kept).keys rel) state.now.slots item behind.now)
        (plus_tuples ((sight_of (K.seen keeper.old).kept).rows state.now.world rel))) }
    ensures reads { OnOk result ((K.seen keeper.new).reads ≤ (K.seen keeper.old).reads + pool_looks
        (key_asked ((sight_of (K.seen keeper.old).kept).keys rel) state.now.slots item behind.now)
        ((sight_of (K.seen keeper.old).kept).rows state.now.world rel)) }
    ensures memo { OnOk result (Recalls (K.seen keeper.old).kept memo.new) }
    ensures looks { OnlyReads (K.seen keeper.old) (K.seen keeper.new) result TabError.Fault }
{
    let n = match read_key_length(alloc, keeper, memo, rel) {
        Ok(n) => n,
        Err(error) => return Err(error),
    };
    let world = state.world();
    match plus_tuples_asked(
        alloc,
        keeper,
        memo,
        world,
        rel,
        n,
        state.slots(),
        item,
        behind,
    ) {
        Ok(tuples) => Ok(tuples),
        Err(error) => Err(error),
    }
}

// The same, where the relation's key has the length `n`. One read less.
fn plus_tuples_asked<K: Keeper>(
    alloc: Global,
    keeper: &mut K,
    memo: &mut Memo,
    world: u32,
    rel: u32,
    n: u32,
    slots: &[Option<Shared>],
    item: u32,
    behind: &[Step],
) -> Result<List<Shared>, TabError>
    requires run { CanBeRun (K.seen keeper.old).kept }
    requires memo { Recalls (K.seen keeper.old).kept memo.old }
    requires length { n ≡ (sight_of (K.seen keeper.old).kept).keys rel }
    ensures tuples { IfOk result
        (λ tuples. tuples ≡ of_key (values_behind slots.now item behind.now n 0)
        (plus_tuples ((sight_of (K.seen keeper.old).kept).rows world rel))) }
    ensures reads { OnOk result
        ((K.seen keeper.new).reads
        ≤ (K.seen keeper.old).reads + (2 * length
        (rows_of_key (values_behind slots.now item behind.now n 0)
        ((sight_of (K.seen keeper.old).kept).rows world rel)) + 1)) }
    ensures memo { OnOk result (Recalls (K.seen keeper.old).kept memo.new) }
    ensures looks { OnlyReads (K.seen keeper.old) (K.seen keeper.new) result TabError.Fault }
{
    let mut prefix = Vec::new(alloc);
    match put_key_prefix(&mut prefix, world, rel, n, slots, item, behind) {
        Ok(true) => {}
        Ok(false) => return Ok(List::new(alloc)),
        Err(_) => {
            keeper.undo();
            return Err(TabError::Memory);
        }
    }
    match pool_under(alloc, keeper, memo, (world, rel), prefix) {
        Ok(tuples) => Ok(tuples),
        Err(error) => Err(error),
    }
}

// The tuples with plus of the rows of worlds whose keys begin so. Nothing is read where that was asked for last of the place.
fn pool_under<K: Keeper>(
    alloc: Global,
    keeper: &mut K,
    memo: &mut Memo,
    place: (u32, u32),
    prefix: Vec<u8>,
) -> Result<List<Shared>, TabError>
    requires run { CanBeRun (K.seen keeper.old).kept }
    requires memo { Recalls (K.seen keeper.old).kept memo.old }
    ensures tuples { IfOk result
        (λ tuples. tuples ≡ plus_tuples (signed_under (K.seen keeper.old).kept prefix.items)) }
    ensures reads { OnOk result
        ((K.seen keeper.new).reads
        ≤ (K.seen keeper.old).reads + (2 * length
        (signed_under (K.seen keeper.old).kept prefix.items) + 1)) }
    ensures memo { OnOk result (Recalls (K.seen keeper.old).kept memo.new) }
    ensures looks { OnlyReads (K.seen keeper.old) (K.seen keeper.new) result TabError.Fault }
{
    match last_pool(&memo.last_pools, &place, prefix.as_slice()) {
        Some(tuples) => match tuples.try_clone(alloc) {
            Ok(copy) => return Ok(copy),
            Err(_) => {
                keeper.undo();
                return Err(TabError::Memory);
            }
        },
        None => {}
    }
    let tuples = match plus_under(alloc, keeper, memo, prefix.as_slice()) {
        Ok(tuples) => tuples,
        Err(error) => return Err(error),
    };
    match keep_pool(alloc, &mut memo.last_pools, place, prefix, tuples) {
        Ok(copy) => Ok(copy),
        Err(_) => {
            keeper.undo();
            Err(TabError::Memory)
        }
    }
}

// The tuples with plus of the rows of worlds whose keys begin so.
fn plus_under<K: Keeper>(
    alloc: Global,
    keeper: &mut K,
    memo: &mut Memo,
    prefix: &[u8],
) -> Result<List<Shared>, TabError>
    requires run { CanBeRun (K.seen keeper.old).kept }
    requires memo { Recalls (K.seen keeper.old).kept memo.old }
    ensures tuples { IfOk result
        (λ tuples. tuples ≡ plus_tuples (signed_under (K.seen keeper.old).kept prefix.now)) }
    ensures reads { OnOk result
        ((K.seen keeper.new).reads
        ≤ (K.seen keeper.old).reads + (2 * length (signed_under (K.seen keeper.old).kept prefix.now)
        + 1)) }
    ensures memo { OnOk result (Recalls (K.seen keeper.old).kept memo.new) }
    ensures looks { OnlyReads (K.seen keeper.old) (K.seen keeper.new) result TabError.Fault }
{
    let entries = match numbered_under(alloc, keeper, prefix, &mut memo.room) {
        Ok(entries) => entries,
        Err(error) => return Err(error),
    };
    match plus_of(alloc, keeper, memo, entries.as_slice()) {
        Ok(tuples) => Ok(tuples),
        Err(error) => Err(error),
    }
}

// The tuples with plus of these rows. A read for each.
fn plus_of<K: Keeper>(
    alloc: Global,
    keeper: &mut K,
    memo: &mut Memo,
    entries: &[(u32, (Sign, bool))],
) -> Result<List<Shared>, TabError>
    requires run { CanBeRun (K.seen keeper.old).kept }
    requires memo { Recalls (K.seen keeper.old).kept memo.old }
    requires there { AllByRecursion (HasTuple (K.seen keeper.old).kept) entries.now }
    ensures tuples { IfOk result
        (λ tuples. tuples ≡ plus_tuples (map (signed_at (K.seen keeper.old).kept) entries.now)) }
    ensures reads { OnOk result
        ((K.seen keeper.new).reads ≤ (K.seen keeper.old).reads + length entries.now) }
    ensures memo { OnOk result (Recalls (K.seen keeper.old).kept memo.new) }
    ensures looks { OnlyReads (K.seen keeper.old) (K.seen keeper.new) result TabError.Fault }
{
    let mut tuples = List::new(alloc);
    for entry in entries {
        match push_plus(alloc, keeper, memo, entry.0, entry.1.0, &mut tuples) {
            Ok(()) => {}
            Err(error) => return Err(error),
        }
    }
    Ok(tuples)
}

// Appends the tuple of a number, where its sign is plus. One read at most.
fn push_plus<K: Keeper>(
    alloc: Global,
    keeper: &mut K,
    memo: &mut Memo,
    tid: u32,
    sign: Sign,
    tuples: &mut List<Shared>,
) -> Result<(), TabError>
    requires run { CanBeRun (K.seen keeper.old).kept }
    requires memo { Recalls (K.seen keeper.old).kept memo.old }
    requires there { (u : Tuple) × HasRow tuple_codec (K.seen keeper.old).kept tid u }
    ensures pushed { OnOk result
        (HasPushed (K.seen keeper.old).kept tid sign tuples.old tuples.new) }
    ensures reads { OnOk result ((K.seen keeper.new).reads ≤ (K.seen keeper.old).reads + 1) }
    ensures memo { OnOk result (Recalls (K.seen keeper.old).kept memo.new) }
    ensures looks { OnlyReads (K.seen keeper.old) (K.seen keeper.new) result TabError.Fault }
{
    match sign {
        Sign::Plus => match tuple_of(alloc, keeper, memo, tid) {
            Ok(tuple) => {
                if tuples.push(tuple).is_err() {
                    keeper.undo();
                    return Err(TabError::Memory);
                }
                Ok(())
            }
            Err(error) => Err(error),
        },
        Sign::Minus => Ok(()),
    }
}

// The tuple of a number that has one, read and decoded where it wasn't yet. One read, the first time.
fn tuple_of<K: Keeper>(
    alloc: Global,
    keeper: &mut K,
    memo: &mut Memo,
    tid: u32,
) -> Result<Shared, TabError>
    requires run { CanBeRun (K.seen keeper.old).kept }
    requires memo { Recalls (K.seen keeper.old).kept memo.old }
    requires there { (u : Tuple) × HasRow tuple_codec (K.seen keeper.old).kept tid u }
    ensures tuple { IfOk result (λ tuple. HasRow tuple_codec (K.seen keeper.old).kept tid tuple) }
    ensures reads { OnOk result ((K.seen keeper.new).reads ≤ (K.seen keeper.old).reads + 1) }
    ensures memo { OnOk result (Recalls (K.seen keeper.old).kept memo.new) }
    ensures looks { OnlyReads (K.seen keeper.old) (K.seen keeper.new) result TabError.Fault }
{
    match memo.tuples.get(&tid) {
        Some(shared) => {
            return match shared.try_clone(alloc) {
                Ok(tuple) => Ok(tuple),
                Err(_) => {
                    keeper.undo();
                    Err(TabError::Memory)
                }
            };
        }
        None => {}
    }
    let tuple = match read_tuple(alloc, keeper, tid) {
        Ok(tuple) => tuple,
        Err(error) => return Err(error),
    };
    match keep_tuple(alloc, &mut memo.tuples, tid, tuple) {
        Ok(shared) => Ok(shared),
        Err(_) => {
            keeper.undo();
            Err(TabError::Memory)
        }
    }
}

/// Whether a world denies a tuple: it has the tuple with minus, or another tuple of its relation and key with plus. A read for
/// each row of the world that has the tuple's relation and key, and three more at most.
pub fn denies<K: Keeper>(
    alloc: Global,
    keeper: &mut K,
    memo: &mut Memo,
    world: u32,
    tuple: &Tuple,
) -> Result<bool, TabError>
    requires run { CanBeRun (K.seen keeper.old).kept }
    requires memo { Recalls (K.seen keeper.old).kept memo.old }
    ensures denies { IfOk result
        (λ denies. denies ≡ rows_deny (sight_of (K.seen keeper.old).kept).keys
        ((sight_of (K.seen keeper.old).kept).rows world tuple.now.rel) tuple.now) }
    ensures reads { OnOk result ((K.seen keeper.new).reads ≤ (K.seen keeper.old).reads + deny_looks
        ((sight_of (K.seen keeper.old).kept).keys tuple.now.rel)
        ((sight_of (K.seen keeper.old).kept).rows world tuple.now.rel) (Some tuple.now)) }
    ensures memo { OnOk result (Recalls (K.seen keeper.old).kept memo.new) }
    ensures looks { OnlyReads (K.seen keeper.old) (K.seen keeper.new) result TabError.Fault }
{
    match denies_of(alloc, keeper, memo, world, tuple.rel, tuple) {
        Ok(denies) => Ok(denies),
        Err(error) => Err(error),
    }
}

// Whether a world denies a tuple of this relation.
fn denies_of<K: Keeper>(
    alloc: Global,
    keeper: &mut K,
    memo: &mut Memo,
    world: u32,
    rel: u32,
    tuple: &Tuple,
) -> Result<bool, TabError>
    requires run { CanBeRun (K.seen keeper.old).kept }
    requires memo { Recalls (K.seen keeper.old).kept memo.old }
    requires relation { tuple.now.rel ≡ rel }
    ensures denies { IfOk result
        (λ denies. denies ≡ rows_deny (sight_of (K.seen keeper.old).kept).keys
        ((sight_of (K.seen keeper.old).kept).rows world rel) tuple.now) }
    ensures reads { OnOk result ((K.seen keeper.new).reads ≤ (K.seen keeper.old).reads + deny_looks
        ((sight_of (K.seen keeper.old).kept).keys rel)
        ((sight_of (K.seen keeper.old).kept).rows world rel) (Some tuple.now)) }
    ensures memo { OnOk result (Recalls (K.seen keeper.old).kept memo.new) }
    ensures looks { OnlyReads (K.seen keeper.old) (K.seen keeper.new) result TabError.Fault }
{
    let n = match read_key_length(alloc, keeper, memo, rel) {
        Ok(n) => n,
        Err(error) => return Err(error),
    };
    match denies_with(alloc, keeper, memo, world, rel, n, tuple) {
        Ok(denies) => Ok(denies),
        Err(error) => Err(error),
    }
}

// The same, where the relation's key has the length `n`. One read less.
fn denies_with<K: Keeper>(
    alloc: Global,
    keeper: &mut K,
    memo: &mut Memo,
    world: u32,
    rel: u32,
    n: u32,
    tuple: &Tuple,
) -> Result<bool, TabError>
    requires run { CanBeRun (K.seen keeper.old).kept }
    requires memo { Recalls (K.seen keeper.old).kept memo.old }
    requires relation { tuple.now.rel ≡ rel }
    requires length { n ≡ (sight_of (K.seen keeper.old).kept).keys rel }
    ensures denies { IfOk result
        (λ denies. denies ≡ rows_deny (sight_of (K.seen keeper.old).kept).keys
        ((sight_of (K.seen keeper.old).kept).rows world rel) tuple.now) }
    ensures reads { OnOk result
        ((K.seen keeper.new).reads
        ≤ (K.seen keeper.old).reads + (length
        (rows_of_key (take n tuple.now.vals) ((sight_of (K.seen keeper.old).kept).rows world rel))
        + 2)) }
    ensures memo { OnOk result (Recalls (K.seen keeper.old).kept memo.new) }
    ensures looks { OnlyReads (K.seen keeper.old) (K.seen keeper.new) result TabError.Fault }
{
    let key = key_of(tuple, n);
    if !are_written(key) {
        return Ok(false);
    }
    let number = match number_of(alloc, keeper, tuple) {
        Ok(number) => number,
        Err(error) => return Err(error),
    };
    let mut prefix = Vec::new(alloc);
    if put_group(&mut prefix, world, rel, key).is_err() {
        keeper.undo();
        return Err(TabError::Memory);
    }
    match numbered_under(alloc, keeper, prefix.as_slice(), &mut memo.room) {
        Ok(entries) => Ok(one_denies(entries.as_slice(), number)),
        Err(error) => Err(error),
    }
}

// Whether one of these rows of a tuple's key denies the tuple of this number.
fn one_denies(entries: &[(u32, (Sign, bool))], number: Option<u32>) -> bool
    ensures { result ≡ list_any (mark_denies number) entries.now }
{
    entries.iter().any(|entry| row_denies(entry, number))
}

// Whether a row of a tuple's key denies the tuple of this number.
fn row_denies(entry: &(u32, (Sign, bool)), number: Option<u32>) -> bool
    ensures { result ≡ mark_denies number entry.now }
{
    let own = match number {
        Some(tid) => tid == entry.0,
        None => false,
    };
    match entry.1.0 {
        Sign::Plus => !own,
        Sign::Minus => own,
    }
}

// The number of a tuple; none where it has none. One read at most.
fn number_of<K: Keeper>(
    alloc: Global,
    keeper: &mut K,
    tuple: &Tuple,
) -> Result<Option<u32>, TabError>
    requires run { CanBeRun (K.seen keeper.old).kept }
    ensures number { IfOk result (IsNumberOf (K.seen keeper.old).kept tuple.now) }
    ensures reads { OnOk result ((K.seen keeper.new).reads ≤ (K.seen keeper.old).reads + 1) }
    ensures looks { OnlyReads (K.seen keeper.old) (K.seen keeper.new) result TabError.Fault }
{
    if !are_written(tuple.vals.as_slice()) {
        return Ok(None);
    }
    match get::<TupleIx, K>(alloc, keeper, tuple) {
        Ok(number) => Ok(number),
        Err(error) => Err(error),
    }
}
