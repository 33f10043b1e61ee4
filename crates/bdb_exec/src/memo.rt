// What an execution has read so far.
ghost use Rattle.std.specs.Prelude.{◌≡◌, Some, IfOk, OnOk};
ghost use Rattle.std.specs.Option.{option_copied};
ghost use Rattle.std.specs.Ordering.{nat_cmp};
ghost use Rattle.std.specs.BTreeMap.{get, Updates};
ghost use Rattle.bdb_keep.specs.Tables.{Tables};
ghost use Rattle.bdb_exec.specs.Memos.{last_pool, pair_cmp, pool_of, Recalls};

use crate::index::Index;
use crate::shared::Shared;
use bdb_base::{Exact, List, Tuple};
use bdb_tables::Room;
use std::alloc::{AllocError, Global};
use std::cmp::Ordering;
use std::collections::BTreeMap;

/// The tuples with plus of the rows of worlds whose keys begin so.
#[derive(Drop)]
pub struct KeyPool {
    pub prefix: List<u8>,
    pub tuples: List<Shared>,
}

/// What an execution has read so far and needn't read or decode again, and room for the bytes of keys and rows.
#[derive(Drop)]
pub struct Memo {
    /// The users by number, once they are read.
    pub users: Option<List<Shared>>,
    /// Tuples by number.
    pub tuples: BTreeMap<u32, Shared>,
    /// The tuples that a world has with plus, by world and relation.
    pub pools: BTreeMap<(u32, u32), List<Shared>>,
    /// The same by the values of columns that tests ask for: by world and relation, and by the columns' bits.
    pub indexes: BTreeMap<((u32, u32), u64), Index>,
    /// The tuples of the prefix of a key that was asked for last, by world and relation.
    pub last_pools: BTreeMap<(u32, u32), KeyPool>,
    /// Where edges lead, by world and user.
    pub edges: BTreeMap<(u32, u32), Option<u32>>,
    /// How long the keys of relations are.
    pub lengths: BTreeMap<u32, u32>,
    /// Room for the calls that read rows of worlds.
    pub room: Room,
}

impl Memo {
    /// Nothing is read yet.
    pub fn new(alloc: Global) -> Self
        ensures { (t : Tables) → Recalls t result }
    {
        Memo {
            users: None,
            tuples: BTreeMap::new(alloc),
            pools: BTreeMap::new(alloc),
            indexes: BTreeMap::new(alloc),
            last_pools: BTreeMap::new(alloc),
            edges: BTreeMap::new(alloc),
            lengths: BTreeMap::new(alloc),
            room: Room::new(alloc),
        }
    }
}

/// The tuples of the rows whose keys begin so, where that was asked for last of a place.
pub fn last_pool<'a>(
    pools: &'a BTreeMap<(u32, u32), KeyPool>,
    place: &(u32, u32),
    prefix: &[u8],
) -> Option<&'a List<Shared>>
    ensures { option_copied result ≡ last_pool (get pair_cmp pools.now place.now) prefix.now }
{
    match pools.get(place) {
        Some(pool) => match pool.prefix.as_slice().cmp(prefix) {
            Ordering::Equal => Some(&pool.tuples),
            Ordering::Less => None,
            Ordering::Greater => None,
        },
        None => None,
    }
}

/// Keeps the tuples of the rows whose keys begin so, at a place, and gives them.
pub fn keep_pool(
    alloc: Global,
    pools: &mut BTreeMap<(u32, u32), KeyPool>,
    place: (u32, u32),
    prefix: Vec<u8>,
    tuples: List<Shared>,
) -> Result<List<Shared>, AllocError>
    ensures pool { IfOk result (λ pool. pool ≡ tuples) }
    ensures kept { OnOk result
        (Updates pair_cmp pools.old pools.new place (Some (pool_of prefix.items tuples))) }
{
    let prefix = List::from_vec(prefix);
    let copy = tuples.try_clone(alloc)?;
    pools.insert(place, KeyPool { prefix, tuples })?;
    Ok(copy)
}

/// Keeps the tuple of a number, and gives it.
pub fn keep_tuple(
    alloc: Global,
    tuples: &mut BTreeMap<u32, Shared>,
    tid: u32,
    tuple: Tuple,
) -> Result<Shared, AllocError>
    ensures shared { IfOk result (λ s. s ≡ tuple) }
    ensures kept { OnOk result (Updates nat_cmp tuples.old tuples.new tid (Some tuple)) }
{
    let shared = Shared::new(alloc, tuple)?;
    let copy = shared.try_clone(alloc)?;
    tuples.insert(tid, shared)?;
    Ok(copy)
}
