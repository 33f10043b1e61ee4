// How long keys are, and keys of rows by their bytes.
ghost use Rattle.std.specs.Prelude.{◌≡◌, IfOk, OnOk};
ghost use Rattle.bdb_base.specs.Bases.{key_lengths};
ghost use Rattle.bdb_base.specs.Clash.{clash, same_key};
ghost use Rattle.bdb_keep.specs.Calls.{IsRead};
ghost use Rattle.bdb_tables.specs.Grammar.{InGrammar};
ghost use Rattle.bdb_tables.specs.InUse.{HaveKeyTexts, IsValKey, val_bytes};
ghost use Rattle.bdb_tables.specs.Lengths.{IsKeyLength};
ghost use Rattle.bdb_tables.specs.Reading.{OnlyReads};
ghost use Rattle.bdb_update.specs.Keys.{AreRelations};

use bdb_base::{List, RelDef, Sign, Tuple, Value, clash, key_length, same_key};
use bdb_keep::Keeper;
use bdb_tables::{RelTab, TabError, get, put_val_key, stored_key_length};
use std::alloc::{AllocError, Global};

/// Room for the bytes of a key, unless it has long texts.
pub const KEY_ROOM: usize = 64;

/// The length of the key of a tuple's relation, where tables have its row. One read.
pub fn read_key_length<K: Keeper>(
    alloc: Global,
    keeper: &mut K,
    tuple: &Tuple,
) -> Result<u32, TabError>
    requires grammar { InGrammar (K.seen keeper.old).kept }
    ensures length { IfOk result (IsKeyLength (K.seen keeper.old).kept tuple.now.rel) }
    ensures read { IsRead (K.seen keeper.old) (K.seen keeper.new) result TabError.Fault }
{
    match stored_key_length(alloc, keeper, tuple.rel) {
        Ok(n) => Ok(n),
        Err(error) => Err(error),
    }
}

/// The relations that tables have, by number from 0. A read for each, and one more.
pub fn stored_relations<K: Keeper>(alloc: Global, keeper: &mut K) -> Result<List<RelDef>, TabError>
    requires grammar { InGrammar (K.seen keeper.old).kept }
    ensures relations { IfOk result (AreRelations (K.seen keeper.old).kept) }
    ensures looks { OnlyReads (K.seen keeper.old) (K.seen keeper.new) result TabError.Fault }
{
    let mut rels = List::new(alloc);
    for rel in 0..u32::MAX {
        match get::<RelTab, K>(alloc, keeper, &rel) {
            Ok(Some(def)) => {
                if rels.push(def).is_err() {
                    keeper.undo();
                    return Err(TabError::Memory);
                }
            }
            Ok(None) => return Ok(rels),
            Err(error) => return Err(error),
        }
    }
    keeper.undo();
    Err(TabError::Memory)
}

/// Whether two signed tuples clash, where these are the relations.
pub fn clash_in(rels: &[RelDef], a: &Tuple, s: Sign, b: &Tuple, t: Sign) -> bool
    ensures { result ≡ clash (key_lengths rels.now) a.now s b.now t }
{
    clash(length_in(rels, a), a, s, b, t)
}

/// Whether two tuples are of one relation and have the same key, where these are the relations.
pub fn same_key_in(rels: &[RelDef], a: &Tuple, b: &Tuple) -> bool
    ensures { result ≡ same_key (key_lengths rels.now) a.now b.now }
{
    same_key(length_in(rels, a), a, b)
}

// The length of the key of a tuple's relation, where these are the relations.
fn length_in(rels: &[RelDef], tuple: &Tuple) -> u32
    ensures { result ≡ key_lengths rels.now tuple.now.rel }
{
    key_length(rels, tuple.rel)
}

/// The bytes of the key of a world's row, by the world, the relation and key of a group, and the number of a tuple.
pub fn row_key(
    alloc: Global,
    wid: u32,
    rel: u32,
    key: &[Value],
    tid: u32,
) -> Result<Vec<u8>, AllocError>
    requires { HaveKeyTexts key.now }
    ensures bytes { IfOk result (λ bytes. bytes.items ≡ val_bytes (wid, rel, key.now, tid)) }
    ensures fits { OnOk result (IsValKey (wid, rel, key.now, tid)) }
{
    let mut bytes = Vec::with_capacity(alloc, KEY_ROOM)?;
    put_val_key(&mut bytes, wid, rel, key, tid)?;
    Ok(bytes)
}
