// The numbers of tuples.
ghost use Rattle.std.specs.Prelude.{◌≡◌, IfOk, OnOk};
ghost use Rattle.bdb_key.specs.Bytes.{num_bytes};
ghost use Rattle.bdb_key.specs.Grammar.{IsNum};
ghost use Rattle.bdb_key.specs.Reading.{Reads};
ghost use Rattle.bdb_key.specs.Rows.{IsTupleRow, MayBeTuple};
ghost use Rattle.bdb_keep.specs.Calls.{IsRead};
ghost use Rattle.bdb_tables.specs.Codec.{HasAt, IsRowOf};
ghost use Rattle.bdb_tables.specs.Grammar.{InGrammar};
ghost use Rattle.bdb_tables.specs.InUse.{tuple_ix_codec};

use crate::keys::KEY_ROOM;
use bdb_base::Tuple;
use bdb_keep::Keeper;
use bdb_key::only_num;
use bdb_tables::{Tab, TabError, TupleIx, table_error};
use std::alloc::{AllocError, Global};

/// The number of a tuple, if it has one. Its bytes tell that its numbers and integers are of the sizes of their types. One
/// read.
pub fn number_of<K: Keeper>(
    alloc: Global,
    keeper: &mut K,
    tuple: &Tuple,
) -> Result<Option<u32>, TabError>
    requires grammar { InGrammar (K.seen keeper.old).kept }
    requires tuple { MayBeTuple tuple.now }
    ensures found { IfOk result (HasAt tuple_ix_codec (K.seen keeper.old).kept tuple.now) }
    ensures fits { OnOk result (IsTupleRow tuple.now) }
    ensures read { IsRead (K.seen keeper.old) (K.seen keeper.new) result TabError.Fault }
{
    let key = match tuple_key(alloc, tuple) {
        Ok(key) => key,
        Err(_) => {
            keeper.undo();
            return Err(TabError::Memory);
        }
    };
    let mut row = Vec::new(alloc);
    match keeper.get(TupleIx::NUMBER, &key, &mut row) {
        Ok(true) => Ok(Some(number_in(&row))),
        Ok(false) => Ok(None),
        Err(error) => Err(table_error(error)),
    }
}

// The bytes of a tuple.
fn tuple_key(alloc: Global, tuple: &Tuple) -> Result<Vec<u8>, AllocError>
    requires { MayBeTuple tuple.now }
    ensures key { IfOk result (λ key. key.items ≡ tuple_ix_codec.key_bytes tuple.now) }
    ensures fits { OnOk result (IsTupleRow tuple.now) }
{
    let mut key = Vec::with_capacity(alloc, KEY_ROOM)?;
    TupleIx::key_bytes(tuple, &mut key)?;
    Ok(key)
}

// The number that a row is.
fn number_in(row: &[u8]) -> u32
    requires { IsRowOf tuple_ix_codec row.now }
    ensures { Reads IsNum num_bytes row.now result }
{
    match only_num(row) {
        Some(number) => number,
        None => unreachable!(),
    }
}
