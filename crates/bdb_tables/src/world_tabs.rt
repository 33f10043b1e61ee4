// The tables of tuples, worlds and valuations.
ghost use Rattle.std.proofs.Common.{rules};
ghost use Rattle.bdb_tables.specs.InUse.{tuple_codec, tuple_ix_codec, depth_codec, link_codec, linked_codec, edge_codec, led_codec, val_codec};
ghost use Rattle.bdb_tables.specs.InUseLaws.{numbers_in_order, numbers_are_one, pairs_in_order, pairs_are_one, triples_in_order, triples_are_one, tuples_in_order, tuples_are_one, vals_in_order, vals_are_one, number_rows_are_one, tuple_rows_are_one, empty_rows_are_one, mark_rows_are_one};

use crate::keys::{only_pair, only_triple, put_pair, put_triple, put_val_key, val_key_of};
use crate::tab::Tab;
use bdb_base::{List, Sign, Tuple, Value};
use bdb_key::{KeyError, RowError, mark_of, only_num, put_mark, put_num, put_tuple, tuple_of};
use std::alloc::{AllocError, Global};

/// Table 4: the tuples, by number.
pub struct TupleTab;

/// Table 5: the number of each tuple.
pub struct TupleIx;

/// Table 6: the depth of each world.
pub struct DepthTab;

/// Table 7: the world to which each world's suffix link leads.
pub struct SuffixTab;

/// Table 8: the suffix links turned round, by the world to which they lead and the world that has them.
pub struct SuffixIx;

/// Table 9: the world to which the edge of each world for each user leads.
pub struct EdgeTab;

/// Table 10: the edges turned round, by the world to which they lead, the world that has them, and the user.
pub struct EdgeIx;

/// Table 11: the sign of each tuple in each world, true for explicit, by world, relation, key and tuple.
pub struct ValTab;

impl Tab for TupleTab {
    type Key = u32;

    type Row = Tuple;

    const NUMBER: u8 = 4;

    ghost NUMBER = { 4 };

    ghost codec = { tuple_codec };

    fn key_bytes(key: &u32, out: &mut Vec<u8>) -> Result<(), AllocError> {
        put_num(out, *key)
    }

    fn key_back(_alloc: Global, bytes: &[u8]) -> Result<u32, KeyError> {
        match only_num(bytes) {
            Some(number) => Ok(number),
            None => Err(KeyError::NotAKey),
        }
    }

    fn row_bytes(row: &Tuple, out: &mut Vec<u8>) -> Result<(), AllocError> {
        put_tuple(out, row)
    }

    fn row_back(alloc: Global, bytes: &[u8]) -> Result<Tuple, RowError> {
        match tuple_of(alloc, bytes) {
            Ok(tuple) => Ok(tuple),
            Err(KeyError::NotAKey) => Err(RowError::NotARow),
            Err(KeyError::Memory) => Err(RowError::Memory),
        }
    }

    ghost number_ok = { Prim.search rules };

    ghost in_order = { numbers_in_order };

    ghost one_key = { numbers_are_one };

    ghost one_row = { tuple_rows_are_one };

    ghost entry = { λ _ _ h. h };

    ghost entry_back = { λ _ _ h. h };
}

impl Tab for TupleIx {
    type Key = Tuple;

    type Row = u32;

    const NUMBER: u8 = 5;

    ghost NUMBER = { 5 };

    ghost codec = { tuple_ix_codec };

    fn key_bytes(key: &Tuple, out: &mut Vec<u8>) -> Result<(), AllocError> {
        put_tuple(out, key)
    }

    fn key_back(alloc: Global, bytes: &[u8]) -> Result<Tuple, KeyError> {
        tuple_of(alloc, bytes)
    }

    fn row_bytes(row: &u32, out: &mut Vec<u8>) -> Result<(), AllocError> {
        put_num(out, *row)
    }

    fn row_back(_alloc: Global, bytes: &[u8]) -> Result<u32, RowError> {
        match only_num(bytes) {
            Some(number) => Ok(number),
            None => Err(RowError::NotARow),
        }
    }

    ghost number_ok = { Prim.search rules };

    ghost in_order = { tuples_in_order };

    ghost one_key = { tuples_are_one };

    ghost one_row = { number_rows_are_one };

    ghost entry = { λ _ _ h. h };

    ghost entry_back = { λ _ _ h. h };
}

impl Tab for DepthTab {
    type Key = u32;

    type Row = u32;

    const NUMBER: u8 = 6;

    ghost NUMBER = { 6 };

    ghost codec = { depth_codec };

    fn key_bytes(key: &u32, out: &mut Vec<u8>) -> Result<(), AllocError> {
        put_num(out, *key)
    }

    fn key_back(_alloc: Global, bytes: &[u8]) -> Result<u32, KeyError> {
        match only_num(bytes) {
            Some(number) => Ok(number),
            None => Err(KeyError::NotAKey),
        }
    }

    fn row_bytes(row: &u32, out: &mut Vec<u8>) -> Result<(), AllocError> {
        put_num(out, *row)
    }

    fn row_back(_alloc: Global, bytes: &[u8]) -> Result<u32, RowError> {
        match only_num(bytes) {
            Some(number) => Ok(number),
            None => Err(RowError::NotARow),
        }
    }

    ghost number_ok = { Prim.search rules };

    ghost in_order = { numbers_in_order };

    ghost one_key = { numbers_are_one };

    ghost one_row = { number_rows_are_one };

    ghost entry = { λ _ _ h. h };

    ghost entry_back = { λ _ _ h. h };
}

impl Tab for SuffixTab {
    type Key = u32;

    type Row = u32;

    const NUMBER: u8 = 7;

    ghost NUMBER = { 7 };

    ghost codec = { link_codec };

    fn key_bytes(key: &u32, out: &mut Vec<u8>) -> Result<(), AllocError> {
        put_num(out, *key)
    }

    fn key_back(_alloc: Global, bytes: &[u8]) -> Result<u32, KeyError> {
        match only_num(bytes) {
            Some(number) => Ok(number),
            None => Err(KeyError::NotAKey),
        }
    }

    fn row_bytes(row: &u32, out: &mut Vec<u8>) -> Result<(), AllocError> {
        put_num(out, *row)
    }

    fn row_back(_alloc: Global, bytes: &[u8]) -> Result<u32, RowError> {
        match only_num(bytes) {
            Some(number) => Ok(number),
            None => Err(RowError::NotARow),
        }
    }

    ghost number_ok = { Prim.search rules };

    ghost in_order = { numbers_in_order };

    ghost one_key = { numbers_are_one };

    ghost one_row = { number_rows_are_one };

    ghost entry = { λ _ _ h. h };

    ghost entry_back = { λ _ _ h. h };
}

impl Tab for SuffixIx {
    type Key = (u32, u32);

    type Row = ();

    const NUMBER: u8 = 8;

    ghost NUMBER = { 8 };

    ghost codec = { linked_codec };

    fn key_bytes(key: &(u32, u32), out: &mut Vec<u8>) -> Result<(), AllocError> {
        put_pair(out, key.0, key.1)
    }

    fn key_back(_alloc: Global, bytes: &[u8]) -> Result<(u32, u32), KeyError> {
        match only_pair(bytes) {
            Some(pair) => Ok(pair),
            None => Err(KeyError::NotAKey),
        }
    }

    fn row_bytes(_row: &(), _out: &mut Vec<u8>) -> Result<(), AllocError> {
        Ok(())
    }

    fn row_back(_alloc: Global, bytes: &[u8]) -> Result<(), RowError> {
        if bytes.is_empty() {
            Ok(())
        } else {
            Err(RowError::NotARow)
        }
    }

    ghost number_ok = { Prim.search rules };

    ghost in_order = { pairs_in_order };

    ghost one_key = { pairs_are_one };

    ghost one_row = { empty_rows_are_one };

    ghost entry = { λ _ _ h. h };

    ghost entry_back = { λ _ _ h. h };
}

impl Tab for EdgeTab {
    type Key = (u32, u32);

    type Row = u32;

    const NUMBER: u8 = 9;

    ghost NUMBER = { 9 };

    ghost codec = { edge_codec };

    fn key_bytes(key: &(u32, u32), out: &mut Vec<u8>) -> Result<(), AllocError> {
        put_pair(out, key.0, key.1)
    }

    fn key_back(_alloc: Global, bytes: &[u8]) -> Result<(u32, u32), KeyError> {
        match only_pair(bytes) {
            Some(pair) => Ok(pair),
            None => Err(KeyError::NotAKey),
        }
    }

    fn row_bytes(row: &u32, out: &mut Vec<u8>) -> Result<(), AllocError> {
        put_num(out, *row)
    }

    fn row_back(_alloc: Global, bytes: &[u8]) -> Result<u32, RowError> {
        match only_num(bytes) {
            Some(number) => Ok(number),
            None => Err(RowError::NotARow),
        }
    }

    ghost number_ok = { Prim.search rules };

    ghost in_order = { pairs_in_order };

    ghost one_key = { pairs_are_one };

    ghost one_row = { number_rows_are_one };

    ghost entry = { λ _ _ h. h };

    ghost entry_back = { λ _ _ h. h };
}

impl Tab for EdgeIx {
    type Key = (u32, u32, u32);

    type Row = ();

    const NUMBER: u8 = 10;

    ghost NUMBER = { 10 };

    ghost codec = { led_codec };

    fn key_bytes(key: &(u32, u32, u32), out: &mut Vec<u8>) -> Result<(), AllocError> {
        put_triple(out, key)
    }

    fn key_back(_alloc: Global, bytes: &[u8]) -> Result<(u32, u32, u32), KeyError> {
        match only_triple(bytes) {
            Some(triple) => Ok(triple),
            None => Err(KeyError::NotAKey),
        }
    }

    fn row_bytes(_row: &(), _out: &mut Vec<u8>) -> Result<(), AllocError> {
        Ok(())
    }

    fn row_back(_alloc: Global, bytes: &[u8]) -> Result<(), RowError> {
        if bytes.is_empty() {
            Ok(())
        } else {
            Err(RowError::NotARow)
        }
    }

    ghost number_ok = { Prim.search rules };

    ghost in_order = { triples_in_order };

    ghost one_key = { triples_are_one };

    ghost one_row = { empty_rows_are_one };

    ghost entry = { λ _ _ h. h };

    ghost entry_back = { λ _ _ h. h };
}

impl Tab for ValTab {
    type Key = (u32, u32, List<Value>, u32);

    type Row = (Sign, bool);

    const NUMBER: u8 = 11;

    ghost NUMBER = { 11 };

    ghost codec = { val_codec };

    fn key_bytes(key: &(u32, u32, List<Value>, u32), out: &mut Vec<u8>) -> Result<(), AllocError> {
        put_val_key(out, key.0, key.1, key.2.as_slice(), key.3)
    }

    fn key_back(alloc: Global, bytes: &[u8]) -> Result<(u32, u32, List<Value>, u32), KeyError> {
        val_key_of(alloc, bytes)
    }

    fn row_bytes(row: &(Sign, bool), out: &mut Vec<u8>) -> Result<(), AllocError> {
        put_mark(out, row.0, row.1)
    }

    fn row_back(_alloc: Global, bytes: &[u8]) -> Result<(Sign, bool), RowError> {
        match mark_of(bytes) {
            Some(mark) => Ok(mark),
            None => Err(RowError::NotARow),
        }
    }

    ghost number_ok = { Prim.search rules };

    ghost in_order = { vals_in_order };

    ghost one_key = { vals_are_one };

    ghost one_row = { mark_rows_are_one };

    ghost entry = { λ _ _ h. h };

    ghost entry_back = { λ _ _ h. h };
}
