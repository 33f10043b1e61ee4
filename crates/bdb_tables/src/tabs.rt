// The tables in use.
ghost use Rattle.std.specs.Prelude.{refl};
ghost use Rattle.std.proofs.Common.{rules};
ghost use Rattle.bdb_tables.specs.InUse.{meta_codec, user_codec, rel_codec, plain_codec};
ghost use Rattle.bdb_tables.specs.InUseLaws.{numbers_in_order, numbers_are_one, plains_in_order, plains_are_one, only_key_is_one, number_rows_are_one, slot_rows_are_one, rel_rows_are_one, sign_rows_are_one};

use crate::tab::Tab;
use bdb_base::{Path, RelDef, Sign, Tuple, UserSlot};
use bdb_key::{
    KeyError, RowError, num_of, only_num, path_of, put_num, put_path, put_rel, put_sign, put_tuple,
    put_user, rel_of, sign_of, tuple_of, user_of,
};
use std::alloc::{AllocError, Global};

/// How many tables a keeper has.
pub const TABLES: u8 = 15;

/// The number of this format.
pub const FORMAT: u32 = 3;

/// Table 1: the format, in one row.
pub struct MetaTab;

/// Table 2: the places of the users, by number: a live user's name, or one who is gone.
pub struct UserTab;

/// Table 3: the relations, by number.
pub struct RelTab;

/// Table 12: the statements, each sign by path and tuple.
pub struct PlainTab;

impl Tab for MetaTab {
    type Key = ();

    type Row = u32;

    const NUMBER: u8 = 1;

    ghost NUMBER = { 1 };

    ghost codec = { meta_codec };

    fn key_bytes(_key: &(), out: &mut Vec<u8>) -> Result<(), AllocError> {
        put_num(out, 0)
    }

    fn key_back(_alloc: Global, bytes: &[u8]) -> Result<(), KeyError> {
        match only_num(bytes) {
            Some(0) => Ok(()),
            Some(_) => Err(KeyError::NotAKey),
            None => Err(KeyError::NotAKey),
        }
    }

    fn row_bytes(row: &u32, out: &mut Vec<u8>) -> Result<(), AllocError> {
        put_num(out, *row)
    }

    fn row_back(_alloc: Global, bytes: &[u8]) -> Result<u32, RowError> {
        match only_num(bytes) {
            Some(format) => Ok(format),
            None => Err(RowError::NotARow),
        }
    }

    ghost number_ok = { Prim.search rules };

    ghost in_order = { λ _ _ _ _. refl };

    ghost one_key = { only_key_is_one };

    ghost one_row = { number_rows_are_one };

    ghost entry = { λ _ _ h. h };

    ghost entry_back = { λ _ _ h. h };
}

impl Tab for UserTab {
    type Key = u32;

    type Row = UserSlot;

    const NUMBER: u8 = 2;

    ghost NUMBER = { 2 };

    ghost codec = { user_codec };

    fn key_bytes(key: &u32, out: &mut Vec<u8>) -> Result<(), AllocError> {
        put_num(out, *key)
    }

    fn key_back(_alloc: Global, bytes: &[u8]) -> Result<u32, KeyError> {
        match only_num(bytes) {
            Some(uid) => Ok(uid),
            None => Err(KeyError::NotAKey),
        }
    }

    fn row_bytes(row: &UserSlot, out: &mut Vec<u8>) -> Result<(), AllocError> {
        put_user(out, row)
    }

    fn row_back(alloc: Global, bytes: &[u8]) -> Result<UserSlot, RowError> {
        match user_of(alloc, bytes) {
            Ok(slot) => Ok(slot),
            Err(KeyError::NotAKey) => Err(RowError::NotARow),
            Err(KeyError::Memory) => Err(RowError::Memory),
        }
    }

    ghost number_ok = { Prim.search rules };

    ghost in_order = { numbers_in_order };

    ghost one_key = { numbers_are_one };

    ghost one_row = { slot_rows_are_one };

    ghost entry = { λ _ _ h. h };

    ghost entry_back = { λ _ _ h. h };
}

impl Tab for RelTab {
    type Key = u32;

    type Row = RelDef;

    const NUMBER: u8 = 3;

    ghost NUMBER = { 3 };

    ghost codec = { rel_codec };

    fn key_bytes(key: &u32, out: &mut Vec<u8>) -> Result<(), AllocError> {
        put_num(out, *key)
    }

    fn key_back(_alloc: Global, bytes: &[u8]) -> Result<u32, KeyError> {
        match only_num(bytes) {
            Some(rel) => Ok(rel),
            None => Err(KeyError::NotAKey),
        }
    }

    fn row_bytes(row: &RelDef, out: &mut Vec<u8>) -> Result<(), AllocError> {
        put_rel(out, row)
    }

    fn row_back(alloc: Global, bytes: &[u8]) -> Result<RelDef, RowError> {
        match rel_of(alloc, bytes) {
            Ok(def) => Ok(def),
            Err(KeyError::NotAKey) => Err(RowError::NotARow),
            Err(KeyError::Memory) => Err(RowError::Memory),
        }
    }

    ghost number_ok = { Prim.search rules };

    ghost in_order = { numbers_in_order };

    ghost one_key = { numbers_are_one };

    ghost one_row = { rel_rows_are_one };

    ghost entry = { λ _ _ h. h };

    ghost entry_back = { λ _ _ h. h };
}

impl Tab for PlainTab {
    type Key = (Path, Tuple);

    type Row = Sign;

    const NUMBER: u8 = 12;

    ghost NUMBER = { 12 };

    ghost codec = { plain_codec };

    fn key_bytes(key: &(Path, Tuple), out: &mut Vec<u8>) -> Result<(), AllocError> {
        let before = out.len();
        put_path(out, &key.0)?;
        match put_tuple(out, &key.1) {
            Ok(()) => Ok(()),
            Err(error) => {
                out.truncate(before);
                Err(error)
            }
        }
    }

    fn key_back(alloc: Global, bytes: &[u8]) -> Result<(Path, Tuple), KeyError> {
        let (path, rest) = path_of(alloc, bytes)?;
        let tuple = tuple_of(alloc, rest)?;
        Ok((path, tuple))
    }

    fn row_bytes(row: &Sign, out: &mut Vec<u8>) -> Result<(), AllocError> {
        put_sign(out, *row)
    }

    fn row_back(_alloc: Global, bytes: &[u8]) -> Result<Sign, RowError> {
        match sign_of(bytes) {
            Some(sign) => Ok(sign),
            None => Err(RowError::NotARow),
        }
    }

    ghost number_ok = { Prim.search rules };

    ghost in_order = { plains_in_order };

    ghost one_key = { plains_are_one };

    ghost one_row = { sign_rows_are_one };

    ghost entry = { λ _ _ h. h };

    ghost entry_back = { λ _ _ h. h };
}
