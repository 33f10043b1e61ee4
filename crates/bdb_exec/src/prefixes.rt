// How the keys of rows of worlds begin.
ghost use Rattle.std.specs.Prelude.{◌≡◌, ◌++◌, IfOk, OnOk};
ghost use Rattle.std.specs.List.{list_all};
ghost use Rattle.bdb_key.specs.Bytes.{num_bytes};
ghost use Rattle.bdb_key.specs.Grammar.{AreKeyVals};
ghost use Rattle.bdb_tables.specs.InUse.{HaveKeyTexts};
ghost use Rattle.bdb_tables.specs.GroupMarks.{group_bytes};
ghost use Rattle.bdb_base.specs.Bases.{is_written};
ghost use Rattle.bdb_tables.specs.Prefixes.{HasPutValues};
ghost use Rattle.bdb_exec.specs.Keys.{values_behind};
ghost use Rattle.bdb_exec.specs.Rows.{relation_prefix};

use crate::keys::value_behind;
use crate::shared::Shared;
use bdb_base::{Value, is_written};
use bdb_key::{put_num, put_value};
use bdb_plan::Step;
use bdb_tables::put_key_vals;
use std::alloc::AllocError;

// Most prefixes of keys have at most as many bytes.
const PREFIX_ROOM: usize = 64;

/// How the keys of a world's rows of a relation begin.
pub fn put_relation_prefix(prefix: &mut Vec<u8>, world: u32, rel: u32) -> Result<(), AllocError>
    ensures { OnOk result (prefix.new.items ≡ prefix.old.items ++ relation_prefix world rel) }
{
    prefix.reserve(PREFIX_ROOM)?;
    put_num(prefix, world)?;
    put_num(prefix, rel)?;
    Ok(())
}

/// How the keys of those rows begin whose tuples have a key of the length `n` that begins with the values that the tests right
/// behind a choice ask for. False where one of these is a text that keys may not have.
pub fn put_key_prefix(
    prefix: &mut Vec<u8>,
    world: u32,
    rel: u32,
    n: u32,
    slots: &[Option<Shared>],
    item: u32,
    behind: &[Step],
) -> Result<bool, AllocError>
    ensures { IfOk result
        (λ all. HasPutValues all (prefix.old.items ++ (relation_prefix world rel ++ num_bytes n))
        prefix.new.items (values_behind slots.now item behind.now n 0)) }
{
    prefix.reserve(PREFIX_ROOM)?;
    put_num(prefix, world)?;
    put_num(prefix, rel)?;
    put_num(prefix, n)?;
    let all = put_asked(prefix, n, slots, item, behind)?;
    Ok(all)
}

// The values that the tests right behind a choice ask for, of at most so many columns. False where one of them is a text that
// keys may not have.
fn put_asked(
    prefix: &mut Vec<u8>,
    n: u32,
    slots: &[Option<Shared>],
    item: u32,
    behind: &[Step],
) -> Result<bool, AllocError>
    ensures { IfOk result
        (λ all. HasPutValues all prefix.old.items prefix.new.items
        (values_behind slots.now item behind.now n 0)) }
{
    for col in 0..n {
        let value = match value_behind(slots, item, behind, col) {
            Some(value) => value,
            None => return Ok(true),
        };
        if !is_written(value) {
            return Ok(false);
        }
        put_value(prefix, value)?;
    }
    Ok(true)
}

/// How the keys of those rows begin whose tuples have a key.
pub fn put_group(
    prefix: &mut Vec<u8>,
    world: u32,
    rel: u32,
    key: &[Value],
) -> Result<(), AllocError>
    requires texts { HaveKeyTexts key.now }
    ensures bytes { OnOk result
        (prefix.new.items ≡ prefix.old.items ++ group_bytes world rel key.now) }
    ensures fits { OnOk result (AreKeyVals key.now) }
{
    prefix.reserve(PREFIX_ROOM)?;
    put_num(prefix, world)?;
    put_num(prefix, rel)?;
    put_key_vals(prefix, key)?;
    Ok(())
}

/// Whether the texts of values are those that keys may have.
pub fn are_written(values: &[Value]) -> bool
    ensures { result ≡ list_all is_written values.now }
{
    values.iter().all(|value| is_written(value))
}
