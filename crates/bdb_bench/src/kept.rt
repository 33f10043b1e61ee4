// The keeper in memory.
ghost use Rattle.std.specs.Prelude.{◌≡◌, true, false};
ghost use Rattle.bdb_base.specs.Causes.{HasCause};
ghost use Rattle.bdb_keep.specs.Seen.{Steps};

use crate::{key_of, micros, ordered_key};
use bdb_keep::{KeepError, Keeper};
use bdb_memory::QuietKeeper;
use std::alloc::Global;
use std::io;
use std::time::Instant;

/// Puts so many rows in the order of their keys in one transaction, gets each, goes over all of them by `next`, and takes them
/// away in another transaction.
pub fn measure(rt: &HostRuntime, count: u32) -> io::Result<()> {
    let alloc = rt.alloc();
    let mut keeper = QuietKeeper::new(alloc);
    let start = Instant::now(rt)?;
    let is_put = put_all(&mut keeper, count).is_ok();
    let put = micros(rt, &start)?;
    let start = Instant::now(rt)?;
    let is_got = get_rows(alloc, &mut keeper, count).is_ok();
    let get = micros(rt, &start)?;
    let start = Instant::now(rt)?;
    let found = next_rows(alloc, &mut keeper, count).unwrap_or(0);
    let next = micros(rt, &start)?;
    // Nothing runs here: reading began no transaction.
    keeper.undo();
    let start = Instant::now(rt)?;
    let is_taken = take_all(&mut keeper, count).is_ok();
    let take = micros(rt, &start)?;
    let done = is_put && is_got && is_taken;
    println!(rt;
        "count {count} done {done} found {found} put {put} get {get} next {next} take {take}"
    )
}

/// Puts rows in order in a transaction of their own.
fn put_all(keeper: &mut QuietKeeper, count: u32) -> Result<(), KeepError>
    requires { keeper.old.running ≡ false }
    ensures { keeper.new.running ≡ false }
{
    keeper.begin()?;
    put_ordered(keeper, count)?;
    keeper.commit()?;
    Ok(())
}

/// Takes the rows away in order in a transaction of their own.
fn take_all(keeper: &mut QuietKeeper, count: u32) -> Result<(), KeepError>
    requires { keeper.old.running ≡ false }
    ensures { keeper.new.running ≡ false }
{
    keeper.begin()?;
    take_rows(keeper, count)?;
    keeper.commit()?;
    Ok(())
}

/// Puts rows in the order of their keys while a transaction runs.
fn put_ordered<K: Keeper>(keeper: &mut K, count: u32) -> Result<(), KeepError>
    requires { (K.seen keeper.old).running ≡ true }
    ensures { Steps (K.seen keeper.old) (K.seen keeper.new) result KeepError.Fault }
{
    for number in 0..count {
        keeper.put(11, &ordered_key(number), &number.to_be_bytes())?;
    }
    Ok(())
}

/// Takes the rows away in the order of their keys while a transaction runs.
fn take_rows<K: Keeper>(keeper: &mut K, count: u32) -> Result<(), KeepError>
    requires { (K.seen keeper.old).running ≡ true }
    ensures { Steps (K.seen keeper.old) (K.seen keeper.new) result KeepError.Fault }
{
    for number in 0..count {
        keeper.remove(11, &ordered_key(number))?;
    }
    Ok(())
}

/// Puts rows while a transaction runs; in each round with another content.
pub fn put_rows<K: Keeper>(keeper: &mut K, count: u32, round: u32) -> Result<(), KeepError>
    requires { (K.seen keeper.old).running ≡ true }
    ensures { Steps (K.seen keeper.old) (K.seen keeper.new) result KeepError.Fault }
{
    for number in 0..count {
        keeper.put(1, &key_of(number), &round.to_be_bytes())?;
    }
    Ok(())
}

/// Gets each row.
fn get_rows<K: Keeper>(alloc: Global, keeper: &mut K, count: u32) -> Result<(), KeepError>
    ensures { HasCause (K.seen keeper.old).faults
        (K.seen keeper.new).faults result KeepError.Fault }
{
    let mut row = Vec::new(alloc);
    for number in 0..count {
        keeper.get(11, &ordered_key(number), &mut row)?;
    }
    Ok(())
}

/// Goes over the rows in order, and counts them.
fn next_rows<K: Keeper>(alloc: Global, keeper: &mut K, count: u32) -> Result<u32, KeepError>
    ensures { HasCause (K.seen keeper.old).faults
        (K.seen keeper.new).faults result KeepError.Fault }
{
    let mut low = Vec::new(alloc);
    let mut key = Vec::new(alloc);
    let mut row = Vec::new(alloc);
    for found in 0..count {
        if !keeper.next(11, &low, &mut key, &mut row)? {
            return Ok(found);
        }
        low.clear();
        if low.extend_from_slice(&key).is_err() || low.push(0).is_err() {
            return Err(KeepError::Memory);
        }
    }
    Ok(count)
}
