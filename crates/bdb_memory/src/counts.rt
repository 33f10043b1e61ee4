// Counts at numbers.
ghost use Rattle.std.specs.Prelude.{◌≡◌, ◌<◌, true, OnOk, length, slice_index_or, Some};
ghost use Rattle.bdb_memory.specs.Tallies.{HasRisen, HasFallen, AreAlike, tally_bound};

use std::alloc::AllocError;

/// Counts are kept at the numbers below this one.
pub const BOUND: usize = 1_048_576;

/// How many are counted at a number.
pub fn count_at(counts: &[u32], number: usize) -> usize
    ensures { result ≡ slice_index_or counts.now number 0 }
{
    if number >= counts.len() {
        return 0;
    }
    counts[number] as usize
}

/// Counts one more at a number that was found, if it is below the bound. The answer is false where that can't be counted.
pub fn raise_at(counts: &mut Vec<u32>, found: Option<u32>) -> bool
    ensures { result ≡ true → HasRisen found counts.old.items counts.new.items }
{
    match found {
        None => true,
        Some(number) => raise_below_bound(counts, number as usize),
    }
}

/// The same at a number.
fn raise_below_bound(counts: &mut Vec<u32>, number: usize) -> bool
    ensures { result ≡ true → HasRisen (Some number) counts.old.items counts.new.items }
{
    if number >= BOUND {
        return true;
    }
    match make_room(counts, number) {
        Ok(()) => raise(counts, number),
        Err(_) => false,
    }
}

/// The same at a number for which there is room.
fn raise(counts: &mut Vec<u32>, number: usize) -> bool
    requires { number < length counts.old.items }
    ensures { result ≡ true → HasRisen (Some number) counts.old.items counts.new.items }
{
    match counts[number].checked_add(1) {
        Some(count) => {
            counts[number] = count;
            true
        }
        None => false,
    }
}

/// Makes room for the count at a number.
fn make_room(counts: &mut Vec<u32>, number: usize) -> Result<(), AllocError>
    requires { number < tally_bound }
    ensures room { OnOk result (number < length counts.new.items) }
    ensures same { OnOk result (AreAlike counts.old.items counts.new.items) }
{
    if number < counts.len() {
        return Ok(());
    }
    counts.resize(number + 1, 0)?;
    Ok(())
}

/// Counts one less at a number that was found, if it is below the bound. The answer is false where that can't be counted.
pub fn lower_at(counts: &mut Vec<u32>, found: Option<u32>) -> bool
    ensures { result ≡ true → HasFallen found counts.old.items counts.new.items }
{
    match found {
        None => true,
        Some(number) => lower_below_bound(counts, number as usize),
    }
}

/// The same at a number.
fn lower_below_bound(counts: &mut Vec<u32>, number: usize) -> bool
    ensures { result ≡ true → HasFallen (Some number) counts.old.items counts.new.items }
{
    if number >= BOUND {
        return true;
    }
    if number >= counts.len() {
        return false;
    }
    lower(counts, number)
}

/// The same at a number for which there is room.
fn lower(counts: &mut Vec<u32>, number: usize) -> bool
    requires { number < length counts.old.items }
    ensures { result ≡ true → HasFallen (Some number) counts.old.items counts.new.items }
{
    match counts[number].checked_sub(1) {
        Some(count) => {
            counts[number] = count;
            true
        }
        None => false,
    }
}
