// Bytes back into keys.
ghost use Rattle.std.specs.Prelude.{◌≡◌, [], ◌∷◌, IfOk, MatchOption};
ghost use Rattle.std.specs.Bool.{MatchBool};
ghost use Rattle.std.specs.Result.{IsErrOf};
ghost use Rattle.std.specs.List.{AllByRecursion};
ghost use Rattle.bdb_key.specs.Bytes.{part_bytes, key_bytes};
ghost use Rattle.bdb_key.specs.Grammar.{FitsSlot, IsOne, IsKey};
ghost use Rattle.bdb_key.specs.Reading.{Leads, NoneLeads, Reads, NoneReads};

use crate::part::{KeyError, Part, Slot};
use crate::read::{num_of, path_of, vals_of, value_of};
use bdb_base::List;
use std::alloc::Global;

/// The parts of the key of a shape that these bytes are. `NotAKey` comes exactly where they are no key of that shape.
pub fn take_key(alloc: Global, bytes: &[u8], shape: &[Slot]) -> Result<List<Part>, KeyError>
    ensures ok { IfOk result (Reads (IsKey shape.now) key_bytes bytes.now) }
    ensures none { IsErrOf result KeyError.NotAKey
        → NoneReads (IsKey shape.now) key_bytes bytes.now }
{
    let parts = key_parts(alloc, bytes, shape)?;
    Ok(List::from_vec(parts))
}

// As `take_key`, as a vector.
fn key_parts(alloc: Global, bytes: &[u8], shape: &[Slot]) -> Result<Vec<Part>, KeyError>
    ensures ok { IfOk result (λ parts. Reads (IsKey shape.now) key_bytes bytes.now parts.items) }
    ensures none { IsErrOf result KeyError.NotAKey
        → NoneReads (IsKey shape.now) key_bytes bytes.now }
{
    let Some((slot, more)) = first_slot(shape) else {
        return no_parts(alloc, bytes);
    };
    if !takes_one(slot) {
        return rest_parts(alloc, bytes);
    }
    let (part, rest) = part_of(alloc, slot, bytes)?;
    match key_parts(alloc, rest, more) {
        Ok(mut parts) => {
            parts.insert(0, part)?;
            Ok(parts)
        }
        Err(error) => Err(error),
    }
}

// The first slot, and those after it.
fn first_slot(shape: &[Slot]) -> Option<(Slot, &[Slot])>
    ensures { MatchOption result (shape.now ≡ []) (λ x. shape.now ≡ x.0 ∷ x.1.now) }
{
    match shape {
        [] => None,
        [slot, more @ ..] => Some((*slot, more)),
    }
}

// Whether a slot takes one part, and not the rest.
fn takes_one(slot: Slot) -> bool
    ensures { MatchBool result (IsOne slot) (slot ≡ Slot.Rest) }
{
    match slot {
        Slot::Rest => false,
        Slot::Num => true,
        Slot::Val => true,
        Slot::Vals => true,
        Slot::Path => true,
    }
}

// No parts, where no bytes are left.
fn no_parts(alloc: Global, bytes: &[u8]) -> Result<Vec<Part>, KeyError>
    ensures ok { IfOk result (λ parts. Reads (IsKey []) key_bytes bytes.now parts.items) }
    ensures none { IsErrOf result KeyError.NotAKey → NoneReads (IsKey []) key_bytes bytes.now }
{
    if !bytes.is_empty() {
        return Err(KeyError::NotAKey);
    }
    Ok(Vec::new(alloc))
}

// The values that these bytes are, as parts.
fn rest_parts(alloc: Global, bytes: &[u8]) -> Result<Vec<Part>, KeyError>
    ensures ok { IfOk result
        (λ parts. Reads (AllByRecursion (FitsSlot Slot.Rest)) key_bytes bytes.now parts.items) }
    ensures none { IsErrOf result KeyError.NotAKey → NoneReads (AllByRecursion (FitsSlot Slot.Rest))
        key_bytes bytes.now }
{
    let mut parts = Vec::new(alloc);
    let mut rest = bytes;
    while !rest.is_empty() {
        let (part, more) = part_of(alloc, Slot::Rest, rest)?;
        parts.push(part)?;
        rest = more;
    }
    Ok(parts)
}

// The part at the front of these bytes, and the bytes after it.
fn part_of(alloc: Global, slot: Slot, bytes: &[u8]) -> Result<(Part, &[u8]), KeyError>
    ensures ok { IfOk result (λ x. Leads (FitsSlot slot) part_bytes bytes.now x.0 x.1.now) }
    ensures none { IsErrOf result KeyError.NotAKey
        → NoneLeads (FitsSlot slot) part_bytes bytes.now }
{
    match slot {
        Slot::Num => match num_of(bytes) {
            Some((n, rest)) => Ok((Part::Num(n), rest)),
            None => Err(KeyError::NotAKey),
        },
        Slot::Val | Slot::Rest => {
            let (value, rest) = value_of(alloc, bytes)?;
            Ok((Part::Val(value), rest))
        }
        Slot::Vals => {
            let (values, rest) = vals_of(alloc, bytes)?;
            Ok((Part::Vals(values), rest))
        }
        Slot::Path => {
            let (path, rest) = path_of(alloc, bytes)?;
            Ok((Part::Path(path), rest))
        }
    }
}
