// Keys of several parts, as bytes and back.
ghost use Rattle.std.specs.Prelude.{◌≡◌, ◌++◌, IfOk, OnOk, OnErr, MatchOption};
ghost use Rattle.std.specs.Result.{IsErrOf};
ghost use Rattle.bdb_key.specs.Bytes.{Grows, num_bytes, vals_bytes};
ghost use Rattle.bdb_key.specs.Grammar.{AreKeyVals};
ghost use Rattle.bdb_key.specs.Reading.{Leads, NoneLeads, Reads, NoneReads};
ghost use Rattle.bdb_tables.specs.InUse.{HaveKeyTexts, IsPair, IsTriple, IsValKey, pair_bytes, triple_bytes, val_bytes};

use bdb_base::{List, Value};
use bdb_key::{KeyError, num_of, only_num, put_num, put_vals, vals_of};
use std::alloc::{AllocError, Global};

/// Appends two numbers, as the front of a key. After a refusal the bytes are unchanged.
pub fn put_pair(out: &mut Vec<u8>, first: u32, second: u32) -> Result<(), AllocError>
    ensures ok { OnOk result
        (out.new.items ≡ out.old.items ++ (num_bytes first ++ num_bytes second)) }
    ensures err { OnErr result (out.new.items ≡ out.old.items) }
{
    let a = first.to_be_bytes();
    let b = second.to_be_bytes();
    out.extend_from_slice(&[a[0], a[1], a[2], a[3], b[0], b[1], b[2], b[3]])
}

/// Appends three numbers. After a refusal the bytes are unchanged.
pub fn put_triple(out: &mut Vec<u8>, key: &(u32, u32, u32)) -> Result<(), AllocError>
    ensures ok { OnOk result (out.new.items ≡ out.old.items ++ triple_bytes key.now) }
    ensures fits { OnOk result (IsTriple key.now) }
    ensures err { OnErr result (out.new.items ≡ out.old.items) }
{
    let a = key.0.to_be_bytes();
    let b = key.1.to_be_bytes();
    let c = key.2.to_be_bytes();
    out.extend_from_slice(&[
        a[0], a[1], a[2], a[3], b[0], b[1], b[2], b[3], c[0], c[1], c[2], c[3],
    ])
}

/// Appends the values of a relation's key, as a part of the keys of table 11. After a refusal the bytes are unchanged.
pub fn put_key_vals(out: &mut Vec<u8>, key: &[Value]) -> Result<(), AllocError>
    requires { HaveKeyTexts key.now }
    ensures ok { OnOk result (out.new.items ≡ out.old.items ++ vals_bytes key.now) }
    ensures fits { OnOk result (AreKeyVals key.now) }
    ensures err { OnErr result (out.new.items ≡ out.old.items) }
{
    match put_vals(out, key) {
        Ok(()) => Ok(()),
        Err(error) => Err(error),
    }
}

/// Appends a world, a relation, a key and the number of a tuple. After a refusal the bytes are unchanged.
pub fn put_val_key(
    out: &mut Vec<u8>,
    wid: u32,
    rel: u32,
    key: &[Value],
    tid: u32,
) -> Result<(), AllocError>
    requires { HaveKeyTexts key.now }
    ensures ok { OnOk result (out.new.items ≡ out.old.items ++ val_bytes (wid, rel, key.now, tid)) }
    ensures fits { OnOk result (IsValKey (wid, rel, key.now, tid)) }
    ensures err { OnErr result (out.new.items ≡ out.old.items) }
{
    let before = out.len();
    match push_val_key(out, wid, rel, key, tid) {
        Ok(()) => Ok(()),
        Err(error) => {
            out.truncate(before);
            Err(error)
        }
    }
}

// As `put_val_key`, but a refusal may leave a part behind.
fn push_val_key(
    out: &mut Vec<u8>,
    wid: u32,
    rel: u32,
    key: &[Value],
    tid: u32,
) -> Result<(), AllocError>
    requires { HaveKeyTexts key.now }
    ensures ok { OnOk result (out.new.items ≡ out.old.items ++ val_bytes (wid, rel, key.now, tid)) }
    ensures fits { OnOk result (IsValKey (wid, rel, key.now, tid)) }
    ensures err { OnErr result (Grows out.old.items out.new.items) }
{
    put_pair(out, wid, rel)?;
    put_key_vals(out, key)?;
    put_num(out, tid)?;
    Ok(())
}

/// The two numbers at the front of these bytes, and the bytes after them. None exactly where there are too few bytes.
pub fn pair_at(bytes: &[u8]) -> Option<((u32, u32), &[u8])>
    ensures { MatchOption result (NoneLeads IsPair pair_bytes bytes.now)
        (λ x. Leads IsPair pair_bytes bytes.now x.0 x.1.now) }
{
    let (first, rest) = num_of(bytes)?;
    let (second, rest) = num_of(rest)?;
    Some(((first, second), rest))
}

/// The two numbers that these bytes are. None exactly where they aren't two numbers.
pub fn only_pair(bytes: &[u8]) -> Option<(u32, u32)>
    ensures { MatchOption result (NoneReads IsPair pair_bytes bytes.now)
        (Reads IsPair pair_bytes bytes.now) }
{
    match pair_at(bytes) {
        Some((pair, [])) => Some(pair),
        Some((_, [_, ..])) => None,
        None => None,
    }
}

/// The three numbers that these bytes are. None exactly where they aren't three numbers.
pub fn only_triple(bytes: &[u8]) -> Option<(u32, u32, u32)>
    ensures { MatchOption result (NoneReads IsTriple triple_bytes bytes.now)
        (Reads IsTriple triple_bytes bytes.now) }
{
    match pair_at(bytes) {
        Some((pair, rest)) => match only_num(rest) {
            Some(third) => Some((pair.0, pair.1, third)),
            None => None,
        },
        None => None,
    }
}

/// The key of table 11 that these bytes are. `NotAKey` comes exactly where they are none.
pub fn val_key_of(alloc: Global, bytes: &[u8]) -> Result<(u32, u32, List<Value>, u32), KeyError>
    ensures ok { IfOk result (Reads IsValKey val_bytes bytes.now) }
    ensures none { IsErrOf result KeyError.NotAKey → NoneReads IsValKey val_bytes bytes.now }
{
    let (pair, rest) = match pair_at(bytes) {
        Some(found) => found,
        None => return Err(KeyError::NotAKey),
    };
    let (key, rest) = vals_of(alloc, rest)?;
    match only_num(rest) {
        Some(tuple) => Ok((pair.0, pair.1, key, tuple)),
        None => Err(KeyError::NotAKey),
    }
}
