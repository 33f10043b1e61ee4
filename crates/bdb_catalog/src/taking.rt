// The statements that a delete or an update takes.
ghost use Rattle.std.specs.Prelude.{◌≡◌, ◌++◌, IfOk, OnOk};
ghost use Rattle.bdb_keep.specs.Calls.{IsRead};
ghost use Rattle.bdb_keep.specs.Seen.{NeverFall, Steps};
ghost use Rattle.bdb_key.specs.Bytes.{num_bytes};
ghost use Rattle.bdb_tables.specs.Grammar.{InGrammar};
ghost use Rattle.bdb_tables.specs.Prefixes.{HasPutValues};
ghost use Rattle.bdb_val.specs.Reads.{HaveTuples};
ghost use Rattle.bdb_catalog.specs.Bases.{SomeHasUsers};
ghost use Rattle.bdb_catalog.specs.Taking.{AreTaken, AreTuplesRead, ReadsTaken, is_said, statements_of, values_asked};

use crate::asking::put_asked;
use crate::showing::state_of;
use bdb_base::{Cond, Exact, List, Path, Sign, Stmt, Tuple, Value, meets, put};
use bdb_keep::Keeper;
use bdb_key::put_num;
use bdb_tables::{TabError, ValTab, read_tuple, rows_under, stored_key_length};
use std::alloc::{AllocError, Global};

/// The statements of exactly this path, sign and relation whose tuples meet all tests, in order. They are the explicit rows
/// of the path's world, of which there are none where the path is no state. A read for each user of the path and for each
/// row of its world and the relation, one more for each of these that is explicit with the sign, and three, at most. Only
/// those rows are read whose keys begin with the values that tests ask for by equality with a literal, as many values as
/// there are from the first column on.
pub fn taken<K: Keeper>(
    alloc: Global,
    keeper: &mut K,
    path: &Path,
    sign: Sign,
    rel: u32,
    conds: &List<Cond>,
) -> Result<List<Stmt>, TabError>
    requires base { SomeHasUsers (K.seen keeper.old).kept path.now }
    ensures taken { IfOk result (AreTaken (K.seen keeper.old).kept path.now sign rel conds.now) }
    ensures reads { OnOk result
        (ReadsTaken (K.seen keeper.old) (K.seen keeper.new) path.now sign rel conds.now) }
    ensures kept { OnOk result ((K.seen keeper.new).kept ≡ (K.seen keeper.old).kept) }
    ensures writes { (K.seen keeper.new).writes ≡ (K.seen keeper.old).writes }
    ensures counts { NeverFall (K.seen keeper.old) (K.seen keeper.new) }
    ensures steps { Steps (K.seen keeper.old) (K.seen keeper.new) result TabError.Fault }
{
    let (wid, own) = match state_of(alloc, keeper, path.as_slice()) {
        Ok(found) => found,
        Err(error) => return Err(error),
    };
    if !own {
        return Ok(List::new(alloc));
    }
    let n = match stored_key_length(alloc, keeper, rel) {
        Ok(n) => n,
        Err(error) => return Err(error),
    };
    let conds = conds.as_slice();
    let mut prefix = Vec::new(alloc);
    match put_key_prefix(&mut prefix, wid, rel, n, conds) {
        Ok(true) => {}
        Ok(false) => return Ok(List::new(alloc)),
        Err(_) => {
            keeper.undo();
            return Err(TabError::Memory);
        }
    }
    let tuples = match tuples_under(alloc, keeper, prefix.as_slice(), sign) {
        Ok(tuples) => tuples,
        Err(error) => return Err(error),
    };
    match statements_of(alloc, path, sign, conds, tuples) {
        Ok(stmts) => Ok(stmts),
        Err(_) => {
            keeper.undo();
            Err(TabError::Memory)
        }
    }
}

// How the keys of those of a world's rows of a relation begin whose tuples have a key of the length `n` that begins with the
// values that tests ask for. False where one of these is a value that no tuple has.
fn put_key_prefix(
    prefix: &mut Vec<u8>,
    wid: u32,
    rel: u32,
    n: u32,
    conds: &[Cond],
) -> Result<bool, AllocError>
    ensures { IfOk result
        (λ all. HasPutValues all
        (prefix.old.items ++ (num_bytes wid ++ num_bytes rel ++ num_bytes n)) prefix.new.items
        (values_asked conds.now n)) }
{
    put_num(prefix, wid)?;
    put_num(prefix, rel)?;
    put_num(prefix, n)?;
    let all = put_asked(prefix, n, conds)?;
    Ok(all)
}

/// The tuples of those rows of worlds whose keys begin so that are explicit with a sign. A read for each row, one for each tuple,
/// and one more.
pub fn tuples_under<K: Keeper>(
    alloc: Global,
    keeper: &mut K,
    prefix: &[u8],
    sign: Sign,
) -> Result<Vec<Tuple>, TabError>
    requires grammar { InGrammar (K.seen keeper.old).kept }
    requires tuples { HaveTuples (K.seen keeper.old).kept }
    ensures tuples { IfOk result (λ tuples. AreTuplesRead (K.seen keeper.old) (K.seen keeper.new)
        prefix.now sign tuples.items) }
    ensures read { IsRead (K.seen keeper.old) (K.seen keeper.new) result TabError.Fault }
{
    let rows = match rows_under::<ValTab, K>(alloc, keeper, prefix) {
        Ok(rows) => rows,
        Err(error) => return Err(error),
    };
    let mut tuples = Vec::new(alloc);
    for row in &rows {
        if !is_said(row, sign) {
            continue;
        }
        match read_tuple(alloc, keeper, row.0.3) {
            Ok(tuple) => {
                if tuples.push(tuple).is_err() {
                    keeper.undo();
                    return Err(TabError::Memory);
                }
            }
            Err(error) => return Err(error),
        }
    }
    Ok(tuples)
}

// Whether a row is explicit, with this sign.
fn is_said(row: &((u32, u32, List<Value>, u32), (Sign, bool)), sign: Sign) -> bool
    ensures { result ≡ is_said sign row.now }
{
    row.1.1 && row.1.0 == sign
}

// Those tuples that meet all tests as statements of a path, in order.
fn statements_of(
    alloc: Global,
    path: &Path,
    sign: Sign,
    conds: &[Cond],
    tuples: Vec<Tuple>,
) -> Result<List<Stmt>, AllocError>
    ensures { IfOk result (λ stmts. stmts ≡ statements_of path.now sign conds.now tuples.items) }
{
    let mut stmts = List::new(alloc);
    for tuple in tuples {
        if !meets(&tuple, conds) {
            continue;
        }
        let path = path.try_clone(alloc)?;
        put(&mut stmts, Stmt { path, sign, tuple })?;
    }
    Ok(stmts)
}
