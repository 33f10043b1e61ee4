// The numbers of the users of a stored base.
ghost use Rattle.std.specs.Prelude.{◌≡◌, IfOk, OnOk};
ghost use Rattle.bdb_base.specs.Queries.{user_numbers};
ghost use Rattle.bdb_keep.specs.Calls.{IsRead};
ghost use Rattle.bdb_stored.specs.Structure.{ReadsPlaces, is_live, live_keys};
ghost use Rattle.bdb_catalog.specs.Bases.{StoresSome};
ghost use Rattle.bdb_catalog.specs.Opening.{IsPartOf};

use bdb_base::UserSlot;
use bdb_keep::Keeper;
use bdb_tables::{TabError, UserTab, rows_under};
use std::alloc::{AllocError, Global};

/// The numbers of the live users, in order. One read for each place of a user, also of one who is gone, and one more.
pub fn user_numbers<K: Keeper>(alloc: Global, keeper: &mut K) -> Result<Vec<u32>, TabError>
    requires base { StoresSome (K.seen keeper.old).kept }
    ensures numbers { IfOk result (λ numbers. IsPartOf (λ b. user_numbers b.catalog.users)
        (K.seen keeper.old).kept numbers.items) }
    ensures reads { OnOk result (ReadsPlaces (K.seen keeper.old) (K.seen keeper.new)) }
    ensures read { IsRead (K.seen keeper.old) (K.seen keeper.new) result TabError.Fault }
{
    let rows = match rows_under::<UserTab, K>(alloc, keeper, &[]) {
        Ok(rows) => rows,
        Err(error) => return Err(error),
    };
    match live_keys(alloc, &rows) {
        Ok(numbers) => Ok(numbers),
        Err(_) => {
            keeper.undo();
            Err(TabError::Memory)
        }
    }
}

// The numbers of the rows of live users.
fn live_keys(alloc: Global, rows: &[(u32, UserSlot)]) -> Result<Vec<u32>, AllocError>
    ensures { IfOk result (λ keys. keys.items ≡ live_keys rows.now) }
{
    let mut keys = Vec::new(alloc);
    for row in rows {
        if !is_live(row) {
            continue;
        }
        keys.push(row.0)?;
    }
    Ok(keys)
}

// Whether a row is that of a live user.
fn is_live(row: &(u32, UserSlot)) -> bool
    ensures { result ≡ is_live row.now }
{
    row.1.name().is_some()
}
