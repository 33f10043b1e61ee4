// What stands below sessions: a module for each part.
ghost use Rattle.std.specs.Prelude.{◌≡◌, false, IfOk};

mod former;
mod keep;
mod key;
mod marked;
mod tables;

use bdb_base::List;
use bdb_memory::MemKeeper;
use std::alloc::{AllocError, Global};

/// A keeper in memory that fails the call with this number.
fn failing_at(alloc: Global, call: u32) -> Result<MemKeeper, AllocError>
    ensures { IfOk result (λ keeper. keeper.seen.running ≡ false) }
{
    let fails = Vec::from_slice(alloc, &[call])?;
    Ok(MemKeeper::new(alloc, List::from_vec(fails)))
}
