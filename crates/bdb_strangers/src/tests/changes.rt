// Changes of rows that no command makes, told by lines of digits.
ghost use Rattle.std.specs.Prelude.{◌≡◌, ◌≤◌, Bool, false};

use bdb_memory::{MemKeeper, QuietKeeper};
use bdb_samples::{RowChange, changes_of};
use std::alloc::{AllocError, Global};
use std::test::Fail;

/// A keeper whose rows are set as if they had been committed.
pub(crate) trait Settable: Drop {
    // whether a transaction runs
    ghost running: { Self → Bool };

    /// Gives a table a row.
    fn set_row(&mut self, tab: u8, key: &[u8], row: &[u8]) -> Result<(), AllocError>
        requires table { (1 ≤ tab) × (tab ≤ 15) }
        requires idle { running self.old ≡ false }
        ensures idle { running self.new ≡ false };

    /// Takes a row away from a table.
    fn unset_row(&mut self, tab: u8, key: &[u8])
        requires table { (1 ≤ tab) × (tab ≤ 15) }
        requires idle { running self.old ≡ false }
        ensures idle { running self.new ≡ false };
}

impl Settable for QuietKeeper {
    ghost running = { λ k. k.running };

    fn set_row(&mut self, tab: u8, key: &[u8], row: &[u8]) -> Result<(), AllocError> {
        self.preset(tab, key, row)
    }

    fn unset_row(&mut self, tab: u8, key: &[u8]) {
        self.unset(tab, key);
    }
}

impl Settable for MemKeeper {
    ghost running = { λ k. k.seen.running };

    fn set_row(&mut self, tab: u8, key: &[u8], row: &[u8]) -> Result<(), AllocError> {
        self.preset(tab, key, row)
    }

    fn unset_row(&mut self, tab: u8, key: &[u8]) {
        self.unset(tab, key);
    }
}

/// Carries out a change; none of a table that isn't there.
fn set<S: Settable>(keeper: &mut S, change: &RowChange) -> Result<(), AllocError>
    requires { S.running keeper.old ≡ false }
    ensures { S.running keeper.new ≡ false }
{
    if change.tab == 0 || 15 < change.tab {
        return Ok(());
    }
    match &change.row {
        Some(row) => keeper.set_row(change.tab, &change.key, row),
        None => {
            keeper.unset_row(change.tab, &change.key);
            Ok(())
        }
    }
}

/// Carries out the changes of a line.
pub(crate) fn carry_out<S: Settable>(alloc: Global, line: &str, keeper: &mut S) -> Result<(), Fail>
    requires idle { S.running keeper.old ≡ false }
    ensures idle { S.running keeper.new ≡ false }
{
    for change in changes_of(alloc, line)? {
        set(keeper, &change)?;
    }
    Ok(())
}
