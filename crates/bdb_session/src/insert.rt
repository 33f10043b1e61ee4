// The command that adds a statement.
ghost use Rattle.std.specs.Prelude.{◌≡◌, ◌+◌, true, None, length, OnOk};
ghost use Rattle.bdb_bind.specs.Fits.{fits_catalog};
ghost use Rattle.bdb_session.specs.Bounds.{RefusedUnwritten, StandsUnwritten};
ghost use Rattle.bdb_session.specs.Known.{AgreesOnSome};
ghost use Rattle.bdb_session.specs.Machine.{bound_outcome};
ghost use Rattle.bdb_session.specs.Within.{TellsChange, TellsWithin, sized};
ghost use Rattle.bdb_update.specs.Bounds.{WritesWithinMore};

use crate::changes::statement_added;
use crate::error::StopError;
use crate::reply::Reply;
use crate::session::Session;
use bdb_base::Stmt;
use bdb_bind::Bound;
use bdb_canon::Counts;
use bdb_keep::Keeper;
use bdb_undo::Change;
use bdb_update::{Added, add_statement};

impl Session {
    /// Within a transaction, lets a statement stand, or refuses it where it clashes with one of its path or the base would pass a
    /// limit. `counts` become the sizes of the base after it. It takes no more writes, for each place at which the rows differ, than
    /// the path has users, and two; and eight more in all. What is refused takes none, and what stands already takes none.
    pub(crate) fn insert<K: Keeper>(
        &self,
        keeper: &mut K,
        counts: &mut Counts,
        change: &mut Option<Change>,
        stmt: Stmt,
    ) -> Result<Reply, StopError>
        requires running { (K.seen keeper.old).running ≡ true }
        requires agrees { AgreesOnSome (K.seen keeper.old).kept (sized self.now counts.old) }
        requires nothing { change.old ≡ None }
        requires fits { fits_catalog self.now.catalog (Bound.Insert stmt) ≡ true }
        ensures told { TellsWithin (λ s. bound_outcome s (Bound.Insert stmt))
            (sized self.now counts.old) (sized self.now counts.new)
            (K.seen keeper.old) (K.seen keeper.new) result }
        ensures change { TellsChange (λ s. bound_outcome s (Bound.Insert stmt))
            (sized self.now counts.old) change.new (K.seen keeper.old) result }
        ensures writes { OnOk result (WritesWithinMore (length stmt.path + 2) 8 (K.seen keeper.old)
            (K.seen keeper.new)) }
        ensures refused { RefusedUnwritten (K.seen keeper.old) (K.seen keeper.new) result }
        ensures already { StandsUnwritten stmt (sized self.now counts.old) (K.seen keeper.old)
            (K.seen keeper.new) result }
    {
        match add_statement(self.alloc, keeper, counts, &stmt) {
            Ok(Added::New) => match statement_added(self.alloc, stmt) {
                Ok(made) => {
                    *change = Some(made);
                    self.tell_count(keeper, 1)
                }
                Err(_) => {
                    keeper.undo();
                    Err(StopError::Memory)
                }
            },
            Ok(Added::Already) => self.tell_count(keeper, 0),
            Err(error) => self.refuse_change(keeper, error),
        }
    }
}
