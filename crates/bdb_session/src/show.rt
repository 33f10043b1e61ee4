// The commands that show the world of a path, and the whole structure.
ghost use Rattle.std.specs.Prelude.{◌≡◌, ◌≤◌, true, nat_lt, length};
ghost use Rattle.bdb_base.specs.Bases.{IsCatalog, user_names};
ghost use Rattle.bdb_base.specs.Limits.{most_lines, most_relations, most_users};
ghost use Rattle.bdb_bind.specs.Fits.{fits_catalog};
ghost use Rattle.bdb_render.specs.Tables.{tables_reply};
ghost use Rattle.bdb_session.specs.Known.{AgreesOnSome};
ghost use Rattle.bdb_session.specs.Lines.{lines_by};
ghost use Rattle.bdb_session.specs.Machine.{bound_outcome};
ghost use Rattle.bdb_session.specs.Outcome.{State, Done};
ghost use Rattle.bdb_session.specs.Telling.{ReadsWithin, WritesNothing, world_reads};
ghost use Rattle.bdb_session.specs.Within.{IsSaid, TellsWithin};

use crate::error::StopError;
use crate::reply::Reply;
use crate::session::Session;
use crate::transact::stop_from;
use bdb_base::limits::MOST_LINES;
use bdb_base::{Path, live_count};
use bdb_bind::Bound;
use bdb_canon::{Canon, Counts};
use bdb_keep::Keeper;
use bdb_render::{Refusal, tables_reply};
use bdb_shown::shown_world;
use bdb_stored::canon_of;

impl Session {
    /// Shows the world of a path, within a transaction. A read for each user of the path, and two for each row of the world, at most.
    pub(crate) fn show_world<K: Keeper>(
        &self,
        keeper: &mut K,
        path: &Path,
    ) -> Result<Reply, StopError>
        requires running { (K.seen keeper.old).running ≡ true }
        requires agrees { AgreesOnSome (K.seen keeper.old).kept self.now }
        requires fits { fits_catalog self.now.catalog (Bound.ShowWorld path.now) ≡ true }
        ensures told { TellsWithin (λ s. bound_outcome s (Bound.ShowWorld path.now))
            self.now self.now (K.seen keeper.old) (K.seen keeper.new) result }
        ensures reads { ReadsWithin (λ s. world_reads s.base path.now) self.now (K.seen keeper.old)
            (K.seen keeper.new) result }
        ensures writes { WritesNothing (K.seen keeper.old) (K.seen keeper.new) result }
    {
        match shown_world(self.alloc, keeper, &self.catalog, path) {
            Ok(text) => self.say(keeper, Ok(text), 0),
            Err(error) => Err(stop_from(error)),
        }
    }

    /// Shows the structure within a transaction, or refuses to where there are too many lines. The sizes of the base tell how many
    /// there are, so that nothing is read where it is refused.
    pub(crate) fn show_tables<K: Keeper>(&self, keeper: &mut K) -> Result<Reply, StopError>
        requires running { (K.seen keeper.old).running ≡ true }
        requires agrees { AgreesOnSome (K.seen keeper.old).kept self.now }
        ensures told { TellsWithin (λ s. bound_outcome s Bound.ShowTables) self.now self.now
            (K.seen keeper.old) (K.seen keeper.new) result }
        ensures writes { WritesNothing (K.seen keeper.old) (K.seen keeper.new) result }
    {
        if self.has_many_lines() {
            return self.refuse_within(keeper, &Refusal::Many);
        }
        match canon_of(self.alloc, keeper) {
            Ok(canon) => self.tell_tables(keeper, &canon),
            Err(error) => Err(stop_from(error)),
        }
    }

    /// Tells the structure.
    fn tell_tables<K: Keeper>(&self, keeper: &mut K, canon: &Canon) -> Result<Reply, StopError>
        ensures { (s : State) → IsSaid self.now.catalog
            (Done (tables_reply self.now.catalog canon.now) 0 s) (K.seen keeper.old)
            (K.seen keeper.new) result }
    {
        let text = tables_reply(self.alloc, &self.catalog, canon);
        self.say(keeper, text, 0)
    }

    /// Whether the structure has more lines than may be told.
    fn has_many_lines(&self) -> bool
        requires catalog { IsCatalog self.now.catalog }
        ensures { result ≡ nat_lt most_lines
            (lines_by (length (user_names self.now.catalog.users)) (length self.now.catalog.rels)
            self.now.counts) }
    {
        let users = live_count(self.catalog.users.as_slice());
        let rels = self.catalog.rels.len();
        MOST_LINES < lines_by(users, rels, &self.counts)
    }
}

/// How many lines tell the structure of a base of these sizes.
fn lines_by(users: usize, rels: usize, counts: &Counts) -> usize
    requires users { users ≤ most_users }
    requires rels { rels ≤ most_relations }
    ensures { result ≡ lines_by users rels counts.now }
{
    let worlds = counts.worlds as usize;
    let edges = users + worlds.saturating_sub(1) * users.saturating_sub(1);
    users + rels + counts.tuples as usize + worlds + edges + counts.rows as usize
}
