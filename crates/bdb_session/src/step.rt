// One command as a step within a running transaction, and as a transaction of its own.
ghost use Rattle.std.specs.Prelude.{◌≡◌, true};
ghost use Rattle.bdb_bind.specs.Fits.{fits_catalog};
ghost use Rattle.bdb_keep.specs.Seen.{IsStill};
ghost use Rattle.bdb_session.specs.Bounds.{ReadsAsTold, WritesAsTold};
ghost use Rattle.bdb_session.specs.Following.{Moves};
ghost use Rattle.bdb_session.specs.Known.{AgreesOnSome};
ghost use Rattle.bdb_session.specs.Machine.{bound_outcome};
ghost use Rattle.bdb_session.specs.Served.{Serves};
ghost use Rattle.bdb_session.specs.Within.{Closes, TellsChange, TellsWithin, catalog_by, learned, noted_by, nothing_new};

use crate::change::Selection;
use crate::error::StopError;
use crate::news::{Names, News};
use crate::reply::Reply;
use crate::session::Session;
use crate::transact::{begin, commit};
use bdb_bind::Bound;
use bdb_keep::Keeper;
use bdb_render::Refusal;
use bdb_undo::Change;

impl Session {
    /// Carries out a bound command in a transaction of its own, or refuses it.
    pub(crate) fn execute<K: Keeper>(
        &mut self,
        keeper: &mut K,
        bound: Bound,
    ) -> Result<Reply, StopError>
        requires still { IsStill (K.seen keeper.old) }
        requires agrees { AgreesOnSome (K.seen keeper.old).kept self.old }
        requires fits { fits_catalog self.old.catalog bound ≡ true }
        ensures served { Serves (λ s. bound_outcome s bound) self.old self.new (K.seen keeper.old)
            (K.seen keeper.new) result }
        ensures remembers { Moves (λ s. bound_outcome s bound) self.old self.new (K.seen keeper.old)
            (K.seen keeper.new) result }
        ensures reads { ReadsAsTold bound self.old (K.seen keeper.old) (K.seen keeper.new) result }
        ensures writes { WritesAsTold bound self.old (K.seen keeper.old) (K.seen keeper.new)
            result }
    {
        match begin(keeper) {
            Ok(()) => {}
            Err(stop) => return Err(stop),
        }
        let mut news = self.nothing_new();
        match self.step(keeper, &mut news, bound) {
            Ok(told) => self.close(keeper, news, told),
            Err(stop) => Err(stop),
        }
    }

    /// Carries out a bound command within a running transaction, or refuses it. After a refusal the rows are as they were, and
    /// nothing was written. The session itself stays as it is: what it learns is told.
    pub(crate) fn step<K: Keeper>(
        &self,
        keeper: &mut K,
        news: &mut News,
        bound: Bound,
    ) -> Result<Reply, StopError>
        requires running { (K.seen keeper.old).running ≡ true }
        requires agrees { AgreesOnSome (K.seen keeper.old).kept self.now }
        requires fits { fits_catalog self.now.catalog bound ≡ true }
        requires nothing { news.old ≡ nothing_new self.now }
        ensures told { TellsWithin (λ s. bound_outcome s bound) self.now (learned self.now news.new)
            (K.seen keeper.old) (K.seen keeper.new) result }
        ensures change { TellsChange (λ s. bound_outcome s bound) self.now news.new.change
            (K.seen keeper.old) result }
        ensures reads { ReadsAsTold bound self.now (K.seen keeper.old) (K.seen keeper.new) result }
        ensures writes { WritesAsTold bound self.now (K.seen keeper.old) (K.seen keeper.new)
            result }
    {
        match bound {
            Bound::CreateUser { name } => self.create_user(keeper, news, name),
            Bound::CreateRelation { def } => self.create_relation(keeper, news, def),
            Bound::DropUser { uid } => self.drop_user(keeper, news, uid),
            Bound::Insert { stmt } => self.insert(keeper, &mut news.counts, &mut news.change, stmt),
            Bound::Delete {
                path,
                sign,
                rel,
                conds,
            } => {
                let about = Selection::new(path, sign, rel, conds);
                self.delete(keeper, &mut news.counts, &mut news.change, &about)
            }
            Bound::Update {
                path,
                sign,
                rel,
                sets,
                conds,
            } => {
                let about = Selection::new(path, sign, rel, conds);
                self.update(keeper, &mut news.counts, &mut news.change, &about, &sets)
            }
            Bound::Select { query } => self.select(keeper, &query),
            Bound::Explain { query } => self.explain(keeper, &query),
            Bound::ShowWorld { path } => self.show_world(keeper, &path),
            Bound::Why { stmt } => self.why(keeper, &stmt),
            Bound::ShowTables => self.show_tables(keeper),
            Bound::Undo => self.refuse_within(keeper, &Refusal::Syntax),
            Bound::Redo => self.refuse_within(keeper, &Refusal::Syntax),
        }
    }

    /// What a session learns from a step that changes nothing.
    pub(crate) fn nothing_new(&self) -> News
        ensures { result ≡ nothing_new self.now }
    {
        News {
            counts: self.counts,
            names: None,
            change: None,
        }
    }

    /// Learns what a step told.
    pub(crate) fn learn(&mut self, news: News)
        ensures { self.new ≡ learned self.old news }
    {
        let News {
            counts,
            names,
            change,
        } = news;
        self.counts = counts;
        self.take_names(names);
        self.note(change);
    }

    /// Takes other names over, where there are some.
    fn take_names(&mut self, names: Option<Names>)
        ensures { self.new ≡ record self.old { catalog = catalog_by self.old.catalog names } }
    {
        match names {
            Some(names) => {
                self.catalog = names.catalog;
                self.index = names.index;
            }
            None => {}
        }
    }

    /// Notes a change, where there is one.
    fn note(&mut self, change: Option<Change>)
        ensures { self.new ≡ record self.old { history = noted_by change self.old.history } }
    {
        match change {
            Some(change) => self.history.note(change),
            None => {}
        }
    }

    /// Ends a transaction in which a step was told of: it is committed and learned from where it was accepted, and undone where it
    /// was refused.
    fn close<K: Keeper>(
        &mut self,
        keeper: &mut K,
        news: News,
        told: Reply,
    ) -> Result<Reply, StopError>
        requires running { (K.seen keeper.old).running ≡ true }
        ensures { Closes (learned self.old news) told self.old self.new (K.seen keeper.old)
            (K.seen keeper.new) result }
    {
        if !told.accepted {
            keeper.undo();
            return Ok(told);
        }
        match commit(keeper) {
            Ok(()) => {
                self.learn(news);
                Ok(told)
            }
            Err(stop) => Err(stop),
        }
    }
}
