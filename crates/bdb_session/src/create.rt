// Commands that add to the catalog.
ghost use Rattle.std.specs.Prelude.{◌≡◌, ◌+◌, true, None, IfOk, length};
ghost use Rattle.bdb_base.specs.Bases.{with_user, with_relation};
ghost use Rattle.bdb_bind.specs.Fits.{fits_catalog};
ghost use Rattle.bdb_session.specs.Bounds.{RefusedUnwritten};
ghost use Rattle.bdb_session.specs.Known.{AgreesOnSome};
ghost use Rattle.bdb_session.specs.Machine.{bound_outcome};
ghost use Rattle.bdb_session.specs.Sizes.{limit_passed};
ghost use Rattle.bdb_session.specs.Within.{TellsChange, TellsWithin, learned, nothing_new};

use crate::changes::{relation_added, user_added};
use crate::error::StopError;
use crate::limits::limit_passed;
use crate::news::{Names, News};
use crate::reply::Reply;
use crate::session::Session;
use crate::transact::stop_from;
use bdb_base::{Catalog, Exact, RelDef, Txt, UserSlot};
use bdb_bind::{Bound, NameIndex};
use bdb_catalog::{add_relation, add_user};
use bdb_keep::Keeper;
use bdb_render::Refusal;
use std::alloc::{AllocError, Global};

impl Session {
    /// Adds a user within a transaction, or refuses it where there are too many. What is refused takes no write.
    pub(crate) fn create_user<K: Keeper>(
        &self,
        keeper: &mut K,
        news: &mut News,
        name: Txt,
    ) -> Result<Reply, StopError>
        requires running { (K.seen keeper.old).running ≡ true }
        requires agrees { AgreesOnSome (K.seen keeper.old).kept self.now }
        requires fits { fits_catalog self.now.catalog (Bound.CreateUser name) ≡ true }
        requires nothing { news.old ≡ nothing_new self.now }
        ensures told { TellsWithin (λ s. bound_outcome s (Bound.CreateUser name)) self.now
            (learned self.now news.new)
            (K.seen keeper.old) (K.seen keeper.new) result }
        ensures change { TellsChange (λ s. bound_outcome s (Bound.CreateUser name))
            self.now news.new.change (K.seen keeper.old) result }
        ensures unwritten { RefusedUnwritten (K.seen keeper.old) (K.seen keeper.new) result }
    {
        let users = self.catalog.users.len() + 1;
        let rels = self.catalog.rels.len();
        match limit_passed(users, rels, self.counts) {
            Some(what) => self.refuse_within(keeper, &Refusal::Full(what)),
            None => self.add_user(keeper, news, name, users as u32),
        }
    }

    /// Adds a user for whom there is room, whose number is the next.
    fn add_user<K: Keeper>(
        &self,
        keeper: &mut K,
        news: &mut News,
        name: Txt,
        uid: u32,
    ) -> Result<Reply, StopError>
        requires running { (K.seen keeper.old).running ≡ true }
        requires agrees { AgreesOnSome (K.seen keeper.old).kept self.now }
        requires fits { fits_catalog self.now.catalog (Bound.CreateUser name) ≡ true }
        requires nothing { news.old ≡ nothing_new self.now }
        requires number { uid ≡ length self.now.catalog.users + 1 }
        requires room { limit_passed (length self.now.catalog.users + 1)
            (length self.now.catalog.rels) self.now.counts ≡ None }
        ensures told { TellsWithin (λ s. bound_outcome s (Bound.CreateUser name)) self.now
            (learned self.now news.new)
            (K.seen keeper.old) (K.seen keeper.new) result }
        ensures change { TellsChange (λ s. bound_outcome s (Bound.CreateUser name))
            self.now news.new.change (K.seen keeper.old) result }
        ensures unwritten { RefusedUnwritten (K.seen keeper.old) (K.seen keeper.new) result }
    {
        let names = match names_with_user(self.alloc, &self.catalog, &name) {
            Ok(names) => names,
            Err(_) => {
                keeper.undo();
                return Err(StopError::Memory);
            }
        };
        match add_user(self.alloc, keeper, uid, &name) {
            Ok(()) => {}
            Err(error) => return Err(stop_from(error)),
        }
        news.names = Some(names);
        news.change = Some(user_added(self.alloc, name));
        self.tell_done(keeper)
    }

    /// Adds a relation within a transaction, or refuses it where there are too many. What is refused takes no write.
    pub(crate) fn create_relation<K: Keeper>(
        &self,
        keeper: &mut K,
        news: &mut News,
        def: RelDef,
    ) -> Result<Reply, StopError>
        requires running { (K.seen keeper.old).running ≡ true }
        requires agrees { AgreesOnSome (K.seen keeper.old).kept self.now }
        requires fits { fits_catalog self.now.catalog (Bound.CreateRelation def) ≡ true }
        requires nothing { news.old ≡ nothing_new self.now }
        ensures told { TellsWithin (λ s. bound_outcome s (Bound.CreateRelation def)) self.now
            (learned self.now news.new)
            (K.seen keeper.old) (K.seen keeper.new) result }
        ensures change { TellsChange (λ s. bound_outcome s (Bound.CreateRelation def))
            self.now news.new.change (K.seen keeper.old) result }
        ensures unwritten { RefusedUnwritten (K.seen keeper.old) (K.seen keeper.new) result }
    {
        let users = self.catalog.users.len();
        let rels = self.catalog.rels.len();
        match limit_passed(users, rels + 1, self.counts) {
            Some(what) => self.refuse_within(keeper, &Refusal::Full(what)),
            None => self.add_relation(keeper, news, def, rels as u32),
        }
    }

    /// Adds a relation for which there is room, whose number is the next.
    fn add_relation<K: Keeper>(
        &self,
        keeper: &mut K,
        news: &mut News,
        def: RelDef,
        rel: u32,
    ) -> Result<Reply, StopError>
        requires running { (K.seen keeper.old).running ≡ true }
        requires agrees { AgreesOnSome (K.seen keeper.old).kept self.now }
        requires fits { fits_catalog self.now.catalog (Bound.CreateRelation def) ≡ true }
        requires nothing { news.old ≡ nothing_new self.now }
        requires number { rel ≡ length self.now.catalog.rels }
        requires room { limit_passed (length self.now.catalog.users)
            (length self.now.catalog.rels + 1) self.now.counts ≡ None }
        ensures told { TellsWithin (λ s. bound_outcome s (Bound.CreateRelation def)) self.now
            (learned self.now news.new)
            (K.seen keeper.old) (K.seen keeper.new) result }
        ensures change { TellsChange (λ s. bound_outcome s (Bound.CreateRelation def))
            self.now news.new.change (K.seen keeper.old) result }
        ensures unwritten { RefusedUnwritten (K.seen keeper.old) (K.seen keeper.new) result }
    {
        let names = match names_with_relation(self.alloc, &self.catalog, &def) {
            Ok(names) => names,
            Err(_) => {
                keeper.undo();
                return Err(StopError::Memory);
            }
        };
        match add_relation(self.alloc, keeper, rel, &def) {
            Ok(()) => {}
            Err(error) => return Err(stop_from(error)),
        }
        news.names = Some(names);
        news.change = Some(relation_added(self.alloc, def));
        self.tell_done(keeper)
    }
}

/// The names with one more user.
pub(crate) fn names_with_user(
    alloc: Global,
    catalog: &Catalog,
    name: &Txt,
) -> Result<Names, AllocError>
    ensures { IfOk result (λ names. names.catalog ≡ with_user catalog.now name.now) }
{
    let mut catalog = catalog.try_clone(alloc)?;
    let name = name.try_clone(alloc)?;
    catalog.users.push(UserSlot::Live(name))?;
    let index = NameIndex::of(alloc, &catalog)?;
    Ok(Names { catalog, index })
}

/// The names with one more relation.
pub(crate) fn names_with_relation(
    alloc: Global,
    catalog: &Catalog,
    def: &RelDef,
) -> Result<Names, AllocError>
    ensures { IfOk result (λ names. names.catalog ≡ with_relation catalog.now def.now) }
{
    let mut catalog = catalog.try_clone(alloc)?;
    catalog.rels.push(def.try_clone(alloc)?)?;
    let index = NameIndex::of(alloc, &catalog)?;
    Ok(Names { catalog, index })
}
