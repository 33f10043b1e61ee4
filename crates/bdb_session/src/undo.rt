// The commands that go along the bases of the history.
ghost use Rattle.std.specs.Prelude.{◌≡◌, ◌<◌, true, None, IfOk, length};
ghost use Rattle.bdb_base.specs.Bases.{is_gone, with_user_back};
ghost use Rattle.bdb_keep.specs.Seen.{IsStill};
ghost use Rattle.bdb_render.specs.declared.refusal.Refusal.TheVariants.{NoUndo, NoRedo};
ghost use Rattle.bdb_undo.specs.Changes.{CanName, all_but_last, named_back, named_forth};
ghost use Rattle.bdb_undo.specs.Timelines.{undone, redone};
ghost use Rattle.bdb_session.specs.Bounds.{RefusedUnwritten};
ghost use Rattle.bdb_session.specs.Following.{Follows, TellsStep, gone_back, gone_forth};
ghost use Rattle.bdb_session.specs.Known.{RemembersSome};
ghost use Rattle.bdb_session.specs.Undoing.{led, stepped};
ghost use Rattle.bdb_session.specs.Within.{IsKept, catalog_by, learned, nothing_new};

use crate::create::{names_with_relation, names_with_user};
use crate::error::StopError;
use crate::leave::names_without_user;
use crate::news::{Names, News};
use crate::reply::Reply;
use crate::session::Session;
use crate::transact::{begin, commit, stop_from};
use bdb_base::{Catalog, Exact, Txt, UserSlot};
use bdb_bind::NameIndex;
use bdb_keep::Keeper;
use bdb_render::Refusal;
use bdb_return::{make_again, take_back};
use bdb_undo::Named;
use std::alloc::{AllocError, Global};

impl Session {
    /// Takes the last change back in a transaction of its own, or refuses to where there is none.
    pub(crate) fn undo<K: Keeper>(&mut self, keeper: &mut K) -> Result<Reply, StopError>
        requires still { IsStill (K.seen keeper.old) }
        requires agrees { RemembersSome (K.seen keeper.old).kept self.old }
        ensures served { Follows (λ t. stepped NoUndo (undone t)) (λ t. led t (undone t))
            self.old self.new (K.seen keeper.old) (K.seen keeper.new) result }
        ensures unwritten { RefusedUnwritten (K.seen keeper.old) (K.seen keeper.new) result }
    {
        if self.history.undos() == 0 {
            return self.refuse(&Refusal::NoUndo);
        }
        match begin(keeper) {
            Ok(()) => {}
            Err(stop) => return Err(stop),
        }
        let mut news = self.nothing_new();
        match self.undo_within(keeper, &mut news) {
            Ok(told) => self.close_back(keeper, news, told),
            Err(stop) => Err(stop),
        }
    }

    /// Takes the last change back within a transaction. It is never refused.
    fn undo_within<K: Keeper>(&self, keeper: &mut K, news: &mut News) -> Result<Reply, StopError>
        requires running { (K.seen keeper.old).running ≡ true }
        requires agrees { RemembersSome (K.seen keeper.old).kept self.now }
        requires some { 0 < length self.now.history.undos }
        requires nothing { news.old ≡ nothing_new self.now }
        ensures told { TellsStep undone self.now (learned self.now news.new) (K.seen keeper.old)
            (K.seen keeper.new) result }
        ensures unchanged { news.new.change ≡ None }
    {
        let change = match self.history.last() {
            Some(change) => change,
            None => return self.refuse_within(keeper, &Refusal::NoUndo),
        };
        news.names = match names_back(self.alloc, &self.catalog, &change.named) {
            Ok(names) => names,
            Err(_) => {
                keeper.undo();
                return Err(StopError::Memory);
            }
        };
        match take_back(self.alloc, keeper, &mut news.counts, change) {
            Ok(()) => self.tell_done(keeper),
            Err(error) => Err(stop_from(error)),
        }
    }

    /// Commits a step back, learns from it, and counts the change as undone.
    fn close_back<K: Keeper>(
        &mut self,
        keeper: &mut K,
        news: News,
        told: Reply,
    ) -> Result<Reply, StopError>
        requires running { (K.seen keeper.old).running ≡ true }
        requires some { 0 < length self.old.history.undos }
        requires unchanged { news.change ≡ None }
        ensures { IsKept (gone_back (learned self.old news)) told self.old self.new
            (K.seen keeper.old) (K.seen keeper.new) result }
    {
        match commit(keeper) {
            Ok(()) => {
                self.learn(news);
                self.history.back();
                Ok(told)
            }
            Err(stop) => Err(stop),
        }
    }

    /// Makes the change again that was taken back last, in a transaction of its own, or refuses to where there is none.
    pub(crate) fn redo<K: Keeper>(&mut self, keeper: &mut K) -> Result<Reply, StopError>
        requires still { IsStill (K.seen keeper.old) }
        requires agrees { RemembersSome (K.seen keeper.old).kept self.old }
        ensures served { Follows (λ t. stepped NoRedo (redone t)) (λ t. led t (redone t))
            self.old self.new (K.seen keeper.old) (K.seen keeper.new) result }
        ensures unwritten { RefusedUnwritten (K.seen keeper.old) (K.seen keeper.new) result }
    {
        if self.history.redos() == 0 {
            return self.refuse(&Refusal::NoRedo);
        }
        match begin(keeper) {
            Ok(()) => {}
            Err(stop) => return Err(stop),
        }
        let mut news = self.nothing_new();
        match self.redo_within(keeper, &mut news) {
            Ok(told) => self.close_forth(keeper, news, told),
            Err(stop) => Err(stop),
        }
    }

    /// Makes the coming change again within a transaction. It is never refused.
    fn redo_within<K: Keeper>(&self, keeper: &mut K, news: &mut News) -> Result<Reply, StopError>
        requires running { (K.seen keeper.old).running ≡ true }
        requires agrees { RemembersSome (K.seen keeper.old).kept self.now }
        requires some { 0 < length self.now.history.redos }
        requires nothing { news.old ≡ nothing_new self.now }
        ensures told { TellsStep redone self.now (learned self.now news.new) (K.seen keeper.old)
            (K.seen keeper.new) result }
        ensures unchanged { news.new.change ≡ None }
    {
        let change = match self.history.coming() {
            Some(change) => change,
            None => return self.refuse_within(keeper, &Refusal::NoRedo),
        };
        news.names = match names_forth(self.alloc, &self.catalog, &change.named) {
            Ok(names) => names,
            Err(_) => {
                keeper.undo();
                return Err(StopError::Memory);
            }
        };
        match make_again(self.alloc, keeper, &mut news.counts, change) {
            Ok(()) => self.tell_done(keeper),
            Err(error) => Err(stop_from(error)),
        }
    }

    /// Commits a step forth, learns from it, and counts the change as made again.
    fn close_forth<K: Keeper>(
        &mut self,
        keeper: &mut K,
        news: News,
        told: Reply,
    ) -> Result<Reply, StopError>
        requires running { (K.seen keeper.old).running ≡ true }
        requires some { 0 < length self.old.history.redos }
        requires unchanged { news.change ≡ None }
        ensures { IsKept (gone_forth (learned self.old news)) told self.old self.new
            (K.seen keeper.old) (K.seen keeper.new) result }
    {
        match commit(keeper) {
            Ok(()) => {
                self.learn(news);
                self.history.forth();
                Ok(told)
            }
            Err(stop) => Err(stop),
        }
    }
}

/// The names before what a change named, where it named something.
fn names_back(alloc: Global, catalog: &Catalog, named: &Named) -> Result<Option<Names>, AllocError>
    requires can { CanName named.now (named_back named.now catalog.now) }
    requires last { catalog.now ≡ named_forth named.now (named_back named.now catalog.now) }
    ensures { IfOk result
        (λ names. catalog_by catalog.now names ≡ named_back named.now catalog.now) }
{
    match named {
        Named::Nothing => Ok(None),
        Named::UserAdded { name: _ } => Ok(Some(names_before_user(alloc, catalog)?)),
        Named::RelationAdded { def: _ } => Ok(Some(names_before_relation(alloc, catalog)?)),
        Named::UserDropped { uid, name } => Ok(Some(names_with_user_back(
            alloc, catalog, *uid, name,
        )?)),
    }
}

/// The names after what a change named, where it named something.
fn names_forth(alloc: Global, catalog: &Catalog, named: &Named) -> Result<Option<Names>, AllocError>
    requires can { CanName named.now catalog.now }
    ensures { IfOk result
        (λ names. catalog_by catalog.now names ≡ named_forth named.now catalog.now) }
{
    match named {
        Named::Nothing => Ok(None),
        Named::UserAdded { name } => Ok(Some(names_with_user(alloc, catalog, name)?)),
        Named::RelationAdded { def } => Ok(Some(names_with_relation(alloc, catalog, def)?)),
        Named::UserDropped { uid, name: _ } => Ok(Some(names_without_user(alloc, catalog, *uid)?)),
    }
}

/// The names without the last user.
fn names_before_user(alloc: Global, catalog: &Catalog) -> Result<Names, AllocError>
    ensures { IfOk result
        (λ names. names.catalog ≡ record catalog.now { users = all_but_last catalog.now.users }) }
{
    let mut catalog = catalog.try_clone(alloc)?;
    let places = catalog.users.len().saturating_sub(1);
    catalog.users.truncate(places);
    let index = NameIndex::of(alloc, &catalog)?;
    Ok(Names { catalog, index })
}

/// The names without the last relation.
fn names_before_relation(alloc: Global, catalog: &Catalog) -> Result<Names, AllocError>
    ensures { IfOk result
        (λ names. names.catalog ≡ record catalog.now { rels = all_but_last catalog.now.rels }) }
{
    let mut catalog = catalog.try_clone(alloc)?;
    let relations = catalog.rels.len().saturating_sub(1);
    catalog.rels.truncate(relations);
    let index = NameIndex::of(alloc, &catalog)?;
    Ok(Names { catalog, index })
}

/// The names with a user who left and comes back.
fn names_with_user_back(
    alloc: Global,
    catalog: &Catalog,
    uid: u32,
    name: &Txt,
) -> Result<Names, AllocError>
    requires gone { is_gone catalog.now.users uid ≡ true }
    ensures { IfOk result (λ names. names.catalog ≡ with_user_back catalog.now uid name.now) }
{
    let mut catalog = catalog.try_clone(alloc)?;
    let name = name.try_clone(alloc)?;
    catalog.users.set(uid as usize - 1, UserSlot::Live(name));
    let index = NameIndex::of(alloc, &catalog)?;
    Ok(Names { catalog, index })
}
