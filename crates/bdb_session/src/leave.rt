// The command by which a user leaves.
ghost use Rattle.std.specs.Prelude.{◌≡◌, true, Some, IfOk};
ghost use Rattle.bdb_base.specs.Bases.{is_user, without_user};
ghost use Rattle.bdb_base.specs.Queries.{user_name};
ghost use Rattle.bdb_bind.specs.Fits.{fits_catalog};
ghost use Rattle.bdb_session.specs.Bounds.{WritesAsTold};
ghost use Rattle.bdb_session.specs.Known.{AgreesOnSome};
ghost use Rattle.bdb_session.specs.Machine.{bound_outcome};
ghost use Rattle.bdb_session.specs.Within.{TellsChange, TellsWithin, learned, nothing_new};

use crate::changes::user_dropped;
use crate::error::StopError;
use crate::news::{Names, News};
use crate::reply::Reply;
use crate::session::Session;
use crate::transact::stop_from;
use bdb_base::{Catalog, Exact, Txt, UserSlot, user_name};
use bdb_bind::{Bound, NameIndex};
use bdb_keep::Keeper;
use bdb_leaving::drop_user;
use std::alloc::{AllocError, Global};

impl Session {
    /// A user leaves within a transaction, and with him each statement whose path names him: each takes as many writes as one alone;
    /// two writes are made for each world that is left, and one more. It is never refused.
    pub(crate) fn drop_user<K: Keeper>(
        &self,
        keeper: &mut K,
        news: &mut News,
        uid: u32,
    ) -> Result<Reply, StopError>
        requires running { (K.seen keeper.old).running ≡ true }
        requires agrees { AgreesOnSome (K.seen keeper.old).kept self.now }
        requires fits { fits_catalog self.now.catalog (Bound.DropUser uid) ≡ true }
        requires nothing { news.old ≡ nothing_new self.now }
        ensures told { TellsWithin (λ s. bound_outcome s (Bound.DropUser uid)) self.now
            (learned self.now news.new)
            (K.seen keeper.old) (K.seen keeper.new) result }
        ensures change { TellsChange (λ s. bound_outcome s (Bound.DropUser uid))
            self.now news.new.change (K.seen keeper.old) result }
        ensures writes { WritesAsTold (Bound.DropUser uid) self.now (K.seen keeper.old)
            (K.seen keeper.new) result }
    {
        let names = match names_without_user(self.alloc, &self.catalog, uid) {
            Ok(names) => names,
            Err(_) => {
                keeper.undo();
                return Err(StopError::Memory);
            }
        };
        let name = match name_of(self.alloc, &self.catalog, uid) {
            Ok(name) => name,
            Err(_) => {
                keeper.undo();
                return Err(StopError::Memory);
            }
        };
        let gone = match drop_user(self.alloc, keeper, &mut news.counts, uid) {
            Ok(gone) => gone,
            Err(error) => return Err(stop_from(error)),
        };
        let count = gone.len();
        news.names = Some(names);
        news.change = Some(user_dropped(self.alloc, uid, name, gone));
        self.tell_count(keeper, count)
    }
}

/// A copy of a live user's name.
#[tactic(auto, using(crate::proofs::LeaveLemmas::user_has_name))]
fn name_of(alloc: Global, catalog: &Catalog, uid: u32) -> Result<Txt, AllocError>
    requires user { is_user catalog.now.users uid ≡ true }
    ensures { IfOk result (λ name. user_name catalog.now.users uid ≡ Some name) }
{
    match user_name(catalog.users.as_slice(), uid) {
        Some(name) => Ok(name.try_clone(alloc)?),
        None => unreachable!(),
    }
}

/// The names without those of a user.
pub(crate) fn names_without_user(
    alloc: Global,
    catalog: &Catalog,
    uid: u32,
) -> Result<Names, AllocError>
    requires user { is_user catalog.now.users uid ≡ true }
    ensures { IfOk result (λ names. names.catalog ≡ without_user catalog.now uid) }
{
    let mut catalog = catalog.try_clone(alloc)?;
    catalog.users.set(uid as usize - 1, UserSlot::Gone);
    let index = NameIndex::of(alloc, &catalog)?;
    Ok(Names { catalog, index })
}
