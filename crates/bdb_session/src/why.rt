// The command that tells why a path believes a signed tuple, or why it doesn't.
ghost use Rattle.std.specs.Prelude.{◌≡◌, true};
ghost use Rattle.bdb_bind.specs.Fits.{fits_catalog};
ghost use Rattle.bdb_reasons.specs.WhyReplies.{why_reply};
ghost use Rattle.bdb_session.specs.Known.{AgreesOnSome};
ghost use Rattle.bdb_session.specs.Machine.{bound_outcome};
ghost use Rattle.bdb_session.specs.Outcome.{State, Done};
ghost use Rattle.bdb_session.specs.Telling.{ReadsWithin, WritesNothing, why_reads};
ghost use Rattle.bdb_session.specs.Within.{IsSaid, TellsWithin};

use crate::error::StopError;
use crate::reply::Reply;
use crate::session::Session;
use crate::transact::stop_from;
use bdb_base::Stmt;
use bdb_bind::Bound;
use bdb_keep::Keeper;
use bdb_reasons::why_reply;
use bdb_why::{Why, why};

impl Session {
    /// Tells why a path believes a signed tuple, or why it doesn't, within a transaction. A read for each user of the path, and at
    /// each state among its ends four, and four for each row of the tuple's relation and key, at most.
    pub(crate) fn why<K: Keeper>(&self, keeper: &mut K, stmt: &Stmt) -> Result<Reply, StopError>
        requires running { (K.seen keeper.old).running ≡ true }
        requires agrees { AgreesOnSome (K.seen keeper.old).kept self.now }
        requires fits { fits_catalog self.now.catalog (Bound.Why stmt.now) ≡ true }
        ensures told { TellsWithin (λ s. bound_outcome s (Bound.Why stmt.now)) self.now self.now
            (K.seen keeper.old) (K.seen keeper.new) result }
        ensures reads { ReadsWithin (λ s. why_reads s.base stmt.now) self.now (K.seen keeper.old)
            (K.seen keeper.new) result }
        ensures writes { WritesNothing (K.seen keeper.old) (K.seen keeper.new) result }
    {
        let path = stmt.path.as_slice();
        match why(self.alloc, keeper, path, &stmt.tuple, stmt.sign) {
            Ok(certificate) => self.tell_why(keeper, stmt, &certificate),
            Err(error) => Err(stop_from(error)),
        }
    }

    /// Tells a certificate.
    fn tell_why<K: Keeper>(
        &self,
        keeper: &mut K,
        stmt: &Stmt,
        certificate: &Why,
    ) -> Result<Reply, StopError>
        ensures { (s : State) → IsSaid self.now.catalog
            (Done (why_reply self.now.catalog stmt.now.path stmt.now.tuple stmt.now.sign
            certificate.now) 0 s) (K.seen keeper.old) (K.seen keeper.new) result }
    {
        let path = stmt.path.as_slice();
        let text = why_reply(
            self.alloc,
            &self.catalog,
            path,
            &stmt.tuple,
            stmt.sign,
            certificate,
        );
        self.say(keeper, text, 0)
    }
}
