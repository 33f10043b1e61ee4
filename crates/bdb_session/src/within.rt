// What is told within a transaction.
ghost use Rattle.std.specs.Prelude.{◌≡◌, List, ℕ, IfOk};
ghost use Rattle.bdb_render.specs.Replies.{count_reply, ok_reply};
ghost use Rattle.bdb_session.specs.Machine.{clash_with};
ghost use Rattle.bdb_session.specs.Outcome.{State, Done, Refused};
ghost use Rattle.bdb_session.specs.Within.{IsSaid, Refuses};

use crate::error::StopError;
use crate::refusals::clash_with;
use crate::reply::Reply;
use crate::session::Session;
use bdb_base::{List, Stmt};
use bdb_keep::Keeper;
use bdb_render::{Refusal, count_reply, ok_reply};
use bdb_update::UpdateError;
use std::alloc::AllocError;

impl Session {
    /// Answers with a text and a number of answers. Where there was no memory for the text, the transaction is undone.
    pub(crate) fn say<K: Keeper>(
        &self,
        keeper: &mut K,
        text: Result<List<u8>, AllocError>,
        answers: u32,
    ) -> Result<Reply, StopError>
        ensures { (s : State) (told : List ℕ) → IfOk text (λ x. x ≡ told) → IsSaid self.now.catalog
            (Done told answers s) (K.seen keeper.old) (K.seen keeper.new) result }
    {
        match text {
            Ok(text) => Ok(Reply {
                accepted: true,
                answers,
                text,
            }),
            Err(_) => {
                keeper.undo();
                Err(StopError::Memory)
            }
        }
    }

    /// Tells that something was done.
    pub(crate) fn tell_done<K: Keeper>(&self, keeper: &mut K) -> Result<Reply, StopError>
        ensures { (s : State) → IsSaid self.now.catalog (Done ok_reply 0 s) (K.seen keeper.old)
            (K.seen keeper.new) result }
    {
        let text = ok_reply(self.alloc);
        self.say(keeper, text, 0)
    }

    /// Tells how many statements were added, taken away or changed.
    pub(crate) fn tell_count<K: Keeper>(
        &self,
        keeper: &mut K,
        count: usize,
    ) -> Result<Reply, StopError>
        ensures { (s : State) → IsSaid self.now.catalog (Done (count_reply count) 0 s)
            (K.seen keeper.old) (K.seen keeper.new) result }
    {
        let text = count_reply(self.alloc, count);
        self.say(keeper, text, 0)
    }

    /// Refuses a change that would clash or pass a limit. After the other errors no transaction runs, and they are told.
    pub(crate) fn refuse_change<K: Keeper>(
        &self,
        keeper: &mut K,
        error: UpdateError,
    ) -> Result<Reply, StopError>
        ensures { Refuses self.now.catalog error (K.seen keeper.old) (K.seen keeper.new) result }
    {
        match error {
            UpdateError::Clash(least) => self.refuse_clash(keeper, &least),
            UpdateError::Full(what) => self.refuse_within(keeper, &Refusal::Full(what)),
            UpdateError::Fault => Err(StopError::Fault),
            UpdateError::Memory => Err(StopError::Memory),
        }
    }

    /// Refuses a change that would clash with a statement.
    fn refuse_clash<K: Keeper>(&self, keeper: &mut K, least: &Stmt) -> Result<Reply, StopError>
        ensures { IsSaid self.now.catalog (Refused (clash_with least.now)) (K.seen keeper.old)
            (K.seen keeper.new) result }
    {
        match clash_with(self.alloc, least) {
            Ok(refusal) => self.refuse_within(keeper, &refusal),
            Err(_) => {
                keeper.undo();
                Err(StopError::Memory)
            }
        }
    }

    /// Refuses within a transaction.
    pub(crate) fn refuse_within<K: Keeper>(
        &self,
        keeper: &mut K,
        refusal: &Refusal,
    ) -> Result<Reply, StopError>
        ensures { IsSaid self.now.catalog (Refused refusal.now) (K.seen keeper.old)
            (K.seen keeper.new) result }
    {
        match self.refuse(refusal) {
            Ok(reply) => Ok(reply),
            Err(stop) => {
                keeper.undo();
                Err(stop)
            }
        }
    }
}
