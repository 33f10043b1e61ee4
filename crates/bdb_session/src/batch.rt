// A batch of commands, in one transaction.
ghost use Rattle.std.specs.Prelude.{◌≡◌, ◌<◌, ◌≤◌, ◌^◌, [], true, false, not, length, IfOk, OnOk, OnErr};
ghost use Rattle.bdb_base.specs.Causes.{HasCause, Rises};
ghost use Rattle.bdb_keep.specs.Seen.{IsStill, NeverFall, Unchanged};
ghost use Rattle.bdb_session.specs.declared.event.ScriptEvent.TheVariants.{Piece};
ghost use Rattle.bdb_session.specs.Known.{Agrees, AgreesOnSome, Remembers, RemembersSome};
ghost use Rattle.bdb_session.specs.Machine.{bound_outcome, command_outcome, outcome_of};
ghost use Rattle.bdb_session.specs.Outcome.{State};
ghost use Rattle.bdb_session.specs.Runs.{accepts_all};
ghost use Rattle.bdb_session.specs.Within.{TellsWithin};
ghost use Rattle.bdb_bind.specs.Fits.{fits_catalog, is_allowed};
ghost use Rattle.bdb_undo.specs.Timelines.{Timeline};
ghost use Rattle.bdb_val.specs.Steps.{IsChanging};

use crate::error::StopError;
use crate::open::session_over;
use crate::reading::{Reading, read_piece};
use crate::refusals::refusal_from;
use crate::reply::Reply;
use crate::session::Session;
use crate::transact::{begin, commit};
use bdb_base::{Exact, Lines, List};
use bdb_bind::{Bound, bind_by};
use bdb_keep::Keeper;
use bdb_syntax::Command;
use std::alloc::AllocError;

/// The reply to a batch: how many lines come before the first that is refused, whether one is, and the replies to the lines, one
/// behind the other, up to and with that of the first that is refused.
#[derive(Drop)]
pub struct BatchReply {
    pub accepted: u32,
    pub refused: bool,
    pub text: List<u8>,
}

/// How far lines were run: how many come before the first that is refused, and whether one is.
#[derive(Clone, Copy, Drop)]
struct Ran {
    accepted: u32,
    refused: bool,
}

ghost use Rattle.bdb_session.specs.Batches.{AlterSome, Alters, AreRun, IsRun, ServesBatch, ClosesBatch, pieces, before_refused, batch_text, batch_state, batch_timeline, batch_commits, taken_over, without_changes};

impl Session {
    /// Applies lines as one batch: all of them in one transaction, or none. The lines are applied in order, each as `apply` would,
    /// up to the first that is refused; undo and redo are no commands here. Where none is refused the tables hold the last base, and
    /// are committed once; a batch without lines is committed too. Where the base was changed by a line, none of the changes before
    /// can be taken back or made again. Else, and after an Err, the tables, the session and the count of commits are as before.
    pub fn apply_batch<K: Keeper>(
        &mut self,
        keeper: &mut K,
        lines: &Lines,
    ) -> Result<BatchReply, StopError>
        requires still { IsStill (K.seen keeper.old) }
        requires agrees { RemembersSome (K.seen keeper.old).kept self.old }
        requires few { length lines.now < 2 ^ 32 }
        ensures refused { (s : State) → Agrees (K.seen keeper.old).kept self.old s
            → IfOk result (λ r. r.refused ≡ not (accepts_all s (pieces lines.now))) }
        ensures accepted { (s : State) → Agrees (K.seen keeper.old).kept self.old s
            → IfOk result (λ r. r.accepted ≡ before_refused s (pieces lines.now)) }
        ensures text { (s : State) → Agrees (K.seen keeper.old).kept self.old s
            → IfOk result (λ r. r.text ≡ batch_text s (pieces lines.now)) }
        ensures next { (s : State) → Agrees (K.seen keeper.old).kept self.old s
            → OnOk result
            (Agrees (K.seen keeper.new).kept self.new (batch_state s (pieces lines.now))) }
        ensures commits { (s : State) → Agrees (K.seen keeper.old).kept self.old s
            → OnOk result (Rises (batch_commits s (pieces lines.now)) (K.seen keeper.old).commits
            (K.seen keeper.new).commits) }
        ensures alone { (s : State) → Agrees (K.seen keeper.old).kept self.old s
            → OnOk result (accepts_all s (pieces lines.now) ≡ false → Unchanged (K.seen keeper.old)
            (K.seen keeper.new)) }
        ensures known { (s : State) → Agrees (K.seen keeper.old).kept self.old s
            → OnOk result (accepts_all s (pieces lines.now) ≡ false → self.new ≡ self.old) }
        ensures lists { (t : Timeline) → Remembers (K.seen keeper.old).kept self.old t
            → OnOk result
            (Remembers (K.seen keeper.new).kept self.new (batch_timeline t (pieces lines.now))) }
        ensures agrees { RemembersSome (K.seen keeper.new).kept self.new }
        ensures still { IsStill (K.seen keeper.new) }
        ensures never_fall { NeverFall (K.seen keeper.old) (K.seen keeper.new) }
        ensures cause { HasCause (K.seen keeper.old).faults
            (K.seen keeper.new).faults result StopError.Fault }
        ensures err { OnErr result (Unchanged (K.seen keeper.old) (K.seen keeper.new)) }
        ensures same { OnErr result (self.new ≡ self.old) }
    {
        match self.copied() {
            Ok(copy) => self.apply_by(keeper, copy, lines.as_slice()),
            Err(_) => Err(StopError::Memory),
        }
    }

    /// A copy of the session, with no changes to take back or make again.
    fn copied(&self) -> Result<Session, AllocError>
        ensures { IfOk result (λ copy. copy ≡ without_changes self.now) }
    {
        let catalog = self.catalog.try_clone(self.alloc)?;
        session_over(self.alloc, catalog, self.counts)
    }

    /// Applies lines by a copy of the session, which takes its place where none of them is refused.
    fn apply_by<K: Keeper>(
        &mut self,
        keeper: &mut K,
        mut copy: Session,
        lines: &[List<u8>],
    ) -> Result<BatchReply, StopError>
        requires still { IsStill (K.seen keeper.old) }
        requires agrees { RemembersSome (K.seen keeper.old).kept self.old }
        requires copy { copy ≡ without_changes self.old }
        requires few { length lines.now < 2 ^ 32 }
        ensures served { ServesBatch (pieces lines.now) self.old self.new (K.seen keeper.old)
            (K.seen keeper.new) result }
        ensures lists { (t : Timeline) → Remembers (K.seen keeper.old).kept self.old t
            → OnOk result
            (Remembers (K.seen keeper.new).kept self.new (batch_timeline t (pieces lines.now))) }
    {
        match begin(keeper) {
            Ok(()) => {}
            Err(stop) => return Err(stop),
        }
        let mut text = Vec::new(self.alloc);
        match copy.run_lines(keeper, lines, &mut text) {
            Ok(ran) => {
                let told = BatchReply {
                    accepted: ran.accepted,
                    refused: ran.refused,
                    text: List::from_vec(text),
                };
                self.close_batch(keeper, copy, told)
            }
            Err(stop) => Err(stop),
        }
    }

    /// Ends the transaction of a batch: it is undone where a line was refused, and else committed. Then the session knows what the copy
    /// knows, which ran the lines.
    fn close_batch<K: Keeper>(
        &mut self,
        keeper: &mut K,
        copy: Session,
        told: BatchReply,
    ) -> Result<BatchReply, StopError>
        requires running { (K.seen keeper.old).running ≡ true }
        ensures { ClosesBatch copy told self.old self.new (K.seen keeper.old) (K.seen keeper.new)
            result }
    {
        if told.refused {
            keeper.undo();
            return Ok(told);
        }
        match commit(keeper) {
            Ok(()) => {
                self.take_over(copy);
                Ok(told)
            }
            Err(stop) => Err(stop),
        }
    }

    /// Takes over what a copy of the session came to know by a batch. Where the batch changed the base, none of the changes before it
    /// can be taken back or made again.
    fn take_over(&mut self, copy: Session)
        ensures { self.new ≡ taken_over self.old copy }
    {
        let Session {
            catalog,
            counts,
            index,
            history,
            alloc: _,
        } = copy;
        self.catalog = catalog;
        self.counts = counts;
        self.index = index;
        if history.undos() > 0 {
            self.history.clear();
        }
    }

    /// Runs lines within a transaction up to the first that is refused, and puts the replies behind a text.
    fn run_lines<K: Keeper>(
        &mut self,
        keeper: &mut K,
        lines: &[List<u8>],
        text: &mut Vec<u8>,
    ) -> Result<Ran, StopError>
        requires running { (K.seen keeper.old).running ≡ true }
        requires agrees { AgreesOnSome (K.seen keeper.old).kept self.old }
        requires few { length lines.now < 2 ^ 32 }
        ensures run { (s : State) → Agrees (K.seen keeper.old).kept self.old s
            → IfOk result
            (λ ran. AreRun s (pieces lines.now) text.old.items text.new.items ran.accepted
            ran.refused self.new (K.seen keeper.new)) }
        ensures few { IfOk result (λ ran. ran.accepted ≤ length lines.now) }
        ensures altered { AlterSome (pieces lines.now) self.old self.new (K.seen keeper.old)
            result }
        ensures changing { IsChanging (K.seen keeper.old) (K.seen keeper.new)
            result StopError.Fault }
    {
        match lines {
            [] => Ok(Ran {
                accepted: 0,
                refused: false,
            }),
            [line, rest @ ..] => match self.run_line(keeper, line.as_slice(), text) {
                Ok(true) => match self.run_lines(keeper, rest, text) {
                    Ok(ran) => Ok(Ran {
                        accepted: ran.accepted + 1,
                        refused: ran.refused,
                    }),
                    Err(stop) => Err(stop),
                },
                Ok(false) => Ok(Ran {
                    accepted: 0,
                    refused: true,
                }),
                Err(stop) => Err(stop),
            },
        }
    }

    /// Runs a line within a transaction, and puts the reply behind a text. The answer tells whether it was accepted.
    fn run_line<K: Keeper>(
        &mut self,
        keeper: &mut K,
        line: &[u8],
        text: &mut Vec<u8>,
    ) -> Result<bool, StopError>
        requires running { (K.seen keeper.old).running ≡ true }
        requires agrees { AgreesOnSome (K.seen keeper.old).kept self.old }
        ensures run { (s : State) → Agrees (K.seen keeper.old).kept self.old s
            → IfOk result
            (λ accepted. IsRun s (Piece line.now) text.old.items text.new.items accepted self.new
            (K.seen keeper.new)) }
        ensures agrees { OnOk result (AgreesOnSome (K.seen keeper.new).kept self.new) }
        ensures altered { Alters (λ s. outcome_of s (Piece line.now)) self.old self.new
            (K.seen keeper.old) result }
        ensures changing { IsChanging (K.seen keeper.old) (K.seen keeper.new)
            result StopError.Fault }
    {
        let reply = match self.apply_within(keeper, line) {
            Ok(reply) => reply,
            Err(stop) => return Err(stop),
        };
        match text.extend_from_slice(reply.text.as_slice()) {
            Ok(()) => Ok(reply.accepted),
            Err(_) => {
                keeper.undo();
                Err(StopError::Memory)
            }
        }
    }

    /// Applies a piece within a running transaction, or refuses it. After a refusal tables and session agree on the state as it was, and the
    /// transaction still runs; after an Err none does.
    fn apply_within<K: Keeper>(&mut self, keeper: &mut K, piece: &[u8]) -> Result<Reply, StopError>
        requires running { (K.seen keeper.old).running ≡ true }
        requires agrees { AgreesOnSome (K.seen keeper.old).kept self.old }
        ensures told { TellsWithin (λ s. outcome_of s (Piece piece.now)) self.old self.new
            (K.seen keeper.old) (K.seen keeper.new) result }
        ensures altered { Alters (λ s. outcome_of s (Piece piece.now)) self.old self.new
            (K.seen keeper.old) result }
    {
        match read_piece(self.alloc, piece) {
            Ok(Reading::Nothing) => Ok(Reply::accepted(List::new(self.alloc))),
            Ok(Reading::Refused(refusal)) => self.refuse_within(keeper, &refusal),
            Ok(Reading::Says(command)) => self.carry_out_within(keeper, command),
            Err(_) => {
                keeper.undo();
                Err(StopError::Memory)
            }
        }
    }

    /// Carries out a command within a running transaction, or refuses it.
    fn carry_out_within<K: Keeper>(
        &mut self,
        keeper: &mut K,
        command: Command,
    ) -> Result<Reply, StopError>
        requires running { (K.seen keeper.old).running ≡ true }
        requires agrees { AgreesOnSome (K.seen keeper.old).kept self.old }
        requires allowed { is_allowed command ≡ true }
        ensures told { TellsWithin (λ s. command_outcome s command) self.old self.new
            (K.seen keeper.old) (K.seen keeper.new) result }
        ensures altered { Alters (λ s. command_outcome s command) self.old self.new
            (K.seen keeper.old) result }
    {
        match bind_by(self.alloc, &self.catalog, &self.index, command) {
            Ok(bound) => self.execute_within(keeper, bound),
            Err(error) => match refusal_from(error) {
                Some(refusal) => self.refuse_within(keeper, &refusal),
                None => {
                    keeper.undo();
                    Err(StopError::Memory)
                }
            },
        }
    }

    /// Carries out a bound command within a running transaction, or refuses it, and learns from it.
    fn execute_within<K: Keeper>(
        &mut self,
        keeper: &mut K,
        bound: Bound,
    ) -> Result<Reply, StopError>
        requires running { (K.seen keeper.old).running ≡ true }
        requires agrees { AgreesOnSome (K.seen keeper.old).kept self.old }
        requires fits { fits_catalog self.old.catalog bound ≡ true }
        ensures told { TellsWithin (λ s. bound_outcome s bound) self.old self.new
            (K.seen keeper.old) (K.seen keeper.new) result }
        ensures altered { Alters (λ s. bound_outcome s bound) self.old self.new (K.seen keeper.old)
            result }
    {
        let mut news = self.nothing_new();
        match self.step(keeper, &mut news, bound) {
            Ok(told) => {
                self.learn(news);
                Ok(told)
            }
            Err(stop) => Err(stop),
        }
    }
}
