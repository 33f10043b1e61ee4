// The session: what it knows of the stored base, and the commands that it carries out.
ghost use Rattle.std.specs.Prelude.{◌≡◌, ℕ, List, length, IfOk, OnOk, OnErr, true, false, is_none};
ghost use Rattle.bdb_base.specs.Causes.{HasCause, Rises};
ghost use Rattle.bdb_keep.specs.Seen.{IsStill, NeverFall, Unchanged};
ghost use Rattle.bdb_session.specs.declared.event.ScriptEvent.TheVariants as event;
ghost use Rattle.bdb_session.specs.declared.event.ScriptEvent.TheVariants.{Piece};
ghost use Rattle.bdb_session.specs.declared.reading.Reading.TheVariants as reading;

use crate::course::{Course, course_of};
use crate::error::StopError;
use crate::event::ScriptEvent;
use crate::reading::{Reading, read_piece, says_nothing};
use crate::refusals::refusal_from;
use crate::reply::Reply;
use bdb_base::{Catalog, List};
use bdb_bind::{NameIndex, bind_by};
use bdb_canon::Counts;
use bdb_keep::Keeper;
use bdb_render::{Refusal, refusal_reply};
use bdb_syntax::Command;
use bdb_undo::History;
use std::alloc::Global;
use std::marker::Model;

/// A session: the relations, users and sizes of the base that a keeper's tables store, and the last changes, which can be taken back
/// and made again. Contracts see it as what it knows.
#[derive(Drop)]
pub struct Session {
    pub(crate) catalog: Catalog,
    pub(crate) counts: Counts,
    pub(crate) index: NameIndex,
    pub(crate) history: History,
    pub(crate) alloc: Global,
}

impl Model for Session {
    ghost use Rattle.std.specs.Prelude.{◌≡◌};
    ghost use Rattle.bdb_session.specs.Known.{Known};

    ghost Value = { Known };

    ghost view = { λ s. record { catalog = s.catalog; counts = s.counts; history = s.history } };

    ghost invariant = { λ _. Unit {0} };
}

ghost use Rattle.bdb_bind.specs.Fits.{is_allowed};
ghost use Rattle.bdb_bind.specs.Refusal.{refusal_of};
ghost use Rattle.bdb_syntax.specs.declared.command.Command.{Command};
ghost use Rattle.bdb_session.specs.Bounds.{CommandReads, CommandWrites, RefusedUnwritten, asks_keeper};
ghost use Rattle.bdb_session.specs.Following.{Follows, FollowsEvent, Moves, said_next, said_outcome};
ghost use Rattle.bdb_session.specs.Known.{AgreesOnSome, Remembers, RemembersSome};
ghost use Rattle.bdb_session.specs.Machine.{command_outcome};
ghost use Rattle.bdb_session.specs.Outcome.{Refused};
ghost use Rattle.bdb_session.specs.Reading.{reading_of};
ghost use Rattle.bdb_session.specs.Served.{AnswersAlone, Serves};
ghost use Rattle.bdb_session.specs.Undoing.{reply_of, accepts, answers_to, next_state, counts};
ghost use Rattle.bdb_undo.specs.Timelines.{Timeline};

impl Session {
    /// The relations and users of the base.
    pub fn catalog(&self) -> &Catalog
        ensures { result.now ≡ self.now.catalog }
    {
        &self.catalog
    }

    /// How large the base is: its worlds, different tuples and statements, and the rows of its worlds.
    pub fn counts(&self) -> &Counts
        ensures { result.now ≡ self.now.counts }
    {
        &self.counts
    }

    /// How many changes can be taken back.
    pub fn undos(&self) -> u32
        ensures { result ≡ length self.now.history.undos }
    {
        self.history.undos() as u32
    }

    /// How many changes can be made again.
    pub fn redos(&self) -> u32
        ensures { result ≡ length self.now.history.redos }
    {
        self.history.redos() as u32
    }

    /// Answers a piece of a script, over the tables with which the session agrees: the reply is that of the belief machine with undo
    /// and redo over the base that they agree on, and afterwards they agree on the base that the machine reaches; and of the bases
    /// before and ahead the session's history stands for those that the machine then has. An accepted piece with a token is
    /// committed once; after a refused one rows and commits are as they were, and nothing was written. A piece without tokens
    /// leaves the keeper alone, and so does what is refused as it is read or bound. After an Err the session and the tables are as
    /// they were. How often is read to show a world or answer a query, and written to add, take away or change
    /// statements, is bounded.
    pub fn apply<K: Keeper>(&mut self, keeper: &mut K, piece: &[u8]) -> Result<Reply, StopError>
        requires still { IsStill (K.seen keeper.old) }
        requires agrees { RemembersSome (K.seen keeper.old).kept self.old }
        ensures text { (t : Timeline) → Remembers (K.seen keeper.old).kept self.old t
            → IfOk result (λ r. r.text ≡ reply_of t (event.Piece piece.now)) }
        ensures accepted { (t : Timeline) → Remembers (K.seen keeper.old).kept self.old t
            → IfOk result (λ r. r.accepted ≡ accepts t (event.Piece piece.now)) }
        ensures answers { (t : Timeline) → Remembers (K.seen keeper.old).kept self.old t
            → IfOk result (λ r. r.answers ≡ answers_to t (event.Piece piece.now)) }
        ensures next { (t : Timeline) → Remembers (K.seen keeper.old).kept self.old t
            → OnOk result
            (Remembers (K.seen keeper.new).kept self.new (next_state t (event.Piece piece.now))) }
        ensures commits { (t : Timeline) → Remembers (K.seen keeper.old).kept self.old t
            → OnOk result (Rises (counts t (event.Piece piece.now)) (K.seen keeper.old).commits
            (K.seen keeper.new).commits) }
        ensures alone { (t : Timeline) → Remembers (K.seen keeper.old).kept self.old t
            → OnOk result (counts t (event.Piece piece.now) ≡ 0 → Unchanged (K.seen keeper.old)
            (K.seen keeper.new)) }
        ensures agrees { RemembersSome (K.seen keeper.new).kept self.new }
        ensures untouched { reading_of piece.now ≡ reading.Nothing → keeper.new ≡ keeper.old }
        ensures still { IsStill (K.seen keeper.new) }
        ensures never_fall { NeverFall (K.seen keeper.old) (K.seen keeper.new) }
        ensures cause { HasCause (K.seen keeper.old).faults
            (K.seen keeper.new).faults result StopError.Fault }
        ensures err { OnErr result (Unchanged (K.seen keeper.old) (K.seen keeper.new)) }
        ensures same { OnErr result (self.new ≡ self.old) }
        ensures reads { (c : Command) → reading_of piece.now ≡ reading.Says c
            → CommandReads c self.old (K.seen keeper.old) (K.seen keeper.new) result }
        ensures writes { (c : Command) → reading_of piece.now ≡ reading.Says c
            → CommandWrites c self.old (K.seen keeper.old) (K.seen keeper.new) result }
        ensures unwritten { RefusedUnwritten (K.seen keeper.old) (K.seen keeper.new) result }
        ensures spared { asks_keeper self.old.catalog (event.Piece piece.now) ≡ false
            → keeper.new ≡ keeper.old }
    {
        self.respond(keeper, piece)
    }

    /// Answers an event of a script: a piece as `apply` does; a piece that is too long, and a rest that no semicolon
    /// ended, are refused, and leave the keeper alone.
    pub fn answer<K: Keeper>(
        &mut self,
        keeper: &mut K,
        event: &ScriptEvent,
    ) -> Result<Reply, StopError>
        requires still { IsStill (K.seen keeper.old) }
        requires agrees { RemembersSome (K.seen keeper.old).kept self.old }
        ensures text { (t : Timeline) → Remembers (K.seen keeper.old).kept self.old t
            → IfOk result (λ r. r.text ≡ reply_of t event.now) }
        ensures accepted { (t : Timeline) → Remembers (K.seen keeper.old).kept self.old t
            → IfOk result (λ r. r.accepted ≡ accepts t event.now) }
        ensures answers { (t : Timeline) → Remembers (K.seen keeper.old).kept self.old t
            → IfOk result (λ r. r.answers ≡ answers_to t event.now) }
        ensures next { (t : Timeline) → Remembers (K.seen keeper.old).kept self.old t
            → OnOk result (Remembers (K.seen keeper.new).kept self.new (next_state t event.now)) }
        ensures commits { (t : Timeline) → Remembers (K.seen keeper.old).kept self.old t
            → OnOk result
            (Rises (counts t event.now) (K.seen keeper.old).commits (K.seen keeper.new).commits) }
        ensures alone { (t : Timeline) → Remembers (K.seen keeper.old).kept self.old t
            → OnOk result
            (counts t event.now ≡ 0 → Unchanged (K.seen keeper.old) (K.seen keeper.new)) }
        ensures untouched { (bytes : List ℕ) → event.now ≡ Piece bytes → reading_of bytes
            ≡ reading.Nothing → keeper.new ≡ keeper.old }
        ensures reads { (bytes : List ℕ) (c : Command) → event.now ≡ Piece bytes → reading_of bytes
            ≡ reading.Says c → CommandReads c self.old (K.seen keeper.old) (K.seen keeper.new)
            result }
        ensures writes { (bytes : List ℕ) (c : Command) → event.now ≡ Piece bytes → reading_of bytes
            ≡ reading.Says c → CommandWrites c self.old (K.seen keeper.old) (K.seen keeper.new)
            result }
        ensures unwritten { RefusedUnwritten (K.seen keeper.old) (K.seen keeper.new) result }
        ensures spared { asks_keeper self.old.catalog event.now ≡ false → keeper.new ≡ keeper.old }
        ensures agrees { RemembersSome (K.seen keeper.new).kept self.new }
        ensures still { IsStill (K.seen keeper.new) }
        ensures never_fall { NeverFall (K.seen keeper.old) (K.seen keeper.new) }
        ensures cause { HasCause (K.seen keeper.old).faults
            (K.seen keeper.new).faults result StopError.Fault }
        ensures err { OnErr result (Unchanged (K.seen keeper.old) (K.seen keeper.new)) }
        ensures same { OnErr result (self.new ≡ self.old) }
    {
        self.respond_to(keeper, event)
    }

    /// Answers a piece of a script, with one promise for all that comes of it.
    fn respond<K: Keeper>(&mut self, keeper: &mut K, piece: &[u8]) -> Result<Reply, StopError>
        requires still { IsStill (K.seen keeper.old) }
        requires agrees { RemembersSome (K.seen keeper.old).kept self.old }
        ensures followed { FollowsEvent (event.Piece piece.now) self.old self.new
            (K.seen keeper.old) (K.seen keeper.new) result }
        ensures untouched { reading_of piece.now ≡ reading.Nothing → keeper.new ≡ keeper.old }
        ensures reads { (c : Command) → reading_of piece.now ≡ reading.Says c
            → CommandReads c self.old (K.seen keeper.old) (K.seen keeper.new) result }
        ensures writes { (c : Command) → reading_of piece.now ≡ reading.Says c
            → CommandWrites c self.old (K.seen keeper.old) (K.seen keeper.new) result }
        ensures unwritten { RefusedUnwritten (K.seen keeper.old) (K.seen keeper.new) result }
        ensures spared { asks_keeper self.old.catalog (event.Piece piece.now) ≡ false
            → keeper.new ≡ keeper.old }
    {
        if says_nothing(piece) {
            return Ok(Reply::accepted(List::new(self.alloc)));
        }
        match read_piece(self.alloc, piece) {
            Ok(Reading::Nothing) => Ok(Reply::accepted(List::new(self.alloc))),
            Ok(Reading::Refused(refusal)) => self.refuse(&refusal),
            Ok(Reading::Says(command)) => self.follow(keeper, command),
            Err(_) => Err(StopError::Memory),
        }
    }

    /// Answers an event of a script, with one promise for all that comes of it.
    fn respond_to<K: Keeper>(
        &mut self,
        keeper: &mut K,
        event: &ScriptEvent,
    ) -> Result<Reply, StopError>
        requires still { IsStill (K.seen keeper.old) }
        requires agrees { RemembersSome (K.seen keeper.old).kept self.old }
        ensures followed { FollowsEvent event.now self.old self.new (K.seen keeper.old)
            (K.seen keeper.new) result }
        ensures untouched { (bytes : List ℕ) → event.now ≡ Piece bytes → reading_of bytes
            ≡ reading.Nothing → keeper.new ≡ keeper.old }
        ensures reads { (bytes : List ℕ) (c : Command) → event.now ≡ Piece bytes → reading_of bytes
            ≡ reading.Says c → CommandReads c self.old (K.seen keeper.old) (K.seen keeper.new)
            result }
        ensures writes { (bytes : List ℕ) (c : Command) → event.now ≡ Piece bytes → reading_of bytes
            ≡ reading.Says c → CommandWrites c self.old (K.seen keeper.old) (K.seen keeper.new)
            result }
        ensures unwritten { RefusedUnwritten (K.seen keeper.old) (K.seen keeper.new) result }
        ensures spared { asks_keeper self.old.catalog event.now ≡ false → keeper.new ≡ keeper.old }
    {
        match event {
            ScriptEvent::Piece(bytes) => self.respond(keeper, bytes.as_slice()),
            ScriptEvent::Long => self.refuse(&Refusal::Long),
            ScriptEvent::Unfinished => self.refuse(&Refusal::Unfinished),
        }
    }

    /// The reply to what is refused. The only error is running out of memory.
    pub(crate) fn refuse(&self, refusal: &Refusal) -> Result<Reply, StopError>
        ensures { AnswersAlone self.now.catalog (Refused refusal.now) result }
    {
        match refusal_reply(self.alloc, &self.catalog, refusal) {
            Ok(text) => Ok(Reply::refused(text)),
            Err(_) => Err(StopError::Memory),
        }
    }

    /// Carries out a command by its course, or refuses it: undo and redo go along the bases of the history, all others onward.
    fn follow<K: Keeper>(&mut self, keeper: &mut K, command: Command) -> Result<Reply, StopError>
        requires still { IsStill (K.seen keeper.old) }
        requires agrees { RemembersSome (K.seen keeper.old).kept self.old }
        requires allowed { is_allowed command ≡ true }
        ensures served { Follows (said_outcome command) (said_next command) self.old self.new
            (K.seen keeper.old) (K.seen keeper.new) result }
        ensures reads { CommandReads command self.old (K.seen keeper.old) (K.seen keeper.new)
            result }
        ensures writes { CommandWrites command self.old (K.seen keeper.old) (K.seen keeper.new)
            result }
        ensures unwritten { RefusedUnwritten (K.seen keeper.old) (K.seen keeper.new) result }
        ensures spared { is_none (refusal_of self.old.catalog command) ≡ false
            → keeper.new ≡ keeper.old }
    {
        match course_of(&command) {
            Course::Back => self.undo(keeper),
            Course::Forth => self.redo(keeper),
            Course::Onward => self.carry_out(keeper, command),
        }
    }

    /// Carries out a command over the base held, or refuses it.
    fn carry_out<K: Keeper>(&mut self, keeper: &mut K, command: Command) -> Result<Reply, StopError>
        requires still { IsStill (K.seen keeper.old) }
        requires agrees { AgreesOnSome (K.seen keeper.old).kept self.old }
        requires allowed { is_allowed command ≡ true }
        ensures served { Serves (λ s. command_outcome s command) self.old self.new
            (K.seen keeper.old) (K.seen keeper.new) result }
        ensures remembers { Moves (λ s. command_outcome s command) self.old self.new
            (K.seen keeper.old) (K.seen keeper.new) result }
        ensures reads { CommandReads command self.old (K.seen keeper.old) (K.seen keeper.new)
            result }
        ensures writes { CommandWrites command self.old (K.seen keeper.old) (K.seen keeper.new)
            result }
        ensures unwritten { RefusedUnwritten (K.seen keeper.old) (K.seen keeper.new) result }
        ensures spared { is_none (refusal_of self.old.catalog command) ≡ false
            → keeper.new ≡ keeper.old }
    {
        match bind_by(self.alloc, &self.catalog, &self.index, command) {
            Ok(bound) => self.execute(keeper, bound),
            Err(error) => match refusal_from(error) {
                Some(refusal) => self.refuse(&refusal),
                None => Err(StopError::Memory),
            },
        }
    }
}
