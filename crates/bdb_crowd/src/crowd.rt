// What is at hand for a stream of sessions, and answering its pieces.
ghost use Rattle.std.specs.Prelude.{◌<◌, ◌≤◌, ◌≡◌, OnErr, IsErrOf};
ghost use Rattle.bdb_base.specs.Causes.{Rose, HasCause};
ghost use Rattle.bdb_events.specs.Forms.{NamesSession};
ghost use Rattle.bdb_events.specs.declared.read.Read.{Read};
ghost use Rattle.bdb_keep.specs.Seen.{IsStill, NeverFall};
ghost use Rattle.bdb_keep.specs.Tables.{Tables};
ghost use Rattle.bdb_multi.specs.Sessions.{sessions};
ghost use Rattle.bdb_session.specs.Known.{Agrees, RemembersSome};
ghost use Rattle.bdb_session.specs.Outcome.{State};

use crate::acts::{answer_act, tell, tell_error};
use bdb_events::{Read, event_of};
use bdb_io::Sink;
use bdb_keep::Keeper;
use bdb_lex::{Piece, Rest};
use bdb_multi::{Desk, Line};
use bdb_session::Session;
use bdb_stream::{Handler, RunError};
use std::alloc::Global;
use std::marker::Model;

/// The session over the base, and the batches that wait. Contracts see what the session knows, and for each number of a session the
/// commands that wait.
#[derive(Drop)]
pub struct Crowd {
    session: Session,
    desk: Desk,
    alloc: Global,
}

impl Model for Crowd {
    ghost use Rattle.std.specs.Prelude.{◌≡◌};
    ghost use Rattle.bdb_crowd.specs.Carried.{AtHand};

    ghost Value = { AtHand };

    ghost view = { λ c. record { session = c.session; slots = c.desk } };

    ghost invariant = { λ _. Unit {0} };
}

ghost use Rattle.bdb_crowd.specs.Asked.{Point, piece, start_at};
ghost use Rattle.bdb_crowd.specs.Carried.{IsAt, IsAtSome, TellsAnswer, by_crowd, crowd_in_order};

impl Crowd {
    /// A stream that has not begun, over the base of a session: no batch is open. It takes no memory.
    pub fn new(alloc: Global, session: Session) -> Self
        ensures session { result.session ≡ session }
        ensures starts { (t : Tables) (s : State) → Agrees t session s
            → IsAt t result (start_at s) }
        ensures some { (t : Tables) → RemembersSome t session → IsAtSome t result }
    {
        Crowd {
            session,
            desk: Desk::new(alloc),
            alloc,
        }
    }

    /// Answers what a piece is, and writes the reply.
    fn answer_read<O: Sink, K: Keeper>(
        &mut self,
        keeper: &mut K,
        out: &mut O,
        read: Read,
    ) -> Result<bool, RunError>
        requires still { IsStill (K.seen keeper.old) }
        requires at { IsAtSome (K.seen keeper.old).kept self.old }
        requires names { NamesSession read }
        ensures answered { (p : Point) → IsAt (K.seen keeper.old).kept self.old p
            → TellsAnswer p (piece read) self.new (K.seen keeper.old) (K.seen keeper.new)
            (O.written out.old) (O.written out.new) result }
        ensures still { IsStill (K.seen keeper.new) }
        ensures agrees { RemembersSome (K.seen keeper.new).kept self.new.session }
        ensures never_fall { NeverFall (K.seen keeper.old) (K.seen keeper.new) }
        ensures keeper { HasCause (K.seen keeper.old).faults
            (K.seen keeper.new).faults result RunError.Keeper }
        ensures later { O.faults out.old ≤ O.faults out.new }
        ensures sink { IsErrOf result RunError.Sink → Rose (O.faults out.old) (O.faults out.new) }
        ensures source { OnErr result (IsErrOf result RunError.Source → ⊥) }
        ensures large { OnErr result (IsErrOf result RunError.Large → ⊥) }
    {
        match read {
            Read::Nothing => Ok(true),
            Read::Long => tell_error(out, b"error long\n"),
            Read::NoSession => tell_error(out, b"error session\n"),
            Read::NoLine(number) => tell(out, number, b"error line\n", false),
            Read::Event(event) => self.answer_event(keeper, out, event.session, event.line),
        }
    }

    /// Answers a line of a session, and writes the reply.
    fn answer_event<O: Sink, K: Keeper>(
        &mut self,
        keeper: &mut K,
        out: &mut O,
        number: u8,
        line: Line,
    ) -> Result<bool, RunError>
        requires still { IsStill (K.seen keeper.old) }
        requires at { IsAtSome (K.seen keeper.old).kept self.old }
        requires number { number < sessions }
        ensures answered { (p : Point) → IsAt (K.seen keeper.old).kept self.old p
            → TellsAnswer p (piece (Read.Event (record { session = number; line = line }))) self.new
            (K.seen keeper.old) (K.seen keeper.new) (O.written out.old) (O.written out.new) result }
        ensures still { IsStill (K.seen keeper.new) }
        ensures agrees { RemembersSome (K.seen keeper.new).kept self.new.session }
        ensures never_fall { NeverFall (K.seen keeper.old) (K.seen keeper.new) }
        ensures keeper { HasCause (K.seen keeper.old).faults
            (K.seen keeper.new).faults result RunError.Keeper }
        ensures later { O.faults out.old ≤ O.faults out.new }
        ensures sink { IsErrOf result RunError.Sink → Rose (O.faults out.old) (O.faults out.new) }
        ensures source { OnErr result (IsErrOf result RunError.Source → ⊥) }
        ensures large { OnErr result (IsErrOf result RunError.Large → ⊥) }
    {
        match self.desk.step(number, line) {
            Ok(act) => answer_act(self.alloc, &mut self.session, keeper, out, number, act),
            Err(_) => Err(RunError::Memory),
        }
    }
}

/// A command outside a batch is run at once, a command within waits, and a commit runs those that wait, all in one transaction or none.
/// What still waits at the end is dropped. After an Err the crowd isn't to be asked again: what waited of a batch that was not committed
/// may be gone.
impl Handler for Crowd {
    ghost handling = { by_crowd };

    fn answer_piece<O: Sink, K: Keeper>(
        &mut self,
        keeper: &mut K,
        out: &mut O,
        piece: &Piece<'_>,
    ) -> Result<bool, RunError> {
        match event_of(self.alloc, piece) {
            Ok(read) => self.answer_read(keeper, out, read),
            Err(_) => Err(RunError::Memory),
        }
    }

    fn answer_rest<O: Sink, K: Keeper>(
        &mut self,
        _keeper: &mut K,
        out: &mut O,
        rest: Rest,
    ) -> Result<bool, RunError> {
        match rest {
            Rest::Nothing => Ok(true),
            Rest::Unfinished => tell_error(out, b"error unfinished\n"),
        }
    }

    ghost in_order = { crowd_in_order };
}
