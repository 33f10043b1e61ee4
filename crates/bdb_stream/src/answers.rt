// How a session handles the pieces of a script.
ghost use Rattle.std.specs.Prelude.{◌<◌, ◌≤◌, ◌+◌, IfSome, OnOk, OnErr, IsErrOf, length};
ghost use Rattle.std.specs.Io.KnownBytes.{IsAtEnd};
ghost use Rattle.bdb_base.specs.Causes.{Rose, Rises, RisesOver, RisesWithin, HasCause};
ghost use Rattle.bdb_base.specs.Limits.{longest_script};
ghost use Rattle.bdb_io.specs.Failure.{failed};
ghost use Rattle.bdb_io.specs.Pieces.{WritesPiece};
ghost use Rattle.bdb_keep.specs.Seen.{IsStill, NeverFall};
ghost use Rattle.bdb_session.specs.Known.{Remembers, RemembersSome};
ghost use Rattle.bdb_session.specs.declared.event.ScriptEvent.TheVariants as event;
ghost use Rattle.bdb_undo.specs.Timelines.{Timeline};
ghost use Rattle.bdb_stream.specs.Carried.{by_session, session_in_order};
ghost use Rattle.bdb_stream.specs.Handled.{TellsAnswer};
ghost use Rattle.bdb_stream.specs.Streams.{Streams};
ghost use Rattle.bdb_stream.specs.Told.{TellsReply};

use crate::error::RunError;
use crate::handler::Handler;
use crate::stream::carry_out;
use bdb_io::{Failed, Sink, Source};
use bdb_keep::Keeper;
use bdb_lex::{Piece, Rest};
use bdb_session::{Reply, ScriptEvent, Session, StopError};
use std::alloc::Global;

/// Carries out the script that a source gives, each command as soon as the bytes are read in which it ends. Ok tells
/// whether each was accepted.
pub fn carry_out_script<S: Source, O: Sink, K: Keeper>(
    alloc: Global,
    script: &mut S,
    session: &mut Session,
    keeper: &mut K,
    out: &mut O,
) -> Result<bool, RunError>
    requires still { IsStill (K.seen keeper.old) }
    requires agrees { RemembersSome (K.seen keeper.old).kept session.old }
    ensures streams { (s : Timeline) → Remembers (K.seen keeper.old).kept session.old s
        → Streams s (S.left script.old) (S.left script.new) session.new (K.seen keeper.old)
        (K.seen keeper.new) (O.written out.old) (O.written out.new) result }
    ensures end { OnOk result (IsAtEnd (S.left script.new)) }
    ensures short { OnOk result
        (IfSome (S.left script.old) (λ text. length text ≤ longest_script)) }
    ensures still { IsStill (K.seen keeper.new) }
    ensures agrees { RemembersSome (K.seen keeper.new).kept session.new }
    ensures source { IsErrOf result RunError.Source
        → Rose (S.faults script.old) (S.faults script.new) }
    ensures sink { IsErrOf result RunError.Sink → Rose (O.faults out.old) (O.faults out.new) }
    ensures keeper { IsErrOf result RunError.Keeper → Rose (K.seen keeper.old).faults
        (K.seen keeper.new).faults }
    ensures large { IsErrOf result RunError.Large → RisesOver longest_script (S.given script.old)
        (S.given script.new) }
    ensures many { IsErrOf result RunError.Large → IfSome (S.left script.old)
        (λ text. longest_script < length text) }
    ensures within { (IsErrOf result RunError.Large → ⊥)
        → RisesWithin longest_script (S.given script.old) (S.given script.new) }
    ensures one_more { IsErrOf result RunError.Large
        → Rises (longest_script + 1) (S.given script.old) (S.given script.new) }
    ensures source_faults { S.faults script.old ≤ S.faults script.new }
    ensures source_given { S.given script.old ≤ S.given script.new }
    ensures sink_count { O.faults out.old ≤ O.faults out.new }
    ensures keeper_counts { NeverFall (K.seen keeper.old) (K.seen keeper.new) }
{
    match carry_out(alloc, script, session, keeper, out) {
        Ok(accepted) => Ok(accepted),
        Err(stop) => Err(stop),
    }
}

impl Handler for Session {
    ghost handling = { by_session };

    fn answer_piece<O: Sink, K: Keeper>(
        &mut self,
        keeper: &mut K,
        out: &mut O,
        piece: &Piece<'_>,
    ) -> Result<bool, RunError> {
        match piece {
            Piece::Cmd(bytes) => match answer_command(self, keeper, out, bytes.as_slice()) {
                Ok(accepted) => Ok(accepted),
                Err(stop) => Err(stop),
            },
            Piece::Long => match answer(self, keeper, out, &ScriptEvent::Long) {
                Ok(accepted) => Ok(accepted),
                Err(stop) => Err(stop),
            },
        }
    }

    fn answer_rest<O: Sink, K: Keeper>(
        &mut self,
        keeper: &mut K,
        out: &mut O,
        rest: Rest,
    ) -> Result<bool, RunError> {
        match rest {
            Rest::Nothing => Ok(true),
            Rest::Unfinished => match answer(self, keeper, out, &ScriptEvent::Unfinished) {
                Ok(accepted) => Ok(accepted),
                Err(stop) => Err(stop),
            },
        }
    }

    ghost in_order = { session_in_order };
}

/// Answers an event, and writes the reply.
fn answer<O: Sink, K: Keeper>(
    session: &mut Session,
    keeper: &mut K,
    out: &mut O,
    event: &ScriptEvent,
) -> Result<bool, RunError>
    requires still { IsStill (K.seen keeper.old) }
    requires agrees { RemembersSome (K.seen keeper.old).kept session.old }
    ensures answered { (s : Timeline) → Remembers (K.seen keeper.old).kept session.old s
        → TellsAnswer by_session s event.now session.new (K.seen keeper.old) (K.seen keeper.new)
        (O.written out.old) (O.written out.new) result }
    ensures still { IsStill (K.seen keeper.new) }
    ensures agrees { RemembersSome (K.seen keeper.new).kept session.new }
    ensures never_fall { NeverFall (K.seen keeper.old) (K.seen keeper.new) }
    ensures keeper { HasCause (K.seen keeper.old).faults
        (K.seen keeper.new).faults result RunError.Keeper }
    ensures later { O.faults out.old ≤ O.faults out.new }
    ensures sink { IsErrOf result RunError.Sink → Rose (O.faults out.old) (O.faults out.new) }
    ensures source { OnErr result (IsErrOf result RunError.Source → ⊥) }
    ensures large { OnErr result (IsErrOf result RunError.Large → ⊥) }
{
    let reply = session.answer(keeper, event);
    match tell(out, reply) {
        Ok(accepted) => Ok(accepted),
        Err(stop) => Err(stop),
    }
}

/// Answers a piece of these bytes, and writes the reply.
fn answer_command<O: Sink, K: Keeper>(
    session: &mut Session,
    keeper: &mut K,
    out: &mut O,
    bytes: &[u8],
) -> Result<bool, RunError>
    requires still { IsStill (K.seen keeper.old) }
    requires agrees { RemembersSome (K.seen keeper.old).kept session.old }
    ensures answered { (s : Timeline) → Remembers (K.seen keeper.old).kept session.old s
        → TellsAnswer by_session s (event.Piece bytes.now) session.new (K.seen keeper.old)
        (K.seen keeper.new) (O.written out.old) (O.written out.new) result }
    ensures still { IsStill (K.seen keeper.new) }
    ensures agrees { RemembersSome (K.seen keeper.new).kept session.new }
    ensures never_fall { NeverFall (K.seen keeper.old) (K.seen keeper.new) }
    ensures keeper { HasCause (K.seen keeper.old).faults
        (K.seen keeper.new).faults result RunError.Keeper }
    ensures later { O.faults out.old ≤ O.faults out.new }
    ensures sink { IsErrOf result RunError.Sink → Rose (O.faults out.old) (O.faults out.new) }
    ensures source { OnErr result (IsErrOf result RunError.Source → ⊥) }
    ensures large { OnErr result (IsErrOf result RunError.Large → ⊥) }
{
    let reply = session.apply(keeper, bytes);
    match tell(out, reply) {
        Ok(accepted) => Ok(accepted),
        Err(stop) => Err(stop),
    }
}

/// Writes what a session answered, and tells whether that was accepted.
fn tell<O: Sink>(out: &mut O, reply: Result<Reply, StopError>) -> Result<bool, RunError>
    ensures told { TellsReply reply (O.written out.old) (O.written out.new) result }
    ensures keeper { IsErrOf result RunError.Keeper → IsErrOf reply StopError.Fault }
    ensures later { O.faults out.old ≤ O.faults out.new }
    ensures sink { IsErrOf result RunError.Sink → Rose (O.faults out.old) (O.faults out.new) }
    ensures source { OnErr result (IsErrOf result RunError.Source → ⊥) }
    ensures large { OnErr result (IsErrOf result RunError.Large → ⊥) }
{
    let reply = match reply {
        Ok(reply) => reply,
        Err(StopError::Fault) => return Err(RunError::Keeper),
        Err(StopError::Memory) => return Err(RunError::Memory),
    };
    match write_reply(out, reply.text.as_slice()) {
        Ok(()) => Ok(reply.accepted),
        Err(_) => Err(RunError::Sink),
    }
}

/// Writes a reply, where it isn't empty.
fn write_reply<O: Sink>(out: &mut O, text: &[u8]) -> Result<(), Failed>
    ensures written { WritesPiece (O.written out.old) (O.written out.new) result text.now }
    ensures cause { HasCause (O.faults out.old) (O.faults out.new) result failed }
{
    if text.is_empty() {
        return Ok(());
    }
    match out.write_all(text) {
        Ok(()) => Ok(()),
        Err(Failed) => Err(Failed),
    }
}
