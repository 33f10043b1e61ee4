// Answering the acts of a stream of sessions.
ghost use Rattle.std.specs.Prelude.{◌<◌, ◌≤◌, ◌++◌, ℕ, false, length, IfOk, OnErr, IsErrOf};
ghost use Rattle.bdb_base.specs.Causes.{Rose, HasCause};
ghost use Rattle.bdb_io.specs.Failure.{failed};
ghost use Rattle.bdb_io.specs.Pieces.{WritesPiece};
ghost use Rattle.bdb_keep.specs.Seen.{IsStill, NeverFall};
ghost use Rattle.bdb_many.specs.Labels.{label, labelled};
ghost use Rattle.bdb_multi.specs.declared.kinds.Act.TheVariants.{One, Batch};
ghost use Rattle.bdb_multi.specs.Sessions.{most_queued, sessions};
ghost use Rattle.bdb_session.specs.Known.{Agrees, RemembersSome};
ghost use Rattle.bdb_session.specs.Outcome.{State};
ghost use Rattle.bdb_crowd.specs.Due.{IsDone, IsRunBy, IsTextTold, IsWaiting, due_to, end_line};

use crate::write::{write_count, write_labelled, write_line};
use bdb_base::{Lines, List};
use bdb_io::{Failed, Sink};
use bdb_keep::Keeper;
use bdb_multi::Act;
use bdb_session::{BatchReply, Session, StopError};
use bdb_stream::RunError;
use std::alloc::Global;

/// Answers an act of a session: what is to be run is run, and its reply is written in parts. Ok tells whether the reply has no line that
/// tells an error.
pub fn answer_act<O: Sink, K: Keeper>(
    alloc: Global,
    session: &mut Session,
    keeper: &mut K,
    out: &mut O,
    number: u8,
    act: Act,
) -> Result<bool, RunError>
    requires still { IsStill (K.seen keeper.old) }
    requires agrees { RemembersSome (K.seen keeper.old).kept session.old }
    requires number { number < sessions }
    requires few { IsWaiting act }
    ensures done { (s : State) → Agrees (K.seen keeper.old).kept session.old s
        → IsDone s (due_to s number act) session.new (K.seen keeper.old) (K.seen keeper.new)
        (O.written out.old) (O.written out.new) result }
    ensures still { IsStill (K.seen keeper.new) }
    ensures agrees { RemembersSome (K.seen keeper.new).kept session.new }
    ensures never_fall { NeverFall (K.seen keeper.old) (K.seen keeper.new) }
    ensures keeper { HasCause (K.seen keeper.old).faults
        (K.seen keeper.new).faults result RunError.Keeper }
    ensures later { O.faults out.old ≤ O.faults out.new }
    ensures sink { IsErrOf result RunError.Sink → Rose (O.faults out.old) (O.faults out.new) }
    ensures source { OnErr result (IsErrOf result RunError.Source → ⊥) }
    ensures large { OnErr result (IsErrOf result RunError.Large → ⊥) }
{
    match act {
        Act::Begun => tell(out, number, b"begun\n", true),
        Act::Queued => tell(out, number, b"queued\n", true),
        Act::Aborted => tell(out, number, b"aborted\n", true),
        Act::ErrBegun => tell(out, number, b"error begun\n", false),
        Act::ErrNotBegun => tell(out, number, b"error not begun\n", false),
        Act::ErrBatch => tell(out, number, b"error batch\n", false),
        Act::One(command) => run_one(alloc, session, keeper, out, number, command),
        Act::Batch(commands) => run_batch(session, keeper, out, number, &commands),
    }
}

/// Writes a line of a session. Ok tells whether it tells no error.
pub fn tell<O: Sink>(out: &mut O, number: u8, line: &[u8], fine: bool) -> Result<bool, RunError>
    requires { number < sessions }
    ensures told { IsTextTold (label number ++ line.now) fine (O.written out.old)
        (O.written out.new) result }
    ensures later { O.faults out.old ≤ O.faults out.new }
    ensures sink { IsErrOf result RunError.Sink → Rose (O.faults out.old) (O.faults out.new) }
    ensures source { OnErr result (IsErrOf result RunError.Source → ⊥) }
    ensures large { OnErr result (IsErrOf result RunError.Large → ⊥) }
    ensures keeper { (n : ℕ) → HasCause n n result RunError.Keeper }
{
    match write_line(out, number, line) {
        Ok(()) => Ok(fine),
        Err(Failed) => Err(RunError::Sink),
    }
}

/// Writes a line that tells an error, of no session.
pub fn tell_error<O: Sink>(out: &mut O, line: &[u8]) -> Result<bool, RunError>
    ensures told { IsTextTold line.now false (O.written out.old) (O.written out.new) result }
    ensures later { O.faults out.old ≤ O.faults out.new }
    ensures sink { IsErrOf result RunError.Sink → Rose (O.faults out.old) (O.faults out.new) }
    ensures source { OnErr result (IsErrOf result RunError.Source → ⊥) }
    ensures large { OnErr result (IsErrOf result RunError.Large → ⊥) }
    ensures keeper { (n : ℕ) → HasCause n n result RunError.Keeper }
{
    match out.write_all(line) {
        Ok(()) => Ok(false),
        Err(Failed) => Err(RunError::Sink),
    }
}

/// Runs a command by itself, and writes its reply.
fn run_one<O: Sink, K: Keeper>(
    alloc: Global,
    session: &mut Session,
    keeper: &mut K,
    out: &mut O,
    number: u8,
    command: List<u8>,
) -> Result<bool, RunError>
    requires still { IsStill (K.seen keeper.old) }
    requires agrees { RemembersSome (K.seen keeper.old).kept session.old }
    requires number { number < sessions }
    ensures done { (s : State) → Agrees (K.seen keeper.old).kept session.old s
        → IsDone s (due_to s number (One command)) session.new (K.seen keeper.old)
        (K.seen keeper.new) (O.written out.old) (O.written out.new) result }
    ensures still { IsStill (K.seen keeper.new) }
    ensures agrees { RemembersSome (K.seen keeper.new).kept session.new }
    ensures never_fall { NeverFall (K.seen keeper.old) (K.seen keeper.new) }
    ensures keeper { HasCause (K.seen keeper.old).faults
        (K.seen keeper.new).faults result RunError.Keeper }
    ensures later { O.faults out.old ≤ O.faults out.new }
    ensures sink { IsErrOf result RunError.Sink → Rose (O.faults out.old) (O.faults out.new) }
    ensures source { OnErr result (IsErrOf result RunError.Source → ⊥) }
    ensures large { OnErr result (IsErrOf result RunError.Large → ⊥) }
{
    let mut lines = List::new(alloc);
    match lines.push(command) {
        Ok(()) => {}
        Err(_) => return Err(RunError::Memory),
    }
    let reply = match run(session, keeper, &lines) {
        Ok(reply) => reply,
        Err(stop) => return Err(stop),
    };
    match write_labelled(out, number, reply.text.as_slice()) {
        Ok(()) => Ok(!reply.refused),
        Err(Failed) => Err(RunError::Sink),
    }
}

/// Runs commands as one batch, and writes its reply: what the commands tell, and how the batch ended.
fn run_batch<O: Sink, K: Keeper>(
    session: &mut Session,
    keeper: &mut K,
    out: &mut O,
    number: u8,
    commands: &Lines,
) -> Result<bool, RunError>
    requires still { IsStill (K.seen keeper.old) }
    requires agrees { RemembersSome (K.seen keeper.old).kept session.old }
    requires number { number < sessions }
    requires few { length commands.now ≤ most_queued }
    ensures done { (s : State) → Agrees (K.seen keeper.old).kept session.old s
        → IsDone s (due_to s number (Batch commands.now)) session.new (K.seen keeper.old)
        (K.seen keeper.new) (O.written out.old) (O.written out.new) result }
    ensures still { IsStill (K.seen keeper.new) }
    ensures agrees { RemembersSome (K.seen keeper.new).kept session.new }
    ensures never_fall { NeverFall (K.seen keeper.old) (K.seen keeper.new) }
    ensures keeper { HasCause (K.seen keeper.old).faults
        (K.seen keeper.new).faults result RunError.Keeper }
    ensures later { O.faults out.old ≤ O.faults out.new }
    ensures sink { IsErrOf result RunError.Sink → Rose (O.faults out.old) (O.faults out.new) }
    ensures source { OnErr result (IsErrOf result RunError.Source → ⊥) }
    ensures large { OnErr result (IsErrOf result RunError.Large → ⊥) }
{
    let reply = match run(session, keeper, commands) {
        Ok(reply) => reply,
        Err(stop) => return Err(stop),
    };
    match write_batch(out, number, &reply, commands.len()) {
        Ok(()) => Ok(!reply.refused),
        Err(Failed) => Err(RunError::Sink),
    }
}

/// Runs commands as one batch.
fn run<K: Keeper>(
    session: &mut Session,
    keeper: &mut K,
    commands: &Lines,
) -> Result<BatchReply, RunError>
    requires still { IsStill (K.seen keeper.old) }
    requires agrees { RemembersSome (K.seen keeper.old).kept session.old }
    requires few { length commands.now ≤ most_queued }
    ensures run { (s : State) → Agrees (K.seen keeper.old).kept session.old s
        → IsRunBy s commands.now session.new (K.seen keeper.old) (K.seen keeper.new) result }
    ensures few { IfOk result (λ r. r.accepted ≤ most_queued) }
    ensures still { IsStill (K.seen keeper.new) }
    ensures agrees { RemembersSome (K.seen keeper.new).kept session.new }
    ensures never_fall { NeverFall (K.seen keeper.old) (K.seen keeper.new) }
    ensures keeper { HasCause (K.seen keeper.old).faults
        (K.seen keeper.new).faults result RunError.Keeper }
    ensures source { OnErr result (IsErrOf result RunError.Source → ⊥) }
    ensures large { OnErr result (IsErrOf result RunError.Large → ⊥) }
    ensures sink { OnErr result (IsErrOf result RunError.Sink → ⊥) }
{
    match session.apply_batch(keeper, commands) {
        Ok(reply) => Ok(reply),
        Err(StopError::Fault) => Err(RunError::Keeper),
        Err(StopError::Memory) => Err(RunError::Memory),
    }
}

/// Writes the reply to a batch of so many commands.
fn write_batch<O: Sink>(
    out: &mut O,
    number: u8,
    reply: &BatchReply,
    count: usize,
) -> Result<(), Failed>
    requires number { number < sessions }
    requires few { count ≤ most_queued }
    requires accepted { reply.now.accepted ≤ most_queued }
    ensures written { WritesPiece (O.written out.old) (O.written out.new) result
        (labelled number reply.now.text ++ end_line number reply.now.refused reply.now.accepted
        count) }
    ensures cause { HasCause (O.faults out.old) (O.faults out.new) result failed }
{
    match write_labelled(out, number, reply.text.as_slice()) {
        Ok(()) => {}
        Err(Failed) => return Err(Failed),
    }
    match write_end(out, number, reply, count) {
        Ok(()) => Ok(()),
        Err(Failed) => Err(Failed),
    }
}

/// Writes how a batch of so many commands ended.
fn write_end<O: Sink>(
    out: &mut O,
    number: u8,
    reply: &BatchReply,
    count: usize,
) -> Result<(), Failed>
    requires number { number < sessions }
    requires few { count ≤ most_queued }
    requires accepted { reply.now.accepted ≤ most_queued }
    ensures written { WritesPiece (O.written out.old) (O.written out.new) result
        (end_line number reply.now.refused reply.now.accepted count) }
    ensures cause { HasCause (O.faults out.old) (O.faults out.new) result failed }
{
    if reply.refused {
        return write_count(out, number, b"aborted ", reply.accepted as u8 + 1);
    }
    write_count(out, number, b"committed ", count as u8)
}
