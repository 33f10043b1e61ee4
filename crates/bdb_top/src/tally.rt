// Counting the replies to events.
ghost use Rattle.std.specs.Prelude.{◌≡◌, ◌+◌, IfOk, OnOk};
ghost use Rattle.bdb_base.specs.Causes.{HasCause};
ghost use Rattle.bdb_keep.specs.Seen.{IsStill};
ghost use Rattle.bdb_session.specs.Known.{Remembers, RemembersSome};
ghost use Rattle.bdb_session.specs.Undoing.{next_state};
ghost use Rattle.bdb_undo.specs.Timelines.{Timeline};
ghost use Rattle.bdb_session.specs.Runs.{event_of, events_of, rest_events};
ghost use Rattle.bdb_session.specs.UndoRuns.{after};
ghost use Rattle.bdb_session.specs.declared.event.ScriptEvent.TheVariants as event;
ghost use Rattle.bdb_top.specs.Generated.{no_replies, tally_from, tally_reply, tally_with};

use bdb_keep::Keeper;
use bdb_lex::{Cutter, Piece, Rest};
use bdb_session::{Reply, ScriptEvent, Session, StopError};
use std::alloc::{AllocError, Global};

/// How many replies accept, how many refuse, and how many answers they have.
#[derive(Clone, Copy, Debug, PartialEq, Eq, Drop)]
pub struct ReplyCounts {
    pub accepted: u64,
    pub refused: u64,
    pub answers: u64,
}

/// Carries out a script, each piece as it is cut, and counts the replies. A count that doesn't fit is told as out of memory.
pub fn tally_script<K: Keeper>(
    alloc: Global,
    session: &mut Session,
    keeper: &mut K,
    script: &[u8],
) -> Result<ReplyCounts, StopError>
    requires still { IsStill (K.seen keeper.old) }
    requires agrees { RemembersSome (K.seen keeper.old).kept session.old }
    ensures tally { (s : Timeline) → Remembers (K.seen keeper.old).kept session.old s
        → IfOk result (λ tally. tally ≡ tally_from no_replies s (events_of script.now)) }
    ensures state { (s : Timeline) → Remembers (K.seen keeper.old).kept session.old s
        → OnOk result
        (Remembers (K.seen keeper.new).kept session.new (after s (events_of script.now))) }
    ensures still { IsStill (K.seen keeper.new) }
    ensures cause { HasCause (K.seen keeper.old).faults
        (K.seen keeper.new).faults result StopError.Fault }
    ensures agrees { RemembersSome (K.seen keeper.new).kept session.new }
{
    let mut cutter = Cutter::new(alloc);
    let mut tally = ReplyCounts {
        accepted: 0,
        refused: 0,
        answers: 0,
    };
    let mut rest = script;
    loop {
        match cutter.next_piece(alloc, rest) {
            Ok(Some((piece, others))) => match tally_piece(session, keeper, tally, &piece) {
                Ok(next) => {
                    tally = next;
                    rest = others;
                }
                Err(error) => return Err(error),
            },
            Ok(None) => match tally_rest(session, keeper, tally, cutter.finish()) {
                Ok(whole) => return Ok(whole),
                Err(error) => return Err(error),
            },
            Err(_) => return Err(StopError::Memory),
        }
    }
}

/// Answers a piece, and counts its reply.
fn tally_piece<K: Keeper>(
    session: &mut Session,
    keeper: &mut K,
    tally: ReplyCounts,
    piece: &Piece<'_>,
) -> Result<ReplyCounts, StopError>
    requires still { IsStill (K.seen keeper.old) }
    requires agrees { RemembersSome (K.seen keeper.old).kept session.old }
    ensures tally { (s : Timeline) → Remembers (K.seen keeper.old).kept session.old s
        → IfOk result (λ next. next ≡ tally_with tally s (event_of piece.now)) }
    ensures state { (s : Timeline) → Remembers (K.seen keeper.old).kept session.old s
        → OnOk result
        (Remembers (K.seen keeper.new).kept session.new (next_state s (event_of piece.now))) }
    ensures still { IsStill (K.seen keeper.new) }
    ensures cause { HasCause (K.seen keeper.old).faults
        (K.seen keeper.new).faults result StopError.Fault }
    ensures agrees { RemembersSome (K.seen keeper.new).kept session.new }
{
    match piece {
        Piece::Cmd(bytes) => match tally_command(session, keeper, tally, bytes.as_slice()) {
            Ok(next) => Ok(next),
            Err(error) => Err(error),
        },
        Piece::Long => match tally_event(session, keeper, tally, &ScriptEvent::Long) {
            Ok(next) => Ok(next),
            Err(error) => Err(error),
        },
    }
}

/// Answers what stands behind the last semicolon of a script, and counts the reply.
fn tally_rest<K: Keeper>(
    session: &mut Session,
    keeper: &mut K,
    tally: ReplyCounts,
    rest: Rest,
) -> Result<ReplyCounts, StopError>
    requires still { IsStill (K.seen keeper.old) }
    requires agrees { RemembersSome (K.seen keeper.old).kept session.old }
    ensures tally { (s : Timeline) → Remembers (K.seen keeper.old).kept session.old s
        → IfOk result (λ next. next ≡ tally_from tally s (rest_events rest)) }
    ensures state { (s : Timeline) → Remembers (K.seen keeper.old).kept session.old s
        → OnOk result
        (Remembers (K.seen keeper.new).kept session.new (after s (rest_events rest))) }
    ensures still { IsStill (K.seen keeper.new) }
    ensures cause { HasCause (K.seen keeper.old).faults
        (K.seen keeper.new).faults result StopError.Fault }
    ensures agrees { RemembersSome (K.seen keeper.new).kept session.new }
{
    match rest {
        Rest::Nothing => Ok(tally),
        Rest::Unfinished => match tally_event(session, keeper, tally, &ScriptEvent::Unfinished) {
            Ok(next) => Ok(next),
            Err(error) => Err(error),
        },
    }
}

/// Answers a piece of these bytes, and counts its reply.
fn tally_command<K: Keeper>(
    session: &mut Session,
    keeper: &mut K,
    tally: ReplyCounts,
    bytes: &[u8],
) -> Result<ReplyCounts, StopError>
    requires still { IsStill (K.seen keeper.old) }
    requires agrees { RemembersSome (K.seen keeper.old).kept session.old }
    ensures tally { (s : Timeline) → Remembers (K.seen keeper.old).kept session.old s
        → IfOk result (λ next. next ≡ tally_with tally s (event.Piece bytes.now)) }
    ensures state { (s : Timeline) → Remembers (K.seen keeper.old).kept session.old s
        → OnOk result
        (Remembers (K.seen keeper.new).kept session.new (next_state s (event.Piece bytes.now))) }
    ensures still { IsStill (K.seen keeper.new) }
    ensures cause { HasCause (K.seen keeper.old).faults
        (K.seen keeper.new).faults result StopError.Fault }
    ensures agrees { RemembersSome (K.seen keeper.new).kept session.new }
{
    let reply = match session.apply(keeper, bytes) {
        Ok(reply) => reply,
        Err(error) => return Err(error),
    };
    match with_reply(tally, &reply) {
        Ok(next) => Ok(next),
        Err(_) => Err(StopError::Memory),
    }
}

/// Answers an event, and counts its reply.
fn tally_event<K: Keeper>(
    session: &mut Session,
    keeper: &mut K,
    tally: ReplyCounts,
    event: &ScriptEvent,
) -> Result<ReplyCounts, StopError>
    requires still { IsStill (K.seen keeper.old) }
    requires agrees { RemembersSome (K.seen keeper.old).kept session.old }
    ensures tally { (s : Timeline) → Remembers (K.seen keeper.old).kept session.old s
        → IfOk result (λ next. next ≡ tally_with tally s event.now) }
    ensures state { (s : Timeline) → Remembers (K.seen keeper.old).kept session.old s
        → OnOk result (Remembers (K.seen keeper.new).kept session.new (next_state s event.now)) }
    ensures still { IsStill (K.seen keeper.new) }
    ensures cause { HasCause (K.seen keeper.old).faults
        (K.seen keeper.new).faults result StopError.Fault }
    ensures agrees { RemembersSome (K.seen keeper.new).kept session.new }
{
    let reply = match session.answer(keeper, event) {
        Ok(reply) => reply,
        Err(error) => return Err(error),
    };
    match with_reply(tally, &reply) {
        Ok(next) => Ok(next),
        Err(_) => Err(StopError::Memory),
    }
}

/// A tally with one more reply.
fn with_reply(tally: ReplyCounts, reply: &Reply) -> Result<ReplyCounts, AllocError>
    ensures { IfOk result
        (λ next. next ≡ tally_reply tally reply.now.text reply.now.accepted reply.now.answers) }
{
    let accepted = add(
        tally.accepted,
        u64::from(reply.accepted && !reply.text.is_empty()),
    )?;
    let refused = add(tally.refused, u64::from(!reply.accepted))?;
    let answers = add(tally.answers, u64::from(reply.answers))?;
    Ok(ReplyCounts {
        accepted,
        refused,
        answers,
    })
}

/// A count and more. One that doesn't fit is told as out of memory.
fn add(count: u64, more: u64) -> Result<u64, AllocError>
    ensures { IfOk result (λ sum. sum ≡ count + more) }
{
    match count.checked_add(more) {
        Some(sum) => Ok(sum),
        None => Err(AllocError),
    }
}
