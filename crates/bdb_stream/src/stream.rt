// Carrying out a stream while it is read.
ghost use Rattle.std.specs.Prelude.{◌≡◌, ◌<◌, ◌≤◌, ◌+◌, true, false, IfSome, OnOk, OnErr, IsErrOf, length, map};
ghost use Rattle.std.specs.Io.KnownBytes.{IsAtEnd};
ghost use Rattle.bdb_base.specs.Causes.{Rose, Rises, RisesOver, RisesWithin, HasCause};
ghost use Rattle.bdb_base.specs.Limits.{longest_script};
ghost use Rattle.bdb_keep.specs.Seen.{IsStill, NeverFall};
ghost use Rattle.bdb_lex.specs.Cut.{ready, pieces_from, state_after};
ghost use Rattle.bdb_session.specs.Known.{RemembersSome};
ghost use Rattle.bdb_stream.specs.Handled.{RunEnds};
ghost use Rattle.bdb_stream.specs.Handling.{IsAt, IsAtSome};
ghost use Rattle.bdb_stream.specs.Reads.{longest_read, Streams};

use crate::error::RunError;
use crate::handler::Handler;
use bdb_base::limits::{LONGEST_COMMAND, LONGEST_SCRIPT};
use bdb_io::{Failed, Sink, Source};
use bdb_keep::Keeper;
use bdb_lex::Cutter;
use std::alloc::Global;

/// How many bytes are read at a time: as many as a command may have.
const BLOCK: usize = LONGEST_COMMAND;

/// Carries out the stream that a source gives: each piece is handled as soon as the bytes are read in which it ends. Ok tells whether
/// no reply tells an error.
pub fn carry_out<S: Source, H: Handler, K: Keeper, O: Sink>(
    alloc: Global,
    script: &mut S,
    handler: &mut H,
    keeper: &mut K,
    out: &mut O,
) -> Result<bool, RunError>
    requires still { IsStill (K.seen keeper.old) }
    requires at { IsAtSome H.handling (K.seen keeper.old).kept handler.old }
    ensures streams { (p : H.handling.Point)
        → IsAt H.handling (K.seen keeper.old).kept handler.old p
        → Streams H.handling p (S.left script.old) (S.left script.new)
        (H.handling.session_of handler.new) (K.seen keeper.old) (K.seen keeper.new)
        (O.written out.old) (O.written out.new) result }
    ensures end { OnOk result (IsAtEnd (S.left script.new)) }
    ensures short { OnOk result
        (IfSome (S.left script.old) (λ text. length text ≤ longest_script)) }
    ensures still { IsStill (K.seen keeper.new) }
    ensures agrees { RemembersSome (K.seen keeper.new).kept (H.handling.session_of handler.new) }
    ensures source { IsErrOf result RunError.Source
        → Rose (S.faults script.old) (S.faults script.new) }
    ensures sink { IsErrOf result RunError.Sink → Rose (O.faults out.old) (O.faults out.new) }
    ensures keeper { IsErrOf result RunError.Keeper → Rose (K.seen keeper.old).faults
        (K.seen keeper.new).faults }
    ensures large { IsErrOf result RunError.Large → RisesOver longest_script (S.given script.old)
        (S.given script.new) }
    ensures many { IsErrOf result RunError.Large → IfSome (S.left script.old)
        (λ text. longest_script < length text) }
    ensures within { (IsErrOf result RunError.Large → ⊥)
        → RisesWithin longest_script (S.given script.old) (S.given script.new) }
    ensures one_more { IsErrOf result RunError.Large
        → Rises (longest_script + 1) (S.given script.old) (S.given script.new) }
    ensures source_faults { S.faults script.old ≤ S.faults script.new }
    ensures source_given { S.given script.old ≤ S.given script.new }
    ensures sink_count { O.faults out.old ≤ O.faults out.new }
    ensures keeper_counts { NeverFall (K.seen keeper.old) (K.seen keeper.new) }
{
    let mut cutter = Cutter::new(alloc);
    let mut block = [0; BLOCK];
    let mut fine = true;
    let mut taken = 0;
    loop {
        let room = LONGEST_SCRIPT - taken;
        let part = &mut block[..size_of_read(room)];
        let count = match script.read(part) {
            Ok(count) => count,
            Err(Failed) => return Err(RunError::Source),
        };
        if count == 0 {
            match handler.answer_rest(keeper, out, cutter.finish()) {
                Ok(more) => return Ok(fine & more),
                Err(stop) => return Err(stop),
            }
        }
        if room == 0 {
            return Err(RunError::Large);
        }
        taken += count;
        match answer_block(alloc, &mut cutter, &part[..count], handler, keeper, out) {
            Ok(more) => fine &= more,
            Err(stop) => return Err(stop),
        }
    }
}

/// How many bytes to read where so many more may come: one, where no more may, to see whether there are more.
fn size_of_read(room: usize) -> usize
    ensures some { 0 < result }
    ensures few { result ≤ longest_read }
    ensures fits { 0 < room → result ≤ room }
    ensures one { room ≡ 0 → result ≡ 1 }
{
    if room == 0 { 1 } else { room.min(BLOCK) }
}

/// Answers the pieces that end in a block of bytes, each as soon as it is cut.
fn answer_block<H: Handler, K: Keeper, O: Sink>(
    alloc: Global,
    cutter: &mut Cutter,
    block: &[u8],
    handler: &mut H,
    keeper: &mut K,
    out: &mut O,
) -> Result<bool, RunError>
    requires ready { cutter.old.is_spent ≡ false }
    requires still { IsStill (K.seen keeper.old) }
    requires at { IsAtSome H.handling (K.seen keeper.old).kept handler.old }
    ensures cutter { OnOk result (cutter.new ≡ ready (state_after cutter.old.state block.now)) }
    ensures ends { (p : H.handling.Point)
        → IsAt H.handling (K.seen keeper.old).kept handler.old p
        → RunEnds H.handling p (map H.handling.asked_by (pieces_from cutter.old.state block.now))
        handler.new (K.seen keeper.old) (K.seen keeper.new) (O.written out.old) (O.written out.new)
        result }
    ensures at { OnOk result (IsAtSome H.handling (K.seen keeper.new).kept handler.new) }
    ensures still { IsStill (K.seen keeper.new) }
    ensures agrees { RemembersSome (K.seen keeper.new).kept (H.handling.session_of handler.new) }
    ensures never_fall { NeverFall (K.seen keeper.old) (K.seen keeper.new) }
    ensures keeper { HasCause (K.seen keeper.old).faults
        (K.seen keeper.new).faults result RunError.Keeper }
    ensures later { O.faults out.old ≤ O.faults out.new }
    ensures sink { IsErrOf result RunError.Sink → Rose (O.faults out.old) (O.faults out.new) }
    ensures source { OnErr result (IsErrOf result RunError.Source → ⊥) }
    ensures large { OnErr result (IsErrOf result RunError.Large → ⊥) }
{
    let mut rest = block;
    let mut fine = true;
    loop {
        match cutter.next_piece(alloc, rest) {
            Ok(Some((piece, others))) => match handler.answer_piece(keeper, out, &piece) {
                Ok(more) => {
                    fine &= more;
                    rest = others;
                }
                Err(stop) => return Err(stop),
            },
            Ok(None) => return Ok(fine),
            Err(_) => return Err(RunError::Memory),
        }
    }
}
