// Carrying out a stream of sessions while it is read.
ghost use Rattle.std.specs.Prelude.{◌<◌, ◌≤◌, ◌+◌, IfSome, OnOk, IsErrOf, length};
ghost use Rattle.std.specs.Io.KnownBytes.{IsAtEnd};
ghost use Rattle.bdb_base.specs.Causes.{Rose, Rises, RisesOver, RisesWithin};
ghost use Rattle.bdb_base.specs.Limits.{longest_script};
ghost use Rattle.bdb_keep.specs.Seen.{IsStill, NeverFall};
ghost use Rattle.bdb_session.specs.Known.{RemembersSome};
ghost use Rattle.bdb_crowd.specs.Asked.{Point};
ghost use Rattle.bdb_crowd.specs.Carried.{IsAt, IsAtSome};
ghost use Rattle.bdb_crowd.specs.Streams.{Streams};

use crate::crowd::Crowd;
use bdb_io::{Sink, Source};
use bdb_keep::Keeper;
use bdb_stream::{RunError, carry_out};
use std::alloc::Global;

/// Carries out the stream that a source gives, each piece as soon as the bytes are read in which it ends. A batch that is open at the
/// end is dropped. Ok tells whether no reply has a line that tells an error.
pub fn carry_out_stream<S: Source, O: Sink, K: Keeper>(
    alloc: Global,
    script: &mut S,
    crowd: &mut Crowd,
    keeper: &mut K,
    out: &mut O,
) -> Result<bool, RunError>
    requires still { IsStill (K.seen keeper.old) }
    requires at { IsAtSome (K.seen keeper.old).kept crowd.old }
    ensures streams { (p : Point) → IsAt (K.seen keeper.old).kept crowd.old p
        → Streams p (S.left script.old) (S.left script.new) crowd.new.session (K.seen keeper.old)
        (K.seen keeper.new) (O.written out.old) (O.written out.new) result }
    ensures end { OnOk result (IsAtEnd (S.left script.new)) }
    ensures short { OnOk result
        (IfSome (S.left script.old) (λ text. length text ≤ longest_script)) }
    ensures still { IsStill (K.seen keeper.new) }
    ensures agrees { RemembersSome (K.seen keeper.new).kept crowd.new.session }
    ensures source { IsErrOf result RunError.Source
        → Rose (S.faults script.old) (S.faults script.new) }
    ensures sink { IsErrOf result RunError.Sink → Rose (O.faults out.old) (O.faults out.new) }
    ensures keeper { IsErrOf result RunError.Keeper → Rose (K.seen keeper.old).faults
        (K.seen keeper.new).faults }
    ensures large { IsErrOf result RunError.Large → RisesOver longest_script (S.given script.old)
        (S.given script.new) }
    ensures many { IsErrOf result RunError.Large → IfSome (S.left script.old)
        (λ text. longest_script < length text) }
    ensures within { (IsErrOf result RunError.Large → ⊥)
        → RisesWithin longest_script (S.given script.old) (S.given script.new) }
    ensures one_more { IsErrOf result RunError.Large
        → Rises (longest_script + 1) (S.given script.old) (S.given script.new) }
    ensures source_faults { S.faults script.old ≤ S.faults script.new }
    ensures source_given { S.given script.old ≤ S.given script.new }
    ensures sink_count { O.faults out.old ≤ O.faults out.new }
    ensures keeper_counts { NeverFall (K.seen keeper.old) (K.seen keeper.new) }
{
    match carry_out(alloc, script, crowd, keeper, out) {
        Ok(fine) => Ok(fine),
        Err(stop) => Err(stop),
    }
}
