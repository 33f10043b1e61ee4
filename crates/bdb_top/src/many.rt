// Runs over streams of sessions.
ghost use Rattle.std.specs.Prelude.{◌≡◌, ◌≢◌, ◌<◌, ◌≤◌, ◌+◌, ◌⊎◌, false, IfSome, length};
ghost use Rattle.std.specs.Io.KnownBytes.{IsAtEnd};
ghost use Rattle.bdb_base.specs.Causes.{Rose, Rises, RisesOver, RisesWithin};
ghost use Rattle.bdb_base.specs.Limits.{longest_script};
ghost use Rattle.bdb_catalog.specs.Opening.{StandForSome};
ghost use Rattle.bdb_keep.specs.Seen.{IsStill, NeverFall};
ghost use Rattle.bdb_session.specs.Outcome.{start_from};
ghost use Rattle.bdb_top.specs.Checked.{IsUntouched};
ghost use Rattle.bdb_top.specs.Ran.{EachBase, StandsForNone};
ghost use Rattle.bdb_top.specs.RanMany.{RanMany};

use crate::status::status_of;
use bdb_crowd::{Crowd, carry_out_stream};
use bdb_decode::OpenError;
use bdb_io::{Sink, Source};
use bdb_keep::Keeper;
use bdb_session::Session;
use std::alloc::Global;

/// Carries out the stream of sessions that the source gives, where the tables hold a base.
pub fn run_stream<S: Source, O: Sink, K: Keeper>(
    alloc: Global,
    script: &mut S,
    out: &mut O,
    keeper: &mut K,
) -> u8
    requires idle { (K.seen keeper.old).running ≡ false }
    ensures ran { IfSome (S.left script.old) (λ text. EachBase (K.seen keeper.old).kept (λ b.
        RanMany (start_from b) text (S.left script.new) (K.seen keeper.old) (K.seen keeper.new)
        (O.written out.old) (O.written out.new) result)) }
    ensures refused { result ≡ 7 → StandsForNone (K.seen keeper.old).kept }
    ensures none { StandsForNone (K.seen keeper.old).kept → (result ≡ 5) ⊎ (result ≡ 6)
        ⊎ (result ≡ 7) }
    ensures silent_source { StandsForNone (K.seen keeper.old).kept → script.new ≡ script.old }
    ensures silent_sink { StandsForNone (K.seen keeper.old).kept → out.new ≡ out.old }
    ensures silent_keeper { StandsForNone (K.seen keeper.old).kept
        → IsUntouched (K.seen keeper.old) (K.seen keeper.new) }
    ensures still { IsStill (K.seen keeper.new) }
    ensures base { StandForSome (K.seen keeper.old).kept → StandForSome (K.seen keeper.new).kept }
    ensures statuses { result ≤ 8 }
    ensures worded { result ≢ 2 }
    ensures ended { result ≤ 1 → IsAtEnd (S.left script.new) }
    ensures short { result ≤ 1 → IfSome (S.left script.old)
        (λ text. length text ≤ longest_script) }
    ensures source { result ≡ 3 → Rose (S.faults script.old) (S.faults script.new) }
    ensures sink { result ≡ 4 → Rose (O.faults out.old) (O.faults out.new) }
    ensures keeper { result ≡ 5 → Rose (K.seen keeper.old).faults (K.seen keeper.new).faults }
    ensures large { result ≡ 8 → RisesOver longest_script (S.given script.old)
        (S.given script.new) }
    ensures source_faults { S.faults script.old ≤ S.faults script.new }
    ensures source_given { S.given script.old ≤ S.given script.new }
    ensures sink_count { O.faults out.old ≤ O.faults out.new }
    ensures keeper_counts { NeverFall (K.seen keeper.old) (K.seen keeper.new) }
    ensures many { result ≡ 8 → IfSome (S.left script.old) (λ text. longest_script < length text) }
    ensures within { result ≢ 8 → RisesWithin longest_script (S.given script.old)
        (S.given script.new) }
    ensures one_more { result ≡ 8 → Rises (longest_script + 1) (S.given script.old)
        (S.given script.new) }
{
    let session = match Session::open(alloc, keeper) {
        Ok(session) => session,
        Err(OpenError::Damaged) => return 7,
        Err(OpenError::Format(_)) => return 7,
        Err(OpenError::Fault) => return 5,
        Err(OpenError::Memory) => return 6,
    };
    let mut crowd = Crowd::new(alloc, session);
    status_of(carry_out_stream(alloc, script, &mut crowd, keeper, out))
}
