// The top call.
ghost use Rattle.std.specs.Prelude.{◌≡◌, ◌≢◌, ◌<◌, ◌≤◌, ◌+◌, ℕ, List, ◌↔◌, ◌⊎◌, false, IfSome, None, Some, length};
ghost use Rattle.std.specs.Io.KnownBytes.{IsAtEnd};
ghost use Rattle.bdb_base.specs.Causes.{Rose, Rises, RisesOver, RisesWithin};
ghost use Rattle.bdb_base.specs.Limits.{longest_script};
ghost use Rattle.bdb_catalog.specs.Opening.{StandForSome};
ghost use Rattle.bdb_keep.specs.Seen.{IsStill, NeverFall};
ghost use Rattle.bdb_session.specs.Outcome.{start_from};
ghost use Rattle.bdb_undo.specs.Timelines.{started};
ghost use Rattle.bdb_top.specs.ByCommits.{CommitsTellMany};
ghost use Rattle.bdb_top.specs.ByCount.{CommitsTell};
ghost use Rattle.bdb_top.specs.Checked.{IsChecked, IsUntouched};
ghost use Rattle.bdb_top.specs.Ran.{EachBase, Ran, StandsForNone};
ghost use Rattle.bdb_top.specs.RanMany.{RanMany};
ghost use Rattle.bdb_top.specs.TellsErrors.{StatusTellsErrors, StatusTellsRefusals};
ghost use Rattle.bdb_top.specs.Generated.{IsSummarized};
ghost use Rattle.bdb_top.specs.Words.{named_job, check_job, many_job, run_job};
ghost use Rattle.bdb_top.specs.declared.words.Job.TheVariants.{Gen};

use crate::check::check_tables;
use crate::generated::summarize;
use crate::many::run_stream;
use crate::status::status_of;
use crate::words::{checked_file, many_files, recipe_of, run_files};
use bdb_base::Txt;
use bdb_decode::OpenError;
use bdb_io::{Sink, Source};
use bdb_keep::Keeper;
use bdb_session::Session;
use bdb_stream::carry_out_script;
use std::alloc::Global;

/// Does all that the program does. Mostly it runs the script that the source gives over the base that the keeper's tables stand for,
/// writes the replies to the sink, and answers the status. A command is carried out as soon as the bytes are read in which
/// it ends, at most 65,536 at a time, and its reply is written at once.
///
/// Tables without rows are first given those of the empty base, and those of the format before this one are written in this one, by
/// one commit, which is that of no command.
///
/// The statuses are those of docs/LANGUAGE.md, "How the program ends", with the keeper as the storage and the source as what is read. 2
/// comes exactly where the words name no job, and then nothing is read, written or kept; 8 exactly where none of those before came and
/// the source gave more than 2^26 bytes, of which one more is taken.
///
/// With 4, 5 and 6 each command that ends more than 65,536 bytes before the end of the bytes given was carried out, and its
/// reply written. What stands behind the last semicolon is told as unfinished at the end of the script alone.
///
/// Where the words ask for a stream of sessions, its pieces are carried out as a script's commands are, and the statuses come as for a
/// script: 1 where some reply has a line that tells an error. A batch runs in one transaction at its commit, or not at all.
/// Undo and redo are no commands of a stream.
///
/// Where the words ask to check a file one line tells of the keeper's tables: `ok` and status 0 where they hold a base or have no
/// row, else `error damaged`, or `error format N` where they are of another format N, and status 7. Or the status is 4, 5 or 6, the
/// last two with nothing written. The source isn't called, and the tables stay.
///
/// Where the words ask for a generated script it is run over a keeper of its own, and five lines tell of the run: how many
/// replies accept and refuse, the worlds and rows at the end, and the answers. Then the status is 0, or 4 or 6, and neither the
/// source nor the keeper is called.
pub fn run<S: Source, O: Sink, K: Keeper>(
    alloc: Global,
    words: &[Txt],
    script: &mut S,
    out: &mut O,
    keeper: &mut K,
) -> u8
    requires idle { (K.seen keeper.old).running ≡ false }
    ensures headline { run_job words.now ≢ None → IfSome (S.left script.old) (λ text.
        EachBase (K.seen keeper.old).kept (λ b. Ran (started b) text (S.left script.new)
        (K.seen keeper.old) (K.seen keeper.new) (O.written out.old) (O.written out.new) result)) }
    ensures headline_many { many_job words.now ≢ None → IfSome (S.left script.old) (λ text.
        EachBase (K.seen keeper.old).kept (λ b. RanMany (start_from b) text (S.left script.new)
        (K.seen keeper.old) (K.seen keeper.new) (O.written out.old) (O.written out.new) result)) }
    ensures by_count { run_job words.now ≢ None → IfSome (S.left script.old) (λ text.
        EachBase (K.seen keeper.old).kept (λ b. CommitsTell (started b) text
        (K.seen keeper.old) (K.seen keeper.new) (O.written out.old) (O.written out.new) result)) }
    ensures by_commits { many_job words.now ≢ None → IfSome (S.left script.old) (λ text.
        EachBase (K.seen keeper.old).kept (λ b. CommitsTellMany (start_from b) text
        (K.seen keeper.old) (K.seen keeper.new) (O.written out.old) (O.written out.new) result)) }
    ensures refused { run_job words.now ≢ None → result ≡ 7
        → StandsForNone (K.seen keeper.old).kept }
    ensures refused_many { many_job words.now ≢ None → result ≡ 7
        → StandsForNone (K.seen keeper.old).kept }
    ensures none { run_job words.now ≢ None → StandsForNone (K.seen keeper.old).kept → (result ≡ 5)
        ⊎ (result ≡ 6) ⊎ (result ≡ 7) }
    ensures none_many { many_job words.now ≢ None → StandsForNone (K.seen keeper.old).kept
        → (result ≡ 5) ⊎ (result ≡ 6) ⊎ (result ≡ 7) }
    ensures silent_source { run_job words.now ≢ None → StandsForNone (K.seen keeper.old).kept
        → script.new ≡ script.old }
    ensures silent_sink { run_job words.now ≢ None → StandsForNone (K.seen keeper.old).kept
        → out.new ≡ out.old }
    ensures silent_keeper { run_job words.now ≢ None → StandsForNone (K.seen keeper.old).kept
        → IsUntouched (K.seen keeper.old) (K.seen keeper.new) }
    ensures silent_source_many { many_job words.now ≢ None → StandsForNone (K.seen keeper.old).kept
        → script.new ≡ script.old }
    ensures silent_sink_many { many_job words.now ≢ None → StandsForNone (K.seen keeper.old).kept
        → out.new ≡ out.old }
    ensures silent_keeper_many { many_job words.now ≢ None → StandsForNone (K.seen keeper.old).kept
        → IsUntouched (K.seen keeper.old) (K.seen keeper.new) }
    ensures words { (result ≡ 2) ↔ (named_job words.now ≡ None) }
    ensures untouched_source { result ≡ 2 → script.new ≡ script.old }
    ensures untouched_sink { result ≡ 2 → out.new ≡ out.old }
    ensures untouched_keeper { result ≡ 2 → keeper.new ≡ keeper.old }
    ensures still { run_job words.now ≢ None → IsStill (K.seen keeper.new) }
    ensures still_many { many_job words.now ≢ None → IsStill (K.seen keeper.new) }
    ensures checked { check_job words.now ≢ None → IsChecked (K.seen keeper.old).kept
        (O.written out.old) (O.written out.new) result }
    ensures checked_source { check_job words.now ≢ None → script.new ≡ script.old }
    ensures checked_keeper { check_job words.now ≢ None
        → IsUntouched (K.seen keeper.old) (K.seen keeper.new) }
    ensures checked_still { check_job words.now ≢ None → IsStill (K.seen keeper.new) }
    ensures generated { (seed size : ℕ) → named_job words.now ≡ Some (Gen seed size)
        → IsSummarized seed size (O.written out.old) (O.written out.new) result }
    ensures generated_source { (seed size : ℕ) → named_job words.now ≡ Some (Gen seed size)
        → script.new ≡ script.old }
    ensures generated_keeper { (seed size : ℕ) → named_job words.now ≡ Some (Gen seed size)
        → keeper.new ≡ keeper.old }
    ensures idle { (K.seen keeper.new).running ≡ false }
    ensures base { StandForSome (K.seen keeper.old).kept → StandForSome (K.seen keeper.new).kept }
    ensures statuses { result ≤ 8 }
    ensures ended { run_job words.now ≢ None → result ≤ 1 → IsAtEnd (S.left script.new) }
    ensures ended_many { many_job words.now ≢ None → result ≤ 1 → IsAtEnd (S.left script.new) }
    ensures short { run_job words.now ≢ None → result ≤ 1 → IfSome (S.left script.old)
        (λ text. length text ≤ longest_script) }
    ensures short_many { many_job words.now ≢ None → result ≤ 1 → IfSome (S.left script.old)
        (λ text. length text ≤ longest_script) }
    ensures source { result ≡ 3 → Rose (S.faults script.old) (S.faults script.new) }
    ensures sink { result ≡ 4 → Rose (O.faults out.old) (O.faults out.new) }
    ensures keeper { result ≡ 5 → Rose (K.seen keeper.old).faults (K.seen keeper.new).faults }
    ensures large { result ≡ 8 → RisesOver longest_script (S.given script.old)
        (S.given script.new) }
    ensures source_faults { S.faults script.old ≤ S.faults script.new }
    ensures source_given { S.given script.old ≤ S.given script.new }
    ensures sink_count { O.faults out.old ≤ O.faults out.new }
    ensures keeper_counts { NeverFall (K.seen keeper.old) (K.seen keeper.new) }
    ensures many { result ≡ 8 → IfSome (S.left script.old) (λ text. longest_script < length text) }
    ensures within { result ≢ 8 → RisesWithin longest_script (S.given script.old)
        (S.given script.new) }
    ensures one_more { result ≡ 8 → Rises (longest_script + 1) (S.given script.old)
        (S.given script.new) }
    ensures complete { named_job words.now ≢ None
        → ¬ Rose (S.faults script.old) (S.faults script.new)
        → ¬ Rose (O.faults out.old) (O.faults out.new)
        → ¬ Rose (K.seen keeper.old).faults (K.seen keeper.new).faults
        → ¬ RisesOver longest_script (S.given script.old) (S.given script.new)
        → (result ≤ 1) ⊎ (result ≡ 6) ⊎ (result ≡ 7) }
    ensures finishes { (text : List ℕ) → run_job words.now ≢ None
        → StandForSome (K.seen keeper.old).kept
        → S.left script.old ≡ Some text → length text ≤ longest_script
        → ¬ Rose (S.faults script.old) (S.faults script.new)
        → ¬ Rose (O.faults out.old) (O.faults out.new)
        → ¬ Rose (K.seen keeper.old).faults (K.seen keeper.new).faults
        → (result ≤ 1) ⊎ (result ≡ 6) }
    ensures finishes_many { (text : List ℕ) → many_job words.now ≢ None
        → StandForSome (K.seen keeper.old).kept
        → S.left script.old ≡ Some text → length text ≤ longest_script
        → ¬ Rose (S.faults script.old) (S.faults script.new)
        → ¬ Rose (O.faults out.old) (O.faults out.new)
        → ¬ Rose (K.seen keeper.old).faults (K.seen keeper.new).faults
        → (result ≤ 1) ⊎ (result ≡ 6) }
    ensures errors { run_job words.now ≢ None → IfSome (S.left script.old) (λ text.
        EachBase (K.seen keeper.old).kept (λ b. StatusTellsRefusals (started b) text
        (O.written out.old) (O.written out.new) result)) }
    ensures errors_many { many_job words.now ≢ None → IfSome (S.left script.old) (λ text.
        EachBase (K.seen keeper.old).kept (λ b. StatusTellsErrors (start_from b) text
        (O.written out.old) (O.written out.new) result)) }
{
    match run_files(words) {
        Some(_) => run_script(alloc, script, out, keeper),
        None => match many_files(words) {
            Some(_) => run_stream(alloc, script, out, keeper),
            None => match checked_file(words) {
                Some(_) => check_tables(alloc, out, keeper),
                None => match recipe_of(words) {
                    Some(recipe) => summarize(alloc, recipe.seed, recipe.size, out),
                    None => 2,
                },
            },
        },
    }
}

/// Runs the script that the source gives, where the tables hold a base.
fn run_script<S: Source, O: Sink, K: Keeper>(
    alloc: Global,
    script: &mut S,
    out: &mut O,
    keeper: &mut K,
) -> u8
    requires idle { (K.seen keeper.old).running ≡ false }
    ensures ran { IfSome (S.left script.old) (λ text. EachBase (K.seen keeper.old).kept (λ b.
        Ran (started b) text (S.left script.new) (K.seen keeper.old) (K.seen keeper.new)
        (O.written out.old) (O.written out.new) result)) }
    ensures refused { result ≡ 7 → StandsForNone (K.seen keeper.old).kept }
    ensures none { StandsForNone (K.seen keeper.old).kept → (result ≡ 5) ⊎ (result ≡ 6)
        ⊎ (result ≡ 7) }
    ensures silent_source { StandsForNone (K.seen keeper.old).kept → script.new ≡ script.old }
    ensures silent_sink { StandsForNone (K.seen keeper.old).kept → out.new ≡ out.old }
    ensures silent_keeper { StandsForNone (K.seen keeper.old).kept
        → IsUntouched (K.seen keeper.old) (K.seen keeper.new) }
    ensures still { IsStill (K.seen keeper.new) }
    ensures base { StandForSome (K.seen keeper.old).kept → StandForSome (K.seen keeper.new).kept }
    ensures statuses { result ≤ 8 }
    ensures worded { result ≢ 2 }
    ensures ended { result ≤ 1 → IsAtEnd (S.left script.new) }
    ensures short { result ≤ 1 → IfSome (S.left script.old)
        (λ text. length text ≤ longest_script) }
    ensures source { result ≡ 3 → Rose (S.faults script.old) (S.faults script.new) }
    ensures sink { result ≡ 4 → Rose (O.faults out.old) (O.faults out.new) }
    ensures keeper { result ≡ 5 → Rose (K.seen keeper.old).faults (K.seen keeper.new).faults }
    ensures large { result ≡ 8 → RisesOver longest_script (S.given script.old)
        (S.given script.new) }
    ensures source_faults { S.faults script.old ≤ S.faults script.new }
    ensures source_given { S.given script.old ≤ S.given script.new }
    ensures sink_count { O.faults out.old ≤ O.faults out.new }
    ensures keeper_counts { NeverFall (K.seen keeper.old) (K.seen keeper.new) }
    ensures many { result ≡ 8 → IfSome (S.left script.old) (λ text. longest_script < length text) }
    ensures within { result ≢ 8 → RisesWithin longest_script (S.given script.old)
        (S.given script.new) }
    ensures one_more { result ≡ 8 → Rises (longest_script + 1) (S.given script.old)
        (S.given script.new) }
{
    let mut session = match Session::open(alloc, keeper) {
        Ok(session) => session,
        Err(OpenError::Damaged) => return 7,
        Err(OpenError::Format(_)) => return 7,
        Err(OpenError::Fault) => return 5,
        Err(OpenError::Memory) => return 6,
    };
    status_of(carry_out_script(alloc, script, &mut session, keeper, out))
}
