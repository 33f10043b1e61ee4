// The run over a generated script, and its summary.
ghost use Rattle.std.specs.Prelude.{◌≡◌, ◌≤◌, IfOk};
ghost use Rattle.bdb_base.specs.Causes.{Rose};
ghost use Rattle.bdb_base.specs.Limits.{most_generated};
ghost use Rattle.bdb_session.specs.Runs.{events_of};
ghost use Rattle.bdb_top.specs.Generated.{summary, summary_of, summary_text, IsSummarized};

use crate::lines::append_line;
use crate::tally::{ReplyCounts, tally_script};
use bdb_decode::OpenError;
use bdb_gen::generate;
use bdb_io::Sink;
use bdb_memory::QuietKeeper;
use bdb_session::{Session, StopError};
use std::alloc::{AllocError, Global};

/// Runs the script of a seed and a size over a keeper in memory of its own, and writes the summary. The status is 0, or 4
/// where the write failed, or 6 where memory ran out.
pub fn summarize<O: Sink>(alloc: Global, seed: u64, size: u32, out: &mut O) -> u8
    requires size { size ≤ most_generated }
    ensures summary { IsSummarized seed size (O.written out.old) (O.written out.new) result }
    ensures sink { result ≡ 4 → Rose (O.faults out.old) (O.faults out.new) }
    ensures later { O.faults out.old ≤ O.faults out.new }
{
    let text = match summary(alloc, seed, size) {
        Ok(text) => text,
        Err(_) => return 6,
    };
    match out.write_all(text.as_slice()) {
        Ok(()) => 0,
        Err(_) => 4,
    }
}

/// The summary of the script of a seed and a size.
fn summary(alloc: Global, seed: u64, size: u32) -> Result<Vec<u8>, AllocError>
    requires size { size ≤ most_generated }
    ensures { IfOk result (λ text. text.items ≡ summary seed size) }
{
    let script = generate(alloc, seed, size)?;
    summary_of(alloc, script.as_slice())
}

/// The summary of a script that is carried out from the empty base.
fn summary_of(alloc: Global, script: &[u8]) -> Result<Vec<u8>, AllocError>
    ensures { IfOk result (λ text. text.items ≡ summary_of (events_of script.now)) }
{
    let mut keeper = QuietKeeper::new(alloc);
    let mut session = match Session::open(alloc, &mut keeper) {
        Ok(session) => session,
        Err(OpenError::Memory) => return Err(AllocError),
        Err(OpenError::Fault) => unreachable!(),
        Err(OpenError::Damaged) => unreachable!(),
        Err(OpenError::Format(_)) => unreachable!(),
    };
    let tally = match tally_script(alloc, &mut session, &mut keeper, script) {
        Ok(tally) => tally,
        Err(StopError::Memory) => return Err(AllocError),
        Err(StopError::Fault) => unreachable!(),
    };
    let counts = session.counts();
    let text = summary_text(
        alloc,
        tally,
        u64::from(counts.worlds),
        u64::from(counts.rows),
    )?;
    Ok(text)
}

/// The text of a summary.
fn summary_text(
    alloc: Global,
    tally: ReplyCounts,
    worlds: u64,
    rows: u64,
) -> Result<Vec<u8>, AllocError>
    ensures { IfOk result (λ text. text.items ≡ summary_text tally worlds rows) }
{
    let mut text = Vec::new(alloc);
    append_line(&mut text, b"accepted ", tally.accepted)?;
    append_line(&mut text, b"refused ", tally.refused)?;
    append_line(&mut text, b"worlds ", worlds)?;
    append_line(&mut text, b"rows ", rows)?;
    append_line(&mut text, b"answers ", tally.answers)?;
    Ok(text)
}
