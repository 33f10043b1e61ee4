// Telling whether tables hold a base.
ghost use Rattle.std.specs.Prelude.{◌≡◌, ◌≢◌, ◌≤◌, false, IfOk};
ghost use Rattle.bdb_base.specs.Causes.{Rose};
ghost use Rattle.bdb_keep.specs.Seen.{IsStill, NeverFall};
ghost use Rattle.bdb_keep.specs.Tables.{Tables};
ghost use Rattle.bdb_top.specs.Checked.{verdict_line, verdict_status, IsChecked, IsUntouched, IsVerdict};

use crate::lines::append_line;
use bdb_decode::{OpenError, decode};
use bdb_io::Sink;
use bdb_keep::Keeper;
use std::alloc::{AllocError, Global};

/// What is told of tables.
#[derive(Clone, Copy, Debug, PartialEq, Eq, Drop)]
pub enum Verdict {
    /// They hold a base, or have no row at all.
    Sound,
    /// They hold no base.
    Damaged,
    /// They are of another format, which is told.
    Format(u32),
}

/// Tells whether the keeper's tables hold a base, by a line and the status: 0 where they do, and 7 where they don't. The status
/// is 4 where the write failed, 5 where the keeper failed, and 6 where memory ran out. Nothing is written to the tables.
pub fn check_tables<O: Sink, K: Keeper>(alloc: Global, out: &mut O, keeper: &mut K) -> u8
    requires idle { (K.seen keeper.old).running ≡ false }
    ensures checked { IsChecked (K.seen keeper.old).kept (O.written out.old) (O.written out.new)
        result }
    ensures untouched { IsUntouched (K.seen keeper.old) (K.seen keeper.new) }
    ensures still { IsStill (K.seen keeper.new) }
    ensures sink { result ≡ 4 → Rose (O.faults out.old) (O.faults out.new) }
    ensures keeper { result ≡ 5 → Rose (K.seen keeper.old).faults (K.seen keeper.new).faults }
    ensures later { O.faults out.old ≤ O.faults out.new }
    ensures never_fall { NeverFall (K.seen keeper.old) (K.seen keeper.new) }
{
    match decode(alloc, keeper) {
        Ok(_) => tell(alloc, out, Verdict::Sound),
        Err(OpenError::Damaged) => tell(alloc, out, Verdict::Damaged),
        Err(OpenError::Format(number)) => tell(alloc, out, Verdict::Format(number)),
        Err(OpenError::Fault) => 5,
        Err(OpenError::Memory) => 6,
    }
}

/// Tells a verdict by its line and its status.
fn tell<O: Sink>(alloc: Global, out: &mut O, verdict: Verdict) -> u8
    ensures told { (t : Tables) → IsVerdict t verdict → IsChecked t (O.written out.old)
        (O.written out.new) result }
    ensures no_fault { result ≢ 5 }
    ensures sink { result ≡ 4 → Rose (O.faults out.old) (O.faults out.new) }
    ensures later { O.faults out.old ≤ O.faults out.new }
{
    let line = match line_of(alloc, verdict) {
        Ok(line) => line,
        Err(_) => return 6,
    };
    match out.write_all(line.as_slice()) {
        Ok(()) => status_of(verdict),
        Err(_) => 4,
    }
}

/// The status that tells a verdict.
fn status_of(verdict: Verdict) -> u8
    ensures { result ≡ verdict_status verdict }
{
    match verdict {
        Verdict::Sound => 0,
        Verdict::Damaged => 7,
        Verdict::Format(_) => 7,
    }
}

/// The line that tells a verdict.
fn line_of(alloc: Global, verdict: Verdict) -> Result<Vec<u8>, AllocError>
    ensures { IfOk result (λ line. line.items ≡ verdict_line verdict) }
{
    let mut line = Vec::new(alloc);
    match verdict {
        Verdict::Sound => line.extend_from_slice(b"ok\n")?,
        Verdict::Damaged => line.extend_from_slice(b"error damaged\n")?,
        Verdict::Format(number) => append_line(&mut line, b"error format ", u64::from(number))?,
    }
    Ok(line)
}
