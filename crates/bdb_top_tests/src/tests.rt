// Runs and what they leave, over a source, a sink and a keeper in memory.
ghost use Rattle.std.specs.Prelude.{◌≡◌, false, IfOk};

mod checking;
mod faults;
mod formats;
mod jobs;
mod leaving;
mod limits;
mod made;
mod queries;
mod reading;
mod sessions;
mod undoing;
mod why;

use bdb_base::List;
use bdb_io::{MemSink, MemSource};
use bdb_keep::Keeper;
use bdb_memory::MemKeeper;
use bdb_samples::words_of;
use bdb_top::run;
use std::alloc::Global;
use std::test::Fail;

/// Two curators and a relation.
pub(crate) const SETUP: &str =
    "create user 'Alice'; create user 'Bob'; create relation S(k text, v text);\n";

/// How many bytes of replies a sink of these tests takes.
const ROOM: usize = 2_000_000;

/// What runs left: the keeper, what was written, and the status of the last one.
#[derive(Drop)]
struct Left {
    keeper: MemKeeper,
    out: MemSink,
    status: u8,
}

impl Left {
    /// A keeper over which there was no run, and of which these calls fail.
    fn new(alloc: Global, fails: &[u32]) -> Result<Self, Fail>
        ensures idle { IfOk result (λ left. left.keeper.seen.running ≡ false) }
    {
        Ok(Left {
            keeper: MemKeeper::new(alloc, listed(alloc, fails)?),
            out: sink(alloc)?,
            status: 0,
        })
    }

    /// Whether the last run ended so, and this was written.
    fn is_told(&self, replies: &str, status: u8) -> bool {
        self.status == status && self.out.bytes() == replies.as_bytes()
    }
}

fn listed(alloc: Global, numbers: &[u32]) -> Result<List<u32>, Fail> {
    let mut list = List::new(alloc);
    for number in numbers {
        list.push(*number)?;
    }
    Ok(list)
}

/// A sink that never fails.
pub(crate) fn sink(alloc: Global) -> Result<MemSink, Fail> {
    Ok(MemSink::new(alloc, List::new(alloc), 0, ROOM)?)
}

/// The status of the words of a line over a source and a keeper.
fn ran_words<K: Keeper>(
    alloc: Global,
    line: &str,
    source: &mut MemSource,
    out: &mut MemSink,
    keeper: &mut K,
) -> Result<u8, Fail>
    requires idle { (K.seen keeper.old).running ≡ false }
    ensures idle { (K.seen keeper.new).running ≡ false }
{
    let words = words_of(alloc, line)?;
    Ok(run(alloc, words.as_slice(), source, out, keeper))
}

/// The status of a script, read 7 bytes at a time, over a keeper.
pub(crate) fn ran<K: Keeper>(
    alloc: Global,
    script: &[&str],
    out: &mut MemSink,
    keeper: &mut K,
) -> Result<u8, Fail>
    requires idle { (K.seen keeper.old).running ≡ false }
    ensures idle { (K.seen keeper.new).running ≡ false }
{
    let mut text = Vec::new(alloc);
    for part in script {
        text.extend_from_slice(part.as_bytes())?;
    }
    let mut source = MemSource::new(text, 7, List::new(alloc));
    ran_words(alloc, "run", &mut source, out, keeper)
}

/// What a script leaves over a keeper of which these calls fail.
fn ran_failing(alloc: Global, script: &[&str], fails: &[u32]) -> Result<Left, Fail>
    ensures idle { IfOk result (λ left. left.keeper.seen.running ≡ false) }
{
    let mut left = Left::new(alloc, fails)?;
    left.status = ran(alloc, script, &mut left.out, &mut left.keeper)?;
    Ok(left)
}

/// What a script leaves over a keeper that doesn't fail.
fn ran_quietly(alloc: Global, script: &[&str]) -> Result<Left, Fail>
    ensures idle { IfOk result (λ left. left.keeper.seen.running ≡ false) }
{
    ran_failing(alloc, script, &[])
}

/// What the words of a line leave over a source.
fn ran_from(alloc: Global, line: &str, source: &mut MemSource) -> Result<Left, Fail> {
    let mut left = Left::new(alloc, &[])?;
    left.status = ran_words(alloc, line, source, &mut left.out, &mut left.keeper)?;
    Ok(left)
}

/// What a script leaves that is read so many bytes at a time, by reads of which these fail.
fn ran_in_steps(alloc: Global, script: &[u8], step: usize, fails: &[u32]) -> Result<Left, Fail> {
    let text = Vec::from_slice(alloc, script)?;
    let mut source = MemSource::new(text, step.max(1), listed(alloc, fails)?);
    ran_from(alloc, "run", &mut source)
}
