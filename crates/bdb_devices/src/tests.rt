// Runs of which a device fails, over a worked script, and how they end.
ghost use Rattle.std.specs.Prelude.{◌≡◌, ◌≤◌, false, IfOk};

mod copying;
mod cuts;
mod keepers;
mod long;
mod openings;
mod sinks;
mod sources;
mod streams;
mod undoing;

use bdb_base::List;
use bdb_io::{MemSink, MemSource};
use bdb_memory::MemKeeper;
use bdb_samples::words_of;
use bdb_top::run;
use std::alloc::Global;
use std::test::Fail;

/// Three curators, their sightings and their comments, and two queries. Each semicolon ends a command.
const SCRIPT: &[u8] = b"create user 'Alice'; create user 'Bob'; create user 'Carol';
create relation Sightings(sid text, observer text, species text, place text);
create relation Comments(cid text, note text, sid text);
insert into Sightings values('s1','Carol','bald eagle','Lake Forest');
insert into BELIEF 'Bob' not Sightings values('s1','Carol','bald eagle','Lake Forest');
insert into BELIEF 'Alice' Sightings values('s2','Alice','crow','Lake Placid');
insert into BELIEF 'Alice' Comments values('c1','found feathers','s2');
insert into BELIEF 'Bob' Sightings values('s2','Alice','raven','Lake Placid');
insert into BELIEF 'Bob' BELIEF 'Alice' Comments values('c2','black feathers','s2');
-- who disputes what Alice believes
select U.name, X.sid, X.species
from Users as U, BELIEF 'Alice' Sightings as X, BELIEF U.uid not Sightings as Y
where Y.sid = X.sid and Y.observer = X.observer and Y.species = X.species and Y.place = X.place;
-- what Bob believes that Alice comments on s2
select C.cid, C.note from BELIEF 'Bob' BELIEF 'Alice' Comments C where C.sid = 's2';
";

/// The replies to these commands.
const REPLIES: &[u8] = b"ok\nok\nok\nok\nok\nok 1\nok 1\nok 1\nok 1\nok 1\nok 1\n\
'Bob', 's1', 'bald eagle'\n'Bob', 's2', 'crow'\nok 2\n\
'c1', 'found feathers'\n'c2', 'black feathers'\nok 2\n";

/// How many commands there are.
const COMMANDS: usize = 13;

/// What is told of a rest that holds something.
const UNFINISHED: &[u8] = b"error unfinished\n";

/// How many bytes of replies a sink takes.
const ROOM: usize = 2_000_000;

/// How many bytes a source that doesn't fail gives in a read.
const STEP: usize = 4_096;

/// What a run left.
#[derive(Drop)]
struct Left {
    status: u8,
    out: MemSink,
    keeper: MemKeeper,
}

/// How a run has to end. The first of the commits is that of opening, and then comes one for each command that was done.
#[derive(Clone, Copy, Drop)]
struct End<'a> {
    status: u8,
    replies: &'a [u8],
    commits: usize,
}

/// The list of one number.
fn only(alloc: Global, number: u32) -> Result<List<u32>, Fail> {
    let mut list = List::new(alloc);
    list.push(number)?;
    Ok(list)
}

/// A source that doesn't fail.
fn quiet_source(alloc: Global, script: &[u8]) -> Result<MemSource, Fail> {
    let text = Vec::from_slice(alloc, script)?;
    Ok(MemSource::new(text, STEP, List::new(alloc)))
}

/// A sink that doesn't fail.
fn quiet_sink(alloc: Global) -> Result<MemSink, Fail> {
    Ok(MemSink::new(alloc, List::new(alloc), 0, ROOM)?)
}

/// A keeper without rows that doesn't fail.
fn quiet_keeper(alloc: Global) -> MemKeeper
    ensures idle { result.seen.running ≡ false }
{
    MemKeeper::new(alloc, List::new(alloc))
}

/// The status of the words of a line over a source, a sink and a keeper.
fn ran(
    alloc: Global,
    line: &str,
    mut source: MemSource,
    out: &mut MemSink,
    keeper: &mut MemKeeper,
) -> Result<u8, Fail>
    requires idle { keeper.old.seen.running ≡ false }
    ensures idle { keeper.new.seen.running ≡ false }
{
    let words = words_of(alloc, line)?;
    Ok(run(alloc, words.as_slice(), &mut source, out, keeper))
}

/// What a line of words leaves, over these three.
fn left_by(
    alloc: Global,
    line: &str,
    source: MemSource,
    mut out: MemSink,
    mut keeper: MemKeeper,
) -> Result<Left, Fail>
    requires idle { keeper.seen.running ≡ false }
    ensures idle { IfOk result (λ left. left.keeper.seen.running ≡ false) }
{
    let status = ran(alloc, line, source, &mut out, &mut keeper)?;
    Ok(Left {
        status,
        out,
        keeper,
    })
}

/// What a script leaves, over these three.
fn ran_with(alloc: Global, source: MemSource, out: MemSink, keeper: MemKeeper) -> Result<Left, Fail>
    requires idle { keeper.seen.running ≡ false }
    ensures idle { IfOk result (λ left. left.keeper.seen.running ≡ false) }
{
    left_by(alloc, "run", source, out, keeper)
}

/// What a script leaves of which nothing fails.
fn left_by_none(alloc: Global, script: &[u8]) -> Result<Left, Fail>
    ensures idle { IfOk result (λ left. left.keeper.seen.running ≡ false) }
{
    ran_with(
        alloc,
        quiet_source(alloc, script)?,
        quiet_sink(alloc)?,
        quiet_keeper(alloc),
    )
}

/// What a script leaves of which this call of the keeper fails.
fn left_by_call(alloc: Global, script: &[u8], call: u32) -> Result<Left, Fail>
    ensures idle { IfOk result (λ left. left.keeper.seen.running ≡ false) }
{
    let keeper = MemKeeper::new(alloc, only(alloc, call)?);
    ran_with(
        alloc,
        quiet_source(alloc, script)?,
        quiet_sink(alloc)?,
        keeper,
    )
}

/// What a script leaves of which this write fails, and takes no byte.
fn left_by_write(alloc: Global, script: &[u8], write: u32) -> Result<Left, Fail> {
    let out = MemSink::new(alloc, only(alloc, write)?, 0, ROOM)?;
    ran_with(
        alloc,
        quiet_source(alloc, script)?,
        out,
        quiet_keeper(alloc),
    )
}

/// What a script leaves of which this read fails, where a read gives so many bytes.
fn left_by_read(alloc: Global, script: &[u8], step: usize, read: u32) -> Result<Left, Fail>
    requires step { 1 ≤ step }
{
    let text = Vec::from_slice(alloc, script)?;
    let source = MemSource::new(text, step, only(alloc, read)?);
    ran_with(alloc, source, quiet_sink(alloc)?, quiet_keeper(alloc))
}

/// The status and the replies of a script over a keeper, with no other device that fails.
fn told(alloc: Global, script: &[u8], keeper: &mut MemKeeper) -> Result<(u8, MemSink), Fail>
    requires idle { keeper.old.seen.running ≡ false }
    ensures idle { keeper.new.seen.running ≡ false }
{
    let mut out = quiet_sink(alloc)?;
    let status = ran(alloc, "run", quiet_source(alloc, script)?, &mut out, keeper)?;
    Ok((status, out))
}

/// The first commands of a script, and what stands behind them.
fn parted(script: &[u8], commands: usize) -> (&[u8], &[u8]) {
    let mut count: usize = 0;
    for command in script.split_inclusive(|byte| *byte == b';').take(commands) {
        count = count.saturating_add(command.len());
    }
    script.split_at(count.min(script.len()))
}

/// How many commands end in these bytes.
fn commands_in(script: &[u8]) -> usize {
    script.iter().filter(|byte| **byte == b';').count()
}

/// Whether a line is the last one of a reply.
fn ends_reply(line: &[u8]) -> bool {
    line.starts_with(b"ok") || line.starts_with(b"error")
}

/// How many replies are whole in these bytes.
fn replies_in(bytes: &[u8]) -> usize {
    bytes
        .split(|byte| *byte == b'\n')
        .filter(|line| ends_reply(*line))
        .count()
}

/// The bytes of the first of these replies.
fn first_replies(replies: &[u8], count: usize) -> &[u8] {
    let mut left = count;
    let mut end: usize = 0;
    for line in replies.split_inclusive(|byte| *byte == b'\n') {
        if left == 0 {
            break;
        }
        end = end.saturating_add(line.len());
        if ends_reply(line) {
            left -= 1;
        }
    }
    replies.get(..end).unwrap_or(replies)
}

/// The rows that the first commands of a script leave where so many transactions are committed.
fn rows_after(alloc: Global, script: &[u8], commits: usize) -> Result<MemKeeper, Fail> {
    let mut rows = quiet_keeper(alloc);
    if 0 < commits {
        let (first, _) = parted(script, commits - 1);
        told(alloc, first, &mut rows)?;
    }
    Ok(rows)
}

/// Whether a run of a script ended so.
fn ended(alloc: Global, script: &[u8], left: &Left, end: End<'_>) -> Result<bool, Fail> {
    let rows = rows_after(alloc, script, end.commits)?;
    Ok(
        left.status == end.status
            && left.out.bytes() == end.replies
            && left.keeper.commits() == end.commits as u64
            && left.keeper.same_rows(&rows),
    )
}

/// Whether a script of so many commands is carried out, and these are the replies.
fn is_carried_out(
    alloc: Global,
    script: &[u8],
    replies: &[u8],
    commands: usize,
) -> Result<bool, Fail> {
    let left = left_by_none(alloc, script)?;
    Ok(
        commands_in(script) == commands
            && replies_in(replies) == commands
            && left.status == 0
            && left.out.bytes() == replies
            && left.keeper.commits() == commands.saturating_add(1) as u64,
    )
}

#[test]
fn the_script_is_carried_out(rt: HostRuntime) -> Result<(), Fail> {
    assert!(rt; is_carried_out(rt.alloc(), SCRIPT, REPLIES, COMMANDS)?);
    Ok(())
}
