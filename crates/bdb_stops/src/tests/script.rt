// Scripts, and their replies.
ghost use Rattle.std.specs.Prelude.{◌≡◌, ◌≤◌, false};

use bdb_io::{MemSink, QuietSource};
use bdb_keep::Keeper;
use bdb_samples::words_of;
use bdb_top::run;
use std::alloc::Global;
use std::test::Fail;

/// A script.
#[derive(Clone, Copy, PartialEq, Eq, Drop)]
pub enum Script {
    /// That of three curators, who tell what they saw and what they make of it.
    Curators,
    /// Somebody saw an eagle, and Bob doesn't believe it.
    Eagle,
    /// What Bob believes.
    Bob,
}

/// Some of the commands of a script: so many, from one of them on.
#[derive(Clone, Copy, Drop)]
pub struct Section {
    pub script: Script,
    pub from: usize,
    pub count: usize,
}

/// All commands of a script.
pub fn all_of(script: Script) -> Section {
    Section {
        script,
        from: 0,
        count: usize::MAX,
    }
}

/// The commands.
fn commands_of(script: Script) -> &'static [&'static str] {
    match script {
        Script::Curators => CURATORS,
        Script::Eagle => EAGLE,
        Script::Bob => BOB,
    }
}

/// The reply to each of them.
fn replies_of(script: Script) -> &'static [&'static str] {
    match script {
        Script::Curators => CURATORS_REPLIES,
        Script::Eagle => EAGLE_REPLIES,
        Script::Bob => BOB_REPLIES,
    }
}

/// How many of the commands there are.
pub fn command_count(script: Script) -> usize {
    commands_of(script).len()
}

/// How many of the commands change the base: the first ones.
pub fn change_count(script: Script) -> usize
    ensures { result ≤ 11 }
{
    match script {
        Script::Curators => 11,
        Script::Eagle => 5,
        Script::Bob => 0,
    }
}

const CURATORS: &[&str] = &[
    "create user 'Alice';",
    "create user 'Bob';",
    "create user 'Carol';",
    "create relation Sightings(sid text, observer text, species text, place text);",
    "create relation Comments(cid text, note text, sid text);",
    "insert into Sightings values('s1','Carol','bald eagle','Lake Forest');",
    "insert into BELIEF 'Bob' not Sightings values('s1','Carol','bald eagle','Lake Forest');",
    "insert into BELIEF 'Alice' Sightings values('s2','Alice','crow','Lake Placid');",
    "insert into BELIEF 'Alice' Comments values('c1','found feathers','s2');",
    "insert into BELIEF 'Bob' Sightings values('s2','Alice','raven','Lake Placid');",
    "insert into BELIEF 'Bob' BELIEF 'Alice' Comments values('c2','black feathers','s2');",
    DISPUTES,
    "select C.cid, C.note from BELIEF 'Bob' BELIEF 'Alice' Comments C where C.sid = 's2';",
];

/// Who disputes what Alice believes.
const DISPUTES: &str = "select U.name, X.sid, X.species
from Users as U, BELIEF 'Alice' Sightings as X, BELIEF U.uid not Sightings as Y
where Y.sid = X.sid and Y.observer = X.observer and Y.species = X.species and Y.place = X.place;";

const CURATORS_REPLIES: &[&str] = &[
    "ok\n",
    "ok\n",
    "ok\n",
    "ok\n",
    "ok\n",
    "ok 1\n",
    "ok 1\n",
    "ok 1\n",
    "ok 1\n",
    "ok 1\n",
    "ok 1\n",
    "'Bob', 's1', 'bald eagle'\n'Bob', 's2', 'crow'\nok 2\n",
    "'c1', 'found feathers'\n'c2', 'black feathers'\nok 2\n",
];

const EAGLE: &[&str] = &[
    "create user 'Alice';",
    "create user 'Bob';",
    "create relation S(k text, v text);",
    "insert into S values('s1','eagle');",
    "insert into BELIEF 'Bob' not S values('s1','eagle');",
];

const EAGLE_REPLIES: &[&str] = &["ok\n", "ok\n", "ok\n", "ok 1\n", "ok 1\n"];

const BOB: &[&str] = &["show world BELIEF 'Bob';"];

const BOB_REPLIES: &[&str] = &["- S('s1', 'eagle') explicit\nok 1\n"];

/// How many bytes of replies a sink of these tests takes.
pub const ROOM: usize = 1_000;

/// The status of a job over a keeper, with these commands as its script.
pub fn ran<K: Keeper>(
    alloc: Global,
    job: &str,
    part: Section,
    replies: &mut MemSink,
    keeper: &mut K,
) -> Result<u8, Fail>
    requires idle { (K.seen keeper.old).running ≡ false }
    ensures idle { (K.seen keeper.new).running ≡ false }
{
    let words = words_of(alloc, job)?;
    let mut source = QuietSource::new(text_of(alloc, part)?);
    Ok(run(alloc, words.as_slice(), &mut source, replies, keeper))
}

/// The text of these commands.
fn text_of(alloc: Global, part: Section) -> Result<Vec<u8>, Fail> {
    let mut text = Vec::new(alloc);
    let commands = commands_of(part.script);
    for command in commands.iter().skip(part.from).take(part.count) {
        text.extend_from_slice(command.as_bytes())?;
    }
    Ok(text)
}

/// To how many of the commands these are the replies, if they are those to the first of them.
pub fn count_of(script: Script, replies: &[u8]) -> Option<usize> {
    let mut left = replies;
    let wanted = replies_of(script);
    for (count, reply) in wanted.iter().enumerate() {
        if left.is_empty() {
            return Some(count);
        }
        left = left.strip_prefix(reply.as_bytes())?;
    }
    if left.is_empty() {
        Some(wanted.len())
    } else {
        None
    }
}

/// Whether these are the replies to all commands but so many of the first.
pub fn are_last(script: Script, replies: &[u8], done: usize) -> bool {
    let mut left = replies;
    for reply in replies_of(script).iter().skip(done) {
        match left.strip_prefix(reply.as_bytes()) {
            Some(rest) => left = rest,
            None => return false,
        }
    }
    left.is_empty()
}
