//! The program: it runs a script of BeliefSQL, from a file or standard input, over a collection in memory or in a file, and prints
//! the replies.
#![tactic(auto)]

ghost use Rattle.std.specs.Prelude.{◌≡◌, false};

use bdb_base::{List, Txt};
use bdb_io::{NoSource, ReadSource, Source, WriteSink};
use bdb_keep::Keeper;
use bdb_memory::QuietKeeper;
use bdb_sql::SqlKeeper;
use bdb_top::{Job, WordsError, job_of, run};
use std::alloc::AllocError;
use std::env;
use std::fs::File;
use std::io::{self, ErrorKind};
use std::process::ExitCode;

/// The status where there is no memory for the words of the command line.
const NO_MEMORY: u8 = 6;

fn main(rt: HostRuntime) -> ExitCode {
    let status = match words_of(&rt) {
        Ok(words) => run_words(&rt, words.as_slice()),
        Err(error) if error.kind() == ErrorKind::OutOfMemory => NO_MEMORY,
        // Words that are no text are words that name no job.
        Err(_) => run_words(&rt, &[]),
    };
    ExitCode::from(status)
}

/// The words after the program's name.
fn words_of(rt: &HostRuntime) -> io::Result<List<Txt>> {
    let mut words = List::new(rt.alloc());
    for word in env::args(rt)?.skip(1) {
        words.push(Txt::try_new(rt.alloc(), word.as_str())?)?;
    }
    Ok(words)
}

/// Does what the words ask for.
fn run_words(rt: &HostRuntime, words: &[Txt]) -> u8 {
    match job_of(rt.alloc(), words) {
        Ok(Job::Run { db, script }) => run_from(rt, words, db.as_ref(), script.as_ref()),
        Ok(Job::Many { db, script }) => run_from(rt, words, db.as_ref(), script.as_ref()),
        Ok(Job::Check { db }) => check_file(rt, words, &db),
        Ok(Job::Gen { .. }) => run_over(rt, words, None, &mut NoSource::new()),
        Err(WordsError::BadWords) => run_over(rt, words, None, &mut NoSource::new()),
        Err(WordsError::Memory) => NO_MEMORY,
    }
}

/// Makes the source of a script, a file or standard input, and runs the words over it. A file that can't be opened is a source whose
/// first read fails.
fn run_from(rt: &HostRuntime, words: &[Txt], db: Option<&Txt>, script: Option<&Txt>) -> u8 {
    match script {
        None => run_over(rt, words, db, &mut ReadSource::new(rt.reader())),
        Some(file) => match File::open(rt, file.as_str()) {
            Ok(file) => run_over(rt, words, db, &mut ReadSource::new(file)),
            Err(_) => run_over(rt, words, db, &mut NoSource::new()),
        },
    }
}

/// Runs the words over a source, with standard output as the sink. The rows are those of a file, or where none is named a keeper
/// in memory has none.
fn run_over<S: Source>(rt: &HostRuntime, words: &[Txt], db: Option<&Txt>, script: &mut S) -> u8 {
    match db {
        Some(file) => run_in_file(rt, words, file, script),
        None => run_with(rt, words, script, &mut QuietKeeper::new(rt.alloc())),
    }
}

/// Runs the words over a source, with the rows of a file, which is made where there is none. The log beside it is copied into it where
/// the run knew that its rows hold a base. Else both are left as they are: what was committed is in the two of them in either case.
fn run_in_file<S: Source>(rt: &HostRuntime, words: &[Txt], file: &Txt, script: &mut S) -> u8 {
    let mut keeper = SqlKeeper::from_file(rt.alloc(), rt, file.as_str());
    let status = run_with(rt, words, script, &mut keeper);
    if is_over_base(status) {
        // Where this fails, what was committed still is in the file and the log beside it.
        drop(keeper.close());
    } else {
        keeper.leave();
    }
    status
}

/// Whether the rows of a run that ended so held a base for sure: it came to its script. With 5 and 6 the storage or memory may have
/// failed before that was known, with 7 they hold none, and with 2 nothing ran.
fn is_over_base(status: u8) -> bool {
    matches!(status, 0 | 1 | 3 | 4 | 8)
}

/// Checks a file that is there, and leaves it as it is.
fn check_file(rt: &HostRuntime, words: &[Txt], file: &Txt) -> u8 {
    let mut keeper = SqlKeeper::from_present_file(rt.alloc(), rt, file.as_str());
    let status = run_with(rt, words, &mut NoSource::new(), &mut keeper);
    keeper.leave();
    status
}

/// Runs the words over a source and a keeper, with standard output as the sink.
fn run_with<S: Source, K: Keeper>(
    rt: &HostRuntime,
    words: &[Txt],
    script: &mut S,
    keeper: &mut K,
) -> u8
    requires idle { (K.seen keeper.old).running ≡ false }
{
    let mut out = WriteSink::new(io::writer(rt));
    run(rt.alloc(), words, script, &mut out, keeper)
}
