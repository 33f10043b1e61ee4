// The words of the command line.
ghost use Rattle.std.specs.Prelude.{◌≡◌, ◌≤◌, [], ◌∷◌, IfOk, IfSome, IsErrOf, MatchOption, Some, None};
ghost use Rattle.std.specs.Option.{option_copied};
ghost use Rattle.bdb_base.specs.Same.{same_text};
ghost use Rattle.bdb_base.specs.Limits.{most_generated};
ghost use Rattle.bdb_top.specs.Words.{named_job, run_job, many_job, check_job, gen_job, files, files_with, files_by, files_of, both_files, generating, generating_by, is_value, number_behind, number_in_digits};
ghost use Rattle.bdb_top.specs.declared.words.Job.TheVariants.{Run, Many, Check, Gen};

use bdb_base::limits::MOST_GENERATED;
use bdb_base::{Exact, Txt};
use std::alloc::{AllocError, Global};
use thiserror::Error;

/// What the program is asked to do.
#[derive(Drop)]
pub enum Job {
    /// Runs a script: that of a file, or of standard input where none is named. The base is that of a file, or the empty one,
    /// which is forgotten afterwards, where none is named.
    Run {
        db: Option<Txt>,
        script: Option<Txt>,
    },
    /// Runs a stream of sessions, from a file or standard input, over a base as for `Run`.
    Many {
        db: Option<Txt>,
        script: Option<Txt>,
    },
    /// Tells whether a file holds a base.
    Check {
        db: Txt,
    },
    /// Runs the script that is generated from a seed, and tells of the run in five lines. The size says how many commands
    /// are generated behind the first nine, at most 10,000.
    Gen {
        seed: u64,
        size: u32,
    },
}

/// The files that words to run a script or a stream name.
#[derive(Clone, Copy, Drop)]
pub(crate) struct RunFiles<'a> {
    pub(crate) db: Option<&'a Txt>,
    pub(crate) script: Option<&'a Txt>,
}

/// What a script is generated from.
#[derive(Clone, Copy, Debug, PartialEq, Eq, Drop)]
pub struct Recipe {
    pub seed: u64,
    pub size: u32,
}

/// The most digits of a number.
const MOST_DIGITS: usize = 20;

/// Why words name no job.
#[derive(Clone, Copy, Debug, PartialEq, Eq, Drop, Error)]
pub enum WordsError {
    /// The words are in no line of the table.
    #[error("the words name no job")]
    BadWords,
    /// There is no memory.
    #[error("there is no memory")]
    Memory,
}

/// The job that the words after the program's name ask for.
///
/// | words | job |
/// |---|---|
/// | `run` | a script from standard input over the empty base |
/// | `run --script FILE` | the script in a file over the empty base |
/// | `run --db FILE` | a script from standard input over the base in a file |
/// | `run --db FILE --script FILE`, options in any order | the script in one file over the base in another |
/// | `many`, with the options of `run` | a stream of sessions, from where and over what `run` takes a script |
/// | `check --db FILE` | tells whether a file holds a base |
/// | `gen --seed N --size N`, options in any order | a generated script |
///
/// FILE is not empty and does not begin with a dash. N is 1 to 20 digits of a number below 2^64, that of size at most 10,000.
/// `BadWords` comes exactly where the words are others.
pub fn job_of(alloc: Global, words: &[Txt]) -> Result<Job, WordsError>
    ensures ok { IfOk result (λ job. named_job words.now ≡ Some job) }
    ensures bad { IsErrOf result WordsError.BadWords → named_job words.now ≡ None }
{
    if let Some(files) = run_files(words) {
        return match copied_run(alloc, files) {
            Ok(job) => Ok(job),
            Err(_) => Err(WordsError::Memory),
        };
    }
    if let Some(files) = many_files(words) {
        return match copied_many(alloc, files) {
            Ok(job) => Ok(job),
            Err(_) => Err(WordsError::Memory),
        };
    }
    if let Some(file) = checked_file(words) {
        return match file.try_clone(alloc) {
            Ok(db) => Ok(Job::Check { db }),
            Err(_) => Err(WordsError::Memory),
        };
    }
    match recipe_of(words) {
        Some(recipe) => Ok(Job::Gen {
            seed: recipe.seed,
            size: recipe.size,
        }),
        None => Err(WordsError::BadWords),
    }
}

/// The job to run a script, with the names of its files copied.
fn copied_run(alloc: Global, files: RunFiles<'_>) -> Result<Job, AllocError>
    ensures { IfOk result
        (λ job. job ≡ Run (option_copied files.entry.db) (option_copied files.entry.script)) }
{
    let db = copied(alloc, files.db)?;
    let script = copied(alloc, files.script)?;
    Ok(Job::Run { db, script })
}

/// The job to run a stream, with the names of its files copied.
fn copied_many(alloc: Global, files: RunFiles<'_>) -> Result<Job, AllocError>
    ensures { IfOk result
        (λ job. job ≡ Many (option_copied files.entry.db) (option_copied files.entry.script)) }
{
    let db = copied(alloc, files.db)?;
    let script = copied(alloc, files.script)?;
    Ok(Job::Many { db, script })
}

/// A copy of a text, where there is one.
fn copied(alloc: Global, text: Option<&Txt>) -> Result<Option<Txt>, AllocError>
    ensures { IfOk result (λ copy. copy ≡ option_copied text.entry) }
{
    match text {
        None => Ok(None),
        Some(text) => match text.try_clone(alloc) {
            Ok(copy) => Ok(Some(copy)),
            Err(error) => Err(error),
        },
    }
}

/// The files that words to run a script name; none where the words don't ask to run one.
pub(crate) fn run_files(words: &[Txt]) -> Option<RunFiles<'_>>
    ensures { MatchOption result (run_job words.now ≡ None)
        (λ files. run_job words.now ≡ Some
        (Run (option_copied files.db) (option_copied files.script))) }
{
    match files_of("run", words) {
        Some(files) => Some(files),
        None => None,
    }
}

/// The files that words to run a stream name; none where the words don't ask to run one.
pub(crate) fn many_files(words: &[Txt]) -> Option<RunFiles<'_>>
    ensures { MatchOption result (many_job words.now ≡ None)
        (λ files. many_job words.now ≡ Some
        (Many (option_copied files.db) (option_copied files.script))) }
{
    match files_of("many", words) {
        Some(files) => Some(files),
        None => None,
    }
}

/// The files of words that begin with this one.
fn files_of<'a>(name: &str, words: &'a [Txt]) -> Option<RunFiles<'a>>
    ensures { MatchOption result (files_of name.now words.now ≡ None)
        (λ f. files_of name.now words.now ≡ files (option_copied f.db) (option_copied f.script)) }
{
    match words {
        [word] if is_spelled(word, name) => Some(RunFiles {
            db: None,
            script: None,
        }),
        [word, option, value] if is_spelled(word, name) => files_with(option, value),
        [word, first, a, second, b] if is_spelled(word, name) => files_by(first, a, second, b),
        _ => None,
    }
}

/// The files of one option with its value.
fn files_with<'a>(option: &Txt, value: &'a Txt) -> Option<RunFiles<'a>>
    ensures { MatchOption result (files_with option.now value.now ≡ None)
        (λ f. files_with option.now value.now ≡ files (option_copied f.db)
        (option_copied f.script)) }
{
    if !is_option_value(value.as_bytes()) {
        return None;
    }
    if is_spelled(option, "--db") {
        return Some(RunFiles {
            db: Some(value),
            script: None,
        });
    }
    if is_spelled(option, "--script") {
        return Some(RunFiles {
            db: None,
            script: Some(value),
        });
    }
    None
}

/// The files of two options with their values.
fn files_by<'a>(first: &Txt, a: &'a Txt, second: &Txt, b: &'a Txt) -> Option<RunFiles<'a>>
    ensures { MatchOption result (files_by first.now a.now second.now b.now ≡ None)
        (λ f. files_by first.now a.now second.now b.now ≡ files (option_copied f.db)
        (option_copied f.script)) }
{
    if is_spelled(first, "--db") && is_spelled(second, "--script") {
        return both_files(a, b);
    }
    if is_spelled(first, "--script") && is_spelled(second, "--db") {
        return both_files(b, a);
    }
    None
}

/// The files of a base and of a script.
fn both_files<'a>(db: &'a Txt, script: &'a Txt) -> Option<RunFiles<'a>>
    ensures { MatchOption result (both_files db.now script.now ≡ None)
        (λ f. both_files db.now script.now ≡ files (option_copied f.db) (option_copied f.script)) }
{
    if is_option_value(db.as_bytes()) && is_option_value(script.as_bytes()) {
        return Some(RunFiles {
            db: Some(db),
            script: Some(script),
        });
    }
    None
}

/// The file that words ask to check; none where they don't ask for that.
pub(crate) fn checked_file(words: &[Txt]) -> Option<&Txt>
    ensures { MatchOption result (check_job words.now ≡ None)
        (λ file. check_job words.now ≡ Some (Check file.now)) }
{
    match words {
        [word, option, file]
            if is_spelled(word, "check")
                && is_spelled(option, "--db")
                && is_option_value(file.as_bytes()) => { Some(file) }
        _ => None,
    }
}

/// What words ask to generate a script from; none where they don't ask for that.
pub(crate) fn recipe_of(words: &[Txt]) -> Option<Recipe>
    ensures job { MatchOption result (gen_job words.now ≡ None)
        (λ r. gen_job words.now ≡ Some (Gen r.seed r.size)) }
    ensures size { IfSome result (λ r. r.size ≤ most_generated) }
{
    match words {
        [word, first, a, second, b] if is_spelled(word, "gen") => recipe_by(first, a, second, b),
        _ => None,
    }
}

/// The recipe of two options with their values.
fn recipe_by(first: &Txt, a: &Txt, second: &Txt, b: &Txt) -> Option<Recipe>
    ensures job { MatchOption result (generating_by first.now a.now second.now b.now ≡ None)
        (λ r. generating_by first.now a.now second.now b.now ≡ Some (Gen r.seed r.size)) }
    ensures size { IfSome result (λ r. r.size ≤ most_generated) }
{
    if is_spelled(first, "--seed") && is_spelled(second, "--size") {
        return recipe_from(a.as_bytes(), b.as_bytes());
    }
    if is_spelled(first, "--size") && is_spelled(second, "--seed") {
        return recipe_from(b.as_bytes(), a.as_bytes());
    }
    None
}

/// The recipe of a seed and a size.
fn recipe_from(seed: &[u8], size: &[u8]) -> Option<Recipe>
    ensures job { MatchOption result (generating (number_in_digits seed.now) (number_in_digits size.now) ≡ None)
        (λ r. generating (number_in_digits seed.now) (number_in_digits size.now) ≡ Some (Gen r.seed r.size)) }
    ensures size { IfSome result (λ r. r.size ≤ most_generated) }
{
    match number_of(seed) {
        None => None,
        Some(seed) => match number_of(size) {
            None => None,
            Some(size) => {
                if size > MOST_GENERATED as u64 {
                    return None;
                }
                Some(Recipe {
                    seed,
                    size: size as u32,
                })
            }
        },
    }
}

/// The number that 1 to 20 digits spell, where it is below 2^64.
fn number_of(digits: &[u8]) -> Option<u64>
    ensures { result ≡ number_in_digits digits.now }
{
    if digits.is_empty() || digits.len() > MOST_DIGITS {
        return None;
    }
    number_from(digits)
}

/// The number that digits spell, where it is below 2^64.
fn number_from(digits: &[u8]) -> Option<u64>
    ensures { result ≡ number_behind 0 digits.now }
{
    let mut number = 0;
    for digit in digits {
        number = match with_digit(number, *digit) {
            Some(next) => next,
            None => return None,
        };
    }
    Some(number)
}

/// A number with one more digit, where it is below 2^64.
fn with_digit(number: u64, digit: u8) -> Option<u64>
    ensures { result ≡ number_behind number (digit ∷ []) }
{
    if !digit.is_ascii_digit() {
        return None;
    }
    match number.checked_mul(10) {
        Some(tens) => tens.checked_add(u64::from(digit - b'0')),
        None => None,
    }
}

/// Whether a word can be an option's value.
fn is_option_value(value: &[u8]) -> bool
    ensures { result ≡ is_value value.now }
{
    match value {
        [] => false,
        [first, ..] => *first != b'-',
    }
}

/// Whether a word is spelled like this.
fn is_spelled(word: &Txt, spelling: &str) -> bool
    ensures { result ≡ same_text word.now spelling.now }
{
    word.as_str() == spelling
}
