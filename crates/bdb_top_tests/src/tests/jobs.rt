// The words of a command line, and generated scripts.
use crate::tests::{Left, listed, ran_from};
use bdb_base::Txt;
use bdb_io::MemSource;
use bdb_samples::words_of;
use bdb_top::job_of;
use std::alloc::Global;
use std::test::Fail;

/// Lines whose words name a job that reads its source.
const NAMING: [&str; 7] = [
    "run",
    "run --script a",
    "run --db a",
    "run --db a --script b",
    "run --script b --db a",
    "many",
    "many --script b --db a",
];

/// Lines whose words name no job.
const NAMELESS: [&str; 27] = [
    "",
    "many --help",
    "run --script",
    "run --script -a",
    "run --script=a",
    "run --script a --script b",
    "run --db",
    "run --db -a",
    "run --db=a",
    "run --db a --db b",
    "run --db a --script -b",
    "run --help",
    "check",
    "check a",
    "check --db",
    "check --db -a",
    "check --script a",
    "check --db a --script b",
    "Check --db a",
    "gen --seed x --size 1",
    "gen --seed 1",
    "gen --seed 1 --seed 1",
    "gen --seed 1 --size 10001",
    "gen --seed 18446744073709551616 --size 1",
    "gen --seed 000000000000000000001 --size 1",
    "gen --seed 1 --size 1 --seed 1",
    "Run",
];

/// Whether the words of a line name a job, where this is true. Then the source is read, else nothing is done.
fn are_taken(alloc: Global, line: &str, is_job: bool) -> Result<bool, Fail> {
    let ends = if is_job { 3 } else { 2 };
    Ok(are_named(alloc, line)? == is_job && ran_line(alloc, line)?.is_told("", ends))
}

/// Whether the words of a line name a job.
fn are_named(alloc: Global, line: &str) -> Result<bool, Fail> {
    let words = words_of(alloc, line)?;
    Ok(job_of(alloc, words.as_slice()).is_ok())
}

#[test]
fn words_name_jobs(rt: HostRuntime) -> Result<(), Fail> {
    let alloc = rt.alloc();
    for line in NAMING {
        assert!(rt; are_taken(alloc, line, true)?, "{line}");
    }
    for line in NAMELESS {
        assert!(rt; are_taken(alloc, line, false)?, "{line}");
    }
    Ok(())
}

/// What the words of a line leave over a source that fails at its first read.
fn ran_line(alloc: Global, line: &str) -> Result<Left, Fail> {
    let script = Vec::from_slice(alloc, b"create user 'A';")?;
    let mut source = MemSource::new(script, 1, listed(alloc, &[1])?);
    ran_from(alloc, line, &mut source)
}

/// Whether the words of a line end well, and this is written.
fn is_told(alloc: Global, line: &str, summary: &[u8]) -> Result<bool, Fail> {
    let left = ran_line(alloc, line)?;
    Ok(left.status == 0 && left.out.bytes() == summary)
}

/// Whether the words of two lines end well, and the same is written.
fn are_told_alike(alloc: Global, line: &str, other: &str) -> Result<bool, Fail> {
    let left = ran_line(alloc, line)?;
    Ok(left.status == 0 && is_told(alloc, other, left.out.bytes())?)
}

#[test]
fn generated_scripts_are_told_of_alike(rt: HostRuntime) -> Result<(), Fail> {
    let line = "gen --seed 3 --size 200";
    assert!(rt; are_told_alike(rt.alloc(), line, "gen --size 200 --seed 3")?);
    Ok(())
}

/// The number that stands at a place among these words.
fn number_at(words: &[Txt], at: usize) -> Option<u64> {
    words.get(at)?.as_str().parse::<u64>().ok()
}

/// How many commands a summary tells of, accepted or refused.
fn commands_told_of(alloc: Global, summary: &[u8]) -> Result<Option<u64>, Fail> {
    let words = words_of(alloc, std::str::from_utf8(summary)?)?;
    match (
        number_at(words.as_slice(), 1),
        number_at(words.as_slice(), 3),
    ) {
        (Some(accepted), Some(refused)) => Ok(accepted.checked_add(refused)),
        _ => Ok(None),
    }
}

#[test]
fn the_largest_generated_script_is_told_of(rt: HostRuntime) -> Result<(), Fail> {
    let line = "gen --seed 7 --size 10000";
    let left = ran_line(rt.alloc(), line)?;
    assert_eq!(rt; left.status, 0);
    assert_eq!(rt;
        commands_told_of(rt.alloc(), left.out.bytes())?,
        Some(10_009)
    );
    assert!(rt; are_told_alike(rt.alloc(), line, line)?);
    Ok(())
}
