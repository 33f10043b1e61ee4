// Streams of sessions, and their batches run one after the other.
use crate::tests::{Left, ran_from};
use bdb_base::List;
use bdb_io::MemSource;
use std::alloc::Global;
use std::test::Fail;

/// What a stream of sessions leaves, read 7 bytes at a time over a keeper without rows.
fn ran_stream(alloc: Global, stream: &str) -> Result<Left, Fail> {
    let text = Vec::from_slice(alloc, stream.as_bytes())?;
    let mut source = MemSource::new(text, 7, List::new(alloc));
    ran_from(alloc, "many", &mut source)
}

/// How many sessions the streams below have.
const SESSIONS: usize = 3;

/// How many lines they have.
const LINES: u32 = 90;

/// How many lines of a session come again and again: a batch of three inserts, and a command by itself.
const ROUND: u64 = 6;

/// How many keys there are, so that some batches clash.
const KEYS: u64 = 9;

/// Appends the line of a session behind so many others of it.
fn push_line(alloc: Global, stream: &mut String, session: usize, step: u64) -> Result<(), Fail> {
    let key = step.wrapping_mul(5).wrapping_add(session as u64) % KEYS;
    let line = match step % ROUND {
        0 => format!(in alloc; "{session} begin;\n")?,
        4 => format!(in alloc; "{session} commit;\n")?,
        5 => format!(in alloc; "{session} delete from S where k = '{key}';\n")?,
        _ => format!(in alloc; "{session} insert into S values('{key}','{session}');\n")?,
    };
    stream.push_str(line.as_str())?;
    Ok(())
}

/// Appends what the same line runs: at a commit the lines of its batch, and a command outside a batch by itself.
fn push_run(alloc: Global, stream: &mut String, session: usize, step: u64) -> Result<(), Fail> {
    let first = match step % ROUND {
        4 => step.saturating_sub(4),
        5 => step,
        _ => return Ok(()),
    };
    for before in first..step {
        push_line(alloc, stream, session, before)?;
    }
    push_line(alloc, stream, session, step)
}

/// How many lines of a session came so far; one more comes.
fn next_step(steps: &mut [u64], session: usize) -> u64 {
    match steps.get_mut(session) {
        Some(step) => {
            let before = *step;
            *step = before.wrapping_add(1);
            before
        }
        None => 0,
    }
}

/// Lines of sessions in an order that follows from a number, and what they run, one batch behind the other.
#[derive(Drop)]
struct SessionLines {
    mixed: String,
    in_turn: String,
}

/// The first line of each stream.
const FIRST: &str = "0 create relation S(k text, v text);\n";

/// The lines of a number.
fn lines_of(alloc: Global, seed: u64) -> Result<SessionLines, Fail> {
    let mut lines = SessionLines {
        mixed: String::new(alloc),
        in_turn: String::new(alloc),
    };
    lines.mixed.push_str(FIRST)?;
    lines.in_turn.push_str(FIRST)?;
    let mut steps = [0_u64; SESSIONS];
    let mut state = seed;
    for _ in 0..LINES {
        state = state
            .wrapping_mul(6_364_136_223_846_793_005)
            .wrapping_add(1_442_695_040_888_963_407);
        let session = (state >> 33) as usize % SESSIONS;
        let step = next_step(&mut steps, session);
        push_line(alloc, &mut lines.mixed, session, step)?;
        push_run(alloc, &mut lines.in_turn, session, step)?;
    }
    Ok(lines)
}

/// The lines of replies that tell what was run.
fn outcomes(alloc: Global, replies: &[u8]) -> Result<Vec<u8>, Fail> {
    let mut told = Vec::new(alloc);
    for line in replies.split(|byte| *byte == b'\n') {
        if !is_of_waiting(line) {
            told.extend_from_slice(line)?;
            told.push(b'\n')?;
        }
    }
    Ok(told)
}

/// Whether a line tells that nothing was run yet.
fn is_of_waiting(line: &[u8]) -> bool {
    line.ends_with(b": begun") || line.ends_with(b": queued")
}

/// Whether two streams were told the same of what was run, some of which tells an error.
fn are_told_alike(alloc: Global, mixed: &Left, in_turn: &Left) -> Result<bool, Fail> {
    let told = outcomes(alloc, mixed.out.bytes())?;
    let expected = outcomes(alloc, in_turn.out.bytes())?;
    Ok(mixed.status == 1 && in_turn.status == 1 && told.as_slice() == expected.as_slice())
}

/// Whether the lines of a number are told what their batches are told, run one after the other, and leave the same rows.
fn are_alike(alloc: Global, lines: &SessionLines) -> Result<bool, Fail> {
    let mixed = ran_stream(alloc, lines.mixed.as_str())?;
    let in_turn = ran_stream(alloc, lines.in_turn.as_str())?;
    Ok(
        are_told_alike(alloc, &mixed, &in_turn)?
            && mixed.keeper.commits() == in_turn.keeper.commits()
            && mixed.keeper.same_rows(&in_turn.keeper),
    )
}

#[test]
fn mixed_lines_come_to_what_their_batches_do(rt: HostRuntime) -> Result<(), Fail> {
    for seed in 0..20_u64 {
        let lines = lines_of(rt.alloc(), seed)?;
        assert!(rt; are_alike(rt.alloc(), &lines)?, "{seed}");
    }
    Ok(())
}
