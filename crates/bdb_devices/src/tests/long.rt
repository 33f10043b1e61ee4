// A long script over a keeper that fails again and again: each time the commands stand that were done, and the others are done
// afterwards.
ghost use Rattle.std.specs.Prelude.{◌≡◌, false};

use crate::tests::{commands_in, left_by_none, parted, quiet_keeper, replies_in, told};
use bdb_base::List;
use bdb_gen::{Draws, generate};
use bdb_memory::MemKeeper;
use std::alloc::Global;
use std::test::Fail;

/// The numbers that scripts are made from, and calls that fail drawn.
const SEEDS: [u64; 3] = [1, 2, 3];

/// How many commands a script has behind the first nine, which make its users and its relation.
const SIZE: u32 = 3_000;

/// How many calls fail.
const FAULTS: u32 = 60;

/// How many calls there are at most from one that fails to the next one that fails.
const GAP: u64 = 10_000;

/// The calls that fail.
fn failing(alloc: Global, seed: u64) -> Result<List<u32>, Fail> {
    let mut draws = Draws::new(seed);
    let mut calls = List::new(alloc);
    let mut call: u32 = 0;
    for _ in 0..FAULTS {
        let gap = draws.draw(GAP) as u32;
        call = call.saturating_add(gap).saturating_add(1);
        calls.push(call)?;
    }
    Ok(calls)
}

/// A keeper that fails, another one over which the same commands are done, and the replies of the first.
#[derive(Drop)]
struct Pair {
    keeper: MemKeeper,
    twin: MemKeeper,
    replies: Vec<u8>,
}

/// Runs the commands that are left over the keeper that fails, and those that were done then over the other one. Tells the
/// status and how many were done; an error where the two don't agree.
fn go_on(alloc: Global, rest: &[u8], pair: &mut Pair) -> Result<(u8, usize), Fail>
    requires idle_keeper { pair.old.keeper.seen.running ≡ false }
    requires idle_twin { pair.old.twin.seen.running ≡ false }
    ensures idle_keeper { pair.new.keeper.seen.running ≡ false }
    ensures idle_twin { pair.new.twin.seen.running ≡ false }
{
    let (status, out) = told(alloc, rest, &mut pair.keeper)?;
    let done = replies_in(out.bytes());
    pair.replies.extend_from_slice(out.bytes())?;
    if 0 < pair.keeper.commits() {
        let (first, _) = parted(rest, done);
        let (_, expected) = told(alloc, first, &mut pair.twin)?;
        if expected.bytes() != out.bytes() {
            return Err(Fail::new("the replies are others"));
        }
    }
    if pair.keeper.commits() != pair.twin.commits() || !pair.keeper.same_rows(&pair.twin) {
        return Err(Fail::new("the rows are others"));
    }
    Ok((status, done))
}

/// Carries out a script, from each fault on what is left of it. Tells the last status and how many faults there were.
fn carry_out(alloc: Global, script: &[u8], pair: &mut Pair) -> Result<(u8, u32), Fail>
    requires idle_keeper { pair.old.keeper.seen.running ≡ false }
    requires idle_twin { pair.old.twin.seen.running ≡ false }
    ensures idle_keeper { pair.new.keeper.seen.running ≡ false }
    ensures idle_twin { pair.new.twin.seen.running ≡ false }
{
    let mut rest = script;
    for faults in 0..FAULTS + 1 {
        let (status, done) = go_on(alloc, rest, pair)?;
        if status != 5 {
            return Ok((status, faults));
        }
        let (_, others) = parted(rest, done);
        rest = others;
    }
    Err(Fail::new("there are more faults than calls that fail"))
}

/// Whether a script that is carried out over a keeper that fails at calls of this seed ends as an undisturbed run of it.
fn ends_as_undisturbed(alloc: Global, script: &[u8], seed: u64) -> Result<bool, Fail> {
    let left = left_by_none(alloc, script)?;
    let mut pair = Pair {
        keeper: MemKeeper::new(alloc, failing(alloc, seed)?),
        twin: quiet_keeper(alloc),
        replies: Vec::new(alloc),
    };
    let (status, faults) = carry_out(alloc, script, &mut pair)?;
    Ok(
        left.status == 1
            && status == 1
            && faults == FAULTS
            && pair.replies.as_slice() == left.out.bytes()
            && pair.keeper.commits() == left.keeper.commits()
            && pair.keeper.same_rows(&left.keeper),
    )
}

#[test]
fn calls_fail_again_and_again(rt: HostRuntime) -> Result<(), Fail> {
    let alloc = rt.alloc();
    for seed in SEEDS {
        let script = generate(alloc, seed, SIZE)?;
        assert_eq!(rt; commands_in(script.as_slice()), 3_009);
        assert!(rt;
            ends_as_undisturbed(alloc, script.as_slice(), seed)?,
            "seed {seed}"
        );
    }
    Ok(())
}
