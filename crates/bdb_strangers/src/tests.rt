// Tables of any bytes: what `check` tells of them, and what a run makes of them.
ghost use Rattle.std.specs.Prelude.{◌≡◌, false, IfOk};

mod changes;

use crate::tests::changes::carry_out;
use bdb_base::List;
use bdb_io::{MemSink, MemSource};
use bdb_keep::Keeper;
use bdb_memory::{MemKeeper, QuietKeeper};
use bdb_samples::words_of;
use bdb_top::run;
use std::alloc::Global;
use std::test::Fail;

/// Two curators, and a relation. Bob denies what the list says; his world has the number 1.
const DENIED: &str = "create user 'Alice'; create user 'Bob'; create relation S(k text, v text); \
     insert into S values('s1','eagle'); insert into BELIEF 'Bob' not S values('s1','eagle');";

/// Three curators, of whom Carol believes something of Alice, who believes more. The number of what Carol believes of her is 2.
const INHERITED: &str =
    "create user 'Alice'; create user 'Bob'; create relation S(k text, v text); \
     create user 'Carol'; insert into BELIEF 'Carol' BELIEF 'Alice' S values('s1','eagle'); \
     insert into BELIEF 'Alice' S values('s2','crow');";

/// What `check` tells of tables that hold no base of any format.
const DAMAGED: &str = "error damaged";

/// How many bytes of replies a sink takes.
const ROOM: usize = 2_000_000;

/// A sink that never fails.
fn sink(alloc: Global) -> Result<MemSink, Fail> {
    Ok(MemSink::new(alloc, List::new(alloc), 0, ROOM)?)
}

/// The status of the words of a line over a script and a keeper, and what is written.
fn ran<K: Keeper>(
    alloc: Global,
    line: &str,
    script: &str,
    keeper: &mut K,
) -> Result<(u8, MemSink), Fail>
    requires idle { (K.seen keeper.old).running ≡ false }
    ensures idle { (K.seen keeper.new).running ≡ false }
{
    let words = words_of(alloc, line)?;
    let text = Vec::from_slice(alloc, script.as_bytes())?;
    let mut source = MemSource::new(text, 7, List::new(alloc));
    let mut out = sink(alloc)?;
    let status = run(alloc, words.as_slice(), &mut source, &mut out, keeper);
    Ok((status, out))
}

/// A keeper with the rows that commands leave, and these changes.
fn quiet_with(alloc: Global, commands: &str, changes: &str) -> Result<QuietKeeper, Fail>
    ensures idle { IfOk result (λ keeper. keeper.running ≡ false) }
{
    let mut keeper = QuietKeeper::new(alloc);
    ran(alloc, "run", commands, &mut keeper)?;
    carry_out(alloc, changes, &mut keeper)?;
    Ok(keeper)
}

/// The same, in a keeper that may be told to fail.
fn mem_with(alloc: Global, commands: &str, changes: &str) -> Result<MemKeeper, Fail>
    ensures idle { IfOk result (λ keeper. keeper.seen.running ≡ false) }
{
    let mut keeper = MemKeeper::new(alloc, List::new(alloc));
    ran(alloc, "run", commands, &mut keeper)?;
    carry_out(alloc, changes, &mut keeper)?;
    Ok(keeper)
}

/// Whether a check of a keeper's rows tells a line, and a run without a command ends with the same status and tells nothing.
fn tells<K: Keeper>(alloc: Global, keeper: &mut K, line: &str) -> Result<bool, Fail>
    requires idle { (K.seen keeper.old).running ≡ false }
    ensures idle { (K.seen keeper.new).running ≡ false }
{
    let status = if line == "ok" { 0 } else { 7 };
    let (checked, told) = ran(alloc, "check --db a", "", keeper)?;
    let (ended, replies) = ran(alloc, "run", "", keeper)?;
    Ok(
        checked == status
            && ended == status
            && told.bytes().strip_suffix(b"\n") == Some(line.as_bytes())
            && replies.bytes().is_empty(),
    )
}

/// Whether both keepers tell a line of the rows that commands leave where they are changed so, and keep them.
fn both_tell(alloc: Global, commands: &str, changes: &str, line: &str) -> Result<bool, Fail> {
    let mut quiet = quiet_with(alloc, commands, changes)?;
    let mut other = mem_with(alloc, commands, changes)?;
    Ok(
        tells(alloc, &mut quiet, line)?
            && tells(alloc, &mut other, line)?
            && quiet.same_rows(&quiet_with(alloc, commands, changes)?)
            && other.same_rows(&mem_with(alloc, commands, changes)?),
    )
}

#[test]
fn rows_of_a_base_are_sound(rt: HostRuntime) -> Result<(), Fail> {
    let alloc = rt.alloc();
    assert!(rt; both_tell(alloc, DENIED, "", "ok")?);
    // Bob believes what he denied.
    let believed = "0b 0000000100000000000000010273310000000000 00000001";
    assert!(rt; both_tell(alloc, DENIED, believed, "ok")?);
    // Bob's world is 5.
    let moved = "06 00000001 -; 06 00000005 00000001; 07 00000001 -; 07 00000005 00000000; \
         08 0000000000000001 -; 08 0000000000000005 .; 09 0000000000000002 00000005; \
         09 0000000100000001 -; 09 0000000500000001 00000000; 0a 000000010000000000000002 -; \
         0a 000000050000000000000002 .; 0a 000000000000000100000001 -; 0a 000000000000000500000001 .; \
         0b 0000000100000000000000010273310000000000 -; 0b 0000000500000000000000010273310000000000 00000003";
    assert!(rt; both_tell(alloc, DENIED, moved, "ok")?);
    Ok(())
}

#[test]
fn other_formats_are_told(rt: HostRuntime) -> Result<(), Fail> {
    let alloc = rt.alloc();
    let earlier = "01 00000000 00000001";
    assert!(rt; both_tell(alloc, DENIED, earlier, "error format 1")?);
    let former = "01 00000000 00000002";
    assert!(rt; both_tell(alloc, DENIED, former, DAMAGED)?);
    let later = "01 00000000 00000063";
    assert!(rt; both_tell(alloc, INHERITED, later, "error format 99")?);
    Ok(())
}

#[test]
fn rows_of_no_table_are_damage(rt: HostRuntime) -> Result<(), Fail> {
    let alloc = rt.alloc();
    for changes in [
        // No row of a format, one that is a byte longer, and two of them.
        "01 00000000 -",
        "01 00000000 0000000300",
        "01 00000001 00000003",
        // A row of a table that isn't there, and a name that doesn't end.
        "0d 00 00",
        "02 00000002 02426f62",
    ] {
        assert!(rt; both_tell(alloc, DENIED, changes, DAMAGED)?, "{changes}");
    }
    Ok(())
}

#[test]
fn rows_that_disagree_are_damage(rt: HostRuntime) -> Result<(), Fail> {
    let alloc = rt.alloc();
    for changes in [
        // Two users of one name.
        "02 00000002 02416c69636500",
        // Bob's world is deeper than its path, and its link is in one table alone.
        "06 00000001 00000002",
        "08 0000000000000001 -",
        // Bob's edge leads to the list.
        "09 0000000000000002 00000000; 0a 000000010000000000000002 -; 0a 000000000000000000000002 .",
        // A row under the key of another tuple, under no value, and under more values than the key of a relation has.
        "0b 0000000100000000000000010273320000000000 00000003",
        "0b 00000001000000000000000000000000 00000003",
        "0b 00000001000000000000000202733100026561676c650000000000 00000003",
    ] {
        assert!(rt; both_tell(alloc, DENIED, changes, DAMAGED)?, "{changes}");
    }
    Ok(())
}

#[test]
fn rows_of_no_statement_are_damage(rt: HostRuntime) -> Result<(), Fail> {
    let alloc = rt.alloc();
    for changes in [
        // What Bob denies isn't stated any more.
        "0b 0000000100000000000000010273310000000000 00000002",
        // A tuple of which nothing is stated.
        "04 00000001 000000000273320002637200; 05 000000000273320002637200 00000001",
        // All rows but those of the users are gone.
        "01 00000000 -; 03 00000000 -; 04 00000000 -; 05 0000000002733100026561676c6500 -; \
         06 00000000 -; 06 00000001 -; 07 00000001 -; 08 0000000000000001 -; \
         09 0000000000000001 -; 09 0000000000000002 -; 09 0000000100000001 -; \
         0a 000000000000000000000001 -; 0a 000000010000000000000002 -; 0a 000000000000000100000001 -; \
         0b 0000000000000000000000010273310000000000 -; 0b 0000000100000000000000010273310000000000 -",
    ] {
        assert!(rt; both_tell(alloc, DENIED, changes, DAMAGED)?, "{changes}");
    }
    // What Carol's Alice inherits is gone.
    let missing = "0b 0000000200000000000000010273320000000001 -";
    assert!(rt; both_tell(alloc, INHERITED, missing, DAMAGED)?);
    Ok(())
}

#[test]
fn rows_of_who_is_gone(rt: HostRuntime) -> Result<(), Fail> {
    let alloc = rt.alloc();
    // Alice's name is gone, and with it the edges that stand for her.
    let gone = "02 00000001 .; 09 0000000000000001 -; 09 0000000100000001 -; \
         0a 000000000000000000000001 -; 0a 000000000000000100000001 -";
    assert!(rt; both_tell(alloc, DENIED, gone, "ok")?);
    for changes in [
        // Her edges stay; the edge of one world stays; what leads to a world stays turned round.
        "02 00000001 .",
        "02 00000001 .; 09 0000000000000001 -; 0a 000000000000000000000001 -",
        "02 00000001 .; 09 0000000000000001 -; 09 0000000100000001 -; 0a 000000000000000000000001 -",
        // The name of Bob is gone, whose path has a world.
        "02 00000002 .",
        // There is a row of one who is gone, and none of the users before him.
        "02 00000004 .",
    ] {
        assert!(rt; both_tell(alloc, DENIED, changes, DAMAGED)?, "{changes}");
    }
    Ok(())
}
