// Tests of copies, over rows of the former format written by hand.
ghost use Rattle.std.specs.Prelude.{◌≤◌};

use bdb_copy::respelled_copy;
use bdb_memory::QuietKeeper;
use std::alloc::Global;
use std::test::Fail;

/// Whether the copy of a table with one row has one row with this key and these bytes.
#[tactic(auto, using(bdb_keep::proofs::TableLemmas::none_lie, bdb_keep::proofs::TableLemmas::put_lies))]
fn becomes(
    alloc: Global,
    tab: u8,
    key: &[u8],
    row: &[u8],
    spelled_key: &[u8],
    spelled_row: &[u8],
) -> Result<bool, Fail>
    requires { (1 ≤ tab) × (tab ≤ 15) }
{
    let mut keeper = QuietKeeper::new(alloc);
    keeper.preset(tab, key, row)?;
    let copy = respelled_copy(alloc, &mut keeper)?;
    let mut expected = QuietKeeper::new(alloc);
    expected.preset(tab, spelled_key, spelled_row)?;
    Ok(copy.same_rows(&expected))
}

/// Whether a row is as it is in the copy.
fn stays(alloc: Global, tab: u8, key: &[u8], row: &[u8]) -> Result<bool, Fail>
    requires { (1 ≤ tab) × (tab ≤ 15) }
{
    let same = becomes(alloc, tab, key, row, key, row)?;
    Ok(same)
}

#[test]
fn a_format_becomes_this(rt: HostRuntime) -> Result<(), Fail> {
    let alloc = rt.alloc();
    let next = becomes(
        alloc,
        1,
        b"\0\0\0\0",
        b"\0\0\0\x02",
        b"\0\0\0\0",
        b"\0\0\0\x03",
    )?;
    assert!(rt; next);
    let other = stays(alloc, 1, b"\0\0\0\0", b"\0\0\0\x04")?;
    assert!(rt; other);
    Ok(())
}

#[test]
fn a_relation_gets_a_length(rt: HostRuntime) -> Result<(), Fail> {
    let alloc = rt.alloc();
    let former = b"\x02S\0\x02k\0\x01\x80\0\0\0\0\0\0\x01";
    let spelled = b"\x02S\0\x01\x80\0\0\0\0\0\0\x01\x02k\0\x01\x80\0\0\0\0\0\0\x01";
    let named = becomes(alloc, 3, b"\0\0\0\0", former, b"\0\0\0\0", spelled)?;
    assert!(rt; named);
    let unended = stays(alloc, 3, b"\0\0\0\0", b"\x02S")?;
    assert!(rt; unended);
    let unnamed = stays(alloc, 3, b"\0\0\0\0", b"\x01\x80\0\0\0\0\0\0\x01")?;
    assert!(rt; unnamed);
    let bare = stays(alloc, 3, b"\0\0\0\0", b"")?;
    assert!(rt; bare);
    Ok(())
}

#[test]
fn a_key_gets_a_count(rt: HostRuntime) -> Result<(), Fail> {
    let alloc = rt.alloc();
    let former = b"\0\0\0\0\0\0\0\0\x02s1\0\0\0\0\0";
    let spelled = b"\0\0\0\0\0\0\0\0\0\0\0\x01\x02s1\0\0\0\0\0";
    let counted = becomes(alloc, 11, former, b"\0\0\0\x01", spelled, b"\0\0\0\x01")?;
    assert!(rt; counted);
    let short = stays(alloc, 11, b"\0\0\0\0\0\0\0", b"\0\0\0\x01")?;
    assert!(rt; short);
    Ok(())
}

#[test]
fn no_user_was_gone(rt: HostRuntime) -> Result<(), Fail> {
    let alloc = rt.alloc();
    let nameless = becomes(alloc, 2, b"\0\0\0\x01", b"", b"\0\0\0\x01", b"\0")?;
    assert!(rt; nameless);
    let elsewhere = stays(alloc, 8, b"\0\0\0\0\0\0\0\x01", b"")?;
    assert!(rt; elsewhere);
    Ok(())
}

#[test]
fn other_rows_stay(rt: HostRuntime) -> Result<(), Fail> {
    let alloc = rt.alloc();
    let user = stays(alloc, 2, b"\0\0\0\x01", b"\x02Bob\0")?;
    assert!(rt; user);
    let edge = stays(alloc, 9, b"\0\0\0\0\0\0\0\x01", b"\0\0\0\x02")?;
    assert!(rt; edge);
    let last = stays(alloc, 15, b"", b"\0\0\0\x02")?;
    assert!(rt; last);
    Ok(())
}
