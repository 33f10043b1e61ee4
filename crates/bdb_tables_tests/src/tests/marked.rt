// Tests of the count of marked rows.
ghost use Rattle.std.specs.Prelude.{◌≡◌, ◌≤◌, false, OnOk, OnErr};

use crate::tests::failing_at;
use bdb_keep::{KeepError, Keeper, KeyEnd};
use std::test::Fail;

/// Keys that begin with the number 1, or 2, and end with 7, or 8; the long ones are of 33 and 36 bytes.
const SHORT_1_7: &[u8] = b"\0\0\0\x01\0\0\0\x07";

const LONG_1_7: &[u8] = b"\0\0\0\x01aaaaaaaaaaaaaaaaaaaaaaaaa\0\0\0\x07";

const SHORT_1_8: &[u8] = b"\0\0\0\x01\0\0\0\x08";

const LONG_2_7: &[u8] = b"\0\0\0\x02aaaaaaaaaaaaaaaaaaaaaaaaaaaa\0\0\0\x07";

/// Whether so many rows are marked at the number 1 in the first four bytes of their keys, and so many at 7 in the last four.
fn counts<K: Keeper>(keeper: &mut K, tab: u8, first: usize, last: usize) -> Result<bool, KeepError>
    requires table { (1 ≤ tab) × (tab ≤ 15) }
    ensures ok { OnOk result ((K.seen keeper.new).running ≡ (K.seen keeper.old).running) }
    ensures err { OnErr result ((K.seen keeper.new).running ≡ false) }
{
    let at_first = keeper.count_marked(tab, KeyEnd::First, 1)?;
    let at_last = keeper.count_marked(tab, KeyEnd::Last, 7)?;
    Ok(at_first == first && at_last == last)
}

/// A transaction that puts four rows, of which three are marked, and a key that has no four bytes.
fn filled<K: Keeper>(keeper: &mut K, tab: u8) -> Result<bool, KeepError>
    requires idle { (K.seen keeper.old).running ≡ false }
    requires table { (1 ≤ tab) × (tab ≤ 15) }
    ensures { (K.seen keeper.new).running ≡ false }
{
    keeper.begin()?;
    keeper.put(tab, SHORT_1_7, b"\0\0\0\x01")?;
    keeper.put(tab, LONG_1_7, b"aaaaaaaaaaa\x03")?;
    keeper.put(tab, SHORT_1_8, b"\0\0\0\x02")?;
    keeper.put(tab, LONG_2_7, b"\0\0\0\x03")?;
    keeper.put(tab, b"\x01", b"\x01")?;
    let right = counts(keeper, tab, 2, 3)?;
    keeper.commit()?;
    Ok(right)
}

/// A transaction in which one of these rows stops being marked, one begins to be, and one goes; and it is undone.
fn changed_and_undone<K: Keeper>(keeper: &mut K, tab: u8) -> Result<bool, KeepError>
    requires idle { (K.seen keeper.old).running ≡ false }
    requires table { (1 ≤ tab) × (tab ≤ 15) }
    ensures { (K.seen keeper.new).running ≡ false }
{
    keeper.begin()?;
    keeper.put(tab, SHORT_1_7, b"\0\0\0\0")?;
    let stopped = counts(keeper, tab, 1, 2)?;
    keeper.put(tab, SHORT_1_8, b"\x05")?;
    let begun = counts(keeper, tab, 2, 2)?;
    keeper.remove(tab, LONG_2_7)?;
    let gone = counts(keeper, tab, 2, 1)?;
    keeper.undo();
    Ok(stopped && begun && gone)
}

#[test]
fn marked_rows_are_counted(rt: HostRuntime) -> Result<(), Fail> {
    for tab in 10u8..12 {
        let mut keeper = failing_at(rt.alloc(), 0)?;
        assert_eq!(rt; filled(&mut keeper, tab), Ok(true));
        assert_eq!(rt; changed_and_undone(&mut keeper, tab), Ok(true));
        assert_eq!(rt; counts(&mut keeper, tab, 2, 3), Ok(true));
        assert_eq!(rt; counts(&mut keeper, 9, 0, 0), Ok(true));
    }
    Ok(())
}

#[test]
fn a_row_that_is_taken_away_is_not_counted(rt: HostRuntime) -> Result<(), Fail> {
    let mut keeper = failing_at(rt.alloc(), 0)?;
    keeper.preset(11, SHORT_1_7, b"\x01")?;
    keeper.preset(11, SHORT_1_7, b"\x03")?;
    assert_eq!(rt; counts(&mut keeper, 11, 1, 1), Ok(true));
    keeper.unset(11, SHORT_1_7);
    assert_eq!(rt; counts(&mut keeper, 11, 0, 0), Ok(true));
    Ok(())
}

#[test]
fn rows_at_great_numbers_are_counted(rt: HostRuntime) -> Result<(), Fail> {
    let mut keeper = failing_at(rt.alloc(), 0)?;
    keeper.preset(11, b"\0\x0f\xff\xff\0\x10\0\0", b"\x01")?;
    assert_eq!(rt; keeper.count_marked(11, KeyEnd::First, 1_048_575), Ok(1));
    assert_eq!(rt; keeper.count_marked(11, KeyEnd::Last, 1_048_576), Ok(1));
    assert_eq!(rt; keeper.count_marked(11, KeyEnd::Last, 1_048_575), Ok(0));
    Ok(())
}

#[test]
fn a_keeper_fails_where_marked_rows_are_counted(rt: HostRuntime) -> Result<(), Fail> {
    let mut keeper = failing_at(rt.alloc(), 2)?;
    assert_eq!(rt; counts(&mut keeper, 11, 0, 0), Err(KeepError::Fault));
    assert_eq!(rt; counts(&mut keeper, 11, 0, 0), Ok(true));
    Ok(())
}
