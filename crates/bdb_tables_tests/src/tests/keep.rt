// Tests of the keepers in memory.
ghost use Rattle.std.specs.Prelude.{◌≡◌, false};

use crate::tests::failing_at;
use bdb_keep::{KeepError, Keeper, Span};
use bdb_memory::{QuietKeeper, Store};
use std::alloc::{AllocError, Global};
use std::test::Fail;

/// Eight calls that are counted: a transaction that puts three rows and takes one away. The answer tells whether each
/// call answered what it should.
fn story<K: Keeper>(alloc: Global, keeper: &mut K) -> Result<bool, KeepError>
    requires { (K.seen keeper.old).running ≡ false }
    ensures { (K.seen keeper.new).running ≡ false }
{
    let mut key = Vec::new(alloc);
    let mut row = Vec::new(alloc);
    keeper.begin()?;
    keeper.put(1, b"a", b"one")?;
    keeper.put(1, b"c", b"three")?;
    keeper.put(2, b"b", b"two")?;
    let there = keeper.get(1, b"a", &mut row)? && row.as_slice() == b"one".as_slice();
    let gone = keeper.remove(1, b"a")?;
    let next = keeper.next(1, b"a", &mut key, &mut row)?
        && key.as_slice() == b"c".as_slice()
        && row.as_slice() == b"three".as_slice();
    keeper.commit()?;
    Ok(there && gone && next)
}

/// A transaction that takes a row away, puts it again in another form, puts a new one, and is undone.
fn undone<K: Keeper>(keeper: &mut K) -> Result<(), KeepError>
    requires { (K.seen keeper.old).running ≡ false }
    ensures { (K.seen keeper.new).running ≡ false }
{
    keeper.begin()?;
    keeper.remove(1, b"c")?;
    keeper.put(1, b"c", b"four")?;
    keeper.put(1, b"d", b"five")?;
    keeper.undo();
    Ok(())
}

/// Four calls that are counted: a transaction that puts rows at once, and takes some away at once.
fn written_at_once<K: Keeper>(keeper: &mut K, rows: &Span, gone: &Span) -> Result<(), KeepError>
    requires { (K.seen keeper.old).running ≡ false }
    ensures { (K.seen keeper.new).running ≡ false }
{
    keeper.begin()?;
    keeper.put_all(1, rows)?;
    keeper.remove_all(1, gone)?;
    keeper.commit()?;
    Ok(())
}

/// A transaction that takes rows away at once, puts some at once, and is undone.
fn undone_at_once<K: Keeper>(keeper: &mut K, rows: &Span, gone: &Span) -> Result<(), KeepError>
    requires { (K.seen keeper.old).running ≡ false }
    ensures { (K.seen keeper.new).running ≡ false }
{
    keeper.begin()?;
    keeper.remove_all(1, gone)?;
    keeper.put_all(1, rows)?;
    keeper.undo();
    Ok(())
}

/// Rows that are their keys.
fn span_of(alloc: Global, words: &str) -> Result<Span, AllocError> {
    let mut span = Span::new(alloc);
    for word in words.split_whitespace() {
        span.push(word.as_bytes(), word.as_bytes())?;
    }
    Ok(span)
}

#[test]
fn a_keeper_fails_at_each_call_in_turn(rt: HostRuntime) -> Result<(), Fail> {
    let alloc = rt.alloc();
    let none = failing_at(alloc, 0)?;
    for call in 1..9 {
        let mut keeper = failing_at(alloc, call)?;
        assert_eq!(rt;
            story(alloc, &mut keeper),
            Err(KeepError::Fault),
            "at {call}"
        );
        assert!(rt; keeper.same_rows(&none));
        assert_eq!(rt; keeper.commits(), 0);
    }
    Ok(())
}

#[test]
fn a_keeper_fails_where_rows_are_written_at_once(rt: HostRuntime) -> Result<(), Fail> {
    let alloc = rt.alloc();
    let none = failing_at(alloc, 0)?;
    let rows = span_of(alloc, "a b bb c d")?;
    let gone = span_of(alloc, "a bb x d")?;
    for call in 1..5 {
        let mut keeper = failing_at(alloc, call)?;
        assert_eq!(rt;
            written_at_once(&mut keeper, &rows, &gone),
            Err(KeepError::Fault),
            "at {call}"
        );
        assert!(rt; keeper.same_rows(&none));
    }
    Ok(())
}

#[test]
fn rows_written_at_once_are_kept_or_undone(rt: HostRuntime) -> Result<(), Fail> {
    let alloc = rt.alloc();
    let rows = span_of(alloc, "a b bb c d")?;
    let gone = span_of(alloc, "a bb x d")?;
    let mut wanted = failing_at(alloc, 0)?;
    wanted.preset(1, b"b", b"b")?;
    wanted.preset(1, b"c", b"c")?;
    let mut keeper = failing_at(alloc, 0)?;
    assert_eq!(rt; written_at_once(&mut keeper, &rows, &gone), Ok(()));
    assert!(rt; keeper.same_rows(&wanted));
    assert_eq!(rt; undone_at_once(&mut keeper, &gone, &rows), Ok(()));
    assert!(rt; keeper.same_rows(&wanted));
    assert_eq!(rt; keeper.commits(), 1);
    Ok(())
}

#[test]
fn a_keeper_keeps_what_was_committed(rt: HostRuntime) -> Result<(), Fail> {
    let alloc = rt.alloc();
    let mut wanted = failing_at(alloc, 0)?;
    wanted.preset(1, b"c", b"three")?;
    wanted.preset(2, b"b", b"two")?;
    let mut keeper = failing_at(alloc, 9)?;
    assert_eq!(rt; story(alloc, &mut keeper), Ok(true));
    assert!(rt; keeper.same_rows(&wanted));
    assert_eq!(rt; keeper.commits(), 1);
    assert_eq!(rt; undone(&mut keeper), Err(KeepError::Fault));
    assert!(rt; keeper.same_rows(&wanted));
    assert_eq!(rt; undone(&mut keeper), Ok(()));
    assert!(rt; keeper.same_rows(&wanted));
    wanted.unset(2, b"b");
    assert!(rt; !keeper.same_rows(&wanted));
    assert!(rt; !wanted.same_rows(&keeper));
    Ok(())
}

#[test]
fn a_quiet_keeper_keeps_what_was_committed(rt: HostRuntime) -> Result<(), Fail> {
    let alloc = rt.alloc();
    let mut wanted = QuietKeeper::new(alloc);
    wanted.preset(1, b"c", b"three")?;
    wanted.preset(2, b"b", b"two")?;
    let mut keeper = QuietKeeper::new(alloc);
    assert_eq!(rt; story(alloc, &mut keeper), Ok(true));
    assert!(rt; keeper.same_rows(&wanted));
    assert_eq!(rt; undone(&mut keeper), Ok(()));
    assert!(rt; keeper.same_rows(&wanted));
    assert_eq!(rt; keeper.commits(), 1);
    wanted.unset(1, b"c");
    assert!(rt; !keeper.same_rows(&wanted));
    Ok(())
}

#[test]
fn a_store_lists_its_changes(rt: HostRuntime) -> Result<(), Fail> {
    let mut store = Store::new(rt.alloc());
    store.preset(1, b"a", b"one")?;
    assert_eq!(rt; store.change_count(), 0);
    store.put(2, b"bc", b"two")?;
    assert!(rt; store.remove(1, b"a")?);
    assert_eq!(rt; store.change_count(), 2);
    let wanted = [(2, b"bc".as_slice(), true), (1, b"a".as_slice(), false)];
    let mut at = 0;
    for (tab, key, is_there) in wanted {
        assert!(rt; at < store.change_count());
        let (changed, its_key) = store.changed_place(at);
        assert_eq!(rt; changed, tab);
        assert_eq!(rt; its_key, key);
        assert_eq!(rt; store.changed_row(at).is_some(), is_there);
        at += 1;
    }
    Ok(())
}

/// Keys of up to 25 bytes, which may lie in an entry itself, and longer ones: in no order, and in their order.
const KEYS: &str = "bb aaaaaaaaaaaaaaaaaaaaaaaaaaaaaaaab aaaaaaaaaaaaaaaaaaaaaaaaab \
     aaaaaaaaaaaaaaaaaaaaaaaaaaaaaaab aaaaaaaaaaaaaaaaaaaaaaaaaaaaaaaaaaaaaaaaaaa \
     aaaaaaaaaaaaaaaaa aaaaaaaaaaaaaaaaaaaaaaaaaaaaaaaa aaaaaaaaaaaaaaaaaaaaaaaaa a";

const KEYS_IN_ORDER: &str =
    "a aaaaaaaaaaaaaaaaa aaaaaaaaaaaaaaaaaaaaaaaaa aaaaaaaaaaaaaaaaaaaaaaaaaaaaaaaa \
     aaaaaaaaaaaaaaaaaaaaaaaaaaaaaaaaaaaaaaaaaaa aaaaaaaaaaaaaaaaaaaaaaaaaaaaaaaab \
     aaaaaaaaaaaaaaaaaaaaaaaaaaaaaaab aaaaaaaaaaaaaaaaaaaaaaaaab bb";

#[test]
fn short_and_long_keys_come_in_order(rt: HostRuntime) -> Result<(), Fail> {
    let alloc = rt.alloc();
    let mut store = Store::new(alloc);
    for word in KEYS.split_whitespace() {
        store.preset(1, word.as_bytes(), word.as_bytes())?;
    }
    let mut low = Vec::new(alloc);
    let mut key = Vec::new(alloc);
    let mut row = Vec::new(alloc);
    for word in KEYS_IN_ORDER.split_whitespace() {
        assert!(rt; store.next(1, &low, &mut key, &mut row)?);
        assert_eq!(rt; key.as_slice(), word.as_bytes());
        assert_eq!(rt; row.as_slice(), word.as_bytes());
        low.clear();
        low.extend_from_slice(&key)?;
        low.push(0)?;
    }
    Ok(())
}

/// Those of the keys above that begin with `aa`, but for the longest, which is removed.
const KEYS_WITH_TWO: &str =
    "aaaaaaaaaaaaaaaaa aaaaaaaaaaaaaaaaaaaaaaaaa aaaaaaaaaaaaaaaaaaaaaaaaaaaaaaaa \
     aaaaaaaaaaaaaaaaaaaaaaaaaaaaaaaab aaaaaaaaaaaaaaaaaaaaaaaaaaaaaaab \
     aaaaaaaaaaaaaaaaaaaaaaaaab";

#[test]
fn rows_with_one_beginning_are_read_at_once(rt: HostRuntime) -> Result<(), Fail> {
    let alloc = rt.alloc();
    let mut store = Store::new(alloc);
    for word in KEYS.split_whitespace() {
        store.preset(1, word.as_bytes(), word.as_bytes())?;
        store.preset(2, word.as_bytes(), b"other")?;
    }
    assert!(rt; store.remove(1, b"aaaaaaaaaaaaaaaaaaaaaaaaaaaaaaaaaaaaaaaaaaa")?);
    let mut span = Span::new(alloc);
    store.under(1, b"aa", &mut span)?;
    let mut at = 0usize;
    for word in KEYS_WITH_TWO.split_whitespace() {
        assert!(rt; at < span.len());
        let (key, row) = span.entry(at);
        assert_eq!(rt; key, word.as_bytes());
        assert_eq!(rt; row, word.as_bytes());
        at += 1;
    }
    assert_eq!(rt; span.len(), at);
    store.under(1, b"ab", &mut span)?;
    assert_eq!(rt; span.len(), 0);
    Ok(())
}
