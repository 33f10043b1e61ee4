// Tests of tables over a keeper in memory.
ghost use Rattle.std.specs.Prelude.{◌≡◌, true, length, ◌<◌, IfOk};
ghost use Rattle.bdb_tables.specs.Grammar.{InGrammar};
ghost use Rattle.bdb_tables.specs.InUse.{HaveKeyTexts, MayBePlain};

use bdb_base::{List, Path, Sign, Tuple, Txt, Value};
use bdb_keep::Keeper;
use bdb_key::rel_of;
use bdb_memory::QuietKeeper;
use bdb_tables::{
    DepthTab, EdgeIx, EdgeTab, PlainTab, RelTab, Tab, TabError, ValTab, clear_rows, copy_rows,
    first_gap, next, put, put_pair, rows_under, stored_key_length, write_rows,
};
use std::alloc::Global;
use std::test::Fail;

/// Whether the row found is of a statement of these users with this sign.
fn is_of(found: &Option<((Path, Tuple), Sign)>, users: &[u32], sign: Sign) -> bool {
    match found {
        Some((key, found)) => key.0.as_slice() == users && *found == sign,
        None => false,
    }
}

/// Puts two statements, and asks what comes next: at each of them, between them and beyond the last.
fn ask_next<K: Keeper>(
    alloc: Global,
    keeper: &mut K,
    low: &(Path, Tuple),
    between: &(Path, Tuple),
    high: &(Path, Tuple),
    beyond: &(Path, Tuple),
) -> Result<bool, TabError>
    requires running { (K.seen keeper.old).running ≡ true }
    requires grammar { InGrammar (K.seen keeper.old).kept }
    requires low { MayBePlain low.now }
    requires between { MayBePlain between.now }
    requires high { MayBePlain high.now }
    requires beyond { MayBePlain beyond.now }
{
    put::<PlainTab, K>(alloc, keeper, high, &Sign::Minus)?;
    put::<PlainTab, K>(alloc, keeper, low, &Sign::Plus)?;
    let at_low = next::<PlainTab, K>(alloc, keeper, low)?;
    let at_between = next::<PlainTab, K>(alloc, keeper, between)?;
    let at_high = next::<PlainTab, K>(alloc, keeper, high)?;
    let at_beyond = next::<PlainTab, K>(alloc, keeper, beyond)?;
    Ok(
        is_of(&at_low, &[2], Sign::Plus)
            && is_of(&at_between, &[1, 2], Sign::Minus)
            && is_of(&at_high, &[1, 2], Sign::Minus)
            && at_beyond.is_none(),
    )
}

/// Writes edges in one call, of which the last goes again, and reads those of a world.
fn edges_of_a_world<K: Keeper>(alloc: Global, keeper: &mut K) -> Result<bool, TabError>
    requires running { (K.seen keeper.old).running ≡ true }
    requires grammar { InGrammar (K.seen keeper.old).kept }
{
    let changes = [
        ((0, 1), Some(1)),
        ((0, 2), Some(5)),
        ((1, 2), Some(0)),
        ((0, 1), None),
    ];
    write_rows::<EdgeTab, K>(alloc, keeper, &changes)?;
    let rows = rows_under::<EdgeTab, K>(alloc, keeper, &[0, 0, 0, 0])?;
    match rows.as_slice() {
        [(key, target)] => Ok(key.1 == 2 && *target == 5),
        _ => Ok(false),
    }
}

/// Puts rows of a world and of the next one, copies those of the first to the second, clears the first, and reads what is left.
fn rows_are_moved<K: Keeper>(
    alloc: Global,
    keeper: &mut K,
    low: &(u32, u32, List<Value>, u32),
    high: &(u32, u32, List<Value>, u32),
    other: &(u32, u32, List<Value>, u32),
) -> Result<bool, TabError>
    requires running { (K.seen keeper.old).running ≡ true }
    requires grammar { InGrammar (K.seen keeper.old).kept }
    requires low { HaveKeyTexts low.now.2 }
    requires high { HaveKeyTexts high.now.2 }
    requires other { HaveKeyTexts other.now.2 }
{
    put::<ValTab, K>(alloc, keeper, low, &(Sign::Minus, true))?;
    put::<ValTab, K>(alloc, keeper, high, &(Sign::Plus, false))?;
    put::<ValTab, K>(alloc, keeper, other, &(Sign::Minus, true))?;
    let copied = copy_rows(alloc, keeper, 1, 2)?;
    let cleared = clear_rows(alloc, keeper, 1)?;
    let rows = rows_under::<ValTab, K>(alloc, keeper, &[0, 0, 0])?;
    match rows.as_slice() {
        [(first, one), (second, two)] => Ok(
            copied == 2
                && cleared == 2
                && first.0 == 2
                && first.3 == 3
                && *one == (Sign::Minus, false)
                && second.0 == 2
                && second.3 == 5
                && *two == (Sign::Plus, false),
        ),
        _ => Ok(false),
    }
}

/// Puts depths of the numbers 0, 1 and 3, and asks for the first number that has none: from 0 on, and from 3 on.
fn first_gaps<K: Keeper>(alloc: Global, keeper: &mut K) -> Result<(u32, u32), TabError>
    requires running { (K.seen keeper.old).running ≡ true }
{
    put::<DepthTab, K>(alloc, keeper, &0, &0)?;
    put::<DepthTab, K>(alloc, keeper, &3, &2)?;
    put::<DepthTab, K>(alloc, keeper, &1, &1)?;
    let first = first_gap(alloc, keeper, DepthTab::NUMBER, 0)?;
    let behind = first_gap(alloc, keeper, DepthTab::NUMBER, 3)?;
    Ok((first, behind))
}

/// Puts the relation that these bytes are as number 0, and asks for the length of its key and of that of relation 1, which has
/// no row.
fn lengths_of_keys<K: Keeper>(
    alloc: Global,
    keeper: &mut K,
    row: &[u8],
) -> Result<(u32, u32), TabError>
    requires running { (K.seen keeper.old).running ≡ true }
    requires grammar { InGrammar (K.seen keeper.old).kept }
{
    let def = match rel_of(alloc, row) {
        Ok(def) => def,
        Err(_) => return Err(TabError::Memory),
    };
    put::<RelTab, K>(alloc, keeper, &0, &def)?;
    let there = stored_key_length(alloc, keeper, 0)?;
    let nowhere = stored_key_length(alloc, keeper, 1)?;
    Ok((there, nowhere))
}

/// A keeper without rows in which a transaction runs.
fn begun(alloc: Global) -> Result<QuietKeeper, Fail>
    ensures running { IfOk result (λ keeper. keeper.running ≡ true) }
    ensures grammar { IfOk result (λ keeper. InGrammar keeper.kept) }
{
    let mut keeper = QuietKeeper::new(alloc);
    keeper.begin()?;
    Ok(keeper)
}

/// A key of a row of a world, where the relation's key is a number.
fn row_key(
    alloc: Global,
    wid: u32,
    rel: u32,
    number: i64,
    tid: u32,
) -> Result<(u32, u32, List<Value>, u32), Fail>
    ensures { IfOk result (λ key. HaveKeyTexts key.2) }
{
    let mut key = List::new(alloc);
    key.push(Value::Int(number))?;
    Ok((wid, rel, key, tid))
}

/// A key of a statement.
fn key_of(alloc: Global, users: &[u32], number: i64) -> Result<(Path, Tuple), Fail>
    requires { length users.now < 16 }
    ensures { IfOk result MayBePlain }
{
    let path = Path::try_new(alloc, users)?;
    let mut vals = List::new(alloc);
    vals.push(Value::Int(number))?;
    Ok((path, Tuple { rel: 0, vals }))
}

#[test]
fn what_comes_next_is_found(rt: HostRuntime) -> Result<(), Fail> {
    let alloc = rt.alloc();
    let low = key_of(alloc, &[2], 7)?;
    let between = key_of(alloc, &[2], 8)?;
    let high = key_of(alloc, &[1, 2], -7)?;
    let beyond = key_of(alloc, &[1, 2], -6)?;
    let mut keeper = begun(alloc)?;
    assert_eq!(rt;
        ask_next(alloc, &mut keeper, &low, &between, &high, &beyond),
        Ok(true)
    );
    Ok(())
}

#[test]
fn edges_of_a_world_are_found(rt: HostRuntime) -> Result<(), Fail> {
    let alloc = rt.alloc();
    let mut keeper = begun(alloc)?;
    assert_eq!(rt; edges_of_a_world(alloc, &mut keeper), Ok(true));
    Ok(())
}

#[test]
fn rows_of_a_world_are_moved(rt: HostRuntime) -> Result<(), Fail> {
    let alloc = rt.alloc();
    let low = row_key(alloc, 1, 0, 7, 3)?;
    let high = row_key(alloc, 1, 4, 9, 5)?;
    let other = row_key(alloc, 2, 4, 9, 5)?;
    let mut keeper = begun(alloc)?;
    assert_eq!(rt;
        rows_are_moved(alloc, &mut keeper, &low, &high, &other),
        Ok(true)
    );
    Ok(())
}

#[test]
fn first_gaps_are_found(rt: HostRuntime) -> Result<(), Fail> {
    let alloc = rt.alloc();
    let mut keeper = begun(alloc)?;
    assert_eq!(rt; first_gaps(alloc, &mut keeper), Ok((2, 4)));
    Ok(())
}

#[test]
fn lengths_of_keys_are_read(rt: HostRuntime) -> Result<(), Fail> {
    let alloc = rt.alloc();
    let row: &[u8] =
        b"\x02R\0\x01\x80\0\0\0\0\0\0\x02\x02a\0\x01\x80\0\0\0\0\0\0\0\x02b\0\x01\x80\0\0\0\0\0\0\x01";
    let mut keeper = begun(alloc)?;
    assert_eq!(rt; lengths_of_keys(alloc, &mut keeper, row), Ok((2, 1)));
    Ok(())
}

#[test]
fn writes_the_worked_keys(rt: HostRuntime) -> Result<(), Fail> {
    let alloc = rt.alloc();
    let text = Txt::try_new(alloc, "s1")?;
    let mut key = List::new(alloc);
    key.push(Value::Text(text))?;
    let mut out = Vec::new(alloc);
    ValTab::key_bytes(&(0, 0, key, 0), &mut out)?;
    let want: &[u8] = b"\0\0\0\0\0\0\0\0\0\0\0\x01\x02s1\0\0\0\0\0";
    assert_eq!(rt; out.as_slice(), want);
    out.clear();
    EdgeIx::key_bytes(&(1, 256, 2), &mut out)?;
    put_pair(&mut out, 7, 1 << 24)?;
    let want: &[u8] = b"\0\0\0\x01\0\0\x01\0\0\0\0\x02\0\0\0\x07\x01\0\0\0";
    assert_eq!(rt; out.as_slice(), want);
    Ok(())
}

#[test]
fn writes_keys_of_two_values(rt: HostRuntime) -> Result<(), Fail> {
    let alloc = rt.alloc();
    let mut key = List::new(alloc);
    key.push(Value::Int(0))?;
    key.push(Value::Int(-1))?;
    let mut out = Vec::new(alloc);
    ValTab::key_bytes(&(1, 2, key, 3), &mut out)?;
    let want: &[u8] =
        b"\0\0\0\x01\0\0\0\x02\0\0\0\x02\x01\x80\0\0\0\0\0\0\0\x01\x7f\xff\xff\xff\xff\xff\xff\xff\0\0\0\x03";
    assert_eq!(rt; out.as_slice(), want);
    Ok(())
}
