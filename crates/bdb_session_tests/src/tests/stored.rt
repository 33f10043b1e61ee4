// A worked base written over other rows, and read whole. Alice is user 1, Bob is user 2, Carol is user 3.
ghost use Rattle.std.specs.Prelude.{◌≡◌, true, OnOk};
ghost use Rattle.std.specs.List.{list_all};
ghost use Rattle.bdb_base.specs.Alternation.{alternates};
ghost use Rattle.bdb_base.specs.Bases.{is_user};
ghost use Rattle.bdb_canon.specs.Samples.{reported, three_users};
ghost use Rattle.bdb_catalog.specs.Bases.{StoresValid};

use bdb_base::{Base, append_decimal};
use bdb_canon::{Canon, Counts};
use bdb_keep::Keeper;
use bdb_memory::QuietKeeper;
use bdb_names::NamedWorld;
use bdb_samples::{reported, text_of};
use bdb_stored::{
    canon_of, counts_of, place_of_number, user_numbers, worlds_in_order, write_all_tables,
};
use bdb_tables::TabError;
use bdb_worlds::resolve;
use std::alloc::{AllocError, Global};
use std::test::Fail;

/// The base is written, and then its structure and its sizes are read.
fn written<K: Keeper>(
    alloc: Global,
    keeper: &mut K,
    base: &Base,
) -> Result<(Canon, Counts), TabError>
    requires running { (K.seen keeper.old).running ≡ true }
{
    write_all_tables(alloc, keeper, base)?;
    let k = canon_of(alloc, keeper)?;
    let counts = counts_of(alloc, keeper)?;
    Ok((k, counts))
}

#[test]
fn a_base_is_written_over_other_rows(rt: HostRuntime) -> Result<(), Fail> {
    let alloc = rt.alloc();
    let base = reported(alloc)?;
    let mut keeper = QuietKeeper::new(alloc);
    keeper.preset(2, b"b", b"no name")?;
    keeper.preset(15, b"c", b"no row")?;
    assert!(rt; keeper.begin().is_ok());
    let text =
        "> 1>0 3>0 31>1 0.1>1 0.2>0 0.3>2 1.2>0 1.3>2 2.1>3 2.2>0 3.2>0 3.3>2 1+1e 3+0e 3+1i ";
    match written(alloc, &mut keeper, &base) {
        Ok((k, counts)) => {
            assert_eq!(rt; text_of(alloc, &k)?.as_slice(), text.as_bytes());
            assert_eq!(rt;
                [counts.worlds, counts.tuples, counts.stmts, counts.rows],
                [4, 2, 2, 3]
            );
        }
        Err(_) => assert!(rt; false),
    }
    Ok(())
}

#[test]
fn who_is_gone_has_a_place_and_no_edge(rt: HostRuntime) -> Result<(), Fail> {
    let alloc = rt.alloc();
    let mut base = reported(alloc)?;
    // Bob leaves, of whom nothing is told.
    assert_eq!(rt; base.drop_user(2), 0);
    let mut keeper = QuietKeeper::new(alloc);
    assert!(rt; keeper.begin().is_ok());
    let text = "> 1>0 3>0 31>1 0.1>1 0.3>2 1.3>2 2.1>3 3.3>2 1+1e 3+0e 3+1i ";
    match written(alloc, &mut keeper, &base) {
        Ok((k, _)) => assert_eq!(rt; text_of(alloc, &k)?.as_slice(), text.as_bytes()),
        Err(_) => assert!(rt; false),
    }
    Ok(())
}

/// Appends the users of the path of the world of a number, and a blank.
fn push_name(worlds: &[NamedWorld], wid: u32, out: &mut Vec<u8>) -> Result<(), AllocError> {
    if let Some(world) = worlds.get(place_of_number(worlds, wid)) {
        for uid in world.path.as_slice() {
            append_decimal(out, u64::from(*uid))?;
        }
    }
    out.push(b' ')?;
    Ok(())
}

/// Appends the name of the world to which a path leads, in tables that store a base of three users.
fn push_led<K: Keeper>(
    alloc: Global,
    keeper: &mut K,
    base: &Base,
    path: &[u32],
    out: &mut Vec<u8>,
) -> Result<(), TabError>
    requires stored { StoresValid (K.seen keeper.old).kept base.now }
    requires users { base.now.catalog ≡ reported.catalog }
    requires own { list_all (is_user three_users) path.now ≡ true }
    requires apart { alternates path.now ≡ true }
    ensures stored { OnOk result (StoresValid (K.seen keeper.new).kept base.now) }
{
    let users = user_numbers(alloc, keeper)?;
    let worlds = worlds_in_order(alloc, keeper, &users)?;
    let wid = resolve(alloc, keeper, path)?;
    match push_name(&worlds, wid, out) {
        Ok(()) => Ok(()),
        Err(_) => Err(TabError::Memory),
    }
}

/// The names of the worlds to which three paths lead, over a base that is written.
fn led<K: Keeper>(alloc: Global, keeper: &mut K, base: &Base) -> Result<Vec<u8>, TabError>
    requires running { (K.seen keeper.old).running ≡ true }
    requires users { base.now.catalog ≡ reported.catalog }
{
    let mut names = Vec::new(alloc);
    write_all_tables(alloc, keeper, base)?;
    push_led(alloc, keeper, base, &[2, 3, 1], &mut names)?;
    push_led(alloc, keeper, base, &[1, 2], &mut names)?;
    push_led(alloc, keeper, base, &[2, 1], &mut names)?;
    Ok(names)
}

#[test]
fn paths_lead_to_the_deepest_states(rt: HostRuntime) -> Result<(), Fail> {
    let alloc = rt.alloc();
    let base = reported(alloc)?;
    let mut keeper = QuietKeeper::new(alloc);
    assert!(rt; keeper.begin().is_ok());
    match led(alloc, &mut keeper, &base) {
        Ok(names) => assert_eq!(rt; names.as_slice(), b"31  1 ".as_slice()),
        Err(_) => assert!(rt; false),
    }
    Ok(())
}
