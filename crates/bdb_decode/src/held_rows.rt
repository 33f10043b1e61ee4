// The rows of the worlds in tables of any bytes.
ghost use Rattle.std.specs.Prelude.{◌≡◌, ◌++◌, ◌∷◌, [], true, filter, IfOk, OnOk};
ghost use Rattle.bdb_base.specs.Bases.{key_lengths};
ghost use Rattle.bdb_keep.specs.Calls.{IsRead};
ghost use Rattle.bdb_tables.specs.Grammar.{InGrammar};
ghost use Rattle.bdb_tables.specs.Reading.{OnlyReads};
ghost use Rattle.bdb_val.specs.Reads.{AreReadUnder, world_prefix};
ghost use Rattle.bdb_val.specs.Settling.{numbers_are_apart};
ghost use Rattle.bdb_decode.specs.SettledRows.{AreKeyed, AreLinkedRows, TellsRows, TellsWorld, TellsWorlds};
ghost use Rattle.bdb_decode.specs.Settles.{is_explicit, is_inherited, settles};

use crate::settles::are_settled;
use bdb_base::Catalog;
use bdb_keep::Keeper;
use bdb_tables::TabError;
use bdb_val::{StoredRow, read_world};
use std::alloc::{AllocError, Global};

// The rows of the world to which a suffix link leads, kept for the next world that has the same link; none where it leads to none.
#[derive(Drop)]
struct Linked {
    link: Option<u32>,
    rows: Vec<StoredRow>,
}

/// Whether the tables hold the rows of the worlds, for the statements that the explicit rows are. The worlds are those that
/// have names, each with the number to which its suffix link leads. Each row is of a world and a tuple that there are, with the
/// tuple's key by the relations of the catalog: rows that have their places are. The rows of two worlds at a time are kept. Where
/// the worlds come in order of their links, those of a world to which links lead are read twice, however many lead there.
pub fn are_rows_held<K: Keeper>(
    alloc: Global,
    keeper: &mut K,
    catalog: &Catalog,
    worlds: &[(u32, Option<u32>)],
) -> Result<bool, TabError>
    requires grammar { InGrammar (K.seen keeper.old).kept }
    requires keyed { AreKeyed (key_lengths catalog.now.rels) (K.seen keeper.old).kept }
    ensures held { IfOk result
        (TellsRows (key_lengths catalog.now.rels) (K.seen keeper.old).kept worlds.now) }
    ensures reading { OnlyReads (K.seen keeper.old) (K.seen keeper.new) result TabError.Fault }
{
    match are_worlds_settled(alloc, keeper, catalog, worlds) {
        Ok(settled) => Ok(settled),
        Err(error) => Err(error),
    }
}

// Whether the rows of each world are settled over those of the world to which its suffix link leads.
fn are_worlds_settled<K: Keeper>(
    alloc: Global,
    keeper: &mut K,
    catalog: &Catalog,
    worlds: &[(u32, Option<u32>)],
) -> Result<bool, TabError>
    requires grammar { InGrammar (K.seen keeper.old).kept }
    requires keyed { AreKeyed (key_lengths catalog.now.rels) (K.seen keeper.old).kept }
    ensures settled { IfOk result
        (TellsWorlds (key_lengths catalog.now.rels) (K.seen keeper.old).kept worlds.now) }
    ensures reading { OnlyReads (K.seen keeper.old) (K.seen keeper.new) result TabError.Fault }
{
    let mut linked = Linked {
        link: None,
        rows: Vec::new(alloc),
    };
    for world in worlds {
        match is_world_settled(alloc, keeper, catalog, world, &mut linked) {
            Ok(true) => {}
            Ok(false) => return Ok(false),
            Err(error) => return Err(error),
        }
    }
    Ok(true)
}

// Whether the rows of a world are settled over those of the world to which its suffix link leads, which are then kept.
fn is_world_settled<K: Keeper>(
    alloc: Global,
    keeper: &mut K,
    catalog: &Catalog,
    world: &(u32, Option<u32>),
    linked: &mut Linked,
) -> Result<bool, TabError>
    requires grammar { InGrammar (K.seen keeper.old).kept }
    requires keyed { AreKeyed (key_lengths catalog.now.rels) (K.seen keeper.old).kept }
    requires linked { AreLinkedRows (K.seen keeper.old).kept linked.old.link linked.old.rows.items }
    ensures told { IfOk result
        (TellsWorld (key_lengths catalog.now.rels) (K.seen keeper.old).kept world.now) }
    ensures linked { OnOk result
        (AreLinkedRows (K.seen keeper.old).kept linked.new.link linked.new.rows.items) }
    ensures read { IsRead (K.seen keeper.old) (K.seen keeper.new) result TabError.Fault }
{
    let own = match read_rows(alloc, keeper, catalog, world.0) {
        Ok(own) => own,
        Err(error) => return Err(error),
    };
    match follow(alloc, keeper, catalog, world.1, linked) {
        Ok(()) => {}
        Err(error) => return Err(error),
    }
    match settles(alloc, catalog, own, &linked.rows) {
        Ok(settled) => Ok(settled),
        Err(_) => {
            keeper.undo();
            Err(TabError::Memory)
        }
    }
}

// Puts the rows of the world to which a suffix link leads in the place of the kept ones, unless those are its rows.
fn follow<K: Keeper>(
    alloc: Global,
    keeper: &mut K,
    catalog: &Catalog,
    link: Option<u32>,
    linked: &mut Linked,
) -> Result<(), TabError>
    requires grammar { InGrammar (K.seen keeper.old).kept }
    requires keyed { AreKeyed (key_lengths catalog.now.rels) (K.seen keeper.old).kept }
    requires linked { AreLinkedRows (K.seen keeper.old).kept linked.old.link linked.old.rows.items }
    ensures link { OnOk result (linked.new.link ≡ link) }
    ensures linked { OnOk result (AreLinkedRows (K.seen keeper.old).kept link linked.new.rows.items) }
    ensures reading { OnlyReads (K.seen keeper.old) (K.seen keeper.new) result TabError.Fault }
{
    if is_same_link(linked.link, link) {
        return Ok(());
    }
    match read_linked(alloc, keeper, catalog, link) {
        Ok(rows) => {
            linked.link = link;
            linked.rows = rows;
            Ok(())
        }
        Err(error) => Err(error),
    }
}

// Whether two links lead to one world, or none does.
fn is_same_link(a: Option<u32>, b: Option<u32>) -> bool
    ensures { result ≡ true → a ≡ b }
{
    match (a, b) {
        (Some(from), Some(to)) => from == to,
        (None, None) => true,
        _ => false,
    }
}

// The rows of the world to which a suffix link leads; none where there is no such world.
fn read_linked<K: Keeper>(
    alloc: Global,
    keeper: &mut K,
    catalog: &Catalog,
    link: Option<u32>,
) -> Result<Vec<StoredRow>, TabError>
    requires grammar { InGrammar (K.seen keeper.old).kept }
    requires keyed { AreKeyed (key_lengths catalog.now.rels) (K.seen keeper.old).kept }
    ensures rows { IfOk result (λ rows. AreLinkedRows (K.seen keeper.old).kept link rows.items) }
    ensures reading { OnlyReads (K.seen keeper.old) (K.seen keeper.new) result TabError.Fault }
{
    match link {
        Some(wid) => match read_rows(alloc, keeper, catalog, wid) {
            Ok(rows) => Ok(rows),
            Err(error) => Err(error),
        },
        None => Ok(Vec::new(alloc)),
    }
}

// The rows of a world, of which no two are of one tuple.
fn read_rows<K: Keeper>(
    alloc: Global,
    keeper: &mut K,
    catalog: &Catalog,
    wid: u32,
) -> Result<Vec<StoredRow>, TabError>
    requires grammar { InGrammar (K.seen keeper.old).kept }
    requires keyed { AreKeyed (key_lengths catalog.now.rels) (K.seen keeper.old).kept }
    ensures rows { IfOk result (λ rows. AreReadUnder (K.seen keeper.old).kept (world_prefix wid)
        rows.items) }
    ensures apart { IfOk result (λ rows. numbers_are_apart rows.items ≡ true) }
    ensures read { IsRead (K.seen keeper.old) (K.seen keeper.new) result TabError.Fault }
{
    match read_world(alloc, keeper, wid) {
        Ok(rows) => Ok(rows),
        Err(error) => Err(error),
    }
}

// Whether the rows of a world are settled over those of another one.
fn settles(
    alloc: Global,
    catalog: &Catalog,
    own: Vec<StoredRow>,
    from: &[StoredRow],
) -> Result<bool, AllocError>
    requires from { numbers_are_apart from.now ≡ true }
    ensures { IfOk result
        (λ settled. settled ≡ settles (key_lengths catalog.now.rels) own.items from.now) }
{
    let mut stated = Vec::new(alloc);
    let mut inherited = Vec::new(alloc);
    for row in own {
        put_row(&mut stated, &mut inherited, row)?;
    }
    Ok(are_settled(catalog, &stated, &inherited, from))
}

// Adds a row to the explicit ones, or else to the inherited ones.
fn put_row(
    stated: &mut Vec<StoredRow>,
    inherited: &mut Vec<StoredRow>,
    row: StoredRow,
) -> Result<(), AllocError>
    ensures stated { OnOk result (stated.new.items ≡ stated.old.items ++ filter is_explicit
        (row ∷ [])) }
    ensures inherited { OnOk result
        (inherited.new.items ≡ inherited.old.items ++ filter is_inherited (row ∷ [])) }
{
    if row.mark.1 {
        stated.push(row)?;
        return Ok(());
    }
    inherited.push(row)?;
    Ok(())
}
