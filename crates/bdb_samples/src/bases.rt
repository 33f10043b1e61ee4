// Worked bases. Alice is user 1, Bob is user 2, Carol is user 3.
ghost use Rattle.std.specs.Prelude.{◌≡◌, [], ◌∷◌, IfOk};
ghost use Rattle.bdb_canon.specs.Samples.{sightings, disputed, reported};

use crate::parts::{live, sightings, statement};
use bdb_base::{Base, Catalog, List, Sign, UserSlot};
use std::alloc::{AllocError, Global};
use std::test::Fail;

/// The relation S, and these users.
pub fn catalog(alloc: Global, users: List<UserSlot>) -> Result<Catalog, AllocError>
    ensures { IfOk result (λ c. c ≡ record { rels = sightings ∷ []; users = users }) }
{
    let mut rels = List::new(alloc);
    let def = sightings(alloc)?;
    rels.push(def)?;
    Ok(Catalog { rels, users })
}

/// An eagle, which Bob denies, and a crow that Alice sees.
pub fn disputed(alloc: Global) -> Result<Base, Fail>
    ensures { IfOk result (λ b. b.catalog ≡ disputed.catalog) }
{
    let mut users = List::new(alloc);
    users.push(live(alloc, "Alice")?)?;
    users.push(live(alloc, "Bob")?)?;
    let mut stmts = List::new(alloc);
    stmts.push(statement(alloc, &[], Sign::Plus, "s1", "eagle")?)?;
    stmts.push(statement(alloc, &[1], Sign::Plus, "s1", "crow")?)?;
    stmts.push(statement(alloc, &[2], Sign::Minus, "s1", "eagle")?)?;
    let catalog = catalog(alloc, users)?;
    Ok(Base::from_parts(catalog, stmts))
}

/// What Alice sees, and what Carol believes that Alice sees.
pub fn reported(alloc: Global) -> Result<Base, Fail>
    ensures { IfOk result (λ b. b.catalog ≡ reported.catalog) }
{
    let mut users = List::new(alloc);
    users.push(live(alloc, "Alice")?)?;
    users.push(live(alloc, "Bob")?)?;
    users.push(live(alloc, "Carol")?)?;
    let mut stmts = List::new(alloc);
    stmts.push(statement(alloc, &[1], Sign::Plus, "s2", "crow")?)?;
    stmts.push(statement(alloc, &[3, 1], Sign::Plus, "s1", "eagle")?)?;
    let catalog = catalog(alloc, users)?;
    Ok(Base::from_parts(catalog, stmts))
}
