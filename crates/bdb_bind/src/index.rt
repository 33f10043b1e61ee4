// Where the names of a catalog stand.
ghost use Rattle.std.specs.Prelude.{◌≡◌, ℕ, List, None, IfOk, OnOk, OnErr};
ghost use Rattle.std.specs.BTreeMap.{get_by_text};
ghost use Rattle.bdb_bind.specs.Indexes.{or_place, or_slot, but_of, user_place, TellsOf};
ghost use Rattle.bdb_bind.specs.Lookup.{relation_number};

use bdb_base::{Catalog, RelDef, Txt, UserSlot};
use std::alloc::{AllocError, Global};
use std::collections::BTreeMap;

/// Where the names of a catalog stand, from 0. It is a hint: a look-up verifies what it is told, and searches where that
/// fails. So binding answers the same with any index, and is fast with that of its catalog.
#[derive(Drop)]
pub struct NameIndex {
    users: BTreeMap<String, usize>,
    rels: BTreeMap<String, usize>,
}

impl NameIndex {
    /// An index that knows no name.
    pub fn new(alloc: Global) -> Self
        ensures users { (q : List ℕ) → get_by_text result.users q ≡ None }
        ensures rels { (q : List ℕ) → get_by_text result.rels q ≡ None }
    {
        NameIndex {
            users: BTreeMap::new(alloc),
            rels: BTreeMap::new(alloc),
        }
    }

    /// The index of a catalog.
    pub fn of(alloc: Global, catalog: &Catalog) -> Result<Self, AllocError>
        ensures { IfOk result (TellsOf catalog.now) }
    {
        let users = places_of_users(alloc, catalog.users.as_slice())?;
        let rels = places_of_relations(alloc, catalog.rels.as_slice())?;
        Ok(NameIndex { users, rels })
    }

    /// A user of this name stands at this place. Where a user of this name is known, nothing changes.
    /// After a refusal the index is unchanged.
    pub fn add_user(&mut self, alloc: Global, name: &Txt, at: usize) -> Result<(), AllocError>
        ensures users { OnOk result ((q : List ℕ) → get_by_text self.new.users q ≡ or_place
            (get_by_text self.old.users q) name.now at q) }
        ensures rels { self.new.rels ≡ self.old.rels }
        ensures err { OnErr result (self.new.users.entries ≡ self.old.users.entries) }
    {
        add_place(&mut self.users, alloc, name, at)
    }

    /// Forgets where the user of this name stands: he leaves. Another user may have the name later, and is told then.
    pub fn forget_user(&mut self, name: &Txt)
        ensures users { (q : List ℕ) → get_by_text self.new.users q ≡ but_of
            (get_by_text self.old.users q) name.now q }
        ensures rels { self.new.rels ≡ self.old.rels }
    {
        self.users.remove(name.as_str());
    }

    /// A relation of this name stands at this place. Where a relation of this name is known, nothing
    /// changes. After a refusal the index is unchanged.
    pub fn add_relation(&mut self, alloc: Global, name: &Txt, at: usize) -> Result<(), AllocError>
        ensures rels { OnOk result ((q : List ℕ) → get_by_text self.new.rels q ≡ or_place
            (get_by_text self.old.rels q) name.now at q) }
        ensures users { self.new.users ≡ self.old.users }
        ensures err { OnErr result (self.new.rels.entries ≡ self.old.rels.entries) }
    {
        add_place(&mut self.rels, alloc, name, at)
    }

    /// Where a user of this name should stand.
    pub fn user(&self, name: &Txt) -> Option<usize>
        ensures { result ≡ get_by_text self.now.users name.now }
    {
        self.users.get(name.as_str()).copied()
    }

    /// Where a relation of this name should stand.
    pub fn relation(&self, name: &Txt) -> Option<usize>
        ensures { result ≡ get_by_text self.now.rels name.now }
    {
        self.rels.get(name.as_str()).copied()
    }
}

/// A name stands at this place, unless it is known. After a refusal nothing changed.
fn add_place(
    places: &mut BTreeMap<String, usize>,
    alloc: Global,
    name: &Txt,
    at: usize,
) -> Result<(), AllocError>
    ensures ok { OnOk result
        ((q : List ℕ) → get_by_text places.new q ≡ or_place (get_by_text places.old q)
        name.now at q) }
    ensures err { OnErr result (places.new.entries ≡ places.old.entries) }
{
    if places.get(name.as_str()).is_some() {
        return Ok(());
    }
    let key = String::from_str(alloc, name.as_str())?;
    places.insert(key, at)?;
    Ok(())
}

/// A user who is live stands at this place, unless his name is known.
fn add_slot(
    places: &mut BTreeMap<String, usize>,
    alloc: Global,
    user: &UserSlot,
    at: usize,
) -> Result<(), AllocError>
    ensures { OnOk result
        ((q : List ℕ) → get_by_text places.new q ≡ or_slot (get_by_text places.old q)
        user.now at q) }
{
    match user {
        UserSlot::Live(name) => {
            add_place(places, alloc, name, at)?;
            Ok(())
        }
        UserSlot::Gone => Ok(()),
    }
}

/// Where the live users stand.
fn places_of_users(alloc: Global, users: &[UserSlot]) -> Result<BTreeMap<String, usize>, AllocError>
    ensures { IfOk result (λ m. (q : List ℕ) → get_by_text m q ≡ user_place users.now q) }
{
    let mut places = BTreeMap::new(alloc);
    for (at, user) in users.iter().enumerate() {
        add_slot(&mut places, alloc, user, at)?;
    }
    Ok(places)
}

/// Where the relations stand.
fn places_of_relations(
    alloc: Global,
    rels: &[RelDef],
) -> Result<BTreeMap<String, usize>, AllocError>
    ensures { IfOk result (λ m. (q : List ℕ) → get_by_text m q ≡ relation_number rels.now q) }
{
    let mut places = BTreeMap::new(alloc);
    for (at, rel) in rels.iter().enumerate() {
        add_place(&mut places, alloc, &rel.name, at)?;
    }
    Ok(places)
}
