// Changes of a worked base, back and forth, and histories of changes that add users.
ghost use Rattle.std.specs.Prelude.{◌≡◌, [], ◌∷◌, IfOk, OnOk};
ghost use Rattle.bdb_base_tests.specs.UndoSamples.{bobs_word, bobs_next_word, alone, related, joined, joined_by_carol, told, told_anew, left_by_bob, of_relation, of_bob, of_carol, of_word, of_next_word, word_gone, of_leaving};

use bdb_base::{Base, Catalog, List, Sign, Stmt, Txt, cmp_stmt, user_name};
use bdb_samples::{catalog, live, sightings, statement};
use bdb_undo::{Change, History, MOST_CHANGES, Named, change_back, change_forth, missing_from};
use std::alloc::{AllocError, Global};
use std::test::Fail;

/// Bob, the second user, states S('a', 'x').
fn first_word(alloc: Global) -> Result<Stmt, Fail>
    ensures { IfOk result (λ s. s ≡ bobs_word) }
{
    let stmt = statement(alloc, &[2], Sign::Plus, "a", "x")?;
    Ok(stmt)
}

/// Bob states S('a', 'y').
fn next_word(alloc: Global) -> Result<Stmt, Fail>
    ensures { IfOk result (λ s. s ≡ bobs_next_word) }
{
    let stmt = statement(alloc, &[2], Sign::Plus, "a", "y")?;
    Ok(stmt)
}

/// The first statement alone.
fn first_words(alloc: Global) -> Result<List<Stmt>, Fail>
    ensures { IfOk result (λ xs. xs ≡ bobs_word ∷ []) }
{
    let mut stmts = List::new(alloc);
    let stmt = first_word(alloc)?;
    stmts.push(stmt)?;
    Ok(stmts)
}

/// The next statement alone.
fn next_words(alloc: Global) -> Result<List<Stmt>, Fail>
    ensures { IfOk result (λ xs. xs ≡ bobs_next_word ∷ []) }
{
    let mut stmts = List::new(alloc);
    let stmt = next_word(alloc)?;
    stmts.push(stmt)?;
    Ok(stmts)
}

/// A base of one user, Alice.
fn start(alloc: Global) -> Result<Base, Fail>
    ensures { IfOk result (λ b. b ≡ alone) }
{
    let mut users = List::new(alloc);
    users.push(live(alloc, "Alice")?)?;
    let catalog = Catalog {
        rels: List::new(alloc),
        users,
    };
    Ok(Base::from_parts(catalog, List::new(alloc)))
}

/// A base of the relation and two users, Alice and Bob.
fn joined(alloc: Global) -> Result<Base, Fail>
    ensures { IfOk result (λ b. b ≡ joined) }
{
    let mut users = List::new(alloc);
    users.push(live(alloc, "Alice")?)?;
    users.push(live(alloc, "Bob")?)?;
    let catalog = catalog(alloc, users)?;
    Ok(Base::from_parts(catalog, List::new(alloc)))
}

/// The relation is added.
fn relation_added(alloc: Global) -> Result<Change, AllocError>
    ensures { IfOk result (λ c. c ≡ of_relation) }
{
    let def = sightings(alloc)?;
    let named = Named::RelationAdded { def };
    let (gone, come) = (List::new(alloc), List::new(alloc));
    Ok(Change { named, gone, come })
}

/// Bob is added.
fn bob_added(alloc: Global) -> Result<Change, AllocError>
    ensures { IfOk result (λ c. c ≡ of_bob) }
{
    let name = Txt::try_new(alloc, "Bob")?;
    let named = Named::UserAdded { name };
    let (gone, come) = (List::new(alloc), List::new(alloc));
    Ok(Change { named, gone, come })
}

/// Carol is added.
fn carol_added(alloc: Global) -> Result<Change, AllocError>
    ensures { IfOk result (λ c. c ≡ of_carol) }
{
    let name = Txt::try_new(alloc, "Carol")?;
    let named = Named::UserAdded { name };
    let (gone, come) = (List::new(alloc), List::new(alloc));
    Ok(Change { named, gone, come })
}

/// Bob's first statement comes.
fn stated(alloc: Global) -> Result<Change, Fail>
    ensures { IfOk result (λ c. c ≡ of_word) }
{
    let come = first_words(alloc)?;
    let (named, gone) = (Named::Nothing, List::new(alloc));
    Ok(Change { named, gone, come })
}

/// Bob's first statement goes, and the next one comes.
fn replaced(alloc: Global) -> Result<Change, Fail>
    ensures { IfOk result (λ c. c ≡ of_next_word) }
{
    let gone = first_words(alloc)?;
    let come = next_words(alloc)?;
    let named = Named::Nothing;
    Ok(Change { named, gone, come })
}

/// Bob's next statement goes.
fn taken(alloc: Global) -> Result<Change, Fail>
    ensures { IfOk result (λ c. c ≡ word_gone) }
{
    let gone = next_words(alloc)?;
    let (named, come) = (Named::Nothing, List::new(alloc));
    Ok(Change { named, gone, come })
}

/// Bob, the second user, leaves, and his first statement goes.
fn bob_dropped(alloc: Global) -> Result<Change, Fail>
    ensures { IfOk result (λ c. c ≡ of_leaving) }
{
    let name = Txt::try_new(alloc, "Bob")?;
    let gone = first_words(alloc)?;
    let named = Named::UserDropped { uid: 2, name };
    let come = List::new(alloc);
    Ok(Change { named, gone, come })
}

/// Whether a base has so many relations, places of users and statements.
fn has(base: &Base, rels: usize, users: usize, stmts: usize) -> bool {
    let catalog = base.catalog();
    catalog.rels.len() == rels && catalog.users.len() == users && base.stmts().len() == stmts
}

/// The name of user 2.
fn second_user(base: &Base) -> &str {
    match user_name(base.catalog().users.as_slice(), 2) {
        Some(name) => name.as_str(),
        None => "nobody",
    }
}

/// Whether the one statement of a list stands in a base, and no other one.
fn stands_alone(base: &Base, stmts: &List<Stmt>) -> bool {
    match (base.stmts(), stmts.as_slice()) {
        ([held], [stmt]) => cmp_stmt(held, stmt).is_eq(),
        _ => false,
    }
}

/// The relation comes; tells whether it stands then, and no Bob.
fn relation_comes(alloc: Global, base: &mut Base) -> Result<bool, Fail>
    requires start { base.old ≡ alone }
    ensures { OnOk result (base.new ≡ related) }
{
    let change = relation_added(alloc)?;
    change_forth(alloc, base, &change)?;
    Ok(has(base, 1, 1, 0))
}

/// Bob comes; tells whether he is user 2 then.
fn bob_comes(alloc: Global, base: &mut Base) -> Result<bool, Fail>
    requires start { base.old ≡ related }
    ensures { OnOk result (base.new ≡ joined) }
{
    let change = bob_added(alloc)?;
    change_forth(alloc, base, &change)?;
    Ok(has(base, 1, 2, 0) & (second_user(base) == "Bob"))
}

/// Carol comes; tells whether she is user 2 then.
fn carol_comes(alloc: Global, base: &mut Base) -> Result<bool, Fail>
    requires start { base.old ≡ related }
    ensures { OnOk result (base.new ≡ joined_by_carol) }
{
    let change = carol_added(alloc)?;
    change_forth(alloc, base, &change)?;
    Ok(has(base, 1, 2, 0) & (second_user(base) == "Carol"))
}

/// Bob is taken back; tells whether he is gone.
fn bob_goes(alloc: Global, base: &mut Base) -> Result<bool, Fail>
    requires start { base.old ≡ joined }
    ensures { OnOk result (base.new ≡ related) }
{
    let change = bob_added(alloc)?;
    change_back(alloc, base, &change)?;
    Ok(has(base, 1, 1, 0))
}

/// The relation is taken back; tells whether it is gone.
fn relation_goes(alloc: Global, base: &mut Base) -> Result<bool, Fail>
    requires start { base.old ≡ related }
    ensures { OnOk result (base.new ≡ alone) }
{
    let change = relation_added(alloc)?;
    change_back(alloc, base, &change)?;
    Ok(has(base, 0, 1, 0))
}

/// Bob's first statement comes; tells whether it stands then, alone.
fn word_comes(alloc: Global, base: &mut Base) -> Result<bool, Fail>
    requires start { base.old ≡ joined }
    ensures { OnOk result (base.new ≡ told) }
{
    let change = stated(alloc)?;
    change_forth(alloc, base, &change)?;
    Ok(stands_alone(base, &change.come))
}

/// The next one comes in its place; tells whether it stands then, alone.
fn word_changes(alloc: Global, base: &mut Base) -> Result<bool, Fail>
    requires start { base.old ≡ told }
    ensures { OnOk result (base.new ≡ told_anew) }
{
    let change = replaced(alloc)?;
    change_forth(alloc, base, &change)?;
    Ok(stands_alone(base, &change.come))
}

/// The next one goes; tells whether no statement stands then.
fn word_goes(alloc: Global, base: &mut Base) -> Result<bool, Fail>
    requires start { base.old ≡ told_anew }
    ensures { OnOk result (base.new ≡ joined) }
{
    let change = taken(alloc)?;
    change_forth(alloc, base, &change)?;
    Ok(has(base, 1, 2, 0))
}

/// That is taken back; tells whether the next one stands then, alone.
fn going_is_taken_back(alloc: Global, base: &mut Base) -> Result<bool, Fail>
    requires start { base.old ≡ joined }
    ensures { OnOk result (base.new ≡ told_anew) }
{
    let change = taken(alloc)?;
    change_back(alloc, base, &change)?;
    Ok(stands_alone(base, &change.gone))
}

/// Its coming is taken back; tells whether the first one stands then, alone.
fn changing_is_taken_back(alloc: Global, base: &mut Base) -> Result<bool, Fail>
    requires start { base.old ≡ told_anew }
    ensures { OnOk result (base.new ≡ told) }
{
    let change = replaced(alloc)?;
    change_back(alloc, base, &change)?;
    Ok(stands_alone(base, &change.gone))
}

/// The first one's coming is taken back; tells whether no statement stands then.
fn coming_is_taken_back(alloc: Global, base: &mut Base) -> Result<bool, Fail>
    requires start { base.old ≡ told }
    ensures { OnOk result (base.new ≡ joined) }
{
    let change = stated(alloc)?;
    change_back(alloc, base, &change)?;
    Ok(has(base, 1, 2, 0))
}

/// Bob leaves with his statement; tells whether his place alone is left.
fn bob_leaves(alloc: Global, base: &mut Base) -> Result<bool, Fail>
    requires start { base.old ≡ told }
    ensures { OnOk result (base.new ≡ left_by_bob) }
{
    let change = bob_dropped(alloc)?;
    change_forth(alloc, base, &change)?;
    Ok(has(base, 1, 2, 0) & (second_user(base) == "nobody"))
}

/// That is taken back; tells whether he is user 2 then, and his statement stands, alone.
fn leaving_is_taken_back(alloc: Global, base: &mut Base) -> Result<bool, Fail>
    requires start { base.old ≡ left_by_bob }
    ensures { OnOk result (base.new ≡ told) }
{
    let change = bob_dropped(alloc)?;
    change_back(alloc, base, &change)?;
    Ok(stands_alone(base, &change.gone) & (second_user(base) == "Bob"))
}

#[test]
fn names_come_and_go(rt: HostRuntime) -> Result<(), Fail> {
    let alloc = rt.alloc();
    let mut base = start(alloc)?;
    assert!(rt; relation_comes(alloc, &mut base)?);
    assert!(rt; bob_comes(alloc, &mut base)?);
    assert!(rt; bob_goes(alloc, &mut base)?);
    assert!(rt; relation_goes(alloc, &mut base)?);
    assert!(rt; relation_comes(alloc, &mut base)?);
    Ok(())
}

#[test]
fn a_number_is_given_again(rt: HostRuntime) -> Result<(), Fail> {
    let alloc = rt.alloc();
    let mut base = joined(alloc)?;
    assert!(rt; bob_goes(alloc, &mut base)?);
    assert!(rt; carol_comes(alloc, &mut base)?);
    Ok(())
}

#[test]
fn statements_come_and_go(rt: HostRuntime) -> Result<(), Fail> {
    let alloc = rt.alloc();
    let mut base = joined(alloc)?;
    assert!(rt; word_comes(alloc, &mut base)?);
    assert!(rt; word_changes(alloc, &mut base)?);
    assert!(rt; word_goes(alloc, &mut base)?);
    assert!(rt; going_is_taken_back(alloc, &mut base)?);
    assert!(rt; changing_is_taken_back(alloc, &mut base)?);
    assert!(rt; coming_is_taken_back(alloc, &mut base)?);
    assert!(rt; word_comes(alloc, &mut base)?);
    Ok(())
}

#[test]
fn who_leaves_comes_back_with_his_word(rt: HostRuntime) -> Result<(), Fail> {
    let alloc = rt.alloc();
    let mut base = joined(alloc)?;
    assert!(rt; word_comes(alloc, &mut base)?);
    assert!(rt; bob_leaves(alloc, &mut base)?);
    assert!(rt; leaving_is_taken_back(alloc, &mut base)?);
    assert!(rt; coming_is_taken_back(alloc, &mut base)?);
    assert!(rt; word_comes(alloc, &mut base)?);
    assert!(rt; bob_leaves(alloc, &mut base)?);
    Ok(())
}

/// A change that adds a user whose name is this number.
fn numbered(alloc: Global, number: usize) -> Result<Change, Fail> {
    let text = format!(in alloc; "{number}")?;
    let name = Txt::try_new(alloc, text.as_str())?;
    let named = Named::UserAdded { name };
    let (gone, come) = (List::new(alloc), List::new(alloc));
    Ok(Change { named, gone, come })
}

/// A history of the first changes, as many as `count`.
fn noted(alloc: Global, count: usize) -> Result<History, Fail> {
    let mut history = History::new(alloc)?;
    for number in 0..count {
        history.note(numbered(alloc, number)?);
    }
    Ok(history)
}

/// The user whom a change added.
fn name_of(change: Option<&Change>) -> &str {
    match change {
        None => "no change",
        Some(change) => match &change.named {
            Named::UserAdded { name } => name.as_str(),
            _ => "no user",
        },
    }
}

/// Goes back until there is nothing to undo, and answers how often.
fn go_back(history: &mut History) -> usize {
    for many in 0..usize::MAX {
        if history.undos() == 0 {
            return many;
        }
        history.back();
    }
    usize::MAX
}

/// Goes forth once, if there is something to redo.
fn go_forth(history: &mut History) -> bool {
    if history.redos() == 0 {
        return false;
    }
    history.forth();
    true
}

#[test]
fn the_oldest_change_is_forgotten(rt: HostRuntime) -> Result<(), Fail> {
    let alloc = rt.alloc();
    let mut history = noted(alloc, 65)?;
    assert_eq!(rt; history.undos(), MOST_CHANGES);
    assert_eq!(rt; name_of(history.last()), "64");
    assert_eq!(rt; name_of(history.coming()), "no change");
    assert_eq!(rt; go_back(&mut history), 64);
    assert_eq!(rt; name_of(history.last()), "no change");
    assert_eq!(rt; name_of(history.coming()), "1");
    assert!(rt; go_forth(&mut history));
    assert_eq!(rt; name_of(history.last()), "1");
    assert_eq!(rt; name_of(history.coming()), "2");
    Ok(())
}

#[test]
fn a_new_change_leaves_none_to_redo(rt: HostRuntime) -> Result<(), Fail> {
    let alloc = rt.alloc();
    let mut history = noted(alloc, 3)?;
    assert_eq!(rt; go_back(&mut history), 3);
    assert!(rt; go_forth(&mut history));
    history.reserve()?;
    assert_eq!(rt; history.redos(), 2);
    history.note(numbered(alloc, 7)?);
    assert_eq!(rt; name_of(history.last()), "7");
    assert_eq!(rt; name_of(history.coming()), "no change");
    assert_eq!(rt; history.undos(), 2);
    assert!(rt; !go_forth(&mut history));
    history.clear();
    assert_eq!(rt; history.undos(), 0);
    Ok(())
}

#[test]
fn what_differs_is_missing(rt: HostRuntime) -> Result<(), Fail> {
    let alloc = rt.alloc();
    let (none, some) = (List::new(alloc), first_words(alloc)?);
    let come = missing_from(alloc, none.as_slice(), some.as_slice())?;
    assert_eq!(rt; come.len(), 1);
    let gone = missing_from(alloc, some.as_slice(), some.as_slice())?;
    assert_eq!(rt; gone.len(), 0);
    assert!(rt; bob_added(alloc)?.alters());
    let named = Named::Nothing;
    let change = Change { named, gone, come };
    assert!(rt; change.alters());
    Ok(())
}
