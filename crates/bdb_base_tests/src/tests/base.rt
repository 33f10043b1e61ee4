// The orders of values and paths, and a base to which a user, a relation and a statement are added and taken away.
ghost use Rattle.std.specs.Prelude.{◌≡◌, IfOk};
ghost use Rattle.bdb_base_tests.specs.BaseSamples.{sample_relation, sample_statement, second};

use bdb_base::{
    Base, ColDef, Exact, Kind, List, Path, RelDef, Sign, Stmt, Tuple, Txt, Value, cmp_path,
    cmp_value, is_user, live_count, user_name,
};
use std::alloc::{AllocError, Global};
use std::test::Fail;

// Each value is below all later ones.
#[test]
fn values_come_in_order(rt: HostRuntime) -> Result<(), Fail> {
    let alloc = rt.alloc();
    let mut values = Vec::new(alloc);
    for number in [-10, -9, 9, 10] {
        values.push(Value::Int(number))?;
    }
    for text in ["", "10", "9", "Z", "a", "ab", "é"] {
        values.push(Value::Text(Txt::try_new(alloc, text)?))?;
    }
    for (i, a) in values.iter().enumerate() {
        for (j, b) in values.iter().enumerate() {
            assert_eq!(rt; cmp_value(a, b), i.cmp(&j), "{i} and {j}");
        }
    }
    Ok(())
}

// Each path is below all later ones: a shorter one comes first.
#[test]
fn paths_come_in_order(rt: HostRuntime) {
    let paths: [&[u32]; 6] = [&[], &[2], &[10], &[1, 2], &[2, 1], &[1, 2, 1]];
    for (i, a) in paths.iter().enumerate() {
        for (j, b) in paths.iter().enumerate() {
            assert_eq!(rt; cmp_path(a, b), i.cmp(&j), "{i} and {j}");
        }
    }
}

fn relation(alloc: Global) -> Result<RelDef, AllocError>
    ensures { IfOk result (λ def. def ≡ sample_relation) }
{
    let mut cols = List::new(alloc);
    cols.push(ColDef {
        name: Txt::try_new(alloc, "n")?,
        kind: Kind::Int,
    })?;
    let name = Txt::try_new(alloc, "R")?;
    Ok(RelDef { name, cols, key: 1 })
}

fn statement(alloc: Global) -> Result<Stmt, Fail>
    ensures { IfOk result (λ s. s ≡ sample_statement) }
{
    let path = Path::try_new(alloc, &[1])?;
    let mut vals = List::new(alloc);
    vals.push(Value::Int(7))?;
    Ok(Stmt {
        path,
        sign: Sign::Plus,
        tuple: Tuple { rel: 0, vals },
    })
}

/// A base with the user Ann and the relation R.
fn related(alloc: Global) -> Result<Base, Fail>
    ensures { IfOk result (λ b. b ≡ second) }
{
    let mut base = Base::empty(alloc);
    let name = Txt::try_new(alloc, "Ann")?;
    base.add_user(name)?;
    let def = relation(alloc)?;
    base.add_relation(def)?;
    Ok(base)
}

/// Puts the statement twice, and tells whether the first time alone added it.
fn put_twice(alloc: Global, base: &mut Base) -> Result<bool, Fail>
    requires start { base.old ≡ second }
{
    let stmt = statement(alloc)?;
    let added = base.put(stmt)?;
    let stmt = statement(alloc)?;
    let again = base.put(stmt)?;
    Ok(added & !again)
}

/// Takes the statement twice, and tells whether the first time alone took it.
fn take_twice(alloc: Global, base: &mut Base) -> Result<bool, Fail> {
    let stmt = statement(alloc)?;
    let taken = base.take(&stmt);
    let again = base.take(&stmt);
    Ok(taken & !again)
}

/// Takes the statement twice after a copy was made, and tells whether the copy keeps one.
fn copy_keeps_one(alloc: Global, base: &mut Base) -> Result<bool, Fail> {
    let copy = base.try_clone(alloc)?;
    let taken = take_twice(alloc, base)?;
    Ok(taken & (copy.stmts().len() == 1))
}

#[test]
fn takes_the_last_away(rt: HostRuntime) -> Result<(), Fail> {
    let alloc = rt.alloc();
    let mut base = related(alloc)?;
    base.pop_relation();
    assert_eq!(rt; base.catalog().rels.len(), 0);
    assert_eq!(rt; base.catalog().users.len(), 1);
    base.pop_user();
    assert_eq!(rt; base.catalog().users.len(), 0);
    Ok(())
}

#[test]
fn keeps_what_is_put(rt: HostRuntime) -> Result<(), Fail> {
    let alloc = rt.alloc();
    let mut base = related(alloc)?;
    assert!(rt; put_twice(alloc, &mut base)?);
    assert_eq!(rt; base.stmts().len(), 1);
    assert!(rt; copy_keeps_one(alloc, &mut base)?);
    assert_eq!(rt; base.stmts().len(), 0);
    assert_eq!(rt; base.catalog().users.len(), 1);
    Ok(())
}

#[test]
fn who_leaves_may_come_back(rt: HostRuntime) -> Result<(), Fail> {
    let alloc = rt.alloc();
    let mut base = Base::empty(alloc);
    base.add_user(Txt::try_new(alloc, "Ann")?)?;
    base.add_relation(relation(alloc)?)?;
    assert!(rt; base.put(statement(alloc)?)?);
    assert_eq!(rt; base.drop_user(1), 1);
    assert_eq!(rt; base.stmts().len(), 0);
    assert_eq!(rt; base.catalog().users.len(), 1);
    assert_eq!(rt; live_count(base.catalog().users.as_slice()), 0);
    assert!(rt; user_name(base.catalog().users.as_slice(), 1).is_none());
    base.revive_user(1, Txt::try_new(alloc, "Ann")?);
    assert!(rt; is_user(base.catalog().users.as_slice(), 1));
    Ok(())
}
