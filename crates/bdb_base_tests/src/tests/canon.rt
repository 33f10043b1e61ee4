// The structures of worked bases. Alice is user 1, Bob is user 2, Carol is user 3.
ghost use Rattle.std.specs.Prelude.{◌≡◌, true, IfOk};
ghost use Rattle.bdb_base.specs.Safety.{query_fits, IsSafe};
ghost use Rattle.bdb_canon.specs.Samples.{denied, disputed, reported, joined, deniers};

use bdb_base::{Base, Cmp, Cond, Item, List, Operand, Query, Ref, Sign, Tuple, Txt, Value, Who};
use bdb_canon::{canon, has_more_lines, line_count};
use bdb_model::{answers, believes, clashing, stated, world_rows};
use bdb_samples::{catalog, disputed, live, reported, statement, text_of, tuple_of};
use std::alloc::{AllocError, Global};
use std::test::Fail;

/// An eagle, which Bob denies.
fn denied(alloc: Global) -> Result<Base, Fail>
    ensures { IfOk result (λ b. b.catalog ≡ denied.catalog) }
{
    let mut users = List::new(alloc);
    users.push(live(alloc, "Alice")?)?;
    users.push(live(alloc, "Bob")?)?;
    let mut stmts = List::new(alloc);
    stmts.push(statement(alloc, &[], Sign::Plus, "s1", "eagle")?)?;
    stmts.push(statement(alloc, &[2], Sign::Minus, "s1", "eagle")?)?;
    let catalog = catalog(alloc, users)?;
    Ok(Base::from_parts(catalog, stmts))
}

/// Whether a base's structure reads so, and has so many lines.
fn reads(alloc: Global, base: &Base, text: &str, lines: usize) -> Result<bool, AllocError> {
    let k = canon(alloc, base)?;
    let found = text_of(alloc, &k)?;
    let fits = !has_more_lines(alloc, base, lines)?;
    let counted = line_count(base.catalog(), &k) == lines;
    Ok(found.as_slice() == text.as_bytes() && fits && counted)
}

#[test]
fn structures_of_worked_bases(rt: HostRuntime) -> Result<(), Fail> {
    let alloc = rt.alloc();
    let nothing = Base::empty(alloc);
    assert!(rt; reads(alloc, &nothing, "> ", 1)?);
    assert!(rt; has_more_lines(alloc, &nothing, 0)?);
    let text = "> 2>0 0.1>0 0.2>1 1.1>0 0+0e 1-0e ";
    assert!(rt; reads(alloc, &denied(alloc)?, text, 11)?);
    let text = "> 1>0 2>0 0.1>1 0.2>2 1.2>2 2.1>1 0+1e 1+0e 2-1e ";
    assert!(rt; reads(alloc, &disputed(alloc)?, text, 15)?);
    let text =
        "> 1>0 3>0 31>1 0.1>1 0.2>0 0.3>2 1.2>0 1.3>2 2.1>3 2.2>0 3.2>0 3.3>2 1+1e 3+0e 3+1i ";
    assert!(rt; reads(alloc, &reported(alloc)?, text, 22)?);
    Ok(())
}

/// The disputed base, after Bob left.
fn left_by_bob(alloc: Global) -> Result<Base, Fail> {
    let mut base = disputed(alloc)?;
    let _count = base.drop_user(2);
    Ok(base)
}

#[test]
fn who_is_gone_has_no_edge(rt: HostRuntime) -> Result<(), Fail> {
    let alloc = rt.alloc();
    let base = left_by_bob(alloc)?;
    assert!(rt; reads(alloc, &base, "> 1>0 0.1>1 0+1e 1+0e ", 9)?);
    Ok(())
}

/// What a path believes of a tuple: whether its world has it with plus and with minus, whether it believes it and its
/// negation, and whether a statement of the path clashes with it and with its negation; 1 or 0 for each.
fn told(base: &Base, path: &[u32], t: &Tuple) -> [bool; 6] {
    [
        stated(base, path, t, Sign::Plus),
        stated(base, path, t, Sign::Minus),
        believes(base, path, t, Sign::Plus),
        believes(base, path, t, Sign::Minus),
        clashing(base, path, t, Sign::Plus).is_some(),
        clashing(base, path, t, Sign::Minus).is_some(),
    ]
}

/// The rows of a path's world: for each its sign, e where it is explicit, and its values.
fn world_text(alloc: Global, base: &Base, path: &[u32]) -> Result<Vec<u8>, AllocError> {
    let world = world_rows(alloc, base, path)?;
    let mut out = Vec::new(alloc);
    for row in world.held.as_slice() {
        out.push(if row.sign == Sign::Plus { b'+' } else { b'-' })?;
        out.push(if row.explicit { b'e' } else { b'i' })?;
        for value in row.tuple.vals.as_slice() {
            if let Value::Text(text) = value {
                out.push(b' ')?;
                for byte in text.as_str().as_bytes() {
                    out.push(*byte)?;
                }
            }
        }
        out.push(b';')?;
    }
    Ok(out)
}

/// Whether a path's world is told so over a base.
fn is_world(alloc: Global, base: &Base, path: &[u32], want: &str) -> Result<bool, AllocError> {
    let text = world_text(alloc, base, path)?;
    Ok(text.as_slice() == want.as_bytes())
}

/// What is told of a tuple with the key s1 at a path.
fn told_of(alloc: Global, base: &Base, path: &[u32], value: &str) -> Result<[bool; 6], AllocError> {
    let t = tuple_of(alloc, "s1", value)?;
    Ok(told(base, path, &t))
}

/// A comparison that says that two columns are equal.
fn joined(left: Ref, right: Ref) -> Cond
    ensures { result ≡ joined left right }
{
    let cmp = Cmp::Eq;
    let right = Operand::Col(right);
    Cond { left, cmp, right }
}

/// The query for the users who don't believe what is seen.
fn deniers(alloc: Global) -> Result<Query, Fail>
    ensures { IfOk result (λ q. q ≡ deniers) }
{
    let items = denied_items(alloc)?;
    let mut take = List::new(alloc);
    take.push(Ref { item: 0, col: 1 })?;
    let mut conds = List::new(alloc);
    conds.push(joined(Ref { item: 2, col: 0 }, Ref { item: 1, col: 0 }))?;
    conds.push(joined(Ref { item: 2, col: 1 }, Ref { item: 1, col: 1 }))?;
    Ok(Query { take, items, conds })
}

fn denied_items(alloc: Global) -> Result<List<Item>, Fail>
    ensures { IfOk result (λ items. items ≡ deniers.items) }
{
    let alias = Txt::try_new(alloc, "U")?;
    let mut items = List::new(alloc);
    items.push(Item::Users { alias })?;
    let alias = Txt::try_new(alloc, "X")?;
    let path = List::new(alloc);
    let sign = Sign::Plus;
    items.push(Item::Rel {
        alias,
        rel: 0,
        sign,
        path,
    })?;
    let alias = Txt::try_new(alloc, "Y")?;
    let mut path = List::new(alloc);
    path.push(Who::Of(0))?;
    let sign = Sign::Minus;
    items.push(Item::Rel {
        alias,
        rel: 0,
        sign,
        path,
    })?;
    Ok(items)
}

/// The names that the query for deniers gives over a base.
fn names_told(alloc: Global, base: &Base, query: &Query) -> Result<Vec<u8>, AllocError>
    requires fits { query_fits base.now.catalog query.now ≡ true }
    requires safe { IsSafe base.now.catalog.rels query.now }
{
    let rows = answers(alloc, base, query)?;
    let mut out = Vec::new(alloc);
    for row in rows.as_slice() {
        for value in row.as_slice() {
            if let Value::Text(text) = value {
                for byte in text.as_str().as_bytes() {
                    out.push(*byte)?;
                }
                out.push(b';')?;
            }
        }
    }
    Ok(out)
}

/// Whether the query for deniers gives these names over a base of Alice and Bob.
fn are_deniers(alloc: Global, base: &Base, want: &str) -> Result<bool, Fail>
    requires catalog { base.now.catalog ≡ disputed.catalog }
{
    let query = deniers(alloc)?;
    let names = names_told(alloc, base, &query)?;
    Ok(names.as_slice() == want.as_bytes())
}

/// Whether it gives these names over a base of Alice, Bob and Carol.
fn are_deniers_of_three(alloc: Global, base: &Base, want: &str) -> Result<bool, Fail>
    requires catalog { base.now.catalog ≡ reported.catalog }
{
    let query = deniers(alloc)?;
    let names = names_told(alloc, base, &query)?;
    Ok(names.as_slice() == want.as_bytes())
}

#[test]
fn an_eagle_is_denied(rt: HostRuntime) -> Result<(), Fail> {
    let alloc = rt.alloc();
    let base = denied(alloc)?;
    let beliefs: [(&[u32], [bool; 6]); 4] = [
        (&[], [true, false, true, false, false, true]),
        (&[2], [false, true, false, true, true, false]),
        (&[1, 2], [false, true, false, true, false, false]),
        (&[2, 1], [true, false, true, false, false, false]),
    ];
    for (path, want) in beliefs {
        assert!(rt; told_of(alloc, &base, path, "eagle")? == want);
    }
    let worlds: [(&[u32], &str); 3] = [
        (&[2], "-e s1 eagle;"),
        (&[1, 2], "-i s1 eagle;"),
        (&[2, 1], "+i s1 eagle;"),
    ];
    for (path, want) in worlds {
        assert!(rt; is_world(alloc, &base, path, want)?);
    }
    assert!(rt; are_deniers(alloc, &base, "Bob;")?);
    Ok(())
}

#[test]
fn a_crow_is_seen_in_its_place(rt: HostRuntime) -> Result<(), Fail> {
    let alloc = rt.alloc();
    let base = disputed(alloc)?;
    let beliefs: [(&[u32], &str, [bool; 6]); 2] = [
        (&[1], "eagle", [false, false, false, true, true, false]),
        (&[2, 1], "raven", [false, false, false, true, false, false]),
    ];
    for (path, value, want) in beliefs {
        assert!(rt; told_of(alloc, &base, path, value)? == want);
    }
    let worlds: [(&[u32], &str); 2] = [(&[1], "+e s1 crow;"), (&[], "+e s1 eagle;")];
    for (path, want) in worlds {
        assert!(rt; is_world(alloc, &base, path, want)?);
    }
    assert!(rt; are_deniers(alloc, &base, "Alice;Bob;")?);
    Ok(())
}

#[test]
fn carol_reports_what_alice_sees(rt: HostRuntime) -> Result<(), Fail> {
    let alloc = rt.alloc();
    let base = reported(alloc)?;
    let raven = told_of(alloc, &base, &[3, 1], "raven")?;
    assert!(rt; raven == [false, false, false, true, true, false]);
    let worlds: [(&[u32], &str); 2] = [
        (&[2, 3, 1], "+i s1 eagle;+i s2 crow;"),
        (&[3, 1], "+e s1 eagle;+i s2 crow;"),
    ];
    for (path, want) in worlds {
        assert!(rt; is_world(alloc, &base, path, want)?);
    }
    assert!(rt; are_deniers_of_three(alloc, &base, "")?);
    Ok(())
}
