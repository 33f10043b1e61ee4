// Worlds and beliefs of a short session. Alice is user 1, Bob is user 2.
ghost use Rattle.std.specs.Prelude.{◌≡◌, [], ◌∷◌, IfOk};
ghost use Rattle.bdb_base.specs.declared.kinds.Item.TheVariants.{Users};

use bdb_base::{Base, Item, List, Query, Ref, Sign, Txt, Value, World};
use bdb_model::{answers, at_ends, believes_among, clashing_among, stated_among, world_among};
use bdb_samples::{BOB_DENIES, CROW, EAGLE, Given, stmts_of, tuple_of};
use std::alloc::{AllocError, Global};
use std::test::Fail;

const NO_RAVEN: Given = (&[1], Sign::Minus, "s1", "raven");

const BOB_A: Given = (&[2], Sign::Plus, "a", "x");

const BOB_B: Given = (&[2], Sign::Plus, "b", "y");

#[test]
fn worlds(rt: HostRuntime) -> Result<(), Fail> {
    let alloc = rt.alloc();
    let deep = [1, 2, 1, 2, 1, 2, 1, 2, 1, 2];
    let cases: [(&[Given], &[u32], &str); 10] = [
        (&[], &[], ""),
        (&[EAGLE, BOB_DENIES], &[2], "- s1 eagle explicit; "),
        (&[EAGLE, BOB_DENIES], &[1, 2], "- s1 eagle inherited; "),
        (&[EAGLE, BOB_DENIES], &[2, 1], "+ s1 eagle inherited; "),
        (&[EAGLE, BOB_DENIES], &deep, "- s1 eagle inherited; "),
        (&[EAGLE, CROW, BOB_DENIES], &[1], "+ s1 crow explicit; "),
        (&[EAGLE, CROW, BOB_DENIES], &[2, 1], "+ s1 crow inherited; "),
        (
            &[EAGLE, CROW, NO_RAVEN, BOB_DENIES],
            &[1],
            "+ s1 crow explicit; - s1 raven explicit; ",
        ),
        (
            &[EAGLE, NO_RAVEN, BOB_DENIES],
            &[1],
            "+ s1 eagle inherited; - s1 raven explicit; ",
        ),
        (&[BOB_A, BOB_B], &[2], "+ a x explicit; + b y explicit; "),
    ];
    for (given, path, want) in cases {
        let stmts = stmts_of(alloc, given)?;
        let world = world_among(alloc, &[], stmts.as_slice(), path)?;
        let text = text_of(alloc, &world)?;
        assert_eq!(rt; text.as_str(), want);
    }
    Ok(())
}

#[test]
fn statements_at_ends(rt: HostRuntime) -> Result<(), Fail> {
    let alloc = rt.alloc();
    let stmts = stmts_of(alloc, &[EAGLE, CROW, NO_RAVEN, BOB_DENIES])?;
    let cases: [(&[u32], usize); 4] = [(&[], 1), (&[1], 3), (&[1, 2], 2), (&[3], 1)];
    for (path, count) in cases {
        let near = at_ends(alloc, stmts.as_slice(), path)?;
        assert_eq!(rt; near.len(), count);
    }
    Ok(())
}

#[test]
fn beliefs(rt: HostRuntime) -> Result<(), Fail> {
    let alloc = rt.alloc();
    let stmts = stmts_of(alloc, &[EAGLE, CROW, BOB_DENIES])?;
    let eagle = tuple_of(alloc, "s1", "eagle")?;
    let cases: [(&[u32], Sign, bool, bool); 6] = [
        (&[], Sign::Plus, true, true),
        (&[], Sign::Minus, false, false),
        (&[1], Sign::Plus, false, false),
        (&[1], Sign::Minus, false, true),
        (&[2], Sign::Minus, true, true),
        (&[1, 2], Sign::Minus, true, true),
    ];
    for (path, sign, stated, believed) in cases {
        assert_eq!(rt;
            stated_among(1, stmts.as_slice(), path, &eagle, sign),
            stated
        );
        assert_eq!(rt;
            believes_among(1, stmts.as_slice(), path, &eagle, sign),
            believed
        );
    }
    Ok(())
}

#[test]
fn clashes(rt: HostRuntime) -> Result<(), Fail> {
    let alloc = rt.alloc();
    let stmts = stmts_of(alloc, &[EAGLE, CROW, BOB_DENIES])?;
    let raven = tuple_of(alloc, "s1", "raven")?;
    let eagle = tuple_of(alloc, "s1", "eagle")?;
    let found = clashing_among(1, stmts.as_slice(), &[1], &raven, Sign::Plus);
    assert_eq!(rt; found.map(|x| x.sign), Some(Sign::Plus));
    assert!(rt; clashing_among(1, stmts.as_slice(), &[1], &raven, Sign::Minus).is_none());
    assert!(rt; clashing_among(1, stmts.as_slice(), &[2], &raven, Sign::Plus).is_none());
    assert!(rt; clashing_among(1, stmts.as_slice(), &[2], &eagle, Sign::Plus).is_some());
    Ok(())
}

#[test]
fn answers_of_a_query(rt: HostRuntime) -> Result<(), Fail> {
    let alloc = rt.alloc();
    let mut base = Base::empty(alloc);
    base.add_user(Txt::try_new(alloc, "Ann")?)?;
    let query = names_of_users(alloc, Txt::try_new(alloc, "U")?)?;
    let rows = answers(alloc, &base, &query)?;
    assert_eq!(rt; rows.len(), 1);
    for row in rows.as_slice() {
        assert_eq!(rt; row.len(), 1);
        for value in row.as_slice() {
            assert!(rt; is_text(value, "Ann"));
        }
    }
    Ok(())
}

#[test]
fn who_left_is_no_answer(rt: HostRuntime) -> Result<(), Fail> {
    let alloc = rt.alloc();
    let mut base = Base::empty(alloc);
    base.add_user(Txt::try_new(alloc, "Ann")?)?;
    assert_eq!(rt; base.drop_user(1), 0);
    let query = names_of_users(alloc, Txt::try_new(alloc, "U")?)?;
    let rows = answers(alloc, &base, &query)?;
    assert_eq!(rt; rows.len(), 0);
    Ok(())
}

/// The query for the names of all users.
fn names_of_users(alloc: Global, alias: Txt) -> Result<Query, Fail>
    ensures { IfOk result
        (λ q. q ≡ record {
          take = record { item = 0; col = 1 } ∷ [];
          items = Users alias ∷ [];
          conds = [];
        }) }
{
    let mut take = List::new(alloc);
    take.push(Ref { item: 0, col: 1 })?;
    let mut items = List::new(alloc);
    items.push(Item::Users { alias })?;
    let conds = List::new(alloc);
    Ok(Query { take, items, conds })
}

fn is_text(value: &Value, text: &str) -> bool {
    match value {
        Value::Text(t) => t.as_str() == text,
        Value::Int(_) => false,
    }
}

fn text_of(alloc: Global, world: &World) -> Result<String, AllocError> {
    let mut text = String::new(alloc);
    for row in world.held.as_slice() {
        text.push_str(match row.sign {
            Sign::Plus => "+ ",
            Sign::Minus => "- ",
        })?;
        for value in row.tuple.vals.as_slice() {
            if let Value::Text(part) = value {
                text.push_str(part.as_str())?;
                text.push_str(" ")?;
            }
        }
        text.push_str(if row.explicit {
            "explicit; "
        } else {
            "inherited; "
        })?;
    }
    Ok(text)
}
