// The texts of values, and the replies of worked commands.
use bdb_base::{
    Catalog, ColDef, Held, Kind, List, RelDef, Sign, Tuple, Txt, UserSlot, Value, What, World,
};
use bdb_canon::Canon;
use bdb_render::{
    Refusal, count_reply, ok_reply, path_text, refusal_reply, rows_reply, tables_reply, tuple_text,
    value_text, world_reply,
};
use std::alloc::{AllocError, Global};
use std::test::Fail;

/// The relation S, with the columns k and v and a key of so many of them; and the users Alice and Bob, with a place between
/// them whose user is gone.
fn curators(alloc: Global, key: u32) -> Result<Catalog, AllocError> {
    let mut cols = List::new(alloc);
    for name in ["k", "v"] {
        cols.push(ColDef {
            name: Txt::try_new(alloc, name)?,
            kind: Kind::Text,
        })?;
    }
    let name = Txt::try_new(alloc, "S")?;
    let mut rels = List::new(alloc);
    rels.push(RelDef { name, cols, key })?;
    let mut users = List::new(alloc);
    users.push(UserSlot::Live(Txt::try_new(alloc, "Alice")?))?;
    users.push(UserSlot::Gone)?;
    users.push(UserSlot::Live(Txt::try_new(alloc, "Bob")?))?;
    Ok(Catalog { rels, users })
}

/// A tuple of S with the key s1.
fn sighting(alloc: Global, species: &str) -> Result<Tuple, AllocError> {
    let key = Value::Text(Txt::try_new(alloc, "s1")?);
    let species = Value::Text(Txt::try_new(alloc, species)?);
    let vals = List::from_vec(vec![in alloc; key, species]?);
    Ok(Tuple { rel: 0, vals })
}

#[test]
fn values_print(rt: HostRuntime) -> Result<(), Fail> {
    let alloc = rt.alloc();
    let numbers = [(i64::MIN, "-9223372036854775808"), (-1, "-1"), (0, "0")];
    for (n, want) in numbers {
        let text = value_text(alloc, &Value::Int(n))?;
        assert_eq!(rt; text.as_slice(), want.as_bytes(), "at {n}");
    }
    for (content, want) in [("it's", "'it''s'"), ("", "''")] {
        let value = Value::Text(Txt::try_new(alloc, content)?);
        let text = value_text(alloc, &value)?;
        assert_eq!(rt; text.as_slice(), want.as_bytes(), "at {content}");
    }
    Ok(())
}

/// Whether a world of one row prints so.
fn row_prints(
    alloc: Global,
    catalog: &Catalog,
    sign: Sign,
    explicit: bool,
    want: &str,
) -> Result<bool, AllocError> {
    let mut held = List::new(alloc);
    let tuple = sighting(alloc, "eagle")?;
    held.push(Held {
        tuple,
        sign,
        explicit,
    })?;
    let reply = world_reply(alloc, catalog, &World { held })?;
    Ok(reply.as_slice() == want.as_bytes())
}

/// A world with an eagle that is inherited, and a raven that is denied.
fn two_rows(alloc: Global) -> Result<World, AllocError> {
    let mut held = List::new(alloc);
    for (sign, explicit, species) in [(Sign::Plus, false, "eagle"), (Sign::Minus, true, "raven")] {
        let tuple = sighting(alloc, species)?;
        held.push(Held {
            tuple,
            sign,
            explicit,
        })?;
    }
    Ok(World { held })
}

/// Whether a world prints so.
fn world_prints(
    alloc: Global,
    catalog: &Catalog,
    world: &World,
    want: &str,
) -> Result<bool, AllocError> {
    let reply = world_reply(alloc, catalog, world)?;
    Ok(reply.as_slice() == want.as_bytes())
}

#[test]
fn rows_of_worlds_print(rt: HostRuntime) -> Result<(), Fail> {
    let alloc = rt.alloc();
    let catalog = curators(alloc, 1)?;
    let rows = [
        (Sign::Minus, true, "- S('s1', 'eagle') explicit\nok 1\n"),
        (Sign::Minus, false, "- S('s1', 'eagle') inherited\nok 1\n"),
        (Sign::Plus, false, "+ S('s1', 'eagle') inherited\nok 1\n"),
    ];
    for (sign, explicit, want) in rows {
        assert!(rt; row_prints(alloc, &catalog, sign, explicit, want)?);
    }
    Ok(())
}

#[test]
fn worlds_print(rt: HostRuntime) -> Result<(), Fail> {
    let alloc = rt.alloc();
    let catalog = curators(alloc, 1)?;
    let world = two_rows(alloc)?;
    let want = "+ S('s1', 'eagle') inherited\n- S('s1', 'raven') explicit\nok 2\n";
    assert!(rt; world_prints(alloc, &catalog, &world, want)?);
    Ok(())
}

/// Two rows of a name and a number.
fn two_answers(alloc: Global) -> Result<List<List<Value>>, AllocError> {
    let mut rows = List::new(alloc);
    for name in ["Alice", "Bob"] {
        let first = Value::Text(Txt::try_new(alloc, name)?);
        rows.push(List::from_vec(vec![in alloc; first, Value::Int(7)]?))?;
    }
    Ok(rows)
}

#[test]
fn rows_and_counts_print(rt: HostRuntime) -> Result<(), Fail> {
    let alloc = rt.alloc();
    let rows = two_answers(alloc)?;
    let reply = rows_reply(alloc, &rows)?;
    assert!(rt; reply.as_slice() == b"'Alice', 7\n'Bob', 7\nok 2\n".as_slice());
    let reply = ok_reply(alloc)?;
    assert!(rt; reply.as_slice() == b"ok\n".as_slice());
    let reply = count_reply(alloc, 10)?;
    assert!(rt; reply.as_slice() == b"ok 10\n".as_slice());
    Ok(())
}

/// Whether a tuple of S prints so.
fn tuple_prints(alloc: Global, catalog: &Catalog, want: &str) -> Result<bool, AllocError> {
    let tuple = sighting(alloc, "crow")?;
    let text = tuple_text(alloc, catalog, &tuple)?;
    Ok(text.as_slice() == want.as_bytes())
}

/// Whether a path prints so.
fn path_prints(
    alloc: Global,
    catalog: &Catalog,
    path: &[u32],
    want: &str,
) -> Result<bool, AllocError> {
    let text = path_text(alloc, catalog, path)?;
    Ok(text.as_slice() == want.as_bytes())
}

#[test]
fn tuples_and_paths_print(rt: HostRuntime) -> Result<(), Fail> {
    let alloc = rt.alloc();
    let catalog = curators(alloc, 1)?;
    assert!(rt; tuple_prints(alloc, &catalog, "S('s1', 'crow')")?);
    assert!(rt; path_prints(alloc, &catalog, &[3, 1], "/'Bob'/'Alice'")?);
    assert!(rt; path_prints(alloc, &catalog, &[], "/")?);
    Ok(())
}

/// The reply to `show tables` where nothing is stated, and the key of the relation has so many columns.
fn unstated(alloc: Global, key: u32) -> Result<List<u8>, AllocError> {
    let catalog = curators(alloc, key)?;
    let canon = Canon {
        worlds: List::new(alloc),
        tuples: List::new(alloc),
        edges: List::new(alloc),
        rows: List::new(alloc),
    };
    tables_reply(alloc, &catalog, &canon)
}

#[test]
fn keys_print(rt: HostRuntime) -> Result<(), Fail> {
    let alloc = rt.alloc();
    let one = unstated(alloc, 1)?;
    let want = "user 1 'Alice'\nuser 3 'Bob'\nrelation S(k text, v text)\nok 3\n";
    assert_eq!(rt; one.as_slice(), want.as_bytes());
    let two = unstated(alloc, 2)?;
    let want = "user 1 'Alice'\nuser 3 'Bob'\nrelation S(k text, v text) key 2\nok 3\n";
    assert_eq!(rt; two.as_slice(), want.as_bytes());
    Ok(())
}

/// Whether a refusal prints so.
fn prints(
    alloc: Global,
    catalog: &Catalog,
    refusal: &Refusal,
    want: &str,
) -> Result<bool, AllocError> {
    let reply = refusal_reply(alloc, catalog, refusal)?;
    Ok(reply.as_slice() == want.as_bytes())
}

/// Thirteen refusals, by number, each with its text.
fn refusal_of(alloc: Global, number: u32) -> Result<(Refusal, &'static str), AllocError> {
    match number {
        0 => Ok((Refusal::Unfinished, "error unfinished\n")),
        1 => {
            let name = Txt::try_new(alloc, "Zoe")?;
            Ok((Refusal::User(name), "error user 'Zoe'\n"))
        }
        2 => {
            let name = Txt::try_new(alloc, "Bob")?;
            Ok((Refusal::TakenUser(name), "error taken 'Bob'\n"))
        }
        3 => {
            let name = Txt::try_new(alloc, "Users")?;
            Ok((Refusal::TakenName(name), "error taken Users\n"))
        }
        4 => Ok((Refusal::KeyLength(0), "error key 0\n")),
        5 => Ok((Refusal::KeyLength(-2), "error key -2\n")),
        6 => {
            let alias = Txt::try_new(alloc, "X")?;
            Ok((Refusal::AliasTwice(alias), "error alias twice X\n"))
        }
        7 => {
            let col = Txt::try_new(alloc, "v")?;
            let alias = None;
            Ok((Refusal::Kind { alias, col }, "error kind v\n"))
        }
        8 => {
            let alias = Txt::try_new(alloc, "Y")?;
            let col = Txt::try_new(alloc, "v")?;
            Ok((Refusal::Unsafe { alias, col }, "error unsafe Y.v\n"))
        }
        9 => {
            let tuple = sighting(alloc, "crow")?;
            let sign = Sign::Plus;
            let want = "error clash + S('s1', 'crow')\n";
            Ok((Refusal::Clash { sign, tuple }, want))
        }
        10 => Ok((Refusal::NoUndo, "error no undo\n")),
        11 => Ok((Refusal::NoRedo, "error no redo\n")),
        _ => Ok((Refusal::Full(What::Users), "error full users\n")),
    }
}

#[test]
fn refusals_print(rt: HostRuntime) -> Result<(), Fail> {
    let alloc = rt.alloc();
    let catalog = curators(alloc, 1)?;
    for number in 0..13 {
        let (refusal, want) = refusal_of(alloc, number)?;
        assert!(rt; prints(alloc, &catalog, &refusal, want)?, "{want}");
    }
    Ok(())
}
