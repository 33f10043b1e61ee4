// Commands over a small catalog: what they are bound to, or why they are refused; and the first column that a query leaves
// unbound.
ghost use Rattle.std.specs.Prelude.{◌≡◌, [], ◌∷◌, length, IfOk};
ghost use Rattle.bdb_base.specs.Bases.{IsCatalog};

use bdb_base::{Catalog, ColDef, Item, Kind, List, Query, RelDef, Sign, Txt, UserSlot};
use bdb_bind::{BindError, Bound, bind, safe};
use bdb_lex::tokens;
use bdb_parse::parse;
use std::alloc::{AllocError, Global};
use std::test::Fail;

/// The relation S, with the columns k and v; the users Alice and Bob, and one who is gone.
fn curators(alloc: Global) -> Result<Catalog, AllocError>
    ensures valid { IfOk result (λ c. IsCatalog c) }
    ensures single { IfOk result (λ c. length c.rels ≡ 1) }
{
    let k = Txt::try_new(alloc, "k")?;
    let v = Txt::try_new(alloc, "v")?;
    let kind = Kind::Text;
    let cols = List::from_vec(vec![in alloc; ColDef { name: k, kind }, ColDef { name: v, kind }]?);
    let name = Txt::try_new(alloc, "S")?;
    let rels = List::from_vec(vec![in alloc; RelDef { name, cols, key: 1 }]?);
    let alice = Txt::try_new(alloc, "Alice")?;
    let bob = Txt::try_new(alloc, "Bob")?;
    let slots = vec![in alloc; UserSlot::Live(alice), UserSlot::Live(bob), UserSlot::Gone]?;
    let users = List::from_vec(slots);
    Ok(Catalog { rels, users })
}

/// A query of one item, `not S Y`, with no comparison.
fn denial(alloc: Global) -> Result<Query, AllocError>
    ensures take { IfOk result (λ q. q.take ≡ []) }
    ensures items { IfOk result (λ q. q.items ≡ Item.Rel (89 ∷ []) 0 Sign.Minus [] ∷ []) }
    ensures conds { IfOk result (λ q. q.conds ≡ []) }
{
    let alias = Txt::try_new(alloc, "Y")?;
    let path = List::new(alloc);
    let sign = Sign::Minus;
    let items = List::from_vec(vec![in alloc;
        Item::Rel {
            alias,
            rel: 0,
            sign,
            path
        },
    ]?);
    Ok(Query {
        take: List::new(alloc),
        items,
        conds: List::new(alloc),
    })
}

#[test]
#[tactic(auto, using(crate::proofs::Samples::denial_fits))]
fn first_unbound_column_is_told(rt: HostRuntime) -> Result<(), Fail> {
    let alloc = rt.alloc();
    let catalog = curators(alloc)?;
    let query = denial(alloc)?;
    let first = safe(alloc, &catalog, &query)?;
    assert!(rt; matches!(first, Some((0, 0))));
    Ok(())
}

/// What a piece is bound to, or why it is refused.
fn outcome(alloc: Global, piece: &[u8]) -> Result<&'static str, Fail> {
    let tokens = match tokens(alloc, piece) {
        Ok(tokens) => tokens,
        Err(_) => return Err(Fail::from("this is a list of tokens")),
    };
    match parse(alloc, tokens.as_slice()) {
        Ok(command) => Ok(named(&bind(alloc, &curators(alloc)?, &command))),
        Err(_) => Err(Fail::from("this is a command")),
    }
}

/// A word or two for what a command is bound to.
fn named(answer: &Result<Bound, BindError>) -> &'static str {
    match answer {
        Ok(Bound::DropUser { uid: 1 }) => "1 leaves",
        Ok(Bound::DropUser { uid: 2 }) => "2 leaves",
        Ok(Bound::CreateUser { .. }) => "joins",
        Ok(Bound::Insert { .. }) => "insert",
        Ok(Bound::ShowWorld { .. }) => "show world",
        Ok(Bound::Undo) => "undo",
        Ok(Bound::Redo) => "redo",
        Ok(_) => "bound",
        Err(BindError::Text) => "text",
        Err(BindError::User(_)) => "user",
        Err(BindError::TakenUser(_)) => "taken",
        Err(BindError::Repeat) => "repeat",
        Err(BindError::Deep) => "deep",
        Err(_) => "refused",
    }
}

/// Commands over the catalog. The third user, of any name, is gone.
const BOUND: [(&str, &str); 11] = [
    ("drop user 'Alice'", "1 leaves"),
    ("drop user 'Bob'", "2 leaves"),
    ("drop user 'bob'", "user"),
    ("drop user 'Carol'", "user"),
    ("drop user ''", "user"),
    ("create user 'Carol'", "joins"),
    ("create user 'Bob'", "taken"),
    ("insert into BELIEF 'Carol' S values('a','b')", "user"),
    ("insert into BELIEF 'Bob' S values('a','b')", "insert"),
    ("undo", "undo"),
    ("Redo", "redo"),
];

#[test]
fn users_are_found(rt: HostRuntime) -> Result<(), Fail> {
    for (piece, want) in &BOUND {
        let said = outcome(rt.alloc(), piece.as_bytes())?;
        assert_eq!(rt; said, *want, "{piece}");
    }
    Ok(())
}

/// A command that drops a user whose name has so many bytes.
fn drop_of(alloc: Global, bytes: usize) -> Result<Vec<u8>, AllocError> {
    let mut piece = b"drop user '".to_vec(alloc)?;
    for _ in 0..bytes {
        piece.push(b'a')?;
    }
    piece.push(b'\'')?;
    Ok(piece)
}

#[test]
fn long_names_of_who_leaves(rt: HostRuntime) -> Result<(), Fail> {
    for (bytes, want) in [(255, "user"), (256, "text")] {
        let piece = drop_of(rt.alloc(), bytes)?;
        assert_eq!(rt; outcome(rt.alloc(), piece.as_slice())?, want);
    }
    Ok(())
}

/// What a command with a path of so many users is bound to: these words, the path, and those behind it.
fn at_depth(
    alloc: Global,
    words: &[u8],
    users: usize,
    behind: &[u8],
) -> Result<&'static str, Fail> {
    let mut piece = words.to_vec(alloc)?;
    for at in 0..users {
        if at % 2 == 0 {
            piece.extend_from_slice(b" BELIEF 'Alice'")?;
        } else {
            piece.extend_from_slice(b" BELIEF 'Bob'")?;
        }
    }
    piece.extend_from_slice(behind)?;
    outcome(alloc, piece.as_slice())
}

#[test]
fn statements_are_less_deep_than_questions(rt: HostRuntime) -> Result<(), Fail> {
    let alloc = rt.alloc();
    for (users, want) in [(64, "insert"), (65, "deep")] {
        let said = at_depth(alloc, b"insert into", users, b" S values('a','b')")?;
        assert_eq!(rt; said, want);
    }
    for (users, want) in [(65, "show world"), (1024, "show world"), (1025, "deep")] {
        let said = at_depth(alloc, b"show world", users, b"")?;
        assert_eq!(rt; said, want);
    }
    Ok(())
}
