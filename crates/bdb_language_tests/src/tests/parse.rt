use bdb_base::{Exact, List, Sign, Value};
use bdb_lex::{Token, TokenText, tokens};
use bdb_parse::{ParseError, parse};
use bdb_syntax::{Command, print};
use std::alloc::{AllocError, Global};
use std::test::Fail;

// A token of a piece between blanks. A text has its opening quote alone.
fn token(piece: &str) -> Token<'_> {
    let text = TokenText::borrowed(piece);
    match piece {
        "," => Token::Comma,
        "." => Token::Dot,
        "(" => Token::ParenL,
        ")" => Token::ParenR,
        "=" => Token::Eq,
        "<>" => Token::Ne,
        ">" => Token::Gt,
        _ => match piece.as_bytes() {
            [b'\'', ..] => Token::Text(text),
            [b'-' | b'0'..=b'9', ..] => Token::Num(text),
            _ => Token::Word(text),
        },
    }
}

fn read(alloc: Global, line: &str) -> Result<Result<Command, ParseError>, AllocError> {
    let mut tokens = List::new(alloc);
    for piece in line.split_whitespace() {
        tokens.push(token(piece))?;
    }
    Ok(parse(alloc, tokens.as_slice()))
}

fn outcome(answer: &Result<Command, ParseError>) -> &'static str {
    match answer {
        Ok(Command::CreateUser { .. }) => "create user",
        Ok(Command::DropUser { .. }) => "drop user",
        Ok(Command::CreateRelation { .. }) => "create relation",
        Ok(Command::Insert { .. }) => "insert",
        Ok(Command::Delete { .. }) => "delete",
        Ok(Command::Update { .. }) => "update",
        Ok(Command::Select { .. }) => "select",
        Ok(Command::Explain { .. }) => "explain",
        Ok(Command::ShowWorld { .. }) => "show world",
        Ok(Command::Why { .. }) => "why",
        Ok(Command::ShowTables) => "show tables",
        Ok(Command::Undo) => "undo",
        Ok(Command::Redo) => "redo",
        Err(ParseError::Syntax) => "syntax",
        Err(ParseError::Number) => "number",
        Err(ParseError::Memory) => "memory",
    }
}

const CASES: [(&str, &str); 58] = [
    ("create user 'Alice", "create user"),
    ("CREATE User 'Alice", "create user"),
    ("create user Alice", "syntax"),
    ("create user 'Alice 'Bob", "syntax"),
    ("drop user 'Alice", "drop user"),
    ("DROP User 'Alice", "drop user"),
    ("drop user Alice", "syntax"),
    ("drop user", "syntax"),
    ("drop user 'Alice 'Bob", "syntax"),
    ("drop relation R", "syntax"),
    (
        "create relation drop ( user text , drop int )",
        "create relation",
    ),
    (
        "select user . drop from drop user where user . user = 'Bob",
        "select",
    ),
    (
        "create relation user ( key text , value INT )",
        "create relation",
    ),
    ("create relation Values ( k int )", "syntax"),
    ("create relation R ( )", "syntax"),
    ("create relation R ( k int , )", "syntax"),
    ("create relation R ( k int ) )", "syntax"),
    (
        "create relation T ( a text , b int , c text ) key 2",
        "create relation",
    ),
    ("create relation key ( key int ) KEY -1", "create relation"),
    (
        "create relation R ( k int ) key 9223372036854775808",
        "number",
    ),
    ("create relation R ( k int ) key", "syntax"),
    ("create relation R ( k int ) key two", "syntax"),
    ("create relation R ( k int ) key 1 1", "syntax"),
    ("create relation R ( k int ) 1", "syntax"),
    (
        "insert into belief 'Bob belief 'Alice not R values ( 'a , -0 , 007 )",
        "insert",
    ),
    ("insert into R values ( 9223372036854775807 )", "insert"),
    ("insert into R values ( -9223372036854775808 )", "insert"),
    ("insert into R values ( 9223372036854775808 )", "number"),
    ("insert into R values ( -9223372036854775809 )", "number"),
    ("insert into R values ( 9223372036854775808 , )", "syntax"),
    ("insert into R values ( k )", "syntax"),
    ("insert into belief R values ( 1 )", "syntax"),
    ("delete from R", "delete"),
    ("delete from not R where a = 1 and b <> c", "delete"),
    ("delete from R where", "syntax"),
    ("delete from R where A . a = 1", "syntax"),
    ("update R set a = 1 , b = 'x where k > 3", "update"),
    ("update R set a = b", "syntax"),
    (
        "select U . name from Users as U , belief U . uid belief 'Bob not R X where X . k = 1 and X . v = U . name",
        "select",
    ),
    ("select R . k from R", "select"),
    ("select k from R", "syntax"),
    (
        "select R . k from R where R . k = 99999999999999999999",
        "number",
    ),
    ("explain select R . k from R", "explain"),
    ("explain R", "syntax"),
    ("show world", "show world"),
    ("show world belief 'Bob belief 'Alice", "show world"),
    ("show tables", "show tables"),
    ("Why belief 'Bob not why values ( 9 )", "why"),
    ("why R values ( 9223372036854775808 )", "number"),
    ("why into R values ( 9 )", "syntax"),
    ("undo", "undo"),
    ("UnDo", "undo"),
    ("REDO", "redo"),
    ("undo 2", "syntax"),
    ("redo undo", "syntax"),
    ("undoes", "syntax"),
    ("create relation undo ( redo int )", "create relation"),
    ("", "syntax"),
];

#[test]
fn commands_and_refusals(rt: HostRuntime) -> Result<(), Fail> {
    for (line, want) in &CASES {
        let answer = read(rt.alloc(), line)?;
        assert_eq!(rt; outcome(&answer), *want, "{line}");
    }
    Ok(())
}

#[test]
fn signs_and_numbers(rt: HostRuntime) -> Result<(), Fail> {
    let Ok(
        Command::Insert {
            users: _,
            sign,
            rel,
            vals,
        },
    ) = read(rt.alloc(), "insert into not R values ( -0 , -007 )")?
    else {
        return Err(Fail::from("this is an insert"));
    };
    assert!(rt; sign == Sign::Minus);
    assert_eq!(rt; rel.as_str(), "R");
    assert!(rt; matches!(vals.get(0), Some(Value::Int(0))));
    assert!(rt; matches!(vals.get(1), Some(Value::Int(-7))));
    Ok(())
}

#[test]
fn aliases(rt: HostRuntime) -> Result<(), Fail> {
    let Ok(Command::Select { query }) = read(rt.alloc(), "select R . k from R , S as T , S Key")?
    else {
        return Err(Fail::from("this is a query"));
    };
    assert_eq!(rt; query.items.len(), 3);
    for (item, want) in query.items.as_slice().iter().zip(&["R", "T", "Key"]) {
        assert_eq!(rt; item.alias.as_str(), *want);
    }
    Ok(())
}

/// The printed form of a copy of the command that a piece spells.
fn reprinted(alloc: Global, piece: &[u8]) -> Result<List<u8>, Fail> {
    let tokens = match tokens(alloc, piece) {
        Ok(tokens) => tokens,
        Err(_) => return Err(Fail::from("this is a list of tokens")),
    };
    match parse(alloc, tokens.as_slice()) {
        Ok(command) => Ok(print(alloc, &command.try_clone(alloc)?)?),
        Err(_) => Err(Fail::from("this is a command")),
    }
}

/// Commands, and their printed forms.
const PRINTED: [(&str, &str); 21] = [
    ("create user 'Alice'", "create user 'Alice'"),
    ("create user 'Bob'", "create user 'Bob'"),
    ("create user 'Carol'", "create user 'Carol'"),
    ("Drop USER 'O''Hara' -- at last", "drop user 'O''Hara'"),
    (
        "CREATE relation Sightings(sid text, observer text,species TEXT , place text)",
        "create relation Sightings(sid text, observer text, species text, place text)",
    ),
    (
        "create relation Comments(cid text, note text, sid text)",
        "create relation Comments(cid text, note text, sid text)",
    ),
    (
        "create relation T(a text,b int,c text)Key 02",
        "create relation T(a text, b int, c text) key 2",
    ),
    (
        "create relation key(key int) KEY -0",
        "create relation key(key int) key 0",
    ),
    (
        "insert into BELIEF 'Alice' Sightings values('s2','Alice','crow','Lake Placid')",
        "insert into BELIEF 'Alice' Sightings values('s2', 'Alice', 'crow', 'Lake Placid')",
    ),
    (
        "insert into BELIEF 'Alice' Comments values('c1','found feathers','s2')",
        "insert into BELIEF 'Alice' Comments values('c1', 'found feathers', 's2')",
    ),
    (
        "insert into BELIEF 'Bob' Sightings values('s2','Alice','raven','Lake Placid')",
        "insert into BELIEF 'Bob' Sightings values('s2', 'Alice', 'raven', 'Lake Placid')",
    ),
    (
        "insert into Sightings values('s1','Carol','bald eagle','Lake Forest')",
        "insert into Sightings values('s1', 'Carol', 'bald eagle', 'Lake Forest')",
    ),
    (
        "insert into BELIEF 'Bob' not Sightings values('s1','Carol','bald eagle','Lake Forest')",
        "insert into BELIEF 'Bob' not Sightings values('s1', 'Carol', 'bald eagle', 'Lake Forest')",
    ),
    (
        "insert into belief 'Bob' belief 'Alice' Comments values ('c2','black feathers','s2')",
        "insert into BELIEF 'Bob' BELIEF 'Alice' Comments values('c2', 'black feathers', 's2')",
    ),
    (
        "select U.name, X.sid, X.species\nfrom Users as U, BELIEF 'Alice' Sightings as X, BELIEF U.uid not Sightings as Y\nwhere Y.sid = X.sid and Y.observer = X.observer and Y.species = X.species and Y.place = X.place",
        "select U.name, X.sid, X.species from Users U, BELIEF 'Alice' Sightings X, BELIEF U.uid not Sightings Y where Y.sid = X.sid and Y.observer = X.observer and Y.species = X.species and Y.place = X.place",
    ),
    (
        "select C.cid, C.note from BELIEF 'Bob' BELIEF 'Alice' Comments C where C.sid = 's2'",
        "select C.cid, C.note from BELIEF 'Bob' BELIEF 'Alice' Comments C where C.sid = 's2'",
    ),
    (
        "update not S set k='it''s',v = -007 where v!=3 and k<v",
        "update not S set k = 'it''s', v = -7 where v <> 3 and k < v",
    ),
    (
        "WHY belief 'Bob' not Why values('s1',2)",
        "why BELIEF 'Bob' not Why values('s1', 2)",
    ),
    (
        "explain select S.k from S -- all of it",
        "explain select S.k from S S",
    ),
    (" Undo\n", "undo"),
    ("REDO -- it", "redo"),
];

#[test]
fn printed_forms(rt: HostRuntime) -> Result<(), Fail> {
    for (piece, want) in &PRINTED {
        let once = reprinted(rt.alloc(), piece.as_bytes())?;
        assert_eq!(rt; once.as_slice(), want.as_bytes(), "{piece}");
        let twice = reprinted(rt.alloc(), once.as_slice())?;
        assert_eq!(rt; twice.as_slice(), want.as_bytes(), "{piece}");
    }
    Ok(())
}
