// Worked pieces and tokens.
use bdb_base::limits::{LONGEST_COMMAND, LONGEST_WORD};
use bdb_base::{Exact, List};
use bdb_lex::{Cutter, LexError, Piece, Rest, Token, tokens};
use std::alloc::{AllocError, Global};
use std::test::Fail;

/// The tokens in one line: words, numbers and texts with a letter before them.
fn shown(alloc: Global, piece: &[u8]) -> Result<String, AllocError> {
    let mut line = String::new(alloc);
    match tokens(alloc, piece) {
        Ok(found) => {
            for token in found.as_slice() {
                let (mark, text) = spelled(token);
                line.push_str(mark)?;
                line.push_str(text)?;
                line.push_str(" ")?;
            }
        }
        Err(LexError::NotTokens) => line.push_str("none")?,
        Err(LexError::Memory) => line.push_str("memory")?,
    }
    Ok(line)
}

fn spelled<'a>(token: &'a Token<'_>) -> (&'a str, &'a str) {
    match token {
        Token::Word(text) => ("w:", text.as_str()),
        Token::Text(text) => ("t:", text.as_str()),
        Token::Num(text) => ("n:", text.as_str()),
        Token::Comma => (",", ""),
        Token::Dot => (".", ""),
        Token::ParenL => ("(", ""),
        Token::ParenR => (")", ""),
        Token::Eq => ("=", ""),
        Token::Ne => ("<>", ""),
        Token::Lt => ("<", ""),
        Token::Le => ("<=", ""),
        Token::Gt => (">", ""),
        Token::Ge => (">=", ""),
    }
}

#[test]
fn reads_tokens(rt: HostRuntime) -> Result<(), Fail> {
    let cases: [(&[u8], &str); 31] = [
        (b"", ""),
        (b" \t\r\n", ""),
        (b"1--2", "n:1 "),
        (b"1--2\n3", "n:1 n:3 "),
        (b"1-2", "n:1 n:-2 "),
        (b"- 2", "none"),
        (b"1 -", "none"),
        (b"-x", "none"),
        (b"-- all of it", ""),
        (b"a -- b; 'c\nd", "w:a w:d "),
        (b"a!=b", "w:a <> w:b "),
        (b"a<>b<=c>=d<e>f", "w:a <> w:b <= w:c >= w:d < w:e > w:f "),
        (b"< =", "< = "),
        (b"!", "none"),
        (b"! =", "none"),
        (b"''", "t: "),
        (b"'it''s'", "t:it's "),
        (b"''''", "t:' "),
        (b"'a' 'b'", "t:a t:b "),
        (b"'a''b", "none"),
        (b"'a\nb'", "none"),
        (b"'a\x1f'", "none"),
        (b"'\x7f'", "t:\x7f "),
        (b"'\xc3\xa9'", "t:\u{e9} "),
        (b"'\xc3'", "none"),
        (b"\xef\xbb\xbfselect", "none"),
        (b"a;b", "none"),
        (b"U.name,(x_1)", "w:U . w:name , ( w:x_1 ) "),
        (b"12ab", "n:12 w:ab "),
        (b"_9", "w:_9 "),
        (b"UnDo\n--it", "w:UnDo "),
    ];
    for (piece, want) in cases {
        let line = shown(rt.alloc(), piece)?;
        assert_eq!(rt; line.as_str(), want);
    }
    Ok(())
}

#[test]
fn bounds_words(rt: HostRuntime) -> Result<(), Fail> {
    let mut word = Vec::new(rt.alloc());
    for _ in 0..LONGEST_WORD {
        word.push(b'w')?;
    }
    let line = shown(rt.alloc(), word.as_slice())?;
    assert_eq!(rt; line.len(), 258);
    word.push(b'w')?;
    let line = shown(rt.alloc(), word.as_slice())?;
    assert_eq!(rt; line.as_str(), "none");
    Ok(())
}

/// The pieces of a script that is fed in parts of this size, each with a bar behind it, and what is said of the rest.
fn cut(alloc: Global, script: &[u8], size: usize) -> Result<(Vec<u8>, Rest), AllocError> {
    let mut cutter = Cutter::new(alloc);
    let mut pieces = List::new(alloc);
    for part in script.chunks(size.max(1)) {
        cutter.feed(alloc, part, &mut pieces)?;
    }
    let mut line = Vec::new(alloc);
    for piece in pieces.as_slice() {
        match piece {
            Piece::Cmd(bytes) => line.extend_from_slice(bytes.as_slice())?,
            Piece::Long => line.extend_from_slice(b"LONG")?,
        }
        line.extend_from_slice(b"|")?;
    }
    Ok((line, cutter.finish()))
}

#[test]
fn cuts_pieces(rt: HostRuntime) -> Result<(), Fail> {
    let cases: [(&[u8], &[u8], Rest); 18] = [
        (b"", b"", Rest::Nothing),
        (
            b"-- a; b\nshow world;;",
            b"-- a; b\nshow world||",
            Rest::Nothing,
        ),
        (b"a;b", b"a|", Rest::Unfinished),
        (b"a; \t\r\n", b"a|", Rest::Nothing),
        (b"a; -- b", b"a|", Rest::Nothing),
        (b"a; -- b\n", b"a|", Rest::Nothing),
        (b"a; -- b\nc", b"a|", Rest::Unfinished),
        (b"a; -", b"a|", Rest::Unfinished),
        (b"a; - -- b", b"a|", Rest::Unfinished),
        (b"-;", b"-|", Rest::Nothing),
        (b"';'';';", b"';'';'|", Rest::Nothing),
        (b"'a;", b"", Rest::Unfinished),
        (b"a;''", b"a|", Rest::Unfinished),
        (b"'--';--'\n;", b"'--'|--'\n|", Rest::Nothing),
        (b"---;\n;", b"---;\n|", Rest::Nothing),
        (b"\xff;\0", b"\xff|", Rest::Unfinished),
        (
            b"create user 'A'; insert into S values('a",
            b"create user 'A'|",
            Rest::Unfinished,
        ),
        (
            b"INSERT into S values('it''s','');-- a; b\nshow world;;",
            b"INSERT into S values('it''s','')|-- a; b\nshow world||",
            Rest::Nothing,
        ),
    ];
    for (script, want, rest) in cases {
        for size in [1, 2, 7, 4096] {
            let (line, said) = cut(rt.alloc(), script, size)?;
            assert_eq!(rt; line.as_slice(), want);
            assert_eq!(rt; said, rest);
        }
    }
    Ok(())
}

#[test]
fn cuts_long_pieces(rt: HostRuntime) -> Result<(), Fail> {
    let mut script = Vec::new(rt.alloc());
    for _ in 0..LONGEST_COMMAND {
        script.push(b' ')?;
    }
    let (line, rest) = cut(rt.alloc(), script.as_slice(), 4096)?;
    assert_eq!(rt; line.len(), 0);
    assert_eq!(rt; rest, Rest::Nothing);
    script.push(b';')?;
    let (line, _) = cut(rt.alloc(), script.as_slice(), 1000)?;
    assert_eq!(rt; line.len(), 65537);
    let mut longer = [b'-'].to_vec(rt.alloc())?;
    longer.extend_from_slice(script.as_slice())?;
    let (line, rest) = cut(rt.alloc(), longer.as_slice(), 1000)?;
    assert_eq!(rt; line.as_slice(), b"LONG|".as_slice());
    assert_eq!(rt; rest, Rest::Nothing);
    Ok(())
}

#[test]
fn copies(rt: HostRuntime) -> Result<(), Fail> {
    let found = tokens(rt.alloc(), b"a 1 'b' ,.()=<><<=>>=")?;
    let copy = found.try_clone(rt.alloc())?;
    assert_eq!(rt; copy.len(), 13);
    let mut pieces = List::new(rt.alloc());
    Cutter::new(rt.alloc()).feed(rt.alloc(), b"a;", &mut pieces)?;
    assert_eq!(rt; pieces.try_clone(rt.alloc())?.len(), 1);
    Ok(())
}
