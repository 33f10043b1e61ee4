// Worked pieces.
use bdb_base::append_decimal;
use bdb_events::{Read, event_of};
use bdb_lex::{Piece, PieceBytes};
use bdb_multi::{Event, Line};
use std::alloc::{AllocError, Global};
use std::test::Fail;

/// What a piece is, in words.
fn shown(alloc: Global, piece: &Piece<'_>) -> Result<Vec<u8>, AllocError> {
    let mut out = Vec::new(alloc);
    match event_of(alloc, piece)? {
        Read::Nothing => out.extend_from_slice(b"nothing")?,
        Read::Long => out.extend_from_slice(b"long")?,
        Read::NoSession => out.extend_from_slice(b"no session")?,
        Read::NoLine(session) => {
            append_decimal(&mut out, session as u64)?;
            out.extend_from_slice(b" no line")?;
        }
        Read::Event(event) => append_event(&mut out, &event)?,
    }
    Ok(out)
}

fn append_event(out: &mut Vec<u8>, event: &Event) -> Result<(), AllocError> {
    append_decimal(out, event.session as u64)?;
    match &event.line {
        Line::Begin => out.extend_from_slice(b" begins"),
        Line::Commit => out.extend_from_slice(b" commits"),
        Line::Abort => out.extend_from_slice(b" aborts"),
        Line::Cmd(command) => {
            out.extend_from_slice(b" runs ")?;
            out.extend_from_slice(command.as_slice())
        }
    }
}

#[test]
fn tells_what_pieces_are(rt: HostRuntime) -> Result<(), Fail> {
    let cases: [(&[u8], &[u8]); 22] = [
        (b"", b"nothing"),
        (b" -- 1 begin", b"nothing"),
        (b"-- all\n\t\r\n", b"nothing"),
        (b"0 create user 'Alice'", b"0 runs create user 'Alice'"),
        (b"\n-- then\n 1 begin", b"1 begins"),
        (b"1 -- now\n BeGin -- it", b"1 begins"),
        (b"01\tCOMMIT ", b"1 commits"),
        (b"15  \n abort", b"15 aborts"),
        (b"2 \t x -- y\n", b"2 runs x -- y\n"),
        (b"2 begin begin", b"2 runs begin begin"),
        (b"2 'begin'", b"2 runs 'begin'"),
        (b"2 begins", b"2 runs begins"),
        (b"2 !", b"2 runs !"),
        (b"00 commit", b"0 commits"),
        (b"16 begin", b"no session"),
        (b"001 begin", b"no session"),
        (b"-1 begin", b"no session"),
        (b"1begin", b"no session"),
        (b"4", b"no session"),
        (b"4-- c", b"no session"),
        (b"4 ", b"4 no line"),
        (b"04 -- begin", b"4 no line"),
    ];
    for (piece, want) in cases {
        let text = shown(rt.alloc(), &Piece::Cmd(PieceBytes::borrowed(piece)))?;
        assert_eq!(rt; text.as_slice(), want);
    }
    let text = shown(rt.alloc(), &Piece::Long)?;
    assert_eq!(rt; text.as_slice(), b"long".as_slice());
    Ok(())
}
