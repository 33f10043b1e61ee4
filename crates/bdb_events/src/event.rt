// What a piece is.
ghost use Rattle.std.specs.Prelude.{◌≡◌, Some, IfOk};
ghost use Rattle.bdb_events.specs.Forms.{NamesSession};
ghost use Rattle.bdb_events.specs.Pieces.{read_of, read_behind, read_form, read_line, numbered_by};

use crate::form::numbered;
use crate::read::Read;
use crate::words::line_of;
use bdb_lex::{Piece, behind_gaps};
use bdb_multi::Event;
use std::alloc::{AllocError, Global};

/// What a piece of a stream of sessions is: blanks and comments alone, too long, or behind these the number of a session, from
/// 0 to 15 in one digit or two, one blank or more, and the line. The only error is running out of memory.
pub fn event_of(alloc: Global, piece: &Piece<'_>) -> Result<Read, AllocError>
    ensures read { IfOk result (λ read. read ≡ read_of piece.now) }
    ensures session { IfOk result NamesSession }
{
    match piece {
        Piece::Cmd(bytes) => {
            let read = read_behind(alloc, behind_gaps(bytes.as_slice()))?;
            Ok(read)
        }
        Piece::Long => Ok(Read::Long),
    }
}

/// What a piece is, by what follows its blanks and comments.
fn read_behind(alloc: Global, bytes: &[u8]) -> Result<Read, AllocError>
    ensures { IfOk result (λ read. read ≡ read_behind bytes.now) }
{
    match bytes {
        [] => Ok(Read::Nothing),
        [_, ..] => match numbered(bytes) {
            None => Ok(Read::NoSession),
            Some((session, line)) => read_line(alloc, session, line),
        },
    }
}

/// What a line of a session is.
fn read_line(alloc: Global, session: u8, line: &[u8]) -> Result<Read, AllocError>
    ensures { IfOk result (λ read. read ≡ read_form (Some (numbered_by session line.now))) }
{
    match behind_gaps(line) {
        [] => Ok(Read::NoLine(session)),
        [_, ..] => {
            let line = line_of(alloc, line)?;
            Ok(Read::Event(Event { session, line }))
        }
    }
}
