//! What is read of pieces, in the words of their parts.
ghost use Rattle.bdb_events.specs.Forms.{FormsAreRead, NothingIsGaps, PiecesAreRead, LinesAreRead};

/// What is read of a piece is its form: blanks and comments, the number of a session, blanks, and the line.
pub fn forms_are_read()
    ensures { FormsAreRead }
{}

/// Nothing is left behind blanks and comments exactly where there is nothing else.
pub fn nothing_is_gaps()
    ensures { NothingIsGaps }
{}

/// What is read of a piece is what it is: in the words of its parts, and nothing else.
pub fn pieces_are_read()
    ensures { PiecesAreRead }
{}

/// What is read of a line is what it is: `begin`, `commit` or `abort` where its only token is this word, in any case, and else
/// a command of all its bytes.
pub fn lines_are_read()
    ensures { LinesAreRead }
{}
