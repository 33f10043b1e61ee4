// Blanks at the front.
ghost use Rattle.std.specs.Prelude.{◌≡◌};
ghost use Rattle.bdb_events.specs.Pieces.{behind_blanks};

use bdb_lex::is_blank;

/// What follows the blanks at the front.
pub fn behind_blanks(bytes: &[u8]) -> &[u8]
    ensures { result.now ≡ behind_blanks bytes.now }
{
    let mut rest = bytes;
    while let [first, others @ ..] = rest {
        if !is_blank(*first) {
            return rest;
        }
        rest = others;
    }
    rest
}
