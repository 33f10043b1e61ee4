// Blanks and comments.
ghost use Rattle.std.specs.Prelude.{◌≡◌, ◌≤◌, ◌<◌, true, false, length, IfSome, IfNone};
ghost use Rattle.bdb_lex.specs.Tokens.{tokens_of};
ghost use Rattle.bdb_lex.specs.Reading.{begins_gap, behind, behind_gaps};

use crate::bytes::is_blank;

/// What follows the blanks and comments at the front: it begins with neither, and has the same tokens.
#[tactic(auto, using(crate::proofs::GapLemmas::tokens_behind))]
pub fn behind_gaps(bytes: &[u8]) -> &[u8]
    ensures rest { result.now ≡ behind_gaps bytes.now }
    ensures same { tokens_of result.now ≡ tokens_of bytes.now }
    ensures past { begins_gap result.now ≡ false }
    ensures shorter { length result.now ≤ length bytes.now }
{
    let mut rest = bytes;
    while let Some(after) = behind_gap(rest) {
        rest = after;
    }
    rest
}

/// What follows a blank or a comment at the front; none where there is neither.
#[tactic(auto, using(crate::proofs::GapLemmas::blank_passed))]
fn behind_gap(bytes: &[u8]) -> Option<&[u8]>
    ensures same { IfSome result (λ after. behind_gaps bytes.now ≡ behind_gaps after.now) }
    ensures shorter { IfSome result (λ after. length after.now < length bytes.now) }
    ensures none { IfNone result (begins_gap bytes.now ≡ false) }
{
    match bytes {
        [] => None,
        [b'-', b'-', comment @ ..] => Some(behind_line(comment)),
        [first, others @ ..] => { if is_blank(*first) { Some(others) } else { None } }
    }
}

/// What follows the blanks and comments behind the first line feed; nothing where there is none.
fn behind_line(bytes: &[u8]) -> &[u8]
    ensures same { behind true bytes.now ≡ behind_gaps result.now }
    ensures shorter { length result.now ≤ length bytes.now }
{
    let mut rest = bytes;
    while let [byte, others @ ..] = rest {
        rest = others;
        if *byte == b'\n' {
            return rest;
        }
    }
    rest
}
