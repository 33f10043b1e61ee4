// The number of a session at the front of a piece.
ghost use Rattle.std.specs.Prelude.{◌≡◌, ◌<◌, Some, None, IfSome, IfNone};
ghost use Rattle.bdb_events.specs.Pieces.{digit_of, numbered_by, behind_number, behind_first, numbered};

use crate::gaps::behind_blanks;
use bdb_lex::is_blank;
use bdb_multi::SESSIONS;

/// The number of one digit or two at the front, where it is one of a session and a blank follows, and what follows the blanks.
pub fn numbered(bytes: &[u8]) -> Option<(u8, &[u8])>
    ensures some { IfSome result
        (λ found. numbered bytes.now ≡ Some (numbered_by found.0 found.1.now)) }
    ensures none { IfNone result (numbered bytes.now ≡ None) }
{
    match bytes {
        [] => None,
        [first, others @ ..] => match digit_of(*first) {
            None => None,
            Some(number) => behind_first(number, others),
        },
    }
}

/// The same behind a first digit.
fn behind_first(number: u8, bytes: &[u8]) -> Option<(u8, &[u8])>
    requires { number < 10 }
    ensures some { IfSome result
        (λ found. behind_first (Some number) bytes.now ≡ Some (numbered_by found.0 found.1.now)) }
    ensures none { IfNone result (behind_first (Some number) bytes.now ≡ None) }
{
    match bytes {
        [] => None,
        [second, others @ ..] => match digit_of(*second) {
            None => behind_number(number, bytes),
            Some(digit) => behind_number(10 * number + digit, others),
        },
    }
}

/// The same behind a number.
fn behind_number(number: u8, bytes: &[u8]) -> Option<(u8, &[u8])>
    ensures some { IfSome result
        (λ found. behind_number number bytes.now ≡ Some (numbered_by found.0 found.1.now)) }
    ensures none { IfNone result (behind_number number bytes.now ≡ None) }
{
    match bytes {
        [] => None,
        [first, ..] => {
            if (number as usize) < SESSIONS && is_blank(*first) {
                Some((number, behind_blanks(bytes)))
            } else {
                None
            }
        }
    }
}

/// The number of a digit.
fn digit_of(byte: u8) -> Option<u8>
    ensures number { result ≡ digit_of byte }
    ensures below { IfSome result (λ n. n < 10) }
{
    if byte.is_ascii_digit() {
        Some(byte - b'0')
    } else {
        None
    }
}
