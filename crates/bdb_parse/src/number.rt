// Numbers, by their spelling.
ghost use Rattle.std.specs.Prelude.{◌≡◌};
ghost use Rattle.std.specs.Char.{is_ascii_digit};
ghost use Rattle.std.specs.List.{list_all};
ghost use Rattle.bdb_parse.specs.Gives.{Gives, number_in};
ghost use Rattle.bdb_parse.specs.Numbers.{is_number, are_digits};

use crate::error::ParseError;
use crate::wide::Wide;

/// Whether each byte is a digit.
fn have_digits(bytes: &[u8]) -> bool
    ensures { result ≡ list_all is_ascii_digit bytes.now }
{
    bytes.iter().all(|byte| byte.is_ascii_digit())
}

/// Whether bytes are one digit or more.
fn are_digits(bytes: &[u8]) -> bool
    ensures { result ≡ are_digits bytes.now }
{
    !bytes.is_empty() && have_digits(bytes)
}

/// Whether a spelling is an optional minus sign and digits.
fn is_number(spelling: &[u8]) -> bool
    ensures { result ≡ is_number spelling.now }
{
    match spelling {
        [b'-', digits @ ..] => are_digits(digits),
        _ => are_digits(spelling),
    }
}

/// The number that a spelling writes.
pub fn number(wide: Wide, spelling: &str) -> Result<i64, ParseError>
    ensures { Gives (λ n. n) result (number_in wide spelling.now) }
{
    if !is_number(spelling.as_bytes()) {
        return Err(ParseError::Syntax);
    }
    match (spelling.parse::<i64>(), wide) {
        (Ok(number), _) => Ok(number),
        (Err(_), Wide::Refused) => Err(ParseError::Syntax),
        (Err(_), Wide::Zero) => Ok(0),
    }
}
