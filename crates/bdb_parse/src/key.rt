// The length of a new relation's key.
ghost use Rattle.bdb_parse.specs.Gives.{Gives, number_in};
ghost use Rattle.bdb_parse.specs.Reading.{num_of, key_of};

use crate::error::ParseError;
use crate::number::number;
use crate::tokens::keyword;
use crate::wide::Wide;
use bdb_lex::Token;

/// A number, and nothing else.
fn num(wide: Wide, tokens: &[Token<'_>]) -> Result<i64, ParseError>
    ensures { Gives (λ n. n) result (num_of (number_in wide) tokens.now) }
{
    match tokens {
        [token] => match token {
            Token::Num(spelling) => {
                let number = number(wide, spelling.as_str())?;
                Ok(number)
            }
            _ => Err(ParseError::Syntax),
        },
        _ => Err(ParseError::Syntax),
    }
}

/// 'key' and a number, or nothing where the length isn't said.
#[tactic(auto, unfolding(crate::specs::Reading::key_of))]
pub fn key(wide: Wide, tokens: &[Token<'_>]) -> Result<Option<i64>, ParseError>
    ensures { Gives (λ k. k) result (key_of (number_in wide) tokens.now) }
{
    match tokens {
        [] => Ok(None),
        [_, ..] => {
            let rest = keyword("key", tokens)?;
            let length = num(wide, rest)?;
            Ok(Some(length))
        }
    }
}
