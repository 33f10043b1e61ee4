// Literals.
ghost use Rattle.bdb_parse.specs.Gives.{Gives, number_in};
ghost use Rattle.bdb_parse.specs.Reading.{literal_of};

use crate::error::ParseError;
use crate::list::ItemReader;
use crate::number::number;
use crate::wide::Wide;
use bdb_base::Value;
use bdb_lex::Token;
use std::alloc::Global;

/// Reads the literals of a list.
#[derive(Clone, Copy, Drop)]
pub struct Literals {
    pub wide: Wide,
}

impl ItemReader<Value> for Literals {
    ghost item = { λ s. literal_of (number_in s.wide) };

    fn read(&self, alloc: Global, part: &[Token<'_>]) -> Result<Value, ParseError> {
        literal(alloc, self.wide, part)
    }
}

/// A literal, and nothing else.
pub fn literal(alloc: Global, wide: Wide, tokens: &[Token<'_>]) -> Result<Value, ParseError>
    ensures { Gives (λ x. x) result (literal_of (number_in wide) tokens.now) }
{
    match tokens {
        [token] => match token {
            Token::Text(text) => Ok(Value::Text(text.to_txt(alloc)?)),
            Token::Num(spelling) => Ok(Value::Int(number(wide, spelling.as_str())?)),
            _ => Err(ParseError::Syntax),
        },
        _ => Err(ParseError::Syntax),
    }
}
