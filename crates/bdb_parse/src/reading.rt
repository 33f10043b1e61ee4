// Reading a whole command.
ghost use Rattle.std.specs.Prelude.{◌≡◌, true, false, Some, None, IfOk, IsErrOf, IsSomeAnd};
ghost use Rattle.bdb_parse.specs.Reading.{command_of};
ghost use Rattle.bdb_parse.specs.Fits.{fits};
ghost use Rattle.bdb_parse.specs.Spelled.{AreWellSpelled};
ghost use Rattle.bdb_syntax.specs.Filled.{IsFilled};
ghost use Rattle.bdb_syntax.specs.Printable.{IsPrintable};

use crate::command::command;
use crate::error::ParseError;
use crate::wide::Wide;
use bdb_lex::Token;
use bdb_syntax::Command;
use std::alloc::Global;

/// Reads the command that the tokens spell. `Syntax` comes exactly where they are outside the grammar, and `Number`
/// exactly where they are in it and a number is below -9223372036854775808 or above 9223372036854775807.
pub fn parse(alloc: Global, tokens: &[Token<'_>]) -> Result<Command, ParseError>
    ensures read { IfOk result (λ c. command_of tokens.now ≡ Some c) }
    ensures fits { IfOk result (λ c. fits c ≡ true) }
    ensures syntax { IsErrOf result ParseError.Syntax → command_of tokens.now ≡ None }
    ensures number { IsErrOf result ParseError.Number
        → IsSomeAnd (command_of tokens.now) (λ c. fits c ≡ false) }
    ensures filled { IfOk result (λ c. IsFilled c) }
    ensures printable { AreWellSpelled tokens.now → IfOk result (λ c. IsPrintable c) }
{
    match command(alloc, Wide::Refused, tokens) {
        Ok(command) => Ok(command),
        Err(ParseError::Memory) => Err(ParseError::Memory),
        Err(ParseError::Number) => Err(ParseError::Number),
        Err(ParseError::Syntax) => {
            command(alloc, Wide::Zero, tokens)?;
            Err(ParseError::Number)
        }
    }
}
