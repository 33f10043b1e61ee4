// What a piece says.
ghost use Rattle.std.specs.Prelude.{◌≡◌, true, IfOk, Some};
ghost use Rattle.bdb_parse.specs.Reading.{command_of};
ghost use Rattle.bdb_parse.specs.Spelled.{AreWellSpelled};

use bdb_lex::{LexError, Token, tokens};
use bdb_parse::{ParseError, parse};
use bdb_render::Refusal;
use bdb_syntax::Command;
use std::alloc::{AllocError, Global};

/// What a piece says.
#[derive(Drop)]
pub enum Reading {
    /// It has no token.
    Nothing,
    /// A command.
    Says(Command),
    /// It is no command, and why.
    Refused(Refusal),
}

ghost use Rattle.bdb_session.specs.Reading.{reading_of, reading_of_tokens, reading_of_command, IsFit};
ghost use Rattle.bdb_session.specs.declared.reading.Reading.TheVariants as reading;

/// Whether a piece has no byte, and so says nothing. A longer one may say nothing too.
pub fn says_nothing(piece: &[u8]) -> bool
    ensures { result ≡ true → reading_of piece.now ≡ reading.Nothing }
{
    match piece {
        [] => true,
        [_, ..] => false,
    }
}

/// What a piece says.
pub fn read_piece(alloc: Global, piece: &[u8]) -> Result<Reading, AllocError>
    ensures reading { IfOk result (λ r. r ≡ reading_of piece.now) }
    ensures fit { IfOk result IsFit }
{
    match tokens(alloc, piece) {
        Ok(tokens) => read_tokens(alloc, tokens.as_slice()),
        Err(LexError::NotTokens) => Ok(Reading::Refused(Refusal::Syntax)),
        Err(LexError::Memory) => Err(AllocError),
    }
}

/// What tokens say.
fn read_tokens(alloc: Global, tokens: &[Token<'_>]) -> Result<Reading, AllocError>
    ensures reading { IfOk result (λ r. r ≡ reading_of_tokens (Some tokens.now)) }
    ensures fit { AreWellSpelled tokens.now → IfOk result IsFit }
{
    match tokens {
        [] => Ok(Reading::Nothing),
        [_, ..] => read_command(alloc, tokens),
    }
}

/// What tokens say as a command.
fn read_command(alloc: Global, tokens: &[Token<'_>]) -> Result<Reading, AllocError>
    ensures reading { IfOk result (λ r. r ≡ reading_of_command (command_of tokens.now)) }
    ensures fit { AreWellSpelled tokens.now → IfOk result IsFit }
{
    match parse(alloc, tokens) {
        Ok(command) => Ok(Reading::Says(command)),
        Err(ParseError::Syntax) => Ok(Reading::Refused(Refusal::Syntax)),
        Err(ParseError::Number) => Ok(Reading::Refused(Refusal::Number)),
        Err(ParseError::Memory) => Err(AllocError),
    }
}
