// The commands that are one word.
ghost use Rattle.bdb_parse.specs.Gives.{Gives};
ghost use Rattle.bdb_parse.specs.Reading.{one_word_of};

use crate::error::ParseError;
use crate::keywords::is_keyword;
use crate::tokens::end;
use bdb_lex::{Token, TokenText};
use bdb_syntax::Command;

/// The command that is this word, with nothing behind it.
#[tactic(auto, unfolding(crate::specs::Reading::one_word_of))]
pub fn one_word(word: &TokenText<'_>, tokens: &[Token<'_>]) -> Result<Command, ParseError>
    ensures { Gives (λ x. x) result (one_word_of word.now tokens.now) }
{
    if is_keyword("undo", word) {
        end(tokens)?;
        return Ok(Command::Undo);
    }
    if is_keyword("redo", word) {
        end(tokens)?;
        return Ok(Command::Redo);
    }
    Err(ParseError::Syntax)
}
