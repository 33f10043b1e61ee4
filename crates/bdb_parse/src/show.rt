// The commands that show a world and the tables.
ghost use Rattle.bdb_parse.specs.Gives.{Gives};
ghost use Rattle.bdb_parse.specs.Reading.{show_of};

use crate::beliefs::beliefs;
use crate::error::ParseError;
use crate::keywords::is_keyword;
use crate::tokens::{end, word};
use bdb_lex::Token;
use bdb_syntax::Command;
use std::alloc::Global;

/// What follows 'show'.
#[tactic(auto, unfolding(crate::specs::Reading::show_of, crate::specs::Reading::show_world_of))]
pub fn show(alloc: Global, tokens: &[Token<'_>]) -> Result<Command, ParseError>
    ensures { Gives (λ x. x) result (show_of tokens.now) }
{
    let (word, rest) = word(tokens)?;
    if is_keyword("world", word) {
        let (users, rest) = beliefs(alloc, rest)?;
        end(rest)?;
        return Ok(Command::ShowWorld { users });
    }
    if is_keyword("tables", word) {
        end(rest)?;
        return Ok(Command::ShowTables);
    }
    Err(ParseError::Syntax)
}
