// The command by which a user leaves.
ghost use Rattle.bdb_parse.specs.Gives.{Gives};
ghost use Rattle.bdb_parse.specs.Reading.{drop_of};

use crate::error::ParseError;
use crate::tokens::{end, keyword, text};
use bdb_lex::Token;
use bdb_syntax::Command;
use std::alloc::Global;

/// What follows 'drop'.
#[tactic(auto, unfolding(crate::specs::Reading::drop_of))]
pub fn drop_user(alloc: Global, tokens: &[Token<'_>]) -> Result<Command, ParseError>
    ensures { Gives (λ x. x) result (drop_of tokens.now) }
{
    let rest = keyword("user", tokens)?;
    let (name, rest) = text(alloc, rest)?;
    end(rest)?;
    Ok(Command::DropUser { name })
}
