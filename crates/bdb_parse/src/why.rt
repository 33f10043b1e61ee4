// The command that asks for a certificate.
ghost use Rattle.bdb_parse.specs.Gives.{Gives, number_in};
ghost use Rattle.bdb_parse.specs.Reading.{why_of};

use crate::error::ParseError;
use crate::signed::signed;
use crate::target::Target;
use crate::wide::Wide;
use bdb_lex::Token;
use bdb_syntax::Command;
use std::alloc::Global;

/// What follows 'why'.
#[tactic(auto, unfolding(crate::specs::Reading::why_of))]
pub fn why(alloc: Global, wide: Wide, tokens: &[Token<'_>]) -> Result<Command, ParseError>
    ensures { Gives (λ x. x) result (why_of (number_in wide) tokens.now) }
{
    let (target, vals) = signed(alloc, wide, tokens)?;
    let Target { users, sign, rel } = target;
    Ok(Command::Why {
        users,
        sign,
        rel,
        vals,
    })
}
