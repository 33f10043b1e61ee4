// The path, the sign and the relation that a command names.
ghost use Rattle.std.specs.Prelude.{◌≡◌, List};
ghost use Rattle.bdb_parse.specs.Gives.{Gives};
ghost use Rattle.bdb_parse.specs.Reading.{sign_at, target_at};

use crate::beliefs::beliefs;
use crate::error::ParseError;
use crate::tokens::{after_keyword, name};
use bdb_base::{List, Sign, Txt};
use bdb_lex::Token;
use std::alloc::Global;

/// The users, the sign and the relation that a command names.
#[derive(Drop)]
pub struct Target {
    pub users: List<Txt>,
    pub sign: Sign,
    pub rel: Txt,
}

/// The sign: minus where 'not' stands, and the tokens after it.
#[tactic(auto, unfolding(crate::specs::Reading::sign_at))]
pub fn sign<'a, 'p>(tokens: &'a [Token<'p>]) -> (Sign, &'a [Token<'p>])
    ensures sign { result.0 ≡ (sign_at tokens.now).0 }
    ensures rest { result.1.now ≡ (sign_at tokens.now).1 }
{
    match after_keyword("not", tokens) {
        Some(rest) => (Sign::Minus, rest),
        None => (Sign::Plus, tokens),
    }
}

/// The users, the sign and the relation that a command names, and the tokens after them.
#[tactic(auto, unfolding(crate::specs::Reading::target_at))]
pub fn target_of<'a, 'p>(
    alloc: Global,
    tokens: &'a [Token<'p>],
) -> Result<(Target, &'a [Token<'p>]), ParseError>
    ensures { Gives (λ x. (x.0, x.1.now)) result (target_at tokens.now) }
{
    let (users, rest) = beliefs(alloc, tokens)?;
    let (sign, rest) = sign(rest);
    let (rel, rest) = name(alloc, rest)?;
    Ok((Target { users, sign, rel }, rest))
}
