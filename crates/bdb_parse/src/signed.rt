// A path, a sign and a tuple.
ghost use Rattle.std.specs.Prelude.{List};
ghost use Rattle.bdb_parse.specs.Gives.{Gives, number_in};
ghost use Rattle.bdb_parse.specs.Reading.{signed_of};

use crate::create::inside;
use crate::error::ParseError;
use crate::list::list_of;
use crate::literal::Literals;
use crate::stop::Stop;
use crate::target::{Target, target_of};
use crate::tokens::keyword;
use crate::wide::Wide;
use bdb_base::{List, Value};
use bdb_lex::Token;
use std::alloc::Global;

/// A path, a sign, a relation and the values of its tuple, behind which nothing stands.
#[tactic(auto, unfolding(crate::specs::Reading::signed_of))]
pub fn signed(
    alloc: Global,
    wide: Wide,
    tokens: &[Token<'_>],
) -> Result<(Target, List<Value>), ParseError>
    ensures { Gives (λ x. x) result (signed_of (number_in wide) tokens.now) }
{
    let (target, rest) = target_of(alloc, tokens)?;
    let rest = keyword("values", rest)?;
    let inside = inside(rest)?;
    let vals = list_of(alloc, &Literals { wide }, Stop::Comma, inside)?;
    Ok((target, vals))
}
