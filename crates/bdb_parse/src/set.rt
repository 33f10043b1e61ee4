// What an update sets.
ghost use Rattle.bdb_parse.specs.Gives.{Gives, number_in};
ghost use Rattle.bdb_parse.specs.Reading.{set_of};

use crate::error::ParseError;
use crate::list::ItemReader;
use crate::literal::literal;
use crate::tokens::{equals, name};
use crate::wide::Wide;
use bdb_lex::Token;
use bdb_syntax::RawSet;
use std::alloc::Global;

/// Reads what an update sets.
#[derive(Clone, Copy, Drop)]
pub struct Sets {
    pub wide: Wide,
}

impl ItemReader<RawSet> for Sets {
    ghost item = { λ s. set_of (number_in s.wide) };

    fn read(&self, alloc: Global, part: &[Token<'_>]) -> Result<RawSet, ParseError> {
        set(alloc, self.wide, part)
    }
}

/// A column, an equals sign and a literal.
#[tactic(auto, unfolding(crate::specs::Reading::set_of))]
fn set(alloc: Global, wide: Wide, tokens: &[Token<'_>]) -> Result<RawSet, ParseError>
    ensures { Gives (λ x. x) result (set_of (number_in wide) tokens.now) }
{
    let (col, rest) = name(alloc, tokens)?;
    let rest = equals(rest)?;
    let to = literal(alloc, wide, rest)?;
    Ok(RawSet { col, to })
}
