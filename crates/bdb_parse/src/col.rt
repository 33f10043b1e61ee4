// Columns, with an alias and without one.
ghost use Rattle.bdb_parse.specs.Gives.{Gives};
ghost use Rattle.bdb_parse.specs.Reading.{bare_of, col_at, col_of};

use crate::error::ParseError;
use crate::list::ItemReader;
use crate::tokens::{dot, end, name};
use bdb_lex::Token;
use bdb_syntax::RawCol;
use std::alloc::Global;

/// Reads the columns that a query takes.
#[derive(Clone, Copy, Drop)]
pub struct Taken;

impl ItemReader<RawCol> for Taken {
    ghost item = { λ _. col_of };

    fn read(&self, alloc: Global, part: &[Token<'_>]) -> Result<RawCol, ParseError> {
        col(alloc, part)
    }
}

/// A column without an alias, and nothing else.
#[tactic(auto, unfolding(crate::specs::Reading::bare_of))]
pub fn bare(alloc: Global, tokens: &[Token<'_>]) -> Result<RawCol, ParseError>
    ensures { Gives (λ x. x) result (bare_of tokens.now) }
{
    let (col, rest) = name(alloc, tokens)?;
    end(rest)?;
    Ok(RawCol { alias: None, col })
}

/// A column behind an alias, and the tokens after it.
#[tactic(auto, unfolding(crate::specs::Reading::col_at))]
pub fn first_col<'a, 'p>(
    alloc: Global,
    tokens: &'a [Token<'p>],
) -> Result<(RawCol, &'a [Token<'p>]), ParseError>
    ensures { Gives (λ x. (x.0, x.1.now)) result (col_at tokens.now) }
{
    let (alias, rest) = name(alloc, tokens)?;
    let rest = dot(rest)?;
    let (col, rest) = name(alloc, rest)?;
    let alias = Some(alias);
    Ok((RawCol { alias, col }, rest))
}

/// A column behind an alias, and nothing else.
#[tactic(auto, unfolding(crate::specs::Reading::col_of))]
pub fn col(alloc: Global, tokens: &[Token<'_>]) -> Result<RawCol, ParseError>
    ensures { Gives (λ x. x) result (col_of tokens.now) }
{
    let (col, rest) = first_col(alloc, tokens)?;
    end(rest)?;
    Ok(col)
}
