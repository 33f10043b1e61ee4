// Conditions: of a change, whose columns have no alias, and of a query, whose columns have one.
ghost use Rattle.std.specs.Prelude.{◌≡◌, List};
ghost use Rattle.std.specs.Option.{option_copied};
ghost use Rattle.bdb_parse.specs.Gives.{Gives, number_in};
ghost use Rattle.bdb_parse.specs.Reading.{begins_with_word, bare_of, col_of, side_of, test_of, cond_of, conds_of};

use crate::col::{bare, col, first_col};
use crate::error::ParseError;
use crate::list::{ItemReader, list_of};
use crate::literal::literal;
use crate::stop::Stop;
use crate::tokens::{cmp, name};
use crate::wide::Wide;
use bdb_base::List;
use bdb_lex::Token;
use bdb_syntax::{RawCol, RawCond, RawSide};
use std::alloc::Global;

/// Reads the conditions of a change.
#[derive(Clone, Copy, Drop)]
pub struct Tests {
    pub wide: Wide,
}

impl ItemReader<RawCond> for Tests {
    ghost item = { λ s. test_of (number_in s.wide) };

    fn read(&self, alloc: Global, part: &[Token<'_>]) -> Result<RawCond, ParseError> {
        test(alloc, self.wide, part)
    }
}

/// Reads the conditions of a query.
#[derive(Clone, Copy, Drop)]
pub struct QueryConds {
    pub wide: Wide,
}

impl ItemReader<RawCond> for QueryConds {
    ghost item = { λ s. cond_of (number_in s.wide) };

    fn read(&self, alloc: Global, part: &[Token<'_>]) -> Result<RawCond, ParseError> {
        cond(alloc, self.wide, part)
    }
}

/// Whether the first token is a word.
fn begins_with_word(tokens: &[Token<'_>]) -> bool
    ensures { result ≡ begins_with_word tokens.now }
{
    matches!(tokens, [Token::Word(_), ..])
}

/// The right side of a change's condition.
#[tactic(auto, unfolding(crate::specs::Reading::side_of))]
fn bare_side(alloc: Global, wide: Wide, tokens: &[Token<'_>]) -> Result<RawSide, ParseError>
    ensures { Gives (λ x. x) result (side_of bare_of (number_in wide) tokens.now) }
{
    if begins_with_word(tokens) {
        return Ok(RawSide::Col(bare(alloc, tokens)?));
    }
    Ok(RawSide::Lit(literal(alloc, wide, tokens)?))
}

/// The right side of a query's condition.
#[tactic(auto, unfolding(crate::specs::Reading::side_of))]
fn side(alloc: Global, wide: Wide, tokens: &[Token<'_>]) -> Result<RawSide, ParseError>
    ensures { Gives (λ x. x) result (side_of col_of (number_in wide) tokens.now) }
{
    if begins_with_word(tokens) {
        return Ok(RawSide::Col(col(alloc, tokens)?));
    }
    Ok(RawSide::Lit(literal(alloc, wide, tokens)?))
}

/// A condition of a change.
#[tactic(auto, unfolding(crate::specs::Reading::test_of))]
fn test(alloc: Global, wide: Wide, tokens: &[Token<'_>]) -> Result<RawCond, ParseError>
    ensures { Gives (λ x. x) result (test_of (number_in wide) tokens.now) }
{
    let (col, rest) = name(alloc, tokens)?;
    let (cmp, rest) = cmp(rest)?;
    let right = bare_side(alloc, wide, rest)?;
    let left = RawCol { alias: None, col };
    Ok(RawCond { left, cmp, right })
}

/// A condition of a query.
#[tactic(auto, unfolding(crate::specs::Reading::cond_of))]
fn cond(alloc: Global, wide: Wide, tokens: &[Token<'_>]) -> Result<RawCond, ParseError>
    ensures { Gives (λ x. x) result (cond_of (number_in wide) tokens.now) }
{
    let (left, rest) = first_col(alloc, tokens)?;
    let (cmp, rest) = cmp(rest)?;
    let right = side(alloc, wide, rest)?;
    Ok(RawCond { left, cmp, right })
}

/// The conditions behind a 'where', and none where there isn't one.
pub fn conds<R: ItemReader<RawCond>>(
    alloc: Global,
    reader: &R,
    tokens: Option<&[Token<'_>]>,
) -> Result<List<RawCond>, ParseError>
    ensures { Gives (λ xs. xs) result (conds_of (R.item reader.now) (option_copied tokens.entry)) }
{
    match tokens {
        None => Ok(List::new(alloc)),
        Some(tokens) => list_of(alloc, reader, Stop::And, tokens),
    }
}
