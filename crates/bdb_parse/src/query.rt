// Queries.
ghost use Rattle.std.specs.Option.{option_map};
ghost use Rattle.bdb_parse.specs.Gives.{Gives, number_in};
ghost use Rattle.bdb_parse.specs.Reading.{query_of, explain_of};
ghost use Rattle.bdb_syntax.specs.declared.command.Command.TheVariants.{Select};

use crate::col::Taken;
use crate::cond::{QueryConds, conds};
use crate::cut::cut;
use crate::error::ParseError;
use crate::item::Items;
use crate::list::list_of;
use crate::stop::Stop;
use crate::tokens::keyword;
use crate::wide::Wide;
use bdb_lex::Token;
use bdb_syntax::{Command, RawQuery};
use std::alloc::Global;

/// A query, behind its 'select'.
#[tactic(auto, unfolding(crate::specs::Reading::query_of))]
fn query(alloc: Global, wide: Wide, tokens: &[Token<'_>]) -> Result<RawQuery, ParseError>
    ensures { Gives (λ x. x) result (query_of (number_in wide) tokens.now) }
{
    let (cols, rest) = cut(Stop::From, tokens);
    let Some(rest) = rest else {
        return Err(ParseError::Syntax);
    };
    let (items, after) = cut(Stop::Where, rest);
    let take = list_of(alloc, &Taken, Stop::Comma, cols)?;
    let items = list_of(alloc, &Items, Stop::Comma, items)?;
    let conds = conds(alloc, &QueryConds { wide }, after)?;
    Ok(RawQuery { take, items, conds })
}

/// What follows 'select'.
pub fn select(alloc: Global, wide: Wide, tokens: &[Token<'_>]) -> Result<Command, ParseError>
    ensures { Gives (λ x. x) result (option_map Select (query_of (number_in wide) tokens.now)) }
{
    let query = query(alloc, wide, tokens)?;
    Ok(Command::Select { query })
}

/// What follows 'explain'.
#[tactic(auto, unfolding(crate::specs::Reading::explain_of))]
pub fn explain(alloc: Global, wide: Wide, tokens: &[Token<'_>]) -> Result<Command, ParseError>
    ensures { Gives (λ x. x) result (explain_of (number_in wide) tokens.now) }
{
    let rest = keyword("select", tokens)?;
    let query = query(alloc, wide, rest)?;
    Ok(Command::Explain { query })
}
