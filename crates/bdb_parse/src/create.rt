// The commands that create users and relations.
ghost use Rattle.bdb_parse.specs.Gives.{Gives, number_in};
ghost use Rattle.bdb_parse.specs.Reading.{inside_at, inside_of, create_user_of, create_relation_of, create_of};

use crate::column::Columns;
use crate::cut::cut;
use crate::error::ParseError;
use crate::key::key;
use crate::keywords::is_keyword;
use crate::list::list_of;
use crate::stop::Stop;
use crate::tokens::{end, name, open, text, word};
use crate::wide::Wide;
use bdb_lex::Token;
use bdb_syntax::Command;
use std::alloc::Global;

/// The tokens in parentheses, and those behind them.
#[tactic(auto, unfolding(crate::specs::Reading::inside_at))]
fn inside_at<'a, 'p>(
    tokens: &'a [Token<'p>],
) -> Result<(&'a [Token<'p>], &'a [Token<'p>]), ParseError>
    ensures { Gives (λ x. (x.0.now, x.1.now)) result (inside_at tokens.now) }
{
    let body = open(tokens)?;
    let (inside, after) = cut(Stop::Close, body);
    let Some(after) = after else {
        return Err(ParseError::Syntax);
    };
    Ok((inside, after))
}

/// The tokens in parentheses, behind which nothing stands.
#[tactic(auto, unfolding(crate::specs::Reading::inside_of))]
pub fn inside<'a, 'p>(tokens: &'a [Token<'p>]) -> Result<&'a [Token<'p>], ParseError>
    ensures { Gives (λ x. x.now) result (inside_of tokens.now) }
{
    let (inside, after) = inside_at(tokens)?;
    end(after)?;
    Ok(inside)
}

/// What follows 'create user'.
#[tactic(auto, unfolding(crate::specs::Reading::create_user_of))]
fn create_user(alloc: Global, tokens: &[Token<'_>]) -> Result<Command, ParseError>
    ensures { Gives (λ x. x) result (create_user_of tokens.now) }
{
    let (name, rest) = text(alloc, tokens)?;
    end(rest)?;
    Ok(Command::CreateUser { name })
}

/// What follows 'create relation'.
#[tactic(auto, unfolding(crate::specs::Reading::create_relation_of))]
fn create_relation(alloc: Global, wide: Wide, tokens: &[Token<'_>]) -> Result<Command, ParseError>
    ensures { Gives (λ x. x) result (create_relation_of (number_in wide) tokens.now) }
{
    let (name, rest) = name(alloc, tokens)?;
    let (inside, rest) = inside_at(rest)?;
    let cols = list_of(alloc, &Columns, Stop::Comma, inside)?;
    let key = key(wide, rest)?;
    Ok(Command::CreateRelation { name, cols, key })
}

/// What follows 'create'.
#[tactic(auto, unfolding(crate::specs::Reading::create_of))]
pub fn create(alloc: Global, wide: Wide, tokens: &[Token<'_>]) -> Result<Command, ParseError>
    ensures { Gives (λ x. x) result (create_of (number_in wide) tokens.now) }
{
    let (word, rest) = word(tokens)?;
    if is_keyword("user", word) {
        return create_user(alloc, rest);
    }
    if is_keyword("relation", word) {
        return create_relation(alloc, wide, rest);
    }
    Err(ParseError::Syntax)
}
