// The columns of a new relation.
ghost use Rattle.bdb_parse.specs.Gives.{Gives};
ghost use Rattle.bdb_parse.specs.Reading.{kind_of, column_of};

use crate::error::ParseError;
use crate::keywords::is_keyword;
use crate::list::ItemReader;
use crate::tokens::{end, name, word};
use bdb_base::{ColDef, Kind};
use bdb_lex::{Token, TokenText};
use std::alloc::Global;

/// Reads the columns of a new relation.
#[derive(Clone, Copy, Drop)]
pub struct Columns;

impl ItemReader<ColDef> for Columns {
    ghost item = { λ _. column_of };

    fn read(&self, alloc: Global, part: &[Token<'_>]) -> Result<ColDef, ParseError> {
        column(alloc, part)
    }
}

/// The kind that a word names.
#[tactic(auto, unfolding(crate::specs::Reading::kind_of))]
fn kind(word: &TokenText<'_>) -> Result<Kind, ParseError>
    ensures { Gives (λ x. x) result (kind_of word.now) }
{
    if is_keyword("int", word) {
        return Ok(Kind::Int);
    }
    if is_keyword("text", word) {
        return Ok(Kind::Text);
    }
    Err(ParseError::Syntax)
}

/// A column's name and its kind.
#[tactic(auto, unfolding(crate::specs::Reading::column_of))]
fn column(alloc: Global, tokens: &[Token<'_>]) -> Result<ColDef, ParseError>
    ensures { Gives (λ x. x) result (column_of tokens.now) }
{
    let (name, rest) = name(alloc, tokens)?;
    let (word, rest) = word(rest)?;
    end(rest)?;
    let kind = kind(word)?;
    Ok(ColDef { name, kind })
}
