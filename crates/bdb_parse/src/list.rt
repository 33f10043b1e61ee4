// Lists with a separator between two items.
ghost use Rattle.std.specs.Prelude.{List, Option};
ghost use Rattle.bdb_lex.specs.declared.token.Token.{Token};
ghost use Rattle.bdb_parse.specs.Gives.{Gives};
ghost use Rattle.bdb_parse.specs.Reading.{list_of};

use crate::cut::cut;
use crate::error::ParseError;
use crate::stop::Stop;
use bdb_base::{Exact, List};
use bdb_lex::Token;
use std::alloc::Global;

/// What reads the tokens of one item of a list.
pub trait ItemReader<X> {
    /// What it reads.
    ghost item: { Self → List Token → Option X };

    /// Reads an item, which takes up the whole part.
    fn read(&self, alloc: Global, part: &[Token<'_>]) -> Result<X, ParseError>
        ensures { Gives (λ x. x) result (item self.now part.now) };
}

/// One item or more, with a stop between two.
#[tactic(auto, unfolding(crate::specs::Reading::list_of))]
pub fn list_of<X: Exact, R: ItemReader<X>>(
    alloc: Global,
    reader: &R,
    stop: Stop,
    tokens: &[Token<'_>],
) -> Result<List<X>, ParseError>
    ensures { Gives (λ xs. xs) result (list_of (R.item reader.now) stop tokens.now) }
{
    let mut items = List::new(alloc);
    let mut rest = Some(tokens);
    while let Some(tokens) = rest {
        let (part, others) = cut(stop, tokens);
        items.push(reader.read(alloc, part)?)?;
        rest = others;
    }
    Ok(items)
}
