// Commands, by their first word.
ghost use Rattle.bdb_parse.specs.Gives.{Gives, number_in};
ghost use Rattle.bdb_parse.specs.Reading.{command_by};

use crate::change::{delete, insert, update};
use crate::create::create;
use crate::error::ParseError;
use crate::keywords::is_keyword;
use crate::leave::drop_user;
use crate::one_word::one_word;
use crate::query::{explain, select};
use crate::show::show;
use crate::tokens::word;
use crate::why::why;
use crate::wide::Wide;
use bdb_lex::Token;
use bdb_syntax::Command;
use std::alloc::Global;

/// A command, by its first word, where a number outside i64 is taken as this reading has it.
#[tactic(auto, unfolding(crate::specs::Reading::command_by, crate::specs::Reading::command_after))]
pub fn command(alloc: Global, wide: Wide, tokens: &[Token<'_>]) -> Result<Command, ParseError>
    ensures { Gives (λ x. x) result (command_by (number_in wide) tokens.now) }
{
    let (word, rest) = word(tokens)?;
    if is_keyword("create", word) {
        return create(alloc, wide, rest);
    }
    if is_keyword("insert", word) {
        return insert(alloc, wide, rest);
    }
    if is_keyword("delete", word) {
        return delete(alloc, wide, rest);
    }
    if is_keyword("update", word) {
        return update(alloc, wide, rest);
    }
    if is_keyword("select", word) {
        return select(alloc, wide, rest);
    }
    if is_keyword("explain", word) {
        return explain(alloc, wide, rest);
    }
    if is_keyword("show", word) {
        return show(alloc, rest);
    }
    if is_keyword("why", word) {
        return why(alloc, wide, rest);
    }
    if is_keyword("drop", word) {
        return drop_user(alloc, rest);
    }
    one_word(word, rest)
}
