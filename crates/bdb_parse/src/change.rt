// The commands that change statements.
ghost use Rattle.bdb_parse.specs.Gives.{Gives, number_in};
ghost use Rattle.bdb_parse.specs.Reading.{insert_of, delete_of, update_of};

use crate::cond::{Tests, conds};
use crate::cut::cut;
use crate::error::ParseError;
use crate::list::list_of;
use crate::set::Sets;
use crate::signed::signed;
use crate::stop::Stop;
use crate::target::{Target, target_of};
use crate::tokens::{end, keyword};
use crate::wide::Wide;
use bdb_lex::Token;
use bdb_syntax::Command;
use std::alloc::Global;

/// What follows 'insert'.
#[tactic(auto, unfolding(crate::specs::Reading::insert_of))]
pub fn insert(alloc: Global, wide: Wide, tokens: &[Token<'_>]) -> Result<Command, ParseError>
    ensures { Gives (λ x. x) result (insert_of (number_in wide) tokens.now) }
{
    let rest = keyword("into", tokens)?;
    let (target, vals) = signed(alloc, wide, rest)?;
    let Target { users, sign, rel } = target;
    Ok(Command::Insert {
        users,
        sign,
        rel,
        vals,
    })
}

/// What follows 'delete'.
#[tactic(auto, unfolding(crate::specs::Reading::delete_of))]
pub fn delete(alloc: Global, wide: Wide, tokens: &[Token<'_>]) -> Result<Command, ParseError>
    ensures { Gives (λ x. x) result (delete_of (number_in wide) tokens.now) }
{
    let rest = keyword("from", tokens)?;
    let (target, rest) = target_of(alloc, rest)?;
    let (before, after) = cut(Stop::Where, rest);
    end(before)?;
    let conds = conds(alloc, &Tests { wide }, after)?;
    let Target { users, sign, rel } = target;
    Ok(Command::Delete {
        users,
        sign,
        rel,
        conds,
    })
}

/// What follows 'update'.
#[tactic(auto, unfolding(crate::specs::Reading::update_of))]
pub fn update(alloc: Global, wide: Wide, tokens: &[Token<'_>]) -> Result<Command, ParseError>
    ensures { Gives (λ x. x) result (update_of (number_in wide) tokens.now) }
{
    let (target, rest) = target_of(alloc, tokens)?;
    let rest = keyword("set", rest)?;
    let (before, after) = cut(Stop::Where, rest);
    let sets = list_of(alloc, &Sets { wide }, Stop::Comma, before)?;
    let conds = conds(alloc, &Tests { wide }, after)?;
    let Target { users, sign, rel } = target;
    Ok(Command::Update {
        users,
        sign,
        rel,
        sets,
        conds,
    })
}
