// The items of a query.
ghost use Rattle.std.specs.Prelude.{◌≡◌, ◌∷◌, ◌+◌, ◌≤◌, List, Some, IfOk, IfSome, codes, drop, length};
ghost use Rattle.std.specs.Option.{option_map};
ghost use Rattle.bdb_lex.specs.declared.token.Token.TheVariants.{Word};
ghost use Rattle.bdb_parse.specs.Gives.{Gives};
ghost use Rattle.bdb_parse.specs.Reading.{who_at, whos_at, past, keyword_at, alias_of, item_of};

use crate::error::ParseError;
use crate::keywords::{is_keyword, is_reserved};
use crate::list::ItemReader;
use crate::target::sign;
use crate::tokens::{after_keyword, end, name};
use bdb_base::{Exact, List, Txt};
use bdb_lex::{Token, TokenText};
use bdb_syntax::{RawCol, RawItem, RawWho};
use std::alloc::Global;

/// Reads the items of a query.
#[derive(Clone, Copy, Drop)]
pub struct Items;

impl ItemReader<RawItem> for Items {
    ghost item = { λ _. item_of };

    fn read(&self, alloc: Global, part: &[Token<'_>]) -> Result<RawItem, ParseError> {
        item(alloc, part)
    }
}

/// One user of a path, behind 'belief', and how many tokens that are.
fn who(alloc: Global, tokens: &[Token<'_>]) -> Result<Option<(RawWho, usize)>, ParseError>
    ensures who { Gives (option_map (λ x. (x.0, drop x.1 tokens.now))) result
        (Some (who_at tokens.now)) }
    ensures within { IfOk result (λ read. IfSome read (λ x. x.1 ≤ length tokens.now)) }
    ensures few { IfOk result (λ read. IfSome read (λ x. x.1 ≤ 4)) }
{
    match tokens {
        [first, second, rest @ ..] => match first {
            Token::Word(word) => who_behind(alloc, word, second, rest),
            _ => Ok(None),
        },
        _ => Ok(None),
    }
}

/// The same, of a word, a token and those after it.
fn who_behind(
    alloc: Global,
    word: &TokenText<'_>,
    token: &Token<'_>,
    tokens: &[Token<'_>],
) -> Result<Option<(RawWho, usize)>, ParseError>
    ensures who { Gives (option_map (λ x. (x.0, drop x.1 (Word word.now ∷ token.now ∷ tokens.now))))
        result (Some (who_at (Word word.now ∷ token.now ∷ tokens.now))) }
    ensures within { IfOk result (λ read. IfSome read (λ x. x.1 ≤ length tokens.now + 2)) }
    ensures few { IfOk result (λ read. IfSome read (λ x. x.1 ≤ 4)) }
{
    match token {
        Token::Text(user) => {
            if !is_keyword("belief", word) {
                return Ok(None);
            }
            Ok(Some((RawWho::Name(user.to_txt(alloc)?), 2)))
        }
        Token::Word(alias) => column_behind(alloc, word, alias, tokens),
        _ => Ok(None),
    }
}

/// The same, of a word, an alias and the tokens after it.
fn column_behind(
    alloc: Global,
    word: &TokenText<'_>,
    alias: &TokenText<'_>,
    tokens: &[Token<'_>],
) -> Result<Option<(RawWho, usize)>, ParseError>
    ensures who { Gives (option_map
        (λ x. (x.0, drop x.1 (Word word.now ∷ Word alias.now ∷ tokens.now)))) result
        (Some (who_at (Word word.now ∷ Word alias.now ∷ tokens.now))) }
    ensures within { IfOk result (λ read. IfSome read (λ x. x.1 ≤ length tokens.now + 2)) }
    ensures few { IfOk result (λ read. IfSome read (λ x. x.1 ≤ 4)) }
{
    match tokens {
        [Token::Dot, third, ..] => match third {
            Token::Word(col) => {
                if !is_keyword("belief", word) || is_reserved(alias) || is_reserved(col) {
                    return Ok(None);
                }
                let alias = Some(alias.to_txt(alloc)?);
                let col = col.to_txt(alloc)?;
                Ok(Some((RawWho::Col(RawCol { alias, col }), 4)))
            }
            _ => Ok(None),
        },
        _ => Ok(None),
    }
}

/// The users of a path, each behind 'belief', and the tokens after them.
fn whos<'a, 'p>(
    alloc: Global,
    tokens: &'a [Token<'p>],
) -> Result<(List<RawWho>, &'a [Token<'p>]), ParseError>
    ensures { Gives (λ x. (x.0, x.1.now)) result (Some (whos_at tokens.now)) }
{
    let mut path = List::new(alloc);
    let mut rest = tokens;
    while let Some((who, count)) = who(alloc, rest)? {
        path.push(who)?;
        rest = &rest[count..];
    }
    Ok((path, rest))
}

/// The tokens after 'as', or all where it isn't there.
fn after_as<'a, 'p>(tokens: &'a [Token<'p>]) -> &'a [Token<'p>]
    ensures { result.now ≡ past tokens.now (keyword_at (codes "as") tokens.now) }
{
    if let Some(rest) = after_keyword("as", tokens) {
        return rest;
    }
    tokens
}

/// The alias of an item: the relation's name where nothing stands behind it.
#[tactic(auto, unfolding(crate::specs::Reading::alias_of))]
fn alias(alloc: Global, rel: &Txt, tokens: &[Token<'_>]) -> Result<Txt, ParseError>
    ensures { Gives (λ x. x) result (alias_of rel.now tokens.now) }
{
    if tokens.is_empty() {
        return Ok(rel.try_clone(alloc)?);
    }
    let (alias, rest) = name(alloc, after_as(tokens))?;
    end(rest)?;
    Ok(alias)
}

/// An item.
#[tactic(auto, unfolding(crate::specs::Reading::item_of))]
fn item(alloc: Global, tokens: &[Token<'_>]) -> Result<RawItem, ParseError>
    ensures { Gives (λ x. x) result (item_of tokens.now) }
{
    let (path, rest) = whos(alloc, tokens)?;
    let (sign, rest) = sign(rest);
    let (rel, rest) = name(alloc, rest)?;
    let alias = alias(alloc, &rel, rest)?;
    Ok(RawItem {
        path,
        sign,
        rel,
        alias,
    })
}
