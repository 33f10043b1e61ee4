// Readers of one or two tokens at the front of a list: each gives what it read and the rest.
ghost use Rattle.std.specs.Prelude.{◌≡◌, Some};
ghost use Rattle.std.specs.Option.{option_copied};
ghost use Rattle.bdb_parse.specs.Gives.{Gives};
ghost use Rattle.bdb_parse.specs.Reading.{end_at, word_at, text_at, dot_at, equals_at, open_at, cmp_at, keyword_at, name_at};

use crate::cut::is_keyword_token;
use crate::error::ParseError;
use crate::keywords::is_reserved;
use bdb_base::{Cmp, Txt};
use bdb_lex::{Token, TokenText};
use std::alloc::Global;

/// Nothing is left.
pub fn end<'a, 'p>(tokens: &'a [Token<'p>]) -> Result<&'a [Token<'p>], ParseError>
    ensures { Gives (λ x. x.now) result (end_at tokens.now) }
{
    match tokens {
        [] => Ok(tokens),
        [_, ..] => Err(ParseError::Syntax),
    }
}

/// A word.
pub fn word<'a, 'p>(
    tokens: &'a [Token<'p>],
) -> Result<(&'a TokenText<'p>, &'a [Token<'p>]), ParseError>
    ensures { Gives (λ x. (x.0.now, x.1.now)) result (word_at tokens.now) }
{
    match tokens {
        [] => Err(ParseError::Syntax),
        [first, rest @ ..] => match first {
            Token::Word(word) => Ok((word, rest)),
            _ => Err(ParseError::Syntax),
        },
    }
}

/// A text.
pub fn text<'a, 'p>(
    alloc: Global,
    tokens: &'a [Token<'p>],
) -> Result<(Txt, &'a [Token<'p>]), ParseError>
    ensures { Gives (λ x. (x.0, x.1.now)) result (text_at tokens.now) }
{
    match tokens {
        [] => Err(ParseError::Syntax),
        [first, rest @ ..] => match first {
            Token::Text(text) => Ok((text.to_txt(alloc)?, rest)),
            _ => Err(ParseError::Syntax),
        },
    }
}

/// A dot.
pub fn dot<'a, 'p>(tokens: &'a [Token<'p>]) -> Result<&'a [Token<'p>], ParseError>
    ensures { Gives (λ x. x.now) result (dot_at tokens.now) }
{
    match tokens {
        [Token::Dot, rest @ ..] => Ok(rest),
        _ => Err(ParseError::Syntax),
    }
}

/// An equals sign.
pub fn equals<'a, 'p>(tokens: &'a [Token<'p>]) -> Result<&'a [Token<'p>], ParseError>
    ensures { Gives (λ x. x.now) result (equals_at tokens.now) }
{
    match tokens {
        [Token::Eq, rest @ ..] => Ok(rest),
        _ => Err(ParseError::Syntax),
    }
}

/// An opening parenthesis.
pub fn open<'a, 'p>(tokens: &'a [Token<'p>]) -> Result<&'a [Token<'p>], ParseError>
    ensures { Gives (λ x. x.now) result (open_at tokens.now) }
{
    match tokens {
        [Token::ParenL, rest @ ..] => Ok(rest),
        _ => Err(ParseError::Syntax),
    }
}

/// A comparison's sign.
pub fn cmp<'a, 'p>(tokens: &'a [Token<'p>]) -> Result<(Cmp, &'a [Token<'p>]), ParseError>
    ensures { Gives (λ x. (x.0, x.1.now)) result (cmp_at tokens.now) }
{
    match tokens {
        [Token::Eq, rest @ ..] => Ok((Cmp::Eq, rest)),
        [Token::Ne, rest @ ..] => Ok((Cmp::Ne, rest)),
        [Token::Lt, rest @ ..] => Ok((Cmp::Lt, rest)),
        [Token::Le, rest @ ..] => Ok((Cmp::Le, rest)),
        [Token::Gt, rest @ ..] => Ok((Cmp::Gt, rest)),
        [Token::Ge, rest @ ..] => Ok((Cmp::Ge, rest)),
        _ => Err(ParseError::Syntax),
    }
}

/// The tokens after this keyword, where it stands first, in any case.
#[tactic(auto, unfolding(crate::specs::Reading::keyword_at))]
pub fn after_keyword<'a, 'p>(keyword: &str, tokens: &'a [Token<'p>]) -> Option<&'a [Token<'p>]>
    ensures { option_copied result ≡ keyword_at keyword.now tokens.now }
{
    match tokens {
        [] => None,
        [first, rest @ ..] => {
            if is_keyword_token(keyword, first) {
                Some(rest)
            } else {
                None
            }
        }
    }
}

/// This keyword, in any case.
pub fn keyword<'a, 'p>(
    keyword: &str,
    tokens: &'a [Token<'p>],
) -> Result<&'a [Token<'p>], ParseError>
    ensures { Gives (λ x. x.now) result (keyword_at keyword.now tokens.now) }
{
    match after_keyword(keyword, tokens) {
        Some(rest) => Ok(rest),
        None => Err(ParseError::Syntax),
    }
}

/// A word that isn't reserved, as written.
#[tactic(auto, unfolding(crate::specs::Reading::name_at))]
pub fn name<'a, 'p>(
    alloc: Global,
    tokens: &'a [Token<'p>],
) -> Result<(Txt, &'a [Token<'p>]), ParseError>
    ensures { Gives (λ x. (x.0, x.1.now)) result (name_at tokens.now) }
{
    let (word, rest) = word(tokens)?;
    if is_reserved(word) {
        return Err(ParseError::Syntax);
    }
    Ok((word.to_txt(alloc)?, rest))
}
