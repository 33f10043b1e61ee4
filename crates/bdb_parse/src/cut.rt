// Lists of tokens cut at a stop.
ghost use Rattle.std.specs.Prelude.{◌≡◌};
ghost use Rattle.std.specs.Option.{option_copied};
ghost use Rattle.bdb_parse.specs.Stops.{is_keyword_token, is_stop, cut};

use crate::keywords::is_keyword;
use crate::stop::Stop;
use bdb_lex::Token;

/// Whether a token is this keyword.
pub fn is_keyword_token(keyword: &str, token: &Token<'_>) -> bool
    ensures { result ≡ is_keyword_token keyword.now token.now }
{
    match token {
        Token::Word(word) => is_keyword(keyword, word),
        _ => false,
    }
}

/// Whether a token is this stop.
fn is_stop(stop: Stop, token: &Token<'_>) -> bool
    ensures { result ≡ is_stop stop token.now }
{
    match stop {
        Stop::Comma => matches!(token, Token::Comma),
        Stop::Close => matches!(token, Token::ParenR),
        Stop::And => is_keyword_token("and", token),
        Stop::From => is_keyword_token("from", token),
        Stop::Where => is_keyword_token("where", token),
    }
}

/// The tokens before the first stop, and those after it where there is one.
pub fn cut<'a, 'p>(
    stop: Stop,
    tokens: &'a [Token<'p>],
) -> (&'a [Token<'p>], Option<&'a [Token<'p>]>)
    ensures before { result.0.now ≡ (cut stop tokens.now).0 }
    ensures after { option_copied result.1 ≡ (cut stop tokens.now).1 }
{
    for (at, token) in tokens.iter().enumerate() {
        if is_stop(stop, token) {
            return (&tokens[..at], Some(&tokens[at + 1..]));
        }
    }
    (tokens, None)
}
