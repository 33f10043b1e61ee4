// The users of a belief path.
ghost use Rattle.std.specs.Prelude.{◌≡◌, List, Some};
ghost use Rattle.std.specs.Option.{option_map};
ghost use Rattle.bdb_parse.specs.Gives.{Gives};
ghost use Rattle.bdb_parse.specs.Reading.{believer, beliefs_at};

use crate::cut::is_keyword_token;
use crate::error::ParseError;
use bdb_base::{List, Txt};
use bdb_lex::{Token, TokenText};
use std::alloc::Global;

/// The user of a text behind 'belief'.
fn believer<'a, 'p>(first: &Token<'_>, second: &'a Token<'p>) -> Option<&'a TokenText<'p>>
    ensures { option_map (λ x. x.now) result ≡ believer first.now second.now }
{
    match second {
        Token::Text(user) => {
            if is_keyword_token("belief", first) {
                Some(user)
            } else {
                None
            }
        }
        _ => None,
    }
}

/// The users, each behind 'belief', and the tokens after them.
pub fn beliefs<'a, 'p>(
    alloc: Global,
    tokens: &'a [Token<'p>],
) -> Result<(List<Txt>, &'a [Token<'p>]), ParseError>
    ensures { Gives (λ x. (x.0, x.1.now)) result (Some (beliefs_at tokens.now)) }
{
    let mut users = List::new(alloc);
    let mut rest = tokens;
    while let [first, second, others @ ..] = rest {
        let Some(user) = believer(first, second) else {
            return Ok((users, rest));
        };
        users.push(user.to_txt(alloc)?)?;
        rest = others;
    }
    Ok((users, rest))
}
