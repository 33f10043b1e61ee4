// Tokens of one or two symbols.
ghost use Rattle.std.specs.Prelude.{◌≡◌, ◌≢◌, true, None, IfSome, IfNone};
ghost use Rattle.bdb_lex.specs.Tokens.{started, tokens_from};
ghost use Rattle.bdb_lex.specs.Tokens.Reading.{whole, after_bang, failed};
ghost use Rattle.bdb_lex.specs.Reading.{is_symbol_byte, IsSingle, ReadsOn};

use crate::bytes::after_byte;
use crate::token::Token;

/// The token of symbols that begins with this byte and these behind it, and the bytes behind the token; none where there is
/// none.
pub fn symbol_behind(first: u8, bytes: &[u8]) -> Option<(Token<'_>, &[u8])>
    requires { is_symbol_byte first ≡ true }
    ensures some { IfSome result (λ read. ReadsOn (started first) bytes.now read.0 read.1.now) }
    ensures none { IfNone result (tokens_from (started first) bytes.now ≡ None) }
{
    match first {
        b'!' => after_bang(bytes),
        b'<' => Some(after_less(bytes)),
        b'>' => Some(after_greater(bytes)),
        _ => match single_symbol(first) {
            Some(token) => Some((token, bytes)),
            None => None,
        },
    }
}

/// The token that this byte is by itself, whatever follows it; none where it is none.
fn single_symbol<'a>(byte: u8) -> Option<Token<'a>>
    requires symbol { is_symbol_byte byte ≡ true }
    requires no_bang { byte ≢ 33 }
    requires no_less { byte ≢ 60 }
    requires no_greater { byte ≢ 62 }
    ensures some { IfSome result (λ t. (started byte ≡ whole t) × IsSingle t) }
    ensures none { IfNone result (started byte ≡ failed) }
{
    if byte == b',' {
        Some(Token::Comma)
    } else if byte == b'.' {
        Some(Token::Dot)
    } else if byte == b'(' {
        Some(Token::ParenL)
    } else if byte == b')' {
        Some(Token::ParenR)
    } else if byte == b'=' {
        Some(Token::Eq)
    } else {
        None
    }
}

/// The token that a `!` and these bytes begin with; none where there is none.
fn after_bang(bytes: &[u8]) -> Option<(Token<'_>, &[u8])>
    ensures some { IfSome result (λ read. ReadsOn after_bang bytes.now read.0 read.1.now) }
    ensures none { IfNone result (tokens_from after_bang bytes.now ≡ None) }
{
    match after_byte(b'=', bytes) {
        Some(rest) => Some((Token::Ne, rest)),
        None => None,
    }
}

/// The token that a `<` and these bytes begin with.
fn after_less(bytes: &[u8]) -> (Token<'_>, &[u8])
    ensures { ReadsOn (whole Token.Lt) bytes.now result.0 result.1.now }
{
    match bytes {
        [b'=', rest @ ..] => (Token::Le, rest),
        [b'>', rest @ ..] => (Token::Ne, rest),
        _ => (Token::Lt, bytes),
    }
}

/// The token that a `>` and these bytes begin with.
fn after_greater(bytes: &[u8]) -> (Token<'_>, &[u8])
    ensures { ReadsOn (whole Token.Gt) bytes.now result.0 result.1.now }
{
    match bytes {
        [b'=', rest @ ..] => (Token::Ge, rest),
        _ => (Token::Gt, bytes),
    }
}
