// Text literals.
ghost use Rattle.std.specs.Prelude.{◌≡◌, true, false, nat_eq, nat_le, None, [], IfSome, IfNone, IfOk, OnOk, IsErrOf};
ghost use Rattle.std.specs.List.{list_all};
ghost use Rattle.bdb_base.specs.Bases.{is_clean};
ghost use Rattle.bdb_lex.specs.Tokens.{tokens_from};
ghost use Rattle.bdb_lex.specs.Tokens.Reading.{in_text};
ghost use Rattle.bdb_lex.specs.Reading.{begins, ReadsOn, IsParted, is_no_quote};

use crate::bytes::after_byte;
use crate::token::{LexError, Token};
use crate::word::{own_text_of, text_of};
use std::alloc::Global;

/// The text literal behind its first quote, and the bytes behind it. `NotTokens` comes exactly where it isn't closed or its
/// content isn't allowed.
pub fn text_behind(alloc: Global, bytes: &[u8]) -> Result<(Token<'_>, &[u8]), LexError>
    ensures ok { IfOk result (λ read. ReadsOn (in_text []) bytes.now read.0 read.1.now) }
    ensures not_tokens { IsErrOf result LexError.NotTokens → tokens_from (in_text []) bytes.now
        ≡ None }
{
    match undoubled(bytes) {
        Some((content, after)) => {
            let token = text_token(content)?;
            Ok((token, after))
        }
        None => doubled_text_behind(alloc, bytes),
    }
}

/// The bytes before the first quote, and those behind it; none where there is no quote, or another follows it.
fn undoubled(bytes: &[u8]) -> Option<(&[u8], &[u8])>
    ensures parted { IfSome result (λ parts. IsParted bytes.now parts.0.now parts.1.now) }
    ensures ended { IfSome result (λ parts. begins (λ b. nat_eq b 39) parts.1.now ≡ false) }
{
    let (part, after) = parted(bytes)?;
    match after_byte(b'\'', after) {
        Some(_) => None,
        None => Some((part, after)),
    }
}

/// The same as `text_behind`, where quotes may be doubled. It puts the parts between them together.
fn doubled_text_behind(alloc: Global, bytes: &[u8]) -> Result<(Token<'_>, &[u8]), LexError>
    ensures ok { IfOk result (λ read. ReadsOn (in_text []) bytes.now read.0 read.1.now) }
    ensures not_tokens { IsErrOf result LexError.NotTokens → tokens_from (in_text []) bytes.now
        ≡ None }
{
    let mut content = Vec::new(alloc);
    let mut rest = bytes;
    loop {
        let Some((part, after)) = parted(rest) else {
            return Err(LexError::NotTokens);
        };
        content.extend_from_slice(part)?;
        let Some(others) = after_byte(b'\'', after) else {
            let token = own_text_token(content)?;
            return Ok((token, after));
        };
        content.extend_from_slice(b"'")?;
        rest = others;
    }
}

/// The bytes before the first quote, and those behind it; none where there is no quote.
fn parted(bytes: &[u8]) -> Option<(&[u8], &[u8])>
    ensures some { IfSome result (λ parts. IsParted bytes.now parts.0.now parts.1.now) }
    ensures none { IfNone result (list_all is_no_quote bytes.now ≡ true) }
{
    for (at, byte) in bytes.iter().enumerate() {
        if *byte == b'\'' {
            return Some((&bytes[..at], &bytes[at + 1..]));
        }
    }
    None
}

/// The text literal of a content. `NotTokens` comes exactly where the content isn't allowed.
fn text_token(content: &[u8]) -> Result<Token<'_>, LexError>
    ensures ok { IfOk result (λ token. token ≡ Token.Text content.now) }
    ensures allowed { OnOk result (is_clean content.now ≡ true) }
    ensures not_tokens { IsErrOf result LexError.NotTokens → is_clean content.now ≡ false }
{
    if !has_no_control(content) {
        return Err(LexError::NotTokens);
    }
    let text = text_of(content)?;
    Ok(Token::Text(text))
}

/// The same, of a content that was put together.
fn own_text_token<'a>(content: Vec<u8>) -> Result<Token<'a>, LexError>
    ensures ok { IfOk result (λ token. token ≡ Token.Text content.items) }
    ensures allowed { OnOk result (is_clean content.items ≡ true) }
    ensures not_tokens { IsErrOf result LexError.NotTokens → is_clean content.items ≡ false }
{
    if !has_no_control(content.as_slice()) {
        return Err(LexError::NotTokens);
    }
    let text = own_text_of(content)?;
    Ok(Token::Text(text))
}

/// Whether no byte is below the space.
fn has_no_control(bytes: &[u8]) -> bool
    ensures { result ≡ list_all (λ b. nat_le 32 b) bytes.now }
{
    bytes.iter().all(|byte| *byte >= b' ')
}
