// Words and numbers.
ghost use Rattle.std.specs.Prelude.{◌≡◌, ◌≤◌, ◌<◌, ◌||◌, true, false, nat_eq, None, length, take, drop, IfOk, IsErrOf};
ghost use Rattle.std.specs.List.{list_all};
ghost use Rattle.std.specs.Char.{is_ascii_digit};
ghost use Rattle.std.specs.Str.{is_utf8};
ghost use Rattle.bdb_base.specs.Letters.{is_letter, is_word_byte};
ghost use Rattle.bdb_lex.specs.Tokens.{tokens_of};
ghost use Rattle.bdb_lex.specs.Reading.{begins, begins_gap, begins_num, is_num, Reads};

use crate::bytes::{is_digit, is_word_byte};
use crate::token::{LexError, Token};
use crate::token_text::TokenText;
use bdb_base::limits::LONGEST_WORD;

/// The word at the front, and the bytes behind it. `NotTokens` comes exactly where it is too long.
pub fn word_at(bytes: &[u8]) -> Result<(Token<'_>, &[u8]), LexError>
    requires { begins is_letter bytes.now ≡ true }
    ensures ok { IfOk result (λ read. Reads bytes.now read.0 read.1.now) }
    ensures not_tokens { IsErrOf result LexError.NotTokens → tokens_of bytes.now ≡ None }
{
    let len = word_len(bytes);
    if len > LONGEST_WORD {
        return Err(LexError::NotTokens);
    }
    let (word, rest) = bytes.split_at(len);
    Ok((Token::Word(utf8_text(word)), rest))
}

/// The number at the front, and the bytes behind it. `NotTokens` comes exactly where a dash has no digit behind it.
pub fn num_at(bytes: &[u8]) -> Result<(Token<'_>, &[u8]), LexError>
    requires start { begins (λ b. is_ascii_digit b || nat_eq b 45) bytes.now ≡ true }
    requires no_gap { begins_gap bytes.now ≡ false }
    ensures ok { IfOk result (λ read. Reads bytes.now read.0 read.1.now) }
    ensures not_tokens { IsErrOf result LexError.NotTokens → tokens_of bytes.now ≡ None }
{
    let len = num_len(bytes);
    if len == 0 {
        return Err(LexError::NotTokens);
    }
    let (num, rest) = bytes.split_at(len);
    Ok((Token::Num(utf8_text(num)), rest))
}

/// How many bytes the word at the front has.
fn word_len(bytes: &[u8]) -> usize
    ensures bound { result ≤ length bytes.now }
    ensures all { list_all is_word_byte (take result bytes.now) ≡ true }
    ensures end { begins is_word_byte (drop result bytes.now) ≡ false }
{
    for (len, byte) in bytes.iter().enumerate() {
        if !is_word_byte(*byte) {
            return len;
        }
    }
    bytes.len()
}

/// How many bytes the number at the front has, with its dash; 0 where there is no number.
fn num_len(bytes: &[u8]) -> usize
    ensures bound { result ≤ length bytes.now }
    ensures num { 0 < result → is_num (take result bytes.now) ≡ true }
    ensures end { begins is_ascii_digit (drop result bytes.now) ≡ false }
    ensures none { result ≡ 0 → begins_num bytes.now ≡ false }
{
    match bytes {
        [b'-', digits @ ..] => {
            let len = digits_len(digits);
            if len == 0 { 0 } else { len + 1 }
        }
        _ => digits_len(bytes),
    }
}

/// How many digits there are at the front.
fn digits_len(bytes: &[u8]) -> usize
    ensures bound { result ≤ length bytes.now }
    ensures all { list_all is_ascii_digit (take result bytes.now) ≡ true }
    ensures end { begins is_ascii_digit (drop result bytes.now) ≡ false }
{
    for (len, byte) in bytes.iter().enumerate() {
        if !is_digit(*byte) {
            return len;
        }
    }
    bytes.len()
}

/// The bytes of a text. No byte is looked at: words and numbers, which are ASCII, are the most of a script.
fn utf8_text(bytes: &[u8]) -> TokenText<'_>
    requires { is_utf8 bytes.now ≡ true }
    ensures { result ≡ bytes.now }
{
    // SAFETY: the bytes are UTF-8, as is required.
    let text = unsafe { str::from_utf8_unchecked(bytes) };
    TokenText::borrowed(text)
}

/// The bytes as a text. `NotTokens` comes exactly where they are no UTF-8.
pub fn text_of(bytes: &[u8]) -> Result<TokenText<'_>, LexError>
    ensures ok { IfOk result (λ text. text ≡ bytes.now) }
    ensures utf8 { IfOk result (λ text. is_utf8 bytes.now ≡ true) }
    ensures not_tokens { IsErrOf result LexError.NotTokens → is_utf8 bytes.now ≡ false }
{
    match str::from_utf8(bytes) {
        Ok(text) => Ok(TokenText::borrowed(text)),
        Err(_) => Err(LexError::NotTokens),
    }
}

/// The same, of bytes that were put together.
pub fn own_text_of<'a>(bytes: Vec<u8>) -> Result<TokenText<'a>, LexError>
    ensures ok { IfOk result (λ text. text ≡ bytes.items) }
    ensures utf8 { IfOk result (λ text. is_utf8 bytes.items ≡ true) }
    ensures not_tokens { IsErrOf result LexError.NotTokens → is_utf8 bytes.items ≡ false }
{
    match String::from_utf8(bytes) {
        Ok(text) => Ok(TokenText::owned(text)),
        Err(_) => Err(LexError::NotTokens),
    }
}
