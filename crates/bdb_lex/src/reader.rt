// The tokens of a piece.
ghost use Rattle.std.specs.Prelude.{◌≡◌, true, false, nat_eq, Some, None, IfOk, IsErrOf};
ghost use Rattle.bdb_lex.specs.Tokens.{tokens_of};
ghost use Rattle.bdb_lex.specs.Reading.{begins, begins_gap, Reads};

use crate::bytes::{is_digit, is_letter};
use crate::gap::behind_gaps;
use crate::quoted::text_behind;
use crate::symbol::symbol_behind;
use crate::token::{LexError, Token};
use crate::word::{num_at, word_at};
use bdb_base::List;
use std::alloc::Global;

/// For how many tokens there is room from the start, at most. Most commands have no more.
const USUAL_COUNT: usize = 24;

/// The tokens of a piece, each the longest that fits. `NotTokens` comes exactly where the piece is no list of tokens.
pub fn tokens(alloc: Global, piece: &[u8]) -> Result<List<Token<'_>>, LexError>
    ensures ok { IfOk result (λ ts. tokens_of piece.now ≡ Some ts) }
    ensures not_tokens { IsErrOf result LexError.NotTokens → tokens_of piece.now ≡ None }
{
    let mut found = List::from_vec(Vec::with_capacity(alloc, usual_count(piece.len()))?);
    let mut rest = behind_gaps(piece);
    while let [first, ..] = rest {
        let (token, after) = token_at(alloc, *first, rest)?;
        found.push(token)?;
        rest = behind_gaps(after);
    }
    Ok(found)
}

/// For how many tokens there is room from the start in a piece of so many bytes: for one in four bytes, and no more than
/// most commands have.
fn usual_count(len: usize) -> usize {
    (len / 4 + 1).min(USUAL_COUNT)
}

/// The token at the front, and the bytes behind it. `NotTokens` comes exactly where there is none.
fn token_at(alloc: Global, first: u8, bytes: &[u8]) -> Result<(Token<'_>, &[u8]), LexError>
    requires first { begins (λ b. nat_eq first b) bytes.now ≡ true }
    requires no_gap { begins_gap bytes.now ≡ false }
    ensures ok { IfOk result (λ read. Reads bytes.now read.0 read.1.now) }
    ensures not_tokens { IsErrOf result LexError.NotTokens → tokens_of bytes.now ≡ None }
{
    if is_letter(first) {
        word_at(bytes)
    } else if is_digit(first) || first == b'-' {
        num_at(bytes)
    } else if first == b'\'' {
        text_behind(alloc, &bytes[1..])
    } else {
        match symbol_behind(first, &bytes[1..]) {
            Some(read) => Ok(read),
            None => Err(LexError::NotTokens),
        }
    }
}
