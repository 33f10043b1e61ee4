// The words that open and close batches.
ghost use Rattle.std.specs.Prelude.{◌≡◌, Some, IfOk};
ghost use Rattle.bdb_syntax.specs.Keywords.{is_keyword};
ghost use Rattle.bdb_events.specs.Pieces.{line_of, line_by, only_word};

use bdb_base::List;
use bdb_lex::{LexError, Token, TokenText, tokens};
use bdb_multi::Line;
use std::alloc::{AllocError, Global};

/// The line of these bytes. The only error is running out of memory.
#[tactic(auto, unfolding(crate::specs::Pieces::line_of))]
pub fn line_of(alloc: Global, bytes: &[u8]) -> Result<Line, AllocError>
    ensures { IfOk result (λ line. line ≡ line_of bytes.now) }
{
    match tokens(alloc, bytes) {
        Ok(found) => line_by(alloc, found.as_slice(), bytes),
        Err(LexError::NotTokens) => command(alloc, bytes),
        Err(LexError::Memory) => Err(AllocError),
    }
}

/// The line by its tokens.
fn line_by(alloc: Global, tokens: &[Token<'_>], bytes: &[u8]) -> Result<Line, AllocError>
    ensures { IfOk result (λ line. line ≡ line_by (only_word (Some tokens.now)) bytes.now) }
{
    match tokens {
        [only] => match only {
            Token::Word(word) => line_of_word(alloc, word, bytes),
            _ => command(alloc, bytes),
        },
        _ => command(alloc, bytes),
    }
}

/// The line whose only token is this word.
fn line_of_word(alloc: Global, word: &TokenText<'_>, bytes: &[u8]) -> Result<Line, AllocError>
    ensures { IfOk result (λ line. line ≡ line_by (Some word.now) bytes.now) }
{
    if is_keyword("begin", word) {
        Ok(Line::Begin)
    } else if is_keyword("commit", word) {
        Ok(Line::Commit)
    } else if is_keyword("abort", word) {
        Ok(Line::Abort)
    } else {
        command(alloc, bytes)
    }
}

/// Whether a word is this keyword, in any case.
fn is_keyword(keyword: &str, word: &TokenText<'_>) -> bool
    ensures { result ≡ is_keyword keyword.now word.now }
{
    word.as_str().eq_ignore_ascii_case(keyword)
}

/// A command of these bytes.
fn command(alloc: Global, bytes: &[u8]) -> Result<Line, AllocError>
    ensures { IfOk result (λ line. line ≡ Line.Cmd bytes.now) }
{
    Ok(Line::Cmd(List::from_vec(bytes.to_vec(alloc)?)))
}
