// Pieces and tokens.
ghost use Rattle.std.specs.Prelude.{◌≡◌, IfOk};

use crate::piece_bytes::PieceBytes;
use crate::token_text::TokenText;
use bdb_base::Exact;
use std::alloc::{AllocError, Global};
use thiserror::Error;

/// A token of BeliefSQL.
#[derive(Drop)]
pub enum Token<'a> {
    /// A keyword or a name, as written.
    Word(TokenText<'a>),
    /// A text literal: its content, where a doubled quote stands once.
    Text(TokenText<'a>),
    /// A number literal, as written.
    Num(TokenText<'a>),
    Comma,
    Dot,
    ParenL,
    ParenR,
    Eq,
    Ne,
    Lt,
    Le,
    Gt,
    Ge,
}

/// A piece of a script, which ended with a semicolon.
#[derive(Drop)]
pub enum Piece<'a> {
    /// A piece of at most `LONGEST_COMMAND` bytes, without the semicolon.
    Cmd(PieceBytes<'a>),
    /// A longer piece.
    Long,
}

/// What follows the last piece of a script.
#[derive(Clone, Copy, Debug, PartialEq, Eq, Drop)]
pub enum Rest {
    /// Blanks and comments alone.
    Nothing,
    /// Something else.
    Unfinished,
}

/// Why a piece has no tokens.
#[derive(Clone, Copy, Debug, PartialEq, Eq, Drop, Error)]
pub enum LexError {
    /// The piece is no list of tokens.
    #[error("the piece is no list of tokens")]
    NotTokens,
    /// There is no memory.
    #[error("there is no memory")]
    Memory,
}

impl From<AllocError> for LexError {
    ghost use Rattle.std.specs.Prelude.{◌≡◌};
    ghost use Rattle.bdb_lex.specs.declared.token.LexError.TheVariants.{Memory};

    ghost from_gives = { λ _ e. e ≡ Memory };

    fn from(_: AllocError) -> Self {
        LexError::Memory
    }
}

impl<'a> Exact for Token<'a> {
    fn try_clone(&self, alloc: Global) -> Result<Self, AllocError> {
        match self {
            Token::Word(text) => Ok(Token::Word(text.try_clone(alloc)?)),
            Token::Text(text) => Ok(Token::Text(text.try_clone(alloc)?)),
            Token::Num(text) => Ok(Token::Num(text.try_clone(alloc)?)),
            Token::Comma => Ok(Token::Comma),
            Token::Dot => Ok(Token::Dot),
            Token::ParenL => Ok(Token::ParenL),
            Token::ParenR => Ok(Token::ParenR),
            Token::Eq => Ok(Token::Eq),
            Token::Ne => Ok(Token::Ne),
            Token::Lt => Ok(Token::Lt),
            Token::Le => Ok(Token::Le),
            Token::Gt => Ok(Token::Gt),
            Token::Ge => Ok(Token::Ge),
        }
    }
}

impl<'a> Exact for Piece<'a> {
    fn try_clone(&self, alloc: Global) -> Result<Self, AllocError> {
        match self {
            Piece::Cmd(bytes) => Ok(Piece::Cmd(bytes.try_clone(alloc)?)),
            Piece::Long => Ok(Piece::Long),
        }
    }
}
