// Why tokens are no command.
ghost use Rattle.std.specs.Prelude.{◌≡◌};
ghost use Rattle.bdb_parse.specs.declared.error.ParseError.TheVariants.{Memory};

use std::alloc::AllocError;
use thiserror::Error;

/// Why tokens gave no command.
#[derive(Clone, Copy, Debug, PartialEq, Eq, Drop, Error)]
pub enum ParseError {
    /// The tokens are outside the grammar.
    #[error("the tokens are outside the grammar")]
    Syntax,
    /// The tokens are in the grammar, and a number is out of the range of 64 bits.
    #[error("a number is out of range")]
    Number,
    /// There is no memory.
    #[error("there is no memory")]
    Memory,
}

impl From<AllocError> for ParseError {
    ghost from_gives = { λ _ e. e ≡ Memory };

    fn from(_e: AllocError) -> ParseError {
        ParseError::Memory
    }
}
