// The text of a token.
ghost use Rattle.std.specs.Prelude.{◌≡◌, IfOk};
ghost use Rattle.std.specs.String.{string_bytes};

use bdb_base::{Exact, Txt};
use std::alloc::{AllocError, Global};
use std::borrow::CowStr;
use std::marker::Model;

/// The text of a token, which contracts see as its bytes. It is borrowed from the piece, and owned where that has doubled
/// quotes.
#[derive(Drop)]
pub struct TokenText<'a> {
    text: CowStr<'a>,
}

impl<'a> Model for TokenText<'a> {
    ghost use Rattle.std.specs.Prelude.{List, ℕ};
    ghost use Rattle.std.specs.Cow.{cow_str_bytes};

    ghost Value = { List ℕ };

    ghost view = { λ t. cow_str_bytes t.text };
}

impl<'a> TokenText<'a> {
    /// A text that is borrowed.
    pub fn borrowed(text: &'a str) -> Self
        ensures { result ≡ text.now }
    {
        TokenText {
            text: CowStr::Borrowed(text),
        }
    }

    /// A text that is owned.
    pub fn owned(text: String) -> Self
        ensures { result ≡ string_bytes text }
    {
        TokenText {
            text: CowStr::Owned(text),
        }
    }

    /// The text.
    pub fn as_str(&self) -> &str
        ensures { result.now ≡ self.now }
    {
        self.text.as_str()
    }

    /// A copy of the text. The only error is running out of memory.
    pub fn to_txt(&self, alloc: Global) -> Result<Txt, AllocError>
        ensures { IfOk result (λ text. text ≡ self.now) }
    {
        Txt::try_new(alloc, self.text.as_str())
    }
}

impl<'a> Exact for TokenText<'a> {
    fn try_clone(&self, alloc: Global) -> Result<Self, AllocError> {
        match &self.text {
            CowStr::Borrowed(text) => Ok(TokenText::borrowed(text)),
            CowStr::Owned(text) => Ok(TokenText::owned(String::from_str(alloc, text.as_str())?)),
        }
    }
}
