// The piece that is being read.
ghost use Rattle.std.specs.Prelude.{◌≡◌, true, [], IfOk, OnOk};
ghost use Rattle.bdb_lex.specs.Cut.{is_short};
ghost use Rattle.bdb_lex.specs.Runs.{longer_by};

use crate::piece_bytes::PieceBytes;
use crate::token::Piece;
use bdb_base::limits::LONGEST_COMMAND;
use std::alloc::{AllocError, Global};
use std::marker::Model;
use std::mem;

/// A piece that hasn't ended yet. No more bytes are kept than a command may have; of a longer piece, which
/// is `Long`, none are.
#[derive(Drop)]
pub struct Growing {
    bytes: Vec<u8>,
    is_long: bool,
}

impl Model for Growing {
    ghost use Rattle.std.specs.Prelude.{◌≡◌, ◌≤◌, true, [], length, cond};
    ghost use Rattle.bdb_base.specs.Limits.{longest_command};
    ghost use Rattle.bdb_lex.specs.declared.token.Piece.{Piece};
    ghost use Rattle.bdb_lex.specs.declared.token.Piece.TheVariants.{Cmd, Long};

    ghost Value = { Piece };

    ghost view = { λ g. cond g.is_long Long (Cmd g.bytes.items) };

    ghost invariant = { λ g. (length g.bytes.items ≤ longest_command)
        × (g.is_long ≡ true → g.bytes.items ≡ []) };
}

impl Growing {
    /// A piece with no byte.
    pub fn new(alloc: Global) -> Self
        ensures { result ≡ Piece.Cmd [] }
    {
        Growing {
            bytes: Vec::new(alloc),
            is_long: false,
        }
    }

    /// Adds bytes. The only error is running out of memory.
    #[tactic(auto, using(crate::proofs::CutLemmas::kept_short))]
    pub fn extend(&mut self, run: &[u8]) -> Result<(), AllocError>
        ensures grown { OnOk result (self.new ≡ longer_by self.old run.now) }
        ensures short { is_short self.new ≡ true }
    {
        if self.is_long {
            return Ok(());
        }
        if run.len() > LONGEST_COMMAND - self.bytes.len() {
            self.is_long = true;
            self.bytes.clear();
            return Ok(());
        }
        self.bytes.extend_from_slice(run)?;
        Ok(())
    }

    /// Whether the piece has no byte.
    fn is_empty(&self) -> bool
        ensures { result ≡ true → self.now ≡ Piece.Cmd [] }
    {
        !self.is_long && self.bytes.is_empty()
    }

    /// Ends the piece with these bytes, and begins another. Where it has no others they are borrowed. The only error is want
    /// of memory.
    #[tactic(auto, using(crate::proofs::CutLemmas::whole_piece))]
    pub fn end<'a>(&mut self, alloc: Global, last: &'a [u8]) -> Result<Piece<'a>, AllocError>
        ensures piece { IfOk result (λ piece. piece ≡ longer_by self.old last.now) }
        ensures rest { OnOk result (self.new ≡ Piece.Cmd []) }
        ensures short { is_short self.new ≡ true }
    {
        if self.is_empty() && last.len() <= LONGEST_COMMAND {
            return Ok(Piece::Cmd(PieceBytes::borrowed(last)));
        }
        self.extend(last)?;
        Ok(self.take(alloc))
    }

    /// Ends the piece, and begins another.
    fn take<'a>(&mut self, alloc: Global) -> Piece<'a>
        ensures value { result ≡ self.old }
        ensures rest { self.new ≡ Piece.Cmd [] }
    {
        let bytes = mem::replace(&mut self.bytes, Vec::new(alloc));
        if self.is_long {
            self.is_long = false;
            Piece::Long
        } else {
            Piece::Cmd(PieceBytes::owned(bytes))
        }
    }
}
