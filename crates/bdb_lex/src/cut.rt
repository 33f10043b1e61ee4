// Cutting a script into pieces.
ghost use Rattle.std.specs.Prelude.{◌≡◌, ◌<◌, true, false, [], ◌++◌, length, IfOk, IfSome, IfNone, OnOk, OnErr};
ghost use Rattle.bdb_lex.specs.Cut.{start, ready, pieces_from, state_after, holds_something, rest_of, EndsFirst, GrewByFront};
ghost use Rattle.bdb_lex.specs.Runs.{longer_by, state_of};

use crate::growing::Growing;
use crate::mode::Mode;
use crate::run::{Run, run_of};
use crate::token::{Piece, Rest};
use bdb_base::List;
use std::alloc::{AllocError, Global};
use std::marker::Model;

/// Cuts a script into pieces as its bytes come in, block by block. It keeps the bytes of the piece that hasn't ended yet, and
/// no more of them than a command may have. Once it refused to be fed it is spent.
#[derive(Drop)]
pub struct Cutter {
    mode: Mode,
    piece: Growing,
    holds: bool,
    is_spent: bool,
}

impl Model for Cutter {
    ghost use Rattle.std.specs.Prelude.{◌≡◌, true};
    ghost use Rattle.bdb_lex.specs.Cut.{CutterState, is_short};

    ghost Value = { CutterState };

    ghost view = { λ c. record {
      state = record { mode = c.mode; piece = c.piece; holds = c.holds };
      is_spent = c.is_spent;
    } };

    ghost invariant = { λ c. is_short c.piece ≡ true };
}

impl Cutter {
    /// A cutter that was fed nothing.
    pub fn new(alloc: Global) -> Self
        ensures { result ≡ ready start }
    {
        Cutter {
            mode: Mode::Plain,
            piece: Growing::new(alloc),
            holds: false,
            is_spent: false,
        }
    }

    /// Whether a refusal has spent the cutter.
    pub fn is_spent(&self) -> bool
        ensures { result ≡ self.now.is_spent }
    {
        self.is_spent
    }

    /// Takes the bytes of a block up to the first semicolon that ends a piece, and gives that piece and the bytes behind it;
    /// all of them, where none ends there. A piece that began in the block is borrowed from it. The only error is running out
    /// of memory, and the cutter is spent then.
    pub fn next_piece<'a>(
        &mut self,
        alloc: Global,
        bytes: &'a [u8],
    ) -> Result<Option<(Piece<'a>, &'a [u8])>, AllocError>
        requires ready { self.old.is_spent ≡ false }
        ensures some { IfOk result
            (λ next.
            IfSome next (λ found. EndsFirst self.old.state bytes.now found.0 found.1.now)) }
        ensures start { IfOk result (λ next. IfSome next (λ _. self.new ≡ ready start)) }
        ensures shorter { IfOk result
            (λ next. IfSome next (λ found. length found.1.now < length bytes.now)) }
        ensures none { IfOk result
            (λ next. IfNone next (pieces_from self.old.state bytes.now ≡ [])) }
        ensures state { IfOk result
            (λ next. IfNone next (self.new ≡ ready (state_after self.old.state bytes.now))) }
        ensures spent { OnErr result (self.new.is_spent ≡ true) }
    {
        let run = run_of(self.mode, self.holds, bytes);
        let (last, behind) = bytes.split_at(run.len);
        match behind {
            [] => match self.keep(last, run) {
                Ok(()) => Ok(None),
                Err(_) => Err(self.spend()),
            },
            [_, others @ ..] => match self.end(alloc, last) {
                Ok(piece) => Ok(Some((piece, others))),
                Err(_) => Err(self.spend()),
            },
        }
    }

    /// Keeps the bytes of a run, in which no piece ends.
    fn keep(&mut self, bytes: &[u8], run: Run) -> Result<(), AllocError>
        ensures state { OnOk result
            (self.new.state ≡ state_of run.mode (longer_by self.old.state.piece bytes.now)
            run.holds) }
        ensures spent { self.new.is_spent ≡ self.old.is_spent }
    {
        self.piece.extend(bytes)?;
        self.mode = run.mode;
        self.holds = run.holds;
        Ok(())
    }

    /// Ends the piece with these bytes, and begins another.
    fn end<'a>(&mut self, alloc: Global, last: &'a [u8]) -> Result<Piece<'a>, AllocError>
        ensures piece { IfOk result (λ piece. piece ≡ longer_by self.old.state.piece last.now) }
        ensures start { OnOk result (self.new.state ≡ start) }
        ensures spent { self.new.is_spent ≡ self.old.is_spent }
    {
        let piece = self.piece.end(alloc, last)?;
        self.mode = Mode::Plain;
        self.holds = false;
        Ok(piece)
    }

    /// Spends the cutter, as memory ran out.
    fn spend(&mut self) -> AllocError
        ensures { self.new.is_spent ≡ true }
    {
        self.is_spent = true;
        AllocError
    }

    /// Takes the next block of the script, and adds each piece that ends in it. The only error is running out of memory: a front of
    /// these pieces was added, whole and in order, and the cutter is spent.
    pub fn feed<'a>(
        &mut self,
        alloc: Global,
        bytes: &'a [u8],
        out: &mut List<Piece<'a>>,
    ) -> Result<(), AllocError>
        requires ready { self.old.is_spent ≡ false }
        ensures pieces { OnOk result (out.new ≡ out.old ++ pieces_from self.old.state bytes.now) }
        ensures state { OnOk result (self.new ≡ ready (state_after self.old.state bytes.now)) }
        ensures front { OnErr result
            (GrewByFront out.old out.new (pieces_from self.old.state bytes.now)) }
        ensures spent { OnErr result (self.new.is_spent ≡ true) }
    {
        let mut rest = bytes;
        loop {
            match self.next_piece(alloc, rest) {
                Ok(None) => return Ok(()),
                Ok(Some((piece, others))) => match out.push(piece) {
                    Ok(()) => rest = others,
                    Err(_) => return Err(self.spend()),
                },
                Err(stop) => return Err(stop),
            }
        }
    }

    /// Ends the script: `Unfinished` exactly where something stands behind the last cut outside blanks and comments.
    pub fn finish(self) -> Rest
        requires ready { self.is_spent ≡ false }
        ensures { result ≡ rest_of (holds_something self.state) }
    {
        if self.holds || self.mode == Mode::Dash {
            Rest::Unfinished
        } else {
            Rest::Nothing
        }
    }
}
