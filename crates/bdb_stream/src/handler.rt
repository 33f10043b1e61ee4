// The trait of what handles the pieces of a stream.
ghost use Rattle.std.specs.Prelude.{◌≤◌, OnOk, OnErr, IsErrOf};
ghost use Rattle.bdb_base.specs.Causes.{Rose, HasCause};
ghost use Rattle.bdb_keep.specs.Seen.{IsStill, NeverFall};
ghost use Rattle.bdb_session.specs.Known.{RemembersSome};
ghost use Rattle.bdb_stream.specs.Handled.{RunEnds, TellsAnswer};
ghost use Rattle.bdb_stream.specs.Handling.{Handling, IsAt, IsAtSome, IsInOrder};

use crate::error::RunError;
use bdb_io::Sink;
use bdb_keep::Keeper;
use bdb_lex::{Piece, Rest};

/// What handles the pieces of a stream one after the other, over a keeper, and writes a reply to each. Its calls tell whether the reply
/// tells no error. After an Err it isn't to be called again.
pub trait Handler {
    // what it is asked for, and what comes of that
    ghost handling: { Handling Self };

    /// Answers a piece, and writes the reply.
    fn answer_piece<O: Sink, K: Keeper>(
        &mut self,
        keeper: &mut K,
        out: &mut O,
        piece: &Piece<'_>,
    ) -> Result<bool, RunError>
        requires still { IsStill (K.seen keeper.old) }
        requires at { IsAtSome handling (K.seen keeper.old).kept self.old }
        ensures answered { (p : handling.Point) → IsAt handling (K.seen keeper.old).kept self.old p
            → TellsAnswer handling p (handling.asked_by piece.now) self.new (K.seen keeper.old)
            (K.seen keeper.new) (O.written out.old) (O.written out.new) result }
        ensures at { OnOk result (IsAtSome handling (K.seen keeper.new).kept self.new) }
        ensures still { IsStill (K.seen keeper.new) }
        ensures agrees { RemembersSome (K.seen keeper.new).kept (handling.session_of self.new) }
        ensures never_fall { NeverFall (K.seen keeper.old) (K.seen keeper.new) }
        ensures keeper { HasCause (K.seen keeper.old).faults
            (K.seen keeper.new).faults result RunError.Keeper }
        ensures later { O.faults out.old ≤ O.faults out.new }
        ensures sink { IsErrOf result RunError.Sink → Rose (O.faults out.old) (O.faults out.new) }
        ensures source { OnErr result (IsErrOf result RunError.Source → ⊥) }
        ensures large { OnErr result (IsErrOf result RunError.Large → ⊥) };

    /// Answers what stands behind the last semicolon, and writes the reply.
    fn answer_rest<O: Sink, K: Keeper>(
        &mut self,
        keeper: &mut K,
        out: &mut O,
        rest: Rest,
    ) -> Result<bool, RunError>
        requires still { IsStill (K.seen keeper.old) }
        requires at { IsAtSome handling (K.seen keeper.old).kept self.old }
        ensures ends { (p : handling.Point) → IsAt handling (K.seen keeper.old).kept self.old p
            → RunEnds handling p (handling.rest_asks rest) self.new (K.seen keeper.old)
            (K.seen keeper.new) (O.written out.old) (O.written out.new) result }
        ensures still { IsStill (K.seen keeper.new) }
        ensures agrees { RemembersSome (K.seen keeper.new).kept (handling.session_of self.new) }
        ensures never_fall { NeverFall (K.seen keeper.old) (K.seen keeper.new) }
        ensures keeper { HasCause (K.seen keeper.old).faults
            (K.seen keeper.new).faults result RunError.Keeper }
        ensures later { O.faults out.old ≤ O.faults out.new }
        ensures sink { IsErrOf result RunError.Sink → Rose (O.faults out.old) (O.faults out.new) }
        ensures source { OnErr result (IsErrOf result RunError.Source → ⊥) }
        ensures large { OnErr result (IsErrOf result RunError.Large → ⊥) };

    // it handles several things one after the other
    ghost in_order: { IsInOrder handling };
}
