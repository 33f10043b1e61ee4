// The traits of sources and sinks.
ghost use Rattle.std.specs.Prelude.{◌<◌, ℕ, List, Option, length};
ghost use Rattle.std.specs.Io.{ReadsAtMost};
ghost use Rattle.std.specs.Io.KnownBytes.{ReadConsumes};
ghost use Rattle.bdb_base.specs.Causes.{HasCause};
ghost use Rattle.bdb_io.specs.Failure.{failed};
ghost use Rattle.bdb_io.specs.Pieces.{Counts, WritesPiece};

use crate::failed::Failed;

/// Where bytes come from. A source has a count of faults and a count of bytes given, which never fall.
pub trait Source {
    // the bytes that are left, where the source tells
    ghost left: { Self → Option (List ℕ) };

    // how many reads failed
    ghost faults: { Self → ℕ };

    // how many bytes were given
    ghost given: { Self → ℕ };

    /// Reads bytes into the front of a buffer, and tells how many. `Ok(0)` is the end of input. After a failure what
    /// is left is as before.
    fn read(&mut self, buf: &mut [u8]) -> Result<usize, Failed>
        requires { 0 < length buf.old }
        ensures bound { ReadsAtMost result buf.new }
        ensures bytes { ReadConsumes (left self.old) (left self.new) result buf.new }
        ensures counts { Counts (given self.old) (given self.new) result }
        ensures cause { HasCause (faults self.old) (faults self.new) result failed };
}

/// Where bytes go. A sink has a count of faults, which never falls.
pub trait Sink {
    // what was written, where the sink tells
    ghost written: { Self → Option (List ℕ) };

    // how many writes failed
    ghost faults: { Self → ℕ };

    /// Writes a whole piece. A write that fails may have written a part of the piece's front.
    fn write_all(&mut self, bytes: &[u8]) -> Result<(), Failed>
        ensures bytes { WritesPiece (written self.old) (written self.new) result bytes.now }
        ensures cause { HasCause (faults self.old) (faults self.new) result failed };
}
