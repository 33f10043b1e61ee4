// Sources and sinks that never fail, and the source that always does.
ghost use Rattle.std.specs.Prelude.{◌≡◌, ◌<◌, ◌+◌, ℕ, Some, None, length, min, drop, IfOk, IsOk, IsErr};
ghost use Rattle.std.specs.Io.{ReadsAtMost};
ghost use Rattle.std.specs.Io.KnownBytes.{ReadConsumes};
ghost use Rattle.bdb_base.specs.Causes.{HasCause};
ghost use Rattle.bdb_io.specs.Failure.{failed};
ghost use Rattle.bdb_io.specs.Pieces.{Counts, WritesPiece};

use crate::failed::Failed;
use crate::traits::{Sink, Source};
use std::marker::Model;

/// A source of given bytes that never fails.
#[derive(Drop)]
pub struct QuietSource {
    bytes: Vec<u8>,
    from: usize,
}

impl Model for QuietSource {
    ghost use Rattle.std.specs.Prelude.{◌≤◌, drop, vec_len};
    ghost use Rattle.bdb_io.specs.Streams.{Stream};

    ghost Value = { Stream };

    ghost view = { λ s. record { left = drop s.from s.bytes.items; given = s.from } };

    ghost invariant = { λ s. s.from ≤ vec_len s.bytes };
}

impl QuietSource {
    /// The source of these bytes.
    pub fn new(bytes: Vec<u8>) -> Self
        ensures left { result.left ≡ bytes.items }
        ensures given { result.given ≡ 0 }
    {
        QuietSource { bytes, from: 0 }
    }
}

impl Source for QuietSource {
    ghost left = { λ s. Some s.left };

    ghost faults = { λ _. 0 };

    ghost given = { λ s. s.given };

    // It takes no memory, and succeeds always.
    fn read(&mut self, buf: &mut [u8]) -> Result<usize, Failed>
        requires { 0 < length buf.old }
        ensures bound { ReadsAtMost result buf.new }
        ensures bytes { ReadConsumes (Some self.old.left) (Some self.new.left) result buf.new }
        ensures counts { Counts self.old.given self.new.given result }
        ensures cause { HasCause 0 0 result failed }
        ensures succeeds { IsOk result }
        ensures count { IfOk result (λ n. n ≡ min (length buf.old) (length self.old.left)) }
    {
        let count = buf.len().min(self.bytes.len() - self.from);
        let end = self.from + count;
        buf[..count].copy_from_slice(&self.bytes[self.from..end]);
        self.from = end;
        Ok(count)
    }
}

/// A sink that keeps nothing and never fails.
#[derive(Clone, Copy, Debug, PartialEq, Eq, Drop)]
pub struct QuietSink;

impl QuietSink {
    /// The sink.
    pub fn new() -> Self {
        QuietSink
    }
}

impl Sink for QuietSink {
    ghost written = { λ _. None };

    ghost faults = { λ _. 0 };

    // It takes no memory, and succeeds always.
    fn write_all(&mut self, _bytes: &[u8]) -> Result<(), Failed>
        ensures succeeds { IsOk result }
        ensures bytes { WritesPiece None None result _bytes.now }
        ensures cause { HasCause 0 0 result failed }
    {
        Ok(())
    }
}

/// What stands for a file that can't be opened: every read fails.
#[derive(Drop)]
pub struct NoSource {
    faults: u64,
}

impl Model for NoSource {
    ghost use Rattle.std.specs.Prelude.{ℕ};

    ghost Value = { ℕ };

    ghost view = { λ s. s.faults };
}

impl NoSource {
    /// The source, with no fault yet.
    pub fn new() -> Self
        ensures { result ≡ 0 }
    {
        NoSource { faults: 0 }
    }
}

impl Source for NoSource {
    ghost left = { λ _. None };

    ghost faults = { λ s. s };

    ghost given = { λ _. 0 };

    // It fails always, and the count of faults rises.
    fn read(&mut self, buf: &mut [u8]) -> Result<usize, Failed>
        requires { 0 < length buf.old }
        ensures bound { ReadsAtMost result buf.new }
        ensures bytes { ReadConsumes None None result buf.new }
        ensures counts { Counts 0 0 result }
        ensures cause { HasCause self.old self.new result failed }
        ensures fails { IsErr result }
    {
        self.faults = self.faults.saturating_add(1);
        Err(Failed)
    }
}
