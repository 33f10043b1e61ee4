// The sink in memory that fails where it is told to.
ghost use Rattle.std.specs.Prelude.{◌≡◌, ◌≤◌, ◌+◌, ◌++◌, vec_len, vec_capacity, [], Some, length, min, IfOk, OnOk, OnErr, is_ok};
ghost use Rattle.bdb_base.specs.Causes.{HasCause};
ghost use Rattle.bdb_io.specs.Failure.{failed};
ghost use Rattle.bdb_io.specs.Pieces.{WritesPiece};
ghost use Rattle.bdb_io.specs.Streams.{takes_all, drained, drained_in_part};

use crate::failed::Failed;
use crate::traits::Sink;
use bdb_base::{List, is_listed};
use std::alloc::{AllocError, Global};
use std::marker::Model;

/// A sink that keeps what was written, in memory that it takes at once. It fails the writes whose numbers, from 1, are
/// listed, and those that find no room for the whole piece. A write that fails takes the first `part` bytes.
#[derive(Drop)]
pub struct MemSink {
    bytes: Vec<u8>,
    room: usize,
    part: usize,
    fails: List<u32>,
    calls: u64,
    faults: u64,
}

impl Model for MemSink {
    ghost use Rattle.std.specs.Prelude.{◌+◌, ◌≤◌, vec_len, vec_capacity};
    ghost use Rattle.bdb_io.specs.Streams.{Drain};

    ghost Value = { Drain };

    ghost view = { λ s. record {
      written = s.bytes.items;
      room = s.room;
      part = s.part;
      fails = s.fails;
      calls = s.calls;
      faults = s.faults;
    } };

    ghost invariant = { λ s. vec_len s.bytes + s.room ≤ vec_capacity s.bytes };
}

impl MemSink {
    /// The sink with room for so many bytes. It takes the memory at once.
    pub fn new(
        alloc: Global,
        fails: List<u32>,
        part: usize,
        room: usize,
    ) -> Result<Self, AllocError>
        ensures { IfOk result
            (λ sink. sink ≡ record {
              written = [];
              room = room;
              part = part;
              fails = fails;
              calls = 0;
              faults = 0;
            }) }
    {
        let bytes = Vec::with_capacity(alloc, room)?;
        Ok(MemSink {
            bytes,
            room,
            part,
            fails,
            calls: 0,
            faults: 0,
        })
    }

    /// What was written.
    pub fn bytes(&self) -> &[u8]
        ensures { result.now ≡ self.now.written }
    {
        self.bytes.as_slice()
    }
}

impl Sink for MemSink {
    ghost written = { λ s. Some s.written };

    ghost faults = { λ s. s.faults };

    // It takes no memory. It fails exactly where the number of the write is listed, or where the piece is longer than the
    // room that is left.
    fn write_all(&mut self, bytes: &[u8]) -> Result<(), Failed>
        ensures bytes { WritesPiece (Some self.old.written) (Some self.new.written)
            result bytes.now }
        ensures cause { HasCause self.old.faults self.new.faults result failed }

        ensures takes { is_ok result ≡ takes_all self.old bytes.now }
        ensures ok { OnOk result (self.new ≡ drained self.old (length bytes.now) bytes.now) }
        ensures err { OnErr result (self.new ≡ drained_in_part self.old bytes.now) }
    {
        self.calls = self.calls.saturating_add(1);
        if is_listed(self.fails.as_slice(), self.calls) || bytes.len() > self.room {
            let count = self.part.min(bytes.len().min(self.room));
            fill(&mut self.bytes, &bytes[..count]);
            self.room -= count;
            self.faults = self.faults.saturating_add(1);
            return Err(Failed);
        }
        fill(&mut self.bytes, bytes);
        self.room -= bytes.len();
        Ok(())
    }
}

/// Adds bytes for which there is room.
fn fill(kept: &mut Vec<u8>, bytes: &[u8])
    requires { vec_len kept.old + length bytes.now ≤ vec_capacity kept.old }
    ensures items { kept.new.items ≡ kept.old.items ++ bytes.now }
    ensures len { vec_len kept.new ≡ vec_len kept.old + length bytes.now }
    ensures capacity { vec_capacity kept.old ≤ vec_capacity kept.new }
{
    if kept.extend_from_slice(bytes).is_err() {
        unreachable!()
    }
}
