// The source in memory that fails where it is told to.
ghost use Rattle.std.specs.Prelude.{◌≡◌, ◌<◌, ◌≤◌, Some, length, min, IfOk, OnOk, OnErr, is_err};
ghost use Rattle.std.specs.Io.{ReadsAtMost};
ghost use Rattle.std.specs.Io.KnownBytes.{ReadConsumes};
ghost use Rattle.bdb_base.specs.Causes.{HasCause, number_of_next, is_listed};
ghost use Rattle.bdb_io.specs.Failure.{failed};
ghost use Rattle.bdb_io.specs.Pieces.{Counts};
ghost use Rattle.bdb_io.specs.Streams.{fed, unfed};

use crate::failed::Failed;
use crate::traits::Source;
use bdb_base::{List, is_listed};
use std::marker::Model;

/// A source of given bytes that gives a few at a time, and fails the reads whose numbers, from 1, are listed.
#[derive(Drop)]
pub struct MemSource {
    bytes: Vec<u8>,
    from: usize,
    step: usize,
    fails: List<u32>,
    calls: u64,
    faults: u64,
}

impl Model for MemSource {
    ghost use Rattle.std.specs.Prelude.{◌≤◌, drop, vec_len};
    ghost use Rattle.bdb_io.specs.Streams.{Feed};

    ghost Value = { Feed };

    ghost view = { λ s. record {
      left = drop s.from s.bytes.items;
      given = s.from;
      step = s.step;
      fails = s.fails;
      calls = s.calls;
      faults = s.faults;
    } };

    ghost invariant = { λ s. (s.from ≤ vec_len s.bytes) × (1 ≤ s.step) };
}

impl MemSource {
    /// The source of these bytes, which gives `step` of them at most in a read.
    pub fn new(bytes: Vec<u8>, step: usize, fails: List<u32>) -> Self
        requires { 1 ≤ step }
        ensures { result ≡ record {
          left = bytes.items;
          given = 0;
          step = step;
          fails = fails;
          calls = 0;
          faults = 0;
        } }
    {
        MemSource {
            bytes,
            from: 0,
            step,
            fails,
            calls: 0,
            faults: 0,
        }
    }
}

impl Source for MemSource {
    ghost left = { λ s. Some s.left };

    ghost faults = { λ s. s.faults };

    ghost given = { λ s. s.given };

    // It takes no memory. It fails exactly where the number of the read is listed.
    fn read(&mut self, buf: &mut [u8]) -> Result<usize, Failed>
        requires { 0 < length buf.old }
        ensures bound { ReadsAtMost result buf.new }
        ensures bytes { ReadConsumes (Some self.old.left) (Some self.new.left) result buf.new }
        ensures counts { Counts self.old.given self.new.given result }
        ensures cause { HasCause self.old.faults self.new.faults result failed }

        ensures fails { is_err result ≡ is_listed (number_of_next self.old.calls) self.old.fails }
        ensures count { IfOk result
            (λ n. n ≡ min self.old.step (min (length buf.old) (length self.old.left))) }
        ensures ok { OnOk result (self.new ≡ fed self.old (length buf.old)) }
        ensures err { OnErr result (self.new ≡ unfed self.old) }
    {
        self.calls = self.calls.saturating_add(1);
        if is_listed(self.fails.as_slice(), self.calls) {
            self.faults = self.faults.saturating_add(1);
            return Err(Failed);
        }
        let left = self.bytes.len() - self.from;
        let count = self.step.min(buf.len().min(left));
        let end = self.from + count;
        buf[..count].copy_from_slice(&self.bytes[self.from..end]);
        self.from = end;
        Ok(count)
    }
}
