// Adapters of readers and writers.
ghost use Rattle.std.specs.Prelude.{◌≡◌, ◌<◌};

use crate::failed::Failed;
use crate::traits::{Sink, Source};
use std::io::{Read, Write};

/// A reader as a source. Each error that the reader gives is a fault.
#[derive(Drop)]
pub struct ReadSource<R> {
    pub reader: R,
    pub faults: u64,
    pub given: u64,
}

impl<R: Read> ReadSource<R> {
    /// The source of a reader.
    pub fn new(reader: R) -> Self
        ensures { result ≡ record { reader = reader; faults = 0; given = 0 } }
    {
        ReadSource {
            reader,
            faults: 0,
            given: 0,
        }
    }
}

impl<R: Read> Source for ReadSource<R> {
    ghost left = { λ s. R.remaining s.reader };

    ghost faults = { λ s. s.faults };

    ghost given = { λ s. s.given };

    fn read(&mut self, buf: &mut [u8]) -> Result<usize, Failed> {
        match self.reader.read(buf) {
            Ok(count) => {
                self.given = self.given.saturating_add(count as u64);
                Ok(count)
            }
            Err(_) => {
                self.faults = self.faults.saturating_add(1);
                Err(Failed)
            }
        }
    }
}

/// A writer as a sink. Each error that the writer gives is a fault, and so is a write that takes nothing of a piece
/// that isn't empty.
#[derive(Drop)]
pub struct WriteSink<W> {
    pub writer: W,
    pub faults: u64,
}

impl<W: Write> WriteSink<W> {
    /// The sink of a writer.
    pub fn new(writer: W) -> Self
        ensures { result ≡ record { writer = writer; faults = 0 } }
    {
        WriteSink { writer, faults: 0 }
    }
}

impl<W: Write> Sink for WriteSink<W> {
    ghost written = { λ s. W.contents s.writer };

    ghost faults = { λ s. s.faults };

    fn write_all(&mut self, bytes: &[u8]) -> Result<(), Failed> {
        let mut from = 0;
        while from < bytes.len() {
            match self.writer.write(&bytes[from..]) {
                Ok(count) if count > 0 => from += count,
                _ => {
                    self.faults = self.faults.saturating_add(1);
                    return Err(Failed);
                }
            }
        }
        Ok(())
    }
}
