// Whether the runs of a case are told what it has.
ghost use Rattle.std.specs.Prelude.{◌≡◌, false};

use bdb_base::{List, Txt};
use bdb_io::{MemSource, NoSource, ReadSource, Source, WriteSink};
use bdb_memory::QuietKeeper;
use bdb_top::run;
use std::alloc::{AllocError, Global};
use std::io;
use std::io::{Read, Write};

/// In which portions a script is read.
#[derive(Clone, Copy, Drop)]
pub(crate) enum Portions {
    /// So many bytes at a time.
    Steps(usize),
    /// In two parts, the first one of so many bytes.
    Cut(usize),
}

/// A writer that takes one byte at a time.
#[derive(Drop)]
struct OneByOne {
    bytes: Vec<u8>,
}

impl Write for OneByOne {
    fn write(&mut self, buf: &[u8]) -> io::Result<usize> {
        match buf.first() {
            Some(byte) => {
                self.bytes.push(*byte)?;
                Ok(1)
            }
            None => Ok(0),
        }
    }

    fn flush(&mut self) -> io::Result<()> {
        Ok(())
    }
}

/// The words, the script and the replies of a run. The script may be empty, or there is none.
#[derive(Drop)]
struct Told {
    words: List<Txt>,
    has_script: bool,
    script: Vec<u8>,
    replies: Vec<u8>,
}

/// Whether each run of a case is told what stands above the line of its end. The runs go over one keeper, without rows at first.
pub(crate) fn is_told(
    rt: &HostRuntime,
    setup: &str,
    lines: &str,
    portions: Portions,
) -> io::Result<bool> {
    let mut told = Told::new(rt.alloc());
    told.take_words(rt.alloc(), "run")?;
    told.add_lines(rt.alloc(), setup)?;
    let mut keeper = QuietKeeper::new(rt.alloc());
    for line in lines.split('\n') {
        match line.strip_prefix("= ") {
            Some(end) => {
                if !told.is_met(rt, end, portions, &mut keeper)? {
                    return Ok(false);
                }
                told.clear();
            }
            None => told.add(rt.alloc(), line)?,
        }
    }
    Ok(told.is_clear())
}

impl Told {
    /// No words, no script and no replies.
    fn new(alloc: Global) -> Self {
        Told {
            words: List::new(alloc),
            has_script: false,
            script: Vec::new(alloc),
            replies: Vec::new(alloc),
        }
    }

    /// Takes the words of a line.
    fn take_words(&mut self, alloc: Global, line: &str) -> Result<(), AllocError> {
        self.words = List::new(alloc);
        for word in line.split_whitespace() {
            self.words.push(Txt::try_new(alloc, word)?)?;
        }
        Ok(())
    }

    /// Takes these lines, of which none ends a run.
    fn add_lines(&mut self, alloc: Global, lines: &str) -> Result<(), AllocError> {
        for line in lines.split('\n') {
            self.add(alloc, line)?;
        }
        Ok(())
    }

    /// Takes a line: words behind `$`, a line of a script behind `>`, or one of replies, unless it is empty.
    fn add(&mut self, alloc: Global, line: &str) -> Result<(), AllocError> {
        if let Some(words) = line.strip_prefix('$') {
            self.take_words(alloc, words)?;
        } else if let Some(script) = line.strip_prefix('>') {
            if self.has_script {
                self.script.push(b'\n')?;
            }
            self.has_script = true;
            let script = script.strip_prefix(' ').unwrap_or(script);
            self.script.extend_from_slice(script.as_bytes())?;
        } else if !line.is_empty() {
            self.replies.extend_from_slice(line.as_bytes())?;
            self.replies.push(b'\n')?;
        }
        Ok(())
    }

    /// Lets go of the script and the replies.
    fn clear(&mut self) {
        self.has_script = false;
        self.script.clear();
        self.replies.clear();
    }

    /// Whether there are neither.
    fn is_clear(&self) -> bool {
        !self.has_script && self.replies.is_empty()
    }

    /// Whether the run is told the replies, and ends so, where its script is read so. Without a script each read fails.
    fn is_met(
        &self,
        rt: &HostRuntime,
        end: &str,
        portions: Portions,
        keeper: &mut QuietKeeper,
    ) -> io::Result<bool>
        requires idle { keeper.old.running ≡ false }
        ensures idle { keeper.new.running ≡ false }
    {
        let script = self.script.as_slice();
        if !self.has_script {
            return self.is_met_over(rt, end, &mut NoSource::new(), keeper);
        }
        match portions {
            Portions::Steps(step) => {
                let text = Vec::from_slice(rt.alloc(), script)?;
                let mut source = MemSource::new(text, step.max(1), List::new(rt.alloc()));
                self.is_met_over(rt, end, &mut source, keeper)
            }
            Portions::Cut(cut) => {
                let (first, rest) = script.split_at(cut.min(script.len()));
                let mut source = ReadSource::new(first.chain(rest));
                self.is_met_over(rt, end, &mut source, keeper)
            }
        }
    }

    /// The same over a source. It tells what the run was told where this is something else.
    fn is_met_over<S: Source>(
        &self,
        rt: &HostRuntime,
        end: &str,
        source: &mut S,
        keeper: &mut QuietKeeper,
    ) -> io::Result<bool>
        requires idle { keeper.old.running ≡ false }
        ensures idle { keeper.new.running ≡ false }
    {
        let alloc = rt.alloc();
        let mut out = WriteSink::new(OneByOne {
            bytes: Vec::new(alloc),
        });
        let status = run(alloc, self.words.as_slice(), source, &mut out, keeper);
        let written = out.writer.bytes.as_slice();
        if written == self.replies.as_slice() && is_end(alloc, end, status, keeper.commits())? {
            return Ok(true);
        }
        let text = std::str::from_utf8(written).unwrap_or("");
        let commits = keeper.commits();
        println!(rt; "{text}= {status}, {commits} commits")?;
        Ok(false)
    }
}

/// Whether a line tells this status, with or without the commits of the keeper so far.
fn is_end(alloc: Global, end: &str, status: u8, commits: u64) -> Result<bool, AllocError> {
    let ended = format!(in alloc; "{status}")?;
    let kept = format!(in alloc; "{status}, {commits} commits")?;
    Ok(end == ended.as_str() || end == kept.as_str())
}
