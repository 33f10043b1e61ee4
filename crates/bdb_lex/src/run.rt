// Runs of bytes in which no piece ends.
ghost use Rattle.std.specs.Prelude.{◌≡◌, ◌≤◌, ◌<◌, ◌+◌, Bool, true, false, IfSome, length, take, drop, slice_get};
ghost use Rattle.std.specs.List.{list_all, list_any};
ghost use Rattle.bdb_base.specs.Letters.{is_blank};
ghost use Rattle.bdb_lex.specs.Cut.{is_end, shows, next_mode, outside_mode};
ghost use Rattle.bdb_lex.specs.Runs.{IsAtEnd, Runs, is_quiet};

use crate::bytes::is_blank;
use crate::mode::Mode;

/// A run of bytes in which no piece ends, and what is so behind it.
#[derive(Clone, Copy, Drop)]
pub struct Run {
    pub len: usize,
    pub mode: Mode,
    pub holds: bool,
}

/// The run up to the next end, or up to the end of the bytes.
pub fn run_of(mode: Mode, holds: bool, bytes: &[u8]) -> Run
    ensures bound { result.len ≤ length bytes.now }
    ensures leads { Runs mode holds bytes.now result }
    ensures at_end { IsAtEnd result.mode (drop result.len bytes.now) }
{
    let mut run = Run {
        len: 0,
        mode,
        holds,
    };
    loop {
        run = with_quiet(run, bytes);
        match bytes.get(run.len) {
            Some(byte) if !is_end(run.mode, *byte) => run = with_byte(run, bytes),
            _ => return run,
        }
    }
}

/// The run with the bytes behind it that change no mode and end no piece.
fn with_quiet(run: Run, bytes: &[u8]) -> Run
    requires { run.len ≤ length bytes.now }
    ensures bound { result.len ≤ length bytes.now }
    ensures longer { run.len ≤ result.len }
    ensures leads { (m : Mode) (h : Bool) → Runs m h bytes.now run → Runs m h bytes.now result }
{
    let (_, rest) = bytes.split_at(run.len);
    let len = quiet_len(run.mode, rest);
    Run {
        len: run.len + len,
        mode: run.mode,
        holds: run.holds || show(run.mode, &rest[..len]),
    }
}

/// The run with the byte behind it, which ends no piece.
fn with_byte(run: Run, bytes: &[u8]) -> Run
    requires byte { run.len < length bytes.now }
    requires goes_on { IfSome (slice_get bytes.now run.len) (λ b. is_end run.mode b ≡ false) }
    ensures len { result.len ≡ run.len + 1 }
    ensures leads { (m : Mode) (h : Bool) → Runs m h bytes.now run → Runs m h bytes.now result }
{
    let byte = bytes[run.len];
    Run {
        len: run.len + 1,
        mode: next_mode(run.mode, byte),
        holds: run.holds || shows(run.mode, byte),
    }
}

/// How many bytes at the front change no mode and end no piece.
fn quiet_len(mode: Mode, bytes: &[u8]) -> usize
    ensures bound { result ≤ length bytes.now }
    ensures quiet { list_all (is_quiet mode) (take result bytes.now) ≡ true }
{
    match mode {
        Mode::Plain => plain_len(bytes),
        Mode::Dash => 0,
        Mode::Quoted => quoted_len(bytes),
        Mode::Comment => comment_len(bytes),
    }
}

/// How many bytes at the front, outside texts and comments, are no semicolon, no quote and no dash.
fn plain_len(bytes: &[u8]) -> usize
    ensures bound { result ≤ length bytes.now }
    ensures quiet { list_all (is_quiet Mode.Plain) (take result bytes.now) ≡ true }
{
    for (len, byte) in bytes.iter().enumerate() {
        if *byte == b';' || *byte == b'\'' || *byte == b'-' {
            return len;
        }
    }
    bytes.len()
}

/// How many bytes at the front, within a text, are no quote.
fn quoted_len(bytes: &[u8]) -> usize
    ensures bound { result ≤ length bytes.now }
    ensures quiet { list_all (is_quiet Mode.Quoted) (take result bytes.now) ≡ true }
{
    for (len, byte) in bytes.iter().enumerate() {
        if *byte == b'\'' {
            return len;
        }
    }
    bytes.len()
}

/// How many bytes at the front, within a comment, are no line feed.
fn comment_len(bytes: &[u8]) -> usize
    ensures bound { result ≤ length bytes.now }
    ensures quiet { list_all (is_quiet Mode.Comment) (take result bytes.now) ≡ true }
{
    for (len, byte) in bytes.iter().enumerate() {
        if *byte == b'\n' {
            return len;
        }
    }
    bytes.len()
}

/// Whether one of these bytes shows that something stands outside blanks and comments.
fn show(mode: Mode, bytes: &[u8]) -> bool
    ensures { result ≡ list_any (shows mode) bytes.now }
{
    bytes.iter().any(|byte| shows(mode, *byte))
}

/// Whether a byte ends a piece.
fn is_end(mode: Mode, byte: u8) -> bool
    ensures { result ≡ is_end mode byte }
{
    match mode {
        Mode::Plain => byte == b';',
        Mode::Dash => byte == b';',
        Mode::Quoted => false,
        Mode::Comment => false,
    }
}

/// Whether a byte shows that something stands outside blanks and comments.
fn shows(mode: Mode, byte: u8) -> bool
    ensures { result ≡ shows mode byte }
{
    match mode {
        Mode::Plain => !is_blank(byte) && byte != b'-',
        Mode::Dash => byte != b'-',
        Mode::Quoted => true,
        Mode::Comment => false,
    }
}

/// The mode after one more byte.
fn next_mode(mode: Mode, byte: u8) -> Mode
    ensures { result ≡ next_mode mode byte }
{
    match mode {
        Mode::Plain => outside_mode(byte),
        Mode::Dash => {
            if byte == b'-' {
                Mode::Comment
            } else {
                outside_mode(byte)
            }
        }
        Mode::Quoted => {
            if byte == b'\'' {
                Mode::Plain
            } else {
                Mode::Quoted
            }
        }
        Mode::Comment => {
            if byte == b'\n' {
                Mode::Plain
            } else {
                Mode::Comment
            }
        }
    }
}

/// The mode after a byte outside texts and comments.
fn outside_mode(byte: u8) -> Mode
    ensures { result ≡ outside_mode byte }
{
    if byte == b'\'' {
        Mode::Quoted
    } else if byte == b'-' {
        Mode::Dash
    } else {
        Mode::Plain
    }
}
