// Writing what sessions are told, in parts: no memory is taken for it.
ghost use Rattle.std.specs.Prelude.{◌≡◌, ◌<◌, ◌≤◌, ◌+◌, ◌++◌, ◌∷◌, [], ℕ, List, true, length, nat_eq, position, take, drop};
ghost use Rattle.std.specs.Fmt.{decimal};
ghost use Rattle.bdb_base.specs.Causes.{HasCause};
ghost use Rattle.bdb_io.specs.Failure.{failed};
ghost use Rattle.bdb_io.specs.Pieces.{WritesPiece};
ghost use Rattle.bdb_many.specs.Labels.{label, labelled, labelled_from};
ghost use Rattle.bdb_multi.specs.Sessions.{sessions};

use bdb_io::{Failed, Sink};

/// Writes a line, with the label of a session before it.
pub fn write_line<O: Sink>(out: &mut O, session: u8, line: &[u8]) -> Result<(), Failed>
    requires { session < sessions }
    ensures written { WritesPiece (O.written out.old) (O.written out.new) result
        (label session ++ line.now) }
    ensures cause { HasCause (O.faults out.old) (O.faults out.new) result failed }
{
    match write_label(out, session) {
        Ok(()) => {}
        Err(Failed) => return Err(Failed),
    }
    match out.write_all(line) {
        Ok(()) => Ok(()),
        Err(Failed) => Err(Failed),
    }
}

/// Writes the label of a session.
fn write_label<O: Sink>(out: &mut O, session: u8) -> Result<(), Failed>
    requires { session < sessions }
    ensures written { WritesPiece (O.written out.old) (O.written out.new) result (label session) }
    ensures cause { HasCause (O.faults out.old) (O.faults out.new) result failed }
{
    if session < 10 {
        return out.write_all(&[b'0' + session, b':', b' ']);
    }
    out.write_all(&[b'0' + session / 10, b'0' + session % 10, b':', b' '])
}

/// Writes lines, each with the label of a session before it.
pub fn write_labelled<O: Sink>(out: &mut O, session: u8, text: &[u8]) -> Result<(), Failed>
    requires { session < sessions }
    ensures written { WritesPiece (O.written out.old) (O.written out.new) result
        (labelled session text.now) }
    ensures cause { HasCause (O.faults out.old) (O.faults out.new) result failed }
{
    let mut rest = text;
    loop {
        if rest.is_empty() {
            return Ok(());
        }
        let end = end_of_line(rest);
        match write_line(out, session, &rest[..end]) {
            Ok(()) => {}
            Err(Failed) => return Err(Failed),
        }
        rest = &rest[end..];
    }
}

/// Where the first line ends: behind its line feed, or at the end of the text.
fn end_of_line(text: &[u8]) -> usize
    requires { 0 < length text.now }
    ensures some { 0 < result }
    ensures within { result ≤ length text.now }
    ensures line { (m : List ℕ) → labelled_from m true text.now
        ≡ m ++ (take result text.now ++ labelled_from m true (drop result text.now)) }
{
    match line_feed(text) {
        Some(at) => at + 1,
        None => text.len(),
    }
}

/// Where the first line feed stands, if there is one.
fn line_feed(text: &[u8]) -> Option<usize>
    ensures { result ≡ position (λ b. nat_eq b 10) text.now }
{
    text.iter().position(|byte| *byte == b'\n')
}

/// Writes a line that tells a number of one digit or two, with the label of a session before it.
pub fn write_count<O: Sink>(out: &mut O, session: u8, told: &[u8], number: u8) -> Result<(), Failed>
    requires session { session < sessions }
    requires short { number < 100 }
    ensures written { WritesPiece (O.written out.old) (O.written out.new) result
        ((label session ++ told.now) ++ (decimal number ++ 10 ∷ [])) }
    ensures cause { HasCause (O.faults out.old) (O.faults out.new) result failed }
{
    match write_line(out, session, told) {
        Ok(()) => {}
        Err(Failed) => return Err(Failed),
    }
    match write_number(out, number) {
        Ok(()) => Ok(()),
        Err(Failed) => Err(Failed),
    }
}

/// Writes a number of one digit or two, which ends its line.
fn write_number<O: Sink>(out: &mut O, number: u8) -> Result<(), Failed>
    requires { number < 100 }
    ensures written { WritesPiece (O.written out.old) (O.written out.new) result
        (decimal number ++ 10 ∷ []) }
    ensures cause { HasCause (O.faults out.old) (O.faults out.new) result failed }
{
    if number < 10 {
        return out.write_all(&[b'0' + number, b'\n']);
    }
    out.write_all(&[b'0' + number / 10, b'0' + number % 10, b'\n'])
}
