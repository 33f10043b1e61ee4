// Reading a script.
use crate::micros;
use bdb_base::List;
use bdb_lex::{Cutter, Piece, tokens};
use bdb_parse::parse;
use std::alloc::{AllocError, Global};
use std::io::{self, Read};
use std::time::Instant;

/// How many bytes are cut at once, as many as the program reads at once.
const BLOCK: usize = 65536;

/// Cuts the script on standard input block by block. Then cuts it again, and reads each piece into tokens and a command
/// as soon as its block is cut.
pub fn measure(rt: &HostRuntime) -> io::Result<()> {
    let alloc = rt.alloc();
    let mut script = Vec::new(alloc);
    rt.reader().read_to_end(&mut script)?;
    let start = Instant::now(rt)?;
    let pieces = count_pieces(alloc, script.as_slice())?;
    let cut = micros(rt, &start)?;
    let start = Instant::now(rt)?;
    let commands = count_commands(alloc, script.as_slice())?;
    let all = micros(rt, &start)?;
    let bytes = script.len();
    println!(rt; "bytes {bytes} pieces {pieces} commands {commands} cut {cut} all {all}")
}

/// How many pieces a script has.
fn count_pieces(alloc: Global, script: &[u8]) -> Result<usize, AllocError> {
    let mut cutter = Cutter::new(alloc);
    let mut count: usize = 0;
    for block in script.chunks(BLOCK) {
        let mut pieces = List::new(alloc);
        cutter.feed(alloc, block, &mut pieces)?;
        count = count.saturating_add(pieces.len());
    }
    Ok(count)
}

/// How many pieces of a script are commands.
fn count_commands(alloc: Global, script: &[u8]) -> Result<usize, AllocError> {
    let mut cutter = Cutter::new(alloc);
    let mut count: usize = 0;
    for block in script.chunks(BLOCK) {
        let mut pieces = List::new(alloc);
        cutter.feed(alloc, block, &mut pieces)?;
        for piece in pieces.as_slice() {
            count = count.saturating_add(usize::from(is_command(alloc, piece)));
        }
    }
    Ok(count)
}

/// Whether a piece is a command.
fn is_command(alloc: Global, piece: &Piece<'_>) -> bool {
    let Piece::Cmd(bytes) = piece else {
        return false;
    };
    match tokens(alloc, bytes.as_slice()) {
        Ok(tokens) => parse(alloc, tokens.as_slice()).is_ok(),
        Err(_) => false,
    }
}
