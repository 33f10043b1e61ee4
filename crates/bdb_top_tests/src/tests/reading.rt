// Pieces that are too long, read in parts. Other scripts are read in parts by `bdb_cases`.
use crate::tests::ran_in_steps;
use std::alloc::Global;
use std::test::Fail;

/// The words `show world`, as many blanks as a piece has bytes at most, and this.
fn long_piece(alloc: Global, end: &str) -> Result<String, Fail> {
    let mut script = String::new(alloc);
    script.push_str("show world")?;
    for _ in 0..65_536 {
        script.push_str(" ")?;
    }
    script.push_str(end)?;
    Ok(script)
}

/// Whether a script with a piece that is too long and ends so is refused, and told these replies.
fn is_long(alloc: Global, end: &str, step: usize, replies: &str) -> Result<bool, Fail> {
    let script = long_piece(alloc, end)?;
    Ok(ran_in_steps(alloc, script.as_str().as_bytes(), step, &[])?.is_told(replies, 1))
}

#[test]
fn long_pieces_are_read_in_parts(rt: HostRuntime) -> Result<(), Fail> {
    let cases = [
        ("", "error unfinished\n"),
        ("'", "error unfinished\n"),
        ("--", "error unfinished\n"),
        ("-", "error unfinished\n"),
        (";", "error long\n"),
        ("--;\n; show world", "error long\nerror unfinished\n"),
        ("';'; show world;", "error long\nok 0\n"),
    ];
    for (end, replies) in cases {
        assert!(rt; is_long(rt.alloc(), end, 1, replies)?, "{end}");
        assert!(rt; is_long(rt.alloc(), end, 4_096, replies)?, "{end}");
    }
    Ok(())
}
