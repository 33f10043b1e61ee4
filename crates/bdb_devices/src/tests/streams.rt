// A stream of sessions of which a device fails: the batches stand that were committed, each whole, and what was told is told of these.
use crate::tests::{Left, ROOM, UNFINISHED, left_by, only, quiet_keeper, quiet_sink};
use bdb_base::List;
use bdb_io::{MemSink, MemSource};
use bdb_memory::MemKeeper;
use std::alloc::Global;
use std::test::Fail;

/// The pieces of a stream of four sessions, the reply to each, and whether it commits. Two of them have batches at once; one batch
/// breaks off at its third command, and one command is refused.
const PIECES: [(&str, &str, bool); 16] = [
    ("0 create user 'Alice'", "0: ok\n", true),
    ("\n0 create relation S(k text, v text)", "0: ok\n", true),
    ("\n1 begin", "1: begun\n", false),
    ("\n1 insert into S values('a','x')", "1: queued\n", false),
    ("\n2 begin", "2: begun\n", false),
    (
        "\n2 insert into BELIEF 'Alice' S values('a','y')",
        "2: queued\n",
        false,
    ),
    ("\n1 insert into S values('b','z')", "1: queued\n", false),
    ("\n2 insert into S values('c','w')", "2: queued\n", false),
    ("\n1 commit", "1: ok 1\n1: ok 1\n1: committed 2\n", true),
    ("\n2 insert into S values('a','q')", "2: queued\n", false),
    (
        "\n2 commit",
        "2: ok 1\n2: ok 1\n2: error clash + S('a', 'x')\n2: aborted 3\n",
        false,
    ),
    (
        "\n3 insert into S values('a','q')",
        "3: error clash + S('a', 'x')\n",
        false,
    ),
    ("\n3 begin", "3: begun\n", false),
    ("\n3 delete from S where k = 'a'", "3: queued\n", false),
    ("\n3 commit", "3: ok 1\n3: committed 1\n", true),
    (
        "\n0 show world BELIEF 'Alice'",
        "0: + S('b', 'z') inherited\n0: ok 1\n",
        true,
    ),
];

/// How many bytes of the stream a read gives.
const STEP: usize = 16;

/// The bytes of the first pieces.
fn stream_of(alloc: Global, count: usize) -> Result<Vec<u8>, Fail> {
    let mut stream = Vec::new(alloc);
    for (piece, _, _) in PIECES.iter().take(count) {
        stream.extend_from_slice(piece.as_bytes())?;
        stream.push(b';')?;
    }
    Ok(stream)
}

/// The replies to the first pieces.
fn replies_of(alloc: Global, count: usize) -> Result<Vec<u8>, Fail> {
    let mut replies = Vec::new(alloc);
    for (_, reply, _) in PIECES.iter().take(count) {
        replies.extend_from_slice(reply.as_bytes())?;
    }
    Ok(replies)
}

/// How often the first pieces commit, and opening once.
fn commits_of(count: usize) -> u64 {
    let committing = PIECES.iter().take(count).filter(|piece| piece.2).count();
    committing as u64 + 1
}

/// A source of the whole stream of which this read fails.
fn source_failing(alloc: Global, read: u32) -> Result<MemSource, Fail> {
    let stream = stream_of(alloc, PIECES.len())?;
    Ok(MemSource::new(stream, STEP, only(alloc, read)?))
}

/// What a stream leaves of which nothing fails but reads of this source.
fn left_by_source(alloc: Global, source: MemSource) -> Result<Left, Fail> {
    left_by(
        alloc,
        "many",
        source,
        quiet_sink(alloc)?,
        quiet_keeper(alloc),
    )
}

/// What a stream leaves of which nothing fails.
fn left_by_stream(alloc: Global, stream: Vec<u8>) -> Result<Left, Fail> {
    left_by_source(alloc, MemSource::new(stream, STEP, List::new(alloc)))
}

/// The rows that the first pieces leave.
fn rows_after(alloc: Global, count: usize) -> Result<MemKeeper, Fail> {
    Ok(left_by_stream(alloc, stream_of(alloc, count)?)?.keeper)
}

/// Whether the rows are those that the first pieces leave, committed as often.
fn stands_after(alloc: Global, left: &Left, count: usize) -> Result<bool, Fail> {
    let rows = rows_after(alloc, count)?;
    Ok(left.keeper.commits() == commits_of(count) && left.keeper.same_rows(&rows))
}

/// To how many of the first pieces these are the replies; none where they end within one.
fn pieces_told(alloc: Global, bytes: &[u8]) -> Result<Option<usize>, Fail> {
    for count in 0..PIECES.len() + 1 {
        let replies = replies_of(alloc, count)?;
        if replies.as_slice() == bytes {
            return Ok(Some(count));
        }
    }
    Ok(None)
}

/// Whether a run that a fault of the keeper ended told of the pieces that were done, and left their rows.
fn ends_at_a_piece(alloc: Global, left: &Left) -> Result<bool, Fail> {
    let Some(count) = pieces_told(alloc, left.out.bytes())? else {
        return Ok(false);
    };
    if left.keeper.commits() == 0 {
        return Ok(left.status == 5 && count == 0 && left.keeper.same_rows(&quiet_keeper(alloc)));
    }
    Ok(left.status == 5 && stands_after(alloc, left, count)?)
}

#[test]
fn each_call_of_the_keeper_fails_once(rt: HostRuntime) -> Result<(), Fail> {
    let alloc = rt.alloc();
    for call in 1..100_000 {
        let source = source_failing(alloc, 0)?;
        let keeper = MemKeeper::new(alloc, only(alloc, call)?);
        let left = left_by(alloc, "many", source, quiet_sink(alloc)?, keeper)?;
        if left.status == 1 {
            assert!(rt; stands_after(alloc, &left, PIECES.len())?);
            assert!(rt; 50 < call);
            return Ok(());
        }
        assert!(rt; ends_at_a_piece(alloc, &left)?, "call {call}");
    }
    assert!(rt; false, "each call fails");
    Ok(())
}

/// How many whole replies these bytes have, the first of the stream; none where they are no front of its replies.
fn whole_replies(alloc: Global, bytes: &[u8]) -> Result<Option<usize>, Fail> {
    let all = replies_of(alloc, PIECES.len())?;
    if !all.starts_with(bytes) {
        return Ok(None);
    }
    let mut whole = 0;
    for count in 0..PIECES.len() + 1 {
        let replies = replies_of(alloc, count)?;
        if bytes.starts_with(replies.as_slice()) {
            whole = count;
        }
    }
    Ok(Some(whole))
}

/// Whether a run that a fault of the sink ended wrote a front of the replies, and left the rows of the piece that it was about to
/// tell of.
fn ends_within_a_reply(alloc: Global, left: &Left) -> Result<bool, Fail> {
    match whole_replies(alloc, left.out.bytes())? {
        Some(whole) => Ok(left.status == 4 && stands_after(alloc, left, whole.saturating_add(1))?),
        None => Ok(false),
    }
}

#[test]
fn each_write_fails_once(rt: HostRuntime) -> Result<(), Fail> {
    let alloc = rt.alloc();
    for write in 1..1_000 {
        let source = source_failing(alloc, 0)?;
        let out = MemSink::new(alloc, only(alloc, write)?, 1, ROOM)?;
        let left = left_by(alloc, "many", source, out, quiet_keeper(alloc))?;
        if left.status == 1 {
            assert!(rt; stands_after(alloc, &left, PIECES.len())?);
            assert!(rt; 16 < write);
            return Ok(());
        }
        assert!(rt; ends_within_a_reply(alloc, &left)?, "write {write}");
    }
    assert!(rt; false, "each write fails");
    Ok(())
}

/// How many pieces end in the first bytes of the stream.
fn pieces_in(stream: &[u8], bytes: usize) -> usize {
    let first = stream.get(..bytes).unwrap_or(stream);
    first.iter().filter(|byte| **byte == b';').count()
}

/// Whether a run that the fault of a read ended told of the pieces that ended before it, and left their rows.
fn ends_before_a_read(alloc: Global, left: &Left, read: usize) -> Result<bool, Fail> {
    let stream = stream_of(alloc, PIECES.len())?;
    let count = pieces_in(
        stream.as_slice(),
        STEP.saturating_mul(read.saturating_sub(1)),
    );
    let replies = replies_of(alloc, count)?;
    Ok(
        left.status == 3
            && left.out.bytes() == replies.as_slice()
            && stands_after(alloc, left, count)?,
    )
}

#[test]
fn each_read_fails_once(rt: HostRuntime) -> Result<(), Fail> {
    let alloc = rt.alloc();
    for read in 1..1_000 {
        let left = left_by_source(alloc, source_failing(alloc, read)?)?;
        if left.status == 1 {
            assert!(rt; stands_after(alloc, &left, PIECES.len())?);
            assert!(rt; 20 < read);
            return Ok(());
        }
        assert!(rt;
            ends_before_a_read(alloc, &left, read as usize)?,
            "read {read}"
        );
    }
    assert!(rt; false, "each read fails");
    Ok(())
}

/// How many of the first pieces are told without an error.
const FINE: usize = 10;

/// Whether something stands behind the last piece that ends in a front of the stream. Between two pieces there is a line feed alone.
fn has_rest(front: &[u8]) -> bool {
    match front.last() {
        Some(byte) => *byte != b';' && *byte != b'\n',
        None => false,
    }
}

/// Whether a run over a front of the stream tells of the pieces that end in it and of its rest, and leaves the rows of these pieces:
/// a batch that is open is dropped.
fn ends_at(alloc: Global, front: &[u8]) -> Result<bool, Fail> {
    let left = left_by_stream(alloc, Vec::from_slice(alloc, front)?)?;
    let count = pieces_in(front, front.len());
    let mut replies = replies_of(alloc, count)?;
    let is_unfinished = has_rest(front);
    if is_unfinished {
        replies.extend_from_slice(UNFINISHED)?;
    }
    let status = if is_unfinished || FINE < count { 1 } else { 0 };
    Ok(
        left.status == status
            && left.out.bytes() == replies.as_slice()
            && stands_after(alloc, &left, count)?,
    )
}

#[test]
fn the_stream_ends_anywhere(rt: HostRuntime) -> Result<(), Fail> {
    let stream = stream_of(rt.alloc(), PIECES.len())?;
    let whole = stream.as_slice();
    for count in 0..whole.len() + 1 {
        let front = whole.get(..count).unwrap_or(whole);
        assert!(rt; ends_at(rt.alloc(), front)?, "{count} bytes");
    }
    Ok(())
}
