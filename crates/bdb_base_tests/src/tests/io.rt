// Tests of the sources and sinks.
use bdb_base::List;
use bdb_io::{
    MemSink, MemSource, NoSource, QuietSink, QuietSource, ReadSource, Sink, Source, WriteSink,
};
use std::alloc::{AllocError, Global};
use std::test::Fail;

/// What some reads into four bytes of room gave: the bytes and a full stop, or an exclamation mark for a failure.
fn reads_of<S: Source>(alloc: Global, source: &mut S, reads: usize) -> Result<Vec<u8>, AllocError> {
    let mut told = Vec::new(alloc);
    let mut room = [0u8; 4];
    for _ in 0..reads {
        match source.read(&mut room) {
            Ok(count) => {
                told.extend_from_slice(&room[..count])?;
                told.push(b'.')?;
            }
            Err(_) => told.push(b'!')?,
        }
    }
    Ok(told)
}

/// Whether each of the writes of two bytes, and then of three, was taken: a plus for yes.
fn writes_of<S: Sink>(alloc: Global, sink: &mut S) -> Result<Vec<u8>, AllocError> {
    let mut told = Vec::new(alloc);
    for piece in [b"ab".as_slice(), b"cde".as_slice(), b"fg".as_slice()] {
        let mark = if sink.write_all(piece).is_ok() {
            b'+'
        } else {
            b'!'
        };
        told.push(mark)?;
    }
    Ok(told)
}

fn numbers(alloc: Global, from: &[u32]) -> Result<List<u32>, AllocError> {
    Ok(List::from_vec(Vec::from_slice(alloc, from)?))
}

#[test]
fn a_source_in_memory_gives_its_bytes(rt: HostRuntime) -> Result<(), Fail> {
    let alloc = rt.alloc();
    let cases = [
        (3, [2, 9].as_slice(), b"abc.!def.g..".as_slice()),
        (9, [1, 3].as_slice(), b"!abcd.!efg..".as_slice()),
        (1, [0, 0].as_slice(), b"a.b.c.d.e.".as_slice()),
    ];
    for (step, fails, told) in cases {
        let bytes = Vec::from_slice(alloc, b"abcdefg")?;
        let mut source = MemSource::new(bytes, step, numbers(alloc, fails)?);
        let got = reads_of(alloc, &mut source, 5)?;
        assert_eq!(rt; got.as_slice(), told);
    }
    Ok(())
}

#[test]
fn a_sink_in_memory_keeps_its_bytes(rt: HostRuntime) -> Result<(), Fail> {
    let alloc = rt.alloc();
    let cases = [
        (
            [8, 9].as_slice(),
            1,
            20,
            b"+++".as_slice(),
            b"abcdefg".as_slice(),
        ),
        (
            [2, 9].as_slice(),
            1,
            20,
            b"+!+".as_slice(),
            b"abcfg".as_slice(),
        ),
        (
            [1, 3].as_slice(),
            9,
            20,
            b"!+!".as_slice(),
            b"abcdefg".as_slice(),
        ),
        (
            [8, 9].as_slice(),
            9,
            4,
            b"+!!".as_slice(),
            b"abcd".as_slice(),
        ),
        (
            [8, 9].as_slice(),
            0,
            4,
            b"+!+".as_slice(),
            b"abfg".as_slice(),
        ),
        (
            [2, 9].as_slice(),
            2,
            3,
            b"+!!".as_slice(),
            b"abc".as_slice(),
        ),
    ];
    for (fails, part, room, told, kept) in cases {
        let mut sink = MemSink::new(alloc, numbers(alloc, fails)?, part, room)?;
        let got = writes_of(alloc, &mut sink)?;
        assert_eq!(rt; got.as_slice(), told);
        assert_eq!(rt; sink.bytes(), kept);
    }
    Ok(())
}

#[test]
fn quiet_ends_never_fail_and_no_source_always_does(rt: HostRuntime) -> Result<(), Fail> {
    let alloc = rt.alloc();
    let mut source = QuietSource::new(Vec::from_slice(alloc, b"abcdefg")?);
    assert_eq!(rt;
        reads_of(alloc, &mut source, 3)?.as_slice(),
        b"abcd.efg..".as_slice()
    );
    assert_eq!(rt;
        reads_of(alloc, &mut NoSource::new(), 3)?.as_slice(),
        b"!!!".as_slice()
    );
    assert_eq!(rt;
        writes_of(alloc, &mut QuietSink::new())?.as_slice(),
        b"+++".as_slice()
    );
    Ok(())
}

#[test]
fn adapters_pass_bytes_on(rt: HostRuntime) -> Result<(), Fail> {
    let alloc = rt.alloc();
    let mut source = ReadSource::new(b"abcdefg".as_slice());
    assert_eq!(rt;
        reads_of(alloc, &mut source, 3)?.as_slice(),
        b"abcd.efg..".as_slice()
    );
    let mut sink = WriteSink::new(Vec::new(alloc));
    assert_eq!(rt; writes_of(alloc, &mut sink)?.as_slice(), b"+++".as_slice());
    assert_eq!(rt; sink.writer.as_slice(), b"abcdefg".as_slice());
    Ok(())
}
