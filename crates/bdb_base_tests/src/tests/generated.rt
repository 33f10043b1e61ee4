// The first lines of some seeds.
use bdb_gen::generate;
use std::test::Fail;

const FIRST_LINES: &[u8] =
    b"create user 'u0';\ncreate user 'u1';\ncreate user 'u2';\ncreate user 'u3';\ncreate user 'u4';\n\
create user 'u5';\ncreate user 'u6';\ncreate user 'u7';\ncreate relation R(k int, v int);\n";

const LINES_OF_28: &[u8] = b"insert into BELIEF 'u6' BELIEF 'u1' not R values(8,2);\n\
insert into BELIEF 'u0' BELIEF 'u6' BELIEF 'u7' R values(15,2);\n\
select U.name, X.v from Users U, R X, BELIEF U.uid not R Y where Y.k = X.k and Y.v = X.v and X.k = 40;\n\
select U.name, X.v from Users U, BELIEF U.uid R X where X.k = 39;\n\
delete from R where k = 44;\n";

#[test]
fn writes_first_lines(rt: HostRuntime) -> Result<(), Fail> {
    let text = generate(rt.alloc(), 7, 0)?;
    assert_eq!(rt; text.as_slice(), FIRST_LINES);
    let text = generate(rt.alloc(), 0, 1)?;
    assert!(rt;
        text.as_slice()
            .ends_with(b"\ndelete from BELIEF 'u4' R where k = 24;\n")
    );
    let text = generate(rt.alloc(), 1, 1)?;
    assert!(rt; text.as_slice().ends_with(b"\ninsert into R values(3,0);\n"));
    let text = generate(rt.alloc(), 28, 5)?;
    assert!(rt; text.as_slice().ends_with(LINES_OF_28));
    let text = generate(rt.alloc(), 7, 10_000)?;
    assert_eq!(rt; text.len(), 540_620);
    Ok(())
}
