// The first draws of some seeds.
use crate::draws::Draws;
use std::test::Fail;

#[test]
fn draws_first_numbers(rt: HostRuntime) -> Result<(), Fail> {
    let cases: [(u64, u64, u64); 2] = [(0, 167_951_807, 7), (1, 908_834_774, 4)];
    for (seed, first, below_ten) in cases {
        assert_eq!(rt; Draws::new(seed).draw(1 << 31), first);
        assert_eq!(rt; Draws::new(seed).draw(10), below_ten);
    }
    Ok(())
}
