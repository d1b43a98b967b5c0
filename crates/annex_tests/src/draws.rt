use sample_draw::{NoMemory, draw, draw_more};
use std::alloc::Global;
use std::test::Fail;

const TEN: [u64; 10] = [1, 2, 3, 4, 5, 6, 7, 8, 9, 10];

// For each word, four of the packs 1 to 10, and then by the same word the six that are left. Worked
// out by a Python script over lists, which takes the pack by `list.pop`.
const FOUR_OF_TEN: [(u64, [u64; 4], [u64; 6]); 5] = [
    (0, [8, 4, 2, 5], [10, 9, 3, 6, 7, 1]),
    (1, [5, 4, 7, 3], [6, 9, 1, 2, 8, 10]),
    (7, [9, 10, 2, 3], [5, 4, 6, 8, 7, 1]),
    (0x8000_0000_0000_0000, [2, 6, 3, 7], [8, 9, 4, 10, 5, 1]),
    (u64::MAX, [9, 6, 7, 3], [8, 5, 2, 10, 1, 4]),
];

// The first word of the table that draws other packs. Two of its words by hand: 1 442 695 040 888
// 963 407, which follows 0, gives 167 951 807, which is 7 modulo 10; 1 876 011 003 808 476 466
// gives 218 396 424, which is 3 modulo 9.
fn wrong_word(alloc: Global) -> Result<Option<u64>, NoMemory> {
    for (word, four, six) in FOUR_OF_TEN {
        let first = draw(alloc, word, &TEN, 4)?;
        let second = draw_more(alloc, word, &TEN, &first, 6)?;
        if first.as_slice() != four.as_slice() || second.as_slice() != six.as_slice() {
            return Ok(Some(word));
        }
    }
    Ok(None)
}

#[test]
fn two_draws_of_ten_packs(rt: HostRuntime) -> Result<(), Fail> {
    assert!(rt; wrong_word(rt.alloc())?.is_none());
    assert!(rt; draw(rt.alloc(), 0, &TEN, 0)?.is_empty());
    Ok(())
}
