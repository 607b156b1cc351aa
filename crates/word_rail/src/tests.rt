use super::*;

/// Numbers and the words in which they stand: 1, and the entry that accepts count 1 with value 30.
const WORDS: [(u32, u64); 2] = [
    (0x0000_0001, 0x0000_0001_FFFF_FFFE),
    (0x0000_041E, 0x0000_041E_FFFF_FBE1),
];

/// Words that are no railed number, and whether one bit of each pair is 1: an erased word, a word of zeros, and the
/// railed 1 torn by an erase that set every other bit.
const OTHERS: [(u64, bool); 3] = [
    (0xFFFF_FFFF_FFFF_FFFF, true),
    (0x0000_0000_0000_0000, false),
    (0x5555_5555_FFFF_FFFF, true),
];

#[test]
fn words_of_numbers(rt: HostRuntime) {
    for (number, word) in WORDS {
        assert_eq!(rt; rail(number), word);
        assert_eq!(rt; unrail(word), Some(number));
        assert!(rt; paired(word));
    }
    for (word, is_paired) in OTHERS {
        assert_eq!(rt; unrail(word), None);
        assert_eq!(rt; paired(word), is_paired);
    }
    torn();
    torn_bits();
    tests_agree();
}
