use super::*;
use siphash24::hash;
use std::test::Fail;

/// A key of 16 zeros.
const ZEROS: [u8; 16] = [0; 16];

/// The key of the published vectors of SipHash.
const RISING: [u8; 16] = [0, 1, 2, 3, 4, 5, 6, 7, 8, 9, 10, 11, 12, 13, 14, 15];

#[test]
fn folded_hashes(rt: HostRuntime) -> Result<(), Fail> {
    let table: [(u64, u32); 5] = [
        (hash(&RISING, &RISING[..15]), 975_561_697),
        (hash(&RISING, &[]), 735_606_109),
        // The 30 bits are the code at the edge, and then above it.
        (999_999_999 << 2, 999_999_999),
        (1_000_000_000 << 2, 926_258_175),
        (1_073_741_823 << 2, 999_999_998),
    ];
    for (hash, wanted) in table {
        assert_eq!(rt; fold(hash), wanted);
    }
    Ok(())
}

#[test]
fn last_three_digits(rt: HostRuntime) -> Result<(), Fail> {
    assert_eq!(rt; base(123_456_789), 789);
    assert_eq!(rt; token_base(123_456_789, 300), 89);
    assert_eq!(rt; put(123_456_789, 89), 123_456_089);
    assert_eq!(rt; value_of(123_456_789, 123_456_089), 300);
    Ok(())
}

#[test]
fn tokens_of_a_device(rt: HostRuntime) -> Result<(), Fail> {
    let table: [(u16, u16, u32); 5] = [
        (1, 30, 123_463_819),
        (2, 5, 123_470_794),
        (4, 5, 123_484_794),
        (64, 5, 123_904_794),
        (99, 999, 124_149_788),
    ];
    for (count, value, wanted) in table {
        assert!(rt; count <= LAST);
        assert!(rt; value < 1000);
        assert_eq!(rt;
            token::<Stride<7>>(&ZEROS, 123_456_789, count, value),
            wanted,
            "count {count}"
        );
    }
    Ok(())
}

#[test]
fn steps_of_a_walk(rt: HostRuntime) -> Result<(), Fail> {
    let mut walk = Walk::<Stride<7>>::new(&ZEROS, 123_456_789, 30);
    walk.advance();
    assert_eq!(rt; walk.count(), 1);
    assert_eq!(rt; walk.code(), 123_463_819);
    assert_eq!(rt; walk.token(), 123_463_819);
    Ok(())
}

/// The codes that follow 123,456,789, from a SipHash-2-4 that was written apart from this one.
#[test]
fn steps_of_the_chain(rt: HostRuntime) -> Result<(), Fail> {
    assert_eq!(rt; Plain::step(&RISING, 123_456_789), 206_586_827);
    assert_eq!(rt; Plain::step(&RISING, 206_586_827), 608_713_645);
    assert_eq!(rt; Plain::step(&RISING, 608_713_645), 676_955_149);
    Ok(())
}

#[test]
fn four_steps_at_once(rt: HostRuntime) -> Result<(), Fail> {
    let codes = [0, 123_456_789, 999_992_999, 999_993_000];
    let wanted = [7000, 123_463_789, 999_999_999, 0];
    assert_eq!(rt; Stride::<7>::step4(&[ZEROS; 4], &codes), wanted);
    // A stride that the 32 bits of a code could not take.
    assert_eq!(rt;
        Stride::<4_294_967_295>::step(&ZEROS, 999_999_999),
        967_294_999
    );
    Ok(())
}
