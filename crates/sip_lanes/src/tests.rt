use super::*;
use std::test::Fail;
use token_chain::{Mixer, Plain};

/// The key of the published vectors of SipHash.
const RISING: [u8; 16] = [0, 1, 2, 3, 4, 5, 6, 7, 8, 9, 10, 11, 12, 13, 14, 15];

#[test]
fn places_of_a_number(rt: HostRuntime) -> Result<(), Fail> {
    assert_eq!(rt; count_equal(&[5; 17], 5), 17);
    assert_eq!(rt; count_equal(&[], 5), 0);
    assert_eq!(rt; count_equal(&[1, 2, 3, 4, 5, 6, 7, 8, 9], 9), 1);
    Ok(())
}

/// The codes that follow 123,456,789 under the key, from a SipHash-2-4 that was written apart from this one.
#[test]
fn steps_of_the_chain(rt: HostRuntime) -> Result<(), Fail> {
    let keys = [[0; 16], RISING, RISING, RISING];
    let codes = [0, 123_456_789, 206_586_827, 608_713_645];
    let next = Lanes::step4(&keys, &codes);
    assert_eq!(rt; next[0], Plain::step(&[0; 16], 0));
    assert_eq!(rt; next[1], 206_586_827);
    assert_eq!(rt; next[2], 608_713_645);
    assert_eq!(rt; next[3], 676_955_149);
    assert_eq!(rt; Lanes::step(&RISING, 123_456_789), 206_586_827);
    Ok(())
}
