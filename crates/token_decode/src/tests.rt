use super::*;
use paygo_spec::LAST;
use std::process::Abort;
use token_chain::{Plain, Stride};

/// A key of 16 zeros.
const ZEROS: [u8; 16] = [0; 16];

/// The key of the published vectors of SipHash.
const RISING: [u8; 16] = [0, 1, 2, 3, 4, 5, 6, 7, 8, 9, 10, 11, 12, 13, 14, 15];

/// The starting code of each device here.
const START: u32 = 123_456_789;

/// Shorter names for what is wanted.
fn valid(count: u16, value: u16) -> Found {
    Found::Valid { count, value }
}

fn old(count: u16) -> Found {
    Found::Old { count }
}

/// Compares what a device with this last count and these bits makes of tokens with what is wanted. The counts of a
/// chain by `Stride<7>` are 7,000 apart.
fn compare(rt: &impl Abort, (last, bits): (u16, u16), rows: &[(u32, Found)]) {
    let window = Window::of_parts(LAST, last, bits).expect(rt, "a window");
    for &(token, want) in rows {
        assert_eq!(rt;
            find::<Stride<7>>(&ZEROS, START, &window, token),
            want,
            "{last} {bits}: {token}"
        );
    }
}

#[test]
fn tokens_on_a_new_device(rt: HostRuntime) {
    let rows = [
        (123_463_819, valid(1, 30)),
        (123_470_794, valid(2, 5)),
        (123_484_794, valid(4, 5)),
        (123_596_794, valid(20, 5)),
        // a token that frees the device
        (123_463_787, valid(1, 998)),
        // the furthest add token, and the next one
        (123_904_794, valid(64, 5)),
        (123_918_794, Found::Invalid),
        // the furthest sync token, and the next one
        (124_149_788, valid(99, 999)),
        (124_163_788, Found::Invalid),
        // the tokens of count 0
        (123_456_789, old(0)),
        (123_456_794, old(0)),
        (123_456_788, old(0)),
        // values that no token has: 996 and 997, and of an even count 998 and 999
        (123_463_785, old(1)),
        (123_463_786, old(1)),
        (123_470_785, old(2)),
        (123_470_787, old(2)),
        (124_156_788, old(100)),
        // tokens of no count
        (123_463_000 - 1, Found::Invalid),
        (0, Found::Invalid),
        (999_999_999, Found::Invalid),
        (u32::MAX, Found::Invalid),
    ];
    compare(&rt, (0, 0), &rows);
}

/// Hands a token in to a device with this window, which takes it where it is valid.
fn hand_in(window: &mut Window, token: u32) -> Found {
    let found = find::<Stride<7>>(&ZEROS, START, window, token);
    if let Found::Valid { count, value } = found {
        window.take(count, value);
    }
    found
}

#[test]
fn used_and_overtaken_tokens(rt: HostRuntime) {
    let none = (0, Found::Invalid);
    let histories = [
        // a used token
        [
            (123_463_819, valid(1, 30)),
            (123_470_794, valid(2, 5)),
            (123_470_794, old(2)),
            (123_463_819, old(1)),
        ],
        // an older add token after a newer one, and after a set token, which overtakes it
        [
            (123_484_794, valid(4, 5)),
            (123_470_794, valid(2, 5)),
            (123_484_794, old(4)),
            none,
        ],
        [
            (123_484_794, valid(4, 5)),
            (123_491_819, valid(5, 30)),
            (123_470_794, old(2)),
            none,
        ],
        // fourteen below the last count, and sixteen
        [
            (123_596_794, valid(20, 5)),
            (123_498_794, valid(6, 5)),
            (123_484_794, old(4)),
            (123_498_794, old(6)),
        ],
        // the furthest sync token, and the next one
        [
            (124_149_788, valid(99, 999)),
            (124_149_788, old(99)),
            (124_163_788, valid(101, 999)),
            none,
        ],
    ];
    for history in histories {
        let mut window = Window::fresh();
        for (token, want) in history {
            assert_eq!(rt; hand_in(&mut window, token), want, "{token}");
        }
    }
}

#[test]
fn tokens_at_the_last_counts(rt: HostRuntime) {
    let near = [
        (152_121_794, valid(4095, 5)),
        (152_114_794, valid(4094, 5)),
        (152_128_794, Found::Invalid),
    ];
    compare(&rt, (4031, 0xFFFF), &near);
    let at = [(152_121_794, old(4095)), (152_128_794, Found::Invalid)];
    compare(&rt, (4095, 0xFFFF), &at);
}

/// What a device makes of a token under each of the two limits.
fn under_limits<M: Mixer>(rt: &impl Abort, last: u16, bits: u16, token: u32) -> (Found, Found) {
    let mut window = Window::of_parts(LAST, last, bits).expect(rt, "a window");
    let before = find::<M>(&ZEROS, START, &window, token);
    window.raise();
    (before, find::<M>(&ZEROS, START, &window, token))
}

/// A raised device takes counts above 4,095, and of a token of two counts the least alone decides.
#[test]
fn tokens_on_a_raised_device(rt: HostRuntime) {
    assert_eq!(rt;
        under_limits::<Stride<7>>(&rt, 4095, 0xFFFF, 152_135_819),
        (Found::Invalid, valid(4097, 30)),
        "a count above 4,095"
    );
    assert_eq!(rt;
        under_limits::<Stride<1000>>(&rt, 1000, 0b1, 125_456_794),
        (valid(1002, 5), old(2)),
        "a token of two counts"
    );
}

/// A chain that stands still: each count has the same tokens, so that the least count must be told.
#[test]
fn tokens_of_many_counts(rt: HostRuntime) {
    let table = [
        ((0, 0), 123_456_794, valid(1, 5)),
        ((0, 0), 123_456_785, old(0)),
        ((4, 0b1), 123_456_794, valid(2, 5)),
        ((4, 0b101), 123_456_794, valid(5, 5)),
        ((4, 0b1), 123_456_788, valid(5, 999)),
        ((4095, 0xFFFF), 123_456_794, old(0)),
    ];
    for ((last, bits), token, want) in table {
        let window = Window::of_parts(LAST, last, bits).expect(&rt, "a window");
        assert_eq!(rt;
            find::<Stride<0>>(&ZEROS, START, &window, token),
            want,
            "{last} {bits}: {token}"
        );
    }
}

/// The codes of this chain come from a SipHash-2-4 that was written apart from this one.
#[test]
fn tokens_of_the_chain(rt: HostRuntime) {
    let table = [
        (206_586_789, valid(1, 0)),
        (608_713_789, valid(2, 0)),
        (676_955_789, valid(3, 0)),
        (123_456_789, old(0)),
        (676_955_788, Found::Invalid),
    ];
    for (token, want) in table {
        assert_eq!(rt;
            find::<Plain>(&RISING, START, &Window::fresh(), token),
            want,
            "{token}"
        );
    }
}

#[test]
fn one_greatest_count(rt: HostRuntime) {
    assert_eq!(rt; token_chain::LAST, 4095);
    assert_eq!(rt; paygo_spec::LAST, 4095);
}
