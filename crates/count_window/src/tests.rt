use super::*;
use std::process::Abort;

/// A device that took the add tokens of counts 36, 38 and 40, and a set token long before.
const ADDED: (u16, u16) = (40, 0b0001_0101);
/// A device that took the set token of count 41.
const SET: (u16, u16) = (41, 0xFFFF);
/// A device that took the add token of count 4,090, and none of the fifteen counts below it.
const NEAR_THE_END: (u16, u16) = (4090, 0b1);
/// A device that took the set token of the greatest count.
const AT_THE_END: (u16, u16) = (4095, 0xFFFF);

/// Compares what a window says of tokens, each by its count and its value, with what is wanted.
fn compare(rt: &impl Abort, (last, bits): (u16, u16), rows: &[(u16, u16, bool)]) {
    let window = Window::of_parts(LAST, last, bits).expect(rt, "a window");
    for &(count, value, want) in rows {
        assert_eq!(rt;
            window.may(count, value),
            want,
            "{last} {bits}: {count} {value}"
        );
    }
}

#[test]
fn takes_counts_within_reach(rt: HostRuntime) {
    let new = [
        (0, 0, false),
        (0, 999, false),
        (1, 0, true),
        (2, 0, true),
        (63, 998, true),
        (64, 995, true),
        (65, 0, false),
        (66, 5, false),
        (65, 999, true),
        (99, 999, true),
        (100, 999, false),
        (101, 999, false),
    ];
    compare(&rt, (0, 0), &new);
    let added = [
        (103, 998, true),
        (104, 0, true),
        (105, 995, false),
        (106, 995, false),
        (139, 999, true),
        (140, 999, false),
        (141, 999, false),
    ];
    compare(&rt, ADDED, &added);
    let near_the_end = [
        (4074, 5, false),
        (4076, 5, true),
        (4094, 995, true),
        (4095, 999, true),
        (4096, 0, false),
        (4097, 999, false),
    ];
    compare(&rt, NEAR_THE_END, &near_the_end);
    let at_the_end = [
        (4094, 0, false),
        (4095, 0, false),
        (4096, 0, false),
        (65535, 999, false),
    ];
    compare(&rt, AT_THE_END, &at_the_end);
}

#[test]
fn takes_counts_and_values_by_kind(rt: HostRuntime) {
    let added = [
        // add tokens below the last count: not the spent ones, and not those sixteen below
        (0, 5, false),
        (24, 5, false),
        (26, 5, true),
        (34, 5, true),
        (36, 5, false),
        (38, 5, false),
        (40, 5, false),
        // no set token below the last count
        (1, 5, false),
        (25, 5, false),
        (37, 999, false),
        (39, 998, false),
        // the values of a set token
        (41, 994, true),
        (41, 995, true),
        (41, 996, false),
        (41, 997, false),
        (41, 998, true),
        (41, 999, true),
        // the values of an add token
        (42, 994, true),
        (42, 995, true),
        (42, 996, false),
        (42, 997, false),
        (42, 998, false),
        (42, 999, false),
    ];
    compare(&rt, ADDED, &added);
    // a set token overtakes every count below it
    let set = [
        (25, 5, false),
        (26, 5, false),
        (40, 5, false),
        (41, 5, false),
        (42, 5, true),
        (43, 998, true),
    ];
    compare(&rt, SET, &set);
}

#[test]
fn tells_the_reach(rt: HostRuntime) {
    let rows = [
        ((0, 0), 0, 64),
        ((0, 0), 998, 64),
        ((0, 0), 999, 100),
        (ADDED, 995, 104),
        (ADDED, 999, 140),
        (NEAR_THE_END, 0, 4095),
        (AT_THE_END, 999, 4095),
    ];
    for ((last, bits), value, want) in rows {
        let window = Window::of_parts(LAST, last, bits);
        assert_eq!(rt;
            window.map(|w| w.reach(value)),
            Some(want),
            "{last} {bits}: {value}"
        );
    }
}

/// Hands a token in, and tells whether it was taken.
fn hand_in(window: &mut Window, count: u16, value: u16) -> bool {
    let may = window.may(count, value);
    if may {
        window.take(count, value);
    }
    may
}

#[test]
fn takes_tokens(rt: HostRuntime) {
    let rows = [
        ((0, 0), 4, 5, (4, 0b1)),
        ((0, 0), 64, 995, (64, 0b1)),
        ((4, 0b1), 2, 5, (4, 0b101)),
        ((4, 0b1), 5, 30, (5, 0b1_1111)),
        ((5, 0b1_1111), 6, 5, (6, 0b11_1111)),
        ((5, 0b1_1111), 8, 5, (8, 0b1111_1001)),
        (ADDED, 26, 5, (40, 0b0100_0000_0001_0101)),
        (ADDED, 42, 5, (42, 0b0101_0101)),
        (ADDED, 54, 5, (54, 0b0100_0000_0000_0001)),
        (ADDED, 56, 5, (56, 0b1)),
        (ADDED, 41, 998, SET),
        (ADDED, 55, 999, (55, 0xFFFF)),
        (NEAR_THE_END, 4095, 999, AT_THE_END),
    ];
    for ((last, bits), count, value, want) in rows {
        let mut window = Window::of_parts(LAST, last, bits).expect(&rt, "a window");
        assert!(rt;
            hand_in(&mut window, count, value),
            "{last} {bits}: {count} {value}"
        );
        assert_eq!(rt; window.parts(), want, "{last} {bits}: {count} {value}");
    }
}

/// Hands four tokens at most to a new device. A count of 0 stands for no token.
#[test]
fn takes_the_tokens_of_a_history(rt: HostRuntime) {
    let none = (0, 0, false);
    let histories = [
        // an older add token still counts after a newer one
        [(4, 5, true), (2, 5, true), none, none],
        // but not after a set token
        [(4, 5, true), (5, 30, true), (2, 5, false), none],
        // the furthest add token and the furthest sync token, and those behind them
        [(64, 5, true), none, none, none],
        [(66, 5, false), none, none, none],
        [(99, 999, true), none, none, none],
        [(101, 999, false), none, none, none],
        // fourteen below is taken once, sixteen below never
        [(20, 5, true), (6, 5, true), (4, 5, false), (6, 5, false)],
    ];
    for history in histories {
        let mut window = Window::fresh();
        for (count, value, want) in history {
            assert_eq!(rt; hand_in(&mut window, count, value), want, "{count} {value}");
        }
    }
}

#[test]
fn keeps_the_rule_on_windows(rt: HostRuntime) {
    let rows = [
        ((0, 0), true),
        ((1, 0b1), true),
        ((2, 0b1), true),
        ((2, 0b11), true),
        ((3, 0b111), true),
        ((4, 0b101), true),
        ((15, 0x7FFF), true),
        ((16, 0xFFFF), true),
        ((40, 0xFFFF), true),
        (AT_THE_END, true),
        // above the greatest count
        ((4096, 0b1), false),
        ((65535, 0xFFFF), false),
        // the last count is spent, if there is one
        ((0, 0b1), false),
        ((5, 0), false),
        ((40, 0xFFFE), false),
        // there is no count below 1
        ((1, 0b11), false),
        ((2, 0b101), false),
        ((15, 0xFFFF), false),
        // a spent odd count overtakes all below it
        ((3, 0b1), false),
        ((3, 0b11), false),
        ((40, 0b11), false),
        ((41, 0x7FFF), false),
    ];
    for ((last, bits), want) in rows {
        let window = Window::of_parts(LAST, last, bits);
        assert_eq!(rt; window.is_some(), want, "{last} {bits}");
        assert_eq!(rt; window.map_or((last, bits), |w| w.parts()), (last, bits));
    }
}

#[test]
fn raises_the_limit(rt: HostRuntime) {
    let mut window = Window::of_parts(LAST, 4095, 0xFFFF).expect(&rt, "a window");
    assert_eq!(rt; (window.limit(), window.may(4096, 5)), (4095, false));
    window.raise();
    assert_eq!(rt; (window.limit(), window.parts()), (16_383, (4095, 0xFFFF)));
    assert_eq!(rt;
        (
            window.may(4096, 5),
            window.may(4159, 998),
            window.may(4161, 0)
        ),
        (true, true, false)
    );
    let last = Window::of_parts(GREAT, 16_383, 0xFFFF);
    assert_eq!(rt; last.map(|w| w.reach(999)), Some(16_383));
    assert_eq!(rt; Window::of_parts(GREAT, 16_384, 0b1), None);
}
