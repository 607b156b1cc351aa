// Words of each form, and what is wrong with others.
use crate::{Told, asks_of_program, work_in, wrong_word};

/// A key.
const KEY: &str = "000102030405060708090a0b0c0d0e0f";

/// Words of each form.
const GOOD: [&[&str]; 11] = [
    &["serve", "D"],
    &["device", "F"],
    &["bench", "D", "F"],
    &["audit", "D"],
    &["fleet", "0", "1", "400"],
    &["sheets", "D"],
    &["advise", "D", "A1", "16383"],
    &["check"],
    &["ring", "F", "16"],
    &["sound", "D"],
    &["values", KEY, "999999999", "4095"],
];

/// Words of no form, and the place of the first that is wrong.
const BAD: [(&[&str], usize); 24] = [
    (&[], 0),
    (&["walk"], 0),
    (&["walk", "D"], 0),
    (&["", "D"], 0),
    (&["Serve", "D"], 0),
    (&["serve"], 1),
    (&["serve", ""], 1),
    (&["serve", "D", "F"], 2),
    (&["bench", "D"], 2),
    (&["bench", "", "F"], 1),
    (&["bench", "D", "F", "G"], 3),
    (&["ring", "F"], 2),
    (&["ring", "F", "17"], 2),
    (&["fleet", "18446744073709551616", "1", "1"], 1),
    (&["fleet", "1", "0", "1"], 2),
    (&["fleet", "1", "1", "401"], 3),
    (&["fleet", "1", "1", "1", "1"], 4),
    (&["advise", "D", "a serial", "0"], 2),
    (&["advise", "D", "A1", "000000"], 3),
    (&["check", "D"], 1),
    (&["sound"], 1),
    (&["values", "00", "0", "0"], 1),
    (&["values", KEY, "1000000000", "0"], 2),
    (&["values", KEY, "0", "4096"], 3),
];

#[test]
fn words_of_each_form(rt: HostRuntime) {
    for words in GOOD {
        assert!(rt; work_in(words).is_some());
        assert_eq!(rt; wrong_word(words), None);
        assert_eq!(rt; asks_of_program(words), None);
    }
}

#[test]
fn words_of_no_form(rt: HostRuntime) {
    for (words, place) in BAD {
        assert!(rt; work_in(words).is_none());
        assert_eq!(rt; wrong_word(words), Some(place));
        assert_eq!(rt; asks_of_program(words), None);
    }
}

#[test]
fn words_about_the_program(rt: HostRuntime) {
    assert_eq!(rt; asks_of_program(&["--help"]), Some(Told::Help));
    assert_eq!(rt; asks_of_program(&["--version"]), Some(Told::Version));
    assert_eq!(rt; asks_of_program(&["--help", "--help"]), None);
    assert_eq!(rt; asks_of_program(&["-h"]), None);
}
